//! The trial of crashes: a script is stopped after each number of calls on its disks and on its log, and what a crash may leave then
//! is told, with the stamped changes that it shows, and whether each of them has its entry in the log.

use crate::trials::changes::Changes;
use crate::trials::devices::{Calls, TrialDisk, TrialLog, Wrong};
use crate::trials::image::LogEntry;
use crate::trials::runs::{Left, Ran, run_over};
use anyhow::{Context, Result, bail, ensure};
use cc_entry::Bytes;
use std::alloc::Global;
use std::fmt;
use std::sync::Wait;
use std::thread::Threads;

/// The names of the columns of the rows.
pub const HEADING: &str =
    "| Disks | Log | Last answer | Entries | Durable | Page | May hold | Stamped changes |";

/// The most calls on disks, and on the log, of a script.
const MOST: u64 = 1000;

/// The byte of each page of the disks at first.
const FILL: u8 = 0x5A;

/// What a trial found.
#[derive(Drop)]
pub struct Crashes {
    /// A row for each content that a crash may leave of a page, stop after stop.
    pub rows: Vec<String>,
    stops: u64,
    /// The stamped changes that contents show, and those of them whose entry the same crash may leave out of the log.
    stamped: u64,
    pub unlogged: u64,
}

impl fmt::Display for Crashes {
    fn fmt<W: fmt::Write>(&self, f: &mut fmt::Formatter<W>) -> fmt::Result {
        let Crashes {
            rows,
            stops,
            stamped,
            unlogged,
        } = self;
        let contents = rows.len();
        write!(f, "{stops} stops, {contents} contents; ")?;
        write!(
            f,
            "{stamped} stamped changes, {unlogged} without their entry"
        )
    }
}

/// Stops a script after each number of calls on its disks and on its log.
pub fn look_at_crashes<R: Threads + Wait + Sync>(
    rt: &R,
    alloc: Global,
    script: &str,
    wrong: Wrong,
) -> Result<Crashes> {
    let mut trial = Trial {
        alloc,
        script,
        names: names_in(alloc, script)?,
        pages: Vec::new(alloc),
        wrong,
    };
    let mut crashes = Crashes {
        rows: Vec::new(alloc),
        stops: 0,
        stamped: 0,
        unlogged: 0,
    };
    let (disks, log) = trial.run_whole(rt)?;
    for of_disks in 0..disks.saturating_add(1) {
        for of_log in 0..log.saturating_add(1) {
            trial.look_at_stop(rt, of_disks, of_log, &mut crashes)?;
        }
    }
    Ok(crashes)
}

/// What is stopped: a script with the names of its streams, the pages that it changes, and what is wrong with its devices.
#[derive(Drop)]
struct Trial<'a> {
    alloc: Global,
    script: &'a str,
    names: Vec<&'a str>,
    /// The number of the stream, and that of the page.
    pages: Vec<(u8, u64)>,
    wrong: Wrong,
}

impl<'a> Trial<'a> {
    /// Runs the script with no stop, and notes its pages. Answers how many calls on disks and on the log it makes.
    fn run_whole<R: Threads + Wait + Sync>(&mut self, rt: &R) -> Result<(u64, u64)> {
        let of_disks = Calls::stopping_after(u64::MAX);
        let of_log = Calls::stopping_after(u64::MAX);
        let Ran { journal, .. } = self.run(rt, &of_disks, &of_log)?;
        let changes = Changes::in_journal(self.alloc, FILL, &journal)?;
        if let Some(stamp) = changes.stamp_hidden() {
            bail!("something else gives each byte of a change with the stamp {stamp}")
        }
        self.add_pages(&changes)?;
        let calls = (of_disks.made(), of_log.made());
        ensure!(
            calls.0 <= MOST && calls.1 <= MOST,
            "a script makes more than {MOST} calls"
        );
        Ok(calls)
    }

    /// Stops the script after so many calls, and looks at what a crash may leave of its pages.
    fn look_at_stop<R: Threads + Wait + Sync>(
        &mut self,
        rt: &R,
        disks: u64,
        log: u64,
        crashes: &mut Crashes,
    ) -> Result<()> {
        let of_disks = Calls::stopping_after(disks);
        let of_log = Calls::stopping_after(log);
        let Ran {
            text,
            journal,
            left,
        } = self.run(rt, &of_disks, &of_log)?;
        let changes = Changes::in_journal(self.alloc, FILL, &journal)?;
        self.add_pages(&changes)?;
        let answer = last_answer(&text);
        let entries = entries_told(self.alloc, left.log.entries())?;
        let durable = left.log.durable();
        let stop = format!(in self.alloc;
            "| {disks} | {log} | {answer} | {entries} | {durable} |"
        )?;
        for (stream, page) in self.pages.iter() {
            self.look_at_page(&stop, &changes, &left, *stream, *page, crashes)?;
        }
        crashes.stops = crashes.stops.saturating_add(1);
        Ok(())
    }

    /// Looks at what a crash may leave of a page, each content once.
    fn look_at_page(
        &self,
        stop: &str,
        changes: &Changes,
        left: &Left,
        stream: u8,
        page: u64,
        crashes: &mut Crashes,
    ) -> Result<()> {
        let name = self.names.get(usize::from(stream)).context("no stream")?;
        let disk = left.disks.get(usize::from(stream)).context("no disk")?;
        let contents = disk.inner().may(page)?;
        for (nth, content) in contents.iter().enumerate() {
            if contents.iter().take(nth).any(|earlier| earlier == content) {
                continue;
            }
            let bytes = bytes_told(self.alloc, content)?;
            let stamps = changes.stamps_shown(self.alloc, stream, page, content)?;
            let told = stamps_told(self.alloc, &stamps, &left.log, crashes)?;
            let row = format!(in self.alloc; "{stop} {name} {page} | {bytes} | {told} |")?;
            crashes.rows.push(row)?;
        }
        Ok(())
    }

    /// Runs the script with these calls.
    fn run<'b, R: Threads + Wait + Sync>(
        &self,
        rt: &R,
        of_disks: &'b Calls,
        of_log: &'b Calls,
    ) -> Result<Ran<'b>> {
        let alloc = self.alloc;
        let mut disks = Vec::new(alloc);
        for _ in self.names.iter() {
            disks.push(TrialDisk::of_run(alloc, of_disks, FILL, Vec::new(alloc), self.wrong))?;
        }
        let log = TrialLog::new(alloc, of_log, of_disks, Vec::new(alloc), self.wrong);
        run_over(rt, alloc, self.script, disks, log)
    }

    /// Notes the pages of changes.
    fn add_pages(&mut self, changes: &Changes) -> Result<()> {
        for change in changes.all() {
            let (first, end) = change.pages();
            for page in first..end {
                let page = (change.stream, page);
                if !self.pages.contains(&page) {
                    self.pages.push(page)?;
                }
            }
        }
        Ok(())
    }
}

/// The names of the streams of a script.
fn names_in<'a>(alloc: Global, script: &'a str) -> Result<Vec<&'a str>> {
    let mut names = Vec::new(alloc);
    for line in script.lines() {
        if let Some(words) = line.strip_prefix("stream ") {
            let (name, _) = words.split_once(' ').unwrap_or((words, ""));
            names.push(name)?;
        }
    }
    Ok(names)
}

/// The last answer of a text: what stands behind the number in the last line before the journal.
fn last_answer(text: &str) -> &str {
    let (front, _) = text.split_once("\njournal\n").unwrap_or((text, ""));
    let (_, line) = front.rsplit_once('\n').unwrap_or(("", front));
    let (_, answer) = line.split_once(' ').unwrap_or(("", line));
    answer
}

/// Entries of a log, each its LSN and its bytes.
fn entries_told(alloc: Global, entries: &[LogEntry]) -> Result<String> {
    let mut text = String::new(alloc);
    for (lsn, bytes) in entries {
        if !text.is_empty() {
            text.push_str("; ")?;
        }
        let bytes = bytes_told(alloc, bytes)?;
        write!(text, "{lsn} {bytes}")?;
    }
    if text.is_empty() {
        text.push_str("none")?;
    }
    Ok(text)
}

/// Bytes as a script has them: their longest runs, parted by commas.
fn bytes_told(alloc: Global, bytes: &[u8]) -> Result<String> {
    let bytes = Bytes::of(alloc, bytes)?;
    let mut text = String::new(alloc);
    for run in bytes.runs() {
        if !text.is_empty() {
            text.push(',')?;
        }
        write!(text, "{:02X}", run.byte)?;
        if run.count > 1 {
            write!(text, "x{}", run.count)?;
        }
    }
    Ok(text)
}

/// The stamps that a content shows, each with whether its entry is on the medium of the log, and so in all that a crash leaves of it.
/// Counts them.
fn stamps_told(
    alloc: Global,
    stamps: &[u64],
    log: &TrialLog,
    crashes: &mut Crashes,
) -> Result<String> {
    let mut text = String::new(alloc);
    for stamp in stamps {
        if !text.is_empty() {
            text.push_str("; ")?;
        }
        crashes.stamped = crashes.stamped.saturating_add(1);
        if is_logged(log, *stamp) {
            write!(text, "{stamp} has its entry")?;
        } else {
            crashes.unlogged = crashes.unlogged.saturating_add(1);
            write!(text, "{stamp} HAS NO ENTRY")?;
        }
    }
    if text.is_empty() {
        text.push_str("none")?;
    }
    Ok(text)
}

/// Whether a crash leaves the entry of an LSN in a log.
fn is_logged(log: &TrialLog, lsn: u64) -> bool {
    lsn <= log.durable() && log.entries().iter().any(|entry| entry.0 == lsn)
}
