//! The trial of restarts: drawn scripts are stopped at each of their calls on devices, and what a crash may leave is restarted,
//! also by restarts that are stopped at each of their own calls and begun again.

use crate::trials::devices::{Calls, Wrong};
use crate::trials::draws::Draws;
use crate::trials::image::{Choice, Image, LogEntry, draw_disks, draw_entries};
use crate::trials::model::{File, count_updates, is_once_given, is_settled};
use crate::trials::runs::{Left, Ran, restart_image, run_script};
use crate::trials::script::draw_script;
use crate::trials::stream::{Stream, draw_streams, opening_image};
use anyhow::{Result, bail};
use cc_entry::CcError;
use cc_redo::Restarted;
use std::alloc::Global;
use std::fmt;
use std::sync::Wait;
use std::thread::Threads;

/// More calls on devices than any run of a trial makes.
pub const MOST: u64 = 100_000;

/// What a crash leaves of the pages and of the log of one stop, so many times.
pub const CHOICES: [(Choice, Choice); 5] = [
    (Choice::Oldest, Choice::Oldest),
    (Choice::Newest, Choice::Oldest),
    (Choice::Oldest, Choice::Newest),
    (Choice::Drawn, Choice::Drawn),
    (Choice::Drawn, Choice::Drawn),
];

/// What a trial found.
#[derive(Drop)]
pub struct Found {
    pub scripts: u64,
    /// Runs of a script that were stopped, and runs of a second one over what a first one left.
    pub stops: u64,
    pub second_runs: u64,
    /// What crashes left, and how many updates their logs had.
    pub images: u64,
    pub updates: u64,
    /// Restarts that were done, that were stopped, and that were begun again on what a stopped one left.
    pub restarts: u64,
    pub stopped: u64,
    pub again: u64,
    /// Images and restarts that are not as they have to be, and what is wrong with the first.
    pub failures: u64,
    first: Option<String>,
}

impl Found {
    /// Nothing yet.
    pub fn new() -> Found {
        Found {
            scripts: 0,
            stops: 0,
            second_runs: 0,
            images: 0,
            updates: 0,
            restarts: 0,
            stopped: 0,
            again: 0,
            failures: 0,
            first: None,
        }
    }

    /// Notes what is wrong, where something is.
    pub fn note(&mut self, alloc: Global, at: &Place, wrong: Option<&str>) -> Result<()> {
        if let Some(wrong) = wrong {
            self.failures = self.failures.saturating_add(1);
            if self.first.is_none() {
                self.first = Some(format!(in alloc; "{at}: {wrong}")?);
            }
        }
        Ok(())
    }
}

impl fmt::Display for Found {
    fn fmt<W: fmt::Write>(&self, f: &mut fmt::Formatter<W>) -> fmt::Result {
        let Found {
            scripts,
            stops,
            second_runs,
            images,
            updates,
            restarts,
            stopped,
            again,
            failures,
            first,
        } = self;
        write!(
            f,
            "{scripts} scripts, {stops} stops, {second_runs} second runs; "
        )?;
        write!(f, "{images} images with {updates} updates; ")?;
        write!(
            f,
            "{restarts} restarts done, {stopped} stopped, {again} begun again; "
        )?;
        write!(f, "{failures} failures")?;
        match first {
            Some(first) => write!(f, "\nthe first: {first}"),
            None => Ok(()),
        }
    }
}

/// Where a trial stands: its script's number, after how many calls the run was stopped, and the restart.
#[derive(Clone, Copy)]
pub struct Place {
    pub script: u64,
    pub run: u64,
    pub stop: u64,
    pub restart: u64,
}

impl fmt::Display for Place {
    fn fmt<W: fmt::Write>(&self, f: &mut fmt::Formatter<W>) -> fmt::Result {
        let Place {
            script,
            run,
            stop,
            restart,
        } = self;
        write!(
            f,
            "script {script}, run {run}, stopped after {stop}, restart stopped after {restart}"
        )
    }
}

/// What a script is tried over: its streams, their files before all updates, and what is left out.
#[derive(Drop)]
pub struct Trial {
    pub alloc: Global,
    pub streams: Vec<Stream>,
    firsts: Vec<File>,
    wrong: Wrong,
}

impl Trial {
    /// A trial of these streams.
    pub fn new(alloc: Global, streams: Vec<Stream>, wrong: Wrong) -> Result<Trial> {
        let mut firsts = Vec::new(alloc);
        for stream in streams.iter() {
            firsts.push(File::at_first(alloc, stream)?)?;
        }
        Ok(Trial {
            alloc,
            streams,
            firsts,
            wrong,
        })
    }

    /// Runs a script over an image, with these calls.
    pub fn run<'a, R: Threads + Wait + Sync>(
        &self,
        rt: &R,
        image: &Image,
        script: &str,
        calls: &'a Calls,
    ) -> Result<Ran<'a>> {
        run_script(
            rt,
            self.alloc,
            &self.streams,
            image,
            script,
            calls,
            self.wrong,
        )
    }

    /// Restarts an image, with these calls.
    fn restart<'a>(
        &self,
        image: &Image,
        calls: &'a Calls,
    ) -> Result<(Result<Restarted, CcError>, Left<'a>)> {
        restart_image(self.alloc, &self.streams, image, calls, self.wrong)
    }

    /// The files with the updates of an image's log.
    fn files(&self, image: &Image) -> Result<Vec<File>> {
        let mut files = Vec::new(self.alloc);
        for (stream, first) in self.streams.iter().zip(self.firsts.iter()) {
            files.push(first.after(self.alloc, stream, &image.entries)?)?;
        }
        Ok(files)
    }

    /// What a crash leaves of what a run left.
    pub fn crash(
        &self,
        left: &Left,
        of_pages: Choice,
        of_log: Choice,
        draws: &mut Draws,
    ) -> Result<Image> {
        Ok(Image {
            disks: draw_disks(self.alloc, &self.streams, &left.disks, of_pages, draws)?,
            entries: draw_entries(self.alloc, &left.log, of_log, draws)?,
        })
    }

    /// What is wrong with an image before it is restarted: a byte below a recorded valid data length that its file never had.
    fn fault_of_image(&self, image: &Image, left: &Left) -> Option<&'static str> {
        let entries = left.log.entries();
        let files = self.streams.iter().zip(self.firsts.iter());
        for ((stream, first), disk) in files.zip(image.disks.iter()) {
            if !is_once_given(stream, first, entries, disk) {
                return Some(
                    "a crash left a byte below the valid data length that the file never had",
                );
            }
        }
        None
    }

    /// What is wrong with a restart that was not stopped: what it answered, or what its disks hold.
    fn fault_of_restart(
        &self,
        image: &Image,
        files: &[File],
        answer: &Result<Restarted, CcError>,
        left: &Left,
    ) -> Result<Option<&'static str>> {
        let Ok(done) = answer else {
            return Ok(Some("a restart was refused"));
        };
        if done.last != last_lsn(&image.entries) {
            return Ok(Some("a restart told another last LSN"));
        }
        if done.updates != count_updates(&self.streams, &image.entries) {
            return Ok(Some("a restart told another number of updates"));
        }
        if !are_valid(&done.valids, files) {
            return Ok(Some("a restart told another valid data length"));
        }
        for ((stream, file), disk) in self.streams.iter().zip(files).zip(left.disks.iter()) {
            if !is_settled(stream, file, disk.inner())? {
                return Ok(Some("a restart left another file than that of its log"));
            }
        }
        Ok(None)
    }
}

/// The LSN of the last entry, which is the greatest, or 0.
fn last_lsn(entries: &[LogEntry]) -> u64 {
    match entries.last() {
        Some(entry) => entry.0,
        None => 0,
    }
}

/// Whether these are the valid data lengths of the files.
fn are_valid(valids: &[u64], files: &[File]) -> bool {
    valids.len() == files.len()
        && valids
            .iter()
            .zip(files)
            .all(|(valid, file)| *valid == file.valid())
}

/// Tries so many scripts, drawn from a seed.
pub fn try_restarts<R: Threads + Wait + Sync>(
    rt: &R,
    alloc: Global,
    scripts: u64,
    seed: u64,
    wrong: Wrong,
) -> Result<Found> {
    let mut found = Found::new();
    for script in 0..scripts {
        let mut draws = Draws::new(seed.wrapping_add(script));
        let trial = Trial::new(alloc, draw_streams(alloc, &mut draws)?, wrong)?;
        try_script(rt, &trial, script, &mut draws, &mut found)?;
        found.scripts = found.scripts.saturating_add(1);
    }
    Ok(found)
}

/// Stops one script at each of its calls.
fn try_script<R: Threads + Wait + Sync>(
    rt: &R,
    trial: &Trial,
    script: u64,
    draws: &mut Draws,
    found: &mut Found,
) -> Result<()> {
    let opening = opening_image(trial.alloc, &trial.streams)?;
    let text = draw_script(trial.alloc, &trial.streams, false, draws)?;
    for stop in 0..MOST {
        let calls = Calls::stopping_after(stop);
        let Ran { left, .. } = trial.run(rt, &opening, &text, &calls)?;
        found.stops = found.stops.saturating_add(1);
        let place = Place {
            script,
            run: 1,
            stop,
            restart: 0,
        };
        try_left(trial, &left, place, draws, found)?;
        if draws.comes(20) {
            let image = trial.crash(&left, Choice::Drawn, Choice::Drawn, draws)?;
            try_second(rt, trial, &image, place, draws, found)?;
        }
        if !calls.have_stopped() {
            return Ok(());
        }
    }
    bail!("a script makes more than {MOST} calls on devices")
}

/// Runs a second script over what a crash left of a first one, stops it somewhere, and tries what a crash then leaves.
fn try_second<R: Threads + Wait + Sync>(
    rt: &R,
    trial: &Trial,
    image: &Image,
    first: Place,
    draws: &mut Draws,
    found: &mut Found,
) -> Result<()> {
    let text = draw_script(trial.alloc, &trial.streams, true, draws)?;
    let stop = draws.between(0, 120);
    let calls = Calls::stopping_after(stop);
    let Ran { left, .. } = trial.run(rt, image, &text, &calls)?;
    found.second_runs = found.second_runs.saturating_add(1);
    let place = Place {
        run: 2,
        stop,
        ..first
    };
    try_left(trial, &left, place, draws, found)
}

/// Tries what a crash leaves of a run that was stopped, several times.
pub fn try_left(
    trial: &Trial,
    left: &Left,
    place: Place,
    draws: &mut Draws,
    found: &mut Found,
) -> Result<()> {
    for (of_pages, of_log) in CHOICES {
        let image = trial.crash(left, of_pages, of_log, draws)?;
        found.note(trial.alloc, &place, trial.fault_of_image(&image, left))?;
        try_image(trial, &image, place, draws, found)?;
    }
    Ok(())
}

/// Restarts an image: stopped after each number of calls, with a restart behind that, and then not stopped.
fn try_image(
    trial: &Trial,
    image: &Image,
    place: Place,
    draws: &mut Draws,
    found: &mut Found,
) -> Result<()> {
    found.images = found.images.saturating_add(1);
    let updates = count_updates(&trial.streams, &image.entries);
    found.updates = found.updates.saturating_add(updates);
    let files = trial.files(image)?;
    for restart in 0..MOST {
        let place = Place { restart, ..place };
        let calls = Calls::stopping_after(restart);
        let (answer, left) = trial.restart(image, &calls)?;
        if !calls.have_stopped() {
            found.restarts = found.restarts.saturating_add(1);
            let fault = trial.fault_of_restart(image, &files, &answer, &left)?;
            return found.note(trial.alloc, &place, fault);
        }
        found.stopped = found.stopped.saturating_add(1);
        if answer.is_ok() {
            let fault = Some("a restart whose devices stopped was done");
            found.note(trial.alloc, &place, fault)?;
        }
        try_again(trial, &files, &left, place, draws, found)?;
    }
    bail!("a restart makes more than {MOST} calls on devices")
}

/// Restarts what a crash leaves of a restart that was stopped, whose log it leaves whole.
fn try_again(
    trial: &Trial,
    files: &[File],
    left: &Left,
    place: Place,
    draws: &mut Draws,
    found: &mut Found,
) -> Result<()> {
    let choice = if draws.comes(30) {
        Choice::Oldest
    } else {
        Choice::Drawn
    };
    let image = trial.crash(left, choice, Choice::Newest, draws)?;
    found.note(trial.alloc, &place, trial.fault_of_image(&image, left))?;
    let calls = Calls::stopping_after(u64::MAX);
    let (answer, left) = trial.restart(&image, &calls)?;
    found.again = found.again.saturating_add(1);
    let fault = trial.fault_of_restart(&image, files, &answer, &left)?;
    found.note(trial.alloc, &place, fault)
}
