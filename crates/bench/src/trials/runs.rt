//! What is run over the devices of a trial: a script, by the top call, or the restart of its streams alone.

ghost use Rattle.std.specs.Prelude.{◌≡◌, length, IfOk};

use crate::trials::devices::{Calls, Open, TrialDisk, TrialLog, Wrong};
use crate::trials::image::Image;
use crate::trials::stream::Stream;
use anyhow::{Context, Result, bail};
use cc_entry::{CcError, Entry};
use cc_memdev::{MemSink, MemSource};
use cc_redo::{Redo, Restarted, restart, stored_record};
use cc_run::{Ended, cache_main};
use cc_traits::{PageDisk, PostRoutine};
use std::alloc::Global;
use std::sync::Wait;
use std::thread::Threads;

/// What a run of a script, or a restart, left.
#[derive(Drop)]
pub struct Left<'a> {
    pub disks: Vec<TrialDisk<'a>>,
    pub log: TrialLog<'a>,
}

/// What a run of a script gave back.
#[derive(Drop)]
pub struct Ran<'a> {
    pub text: String,
    pub journal: Vec<Entry>,
    pub left: Left<'a>,
}

/// Runs a script over devices that hold an image.
pub fn run_script<'a, R: Threads + Wait + Sync>(
    rt: &R,
    alloc: Global,
    streams: &[Stream],
    image: &Image,
    script: &str,
    calls: &'a Calls,
    wrong: Wrong,
) -> Result<Ran<'a>> {
    let mut disks = Vec::new(alloc);
    for (number, stream) in streams.iter().enumerate() {
        let pages = image.pages(alloc, number)?;
        disks.push(TrialDisk::of_run(alloc, calls, stream.fill(), pages, wrong))?;
    }
    let log = TrialLog::new(alloc, calls, calls, image.entries(alloc)?, wrong);
    run_over(rt, alloc, script, disks, log)
}

/// Runs a script over these devices.
pub fn run_over<'a, R: Threads + Wait + Sync>(
    rt: &R,
    alloc: Global,
    script: &str,
    disks: Vec<TrialDisk<'a>>,
    log: TrialLog<'a>,
) -> Result<Ran<'a>> {
    let mut words = Vec::new(alloc);
    for word in ["run", "s"] {
        words.push(String::from_str(alloc, word)?)?;
    }
    let mut source = MemSource::new(script.as_bytes().to_vec(alloc)?, 4096, Vec::new(alloc));
    let mut sink = MemSink::new(alloc, Vec::new(alloc));
    let mut logs = Vec::new(alloc);
    logs.push(log)?;
    let posts: Vec<Box<dyn PostRoutine + Send>> = Vec::new(alloc);
    let Ended {
        status,
        script: _script,
        replies: _replies,
        ticks: _ticks,
        aheads: _aheads,
        places: _places,
        async_places: _async_places,
        journal,
        disks,
        mut logs,
        posts: _posts,
        disks_begun: _disks_begun,
        logs_begun: _logs_begun,
    } = cache_main(
        rt,
        alloc,
        &words,
        &mut source,
        &mut sink,
        disks,
        logs,
        posts,
        &Open,
    );
    let text = String::from_utf8_lossy(alloc, sink.taken())?;
    if status != 0 {
        bail!("a run ended with status {status}: {text}");
    }
    let log = logs.pop().context("no log came back")?;
    Ok(Ran {
        text,
        journal,
        left: Left { disks, log },
    })
}

/// Restarts the one or two streams of a trial over devices that hold an image. Answers what was answered, and what was left.
pub fn restart_image<'a>(
    alloc: Global,
    streams: &[Stream],
    image: &Image,
    calls: &'a Calls,
    wrong: Wrong,
) -> Result<(Result<Restarted, CcError>, Left<'a>)> {
    let mut disks = Vec::new(alloc);
    for (number, stream) in streams.iter().enumerate() {
        let pages = image.pages(alloc, number)?;
        disks.push(TrialDisk::of_restart(alloc, calls, stream.fill(), pages, wrong))?;
    }
    // A log of which flushes are left out is none of a restart, which makes none.
    let mut log = TrialLog::new(alloc, calls, calls, image.entries(alloc)?, Wrong::Nothing);
    let answer = match streams {
        [only] if disks.len() == 1 => restart_one(alloc, only, &mut log, &mut disks),
        [first, second] if disks.len() == 2 => {
            restart_two(alloc, first, second, &mut log, &mut disks)
        }
        _ => bail!("a trial has one stream or two, and a disk for each"),
    };
    Ok((answer, Left { disks, log }))
}

/// Restarts a stream, with the numbers of its record, or those that are said of it.
fn restart_one(
    alloc: Global,
    stream: &Stream,
    log: &mut TrialLog,
    disks: &mut [TrialDisk],
) -> Result<Restarted, CcError>
    requires one { length disks.old ≡ 1 }
{
    let redo = redo_of(0, stream, &mut disks[0])?;
    restart(alloc, log, &[redo], disks)
}

/// Restarts two streams likewise.
fn restart_two(
    alloc: Global,
    first: &Stream,
    second: &Stream,
    log: &mut TrialLog,
    disks: &mut [TrialDisk],
) -> Result<Restarted, CcError>
    requires two { length disks.old ≡ 2 }
{
    let first = redo_of(0, first, &mut disks[0])?;
    let second = redo_of(1, second, &mut disks[1])?;
    restart(alloc, log, &[first, second], disks)
}

/// A stream with the numbers of its record, or else those that are said of it.
fn redo_of<D: PageDisk>(number: u8, stream: &Stream, disk: &mut D) -> Result<Redo, CcError>
    ensures { IfOk result (λ redo. (redo.stream ≡ number) × (redo.disk ≡ number)) }
{
    let (size, valid) = match stored_record(disk)? {
        Some(told) => (told.size(), told.valid()),
        None => stream.said(),
    };
    if valid <= size && size < 1 << 63 {
        Ok(Redo {
            stream: number,
            disk: number,
            size,
            valid,
        })
    } else {
        Err(CcError::BadSizes)
    }
}
