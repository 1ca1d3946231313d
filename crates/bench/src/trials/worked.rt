//! The trial of one worked script, whose restart is written out: the script, and the one that restarts what it left, are stopped
//! at each of their calls on devices.

use crate::trials::devices::{Calls, Wrong};
use crate::trials::draws::Draws;
use crate::trials::image::{Choice, Image};
use crate::trials::restarts::{CHOICES, Found, MOST, Place, Trial, try_left};
use crate::trials::runs::{Left, Ran};
use crate::trials::stream::{Stream, opening_image};
use anyhow::{Result, bail};
use std::alloc::Global;
use std::sync::Wait;
use std::thread::Threads;

/// The first script: a checkpoint behind two updates of one page, and an update of another page behind it.
const FIRST: &str =
    "stream a 8192 8192 log 0 stored\nupdate a 0 AB\nupdate a 1 CD\ncheckpoint 0\nupdate a 4096 EF\n";

/// What it is answered where nothing stops.
const FIRST_ANSWERS: &str =
    "setup\n1 ok\ncaller t1\n2 ok lsn 1\n3 ok lsn 2\n4 ok lsn 3\n5 ok lsn 4\njournal\n";

/// The second script, over what the first one left.
const SECOND: &str = "restart 0\nstream a 8192 8192 log 0 stored\ncread a 0 3\ncread a 4096 1\n";

/// What it is answered where the log kept its four entries and nothing stops.
const SECOND_ANSWERS: &str =
    "setup\n1 ok restart 3\n2 ok\ncaller t1\n3 ok AB,CD,5A\n4 ok EF\njournal\n1 flushed 0 4\n";

/// How often all choices of a crash are drawn of each stop of the second script, over the whole of what the first one left.
const TIMES: u64 = 8;

/// Tries the two scripts, with what is drawn from a seed.
pub fn try_worked<R: Threads + Wait + Sync>(
    rt: &R,
    alloc: Global,
    seed: u64,
    wrong: Wrong,
) -> Result<Found> {
    let mut found = Found::new();
    let mut draws = Draws::new(seed);
    let mut streams = Vec::new(alloc);
    streams.push(Stream::filled(alloc, 0, "a")?)?;
    let trial = Trial::new(alloc, streams, wrong)?;
    try_first(rt, &trial, &mut draws, &mut found)?;
    found.scripts = 1;
    Ok(found)
}

/// Stops the first script at each of its calls, and the second one at each of its own over what crashes leave of that.
fn try_first<R: Threads + Wait + Sync>(
    rt: &R,
    trial: &Trial,
    draws: &mut Draws,
    found: &mut Found,
) -> Result<()> {
    let opening = opening_image(trial.alloc, &trial.streams)?;
    for stop in 0..MOST {
        let calls = Calls::stopping_after(stop);
        let Ran { text, left, .. } = trial.run(rt, &opening, FIRST, &calls)?;
        found.stops = found.stops.saturating_add(1);
        let place = place_of(1, stop);
        try_left(trial, &left, place, draws, found)?;
        for (of_pages, of_log) in CHOICES {
            let image = trial.crash(&left, of_pages, of_log, draws)?;
            let _text = try_second(rt, trial, &image, 1, draws, found)?;
        }
        if !calls.have_stopped() {
            found.note(trial.alloc, &place, fault_of_text(&text, FIRST_ANSWERS))?;
            return try_whole(rt, trial, &left, draws, found);
        }
    }
    bail!("the first script makes more than {MOST} calls on devices")
}

/// Tries the second script over the whole of what the first one left: its newest pages, and all entries of its log.
fn try_whole<R: Threads + Wait + Sync>(
    rt: &R,
    trial: &Trial,
    left: &Left,
    draws: &mut Draws,
    found: &mut Found,
) -> Result<()> {
    let image = trial.crash(left, Choice::Newest, Choice::Newest, draws)?;
    let text = try_second(rt, trial, &image, TIMES, draws, found)?;
    let fault = fault_of_text(&text, SECOND_ANSWERS);
    found.note(trial.alloc, &place_of(2, u64::MAX), fault)
}

/// Stops the second script at each of its calls over an image, and tries what crashes leave of each stop, so many times. Answers
/// the text of the run that was not stopped.
fn try_second<R: Threads + Wait + Sync>(
    rt: &R,
    trial: &Trial,
    image: &Image,
    times: u64,
    draws: &mut Draws,
    found: &mut Found,
) -> Result<String> {
    for stop in 0..MOST {
        let calls = Calls::stopping_after(stop);
        let Ran { text, left, .. } = trial.run(rt, image, SECOND, &calls)?;
        found.second_runs = found.second_runs.saturating_add(1);
        for _ in 0..times {
            try_left(trial, &left, place_of(2, stop), draws, found)?;
        }
        if !calls.have_stopped() {
            return Ok(text);
        }
    }
    bail!("the second script makes more than {MOST} calls on devices")
}

/// Where the trial stands: in a run, stopped after so many calls.
fn place_of(run: u64, stop: u64) -> Place {
    Place {
        script: 0,
        run,
        stop,
        restart: 0,
    }
}

/// What is wrong with the text of a run that has to begin so.
fn fault_of_text(text: &str, begins: &str) -> Option<&'static str> {
    if text.starts_with(begins) {
        None
    } else {
        Some("a run was answered otherwise than it is written out")
    }
}
