//! The program `bench`, which is run outside the gate: it makes one kind of call on the cache again and again, so that a call can
//! be timed or counted, and makes trials that take longer than the gate gives.
//!
//!     bench                              each kind, a few hundred times, over memory, with its speed
//!     bench untimed                      the same without a time, which prints the same each time
//!     bench KIND COUNT                   one kind, so many times, by one caller on a desk
//!     bench KIND COUNT CALLERS           the same by one to four callers on threads of a board, each so many times
//!     bench KIND COUNT CALLERS FOLDER    the same over files of a folder; with 0 callers on a desk
//!     bench trial WORD..                 a trial, whose words `trials` has
//!
//! `kinds` says what there is to measure, `calls` makes such calls over any turns, `mix` draws from all of them, `ahead` has the
//! reads with read-ahead, `devices` what is below the cache, and `runs` a cache from its setup to its end. `./bench` runs it, and
//! puts other programs beside it. `trials` has the trials, which `./try-restart`, `./try-crash` and `./try-kill` make.
#![tactic(auto)]

ghost use Rattle.std.specs.Prelude.{◌≡◌, length};

mod ahead;
mod calls;
mod devices;
mod kinds;
mod mix;
mod runs;
mod trials;

use anyhow::{Result, bail};
use cc_traits::PageDisk;
use devices::{file_disks, memory_disks};
use kinds::{KINDS, Kind};
use runs::{Tally, run};
use std::alloc::Global;
use std::env;
use std::process::ExitCode;
use std::sync::Wait;
use std::thread::Threads;
use std::time::{Clock, Instant};

fn main(rt: HostRuntime) -> ExitCode {
    match run_words(rt, &rt) {
        Ok(true) => ExitCode::SUCCESS,
        Ok(false) => ExitCode::FAILURE,
        Err(error) => {
            let _ = eprintln!(rt; "{error:#}");
            ExitCode::from(2)
        }
    }
}

/// Does what the words ask for, and answers whether no trial found anything.
fn run_words<R: Print + Clock + Threads + Wait + Sync>(
    rt: HostRuntime,
    threads: &R,
) -> Result<bool> {
    let words = words_of(rt)?;
    match words.as_slice().split_first() {
        Some((word, rest)) if word.as_str() == "trial" => trials::run(rt, threads, rest),
        _ => {
            time(rt, threads, &words)?;
            Ok(true)
        }
    }
}

/// Makes the calls that the words ask for, and prints their speed.
fn time<R: Print + Clock + Threads + Wait + Sync>(
    rt: HostRuntime,
    threads: &R,
    words: &[String],
) -> Result<()> {
    let alloc = rt.alloc();
    let Some(name) = words.first() else {
        return measure_all(threads, alloc, true);
    };
    if name.as_str() == "untimed" {
        return measure_all(threads, alloc, false);
    }
    let Some(kind) = KINDS.iter().find(|kind| kind.name == name.as_str()) else {
        bail!("`{name}` is no kind of call")
    };
    let count = number_at(words, 1)?;
    let callers = number_at(words, 2)?;
    match words.get(3) {
        None => {
            let disks = memory_disks(alloc, kind.size(), kind.fails())?;
            measure(threads, alloc, disks, kind, count, callers, true)
        }
        Some(folder) => {
            let disks = file_disks(alloc, rt, folder.as_str())?;
            measure(threads, alloc, disks, kind, count, callers, true)
        }
    }
}

/// Makes each kind of call a few times, over memory.
fn measure_all<R: Print + Clock + Threads + Wait + Sync>(
    rt: &R,
    alloc: Global,
    timed: bool,
) -> Result<()> {
    for kind in KINDS.iter() {
        for callers in [0, 2] {
            let disks = memory_disks(alloc, kind.size(), kind.fails())?;
            measure(rt, alloc, disks, kind, kind.few(), callers, timed)?;
        }
    }
    Ok(())
}

/// Makes one kind of call so many times, over disks, and prints what there is to say.
fn measure<R: Print + Clock + Threads + Wait + Sync, D: PageDisk + Send + Drop>(
    rt: &R,
    alloc: Global,
    disks: Vec<D>,
    kind: &Kind,
    count: u64,
    callers: u64,
    timed: bool,
) -> Result<()>
    requires disks { length disks.items ≡ 4 }
{
    let tally = run(rt, alloc, disks, kind, count, callers)?;
    if timed {
        return tell(rt, kind, callers, tally);
    }
    let made = tally.made;
    let refused = tally.refused;
    // What callers on threads are refused may be another number each time.
    match callers {
        0 => println!(rt; "{} calls={made} refused={refused}", kind.name)?,
        _ => println!(rt; "{} callers={callers} calls={made}", kind.name)?,
    }
    Ok(())
}

/// Prints what calls came to, with their speed.
fn tell<R: Print>(rt: &R, kind: &Kind, callers: u64, tally: Tally) -> Result<()> {
    let Tally {
        made,
        refused,
        took,
    } = tally;
    let nanos = took?.as_nanos().max(1);
    let calls = u128::from(made).saturating_mul(1_000_000_000);
    let bytes = calls.saturating_mul(u128::from(kind.moves()));
    println!(rt;
        "{} callers={callers} calls={made} refused={refused} nanoseconds={nanos}",
        kind.name
    )?;
    println!(rt;
        "{} calls and {} bytes a second",
        calls / nanos,
        bytes / nanos
    )?;
    Ok(())
}

/// The words of the command line, without the program's name.
fn words_of(rt: HostRuntime) -> Result<Vec<String>> {
    let mut words = Vec::new(rt.alloc());
    for word in env::args(&rt)?.skip(1) {
        words.push(word)?;
    }
    Ok(words)
}

/// The number at a place of the command line; 0 where there is no word.
fn number_at(words: &[String], place: usize) -> Result<u64> {
    let Some(word) = words.get(place) else {
        return Ok(0);
    };
    match word.as_str().parse::<u64>() {
        Ok(number) => Ok(number),
        Err(_) => bail!("`{word}` is no number"),
    }
}
