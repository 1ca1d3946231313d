//! The trials, which take longer than the gate gives: the first of their words chooses one.
//!
//! `restarts N SEED` stops N drawn scripts at each of their calls on devices, and restarts what a crash may leave of them, and
//! `worked SEED` does so with a script that is written out, and with the one that restarts it. `crashes SCRIPT` stops a script
//! after each number of calls on its disks and on its log, and tells what a crash may leave then. A further word of these leaves
//! something out on purpose, and the trial has to fail then. `costs N` counts the calls of a restart over a log of N updates.
//! `files SCRIPT FOLDER` runs a script over the files of a folder, and notes each line as soon as it is answered, so that whoever
//! stops the program knows which were.
//!
//! `stream` says what the streams of a trial are, `script` draws a script over them, `draws` is what all is drawn from.
//! `devices` has disks and logs that stop, `runs` what is run over them, `image` what a crash leaves of them. `model` has the
//! plain files by which an image is judged, and knows nothing of the cache or of a restart; `changes` has the changes that a
//! journal tells, and which of them a page shows. `restarts`, `worked`, `crashes`, `costs` and `files` are the trials.

mod changes;
mod costs;
mod crashes;
mod devices;
mod draws;
mod files;
mod image;
mod model;
mod restarts;
mod runs;
mod script;
mod stream;
mod worked;

use crate::trials::costs::count_costs;
use crate::trials::crashes::{Crashes, HEADING, look_at_crashes};
use crate::trials::devices::Wrong;
use crate::trials::files::run_noting;
use crate::trials::restarts::try_restarts;
use crate::trials::worked::try_worked;
use anyhow::{Context, Result, bail};
use std::fs;
use std::sync::Wait;
use std::thread::Threads;

/// Makes the trial that the words ask for, and answers whether nothing was found.
pub fn run<R: Threads + Wait + Sync>(
    rt: HostRuntime,
    threads: &R,
    words: &[String],
) -> Result<bool> {
    match words.first() {
        None => bail!("a trial is missing"),
        Some(word) if word.as_str() == "restarts" => {
            let scripts = number_at(words, 1)?;
            let seed = number_at(words, 2)?;
            let found = try_restarts(threads, rt.alloc(), scripts, seed, wrong_at(words, 3)?)?;
            println!(rt; "{found}")?;
            Ok(found.failures == 0)
        }
        Some(word) if word.as_str() == "worked" => {
            let seed = number_at(words, 1)?;
            let found = try_worked(threads, rt.alloc(), seed, wrong_at(words, 2)?)?;
            println!(rt; "{found}")?;
            Ok(found.failures == 0)
        }
        Some(word) if word.as_str() == "crashes" => {
            let Some(path) = words.get(1) else {
                bail!("a script is missing")
            };
            let script = fs::read_to_string(&rt, path.as_str()).context(format_args!("{path}"))?;
            let crashes = look_at_crashes(threads, rt.alloc(), &script, wrong_at(words, 2)?)?;
            print_crashes(rt, &crashes)?;
            Ok(crashes.unlogged == 0)
        }
        Some(word) if word.as_str() == "costs" => {
            let costs = count_costs(rt.alloc(), number_at(words, 1)?)?;
            println!(rt; "{costs}")?;
            Ok(costs.are_kept())
        }
        Some(word) if word.as_str() == "files" => {
            let (Some(script), Some(folder)) = (words.get(1), words.get(2)) else {
                bail!("a script and a folder are missing")
            };
            let status = run_noting(rt, threads, script.as_str(), folder.as_str())?;
            Ok(status == 0)
        }
        Some(word) => bail!("`{word}` is no trial"),
    }
}

/// Prints the rows of a trial of crashes, and what it counted.
fn print_crashes(rt: HostRuntime, crashes: &Crashes) -> Result<()> {
    println!(rt; "{HEADING}")?;
    println!(rt; "|---|---|---|---|---|---|---|---|")?;
    for row in crashes.rows.iter() {
        println!(rt; "{row}")?;
    }
    println!(rt; "{crashes}")?;
    Ok(())
}

/// The word of this place, which is a number.
fn number_at(words: &[String], place: usize) -> Result<u64> {
    let Some(word) = words.get(place) else {
        bail!("a number is missing")
    };
    match word.as_str().parse::<u64>() {
        Ok(number) => Ok(number),
        Err(_) => bail!("`{word}` is no number"),
    }
}

/// What the word of this place, where there is one, leaves out.
fn wrong_at(words: &[String], place: usize) -> Result<Wrong> {
    match words.get(place) {
        None => Ok(Wrong::Nothing),
        Some(word) => match Wrong::named(word.as_str()) {
            Some(wrong) => Ok(wrong),
            None => bail!("`{word}` names nothing that is left out"),
        },
    }
}
