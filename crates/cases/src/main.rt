//! The program that runs cases: whole scripts over devices in memory, and what has to come of each.
//!
//! The cases stand in the files of the folder that it runs in whose names end in `.cases`; the README has their grammar. It
//! prints a line for each case, and ends with status 1 where one failed. `lines`, `words` and `read` read the cases, which
//! `case` has as values. `devices` has the devices, `trouble` what is made of their calls, `stage` what those of one run
//! share with its callers, `moments` what the gate is told. `run` makes a run, `records` and `crashes` compute what a crash may
//! leave, `expect` says whether a run left what is wanted, and `sweep` makes the runs of a case. Below is the top call (`cc_run`).
#![tactic(auto)]

mod case;
mod crashes;
mod devices;
mod expect;
mod lines;
mod moments;
mod read;
mod records;
mod run;
mod stage;
mod sweep;
mod trouble;
mod words;

use anyhow::{Context, Result};
use case::{Case, Script};
use std::alloc::Global;
use std::fs;
use std::process::ExitCode;
use std::rt::Files;
use std::sync::Wait;
use std::thread::Threads;

fn main(rt: HostRuntime) -> ExitCode {
    match run_all(rt, &rt) {
        Ok(true) => ExitCode::SUCCESS,
        Ok(false) => ExitCode::FAILURE,
        Err(error) => {
            let _ = eprintln!(rt; "{error:#}");
            ExitCode::from(2)
        }
    }
}

/// Runs the cases of all files, and answers whether each is ok.
fn run_all<R: Threads + Wait + Sync>(rt: HostRuntime, threads: &R) -> Result<bool> {
    let mut are_ok = true;
    for name in names(rt)? {
        are_ok &= run_file(rt, threads, &name)?;
    }
    Ok(are_ok)
}

/// The names of the files that have cases, without their endings, in order.
fn names(rt: HostRuntime) -> Result<Vec<String>> {
    let mut names = Vec::new(rt.alloc());
    for entry in fs::read_dir(&rt, ".")? {
        if let Some(name) = entry?.file_name().strip_suffix(".cases") {
            names.push(String::from_str(rt.alloc(), name)?)?;
        }
    }
    names.sort()?;
    Ok(names)
}

/// Runs the cases of a file, and answers whether each is ok.
fn run_file<R: Threads + Wait + Sync>(rt: HostRuntime, threads: &R, name: &str) -> Result<bool> {
    let path = format!(in rt.alloc(); "{name}.cases")?;
    let text = fs::read_to_string(&rt, path.as_str()).context(format_args!("{path}"))?;
    let cases = match read::read_cases(rt.alloc(), &text) {
        Ok(cases) => cases,
        Err(error) => {
            println!(rt; "{name} FAILED: {error:#}")?;
            return Ok(false);
        }
    };
    let mut are_ok = true;
    for case in cases.iter() {
        are_ok &= run_one(rt, threads, name, case)?;
    }
    Ok(are_ok)
}

/// Runs a case, prints how it went, and answers whether it is ok.
fn run_one<R: Threads + Wait + Sync>(
    rt: HostRuntime,
    threads: &R,
    name: &str,
    case: &Case,
) -> Result<bool> {
    let title = &case.title;
    match outcome(rt, threads, rt.alloc(), case) {
        Ok(None) => println!(rt; "{name}: {title} ok")?,
        Ok(Some(runs)) => println!(rt; "{name}: {title} ok {runs} runs")?,
        Err(error) => {
            println!(rt; "{name}: {title} FAILED: {error:#}")?;
            return Ok(false);
        }
    }
    Ok(true)
}

/// Runs a case over its script, and answers how many runs a sweep made.
fn outcome<R: Threads + Wait + Sync>(
    rt: HostRuntime,
    threads: &R,
    alloc: Global,
    case: &Case,
) -> Result<Option<usize>> {
    match &case.script {
        Script::Lines(text) => sweep::run_case(threads, alloc, case, text),
        Script::File(path) => {
            let text = fs::read_to_string(&rt, path.as_str()).context(format_args!("{path}"))?;
            sweep::run_case(threads, alloc, case, &text)
        }
    }
}
