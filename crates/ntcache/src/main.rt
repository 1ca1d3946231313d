//! The program `ntcache`: it hands what is outside to the top call, and ends with its status.
//!
//! Each stream has a disk in memory whose bytes are 5A, there are four logs in memory, and 64 post routines for writes that
//! are deferred. Where a third word names a folder, disks and logs are over its files. The script is the file that the
//! second word names, the text goes to standard output. Below is `cache_main`, which keeps every promise.
#![tactic(auto)]

ghost use Rattle.std.specs.Prelude.{◌≡◌, length, map, string_bytes, IfOk, OnErr};
ghost use Rattle.std.specs.Process.{exit_status};
ghost use Rattle.cc_program.specs.Ends.{input, output, ProgramHasEnded};

mod folder;
mod outside;

use cc_filedev::{Output, PlaceOf, ScriptFile};
use cc_run::{Ended, cache_main};
use cc_traits::{LogFile, PageDisk, Sink, Source};
use folder::{file_disks, file_logs};
use outside::{Free, devices, logs, routines};
use std::alloc::{AllocError, Global};
use std::env;
use std::io::ErrorKind;
use std::process::ExitCode;
use std::sync::Wait;
use std::thread::Threads;

fn main(rt: HostRuntime) -> ExitCode {
    exit_code(start(rt, &rt))
}

/// The program's end with its status, or with the status of want of memory.
fn exit_code(status: Result<u8, AllocError>) -> ExitCode
    ensures ended { IfOk status (λ number. exit_status result ≡ number) }
    ensures no_memory { OnErr status (exit_status result ≡ 6) }
{
    match status {
        Ok(status) => ExitCode::from(status),
        Err(_) => ExitCode::from(6),
    }
}

/// Runs the words of the command line over the file that they name, standard output, and the folder that they name or
/// memory, with threads.
fn start<R: Threads + Wait + Sync>(rt: HostRuntime, threads: &R) -> Result<u8, AllocError> {
    let alloc = rt.alloc();
    let words = words_of(rt)?;
    let path = match words.get(1) {
        Some(path) => path.as_str(),
        None => "",
    };
    let mut script = ScriptFile::new(PlaceOf { files: &rt, path });
    let mut out = Output::new(&rt);
    match words.get(2) {
        Some(folder) => {
            let disks = file_disks(alloc, rt, folder.as_str())?;
            let logs = file_logs(alloc, rt, folder.as_str())?;
            run(threads, alloc, &words, &mut script, &mut out, disks, logs)
        }
        None => {
            let disks = devices(alloc)?;
            let logs = logs(alloc)?;
            run(threads, alloc, &words, &mut script, &mut out, disks, logs)
        }
    }
}

/// The words of the command line without the program's name; none where one is not text.
fn words_of(rt: HostRuntime) -> Result<Vec<String>, AllocError> {
    let mut words = Vec::new(rt.alloc());
    match env::args(&rt) {
        Ok(args) => {
            for word in args.skip(1) {
                words.push(word).map_err(|_| AllocError)?;
            }
            Ok(words)
        }
        Err(error) => match error.kind() {
            ErrorKind::OutOfMemory => Err(AllocError),
            _ => Ok(words),
        },
    }
}

/// Runs the words over sixteen disks, four logs and 64 post routines, and answers the status of the run.
fn run<R: Threads + Wait + Sync, S: Source, K: Sink, D: PageDisk + Send + Drop, L: LogFile + Send>(
    rt: &R,
    alloc: Global,
    words: &[String],
    script: &mut S,
    out: &mut K,
    disks: Vec<D>,
    logs: Vec<L>,
) -> Result<u8, AllocError>
    requires disks { length disks.items ≡ 16 }
    requires logs { length logs.items ≡ 4 }
    ensures { IfOk result (ProgramHasEnded
        (input S.told S.faults S.given S.ended (map string_bytes words.now) script.old script.new 16 4 64)
        (output K.told K.faults K.stalls out.old out.new)) }
{
    let posts = routines(alloc)?;
    let Ended {
        status,
        script: _script,
        replies: _replies,
        ticks: _ticks,
        aheads: _aheads,
        places: _places,
        async_places: _async_places,
        journal: _journal,
        disks: _disks,
        logs: _logs,
        posts: _posts,
        disks_begun: _disks_begun,
        logs_begun: _logs_begun,
    } = cache_main(rt, alloc, words, script, out, disks, logs, posts, &Free);
    Ok(status)
}
