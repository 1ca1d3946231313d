//! A script that is run over the files of a folder, with a note of each line as soon as it is answered.

use anyhow::Result;
use cc_filedev::{FileDisk, FileLog, FolderFile, Output, PlaceOf, ScriptFile};
use cc_run::{Ended, cache_main};
use cc_traits::{Gate, PostRoutine};
use std::alloc::{AllocError, Global};
use std::fs::Files;
use std::io::Print;
use std::os::unix::fs::FileExt;
use std::sync::Wait;
use std::thread::Threads;

/// A gate that prints the caller and the number of each call behind its answer, a line each.
#[derive(Drop)]
struct Noting<'a, R: Print> {
    out: &'a R,
}

impl<'a, R: Print + Sync> Gate for Noting<'a, R> {
    fn before(&self, _caller: u32, _call: u32) {}

    fn after(&self, caller: u32, call: u32) {
        let _ = println!(self.out; "{caller} {call}");
    }
}

/// Runs the script of a file over the files of a folder, as `run FILE DIR` does, and prints its notes and then its text. Answers the
/// status.
pub fn run_noting<R: Threads + Wait + Sync>(
    rt: HostRuntime,
    threads: &R,
    path: &str,
    folder: &str,
) -> Result<u8> {
    let alloc = rt.alloc();
    let mut words = Vec::new(alloc);
    for word in ["run", path, folder] {
        words.push(String::from_str(alloc, word)?)?;
    }
    let mut script = ScriptFile::new(PlaceOf { files: &rt, path });
    let mut out = Output::new(&rt);
    let posts: Vec<Box<dyn PostRoutine + Send>> = Vec::new(alloc);
    let Ended {
        status,
        script: _script,
        replies: _replies,
        ticks: _ticks,
        aheads: _aheads,
        places: _places,
        async_places: _async_places,
        journal: _journal,
        disks: _disks,
        logs: _logs,
        posts: _posts,
        disks_begun: _disks_begun,
        logs_begun: _logs_begun,
    } = cache_main(
        threads,
        alloc,
        &words,
        &mut script,
        &mut out,
        disks(alloc, rt, folder)?,
        logs(alloc, rt, folder)?,
        posts,
        &Noting { out: &rt },
    );
    Ok(status)
}

/// A disk for each stream that a script can have.
fn disks<F: Files + Copy + Drop>(
    alloc: Global,
    files: F,
    folder: &str,
) -> Result<Vec<FileDisk<FolderFile<F>>>, AllocError>
where
    F::File: FileExt,
{
    let mut disks = Vec::new(alloc);
    for k in 0..16u8 {
        let pages = FolderFile::of_disk(alloc, files, folder, k)?;
        let record = FolderFile::of_record(alloc, files, folder, k)?;
        disks.push(FileDisk::new(pages, record))?;
    }
    Ok(disks)
}

/// Each log that a script can name.
fn logs<F: Files + Copy + Drop>(
    alloc: Global,
    files: F,
    folder: &str,
) -> Result<Vec<FileLog<FolderFile<F>>>, AllocError>
where
    F::File: FileExt,
{
    let mut logs = Vec::new(alloc);
    for k in 0..4u8 {
        logs.push(FileLog::new(alloc, FolderFile::of_log(alloc, files, folder, k)?))?;
    }
    Ok(logs)
}
