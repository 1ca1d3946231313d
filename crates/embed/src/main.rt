//! The program `embed`, an example of the cache in a program of one's own: it keeps lines of text in two files with one log.
//!
//! Without a word the files are in memory. With one they are those of the folder that it names, and the next run there finds
//! what this one stored. docs/EMBEDDING.md goes through it. `store` has the calls on a stream, over any turns; `runs` a cache
//! from restart to end, with one caller on a desk and with two threads on a board; `devices` what both stand on.
#![tactic(auto)]

ghost use Rattle.std.specs.Prelude.{◌≡◌, length};

mod devices;
mod runs;
mod store;

use anyhow::Result;
use cc_traits::{LogFile, PageDisk};
use devices::{file_disks, file_logs, memory_disks, memory_logs};
use runs::{on_board, on_desk};
use std::alloc::Global;
use std::env;
use std::sync::Wait;
use std::thread::Threads;

fn main(rt: HostRuntime) -> Result<()> {
    let alloc = rt.alloc();
    match env::args(&rt)?.nth(1) {
        None => run(&rt, alloc, memory_disks(alloc)?, memory_logs(alloc)?),
        Some(folder) => {
            let disks = file_disks(alloc, rt, folder.as_str())?;
            let logs = file_logs(alloc, rt, folder.as_str())?;
            run(&rt, alloc, disks, logs)
        }
    }
}

/// Keeps the store with one caller, and then, over the devices that came back, with two threads.
fn run<R: Print + Threads + Wait + Sync, D: PageDisk + Send + Drop, L: LogFile + Send>(
    rt: &R,
    alloc: Global,
    disks: Vec<D>,
    logs: Vec<L>,
) -> Result<()>
    requires disks { length disks.items ≡ 2 }
    requires logs { length logs.items ≡ 1 }
{
    let (disks, logs) = on_desk(rt, alloc, disks, logs)?;
    on_board(rt, alloc, disks, logs)
}
