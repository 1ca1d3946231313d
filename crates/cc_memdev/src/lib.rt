//! Devices in memory: a source, a sink, a disk of pages and a log.
//!
//! Each tells what it holds, as plain data, and fails at the calls that it was told to fail at: those
//! whose numbers were listed, each kind of call counted by itself from 1, and on a disk or a log every
//! call after a stop. A call fails nowhere else. A failed write leaves what the page holds, though a
//! crash can leave the bytes.
//!
//! The crate stands on the traits of `cc_traits`. Programs and tests hand these devices to the cache.
#![tactic(auto)]

mod calls;
mod content;
mod disk;
mod log;
mod stream;

pub use disk::{DiskFails, MemDisk};
pub use log::{LogFails, MemLog};
pub use stream::{MemSink, MemSource};
