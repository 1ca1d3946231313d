//! Disks and logs as they are handed in, and routines and a gate that do nothing of their own.

ghost use Rattle.std.specs.Prelude.{◌≡◌, false, replicate, IfOk};
ghost use Rattle.ntcache.specs.Edge.{new_disk, new_log, new_routine};

use cc_memdev::{DiskFails, LogFails, MemDisk, MemLog};
use cc_traits::{Gate, PostRoutine};
use std::alloc::{AllocError, Global};

/// A disk for each stream that a script can have, with 5A in each byte. Answers `AllocError` where memory is wanting.
pub fn devices(alloc: Global) -> Result<Vec<MemDisk>, AllocError>
    ensures { IfOk result (λ disks. disks.items ≡ replicate 16 new_disk) }
{
    let mut disks = Vec::with_capacity(alloc, 16)?;
    for made in 0..16usize {
        disks.push_reserved(device(alloc));
    }
    Ok(disks)
}

/// A disk with 5A in each byte, none of whose calls is to fail.
fn device(alloc: Global) -> MemDisk
    ensures { result ≡ new_disk }
{
    let fails = DiskFails {
        reads: Vec::new(alloc),
        writes: Vec::new(alloc),
        syncs: Vec::new(alloc),
    };
    MemDisk::new(alloc, 0x5A, fails)
}

/// Each log that a script can name. Answers `AllocError` where memory is wanting.
pub fn logs(alloc: Global) -> Result<Vec<MemLog>, AllocError>
    ensures { IfOk result (λ logs. logs.items ≡ replicate 4 new_log) }
{
    let mut logs = Vec::with_capacity(alloc, 4)?;
    for made in 0..4usize {
        logs.push_reserved(log(alloc));
    }
    Ok(logs)
}

/// An empty log, none of whose calls is to fail.
fn log(alloc: Global) -> MemLog
    ensures { result ≡ new_log }
{
    let fails = LogFails {
        appends: Vec::new(alloc),
        flushes: Vec::new(alloc),
        reads: Vec::new(alloc),
    };
    MemLog::new(alloc, fails)
}

/// The 64 post routines: a script with more lines that defer a write ends with status 7. Answers `AllocError`
/// where memory is wanting.
pub fn routines(alloc: Global) -> Result<Vec<Routine>, AllocError>
    ensures { IfOk result (λ routines. routines.items ≡ replicate 64 new_routine) }
{
    let mut routines = Vec::with_capacity(alloc, 64)?;
    for made in 0..64usize {
        routines.push_reserved(Routine::new());
    }
    Ok(routines)
}

/// A post routine that notes that it was posted.
#[derive(Drop)]
pub struct Routine {
    posted: bool,
}

impl Routine {
    fn new() -> Routine
        ensures { result ≡ new_routine }
    {
        Routine { posted: false }
    }
}

impl PostRoutine for Routine {
    ghost posted = { λ routine. routine.posted };

    fn post(&mut self) {
        self.posted = true;
    }
}

/// A gate that holds nobody back.
pub struct Free;

impl Gate for Free {
    fn before(&self, _caller: u32, _call: u32) {}

    fn after(&self, _caller: u32, _call: u32) {}
}
