//! Tests of a restart from a log that makes its entries as they are asked for: the longest that is redone, and one more.

ghost use Rattle.std.specs.Prelude.{None};

use cc_entry::CcError;
use cc_memdev::{DiskFails, MemDisk};
use cc_redo::{Redo, restart};
use cc_traits::{LogFile, Stop};
use std::alloc::Global;
use std::test::Fail;

/// The most entries of a log that is redone.
const MOST: u64 = 4194304;

/// The record of an update of stream 0: the byte AB at 0.
const UPDATE: [u8; 14] = [0, 0, 0, 0, 0, 0, 0, 0, 0, 1, 0, 0, 0, 0xAB];

/// A log of so many entries, whose LSNs are 1, 2 and so on. The first is an update, each other one has no byte.
#[derive(Drop)]
struct MadeLog {
    entries: u64,
}

impl LogFile for MadeLog {
    ghost told = { λ _. None };

    ghost faults = { λ _. 0 };

    fn append(&mut self, _lsn: u64, _bytes: &[u8]) -> Result<(), Stop> {
        Ok(())
    }

    fn flush(&mut self, _lsn: u64) -> Result<(), Stop> {
        Ok(())
    }

    fn entry(&mut self, n: u64, out: &mut Vec<u8>) -> Result<Option<u64>, Stop> {
        if n >= self.entries {
            return Ok(None);
        }
        out.clear();
        if n == 0 {
            out.extend_from_slice(&UPDATE)?;
        }
        Ok(Some(n + 1))
    }
}

fn disk(alloc: Global) -> MemDisk {
    let fails = DiskFails {
        reads: Vec::new(alloc),
        writes: Vec::new(alloc),
        syncs: Vec::new(alloc),
    };
    MemDisk::new(alloc, 0x5A, fails)
}

/// Restarts a stream of one page from a log of so many entries. Answers the last LSN and the number of updates.
fn restarted(alloc: Global, entries: u64, disk: MemDisk) -> (Result<(u64, u64), CcError>, MemDisk) {
    let redo = Redo {
        stream: 0,
        disk: 0,
        size: 4096,
        valid: 0,
    };
    let mut disks = [disk];
    let answer = restart(alloc, &mut MadeLog { entries }, &[redo], &mut disks);
    let [disk] = disks;
    (answer.map(|done| (done.last, done.updates)), disk)
}

#[test]
fn the_longest_log_is_redone(rt: HostRuntime) -> Result<(), Fail> {
    let (answer, disk) = restarted(rt.alloc(), MOST, disk(rt.alloc()));
    assert_eq!(rt; answer, Ok((MOST, 1)));
    let page = disk.page(0);
    assert_eq!(rt; (page[0], page[1]), (0xAB, 0x5A));
    Ok(())
}

// Each call on the disk would fail, and be counted.
#[test]
fn a_log_of_one_entry_more_is_too_long_and_touches_no_disk(rt: HostRuntime) -> Result<(), Fail> {
    let mut untouched = disk(rt.alloc());
    untouched.stop_after(0);
    let (answer, disk) = restarted(rt.alloc(), MOST + 1, untouched);
    assert_eq!(rt; answer, Err(CcError::TooLong { limit: MOST }));
    assert_eq!(rt; disk.faults(), 0);
    Ok(())
}
