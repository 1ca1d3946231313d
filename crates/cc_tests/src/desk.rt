//! A test of a desk that is made, acted on and ended, and of a log that it has not, which no script names.

ghost use Rattle.std.specs.Prelude.{◌≡◌, ◌≤◌, length, IfOk};
ghost use Rattle.cc_turns.specs.Desk.{DeskIsFresh};

use crate::devices::Routine;
use cc_calls::{can_i_write, initialize, lsn_for_file, set_log_handle};
use cc_entry::{CcError, FileId, FileSizes, Quota};
use cc_journal::Left;
use cc_memdev::{DiskFails, LogFails, MemDisk, MemLog};
use cc_traits::{JournalKind, PageDisk, PostRoutine, Setup};
use cc_turns::{Desk, Turns};
use std::alloc::Global;
use std::test::Fail;

pub(crate) fn disk(alloc: Global) -> MemDisk {
    let fails = DiskFails {
        reads: Vec::new(alloc),
        writes: Vec::new(alloc),
        syncs: Vec::new(alloc),
    };
    MemDisk::new(alloc, 0x5A, fails)
}

fn log(alloc: Global) -> MemLog {
    let fails = LogFails {
        appends: Vec::new(alloc),
        flushes: Vec::new(alloc),
        reads: Vec::new(alloc),
    };
    MemLog::new(alloc, fails)
}

/// A desk of one disk and four logs, with a journal of 64 entries.
pub(crate) fn desk(alloc: Global) -> Result<Desk<MemDisk, MemLog, Routine>, Fail>
    ensures { IfOk result (λ desk. DeskIsFresh desk.begun desk × (length desk.begun.disks ≡ 1)) }
{
    desk_of(alloc, vec![in alloc; disk(alloc)]?, 64)
}

/// The same of these disks, over other post routines, with a journal of so many entries.
pub(crate) fn desk_of<D: PageDisk + Drop, Q: PostRoutine>(
    alloc: Global,
    disks: Vec<D>,
    journal: u32,
) -> Result<Desk<D, MemLog, Q>, Fail>
    requires few { length disks.items ≤ 2 }
    requires room { (64 ≤ journal) × (journal ≤ 128) }
    ensures { IfOk result (λ desk. DeskIsFresh desk.begun desk × (length desk.begun.disks ≡ length disks.items)) }
{
    let setup = Setup {
        disks,
        logs: vec![in alloc; log(alloc), log(alloc), log(alloc), log(alloc)]?,
        journal: JournalKind::Recorded(journal),
        threshold: 4,
    };
    match Desk::new(alloc, setup) {
        Ok(desk) => Ok(desk),
        Err(_) => Err(Fail::from("no memory")),
    }
}

/// The first object of the first stream.
pub(crate) fn object() -> Result<FileId, Fail>
    ensures { IfOk result (λ file. file.stream ≡ 0) }
{
    Ok(FileId::new(0, 0).ok_or("file")?)
}

#[test]
fn a_desk_is_made_acted_on_and_ended(rt: HostRuntime) -> Result<(), Fail> {
    let alloc = rt.alloc();
    let file = object()?;
    let quota = Quota::new(8).ok_or("quota")?;
    let sizes = FileSizes {
        allocation: 8192,
        size: 8192,
        valid: 8192,
    };
    let mut desk = desk(alloc)?;
    desk.act_as(3);
    let made = (desk.me(), desk.streams(), desk.logs());
    let begun = initialize(alloc, &mut desk, file, sizes, quota, false);
    let refused = set_log_handle(alloc, &mut desk, file, 4);
    let lsns = lsn_for_file(alloc, &mut desk, file);
    let may = can_i_write(alloc, &mut desk, file, 4096);
    let entries = desk.journal().len();
    let Left {
        disks,
        logs,
        queued,
    } = desk.leave();
    let left = (disks.len(), logs.len(), queued.len());
    assert_eq!(rt; (made, entries, left), ((3, 1, 4), 4, (1, 4, 0)));
    assert_eq!(rt; begun, Ok(()));
    assert_eq!(rt; refused, Err(CcError::NoLog { handle: 4 }));
    assert_eq!(rt; (lsns, may), (Ok(None), Ok(true)));
    Ok(())
}
