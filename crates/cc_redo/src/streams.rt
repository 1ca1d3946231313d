//! The restart of streams from a log.

ghost use Rattle.std.specs.Prelude.{◌≡◌, ◌+◌, ◌<◌, All, IfOk, IfErr, OnOk, OnErr, length};
ghost use Rattle.cc_entry.specs.Errors.{out_of_memory};
ghost use Rattle.cc_traits.specs.Told.{IfTold};
ghost use Rattle.cc_redo.specs.Ends.{DisksDiffer, EachDisk, IsRestartAnswer, IsAnswerOf, IsCounted, IsFaultOf, IsRestartRefusal, LeavesDisk, LeavesBy, log_faults};
ghost use Rattle.cc_redo.specs.Heard.{from_of};
ghost use Rattle.cc_redo.specs.Stages.{IsRecordFault, IsStageRefusal, PagesDone, RedonePagesLeft, RecordDone, RedoneRecordLeft};

use crate::pages::redo_pages;
use crate::redo::Redo;
use crate::scan::{ReadEntry, count_updates, first_redone, last_lsn, read_log, valid_length};
use crate::settle::settle_record;
use cc_entry::CcError;
use cc_traits::{LogFile, PageDisk};
use std::alloc::Global;

/// What a restart did.
#[derive(Drop)]
pub struct Restarted {
    /// The greatest LSN that was read, 0 where there was none.
    pub last: u64,
    /// How many updates of the streams the log has, redone or not.
    pub updates: u64,
    /// The valid data length of each stream, in the order in which the streams were handed in.
    pub valids: Vec<u64>,
}

/// Redoes on the disks of streams what a log says of them, from the LSN on that its last checkpoint allows, and writes each
/// stream's record: the pages of all streams first, and then for each stream a sync, the record and a sync. In Windows it is
/// what a file system does with its log at mount, below the cache.
///
/// It reads each entry once, and writes each page once. An entry that says no update of a given stream, or one that ends
/// past the stream's size, and no checkpoint, is passed over. Whatever is answered, it may be called again.
///
/// `TooLong` of more than 4194304 entries, `LogFault` of handle 255, both before the first call of a disk; `ReadFault`;
/// `WriteFault`, of page 0 where a sync failed before the record was written, of page 2^51 at the record and behind it;
/// `NoMemory`.
pub fn restart<D: PageDisk, L: LogFile>(
    alloc: Global,
    log: &mut L,
    streams: &[Redo],
    disks: &mut [D],
) -> Result<Restarted, CcError>
    requires disks { All (λ redo. redo.disk < length disks.old) streams.now }
    requires differ { DisksDiffer streams.now }
    ensures leaves { EachDisk streams.now (λ redo was now.
        LeavesDisk streams.now (L.told log.old) result redo (D.told was) (D.told now)) disks.old disks.new }
    ensures answer { IfOk result (λ done. IfTold (L.told log.old) (λ told. IsRestartAnswer streams.now told done)) }
    ensures refused { IfErr result (IsRestartRefusal D.told D.faults streams.now (L.told log.old) disks.old disks.new) }
    ensures log_stays { L.told log.new ≡ L.told log.old }
    ensures log_counted { L.faults log.new ≡ L.faults log.old + log_faults result }
    ensures counted { EachDisk streams.now (λ redo was now. IsCounted result (D.faults was) (D.faults now)) disks.old disks.new }
{
    let entries = read_log(alloc, log)?;
    redo_entries(alloc, &entries, streams, disks)
}

// The same of a log that is read.
fn redo_entries<D: PageDisk>(
    alloc: Global,
    entries: &[ReadEntry],
    streams: &[Redo],
    disks: &mut [D],
) -> Result<Restarted, CcError>
    requires disks { All (λ redo. redo.disk < length disks.old) streams.now }
    requires differ { DisksDiffer streams.now }
    ensures leaves { EachDisk streams.now (λ redo was now.
        LeavesBy streams.now entries.now result redo (D.told was) (D.told now)) disks.old disks.new }
    ensures answer { IfOk result (IsAnswerOf streams.now entries.now) }
    ensures refused { IfErr result (IsStageRefusal D.faults (IsFaultOf D.told (from_of streams.now entries.now) entries.now)
        streams.now disks.old disks.new) }
    ensures counted { EachDisk streams.now (λ redo was now. IsCounted result (D.faults was) (D.faults now)) disks.old disks.new }
{
    let done = answer(alloc, entries, streams)?;
    let from = first_redone(entries, streams);
    redo_all(alloc, streams, disks, from, entries)?;
    settle_all(streams, disks, entries)?;
    Ok(done)
}

// The numbers that a restart answers.
fn answer(alloc: Global, entries: &[ReadEntry], streams: &[Redo]) -> Result<Restarted, CcError>
    ensures answer { IfOk result (IsAnswerOf streams.now entries.now) }
    ensures refused { IfErr result (λ e. e ≡ out_of_memory) }
{
    let mut valids = Vec::new(alloc);
    for redo in streams {
        valids.push(valid_length(entries, redo))?;
    }
    Ok(Restarted {
        last: last_lsn(entries),
        updates: count_updates(entries, streams),
        valids,
    })
}

// Redoes the pages of each stream, of one after the other.
fn redo_all<D: PageDisk>(
    alloc: Global,
    streams: &[Redo],
    disks: &mut [D],
    from: u64,
    entries: &[ReadEntry],
) -> Result<(), CcError>
    requires disks { All (λ redo. redo.disk < length disks.old) streams.now }
    requires differ { DisksDiffer streams.now }
    ensures done { OnOk result (EachDisk streams.now (PagesDone D.told D.faults from entries.now) disks.old disks.new) }
    ensures left { OnErr result (EachDisk streams.now (RedonePagesLeft D.told D.faults from entries.now) disks.old disks.new) }
    ensures refused { IfErr result (IsStageRefusal D.faults (IsFaultOf D.told from entries.now) streams.now disks.old disks.new) }
{
    for redo in streams {
        redo_pages(alloc, &mut disks[redo.disk as usize], redo, from, entries)?;
    }
    Ok(())
}

// Writes the record of each stream, of one after the other.
fn settle_all<D: PageDisk>(
    streams: &[Redo],
    disks: &mut [D],
    entries: &[ReadEntry],
) -> Result<(), CcError>
    requires disks { All (λ redo. redo.disk < length disks.old) streams.now }
    requires differ { DisksDiffer streams.now }
    ensures done { OnOk result (EachDisk streams.now (RecordDone D.told D.faults entries.now) disks.old disks.new) }
    ensures left { OnErr result (EachDisk streams.now (RedoneRecordLeft D.told D.faults entries.now) disks.old disks.new) }
    ensures refused { IfErr result (IsStageRefusal D.faults (IsRecordFault D.told) streams.now disks.old disks.new) }
{
    for redo in streams {
        let valid = valid_length(entries, redo);
        settle_record(&mut disks[redo.disk as usize], redo.size, valid)?;
    }
    Ok(())
}
