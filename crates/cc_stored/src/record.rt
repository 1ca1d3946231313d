//! The write of the record of a stream to its disk, and the sync behind it.

ghost use Rattle.std.specs.Prelude.{◌≡◌, ◌<◌, ◌≤◌, ◌^◌, min, None, Some};
ghost use Rattle.cc_entry.specs.declared.entry.Entry.TheVariants as entry;
ghost use Rattle.cc_model.specs.Good.{IsGood};
ghost use Rattle.cc_model.specs.History.{history};
ghost use Rattle.cc_model.specs.Records.{MayRecord};
ghost use Rattle.cc_turns.specs.Disk.{DiskStands};
ghost use Rattle.cc_turns.specs.Standing.{nothing};
ghost use Rattle.cc_turns.specs.Transfers.{transfer_end};
ghost use Rattle.cc_writes.specs.Hands.{Went, WentWith};
ghost use Rattle.cc_writes.specs.Visits.{HasPlaced};
ghost use Rattle.cc_writes.specs.Ways.{IsFull};
ghost use Rattle.cc_calls.specs.Flushes.{HasDisk};
ghost use Rattle.cc_stored.specs.Settle.{RecordLeft, SyncLeft, TellsAfter, RecordWriteLeft, record_answer, sync_answer};
ghost use Rattle.cc_calls.specs.Logs.{IsNotFull};

use crate::load::RECORD_PAGE;
use crate::visits::{place_held, reserve_one};
use cc_entry::{CcError, End, Entry, StreamId};
use cc_format::{StreamRecord, write_record};
use cc_traits::{PageDisk, Stop};
use cc_turns::{Turns, sync};

/// The lengths that the record of a stream tells, in bytes.
#[derive(Clone, Copy)]
pub(crate) struct Lengths {
    pub size: u64,
    pub valid: u64,
}

/// Writes the record of a stream behind a flush, with its disk in hand, and then syncs the disk. The record tells the
/// stream's size, and the lesser of its valid data length and of `first`.
///
/// `WriteFault` (of page 2^51), `JournalFull`, `NoMemory`.
pub(crate) fn record_held<T: Turns>(
    turns: &mut T,
    disk: &mut T::Disk,
    stream: StreamId,
    first: u64,
) -> Result<Lengths, CcError>
    requires disk { HasDisk T.Disk.told T.Disk.faults (T.standing turns.old) stream disk.old }
    requires none { (T.standing turns.old).in_flight ≡ 0 }
    requires tells { TellsAfter (T.standing turns.old) stream first }
    ensures disk { HasDisk T.Disk.told T.Disk.faults (T.standing turns.new) stream disk.new }
    ensures good { IsGood (T.standing turns.new).setup (T.standing turns.new).seen }
    ensures went { Went (T.standing turns.old) (T.standing turns.new) }
    ensures left { RecordLeft (T.standing turns.old).number stream first result
        (T.standing turns.old).seen (T.standing turns.new).seen }
    ensures full { IsFull 1 (T.standing turns.new) result }
{
    match write_one(turns, disk, stream, first) {
        Ok(lengths) => match sync_one(turns, disk, stream) {
            Ok(()) => Ok(lengths),
            Err(error) => Err(error),
        },
        Err(error) => Err(error),
    }
}

// Writes the record. Room for its entry is asked before the disk.
fn write_one<T: Turns>(
    turns: &mut T,
    disk: &mut T::Disk,
    stream: StreamId,
    first: u64,
) -> Result<Lengths, CcError>
    requires disk { HasDisk T.Disk.told T.Disk.faults (T.standing turns.old) stream disk.old }
    requires none { (T.standing turns.old).in_flight ≡ 0 }
    requires tells { TellsAfter (T.standing turns.old) stream first }
    ensures disk { HasDisk T.Disk.told T.Disk.faults (T.standing turns.new) stream disk.new }
    ensures good { IsGood (T.standing turns.new).setup (T.standing turns.new).seen }
    ensures went { Went (T.standing turns.old) (T.standing turns.new) }
    ensures left { RecordWriteLeft (T.standing turns.old).number stream first result
        (T.standing turns.old).seen (T.standing turns.new).seen }
    ensures full { IsFull 1 (T.standing turns.new) result }
{
    match reserve_one(turns) {
        Ok(()) => write_reserved(turns, disk, stream, first),
        Err(error) => Err(error),
    }
}

// The same with a place reserved. The book is kept from the lengths that are read of it to the entry, so that no size step
// comes between.
fn write_reserved<T: Turns>(
    turns: &mut T,
    disk: &mut T::Disk,
    stream: StreamId,
    first: u64,
) -> Result<Lengths, CcError>
    requires disk { HasDisk T.Disk.told T.Disk.faults (T.standing turns.old) stream disk.old }
    requires reserved { (T.standing turns.old).in_flight ≡ 1 }
    requires tells { TellsAfter (T.standing turns.old) stream first }
    ensures disk { HasDisk T.Disk.told T.Disk.faults (T.standing turns.new) stream disk.new }
    ensures good { IsGood (T.standing turns.new).setup (T.standing turns.new).seen }
    ensures went { WentWith 0 (T.standing turns.old) (T.standing turns.new) }
    ensures left { RecordWriteLeft (T.standing turns.old).number stream first result
        (T.standing turns.old).seen (T.standing turns.new).seen }
    ensures room { IsNotFull result }
{
    let book = turns.take_book(stream);
    let size = book.size();
    let valid = lesser(first, book.valid());
    let how = write_held(turns, disk, stream, size, valid);
    turns.give_book(stream, book);
    recorded(how, Lengths { size, valid })
}

// Writes the record of these lengths with the book in hand too. The place that is reserved for its entry is used.
fn write_held<T: Turns>(
    turns: &mut T,
    disk: &mut T::Disk,
    stream: StreamId,
    size: u64,
    valid: u64,
) -> End
    requires held { (T.standing turns.old).held ≡ record nothing { device = Some stream; book = Some stream } }
    requires reserved { (T.standing turns.old).in_flight ≡ 1 }
    requires in_range { size < 2 ^ 63 }
    requires within { valid ≤ size }
    requires may { MayRecord (history (T.standing turns.old).seen stream) size valid }
    requires stands { DiskStands T.Disk.told T.Disk.faults ((T.standing turns.old).disks stream)
        (T.standing turns.old).seen stream disk.old }
    ensures stands { DiskStands T.Disk.told T.Disk.faults ((T.standing turns.new).disks stream)
        (T.standing turns.new).seen stream disk.new }
    ensures good { IsGood (T.standing turns.new).setup (T.standing turns.new).seen }
    ensures went { WentWith 0 (T.standing turns.old) (T.standing turns.new) }
    ensures placed { HasPlaced (T.standing turns.old)
        (entry.Record (T.standing turns.old).number stream size valid result) (T.standing turns.new).seen }
{
    let mut page = [0; 4096];
    write_record(StreamRecord::V2 { size, valid }, &mut page);
    let how = end_of(disk.write_page(RECORD_PAGE, &page));
    let pass = turns.me();
    let entry = Entry::Record {
        pass,
        stream,
        size,
        valid,
        how,
    };
    place_held(turns, entry);
    how
}

// Syncs the disk. Room for its entry is asked before the disk.
fn sync_one<T: Turns>(turns: &mut T, disk: &mut T::Disk, stream: StreamId) -> Result<(), CcError>
    requires disk { HasDisk T.Disk.told T.Disk.faults (T.standing turns.old) stream disk.old }
    requires none { (T.standing turns.old).in_flight ≡ 0 }
    ensures disk { HasDisk T.Disk.told T.Disk.faults (T.standing turns.new) stream disk.new }
    ensures good { IsGood (T.standing turns.new).setup (T.standing turns.new).seen }
    ensures went { Went (T.standing turns.old) (T.standing turns.new) }
    ensures left { SyncLeft (T.standing turns.old).number stream result
        (T.standing turns.old).seen (T.standing turns.new).seen }
    ensures full { IsFull 1 (T.standing turns.new) result }
{
    match reserve_one(turns) {
        Ok(()) => sync_reserved(turns, disk, stream),
        Err(error) => Err(error),
    }
}

// The same with a place reserved, which is used.
fn sync_reserved<T: Turns>(
    turns: &mut T,
    disk: &mut T::Disk,
    stream: StreamId,
) -> Result<(), CcError>
    requires disk { HasDisk T.Disk.told T.Disk.faults (T.standing turns.old) stream disk.old }
    requires reserved { (T.standing turns.old).in_flight ≡ 1 }
    ensures disk { HasDisk T.Disk.told T.Disk.faults (T.standing turns.new) stream disk.new }
    ensures good { IsGood (T.standing turns.new).setup (T.standing turns.new).seen }
    ensures went { WentWith 0 (T.standing turns.old) (T.standing turns.new) }
    ensures left { SyncLeft (T.standing turns.old).number stream result
        (T.standing turns.old).seen (T.standing turns.new).seen }
    ensures room { IsNotFull result }
{
    let how = sync(disk);
    let pass = turns.me();
    place_held(turns, Entry::Sync { pass, stream, how });
    synced(how)
}

fn lesser(one: u64, other: u64) -> u64
    ensures { result ≡ min one other }
{
    one.min(other)
}

// What is answered where the write of the record ended so.
fn recorded(how: End, lengths: Lengths) -> Result<Lengths, CcError>
    ensures { result ≡ record_answer how lengths }
{
    match how {
        End::Good => Ok(lengths),
        End::Failed => Err(CcError::WriteFault { page: RECORD_PAGE }),
        End::NoMemory => Err(CcError::NoMemory),
    }
}

// What is answered where the sync behind it ended so.
fn synced(how: End) -> Result<(), CcError>
    ensures { result ≡ sync_answer how }
{
    match how {
        End::Good => Ok(()),
        End::Failed => Err(CcError::WriteFault { page: RECORD_PAGE }),
        End::NoMemory => Err(CcError::NoMemory),
    }
}

// How the write ended that the disk answered so.
fn end_of(answered: Result<(), Stop>) -> End
    ensures { result ≡ transfer_end answered }
{
    match answered {
        Ok(()) => End::Good,
        Err(Stop::Failed) => End::Failed,
        Err(Stop::NoMemory) => End::NoMemory,
    }
}
