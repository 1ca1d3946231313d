//! The settling of a stream: it is flushed, and its record then told on its disk.

ghost use Rattle.std.specs.Prelude.{◌≡◌, ◌<◌, OnOk, None, Some};
ghost use Rattle.cc_model.specs.Good.{IsGood};
ghost use Rattle.cc_model.specs.History.{history};
ghost use Rattle.cc_model.specs.Touches.{valid_of};
ghost use Rattle.cc_entry.specs.declared.call.Call.TheVariants as call;
ghost use Rattle.cc_turns.specs.Standing.{nothing};
ghost use Rattle.cc_turns.specs.Takes.{Grows};
ghost use Rattle.cc_writes.specs.Calls.{IsFullWriting};
ghost use Rattle.cc_writes.specs.Fetch.{CanCall};
ghost use Rattle.cc_writes.specs.Hands.{Went};
ghost use Rattle.cc_calls.specs.Flushes.{FlushEnds, HasDisk};
ghost use Rattle.cc_stored.specs.Settle.{HeldLeft, SettleEnds, StatedEnds, TellsAfter, with_lengths};

use crate::record::{Lengths, record_held};
use cc_calls::{file_state, flush_held};
use cc_entry::{CcError, FileId, FileSizes, FileState, StreamId};
use cc_keep::Keeping;
use cc_turns::Turns;
use std::alloc::Global;

/// Flushes a file's whole stream, and then tells the stream's size and valid data length on its disk, in the record. The
/// valid data length is the lesser of the one before the flush and the one behind it, so that each byte below it is on
/// the disk. Answers what the record tells, with the allocation and the log that the stream had as the call began. It is
/// no Cc routine: in Windows a file system writes the sizes of a file itself.
///
/// `NotCached`, `Busy` (a pin owes a stamp to a page), `WriteFault` (of a page of the stream; of page 0 where the flush's
/// sync failed; of page 2^51 where the write of the record failed, or the sync behind it), `LogFault`, `JournalFull`,
/// `NoMemory`.
pub fn settle<T: Turns>(alloc: Global, turns: &mut T, file: FileId) -> Result<FileState, CcError>
    requires can { CanCall (T.standing turns.old) file.stream }
    ensures ends { SettleEnds (T.standing turns.old) (T.standing turns.new) file result }
{
    match file_state(alloc, turns, file) {
        Ok(state) => settle_from(alloc, turns, file, state),
        Err(error) => Err(error),
    }
}

// The same of a file whose state was told.
fn settle_from<T: Turns>(
    alloc: Global,
    turns: &mut T,
    file: FileId,
    state: FileState,
) -> Result<FileState, CcError>
    requires can { CanCall (T.standing turns.old) file.stream }
    ensures ends { StatedEnds (T.standing turns.old) (T.standing turns.new) file state result }
{
    let stream = file.stream();
    let mut disk = turns.take_device(stream);
    let told = settle_held(alloc, turns, &mut disk, file);
    turns.give_device(stream, disk);
    with_lengths(state, told)
}

// A state with the lengths that a record tells.
fn with_lengths(state: FileState, told: Result<Lengths, CcError>) -> Result<FileState, CcError>
    ensures { result ≡ with_lengths state told }
{
    match told {
        Ok(lengths) => {
            let sizes = FileSizes {
                allocation: state.sizes.allocation,
                size: lengths.size,
                valid: lengths.valid,
            };
            Ok(FileState {
                sizes,
                log: state.log,
            })
        }
        Err(error) => Err(error),
    }
}

// Flushes the stream and tells its lengths, with its disk in hand.
fn settle_held<T: Turns>(
    alloc: Global,
    turns: &mut T,
    disk: &mut T::Disk,
    file: FileId,
) -> Result<Lengths, CcError>
    requires disk { HasDisk T.Disk.told T.Disk.faults (T.standing turns.old) file.stream disk.old }
    requires none { (T.standing turns.old).in_flight ≡ 0 }
    ensures disk { HasDisk T.Disk.told T.Disk.faults (T.standing turns.new) file.stream disk.new }
    ensures good { IsGood (T.standing turns.new).setup (T.standing turns.new).seen }
    ensures went { Went (T.standing turns.old) (T.standing turns.new) }
    ensures left { HeldLeft (T.standing turns.old).setup (T.standing turns.old).number file result
        (T.standing turns.old).seen (T.standing turns.new).seen }
    ensures full { IsFullWriting (call.Flush file None) (T.standing turns.new) result }
{
    let stream = file.stream();
    let first = valid_now(turns, stream);
    match flush_kept(alloc, turns, disk, file) {
        Ok(()) => record_held(turns, disk, stream, first),
        Err(error) => Err(error),
    }
}

// The valid data length of a stream whose disk is in hand.
fn valid_now<T: Turns>(turns: &mut T, stream: StreamId) -> u64
    requires known { stream < (T.standing turns.old).streams }
    requires held { (T.standing turns.old).held ≡ record nothing { device = Some stream } }
    ensures grows { Grows (T.standing turns.old) (T.standing turns.new).seen }
    ensures went { Went (T.standing turns.old) (T.standing turns.new) }
    ensures valid { result ≡ valid_of (history (T.standing turns.new).seen stream) }
{
    let book = turns.take_book(stream);
    let valid = book.valid();
    turns.give_book(stream, book);
    valid
}

// Flushes the stream with its disk in hand. Where it is done, what was valid as it began may be told, as far as it is valid
// still: while the disk is kept nobody else brings a page of the stream in, stores one around the cache or discards one.
fn flush_kept<T: Turns>(
    alloc: Global,
    turns: &mut T,
    disk: &mut T::Disk,
    file: FileId,
) -> Result<(), CcError>
    requires disk { HasDisk T.Disk.told T.Disk.faults (T.standing turns.old) file.stream disk.old }
    requires none { (T.standing turns.old).in_flight ≡ 0 }
    ensures disk { HasDisk T.Disk.told T.Disk.faults (T.standing turns.new) file.stream disk.new }
    ensures went { Went (T.standing turns.old) (T.standing turns.new) }
    ensures ends { FlushEnds (T.standing turns.old) (T.standing turns.new) file None result }
    ensures tells { OnOk result (TellsAfter (T.standing turns.new) file.stream
        (valid_of (history (T.standing turns.old).seen file.stream))) }
{
    let mut keeping = Keeping::new(turns, file.stream());
    let flushed = flush_held(alloc, &mut keeping, file, None, disk);
    keeping.end();
    flushed
}
