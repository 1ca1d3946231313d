//! The calls that flush a span of a stream, and purge one.

ghost use Rattle.std.specs.Prelude.{◌≡◌, OnOk};
ghost use Rattle.cc_calls.specs.Answers.{CanCall};
ghost use Rattle.cc_calls.specs.Flushes.{EndedWell, FlushEnds, HasDisk};
ghost use Rattle.cc_calls.specs.Purges.{PurgeEnds};
ghost use Rattle.cc_writes.specs.Hands.{Went};

use cc_entry::{CcError, FileId, Span};
use cc_ranges::{flush_with_book, purge_held};
use cc_turns::Turns;
use std::alloc::Global;

/// Writes the dirty pages of a span of a stream, ascending, or of the whole stream where no span is said, and then
/// syncs its disk (`CcFlushCache`).
///
/// `NotCached`, `Busy` (a pin owes a stamp to a page of the span), `WriteFault` (of a page; of the span's first page
/// where the sync failed), `LogFault`, `JournalFull`, `NoMemory`.
pub fn flush<T: Turns>(
    alloc: Global,
    turns: &mut T,
    file: FileId,
    span: Option<Span>,
) -> Result<(), CcError>
    requires can { CanCall (T.standing turns.old) file.stream }
    ensures ends { FlushEnds (T.standing turns.old) (T.standing turns.new) file span result }
{
    let stream = file.stream();
    let mut disk = turns.take_device(stream);
    let answer = flush_held(alloc, turns, file, span, &mut disk);
    turns.give_device(stream, disk);
    answer
}

/// The same of whoever holds the turn of the stream's disk, and goes on holding it. Where it is done, each transfer that it
/// ended, ended well.
///
/// `NotCached`, `Busy`, `WriteFault`, `LogFault`, `JournalFull`, `NoMemory`, as [`flush`].
pub fn flush_held<T: Turns>(
    alloc: Global,
    turns: &mut T,
    file: FileId,
    span: Option<Span>,
    disk: &mut T::Disk,
) -> Result<(), CcError>
    requires disk { HasDisk T.Disk.told T.Disk.faults (T.standing turns.old) file.stream disk.old }
    requires none { (T.standing turns.old).in_flight ≡ 0 }
    ensures disk { HasDisk T.Disk.told T.Disk.faults (T.standing turns.new) file.stream disk.new }
    ensures went { Went (T.standing turns.old) (T.standing turns.new) }
    ensures ends { FlushEnds (T.standing turns.old) (T.standing turns.new) file span result }
    ensures well { OnOk result
        (EndedWell (T.standing turns.old).number (T.standing turns.old).seen (T.standing turns.new).seen) }
{
    let stream = file.stream();
    let book = turns.take_book(stream);
    let (book, answer) = flush_with_book(alloc, turns, disk, book, file, span);
    turns.give_book(stream, book);
    answer
}

/// Writes the dirty pages of a span of a stream, or of the whole stream where no span is said, and then takes its pages
/// out of memory (`CcPurgeCacheSection`, which would throw the changes away unwritten).
///
/// `NotCached`, `Held` (a hold has a page of the span), `WriteFault`, `LogFault`, `JournalFull`, `NoMemory`.
pub fn purge<T: Turns>(
    alloc: Global,
    turns: &mut T,
    file: FileId,
    span: Option<Span>,
) -> Result<(), CcError>
    requires can { CanCall (T.standing turns.old) file.stream }
    ensures ends { PurgeEnds (T.standing turns.old) (T.standing turns.new) file span result }
{
    let stream = file.stream();
    let mut disk = turns.take_device(stream);
    let book = turns.take_book(stream);
    let (book, answer) = purge_held(alloc, turns, &mut disk, book, file, span);
    turns.give_book(stream, book);
    turns.give_device(stream, disk);
    answer
}
