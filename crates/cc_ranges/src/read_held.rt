//! A page of a noncached read, with the disk and the book of its stream in hand.

ghost use Rattle.std.specs.Prelude.{◌≡◌, ℕ, ◌*◌, ◌<◌, ◌≤◌, ◌^◌, true, List, Err, length};
ghost use Rattle.cc_entry.specs.declared.call.Call.TheVariants as call;
ghost use Rattle.cc_entry.specs.declared.entry.Entry.{Entry};
ghost use Rattle.cc_effects.specs.Calls.{IsUnderWay};
ghost use Rattle.cc_model.specs.History.{history};
ghost use Rattle.cc_model.specs.Touches.{size_of};
ghost use Rattle.cc_writes.specs.Hands.{HasBook, IsAtRest, SameDisk, Went, WentWith};
ghost use Rattle.cc_writes.specs.Ways.{IsFull, IsFullError};
ghost use Rattle.cc_writes.specs.Calls.{IsFullWriting};
ghost use Rattle.cc_writes.specs.Writes.{HasBoth};
ghost use Rattle.cc_writes.specs.Rounds.{WasTold};
ghost use Rattle.cc_ranges.specs.ReadVisits.{IsAtRead, IsReading, IsToWriteFirst, ReadEnded};

use crate::read_visits::{Look, land_at, look_at, unread_at};
use cc_book::Book;
use cc_entry::{Call, CcError, FileId};
use cc_traits::Stop;
use cc_turns::Turns;
use cc_writes::{fail_at, read_free, release_at, write_for};
use std::alloc::Global;

/// Reads a page of a stream, noncached, into the front of `out`, and answers how many bytes it has. The page is
/// written first where it is dirty and no pin owes it a stamp. Where it is resident the bytes are its frame's. Nothing is
/// asked of the disk for a page that begins at the size or past it.
///
/// `NotCached`, `ReadFault`, `WriteFault`, `LogFault`, `JournalFull`, `NoMemory`.
pub(crate) fn read_held<T: Turns>(
    alloc: Global,
    turns: &mut T,
    disk: &mut T::Disk,
    mut book: Book,
    file: FileId,
    page: u64,
    out: &mut [u8],
) -> (Book, Result<usize, CcError>)
    requires known { book.stream < (T.standing turns.old).streams }
    requires stream { book.stream ≡ file.stream }
    requires both { HasBoth T.Disk.told T.Disk.faults (T.standing turns.old) book.stream book disk.old }
    requires none { (T.standing turns.old).in_flight ≡ 0 }
    requires room { length out.old ≡ 4096 }
    ensures both { HasBoth T.Disk.told T.Disk.faults (T.standing turns.new) book.stream result.0 disk.new }
    ensures went { Went (T.standing turns.old) (T.standing turns.new) }
    ensures left { (begun : List Entry) →
        IsUnderWay (T.standing turns.old).number (call.NcRead file page) begun (T.standing turns.old).seen →
        ReadEnded (T.standing turns.old).setup (T.standing turns.old).number file page result.1
        begun (T.standing turns.new).seen out.old out.new }
    ensures unread { size_of (history (T.standing turns.old).seen file.stream) ≤ 4096 * page → disk.new ≡ disk.old }
    ensures full { IsFullWriting (call.NcRead file page) (T.standing turns.new) result.1 }
{
    match look_at(alloc, turns, &mut book, file, page, false) {
        Look::Ended(answer) => (book, answer),
        Look::Writes => write_first(alloc, turns, disk, book, file, page, out),
        Look::Reads => read_disk(alloc, turns, disk, book, file, page, out),
    }
}

// Writes a page that is dirty, with the book given for as long as the disk takes, and then reads it.
fn write_first<T: Turns>(
    alloc: Global,
    turns: &mut T,
    disk: &mut T::Disk,
    book: Book,
    file: FileId,
    page: u64,
    out: &mut [u8],
) -> (Book, Result<usize, CcError>)
    requires known { book.stream < (T.standing turns.old).streams }
    requires stream { book.stream ≡ file.stream }
    requires both { HasBoth T.Disk.told T.Disk.faults (T.standing turns.old) book.stream book disk.old }
    requires none { (T.standing turns.old).in_flight ≡ 0 }
    requires room { length out.old ≡ 4096 }
    requires dirty { IsToWriteFirst (T.standing turns.old).setup file page (T.standing turns.old).seen }
    ensures both { HasBoth T.Disk.told T.Disk.faults (T.standing turns.new) book.stream result.0 disk.new }
    ensures went { Went (T.standing turns.old) (T.standing turns.new) }
    ensures left { (begun : List Entry) →
        IsUnderWay (T.standing turns.old).number (call.NcRead file page) begun (T.standing turns.old).seen →
        ReadEnded (T.standing turns.old).setup (T.standing turns.old).number file page result.1
        begun (T.standing turns.new).seen out.old out.new }
    ensures full { IsFullWriting (call.NcRead file page) (T.standing turns.new) result.1 }
{
    let call = Call::NcRead { file, page };
    let (book, written) = write_for(alloc, turns, disk, book, call, page, false);
    match written {
        Ok(_) => read_written(alloc, turns, disk, book, file, page, out),
        Err(error) => (book, Err(error)),
    }
}

// Reads a page that was written.
fn read_written<T: Turns>(
    alloc: Global,
    turns: &mut T,
    disk: &mut T::Disk,
    mut book: Book,
    file: FileId,
    page: u64,
    out: &mut [u8],
) -> (Book, Result<usize, CcError>)
    requires known { book.stream < (T.standing turns.old).streams }
    requires stream { book.stream ≡ file.stream }
    requires both { HasBoth T.Disk.told T.Disk.faults (T.standing turns.old) book.stream book disk.old }
    requires none { (T.standing turns.old).in_flight ≡ 0 }
    requires room { length out.old ≡ 4096 }
    requires reading { (begun : List Entry) ×
        IsReading (T.standing turns.old).number file page true begun (T.standing turns.old).seen }
    ensures both { HasBoth T.Disk.told T.Disk.faults (T.standing turns.new) book.stream result.0 disk.new }
    ensures went { Went (T.standing turns.old) (T.standing turns.new) }
    ensures left { (begun : List Entry) →
        IsReading (T.standing turns.old).number file page true begun (T.standing turns.old).seen →
        ReadEnded (T.standing turns.old).setup (T.standing turns.old).number file page result.1
        begun (T.standing turns.new).seen out.old out.new }
    ensures full { IsFullWriting (call.NcRead file page) (T.standing turns.new) result.1 }
{
    match look_at(alloc, turns, &mut book, file, page, true) {
        Look::Ended(answer) => (book, answer),
        Look::Writes => unreachable!(),
        Look::Reads => read_disk(alloc, turns, disk, book, file, page, out),
    }
}

// Reads a page from the disk, with the book given for as long as the disk takes. A place is reserved for the entry.
fn read_disk<T: Turns>(
    alloc: Global,
    turns: &mut T,
    disk: &mut T::Disk,
    book: Book,
    file: FileId,
    page: u64,
    out: &mut [u8],
) -> (Book, Result<usize, CcError>)
    requires known { book.stream < (T.standing turns.old).streams }
    requires stream { book.stream ≡ file.stream }
    requires both { HasBoth T.Disk.told T.Disk.faults (T.standing turns.old) book.stream book disk.old }
    requires reserved { (T.standing turns.old).in_flight ≡ 1 }
    requires room { length out.old ≡ 4096 }
    requires numbered { page < 2 ^ 51 }
    requires wanted { (begun : List Entry) × IsAtRead (T.standing turns.old).setup (T.standing turns.old).number
        file page begun (T.standing turns.old).seen }
    ensures both { HasBoth T.Disk.told T.Disk.faults (T.standing turns.new) book.stream result.0 disk.new }
    ensures went { WentWith 0 (T.standing turns.old) (T.standing turns.new) }
    ensures left { (begun : List Entry) →
        IsAtRead (T.standing turns.old).setup (T.standing turns.old).number file page
        begun (T.standing turns.old).seen →
        ReadEnded (T.standing turns.old).setup (T.standing turns.old).number file page result.1
        begun (T.standing turns.new).seen out.old out.new }
    ensures full { IsFull 1 (T.standing turns.new) result.1 }
{
    let mut raw = [0; 4096];
    let (mut book, answer) = read_free(turns, disk, book, page, &mut raw);
    match answer {
        Ok(()) => {
            let told = land_at(alloc, turns, &mut book, file, page, &raw, out);
            (book, told)
        }
        Err(Stop::Failed) => {
            let error = unread(alloc, turns, &mut book, file, page);
            (book, Err(error))
        }
        Err(Stop::NoMemory) => {
            release_at(turns);
            (book, Err(CcError::NoMemory))
        }
    }
}

// The disk failed to read a page: the read of it fails.
fn unread<T: Turns>(
    alloc: Global,
    turns: &mut T,
    book: &mut Book,
    file: FileId,
    page: u64,
) -> CcError
    requires book { HasBook (T.standing turns.old) file.stream book.old }
    requires rest { IsAtRest (T.standing turns.old) file.stream }
    requires reserved { (T.standing turns.old).in_flight ≡ 1 }
    requires numbered { page < 2 ^ 51 }
    requires wanted { (begun : List Entry) × IsAtRead (T.standing turns.old).setup (T.standing turns.old).number
        file page begun (T.standing turns.old).seen }
    ensures book { HasBook (T.standing turns.new) file.stream book.new }
    ensures rest { IsAtRest (T.standing turns.new) file.stream }
    ensures went { WentWith 0 (T.standing turns.old) (T.standing turns.new) }
    ensures told { WasTold (T.standing turns.old) (T.standing turns.new) file.stream page }
    ensures left { (begun : List Entry) →
        IsAtRead (T.standing turns.old).setup (T.standing turns.old).number file page
        begun (T.standing turns.old).seen → (out : List ℕ) →
        ReadEnded (T.standing turns.old).setup (T.standing turns.old).number file page (Err result)
        begun (T.standing turns.new).seen out out }
    ensures full { IsFullError 1 (T.standing turns.new) result }
{
    unread_at(turns, book, file, page);
    let call = Call::NcRead { file, page };
    fail_at(alloc, turns, book, call, CcError::ReadFault { page })
}
