//! The visits of a page of a noncached read to the journal: each takes its turn once.

ghost use Rattle.std.specs.Prelude.{◌≡◌, ◌<◌, ◌^◌, List, length};
ghost use Rattle.cc_entry.specs.declared.entry.Entry.{Entry};
ghost use Rattle.cc_entry.specs.declared.error.CcError.TheVariants as error;
ghost use Rattle.cc_entry.specs.declared.call.Call.TheVariants as call;
ghost use Rattle.cc_book.specs.Book.{Gains};
ghost use Rattle.cc_model.specs.Good.{IsGood};
ghost use Rattle.cc_model.specs.History.{history};
ghost use Rattle.cc_model.specs.Setup.{Setup};
ghost use Rattle.cc_turns.specs.Transfers.{fill_failed};
ghost use Rattle.cc_writes.specs.Hands.{HasBook, IsAtRest, SameDisk, Went, WentWith};
ghost use Rattle.cc_writes.specs.Told.{FitsLast, ToldLast};
ghost use Rattle.cc_writes.specs.Visits.{HasPlaced};
ghost use Rattle.cc_writes.specs.Ways.{IsFull, IsHalted};
ghost use Rattle.cc_ranges.specs.ReadVisits.{FitsEnded, IsAtRead, IsBelow, IsFullLook, IsReading, LookAsks, LookLeft};
ghost use Rattle.cc_ranges.specs.ReadVisits.{LookWent, ReadEnded, ToldEnded, WasReadHere, told_count, look_of, file_page};

use crate::read_steps::{ReadEnd, ReadNext, end, next_step};
use cc_book::Book;
use cc_entry::{CcError, Entry, FileId, PageId};
use cc_journal::Journal;
use cc_turns::Turns;
use cc_writes::{Returned, tell_last};
use std::alloc::Global;

/// What the read of a page does next.
#[derive(Drop)]
pub(crate) enum Look {
    /// It was done, and answers no bytes, or it failed.
    Ended(Result<usize, CcError>),
    /// The page is to be written first.
    Writes,
    /// The disk is to be read. A place is reserved for the entry of what it gives.
    Reads,
}

/// Takes the next step of the read of a page, which was written for it or not, with its stream's disk in hand.
pub(crate) fn look_at<T: Turns>(
    alloc: Global,
    turns: &mut T,
    book: &mut Book,
    file: FileId,
    page: u64,
    written: bool,
) -> Look
    requires book { HasBook (T.standing turns.old) file.stream book.old }
    requires rest { IsAtRest (T.standing turns.old) file.stream }
    requires none { (T.standing turns.old).in_flight ≡ 0 }
    ensures book { HasBook (T.standing turns.new) file.stream book.new }
    ensures rest { IsAtRest (T.standing turns.new) file.stream }
    ensures went { LookWent result (T.standing turns.old) (T.standing turns.new) }
    ensures disk { SameDisk (T.standing turns.old).seen (T.standing turns.new).seen file.stream }
    ensures left { (begun : List Entry) →
        IsReading (T.standing turns.old).number file page written begun (T.standing turns.old).seen →
        LookLeft (T.standing turns.old).setup (T.standing turns.old).number file page result
        begun (T.standing turns.new).seen }
    ensures asks { LookAsks (T.standing turns.old).setup file page written result (T.standing turns.new).seen }
    ensures below { IsBelow page result (history (T.standing turns.old).seen file.stream) }
    ensures full { IsFullLook (T.standing turns.new) result }
{
    let mut journal = turns.take_journal();
    let pass = turns.me();
    let went = next_step(alloc, book, &mut journal, pass, file, page, written);
    turns.give_journal(journal);
    look_of(went)
}

/// Ends the read of a page of which the disk gave these bytes. The place that is reserved is used, or given back.
pub(crate) fn land_at<T: Turns>(
    alloc: Global,
    turns: &mut T,
    book: &mut Book,
    file: FileId,
    page: u64,
    raw: &[u8; 4096],
    out: &mut [u8],
) -> Result<usize, CcError>
    requires book { HasBook (T.standing turns.old) file.stream book.old }
    requires rest { IsAtRest (T.standing turns.old) file.stream }
    requires reserved { (T.standing turns.old).in_flight ≡ 1 }
    requires read { WasReadHere (T.standing turns.old) file page raw.now }
    requires room { length out.old ≡ 4096 }
    ensures book { HasBook (T.standing turns.new) file.stream book.new }
    ensures rest { IsAtRest (T.standing turns.new) file.stream }
    ensures went { WentWith 0 (T.standing turns.old) (T.standing turns.new) }
    ensures disk { SameDisk (T.standing turns.old).seen (T.standing turns.new).seen file.stream }
    ensures left { (begun : List Entry) →
        IsAtRead (T.standing turns.old).setup (T.standing turns.old).number file page
        begun (T.standing turns.old).seen →
        ReadEnded (T.standing turns.old).setup (T.standing turns.old).number file page result
        begun (T.standing turns.new).seen out.old out.new }
    ensures full { IsFull 1 (T.standing turns.new) result }
{
    let mut journal = turns.take_journal();
    let pass = turns.me();
    let ended = end(alloc, book, &mut journal, pass, file, page, raw);
    let told = told_of(ended, &journal, out);
    turns.give_journal(journal);
    told
}

/// The disk failed to read a page: its entry is placed, at the place that is reserved for it.
pub(crate) fn unread_at<T: Turns>(turns: &mut T, book: &Book, file: FileId, page: u64)
    requires book { HasBook (T.standing turns.old) file.stream book.now }
    requires rest { IsAtRest (T.standing turns.old) file.stream }
    requires reserved { (T.standing turns.old).in_flight ≡ 1 }
    requires numbered { page < 2 ^ 51 }
    ensures book { HasBook (T.standing turns.new) file.stream book.now }
    ensures rest { IsAtRest (T.standing turns.new) file.stream }
    ensures went { WentWith 0 (T.standing turns.old) (T.standing turns.new) }
    ensures placed { HasPlaced (T.standing turns.old) (fill_failed (T.standing turns.old).number file.stream page)
        (T.standing turns.new).seen }
    ensures left { (begun : List Entry) →
        IsAtRead (T.standing turns.old).setup (T.standing turns.old).number file page
        begun (T.standing turns.old).seen →
        IsHalted (T.standing turns.old).setup (T.standing turns.old).number file.stream (call.NcRead file page)
        (error.ReadFault page) begun (T.standing turns.new).seen }
{
    let mut journal = turns.take_journal();
    let pass = turns.me();
    place_unread(&mut journal, pass, file, page);
    turns.give_journal(journal);
}

// The step that was taken on the book.
fn look_of(went: ReadNext) -> Look
    ensures { result ≡ look_of went }
{
    match went {
        ReadNext::Done => Look::Ended(Ok(0)),
        ReadNext::Refused(error) => Look::Ended(Err(error)),
        ReadNext::Writes => Look::Writes,
        ReadNext::Reads => Look::Reads,
        ReadNext::Stopped(error) => Look::Ended(Err(error)),
    }
}

// How the read ended, with its bytes told where it was done.
fn told_of<Q>(ended: ReadEnd, journal: &Journal<Q>, out: &mut [u8]) -> Result<usize, CcError>
    requires fits { FitsEnded ended journal.now.entries out.old }
    ensures { ToldEnded ended result journal.now.entries out.old out.new }
{
    match ended {
        ReadEnd::Done => Ok(count_of(tell_last(journal, out))),
        ReadEnd::Refused(error) => Err(error),
        ReadEnd::Stopped => Err(CcError::NoMemory),
    }
}

// How many bytes were told.
fn count_of(told: Returned) -> usize
    ensures { result ≡ told_count told }
{
    match told {
        Returned::Bytes(count) => count,
        _ => 0,
    }
}

// Places the entry of a page that the disk failed to read.
fn place_unread<Q>(journal: &mut Journal<Q>, pass: u32, file: FileId, page: u64)
    requires reserved { 0 < journal.old.reserved }
    requires good { (u : Setup) × IsGood u journal.old.entries }
    requires numbered { page < 2 ^ 51 }
    ensures { Gains (fill_failed pass file.stream page) journal.old journal.new }
{
    let page = page_id(file, page);
    journal.push(Entry::FillFailed { pass, page });
}

// A page of the stream of a file.
fn page_id(file: FileId, page: u64) -> PageId
    requires { page < 2 ^ 51 }
    ensures { result ≡ file_page file page }
{
    PageId::new(file.stream(), page).unwrap()
}
