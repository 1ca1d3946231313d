//! A flush, with the disk and the book of its stream in hand.

ghost use Rattle.std.specs.Prelude.{◌≡◌, ◌<◌, ◌≤◌, ◌^◌, List};
ghost use Rattle.cc_entry.specs.declared.call.Call.TheVariants as call;
ghost use Rattle.cc_entry.specs.declared.entry.Entry.{Entry};
ghost use Rattle.cc_effects.specs.Calls.{CallLeft, IsUnderWay};
ghost use Rattle.cc_model.specs.Ranges.{first_of_span};
ghost use Rattle.cc_effects.specs.Begins.{BeginsAscending, BeginsNone};
ghost use Rattle.cc_writes.specs.Calls.{IsFullWriting};
ghost use Rattle.cc_writes.specs.Hands.{HasBook, IsAtRest, SameDisk, Went, WentWith};
ghost use Rattle.cc_writes.specs.Ways.{IsFull};
ghost use Rattle.cc_writes.specs.Writes.{HasBoth};
ghost use Rattle.cc_ranges.specs.Flush.{IsFlushing, IsAtSync, IsAtEnd, IsSyncTold, RoundBegins, FlushRoundLeft, RoundWent, IsFullFlushRound, FlushRoundRises, outcome_of, flush_round_of};

use crate::flush_visits::{FlushStep, finish_at, next_flush_step, place_sync};
use cc_book::Book;
use cc_entry::{Call, CcError, End, FileId, Span};
use cc_turns::{Turns, sync};
use cc_writes::{fail_at, write_for};
use std::alloc::Global;

/// How far a flush came in a round.
#[derive(Drop)]
enum Round {
    /// It failed.
    Ended(CcError),
    /// It wrote a page, and has come to the page behind it.
    CameTo(u64),
    /// It has come to the end of its span. A place is reserved for the entry of its sync.
    Syncs,
}

/// Flushes a span of a stream, or the whole stream where no span is said: writes its dirty pages, ascending, each with
/// the book free for as long as the disk takes, and then syncs the disk.
///
/// `NotCached`, `Busy` (a pin owes a stamp to a page of the span), `WriteFault` (of a page; of the span's first page
/// where the sync failed), `LogFault`, `JournalFull`, `NoMemory`.
pub fn flush_with_book<T: Turns>(
    alloc: Global,
    turns: &mut T,
    disk: &mut T::Disk,
    mut book: Book,
    file: FileId,
    span: Option<Span>,
) -> (Book, Result<(), CcError>)
    requires known { book.stream < (T.standing turns.old).streams }
    requires stream { book.stream ≡ file.stream }
    requires both { HasBoth T.Disk.told T.Disk.faults (T.standing turns.old) book.stream book disk.old }
    requires none { (T.standing turns.old).in_flight ≡ 0 }
    ensures both { HasBoth T.Disk.told T.Disk.faults (T.standing turns.new) book.stream result.0 disk.new }
    ensures went { Went (T.standing turns.old) (T.standing turns.new) }
    ensures left { (begun : List Entry) →
        IsUnderWay (T.standing turns.old).number (call.Flush file span) begun (T.standing turns.old).seen →
        CallLeft (T.standing turns.old).setup (T.standing turns.old).number (call.Flush file span) (outcome_of result.1)
        begun (T.standing turns.new).seen }
    ensures ascending { BeginsAscending (T.standing turns.old).number 0 (2 ^ 51)
        (T.standing turns.old).seen (T.standing turns.new).seen }
    ensures full { IsFullWriting (call.Flush file span) (T.standing turns.new) result.1 }
{
    let mut from = 0;
    'pages: loop {
        let (now, came) = write_next(alloc, turns, disk, book, file, &span, from);
        book = now;
        match came {
            Round::Ended(error) => return (book, Err(error)),
            Round::CameTo(page) => from = page,
            Round::Syncs => return sync_held(alloc, turns, disk, book, file, &span),
        }
    }
}

// Writes the next dirty page of the span of a flush that has come to a page, with the book given for as long as the
// disk takes.
fn write_next<T: Turns>(
    alloc: Global,
    turns: &mut T,
    disk: &mut T::Disk,
    mut book: Book,
    file: FileId,
    span: &Option<Span>,
    from: u64,
) -> (Book, Round)
    requires known { book.stream < (T.standing turns.old).streams }
    requires stream { book.stream ≡ file.stream }
    requires both { HasBoth T.Disk.told T.Disk.faults (T.standing turns.old) book.stream book disk.old }
    requires none { (T.standing turns.old).in_flight ≡ 0 }
    requires within { from ≤ 2 ^ 51 }
    requires flushing { (begun : List Entry) ×
        IsFlushing (T.standing turns.old).number file span.now from begun (T.standing turns.old).seen }
    ensures both { HasBoth T.Disk.told T.Disk.faults (T.standing turns.new) book.stream result.0 disk.new }
    ensures went { RoundWent result.1 (T.standing turns.old) (T.standing turns.new) }
    ensures left { (begun : List Entry) →
        IsFlushing (T.standing turns.old).number file span.now from begun (T.standing turns.old).seen →
        FlushRoundLeft (T.standing turns.old).setup (T.standing turns.old).number file span.now result.1
        begun (T.standing turns.new).seen }
    ensures ascending { RoundBegins (T.standing turns.old).number result.1 from
        (T.standing turns.old).seen (T.standing turns.new).seen }
    ensures rising { FlushRoundRises result.1 from }
    ensures full { IsFullFlushRound (call.Flush file span.now) (T.standing turns.new) result.1 }
{
    match next_flush_step(alloc, turns, &mut book, file, span, from) {
        FlushStep::Ended(error) => (book, Round::Ended(error)),
        FlushStep::Writes(page) => {
            let call = Call::Flush { file, span: *span };
            let (book, written) = write_for(alloc, turns, disk, book, call, page, false);
            (book, round_of(written, page))
        }
        FlushStep::Syncs => (book, Round::Syncs),
    }
}

// How far a flush came that wrote a page, or failed.
fn round_of(written: Result<Call, CcError>, page: u64) -> Round
    requires { page < 2 ^ 51 }
    ensures { result ≡ flush_round_of written page }
{
    match written {
        Ok(_) => Round::CameTo(page + 1),
        Err(error) => Round::Ended(error),
    }
}

// Syncs the disk of a flush that has come to the end of its span, with the book given meanwhile, and ends the flush.
fn sync_held<T: Turns>(
    alloc: Global,
    turns: &mut T,
    disk: &mut T::Disk,
    book: Book,
    file: FileId,
    span: &Option<Span>,
) -> (Book, Result<(), CcError>)
    requires known { book.stream < (T.standing turns.old).streams }
    requires stream { book.stream ≡ file.stream }
    requires both { HasBoth T.Disk.told T.Disk.faults (T.standing turns.old) book.stream book disk.old }
    requires reserved { (T.standing turns.old).in_flight ≡ 1 }
    requires at { (begun : List Entry) × IsAtSync (T.standing turns.old).setup (T.standing turns.old).number file
        span.now begun (T.standing turns.old).seen }
    ensures both { HasBoth T.Disk.told T.Disk.faults (T.standing turns.new) book.stream result.0 disk.new }
    ensures went { WentWith 0 (T.standing turns.old) (T.standing turns.new) }
    ensures left { (begun : List Entry) →
        IsAtSync (T.standing turns.old).setup (T.standing turns.old).number file span.now
        begun (T.standing turns.old).seen →
        CallLeft (T.standing turns.old).setup (T.standing turns.old).number (call.Flush file span.now)
        (outcome_of result.1) begun (T.standing turns.new).seen }
    ensures begun { BeginsNone (T.standing turns.old).number (T.standing turns.old).seen (T.standing turns.new).seen }
    ensures full { IsFull 1 (T.standing turns.new) result.1 }
{
    let (mut book, how) = sync_free(turns, disk, book);
    let answer = end(alloc, turns, &mut book, file, span, how);
    (book, answer)
}

// Syncs the disk, with the book given meanwhile. The place that is reserved for the entry of the sync is used.
fn sync_free<T: Turns>(turns: &mut T, disk: &mut T::Disk, book: Book) -> (Book, End)
    requires known { book.stream < (T.standing turns.old).streams }
    requires both { HasBoth T.Disk.told T.Disk.faults (T.standing turns.old) book.stream book disk.old }
    requires reserved { (T.standing turns.old).in_flight ≡ 1 }
    ensures both { HasBoth T.Disk.told T.Disk.faults (T.standing turns.new) book.stream result.0 disk.new }
    ensures went { WentWith 0 (T.standing turns.old) (T.standing turns.new) }
    ensures told { IsSyncTold (T.standing turns.old) book.stream result.1 (T.standing turns.new).seen }
{
    let stream = book.stream();
    turns.give_book(stream, book);
    let how = sync(disk);
    place_sync(turns, stream, how);
    (turns.take_book(stream), how)
}

// Ends a flush whose sync ended so.
fn end<T: Turns>(
    alloc: Global,
    turns: &mut T,
    book: &mut Book,
    file: FileId,
    span: &Option<Span>,
    how: End,
) -> Result<(), CcError>
    requires book { HasBook (T.standing turns.old) file.stream book.old }
    requires rest { IsAtRest (T.standing turns.old) file.stream }
    requires none { (T.standing turns.old).in_flight ≡ 0 }
    requires at { (begun : List Entry) × IsAtEnd (T.standing turns.old).setup (T.standing turns.old).number file
        span.now how begun (T.standing turns.old).seen }
    ensures book { HasBook (T.standing turns.new) file.stream book.new }
    ensures rest { IsAtRest (T.standing turns.new) file.stream }
    ensures went { Went (T.standing turns.old) (T.standing turns.new) }
    ensures disk { SameDisk (T.standing turns.old).seen (T.standing turns.new).seen file.stream }
    ensures left { (begun : List Entry) →
        IsAtEnd (T.standing turns.old).setup (T.standing turns.old).number file span.now how
        begun (T.standing turns.old).seen →
        CallLeft (T.standing turns.old).setup (T.standing turns.old).number (call.Flush file span.now)
        (outcome_of result) begun (T.standing turns.new).seen }
    ensures begun { BeginsNone (T.standing turns.old).number (T.standing turns.old).seen (T.standing turns.new).seen }
    ensures full { IsFull 1 (T.standing turns.new) result }
{
    match how {
        End::Good => finish_at(alloc, turns, book, file, span),
        End::Failed => {
            let page = first_page(*span);
            let call = Call::Flush { file, span: *span };
            Err(fail_at(alloc, turns, book, call, CcError::WriteFault { page }))
        }
        End::NoMemory => Err(CcError::NoMemory),
    }
}

// The first page of a span, 0 where there is none.
fn first_page(span: Option<Span>) -> u64
    ensures { result ≡ first_of_span span }
{
    match span {
        Some(span) => span.from() / 4096,
        None => 0,
    }
}
