//! A purge, with the disk and the book of its stream in hand.

ghost use Rattle.std.specs.Prelude.{◌≡◌, ◌<◌, ◌≤◌, ◌^◌, true, List, IfErr, OnOk};
ghost use Rattle.cc_entry.specs.declared.call.Call.TheVariants as call;
ghost use Rattle.cc_entry.specs.declared.entry.Entry.{Entry};
ghost use Rattle.cc_effects.specs.Calls.{CallLeft, IsUnderWay};
ghost use Rattle.cc_writes.specs.Calls.{IsFullWriting};
ghost use Rattle.cc_writes.specs.Alone.{NobodyElseChanged};
ghost use Rattle.cc_writes.specs.Hands.{Went};
ghost use Rattle.cc_writes.specs.Writes.{HasBoth};
ghost use Rattle.cc_ranges.specs.Flush.{outcome_of};
ghost use Rattle.cc_ranges.specs.Purge.{PurgeCameSoFar, PurgeHasLess, IsFullPurgeRound, PurgeRoundRises, PurgeRoundLeft, RoundPlaced, WasEmptiedAlone, ended_of, purge_round_of};

use crate::purge_visits::{PurgeStep, next_purge_step};
use cc_book::Book;
use cc_entry::{Call, CcError, FileId, Span};
use cc_turns::Turns;
use cc_writes::write_for;
use std::alloc::Global;

/// How far a purge came in a round.
#[derive(Drop)]
enum Round {
    /// It was done, or it failed.
    Ended(Result<(), CcError>),
    /// It wrote a page, and has come to the page behind it.
    CameTo(u64),
    /// No page of the span is dirty from where it has come to, or a page went out.
    GoesOn,
}

/// Purges a span of a stream, or the whole stream where no span is said: writes its dirty pages, ascending, each with
/// the book free for as long as the disk takes, and then, with the book kept, writes what is dirty again, and takes the
/// pages of the span out, ascending.
///
/// `NotCached`, `Held` (a hold has a page of the span), `WriteFault` (of a page), `LogFault`, `JournalFull`, `NoMemory`.
pub fn purge_held<T: Turns>(
    alloc: Global,
    turns: &mut T,
    disk: &mut T::Disk,
    mut book: Book,
    file: FileId,
    span: Option<Span>,
) -> (Book, Result<(), CcError>)
    requires known { book.stream < (T.standing turns.old).streams }
    requires stream { book.stream ≡ file.stream }
    requires both { HasBoth T.Disk.told T.Disk.faults (T.standing turns.old) book.stream book disk.old }
    requires none { (T.standing turns.old).in_flight ≡ 0 }
    ensures both { HasBoth T.Disk.told T.Disk.faults (T.standing turns.new) book.stream result.0 disk.new }
    ensures went { Went (T.standing turns.old) (T.standing turns.new) }
    ensures left { (begun : List Entry) →
        IsUnderWay (T.standing turns.old).number (call.Purge file span) begun (T.standing turns.old).seen →
        CallLeft (T.standing turns.old).setup (T.standing turns.old).number (call.Purge file span) (outcome_of result.1)
        begun (T.standing turns.new).seen }
    ensures emptied { OnOk result.1 (WasEmptiedAlone (T.standing turns.old).number file.stream (T.standing turns.old).seen
        (T.standing turns.new).seen) }
    ensures failed { IfErr result.1 (λ error. PurgeCameSoFar (T.standing turns.old).number file.stream
        (T.standing turns.old).seen (T.standing turns.new).seen) }
    ensures full { IsFullWriting (call.Purge file span) (T.standing turns.new) result.1 }
{
    let mut from = 0;
    'pages: loop {
        let (now, came) = advance(alloc, turns, disk, book, file, &span, from, false);
        book = now;
        match came {
            Round::Ended(answer) => return (book, answer),
            Round::CameTo(page) => from = page,
            Round::GoesOn => return empty_held(alloc, turns, disk, book, file, &span),
        }
    }
}

// Goes on with a purge that has come to the end of its span, with the book kept, until it ends. Each round leaves less to
// do.
fn empty_held<T: Turns>(
    alloc: Global,
    turns: &mut T,
    disk: &mut T::Disk,
    mut book: Book,
    file: FileId,
    span: &Option<Span>,
) -> (Book, Result<(), CcError>)
    requires known { book.stream < (T.standing turns.old).streams }
    requires stream { book.stream ≡ file.stream }
    requires both { HasBoth T.Disk.told T.Disk.faults (T.standing turns.old) book.stream book disk.old }
    requires none { (T.standing turns.old).in_flight ≡ 0 }
    ensures both { HasBoth T.Disk.told T.Disk.faults (T.standing turns.new) book.stream result.0 disk.new }
    ensures went { Went (T.standing turns.old) (T.standing turns.new) }
    ensures left { (begun : List Entry) →
        IsUnderWay (T.standing turns.old).number (call.Purge file span.now) begun (T.standing turns.old).seen →
        CallLeft (T.standing turns.old).setup (T.standing turns.old).number (call.Purge file span.now)
        (outcome_of result.1) begun (T.standing turns.new).seen }
    ensures alone { NobodyElseChanged (T.standing turns.old).number file.stream (T.standing turns.old).seen
        (T.standing turns.new).seen }
    ensures full { IsFullWriting (call.Purge file span.now) (T.standing turns.new) result.1 }
{
    'pages: loop {
        let (now, came) = advance(alloc, turns, disk, book, file, span, 0, true);
        book = now;
        match ended_of(came) {
            Some(answer) => return (book, answer),
            None => {}
        }
    }
}

// One round of a purge that has come to a page: its next step, with the writing of the page that the step asks for,
// where the book is kept or given for as long as the disk takes.
fn advance<T: Turns>(
    alloc: Global,
    turns: &mut T,
    disk: &mut T::Disk,
    mut book: Book,
    file: FileId,
    span: &Option<Span>,
    from: u64,
    keeps: bool,
) -> (Book, Round)
    requires known { book.stream < (T.standing turns.old).streams }
    requires stream { book.stream ≡ file.stream }
    requires both { HasBoth T.Disk.told T.Disk.faults (T.standing turns.old) book.stream book disk.old }
    requires none { (T.standing turns.old).in_flight ≡ 0 }
    ensures both { HasBoth T.Disk.told T.Disk.faults (T.standing turns.new) book.stream result.0 disk.new }
    ensures went { Went (T.standing turns.old) (T.standing turns.new) }
    ensures left { (begun : List Entry) →
        IsUnderWay (T.standing turns.old).number (call.Purge file span.now) begun (T.standing turns.old).seen →
        PurgeRoundLeft (T.standing turns.old).setup (T.standing turns.old).number file span.now result.1
        begun (T.standing turns.new).seen }
    ensures rising { PurgeRoundRises result.1 from }
    ensures placed { RoundPlaced (T.standing turns.old).number book.stream from keeps result.1 (T.standing turns.old).seen
        (T.standing turns.new).seen }
    ensures lessens { keeps ≡ true → from ≡ 0 →
        PurgeHasLess book.stream result.1 (T.standing turns.old).seen (T.standing turns.new).seen }
    ensures full { IsFullPurgeRound (call.Purge file span.now) (T.standing turns.new) result.1 }
{
    match next_purge_step(alloc, turns, &mut book, file, span, from) {
        PurgeStep::Ended(answer) => (book, Round::Ended(answer)),
        PurgeStep::Writes(page) => {
            let call = Call::Purge { file, span: *span };
            let (book, written) = write_for(alloc, turns, disk, book, call, page, keeps);
            (book, round_of(written, page))
        }
        PurgeStep::GoesOn => (book, Round::GoesOn),
    }
}

// What a round answers for the purge, where it ended it.
fn ended_of(came: Round) -> Option<Result<(), CcError>>
    ensures { result ≡ ended_of came }
{
    match came {
        Round::Ended(answer) => Some(answer),
        Round::CameTo(_page) => None,
        Round::GoesOn => None,
    }
}

// How far a purge came that wrote a page, or failed.
fn round_of(written: Result<Call, CcError>, page: u64) -> Round
    requires { page < 2 ^ 51 }
    ensures { result ≡ purge_round_of written page }
{
    match written {
        Ok(_) => Round::CameTo(page + 1),
        Err(error) => Round::Ended(Err(error)),
    }
}
