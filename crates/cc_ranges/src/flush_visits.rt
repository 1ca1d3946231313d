//! The visits of a flush to the journal: each takes its turn once.

ghost use Rattle.std.specs.Prelude.{◌≡◌, ◌≤◌, ◌^◌, true, List};
ghost use Rattle.cc_entry.specs.declared.entry.Entry.{Entry};
ghost use Rattle.cc_entry.specs.declared.entry.Entry.TheVariants as entry;
ghost use Rattle.cc_entry.specs.declared.call.Call.TheVariants as call;
ghost use Rattle.cc_effects.specs.Calls.{CallLeft};
ghost use Rattle.cc_model.specs.Good.{IsGood};
ghost use Rattle.cc_model.specs.History.{history};
ghost use Rattle.cc_model.specs.Images.{open_of};
ghost use Rattle.std.specs.Prelude.{None, Some};
ghost use Rattle.cc_turns.specs.Standing.{nothing};
ghost use Rattle.cc_effects.specs.Begins.{BeginsNone};
ghost use Rattle.cc_writes.specs.Hands.{HasBook, IsAtRest, SameDisk, Went, WentWith};
ghost use Rattle.cc_writes.specs.Visits.{HasPlaced};
ghost use Rattle.cc_writes.specs.Ways.{IsFull};
ghost use Rattle.cc_ranges.specs.Flush.{IsFlushing, FlushStepLeft, FlushStepWent, IsFullFlushStep, FlushStepAscends, FlushHasSynced, flush_answer, outcome_of, flush_step_of};

use crate::flush_steps::{FlushEnd, FlushNext, finish, next_step};
use cc_book::Book;
use cc_entry::{CcError, End, Entry, FileId, Span, StreamId};
use cc_turns::Turns;
use std::alloc::Global;

/// What a flush does next.
#[derive(Drop)]
pub(crate) enum FlushStep {
    /// It failed.
    Ended(CcError),
    /// This page of the span is to be written.
    Writes(u64),
    /// The disk is to be synced. A place is reserved for the entry.
    Syncs,
}

/// Takes the next step of a flush that has come to a page, with its stream's disk in hand.
pub(crate) fn next_flush_step<T: Turns>(
    alloc: Global,
    turns: &mut T,
    book: &mut Book,
    file: FileId,
    span: &Option<Span>,
    from: u64,
) -> FlushStep
    requires book { HasBook (T.standing turns.old) file.stream book.old }
    requires rest { IsAtRest (T.standing turns.old) file.stream }
    requires none { (T.standing turns.old).in_flight ≡ 0 }
    ensures book { HasBook (T.standing turns.new) file.stream book.new }
    ensures rest { IsAtRest (T.standing turns.new) file.stream }
    ensures went { FlushStepWent result (T.standing turns.old) (T.standing turns.new) }
    ensures disk { SameDisk (T.standing turns.old).seen (T.standing turns.new).seen file.stream }
    ensures left { (begun : List Entry) →
        IsFlushing (T.standing turns.old).number file span.now from begun (T.standing turns.old).seen →
        FlushStepLeft (T.standing turns.old).setup (T.standing turns.old).number file span.now result
        begun (T.standing turns.new).seen }
    ensures begun { BeginsNone (T.standing turns.old).number (T.standing turns.old).seen (T.standing turns.new).seen }
    ensures ascending { FlushStepAscends result from }
    ensures full { IsFullFlushStep (T.standing turns.new) result }
{
    let mut journal = turns.take_journal();
    let pass = turns.me();
    let went = next_step(alloc, book, &mut journal, pass, file, span, from);
    turns.give_journal(journal);
    step_of(went)
}

/// Places the entry of a sync of a stream's disk, which is in hand, by how the sync ended. A place is reserved for it.
pub(crate) fn place_sync<T: Turns>(turns: &mut T, stream: StreamId, how: End)
    requires device { (T.standing turns.old).held ≡ record nothing { device = Some stream } }
    requires rest { open_of (history (T.standing turns.old).seen stream) ≡ None }
    requires reserved { (T.standing turns.old).in_flight ≡ 1 }
    ensures good { IsGood (T.standing turns.new).setup (T.standing turns.new).seen }
    ensures went { WentWith 0 (T.standing turns.old) (T.standing turns.new) }
    ensures placed { HasPlaced (T.standing turns.old) (entry.Sync (T.standing turns.old).number stream how)
        (T.standing turns.new).seen }
{
    let mut journal = turns.take_journal();
    let pass = turns.me();
    journal.push(Entry::Sync { pass, stream, how });
    turns.give_journal(journal);
}

/// Ends a flush that has synced well.
///
/// What others brought about meanwhile refuses it; `JournalFull`, `NoMemory`.
pub(crate) fn finish_at<T: Turns>(
    alloc: Global,
    turns: &mut T,
    book: &mut Book,
    file: FileId,
    span: &Option<Span>,
) -> Result<(), CcError>
    requires book { HasBook (T.standing turns.old) file.stream book.old }
    requires rest { IsAtRest (T.standing turns.old) file.stream }
    requires none { (T.standing turns.old).in_flight ≡ 0 }
    requires synced { (begun : List Entry) ×
        FlushHasSynced (T.standing turns.old).number file span.now begun (T.standing turns.old).seen }
    ensures book { HasBook (T.standing turns.new) file.stream book.new }
    ensures rest { IsAtRest (T.standing turns.new) file.stream }
    ensures went { Went (T.standing turns.old) (T.standing turns.new) }
    ensures disk { SameDisk (T.standing turns.old).seen (T.standing turns.new).seen file.stream }
    ensures left { (begun : List Entry) →
        FlushHasSynced (T.standing turns.old).number file span.now begun (T.standing turns.old).seen →
        CallLeft (T.standing turns.old).setup (T.standing turns.old).number (call.Flush file span.now)
        (outcome_of result) begun (T.standing turns.new).seen }
    ensures begun { BeginsNone (T.standing turns.old).number (T.standing turns.old).seen (T.standing turns.new).seen }
    ensures full { IsFull 1 (T.standing turns.new) result }
{
    let mut journal = turns.take_journal();
    let pass = turns.me();
    let ended = finish(alloc, book, &mut journal, pass, file, span);
    turns.give_journal(journal);
    answer_of(ended)
}

// The step that was taken on the book.
fn step_of(went: FlushNext) -> FlushStep
    ensures { result ≡ flush_step_of went }
{
    match went {
        FlushNext::Refused(error) => FlushStep::Ended(error),
        FlushNext::Writes(page) => FlushStep::Writes(page),
        FlushNext::Syncs => FlushStep::Syncs,
        FlushNext::Stopped(error) => FlushStep::Ended(error),
    }
}

// How the caller of a flush is answered that ended so.
fn answer_of(ended: FlushEnd) -> Result<(), CcError>
    ensures { result ≡ flush_answer ended }
{
    match ended {
        FlushEnd::Done => Ok(()),
        FlushEnd::Refused(error) => Err(error),
        FlushEnd::Stopped(error) => Err(error),
    }
}
