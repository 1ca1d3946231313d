//! The visit of a purge to the journal, which takes its turn once.

ghost use Rattle.std.specs.Prelude.{◌≡◌, List};
ghost use Rattle.cc_entry.specs.declared.entry.Entry.{Entry};
ghost use Rattle.cc_entry.specs.declared.call.Call.TheVariants as call;
ghost use Rattle.cc_effects.specs.Calls.{IsUnderWay};
ghost use Rattle.cc_writes.specs.Hands.{HasBook, IsAtRest, SameDisk, Went};
ghost use Rattle.cc_ranges.specs.Purge.{PurgeStepAsks, IsFullPurgeStep, PurgeStepLeft, PurgeStepPlaced, purge_step_of};

use crate::purge_steps::{PurgeNext, next_step};
use cc_book::Book;
use cc_entry::{CcError, FileId, Span};
use cc_turns::Turns;
use std::alloc::Global;

/// What a purge does next.
#[derive(Drop)]
pub(crate) enum PurgeStep {
    /// It was done, or it failed.
    Ended(Result<(), CcError>),
    /// This page of the span is to be written.
    Writes(u64),
    /// No page of the span is dirty from where it has come to, or a page went out.
    GoesOn,
}

/// Takes the next step of a purge that has come to a page, with its stream's disk in hand.
pub(crate) fn next_purge_step<T: Turns>(
    alloc: Global,
    turns: &mut T,
    book: &mut Book,
    file: FileId,
    span: &Option<Span>,
    from: u64,
) -> PurgeStep
    requires book { HasBook (T.standing turns.old) file.stream book.old }
    requires rest { IsAtRest (T.standing turns.old) file.stream }
    requires none { (T.standing turns.old).in_flight ≡ 0 }
    ensures book { HasBook (T.standing turns.new) file.stream book.new }
    ensures rest { IsAtRest (T.standing turns.new) file.stream }
    ensures went { Went (T.standing turns.old) (T.standing turns.new) }
    ensures disk { SameDisk (T.standing turns.old).seen (T.standing turns.new).seen file.stream }
    ensures left { (begun : List Entry) →
        IsUnderWay (T.standing turns.old).number (call.Purge file span.now) begun (T.standing turns.old).seen →
        PurgeStepLeft (T.standing turns.old).setup (T.standing turns.old).number file span.now result
        begun (T.standing turns.new).seen }
    ensures asking { PurgeStepAsks (T.standing turns.old).setup file span.now from result (T.standing turns.new).seen }
    ensures placed { PurgeStepPlaced (T.standing turns.old) file span.now from result (T.standing turns.new).seen }
    ensures full { IsFullPurgeStep (T.standing turns.new) result }
{
    let mut journal = turns.take_journal();
    let pass = turns.me();
    let went = next_step(alloc, book, &mut journal, pass, file, span, from);
    turns.give_journal(journal);
    step_of(went)
}

// The step that was taken on the book.
fn step_of(went: PurgeNext) -> PurgeStep
    ensures { result ≡ purge_step_of went }
{
    match went {
        PurgeNext::Done => PurgeStep::Ended(Ok(())),
        PurgeNext::Refused(error) => PurgeStep::Ended(Err(error)),
        PurgeNext::Writes(page) => PurgeStep::Writes(page),
        PurgeNext::Cleaned => PurgeStep::GoesOn,
        PurgeNext::WentOut => PurgeStep::GoesOn,
        PurgeNext::Stopped(error) => PurgeStep::Ended(Err(error)),
    }
}
