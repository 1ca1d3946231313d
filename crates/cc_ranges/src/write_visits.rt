//! The visit of the write of a page to the journal, until the page is ready to be stored.

ghost use Rattle.std.specs.Prelude.{◌≡◌, List};
ghost use Rattle.cc_entry.specs.declared.entry.Entry.{Entry};
ghost use Rattle.cc_writes.specs.Hands.{HasBook, IsAtRest, SameDisk, Went};
ghost use Rattle.cc_ranges.specs.WriteVisits.{WriteStepAsks, IsFullWriteStep, WriteIsUnderWay, WriteStepLeft, WriteStepPlaced, write_step_of};

use crate::write_steps::{WriteNext, next_step};
use cc_book::Book;
use cc_entry::{CcError, FileId};
use cc_turns::Turns;
use std::alloc::Global;

/// What the write of a page does next.
#[derive(Drop)]
pub(crate) enum WriteStep {
    /// It was refused, or found no room in the journal or no memory.
    Ended(CcError),
    /// Its page is ready to be stored.
    Ready,
    /// This page of the block to give up is to be written before.
    Writes(u64),
    /// A page of the block to give up went out.
    GoesOn,
}

/// Takes the next step of the write of a page that is not stored yet, with its stream's disk in hand.
pub(crate) fn next_write_step<T: Turns>(
    alloc: Global,
    turns: &mut T,
    book: &mut Book,
    file: FileId,
    page: u64,
) -> WriteStep
    requires book { HasBook (T.standing turns.old) file.stream book.old }
    requires rest { IsAtRest (T.standing turns.old) file.stream }
    requires none { (T.standing turns.old).in_flight ≡ 0 }
    ensures book { HasBook (T.standing turns.new) file.stream book.new }
    ensures rest { IsAtRest (T.standing turns.new) file.stream }
    ensures went { Went (T.standing turns.old) (T.standing turns.new) }
    ensures disk { SameDisk (T.standing turns.old).seen (T.standing turns.new).seen file.stream }
    ensures left { (begun : List Entry) →
        WriteIsUnderWay (T.standing turns.old).number file page begun (T.standing turns.old).seen →
        WriteStepLeft (T.standing turns.old).setup (T.standing turns.old).number file page result
        begun (T.standing turns.new).seen }
    ensures asking { WriteStepAsks (T.standing turns.old).setup file page result (T.standing turns.new).seen }
    ensures placed { WriteStepPlaced (T.standing turns.old) file page result (T.standing turns.new).seen }
    ensures full { IsFullWriteStep (T.standing turns.new) result }
{
    let mut journal = turns.take_journal();
    let pass = turns.me();
    let went = next_step(alloc, book, &mut journal, pass, file, page);
    turns.give_journal(journal);
    step_of(went)
}

// The step that was taken on the book.
fn step_of(went: WriteNext) -> WriteStep
    ensures { result ≡ write_step_of went }
{
    match went {
        WriteNext::Refused(error) => WriteStep::Ended(error),
        WriteNext::Ready => WriteStep::Ready,
        WriteNext::WentOut => WriteStep::GoesOn,
        WriteNext::Writes(page) => WriteStep::Writes(page),
        WriteNext::Stopped(error) => WriteStep::Ended(error),
    }
}
