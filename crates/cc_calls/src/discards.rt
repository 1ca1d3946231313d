//! The call that throws the changes of a span away.

ghost use Rattle.std.specs.Prelude.{◌≡◌, ◌<◌, List};
ghost use Rattle.cc_entry.specs.declared.call.Call.TheVariants as call;
ghost use Rattle.cc_entry.specs.declared.entry.Entry.{Entry};
ghost use Rattle.cc_effects.specs.Calls.{CallLeft, IsUnderWay};
ghost use Rattle.cc_model.specs.Setup.{Setup};
ghost use Rattle.cc_step.specs.Fill.{MayFill};
ghost use Rattle.cc_writes.specs.Hands.{HasBook, IsAtRest, SameDisk, Went};
ghost use Rattle.cc_writes.specs.Ways.{IsFull};
ghost use Rattle.cc_ranges.specs.FlushSteps.{without_one};
ghost use Rattle.cc_calls.specs.Answers.{CanCall, outcome_of};
ghost use Rattle.cc_calls.specs.Discards.{DiscardDid, DiscardEnds, DiscardStepLeft};

use cc_book::Book;
use cc_entry::{Call, CcError, FileId, NoMemory, Reply, Span};
use cc_journal::Journal;
use cc_turns::Turns;
use std::alloc::Global;

/// Takes the pages of a span of a stream out of memory, or those of the whole stream where no span is said, with what is
/// unwritten of them (`CcPurgeCacheSection`, which throws the changes away as this does). Its pages then show what the disk
/// holds. It takes the turn of the disk, and makes no call of it.
///
/// `NotCached`, `Held` (a hold has a page of the span), `Unsettled` (the image of a dirty page of the span is not known),
/// `Grown` (some byte of one became valid since the disk took the page), `JournalFull`, `NoMemory`.
pub fn discard<T: Turns>(
    alloc: Global,
    turns: &mut T,
    file: FileId,
    span: Option<Span>,
) -> Result<(), CcError>
    requires can { CanCall (T.standing turns.old) file.stream }
    ensures ends { DiscardEnds (T.standing turns.old) (T.standing turns.new) file span result }
{
    let stream = file.stream();
    let disk = turns.take_device(stream);
    let mut book = turns.take_book(stream);
    let answer = discard_at(alloc, turns, &mut book, file, span);
    turns.give_book(stream, book);
    turns.give_device(stream, disk);
    answer
}

// The same in one visit to the journal, with the turns of the stream's disk and book in hand.
fn discard_at<T: Turns>(
    alloc: Global,
    turns: &mut T,
    book: &mut Book,
    file: FileId,
    span: Option<Span>,
) -> Result<(), CcError>
    requires book { HasBook (T.standing turns.old) file.stream book.old }
    requires rest { IsAtRest (T.standing turns.old) file.stream }
    requires none { (T.standing turns.old).in_flight ≡ 0 }
    ensures book { HasBook (T.standing turns.new) file.stream book.new }
    ensures went { Went (T.standing turns.old) (T.standing turns.new) }
    ensures disk { SameDisk (T.standing turns.old).seen (T.standing turns.new).seen file.stream }
    ensures left { (begun : List Entry) →
        IsUnderWay (T.standing turns.old).number (call.Discard file span) begun (T.standing turns.old).seen →
        CallLeft (T.standing turns.old).setup (T.standing turns.old).number (call.Discard file span) (outcome_of result)
        begun (T.standing turns.new).seen }
    ensures did { DiscardDid (T.standing turns.old).number file span result
        (T.standing turns.old).seen (T.standing turns.new).seen }
    ensures full { IsFull 1 (T.standing turns.new) result }
{
    let mut journal = turns.take_journal();
    let pass = turns.me();
    let answer = discard_in(alloc, book, &mut journal, pass, file, span);
    turns.give_journal(journal);
    answer
}

// The same on a book and a journal in hand. The room for the entry is asked first.
fn discard_in<Q>(
    alloc: Global,
    book: &mut Book,
    journal: &mut Journal<Q>,
    pass: u32,
    file: FileId,
    span: Option<Span>,
) -> Result<(), CcError>
    requires may { (u : Setup) × MayFill u pass (call.Discard file span) book.old journal.old }
    ensures left { (u : Setup) → MayFill u pass (call.Discard file span) book.old journal.old →
        DiscardStepLeft u pass file span result book.old book.new journal.old journal.new }
{
    match journal.reserve(1) {
        Ok(()) => decide(alloc, book, journal, pass, file, span),
        Err(error) => Err(error),
    }
}

// The same where a place is reserved for the entry, which is given back where none is placed.
fn decide<Q>(
    alloc: Global,
    book: &mut Book,
    journal: &mut Journal<Q>,
    pass: u32,
    file: FileId,
    span: Option<Span>,
) -> Result<(), CcError>
    requires reserved { 0 < journal.old.reserved }
    requires may { (u : Setup) × MayFill u pass (call.Discard file span) book.old (without_one journal.old) }
    ensures left { (u : Setup) → MayFill u pass (call.Discard file span) book.old (without_one journal.old) →
        DiscardStepLeft u pass file span result book.old book.new (without_one journal.old) journal.new }
{
    let call = Call::Discard { file, span };
    let owed = journal.owed_end(pass);
    match book.refusal(alloc, journal, &call) {
        Ok(Some(error)) => {
            book.fail(journal, pass, call, error);
            journal.release(owed);
            Err(error)
        }
        Ok(None) => match book.done(alloc, journal, pass, call, Reply::Unit) {
            Ok(()) => {
                journal.release(owed);
                Ok(())
            }
            Err(NoMemory) => unreachable!(),
        },
        Err(NoMemory) => {
            journal.release(1);
            Err(CcError::NoMemory)
        }
    }
}
