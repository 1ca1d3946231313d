//! The rounds of a call that needs pages.

ghost use Rattle.std.specs.Prelude.{◌≡◌, ◌<◌, true, List};
ghost use Rattle.cc_entry.specs.declared.entry.Entry.{Entry};
ghost use Rattle.cc_effects.specs.Asked.{brings_in};
ghost use Rattle.cc_effects.specs.Calls.{IsUnderWay};
ghost use Rattle.cc_model.specs.Good.{IsGood};
ghost use Rattle.cc_step.specs.Step.{is_stepped};
ghost use Rattle.cc_writes.specs.Hands.{Went};
ghost use Rattle.cc_writes.specs.Ways.{EndedSo, ReadFitsIn};
ghost use Rattle.cc_writes.specs.Visits.{CallIsOfStream};
ghost use Rattle.cc_writes.specs.Writes.{HasBoth};
ghost use Rattle.cc_writes.specs.Fetch.{CanCall, IsFullFetching, WentOn};
ghost use Rattle.cc_writes.specs.Rounds.{RoundLeft, IsFullCourse, IsNearer, course_of};

use crate::calls::write_for;
use crate::course::Course;
use crate::keeping::Rounds;
use crate::pages::bring;
use crate::{Returned, next_call_step};
use cc_book::Book;
use cc_entry::{Call, CcError, StreamId};
use cc_step::Way;
use cc_turns::Turns;
use std::alloc::Global;

/// Brings the pages of a call in, with the turn of its stream's disk, until the call ends. Answers what the call
/// returns to its caller.
///
/// The refusal of the call; `ReadFault`, `WriteFault`, `LogFault`, `JournalFull`, `NoMemory`.
pub fn fetch<T: Turns>(
    alloc: Global,
    turns: &mut T,
    stream: StreamId,
    call: Call,
    out: &mut [u8],
) -> Result<Returned, CcError>
    requires can { CanCall (T.standing turns.old) stream }
    requires stepped { is_stepped call ≡ true }
    requires brings { brings_in call ≡ true }
    requires filed { CallIsOfStream call stream }
    requires fits { ReadFitsIn call out.old }
    ensures goes_on { WentOn (T.standing turns.old) (T.standing turns.new) }
    ensures good { IsGood (T.standing turns.new).setup (T.standing turns.new).seen }
    ensures left { (begun : List Entry) →
        IsUnderWay (T.standing turns.old).number call begun (T.standing turns.old).seen →
        EndedSo (T.standing turns.old).setup (T.standing turns.old).number call result
        begun (T.standing turns.new).seen out.old out.new }
    ensures full { IsFullFetching call (T.standing turns.new) result }
{
    let mut disk = turns.take_device(stream);
    let book = turns.take_book(stream);
    let (book, answer) = until_ended(alloc, turns, &mut disk, book, call, out);
    turns.give_book(stream, book);
    turns.give_device(stream, disk);
    answer
}

// Goes on in rounds, until the call ends. Each round leaves fewer transfers that may be made with the book free, or, with
// the book kept, less to do.
fn until_ended<T: Turns>(
    alloc: Global,
    turns: &mut T,
    disk: &mut T::Disk,
    mut book: Book,
    mut call: Call,
    out: &mut [u8],
) -> (Book, Result<Returned, CcError>)
    requires known { book.stream < (T.standing turns.old).streams }
    requires both { HasBoth T.Disk.told T.Disk.faults (T.standing turns.old) book.stream book disk.old }
    requires none { (T.standing turns.old).in_flight ≡ 0 }
    requires stepped { is_stepped call ≡ true }
    requires brings { brings_in call ≡ true }
    requires filed { CallIsOfStream call book.stream }
    requires fits { ReadFitsIn call out.old }
    ensures both { HasBoth T.Disk.told T.Disk.faults (T.standing turns.new) book.stream result.0 disk.new }
    ensures went { Went (T.standing turns.old) (T.standing turns.new) }
    ensures left { (begun : List Entry) →
        IsUnderWay (T.standing turns.old).number call begun (T.standing turns.old).seen →
        EndedSo (T.standing turns.old).setup (T.standing turns.old).number call result.1
        begun (T.standing turns.new).seen out.old out.new }
    ensures full { IsFullFetching call (T.standing turns.new) result.1 }
{
    let mut rounds = Rounds::new();
    'pages: loop {
        let (now, course) = round(alloc, turns, disk, book, call, out, &mut rounds);
        book = now;
        match course {
            Course::GoesOn(again) => call = again,
            Course::Ended(answer) => return (book, answer),
        }
    }
}

// One round of a call: its next step, with the transfer of the page that the step asks for.
fn round<T: Turns>(
    alloc: Global,
    turns: &mut T,
    disk: &mut T::Disk,
    mut book: Book,
    call: Call,
    out: &mut [u8],
    rounds: &mut Rounds,
) -> (Book, Course<Call>)
    requires known { book.stream < (T.standing turns.old).streams }
    requires both { HasBoth T.Disk.told T.Disk.faults (T.standing turns.old) book.stream book disk.old }
    requires none { (T.standing turns.old).in_flight ≡ 0 }
    requires stepped { is_stepped call ≡ true }
    requires brings { brings_in call ≡ true }
    requires filed { CallIsOfStream call book.stream }
    requires fits { ReadFitsIn call out.old }
    ensures both { HasBoth T.Disk.told T.Disk.faults (T.standing turns.new) book.stream result.0 disk.new }
    ensures went { Went (T.standing turns.old) (T.standing turns.new) }
    ensures left { (begun : List Entry) →
        IsUnderWay (T.standing turns.old).number call begun (T.standing turns.old).seen →
        RoundLeft (T.standing turns.old).setup (T.standing turns.old).number call result.1
        begun (T.standing turns.new).seen out.old out.new }
    ensures nearer { IsNearer book.stream call result.1 rounds.old rounds.new
        (T.standing turns.old).seen (T.standing turns.new).seen }
    ensures full { IsFullCourse call (T.standing turns.new) result.1 }
{
    match next_call_step(alloc, turns, &mut book, call, out) {
        Course::Ended(answer) => (book, Course::Ended(answer)),
        Course::GoesOn(Way::WentOut(call)) => (book, Course::GoesOn(call)),
        Course::GoesOn(Way::Writes(page, call)) => {
            let keeps = rounds.keeps_for_write(page);
            let (book, left) = write_for(alloc, turns, disk, book, call, page, keeps);
            (book, course_of(left))
        }
        Course::GoesOn(Way::Reads(page, call)) => {
            let keeps = rounds.keeps_for_read(page);
            let (book, left) = bring(alloc, turns, disk, book, call, page, keeps);
            (book, course_of(left))
        }
    }
}

// The course of a call after a page step.
fn course_of(left: Result<Call, CcError>) -> Course<Call>
    ensures { result ≡ course_of left }
{
    match left {
        Ok(call) => Course::GoesOn(call),
        Err(error) => Course::Ended(Err(error)),
    }
}
