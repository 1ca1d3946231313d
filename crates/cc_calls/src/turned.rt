//! A call on a stream: in one turn of the stream's book, or with the turn of its disk too.

ghost use Rattle.std.specs.Prelude.{◌≡◌, ℕ, true, List, None};
ghost use Rattle.cc_entry.specs.declared.entry.Entry.{Entry};
ghost use Rattle.cc_effects.specs.Calls.{IsUnderWay};
ghost use Rattle.cc_model.specs.Good.{IsGood};
ghost use Rattle.cc_model.specs.Ranges.{range_of};
ghost use Rattle.cc_step.specs.Step.{is_stepped};
ghost use Rattle.cc_writes.specs.Hands.{Went};
ghost use Rattle.cc_writes.specs.Ways.{ReadFitsIn, IsFullOn};
ghost use Rattle.cc_writes.specs.Visits.{IsFiledNow, CallIsOfStream, IsFullTried, TriedLeft};
ghost use Rattle.cc_writes.specs.Fetch.{CanCall};
ghost use Rattle.cc_calls.specs.Paged.{CalledAtOnce, Paged, is_paged};

use cc_entry::{Call, CcError, StreamId};
use cc_turns::Turns;
use cc_writes::{Course, Returned, attempt_at, fetch};
use std::alloc::Global;

/// Makes a call that needs no page, in one turn of its stream's book, and answers what it returns to its caller.
pub fn call_at_once<T: Turns>(
    alloc: Global,
    turns: &mut T,
    stream: StreamId,
    call: Call,
    out: &mut [u8],
) -> Result<Returned, CcError>
    requires can { CanCall (T.standing turns.old) stream }
    requires stepped { is_stepped call ≡ true }
    requires pageless { (size : ℕ) → range_of size call ≡ None }
    requires filed { IsFiledNow (T.standing turns.old) stream call }
    requires fits { ReadFitsIn call out.old }
    ensures ends { CalledAtOnce (T.standing turns.old) (T.standing turns.new) call result out.old out.new }
    ensures full { IsFullOn stream call (T.standing turns.new) result }
{
    match turned(alloc, turns, stream, call, out) {
        Course::Ended(answer) => answer,
        Course::GoesOn(_) => unreachable!(),
    }
}

/// Makes a call that needs pages: in one turn of its stream's book where all of them are resident, else with the turn of
/// the stream's disk too.
pub fn call_paged<T: Turns>(
    alloc: Global,
    turns: &mut T,
    stream: StreamId,
    call: Call,
    out: &mut [u8],
) -> Result<Returned, CcError>
    requires can { CanCall (T.standing turns.old) stream }
    requires paged { is_paged call ≡ true }
    requires filed { CallIsOfStream call stream }
    requires fits { ReadFitsIn call out.old }
    ensures { Paged (T.standing turns.old) (T.standing turns.new) call result out.old out.new }
{
    match turned(alloc, turns, stream, call, out) {
        Course::Ended(answer) => answer,
        Course::GoesOn((_, call)) => fetch(alloc, turns, stream, call, out),
    }
}

// Takes the turn of a stream's book, and attempts the call there.
fn turned<T: Turns>(
    alloc: Global,
    turns: &mut T,
    stream: StreamId,
    call: Call,
    out: &mut [u8],
) -> Course<(u64, Call)>
    requires can { CanCall (T.standing turns.old) stream }
    requires stepped { is_stepped call ≡ true }
    requires filed { IsFiledNow (T.standing turns.old) stream call }
    requires fits { ReadFitsIn call out.old }
    ensures went { Went (T.standing turns.old) (T.standing turns.new) }
    ensures good { IsGood (T.standing turns.old).setup (T.standing turns.new).seen }
    ensures left { (begun : List Entry) →
        IsUnderWay (T.standing turns.old).number call begun (T.standing turns.old).seen →
        TriedLeft (T.standing turns.old).setup (T.standing turns.old).number stream call result
        begun (T.standing turns.new).seen out.old out.new }
    ensures full { IsFullTried (T.standing turns.new) stream call result }
{
    let mut book = turns.take_book(stream);
    let course = attempt_at(alloc, turns, &mut book, call, out);
    turns.give_book(stream, book);
    course
}
