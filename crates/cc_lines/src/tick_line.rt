//! A tick of the lazy writer, made by a caller for its line or by the lazy writer itself.

ghost use Rattle.cc_pieces.specs.Answered.{TickAnswered};
ghost use Rattle.cc_turns.specs.Standing.{Standing};
ghost use Rattle.cc_calls.specs.Answers.{IsFree};
ghost use Rattle.cc_calls.specs.Pages.{StaysGood, WentOn};
ghost use Rattle.cc_lines.specs.Line.{IsFullTold};

use cc_calls::tick;
use cc_entry::Answer;
use cc_turns::Turns;
use std::alloc::Global;

/// Makes a tick, and answers it. Want of memory is an answer, and so is a journal that is full.
pub fn serve_tick<T: Turns>(alloc: Global, turns: &mut T) -> Answer
    requires { IsFree (T.standing turns.old) }
    ensures answered { TickAnswered (T.standing turns.old).number result
        (T.standing turns.old).seen (T.standing turns.new).seen }
    ensures full { IsFullTold (T.standing turns.new) result }
    ensures goes_on { WentOn (T.standing turns.old) (T.standing turns.new) }
    ensures good { StaysGood (T.standing turns.old) (T.standing turns.new) }
{
    match tick(alloc, turns) {
        Ok(tick) => Answer::Ticked(tick),
        Err(error) => Answer::Refused(error),
    }
}
