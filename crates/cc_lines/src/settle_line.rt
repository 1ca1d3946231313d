//! The line that settles a stream.

ghost use Rattle.cc_pieces.specs.Answered.{SettleAnswered};
ghost use Rattle.cc_calls.specs.Answers.{CanCall};
ghost use Rattle.cc_calls.specs.Pages.{StaysGood, WentOn};
ghost use Rattle.cc_lines.specs.Line.{IsFullTold};

use cc_entry::{Answer, FileId, Reply, Value};
use cc_stored::settle;
use cc_turns::Turns;
use std::alloc::Global;

/// The settling of a file's stream, whose answer is the size and the valid data length that its record tells, with the
/// allocation and the log that the stream had as the line began.
pub(crate) fn settle_stream<T: Turns>(alloc: Global, turns: &mut T, file: FileId) -> Answer
    requires { CanCall (T.standing turns.old) file.stream }
    ensures answered { SettleAnswered (T.standing turns.old).setup (T.standing turns.old).number file result
        (T.standing turns.old).seen (T.standing turns.new).seen }
    ensures full { IsFullTold (T.standing turns.new) result }
    ensures goes_on { WentOn (T.standing turns.old) (T.standing turns.new) }
    ensures good { StaysGood (T.standing turns.old) (T.standing turns.new) }
{
    match settle(alloc, turns, file) {
        Ok(state) => Answer::Given(Reply::Value(Value::State(state))),
        Err(error) => Answer::Refused(error),
    }
}
