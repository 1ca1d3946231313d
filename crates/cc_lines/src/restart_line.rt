//! The line of a restart, behind the restart itself, over any turns.

ghost use Rattle.std.specs.Prelude.{◌≡◌, ◌≤◌, ◌^◌};
ghost use Rattle.cc_pieces.specs.Restarts.{RestartEnded};
ghost use Rattle.cc_calls.specs.Answers.{IsFree};
ghost use Rattle.cc_calls.specs.Pages.{StaysGood, WentOn};
ghost use Rattle.cc_lines.specs.Line.{IsFullTold};

use cc_calls::log_flush;
use cc_entry::{Answer, Lsn};
use cc_turns::Turns;

/// Flushes a log that was restarted up to the greatest LSN that was read, where one was, so that later appends come behind it.
/// The answer has the number of its updates, or is the flush's refusal.
pub fn end_restart<T: Turns>(turns: &mut T, handle: u8, last: u64, updates: u64) -> Answer
    requires can { IsFree (T.standing turns.old) }
    requires first { (T.standing turns.old).number ≡ 0 }
    requires in_range { last ≤ 2 ^ 62 }
    ensures ended { RestartEnded (T.standing turns.old).setup handle last updates result
        (T.standing turns.old).seen (T.standing turns.new).seen }
    ensures full { IsFullTold (T.standing turns.new) result }
    ensures goes_on { WentOn (T.standing turns.old) (T.standing turns.new) }
    ensures good { StaysGood (T.standing turns.old) (T.standing turns.new) }
{
    match Lsn::new(last) {
        Some(lsn) => match log_flush(turns, handle, lsn) {
            Ok(()) => Answer::Restarted(updates),
            Err(error) => Answer::Refused(error),
        },
        None => Answer::Restarted(updates),
    }
}
