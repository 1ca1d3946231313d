//! The lines of the restarts of a script, whose restarts were made before the desk: each log is flushed, and each line answered.

ghost use Rattle.std.specs.Prelude.{◌≡◌, ◌≢◌, ℕ, ◌+◌, ◌≤◌, ◌^◌, [], length, vec_capacity};
ghost use Rattle.cc_effects.specs.Moments.{IsIdle};
ghost use Rattle.cc_turns.specs.Desk.{standing_of};
ghost use Rattle.std.specs.List.{AllByRecursion};
ghost use Rattle.cc_lines.specs.Line.{IsFree, IsFullTold, WentOn};
ghost use Rattle.cc_restarts.specs.Restarting.{IsOwnRefusal};
ghost use Rattle.cc_run.specs.Desks.{PassIsReady, IsSameRun};
ghost use Rattle.cc_program.specs.Restarting.{RestartsEnded, TellsEnd, last_number};

use cc_entry::{Answer, LineReply, Lsn};
use cc_lines::end_restart;
use cc_restarts::LogRestart;
use cc_traits::{LogFile, PageDisk, PostRoutine};
use cc_turns::Desk;

/// Ends the restarts as pass 0, each that was done by a flush of its log, and puts the answer of each line into the room that is
/// there.
pub(crate) fn end_restarts<D: PageDisk, L: LogFile, Q: PostRoutine>(
    desk: &mut Desk<D, L, Q>,
    ended: &[LogRestart],
    replies: &mut Vec<LineReply>,
)
    requires first { desk.old.pass ≡ 0 }
    requires begins { desk.old.since ≡ desk.old.last.entries }
    requires ready { PassIsReady (standing_of D.told D.faults L.told L.faults desk.old) }
    requires none { replies.old.items ≡ [] }
    requires room { length ended.now ≤ vec_capacity replies.old }
    requires refusals { AllByRecursion (λ restart. IsOwnRefusal restart.ended) ended.now }
    ensures ended { RestartsEnded (standing_of D.told D.faults L.told L.faults desk.old).setup ended.now
        replies.new.items desk.old.last.entries desk.new.last.entries }
    ensures alone { (me : ℕ) → me ≢ 0 → IsIdle me desk.old.last.entries desk.new.last.entries }
    ensures run { IsSameRun (standing_of D.told D.faults L.told L.faults desk.old)
        (standing_of D.told D.faults L.told L.faults desk.new) }
    ensures ready { PassIsReady (standing_of D.told D.faults L.told L.faults desk.new) }
{
    for restart in ended {
        let answer = end_one(desk, restart);
        replies.push_reserved(LineReply {
            line: restart.line,
            answer,
        });
    }
    desk.own();
}

// Ends one restart, and answers its line.
fn end_one<D: PageDisk, L: LogFile, Q: PostRoutine>(
    desk: &mut Desk<D, L, Q>,
    restart: &LogRestart,
) -> Answer
    requires can { IsFree (standing_of D.told D.faults L.told L.faults desk.old) }
    requires first { desk.old.pass ≡ 0 }
    ensures ended { TellsEnd (standing_of D.told D.faults L.told L.faults desk.old).setup restart.now.handle restart.now.ended result
        desk.old.last.entries desk.new.last.entries }
    ensures full { IsOwnRefusal restart.now.ended → IsFullTold (standing_of D.told D.faults L.told L.faults desk.new) result }
    ensures goes_on { WentOn (standing_of D.told D.faults L.told L.faults desk.old)
        (standing_of D.told D.faults L.told L.faults desk.new) }
{
    match restart.ended {
        Ok(numbers) => {
            let last = last_number(numbers.last);
            end_restart(desk, restart.handle, last, numbers.updates)
        }
        Err(error) => Answer::Refused(error),
    }
}

// The number of the last LSN that a restart read, 0 where there was none.
fn last_number(last: Option<Lsn>) -> u64
    ensures same { result ≡ last_number last }
    ensures in_range { result ≤ 2 ^ 62 }
{
    match last {
        Some(lsn) => lsn.number(),
        None => 0,
    }
}
