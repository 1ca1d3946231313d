//! The lines of read-ahead: a read that is announced, and a step, which the read-ahead worker makes too.

ghost use Rattle.std.specs.Prelude.{◌≡◌};
ghost use Rattle.cc_entry.specs.declared.call.Call.TheVariants as call;
ghost use Rattle.cc_pieces.specs.Answered.{CallAnswered};
ghost use Rattle.cc_pieces.specs.Queue.{AskPlaced};
ghost use Rattle.cc_turns.specs.Standing.{Standing};
ghost use Rattle.cc_calls.specs.Answers.{CanCall, IsFree};
ghost use Rattle.cc_calls.specs.Pages.{StaysGood, WentOn};
ghost use Rattle.cc_lines.specs.Line.{IsFullTold, StepAt, ask_told, step_told};
ghost use Rattle.cc_lines.specs.Queues.{hand_of};

use cc_calls::{read_ahead_step, schedule_read_ahead};
use cc_entry::{AheadDone, Answer, CcError, FileId, Reply, Request};
use cc_queue::{Queue, QueuePlace};
use cc_turns::Turns;
use std::alloc::Global;
use std::sync::Wait;

/// Asks for the read-ahead behind a read that is to come, and answers the request.
pub(crate) fn ask_ahead<R: Wait, T: Turns>(
    rt: &R,
    alloc: Global,
    turns: &mut T,
    queue: &Queue<Request>,
    place: &mut QueuePlace<Request>,
    file: FileId,
    at: u64,
    len: u64,
) -> Answer
    requires can { CanCall (T.standing turns.old) file.stream }
    requires own { place.old.queue ≡ queue.now }
    ensures answered { CallAnswered (T.standing turns.old).setup (T.standing turns.old).number (call.AskAhead file at len) result
        (T.standing turns.old).seen (T.standing turns.new).seen }
    ensures full { IsFullTold (T.standing turns.new) result }
    ensures goes_on { WentOn (T.standing turns.old) (T.standing turns.new) }
    ensures good { StaysGood (T.standing turns.old) (T.standing turns.new) }
    ensures asked { AskPlaced result (hand_of place.old) (hand_of place.new) }
    ensures queue { place.new.queue ≡ place.old.queue }
{
    asked(schedule_read_ahead(rt, alloc, turns, queue, place, file, at, len))
}

/// Makes a step of read-ahead, and answers it. Want of memory is an answer, and so is a journal that is full.
pub fn serve_step<R: Wait, T: Turns>(
    rt: &R,
    alloc: Global,
    turns: &mut T,
    queue: &Queue<Request>,
    place: &mut QueuePlace<Request>,
) -> Answer
    requires free { IsFree (T.standing turns.old) }
    requires own { place.old.queue ≡ queue.now }
    ensures stepped { StepAt (T.standing turns.old) (T.standing turns.new) result place.old place.new }
    ensures full { IsFullTold (T.standing turns.new) result }
    ensures goes_on { WentOn (T.standing turns.old) (T.standing turns.new) }
    ensures good { StaysGood (T.standing turns.old) (T.standing turns.new) }
{
    stepped(read_ahead_step(rt, alloc, turns, queue, place))
}

// The answer of a line that asks for read-ahead.
fn asked(ended: Result<Option<Request>, CcError>) -> Answer
    ensures { result ≡ ask_told ended }
{
    match ended {
        Ok(request) => Answer::Given(Reply::Ahead(request)),
        Err(error) => Answer::Refused(error),
    }
}

// The answer of a step.
fn stepped(ended: Result<Option<AheadDone>, CcError>) -> Answer
    ensures { result ≡ step_told ended }
{
    match ended {
        Ok(step) => Answer::Stepped(step),
        Err(error) => Answer::Refused(error),
    }
}
