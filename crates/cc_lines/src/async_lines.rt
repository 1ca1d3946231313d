//! The lines of queued copied reads: a read that is made at once or queued, and the completion of one.

ghost use Rattle.std.specs.Prelude.{◌≡◌};
ghost use Rattle.cc_pieces.specs.Answered.{CompletionAnswered, StartAnswered};
ghost use Rattle.cc_pieces.specs.AsyncQueue.{CompletionPlaced, ReadPlaced};
ghost use Rattle.cc_turns.specs.Standing.{Standing};
ghost use Rattle.cc_calls.specs.Answers.{CanCall, IsFree};
ghost use Rattle.cc_calls.specs.Pages.{StaysGood, WentOn};
ghost use Rattle.cc_lines.specs.Line.{IsFullTold, start_told};
ghost use Rattle.cc_lines.specs.Queues.{copies_of};

use cc_async::{AsyncPass, AsyncQueue, async_read, async_step};
use cc_entry::{Answer, AsyncStart, CcError, FileId};
use cc_turns::Turns;
use std::alloc::Global;
use std::sync::Wait;

/// Makes a read that may be queued, and answers its bytes, or the number under which it was queued.
pub(crate) fn start_read<R: Wait, T: Turns>(
    rt: &R,
    alloc: Global,
    turns: &mut T,
    queue: &AsyncQueue,
    place: &mut AsyncPass,
    file: FileId,
    at: u64,
    len: u64,
) -> Answer
    requires can { CanCall (T.standing turns.old) file.stream }
    requires own { place.old.queue ≡ queue.now }
    ensures answered { StartAnswered (T.standing turns.old).setup (T.standing turns.old).number file at len result
        (T.standing turns.old).seen (T.standing turns.new).seen }
    ensures full { IsFullTold (T.standing turns.new) result }
    ensures goes_on { WentOn (T.standing turns.old) (T.standing turns.new) }
    ensures good { StaysGood (T.standing turns.old) (T.standing turns.new) }
    ensures started { ReadPlaced (T.standing turns.old).number file at len result (copies_of place.old) (copies_of place.new) }
    ensures queue { place.new.queue ≡ place.old.queue }
{
    started(async_read(rt, alloc, turns, queue, place, file, at, len))
}

/// Completes the first read of the queue, and answers what it was answered. What the read was refused with is in the answer.
pub(crate) fn complete_read<R: Wait, T: Turns>(
    rt: &R,
    alloc: Global,
    turns: &mut T,
    queue: &AsyncQueue,
    place: &mut AsyncPass,
) -> Answer
    requires free { IsFree (T.standing turns.old) }
    requires own { place.old.queue ≡ queue.now }
    ensures answered { CompletionAnswered (T.standing turns.old).setup (T.standing turns.old).number result
        (T.standing turns.old).seen (T.standing turns.new).seen }
    ensures full { IsFullTold (T.standing turns.new) result }
    ensures goes_on { WentOn (T.standing turns.old) (T.standing turns.new) }
    ensures good { StaysGood (T.standing turns.old) (T.standing turns.new) }
    ensures completed { CompletionPlaced result (copies_of place.old) (copies_of place.new) }
    ensures queue { place.new.queue ≡ place.old.queue }
{
    Answer::Completed(async_step(rt, alloc, turns, queue, place))
}

// The answer of a read that may be queued.
fn started(ended: Result<AsyncStart, CcError>) -> Answer
    ensures { result ≡ start_told ended }
{
    match ended {
        Ok(start) => Answer::Started(start),
        Err(error) => Answer::Refused(error),
    }
}
