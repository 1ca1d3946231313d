//! The line that makes a checkpoint of a log.

ghost use Rattle.std.specs.Prelude.{◌≤◌};
ghost use Rattle.cc_pieces.specs.Checkpoints.{CheckpointAnswered};
ghost use Rattle.cc_calls.specs.Answers.{IsFree};
ghost use Rattle.cc_calls.specs.Pages.{StaysGood, WentOn};
ghost use Rattle.cc_lines.specs.Line.{WasFullTold};

use cc_entry::Answer;
use cc_shim::checkpoint_streams;
use cc_turns::Turns;
use std::alloc::Global;

/// A checkpoint of a log over the first streams of a run, so many of them, whose answer is the LSN of its record.
pub(crate) fn make_checkpoint<T: Turns>(
    alloc: Global,
    turns: &mut T,
    streams: u8,
    handle: u8,
) -> Answer
    requires can { IsFree (T.standing turns.old) }
    requires known { streams ≤ (T.standing turns.old).streams }
    requires few { streams ≤ 16 }
    ensures answered { CheckpointAnswered (T.standing turns.old).setup (T.standing turns.old).number streams handle result
        (T.standing turns.old).seen (T.standing turns.new).seen }
    ensures full { WasFullTold (T.standing turns.old) (T.standing turns.new) result }
    ensures goes_on { WentOn (T.standing turns.old) (T.standing turns.new) }
    ensures good { StaysGood (T.standing turns.old) (T.standing turns.new) }
{
    match checkpoint_streams(alloc, turns, streams, handle) {
        Ok(lsn) => Answer::NewLsn(lsn),
        Err(error) => Answer::Refused(error),
    }
}
