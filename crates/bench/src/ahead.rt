//! Reads one behind the other, each of which asks for read-ahead, with the worker's step behind it.

ghost use Rattle.std.specs.Prelude.{◌≡◌};
ghost use Rattle.cc_calls.specs.Answers.{CanCall};
ghost use Rattle.cc_calls.specs.Pages.{WentOn};

use crate::kinds::Kind;
use cc_calls::{copy_read, read_ahead_step, schedule_read_ahead};
use cc_entry::{CcError, FileId, Request};
use cc_queue::{Queue, QueuePlace};
use cc_turns::Turns;
use std::alloc::Global;
use std::sync::Wait;

/// Makes the reads with the numbers below `count`, over a queue of its own, and answers how many were refused.
pub fn repeat_ahead<R: Wait, T: Turns>(
    rt: &R,
    alloc: Global,
    turns: &mut T,
    file: FileId,
    kind: &Kind,
    count: u64,
    bytes: &mut [u8],
) -> Result<u64, CcError>
    requires can { CanCall (T.standing turns.old) file.stream }
    ensures goes_on { WentOn (T.standing turns.old) (T.standing turns.new) }
{
    let (queue, mut place) = Queue::new(alloc)?;
    let mut refused: u64 = 0;
    for number in 0..count {
        let at = kind.place(number);
        if read_one(rt, alloc, turns, &queue, &mut place, file, at, bytes).is_err() {
            refused = refused.saturating_add(1);
        }
    }
    Ok(refused)
}

/// One of them.
fn read_one<R: Wait, T: Turns>(
    rt: &R,
    alloc: Global,
    turns: &mut T,
    queue: &Queue<Request>,
    place: &mut QueuePlace<Request>,
    file: FileId,
    at: u64,
    bytes: &mut [u8],
) -> Result<(), CcError>
    requires can { CanCall (T.standing turns.old) file.stream }
    requires own { place.old.queue ≡ queue.now }
    ensures goes_on { WentOn (T.standing turns.old) (T.standing turns.new) }
    ensures own { place.new.queue ≡ queue.now }
{
    let len = bytes.len() as u64;
    copy_read(alloc, turns, file, at, true, bytes)?;
    schedule_read_ahead(rt, alloc, turns, queue, place, file, at, len)?;
    read_ahead_step(rt, alloc, turns, queue, place)?;
    Ok(())
}
