//! The step that completes the first read of the queue.

ghost use Rattle.std.specs.Prelude.{◌≡◌, true};
ghost use Rattle.cc_calls.specs.Answers.{IsFree};
ghost use Rattle.cc_async.specs.Reads.{CompletionEnds, AsyncReadLeft};

use crate::copies::{keep_read, refuse_read};
use crate::queue::{AsyncPass, AsyncQueue, QueuedRead};
use cc_entry::{AsyncDone, Bytes, CcError};
use cc_turns::Turns;
use std::alloc::Global;
use std::sync::Wait;

/// Takes the first read of the queue, whoever queued it, and makes it as a copied read that waits for its pages; what that is
/// answered, or refused, want of memory too, is the answer that the read is completed with. Answers none only where the queue
/// was empty, whatever room the journal has. A read of a stream that there is not is refused with `NotCached`, and takes the
/// journal's turn alone. A read that was taken is spent, whatever its answer. In Windows a system thread makes these steps.
pub fn async_step<R: Wait, T: Turns>(
    rt: &R,
    alloc: Global,
    turns: &mut T,
    queue: &AsyncQueue,
    place: &mut AsyncPass,
) -> Option<AsyncDone>
    requires can { IsFree (T.standing turns.old) }
    requires own { place.old.queue ≡ queue.now }
    ensures ends { CompletionEnds (T.standing turns.old) (T.standing turns.new) place.old place.new result }
{
    match queue.pop(rt, place) {
        Some(read) => {
            let QueuedRead { id, file, at, len } = read;
            let answer = complete(alloc, turns, QueuedRead { id, file, at, len });
            Some(AsyncDone {
                id,
                file,
                at,
                len,
                answer,
            })
        }
        None => None,
    }
}

// Makes a read that was queued.
fn complete<T: Turns>(alloc: Global, turns: &mut T, read: QueuedRead) -> Result<Bytes, CcError>
    requires can { IsFree (T.standing turns.old) }
    ensures left { AsyncReadLeft (T.standing turns.old) (T.standing turns.new) read.file read.at read.len true result }
{
    if read.file.stream().number() < turns.streams() {
        keep_read(alloc, turns, read.file, read.at, read.len, true)
    } else {
        Err(refuse_read(turns, read))
    }
}
