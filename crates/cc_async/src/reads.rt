//! The call that reads at once, or queues the read.

ghost use Rattle.std.specs.Prelude.{◌≡◌, suc, length};
ghost use Rattle.cc_calls.specs.Answers.{CanCall};
ghost use Rattle.cc_async.specs.Reads.{HasNumber, ReadIsQueued, StartEnds};

use crate::copies::keep_read;
use crate::queue::{AsyncPass, AsyncQueue, QueuedRead};
use cc_entry::{AsyncId, AsyncStart, CcError, FileId};
use cc_turns::Turns;
use std::alloc::Global;
use std::sync::Wait;

/// Copies the bytes of a stream from a place on, as far as they go below the size, where each page of them is resident; else
/// queues the read, and answers its number (`CcAsyncCopyRead`). It takes no turn of a disk. At most 1 MiB.
///
/// A read that found the queue full has left its entry, which says that a page was not resident.
///
/// `NotCached`, `TooLong`, `NoViews`, `QueueFull`, `JournalFull`, `NoMemory` (also once the pass has queued 2^64 - 1 reads).
pub fn async_read<R: Wait, T: Turns>(
    rt: &R,
    alloc: Global,
    turns: &mut T,
    queue: &AsyncQueue,
    place: &mut AsyncPass,
    file: FileId,
    at: u64,
    len: u64,
) -> Result<AsyncStart, CcError>
    requires can { CanCall (T.standing turns.old) file.stream }
    requires own { place.old.queue ≡ queue.now }
    ensures ends { StartEnds (T.standing turns.old) (T.standing turns.new) file at len place.old place.new result }
{
    let Some(n) = place.next_number() else {
        return Err(CcError::NoMemory);
    };
    match keep_read(alloc, turns, file, at, len, false) {
        Ok(bytes) => Ok(AsyncStart::Ready(bytes)),
        Err(error) => match error {
            CcError::NotResident { .. } => {
                let pass = turns.me();
                queue_read(rt, queue, place, AsyncId { pass, n }, file, at, len)
            }
            _ => Err(error),
        },
    }
}

// Queues a read under the next number of its pass.
fn queue_read<R: Wait>(
    rt: &R,
    queue: &AsyncQueue,
    place: &mut AsyncPass,
    id: AsyncId,
    file: FileId,
    at: u64,
    len: u64,
) -> Result<AsyncStart, CcError>
    requires own { place.old.queue ≡ queue.now }
    requires more { HasNumber place.old }
    requires next { id.n ≡ suc (length place.old.pushed) }
    ensures queued { ReadIsQueued id file at len result place.old place.new }
{
    let AsyncId { pass, n } = id;
    let id = AsyncId { pass, n };
    if queue.push(rt, place, QueuedRead { id, file, at, len }) {
        Ok(AsyncStart::Queued(AsyncId { pass, n }))
    } else {
        Err(CcError::QueueFull)
    }
}
