//! A queue of reads is shared by threads, and its places go to them: shown by the types alone.

ghost use Rattle.std.specs.Prelude.{◌≡◌};

use crate::queue::{AsyncPass, AsyncQueue};

/// Notes that threads may share a queue, and that the queue and a place at it may go to another thread. It does nothing.
pub fn note_threads(queue: AsyncQueue, place: AsyncPass) -> (AsyncQueue, AsyncPass)
    ensures queue { result.0 ≡ queue }
    ensures place { result.1 ≡ place }
{
    is_shared(&queue);
    (sent(queue), sent(place))
}

// Takes what threads may share.
fn is_shared<S: Sync>(_value: &S) {}

// Takes what may go to another thread, and gives it back.
fn sent<S: Send>(value: S) -> S
    ensures { result ≡ value }
{
    value
}
