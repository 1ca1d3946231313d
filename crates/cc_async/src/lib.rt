//! Copied reads that are queued where a page of theirs is not resident, and the step that completes the first of them.
//!
//! What the layer keeps true: a read that may not wait is made at once; only where it was refused since a page was not
//! resident does it go into the queue, under the next number of its pass. A step takes the first read of the queue and makes
//! it as one that waits, and what that is answered, a refusal too, is what the read is completed with. What was taken is
//! spent, so each read that was queued is completed once at most. What a read answers is what the plain file has at the place
//! of its entry, which the pass placed in that very call.
//!
//! `queue` has the queue and the places of its passes, and `threads` that threads share the one and are handed the others;
//! `reads` the call that reads or queues, `steps` the one that completes a read, and `copies` the copied read of both. Below
//! are the calls (`cc_calls`), and the queue with its rule (`cc_queue`).
#![tactic(auto)]

mod copies;
mod queue;
mod reads;
mod steps;
mod threads;

pub use queue::{AsyncPass, AsyncQueue, QueuedRead};
pub use reads::async_read;
pub use steps::async_step;
pub use threads::note_threads;
