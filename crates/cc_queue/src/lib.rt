//! A queue of 64 items, which the passes of a run share.
//!
//! What the layer keeps true: there is one order of all items that were pushed, in which those of each place stand in
//! the order in which it pushed them; what was taken, each place's in its own order, is a prefix of it, and the queue
//! holds the rest. Each step of each thread keeps that rule, whatever the others do meanwhile.
//!
//! `rule` has the rule, and what a step tells a place; `queue` the queue and the places of its passes; `threads` that
//! threads share the one and are handed the others. The queue knows nothing of what its items mean. Below is the kit's
//! bounded queue (`crossbeam_queue`), which takes a rule.
#![tactic(auto)]

mod queue;
mod rule;
mod threads;

pub use queue::{Queue, QueuePlace};
pub use rule::{Hand, InOneOrder};
pub use threads::note_threads;
