//! What a crash may leave, and what of it no crash takes back.
//!
//! The functions have no body, and their contracts are laws. They follow from what a flush leaves (`FlushEnds` of `cc_calls`), from
//! how a disk goes with its stream (`HasGone` of `cc_turns`) and from what a log holds (`HoldsLogEntries` of `cc_log`).
#![tactic(auto)]

mod flushes;
mod logs;

pub use flushes::what_a_flush_wrote_stays;
pub use logs::{begun_pages_are_logged, no_crash_shows_an_unlogged_change};
