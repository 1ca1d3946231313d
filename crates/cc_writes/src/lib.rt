//! Writing a page, its log first, with the book given for as long as the disk takes; and bringing in the pages that a
//! call needs, until the call is done. All of it goes by visits of a pass to the journal.
//!
//! What the layer keeps true of a visit: it takes the journal's turn, does one step of a call on the book, and gives the
//! turn. What the step placed is the pass's own, the book stands for the journal after, and the call that was under way
//! is still under way, was stopped by a fault, or ended as its answer says. Others may go on between two visits, but
//! nowhere that the pass holds a turn.
//!
//! Of a page that is written: it goes to the disk with its bytes as they were when its transfer began, and only after its
//! log was flushed to the newest LSN that is stamped on it. Each transfer that begins ends, and its end says how. What the
//! pass had under way is still under way, or was stopped by the fault that is answered.
//!
//! And of a call that waits for pages: each page comes in as the call needs it, cleared from the valid data length of
//! its own moment on; where the quota is reached, the block to give up is chosen anew before each step, its dirty pages
//! are written and then go out. A call that is done here was done with all its pages resident, and one that fails tells
//! its own refusal or its own fault.
//!
//! `visits` has the visits, `release` one that gives back a place, `tell` what a call returns to its caller. `writes` has
//! the writing of a page, `log` the flush of its log, which the calls on a log use too, `transfers` the begin, the
//! transfer itself and the end, and `calls` the writing of a page for a call. `rounds` has the rounds of a call, `pages`
//! how one of them brings a page in, and `keeping` when the book is kept; `course` has how a call stands after a visit or a
//! round. The calls stand above, and what flushes and purges. Below are the turns with the transfer and the reading of a page (`cc_turns`),
//! the steps of a call on a book (`cc_step`), and a log under its turn (`cc_log`).
#![tactic(auto)]

mod calls;
mod course;
mod keeping;
mod log;
mod pages;
mod release;
mod rounds;
mod tell;
mod transfers;
mod visits;
mod writes;

pub use calls::{fail, given_up, write_for};
pub use course::Course;
pub use keeping::Rounds;
pub use log::{LogFlush, flush_log, flush_to, give_back, place};
pub use pages::read_free;
pub use release::release_at;
pub use rounds::fetch;
pub use tell::{Returned, tell_last};
pub use visits::{attempt_at, fail_at, land_at, next_call_step, unread_at};
pub use writes::{PageTransfer, finish_transfer, write_page};
