//! The step of a call on a book: it is refused, or done, or waits for a page; and what comes next where it waits.
//!
//! What the layer keeps true: one function takes every call that its stream's book and the journal answer. It decides
//! the refusal, finds the least page that the call needs and that is not resident, works out the reply, and places the
//! call's one entry. The journal stays good, the book goes on standing for it, and a call that waits changes
//! nothing, and one that finds no memory at most which pages are owned. So a call is decided in one place, and what a
//! caller is answered stands in the journal.
//!
//! A call that may bring pages in waits for one page at a time, and is decided anew after each. A page comes in only as
//! one of the call's range, and only where the quota of view blocks has room for it. Room is made from one block, the
//! least recently used one that has no open hold and is none of the call's: its dirty pages are written before, and then
//! its pages go out, the least first. So no page goes out for a call that others made needless, and what was read of a
//! page is shown only where it is still what the page has.
//!
//! `steps` has the step, `replies` what a call answers, and `faults` the end of a call that met a fault. `filling` has
//! what comes next for a call that waits, `ways` how an attempt ends and how a call goes on, `room` the room for a block
//! and the block to give up, and `landing` a page that was looked for on the disk. The device is read and written above,
//! where the calls over turns stand; below is the book of a stream (`cc_book`) with the journal (`cc_journal`).
#![tactic(auto)]

mod faults;
mod filling;
mod landing;
mod replies;
mod room;
mod steps;
mod ways;

pub use faults::{Failed, fail};
pub use filling::{make_room, next};
pub use landing::{land_on_book, unread};
pub use replies::reply;
pub use room::has_room;
pub use steps::{absent, attempt, places_asked, places_spared, waits_for};
pub use ways::{Attempt, Way};
