//! The open holds of one stream: maps, pins, repins and descriptor chains.
//!
//! What the layer keeps true: after each entry of the journal the holds that are kept are the open ones that the
//! stream's history says, by id, each with the pages to which it owes a stamp. So the hold that is in the way, a held
//! page, an owed stamp and the view blocks are read from the open holds, where the definitions go over the whole
//! history. No look-up takes memory; a call that finds none leaves the holds as they were, and none but `done`,
//! `held_blocks` and `kept_blocks` takes memory.
//!
//! `holds` is the container: holds by id, so that a look-up answers the one of the least id, beside each the pages that
//! were written through it since its last set-dirty (`touched`), and beside them all the view blocks in which one has a
//! byte, each with how many have (`held_blocks`): a hold that is made or ended changes the rows of its own blocks, found
//! by binary search (`block_rows`), and what is asked of blocks goes over these rows, of which there are as many as
//! blocks, however many holds there are. `lookup`, `ranges` and `blocks` are its arithmetic and walks. It knows no
//! journal. `open_holds` has the holds as a stream's history has them, `done` what a done call does to them, `rows` the
//! row of a hold that is made, `look` and `owed` the walks over them. The book of a stream stands above: it knows that a
//! new hold's id is greater than each open one (`proofs/MadeIds`), and which entries change no hold
//! (`proofs/HoldsStanding`). Below are the values of `cc_entry`, the definitions of `cc_model` and how they step
//! (`cc_laws`, `cc_events`).
#![tactic(auto)]

mod block_rows;
mod blocks;
mod done;
mod held_blocks;
mod holds;
mod look;
mod lookup;
mod open_holds;
mod owed;
mod ranges;
mod reserved;
mod rows;
mod touched;

pub use holds::{Holds, KeptHold};
pub use open_holds::OpenHolds;
pub use ranges::overlaps;
pub use touched::TouchedPages;
