//! The view index of a stream: which view holds which block of 256 KB.
//!
//! It is a tree of index blocks of 128 slots with as many levels as the stream's size asks for, or one
//! block of four slots for a small stream. The tree is seen as a finite map from block to view. Kept
//! true: a look-up visits at most one index block a level, and every index block but the root leads to
//! a view. This crate stands on no other; the mapped views of a stream stand above it.
#![tactic(auto)]

mod blocks;
mod counter;
mod index;
mod levels;
mod lookup;
mod roots;
mod slots;
mod tree;

pub use counter::{Ledger, Steps};
pub use index::{NoMemory, ViewIndex};
pub use slots::Slot;
