//! The byte-range locks of one stream: calls that make and end them, and which lock a read, a write or a new
//! lock conflicts with.
//!
//! Locks are found by their spans: they stand by the class of their length, a power of two, and in a class by
//! where they begin. The list of all calls with their answers exists in proofs alone.
//!
//! Below are the values of `cc_entry`.
#![tactic(auto)]

mod asked;
mod index;
mod locks;
mod place;

pub use locks::Locks;
