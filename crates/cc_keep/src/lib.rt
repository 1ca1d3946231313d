//! The turns of a pass that keeps the turn of a disk, and what others did meanwhile.
#![tactic(auto)]

mod keeping;

pub use keeping::Keeping;
