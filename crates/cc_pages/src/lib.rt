//! The frames of one view block: 64 pages of 4096 bytes, each there or not.
//!
//! A call changes the page that it names and no other, and a call that finds no memory leaves the
//! frames as they were. A page is owned, or shared with snapshots of it, which keep the bytes of their
//! moment while the page goes on: a snapshot is made of a page before it is written to the disk. Only an
//! owned page is changed. The views of a stream stand above; below are the standard library and, for the
//! text of its error, `thiserror`.
#![tactic(auto)]

mod frames;

pub use frames::{Frame, Frames, NoMemory, PAGE_SIZE, PAGES};
