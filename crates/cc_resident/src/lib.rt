//! The resident pages of one stream, found by their number.
//!
//! Page p lies in view block p / 64 at place p % 64, and its bytes are those of the stream from 4096 * p on.
//! Kept true: a block is mapped only while a page of it is resident, so the mapped blocks are those of the
//! resident pages, and each page has 4096 bytes. A page is owned, or shared with the snapshots that were made of
//! it; whoever changes pages owns them first, which takes memory. The contents of a stream (`cc_content`) stand above,
//! which say what bytes a page has; below are the mapped blocks in order of use (`cc_views`).
#![tactic(auto)]

mod resident;
mod steps;

pub use resident::ResidentPages;
