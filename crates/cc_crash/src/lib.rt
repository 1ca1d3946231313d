//! What a crash may leave of a page, computed from a journal.
//!
//! [`crash_pages`] goes once over the entries of a journal, oldest first, and answers the contents that its definition in
//! `cc_model` gives, in their order, over any disk that opened with this page: the opening page, the page as each of its
//! transfers began, and after a good sync its image alone, where that is known. On the way it keeps the page's bytes.
//!
//! What it needs of the stream's history it reads off the entries before: `sizes`, `dirty` (whether a page is, and whether the
//! stream has a map), `touches` (what an entry does to the unwritten touches of a page), `maps` (the open objects, and the
//! places of holds) and `pages`. They go over the entries again for each entry, slow and simple on purpose.
//!
//! The crate stands on `cc_entry`, `cc_model`, `cc_laws` and `cc_events`. The program doesn't stand on it: the cases compare
//! what a disk tells with what it answers.
#![tactic(auto)]

mod changes;
mod contents;
mod dirty;
mod disk_page;
mod maps;
mod pages;
mod sizes;
mod steps;
mod touches;

pub use contents::crash_pages;
