//! The dirty page table: which pages have changes that no write has reached yet, the place of the oldest
//! of them, and the least and greatest LSN of those that were stamped.
//!
//! What a write in progress took stands apart from what was touched since, so that a good end leaves
//! the later touches and a failed one joins both again. Rows stand by stream and page, in one slice with
//! free places before and behind it, so a pass over the pages of a stream that stands first, or last, moves
//! few of them. Room is made beforehand: only `reserve` takes memory.
//!
//! The journal stands above; below are the values of `cc_entry`.
#![tactic(auto)]

mod edit;
mod find;
mod live;
mod row;
mod table;

pub use row::{Row, Unwritten};
pub use table::DirtyTable;
