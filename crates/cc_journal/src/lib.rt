//! The journal: the one list of entries that everything else stands for.
//!
//! What the layer keeps true: an entry is taken only where one is reserved, and then without memory, so that what has
//! happened can always be written down. Beside the entries is kept what others ask of them, each equal to its
//! definition on the entries: the rows of the dirty page table, the queue of deferred writes, what the lazy writer would
//! pick, whether a write may go, the log of each stream, the views that are free, the id of the next hold, how many
//! calls of each pass have ended, and the byte-range locks of each stream. So no call of a run searches the entries.
//!
//! An entry is followed by its stream's state (`streams`), the ranges of open holds (`places`), the rows of the pages
//! that it touches, cuts, begins or ends (`table`), the counts of calls (`calls`), the scans (`scans`), the queue
//! (`queue`) and the locks (`locks`). Each entry after which the journal is good so far may be pushed (`laws`), but for
//! those that have a call of their own. `stamped` and `any` read off the rows what a file system with a log asks at a
//! checkpoint: the dirty page table of a log, the LSNs of a stream, and whether a page is dirty. `oldest` reads off them
//! the place of the oldest unwritten touch of a page.
//!
//! The book of each stream, the turns (`cc_turns`, `cc_board`) and the calls stand above; below are `cc_stream`,
//! `cc_dirty`, `cc_locks`, what an entry does to a stream (`cc_events`), the post routines of `cc_traits`, and the
//! definitions of `cc_model` with their laws.
#![tactic(auto)]

mod any;
mod calls;
mod entries;
mod journal;
pub mod laws;
mod locks;
mod oldest;
mod parts;
mod places;
mod queue;
mod scans;
mod stamped;
mod streams;
mod table;

pub use any::is_any_dirty;
pub use journal::Journal;
pub use oldest::{is_settled_since, oldest_unwritten};
pub use parts::{Left, Parts};
pub use stamped::{dirty_table, lsns};
