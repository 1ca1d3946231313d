//! A small file system over the calls of the cache: names, reads, writes that extend, logged updates, and checkpoints.
//!
//! What the layer keeps true: each of its calls is a list of calls of `cc_calls`, each with its own entry, up to the first
//! that is refused; the calls before that one stand, and a call that the layer refuses by a test of its own makes no call
//! behind the test. It ends every hold that it makes. What it leaves is told by one relation for each of its calls
//! (`cc_pieces`, `specs/Shim`), by what `file_state` answered.
//!
//! `volume` keeps the names of the streams, and opens a file object by name. `reads` reads along one of five paths;
//! `parts` holds, reads and lets go the parts of a range, one for each view block, or the whole range as a descriptor
//! chain. `writes` extends a stream, zeroes the gap behind its valid data length and copies the bytes. `updates` writes
//! pinned bytes behind a record of them in the stream's log, `record` makes that record. `checkpoints` logs the dirty page
//! table behind a sync of the streams of the log, `rows` makes the record of it. `locks` makes, ends and tests
//! byte-range locks, each by one visit to the journal with an entry of its own. `locked` has the reads, writes and updates
//! that are tested against them first. Below are the calls (`cc_calls`, `cc_ranges`) and the journal (`cc_journal`); the
//! lines of a script that make these calls stand above (`cc_lines`).
#![tactic(auto)]

mod checkpoints;
mod locked;
mod locks;
mod parts;
mod reads;
mod record;
mod rows;
mod updates;
mod volume;
mod writes;

pub use checkpoints::{checkpoint, checkpoint_streams};
pub use locked::{locked_read, locked_update, locked_write};
pub use locks::{lock_range, unlock_range};
pub use reads::read;
pub use updates::update;
pub use volume::Volume;
pub use writes::write;
