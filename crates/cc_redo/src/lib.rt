//! Restart: what a log says of the updates of streams is redone on their disks.
//!
//! What the crate keeps true: a restart that is done leaves on each stream's disk the opening pages with the updates that the
//! log lets be redone, applied in order, and the record of the stream, and a crash then leaves that alone. Wherever it
//! stops, each page is one that it was or that is made of it, and the record is written only where all other pages are
//! settled; so a restart that is begun again makes the same.
//!
//! `record` reads what an entry of a log says, `scan` reads the log and takes from it what is redone and from where;
//! `pages` keeps the pages as the updates leave them, and writes each once; `settle` syncs a disk and writes the record of
//! its stream; `streams` is the whole. `stored` reads the record of a stream from its disk. `laws` says what follows from
//! the definitions. The crate stands on logs and disks as such (`cc_traits`), and on the spelling of the record
//! (`cc_format`): it knows no cache and no turns.
#![tactic(auto)]

mod laws;
mod pages;
mod record;
mod redo;
mod scan;
mod settle;
mod stored;
mod streams;

pub use laws::{
    a_stopped_restart_can_begin_again, an_entry_says_what_it_spells, redoing_again_makes_the_same,
};
pub use record::{LogRecord, OldestRows, Piece, read_log_record};
pub use redo::Redo;
pub use stored::stored_record;
pub use streams::{Restarted, restart};
