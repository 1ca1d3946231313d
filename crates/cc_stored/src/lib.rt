//! The record of a stream on its disk: its size and its valid data length, in a page past every data page.
//!
//! What the layer keeps true: the record is read, written and synced, and the entry of each placed, with the turn of the
//! stream's disk in hand; room for an entry is asked before the disk. What was read is what the disk is known to hold of
//! the page. What is written is the size of that moment, and a valid data length below which the disk has each byte, since
//! the stream was flushed while nobody else used its disk.
//!
//! `load` reads the record; `settling` flushes a stream and has its record told, which `record` writes; `visits` has the visits
//! to the journal with a disk in hand. Below are the flush and the state of a file (`cc_calls`), the turns of a pass that
//! keeps a disk (`cc_keep`), the visits of a pass (`cc_writes`), what may be told (`cc_records`), and how a page spells a
//! record (`cc_format`). `laws` says what a crash leaves of a disk that went with its journal.
#![tactic(auto)]

pub mod laws;
mod load;
mod record;
mod settling;
mod visits;

pub use load::load_record;
pub use settling::settle;
