//! The record of a stream, as a page of its disk spells it: the stream's size and its valid data length, in two versions.
//!
//! What the crate keeps true: a page that is written spells the record, and of a page that is read the record is answered
//! of which it is the spelling, byte by byte, or none. So what was written is read, and what was read would be written so
//! again. The definitions (`specs/Spelling`) give the spelling as a list of bytes; that of the second version is the one
//! that a journal means by a write of the record (`cc_model`, `specs/Records`).
#![tactic(auto)]

mod laws;
mod log;
mod record;

pub use laws::a_page_spells_one_record;
pub use log::OldestRow;
pub use record::{StreamRecord, read_record, write_record};
