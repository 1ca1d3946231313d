//! The text of a run: what a script's lines were answered, the journal, the dirty page table at the
//! end, and the trace of what the disks and logs did; and the summary of a generated script's run, one line.
//!
//! The text is a definition in specs/, by cases over answers, calls and entries, and every function
//! here answers exactly its part of it, or want of memory. A stream that the script doesn't have is
//! written without a name.
//!
//! It stands on `cc_entry` and `cc_script`; the pieces (`cc_pieces`), worked journals and the program's runs stand on it.
#![tactic(auto)]

mod answer;
mod call;
mod entry;
mod laws;
mod query;
mod replies;
mod summary;
mod table;
mod text;
mod trace;
mod words;

pub use laws::summaries_count_texts;
pub use summary::summary_of;
pub use table::TableRow;
pub use text::text_of;
