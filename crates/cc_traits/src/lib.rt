//! What is outside the cache: a source of script bytes, a sink of text, disks, logs, post routines
//! and the gate that callers pass.
//!
//! Each trait says what a call may do to its object. An object in memory tells what it holds, as
//! plain data that clauses see; one over a real file tells nothing, but a source always what it gave.
//! Each object that can fail has a count of faults, which rises by one exactly where a call answers
//! [`Stop::Failed`], so that whoever is above can show that a fault it reports did happen.
//!
//! This crate stands on std and the kit's `thiserror` alone. The devices implement these traits, and the
//! cache is written over them.
#![tactic(auto)]

mod disk;
mod faults;
mod gate;
mod given;
mod log;
mod past;
mod post;
mod setup;
mod stop;
mod stream;

pub use disk::{PageDisk, Told};
pub use faults::Faults;
pub use gate::Gate;
pub use given::Given;
pub use log::LogFile;
pub use past::PastItems;
pub use post::{PostRoutine, PostedRoutine};
pub use setup::{JournalKind, Setup};
pub use stop::Stop;
pub use stream::{Sink, Source, is_end};
