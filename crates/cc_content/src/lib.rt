//! What a stream's resident pages hold, following its history.
//!
//! While the stream has a shared map its resident pages are kept, and stand for the history: the same pages are
//! resident, their blocks stand in the order of use, and each byte is the plain file's; over a disk that tells
//! nothing it is zero from the valid data length on. What is read of a page from the disk is cleared from there
//! on as it comes in. Without a map nothing is kept but the valid data length. A page may be shared with snapshots
//! of it (`share`); those that a done call changes are owned before it (`own`), which alone takes the memory for
//! their copies, and changes no byte.
//!
//! `contents` has the stream's contents as a whole, `done` what a done call does to them, and `changes` what it
//! does to resident pages. The book of a stream stands above; below are `cc_resident`, which has the pages and
//! knows no journal, and the definitions of `cc_model` with their lemmas in `cc_laws`.
#![tactic(auto)]

mod changes;
mod contents;
mod done;

pub use contents::{Contents, cleared};
