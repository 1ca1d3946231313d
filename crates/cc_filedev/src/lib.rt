//! Files and standard output as devices: the file of the script, what the printed text goes to, and disks and logs over the
//! files of a folder.
//!
//! None tells its bytes. Each counts its failures, so that whoever is above can show that a fault it
//! reports did happen, and the script's file notes the bytes that it gave. That these are the file's, what a printer
//! writes, and what a disk or a log holds, no clause can say; the tests of script and printer hand in files and printers
//! that fail on request.
//!
//! What is said of a disk or a log over a file: a call is done whole or it fails, a sync that failed is followed by none
//! that is good, and an append that failed leaves the file as it was, or each later call fails. `NoMemory` is never the
//! system's answer, but want of this program's own memory, or the end of a count.
//!
//! The crate stands on the traits of `cc_traits`. The program hands these devices to the top call.
#![tactic(auto)]

mod disk;
mod entries;
mod folder;
mod kept;
mod log;
mod output;
mod script;

pub use disk::FileDisk;
pub use folder::{FolderFile, InFolder};
pub use log::FileLog;
pub use output::Output;
pub use script::{FilePlace, PlaceOf, ScriptFile};
