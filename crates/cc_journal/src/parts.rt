//! What a run gives back: the disks, the logs, the entries where the journal is recorded, and the routines of writes that
//! still wait.

use cc_entry::Entry;
use cc_traits::{LogFile, PostRoutine};

/// What a run gives back whose journal is recorded.
#[derive(Drop)]
pub struct Parts<D, L = Box<dyn LogFile + Send>, Q = Box<dyn PostRoutine + Send>> {
    /// The disks, in the order of the setup.
    pub disks: Vec<D>,
    /// The logs, in the order of the setup.
    pub logs: Vec<L>,
    /// The entries, the oldest first.
    pub journal: Vec<Entry>,
    /// The routines that still wait with the ids of their writes, the head of the queue first.
    pub queued: Vec<(u64, Q)>,
}

/// What a run gives back, whether its journal is recorded or not.
#[derive(Drop)]
pub struct Left<D, L = Box<dyn LogFile + Send>, Q = Box<dyn PostRoutine + Send>> {
    /// The disks, in the order of the setup.
    pub disks: Vec<D>,
    /// The logs, in the order of the setup.
    pub logs: Vec<L>,
    /// The routines that still wait with the ids of their writes, the head of the queue first.
    pub queued: Vec<(u64, Q)>,
}
