//! What the cache is made from: disks, logs, and how much room there is.

ghost use Rattle.std.specs.Prelude.{◌≡◌, ◌≤◌, ◌^◌, vec_len};
ghost use Rattle.cc_traits.specs.Setup.{capacity_of};

use crate::log::LogFile;

/// What a journal keeps of its entries.
#[derive(Clone, Copy, Debug, PartialEq, Eq)]
pub enum JournalKind {
    /// All of them, for so many at most.
    Recorded(u32),
    /// The last one alone, for as many as can be counted.
    Unrecorded,
}

impl JournalKind {
    /// How many entries the journal has room for: fewer than 2 ^ 32 where all are kept, else 2 ^ 63.
    pub fn capacity(self) -> u64
        ensures { result ≡ capacity_of self }
    {
        match self {
            JournalKind::Recorded(entries) => u64::from(entries),
            JournalKind::Unrecorded => 1 << 63,
        }
    }
}

/// What the cache is made from.
///
/// It is generic in the log, and asks nothing of its parameters, so that code below the outermost
/// call can be written over any log.
#[derive(Drop)]
pub struct Setup<D, L = Box<dyn LogFile + Send>> {
    /// One disk for each stream.
    pub disks: Vec<D>,
    /// One log for each handle.
    pub logs: Vec<L>,
    /// What the journal keeps, and for how many entries it has room.
    pub journal: JournalKind,
    /// How many dirty pages there may be before a write may not go.
    pub threshold: u32,
    ghost few_disks: { vec_len disks ≤ 16 },
    ghost few_logs: { vec_len logs ≤ 4 },
    ghost journal_min: { 64 ≤ capacity_of journal },
    ghost journal_max: { capacity_of journal ≤ 2 ^ 63 },
    ghost threshold_min: { 1 ≤ threshold },
    ghost threshold_max: { threshold ≤ 16384 },
}
