//! How the restart of a log ended.

use cc_entry::{CcError, Lsn};

/// What a restart answered that was done.
#[derive(Clone, Copy)]
pub struct Numbers {
    /// The greatest LSN that was read, where one was.
    pub last: Option<Lsn>,
    /// How many updates of the streams the log has.
    pub updates: u64,
}

/// How the restart of a line ended.
#[derive(Clone, Copy)]
pub struct LogRestart {
    pub line: u32,
    pub handle: u8,
    pub ended: Result<Numbers, CcError>,
}
