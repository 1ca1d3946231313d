//! What a line of a script is answered.

use crate::bytes::Bytes;
use crate::error::CcError;
use crate::lists::{Ids, Pages};
use crate::place::{FileId, Lsn, Request};
use crate::reply::Reply;

/// What one tick of the lazy writer did: the pages that it picked, and how many of them were written,
/// skipped, and not written because the disk or the log failed.
#[derive(Drop)]
pub struct Tick {
    pub picked: Pages,
    pub written: u32,
    pub skipped: u32,
    pub failed: u32,
}

/// A read-ahead request that was served, and whether every page of it, cut at the size, is resident.
#[derive(Clone, Copy)]
pub struct AheadDone {
    pub request: Request,
    pub whole: bool,
}

/// The number of a queued read: the `n`-th that its pass queued, counted from 1.
#[derive(Clone, Copy)]
pub struct AsyncId {
    pub pass: u32,
    pub n: u64,
}

/// What `CcAsyncCopyRead` answers at once: the bytes, where every page was resident, or the number under
/// which the read was queued.
#[derive(Drop)]
pub enum AsyncStart {
    Ready(Bytes),
    Queued(AsyncId),
}

/// A queued read that was completed: what was asked for, `len` bytes from `at` on, and its answer.
#[derive(Drop)]
pub struct AsyncDone {
    pub id: AsyncId,
    pub file: FileId,
    pub at: u64,
    pub len: u64,
    pub answer: Result<Bytes, CcError>,
}

/// The answer of a line.
#[derive(Drop)]
pub enum Answer {
    /// The call was done.
    Given(Reply),
    /// The call was refused.
    Refused(CcError),
    /// A noncached call was refused after `done` pages.
    NcRefused { done: u32, cause: CcError },
    /// The bytes that a noncached write changed.
    Count(u64),
    /// The LSN of a log entry.
    NewLsn(Lsn),
    Ticked(Tick),
    /// The deferred writes that were posted, in order.
    Posts(Ids),
    /// The number of a deferred write.
    Deferred(u64),
    /// The levels of a stream's view index.
    Levels(u8),
    /// The read-ahead request that was served, where there was one.
    Stepped(Option<AheadDone>),
    /// A read that was answered at once, or queued.
    Started(AsyncStart),
    /// The queued read that was completed, where there was one.
    Completed(Option<AsyncDone>),
    /// The update records of the log that a restart found.
    Restarted(u64),
    /// The id of a lock of a range.
    LockId(u64),
    /// The hold or the lock that the line names was never made, or the hold is not of the kind needed.
    NoHold,
    /// The event may not happen now.
    NotNow,
    /// The event's device or log failed.
    Faulted,
}

/// The answer of the script's line of this number, counted from 1.
#[derive(Drop)]
pub struct LineReply {
    pub line: u32,
    pub answer: Answer,
}
