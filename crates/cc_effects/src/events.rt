//! The events of the World, and their replies.

use cc_entry::{Bytes, Call, CcError, FileId, Lsn, PageId, Reply, StreamId};
use cc_traits::PostedRoutine;

/// What may happen to the cache next.
#[derive(Drop)]
pub enum Event<Q> {
    /// A page comes in.
    Fill {
        pass: u32,
        page: PageId,
    },
    /// A page goes out.
    Drop {
        page: PageId,
    },
    /// The transfer of a page begins.
    WriteBegin {
        pass: u32,
        page: PageId,
    },
    /// The transfer of a page ends.
    WriteEnd {
        page: PageId,
    },
    /// The disk of a stream is synced.
    Sync {
        pass: u32,
        stream: StreamId,
    },
    /// A call of a pass is made and ends at once: it is refused, or done.
    Do {
        pass: u32,
        call: Call,
    },
    /// A call of a pass tells the oldest fault that befell the pass since its last call.
    Fail {
        pass: u32,
        call: Call,
    },
    /// An entry is appended to a log.
    Append {
        pass: u32,
        handle: u8,
        bytes: Bytes,
    },
    /// A log is flushed to an LSN, where it was not flushed so far.
    LogFlush {
        pass: u32,
        handle: u8,
        to: Lsn,
    },
    /// The lazy writer picks the pages that it would write.
    Scan {
        pass: u32,
    },
    /// A write of so many bytes is deferred (`CcDeferWrite`), to the head of the queue where it is tried again. Its routine
    /// was not posted.
    Defer {
        pass: u32,
        file: FileId,
        bytes: u64,
        retrying: bool,
        routine: Q,
    },
    /// The deferred write at the head of the queue is posted, where it may go.
    Post {
        pass: u32,
    },
}

/// What came of an event.
#[derive(Drop)]
pub enum StepReply<Q> {
    /// It was done, and its entry stands: of a call, with this reply.
    Done(Reply),
    /// An entry was appended to a log, with this LSN.
    NewLsn(Lsn),
    /// A write was deferred, under this number.
    Deferred(u64),
    /// A deferred write was posted, whose routine comes back; or none waits, or the first may not go.
    Posted(Option<PostedRoutine<Q>>),
    /// A call was refused, or told a fault, and its entry says so. Or nothing was placed: there was no room in the journal
    /// (`JournalFull`), no log of the handle (`NoLog`), no LSN left (`LogFull`), or no memory (`NoMemory`).
    Refused(CcError),
    /// A deferral was refused, and its routine comes back: the object is not cached (`NotCached`), 64 writes wait
    /// (`QueueFull`), or there was no room in the journal (`JournalFull`).
    Kept(Q, CcError),
    /// Its disk or its log failed, and an entry says so.
    Faulted,
    /// It may not happen now, and nothing changed.
    NotNow,
}
