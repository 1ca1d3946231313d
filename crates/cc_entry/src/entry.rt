//! The entries of the journal: one for each event of the cache, in the order in which they came.

use crate::bytes::Bytes;
use crate::call::Call;
use crate::lists::Pages;
use crate::place::{FileId, Lsn, PageId, Span, StreamId};
use crate::reply::Outcome;

/// How a transfer or a sync ended.
#[derive(Clone, Copy)]
pub enum End {
    Good,
    /// The disk failed.
    Failed,
    /// The disk found no memory.
    NoMemory,
}

/// One event. `pass` is the number of the caller, `handle` that of a log.
#[derive(Drop)]
pub enum Entry {
    /// A call that ended; `nth` counts the pass's calls from 1. The stream is that of the call's file
    /// or hold.
    Call {
        pass: u32,
        nth: u64,
        stream: Option<StreamId>,
        call: Call,
        outcome: Outcome,
    },
    /// A page became resident: from the disk, or as zeros.
    PageIn {
        pass: u32,
        page: PageId,
        from_disk: bool,
    },
    /// A page stopped being resident.
    PageOut {
        pass: u32,
        page: PageId,
    },
    /// The disk failed to read a page.
    FillFailed {
        pass: u32,
        page: PageId,
    },
    /// A page's transfer to the disk began, with the bytes that the page has here.
    WriteBegin {
        pass: u32,
        page: PageId,
    },
    /// That transfer ended.
    WriteEnd {
        pass: u32,
        page: PageId,
        how: End,
    },
    /// A sync of the stream's disk ended.
    Sync {
        pass: u32,
        stream: StreamId,
        how: End,
    },
    /// A log gained an entry.
    Append {
        pass: u32,
        handle: u8,
        lsn: Lsn,
        bytes: Bytes,
    },
    /// A log was flushed to an LSN.
    Flushed {
        pass: u32,
        handle: u8,
        to: Lsn,
    },
    /// A log failed to append or to flush.
    LogFailed {
        pass: u32,
        handle: u8,
    },
    /// A write was deferred; one that is tried again goes to the head of the queue.
    Defer {
        pass: u32,
        id: u64,
        file: FileId,
        pages: u64,
        retrying: bool,
    },
    /// The head of the queue of deferred writes was posted.
    Posted {
        id: u64,
    },
    /// The lazy writer picked pages.
    Scan {
        pass: u32,
        picked: Pages,
    },
    /// The write of a stream's record to its disk ended, of a size and a valid data length in bytes.
    Record {
        pass: u32,
        stream: StreamId,
        size: u64,
        valid: u64,
        how: End,
    },
    /// The disk failed to read a stream's record.
    RecordFailed {
        pass: u32,
        stream: StreamId,
    },
    /// A lock of a range was asked for: `id` is that of the new lock, or else of the least lock in its way.
    Locked {
        pass: u32,
        file: FileId,
        span: Span,
        exclusive: bool,
        granted: bool,
        id: u64,
    },
    /// A lock was to be given back: `gone` says whether the object had that lock.
    Unlocked {
        pass: u32,
        file: FileId,
        id: u64,
        gone: bool,
    },
    /// A range was tested for locks before it was read or written; `conflict` is the least lock in the way.
    Tested {
        pass: u32,
        file: FileId,
        span: Span,
        write: bool,
        conflict: Option<u64>,
    },
}
