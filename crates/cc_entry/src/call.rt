//! The calls of the cache.

use crate::bytes::Bytes;
use crate::place::{FileId, FileSizes, Lsn, Quota, Request, Span};
use crate::query::Query;

/// A call with its arguments, as its entry in the journal keeps them. A hold is its id; `at`, `len` and
/// sizes are in bytes, `page` is the page's number in the file's stream.
#[derive(Drop)]
pub enum Call {
    /// `CcInitializeCacheMap`.
    Initialise {
        file: FileId,
        sizes: FileSizes,
        quota: Quota,
        temporary: bool,
    },
    /// `CcUninitializeCacheMap`.
    Uninitialise {
        file: FileId,
        truncate: Option<u64>,
    },
    /// `CcCopyRead`.
    CopyRead {
        file: FileId,
        at: u64,
        len: u64,
        wait: bool,
    },
    /// `CcCopyWrite`.
    CopyWrite {
        file: FileId,
        at: u64,
        bytes: Bytes,
    },
    /// `CcZeroData`.
    Zero {
        file: FileId,
        span: Span,
    },
    /// `CcMapData`.
    Map {
        file: FileId,
        at: u64,
        len: u64,
    },
    /// `CcPinRead`.
    PinRead {
        file: FileId,
        at: u64,
        len: u64,
        exclusive: bool,
    },
    /// `CcPinMappedData`.
    PinMapped {
        hold: u64,
        exclusive: bool,
    },
    /// `CcPreparePinWrite`.
    PreparePin {
        file: FileId,
        at: u64,
        len: u64,
        zero: bool,
        exclusive: bool,
    },
    /// A read of mapped bytes.
    MappedRead {
        hold: u64,
        at: u64,
        len: u64,
    },
    /// A read of pinned bytes.
    PinnedRead {
        hold: u64,
        at: u64,
        len: u64,
    },
    /// A write into pinned bytes.
    PinnedWrite {
        hold: u64,
        at: u64,
        bytes: Bytes,
    },
    /// `CcSetDirtyPinnedData`.
    SetDirty {
        hold: u64,
        lsn: Option<Lsn>,
    },
    /// The end of any hold: `CcUnpinData`, `CcUnpinRepinnedBcb`, `CcMdlReadComplete`,
    /// `CcMdlWriteComplete`, `CcMdlWriteAbort`.
    EndHold {
        hold: u64,
    },
    /// `CcRepinBcb`.
    Repin {
        hold: u64,
    },
    /// `CcMdlRead`.
    MdlRead {
        file: FileId,
        at: u64,
        len: u64,
    },
    /// `CcPrepareMdlWrite`.
    MdlWrite {
        file: FileId,
        at: u64,
        len: u64,
    },
    /// A read of the bytes of a read chain.
    MdlBytes {
        hold: u64,
        at: u64,
        len: u64,
    },
    /// A store into a write chain.
    MdlStore {
        hold: u64,
        at: u64,
        bytes: Bytes,
    },
    /// One page of a noncached read.
    NcRead {
        file: FileId,
        page: u64,
    },
    /// One page of a noncached write, as its bytes come into the cache.
    NcStore {
        file: FileId,
        page: u64,
        bytes: Bytes,
    },
    /// One page of a noncached write, as it is on the disk.
    NcWrite {
        file: FileId,
        page: u64,
    },
    /// `CcSetFileSizes`.
    SetSizes {
        file: FileId,
        allocation: u64,
        size: u64,
    },
    /// A query: it only looks, and answers.
    Query(Query),
    /// `CcFlushCache`; no span is the whole stream.
    Flush {
        file: FileId,
        span: Option<Span>,
    },
    /// `CcPurgeCacheSection`, but that dirty pages are written first; no span is the whole stream.
    Purge {
        file: FileId,
        span: Option<Span>,
    },
    /// `CcPurgeCacheSection` as the routine itself does it: the pages go, dirty or not, and nothing of
    /// them is written. No span is the whole stream.
    Discard {
        file: FileId,
        span: Option<Span>,
    },
    /// `CcSetLogHandleForFile`.
    SetLog {
        file: FileId,
        handle: u8,
    },
    /// `CcSetReadAheadGranularity`.
    SetGranularity {
        file: FileId,
        bytes: u64,
    },
    /// `CcSetAdditionalCacheAttributes`.
    SetAttributes {
        file: FileId,
        no_read_ahead: bool,
        no_write_behind: bool,
    },
    /// `CcSetDirtyPageThreshold`.
    SetThreshold {
        file: FileId,
        pages: u32,
    },
    /// `CcScheduleReadAhead`.
    AskAhead {
        file: FileId,
        at: u64,
        len: u64,
    },
    /// One read-ahead request as the worker serves it.
    AheadStep {
        request: Request,
    },
}
