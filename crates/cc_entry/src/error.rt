//! Why a call of the cache is refused.

ghost use Rattle.std.specs.Prelude.{◌≡◌};
ghost use Rattle.cc_entry.specs.Errors.{number_of, name_of, out_of_memory};

use std::alloc::{AllocError, AllocFailed};
use thiserror::Error;

/// Memory ran out. What the call was to change is as it was.
#[derive(Clone, Copy, Debug, PartialEq, Eq, Error)]
#[error("out of memory")]
pub struct NoMemory;

impl From<AllocError> for NoMemory {
    fn from(_e: AllocError) -> NoMemory {
        NoMemory
    }
}

impl<T: Drop> From<AllocFailed<T>> for NoMemory {
    fn from(_e: AllocFailed<T>) -> NoMemory {
        NoMemory
    }
}

/// The refusals of the calls. Sizes, places and lengths are in bytes; a page is the page's number in
/// its stream; an id is that of a hold or of a lock.
#[derive(Clone, Copy, Debug, PartialEq, Eq, Error)]
pub enum CcError {
    /// The file object has no private cache map.
    #[error("the file object has no private cache map")]
    NotCached,
    /// The range ends past the stream's size; of a noncached write, the page starts at or past it.
    #[error("the range ends past the stream's size of {size} bytes")]
    BeyondSize { size: u64 },
    /// A change starts past the valid data length.
    #[error("the change starts past the valid data length of {valid} bytes")]
    BeyondValid { valid: u64 },
    /// The length exceeds the call's limit.
    #[error("the length exceeds the limit of {limit} bytes")]
    TooLong { limit: u64 },
    /// A map or pin range has bytes in two view blocks.
    #[error("the range has bytes in two view blocks of 262144 bytes")]
    ViewBoundary,
    /// A noncached place or length is no multiple of 4096.
    #[error("the range of a noncached read or write is not aligned to 4096 bytes")]
    Unaligned,
    /// The sizes break the rule of the call.
    #[error("the sizes break the rule of the call")]
    BadSizes,
    /// An open hold forbids the call; the least such id.
    #[error("open hold {id} forbids the call")]
    Held { id: u64 },
    /// An open pin forbids the pin, or owes a stamp to a page that would be written; the least such id of the least
    /// such page.
    #[error("open pin {id} forbids the pin, or owes a stamp to a page to be written")]
    Busy { id: u64 },
    /// The blocks of open holds and of the range exceed the quota; `active` counts those of open holds.
    #[error("the blocks of the range and the {active} blocks of open holds exceed the quota of {quota} views")]
    NoViews { active: u64, quota: u64 },
    /// A read that may not wait needs a page that is not resident; the least one.
    #[error("page {page} is not resident, and the read may not wait")]
    NotResident { page: u64 },
    /// The pool has fewer free views than the quota asked.
    #[error("the pool has {free} free views, fewer than the quota asked")]
    NoVacbs { free: u64 },
    /// The journal, with what is reserved in it, has no room for the entry.
    #[error("the journal has no room: it holds {entries} entries")]
    JournalFull { entries: u64 },
    /// The disk failed to read the page in this call.
    #[error("the disk failed to read page {page}")]
    ReadFault { page: u64 },
    /// The disk failed to write the page, or to sync, in this call.
    #[error("the disk failed to write page {page}, or to sync")]
    WriteFault { page: u64 },
    /// The log failed in this call.
    #[error("log {handle} failed")]
    LogFault { handle: u64 },
    /// The log has used every LSN.
    #[error("log {handle} has used every LSN")]
    LogFull { handle: u64 },
    /// 64 deferred writes, read-ahead requests or reads are queued.
    #[error("the queue is full: it holds 64 requests")]
    QueueFull,
    /// Memory ran out: the one refusal without a cause in the journal.
    #[error("out of memory")]
    NoMemory,
    /// The granularity is no power of two from 4096 to 1048576.
    #[error("the granularity is not a power of two from 4096 to 1048576 bytes")]
    BadGranularity,
    /// There is no log of this handle; 255 where the stream has none.
    #[error("there is no log {handle} (255 where the stream has none)")]
    NoLog { handle: u64 },
    /// A dirty page that a discard would drop has an image that is not known, since its last transfer did not
    /// end well; the least such page.
    #[error("page {page} cannot be discarded: its last transfer failed, so what the disk holds of it is not known")]
    Unsettled { page: u64 },
    /// A dirty page that a discard would drop has bytes that became valid since the disk last took it,
    /// which the disk never held; the least such page.
    #[error("page {page} cannot be discarded: it has bytes that the disk never held")]
    Grown { page: u64 },
    /// A write starts further past the valid data length than the limit.
    #[error("the write starts more than {limit} bytes past the valid data length")]
    GapTooLong { limit: u64 },
    /// A lock of bytes conflicts with the range; the least such id.
    #[error("lock {id} conflicts with the range")]
    LockConflict { id: u64 },
}

impl CcError {
    /// The number that is printed.
    pub fn number(&self) -> u8
        ensures { result ≡ number_of self.now }
    {
        match self {
            CcError::NotCached => 1,
            CcError::BeyondSize { .. } => 2,
            CcError::BeyondValid { .. } => 3,
            CcError::TooLong { .. } => 4,
            CcError::ViewBoundary => 5,
            CcError::Unaligned => 6,
            CcError::BadSizes => 7,
            CcError::Held { .. } => 8,
            CcError::Busy { .. } => 9,
            CcError::NoViews { .. } => 10,
            CcError::NotResident { .. } => 11,
            CcError::NoVacbs { .. } => 12,
            CcError::JournalFull { .. } => 13,
            CcError::ReadFault { .. } => 14,
            CcError::WriteFault { .. } => 15,
            CcError::LogFault { .. } => 16,
            CcError::LogFull { .. } => 17,
            CcError::QueueFull => 18,
            CcError::NoMemory => 19,
            CcError::BadGranularity => 20,
            CcError::NoLog { .. } => 21,
            CcError::Unsettled { .. } => 22,
            CcError::Grown { .. } => 23,
            CcError::GapTooLong { .. } => 24,
            CcError::LockConflict { .. } => 25,
        }
    }

    /// The name that is printed.
    pub fn name(&self) -> &'static str
        ensures { result.now ≡ name_of self.now }
    {
        match self {
            CcError::NotCached => "NotCached",
            CcError::BeyondSize { .. } => "BeyondSize",
            CcError::BeyondValid { .. } => "BeyondValid",
            CcError::TooLong { .. } => "TooLong",
            CcError::ViewBoundary => "ViewBoundary",
            CcError::Unaligned => "Unaligned",
            CcError::BadSizes => "BadSizes",
            CcError::Held { .. } => "Held",
            CcError::Busy { .. } => "Busy",
            CcError::NoViews { .. } => "NoViews",
            CcError::NotResident { .. } => "NotResident",
            CcError::NoVacbs { .. } => "NoVacbs",
            CcError::JournalFull { .. } => "JournalFull",
            CcError::ReadFault { .. } => "ReadFault",
            CcError::WriteFault { .. } => "WriteFault",
            CcError::LogFault { .. } => "LogFault",
            CcError::LogFull { .. } => "LogFull",
            CcError::QueueFull => "QueueFull",
            CcError::NoMemory => "NoMemory",
            CcError::BadGranularity => "BadGranularity",
            CcError::NoLog { .. } => "NoLog",
            CcError::Unsettled { .. } => "Unsettled",
            CcError::Grown { .. } => "Grown",
            CcError::GapTooLong { .. } => "GapTooLong",
            CcError::LockConflict { .. } => "LockConflict",
        }
    }
}

impl From<NoMemory> for CcError {
    ghost from_gives = { λ _ e. e ≡ out_of_memory };

    fn from(_e: NoMemory) -> CcError {
        CcError::NoMemory
    }
}

impl From<AllocError> for CcError {
    ghost from_gives = { λ _ e. e ≡ out_of_memory };

    fn from(_e: AllocError) -> CcError {
        CcError::NoMemory
    }
}

impl<T: Drop> From<AllocFailed<T>> for CcError {
    ghost from_gives = { λ _ e. e ≡ out_of_memory };

    fn from(_e: AllocFailed<T>) -> CcError {
        CcError::NoMemory
    }
}
