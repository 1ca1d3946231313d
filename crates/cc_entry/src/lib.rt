//! The values of ntcache: places in files, bytes, calls of the cache and the entries of its journal.
//!
//! Everything that the cache is asked, answers and records is a value of this crate. A value that has
//! a range keeps it: a stream is one of 16, a page lies below 2^51, an LSN is 1 to 2^62. Lists inside a
//! value are small types over `Vec` that contracts see as lists, and `Bytes` is kept in parts and seen as
//! the list of the bytes. Units are bytes, pages of 4096 bytes and blocks of 64 pages.
//!
//! It stands on no crate of this repository. Whatever speaks of a value stands on it; `cc_traits`, the
//! devices over it, `cc_pages` and `cc_vacb` speak of none.
#![tactic(auto)]

pub mod answer;
pub mod bytes;
pub mod call;
pub mod entry;
pub mod error;
pub mod hold;
pub mod lists;
pub mod lock;
mod part;
pub mod place;
pub mod query;
pub mod reply;
pub mod runs;
mod scan;

pub use answer::{AheadDone, Answer, AsyncDone, AsyncId, AsyncStart, LineReply, Tick};
pub use bytes::{Bytes, BytesRoom};
pub use call::Call;
pub use entry::{End, Entry};
pub use error::{CcError, NoMemory};
pub use hold::{Deferral, HoldKind, HoldRow};
pub use lists::{Ids, Pages, Rows};
pub use lock::{Lock, LockCall};
pub use place::{
    DirtyRow, FileId, FileSizes, FileState, Lsn, PageId, Quota, Request, Span, StreamId,
};
pub use query::{Query, Value};
pub use reply::{Outcome, Reply};
pub use runs::{Run, Runs};
