//! Queries: the calls that only look, and the values that they answer.

ghost use Rattle.std.specs.Prelude.{◌≡◌};
ghost use Rattle.cc_entry.specs.Queries.{extent_of_query, file_of_query, log_of_query};

use crate::place::{FileId, FileState, Lsn};

/// A call that changes nothing and answers what it finds. All queries are alike but for what they name, the bytes whose
/// pages they need, what they answer, what refuses them, and their text.
#[derive(Clone, Copy)]
pub enum Query {
    /// The stream's sizes and log. It is no Cc routine.
    State { file: FileId },
    /// `CcGetDirtyPages`.
    DirtyPages { handle: u8 },
    /// `CcGetLsnForFileObject`.
    LsnForFile { file: FileId },
    /// `CcIsThereDirtyData`.
    IsDirtyData,
    /// `CcCanIWrite`.
    CanWrite { file: FileId, bytes: u64 },
}

/// What a call finds: the answer of a query, and of other calls that answer a flag.
#[derive(Clone, Copy)]
pub enum Value {
    Flag(bool),
    /// The least and the greatest LSN that is not yet written, where there is one.
    Lsns(Option<(Lsn, Lsn)>),
    State(FileState),
}

impl Query {
    /// The file object that it names. One that names none is of no stream.
    pub fn file(&self) -> Option<FileId>
        ensures { result ≡ file_of_query self.now }
    {
        match self {
            Query::State { file } | Query::LsnForFile { file } | Query::CanWrite { file, .. } => {
                Some(*file)
            }
            Query::DirtyPages { .. } | Query::IsDirtyData => None,
        }
    }

    /// The log that it names.
    pub fn log(&self) -> Option<u8>
        ensures { result ≡ log_of_query self.now }
    {
        match self {
            Query::DirtyPages { handle } => Some(*handle),
            _ => None,
        }
    }

    /// The bytes whose pages it needs, as far as they lie below the size: from where, and how many. No query needs any so
    /// far.
    pub fn extent(&self) -> Option<(u64, u64)>
        ensures { result ≡ extent_of_query self.now }
    {
        match self {
            Query::State { .. }
            | Query::DirtyPages { .. }
            | Query::LsnForFile { .. }
            | Query::IsDirtyData
            | Query::CanWrite { .. } => None,
        }
    }
}
