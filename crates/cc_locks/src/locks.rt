//! The locks of one stream, and the calls that make and end them.

ghost use Rattle.std.specs.Prelude.{◌≡◌, [], IfOk, OnOk, IfErr, IsOk};
ghost use Rattle.cc_entry.specs.Locks.{no_locks, unlock_answer, read_conflict, write_conflict};
ghost use Rattle.cc_locks.specs.Locks.{IsReplayed, Grants, Refuses, unlocked};

use crate::asked::Asked;
use crate::index::LockIndex;
use cc_entry::{CcError, FileId, Lock, LockCall, Span, StreamId};
use cc_traits::PastItems;
use std::alloc::Global;
use std::marker::Model;

/// The locks of one stream.
#[derive(Drop)]
pub struct Locks {
    stream: StreamId,
    granted: u64,
    index: LockIndex,
    past: PastItems<LockCall>,
}

impl Model for Locks {
    ghost use Rattle.cc_locks.specs.Locks.{HeldLocks, held_locks, IsReplayed};

    ghost Value = { HeldLocks };

    ghost view = { λ locks. held_locks locks.stream locks.granted locks.index locks.past.noted };

    ghost invariant = { λ locks. IsReplayed (held_locks locks.stream locks.granted locks.index locks.past.noted) };
}

impl Locks {
    /// The locks of a stream that has none yet. Takes no memory; the allocator is kept.
    pub fn new(alloc: Global, stream: StreamId) -> Locks
        ensures stream { result.stream ≡ stream }
        ensures none { result.table ≡ no_locks }
        ensures history { result.history ≡ [] }
    {
        Locks {
            stream,
            granted: 0,
            index: LockIndex::new(alloc),
            past: PastItems::new(),
        }
    }

    /// The stream.
    pub fn stream(&self) -> StreamId
        ensures stream { result ≡ self.now.stream }
        ensures replayed { IsReplayed self.now }
    {
        self.stream
    }

    /// Locks a span for a file object of the stream, and answers the lock's id. Refused with `LockConflict` where
    /// a lock conflicts; the least such id. Answers `NoMemory`, and then nothing has changed.
    pub fn lock(&mut self, file: FileId, span: Span, exclusive: bool) -> Result<u64, CcError>
        requires { file.stream ≡ self.old.stream }
        ensures granted { IfOk result (Grants self.old self.new file span exclusive) }
        ensures refused { IfErr result (Refuses self.old self.new file span exclusive) }
    {
        if let Some(id) = self.index.least(&Asked::Lock(span, exclusive)) {
            self.past.grow(&lock_call(file, span, exclusive, false, id));
            return Err(CcError::LockConflict { id });
        }
        let Some(id) = self.granted.checked_add(1) else {
            return Err(CcError::NoMemory);
        };
        let lock = Lock {
            id,
            file,
            span,
            exclusive,
        };
        if self.index.insert(lock).is_err() {
            return Err(CcError::NoMemory);
        }
        self.granted = id;
        self.past.grow(&lock_call(file, span, exclusive, true, id));
        Ok(id)
    }

    /// Ends the lock of this id where the file object owns it, and answers whether it does. Takes no memory.
    pub fn unlock(&mut self, file: FileId, id: u64) -> Result<bool, CcError>
        requires { file.stream ≡ self.old.stream }
        ensures sure { IsOk result }
        ensures owned { IfOk result (λ gone. gone ≡ unlock_answer self.old.table file id) }
        ensures rest { OnOk result (self.new ≡ unlocked self.old file id) }
    {
        let gone = self.index.remove(file, id);
        self.past.grow(&LockCall::Unlock { file, id, gone });
        Ok(gone)
    }

    /// The least id of a lock that conflicts with a read of a span by a file object of the stream.
    pub fn read_conflict(&self, file: FileId, span: Span) -> Option<u64>
        requires { file.stream ≡ self.now.stream }
        ensures { result ≡ read_conflict self.now.table.locks file span }
    {
        self.index.least(&Asked::Read(file, span))
    }

    /// The least id of a lock that conflicts with a write of a span by a file object of the stream.
    pub fn write_conflict(&self, file: FileId, span: Span) -> Option<u64>
        requires { file.stream ≡ self.now.stream }
        ensures { result ≡ write_conflict self.now.table.locks file span }
    {
        self.index.least(&Asked::Write(file, span))
    }
}

fn lock_call(file: FileId, span: Span, exclusive: bool, granted: bool, id: u64) -> LockCall
    ensures { result ≡ LockCall.Lock file span exclusive granted id }
{
    LockCall::Lock {
        file,
        span,
        exclusive,
        granted,
        id,
    }
}
