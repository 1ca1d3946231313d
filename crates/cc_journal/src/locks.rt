//! The byte-range locks of each stream.

ghost use Rattle.std.specs.Prelude.{◌≡◌, [], List, IfOk, IfErr};
ghost use Rattle.cc_entry.specs.declared.entry.Entry.{Entry};
ghost use Rattle.cc_model.specs.Locks.{locks_of};
ghost use Rattle.cc_journal.specs.Locks.{LocksStand, Granted, Refused, LockEnded};

use cc_entry::{CcError, FileId, NoMemory, Span, StreamId};
use cc_locks::Locks;
use std::alloc::Global;
use std::marker::Model;

/// The locks of the 16 streams.
#[derive(Drop)]
pub(crate) struct StreamLocks {
    each: Vec<Locks>,
}

impl Model for StreamLocks {
    ghost use Rattle.std.specs.Prelude.{List};
    ghost use Rattle.cc_locks.specs.Locks.{HeldLocks};
    ghost use Rattle.cc_journal.specs.Locks.{LocksAreNumbered};

    ghost Value = { List HeldLocks };

    ghost view = { λ locks. locks.each.items };

    ghost invariant = { λ locks. LocksAreNumbered locks.each.items };
}

impl StreamLocks {
    /// No stream has a lock yet.
    pub(crate) fn new(alloc: Global) -> Result<StreamLocks, NoMemory>
        ensures stands { IfOk result (λ locks. LocksStand [] locks) }
    {
        let mut each = Vec::with_capacity(alloc, 16)?;
        for number in 0..16 {
            let stream = StreamId::new(number).unwrap();
            each.push_reserved(Locks::new(alloc, stream));
        }
        Ok(StreamLocks { each })
    }

    /// The locks of one stream.
    pub(crate) fn of(&self, stream: StreamId) -> &Locks
        ensures stream { result.now.stream ≡ stream }
        ensures stands { (past : List Entry) → LocksStand past self.now → result.now.table ≡ locks_of past stream }
    {
        &self.each[usize::from(stream.number())]
    }

    /// Locks a span for a file object. Refused with `LockConflict` where a lock of the stream is in its way; the least
    /// such id. Answers `NoMemory`, and then nothing has changed.
    pub(crate) fn lock(&mut self, file: FileId, span: Span, exclusive: bool) -> Result<u64, CcError>
        ensures granted { IfOk result (λ id. (past : List Entry) → LocksStand past self.old →
            Granted past self.new file span exclusive id) }
        ensures refused { IfErr result (λ e. (past : List Entry) → LocksStand past self.old →
            Refused past self.old self.new file span exclusive e) }
    {
        self.each[usize::from(file.stream().number())].lock(file, span, exclusive)
    }

    /// Ends the lock of this id where the file object owns it, and answers whether it does. Takes no memory.
    pub(crate) fn unlock(&mut self, file: FileId, id: u64) -> bool
        ensures ended { (past : List Entry) → LocksStand past self.old → LockEnded past self.new file id result }
    {
        self.each[usize::from(file.stream().number())]
            .unlock(file, id)
            .unwrap()
    }
}
