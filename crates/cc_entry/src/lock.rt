//! A lock of bytes, the rules by which locks, reads and writes conflict, and the calls that make and end locks.

use crate::place::{FileId, Span};

/// A lock of the bytes of a span that a file object owns.
#[derive(Clone, Copy)]
pub struct Lock {
    pub id: u64,
    pub file: FileId,
    pub span: Span,
    /// Whether no other lock may overlap it.
    pub exclusive: bool,
}

/// A call that makes or ends a lock, with its answer.
#[derive(Clone, Copy)]
pub enum LockCall {
    /// The id is that of the new lock where it was granted, and else the least one that conflicts.
    Lock {
        file: FileId,
        span: Span,
        exclusive: bool,
        granted: bool,
        id: u64,
    },
    /// The lock is gone where the file object owned it.
    Unlock {
        file: FileId,
        id: u64,
        gone: bool,
    },
}

impl Lock {
    ghost use Rattle.std.specs.Prelude.{◌≡◌, ◌↔◌, IsTrue};
    ghost use Rattle.cc_entry.specs.Locks.{overlaps, HaveByteInBoth, read_conflicts, write_conflicts, lock_conflicts, is_of};

    /// Whether a byte is in both the lock and the span.
    pub fn overlaps(&self, span: Span) -> bool
        ensures same { result ≡ overlaps self.now.span span }
        ensures bytes { IsTrue result ↔ HaveByteInBoth self.now.span span }
    {
        self.span.from().max(span.from()) < self.span.to().min(span.to())
    }

    /// Whether this file object owns the lock.
    pub fn is_of(&self, file: FileId) -> bool
        ensures { result ≡ is_of self.now file }
    {
        self.file.stream().number() == file.stream().number() && self.file.object() == file.object()
    }

    /// Whether a read of a span by a file object conflicts with the lock.
    pub fn read_conflicts(&self, file: FileId, span: Span) -> bool
        ensures { result ≡ read_conflicts self.now file span }
    {
        self.overlaps(span) && self.exclusive && !self.is_of(file)
    }

    /// Whether a write of a span by a file object conflicts with the lock.
    pub fn write_conflicts(&self, file: FileId, span: Span) -> bool
        ensures { result ≡ write_conflicts self.now file span }
    {
        self.overlaps(span) && (!self.exclusive || !self.is_of(file))
    }

    /// Whether a new lock of a span, exclusive or shared, conflicts with the lock, whoever owns the two.
    pub fn lock_conflicts(&self, span: Span, exclusive: bool) -> bool
        ensures { result ≡ lock_conflicts self.now span exclusive }
    {
        self.overlaps(span) && (exclusive || self.exclusive)
    }
}
