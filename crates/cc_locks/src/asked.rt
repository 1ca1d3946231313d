//! What may conflict with a lock: a read, a write, a new lock.

ghost use Rattle.std.specs.Prelude.{◌≡◌};

use cc_entry::{FileId, Lock, Span};

/// A read or a write of a span by a file object, or a new lock of one, exclusive or shared.
#[derive(Drop)]
pub(crate) enum Asked {
    Read(FileId, Span),
    Write(FileId, Span),
    Lock(Span, bool),
}

impl Asked {
    ghost use Rattle.std.specs.Prelude.{◌≡◌};
    ghost use Rattle.cc_locks.specs.Asked.{span_of, conflicts};

    pub(crate) fn span(&self) -> Span
        ensures { result ≡ span_of self.now }
    {
        match self {
            Asked::Read(_, span) | Asked::Write(_, span) | Asked::Lock(span, _) => *span,
        }
    }

    pub(crate) fn conflicts(&self, lock: &Lock) -> bool
        ensures { result ≡ conflicts self.now lock.now }
    {
        match self {
            Asked::Read(file, span) => lock.read_conflicts(*file, *span),
            Asked::Write(file, span) => lock.write_conflicts(*file, *span),
            Asked::Lock(span, exclusive) => lock.lock_conflicts(*span, *exclusive),
        }
    }
}
