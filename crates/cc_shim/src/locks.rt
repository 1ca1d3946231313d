//! Byte-range locks: made, ended and tested, each under the journal's turn alone.

ghost use Rattle.std.specs.Prelude.{◌≡◌};
ghost use Rattle.cc_calls.specs.Answers.{IsFree};
ghost use Rattle.cc_model.specs.Good.{IsGood};
ghost use Rattle.cc_model.specs.Locks.{conflict_of};
ghost use Rattle.cc_model.specs.Setup.{Setup};
ghost use Rattle.cc_pieces.specs.Locks.{TestLeft, tested_range};
ghost use Rattle.cc_shim.specs.Ends.{ListEnds};
ghost use Rattle.cc_shim.specs.Locks.{LockEnds, LockIn, TestIn, UnlockEnds, UnlockIn};

use cc_entry::{CcError, Entry, FileId, Span};
use cc_journal::Journal;
use cc_locks::Locks;
use cc_turns::Turns;

/// Locks a span of a stream for a file object, and answers the lock's id: ids run from 1 over the locks of the stream that
/// were granted. No Cc routine does that: in Windows a file system does, by `FsRtlPrivateLock`.
///
/// `JournalFull`, `LockConflict` with the least id of a lock that is in its way, `NoMemory`.
pub fn lock_range<T: Turns>(
    turns: &mut T,
    file: FileId,
    span: Span,
    exclusive: bool,
) -> Result<u64, CcError>
    requires can { IsFree (T.standing turns.old) }
    ensures ends { LockEnds (T.standing turns.old) (T.standing turns.new) file span exclusive result }
{
    let mut journal = turns.take_journal();
    let pass = turns.me();
    let answer = lock_in(&mut journal, pass, file, span, exclusive);
    turns.give_journal(journal);
    answer
}

/// Ends the lock of this id where the file object owns it, and answers whether it does (`FsRtlFastUnlockSingle`).
///
/// `JournalFull`, `NoMemory`.
pub fn unlock_range<T: Turns>(turns: &mut T, file: FileId, id: u64) -> Result<bool, CcError>
    requires can { IsFree (T.standing turns.old) }
    ensures ends { UnlockEnds (T.standing turns.old) (T.standing turns.new) file id result }
{
    let mut journal = turns.take_journal();
    let pass = turns.me();
    let answer = unlock_in(&mut journal, pass, file, id);
    turns.give_journal(journal);
    answer
}

/// Tests bytes that are to be read or written against the locks of their stream: `LockConflict` with the least id of a lock
/// that conflicts, which the entry of the test tells. Bytes from the last place of all on are tested against none.
///
/// `JournalFull`, `LockConflict`, `NoMemory`.
pub(crate) fn test_range<T: Turns>(
    turns: &mut T,
    file: FileId,
    at: u64,
    len: u64,
    write: bool,
) -> Result<(), CcError>
    requires can { IsFree (T.standing turns.old) }
    ensures ends { ListEnds (T.standing turns.old) (T.standing turns.new)
        (TestLeft (T.standing turns.old).number file (tested_range at len) write) result }
{
    let span = Span::new(at, at.saturating_add(len)).unwrap();
    let mut journal = turns.take_journal();
    let pass = turns.me();
    let answer = test_in(&mut journal, pass, file, span, write);
    turns.give_journal(journal);
    turns.note_others();
    answer
}

// Locks a span in a journal in hand: the place for the entry is given back where memory was wanting for the lock.
fn lock_in<Q>(
    journal: &mut Journal<Q>,
    pass: u32,
    file: FileId,
    span: Span,
    exclusive: bool,
) -> Result<u64, CcError>
    ensures { LockIn pass file span exclusive result journal.old journal.new }
{
    journal.reserve(1)?;
    match journal.lock(pass, file, span, exclusive) {
        Ok(id) => Ok(id),
        Err(CcError::NoMemory) => {
            journal.release(1);
            Err(CcError::NoMemory)
        }
        Err(error) => Err(error),
    }
}

// Ends a lock in a journal in hand.
fn unlock_in<Q>(journal: &mut Journal<Q>, pass: u32, file: FileId, id: u64) -> Result<bool, CcError>
    ensures { UnlockIn pass file id result journal.old journal.new }
{
    journal.reserve(1)?;
    journal.unlock(pass, file, id)
}

// Tests a span in a journal in hand.
fn test_in<Q>(
    journal: &mut Journal<Q>,
    pass: u32,
    file: FileId,
    span: Span,
    write: bool,
) -> Result<(), CcError>
    requires good { (u : Setup) × IsGood u journal.old.entries }
    ensures { TestIn pass file span write result journal.old journal.new }
{
    journal.reserve(1)?;
    let conflict = conflict_of(journal.locks(file.stream()), file, span, write);
    journal.push(Entry::Tested {
        pass,
        file,
        span,
        write,
        conflict,
    });
    match conflict {
        Some(id) => Err(CcError::LockConflict { id }),
        None => Ok(()),
    }
}

// The least id of a lock that conflicts with a write of a span, or with a read.
fn conflict_of(locks: &Locks, file: FileId, span: Span, write: bool) -> Option<u64>
    requires { file.stream ≡ locks.now.stream }
    ensures { result ≡ conflict_of locks.now.table.locks write file span }
{
    if write {
        locks.write_conflict(file, span)
    } else {
        locks.read_conflict(file, span)
    }
}
