//! The lines of the file system shim, whose reads, writes and updates are tested against the byte-range locks first, and the
//! question for the levels of a view index.

ghost use Rattle.cc_pieces.specs.Answered.{LevelsAnswered};
ghost use Rattle.cc_pieces.specs.Locks.{LockAnswered, LockedReadAnswered, LockedUpdateAnswered, LockedWriteAnswered, UnlockAnswered};
ghost use Rattle.cc_vacb.specs.Levels.{levels_of};
ghost use Rattle.cc_calls.specs.Answers.{CanCall, IsFree};
ghost use Rattle.cc_calls.specs.Pages.{StaysGood, WentOn};
ghost use Rattle.cc_lines.specs.Line.{IsFullTold, WasFullTold};

use cc_calls::index_levels;
use cc_entry::{Answer, Bytes, BytesRoom, CcError, FileId, Reply, Span, Value};
use cc_script::ReadPath;
use cc_shim::{lock_range, locked_read, locked_update, locked_write, unlock_range};
use cc_turns::Turns;
use std::alloc::Global;

/// A read along a path, whose bytes are the answer; one that is refused tells the cause alone. Where memory for the bytes is
/// wanting, no call is made.
pub(crate) fn read_along<T: Turns>(
    alloc: Global,
    turns: &mut T,
    file: FileId,
    path: ReadPath,
    at: u64,
    len: u64,
) -> Answer
    requires { CanCall (T.standing turns.old) file.stream }
    ensures answered { LockedReadAnswered (T.standing turns.old).setup (T.standing turns.old).number file path at len result
        (T.standing turns.old).seen (T.standing turns.new).seen }
    ensures full { WasFullTold (T.standing turns.old) (T.standing turns.new) result }
    ensures goes_on { WentOn (T.standing turns.old) (T.standing turns.new) }
    ensures good { StaysGood (T.standing turns.old) (T.standing turns.new) }
{
    let Ok(mut out) = vec![in alloc; 0; len as usize] else {
        return Answer::Refused(CcError::NoMemory);
    };
    let Ok(room) = BytesRoom::new(alloc, out.len()) else {
        return Answer::Refused(CcError::NoMemory);
    };
    match locked_read(alloc, turns, file, path, at, &mut out) {
        Ok(count) => Answer::Given(Reply::Read(room.keep(&out[..count]))),
        Err(error) => Answer::Refused(error),
    }
}

/// A write that extends its stream where it has to.
pub(crate) fn write_extending<T: Turns>(
    alloc: Global,
    turns: &mut T,
    file: FileId,
    at: u64,
    bytes: &Bytes,
) -> Answer
    requires { CanCall (T.standing turns.old) file.stream }
    ensures answered { LockedWriteAnswered (T.standing turns.old).setup (T.standing turns.old).number file at bytes.now result
        (T.standing turns.old).seen (T.standing turns.new).seen }
    ensures full { WasFullTold (T.standing turns.old) (T.standing turns.new) result }
    ensures goes_on { WentOn (T.standing turns.old) (T.standing turns.new) }
    ensures good { StaysGood (T.standing turns.old) (T.standing turns.new) }
{
    let Ok(piece) = bytes.to_vec(alloc) else {
        return Answer::Refused(CcError::NoMemory);
    };
    match locked_write(alloc, turns, file, at, &piece) {
        Ok(()) => Answer::Given(Reply::Unit),
        Err(error) => Answer::Refused(error),
    }
}

/// An update that has its record in the stream's log, whose answer is the record's LSN.
pub(crate) fn update_logged<T: Turns>(
    alloc: Global,
    turns: &mut T,
    file: FileId,
    at: u64,
    bytes: &Bytes,
) -> Answer
    requires { CanCall (T.standing turns.old) file.stream }
    ensures answered { LockedUpdateAnswered (T.standing turns.old).setup (T.standing turns.old).number file at bytes.now result
        (T.standing turns.old).seen (T.standing turns.new).seen }
    ensures full { WasFullTold (T.standing turns.old) (T.standing turns.new) result }
    ensures goes_on { WentOn (T.standing turns.old) (T.standing turns.new) }
    ensures good { StaysGood (T.standing turns.old) (T.standing turns.new) }
{
    let Ok(piece) = bytes.to_vec(alloc) else {
        return Answer::Refused(CcError::NoMemory);
    };
    match locked_update(alloc, turns, file, at, &piece) {
        Ok(lsn) => Answer::NewLsn(lsn),
        Err(error) => Answer::Refused(error),
    }
}

/// A lock of a range, whose answer is its id.
pub(crate) fn lock<T: Turns>(turns: &mut T, file: FileId, span: Span, exclusive: bool) -> Answer
    requires { IsFree (T.standing turns.old) }
    ensures answered { LockAnswered (T.standing turns.old).number file span exclusive result
        (T.standing turns.old).seen (T.standing turns.new).seen }
    ensures full { IsFullTold (T.standing turns.new) result }
    ensures goes_on { WentOn (T.standing turns.old) (T.standing turns.new) }
    ensures good { StaysGood (T.standing turns.old) (T.standing turns.new) }
{
    match lock_range(turns, file, span, exclusive) {
        Ok(id) => Answer::LockId(id),
        Err(error) => Answer::Refused(error),
    }
}

/// The end of a lock, whose answer is whether the file object had it.
pub(crate) fn unlock<T: Turns>(turns: &mut T, file: FileId, id: u64) -> Answer
    requires { IsFree (T.standing turns.old) }
    ensures answered { UnlockAnswered (T.standing turns.old).number file id result
        (T.standing turns.old).seen (T.standing turns.new).seen }
    ensures full { IsFullTold (T.standing turns.new) result }
    ensures goes_on { WentOn (T.standing turns.old) (T.standing turns.new) }
    ensures good { StaysGood (T.standing turns.old) (T.standing turns.new) }
{
    match unlock_range(turns, file, id) {
        Ok(gone) => Answer::Given(Reply::Value(Value::Flag(gone))),
        Err(error) => Answer::Refused(error),
    }
}

/// A question for the levels of a view index.
pub(crate) fn levels<T: Turns>(turns: &mut T, file: FileId) -> Answer
    requires { CanCall (T.standing turns.old) file.stream }
    ensures answered { LevelsAnswered levels_of (T.standing turns.old).number file result
        (T.standing turns.old).seen (T.standing turns.new).seen }
    ensures full { IsFullTold (T.standing turns.new) result }
    ensures goes_on { WentOn (T.standing turns.old) (T.standing turns.new) }
    ensures good { StaysGood (T.standing turns.old) (T.standing turns.new) }
{
    match index_levels(turns, file) {
        Ok(levels) => Answer::Levels(levels),
        Err(error) => Answer::Refused(error),
    }
}
