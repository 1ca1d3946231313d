//! Reads, writes and updates that are tested against the byte-range locks of their stream before they are made.

ghost use Rattle.std.specs.Prelude.{◌≡◌, ◌<◌, ◌^◌, length, IfOk};
ghost use Rattle.cc_calls.specs.Answers.{CanCall};
ghost use Rattle.cc_model.specs.Reasons.{crosses_blocks};
ghost use Rattle.cc_pieces.specs.Locks.{LockedUpdateLeft, LockedWriteLeft, update_refused, write_refused};
ghost use Rattle.cc_shim.specs.Ends.{BearsLsn, ListEnds};
ghost use Rattle.cc_shim.specs.Locked.{FoundReadEnds, LockedReadEnds, UpdateFound, WriteFound};

use crate::locks::test_range;
use crate::reads::{read, refusal_of};
use crate::updates::{NO_HANDLE, update};
use crate::writes::{GAP, PIECE, write};
use cc_calls::file_state;
use cc_entry::{CcError, FileId, FileSizes, FileState, Lsn};
use cc_script::ReadPath;
use cc_turns::Turns;
use std::alloc::Global;

/// The bytes of a view block.
const BLOCK: u128 = 262144;

/// Reads as `read` does, where no lock of another file object that is exclusive has a byte of the range. In Windows a file
/// system tests that by `FsRtlCheckLockForReadAccess`.
///
/// It asks the state first, tests what `read` refuses before its calls, tests the range against the locks under the journal's
/// turn, with an entry of its own, and makes the read: another caller may lock between the two.
///
/// The refusals of `read`, in the order of these tests, and `LockConflict` with the least id of a lock that conflicts.
pub fn locked_read<T: Turns>(
    alloc: Global,
    turns: &mut T,
    file: FileId,
    path: ReadPath,
    at: u64,
    out: &mut [u8],
) -> Result<usize, CcError>
    requires can { CanCall (T.standing turns.old) file.stream }
    ensures ends { LockedReadEnds (T.standing turns.old) (T.standing turns.new) file path at result out.old out.new }
{
    match file_state(alloc, turns, file) {
        Ok(_) => read_found(alloc, turns, file, path, at, out),
        Err(error) => {
            turns.note_others();
            Err(error)
        }
    }
}

// The same of a stream whose state was told.
fn read_found<T: Turns>(
    alloc: Global,
    turns: &mut T,
    file: FileId,
    path: ReadPath,
    at: u64,
    out: &mut [u8],
) -> Result<usize, CcError>
    requires can { CanCall (T.standing turns.old) file.stream }
    ensures ends { FoundReadEnds (T.standing turns.old) (T.standing turns.new) file path at result out.old out.new }
{
    if let Some(refusal) = refusal_of(path, at, out.len()) {
        return Err(refusal);
    }
    test_range(turns, file, at, out.len() as u64, false)?;
    read(alloc, turns, file, path, at, out)
}

/// Writes as `write` does, where no lock has a byte of the range but exclusive ones of the same file object. In Windows a file
/// system tests that by `FsRtlCheckLockForWriteAccess`.
///
/// It asks the state first, tests by it what `write` refuses by its own, tests the range against the locks under the
/// journal's turn, with an entry of its own, and makes the write: another caller may lock between the two.
///
/// The refusals of `write`, in the order of these tests, and `LockConflict` with the least id of a lock that conflicts.
pub fn locked_write<T: Turns>(
    alloc: Global,
    turns: &mut T,
    file: FileId,
    at: u64,
    piece: &[u8],
) -> Result<(), CcError>
    requires can { CanCall (T.standing turns.old) file.stream }
    ensures ends { ListEnds (T.standing turns.old) (T.standing turns.new)
        (LockedWriteLeft (T.standing turns.old).setup (T.standing turns.old).number file at piece.now) result }
{
    match file_state(alloc, turns, file) {
        Ok(state) => write_found(alloc, turns, file, at, piece, &state),
        Err(error) => {
            turns.note_others();
            Err(error)
        }
    }
}

// The same of a stream that has this state, as far as its caller was told.
fn write_found<T: Turns>(
    alloc: Global,
    turns: &mut T,
    file: FileId,
    at: u64,
    piece: &[u8],
    state: &FileState,
) -> Result<(), CcError>
    requires can { CanCall (T.standing turns.old) file.stream }
    requires valid { state.now.sizes.valid < 2 ^ 63 }
    ensures ends { ListEnds (T.standing turns.old) (T.standing turns.new)
        (WriteFound (T.standing turns.old) file at piece.now state.now) result }
{
    if let Some(refusal) = write_refusal(at, piece.len() as u64, state) {
        return Err(refusal);
    }
    test_range(turns, file, at, piece.len() as u64, true)?;
    write(alloc, turns, file, at, piece)
}

// Why a write is refused by the state that was told.
fn write_refusal(at: u64, len: u64, state: &FileState) -> Option<CcError>
    requires valid { state.now.sizes.valid < 2 ^ 63 }
    ensures { result ≡ write_refused at len state.now }
{
    if len > PIECE {
        return Some(CcError::TooLong { limit: PIECE });
    }
    if at > state.sizes.valid + GAP {
        return Some(CcError::GapTooLong { limit: GAP });
    }
    None
}

/// Changes bytes as `update` does, where no lock has a byte of the range but exclusive ones of the same file object. In
/// Windows a file system tests that by `FsRtlCheckLockForWriteAccess`.
///
/// It asks the state first, tests by it whether the range lies in one view block, whether the stream has a log, the size and
/// the valid data length, tests the range against the locks under the journal's turn, with an entry of its own, and makes the
/// update: another caller may lock between the two.
///
/// The refusals of `update`, in the order of these tests, and `LockConflict` with the least id of a lock that conflicts.
pub fn locked_update<T: Turns>(
    alloc: Global,
    turns: &mut T,
    file: FileId,
    at: u64,
    piece: &[u8],
) -> Result<Lsn, CcError>
    requires can { CanCall (T.standing turns.old) file.stream }
    ensures ends { ListEnds (T.standing turns.old) (T.standing turns.new)
        (LockedUpdateLeft (T.standing turns.old).setup (T.standing turns.old).number file at piece.now) result }
    ensures stamped { IfOk result (λ lsn. BearsLsn file at (length piece.now) lsn
        (T.standing turns.old).seen (T.standing turns.new).seen) }
{
    match file_state(alloc, turns, file) {
        Ok(state) => update_found(alloc, turns, file, at, piece, &state),
        Err(error) => {
            turns.note_others();
            Err(error)
        }
    }
}

// The same of a stream that has this state, as far as its caller was told.
fn update_found<T: Turns>(
    alloc: Global,
    turns: &mut T,
    file: FileId,
    at: u64,
    piece: &[u8],
    state: &FileState,
) -> Result<Lsn, CcError>
    requires can { CanCall (T.standing turns.old) file.stream }
    ensures ends { ListEnds (T.standing turns.old) (T.standing turns.new)
        (UpdateFound (T.standing turns.old) file at piece.now state.now) result }
    ensures stamped { IfOk result (λ lsn. BearsLsn file at (length piece.now) lsn
        (T.standing turns.old).seen (T.standing turns.new).seen) }
{
    if let Some(refusal) = update_refusal(at, piece.len() as u64, state) {
        return Err(refusal);
    }
    test_range(turns, file, at, piece.len() as u64, true)?;
    update(alloc, turns, file, at, piece)
}

// Why an update is refused by the state that was told.
fn update_refusal(at: u64, len: u64, state: &FileState) -> Option<CcError>
    ensures { result ≡ update_refused at len state.now }
{
    if crosses(at, len) {
        return Some(CcError::ViewBoundary);
    }
    if state.log.is_none() {
        return Some(CcError::NoLog { handle: NO_HANDLE });
    }
    let FileSizes { size, valid, .. } = state.sizes;
    if u128::from(at) + u128::from(len) > u128::from(size) {
        return Some(CcError::BeyondSize { size });
    }
    if at > valid {
        return Some(CcError::BeyondValid { valid });
    }
    None
}

// Whether bytes lie in more than one view block.
fn crosses(at: u64, len: u64) -> bool
    ensures { result ≡ crosses_blocks at len }
{
    if len == 0 {
        return false;
    }
    let at = u128::from(at);
    at / BLOCK != (at + u128::from(len) - 1) / BLOCK
}
