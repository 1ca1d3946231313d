//! An update of bytes that has a record in the stream's log.

ghost use Rattle.std.specs.Prelude.{◌≡◌, ◌<◌, ◌≤◌, ◌^◌, true, length, IfOk};
ghost use Rattle.cc_entry.specs.Kinds.{is_pin};
ghost use Rattle.cc_calls.specs.Answers.{CanCall};
ghost use Rattle.cc_calls.specs.Ends.{held_of_range};
ghost use Rattle.cc_calls.specs.Held.{IsHolding, held_covers};
ghost use Rattle.cc_pieces.specs.Shim.{LoggedLeft, PinnedUpdateLeft, RecordedLeft, UpdateLeft, update_record_of_file};
ghost use Rattle.cc_model.specs.Good.{IsGood};
ghost use Rattle.cc_model.specs.History.{history};
ghost use Rattle.cc_model.specs.Touches.{valid_of};
ghost use Rattle.cc_shim.specs.Ends.{BearsLsn, ListEnds, PinnedEnds, WasPinned};

use crate::record::record_of;
use cc_calls::{Pinned, file_state, log_append, pin_read, pinned_write, set_dirty, unpin};
use cc_entry::{CcError, FileId, Lsn};
use cc_turns::Turns;
use std::alloc::Global;

/// The handle that is told where a stream has no log.
pub(crate) const NO_HANDLE: u64 = 255;

/// Changes bytes of a stream from a place on, all of one view block: pins them for itself alone, appends a record of the
/// change to the stream's log, writes the bytes, stamps their pages with the record's LSN, and ends the pin. The answer is
/// that LSN. The record is the stream (1 byte), the place (8 bytes), the length (4 bytes) and the bytes, with numbers
/// little endian. In Windows it is what a file system with a log does to its own data: `CcPinRead`, its log, a write
/// through the pin, `CcSetDirtyPinnedData` with the LSN, `CcUnpinData`.
///
/// The first refusal of its calls is the answer, and the calls before it stand; the pin is ended in every case. Behind the
/// append nothing but want of room or of memory refuses the write and the stamp, since the pin keeps others from cutting the
/// stream below the place; then the record stands in the log without its change.
///
/// `NoLog` of handle 255 where the stream has no log, and `BeyondValid` where the place is past the valid data length that
/// `file_state` told: nothing is appended then. `NotCached`, `ViewBoundary`, `BeyondSize`, `Busy` (another pin has a page
/// of the range), `NoViews`, `LogFull`, `ReadFault`, `WriteFault`, `LogFault`, `JournalFull`, `NoMemory`.
pub fn update<T: Turns>(
    alloc: Global,
    turns: &mut T,
    file: FileId,
    at: u64,
    piece: &[u8],
) -> Result<Lsn, CcError>
    requires can { CanCall (T.standing turns.old) file.stream }
    ensures ends { ListEnds (T.standing turns.old) (T.standing turns.new)
        (UpdateLeft (T.standing turns.old).setup (T.standing turns.old).number file at piece.now) result }
    ensures stamped { IfOk result (λ lsn. BearsLsn file at (length piece.now) lsn
        (T.standing turns.old).seen (T.standing turns.new).seen) }
{
    match pin_read(alloc, turns, file, at, piece.len() as u64, true) {
        Ok(pin) => {
            let answer = update_pinned(alloc, turns, &pin, file, at, piece);
            unpin(alloc, turns, pin);
            answer
        }
        Err(error) => {
            turns.note_others();
            Err(error)
        }
    }
}

// The same under a pin of the bytes, which stays: asks for the log and the valid data length first.
fn update_pinned<T: Turns>(
    alloc: Global,
    turns: &mut T,
    pin: &Pinned,
    file: FileId,
    at: u64,
    piece: &[u8],
) -> Result<Lsn, CcError>
    requires can { CanCall (T.standing turns.old) file.stream }
    requires holding { IsHolding (T.standing turns.old) is_pin pin.now }
    requires range { pin.now ≡ held_of_range file at (length piece.now) pin.now.id }
    requires made { WasPinned (T.standing turns.old) file at (length piece.now) pin.now.id }
    ensures ends { PinnedEnds (T.standing turns.old) (T.standing turns.new) pin.now
        (PinnedUpdateLeft (T.standing turns.old).setup (T.standing turns.old).number file pin.now.id at piece.now) result }
    ensures stamped { IfOk result (λ lsn. BearsLsn file at (length piece.now) lsn
        (T.standing turns.old).seen (T.standing turns.new).seen) }
{
    match file_state(alloc, turns, file) {
        Ok(state) => match state.log {
            Some(handle) => {
                let valid = state.sizes.valid;
                if at > valid {
                    return Err(CcError::BeyondValid { valid });
                }
                update_logged(alloc, turns, pin, file, at, piece, handle)
            }
            None => Err(CcError::NoLog { handle: NO_HANDLE }),
        },
        Err(error) => {
            turns.note_others();
            Err(error)
        }
    }
}

// The same with a log: its record is appended first.
fn update_logged<T: Turns>(
    alloc: Global,
    turns: &mut T,
    pin: &Pinned,
    file: FileId,
    at: u64,
    piece: &[u8],
    handle: u8,
) -> Result<Lsn, CcError>
    requires can { CanCall (T.standing turns.old) file.stream }
    requires holding { IsHolding (T.standing turns.old) is_pin pin.now }
    requires range { pin.now ≡ held_of_range file at (length piece.now) pin.now.id }
    requires good { IsGood (T.standing turns.old).setup (T.standing turns.old).seen }
    requires valid { at ≤ valid_of (history (T.standing turns.old).seen pin.now.file.stream) }
    requires short { length piece.now < 2 ^ 32 }
    ensures ends { PinnedEnds (T.standing turns.old) (T.standing turns.new) pin.now
        (LoggedLeft (T.standing turns.old).setup (T.standing turns.old).number file pin.now.id at piece.now handle) result }
    ensures stamped { IfOk result (λ lsn. BearsLsn file at (length piece.now) lsn
        (T.standing turns.old).seen (T.standing turns.new).seen) }
{
    let spelled = record_of(alloc, file, at, piece)?;
    update_recorded(alloc, turns, pin, file, at, piece, handle, &spelled)
}

// The same with the record's bytes.
fn update_recorded<T: Turns>(
    alloc: Global,
    turns: &mut T,
    pin: &Pinned,
    file: FileId,
    at: u64,
    piece: &[u8],
    handle: u8,
    spelled: &[u8],
) -> Result<Lsn, CcError>
    requires can { CanCall (T.standing turns.old) file.stream }
    requires holding { IsHolding (T.standing turns.old) is_pin pin.now }
    requires range { pin.now ≡ held_of_range file at (length piece.now) pin.now.id }
    requires good { IsGood (T.standing turns.old).setup (T.standing turns.old).seen }
    requires valid { at ≤ valid_of (history (T.standing turns.old).seen pin.now.file.stream) }
    requires spelled { spelled.now ≡ update_record_of_file file at piece.now }
    ensures ends { PinnedEnds (T.standing turns.old) (T.standing turns.new) pin.now
        (LoggedLeft (T.standing turns.old).setup (T.standing turns.old).number file pin.now.id at piece.now handle) result }
    ensures stamped { IfOk result (λ lsn. BearsLsn file at (length piece.now) lsn
        (T.standing turns.old).seen (T.standing turns.new).seen) }
{
    match log_append(alloc, turns, handle, spelled) {
        Ok(lsn) => write_stamped(alloc, turns, pin, at, piece, lsn),
        Err(error) => {
            turns.note_others();
            Err(error)
        }
    }
}

// Writes the bytes through the pin, and stamps its pages with the LSN of their record.
fn write_stamped<T: Turns>(
    alloc: Global,
    turns: &mut T,
    pin: &Pinned,
    at: u64,
    piece: &[u8],
    lsn: Lsn,
) -> Result<Lsn, CcError>
    requires can { CanCall (T.standing turns.old) pin.now.file.stream }
    requires holding { IsHolding (T.standing turns.old) is_pin pin.now }
    requires covers { held_covers pin.now at (length piece.now) ≡ true }
    requires good { IsGood (T.standing turns.old).setup (T.standing turns.old).seen }
    requires valid { at ≤ valid_of (history (T.standing turns.old).seen pin.now.file.stream) }
    ensures ends { PinnedEnds (T.standing turns.old) (T.standing turns.new) pin.now
        (RecordedLeft (T.standing turns.old).setup (T.standing turns.old).number pin.now.id at piece.now lsn) result }
    ensures stamped { IfOk result (λ lsn. BearsLsn pin.now.file pin.now.at pin.now.len lsn
        (T.standing turns.old).seen (T.standing turns.new).seen) }
{
    match pinned_write(alloc, turns, pin, at, piece) {
        Ok(()) => match set_dirty(alloc, turns, pin, Some(lsn)) {
            Ok(()) => Ok(lsn),
            Err(error) => {
                turns.note_others();
                Err(error)
            }
        },
        Err(error) => {
            turns.note_others();
            Err(error)
        }
    }
}
