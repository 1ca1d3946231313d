//! A write that extends its stream.

ghost use Rattle.std.specs.Prelude.{◌≡◌, ◌+◌, ◌<◌, ◌≤◌, ◌^◌, length};
ghost use Rattle.cc_calls.specs.Answers.{CanCall};
ghost use Rattle.cc_pieces.specs.Shim.{ToldWriteLeft, extensions, zeroings};
ghost use Rattle.cc_shim.specs.Ends.{FirstLeft, ListEnds, ExtendingWriteLeft};

use cc_calls::{copy_write, file_state, set_file_sizes, zero_data};
use cc_entry::{CcError, FileId, FileState, Span};
use cc_turns::Turns;
use std::alloc::Global;

/// The most bytes of a write, and of a piece that is zeroed at once: 1 MiB.
pub(crate) const PIECE: u64 = 1048576;

/// The longest gap that a write zeroes: 64 MiB.
pub(crate) const GAP: u64 = 67108864;

/// Writes bytes into a stream from a place on, anywhere: it sets the size where the end of the bytes is past it, sets the
/// bytes from the valid data length up to the place to zero, in pieces of 1 MiB, and copies the bytes. At most 1 MiB, and
/// from a place at most 64 MiB past the valid data length. In Windows it is a write of a file system that extends a file:
/// `CcSetFileSizes`, `CcZeroData`, `CcCopyWrite`.
///
/// The first refusal of its calls is the answer, and the calls before it stand, so a write that is refused may have set the
/// size and zeroed. What another caller wrote behind the valid data length meanwhile is zeroed too.
///
/// `TooLong` (before all calls), `GapTooLong` (behind `file_state`, by the valid data length that it told), `NotCached`,
/// `BadSizes`, `Held` (another caller extended the stream meanwhile, and holds a range past the end), `BeyondSize` and
/// `BeyondValid` (another caller shrank it), `NoViews`, `ReadFault`, `WriteFault`, `LogFault`, `JournalFull`, `NoMemory`.
pub fn write<T: Turns>(
    alloc: Global,
    turns: &mut T,
    file: FileId,
    at: u64,
    piece: &[u8],
) -> Result<(), CcError>
    requires can { CanCall (T.standing turns.old) file.stream }
    ensures ends { ListEnds (T.standing turns.old) (T.standing turns.new)
        (ExtendingWriteLeft (T.standing turns.old).setup (T.standing turns.old).number file at piece.now) result }
{
    if piece.len() as u64 > PIECE {
        return Err(CcError::TooLong { limit: PIECE });
    }
    match file_state(alloc, turns, file) {
        Ok(state) => write_told(alloc, turns, file, at, piece, &state),
        Err(error) => {
            turns.note_others();
            Err(error)
        }
    }
}

// The same of a stream that has this state, as far as its caller was told.
fn write_told<T: Turns>(
    alloc: Global,
    turns: &mut T,
    file: FileId,
    at: u64,
    piece: &[u8],
    state: &FileState,
) -> Result<(), CcError>
    requires can { CanCall (T.standing turns.old) file.stream }
    requires short { length piece.now ≤ 1048576 }
    requires valid { state.now.sizes.valid < 2 ^ 63 }
    ensures ends { ListEnds (T.standing turns.old) (T.standing turns.new)
        (ToldWriteLeft (T.standing turns.old).setup (T.standing turns.old).number file at piece.now state.now) result }
{
    let valid = state.sizes.valid;
    if at > valid + GAP {
        return Err(CcError::GapTooLong { limit: GAP });
    }
    extend(alloc, turns, file, at + piece.len() as u64, state)?;
    zero_gap(alloc, turns, file, valid, at)?;
    let answer = copy_write(alloc, turns, file, at, piece);
    turns.note_others();
    answer
}

// Extends a stream of this state to an end that is past its size.
fn extend<T: Turns>(
    alloc: Global,
    turns: &mut T,
    file: FileId,
    end: u64,
    state: &FileState,
) -> Result<(), CcError>
    requires can { CanCall (T.standing turns.old) file.stream }
    ensures ends { ListEnds (T.standing turns.old) (T.standing turns.new)
        (FirstLeft (T.standing turns.old).setup (T.standing turns.old).number (extensions file state.now end)) result }
{
    if end > state.sizes.size {
        let answer = set_file_sizes(alloc, turns, file, end.max(state.sizes.allocation), end);
        turns.note_others();
        answer
    } else {
        Ok(())
    }
}

// Sets the bytes from one place up to another to zero, piece by piece.
fn zero_gap<T: Turns>(
    alloc: Global,
    turns: &mut T,
    file: FileId,
    from: u64,
    to: u64,
) -> Result<(), CcError>
    requires can { CanCall (T.standing turns.old) file.stream }
    requires short { to ≤ from + 67108864 }
    requires begin { from < 2 ^ 63 }
    ensures ends { ListEnds (T.standing turns.old) (T.standing turns.new)
        (FirstLeft (T.standing turns.old).setup (T.standing turns.old).number (zeroings file from to)) result }
{
    let pieces = to.saturating_sub(from).div_ceil(PIECE);
    for k in 0..pieces {
        let start = from + PIECE * k;
        let span = Span::new(start, to.min(start + PIECE)).unwrap();
        match zero_data(alloc, turns, file, span) {
            Ok(()) => (),
            Err(error) => {
                turns.note_others();
                return Err(error);
            }
        }
    }
    Ok(())
}
