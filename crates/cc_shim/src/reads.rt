//! A read of a stream along one of five paths.

ghost use Rattle.std.specs.Prelude.{◌≡◌, ◌<◌, ◌^◌, None, length};
ghost use Rattle.cc_calls.specs.Answers.{CanCall};
ghost use Rattle.cc_pieces.specs.Shim.{first_of_two, misaligned_for, too_long_for};
ghost use Rattle.cc_script.specs.declared.script.ReadPath.TheVariants.{Noncached};
ghost use Rattle.cc_shim.specs.Reads.{BelowSizeEnds, PathReadEnds, ToldSizeEnds};

use crate::parts::{By, read_parts};
use cc_calls::{copy_read, file_state};
use cc_entry::{CcError, FileId, FileState, Span};
use cc_ranges::noncached_read;
use cc_script::ReadPath;
use cc_turns::Turns;
use std::alloc::Global;

/// The most bytes of a read: 1 MiB.
const MOST: usize = 1048576;

/// The most bytes of a noncached read: 64 KiB.
const MOST_NONCACHED: usize = 65536;

/// The bytes of a page.
const PAGE: usize = 4096;

/// Reads bytes of a stream from a place on into the front of `out`, as far as they go below the size, and answers how many
/// they are. At most 1 MiB; on the noncached path at most 64 KiB, with place and length multiples of 4096. In Windows it is
/// a read of a file system: by `CcCopyRead`, which waits; by `CcMapData` or by `CcPinRead`, view block by view block; by
/// `CcMdlRead`; or without intermediate buffering.
///
/// On the mapped, pinned and descriptor paths the size is asked first, and the range cut there. Where no byte is left these
/// three make no hold; each hold that they make is ended before the answer. What `out` has behind the bytes stays; where
/// the read fails `out` may have been written.
///
/// The first refusal of its calls is the answer, and the calls before it stand. `TooLong` and then `Unaligned`, before all
/// calls. `NotCached`, `BeyondSize` (another caller shrank the stream meanwhile), `Busy` (on the pinned path: another pin
/// has a page of the range for itself), `NoViews`, `ReadFault`, `WriteFault`, `LogFault`, `JournalFull`, `NoMemory`.
pub fn read<T: Turns>(
    alloc: Global,
    turns: &mut T,
    file: FileId,
    path: ReadPath,
    at: u64,
    out: &mut [u8],
) -> Result<usize, CcError>
    requires can { CanCall (T.standing turns.old) file.stream }
    ensures ends { PathReadEnds (T.standing turns.old) (T.standing turns.new) file path at result out.old out.new }
{
    match refusal_of(path, at, out.len()) {
        Some(refusal) => Err(refusal),
        None => read_along(alloc, turns, file, path, at, out),
    }
}

// The same of a place and a length that are in order.
fn read_along<T: Turns>(
    alloc: Global,
    turns: &mut T,
    file: FileId,
    path: ReadPath,
    at: u64,
    out: &mut [u8],
) -> Result<usize, CcError>
    requires can { CanCall (T.standing turns.old) file.stream }
    requires fine { first_of_two (too_long_for path (length out.old)) (misaligned_for path at (length out.old)) ≡ None }
    ensures ends { PathReadEnds (T.standing turns.old) (T.standing turns.new) file path at result out.old out.new }
{
    match path {
        ReadPath::Cached => {
            let answer = copy_read(alloc, turns, file, at, true, out);
            turns.note_others();
            answer
        }
        ReadPath::Mapped => read_below_size(alloc, turns, file, By::Map, at, out),
        ReadPath::Pinned => read_below_size(alloc, turns, file, By::Pin, at, out),
        ReadPath::Descriptor => read_below_size(alloc, turns, file, By::Chain, at, out),
        ReadPath::Noncached => match noncached_read(alloc, turns, file, at, out) {
            Ok(count) => Ok(count),
            Err(failed) => {
                turns.note_others();
                Err(failed.cause)
            }
        },
    }
}

/// Why a place and a length are refused.
pub(crate) fn refusal_of(path: ReadPath, at: u64, len: usize) -> Option<CcError>
    ensures { result ≡ first_of_two (too_long_for path len) (misaligned_for path at len) }
{
    match path {
        ReadPath::Noncached => noncached_refusal(at, len),
        _ => {
            if len > MOST {
                Some(CcError::TooLong { limit: MOST as u64 })
            } else {
                None
            }
        }
    }
}

// The same on the noncached path.
fn noncached_refusal(at: u64, len: usize) -> Option<CcError>
    ensures { result ≡ first_of_two (too_long_for Noncached len) (misaligned_for Noncached at len) }
{
    if len > MOST_NONCACHED {
        return Some(CcError::TooLong {
            limit: MOST_NONCACHED as u64,
        });
    }
    if at % PAGE as u64 != 0 || len % PAGE != 0 {
        return Some(CcError::Unaligned);
    }
    None
}

// Reads what of a range lies below the size that the stream is told to have, by holds of its parts.
fn read_below_size<T: Turns>(
    alloc: Global,
    turns: &mut T,
    file: FileId,
    by: By,
    at: u64,
    out: &mut [u8],
) -> Result<usize, CcError>
    requires can { CanCall (T.standing turns.old) file.stream }
    ensures ends { BelowSizeEnds (T.standing turns.old) (T.standing turns.new) file by at result out.old out.new }
{
    match file_state(alloc, turns, file) {
        Ok(state) => read_below(alloc, turns, file, by, at, out, &state),
        Err(error) => {
            turns.note_others();
            Err(error)
        }
    }
}

// The same of a stream that has this state, as far as its caller was told.
fn read_below<T: Turns>(
    alloc: Global,
    turns: &mut T,
    file: FileId,
    by: By,
    at: u64,
    out: &mut [u8],
    state: &FileState,
) -> Result<usize, CcError>
    requires can { CanCall (T.standing turns.old) file.stream }
    requires below { state.now.sizes.size < 2 ^ 63 }
    ensures ends { ToldSizeEnds (T.standing turns.old) (T.standing turns.new) file by at state.now result out.old out.new }
{
    let end = at.saturating_add(out.len() as u64).min(state.sizes.size);
    if end <= at {
        return Ok(0);
    }
    let count = (end - at) as usize;
    let span = Span::new(at, end).unwrap();
    match read_parts(alloc, turns, file, by, span, &mut out[..count]) {
        Ok(()) => Ok(count),
        Err(error) => Err(error),
    }
}
