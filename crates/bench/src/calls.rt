//! One kind of call, made again and again, over any turns.
//!
//! Each function asks what a call of the cache asks, that its pass may call on the stream (`CanCall`), and leaves what a call
//! leaves, a pass that goes on as it stood (`WentOn`), so that it may call again.

ghost use Rattle.std.specs.Prelude.{◌≡◌, IfOk};
ghost use Rattle.cc_calls.specs.Answers.{CanCall};
ghost use Rattle.cc_calls.specs.Pages.{WentOn};

use crate::devices::Fresh;
use crate::kinds::{Act, Kind};
use crate::mix::mix;
use cc_calls::{
    copy_read, copy_write, flush, initialize, map_data, mapped_read, pin_read, pinned_read,
    pinned_write, set_dirty, set_log_handle, tick, unmap, unpin,
};
use cc_entry::{CcError, FileId, FileSizes};
use cc_ranges::{NcError, noncached_read, noncached_write};
use cc_turns::Turns;
use std::alloc::Global;

/// Opens a stream for a kind of call, with all its bytes valid, and reads through it once, so that what fits is in memory.
pub fn open<T: Turns>(
    alloc: Global,
    turns: &mut T,
    file: FileId,
    kind: &Kind,
) -> Result<(), CcError>
    requires can { CanCall (T.standing turns.old) file.stream }
    ensures goes_on { WentOn (T.standing turns.old) (T.standing turns.new) }
{
    let size = u64::from(kind.size());
    let sizes = FileSizes {
        allocation: size,
        size,
        valid: size,
    };
    initialize(alloc, turns, file, sizes, kind.quota(), false)?;
    set_log_handle(alloc, turns, file, 0)?;
    let mut bytes = vec![in alloc; 0; 65536]?;
    for part in 0..size / 65536 {
        copy_read(alloc, turns, file, part * 65536, true, &mut bytes)?;
    }
    Ok(())
}

/// Makes the calls with the numbers below `count`, and answers how many were refused.
pub fn repeat<T: Turns>(
    alloc: Global,
    turns: &mut T,
    file: FileId,
    kind: &Kind,
    count: u64,
    bytes: &mut [u8],
) -> u64
where
    T::Post: Fresh,
    requires can { CanCall (T.standing turns.old) file.stream }
    ensures goes_on { WentOn (T.standing turns.old) (T.standing turns.new) }
{
    let mut refused: u64 = 0;
    for number in 0..count {
        if act(alloc, turns, file, kind, number, bytes).is_err() {
            refused = refused.saturating_add(1);
        }
    }
    refused
}

/// Makes the call with a number.
fn act<T: Turns>(
    alloc: Global,
    turns: &mut T,
    file: FileId,
    kind: &Kind,
    number: u64,
    bytes: &mut [u8],
) -> Result<(), CcError>
where
    T::Post: Fresh,
    requires can { CanCall (T.standing turns.old) file.stream }
    ensures goes_on { WentOn (T.standing turns.old) (T.standing turns.new) }
{
    let at = kind.place(number);
    match kind.act {
        Act::Read | Act::Evict => told(copy_read(alloc, turns, file, at, true, bytes)),
        Act::Write => copy_write(alloc, turns, file, at, bytes),
        Act::Map => map(alloc, turns, file, at, bytes),
        Act::Pin => pin(alloc, turns, file, at, bytes),
        Act::Change => change(alloc, turns, file, at, bytes),
        Act::Flush(pieces) => write_and_flush(alloc, turns, file, pieces, bytes),
        Act::NoncachedRead => noncached(noncached_read(alloc, turns, file, at, bytes)),
        Act::NoncachedWrite => noncached(noncached_write(alloc, turns, file, at, bytes)),
        Act::Tick => write_and_tick(alloc, turns, file, at, number, bytes),
        Act::Mix => mix(alloc, turns, file, number, bytes),
        Act::ReadAhead => Ok(()),
    }
}

/// Whether a call that answers a number was done.
pub fn told(answer: Result<usize, CcError>) -> Result<(), CcError> {
    answer?;
    Ok(())
}

/// The same of a noncached one.
pub fn noncached(answer: Result<usize, NcError>) -> Result<(), CcError> {
    match answer {
        Ok(_) => Ok(()),
        Err(error) => Err(error.cause),
    }
}

/// Maps bytes, reads them, and ends the map.
pub fn map<T: Turns>(
    alloc: Global,
    turns: &mut T,
    file: FileId,
    at: u64,
    bytes: &mut [u8],
) -> Result<(), CcError>
    requires can { CanCall (T.standing turns.old) file.stream }
    ensures goes_on { WentOn (T.standing turns.old) (T.standing turns.new) }
{
    let hold = map_data(alloc, turns, file, at, bytes.len() as u64)?;
    let answer = mapped_read(alloc, turns, &hold, at, bytes);
    unmap(alloc, turns, hold);
    answer
}

/// Pins bytes for all, reads them, and ends the pin.
fn pin<T: Turns>(
    alloc: Global,
    turns: &mut T,
    file: FileId,
    at: u64,
    bytes: &mut [u8],
) -> Result<(), CcError>
    requires can { CanCall (T.standing turns.old) file.stream }
    ensures goes_on { WentOn (T.standing turns.old) (T.standing turns.new) }
{
    let hold = pin_read(alloc, turns, file, at, bytes.len() as u64, false)?;
    let answer = pinned_read(alloc, turns, &hold, at, bytes);
    unpin(alloc, turns, hold);
    answer
}

/// Pins bytes for one, changes them, sets them dirty, and ends the pin.
pub fn change<T: Turns>(
    alloc: Global,
    turns: &mut T,
    file: FileId,
    at: u64,
    bytes: &[u8],
) -> Result<(), CcError>
    requires can { CanCall (T.standing turns.old) file.stream }
    ensures goes_on { WentOn (T.standing turns.old) (T.standing turns.new) }
{
    let hold = pin_read(alloc, turns, file, at, bytes.len() as u64, true)?;
    let written = pinned_write(alloc, turns, &hold, at, bytes);
    let stamped = set_dirty(alloc, turns, &hold, None);
    unpin(alloc, turns, hold);
    written.and(stamped)
}

/// Writes so many pieces, one behind the other, and flushes the stream.
fn write_and_flush<T: Turns>(
    alloc: Global,
    turns: &mut T,
    file: FileId,
    pieces: u32,
    bytes: &[u8],
) -> Result<(), CcError>
    requires can { CanCall (T.standing turns.old) file.stream }
    ensures goes_on { WentOn (T.standing turns.old) (T.standing turns.new) }
{
    for piece in 0..pieces {
        let at = u64::from(piece).saturating_mul(bytes.len() as u64);
        copy_write(alloc, turns, file, at, bytes)?;
    }
    flush(alloc, turns, file, None)
}

/// Writes bytes; each sixteenth time the lazy writer makes a tick behind that.
fn write_and_tick<T: Turns>(
    alloc: Global,
    turns: &mut T,
    file: FileId,
    at: u64,
    number: u64,
    bytes: &[u8],
) -> Result<(), CcError>
    requires can { CanCall (T.standing turns.old) file.stream }
    ensures goes_on { WentOn (T.standing turns.old) (T.standing turns.new) }
{
    copy_write(alloc, turns, file, at, bytes)?;
    if number % 16 == 15 {
        tick(alloc, turns)?;
    }
    Ok(())
}
