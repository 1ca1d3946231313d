//! A mix of calls, drawn from their numbers: copies, holds, evictions, locks, deferred writes, flushes, ticks, sizes and a log.

ghost use Rattle.std.specs.Prelude.{◌≡◌, ◌≤◌, length};
ghost use Rattle.cc_calls.specs.Answers.{CanCall};
ghost use Rattle.cc_calls.specs.Pages.{WentOn};

use crate::calls::{change, map, noncached, told};
use crate::devices::Fresh;
use cc_calls::{
    can_i_write, copy_read, copy_write, defer, file_state, flush, post_next, purge, set_file_sizes,
    tick, zero_data,
};
use cc_entry::{CcError, FileId, Span};
use cc_ranges::{noncached_read, noncached_write};
use cc_shim::{lock_range, unlock_range, update};
use cc_turns::Turns;
use std::alloc::Global;

/// How many bytes of the stream the mix is about: 4 MiB.
const SIZE: u64 = 4194304;

/// A number that looks like chance, of another one.
fn drawn(number: u64) -> u64 {
    let first = number.wrapping_add(1).wrapping_mul(0x9E37_79B9_7F4A_7C15);
    let second = (first ^ (first >> 30)).wrapping_mul(0xBF58_476D_1CE4_E5B9);
    let third = (second ^ (second >> 27)).wrapping_mul(0x94D0_49BB_1331_11EB);
    third ^ (third >> 31)
}

/// Makes the call with a number, on one page of the stream, or on a block of 64.
pub fn mix<T: Turns>(
    alloc: Global,
    turns: &mut T,
    file: FileId,
    number: u64,
    bytes: &mut [u8],
) -> Result<(), CcError>
where
    T::Post: Fresh,
    requires can { CanCall (T.standing turns.old) file.stream }
    ensures goes_on { WentOn (T.standing turns.old) (T.standing turns.new) }
{
    let draw = drawn(number);
    let at = (draw >> 8) % (SIZE / 4096) * 4096;
    match draw % 32 {
        0..=7 => told(copy_read(alloc, turns, file, at, true, bytes)),
        8..=12 => copy_write(alloc, turns, file, at, bytes),
        13..=14 => map(alloc, turns, file, at, bytes),
        15..=16 => change(alloc, turns, file, at, bytes),
        17..=18 => lock(turns, file, at),
        19..=21 => ask(alloc, turns, file),
        22 => post(turns, file),
        23 => logged(alloc, turns, file, at, bytes),
        24 => zero_and_flush(alloc, turns, file, block_of(at)),
        25 => purge(alloc, turns, file, Some(block_of(at))),
        26 => beat(alloc, turns, file),
        27 => resize(alloc, turns, file, at),
        28 => noncached(noncached_read(alloc, turns, file, at, bytes)),
        29 => noncached(noncached_write(alloc, turns, file, at, bytes)),
        _ => state(alloc, turns, file),
    }
}

/// The view block of a place.
fn block_of(at: u64) -> Span
    requires { at ≤ 4194304 }
{
    let block = at / 262144;
    Span::new(block * 262144, block * 262144 + 262144).unwrap()
}

/// Locks the page of a place and ends the lock.
fn lock<T: Turns>(turns: &mut T, file: FileId, at: u64) -> Result<(), CcError>
    requires place { at ≤ 4194304 }
    requires can { CanCall (T.standing turns.old) file.stream }
    ensures goes_on { WentOn (T.standing turns.old) (T.standing turns.new) }
{
    let span = Span::new(at, at + 4096).unwrap();
    let id = lock_range(turns, file, span, true)?;
    unlock_range(turns, file, id)?;
    Ok(())
}

/// Asks whether a write of a block may go, and defers it where it may not.
fn ask<T: Turns>(alloc: Global, turns: &mut T, file: FileId) -> Result<(), CcError>
where
    T::Post: Fresh,
    requires can { CanCall (T.standing turns.old) file.stream }
    ensures goes_on { WentOn (T.standing turns.old) (T.standing turns.new) }
{
    if can_i_write(alloc, turns, file, 262144)? {
        return Ok(());
    }
    match defer(turns, file, 4096, false, T::Post::fresh()) {
        Ok(_) => Ok(()),
        Err((_, error)) => Err(error),
    }
}

/// Posts the first deferred write, where one may go.
fn post<T: Turns>(turns: &mut T, file: FileId) -> Result<(), CcError>
    requires can { CanCall (T.standing turns.old) file.stream }
    ensures goes_on { WentOn (T.standing turns.old) (T.standing turns.new) }
{
    post_next(turns)?;
    Ok(())
}

/// Changes the front of a page behind a record of that in the log.
fn logged<T: Turns>(
    alloc: Global,
    turns: &mut T,
    file: FileId,
    at: u64,
    bytes: &[u8],
) -> Result<(), CcError>
    requires can { CanCall (T.standing turns.old) file.stream }
    ensures goes_on { WentOn (T.standing turns.old) (T.standing turns.new) }
{
    update(alloc, turns, file, at, bytes)?;
    Ok(())
}

/// Sets a block to zero and flushes it.
fn zero_and_flush<T: Turns>(
    alloc: Global,
    turns: &mut T,
    file: FileId,
    block: Span,
) -> Result<(), CcError>
    requires can { CanCall (T.standing turns.old) file.stream }
    ensures goes_on { WentOn (T.standing turns.old) (T.standing turns.new) }
{
    zero_data(alloc, turns, file, block)?;
    flush(alloc, turns, file, Some(block))
}

/// One tick of the lazy writer.
fn beat<T: Turns>(alloc: Global, turns: &mut T, file: FileId) -> Result<(), CcError>
    requires can { CanCall (T.standing turns.old) file.stream }
    ensures goes_on { WentOn (T.standing turns.old) (T.standing turns.new) }
{
    tick(alloc, turns)?;
    Ok(())
}

/// Sets the size past the bytes that the mix is about.
fn resize<T: Turns>(alloc: Global, turns: &mut T, file: FileId, at: u64) -> Result<(), CcError>
    requires place { at ≤ 4194304 }
    requires can { CanCall (T.standing turns.old) file.stream }
    ensures goes_on { WentOn (T.standing turns.old) (T.standing turns.new) }
{
    set_file_sizes(alloc, turns, file, 2 * SIZE, SIZE + at)
}

/// Asks for the sizes.
fn state<T: Turns>(alloc: Global, turns: &mut T, file: FileId) -> Result<(), CcError>
    requires can { CanCall (T.standing turns.old) file.stream }
    ensures goes_on { WentOn (T.standing turns.old) (T.standing turns.new) }
{
    file_state(alloc, turns, file)?;
    Ok(())
}
