//! Pins of a stream's bytes, which are changed through them.

ghost use Rattle.std.specs.Prelude.{◌≡◌, true, length};
ghost use Rattle.cc_entry.specs.Kinds.{is_pin};
ghost use Rattle.cc_entry.specs.declared.call.Call.TheVariants as call;
ghost use Rattle.cc_calls.specs.Answers.{CanCall};
ghost use Rattle.cc_calls.specs.Held.{IsHolding, held_covers};
ghost use Rattle.cc_calls.specs.Ends.{HeldReadEnds, HoldEnded, MakingEnds, SetDirtyEnds, UseEnds};

use crate::held::{Held, HoldHandle};
use crate::held_calls::{end_hold, hold_range, read_hold, write_hold};
use cc_entry::{Bytes, Call, CcError, FileId, Lsn};
use cc_turns::Turns;
use std::alloc::Global;
use std::marker::Model;

/// Bytes of a stream that are pinned. Dropping it leaves its hold open.
#[derive(Drop)]
pub struct Pinned {
    held: Held,
}

impl Model for Pinned {
    ghost use Rattle.cc_calls.specs.declared.held.Held.{Held};

    ghost Value = { Held };

    ghost view = { λ p. p.held };
}

impl Pinned {
    // The pin of what is held.
    pub(crate) fn of(held: Held) -> Pinned
        ensures { result ≡ held }
    {
        Pinned { held }
    }
}

impl HoldHandle for Pinned {
    ghost held = { λ pinned. pinned };

    fn held(&self) -> Held {
        self.held
    }
}

/// Pins so many bytes of a stream from a place on, all of one view block, exclusive or shared (`CcPinRead`).
///
/// `NotCached`, `ViewBoundary`, `BeyondSize`, `Busy` (another pin has a page of it, and one of the two is exclusive),
/// `NoViews`, `ReadFault`, `WriteFault`, `LogFault`, `JournalFull`, `NoMemory`.
pub fn pin_read<T: Turns>(
    alloc: Global,
    turns: &mut T,
    file: FileId,
    at: u64,
    len: u64,
    exclusive: bool,
) -> Result<Pinned, CcError>
    requires can { CanCall (T.standing turns.old) file.stream }
    ensures ends { MakingEnds (T.standing turns.old) (T.standing turns.new) is_pin file at len
        (call.PinRead file at len exclusive) result }
{
    let call = Call::PinRead {
        file,
        at,
        len,
        exclusive,
    };
    match hold_range(alloc, turns, file, at, len, call) {
        Ok(held) => Ok(Pinned { held }),
        Err(error) => Err(error),
    }
}

/// Pins so many bytes of a stream that are to be written, and sets them to zero in the same step where that is asked
/// (`CcPreparePinWrite`).
///
/// As [`pin_read`], and `BeyondValid` where they are to be zero.
pub fn prepare_pin_write<T: Turns>(
    alloc: Global,
    turns: &mut T,
    file: FileId,
    at: u64,
    len: u64,
    zero: bool,
    exclusive: bool,
) -> Result<Pinned, CcError>
    requires can { CanCall (T.standing turns.old) file.stream }
    ensures ends { MakingEnds (T.standing turns.old) (T.standing turns.new) is_pin file at len
        (call.PreparePin file at len zero exclusive) result }
{
    let call = Call::PreparePin {
        file,
        at,
        len,
        zero,
        exclusive,
    };
    match hold_range(alloc, turns, file, at, len, call) {
        Ok(held) => Ok(Pinned { held }),
        Err(error) => Err(error),
    }
}

/// Reads pinned bytes from a place of the stream on, as many as `out` has. In Windows it is a read through the pointer
/// that the pin gave.
///
/// `JournalFull`, `NoMemory`.
pub fn pinned_read<T: Turns>(
    alloc: Global,
    turns: &mut T,
    hold: &Pinned,
    at: u64,
    out: &mut [u8],
) -> Result<(), CcError>
    requires can { CanCall (T.standing turns.old) hold.now.file.stream }
    requires holding { IsHolding (T.standing turns.old) is_pin hold.now }
    requires covers { held_covers hold.now at (length out.old) ≡ true }
    ensures ends { HeldReadEnds (T.standing turns.old) (T.standing turns.new) is_pin hold.now
        (call.PinnedRead hold.now.id at (length out.old)) result out.old out.new }
{
    let call = Call::PinnedRead {
        hold: hold.held.id,
        at,
        len: out.len() as u64,
    };
    read_hold(alloc, turns, &hold.held, call, out)
}

/// Writes into pinned bytes from a place of the stream on. The pages are dirty and Unstamped, so nobody writes them,
/// until the pin is set dirty; the room for that is taken here, unless the pin owes it already. In Windows it is a write
/// through the pointer that the pin gave.
///
/// `BeyondValid`, `JournalFull`, `NoMemory`.
pub fn pinned_write<T: Turns>(
    alloc: Global,
    turns: &mut T,
    hold: &Pinned,
    at: u64,
    piece: &[u8],
) -> Result<(), CcError>
    requires can { CanCall (T.standing turns.old) hold.now.file.stream }
    requires holding { IsHolding (T.standing turns.old) is_pin hold.now }
    requires covers { held_covers hold.now at (length piece.now) ≡ true }
    ensures ends { UseEnds (T.standing turns.old) (T.standing turns.new) is_pin hold.now
        (call.PinnedWrite hold.now.id at piece.now) result }
{
    let bytes = Bytes::of(alloc, piece)?;
    let call = Call::PinnedWrite {
        hold: hold.held.id,
        at,
        bytes,
    };
    write_hold(alloc, turns, &hold.held, call)
}

/// Makes all pages of a pin dirty, with an LSN where the caller logged the change (`CcSetDirtyPinnedData`). It can't
/// fail where the pin owes it: after a write through the pin, or a zeroing prepare, since its last one.
///
/// `JournalFull`, `NoMemory`.
pub fn set_dirty<T: Turns>(
    alloc: Global,
    turns: &mut T,
    hold: &Pinned,
    lsn: Option<Lsn>,
) -> Result<(), CcError>
    requires can { CanCall (T.standing turns.old) hold.now.file.stream }
    requires holding { IsHolding (T.standing turns.old) is_pin hold.now }
    ensures ends { SetDirtyEnds (T.standing turns.old) (T.standing turns.new) hold.now lsn result }
{
    let call = Call::SetDirty {
        hold: hold.held.id,
        lsn,
    };
    write_hold(alloc, turns, &hold.held, call)
}

/// Ends a pin (`CcUnpinData`). Nothing refuses it.
pub fn unpin<T: Turns>(alloc: Global, turns: &mut T, hold: Pinned)
    requires can { CanCall (T.standing turns.old) hold.file.stream }
    requires holding { IsHolding (T.standing turns.old) is_pin hold }
    ensures ends { HoldEnded (T.standing turns.old) (T.standing turns.new) hold }
{
    let Pinned { held } = hold;
    end_hold(alloc, turns, held);
}
