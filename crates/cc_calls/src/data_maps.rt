//! Maps of a stream's bytes (`CcMapData`).

ghost use Rattle.std.specs.Prelude.{◌≡◌, true, length};
ghost use Rattle.cc_entry.specs.Kinds.{is_map};
ghost use Rattle.cc_entry.specs.declared.call.Call.TheVariants as call;
ghost use Rattle.cc_calls.specs.Answers.{CanCall};
ghost use Rattle.cc_calls.specs.Held.{IsHolding, held_covers};
ghost use Rattle.cc_calls.specs.Ends.{HeldReadEnds, HoldEnded, MakingEnds, PinMappedEnds};

use crate::call_at_once;
use crate::held::{Held, HoldHandle};
use crate::held_calls::{end_hold, hold_range, read_hold};
use crate::pins::Pinned;
use cc_entry::{Call, CcError, FileId};
use cc_turns::Turns;
use std::alloc::Global;
use std::marker::Model;

/// Bytes of a stream that are mapped. Dropping it leaves its hold open.
#[derive(Drop)]
pub struct Mapped {
    held: Held,
}

impl Model for Mapped {
    ghost use Rattle.cc_calls.specs.declared.held.Held.{Held};

    ghost Value = { Held };

    ghost view = { λ m. m.held };
}

impl HoldHandle for Mapped {
    ghost held = { λ mapped. mapped };

    fn held(&self) -> Held {
        self.held
    }
}

/// Maps so many bytes of a stream from a place on, all of one view block (`CcMapData`).
///
/// `NotCached`, `ViewBoundary`, `BeyondSize`, `NoViews`, `ReadFault`, `WriteFault`, `LogFault`, `JournalFull`,
/// `NoMemory`.
pub fn map_data<T: Turns>(
    alloc: Global,
    turns: &mut T,
    file: FileId,
    at: u64,
    len: u64,
) -> Result<Mapped, CcError>
    requires can { CanCall (T.standing turns.old) file.stream }
    ensures ends { MakingEnds (T.standing turns.old) (T.standing turns.new) is_map file at len (call.Map file at len) result }
{
    let call = Call::Map { file, at, len };
    match hold_range(alloc, turns, file, at, len, call) {
        Ok(held) => Ok(Mapped { held }),
        Err(error) => Err(error),
    }
}

/// Makes a map a pin, exclusive or shared (`CcPinMappedData`). The hold keeps its id. Where the call fails the map comes
/// back.
///
/// `Busy` (another pin has a page of it, and one of the two is exclusive), `JournalFull`, `NoMemory`.
pub fn pin_mapped<T: Turns>(
    alloc: Global,
    turns: &mut T,
    hold: Mapped,
    exclusive: bool,
) -> Result<Pinned, (Mapped, CcError)>
    requires can { CanCall (T.standing turns.old) hold.file.stream }
    requires holding { IsHolding (T.standing turns.old) is_map hold }
    ensures ends { PinMappedEnds (T.standing turns.old) (T.standing turns.new) hold exclusive result }
{
    let Mapped { held } = hold;
    let call = Call::PinMapped {
        hold: held.id,
        exclusive,
    };
    match call_at_once(alloc, turns, held.file.stream(), call, &mut []) {
        Ok(_) => Ok(Pinned::of(held)),
        Err(error) => Err((Mapped { held }, error)),
    }
}

/// Reads mapped bytes from a place of the stream on, as many as `out` has. In Windows it is a read through the pointer
/// that `CcMapData` gave.
///
/// `JournalFull`, `NoMemory`.
pub fn mapped_read<T: Turns>(
    alloc: Global,
    turns: &mut T,
    hold: &Mapped,
    at: u64,
    out: &mut [u8],
) -> Result<(), CcError>
    requires can { CanCall (T.standing turns.old) hold.now.file.stream }
    requires holding { IsHolding (T.standing turns.old) is_map hold.now }
    requires covers { held_covers hold.now at (length out.old) ≡ true }
    ensures ends { HeldReadEnds (T.standing turns.old) (T.standing turns.new) is_map hold.now
        (call.MappedRead hold.now.id at (length out.old)) result out.old out.new }
{
    let call = Call::MappedRead {
        hold: hold.held.id,
        at,
        len: out.len() as u64,
    };
    read_hold(alloc, turns, &hold.held, call, out)
}

/// Ends a map (`CcUnpinData`). Nothing refuses it.
pub fn unmap<T: Turns>(alloc: Global, turns: &mut T, hold: Mapped)
    requires can { CanCall (T.standing turns.old) hold.file.stream }
    requires holding { IsHolding (T.standing turns.old) is_map hold }
    ensures ends { HoldEnded (T.standing turns.old) (T.standing turns.new) hold }
{
    let Mapped { held } = hold;
    end_hold(alloc, turns, held);
}
