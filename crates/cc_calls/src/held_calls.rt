//! How a hold is made, used and ended.

ghost use Rattle.std.specs.Prelude.{◌≡◌, Bool, true, length, IsOk};
ghost use Rattle.cc_entry.specs.declared.hold.HoldKind.{HoldKind};
ghost use Rattle.cc_step.specs.Step.{asked_now};
ghost use Rattle.cc_writes.specs.Visits.{IsFiledNow};
ghost use Rattle.cc_calls.specs.Answers.{CanCall};
ghost use Rattle.cc_calls.specs.Held.{IsHolding};
ghost use Rattle.cc_calls.specs.Ends.{HeldReadEnds, HoldEnded, MakesHold, MakingEnds, UseEnds, fills, kind_made, writes_through};

use crate::held::Held;
use crate::{call_at_once, call_paged};
use cc_entry::{Call, CcError, FileId};
use cc_turns::Turns;
use cc_writes::Returned;
use std::alloc::Global;

/// Makes a call that makes a hold of so many bytes of a stream from a place on.
pub fn hold_range<T: Turns>(
    alloc: Global,
    turns: &mut T,
    file: FileId,
    at: u64,
    len: u64,
    call: Call,
) -> Result<Held, CcError>
    requires can { CanCall (T.standing turns.old) file.stream }
    requires makes { MakesHold call file at len }
    ensures ends { (of_kind : HoldKind → Bool) → of_kind (kind_made call) ≡ true →
        MakingEnds (T.standing turns.old) (T.standing turns.new) of_kind file at len call result }
{
    match call_paged(alloc, turns, file.stream(), call, &mut []) {
        Ok(told) => match told {
            Returned::Hold(id) => Ok(Held { file, id, at, len }),
            _ => unreachable!(),
        },
        Err(error) => Err(error),
    }
}

/// Makes a call that reads bytes through a hold, and fills all that is handed in.
pub fn read_hold<T: Turns>(
    alloc: Global,
    turns: &mut T,
    held: &Held,
    call: Call,
    out: &mut [u8],
) -> Result<(), CcError>
    requires can { CanCall (T.standing turns.old) held.now.file.stream }
    requires fills { fills call (length out.old) ≡ true }
    requires filed { IsFiledNow (T.standing turns.old) held.now.file.stream call }
    ensures ends { (of_kind : HoldKind → Bool) → IsHolding (T.standing turns.old) of_kind held.now →
        HeldReadEnds (T.standing turns.old) (T.standing turns.new) of_kind held.now call result out.old out.new }
{
    call_at_once(alloc, turns, held.file.stream(), call, out)?;
    Ok(())
}

/// Makes a call that changes bytes through a hold, or sets them dirty.
pub fn write_hold<T: Turns>(
    alloc: Global,
    turns: &mut T,
    held: &Held,
    call: Call,
) -> Result<(), CcError>
    requires can { CanCall (T.standing turns.old) held.now.file.stream }
    requires writes { writes_through call ≡ true }
    requires filed { IsFiledNow (T.standing turns.old) held.now.file.stream call }
    ensures ends { (of_kind : HoldKind → Bool) → IsHolding (T.standing turns.old) of_kind held.now →
        UseEnds (T.standing turns.old) (T.standing turns.new) of_kind held.now call result }
    ensures sure { asked_now (T.standing turns.old).seen held.now.file.stream call ≡ 0 → IsOk result }
{
    call_at_once(alloc, turns, held.file.stream(), call, &mut [])?;
    Ok(())
}

/// Ends a hold. Nothing refuses it, and it takes no room and no memory.
pub fn end_hold<T: Turns>(alloc: Global, turns: &mut T, held: Held)
    requires can { CanCall (T.standing turns.old) held.file.stream }
    requires holding { IsHolding (T.standing turns.old) (λ kind. true) held }
    ensures ends { HoldEnded (T.standing turns.old) (T.standing turns.new) held }
{
    let call = Call::EndHold { hold: held.id };
    match call_at_once(alloc, turns, held.file.stream(), call, &mut []) {
        Ok(_) => (),
        Err(_) => unreachable!(),
    }
}
