//! Repins: a further hold of a pin's bytes, which outlives the pin.

ghost use Rattle.std.specs.Prelude.{◌≡◌, ◌+◌, ◌<◌, ◌^◌};
ghost use Rattle.cc_entry.specs.Kinds.{is_pin, is_repin};
ghost use Rattle.cc_entry.specs.declared.call.Call.TheVariants as call;
ghost use Rattle.cc_calls.specs.Answers.{CanCall};
ghost use Rattle.cc_calls.specs.Held.{IsHolding, held_range};
ghost use Rattle.cc_calls.specs.Ends.{RepinEnds, UnpinEnds};

use crate::held::{Held, HoldHandle};
use crate::held_calls::end_hold;
use crate::pins::Pinned;
use crate::{call_at_once, flush};
use cc_entry::{Call, CcError, Span};
use cc_turns::Turns;
use cc_writes::Returned;
use std::alloc::Global;
use std::marker::Model;

/// The bytes of a pin, held once more. It bars no other pin, and owes no set-dirty. Dropping it leaves its hold open.
#[derive(Drop)]
pub struct Repinned {
    held: Held,
}

impl Model for Repinned {
    ghost use Rattle.cc_calls.specs.declared.held.Held.{Held};

    ghost Value = { Held };

    ghost view = { λ r. r.held };
}

impl HoldHandle for Repinned {
    ghost held = { λ repinned. repinned };

    fn held(&self) -> Held {
        self.held
    }
}

/// Holds the bytes of a pin once more (`CcRepinBcb`).
///
/// `JournalFull`, `NoMemory`.
pub fn repin<T: Turns>(alloc: Global, turns: &mut T, hold: &Pinned) -> Result<Repinned, CcError>
    requires can { CanCall (T.standing turns.old) hold.now.file.stream }
    requires holding { IsHolding (T.standing turns.old) is_pin hold.now }
    ensures ends { RepinEnds (T.standing turns.old) (T.standing turns.new) is_repin hold.now result }
{
    let held = hold.held();
    let call = Call::Repin { hold: held.id };
    match call_at_once(alloc, turns, held.file.stream(), call, &mut []) {
        Ok(told) => match told {
            Returned::Hold(id) => Ok(Repinned {
                held: Held { id, ..held },
            }),
            _ => unreachable!(),
        },
        Err(error) => Err(error),
    }
}

/// Ends a repin, and with write through flushes its bytes then (`CcUnpinRepinnedBcb`). The hold is spent whatever comes.
///
/// Without write through nothing refuses it; with it the refusals are those of [`flush`].
pub fn unpin_repinned<T: Turns>(
    alloc: Global,
    turns: &mut T,
    hold: Repinned,
    write_through: bool,
) -> Result<(), CcError>
    requires can { CanCall (T.standing turns.old) hold.file.stream }
    requires holding { IsHolding (T.standing turns.old) is_repin hold }
    ensures ends { UnpinEnds (T.standing turns.old) (T.standing turns.new) hold write_through result }
{
    let Repinned { held } = hold;
    end_hold(alloc, turns, held);
    if write_through {
        flush(alloc, turns, held.file, Some(span_of(&held)))
    } else {
        Ok(())
    }
}

// The span of what is held, which ends below 2^64.
fn span_of(held: &Held) -> Span
    requires below { held.now.at + held.now.len < 2 ^ 64 }
    ensures { result ≡ held_range held.now }
{
    Span::new(held.at, held.at + held.len).unwrap()
}
