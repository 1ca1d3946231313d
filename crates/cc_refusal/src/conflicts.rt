//! Reasons for a refusal that lie in open holds.

ghost use Rattle.std.specs.Prelude.{◌≡◌, ℕ, not, ◌&&◌, ◌==◌, List};
ghost use Rattle.std.specs.List.{list_any, range_with_len};
ghost use Rattle.cc_entry.specs.Pages.{whole_range};
ghost use Rattle.cc_model.specs.Numbers.{is_empty, without};
ghost use Rattle.cc_model.specs.History.{Effect};
ghost use Rattle.cc_model.specs.Objects.{objects};
ghost use Rattle.cc_model.specs.Holds.{holds_of, hold_at, range_held};
ghost use Rattle.cc_model.specs.Conflicts.{held, held_by, busy, busy_by, pin_in_the_way};
ghost use Rattle.std.specs.Option.{option_map};
ghost use Rattle.cc_stream.specs.Stream.{StreamStands, is_open_in};
ghost use Rattle.cc_holds.specs.Stands.{HoldsStand};

use crate::known::Known;
use cc_entry::{Call, CcError};
use cc_holds::OpenHolds;
use cc_stream::StreamState;

// A refusal by a hold.
fn held_by(id: Option<u64>) -> Option<CcError>
    ensures { result ≡ held_by id }
{
    match id {
        Some(id) => Some(CcError::Held { id }),
        None => None,
    }
}

// A refusal by a pin.
fn busy_by(id: Option<u64>) -> Option<CcError>
    ensures { result ≡ busy_by id }
{
    match id {
        Some(id) => Some(CcError::Busy { id }),
        None => None,
    }
}

// Whether an object but this one is open.
fn has_others(state: &StreamState, object: u8) -> bool
    ensures { (h : List Effect) → StreamStands h state.now →
        result ≡ not (is_empty (without object (objects h))) }
{
    any_other(state, object)
}

// The same, by the flags of all objects.
fn any_other(state: &StreamState, object: u8) -> bool
    ensures { result
        ≡ list_any (λ n. not (object == n) && is_open_in state.now.opened n) (range_with_len 0 16) }
{
    (0..16_u8).any(|other| object != other && state.is_open(other))
}

/// The refusal of a call that open holds bar: a set of sizes, the last uninitialise, a purge, a discard.
pub(crate) fn by_holds(known: &Known, call: &Call) -> Option<CcError>
    ensures { (h : List Effect) → StreamStands h known.now.state.now → HoldsStand h known.now.holds.now →
        result ≡ held h call.now }
{
    match call {
        Call::SetSizes { size, .. } => held_by(known.holds.first_past(*size)),
        Call::Uninitialise { file, .. } => {
            if has_others(known.state, file.object()) {
                None
            } else {
                held_by(known.holds.first())
            }
        }
        Call::Purge { span, .. } | Call::Discard { span, .. } => {
            held_by(known.holds.first_with_page_of(*span))
        }
        _ => None,
    }
}

// The least id of a pin that bars a pin of bytes.
fn pin_at(holds: &OpenHolds, at: u64, len: u64, exclusive: bool) -> Option<u64>
    ensures { (h : List Effect) → HoldsStand h holds.now →
        result ≡ pin_in_the_way (holds_of h) (Some (whole_range at len)) exclusive }
{
    let from = u128::from(at);
    holds.pin_in_bytes(from, from + u128::from(len), exclusive)
}

// The least id of a pin that bars a pin of the range of an open hold.
fn pin_over(holds: &OpenHolds, id: u64, exclusive: bool) -> Option<u64>
    ensures { (h : List Effect) → HoldsStand h holds.now →
        result ≡ pin_in_the_way (holds_of h) (option_map range_held (hold_at (holds_of h) id)) exclusive }
{
    match holds.get(id) {
        Some(row) => pin_at(holds, row.at, row.len, exclusive),
        None => None,
    }
}

/// The refusal of a pin that another bars, or of a write of a page to which a pin owes a stamp.
pub(crate) fn by_pins(holds: &OpenHolds, call: &Call) -> Option<CcError>
    ensures { (h : List Effect) → HoldsStand h holds.now → result ≡ busy (holds_of h) call.now }
{
    match call {
        Call::PinRead {
            at,
            len,
            exclusive,
            ..
        }
        | Call::PreparePin {
            at,
            len,
            exclusive,
            ..
        } => busy_by(pin_at(holds, *at, *len, *exclusive)),
        Call::PinMapped { hold, exclusive } => busy_by(pin_over(holds, *hold, *exclusive)),
        Call::Flush { span, .. } => busy_by(holds.pin_that_owes(*span)),
        Call::NcStore { page, .. } | Call::NcWrite { page, .. } => busy_by(holds.first_owing(
            *page,
        )),
        _ => None,
    }
}
