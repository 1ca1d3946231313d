//! Where the first hold stands that passes a test; by binary search, where the test is of its id.

ghost use Rattle.std.specs.Prelude.{◌≡◌, ◌≤◌, nat_lt, length, true};
ghost use Rattle.std.specs.List.{position_or_len};
ghost use Rattle.std.specs.List.Sorted.{IsNonDecreasingBy};
ghost use Rattle.cc_holds.specs.Holds.{hold_overlaps, pin_conflicts, is_unstamped_through, ends_past, first_id, has_id};
ghost use Rattle.cc_entry.specs.Kinds.{is_pin};

use crate::holds::KeptHold;
use crate::ranges::{end_of, overlaps};
use cc_entry::{HoldKind, Span};

/// The place of the hold of an id, the length where there is none.
pub(crate) fn place_of(holds: &[KeptHold], id: u64) -> usize
    requires { IsNonDecreasingBy (λ h. h.row.id) holds.now }
    ensures value { result ≡ position_or_len (has_id id) holds.now }
    ensures within { result ≤ length holds.now }
{
    let place = holds.partition_point(|hold| hold.row.id < id);
    if place == holds.len() {
        return place;
    }
    let hold = &holds[place];
    if hold.row.id == id {
        place
    } else {
        holds.len()
    }
}

/// The place before the first hold of a greater id.
pub(crate) fn place_after(holds: &[KeptHold], id: u64) -> usize
    requires { IsNonDecreasingBy (λ h. h.row.id) holds.now }
    ensures value { result ≡ position_or_len (λ h. nat_lt id h.row.id) holds.now }
    ensures within { result ≤ length holds.now }
{
    holds.partition_point(|hold| hold.row.id <= id)
}

pub(crate) fn first_of(holds: &[KeptHold]) -> Option<u64>
    ensures { result ≡ first_id (λ _. true) holds.now }
{
    holds.iter().next().map(|hold| hold.row.id)
}

pub(crate) fn first_overlapping(holds: &[KeptHold], span: Span) -> Option<u64>
    ensures { result ≡ first_id (hold_overlaps span) holds.now }
{
    holds
        .iter()
        .find(|hold| overlaps(&hold.row, span))
        .map(|hold| hold.row.id)
}

pub(crate) fn first_conflict(holds: &[KeptHold], span: Span, exclusive: bool) -> Option<u64>
    ensures { result ≡ first_id (pin_conflicts span exclusive) holds.now }
{
    holds
        .iter()
        .find(|hold| {
            is_pin(hold.row.kind) && (exclusive || hold.row.exclusive) && overlaps(&hold.row, span)
        })
        .map(|hold| hold.row.id)
}

pub(crate) fn first_unstamped(holds: &[KeptHold], page: u64) -> Option<u64>
    ensures { result ≡ first_id (is_unstamped_through page) holds.now }
{
    holds
        .iter()
        .find(|hold| is_pin(hold.row.kind) && hold.touched.contains(page))
        .map(|hold| hold.row.id)
}

pub(crate) fn first_past(holds: &[KeptHold], size: u64) -> Option<u64>
    ensures { result ≡ first_id (ends_past size) holds.now }
{
    let size = u128::from(size);
    holds
        .iter()
        .find(|hold| size < end_of(&hold.row))
        .map(|hold| hold.row.id)
}

fn is_pin(kind: HoldKind) -> bool
    ensures { result ≡ is_pin kind }
{
    matches!(kind, HoldKind::Pin)
}
