//! What is looked up among the holds.

ghost use Rattle.std.specs.Prelude.{◌≡◌};
ghost use Rattle.std.specs.List.{list_any};
ghost use Rattle.cc_entry.specs.Pages.{has_page, share_page};
ghost use Rattle.cc_holds.specs.Holds.{row_range, pin_conflicts, first_id};
ghost use Rattle.cc_holds.specs.Overlap.{ends_share_page};
ghost use Rattle.cc_holds.specs.Looks.{keeps_page, has_bytes};

use crate::KeptHold;
use crate::owed::is_pin;
use cc_entry::HoldRow;
use cc_events::range_has;

/// Whether some hold has the page.
pub(crate) fn any_keeps_page(holds: &[KeptHold], page: u64) -> bool
    ensures { result ≡ list_any (keeps_page page) holds.now }
{
    holds.iter().any(|hold| has_page(&hold.row, page))
}

fn has_page(row: &HoldRow, page: u64) -> bool
    ensures { result ≡ has_page (row_range row.now) page }
{
    let from = u128::from(row.at);
    range_has(from, from + u128::from(row.len), u128::from(page))
}

/// The least id of a hold that has a byte.
pub(crate) fn first_with_bytes(holds: &[KeptHold]) -> Option<u64>
    ensures { result ≡ first_id has_bytes holds.now }
{
    holds
        .iter()
        .find(|hold| hold.row.len > 0)
        .map(|hold| hold.row.id)
}

/// The least id of a pin that bars a pin of the bytes from `from` up to, and without, `to`.
pub(crate) fn first_in_the_way(
    holds: &[KeptHold],
    from: u128,
    to: u128,
    exclusive: bool,
) -> Option<u64>
    ensures { result ≡ first_id (pin_conflicts (record { from = from; to = to }) exclusive) holds.now }
{
    holds
        .iter()
        .find(|hold| {
            is_pin(hold.row.kind)
                && (exclusive || hold.row.exclusive)
                && shares_page(&hold.row, from, to)
        })
        .map(|hold| hold.row.id)
}

fn shares_page(row: &HoldRow, from: u128, to: u128) -> bool
    ensures { result ≡ share_page (row_range row.now) (record { from = from; to = to }) }
{
    let start = u128::from(row.at);
    let end = start + u128::from(row.len);
    ends_share_page(start, end, from, to)
}

// Whether the bytes from `from` to `to` and those from `start` to `end` have a page in common.
fn ends_share_page(from: u128, to: u128, start: u128, end: u128) -> bool
    ensures { result
        ≡ ends_share_page (record { from = from; to = to }) (record { from = start; to = end }) }
{
    from < to && start < end && from / 4096 <= (end - 1) / 4096 && start / 4096 <= (to - 1) / 4096
}
