//! Ranges that share a page.

ghost use Rattle.std.specs.Prelude.{◌≡◌, ◌+◌, ◌↔◌, IsTrue};
ghost use Rattle.cc_entry.specs.Pages.{share_page};
ghost use Rattle.cc_holds.specs.Holds.{row_range};
ghost use Rattle.cc_holds.specs.Overlap.{ends_share_page, HaveBytesInOnePage};
ghost use Rattle.cc_holds.specs.Touched.{widened};

use cc_entry::{HoldRow, Span};

/// Bytes in a page.
const PAGE_SIZE: u128 = 4096;

/// Whether a hold and a span have bytes in one page.
pub fn overlaps(row: &HoldRow, span: Span) -> bool
    ensures value { result ≡ share_page (row_range row.now) span }
    ensures bytes { IsTrue result ↔ HaveBytesInOnePage (row_range row.now) span }
{
    share_page(u128::from(row.at), end_of(row), span.from(), span.to())
}

// Whether the bytes from `from` to `to` and those from `start` to `end` have a page in common.
fn share_page(from: u128, to: u128, start: u64, end: u64) -> bool
    ensures { result
        ≡ ends_share_page (record { from = from; to = to }) (record { from = start; to = end }) }
{
    let (start, end) = (u128::from(start), u128::from(end));
    from < to
        && start < end
        && from / PAGE_SIZE <= (end - 1) / PAGE_SIZE
        && start / PAGE_SIZE <= (to - 1) / PAGE_SIZE
}

// The byte after a hold's last one.
pub(crate) fn end_of(row: &HoldRow) -> u128
    ensures { result ≡ row.now.at + row.now.len }
{
    u128::from(row.at) + u128::from(row.len)
}

/// The span of what was written, with one more write.
pub(crate) fn widened(written: Option<Span>, span: Span) -> Option<Span>
    ensures { result ≡ widened written span }
{
    let Some(before) = written else {
        return Some(span);
    };
    Span::new(before.from().min(span.from()), before.to().max(span.to()))
}
