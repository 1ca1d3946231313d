//! What an event does to the unwritten touches of a page.

ghost use Rattle.std.specs.Prelude.{◌≡◌};
ghost use Rattle.cc_model.specs.Ranges.{span_has};
ghost use Rattle.cc_entry.specs.Pages.{has_page};
ghost use Rattle.cc_model.specs.Sizes.{stored_range};
ghost use Rattle.cc_events.specs.Touchings.{cut_by, touch_if};

use cc_entry::{Lsn, Span};

/// What an event does to the touches of a page that are neither written nor cut.
#[derive(Clone, Copy)]
pub enum Touching {
    /// Nothing.
    Rests,
    /// A touch is added, with this LSN or without.
    Touches(Option<Lsn>),
    /// A size step or a discard takes the page away.
    Cuts,
    /// The page's transfer begins.
    Begins,
    /// The page's transfer ends ok.
    Ends,
}

/// What a size step does to a page, where there is one.
pub fn cut_at(to: Option<u64>, page: u128) -> Touching
    ensures { result ≡ cut_by to page }
{
    match to {
        Some(to) => {
            if (u128::from(to) + 4095) / 4096 <= page {
                Touching::Cuts
            } else {
                Touching::Rests
            }
        }
        None => Touching::Rests,
    }
}

/// What a touch with this LSN does to a page, where it has the page.
pub fn touch(has: bool, lsn: Option<Lsn>) -> Touching
    ensures { result ≡ touch_if has lsn }
{
    if has {
        Touching::Touches(lsn)
    } else {
        Touching::Rests
    }
}

/// Whether the range has a byte in the page.
pub fn range_has(from: u128, to: u128, page: u128) -> bool
    ensures { result ≡ has_page (record { from = from; to = to }) page }
{
    if from < to {
        from / 4096 <= page && page <= (to - 1) / 4096
    } else {
        false
    }
}

/// Whether a page is of a span, where none is the whole stream.
pub fn span_has(span: Option<Span>, page: u128) -> bool
    ensures { result ≡ span_has span page }
{
    match span {
        Some(span) => range_has(u128::from(span.from()), u128::from(span.to()), page),
        None => true,
    }
}

/// The end of a noncached page's bytes: that of the page or the size, 0 where it has none.
pub fn stored_end(page: u64, size: u64) -> u128
    ensures { result ≡ (stored_range page size).to }
{
    let from = 4096 * u128::from(page);
    let size = u128::from(size);
    if from < size {
        (from + 4096).min(size)
    } else {
        0
    }
}
