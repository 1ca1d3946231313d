//! The least page to which a stamp is owed.

ghost use Rattle.std.specs.Prelude.{◌≡◌, None, fold};
ghost use Rattle.cc_entry.specs.Kinds.{is_pin};
ghost use Rattle.cc_model.specs.Holds.{lesser};
ghost use Rattle.cc_holds.specs.Looks.{with_least, with_owed};

use crate::KeptHold;
use cc_entry::{HoldKind, Span};
use cc_events::span_has;

/// The least page of a span to which a pin owes a stamp.
pub(crate) fn least_owed(holds: &[KeptHold], span: &Option<Span>) -> Option<u64>
    ensures { result ≡ fold (with_owed span.now) None holds.now }
{
    let mut least = None;
    for hold in holds {
        least = with_owed(span, least, hold);
    }
    least
}

// The lesser of a page, where there is one, and of those of a span to which a pin owes a stamp.
fn with_owed(span: &Option<Span>, least: Option<u64>, hold: &KeptHold) -> Option<u64>
    ensures { result ≡ with_owed span.now least hold.now }
{
    if is_pin(hold.row.kind) {
        least_among(hold.touched.all(), span, least)
    } else {
        least
    }
}

// The lesser of a page, where there is one, and of those of a span among others.
fn least_among(pages: &[u64], span: &Option<Span>, other: Option<u64>) -> Option<u64>
    ensures { result ≡ fold (with_least span.now) other pages.now }
{
    let mut least = other;
    for page in pages {
        least = with_least(span, least, *page);
    }
    least
}

// The lesser of a page, where there is one, and of another, where that is of a span.
fn with_least(span: &Option<Span>, least: Option<u64>, page: u64) -> Option<u64>
    ensures { result ≡ with_least span.now least page }
{
    if span_has(*span, u128::from(page)) {
        lesser(page, least)
    } else {
        least
    }
}

// The lesser of a page and of another, where there is one.
fn lesser(page: u64, other: Option<u64>) -> Option<u64>
    ensures { result ≡ lesser page other }
{
    match other {
        Some(other) => Some(page.min(other)),
        None => Some(page),
    }
}

/// Whether a hold is a pin.
pub(crate) fn is_pin(kind: HoldKind) -> bool
    ensures { result ≡ is_pin kind }
{
    matches!(kind, HoldKind::Pin)
}
