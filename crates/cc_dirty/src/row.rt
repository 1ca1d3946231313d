//! A row of the dirty page table: what a page has unwritten, before its transfer began and since.

ghost use Rattle.std.specs.Prelude.{◌≡◌, min, max};
ghost use Rattle.cc_entry.specs.Lsns.{joined as joined_lsns};
ghost use Rattle.cc_dirty.specs.Unwritten.{lower};
ghost use Rattle.cc_dirty.specs.Order.{precedes, same_page, is_from, is_between};

use cc_entry::{Lsn, PageId, StreamId};

/// What is unwritten of a page: the place of its oldest touch, where it was touched, and the least and greatest LSN of its
/// stamps.
#[derive(Clone, Copy)]
pub struct Unwritten {
    pub oldest: Option<u64>,
    pub lsns: Option<(Lsn, Lsn)>,
}

/// A page that is dirty: what an open WriteBegin took of it, and what was touched since.
#[derive(Clone, Copy)]
pub struct Row {
    pub page: PageId,
    pub begun: Unwritten,
    pub later: Unwritten,
}

impl Unwritten {
    ghost use Rattle.std.specs.Prelude.{◌≡◌};
    ghost use Rattle.cc_dirty.specs.Unwritten.{nothing_unwritten, joined_unwritten, with_touch};

    fn nothing() -> Unwritten
        ensures { result ≡ nothing_unwritten }
    {
        Unwritten {
            oldest: None,
            lsns: None,
        }
    }

    fn joined(self, other: Unwritten) -> Unwritten
        ensures { result ≡ joined_unwritten self other }
    {
        Unwritten {
            oldest: lower(self.oldest, other.oldest),
            lsns: joined_lsns(self.lsns, other.lsns),
        }
    }

    fn with_touch(self, place: u64, lsn: Option<Lsn>) -> Unwritten
        ensures { result ≡ with_touch self place lsn }
    {
        Unwritten {
            oldest: lower(self.oldest, Some(place)),
            lsns: joined_lsns(self.lsns, lsn.map(|lsn| (lsn, lsn))),
        }
    }
}

impl Row {
    ghost use Rattle.std.specs.Prelude.{◌≡◌, None, Some};
    ghost use Rattle.cc_dirty.specs.Unwritten.{touched_row, begun_row, ended_row, oldest_unwritten_in, is_touched};

    pub(crate) fn new(page: PageId, place: u64, lsn: Option<Lsn>) -> Row
        ensures { result ≡ touched_row page place lsn None }
    {
        Row {
            page,
            begun: Unwritten::nothing(),
            later: Unwritten::nothing().with_touch(place, lsn),
        }
    }

    pub(crate) fn touched(self, place: u64, lsn: Option<Lsn>) -> Row
        ensures { result ≡ touched_row self.page place lsn (Some self) }
    {
        Row {
            later: self.later.with_touch(place, lsn),
            ..self
        }
    }

    pub(crate) fn begun(self) -> Row
        ensures { result ≡ begun_row self }
    {
        Row {
            page: self.page,
            begun: self.begun.joined(self.later),
            later: Unwritten::nothing(),
        }
    }

    pub(crate) fn ended(self, ok: bool) -> Row
        ensures { result ≡ ended_row ok self }
    {
        let later = if ok {
            self.later
        } else {
            self.begun.joined(self.later)
        };
        Row {
            page: self.page,
            begun: Unwritten::nothing(),
            later,
        }
    }

    /// The place of the oldest touch of the page that is unwritten: one that a transfer under way took, or a later one.
    pub fn oldest(&self) -> Option<u64>
        ensures { result ≡ oldest_unwritten_in self.now }
    {
        lower(self.begun.oldest, self.later.oldest)
    }

    /// Whether any touch of the page is unwritten.
    pub fn is_touched(&self) -> bool
        ensures { result ≡ is_touched self.now }
    {
        self.oldest().is_some()
    }
}

// The lower of two places, where there are any.
fn lower(a: Option<u64>, b: Option<u64>) -> Option<u64>
    ensures { result ≡ lower a b }
{
    match (a, b) {
        (None, other) => other,
        (Some(place), None) => Some(place),
        (Some(place), Some(other)) => Some(place.min(other)),
    }
}

// The least and the greatest LSN of both.
fn joined_lsns(a: Option<(Lsn, Lsn)>, b: Option<(Lsn, Lsn)>) -> Option<(Lsn, Lsn)>
    ensures { result ≡ joined_lsns a b }
{
    match (a, b) {
        (None, others) => others,
        (Some(lsns), None) => Some(lsns),
        (Some((oldest, newest)), Some((older, newer))) => {
            Some((least(oldest, older), greatest(newest, newer)))
        }
    }
}

fn least(a: Lsn, b: Lsn) -> Lsn
    ensures { result ≡ min a b }
{
    if a.number() <= b.number() { a } else { b }
}

fn greatest(a: Lsn, b: Lsn) -> Lsn
    ensures { result ≡ max a b }
{
    if a.number() <= b.number() { b } else { a }
}

/// Whether two pages are the same.
pub(crate) fn same_page(a: PageId, b: PageId) -> bool
    ensures { result ≡ same_page a b }
{
    a.stream().number() == b.stream().number() && a.page() == b.page()
}

/// Whether a page stands before the one of this stream and number.
pub(crate) fn precedes(page: PageId, stream: StreamId, number: u64) -> bool
    ensures { result ≡ precedes page (record { stream = stream; page = number }) }
{
    let (own, other) = (page.stream().number(), stream.number());
    own < other || (own == other && page.page() < number)
}

/// Whether a page is of this stream and not below this number.
pub(crate) fn is_from(page: PageId, stream: StreamId, number: u64) -> bool
    ensures { result ≡ is_from stream number page }
{
    page.stream().number() == stream.number() && number <= page.page()
}

/// Whether a page is of this stream, from `from` up to, and without, `to`.
pub(crate) fn is_between(page: PageId, stream: StreamId, from: u64, to: u64) -> bool
    ensures { result ≡ is_between stream from to page }
{
    is_from(page, stream, from) && page.page() < to
}
