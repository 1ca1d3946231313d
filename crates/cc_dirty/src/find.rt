//! Where a page's row stands, and which is the first of a stream's pages from one on, by binary search.

ghost use Rattle.std.specs.Prelude.{◌≡◌, ◌≤◌, length, find};
ghost use Rattle.cc_dirty.specs.Order.{RowsAscend, SplitsAt, is_from, is_between};

use crate::row::{Row, is_between, is_from, precedes};
use cc_entry::StreamId;

/// The place of the first row that doesn't stand before the page of this stream and number.
pub(crate) fn place_of(rows: &[Row], stream: StreamId, number: u64) -> usize
    requires { RowsAscend rows.now }
    ensures split { SplitsAt rows.now (record { stream = stream; page = number }) result }
    ensures within { result ≤ length rows.now }
{
    let mut low = 0;
    let mut high = rows.len();
    while low < high {
        let middle = low + (high - low) / 2;
        if precedes(rows[middle].page, stream, number) {
            low = middle + 1;
        } else {
            high = middle;
        }
    }
    low
}

/// The first row of a stream's pages from this number on.
pub(crate) fn first_from(rows: &[Row], stream: StreamId, from: u64) -> Option<Row>
    requires { RowsAscend rows.now }
    ensures { result ≡ find (λ r. is_from stream from r.page) rows.now }
{
    let place = place_of(rows, stream, from);
    if place == rows.len() {
        return None;
    }
    let row = rows[place];
    if is_from(row.page, stream, from) {
        Some(row)
    } else {
        None
    }
}

/// The first row of a stream's pages from `from` up to, and without, `to`.
pub(crate) fn first_between(rows: &[Row], stream: StreamId, from: u64, to: u64) -> Option<Row>
    requires { RowsAscend rows.now }
    ensures { result ≡ find (λ r. is_between stream from to r.page) rows.now }
{
    let place = place_of(rows, stream, from);
    if place == rows.len() {
        return None;
    }
    let row = rows[place];
    if is_between(row.page, stream, from, to) {
        Some(row)
    } else {
        None
    }
}
