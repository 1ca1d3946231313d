//! Edits of the rows that keep their order.

ghost use Rattle.std.specs.Prelude.{◌≡◌, ◌+◌, ◌<◌, ◌≤◌, true, None, Some, IfSome, IsSomeAnd, length, slice_get, filter, not};
ghost use Rattle.cc_dirty.specs.Order.{same_page, is_from, is_between, SplitsAt};
ghost use Rattle.cc_dirty.specs.Unwritten.{is_touched};
ghost use Rattle.cc_dirty.specs.Table.{row_of, KeepsOtherRows, Sound};

use crate::find::{first_between, first_from, place_of};
use crate::live::LiveRows;
use crate::row::{Row, same_page};
use cc_entry::{PageId, StreamId};

/// The place of a page among the rows, and its row there.
pub(crate) fn find(rows: &[Row], page: PageId) -> (usize, Option<Row>)
    requires { Sound rows.now }
    ensures row { result.1 ≡ row_of rows.now page }
    ensures split { SplitsAt rows.now page result.0 }
    ensures within { result.0 ≤ length rows.now }
    ensures at { IfSome result.1
        (λ r. (slice_get rows.now result.0 ≡ Some r) × (same_page r.page page ≡ true)) }
    ensures touched { IfSome result.1 (λ r. is_touched r ≡ true) }
    ensures numbered { page.stream < 16 }
{
    let stream = page.stream();
    // Its number is what says that it is below 16.
    let _number = stream.number();
    let place = place_of(rows, stream, page.page());
    if place == rows.len() {
        return (place, None);
    }
    let row = rows[place];
    if same_page(row.page, page) {
        (place, Some(row))
    } else {
        (place, None)
    }
}

/// Writes a page's row over the one that it has.
pub(crate) fn replace(rows: &mut LiveRows, place: usize, row: Row)
    requires sound { Sound rows.old.rows }
    requires split { SplitsAt rows.old.rows row.page place }
    requires at { IsSomeAnd (slice_get rows.old.rows place) (λ r. same_page r.page row.page ≡ true) }
    requires touched { is_touched row ≡ true }
    requires numbered { row.page.stream < 16 }
    ensures row { row_of rows.new.rows row.page ≡ Some row }
    ensures others { KeepsOtherRows rows.old.rows rows.new.rows row.page }
    ensures sound { Sound rows.new.rows }
    ensures len { length rows.new.rows ≡ length rows.old.rows }
    ensures capacity { rows.new.capacity ≡ rows.old.capacity }
{
    rows.set(place, row);
}

/// Puts in the row of a page that has none.
pub(crate) fn insert(rows: &mut LiveRows, place: usize, row: Row)
    requires sound { Sound rows.old.rows }
    requires split { SplitsAt rows.old.rows row.page place }
    requires within { place ≤ length rows.old.rows }
    requires absent { row_of rows.old.rows row.page ≡ None }
    requires touched { is_touched row ≡ true }
    requires numbered { row.page.stream < 16 }
    requires room { length rows.old.rows < rows.old.capacity }
    ensures row { row_of rows.new.rows row.page ≡ Some row }
    ensures others { KeepsOtherRows rows.old.rows rows.new.rows row.page }
    ensures sound { Sound rows.new.rows }
    ensures len { length rows.new.rows ≡ length rows.old.rows + 1 }
    ensures capacity { rows.new.capacity ≡ rows.old.capacity }
{
    rows.insert(place, row);
}

/// Takes out the row of a page.
pub(crate) fn remove(rows: &mut LiveRows, place: usize, page: PageId)
    requires sound { Sound rows.old.rows }
    requires split { SplitsAt rows.old.rows page place }
    requires at { IsSomeAnd (slice_get rows.old.rows place) (λ r. same_page r.page page ≡ true) }
    ensures row { row_of rows.new.rows page ≡ None }
    ensures others { KeepsOtherRows rows.old.rows rows.new.rows page }
    ensures sound { Sound rows.new.rows }
    ensures len { length rows.new.rows ≤ length rows.old.rows }
    ensures capacity { rows.new.capacity ≡ rows.old.capacity }
{
    rows.remove(place);
}

/// Takes out the rows of a stream's pages from this number on. Where there is none, it looks through no row.
pub(crate) fn drop_from(rows: &mut LiveRows, stream: StreamId, page: u64)
    requires { Sound rows.old.rows }
    ensures rows { rows.new.rows ≡ filter (λ r. not (is_from stream page r.page)) rows.old.rows }
    ensures len { length rows.new.rows ≤ length rows.old.rows }
    ensures capacity { rows.new.capacity ≡ rows.old.capacity }
{
    if first_from(rows.as_slice(), stream, page).is_some() {
        rows.drop_from(stream, page);
    }
}

/// Takes out the rows of a stream's pages from `from` up to, and without, `to`. Where there is none, it looks through no
/// row.
pub(crate) fn drop_between(rows: &mut LiveRows, stream: StreamId, from: u64, to: u64)
    requires { Sound rows.old.rows }
    ensures rows { rows.new.rows
        ≡ filter (λ r. not (is_between stream from to r.page)) rows.old.rows }
    ensures len { length rows.new.rows ≤ length rows.old.rows }
    ensures capacity { rows.new.capacity ≡ rows.old.capacity }
{
    if first_between(rows.as_slice(), stream, from, to).is_some() {
        rows.drop_between(stream, from, to);
    }
}
