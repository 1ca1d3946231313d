//! The stamped rows: those of a stream, and those of all streams with one log.

ghost use Rattle.std.specs.Prelude.{◌≡◌, None, IfOk, filter, filter_map, fold, min, max};
ghost use Rattle.cc_entry.specs.Lsns.{joined};
ghost use Rattle.cc_dirty.specs.Table.{is_row_of_stream};
ghost use Rattle.cc_model.specs.History.{history};
ghost use Rattle.cc_model.specs.Touches.{dirty_pages};
ghost use Rattle.cc_model.specs.Stamps.{lsns_over, dirty_table, is_log};
ghost use Rattle.cc_journal.specs.Stamped.{lsns_in, with_row, answer_for, answer_in};

use crate::Journal;
use cc_dirty::Row;
use cc_entry::{DirtyRow, Lsn, NoMemory, Rows, StreamId};
use std::alloc::Global;

/// The least and the greatest LSN stamped on the dirty pages of a stream and not yet written
/// (`CcGetLsnForFileObject`).
pub fn lsns<Q>(journal: &Journal<Q>, stream: StreamId) -> Option<(Lsn, Lsn)>
    ensures { let h = history journal.now.entries stream in result ≡ lsns_over h (dirty_pages h) }
{
    lsns_of_rows(journal.dirty().rows(), stream)
}

/// The dirty page table of a log (`CcGetDirtyPages`): a row for each dirty page with a stamp, of a stream with
/// this log, by stream and page.
pub fn dirty_table<Q>(alloc: Global, journal: &Journal<Q>, handle: u8) -> Result<Rows, NoMemory>
    ensures { IfOk result (λ rows. rows ≡ dirty_table journal.now.entries handle) }
{
    let rows = rows_of_log(alloc, journal, handle, journal.dirty().rows())?;
    Ok(Rows::from_vec(rows))
}

// The least and the greatest LSN of the rows of a stream.
fn lsns_of_rows(rows: &[Row], stream: StreamId) -> Option<(Lsn, Lsn)>
    ensures { result ≡ fold with_row None (filter (is_row_of_stream stream) rows.now) }
{
    rows.iter()
        .filter(|row| is_of(row, stream))
        .fold(None, |lsns, row| with_row(lsns, row))
}

// What the dirty page table of a log says of these rows.
fn rows_of_log<Q>(
    alloc: Global,
    journal: &Journal<Q>,
    handle: u8,
    rows: &[Row],
) -> Result<Vec<DirtyRow>, NoMemory>
    ensures { IfOk result (λ found. found.items ≡ filter_map (answer_in journal.now.entries handle) rows.now) }
{
    let found = rows
        .iter()
        .filter_map(|row| row_in(journal, handle, row))
        .collect(alloc)?;
    Ok(found)
}

// What it says of one of them.
fn row_in<Q>(journal: &Journal<Q>, handle: u8, row: &Row) -> Option<DirtyRow>
    ensures { result ≡ answer_in journal.now.entries handle row.now }
{
    if is_log(handle, journal.handle_of(row.page.stream())) {
        answer_for(row)
    } else {
        None
    }
}

// The row of a page that has a stamp.
fn answer_for(row: &Row) -> Option<DirtyRow>
    ensures { result ≡ answer_for row.now }
{
    let (oldest, newest) = lsns_in(row)?;
    Some(DirtyRow {
        page: row.page,
        oldest,
        newest,
    })
}

// Whether a log is the stream's.
fn is_log(handle: u8, of_stream: Option<u8>) -> bool
    ensures { result ≡ is_log handle of_stream }
{
    match of_stream {
        None => false,
        Some(log) => log == handle,
    }
}

// Whether a row is of a stream.
fn is_of(row: &Row, stream: StreamId) -> bool
    ensures { result ≡ is_row_of_stream stream row.now }
{
    row.page.stream().number() == stream.number()
}

// With the LSNs of a row.
fn with_row(lsns: Option<(Lsn, Lsn)>, row: &Row) -> Option<(Lsn, Lsn)>
    ensures { result ≡ with_row lsns row.now }
{
    joined(lsns, lsns_in(row))
}

// The LSNs of a row: of what an open transfer took, and of what was touched since.
fn lsns_in(row: &Row) -> Option<(Lsn, Lsn)>
    ensures { result ≡ lsns_in row.now }
{
    joined(row.begun.lsns, row.later.lsns)
}

// The least and the greatest LSN of both.
fn joined(a: Option<(Lsn, Lsn)>, b: Option<(Lsn, Lsn)>) -> Option<(Lsn, Lsn)>
    ensures { result ≡ joined a b }
{
    match (a, b) {
        (None, others) => others,
        (Some(lsns), None) => Some(lsns),
        (Some((oldest, newest)), Some((older, newer))) => {
            Some((least(oldest, older), greatest(newest, newer)))
        }
    }
}

fn least(a: Lsn, b: Lsn) -> Lsn
    ensures { result ≡ min a b }
{
    if a.number() <= b.number() { a } else { b }
}

fn greatest(a: Lsn, b: Lsn) -> Lsn
    ensures { result ≡ max a b }
{
    if a.number() <= b.number() { b } else { a }
}
