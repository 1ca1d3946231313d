//! The rows of the pages that are dirty at the end of a run.

ghost use Rattle.std.specs.Prelude.{◌≡◌, IfOk, map, min, max};
ghost use Rattle.cc_entry.specs.Lsns.{joined};
ghost use Rattle.cc_run.specs.Rows.{printed_row};

use cc_dirty::Row;
use cc_entry::{Lsn, NoMemory};
use cc_print::TableRow;
use std::alloc::Global;

/// The rows of the dirty page table, as they are printed.
pub(crate) fn printed_rows(alloc: Global, rows: &[Row]) -> Result<Vec<TableRow>, NoMemory>
    ensures { IfOk result (λ printed. printed.items ≡ map printed_row rows.now) }
{
    let mut printed = Vec::with_capacity(alloc, rows.len())?;
    for row in rows {
        printed.push_reserved(printed_row(*row));
    }
    Ok(printed)
}

fn printed_row(row: Row) -> TableRow
    ensures { result ≡ printed_row row }
{
    let (oldest, newest) = match joined(row.begun.lsns, row.later.lsns) {
        None => (None, None),
        Some((oldest, newest)) => (Some(oldest), Some(newest)),
    };
    TableRow {
        page: row.page,
        oldest,
        newest,
    }
}

// The least and the greatest LSN of both.
fn joined(a: Option<(Lsn, Lsn)>, b: Option<(Lsn, Lsn)>) -> Option<(Lsn, Lsn)>
    ensures { result ≡ joined a b }
{
    match (a, b) {
        (None, others) => others,
        (Some(lsns), None) => Some(lsns),
        (Some((oldest, newest)), Some((older, newer))) => {
            Some((least(oldest, older), greatest(newest, newer)))
        }
    }
}

fn least(a: Lsn, b: Lsn) -> Lsn
    ensures { result ≡ min a b }
{
    if a.number() <= b.number() { a } else { b }
}

fn greatest(a: Lsn, b: Lsn) -> Lsn
    ensures { result ≡ max a b }
{
    if a.number() <= b.number() { b } else { a }
}
