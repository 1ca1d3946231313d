//! The dirty page table at the end of a run.

ghost use Rattle.std.specs.Prelude.{◌≡◌, ◌++◌, OnOk, string_bytes};
ghost use Rattle.cc_print.specs.Text.{table_line};

use crate::words::{lsn_number, push_number_or_dash, push_page};
use cc_entry::{Lsn, PageId};
use cc_script::StreamLine;
use std::alloc::AllocError;

/// A dirty page, and the least and greatest LSN not yet written to it, where it is stamped.
#[derive(Clone, Copy)]
pub struct TableRow {
    pub page: PageId,
    pub oldest: Option<Lsn>,
    pub newest: Option<Lsn>,
}

/// The line of a dirty page.
pub(crate) fn push_table_line(
    text: &mut String,
    streams: &[StreamLine],
    row: &TableRow,
) -> Result<(), AllocError>
    ensures { OnOk result
        (string_bytes text.new ≡ string_bytes text.old ++ table_line streams.now row.now) }
{
    push_page(text, streams, row.page)?;
    text.push_str(" ")?;
    push_number_or_dash(text, lsn_number(row.oldest))?;
    text.push_str(" ")?;
    push_number_or_dash(text, lsn_number(row.newest))?;
    text.push_str("\n")
}
