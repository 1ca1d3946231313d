//! The next dirty page of a span.

ghost use Rattle.std.specs.Prelude.{◌≡◌, ◌<◌, ◌^◌, find, IfSome};
ghost use Rattle.cc_model.specs.History.{history};
ghost use Rattle.cc_dirty.specs.Table.{Sound};
ghost use Rattle.cc_ranges.specs.Dirty.{IsNextDirty, is_of_span, pages_end};

use cc_dirty::{DirtyTable, Row};
use cc_entry::{Span, StreamId};
use cc_journal::Journal;

/// The least dirty page of a span of a stream, from a page on; of the whole stream where no span is said.
pub fn next_dirty<Q>(
    journal: &Journal<Q>,
    stream: StreamId,
    span: Option<Span>,
    from: u64,
) -> Option<u64>
    ensures next { IsNextDirty (history journal.now.entries stream) span from result }
    ensures numbered { IfSome result (λ page. page < 2 ^ 51) }
{
    match first_of_span(journal.dirty(), stream, span, from) {
        Some(row) => Some(row.page.page()),
        None => None,
    }
}

// The first row that is of the span, from a page on.
fn first_of_span(table: &DirtyTable, stream: StreamId, span: Option<Span>, from: u64) -> Option<Row>
    ensures first { result ≡ find (is_of_span stream span from) table.now.rows }
    ensures sound { Sound table.now.rows }
{
    match span {
        None => table.first_from(stream, from),
        Some(span) => {
            let first = from.max(span.from() / 4096);
            table.first_between(stream, first, pages_end(span))
        }
    }
}

// The number after that of the last page of a span, 0 where the span is empty.
fn pages_end(span: Span) -> u64
    ensures { result ≡ pages_end span }
{
    if span.from() < span.to() {
        (span.to() - 1) / 4096 + 1
    } else {
        0
    }
}
