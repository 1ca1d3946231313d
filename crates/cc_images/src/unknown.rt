//! The dirty pages whose image is not known.

ghost use Rattle.std.specs.Prelude.{◌≡◌, ◌==◌, ◌&&◌, Option};
ghost use Rattle.std.specs.List.{find};
ghost use Rattle.std.specs.Option.{option_map};
ghost use Rattle.cc_dirty.specs.declared.row.Row.{Row};
ghost use Rattle.cc_model.specs.Ranges.{span_has};
ghost use Rattle.cc_images.specs.PageSet.{is_in_set};

use crate::page_set::PageSet;
use cc_dirty::Row;
use cc_entry::{Span, StreamId};
use cc_events::span_has;

/// The first dirty page of a stream's span that is among these.
pub(crate) fn first_of(
    pages: &PageSet,
    dirty: &[Row],
    stream: StreamId,
    span: Option<Span>,
) -> Option<u64>
    ensures { result ≡ option_map (λ (row : Row). row.page.page) (find (λ row. row.page.stream == stream
        && (span_has span row.page.page && is_in_set row.page.page pages.now)) dirty.now) }
{
    dirty
        .iter()
        .find(|row| is_of(row, pages, stream, span))
        .map(|row| row.page.page())
}

// Whether a row is of a page of the stream's span that is among these.
fn is_of(row: &Row, pages: &PageSet, stream: StreamId, span: Option<Span>) -> bool
    ensures { result ≡ (row.now.page.stream == stream
        && (span_has span row.now.page.page && is_in_set row.now.page.page pages.now)) }
{
    let page = row.page.page();
    row.page.stream().number() == stream.number()
        && span_has(span, u128::from(page))
        && pages.contains(page)
}
