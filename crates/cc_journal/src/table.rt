//! What a done call does to the rows of its stream's pages.

ghost use Rattle.std.specs.Prelude.{◌≡◌, ℕ, ◌+◌, ◌-◌, ◌*◌, ◌^◌, ◌<◌, ◌≤◌, ◌&&◌, nat_le, nat_lt, true, if◌then◌else◌, length, count_by, Option, Some};
ghost use Rattle.std.specs.List.{range_with_len};
ghost use Rattle.cc_entry.specs.Pages.{has_page};
ghost use Rattle.cc_dirty.specs.Table.{Table};
ghost use Rattle.cc_events.specs.declared.touching.Touching.TheVariants as touching;
ghost use Rattle.cc_events.specs.Touchings.{cut_by, touch_if};
ghost use Rattle.cc_model.specs.Ranges.{span_has};
ghost use Rattle.cc_journal.specs.Rows.{absent_count, absent_count_from, ChangesRows};

use cc_dirty::DirtyTable;
use cc_entry::{Lsn, PageId, Span, StreamId};

/// The pages of a range of bytes are touched at a place, with this LSN or without.
#[tactic(auto, using(crate::proofs::Touches::touches_range, crate::proofs::Touches::touches_nothing, crate::proofs::Touches::range_absent))]
pub(crate) fn touch_range(
    table: &mut DirtyTable,
    stream: StreamId,
    from: u128,
    to: u128,
    place: u64,
    lsn: Option<Lsn>,
)
    requires within { (p : ℕ) → has_page (record { from = from; to = to }) p ≡ true → p < 2 ^ 51 }
    requires room { length table.old.rows + absent_count table.old.rows stream (record { from = from; to = to })
        ≤ table.old.capacity }
    ensures rows { ChangesRows place stream (λ p. touch_if (has_page (record { from = from; to = to }) p) lsn)
        table.old.rows table.new.rows }
    ensures capacity { table.new.capacity ≡ table.old.capacity }
{
    if from < to {
        let first = (from / 4096) as u64;
        let last = ((to - 1) / 4096) as u64;
        touch_pages(table, stream, first, last + 1, place, &lsn);
    }
}

// The pages from one number up to, and without, another are touched.
#[tactic(auto, using(crate::proofs::Touches::touches_none, crate::proofs::Touches::touch_fits, crate::proofs::Touches::touch_step))]
fn touch_pages(
    table: &mut DirtyTable,
    stream: StreamId,
    from: u64,
    to: u64,
    place: u64,
    lsn: &Option<Lsn>,
)
    requires in_order { from ≤ to }
    requires within { to ≤ 2 ^ 51 }
    requires room { length table.old.rows + absent_count_from table.old.rows stream from (to - from) ≤ table.old.capacity }
    ensures rows { ChangesRows place stream (λ p. touch_if (nat_le from p && nat_lt p to) lsn.now) table.old.rows table.new.rows }
    ensures capacity { table.new.capacity ≡ table.old.capacity }
{
    for number in from..to {
        let page = PageId::new(stream, number).unwrap();
        table.touch(page, place, *lsn);
    }
}

/// A size step to `to` bytes cuts the pages that begin there or past it.
pub(crate) fn cut(table: &mut DirtyTable, stream: StreamId, to: u64)
    ensures rows { (place : ℕ) → ChangesRows place stream (cut_by (Some to)) table.old.rows table.new.rows }
    ensures capacity { table.new.capacity ≡ table.old.capacity }
{
    table.drop_from(stream, to.div_ceil(4096));
}

/// The pages of a span, where there is one, or all of them go unwritten.
pub(crate) fn discard(table: &mut DirtyTable, stream: StreamId, span: Option<Span>)
    ensures rows { (place : ℕ) → ChangesRows place stream (λ p. if span_has span p then touching.Cuts else touching.Rests)
        table.old.rows table.new.rows }
    ensures capacity { table.new.capacity ≡ table.old.capacity }
{
    match span {
        None => table.drop_from(stream, 0),
        Some(span) => {
            if span.from() < span.to() {
                let end = (span.to() - 1) / 4096 + 1;
                table.drop_span(stream, span.from() / 4096, end);
            }
        }
    }
}
