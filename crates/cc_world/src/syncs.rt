//! What is kept of the good syncs of a stream that a pass made since its last call: the pages that were unsettled at the last
//! one. Fewer are unsettled later, so a flush by the pass may be done exactly where no page of its span is among them.

ghost use Rattle.std.specs.Prelude.{◌≡◌, ℕ, ◌<◌, ◌≤◌, true, List, [], ◌∷◌, IfOk, OnOk, MatchOption, None, Option, Some, length, vec_capacity, vec_len};
ghost use Rattle.std.specs.List.{list_any};
ghost use Rattle.cc_entry.specs.declared.call.Call.{Call};
ghost use Rattle.cc_entry.specs.declared.entry.Entry.{Entry};
ghost use Rattle.cc_entry.specs.declared.entry.Entry.TheVariants as entry;
ghost use Rattle.cc_entry.specs.declared.reply.Outcome.{Outcome};
ghost use Rattle.cc_model.specs.Flushed.{is_flushed, is_ok_sync_of};
ghost use Rattle.cc_model.specs.Passes.{up_to_call};
ghost use Rattle.cc_model.specs.Ranges.{span_has};
ghost use Rattle.cc_world.specs.Syncs.{AreUnsettled, SyncsStand, ends_row, good_sync, is_sync_row, may_flush, unsettled_at};

use cc_entry::{End, Entry, NoMemory, Span, StreamId};
use cc_events::span_has;
use cc_journal::{Journal, is_settled_since};
use std::alloc::Global;

/// A stream that a pass synced well since its last call.
#[derive(Drop)]
pub(crate) struct Synced {
    pass: u32,
    stream: StreamId,
    // The pages of which an unwritten touch came with the pass's last call, or before it, as the last such sync came.
    unsettled: Vec<u64>,
}

/// The streams that each pass synced well since its last call.
#[derive(Drop)]
pub(crate) struct Syncs {
    rows: Vec<Synced>,
}

impl Syncs {
    /// Of a run in which no pass synced.
    pub(crate) fn new(alloc: Global) -> Syncs
        ensures { SyncsStand [] result.rows.items }
    {
        Syncs {
            rows: Vec::new(alloc),
        }
    }

    /// Makes room for one row.
    pub(crate) fn reserve(&mut self) -> Result<(), NoMemory>
        ensures room { OnOk result (vec_len self.new.rows < vec_capacity self.new.rows) }
        ensures rows { self.new.rows.items ≡ self.old.rows.items }
    {
        self.rows.reserve(1).map_err(|_| NoMemory)
    }

    /// Whether a flush by a pass may be done. No span is the whole stream.
    pub(crate) fn is_flushed(&self, pass: u32, stream: StreamId, span: &Option<Span>) -> bool
        ensures { (past : List Entry) → SyncsStand past self.now.rows.items →
            result ≡ is_flushed past pass stream span.now }
    {
        may_flush(&self.rows, pass, stream, span)
    }

    /// Follows an entry. Where it is a good sync, these pages are unsettled.
    pub(crate) fn follow(&mut self, entry: &Entry, unsettled: Vec<u64>)
        requires room { (me s : ℕ) → is_ok_sync_of me s entry.now ≡ true → vec_len self.old.rows < vec_capacity self.old.rows }
        ensures { (past : List Entry) → ((me s : ℕ) → is_ok_sync_of me s entry.now ≡ true → AreUnsettled past me s unsettled.items) →
            SyncsStand past self.old.rows.items → SyncsStand (entry.now ∷ past) self.new.rows.items }
    {
        self.rows.retain(|row| !ends_row(entry, row));
        if let Some(row) = row_synced(entry, unsettled) {
            self.rows.push_reserved(row);
        }
    }

    /// Follows a call of a pass.
    pub(crate) fn follow_call(&mut self, pass: u32)
        ensures { (past : List Entry) (nth : ℕ) (stream : Option ℕ) (it : Call) (ended : Outcome) →
            SyncsStand past self.old.rows.items →
            SyncsStand (entry.Call pass nth stream it ended ∷ past) self.new.rows.items }
    {
        self.rows.retain(|row| row.pass != pass);
    }
}

/// The pages of a stream of which an unwritten touch is among so many first entries of the journal.
pub(crate) fn unsettled<Q>(
    alloc: Global,
    journal: &Journal<Q>,
    entries: u64,
    stream: StreamId,
) -> Result<Vec<u64>, NoMemory>
    ensures { IfOk result (λ pages. (me : ℕ) → entries ≡ length (up_to_call journal.now.entries me) →
        AreUnsettled journal.now.entries me stream pages.items) }
{
    let mut pages = Vec::new(alloc);
    for row in journal.dirty().rows() {
        if row.page.stream().number() == stream.number()
            && !is_settled_since(journal, row.page, entries)
        {
            pages.push(row.page.page()).map_err(|_| NoMemory)?;
        }
    }
    Ok(pages)
}

// Whether a flush by a pass may be done, as the rows tell it.
fn may_flush(rows: &[Synced], pass: u32, stream: StreamId, span: &Option<Span>) -> bool
    ensures { result ≡ may_flush (unsettled_at rows.now pass stream) span.now }
{
    for row in rows {
        if is_row_of(row, pass, stream) {
            return !has_page_of(&row.unsettled, span);
        }
    }
    false
}

// Whether a row is of a pass and a stream.
fn is_row_of(row: &Synced, pass: u32, stream: StreamId) -> bool
    ensures { result ≡ is_sync_row pass stream row.now }
{
    row.pass == pass && row.stream.number() == stream.number()
}

// The row of a good sync at which these pages are unsettled.
fn row_synced(entry: &Entry, unsettled: Vec<u64>) -> Option<Synced>
    ensures { MatchOption result (good_sync entry.now ≡ None) (λ row.
        (good_sync entry.now ≡ Some (row.pass, row.stream)) × (row.unsettled ≡ unsettled)) }
{
    match entry {
        Entry::Sync {
            pass,
            stream,
            how: End::Good,
        } => Some(Synced {
            pass: *pass,
            stream: *stream,
            unsettled,
        }),
        _ => None,
    }
}

// Whether an entry ends what a row says: it is a call of its pass, or a good sync of its stream by the pass.
fn ends_row(entry: &Entry, row: &Synced) -> bool
    ensures { result ≡ ends_row entry.now row.now }
{
    match entry {
        Entry::Call { pass, .. } => row.pass == *pass,
        Entry::Sync {
            pass,
            stream,
            how: End::Good,
        } => is_row_of(row, *pass, *stream),
        _ => false,
    }
}

// Whether one of these pages is of a span.
fn has_page_of(pages: &[u64], span: &Option<Span>) -> bool
    ensures { result ≡ list_any (span_has span.now) pages.now }
{
    for page in pages {
        if span_has(*span, u128::from(*page)) {
            return true;
        }
    }
    false
}
