//! What is kept of the streams beside the entries: their state, the places of their open holds, and the dirty
//! page table.

ghost use Rattle.std.specs.Prelude.{◌≡◌, ℕ, suc, ◌+◌, ◌^◌, ◌<◌, ◌≤◌, [], ◌∷◌, true, false, Some, List, Option, OnOk, IfOk, length, slice_index_or};
ghost use Rattle.indexmap.specs.IndexMap.{spare};
ghost use Rattle.cc_entry.specs.declared.entry.Entry.{Entry};
ghost use Rattle.cc_entry.specs.declared.entry.Entry.TheVariants as entry;
ghost use Rattle.cc_entry.specs.declared.reply.Outcome.TheVariants as outcome;
ghost use Rattle.std.specs.List.{list_any};
ghost use Rattle.cc_entry.specs.declared.call.Call.TheVariants as call;
ghost use Rattle.cc_entry.specs.declared.reply.Reply.{Reply};
ghost use Rattle.cc_events.specs.Events.{event_of_act};
ghost use Rattle.cc_events.specs.Touchings.{touching_of};
ghost use Rattle.cc_model.specs.Acts.{act_of};
ghost use Rattle.cc_model.specs.Sizes.{ended_ok};
ghost use Rattle.cc_dirty.specs.Table.{Sound};
ghost use Rattle.cc_journal.specs.Rows.{ChangesRows};
ghost use Rattle.cc_model.specs.History.{Did, history};
ghost use Rattle.cc_model.specs.Cache.{views_of, views_taken, dirty_count, dirty_total, lazy_pages};
ghost use Rattle.cc_model.specs.Touches.{is_mapped};
ghost use Rattle.cc_stream.specs.Stream.{Stream, StreamStands};
ghost use Rattle.cc_journal.specs.AllStreams.{StreamsStandFor, HasRoomInStreams};
ghost use Rattle.cc_journal.specs.Streams.{HasRoomForRows, begins_below, is_left, state_in, KeepsTransfersIn, touched_range, hold_in_event, is_of_call, leaves_streams, is_written_behind, MarksWritten};
ghost use Rattle.cc_journal.specs.Places.{held_at};

use crate::places::HoldPlaces;
use crate::scans::{lazy_count, lazy_pages};
use crate::table::{cut, discard, touch_range};
use cc_dirty::DirtyTable;
use cc_entry::{Call, End, Entry, FileId, NoMemory, Outcome, PageId, Reply, StreamId};
use cc_events::{StreamEvent, act, holding_by, id_in, stored_end};
use cc_stream::StreamState;
use std::alloc::Global;

/// The dirty pages that a cache may have.
const MOST_DIRTY: u32 = 16384;

/// What is kept of the 16 streams. Their states stand in a box, so a move of the journal moves none of them.
#[derive(Drop)]
pub(crate) struct Streams {
    states: Box<[StreamState; 16]>,
    places: HoldPlaces,
    dirty: DirtyTable,
}

impl Streams {
    /// Streams of which nothing happened yet, with room for the rows of all dirty pages.
    pub(crate) fn new(alloc: Global) -> Result<Streams, NoMemory>
        ensures stands { IfOk result (λ s. StreamsStandFor [] s) }
        ensures capacity { IfOk result (λ s. 16384 ≤ s.dirty.capacity) }
        ensures empty { IfOk result (λ s. s.dirty.rows ≡ []) }
    {
        let mut dirty = DirtyTable::new(alloc);
        dirty.reserve(MOST_DIRTY)?;
        let Ok(states) = Box::new(alloc, [StreamState::new(); 16]) else {
            return Err(NoMemory);
        };
        Ok(Streams {
            states,
            places: HoldPlaces::new(alloc),
            dirty,
        })
    }

    /// What is kept of one stream beside its pages and holds.
    pub(crate) fn state(&self, stream: StreamId) -> &StreamState
        ensures is { (d : Stream) → result.now ≡ slice_index_or self.now.states.value stream d }
        ensures numbered { stream < 16 }
        ensures stands { (past : List Entry) → StreamsStandFor past self.now →
            StreamStands (history past stream) result.now }
    {
        &(*self.states)[usize::from(stream.number())]
    }

    /// The dirty page table.
    pub(crate) fn dirty(&self) -> &DirtyTable
        ensures { result.now ≡ self.now.dirty }
    {
        &self.dirty
    }

    /// Whether the stream has a shared map.
    pub(crate) fn is_mapped(&self, stream: StreamId) -> bool
        ensures { (past : List Entry) → StreamsStandFor past self.now → result ≡ is_mapped (history past stream) }
    {
        self.state(stream).has_objects() || self.dirty.total(stream) > 0
    }

    /// Whether the stream of a file object has a shared map after an uninitialise of the object: another one is
    /// open, or a page is dirty that the uninitialise does not cut.
    pub(crate) fn stays_mapped(&self, file: FileId, truncate: Option<u64>) -> bool
        ensures { (past : List Entry) (pass : ℕ) (reply : Reply) → StreamsStandFor past self.now →
            result ≡ is_mapped (Did pass (call.Uninitialise file truncate) reply ∷ history past file.stream) }
    {
        let stream = file.stream();
        let before = self.state(stream);
        let cut = before.truncation(file.object(), truncate);
        let mut after = *before;
        after.done(
            &Call::Uninitialise { file, truncate },
            self.is_mapped(stream),
        );
        after.has_objects() || self.has_dirty_left(stream, cut)
    }

    // Whether a page of the stream is dirty that a cut at a size, where there is one, leaves.
    fn has_dirty_left(&self, stream: StreamId, cut: Option<u64>) -> bool
        ensures left { result ≡ list_any (is_left stream cut) self.now.dirty.rows }
        ensures sound { Sound self.now.dirty.rows }
    {
        self.dirty.rows().iter().any(|row| row.page.stream() == stream
            && begins_below(row.page, cut))
    }

    /// How many pages are dirty.
    pub(crate) fn dirty_total(&self) -> usize
        ensures { (past : List Entry) → StreamsStandFor past self.now → result ≡ dirty_total past }
    {
        self.dirty.rows().len()
    }

    /// How many pages of a stream are dirty.
    pub(crate) fn dirty_count(&self, stream: StreamId) -> u32
        ensures { (past : List Entry) → StreamsStandFor past self.now → result ≡ dirty_count (history past stream) }
    {
        self.dirty.total(stream)
    }

    /// The dirty pages that the lazy writer looks at, by stream and page.
    pub(crate) fn lazy_pages(&self, alloc: Global) -> Result<Vec<PageId>, NoMemory>
        ensures { (past : List Entry) → StreamsStandFor past self.now →
            IfOk result (λ pages. pages.items ≡ lazy_pages past) }
    {
        lazy_pages(alloc, self.dirty.rows(), &self.marks())
    }

    /// How many of them there are.
    pub(crate) fn lazy_total(&self) -> usize
        ensures { (past : List Entry) → StreamsStandFor past self.now → result ≡ length (lazy_pages past) }
    {
        lazy_count(self.dirty.rows(), &self.marks())
    }

    /// The views that all mapped streams take, which the pool of 256 has.
    pub(crate) fn views_taken(&self) -> u16
        ensures { (past : List Entry) → StreamsStandFor past self.now → result ≡ views_taken past }
    {
        let mut taken = 0;
        for n in 0..16 {
            let stream = StreamId::new(n).unwrap();
            taken += self.views_of(stream);
        }
        taken
    }

    // The views that a stream takes: its quota, while it is mapped.
    fn views_of(&self, stream: StreamId) -> u16
        ensures views { (past : List Entry) → StreamsStandFor past self.now → result ≡ views_of (history past stream) }
        ensures most { result ≤ 255 }
    {
        // A stream never initialised has no quota, and its dirty pages need no count.
        let quota = u16::from(self.state(stream).quota());
        if quota == 0 {
            return 0;
        }
        if self.is_mapped(stream) { quota } else { 0 }
    }

    /// Whether the lazy writer looks at the pages of each stream.
    pub(crate) fn marks(&self) -> [bool; 16]
        ensures { (past : List Entry) → StreamsStandFor past self.now →
            MarksWritten past result }
    {
        let mut marks = [false; 16];
        for n in 0..16 {
            let stream = StreamId::new(n).unwrap();
            marks[usize::from(n)] = self.is_written_behind(stream);
        }
        marks
    }

    // Whether the lazy writer looks at the pages of a stream.
    fn is_written_behind(&self, stream: StreamId) -> bool
        ensures { (past : List Entry) → StreamsStandFor past self.now → result ≡ is_written_behind (history past stream) }
    {
        let state = self.state(stream);
        !state.is_temporary() && !state.has_no_write_behind()
    }

    /// Makes room for what so many entries may need.
    pub(crate) fn reserve(&mut self, entries: usize) -> Result<(), NoMemory>
        ensures room { OnOk result (entries ≤ spare self.new.places.places) }
        ensures no_less { spare self.old.places.places ≤ spare self.new.places.places }
        ensures same { self.new.states ≡ self.old.states }
        ensures dirty { self.new.dirty ≡ self.old.dirty }
        ensures places { self.new.places.places.entries ≡ self.old.places.places.entries }
    {
        self.places.reserve(entries)
    }

    /// Follows an entry, given its place in the journal.
    pub(crate) fn follow(&mut self, entry: &Entry, place: u64)
        requires places { 0 < spare self.old.places.places }
        requires rows { HasRoomInStreams self.old entry.now }
        ensures stands { (past : List Entry) → place ≡ suc (length past) → KeepsTransfersIn past entry.now →
            StreamsStandFor past self.old → StreamsStandFor (entry.now ∷ past) self.new }
        ensures capacity { self.new.dirty.capacity ≡ self.old.dirty.capacity }
        ensures room { spare self.old.places.places ≤ spare self.new.places.places + 1 }
        ensures sound { Sound self.new.dirty.rows }
    {
        self.step(entry, place);
        // The rows' order is what says how many there may be.
        let _rows = self.dirty.rows();
    }

    fn step(&mut self, entry: &Entry, place: u64)
        requires places { 0 < spare self.old.places.places }
        requires rows { HasRoomInStreams self.old entry.now }
        ensures stands { (past : List Entry) → place ≡ suc (length past) → KeepsTransfersIn past entry.now →
            StreamsStandFor past self.old → StreamsStandFor (entry.now ∷ past) self.new }
        ensures capacity { self.new.dirty.capacity ≡ self.old.dirty.capacity }
        ensures room { spare self.old.places.places ≤ spare self.new.places.places + 1 }
    {
        if !leaves_streams(entry) {
            self.change(entry, place);
        }
    }

    // Follows an entry that changes what is kept.
    fn change(&mut self, entry: &Entry, place: u64)
        requires changes { leaves_streams entry.now ≡ false }
        requires places { 0 < spare self.old.places.places }
        requires rows { HasRoomInStreams self.old entry.now }
        ensures stands { (past : List Entry) → place ≡ suc (length past) → KeepsTransfersIn past entry.now →
            StreamsStandFor past self.old → StreamsStandFor (entry.now ∷ past) self.new }
        ensures capacity { self.new.dirty.capacity ≡ self.old.dirty.capacity }
        ensures room { spare self.old.places.places ≤ spare self.new.places.places + 1 }
    {
        match entry {
            Entry::Call {
                stream,
                call,
                outcome,
                ..
            } => self.call_ended(stream, call, outcome, place),
            Entry::WriteBegin { page, .. } => self.dirty.begin(*page),
            Entry::WriteEnd { page, how, .. } => self.dirty.end(*page, is_good(*how)),
            Entry::PageIn { .. }
            | Entry::PageOut { .. }
            | Entry::FillFailed { .. }
            | Entry::Sync { .. }
            | Entry::Append { .. }
            | Entry::Flushed { .. }
            | Entry::LogFailed { .. }
            | Entry::Defer { .. }
            | Entry::Posted { .. }
            | Entry::Scan { .. }
            | Entry::Record { .. }
            | Entry::RecordFailed { .. }
            | Entry::Locked { .. }
            | Entry::Unlocked { .. }
            | Entry::Tested { .. } => unreachable!(),
        }
    }

    // A call ended; one that was done on a stream changes what is kept of it.
    fn call_ended(&mut self, stream: &Option<StreamId>, call: &Call, outcome: &Outcome, place: u64)
        requires places { 0 < spare self.old.places.places }
        requires rows { HasRoomInStreams self.old (entry.Call 0 0 stream.now call.now outcome.now) }
        ensures stands { (past : List Entry) (pass nth : ℕ) →
            place ≡ suc (length past) →
            StreamsStandFor past self.old →
            StreamsStandFor (entry.Call pass nth stream.now call.now outcome.now ∷ past) self.new }
        ensures capacity { self.new.dirty.capacity ≡ self.old.dirty.capacity }
        ensures room { spare self.old.places.places ≤ spare self.new.places.places + 1 }
    {
        if let Some(stream) = stream {
            if let Outcome::Done(reply) = outcome {
                self.call_done(*stream, call, reply, place);
            }
        }
    }

    // A call on the stream was done.
    fn call_done(&mut self, stream: StreamId, call: &Call, reply: &Reply, place: u64)
        requires places { 0 < spare self.old.places.places }
        requires rows { let what = event_of_act (act_of call.now) in
            stream < 16 → HasRoomForRows self.old.dirty stream (touched_range what (state_in self.old.states.value stream).size
            (held_at self.old.places.places.entries stream (hold_in_event what))) }
        ensures stands { (past : List Entry) (pass nth : ℕ) →
            place ≡ suc (length past) →
            StreamsStandFor past self.old →
            StreamsStandFor (entry.Call pass nth (Some stream) call.now (outcome.Done reply.now) ∷ past) self.new }
        ensures capacity { self.new.dirty.capacity ≡ self.old.dirty.capacity }
        ensures room { spare self.old.places.places ≤ spare self.new.places.places + 1 }
    {
        let at = usize::from(stream.number());
        let mapped = self.is_mapped(stream);
        self.change_rows(stream, act(call), place);
        self.places.follow(stream, holding_by(call, id_in(reply)));
        let mut state = (*self.states)[at];
        state.done(call, mapped);
        (*self.states)[at] = state;
    }

    // What a done call does to the rows of its stream's pages.
    fn change_rows(&mut self, stream: StreamId, what: StreamEvent, place: u64)
        requires rows { HasRoomForRows self.old.dirty stream (touched_range what (state_in self.old.states.value stream).size
            (held_at self.old.places.places.entries stream (hold_in_event what))) }
        ensures rows { (past : List Entry) →
            StreamsStandFor past self.old →
            is_of_call what ≡ true →
            ChangesRows place stream (λ p. touching_of what (history past stream) p) self.old.dirty.rows self.new.dirty.rows }
        ensures capacity { self.new.dirty.capacity ≡ self.old.dirty.capacity }
        ensures states { self.new.states ≡ self.old.states }
        ensures places { self.new.places ≡ self.old.places }
    {
        match what {
            StreamEvent::Changes { from, to } => touch_range(
                &mut self.dirty,
                stream,
                from,
                to,
                place,
                None,
            ),
            StreamEvent::Stores { page } => {
                let from = 4096 * u128::from(page);
                let to = stored_end(page, self.state(stream).size());
                touch_range(&mut self.dirty, stream, from, to, place, None)
            }
            StreamEvent::Stamps { hold, lsn } => {
                if let Some((at, len)) = self.places.of(stream, hold) {
                    let from = u128::from(at);
                    touch_range(
                        &mut self.dirty,
                        stream,
                        from,
                        from + u128::from(len),
                        place,
                        lsn,
                    )
                }
            }
            StreamEvent::Closes { object, truncate } => {
                if let Some(to) = self.state(stream).truncation(object, truncate) {
                    cut(&mut self.dirty, stream, to)
                }
            }
            StreamEvent::Resizes { size } => cut(&mut self.dirty, stream, size),
            StreamEvent::Discards { span } => discard(&mut self.dirty, stream, span),
            StreamEvent::Opens { .. }
            | StreamEvent::CameIn { .. }
            | StreamEvent::WentOut { .. }
            | StreamEvent::Began { .. }
            | StreamEvent::Ended { .. }
            | StreamEvent::Rests => (),
        }
    }
}

// Whether an entry changes nothing of what is kept of the streams.
fn leaves_streams(entry: &Entry) -> bool
    ensures { result ≡ leaves_streams entry.now }
{
    match entry {
        Entry::Call {
            stream: Some(_),
            outcome: Outcome::Done(_),
            ..
        }
        | Entry::WriteBegin { .. }
        | Entry::WriteEnd { .. } => false,
        Entry::Call { .. }
        | Entry::PageIn { .. }
        | Entry::PageOut { .. }
        | Entry::FillFailed { .. }
        | Entry::Sync { .. }
        | Entry::Append { .. }
        | Entry::Flushed { .. }
        | Entry::LogFailed { .. }
        | Entry::Defer { .. }
        | Entry::Posted { .. }
        | Entry::Scan { .. }
        | Entry::Record { .. }
        | Entry::RecordFailed { .. }
        | Entry::Locked { .. }
        | Entry::Unlocked { .. }
        | Entry::Tested { .. } => true,
    }
}

// Whether a transfer ended well.
fn is_good(how: End) -> bool
    ensures { result ≡ ended_ok how }
{
    match how {
        End::Good => true,
        End::Failed | End::NoMemory => false,
    }
}

// Whether a page begins below a size, where there is one.
fn begins_below(page: PageId, size: Option<u64>) -> bool
    ensures { result ≡ begins_below size page.page }
{
    match size {
        Some(size) => 4096 * page.page() < size,
        None => true,
    }
}
