//! The journal: entries, and what is kept of them.

ghost use Rattle.std.specs.Prelude.{◌≡◌, ◌↔◌, ℕ, suc, ◌+◌, ◌-◌, ◌^◌, ◌<◌, ◌≤◌, true, false, if◌then◌else◌, [], ◌∷◌, ◌++◌, List, Option, Some, slice_get, length, reverse, map, IsOk, OnOk, OnErr, IfOk, IsErrOf, IfErr, All, drop, ◌⊎◌, ◌==◌, ◌&&◌, ◌||◌, nat_lt};
ghost use Rattle.std.specs.Option.{option_copied, option_map};
ghost use Rattle.cc_entry.specs.declared.call.Call.TheVariants as call;
ghost use Rattle.cc_entry.specs.declared.entry.Entry.{Entry};
ghost use Rattle.cc_entry.specs.declared.entry.Entry.TheVariants as entry;
ghost use Rattle.cc_entry.specs.declared.error.CcError.TheVariants as error;
ghost use Rattle.cc_entry.specs.declared.hold.Deferral.{Deferral};
ghost use Rattle.cc_entry.specs.declared.reply.Reply.{Reply};
ghost use Rattle.cc_model.specs.History.{Did, history};
ghost use Rattle.cc_laws.proofs.QueueSteps.{is_defer_or_post, is_scan};
ghost use Rattle.cc_model.specs.Cache.{holds_made, holds_made_by, makes_hold, lazy_pages, views_taken};
ghost use Rattle.cc_model.specs.Passes.{calls_of};
ghost use Rattle.cc_journal.specs.Calls.{owed_end};
ghost use Rattle.cc_model.specs.Locks.{locks_of};
ghost use Rattle.cc_model.specs.Touches.{is_mapped};
ghost use Rattle.cc_model.specs.Setup.{Setup};
ghost use Rattle.cc_model.specs.Settings.{log_of};
ghost use Rattle.cc_model.specs.Throttle.{may_go, queue, deferred};
ghost use Rattle.cc_model.specs.Pick.{pick};
ghost use Rattle.cc_journal.specs.Journal.{JournalState, room_of, MayBePushed, limited, head_may_go};
ghost use Rattle.cc_journal.specs.Locks.{is_lock_call, GrantsLock, RefusesLock, EndsLock};
ghost use Rattle.cc_journal.specs.Queue.{AllUnposted, deferrals_of_writes, routines_of};
ghost use Rattle.cc_journal.specs.Rows.{Follows};

use crate::calls::CallCounts;
use crate::entries::KeptEntries;
use crate::locks::StreamLocks;
use crate::queue::Deferred;
use crate::scans::Scans;
use crate::streams::Streams;
use cc_dirty::DirtyTable;
use cc_entry::{Call, CcError, Entry, FileId, NoMemory, Outcome, Pages, Span, StreamId};
use cc_locks::Locks;
use cc_traits::{PostRoutine, PostedRoutine};
use std::alloc::Global;
use std::marker::Model;

/// The entries of a run, and beside them what others ask of them, so that no call of a run searches them. With a capacity below
/// 2 ^ 32 the journal is recorded: it keeps all of them. Else it keeps the last alone, and all else is the same.
#[derive(Drop)]
pub struct Journal<Q = Box<dyn PostRoutine + Send>> {
    alloc: Global,
    capacity: u64,
    threshold: u32,
    logs: u8,
    entries: KeptEntries,
    /// How many entries more are promised a place; there is memory for them.
    reserved: u64,
    streams: Streams,
    calls: CallCounts,
    /// How many holds were ever made.
    holds: u64,
    waiting: Deferred<Q>,
    scans: Scans,
    locks: StreamLocks,
}

impl<Q> Model for Journal<Q> {
    ghost use Rattle.std.specs.Prelude.{◌≡◌, ◌^◌, ◌<◌, true, length};
    ghost use Rattle.indexmap.specs.IndexMap.{spare};
    ghost use Rattle.cc_journal.specs.Journal.{JournalState};
    ghost use Rattle.cc_journal.specs.Kept.{KeptStands, HasMemory};
    ghost use Rattle.cc_journal.specs.Locks.{LocksStand};

    ghost Value = { JournalState Q };

    ghost view = { λ j. record {
      capacity = j.capacity;
      threshold = j.threshold;
      logs = j.logs;
      entries = j.entries.past;
      reserved = j.reserved;
      rows = j.streams.dirty.rows;
      queue = j.waiting.writes;
    } };

    ghost invariant = { λ j.
        KeptStands j.entries.past j.streams.states.value j.streams.places.places.entries j.streams.dirty
        j.calls.counts.entries j.holds j.waiting j.scans.total j.scans.cursor
        × HasMemory j.capacity (length j.entries.past) j.reserved j.entries.room
        (spare j.streams.places.places) (spare j.calls.counts)
        × LocksStand j.entries.past j.locks
        × (j.capacity < 2 ^ 32 → j.entries.is_recorded ≡ true) };
}

impl<Q: PostRoutine> Journal<Q> {
    /// An empty journal, recorded where its capacity is below 2 ^ 32, with room for all rows of the dirty page table and for
    /// 64 deferred writes. Answers `NoMemory` where memory is wanting.
    pub fn new(
        alloc: Global,
        capacity: u64,
        threshold: u32,
        logs: u8,
    ) -> Result<Journal<Q>, NoMemory>
        requires limit { capacity ≤ 2 ^ 63 }
        ensures limits { IfOk result (λ j. (j.capacity ≡ capacity) × (j.threshold ≡ threshold) × (j.logs ≡ logs)) }
        ensures empty { IfOk result (λ j. (j.entries ≡ []) × (j.reserved ≡ 0) × (j.rows ≡ []) × (j.queue ≡ [])) }
    {
        Ok(Journal {
            alloc,
            capacity,
            threshold,
            logs,
            entries: KeptEntries::new(alloc, is_recorded(capacity)),
            reserved: 0,
            streams: Streams::new(alloc)?,
            calls: CallCounts::new(alloc),
            holds: 0,
            waiting: Deferred::new(alloc)?,
            scans: Scans::new(),
            locks: StreamLocks::new(alloc)?,
        })
    }

    /// Defers a write of so many pages by a pass (`CcDeferWrite`), and answers its id. A write that is tried
    /// again goes to the head of the queue. It takes no memory.
    pub fn push_defer(
        &mut self,
        pass: u32,
        file: FileId,
        pages: u64,
        retrying: bool,
        routine: Q,
    ) -> u64
        requires reserved { 0 < self.old.reserved }
        requires unposted { Q.posted routine ≡ false }
        requires room { length (queue self.old.entries) < 64 }
        ensures id { result ≡ suc (deferred self.old.entries) }
        ensures placed { self.new ≡ record self.old {
          entries = entry.Defer pass result file pages retrying ∷ self.old.entries;
          reserved = self.old.reserved - 1;
          queue = self.new.queue;
        } }
        ensures waits { let deferral : Deferral = record { id = result; file = file; pages = pages } in
            self.new.queue ≡ (if retrying then (deferral, routine) ∷ self.old.queue
            else self.old.queue ++ (deferral, routine) ∷ []) }
        ensures unposted { AllUnposted Q.posted self.old.queue → AllUnposted Q.posted self.new.queue }
    {
        let id = self.waiting.defer(file, pages, retrying, routine);
        self.entries.push_reserved(Entry::Defer {
            pass,
            id,
            file,
            pages,
            retrying,
        });
        self.reserved -= 1;
        id
    }

    /// Posts the write at the head of the queue, which may go, and answers its id and its routine, the one that was
    /// handed to `CcDeferWrite`. It takes no memory.
    pub fn push_posted(&mut self) -> PostedRoutine<Q>
        requires reserved { 0 < self.old.reserved }
        requires may_go { head_may_go (limited self.old.threshold) self.old.entries (queue self.old.entries) ≡ true }
        requires unposted { AllUnposted Q.posted self.old.queue }
        ensures head { option_map (λ w. w.0.id) (slice_get self.old.queue 0) ≡ Some result.id }
        ensures first { option_map (λ d. d.id) (slice_get (queue self.old.entries) 0) ≡ Some result.id }
        ensures posted { Q.posted result.routine ≡ true }
        ensures placed { self.new ≡ record self.old {
          entries = entry.Posted result.id ∷ self.old.entries;
          reserved = self.old.reserved - 1;
          queue = drop 1 self.old.queue;
        } }
        ensures still_unposted { AllUnposted Q.posted self.new.queue }
    {
        let posted = self.waiting.post();
        self.entries.push_reserved(Entry::Posted { id: posted.id });
        self.reserved -= 1;
        posted
    }
}

impl<Q> Journal<Q> {
    /// The number of logs of the setup.
    pub fn logs(&self) -> u8
        ensures { result ≡ self.now.logs }
    {
        self.logs
    }

    /// The entries of a recorded journal, the oldest first.
    pub fn entries(&self) -> &[Entry]
        requires { self.now.capacity < 2 ^ 32 }
        ensures { reverse result.now ≡ self.now.entries }
    {
        self.entries.all()
    }

    /// How many entries there are.
    pub fn len(&self) -> u64
        ensures { result ≡ length self.now.entries }
    {
        self.entries.len()
    }

    /// The last entry.
    pub fn last(&self) -> Option<&Entry>
        ensures { option_copied result ≡ slice_get self.now.entries 0 }
    {
        self.entries.last()
    }

    /// Notes that the entries and the reserved places are within the capacity.
    pub fn note_capacity(&self)
        ensures { length self.now.entries + self.now.reserved ≤ self.now.capacity }
    {
        // What is true of each journal is known where a field is used.
        let _capacity = self.capacity;
    }

    /// How many entries more may be reserved.
    pub fn room(&self) -> u64
        ensures { result ≡ room_of self.now }
    {
        self.capacity - self.entries.len() - self.reserved
    }

    /// Promises a place to so many entries, and takes the memory for them.
    ///
    /// `JournalFull` exactly where there is less room, with the number of entries; `NoMemory`.
    pub fn reserve(&mut self, n: u64) -> Result<(), CcError>
        ensures full { IsErrOf result (error.JournalFull (length self.old.entries)) ↔ (room_of self.old < n) }
        ensures causes { IfErr result (λ e. (e ≡ error.JournalFull (length self.old.entries)) ⊎ (e ≡ error.NoMemory)) }
        ensures reserved { OnOk result (self.new ≡ record self.old { reserved = self.old.reserved + n }) }
        ensures err { OnErr result (self.new ≡ self.old) }
    {
        if self.room() < n {
            return Err(CcError::JournalFull {
                entries: self.entries.len(),
            });
        }
        let all = (self.reserved + n) as usize;
        self.entries.reserve(all).map_err(|_| CcError::NoMemory)?;
        self.streams.reserve(all).map_err(|_| CcError::NoMemory)?;
        self.calls.reserve(all).map_err(|_| CcError::NoMemory)?;
        self.reserved += n;
        Ok(())
    }

    /// Takes the promise of so many entries back.
    pub fn release(&mut self, n: u64)
        requires { n ≤ self.old.reserved }
        ensures { self.new ≡ record self.old { reserved = self.old.reserved - n } }
    {
        self.reserved -= n;
    }

    /// The byte-range locks of a stream.
    pub fn locks(&self, stream: StreamId) -> &Locks
        ensures stream { result.now.stream ≡ stream }
        ensures table { result.now.table ≡ locks_of self.now.entries stream }
    {
        self.locks.of(stream)
    }

    /// Locks a span for a file object, places the entry that tells of it, and answers the lock's id. Refused with
    /// `LockConflict` where a lock of the stream is in its way, which is told too; the least such id. Answers
    /// `NoMemory`, and then nothing has changed.
    pub fn lock(
        &mut self,
        pass: u32,
        file: FileId,
        span: Span,
        exclusive: bool,
    ) -> Result<u64, CcError>
        requires reserved { 0 < self.old.reserved }
        ensures granted { IfOk result (GrantsLock self.old self.new pass file span exclusive) }
        ensures refused { IfErr result (RefusesLock self.old self.new pass file span exclusive) }
    {
        match self.locks.lock(file, span, exclusive) {
            Ok(id) => {
                self.entries
                    .push_reserved(locked(pass, file, span, exclusive, true, id));
                self.reserved -= 1;
                Ok(id)
            }
            Err(CcError::LockConflict { id }) => {
                self.entries
                    .push_reserved(locked(pass, file, span, exclusive, false, id));
                self.reserved -= 1;
                Err(CcError::LockConflict { id })
            }
            Err(error) => Err(error),
        }
    }

    /// Ends the lock of this id where the file object owns it, places the entry that tells of it, and answers whether
    /// the object does. It takes no memory.
    pub fn unlock(&mut self, pass: u32, file: FileId, id: u64) -> Result<bool, CcError>
        requires reserved { 0 < self.old.reserved }
        ensures sure { IsOk result }
        ensures ended { IfOk result (EndsLock self.old self.new pass file id) }
    {
        let gone = self.locks.unlock(file, id);
        self.entries.push_reserved(Entry::Unlocked {
            pass,
            file,
            id,
            gone,
        });
        self.reserved -= 1;
        Ok(gone)
    }

    /// Places an entry, which is no `Defer`, no `Posted`, no `Locked` and no `Unlocked`. It takes no memory.
    pub fn push(&mut self, entry: Entry)
        requires reserved { 0 < self.old.reserved }
        requires kind { is_defer_or_post entry ≡ false }
        requires no_lock { is_lock_call entry ≡ false }
        requires may { MayBePushed self.old.entries entry }
        ensures placed { self.new ≡ record self.old {
          entries = entry ∷ self.old.entries;
          reserved = self.old.reserved - 1;
          rows = self.new.rows;
        } }
        ensures rows { Follows self.new.entries self.new.rows }
    {
        // The rows' order is what says that there is room for those of the entry.
        let _rows = self.streams.dirty().rows();
        let looked_at = self.looked_at(&entry);
        let place = self.entries.len() + 1;
        self.streams.follow(&entry, place);
        self.calls.follow(&entry);
        self.scans.follow(&entry, looked_at);
        self.holds += holds_made_by(&entry);
        self.entries.push_reserved(entry);
        self.reserved -= 1;
    }

    // How many pages a scan looked at; 0 where the entry is none.
    fn looked_at(&self, entry: &Entry) -> usize
        ensures scan { is_scan entry.now ≡ true → result ≡ length (lazy_pages self.now.entries) }
    {
        match entry {
            Entry::Scan { .. } => self.streams.lazy_total(),
            _ => 0,
        }
    }

    /// How many calls of a pass have ended.
    pub fn calls_of(&self, pass: u32) -> u64
        ensures { result ≡ calls_of self.now.entries pass }
    {
        self.calls.of(pass)
    }

    /// The number of a pass's next call, for whose entry a place is reserved.
    pub fn next_call(&self, pass: u32) -> u64
        requires { 0 < self.now.reserved }
        ensures { result ≡ suc (calls_of self.now.entries pass) }
    {
        self.calls.of(pass) + 1
    }

    /// How many places are reserved for the end of a noncached write of a pass: one, where its last call is the store of
    /// that write. The pass's next call has no use for it, unless it is that end.
    pub fn owed_end(&self, pass: u32) -> u64
        ensures { result ≡ owed_end self.now.entries pass }
    {
        u64::from(self.calls.owes(pass))
    }

    /// The id of the next hold.
    pub fn next_hold(&self) -> u64
        ensures { result ≡ suc (holds_made self.now.entries) }
    {
        self.holds + 1
    }

    /// Whether a stream has a shared map (`CcIsFileCached`): an object is open, or a page is dirty.
    pub fn is_mapped(&self, stream: StreamId) -> bool
        ensures { result ≡ is_mapped (history self.now.entries stream) }
    {
        self.streams.is_mapped(stream)
    }

    /// Whether the stream of a file object has a shared map after an uninitialise of the object
    /// (`CcUninitializeCacheMap`): another object is open, or a page is dirty that the uninitialise does not cut.
    pub fn stays_mapped(&self, file: FileId, truncate: Option<u64>) -> bool
        ensures { (pass : ℕ) (reply : Reply) → result
            ≡ is_mapped (Did pass (call.Uninitialise file truncate) reply ∷ history self.now.entries file.stream) }
    {
        self.streams.stays_mapped(file, truncate)
    }

    /// The log of a stream, where it has one (`CcSetLogHandleForFile`).
    pub fn handle_of(&self, stream: StreamId) -> Option<u8>
        ensures { result ≡ log_of (history self.now.entries stream) }
    {
        self.streams.state(stream).log()
    }

    /// How many of the 256 views no mapped stream has taken.
    pub fn free_views(&self) -> u16
        ensures { result ≡ 256 - views_taken self.now.entries }
    {
        256_u16.saturating_sub(self.streams.views_taken())
    }

    /// The dirty page table, of which `CcGetDirtyPages` gives the pages of one log.
    pub fn dirty(&self) -> &DirtyTable
        ensures rows { result.now.rows ≡ self.now.rows }
        ensures follows { Follows self.now.entries result.now.rows }
        ensures few { length result.now.rows ≤ 16384 }
    {
        self.streams.dirty()
    }

    /// Whether a write of so many pages to the stream may go (`CcCanIWrite`).
    pub fn may_go(&self, stream: StreamId, pages: u64) -> bool
        ensures { (u : Setup) → u.threshold ≡ self.now.threshold → result ≡ may_go u self.now.entries stream pages }
    {
        let own = self.streams.state(stream).threshold();
        let total = self.streams.dirty_total();
        let count = self.streams.dirty_count(stream);
        goes(pages, total, self.threshold, count, own)
    }

    /// How many deferred writes (`CcDeferWrite`) wait, at most 64.
    pub fn queued(&self) -> u8
        ensures queue { result ≡ length (queue self.now.entries) }
        ensures most { result ≤ 64 }
    {
        self.waiting.len() as u8
    }

    /// Whether a deferred write (`CcDeferWrite`) waits, and the one at the head may go (`CcCanIWrite`).
    pub fn may_post(&self) -> bool
        ensures { (u : Setup) → u.threshold ≡ self.now.threshold →
            result ≡ head_may_go u self.now.entries (queue self.now.entries) }
    {
        match self.waiting.head() {
            Some(head) => self.may_go(head.file.stream(), head.pages),
            None => false,
        }
    }

    /// The pages that a scan of the lazy writer picks. No public Cc routine does that. Answers `NoMemory` where memory
    /// is wanting.
    pub fn pick(&self) -> Result<Pages, NoMemory>
        ensures { (u : Setup) → u.threshold ≡ self.now.threshold →
            IfOk result (λ picked. picked ≡ pick u self.now.entries) }
    {
        let pages = self.streams.lazy_pages(self.alloc)?;
        self.scans.pick(self.alloc, &pages, self.threshold)
    }

    /// All that a recorded journal kept: the entries, the oldest first, and the routines that wait with the ids of their
    /// writes, the head first. It takes no memory.
    pub fn end(self) -> (Vec<Entry>, Vec<(u64, Q)>)
        requires { self.capacity < 2 ^ 32 }
        ensures entries { reverse result.0.items ≡ self.entries }
        ensures routines { result.1.items ≡ routines_of self.queue }
        ensures ids { map (λ w. w.0) result.1.items ≡ map (λ d. d.id) (queue self.entries) }
    {
        let Journal {
            entries,
            waiting,
            ..
        } = self;
        (entries.into_all(), waiting.into_writes())
    }

    /// The routines that wait with the ids of their writes, the head first. It takes no memory.
    pub fn leave(self) -> Vec<(u64, Q)>
        ensures routines { result.items ≡ routines_of self.queue }
        ensures ids { map (λ w. w.0) result.items ≡ map (λ d. d.id) (queue self.entries) }
    {
        let Journal { waiting, .. } = self;
        waiting.into_writes()
    }
}

// Whether a journal of a capacity is recorded.
fn is_recorded(capacity: u64) -> bool
    ensures { capacity < 2 ^ 32 → result ≡ true }
{
    capacity < 1 << 32
}

// Whether so many pages beside the dirty ones of all streams stay below the cache's threshold, and beside those
// of the stream below its own, where it has one.
fn goes(pages: u64, total: usize, threshold: u32, count: u32, own: u64) -> bool
    ensures { result ≡ (nat_lt (total + pages) threshold && (own == 0 || nat_lt (count + pages) own)) }
{
    let of_all = total as u128 + u128::from(pages);
    let of_stream = u128::from(count) + u128::from(pages);
    of_all < u128::from(threshold) && (own == 0 || of_stream < u128::from(own))
}

// What tells of a call for a lock.
fn locked(pass: u32, file: FileId, span: Span, exclusive: bool, granted: bool, id: u64) -> Entry
    ensures { result ≡ entry.Locked pass file span exclusive granted id }
{
    Entry::Locked {
        pass,
        file,
        span,
        exclusive,
        granted,
        id,
    }
}

// How many holds an entry made.
fn holds_made_by(entry: &Entry) -> u64
    ensures { result ≡ holds_made_by entry.now }
{
    match entry {
        Entry::Call {
            call,
            outcome: Outcome::Done(_),
            ..
        } => u64::from(makes_hold(call)),
        Entry::Call { .. }
        | Entry::PageIn { .. }
        | Entry::PageOut { .. }
        | Entry::FillFailed { .. }
        | Entry::WriteBegin { .. }
        | Entry::WriteEnd { .. }
        | Entry::Sync { .. }
        | Entry::Append { .. }
        | Entry::Flushed { .. }
        | Entry::LogFailed { .. }
        | Entry::Defer { .. }
        | Entry::Posted { .. }
        | Entry::Scan { .. }
        | Entry::Record { .. }
        | Entry::RecordFailed { .. }
        | Entry::Locked { .. }
        | Entry::Unlocked { .. }
        | Entry::Tested { .. } => 0,
    }
}

// Whether a call makes a hold where it is done.
fn makes_hold(call: &Call) -> bool
    ensures { result ≡ makes_hold call.now }
{
    matches!(
        call,
        Call::Map { .. }
            | Call::PinRead { .. }
            | Call::PreparePin { .. }
            | Call::Repin { .. }
            | Call::MdlRead { .. }
            | Call::MdlWrite { .. }
    )
}
