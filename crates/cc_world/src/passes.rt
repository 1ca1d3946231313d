//! What is kept of each pass as entries come: how many there were with its last call, the page that this call stored, where
//! it was a done noncached store, whether that page was written since, and the oldest fault since.

ghost use Rattle.std.specs.Prelude.{◌≡◌, ℕ, ◌+◌, ◌≤◌, true, is_some, List, [], ◌∷◌, Some, IfOk, OnErr, OnOk, nat_eq, length, vec_capacity};
ghost use Rattle.std.specs.Map.{lookup};
ghost use Rattle.std.specs.Option.{option_map};
ghost use Rattle.cc_entry.specs.Place.{File};
ghost use Rattle.cc_entry.specs.declared.entry.Entry.{Entry};
ghost use Rattle.cc_entry.specs.declared.entry.Entry.TheVariants as entry;
ghost use Rattle.cc_entry.specs.declared.reply.Reply.{Reply};
ghost use Rattle.cc_model.specs.Conditions.{MayFinish};
ghost use Rattle.cc_model.specs.Faults.{faults_since, oldest};
ghost use Rattle.cc_model.specs.Passes.{is_the_page, pass_of, store_of, up_to_call};
ghost use Rattle.cc_world.specs.Faults.{fault_in};
ghost use Rattle.cc_world.specs.Pages.{Says};
ghost use Rattle.cc_world.specs.Passes.{HasRoomFor, IsPut, PassesStand, called_after, fault_after, is_page_stored, no_row, row_after, row_or_none, row_stored, store_entry, stored_after, written_after};

use crate::blocks::PagePlace;
use crate::faults::Fault;
use cc_entry::{Call, End, Entry, NoMemory, Outcome, PageId, StreamId};
use std::alloc::Global;

/// What is kept of a pass.
#[derive(Clone, Copy)]
pub(crate) struct PassRow {
    // How many entries there were with its last call; none where it made no call.
    called: u64,
    // The page that this call stored, where it was a done noncached store.
    stored: Option<PagePlace>,
    // Whether a transfer of that page by the pass ended well since.
    written: bool,
    // The oldest fault that befell the pass since its last call that is no done noncached store.
    fault: Option<Fault>,
}

impl PassRow {
    // The row of a pass that did nothing.
    fn new() -> PassRow
        ensures { result ≡ no_row }
    {
        PassRow {
            called: 0,
            stored: None,
            written: false,
            fault: None,
        }
    }

    // The row after an entry of the pass that came at a place.
    fn after(self, entry: &Entry, place: u64) -> PassRow
        ensures { result ≡ row_after place self entry.now }
    {
        PassRow {
            called: called_after(self.called, entry, place),
            stored: stored_after(self.stored, entry),
            written: written_after(self.stored, self.written, entry),
            fault: fault_after(self.fault, entry),
        }
    }

    // The row after a done noncached store of a page by the pass, whose entry came at a place.
    fn after_store(self, page: PageId, place: u64) -> PassRow
        ensures { result ≡ row_stored place self page }
    {
        PassRow {
            called: place,
            stored: Some(PagePlace {
                stream: page.stream(),
                page: page.page(),
            }),
            written: false,
            fault: self.fault,
        }
    }
}

/// What is kept of each pass that placed an entry, and of pass 0.
#[derive(Drop)]
pub(crate) struct Passes {
    rows: Vec<(u32, PassRow)>,
}

impl Passes {
    /// Of a run in which no pass placed an entry.
    pub(crate) fn new(alloc: Global) -> Result<Passes, NoMemory>
        ensures { IfOk result (λ passes. PassesStand [] passes.rows.items) }
    {
        let mut rows = Vec::with_capacity(alloc, 1)?;
        rows.push_reserved((0, PassRow::new()));
        Ok(Passes { rows })
    }

    /// Makes room for the row of a pass, where one is named. It fails only there.
    pub(crate) fn admit(&mut self, pass: Option<u32>) -> Result<(), NoMemory>
        ensures room { OnOk result ((me : ℕ) → pass ≡ Some me → HasRoomFor me self.new.rows.items (vec_capacity self.new.rows)) }
        ensures rows { self.new.rows.items ≡ self.old.rows.items }
        ensures sure { OnErr result (is_some pass ≡ true) }
    {
        match pass {
            Some(_) => self.rows.reserve(1).map_err(|_| NoMemory),
            None => Ok(()),
        }
    }

    /// How many entries there were with the last call of a pass.
    pub(crate) fn called(&self, pass: u32) -> u64
        ensures { (past : List Entry) → PassesStand past self.now.rows.items → result ≡ length (up_to_call past pass) }
    {
        self.of(pass).called
    }

    /// The oldest fault that befell a pass since its last call that is no done noncached store.
    pub(crate) fn fault(&self, pass: u32) -> Option<Fault>
        ensures { (past : List Entry) → PassesStand past self.now.rows.items →
            option_map fault_in result ≡ oldest (faults_since past pass) }
    {
        self.of(pass).fault
    }

    /// Whether the last call of a pass is a done noncached store of the page.
    pub(crate) fn ends_own_store(&self, pass: u32, stream: StreamId, page: u64) -> bool
        ensures { (past : List Entry) → PassesStand past self.now.rows.items →
            result ≡ is_the_page (record { stream = stream; page = page }) (store_of past pass) }
    {
        is_stored(stream, page, self.of(pass).stored)
    }

    /// Whether the noncached write of a page by a pass may end: its store is the pass's last call, and is on the disk.
    pub(crate) fn may_finish(&self, pass: u32, stream: StreamId, page: u64) -> bool
        ensures { (past : List Entry) → PassesStand past self.now.rows.items →
            Says result (MayFinish past pass stream page) }
    {
        let row = self.of(pass);
        is_stored(stream, page, row.stored) && row.written
    }

    /// Follows an entry that came at a place.
    pub(crate) fn follow(&mut self, entry: &Entry, place: u64)
        requires room { (pass : ℕ) → pass_of entry.now ≡ Some pass →
            HasRoomFor pass self.old.rows.items (vec_capacity self.old.rows) }
        ensures { (past : List Entry) → place ≡ length past + 1 → PassesStand past self.old.rows.items →
            PassesStand (entry.now ∷ past) self.new.rows.items }
    {
        let Some(pass) = pass_of(entry) else {
            return;
        };
        let row = self.of(pass).after(entry, place);
        self.put(pass, row);
    }

    /// Follows a done noncached store of a page by a pass, whose entry came at a place, and the begin of the page's transfer.
    pub(crate) fn follow_store(&mut self, pass: u32, page: PageId, place: u64)
        requires room { HasRoomFor pass self.old.rows.items (vec_capacity self.old.rows) }
        ensures { (past : List Entry) (nth : ℕ) (file : File) (bytes : List ℕ) (reply : Reply) → place ≡ length past + 1 →
            PassesStand past self.old.rows.items →
            PassesStand (entry.WriteBegin pass page ∷ store_entry pass nth page file bytes reply ∷ past) self.new.rows.items }
    {
        let row = self.of(pass).after_store(page, place);
        self.put(pass, row);
    }

    // What is kept of a pass.
    fn of(&self, pass: u32) -> PassRow
        ensures { result ≡ row_or_none (lookup (nat_eq pass) self.now.rows.items) }
    {
        row_of(&self.rows, pass)
    }

    // Puts the row of a pass in place of the one that there was.
    fn put(&mut self, pass: u32, row: PassRow)
        requires room { HasRoomFor pass self.old.rows.items (vec_capacity self.old.rows) }
        ensures { IsPut self.old.rows.items self.new.rows.items pass row }
    {
        self.rows.retain(|other| other.0 != pass);
        self.rows.push_reserved((pass, row));
    }
}

// What rows keep of a pass.
fn row_of(rows: &[(u32, PassRow)], pass: u32) -> PassRow
    ensures { result ≡ row_or_none (lookup (nat_eq pass) rows.now) }
{
    for (of, row) in rows {
        if *of == pass {
            return *row;
        }
    }
    PassRow::new()
}

// The pass that placed an entry; a post has none.
fn pass_of(entry: &Entry) -> Option<u32>
    ensures { result ≡ pass_of entry.now }
{
    match entry {
        Entry::Call { pass, .. }
        | Entry::PageIn { pass, .. }
        | Entry::PageOut { pass, .. }
        | Entry::FillFailed { pass, .. }
        | Entry::WriteBegin { pass, .. }
        | Entry::WriteEnd { pass, .. }
        | Entry::Sync { pass, .. }
        | Entry::Append { pass, .. }
        | Entry::Flushed { pass, .. }
        | Entry::LogFailed { pass, .. }
        | Entry::Defer { pass, .. }
        | Entry::Scan { pass, .. }
        | Entry::Record { pass, .. }
        | Entry::RecordFailed { pass, .. }
        | Entry::Locked { pass, .. }
        | Entry::Unlocked { pass, .. }
        | Entry::Tested { pass, .. } => Some(*pass),
        Entry::Posted { .. } => None,
    }
}

// Whether a page is the one that was stored, where one was.
fn is_stored(stream: StreamId, page: u64, stored: Option<PagePlace>) -> bool
    ensures { result ≡ is_page_stored (record { stream = stream; page = page }) stored }
{
    match stored {
        Some(place) => stream.number() == place.stream.number() && page == place.page,
        None => false,
    }
}

// How many entries there are with the last call of a pass, after an entry of it that came at a place.
fn called_after(called: u64, entry: &Entry, place: u64) -> u64
    ensures { result ≡ called_after place called entry.now }
{
    match entry {
        Entry::Call { .. } => place,
        _ => called,
    }
}

// The page that the last call of a pass stored, after an entry of it.
fn stored_after(stored: Option<PagePlace>, entry: &Entry) -> Option<PagePlace>
    ensures { result ≡ stored_after stored entry.now }
{
    match entry {
        Entry::Call {
            stream: Some(stream),
            call: Call::NcStore { page, .. },
            outcome: Outcome::Done(_),
            ..
        } => Some(PagePlace {
            stream: *stream,
            page: *page,
        }),
        Entry::Call { .. } => None,
        _ => stored,
    }
}

// Whether that page is written, after an entry of the pass.
fn written_after(stored: Option<PagePlace>, written: bool, entry: &Entry) -> bool
    ensures { result ≡ written_after stored written entry.now }
{
    match entry {
        Entry::Call { .. } => false,
        Entry::WriteEnd {
            page,
            how: End::Good,
            ..
        } => is_stored(page.stream(), page.page(), stored) || written,
        _ => written,
    }
}

// The oldest fault of a pass, after an entry of it.
fn fault_after(fault: Option<Fault>, entry: &Entry) -> Option<Fault>
    ensures { result ≡ fault_after fault entry.now }
{
    match entry {
        Entry::Call {
            call: Call::NcStore { .. },
            outcome: Outcome::Done(_),
            ..
        } => fault,
        Entry::Call { .. } => None,
        Entry::FillFailed { page, .. } => fault.or(Some(Fault::Read(page.page()))),
        Entry::WriteEnd {
            page,
            how: End::Failed,
            ..
        } => fault.or(Some(Fault::Write(page.page()))),
        Entry::Sync {
            how: End::Failed,
            ..
        } => fault.or(Some(Fault::Sync)),
        Entry::LogFailed { handle, .. } => fault.or(Some(Fault::Log(*handle))),
        _ => fault,
    }
}
