//! What the World keeps beside its journal as entries come, so that no event reads the entries back: what is kept of each pass,
//! of its good syncs, and of the view blocks.

ghost use Rattle.std.specs.Prelude.{◌≡◌, ℕ, ◌+◌, ◌<◌, [], ◌∷◌, List, IfOk, OnErr, length, vec_capacity, vec_len};
ghost use Rattle.cc_effects.specs.Events.{IsWanting};
ghost use Rattle.cc_entry.specs.Place.{File};
ghost use Rattle.cc_entry.specs.declared.entry.Entry.{Entry};
ghost use Rattle.cc_entry.specs.declared.entry.Entry.TheVariants as entry;
ghost use Rattle.cc_entry.specs.declared.reply.Reply.{Reply};
ghost use Rattle.cc_world.specs.Notes.{CanFollow, CanFollowAll, CanFollowEvent, NotesStand, may_bring, pass_admitted};
ghost use Rattle.cc_world.specs.Passes.{HasRoomFor, store_entry};
ghost use Rattle.cc_world.specs.Syncs.{AreUnsettled};

use crate::blocks::{Blocks, PagePlace};
use crate::machine::Machine;
use crate::passes::Passes;
use crate::syncs::{Syncs, unsettled};
use cc_effects::Event;
use cc_entry::{Call, Entry, NoMemory, PageId, StreamId};
use cc_journal::Journal;
use cc_traits::{LogFile, PageDisk, PostRoutine};
use std::alloc::Global;

/// What is kept of the entries.
#[derive(Drop)]
pub(crate) struct Notes {
    pub(crate) passes: Passes,
    pub(crate) syncs: Syncs,
    pub(crate) blocks: Blocks,
}

impl Notes {
    /// Of a run of which nothing happened yet.
    pub(crate) fn new(alloc: Global) -> Result<Notes, NoMemory>
        ensures { IfOk result (λ notes. NotesStand [] notes) }
    {
        Ok(Notes {
            passes: Passes::new(alloc)?,
            syncs: Syncs::new(alloc),
            blocks: Blocks::new(alloc),
        })
    }

    /// Makes room to follow what an event adds, and tells the pages that are unsettled where it is a sync. The end of a transfer
    /// asks no memory.
    pub(crate) fn take_room<D: PageDisk, L: LogFile, Q: PostRoutine>(
        &mut self,
        alloc: Global,
        machine: &Machine<D, L, Q>,
        event: &Event<Q>,
    ) -> Result<Vec<u64>, NoMemory>
        requires { NotesStand machine.now.journal.entries self.old }
        ensures room { IfOk result (λ unsettled. CanFollowEvent self.new unsettled.items machine.now.journal.entries event.now) }
        ensures stands { NotesStand machine.now.journal.entries self.new }
        ensures wanting { OnErr result (IsWanting machine.now.journal.entries event.now []) }
    {
        self.passes.admit(pass_admitted(event))?;
        self.blocks.reserve(machine, may_bring(event))?;
        match event {
            Event::Sync { pass, stream } => {
                self.take_sync_room(alloc, machine.journal(), *pass, *stream)
            }
            _ => Ok(Vec::new(alloc)),
        }
    }

    // Makes room to follow a good sync of a stream by a pass, and tells the pages that are unsettled.
    fn take_sync_room<Q>(
        &mut self,
        alloc: Global,
        journal: &Journal<Q>,
        pass: u32,
        stream: StreamId,
    ) -> Result<Vec<u64>, NoMemory>
        requires { NotesStand journal.now.entries self.old }
        ensures room { IfOk result (λ unsettled. (vec_len self.new.syncs.rows < vec_capacity self.new.syncs.rows)
            × AreUnsettled journal.now.entries pass stream unsettled.items) }
        ensures rows { self.new.syncs.rows.items ≡ self.old.syncs.rows.items }
        ensures others { (self.new.passes ≡ self.old.passes) × (self.new.blocks ≡ self.old.blocks) }
    {
        self.syncs.reserve()?;
        let called = self.passes.called(pass);
        unsettled(alloc, journal, called, stream)
    }

    /// Follows what came to the journal since it had so many entries.
    pub(crate) fn follow<Q>(&mut self, journal: &Journal<Q>, before: u64, unsettled: Vec<u64>)
        requires { (past : List Entry) × (before ≡ length past) × CanFollowAll self.old unsettled.items past journal.now.entries }
        ensures { (past : List Entry) → before ≡ length past → CanFollowAll self.old unsettled.items past journal.now.entries →
            NotesStand past self.old → NotesStand journal.now.entries self.new }
    {
        if journal.len() == before {
            return;
        }
        let Some(last) = journal.last() else {
            return;
        };
        if journal.len() == before + 1 {
            self.follow_one(last, before + 1, unsettled);
            return;
        }
        if let Entry::WriteBegin { pass, page } = last {
            self.follow_store(*pass, *page, before + 1);
        }
    }

    // Follows an entry that came at a place.
    fn follow_one(&mut self, entry: &Entry, place: u64, unsettled: Vec<u64>)
        requires { (past : List Entry) × CanFollow self.old unsettled.items past entry.now }
        ensures { (past : List Entry) → place ≡ length past + 1 → CanFollow self.old unsettled.items past entry.now →
            NotesStand past self.old → NotesStand (entry.now ∷ past) self.new }
    {
        self.passes.follow(entry, place);
        self.syncs.follow(entry, unsettled);
        self.blocks.follow(entry);
    }

    // Follows a done noncached store of a page by a pass, whose entry came at a place, and the begin of the page's transfer.
    fn follow_store(&mut self, pass: u32, page: PageId, place: u64)
        requires pass { HasRoomFor pass self.old.passes.rows.items (vec_capacity self.old.passes.rows) }
        requires block { vec_len self.old.blocks.pages < vec_capacity self.old.blocks.pages }
        ensures { (past : List Entry) (nth : ℕ) (file : File) (bytes : List ℕ) (reply : Reply) → place ≡ length past + 1 →
            NotesStand past self.old →
            NotesStand (entry.WriteBegin pass page ∷ store_entry pass nth page file bytes reply ∷ past) self.new }
    {
        self.passes.follow_store(pass, page, place);
        self.syncs.follow_call(pass);
        self.blocks.note(PagePlace {
            stream: page.stream(),
            page: page.page(),
        });
    }
}

// The pass of the entry that an event places, for whose row there may be no room yet. The pass that ends a transfer began it.
fn pass_admitted<Q>(event: &Event<Q>) -> Option<u32>
    ensures { result ≡ pass_admitted event.now }
{
    match event {
        Event::Fill { pass, .. }
        | Event::WriteBegin { pass, .. }
        | Event::Sync { pass, .. }
        | Event::Do { pass, .. }
        | Event::Fail { pass, .. }
        | Event::Append { pass, .. }
        | Event::LogFlush { pass, .. }
        | Event::Scan { pass }
        | Event::Defer { pass, .. } => Some(*pass),
        Event::Drop { .. } => Some(1),
        Event::WriteEnd { .. } | Event::Post { .. } => None,
    }
}

// Whether an event may bring a page in.
fn may_bring<Q>(event: &Event<Q>) -> bool
    ensures { result ≡ may_bring event.now }
{
    match event {
        Event::Fill { .. } => true,
        Event::Do {
            call: Call::NcStore { .. },
            ..
        } => true,
        _ => false,
    }
}
