//! The view blocks of all streams that may be mapped, so that a question for the resident pages of a span looks at no others.
//! They are told as pages come in, and those that are mapped no longer are given up where room is wanted.

ghost use Rattle.std.specs.Prelude.{◌≡◌, ◌/◌, ◌<◌, true, is_some, List, [], ◌∷◌, OnErr, OnOk, vec_capacity, vec_len};
ghost use Rattle.cc_entry.specs.declared.entry.Entry.{Entry};
ghost use Rattle.std.specs.List.{filter};
ghost use Rattle.cc_model.specs.History.{history};
ghost use Rattle.cc_model.specs.Residency.{block_is_mapped};
ghost use Rattle.cc_world.specs.Blocks.{BlocksStand, HasBlocks, has_block, is_of_block, page_brought};

use crate::machine::Machine;
use cc_entry::{Call, Entry, NoMemory, Outcome, StreamId};
use cc_traits::{LogFile, PageDisk, PostRoutine};
use std::alloc::Global;

/// A page of a stream; the page need not be one that there can be.
#[derive(Clone, Copy)]
pub(crate) struct PagePlace {
    pub(crate) stream: StreamId,
    pub(crate) page: u64,
}

/// Of each view block that may be mapped a page.
#[derive(Drop)]
pub(crate) struct Blocks {
    pages: Vec<PagePlace>,
}

impl Blocks {
    /// Of a run in which no page came in.
    pub(crate) fn new(alloc: Global) -> Blocks
        ensures { BlocksStand [] result.pages.items }
    {
        Blocks {
            pages: Vec::new(alloc),
        }
    }

    /// The pages, one of each block.
    pub(crate) fn pages(&self) -> &[PagePlace]
        ensures { result.now ≡ self.now.pages.items }
    {
        &self.pages
    }

    /// Makes room for one block more, where one is wanted. The blocks that are mapped no longer are given up before memory is
    /// taken.
    pub(crate) fn reserve<D: PageDisk, L: LogFile, Q: PostRoutine>(
        &mut self,
        machine: &Machine<D, L, Q>,
        wanted: bool,
    ) -> Result<(), NoMemory>
        ensures room { OnOk result (wanted ≡ true → vec_len self.new.pages < vec_capacity self.new.pages) }
        ensures stands { BlocksStand machine.now.journal.entries self.old.pages.items →
            BlocksStand machine.now.journal.entries self.new.pages.items }
        ensures sure { OnErr result (wanted ≡ true) }
    {
        if !wanted {
            return Ok(());
        }
        if self.pages.len() == self.pages.capacity() {
            self.drop_unmapped(machine);
        }
        self.pages.reserve(1).map_err(|_| NoMemory)
    }

    // Gives up the blocks that are mapped no longer.
    fn drop_unmapped<D: PageDisk, L: LogFile, Q: PostRoutine>(&mut self, machine: &Machine<D, L, Q>)
        ensures { self.new.pages.items
            ≡ filter (λ place. block_is_mapped (history machine.now.journal.entries place.stream) (place.page / 64)) self.old.pages.items }
    {
        self.pages.retain(|place| machine.is_block_mapped(place.stream, place.page / 64));
    }

    /// Follows an entry.
    pub(crate) fn follow(&mut self, entry: &Entry)
        requires room { is_some (page_brought entry.now) ≡ true → vec_len self.old.pages < vec_capacity self.old.pages }
        ensures { (past : List Entry) → BlocksStand past self.old.pages.items → BlocksStand (entry.now ∷ past) self.new.pages.items }
    {
        if let Some(place) = page_brought(entry) {
            self.note(place);
        }
    }

    /// Notes the block of a page.
    pub(crate) fn note(&mut self, place: PagePlace)
        requires room { vec_len self.old.pages < vec_capacity self.old.pages }
        ensures others { HasBlocks self.old.pages.items self.new.pages.items }
        ensures its { has_block self.new.pages.items place.stream (place.page / 64) ≡ true }
    {
        if !has_block(&self.pages, place.stream, place.page / 64) {
            self.pages.push_reserved(place);
        }
    }
}

// The page that an entry brings in, where it brings one.
fn page_brought(entry: &Entry) -> Option<PagePlace>
    ensures { result ≡ page_brought entry.now }
{
    match entry {
        Entry::PageIn { page, .. } => Some(PagePlace {
            stream: page.stream(),
            page: page.page(),
        }),
        Entry::Call {
            stream: Some(stream),
            call: Call::NcStore { page, .. },
            outcome: Outcome::Done(_),
            ..
        } => Some(PagePlace {
            stream: *stream,
            page: *page,
        }),
        _ => None,
    }
}

// Whether one of these pages is of a block of a stream.
fn has_block(pages: &[PagePlace], stream: StreamId, block: u64) -> bool
    ensures { result ≡ has_block pages.now stream block }
{
    for place in pages {
        if is_of_block(place, stream, block) {
            return true;
        }
    }
    false
}

// Whether a page is of a block of a stream.
fn is_of_block(place: &PagePlace, stream: StreamId, block: u64) -> bool
    ensures { result ≡ is_of_block stream block place.now }
{
    place.stream.number() == stream.number() && place.page / 64 == block
}
