//! The mapped blocks of a stream from the least to the most recently used, found by the view index.

ghost use Rattle.std.specs.Prelude.{◌≡◌, ℕ, ◌+◌, ◌<◌, ◌≤◌, [], length, IsSome, IsTrue, position, slice_get, nat_eq, IfOk, IsOk, OnOk, OnErr, None, Some, is_some};
ghost use Rattle.std.specs.Option.{option_copied, option_copied_mut};
ghost use Rattle.std.specs.Borrow.{sem};
ghost use Rattle.cc_vacb.specs.Index.{StartsBelow, Index, entry_at};
ghost use Rattle.cc_vacb.specs.Levels.{levels_of, IsLeastLevels};
ghost use Rattle.cc_views.specs.Views.{mapped_blocks, frames_at, without_view, views_after_use, MapsLast, first_not_in, ViewsAreSound};

use cc_entry::{NoMemory, Quota};
use cc_pages::Frames;
use cc_vacb::{Ledger, Steps, ViewIndex};
use indexmap::IndexMap;
use std::alloc::Global;
use std::marker::{Brand, Model};
use std::sync::ledger::Blank;

/// The mapped blocks of a stream, from the least to the most recently used.
#[derive(Drop)]
pub struct Views {
    alloc: Global,
    quota: Quota,
    size: u64,
    index: ViewIndex,
    order: IndexMap<u64, Frames>,
}

impl Model for Views {
    ghost use Rattle.cc_views.specs.Views.{MappedViews};
    ghost use Rattle.cc_views.specs.Indexed.{ViewsAreIndexed};

    ghost Value = { MappedViews };

    ghost view = { λ v. record { views = v.order.entries; quota = v.quota; size = v.size } };

    ghost invariant = { λ v. ViewsAreIndexed v.order.entries v.quota v.size v.index };
}

impl Views {
    ghost use Rattle.cc_views.specs.Lent.{LendsFrames};

    /// No mapped block, of a stream of that many bytes. Answers `NoMemory` where memory is wanting.
    pub fn new(alloc: Global, quota: Quota, size: u64) -> Result<Views, NoMemory>
        ensures empty { IfOk result (λ v. v.views ≡ []) }
        ensures quota { IfOk result (λ v. v.quota ≡ quota) }
        ensures size { IfOk result (λ v. v.size ≡ size) }
    {
        // The number of blocks is what says that the quota is small.
        let _blocks = quota.blocks();
        let index = ViewIndex::new(alloc, size).map_err(|_| NoMemory)?;
        Ok(Views {
            alloc,
            quota,
            size,
            index,
            order: IndexMap::new(alloc),
        })
    }

    /// How many blocks are mapped.
    pub fn len(&self) -> usize
        ensures count { result ≡ length self.now.views }
        ensures few { result ≤ 64 }
        ensures sound { ViewsAreSound self.now }
    {
        self.order.len()
    }

    /// The most blocks that may be mapped.
    pub fn quota(&self) -> Quota
        ensures { result ≡ self.now.quota }
    {
        self.quota
    }

    /// How many bytes the stream has.
    pub fn size(&self) -> u64
        ensures { result ≡ self.now.size }
    {
        self.size
    }

    /// The frames of a mapped block.
    pub fn frames(&self, block: u64) -> Option<&Frames>
        ensures frames { option_copied result ≡ frames_at self.now block }
        ensures sound { ViewsAreSound self.now }
    {
        match self.place_of(block) {
            Some(place) => Some(&self.order[place]),
            None => None,
        }
    }

    /// The frames of a mapped block, to change.
    pub fn frames_mut(&mut self, block: u64) -> Option<&mut Frames>
        ensures* writes_back { sem 𝓛 (LendsFrames self.entry block result) }
        ensures frames { option_copied_mut result ≡ frames_at self.old block }
    {
        match self.place_of(block) {
            Some(place) => self.order.get_index_mut(place),
            None => None,
        }
    }

    /// Maps a block, with no page. Answers `NoMemory`, and then nothing has changed.
    pub fn add(&mut self, block: u64) -> Result<(), NoMemory>
        requires room { length self.old.views < self.old.quota }
        requires unmapped { frames_at self.old block ≡ None }
        requires starts { StartsBelow block self.old.size }
        ensures last { OnOk result (MapsLast self.old self.new block) }
        ensures quota { self.new.quota ≡ self.old.quota }
        ensures size { self.new.size ≡ self.old.size }
        ensures err { OnErr result (self.new ≡ self.old) }
    {
        let Ok(frames) = Frames::new(self.alloc) else {
            return Err(NoMemory);
        };
        self.order.reserve(1)?;
        let place = self.order.len() as u16;
        self.index.put(block, place).map_err(|_| NoMemory)?;
        let _old = self.order.insert(block, frames).unwrap();
        Ok(())
    }

    /// Gives up a block, and answers its frames.
    pub fn remove(&mut self, block: u64) -> Option<Frames>
        ensures frames { result ≡ frames_at self.old block }
        ensures rest { self.new ≡ record self.old { views = without_view self.old.views block } }
    {
        match self.view_of(block) {
            Some(_) => {
                self.index.take(block);
                self.order.shift_remove(&block)
            }
            None => None,
        }
    }

    /// The same blocks for another size of the stream. One that is no greater takes no memory. Answers `NoMemory`, and
    /// then nothing has changed.
    pub fn resize(&mut self, size: u64) -> Result<(), NoMemory>
        requires { (block : ℕ) → IsSome (frames_at self.old block) → StartsBelow block size }
        ensures smaller { size ≤ self.old.size → IsOk result }
        ensures ok { OnOk result (self.new ≡ record self.old { size = size }) }
        ensures err { OnErr result (self.new ≡ self.old) }
    {
        match self.index.resize(size) {
            Ok(()) => {
                self.size = size;
                Ok(())
            }
            Err(_) => Err(NoMemory),
        }
    }

    /// The levels of the view index.
    pub fn levels(&self) -> u8
        ensures count { result ≡ levels_of self.now.size }
        ensures least { IsLeastLevels self.now.size result }
    {
        self.index.levels()
    }

    /// Notes a use of a block: a mapped block becomes the most recently used.
    pub fn touch(&mut self, block: u64)
        ensures { self.new ≡ record self.old { views = views_after_use self.old.views block } }
    {
        match self.place_of(block) {
            Some(place) => {
                let last = self.order.len() - 1;
                self.order.move_index(place, last);
            }
            None => (),
        }
    }

    /// The least recently used block that is not among the kept ones.
    pub fn oldest_of(&self, kept: &[u64]) -> Option<u64>
        ensures oldest { result ≡ first_not_in kept.now (mapped_blocks self.now) }
        ensures sound { ViewsAreSound self.now }
    {
        for place in 0..self.order.len() {
            let block = self.block_at(place);
            if !kept.contains(&block) {
                return Some(block);
            }
        }
        None
    }

    /// The mapped block at a place of the order, counted from the least recently used.
    pub fn block_at(&self, place: usize) -> u64
        requires { place < length self.now.views }
        ensures { slice_get (mapped_blocks self.now) place ≡ Some result }
    {
        match self.order.get_index(place) {
            Some((block, _)) => *block,
            None => unreachable!(),
        }
    }

    // Where a mapped block stands in the order. Blocks are used one after another for the most part, so it is looked for
    // where it then stands. The index has the place that it had as it was mapped, and only if another block stands there
    // now is it looked up by its hash.
    fn place_of(&self, block: u64) -> Option<usize>
        ensures { result ≡ position (nat_eq block) (mapped_blocks self.now) }
    {
        let in_turn = self.place_in_turn(block);
        if in_turn.is_some() {
            return in_turn;
        }
        match self.view_of(block) {
            Some(view) => {
                if self.is_at(view as usize, block) {
                    Some(view as usize)
                } else {
                    self.order.get_index_of(&block)
                }
            }
            None => None,
        }
    }

    // The place of a block that is used again, or of one that was used as many blocks behind the oldest as it stands in
    // the stream.
    fn place_in_turn(&self, block: u64) -> Option<usize>
        ensures { IsSome result → result ≡ position (nat_eq block) (mapped_blocks self.now) }
    {
        let last = self.order.len().checked_sub(1)?;
        if self.is_at(last, block) {
            return Some(last);
        }
        let place = block.checked_sub(self.block_at(0))? as usize;
        if self.is_at(place, block) {
            Some(place)
        } else {
            None
        }
    }

    fn is_at(&self, place: usize, block: u64) -> bool
        ensures { IsTrue result → slice_get (mapped_blocks self.now) place ≡ Some block }
    {
        match self.order.get_index(place) {
            Some((there, _)) => *there == block,
            None => false,
        }
    }

    // The view number of a block, if it is mapped.
    fn view_of(&self, block: u64) -> Option<u16>
        ensures { is_some result ≡ is_some (frames_at self.now block) }
    {
        if block as u128 * 262144 >= self.size as u128 {
            return None;
        }
        view_in::<Brand>(&self.index, block, Blank::new(1))
    }
}

// The view that the index has of a block. The count of the index blocks visited is let go.
fn view_in<L: Ledger>(index: &ViewIndex, block: u64, blank: Blank) -> Option<u16>
    requires name { blank.name ≡ L.name }
    requires parts { blank.parts ≡ L.parts }
    requires some { 0 < blank.parts }
    requires starts { StartsBelow block index.now.size }
    ensures { result ≡ entry_at index.now block }
{
    let mut steps = Steps::<L>::new(blank);
    index.get(block, &mut steps)
}
