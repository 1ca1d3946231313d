//! The index of a stream: its size, and the tree of its index blocks.
//!
//! Whoever is lent an index shared reads an index block by `slot` alone, which counts it: so a bound
//! on the steps of a look-up bounds all the index blocks that it visits. The calls that change the
//! index look up uncounted.

ghost use Rattle.std.specs.Prelude.{◌≡◌, ◌≢◌, ℕ, ◌+◌, ◌*◌, ◌-◌, ◌^◌, ◌<◌, ◌≤◌, IfOk, IsOk, OnOk, OnErr, IsSome, is_some, if◌then◌else◌, None, Some};
ghost use Rattle.cc_vacb.specs.Index.{StartsBelow, entry_at, entry_count, block_count, slot_at};
ghost use Rattle.cc_vacb.specs.Levels.{levels_of, IsLeastLevels};

use crate::blocks::IndexBlock;
use crate::counter::{Ledger, Steps};
use crate::slots::Slot;
use crate::{levels, roots, tree};
use std::alloc::{AllocError, Global};
use std::marker::Model;
use thiserror::Error;

/// Memory was wanting, and nothing was changed.
#[derive(Clone, Copy, Debug, PartialEq, Eq, Error)]
#[error("no memory for an index block of the view index")]
pub struct NoMemory;

impl From<AllocError> for NoMemory {
    fn from(_error: AllocError) -> NoMemory {
        NoMemory
    }
}

/// Which view holds which block of a stream.
#[derive(Drop)]
pub struct ViewIndex {
    alloc: Global,
    size: u64,
    blocks: Vec<IndexBlock>,
}

impl Model for ViewIndex {
    ghost use Rattle.cc_vacb.specs.Index.{Index};
    ghost use Rattle.cc_vacb.specs.Tree.{IsIndex};

    ghost Value = { Index };

    ghost view = { λ x. record { size = x.size; blocks = x.blocks.items } };

    ghost invariant = { λ x. IsIndex x.size x.blocks.items };
}

impl ViewIndex {
    /// The index of a stream of that many bytes, which keeps the allocator. Answers `NoMemory` where memory is wanting.
    pub fn new(alloc: Global, size: u64) -> Result<ViewIndex, NoMemory>
        ensures size { IfOk result (λ index. index.size ≡ size) }
        ensures empty { IfOk result (λ index. (block : ℕ) → entry_at index block ≡ None) }
        ensures count { IfOk result (λ index. entry_count index ≡ 0) }
    {
        let top = levels::top_for(size);
        let root = IndexBlock::new(alloc, top, 0, levels::width_for(size))?;
        let mut blocks = Vec::with_capacity(alloc, 1)?;
        blocks.push_reserved(root);
        Ok(ViewIndex {
            alloc,
            size,
            blocks,
        })
    }

    /// Enters the view of a block, in the place of the one that it had. Answers `NoMemory` where memory is wanting, or
    /// where there are more than 4294967280 index blocks; then nothing has changed.
    pub fn put(&mut self, block: u64, view: u16) -> Result<(), NoMemory>
        requires { StartsBelow block self.old.size }
        ensures here { OnOk result (entry_at self.new block ≡ Some view) }
        ensures others { (other : ℕ) → other ≢ block → entry_at self.new other ≡ entry_at self.old other }
        ensures count { OnOk result
            (entry_count self.new
            ≡ entry_count self.old + (if is_some (entry_at self.old block) then 0 else 1)) }
        ensures size { self.new.size ≡ self.old.size }
        ensures err { OnErr result (self.new ≡ self.old) }
    {
        if self.blocks.len() > MAX_BLOCKS {
            return Err(NoMemory);
        }
        let top = levels::top_for(self.size);
        tree::put_view(self.alloc, &mut self.blocks, top, block, view)?;
        Ok(())
    }

    /// Takes the entry of a block out and answers its view, where it had one. It takes no memory.
    pub fn take(&mut self, block: u64) -> Option<u16>
        requires { StartsBelow block self.old.size }
        ensures value { result ≡ entry_at self.old block }
        ensures here { entry_at self.new block ≡ None }
        ensures others { (other : ℕ) → other ≢ block → entry_at self.new other ≡ entry_at self.old other }
        ensures count { entry_count self.new + (if is_some result then 1 else 0)
            ≡ entry_count self.old }
        ensures size { self.new.size ≡ self.old.size }
    {
        let top = levels::top_for(self.size);
        tree::take_view(&mut self.blocks, top, block)
    }

    /// The index of the same entries for another size. A size that is no greater takes no memory. A greater one answers
    /// `NoMemory` where memory is wanting, or where there are more than 4294967280 index blocks; then nothing has
    /// changed.
    pub fn resize(&mut self, size: u64) -> Result<(), NoMemory>
        requires { size < self.old.size
            → (block : ℕ) → IsSome (entry_at self.old block) → StartsBelow block size }
        ensures smaller { size ≤ self.old.size → IsOk result }
        ensures size { OnOk result (self.new.size ≡ size) }
        ensures entries { (block : ℕ) → entry_at self.new block ≡ entry_at self.old block }
        ensures count { entry_count self.new ≡ entry_count self.old }
        ensures err { OnErr result (self.new ≡ self.old) }
    {
        let top = levels::top_for(self.size);
        let to = levels::top_for(size);
        let width = levels::width_for(size);
        if width < 128 {
            roots::flatten(&mut self.blocks, top, width);
            self.size = size;
            return Ok(());
        }
        if size <= self.size {
            roots::lower(&mut self.blocks, top, to);
            self.size = size;
            return Ok(());
        }
        if self.blocks.len() > MAX_BLOCKS {
            return Err(NoMemory);
        }
        roots::grow(self.alloc, &mut self.blocks, top, to)?;
        self.size = size;
        Ok(())
    }

    /// How many levels the tree has for the size: the least number, from 1 on, whose slots cover it.
    pub fn levels(&self) -> u8
        ensures count { result ≡ levels_of self.now.size }
        ensures least { IsLeastLevels self.now.size result }
    {
        levels::levels_for(self.size)
    }

    /// How many index blocks there are.
    pub fn blocks(&self) -> u32
        ensures count { result ≡ block_count self.now }
        ensures bound { result ≤ levels_of self.now.size * entry_count self.now + 1 }
    {
        self.blocks.len() as u32
    }

    /// A slot of an index block, empty where there is none. The root has the number 0. To read one is a
    /// step.
    pub fn slot<L: Ledger>(&self, node: u32, i: u8, steps: &mut Steps<L>) -> Slot
        ensures value { result ≡ slot_at self.now node i }
        ensures counted { steps.new ≡ steps.old + 1 }
    {
        steps.tick();
        tree::slot_in(&self.blocks, node, i)
    }

    pub(crate) fn size(&self) -> u64
        ensures { result ≡ self.now.size }
    {
        self.size
    }
}

// With no more index blocks than this, one more path keeps their numbers in range.
const MAX_BLOCKS: usize = 0xffff_fff0;
