//! An index block of the tree of views: up to 128 slots, its height, and its place in the tree.

ghost use Rattle.std.specs.Prelude.{◌≡◌, ℕ, ◌==◌, ◌<◌, ◌-◌, ◌++◌, IfOk, OnOk, OnErr, length, take, replicate, slice_index_or, slice_set};
ghost use Rattle.cc_vacb.specs.declared.slots.Slot.TheVariants.{Empty};
ghost use Rattle.cc_vacb.specs.Block.{blank_block, used_slots};

use crate::slots::Slot;
use std::alloc::{AllocError, Global};
use std::marker::Model;

/// An index block: its slots, and its own place in the tree. A block of height 0 holds views, and
/// covers the blocks of the stream whose number divided by 128 is its prefix; a block above covers
/// those that its own prefix is reached from by further divisions.
#[derive(Drop)]
pub(crate) struct IndexBlock {
    height: u8,
    prefix: u64,
    slots: Vec<Slot>,
}

impl Model for IndexBlock {
    ghost use Rattle.cc_vacb.specs.Block.{Block};

    ghost Value = { Block };

    ghost view = { λ b. record { height = b.height; prefix = b.prefix; slots = b.slots.items } };
}

impl IndexBlock {
    #[tactic(auto, unfolding(crate::specs::Block::blank_block))]
    pub(crate) fn new(
        alloc: Global,
        height: u8,
        prefix: u64,
        width: usize,
    ) -> Result<IndexBlock, AllocError>
        ensures { IfOk result (λ b. b ≡ blank_block height prefix width) }
    {
        let slots = vec![in alloc; Slot::Empty; width]?;
        Ok(IndexBlock {
            height,
            prefix,
            slots,
        })
    }

    pub(crate) fn height(&self) -> u8
        ensures { result ≡ self.now.height }
    {
        self.height
    }

    pub(crate) fn prefix(&self) -> u64
        ensures { result ≡ self.now.prefix }
    {
        self.prefix
    }

    pub(crate) fn slot(&self, i: u8) -> Slot
        ensures { result ≡ slice_index_or self.now.slots i Empty }
    {
        match self.slots.get(usize::from(i)) {
            Some(slot) => *slot,
            None => Slot::Empty,
        }
    }

    pub(crate) fn put(&mut self, i: u8, slot: Slot)
        requires { i < length self.old.slots }
        ensures { self.new ≡ record self.old { slots = slice_set self.old.slots i slot } }
    {
        self.slots[usize::from(i)] = slot;
    }

    pub(crate) fn set_height(&mut self, height: u8)
        ensures { self.new ≡ record self.old { height = height } }
    {
        self.height = height;
    }

    // Fills the slots up to 128.
    pub(crate) fn widen(&mut self) -> Result<(), AllocError>
        ensures ok { OnOk result
            (self.new
            ≡ record self.old {
              slots = take 128 self.old.slots ++ replicate (128 - length self.old.slots) Empty;
            }) }
        ensures err { OnErr result (self.new ≡ self.old) }
    {
        self.slots.resize(128, Slot::Empty)
    }

    // Cuts the slots down to the number that is given.
    pub(crate) fn narrow(&mut self, width: usize)
        ensures { self.new ≡ record self.old { slots = take width self.old.slots } }
    {
        self.slots.truncate(width);
    }

    pub(crate) fn is_empty(&self) -> bool
        ensures { result ≡ (used_slots self.now == 0) }
    {
        for slot in &self.slots {
            if *slot != Slot::Empty {
                return false;
            }
        }
        true
    }
}
