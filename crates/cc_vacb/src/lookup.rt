//! The look-up of a block. It stands apart from `index`, and so reaches index blocks by the counted
//! reader alone.

ghost use Rattle.std.specs.Prelude.{◌≡◌, ℕ, ◌+◌, ◌<◌, ◌≤◌, OnSome};
ghost use Rattle.cc_vacb.specs.Index.{StartsBelow, entry_at, entry_in, reach, slot_at, digits_of, led_by};
ghost use Rattle.cc_vacb.specs.Levels.{levels_of};
ghost use Rattle.cc_vacb.specs.Slots.{view_of};
ghost use Rattle.cc_vacb.specs.declared.slots.Slot.TheVariants.{Node};

use crate::counter::{Ledger, Steps};
use crate::index::ViewIndex;
use crate::levels;

impl ViewIndex {
    /// The view of a block. An index block that is visited is a step.
    pub fn get<L: Ledger>(&self, block: u64, steps: &mut Steps<L>) -> Option<u16>
        requires { StartsBelow block self.now.size }
        ensures value { result ≡ entry_at self.now block }
        ensures at_most { steps.new ≤ steps.old + levels_of self.now.size }
        ensures where_found { OnSome result (steps.new ≡ steps.old + levels_of self.now.size) }
        ensures by_digits { result ≡ view_of
            (led_by (slot_at self.now) (Node 0) (digits_of (levels_of self.now.size) block)) }
    {
        let top = levels::top_for(self.size());
        view_below(self, top, block, steps)
    }
}

// The view of a block, where the root has this height.
#[tactic(auto, using(crate::proofs::Reach::reaching))]
fn view_below<L: Ledger>(
    index: &ViewIndex,
    top: u8,
    block: u64,
    steps: &mut Steps<L>,
) -> Option<u16>
    ensures value { result ≡ entry_in index.now.blocks top block }
    ensures at_most { steps.new ≤ steps.old + top + 1 }
    ensures where_found { OnSome result (steps.new ≡ steps.old + top + 1) }
{
    match node_below(index, top, block / 128, steps) {
        Some(node) => index.slot(node, (block % 128) as u8, steps).view(),
        None => None,
    }
}

// The index block so many levels below the root that the digits of a prefix lead to.
#[tactic(auto, using(crate::proofs::Reach::reaching))]
fn node_below<L: Ledger>(
    index: &ViewIndex,
    depth: u8,
    prefix: u64,
    steps: &mut Steps<L>,
) -> Option<u32>
    ensures value { result ≡ reach index.now.blocks depth prefix }
    ensures at_most { steps.new ≤ steps.old + depth }
    ensures where_found { OnSome result (steps.new ≡ steps.old + depth) }
{
    if depth == 0 {
        return if prefix == 0 { Some(0) } else { None };
    }
    match node_below(index, depth - 1, prefix / 128, steps) {
        Some(node) => index.slot(node, (prefix % 128) as u8, steps).child(),
        None => None,
    }
}
