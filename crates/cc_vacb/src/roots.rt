//! Levels put above the root, and taken away.

ghost use Rattle.std.specs.Prelude.{◌≡◌, ℕ, ◌+◌, ◌-◌, ◌^◌, ◌<◌, ◌≤◌, length, IfOk, OnOk, OnErr};
ghost use Rattle.cc_vacb.specs.Block.{used_slots};
ghost use Rattle.cc_vacb.specs.Index.{block_in};
ghost use Rattle.cc_vacb.specs.Tree.{IsTree, FilledBut, ChangesTop, EntriesBelow};
ghost use Rattle.std.specs.Vec.{vec_len, vec_capacity};

use crate::blocks::IndexBlock;
use crate::slots::Slot;
use crate::tree::{put_slot, slot_in, unlink};
use std::alloc::{AllocError, Global};
use std::mem;

// Puts new roots above the root until it has the height that is asked for. All memory is taken
// before the first one.
fn raise(
    alloc: Global,
    blocks: &mut Vec<IndexBlock>,
    top: u8,
    to: u8,
    pending: usize,
) -> Result<(), AllocError>
    requires tree { IsTree top blocks.old.items }
    requires filled { FilledBut 0 blocks.old.items }
    requires used { 0 < used_slots (block_in blocks.old.items 0) }
    requires order { top ≤ to }
    requires numbers { length blocks.old.items + (to - top) < 2 ^ 32 }
    requires few_pending { pending + to < 2 ^ 32 }
    ensures ok { OnOk result (ChangesTop top to blocks.old.items blocks.new.items) }
    ensures wide { OnOk result (length (block_in blocks.new.items 0).slots ≡ 128) }
    ensures capacity { OnOk result (vec_len blocks.new + pending ≤ vec_capacity blocks.new) }
    ensures err { OnErr result (blocks.new.items ≡ blocks.old.items) }
{
    if to == top {
        blocks.reserve(pending)?;
        blocks[0].widen()?;
        return Ok(());
    }
    let block = IndexBlock::new(alloc, to, 0, 128)?;
    raise(alloc, blocks, top, to - 1, pending + 1)?;
    let node = blocks.len() as u32;
    let root = mem::replace(&mut blocks[0], block);
    blocks.push_reserved(root);
    put_slot(blocks, 0, 0, Slot::Node(node));
    Ok(())
}

// Gives the tree as many levels as are asked for, or as many slots in its root.
pub(crate) fn grow(
    alloc: Global,
    blocks: &mut Vec<IndexBlock>,
    top: u8,
    to: u8,
) -> Result<(), AllocError>
    requires tree { IsTree top blocks.old.items }
    requires filled { FilledBut 0 blocks.old.items }
    requires order { top ≤ to }
    requires numbers { length blocks.old.items + (to - top) < 2 ^ 32 }
    ensures ok { OnOk result (ChangesTop top to blocks.old.items blocks.new.items) }
    ensures wide { OnOk result (length (block_in blocks.new.items 0).slots ≡ 128) }
    ensures err { OnErr result (blocks.new.items ≡ blocks.old.items) }
{
    if !blocks[0].is_empty() {
        return raise(alloc, blocks, top, to, 0);
    }
    blocks[0].widen()?;
    blocks[0].set_height(to);
    Ok(())
}

// Takes the root away. The one index block below it, if there is one, is the root then.
fn lower_root(blocks: &mut Vec<IndexBlock>, top: u8)
    requires tree { IsTree top blocks.old.items }
    requires filled { FilledBut 0 blocks.old.items }
    requires levels { 0 < top }
    requires numbers { length blocks.old.items ≤ 2 ^ 32 }
    requires small { EntriesBelow top blocks.old.items (128 ^ top) }
    ensures changed { ChangesTop top (top - 1) blocks.old.items blocks.new.items }
    ensures wide { length (block_in blocks.old.items 0).slots
        ≤ length (block_in blocks.new.items 0).slots }
{
    match slot_in(blocks, 0, 0).child() {
        Some(child) => {
            let _root = unlink(blocks, top, child);
            let block = blocks.swap_remove(child as usize);
            blocks[0] = block;
        }
        None => blocks[0].set_height(top - 1),
    }
}

// Takes roots away until the root has the height that is asked for.
pub(crate) fn lower(blocks: &mut Vec<IndexBlock>, top: u8, to: u8)
    requires tree { IsTree top blocks.old.items }
    requires filled { FilledBut 0 blocks.old.items }
    requires order { to ≤ top }
    requires numbers { length blocks.old.items ≤ 2 ^ 32 }
    requires small { EntriesBelow top blocks.old.items (128 ^ (to + 1)) }
    ensures changed { ChangesTop top to blocks.old.items blocks.new.items }
    ensures wide { length (block_in blocks.old.items 0).slots
        ≤ length (block_in blocks.new.items 0).slots }
{
    let mut height = top;
    while height > to {
        lower_root(blocks, height);
        height -= 1;
    }
}

// Leaves the one block of a small stream, with so many slots.
pub(crate) fn flatten(blocks: &mut Vec<IndexBlock>, top: u8, width: usize)
    requires tree { IsTree top blocks.old.items }
    requires filled { FilledBut 0 blocks.old.items }
    requires numbers { length blocks.old.items ≤ 2 ^ 32 }
    requires small { EntriesBelow top blocks.old.items width }
    requires few { width ≤ length (block_in blocks.old.items 0).slots }
    ensures changed { ChangesTop top 0 blocks.old.items blocks.new.items }
    ensures width { length (block_in blocks.new.items 0).slots ≡ width }
{
    lower(blocks, top, 0);
    blocks[0].narrow(width);
}
