//! The tree of index blocks: looked up, grown along a path, and pruned.

ghost use Rattle.std.specs.Prelude.{◌≡◌, ℕ, ◌+◌, ◌*◌, ◌/◌, ◌%◌, ◌<◌, ◌≤◌, ◌^◌, ◌-◌, ◌≢◌, length, IfOk, OnOk, OnErr};
ghost use Rattle.cc_vacb.specs.Block.{used_slots};
ghost use Rattle.cc_vacb.specs.Index.{reach, slot_in, block_in, entry_in};
ghost use Rattle.cc_vacb.specs.Tree.{put_slot, IsTree, FilledBut, ExtendsTo, Relinked, RemovesBlock, TreeKept, PutsView, TakesView};
ghost use Rattle.cc_vacb.specs.declared.slots.Slot.TheVariants.{Node};
ghost use Rattle.std.specs.Vec.{vec_len, vec_capacity};

use crate::blocks::IndexBlock;
use crate::slots::Slot;
use std::alloc::{AllocError, Global};

// The slot of an index block, empty where there is no such slot.
pub(crate) fn slot_in(blocks: &[IndexBlock], node: u32, i: u8) -> Slot
    ensures { result ≡ slot_in blocks.now node i }
{
    match blocks.get(node as usize) {
        Some(block) => block.slot(i),
        None => Slot::Empty,
    }
}

pub(crate) fn put_slot(blocks: &mut Vec<IndexBlock>, node: u32, i: u8, slot: Slot)
    requires node_in { node < length blocks.old.items }
    requires slot_in { i < length (block_in blocks.old.items node).slots }
    ensures put { blocks.new.items ≡ put_slot blocks.old.items node i slot }
    ensures capacity { vec_capacity blocks.new ≡ vec_capacity blocks.old }
{
    blocks[node as usize].put(i, slot);
}

#[tactic(auto, using(crate::proofs::Reach::reaching))]
pub(crate) fn find(blocks: &[IndexBlock], depth: u8, prefix: u64) -> Option<u32>
    ensures { result ≡ reach blocks.now depth prefix }
{
    if depth == 0 {
        return if prefix == 0 { Some(0) } else { None };
    }
    match find(blocks, depth - 1, prefix / 128) {
        Some(node) => slot_in(blocks, node, (prefix % 128) as u8).child(),
        None => None,
    }
}

// The index block so many levels below the root, with the blocks on the way there that are missing.
// All memory is taken before the first block is added.
pub(crate) fn add_path(
    alloc: Global,
    blocks: &mut Vec<IndexBlock>,
    top: u8,
    depth: u8,
    prefix: u64,
    pending: usize,
) -> Result<u32, AllocError>
    requires tree { IsTree top blocks.old.items }
    requires filled { FilledBut 0 blocks.old.items }
    requires depth_in { depth ≤ top }
    requires covered { prefix < 128 ^ depth }
    requires numbers { length blocks.old.items + depth < 2 ^ 32 }
    requires few_pending { pending + depth < 2 ^ 32 }
    ensures extends { IfOk result (ExtendsTo top depth prefix blocks.old.items blocks.new.items) }
    ensures capacity { OnOk result (vec_len blocks.new + pending ≤ vec_capacity blocks.new) }
    ensures err { OnErr result (blocks.new.items ≡ blocks.old.items) }
{
    match find(blocks, depth, prefix) {
        Some(node) => {
            blocks.reserve(pending)?;
            Ok(node)
        }
        None => {
            let block = IndexBlock::new(alloc, top - depth, prefix, 128)?;
            let parent = add_path(alloc, blocks, top, depth - 1, prefix / 128, pending + 1)?;
            let node = blocks.len() as u32;
            blocks.push_reserved(block);
            put_slot(blocks, parent, (prefix % 128) as u8, Slot::Node(node));
            Ok(node)
        }
    }
}

// The index block above one that is not the root.
fn parent_of(blocks: &[IndexBlock], top: u8, node: u32) -> u32
    requires tree { IsTree top blocks.now }
    requires inner { 0 < node }
    requires node_in { node < length blocks.now }
    ensures { slot_in blocks.now result ((block_in blocks.now node).prefix % 128) ≡ Node node }
{
    let block = &blocks[node as usize];
    match find(blocks, top - block.height() - 1, block.prefix() / 128) {
        Some(parent) => parent,
        None => unreachable!(),
    }
}

// Frees the place of an index block for the last one, and answers the block above it.
pub(crate) fn unlink(blocks: &mut Vec<IndexBlock>, top: u8, node: u32) -> u32
    requires tree { IsTree top blocks.old.items }
    requires inner { 0 < node }
    requires node_in { node < length blocks.old.items }
    requires numbers { length blocks.old.items ≤ 2 ^ 32 }
    ensures { Relinked node (length blocks.old.items - 1) result blocks.old.items blocks.new.items }
{
    let parent = parent_of(blocks, top, node);
    let digit = (blocks[node as usize].prefix() % 128) as u8;
    let last = (blocks.len() - 1) as u32;
    if node == last {
        put_slot(blocks, parent, digit, Slot::Empty);
    } else {
        let above = parent_of(blocks, top, last);
        let place = (blocks[last as usize].prefix() % 128) as u8;
        put_slot(blocks, parent, digit, Slot::Empty);
        put_slot(blocks, above, place, Slot::Node(node));
    }
    parent
}

// Takes an index block with no used slot out of the tree, and answers the block above it.
fn remove_block(blocks: &mut Vec<IndexBlock>, top: u8, node: u32) -> u32
    requires tree { IsTree top blocks.old.items }
    requires filled { FilledBut node blocks.old.items }
    requires inner { 0 < node }
    requires node_in { node < length blocks.old.items }
    requires empty { used_slots (block_in blocks.old.items node) ≡ 0 }
    requires numbers { length blocks.old.items ≤ 2 ^ 32 }
    ensures { RemovesBlock top blocks.old.items blocks.new.items result }
{
    let last = (blocks.len() - 1) as u32;
    let parent = unlink(blocks, top, node);
    let _removed = blocks.swap_remove(node as usize);
    if parent == last { node } else { parent }
}

// Takes the index blocks with no used slot out of the tree, from one up towards the root.
pub(crate) fn prune(blocks: &mut Vec<IndexBlock>, top: u8, from: u32)
    requires tree { IsTree top blocks.old.items }
    requires filled { FilledBut from blocks.old.items }
    requires from_in { from < length blocks.old.items }
    requires numbers { length blocks.old.items ≤ 2 ^ 32 }
    ensures kept { TreeKept top blocks.old.items blocks.new.items }
    ensures filled { FilledBut 0 blocks.new.items }
{
    let mut node = from;
    while node != 0 && blocks[node as usize].is_empty() {
        node = remove_block(blocks, top, node);
    }
}

// Gives a block of the stream its view. Nothing is changed where memory is wanting.
pub(crate) fn put_view(
    alloc: Global,
    blocks: &mut Vec<IndexBlock>,
    top: u8,
    block: u64,
    view: u16,
) -> Result<(), AllocError>
    requires tree { IsTree top blocks.old.items }
    requires filled { FilledBut 0 blocks.old.items }
    requires covered { block / 128 < 128 ^ top }
    requires root_in { top ≡ 0 → block % 128 < length (block_in blocks.old.items 0).slots }
    requires numbers { length blocks.old.items + top < 2 ^ 32 }
    ensures ok { OnOk result (PutsView top block view blocks.old.items blocks.new.items) }
    ensures err { OnErr result (blocks.new.items ≡ blocks.old.items) }
{
    let node = add_path(alloc, blocks, top, top, block / 128, 0)?;
    put_slot(blocks, node, (block % 128) as u8, Slot::View(view));
    Ok(())
}

// Takes the view of a block of the stream, and the index blocks that lead nowhere then.
pub(crate) fn take_view(blocks: &mut Vec<IndexBlock>, top: u8, block: u64) -> Option<u16>
    requires tree { IsTree top blocks.old.items }
    requires filled { FilledBut 0 blocks.old.items }
    requires numbers { length blocks.old.items ≤ 2 ^ 32 }
    ensures value { result ≡ entry_in blocks.old.items top block }
    ensures taken { TakesView top block blocks.old.items blocks.new.items }
{
    match find(blocks, top, block / 128) {
        None => None,
        Some(node) => {
            let digit = (block % 128) as u8;
            match slot_in(blocks, node, digit).view() {
                None => None,
                Some(view) => {
                    put_slot(blocks, node, digit, Slot::Empty);
                    prune(blocks, top, node);
                    Some(view)
                }
            }
        }
    }
}
