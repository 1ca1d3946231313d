//! Rows of view blocks in their order, each with how many holds have a byte in it.

ghost use Rattle.std.specs.Prelude.{◌≡◌, ℕ, ◌+◌, ◌-◌, ◌<◌, ◌≤◌, ◌==◌, ◌&&◌, nat_lt, length, if◌then◌else◌, vec_len, vec_capacity, slice_index_or};
ghost use Rattle.cc_holds.specs.Blocks.{holds_at, AreBlockRows, IsPlaceOf, one_within};

use crate::reserved::insert_reserved;

/// A view block, and how many holds have a byte in it.
#[derive(Clone, Copy)]
pub(crate) struct BlockRow {
    pub(crate) block: u64,
    pub(crate) holds: u64,
}

/// The place of a block's row, and of the first later one where it has none.
pub(crate) fn place_of(rows: &[BlockRow], block: u64) -> usize
    requires { AreBlockRows rows.now }
    ensures { IsPlaceOf block rows.now result }
{
    rows.partition_point(|row| row.block < block)
}

/// Notes that one hold more has a byte in each block from `first` up to, and without, `end`.
pub(crate) fn note_all(rows: &mut Vec<BlockRow>, first: u64, end: u64)
    requires in_order { first ≤ end }
    requires rows { AreBlockRows rows.old.items }
    requires room { vec_len rows.old + (end - first) ≤ vec_capacity rows.old }
    requires fits { (b : ℕ) → holds_at b rows.old.items < u64.MAX }
    ensures rows { AreBlockRows rows.new.items }
    ensures noted { (b : ℕ) →
        holds_at b rows.new.items ≡ holds_at b rows.old.items + one_within first end b }
{
    for block in first..end {
        note(rows, block);
    }
}

/// Notes that one hold less has a byte in each block from `first` up to, and without, `end`.
pub(crate) fn release_all(rows: &mut Vec<BlockRow>, first: u64, end: u64)
    requires in_order { first ≤ end }
    requires rows { AreBlockRows rows.old.items }
    requires held { (b : ℕ) → one_within first end b ≤ holds_at b rows.old.items }
    ensures rows { AreBlockRows rows.new.items }
    ensures released { (b : ℕ) →
        holds_at b rows.old.items ≡ holds_at b rows.new.items + one_within first end b }
{
    for block in first..end {
        release(rows, block);
    }
}

fn note(rows: &mut Vec<BlockRow>, block: u64)
    requires rows { AreBlockRows rows.old.items }
    requires room { vec_len rows.old < vec_capacity rows.old }
    requires fits { holds_at block rows.old.items < u64.MAX }
    ensures rows { AreBlockRows rows.new.items }
    ensures noted { (b : ℕ) →
        holds_at b rows.new.items ≡ holds_at b rows.old.items + (if block == b then 1 else 0) }
    ensures len { vec_len rows.new ≤ vec_len rows.old + 1 }
    ensures capacity { vec_capacity rows.new ≡ vec_capacity rows.old }
{
    let place = place_of(rows, block);
    if is_at(rows, place, block) {
        rows[place].holds += 1;
    } else {
        insert_reserved(rows, place, BlockRow { block, holds: 1 });
    }
}

fn release(rows: &mut Vec<BlockRow>, block: u64)
    requires rows { AreBlockRows rows.old.items }
    requires held { 0 < holds_at block rows.old.items }
    ensures rows { AreBlockRows rows.new.items }
    ensures released { (b : ℕ) →
        holds_at b rows.old.items ≡ holds_at b rows.new.items + (if block == b then 1 else 0) }
{
    let place = place_of(rows, block);
    if rows[place].holds == 1 {
        let _ = rows.remove(place);
    } else {
        rows[place].holds -= 1;
    }
}

fn is_at(rows: &[BlockRow], place: usize, block: u64) -> bool
    ensures { (d : BlockRow) → result
        ≡ (nat_lt place (length rows.now) && ((slice_index_or rows.now place d).block == block)) }
{
    place < rows.len() && rows[place].block == block
}
