//! The view blocks that have a byte of an open hold, in their order, each once, with how many holds have a byte in it.

ghost use Rattle.std.specs.Prelude.{◌≡◌, ℕ, ◌+◌, ◌-◌, ◌<◌, ◌≤◌, ◌^◌, ◌++◌, ◌||◌, List, [], nat_eq, nat_lt, map, vec_len, OnOk, OnErr, IfOk};
ghost use Rattle.std.specs.List.{IsDistinct, range_with_len};
ghost use Rattle.std.specs.Set.{distinct_count};
ghost use Rattle.cc_model.specs.Numbers.{is_among};
ghost use Rattle.cc_holds.specs.Blocks.{holds_at, HasHeldBlocks, one_within};

use crate::block_rows::{BlockRow, note_all, place_of, release_all};
use cc_entry::NoMemory;
use std::alloc::Global;
use std::marker::Model;

/// The view blocks of open holds.
#[derive(Drop)]
pub(crate) struct HeldBlocks {
    rows: Vec<BlockRow>,
}

impl Model for HeldBlocks {
    ghost use Rattle.std.specs.Prelude.{List};
    ghost use Rattle.cc_holds.specs.declared.block_rows.BlockRow.{BlockRow};
    ghost use Rattle.cc_holds.specs.Blocks.{AreBlockRows};

    ghost Value = { List BlockRow };

    ghost view = { λ b. b.rows.items };

    ghost invariant = { λ b. AreBlockRows b.rows.items };
}

impl HeldBlocks {
    /// No block.
    pub(crate) fn new(alloc: Global) -> HeldBlocks
        ensures { result ≡ [] }
    {
        HeldBlocks {
            rows: Vec::new(alloc),
        }
    }

    /// Notes a further hold with a byte in each block from `first` up to, and without, `end`. Answers `NoMemory`, and
    /// then nothing has changed.
    pub(crate) fn add(&mut self, first: u64, end: u64) -> Result<(), NoMemory>
        requires in_order { first ≤ end }
        requires fits { (b : ℕ) → holds_at b self.old < u64.MAX }
        ensures ok { OnOk result ((b : ℕ) →
            holds_at b self.new ≡ holds_at b self.old + one_within first end b) }
        ensures err { OnErr result (self.new ≡ self.old) }
    {
        let count = (end - first) as usize;
        self.rows.reserve(count).map_err(|_| NoMemory)?;
        note_all(&mut self.rows, first, end);
        Ok(())
    }

    /// Notes the end of a hold with a byte in each block from `first` up to, and without, `end`.
    pub(crate) fn remove(&mut self, first: u64, end: u64)
        requires in_order { first ≤ end }
        requires held { (b : ℕ) → one_within first end b ≤ holds_at b self.old }
        ensures { (b : ℕ) → holds_at b self.old ≡ holds_at b self.new + one_within first end b }
    {
        release_all(&mut self.rows, first, end);
    }

    /// How many blocks there are.
    pub(crate) fn count(&self) -> usize
        ensures { (bs : List ℕ) → HasHeldBlocks self.now bs → result ≡ distinct_count nat_eq bs }
    {
        self.rows.len()
    }

    /// The blocks, each once. Answers `NoMemory` where memory is wanting.
    pub(crate) fn all(&self, alloc: Global) -> Result<Vec<u64>, NoMemory>
        ensures distinct { IfOk result (λ blocks. IsDistinct nat_eq blocks.items) }
        ensures same { IfOk result (λ blocks. HasHeldBlocks self.now blocks.items) }
        ensures counted { IfOk result (λ blocks. (bs : List ℕ) → HasHeldBlocks self.now bs →
            vec_len blocks ≡ distinct_count nat_eq bs) }
    {
        let mut blocks = Vec::new(alloc);
        add_rows(&mut blocks, &self.rows)?;
        Ok(blocks)
    }

    /// The blocks, and those from `first` up to, and without, `end`, each once. Answers `NoMemory` where memory is
    /// wanting.
    pub(crate) fn with(&self, alloc: Global, first: u64, end: u64) -> Result<Vec<u64>, NoMemory>
        requires in_order { first ≤ end }
        ensures same { IfOk result (λ blocks. (b : ℕ) → is_among b blocks.items
            ≡ (nat_lt 0 (holds_at b self.now) || is_among b (range_with_len first (end - first)))) }
        ensures counted { IfOk result (λ blocks. (bs : List ℕ) → HasHeldBlocks self.now bs →
            vec_len blocks ≡ distinct_count nat_eq (bs ++ range_with_len first (end - first))) }
    {
        let before = place_of(&self.rows, first);
        let after = place_of(&self.rows, end);
        let mut blocks = Vec::new(alloc);
        add_rows(&mut blocks, &self.rows[..before])?;
        add_range(&mut blocks, first, end)?;
        add_rows(&mut blocks, &self.rows[after..])?;
        Ok(blocks)
    }

    /// How many there are with those from `first` up to, and without, `end`, each counted once.
    pub(crate) fn count_with(&self, first: u64, end: u64) -> u64
        requires in_order { first ≤ end }
        requires fits { end ≤ 2 ^ 62 }
        ensures { (bs : List ℕ) → HasHeldBlocks self.now bs →
            result ≡ distinct_count nat_eq (bs ++ range_with_len first (end - first)) }
    {
        let before = place_of(&self.rows, first);
        let after = place_of(&self.rows, end);
        let others = before + (self.rows.len() - after);
        others as u64 + (end - first)
    }
}

// Adds the blocks of rows.
fn add_rows(blocks: &mut Vec<u64>, rows: &[BlockRow]) -> Result<(), NoMemory>
    ensures { OnOk result (blocks.new.items ≡ blocks.old.items ++ map (λ row. row.block) rows.now) }
{
    for row in rows {
        blocks.push(row.block)?;
    }
    Ok(())
}

// Adds the numbers from `first` up to, and without, `end`.
fn add_range(blocks: &mut Vec<u64>, first: u64, end: u64) -> Result<(), NoMemory>
    requires { first ≤ end }
    ensures { OnOk result (blocks.new.items ≡ blocks.old.items ++ range_with_len first (end - first)) }
{
    for block in first..end {
        blocks.push(block)?;
    }
    Ok(())
}
