//! The open holds of a stream by id, each with the pages that were written through it and not set dirty since.

ghost use Rattle.std.specs.Prelude.{◌≡◌, ℕ, count_by, ◌+◌, ◌<◌, [], ◌∷◌, ◌++◌, All, OnOk, OnErr, IsSome, IsTrue, true, min};
ghost use Rattle.std.specs.Option.{option_copied, option_map};
ghost use Rattle.cc_holds.specs.Holds.{hold_of, without_hold, inserted, Changes, opened, hold_written, cleaned, hold_pinned, hold_overlaps, pin_conflicts, is_unstamped_through, ends_past, first_id, IsLeastHold, has_block, active_blocks};
ghost use Rattle.cc_holds.specs.Blocks.{holds_at};

use crate::blocks::block_range;
use crate::held_blocks::HeldBlocks;
use crate::lookup::{
    first_conflict, first_of, first_overlapping, first_past, first_unstamped, place_after, place_of,
};
use crate::ranges::{end_of, widened};
use crate::reserved::insert_reserved;
use crate::touched::TouchedPages;
use cc_entry::{HoldKind, HoldRow, NoMemory, Span};
use std::alloc::Global;
use std::marker::Model;

/// A hold, the pass that made it, and the pages that were written through it since its last set-dirty.
#[derive(Drop)]
pub struct KeptHold {
    pub row: HoldRow,
    pub pass: u32,
    pub touched: TouchedPages,
}

impl KeptHold {
    ghost use Rattle.std.specs.Prelude.{◌≡◌, OnOk, OnErr};
    ghost use Rattle.cc_holds.specs.Holds.{hold_written, cleaned, hold_pinned};

    fn write(&mut self, span: Span) -> Result<(), NoMemory>
        ensures ok { OnOk result (self.new ≡ hold_written span self.old) }
        ensures err { OnErr result (self.new ≡ self.old) }
    {
        self.touched.touch(span)?;
        self.row.written = widened(self.row.written, span);
        Ok(())
    }

    fn clean(&mut self)
        ensures { self.new ≡ cleaned self.old }
    {
        self.touched.clear();
        self.row.written = None;
    }

    fn pin(&mut self, exclusive: bool)
        ensures { self.new ≡ hold_pinned exclusive self.old }
    {
        self.row.kind = HoldKind::Pin;
        self.row.exclusive = exclusive;
    }
}

/// The open holds of a stream, by id.
#[derive(Drop)]
pub struct Holds {
    holds: Vec<KeptHold>,
    blocks: HeldBlocks,
    alloc: Global,
}

impl Model for Holds {
    ghost use Rattle.std.specs.Prelude.{List};
    ghost use Rattle.cc_holds.specs.declared.holds.KeptHold.{KeptHold};
    ghost use Rattle.cc_holds.specs.Blocks.{AreKept};

    ghost Value = { List KeptHold };

    ghost view = { λ h. h.holds.items };

    ghost invariant = { λ h. AreKept h.holds.items h.blocks };
}

impl Holds {
    /// No open hold. The allocator is kept for the holds to come.
    pub fn new(alloc: Global) -> Holds
        ensures { result ≡ [] }
    {
        Holds {
            holds: Vec::new(alloc),
            blocks: HeldBlocks::new(alloc),
            alloc,
        }
    }

    /// The holds, by id.
    pub fn all(&self) -> &[KeptHold]
        ensures { result.now ≡ self.now }
    {
        &self.holds
    }

    /// The row of the open hold of an id, where there is one.
    pub fn get(&self, id: u64) -> Option<&HoldRow>
        ensures { option_copied result ≡ option_map (λ h. h.row) (hold_of self.now id) }
    {
        let place = place_of(&self.holds, id);
        if place == self.holds.len() {
            return None;
        }
        Some(&self.holds[place].row)
    }

    /// The pass that made the open hold of an id, where there is one.
    pub fn pass_of(&self, id: u64) -> Option<u32>
        ensures { result ≡ option_map (λ h. h.pass) (hold_of self.now id) }
    {
        let place = place_of(&self.holds, id);
        if place == self.holds.len() {
            return None;
        }
        Some(self.holds[place].pass)
    }

    /// Opens a hold of a pass. Where its row has a written span, the pages of that span are touched. Answers `NoMemory`,
    /// and then nothing has changed.
    pub fn add(&mut self, pass: u32, hold: HoldRow) -> Result<(), NoMemory>
        ensures ok { OnOk result (self.new ≡ inserted self.old (opened pass hold)) }
        ensures err { OnErr result (self.new ≡ self.old) }
    {
        let mut touched = TouchedPages::new(self.alloc);
        if let Some(span) = hold.written {
            touched.touch(span)?;
        }
        let (first, end) = block_range(u128::from(hold.at), end_of(&hold));
        self.holds.reserve(1).map_err(|_| NoMemory)?;
        self.blocks.add(first, end)?;
        let place = place_after(&self.holds, hold.id);
        insert_reserved(
            &mut self.holds,
            place,
            KeptHold {
                row: hold,
                pass,
                touched,
            },
        );
        Ok(())
    }

    /// Ends the hold of an id.
    pub fn remove(&mut self, id: u64) -> Option<HoldRow>
        ensures row { result ≡ option_map (λ h. h.row) (hold_of self.old id) }
        ensures rest { self.new ≡ without_hold self.old id }
    {
        let place = place_of(&self.holds, id);
        if place == self.holds.len() {
            return None;
        }
        let KeptHold {
            row,
            pass: _,
            touched: _,
        } = self.holds.remove(place);
        let (first, end) = block_range(u128::from(row.at), end_of(&row));
        self.blocks.remove(first, end);
        Some(row)
    }

    /// Notes a write through the hold of an id. Answers `NoMemory`, and then nothing has changed.
    pub fn touch(&mut self, id: u64, span: Span) -> Result<(), NoMemory>
        requires { IsSome (hold_of self.old id) }
        ensures ok { OnOk result (Changes self.old self.new id (hold_written span)) }
        ensures err { OnErr result (self.new ≡ self.old) }
    {
        let place = place_of(&self.holds, id);
        self.holds[place].write(span)
    }

    /// Notes a set-dirty of the hold of an id.
    pub fn stamp(&mut self, id: u64)
        requires { IsSome (hold_of self.old id) }
        ensures { Changes self.old self.new id cleaned }
    {
        let place = place_of(&self.holds, id);
        self.holds[place].clean();
    }

    /// Makes the mapped hold of an id a pin.
    pub fn pin(&mut self, id: u64, exclusive: bool)
        requires { IsSome (hold_of self.old id) }
        ensures { Changes self.old self.new id (hold_pinned exclusive) }
    {
        let place = place_of(&self.holds, id);
        self.holds[place].pin(exclusive);
    }

    /// The least id of a hold that shares a page with the span.
    pub fn overlapping(&self, span: Span) -> Option<u64>
        ensures first { result ≡ first_id (hold_overlaps span) self.now }
        ensures least { IsLeastHold (hold_overlaps span) self.now result }
    {
        first_overlapping(&self.holds, span)
    }

    /// The least id of a pin that forbids a pin on the span: one of the two is exclusive.
    pub fn pin_conflict(&self, span: Span, exclusive: bool) -> Option<u64>
        ensures first { result ≡ first_id (pin_conflicts span exclusive) self.now }
        ensures least { IsLeastHold (pin_conflicts span exclusive) self.now result }
    {
        first_conflict(&self.holds, span, exclusive)
    }

    /// The least id of a pin through which the page was written, with no set-dirty since.
    pub fn unstamped(&self, page: u64) -> Option<u64>
        ensures first { result ≡ first_id (is_unstamped_through page) self.now }
        ensures least { IsLeastHold (is_unstamped_through page) self.now result }
    {
        first_unstamped(&self.holds, page)
    }

    /// The least id of a hold that ends past a size.
    pub fn ending_past(&self, size: u64) -> Option<u64>
        ensures first { result ≡ first_id (ends_past size) self.now }
        ensures least { IsLeastHold (ends_past size) self.now result }
    {
        first_past(&self.holds, size)
    }

    /// The least id of a hold.
    pub fn first(&self) -> Option<u64>
        ensures first { result ≡ first_id (λ _. true) self.now }
        ensures least { IsLeastHold (λ _. true) self.now result }
    {
        first_of(&self.holds)
    }

    /// How many view blocks have a byte of a hold, at most `u32::MAX`.
    pub fn active_blocks(&self) -> u32
        ensures { result ≡ min (active_blocks self.now) u32.MAX }
    {
        self.blocks.count().min(u32::MAX as usize) as u32
    }

    /// The view blocks that have a byte of a hold, each with how many holds have a byte in it.
    pub(crate) fn blocks(&self) -> &HeldBlocks
        ensures { (b : ℕ) → holds_at b result.now ≡ count_by (has_block b) self.now }
    {
        &self.blocks
    }
}
