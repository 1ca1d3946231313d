//! The open holds, how each kind of call changes them, and what they say.

ghost use Rattle.std.specs.Prelude.{◌||◌, ◌≡◌, ℕ, ◌<◌, ◌+◌, ◌^◌, true, nat_lt, Option, Some, None, false, List, [], ◌∷◌, All, IfOk, OnOk, OnErr, length, min, nat_eq, vec_len};
ghost use Rattle.cc_entry.specs.declared.reply.Reply.{Reply};
ghost use Rattle.cc_entry.specs.Pages.{blocks_of, whole_range};
ghost use Rattle.cc_model.specs.Cache.{makes_hold};
ghost use Rattle.cc_model.specs.History.{Effect, Did};
ghost use Rattle.std.specs.List.{IsDistinct};
ghost use Rattle.std.specs.Option.{option_map};
ghost use Rattle.cc_model.specs.Holds.{holds_of, id_of, hold_at, is_held, least_id, held_blocks};
ghost use Rattle.cc_model.specs.Stamps.{owes_stamp, is_unstamped};
ghost use Rattle.cc_model.specs.Conflicts.{has_page_of, pin_in_the_way, pin_that_owes};
ghost use Rattle.cc_model.specs.Views.{active_blocks, needed_blocks};
ghost use Rattle.cc_model.specs.Numbers.{is_among};
ghost use Rattle.cc_holds.specs.Stands.{HoldsStand, shown, shown_row};
ghost use Rattle.cc_holds.specs.Makes.{row_made, zeroed_end};
ghost use Rattle.cc_model.specs.Room.{owes_set_dirty};

use crate::Holds;
use crate::blocks::block_range;
use crate::look::{any_keeps_page, first_in_the_way, first_with_bytes};
use crate::owed::least_owed;
use crate::rows::{new_row, owes_set_dirty, row_named};
use cc_entry::{Call, HoldKind, HoldRow, NoMemory, Span};
use std::alloc::Global;
use std::marker::Model;

/// The open holds of one stream.
#[derive(Drop)]
pub struct OpenHolds {
    holds: Holds,
}

impl Model for OpenHolds {
    ghost use Rattle.std.specs.Prelude.{List};
    ghost use Rattle.cc_holds.specs.declared.holds.KeptHold.{KeptHold};

    ghost Value = { List KeptHold };

    ghost view = { λ s. s.holds };
}

impl OpenHolds {
    /// The holds of a stream of which nothing happened yet.
    pub fn new(alloc: Global) -> OpenHolds
        ensures stands { HoldsStand [] result }
    {
        OpenHolds {
            holds: Holds::new(alloc),
        }
    }

    /// Follows a done call of a pass that makes a hold of this row: a map, a pin, a repin or a chain. Its id is greater
    /// than that of each open hold. Where the call zeroes its range, the row's written span is that range.
    pub(crate) fn make(&mut self, pass: u32, row: HoldRow) -> Result<(), NoMemory>
        ensures stands { OnOk result ((h : List Effect) (call : Call) (reply : Reply) →
            HoldsStand h self.old →
            row_made call (id_of reply) (holds_of h) ≡ Some row →
            All (λ hold. hold.id < row.id) (holds_of h) →
            HoldsStand (Did pass call reply ∷ h) self.new) }
        ensures refused { OnErr result (self.new ≡ self.old) }
    {
        self.holds.add(pass, row)
    }

    /// The row of the hold that a done call makes, whose reply has this id, for `make`. What it zeroes ends
    /// below 2^64.
    pub(crate) fn row_made(&self, call: &Call, id: u64) -> Option<HoldRow>
        requires { zeroed_end call.now < 2 ^ 64 }
        ensures is { (h : List Effect) → HoldsStand h self.now → result ≡ row_made call.now id (holds_of h) }
        ensures none { makes_hold call.now ≡ false → result ≡ None }
    {
        match call {
            Call::Repin { hold } => self.repin(*hold, id),
            _ => row_named(call, id),
        }
    }

    // The row of a repin of the open hold of an id.
    fn repin(&self, of: u64, id: u64) -> Option<HoldRow>
        ensures { (h : List Effect) → HoldsStand h self.now →
            result ≡ row_made (Call.Repin of) id (holds_of h) }
    {
        match self.get(of) {
            Some(row) => Some(new_row(id, row.file, row.at, row.len, HoldKind::Repin, false)),
            None => None,
        }
    }

    /// Follows a done `PinMapped`.
    pub(crate) fn pin(&mut self, id: u64, exclusive: bool)
        ensures stands { (h : List Effect) (pass : ℕ) (reply : Reply) →
            HoldsStand h self.old →
            HoldsStand (Did pass (Call.PinMapped id exclusive) reply ∷ h) self.new }
    {
        if self.holds.get(id).is_some() {
            self.holds.pin(id, exclusive);
        }
    }

    /// Follows a done `PinnedWrite` of the bytes of the span: the hold owes a stamp for them from now on.
    pub(crate) fn write(&mut self, id: u64, span: Span) -> Result<(), NoMemory>
        ensures stands { OnOk result ((h : List Effect) (pass at : ℕ) (bytes : List ℕ) (reply : Reply) →
            HoldsStand h self.old →
            span ≡ whole_range at (length bytes) →
            HoldsStand (Did pass (Call.PinnedWrite id at bytes) reply ∷ h) self.new) }
        ensures refused { OnErr result (self.new ≡ self.old) }
    {
        if self.holds.get(id).is_some() {
            self.holds.touch(id, span)
        } else {
            Ok(())
        }
    }

    /// Follows a done `SetDirty`: the hold owes no stamp.
    pub(crate) fn stamp(&mut self, id: u64)
        ensures stands { (h : List Effect) (pass : ℕ) (lsn : Option ℕ) (reply : Reply) →
            HoldsStand h self.old →
            HoldsStand (Did pass (Call.SetDirty id lsn) reply ∷ h) self.new }
    {
        if self.holds.get(id).is_some() {
            self.holds.stamp(id);
        }
    }

    /// Follows a done `EndHold`.
    pub(crate) fn end(&mut self, id: u64)
        ensures stands { (h : List Effect) (pass : ℕ) (reply : Reply) →
            HoldsStand h self.old →
            HoldsStand (Did pass (Call.EndHold id) reply ∷ h) self.new }
    {
        self.holds.remove(id);
    }

    /// The row of the open hold of an id. Its written span is no part of what is promised.
    pub fn get(&self, id: u64) -> Option<HoldRow>
        ensures { (h : List Effect) → HoldsStand h self.now →
            option_map shown_row result ≡ option_map shown (hold_at (holds_of h) id) }
    {
        self.holds.get(id).copied()
    }

    /// The pass that made the open hold of an id.
    pub fn maker(&self, id: u64) -> Option<u32>
        ensures { (h : List Effect) → HoldsStand h self.now →
            result ≡ option_map (λ hold. hold.pass) (hold_at (holds_of h) id) }
    {
        self.holds.pass_of(id)
    }

    /// Whether the open hold of an id is a pin that changed bytes and was not set dirty since: a place is reserved
    /// for its set-dirty.
    pub fn owes_set_dirty(&self, id: u64) -> bool
        ensures { (h : List Effect) → HoldsStand h self.now →
            result ≡ owes_set_dirty (hold_at (holds_of h) id) }
    {
        match self.holds.get(id) {
            Some(row) => owes_set_dirty(row),
            None => false,
        }
    }

    /// How many holds are open.
    pub fn count(&self) -> usize
        ensures { (h : List Effect) → HoldsStand h self.now → result ≡ length (holds_of h) }
    {
        self.holds.all().len()
    }

    /// Whether an open hold has the page.
    pub fn is_held(&self, page: u64) -> bool
        ensures { (h : List Effect) → HoldsStand h self.now → result ≡ is_held (holds_of h) page }
    {
        any_keeps_page(self.holds.all(), page)
    }

    /// Whether an open pin changed the page and was not set dirty since.
    pub fn is_unstamped(&self, page: u64) -> bool
        ensures { (h : List Effect) → HoldsStand h self.now → result ≡ is_unstamped h page }
    {
        self.holds.unstamped(page).is_some()
    }

    /// The least id of an open hold.
    pub fn first(&self) -> Option<u64>
        ensures { (h : List Effect) → HoldsStand h self.now → result ≡ least_id (λ hold. true) (holds_of h) }
    {
        self.holds.first()
    }

    /// The least id of an open hold that ends past a size.
    pub fn first_past(&self, size: u64) -> Option<u64>
        ensures { (h : List Effect) → HoldsStand h self.now →
            result ≡ least_id (λ hold. nat_lt size (hold.at + hold.len)) (holds_of h) }
    {
        self.holds.ending_past(size)
    }

    /// The least id of an open hold that has a page of a span, of the whole stream where there is none.
    pub fn first_with_page_of(&self, span: Option<Span>) -> Option<u64>
        ensures { (h : List Effect) → HoldsStand h self.now →
            result ≡ least_id (has_page_of span) (holds_of h) }
    {
        match span {
            Some(span) => self.holds.overlapping(span),
            None => first_with_bytes(self.holds.all()),
        }
    }

    /// The least id of an open pin that bars a pin of the bytes of a span.
    pub fn pin_in_the_way(&self, span: Span, exclusive: bool) -> Option<u64>
        ensures { (h : List Effect) → HoldsStand h self.now →
            result ≡ pin_in_the_way (holds_of h) (Some span) exclusive }
    {
        self.holds.pin_conflict(span, exclusive)
    }

    /// The least id of an open pin that bars a pin of the bytes from `from` up to, and without, `to`; both may
    /// lie past 2^64.
    pub fn pin_in_bytes(&self, from: u128, to: u128, exclusive: bool) -> Option<u64>
        ensures { (h : List Effect) → HoldsStand h self.now →
            result ≡ pin_in_the_way (holds_of h) (Some (record { from = from; to = to })) exclusive }
    {
        first_in_the_way(self.holds.all(), from, to, exclusive)
    }

    /// The least id of an open pin that owes a stamp to the page.
    pub fn first_owing(&self, page: u64) -> Option<u64>
        ensures { (h : List Effect) → HoldsStand h self.now →
            result ≡ least_id (owes_stamp page) (holds_of h) }
    {
        self.holds.unstamped(page)
    }

    /// The least id of an open pin that owes a stamp to the least such page of a span, of the whole stream
    /// where there is none.
    pub fn pin_that_owes(&self, span: Option<Span>) -> Option<u64>
        ensures { (h : List Effect) → HoldsStand h self.now → result ≡ pin_that_owes (holds_of h) span }
    {
        match least_owed(self.holds.all(), &span) {
            Some(page) => self.holds.unstamped(page),
            None => None,
        }
    }

    /// How many view blocks have a byte of an open hold, at most `u32::MAX`.
    pub fn active_blocks(&self) -> u32
        ensures { (h : List Effect) → HoldsStand h self.now → result ≡ min (active_blocks (holds_of h)) u32.MAX }
    {
        self.holds.active_blocks()
    }

    /// The view blocks that have a byte of an open hold, each once. Answers `NoMemory` where memory is wanting.
    pub fn held_blocks(&self, alloc: Global) -> Result<Vec<u64>, NoMemory>
        ensures distinct { IfOk result (λ blocks. IsDistinct nat_eq blocks.items) }
        ensures same { IfOk result (λ blocks. (h : List Effect) → HoldsStand h self.now →
            (b : ℕ) → is_among b blocks.items ≡ is_among b (held_blocks (holds_of h))) }
        ensures counted { IfOk result (λ blocks. (h : List Effect) → HoldsStand h self.now →
            vec_len blocks ≡ active_blocks (holds_of h)) }
    {
        self.holds.blocks().all(alloc)
    }

    /// The view blocks that have a byte of an open hold or of a span, each once. Answers `NoMemory` where memory is
    /// wanting.
    pub fn kept_blocks(&self, alloc: Global, span: Span) -> Result<Vec<u64>, NoMemory>
        ensures same { IfOk result (λ blocks. (h : List Effect) → HoldsStand h self.now → (b : ℕ) →
            is_among b blocks.items ≡ (is_among b (held_blocks (holds_of h)) || is_among b (blocks_of span))) }
        ensures counted { IfOk result (λ blocks. (h : List Effect) → HoldsStand h self.now →
            vec_len blocks ≡ needed_blocks (holds_of h) span) }
    {
        let (first, end) = block_range(u128::from(span.from()), u128::from(span.to()));
        self.holds.blocks().with(alloc, first, end)
    }

    /// How many view blocks have a byte of an open hold or of a span. It takes no memory.
    pub fn needed_blocks(&self, _alloc: Global, span: Span) -> Result<u64, NoMemory>
        ensures { IfOk result (λ count. (h : List Effect) → HoldsStand h self.now →
            count ≡ needed_blocks (holds_of h) span) }
    {
        let (first, end) = block_range(u128::from(span.from()), u128::from(span.to()));
        Ok(self.holds.blocks().count_with(first, end))
    }
}
