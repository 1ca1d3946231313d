//! How a pass takes a turn, for which it may wait, and gives it back.
//!
//! The word beside a slot is 0 where the turn is free, and 1 or 2 where it is taken, 2 where somebody may wait for it. One
//! step takes a free turn, and one gives a turn back, with no call to the system where nobody waited for it.
//!
//! No wake-up is lost. Before it sleeps, a pass makes the word 2 by a step that finds the turn taken, and it falls asleep
//! only while the word is 2; each time that it was woken, it does the same, so it takes the turn with the word at 2. Whoever
//! gives a turn back and finds the word at 2 wakes one sleeper. So where somebody sleeps, the word is 2; or a give that found
//! it at 2 is about to wake one; or one that was woken is about to make it 2. Each of the three ends in the next: the holder
//! gives, the give wakes, and the woken pass has the turn, or leaves the word at 2 for whoever has it.

ghost use Rattle.std.specs.Bool.{MatchBool};
ghost use Rattle.std.specs.Prelude.{◌≡◌, ℕ, ◌<◌, suc, true, [], ◌∷◌, Some, None};
ghost use mathlib.Core.Option.{none};
ghost use Rattle.atomic_table.specs.Table.{step, rest, Allows, Me};
ghost use Rattle.cc_turns.specs.Desk.{tells_of};
ghost use Rattle.cc_turns.specs.Slots.{slots_of};
ghost use Rattle.cc_board.specs.Plays.{TurnSlot, MayTake};
ghost use Rattle.cc_board.specs.View.{run_of};
ghost use Rattle.cc_board.specs.Rule.{IsBoard};

use crate::board::Board;
use crate::rule::{LearnsRun, Naming, Slot, View};
use atomic_table::{Play, Seat};
use cc_traits::{LogFile, PostRoutine, Told};
use cc_turns::Place;
use std::hint::spin_loop;
use std::marker::Brand;
use std::sync::Wait;

/// The word of a turn that is free.
const FREE: u64 = 0;

/// The word of one that is taken, where nobody waits for it.
const TAKEN: u64 = 1;

/// The word of one that is taken, where somebody may wait for it.
const WAITED_FOR: u64 = 2;

/// How often a pass looks at the word of a turn that is taken before it sleeps.
const LOOKS: u32 = 100;

impl<D: Told, L: LogFile, Q: PostRoutine> Board<D, L, Q> {
    /// A pass that was not joined is of the board's run.
    pub(crate) fn learn(&self, seat: &mut Seat<Slot<D, L, Q>, View<D, L>>)
        requires here { seat.old.table_id ≡ self.now.id }
        requires live { seat.old.me.0.live ≡ true }
        ensures same { (seat.new.table_id ≡ seat.old.table_id) × (seat.new.id ≡ seat.old.id) × (seat.new.me ≡ seat.old.me) }
        ensures run { run_of seat.old.me.0 ≡ self.now.begun }
    {
        learn_run::<Brand, D, L, Q>(self, seat);
    }

    /// Waits until a turn is free, and takes it, with what is in its slot.
    pub(crate) fn take<M: Play<Slot<D, L, Q>, View<D, L>>, R: Wait>(
        &self,
        rt: &R,
        seat: &mut Seat<Slot<D, L, Q>, View<D, L>>,
        slot: usize,
    ) -> Slot<D, L, Q>
        requires here { seat.old.table_id ≡ self.now.id }
        requires known { slot < slots_of self.now.begun }
        requires may { MayTake (IsBoard (tells_of D.told D.faults L.told L.faults Q.posted) self.now.begun) M.then
            (slots_of self.now.begun) slot seat.old.id seat.old.me }
        ensures seat { (seat.new.table_id ≡ seat.old.table_id) × (seat.new.id ≡ seat.old.id) }
        ensures told { M.then (step (slots_of self.now.begun) (suc slot) 0 1 none) seat.old.me 0
            (seat.new.me.0, (slot, result) ∷ seat.old.me.1) }
        ensures out { seat.new.me.1 ≡ (slot, None) ∷ seat.old.me.1 }
    {
        self.take_word::<M, R>(rt, seat, slot);
        self.table.shared.exchange(seat, slot, None)
    }

    // Waits until a turn is free, and takes it.
    fn take_word<M: Play<Slot<D, L, Q>, View<D, L>>, R: Wait>(
        &self,
        rt: &R,
        seat: &mut Seat<Slot<D, L, Q>, View<D, L>>,
        slot: usize,
    )
        requires here { seat.old.table_id ≡ self.now.id }
        requires known { slot < slots_of self.now.begun }
        requires may { MayTake (IsBoard (tells_of D.told D.faults L.told L.faults Q.posted) self.now.begun) M.then
            (slots_of self.now.begun) slot seat.old.id seat.old.me }
        ensures seat { (seat.new.table_id ≡ seat.old.table_id) × (seat.new.id ≡ seat.old.id) }
        ensures told { M.then (step (slots_of self.now.begun) (suc slot) 0 1 none) seat.old.me 0 seat.new.me }
    {
        if self.try_take::<M>(seat, slot) {
            return;
        }
        if self.comes_free(slot) && self.try_take::<M>(seat, slot) {
            return;
        }
        for _ in rt.forever() {
            if self.try_take_or_mark::<M>(seat, slot) {
                return;
            }
            self.table.shared.park(rt, slot + 1, WAITED_FOR as u32);
        }
        unreachable!()
    }

    // Takes a turn if it is free, and says whether it did.
    fn try_take<M: Play<Slot<D, L, Q>, View<D, L>>>(
        &self,
        seat: &mut Seat<Slot<D, L, Q>, View<D, L>>,
        slot: usize,
    ) -> bool
        requires here { seat.old.table_id ≡ self.now.id }
        requires known { slot < slots_of self.now.begun }
        requires may { MayTake (IsBoard (tells_of D.told D.faults L.told L.faults Q.posted) self.now.begun) M.then
            (slots_of self.now.begun) slot seat.old.id seat.old.me }
        ensures seat { (seat.new.table_id ≡ seat.old.table_id) × (seat.new.id ≡ seat.old.id) }
        ensures told { MatchBool result
            (M.then (step (slots_of self.now.begun) (suc slot) 0 1 none) seat.old.me 0 seat.new.me)
            (seat.new.me ≡ seat.old.me) }
    {
        self.table
            .shared
            .compare_exchange::<M>(seat, slot + 1, FREE, TAKEN)
            == FREE
    }

    // The same, and marks the turn as waited for, whoever has it then.
    fn try_take_or_mark<M: Play<Slot<D, L, Q>, View<D, L>>>(
        &self,
        seat: &mut Seat<Slot<D, L, Q>, View<D, L>>,
        slot: usize,
    ) -> bool
        requires here { seat.old.table_id ≡ self.now.id }
        requires known { slot < slots_of self.now.begun }
        requires may { MayTake (IsBoard (tells_of D.told D.faults L.told L.faults Q.posted) self.now.begun) M.then
            (slots_of self.now.begun) slot seat.old.id seat.old.me }
        ensures seat { (seat.new.table_id ≡ seat.old.table_id) × (seat.new.id ≡ seat.old.id) }
        ensures told { MatchBool result
            (M.then (step (slots_of self.now.begun) (suc slot) 0 1 none) seat.old.me 0 seat.new.me)
            (seat.new.me ≡ seat.old.me) }
    {
        self.table.shared.swap::<M>(seat, slot + 1, WAITED_FOR) == FREE
    }

    // Looks for a while, as long as a turn is taken and nobody waits for it, and says whether it was free then.
    fn comes_free(&self, slot: usize) -> bool
        requires known { slot < slots_of self.now.begun }
    {
        for _ in 0..LOOKS {
            let word = self.table.shared.peek(slot + 1);
            if word != TAKEN {
                return word == FREE;
            }
            spin_loop();
        }
        false
    }

    /// Gives the turn that was taken last, with what goes into its slot.
    pub(crate) fn give<M: Play<Slot<D, L, Q>, View<D, L>>>(
        &self,
        seat: &mut Seat<Slot<D, L, Q>, View<D, L>>,
        slot: usize,
        place: Place<D, L, Q>,
    )
        requires here { seat.old.table_id ≡ self.now.id }
        requires known { slot < slots_of self.now.begun }
        requires out { seat.old.me.1 ≡ (slot, None) ∷ rest seat.old.me.1 }
        requires allowed { Allows (IsBoard (tells_of D.told D.faults L.told L.faults Q.posted) self.now.begun)
            (slots_of self.now.begun) seat.old.id (seat.old.me.0, (slot, Some place) ∷ rest seat.old.me.1) (suc slot) (λ _. 0)
            (M.then (step (slots_of self.now.begun) (suc slot) 0 0 none) (seat.old.me.0, (slot, Some place) ∷ rest seat.old.me.1)) }
        requires alike { (found : ℕ) (now : Me (TurnSlot D L Q) (View D L)) →
            M.then (step (slots_of self.now.begun) (suc slot) 0 0 none)
            (seat.old.me.0, (slot, Some place) ∷ rest seat.old.me.1) found now →
            M.then (step (slots_of self.now.begun) (suc slot) 0 0 none)
            (seat.old.me.0, (slot, Some place) ∷ rest seat.old.me.1) 0 now }
        ensures seat { (seat.new.table_id ≡ seat.old.table_id) × (seat.new.id ≡ seat.old.id) }
        ensures told { M.then (step (slots_of self.now.begun) (suc slot) 0 0 none)
            (seat.old.me.0, (slot, Some place) ∷ rest seat.old.me.1) 0 seat.new.me }
    {
        match self.table.shared.exchange(seat, slot, Some(place)) {
            None => (),
            Some(_) => unreachable!(),
        }
        if self.table.shared.swap::<M>(seat, slot + 1, FREE) == WAITED_FOR {
            self.table.shared.wake_one(slot + 1);
        }
    }
}

// The same, of a board whose run has a name.
fn learn_run<N: Naming<D, L>, D: Told, L: LogFile, Q: PostRoutine>(
    board: &Board<D, L, Q>,
    seat: &mut Seat<Slot<D, L, Q>, View<D, L>>,
)
    requires named { board.now.begun ≡ N.begun }
    requires here { seat.old.table_id ≡ board.now.id }
    requires live { seat.old.me.0.live ≡ true }
    ensures same { (seat.new.table_id ≡ seat.old.table_id) × (seat.new.id ≡ seat.old.id) × (seat.new.me ≡ seat.old.me) }
    ensures run { run_of seat.old.me.0 ≡ N.begun }
{
    board.table.shared.load::<LearnsRun<N>>(seat, 0);
}
