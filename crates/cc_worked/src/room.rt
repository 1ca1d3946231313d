//! Worked journals on room: what each entry asks of a journal, and when it is full.

ghost use Rattle.std.specs.Prelude.{◌≡◌, [], ◌∷◌, true, false};
ghost use Rattle.cc_model.specs.Legal.{IsLegal};
ghost use Rattle.cc_model.specs.Allowed.{IsAllowed};
ghost use Rattle.cc_model.specs.Covered.{IsCovered};
ghost use Rattle.cc_model.specs.Room.{asked_by, asked_by_all, room_in};
ghost use Rattle.cc_journal.specs.Capacity.{FitsIn, IsWithinCapacity};
ghost use Rattle.cc_entry.specs.declared.call.Call.TheVariants.{Map, PinMapped, PreparePin, Repin, NcWrite};
ghost use Rattle.cc_entry.specs.declared.reply.Reply.TheVariants.{Hold};
ghost use Rattle.cc_entry.specs.declared.error.CcError.TheVariants.{BeyondSize, WriteFault};
ghost use Rattle.cc_worked.specs.Values.{setup, a, answers, refused, dirty_is, begins, ends, fails};
ghost use Rattle.cc_worked.specs.Room.{with_capacity, pinned, pinned_write, stamp, end_of_pin, owing, stamped, begun, store, transferred, finish, another_call, reads_after, read_in_once};

/// What was owed asks nothing: the stamp of a pin that owes one, the end of a hold and of a transfer.
pub fn owed_entry_asks_nothing()
    ensures stamp { asked_by owing (stamp 3) ≡ 0 }
    ensures end_of_hold { asked_by stamped (end_of_pin 4) ≡ 0 }
    ensures end_of_hold_that_owes { asked_by owing (end_of_pin 3) ≡ 0 }
    ensures end_of_transfer { asked_by begun (ends 2 0) ≡ 0 }
    ensures failed_end { asked_by begun (fails 2 0) ≡ 0 }
{}

/// Any other entry asks its own place: also a refused call, a stamp that is not owed, and a second write
/// to a pin that owes a stamp.
pub fn entry_asks_its_place()
    ensures question { asked_by pinned (dirty_is 2 1 false) ≡ 1 }
    ensures refused_hold { asked_by pinned (refused 1 2 (Map a 8192 1) (BeyondSize 8192)) ≡ 1 }
    ensures stamp_unowed { asked_by stamped (stamp 4) ≡ 1 }
    ensures second_write { asked_by owing (pinned_write 3) ≡ 1 }
{}

/// A hold, a pinned write and the begin of a transfer ask for what they owe too.
pub fn entry_asks_for_what_it_owes()
    ensures hold { asked_by pinned (answers 1 2 (Map a 0 16) (Hold 2)) ≡ 2 }
    ensures repin { asked_by pinned (answers 1 2 (Repin 1) (Hold 2)) ≡ 2 }
    ensures prepare { asked_by pinned (answers 1 2 (PreparePin a 0 16 false false) (Hold 2)) ≡ 2 }
    ensures zeroing_prepare { asked_by pinned (answers 1 2 (PreparePin a 0 16 true false) (Hold 2)) ≡ 3 }
    ensures first_write { asked_by pinned (pinned_write 2) ≡ 2 }
    ensures begin { asked_by stamped (begins 2 0) ≡ 2 }
{}

/// A noncached store asks four places with its begin: theirs, the transfer's end and the write's own. The
/// latter is lost by another call before it.
pub fn noncached_store_asks_four()
    ensures legal { IsLegal setup (finish 2 ∷ transferred) }
    ensures allowed { IsAllowed setup (finish 2 ∷ transferred) }
    ensures covered { IsCovered (finish 2 ∷ transferred) }
    ensures store_and_begin { asked_by_all stamped (store ∷ begins 2 1 ∷ []) ≡ 4 }
    ensures finish { asked_by transferred (finish 2) ≡ 0 }
    ensures failed_finish { asked_by transferred (refused 2 2 (NcWrite a 1) (WriteFault 1)) ≡ 0 }
    ensures another_call { asked_by transferred another_call ≡ 1 }
    ensures finish_after_another { asked_by (another_call ∷ transferred) (finish 3) ≡ 1 }
{}

/// What is left is the capacity less the entries, what they owe, and what is reserved for calls under way.
pub fn room_is_what_is_not_owed()
    ensures pinned { room_in (with_capacity 64) pinned 0 ≡ 60 }
    ensures owing { room_in (with_capacity 64) owing 0 ≡ 58 }
    ensures stamped { room_in (with_capacity 64) stamped 0 ≡ 58 }
    ensures begun { room_in (with_capacity 64) begun 0 ≡ 56 }
    ensures under_way { room_in (with_capacity 64) begun 1 ≡ 55 }
    ensures transferred { room_in (with_capacity 64) transferred 0 ≡ 54 }
{}

/// A journal of 64 entries is full by 64 entries, and by 62 that owe two; what is owed still finds its
/// place.
pub fn full_journal_has_no_room()
    ensures legal { IsLegal setup (reads_after 2 owing) }
    ensures allowed { IsAllowed setup (reads_after 2 owing) }
    ensures covered { IsCovered (reads_after 2 owing) }
    ensures last { room_in (with_capacity 64) (reads_after 61 read_in_once) 0 ≡ 1 }
    ensures full { room_in (with_capacity 64) (reads_after 62 read_in_once) 0 ≡ 0 }
    ensures full_by_owed { room_in (with_capacity 64) (reads_after 58 owing) 0 ≡ 0 }
    ensures stamp_in_place { asked_by (reads_after 58 owing) (stamp 3) ≡ 0 }
    ensures full_after_stamp { room_in (with_capacity 64) (stamp 3 ∷ reads_after 58 owing) 0 ≡ 0 }
{}

/// Over each front the entries and what they owe are within the capacity. A pin whose write owes a stamp owes two places,
/// which its end gives up; so the whole may fit where a front of it doesn't.
pub fn each_front_is_within_capacity()
    ensures within { IsWithinCapacity 6 (end_of_pin 3 ∷ owing) }
    ensures whole_fits { FitsIn 5 (end_of_pin 3 ∷ owing) }
    ensures front_does_not { IsWithinCapacity 5 (end_of_pin 3 ∷ owing) → ⊥ }
    ensures transfer { IsWithinCapacity 8 begun }
    ensures no_place_for_its_end { IsWithinCapacity 7 begun → ⊥ }
    ensures store_and_begin { IsWithinCapacity 10 transferred }
    ensures no_place_for_the_write { IsWithinCapacity 9 transferred → ⊥ }
{}
