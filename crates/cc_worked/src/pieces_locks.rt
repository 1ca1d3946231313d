//! What lines of locks leave, and reads, writes and updates that are tested against locks before they are made.

ghost use Rattle.std.specs.Prelude.{◌≡◌, [], ◌∷◌, true, false, Some, None};
ghost use Rattle.cc_entry.specs.declared.error.CcError.TheVariants as error;
ghost use Rattle.cc_entry.specs.declared.reply.Reply.TheVariants as reply;
ghost use Rattle.cc_entry.specs.declared.query.Value.TheVariants as value;
ghost use Rattle.cc_entry.specs.declared.answer.Answer.TheVariants as answer;
ghost use Rattle.cc_entry.specs.declared.entry.Entry.TheVariants as entry;
ghost use Rattle.cc_pieces.specs.Locks.{tested_range};
ghost use Rattle.cc_worked.specs.Values.{a, second, unit, Leaves, LeavesNothing};
ghost use Rattle.cc_worked.specs.Locks.{grants, refuses, reads, writes};
ghost use Rattle.cc_worked.specs.PiecesReads.{two_pages, first_resident, a_byte};
ghost use Rattle.cc_worked.specs.PiecesShim.{logged, state_is_refused};
ghost use Rattle.cc_worked.specs.PiecesRuns.{two_full};
ghost use Rattle.cc_worked.specs.PiecesLocks.{LockLine, UnlockLine, ReadLine, WriteLine, UpdateLine, LastRead};
ghost use Rattle.cc_worked.specs.PiecesLocks.{tells, tested_by, read_behind, read_untested};
ghost use Rattle.cc_worked.specs.PiecesLocks.{update_tested, written_behind, last_byte, uncut_test};

/// A line that makes or ends a lock leaves one entry, which is of its words and tells its answer; one that is refused for want of
/// memory leaves none.
pub fn lock_lines_leave_what_they_are_answered()
    ensures granted { Leaves (LockLine a true) (answer.LockId 1) two_pages (grants a 0 10 true 1 ∷ []) }
    ensures refused { Leaves (LockLine second false) (answer.Refused (error.LockConflict 1))
        two_pages (refuses second 0 10 false 1 ∷ []) }
    ensures ended { Leaves (UnlockLine a) (answer.Given (reply.Value (value.Flag true))) two_pages (entry.Unlocked 1 a 1 true ∷ []) }
    ensures no_memory { LeavesNothing (UnlockLine a) (answer.Refused error.NoMemory) two_pages }
    ensures no_other_id { Leaves (LockLine a true) (answer.LockId 2) two_pages (grants a 0 10 true 1 ∷ []) → ⊥ }
    ensures not_shared { Leaves (LockLine a true) (answer.LockId 1) two_pages (grants a 0 10 false 1 ∷ []) → ⊥ }
    ensures no_other_bytes { Leaves (LockLine a true) (answer.LockId 1) two_pages (grants a 0 11 true 1 ∷ []) → ⊥ }
    ensures not_granted { Leaves (LockLine a true) (answer.Refused (error.LockConflict 1))
        two_pages (grants a 0 10 true 1 ∷ []) → ⊥ }
    ensures not_kept { Leaves (UnlockLine a) (answer.Given (reply.Value (value.Flag true)))
        two_pages (entry.Unlocked 1 a 1 false ∷ []) → ⊥ }
    ensures not_of_another { Leaves (UnlockLine a) (answer.Given (reply.Value (value.Flag true)))
        two_pages (entry.Unlocked 1 second 1 true ∷ []) → ⊥ }
{}

/// A read asks the state, is tested against the locks of its range, and is made where none conflicts; it is told of a lock
/// exactly where its test tells that one, and then nothing follows.
pub fn read_is_tested_before_it_is_made()
    ensures made { Leaves ReadLine (answer.Given a_byte) first_resident (read_behind None) }
    ensures barred { Leaves ReadLine (answer.Refused (error.LockConflict 1)) two_pages (tested_by (reads a 0 1 (Some 1))) }
    ensures not_cached { Leaves ReadLine (answer.Refused error.NotCached) [] state_is_refused }
    ensures not_untested { Leaves ReadLine (answer.Given a_byte) first_resident read_untested → ⊥ }
    ensures not_despite_a_lock { Leaves ReadLine (answer.Given a_byte) first_resident (read_behind (Some 1)) → ⊥ }
    ensures no_further_call { Leaves ReadLine (answer.Refused (error.LockConflict 1))
        first_resident (read_behind (Some 1)) → ⊥ }
    ensures no_other_lock { Leaves ReadLine (answer.Refused (error.LockConflict 2))
        two_pages (tested_by (reads a 0 1 (Some 1))) → ⊥ }
    ensures no_other_bytes { Leaves ReadLine (answer.Refused (error.LockConflict 1))
        two_pages (tested_by (reads a 0 2 (Some 1))) → ⊥ }
    ensures no_other_object { Leaves ReadLine (answer.Refused (error.LockConflict 1))
        two_pages (tested_by (reads second 0 1 (Some 1))) → ⊥ }
{}

/// A write and an update are tested as writes, an update only where its stream has a log; a range is tested up to the last place
/// of all.
pub fn writes_are_tested_before_they_are_made()
    ensures made { Leaves WriteLine unit first_resident written_behind }
    ensures barred { Leaves UpdateLine (answer.Refused (error.LockConflict 1)) (logged 8192) update_tested }
    ensures no_log { Leaves UpdateLine (answer.Refused (error.NoLog 255)) two_pages (tells two_full) }
    ensures cut { tested_range 18446744073709551614 4 ≡ last_byte }
    ensures not_as_a_read { Leaves WriteLine (answer.Refused (error.LockConflict 1))
        two_pages (tested_by (reads a 0 1 (Some 1))) → ⊥ }
    ensures not_uncut { Leaves LastRead (answer.Refused (error.LockConflict 1)) two_pages (tested_by uncut_test) → ⊥ }
{}
