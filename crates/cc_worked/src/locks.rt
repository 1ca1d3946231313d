//! Worked journals on locks of bytes: the entries that make, end and test them have the answers of the rules.

ghost use Rattle.std.specs.Prelude.{[], ◌∷◌, ◌++◌, true, false, reverse, Some, None};
ghost use Rattle.cc_entry.specs.declared.entry.Entry.TheVariants as entry;
ghost use Rattle.cc_model.specs.Allowed.{IsAllowed};
ghost use Rattle.cc_worked.specs.Values.{setup, a, second};
ghost use Rattle.cc_worked.specs.Locks.{grants, refuses, reads, writes, exclusive_lock, shared_locks, after_lock, after_shared, id_again};

/// An exclusive lock bars every other object from its bytes, and no other bytes.
pub fn exclusive_lock_bars_others()
    ensures allowed { IsAllowed setup (reverse exclusive_lock) }
    ensures not_shared_over_it { IsAllowed setup (after_lock (grants second 9 12 false 2)) → ⊥ }
    ensures not_read_by_another { IsAllowed setup (after_lock (reads second 5 6 None)) → ⊥ }
    ensures not_barred_from_its_owner { IsAllowed setup (after_lock (writes a 0 1 (Some 1))) → ⊥ }
    ensures not_past_its_end { IsAllowed setup (after_lock (reads second 10 11 (Some 1))) → ⊥ }
    ensures not_ended_by_another { IsAllowed setup (after_lock (entry.Unlocked 1 second 1 true)) → ⊥ }
    ensures not_kept_from_its_owner { IsAllowed setup (after_lock (entry.Unlocked 1 a 1 false)) → ⊥ }
{}

/// Shared locks may overlap. They bar every write, and no read; the least in the way is told.
pub fn shared_locks_bar_writes()
    ensures allowed { IsAllowed setup (reverse shared_locks) }
    ensures not_the_greater { IsAllowed setup (after_shared (writes a 5 6 (Some 2))) → ⊥ }
    ensures not_written_by_owner { IsAllowed setup (after_shared (writes a 0 1 None)) → ⊥ }
    ensures not_barred_from_reads { IsAllowed setup (after_shared (reads second 0 1 (Some 1))) → ⊥ }
    ensures not_refused_shared { IsAllowed setup (after_shared (refuses a 8 9 false 1)) → ⊥ }
    ensures id_not_again { IsAllowed setup id_again → ⊥ }
{}
