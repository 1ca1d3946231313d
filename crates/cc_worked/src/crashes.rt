//! What a crash may leave of a page. It is told by the first byte of each content: the disk's is 90, the
//! first change's 171, the second one's 205.

ghost use Rattle.std.specs.Prelude.{◌≡◌, [], ◌∷◌};
ghost use Rattle.cc_model.specs.Legal.{IsLegal};
ghost use Rattle.cc_model.specs.Allowed.{IsAllowed};
ghost use Rattle.cc_model.specs.Covered.{IsCovered};
ghost use Rattle.cc_entry.specs.declared.entry.End.TheVariants as how;
ghost use Rattle.cc_worked.specs.Values.{setup};
ghost use Rattle.cc_worked.specs.Crashes.{first_bytes, under_way, unsynced, synced_after, under_way_again, written_at_last};

/// During a transfer a crash may leave the page as it was or as the transfer began, after a good end too;
/// a good sync leaves the latter alone.
pub fn crash_after_good_transfer()
    ensures legal { IsLegal setup (synced_after how.Good how.Failed) }
    ensures allowed { IsAllowed setup (synced_after how.Good how.Failed) }
    ensures covered { IsCovered (synced_after how.Good how.Failed) }
    ensures under_way { first_bytes under_way 0 ≡ 90 ∷ 171 ∷ [] }
    ensures ended { first_bytes (unsynced how.Good) 0 ≡ 90 ∷ 171 ∷ [] }
    ensures synced { first_bytes (synced_after how.Good how.Good) 0 ≡ 171 ∷ [] }
    ensures sync_failed { first_bytes (synced_after how.Good how.Failed) 0 ≡ 90 ∷ 171 ∷ [] }
    ensures another_page { first_bytes (synced_after how.Good how.Good) 1 ≡ 90 ∷ [] }
{}

/// A change after the sync is one more content from the begin of its transfer on.
pub fn crash_during_second_transfer()
    ensures legal { IsLegal setup under_way_again }
    ensures allowed { IsAllowed setup under_way_again }
    ensures covered { IsCovered under_way_again }
    ensures contents { first_bytes under_way_again 0 ≡ 171 ∷ 205 ∷ [] }
{}

/// After a transfer that failed, or found no memory, a sync leaves both contents, until a good one ended.
pub fn crash_after_failed_transfer()
    ensures legal { IsLegal setup written_at_last }
    ensures allowed { IsAllowed setup written_at_last }
    ensures covered { IsCovered written_at_last }
    ensures no_memory_legal { IsLegal setup (synced_after how.NoMemory how.Good) }
    ensures no_memory_allowed { IsAllowed setup (synced_after how.NoMemory how.Good) }
    ensures no_memory_covered { IsCovered (synced_after how.NoMemory how.Good) }
    ensures failed { first_bytes (unsynced how.Failed) 0 ≡ 90 ∷ 171 ∷ [] }
    ensures synced { first_bytes (synced_after how.Failed how.Good) 0 ≡ 90 ∷ 171 ∷ [] }
    ensures no_memory { first_bytes (synced_after how.NoMemory how.Good) 0 ≡ 90 ∷ 171 ∷ [] }
    ensures at_last { first_bytes written_at_last 0 ≡ 171 ∷ [] }
{}
