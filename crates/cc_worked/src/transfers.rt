//! Worked journals on changes during a transfer: it cleans what it took, and nothing later.

ghost use Rattle.std.specs.Prelude.{◌≡◌, [], ◌∷◌};
ghost use Rattle.cc_model.specs.Stamps.{dirty_table};
ghost use Rattle.cc_model.specs.Legal.{IsLegal};
ghost use Rattle.cc_model.specs.Allowed.{IsAllowed};
ghost use Rattle.cc_model.specs.Covered.{IsCovered};
ghost use Rattle.cc_worked.specs.Values.{setup, row};
ghost use Rattle.cc_worked.specs.Transfers.{ended_well, told, ended_badly, dirty_after, clean_after, out_after, ended_by_another, begun_twice, synced_under_way};

/// A page that was changed while it was written is dirty after a good end, by the later change alone.
pub fn later_change_outlives_transfer()
    ensures legal { IsLegal setup ended_well }
    ensures allowed { IsAllowed setup ended_well }
    ensures covered { IsCovered ended_well }
    ensures table { dirty_table ended_well 0 ≡ row 2 2 ∷ [] }
    ensures told_later { IsLegal setup (told (row 2 2 ∷ []) ∷ ended_well) }
    ensures not_told_both { IsLegal setup (told (row 1 2 ∷ []) ∷ ended_well) → ⊥ }
    ensures not_told_none { IsLegal setup (told [] ∷ ended_well) → ⊥ }
{}

/// After a failed end the page is dirty by both changes.
pub fn both_changes_outlive_failed_transfer()
    ensures legal { IsLegal setup ended_badly }
    ensures allowed { IsAllowed setup ended_badly }
    ensures covered { IsCovered ended_badly }
    ensures table { dirty_table ended_badly 0 ≡ row 1 2 ∷ [] }
    ensures told_both { IsLegal setup (told (row 1 2 ∷ []) ∷ ended_badly) }
    ensures not_told_later { IsLegal setup (told (row 2 2 ∷ []) ∷ ended_badly) → ⊥ }
{}

/// The end of a transfer cleans no change that came after its begin.
pub fn transfer_cleans_no_later_change()
    ensures legal { IsLegal setup dirty_after }
    ensures allowed { IsAllowed setup dirty_after }
    ensures covered { IsCovered dirty_after }
    ensures not_clean { IsLegal setup clean_after → ⊥ }
    ensures not_out { IsAllowed setup out_after → ⊥ }
{}

/// A transfer is ended by the caller that began it, and no other transfer or sync comes before that.
pub fn transfer_is_alone_on_its_disk()
    ensures not_ended_by_another { IsAllowed setup ended_by_another → ⊥ }
    ensures not_begun_twice { IsAllowed setup begun_twice → ⊥ }
    ensures not_synced { IsAllowed setup synced_under_way → ⊥ }
{}
