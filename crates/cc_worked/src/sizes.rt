//! Worked journals on a size that falls, also while a page is transferred.

ghost use Rattle.cc_model.specs.Legal.{IsLegal};
ghost use Rattle.cc_model.specs.Allowed.{IsAllowed};
ghost use Rattle.cc_model.specs.Covered.{IsCovered};
ghost use Rattle.cc_worked.specs.Values.{setup};
ghost use Rattle.cc_worked.specs.Sizes.{zeros_after_cut, begun_after_cut, change_after_cut, resident_after_cut, valid_lowered, valid_kept, bytes_kept, change_past_valid, size_past_allocation};

/// A page that a size takes away during its transfer comes back as zeros, and is clean.
pub fn page_cut_during_transfer()
    ensures legal { IsLegal setup zeros_after_cut }
    ensures allowed { IsAllowed setup zeros_after_cut }
    ensures covered { IsCovered zeros_after_cut }
    ensures not_dirty { IsAllowed setup begun_after_cut → ⊥ }
    ensures not_changed { IsLegal setup change_after_cut → ⊥ }
    ensures not_resident { IsAllowed setup resident_after_cut → ⊥ }
{}

/// A lowered size lowers the valid data length, which stays so when the size is raised again.
pub fn shrink_lowers_valid_length()
    ensures legal { IsLegal setup valid_lowered }
    ensures allowed { IsAllowed setup valid_lowered }
    ensures covered { IsCovered valid_lowered }
    ensures not_kept { IsLegal setup valid_kept → ⊥ }
    ensures no_bytes_kept { IsLegal setup bytes_kept → ⊥ }
    ensures no_change_past_it { IsLegal setup change_past_valid → ⊥ }
    ensures not_past_allocation { IsLegal setup size_past_allocation → ⊥ }
{}
