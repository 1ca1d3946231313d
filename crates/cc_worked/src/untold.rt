//! Worked journals on reads over a disk that does not tell what it holds.

ghost use Rattle.std.specs.Prelude.{[], ◌∷◌};
ghost use Rattle.cc_model.specs.Legal.{IsLegal};
ghost use Rattle.cc_model.specs.Allowed.{IsAllowed};
ghost use Rattle.cc_model.specs.Covered.{IsCovered};
ghost use Rattle.cc_worked.specs.Values.{untold};
ghost use Rattle.cc_worked.specs.Untold.{zeros_past_valid, byte_at_valid, byte_past_valid, byte_left_out, byte_past_size, mapped};

/// A copied read answers as many bytes as it does over any disk, and zeros from the valid data length on.
pub fn copy_of_untold_disk()
    ensures legal { IsLegal untold zeros_past_valid }
    ensures allowed { IsAllowed untold zeros_past_valid }
    ensures covered { IsCovered zeros_past_valid }
    ensures zero_at_valid { IsLegal untold byte_at_valid → ⊥ }
    ensures zero_past_valid { IsLegal untold byte_past_valid → ⊥ }
    ensures no_byte_left_out { IsLegal untold byte_left_out → ⊥ }
    ensures not_past_size { IsLegal untold byte_past_size → ⊥ }
{}

/// So does a read of a map.
pub fn map_of_untold_disk()
    ensures legal { IsLegal untold (mapped (7 ∷ 0 ∷ [])) }
    ensures allowed { IsAllowed untold (mapped (7 ∷ 0 ∷ [])) }
    ensures covered { IsCovered (mapped (7 ∷ 0 ∷ [])) }
    ensures zero_past_valid { IsLegal untold (mapped (7 ∷ 7 ∷ [])) → ⊥ }
{}
