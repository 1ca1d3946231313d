//! Worked journals on descriptor chains: a store is visible at once, and a chain serves its caller alone.

ghost use Rattle.std.specs.Prelude.{◌≡◌, [], ◌∷◌};
ghost use Rattle.cc_model.specs.History.{history};
ghost use Rattle.cc_model.specs.Touches.{dirty_pages};
ghost use Rattle.cc_model.specs.Stamps.{lsns_over};
ghost use Rattle.cc_model.specs.Legal.{IsLegal};
ghost use Rattle.cc_model.specs.Allowed.{IsAllowed};
ghost use Rattle.cc_model.specs.Covered.{IsCovered};
ghost use Rattle.cc_worked.specs.Values.{setup};
ghost use Rattle.cc_worked.specs.Chains.{read_back, store_taken_back, stored_for_reading, read_past_chain, chain_of_another_read, ended_chain_read, half_a_chain, stored_at_valid, hole_in_chain, chains_too_long, read_chain_of_limit, write_chain_of_limit};

/// A store into a chain is visible and dirty at once, over both of its pages, without a stamp, and an
/// abort leaves it.
pub fn store_is_read_through_chain()
    ensures legal { IsLegal setup read_back }
    ensures allowed { IsAllowed setup read_back }
    ensures covered { IsCovered read_back }
    ensures dirty { dirty_pages (history read_back 0) ≡ 0 ∷ 1 ∷ [] }
    ensures unstamped { lsns_over (history read_back 0) (0 ∷ 1 ∷ []) ≡ None }
    ensures not_taken_back { IsLegal setup store_taken_back → ⊥ }
{}

/// A chain serves the caller that made it, for what it was made, within its range, until its end, and
/// has its pages in the cache.
pub fn chain_serves_its_caller()
    ensures not_stored_into { IsAllowed setup stored_for_reading → ⊥ }
    ensures not_past_range { IsAllowed setup read_past_chain → ⊥ }
    ensures not_by_another { IsAllowed setup chain_of_another_read → ⊥ }
    ensures not_after_end { IsAllowed setup ended_chain_read → ⊥ }
    ensures not_by_half { IsAllowed setup half_a_chain → ⊥ }
{}

/// A store into a chain starts at or below the valid data length, and raises it.
pub fn store_leaves_no_hole()
    ensures legal { IsLegal setup stored_at_valid }
    ensures allowed { IsAllowed setup stored_at_valid }
    ensures covered { IsCovered stored_at_valid }
    ensures no_hole { IsLegal setup hole_in_chain → ⊥ }
{}

/// A chain of more than 1048576 bytes is refused, before its range is looked at.
pub fn chains_have_a_limit()
    ensures legal { IsLegal setup chains_too_long }
    ensures allowed { IsAllowed setup chains_too_long }
    ensures covered { IsCovered chains_too_long }
    ensures read_of_limit { IsLegal setup read_chain_of_limit → ⊥ }
    ensures write_of_limit { IsLegal setup write_chain_of_limit → ⊥ }
{}
