//! Worked journals on what a caller has seen before its call, and what stands after it.

ghost use Rattle.cc_model.specs.Passes.{HasSeen, WasPlaced};
ghost use Rattle.cc_model.specs.Legal.{IsLegal};
ghost use Rattle.cc_model.specs.Allowed.{IsAllowed};
ghost use Rattle.cc_model.specs.Covered.{IsCovered};
ghost use Rattle.cc_worked.specs.Values.{setup};
ghost use Rattle.cc_worked.specs.Seen.{seen_before, its_read, call_of_another, seen_after, whole_journal, one_left_out};

/// A caller has seen a beginning of the journal: no more than there is, and nothing left out.
pub fn beginning_is_seen()
    ensures legal { IsLegal setup whole_journal }
    ensures allowed { IsAllowed setup whole_journal }
    ensures covered { IsCovered whole_journal }
    ensures beginning { HasSeen seen_after whole_journal }
    ensures whole { HasSeen whole_journal whole_journal }
    ensures no_more { HasSeen whole_journal seen_after → ⊥ }
    ensures none_left_out { HasSeen one_left_out whole_journal → ⊥ }
{}

/// A call stands after what its caller had seen before it, and within what it has seen after it.
pub fn call_stands_between()
    ensures placed { WasPlaced 1 its_read seen_before seen_after }
    ensures not_of_another { WasPlaced 1 call_of_another seen_before seen_after → ⊥ }
    ensures not_seen_before { WasPlaced 1 its_read seen_after whole_journal → ⊥ }
    ensures not_unseen_after { WasPlaced 1 its_read seen_before seen_before → ⊥ }
{}
