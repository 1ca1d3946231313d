//! Worked journals on callers: a call stands under its stream, and a hold is used by who made it.

ghost use Rattle.cc_model.specs.Legal.{IsLegal};
ghost use Rattle.cc_model.specs.Allowed.{IsAllowed};
ghost use Rattle.cc_model.specs.Covered.{IsCovered};
ghost use Rattle.cc_worked.specs.Values.{setup};
ghost use Rattle.cc_worked.specs.Callers.{under_its_own, under_another, under_none, ended, hold_under_another, hold_of_another, ended_twice, hold_number_again, number_left_out};

/// A call stands under the stream of its file object, and changes no other.
pub fn call_stands_under_its_stream()
    ensures legal { IsLegal setup under_its_own }
    ensures allowed { IsAllowed setup under_its_own }
    ensures covered { IsCovered under_its_own }
    ensures not_under_another { IsAllowed setup under_another → ⊥ }
    ensures not_under_none { IsAllowed setup under_none → ⊥ }
{}

/// A hold is ended once, by the caller that made it, under its stream, and its number does not come
/// again.
pub fn hold_belongs_to_its_caller()
    ensures legal { IsLegal setup ended }
    ensures allowed { IsAllowed setup ended }
    ensures covered { IsCovered ended }
    ensures not_under_another { IsAllowed setup hold_under_another → ⊥ }
    ensures not_by_another { IsAllowed setup hold_of_another → ⊥ }
    ensures not_twice { IsAllowed setup ended_twice → ⊥ }
    ensures no_number_again { IsLegal setup hold_number_again → ⊥ }
{}

/// The calls of a caller are numbered without a gap.
pub fn calls_are_numbered()
    ensures { IsAllowed setup number_left_out → ⊥ }
{}
