//! Worked journals on refusals: the first reason in their order is told, and want of room is none.

ghost use Rattle.cc_model.specs.Legal.{IsLegal};
ghost use Rattle.cc_model.specs.Allowed.{IsAllowed};
ghost use Rattle.cc_model.specs.Covered.{IsCovered};
ghost use Rattle.cc_entry.specs.declared.error.CcError.TheVariants.{BeyondSize, BeyondValid, TooLong};
ghost use Rattle.std.specs.Prelude.{true};
ghost use Rattle.cc_entry.specs.declared.call.Call.TheVariants.{CopyRead, PreparePin, Zero};
ghost use Rattle.cc_worked.specs.Values.{setup, a, second};
ghost use Rattle.cc_worked.specs.Refusals.{first_reasons, later_reason, no_page_needed, shapes, wrong_limit, shape_not_cached, memory_told, full_told};

/// Of several reasons for a refusal the first is told.
pub fn first_reason_is_told()
    ensures legal { IsLegal setup first_reasons }
    ensures allowed { IsAllowed setup first_reasons }
    ensures covered { IsCovered first_reasons }
    ensures not_limit_before_cache { IsLegal setup (later_reason (CopyRead second 0 1048577 true) (TooLong 1048576)) → ⊥ }
    ensures not_valid_before_size { IsLegal setup (later_reason (PreparePin a 8192 1 true true) (BeyondValid 5000)) → ⊥ }
    ensures not_size_before_limit { IsLegal setup (later_reason (Zero a (record { from = 8192; to = 2097152 })) (BeyondSize 8192)) → ⊥ }
{}

/// A read of no byte needs no page, and a change of none leaves every page clean.
pub fn no_page_is_needed()
    ensures legal { IsLegal setup no_page_needed }
    ensures allowed { IsAllowed setup no_page_needed }
    ensures covered { IsCovered no_page_needed }
{}

/// A noncached call of a wrong shape is told so where its object is cached.
pub fn shape_of_noncached_call()
    ensures legal { IsLegal setup shapes }
    ensures allowed { IsAllowed setup shapes }
    ensures covered { IsCovered shapes }
    ensures not_other_limit { IsLegal setup wrong_limit → ⊥ }
    ensures not_uncached { IsLegal setup shape_not_cached → ⊥ }
{}

/// Want of memory, or of room in the journal, leaves no entry.
pub fn want_of_room_is_not_told()
    ensures no_memory { IsLegal setup memory_told → ⊥ }
    ensures no_room { IsLegal setup full_told → ⊥ }
{}
