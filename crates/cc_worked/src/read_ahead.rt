//! Worked journals on read-ahead: two reads that follow each other lead ahead, a jump doesn't.

ghost use Rattle.cc_model.specs.Legal.{IsLegal};
ghost use Rattle.cc_model.specs.Allowed.{IsAllowed};
ghost use Rattle.cc_model.specs.Covered.{IsCovered};
ghost use Rattle.cc_worked.specs.Values.{setup};
ghost use Rattle.cc_worked.specs.ReadAhead.{page_ahead, not_asked, ahead_past_size, step_without_page, step_given_up, no_page_ahead, ahead_of_a_jump, queue_full, full_for_a_jump, full_for_a_copy};

/// After two reads in sequence a third that goes on asks for the next granule, and the step brings it
/// in.
pub fn sequential_reads_lead_ahead()
    ensures legal { IsLegal setup page_ahead }
    ensures allowed { IsAllowed setup page_ahead }
    ensures covered { IsCovered page_ahead }
    ensures not_unasked { IsLegal setup not_asked → ⊥ }
    ensures not_past_size { IsLegal setup ahead_past_size → ⊥ }
    ensures not_without_page { IsAllowed setup step_without_page → ⊥ }
    ensures not_given_up { IsLegal setup step_given_up → ⊥ }
{}

/// A read that does not go on where the last one ended asks for nothing.
pub fn jump_leads_nowhere()
    ensures legal { IsLegal setup no_page_ahead }
    ensures allowed { IsAllowed setup no_page_ahead }
    ensures covered { IsCovered no_page_ahead }
    ensures not_asked_for { IsLegal setup ahead_of_a_jump → ⊥ }
{}

/// The queue may be full for a read that leads ahead, and for no other call.
pub fn queue_is_full_for_what_leads_ahead()
    ensures legal { IsLegal setup queue_full }
    ensures allowed { IsAllowed setup queue_full }
    ensures covered { IsCovered queue_full }
    ensures not_for_a_jump { IsLegal setup full_for_a_jump → ⊥ }
    ensures not_for_a_copy { IsLegal setup full_for_a_copy → ⊥ }
{}
