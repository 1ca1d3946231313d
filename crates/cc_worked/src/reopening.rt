//! Worked journals on truncation at the last uninitialise, and on maps that are opened again.

ghost use Rattle.cc_model.specs.Legal.{IsLegal};
ghost use Rattle.cc_model.specs.Allowed.{IsAllowed};
ghost use Rattle.cc_model.specs.Covered.{IsCovered};
ghost use Rattle.cc_entry.specs.declared.error.CcError.TheVariants.{NotCached, ReadFault};
ghost use Rattle.cc_worked.specs.Values.{setup};
ghost use Rattle.cc_worked.specs.Reopening.{opened_before_end, map_stays, cut_bytes_valid, page_in_under_way, closing_joined, joined_sizes_tested, settings_after_reopening, reads_kept, reads_forgotten, object_went, step_met_fault};

/// A truncate at the last uninitialise cuts a page under way, and the map goes; the stream may be
/// opened again before the transfer ends.
pub fn truncate_cuts_page_under_way()
    ensures legal { IsLegal setup opened_before_end }
    ensures allowed { IsAllowed setup opened_before_end }
    ensures covered { IsCovered opened_before_end }
    ensures not_stays { IsLegal setup map_stays → ⊥ }
    ensures no_cut_bytes { IsLegal setup cut_bytes_valid → ⊥ }
    ensures no_page_before_end { IsAllowed setup page_in_under_way → ⊥ }
{}

/// An object that joins a closing map has its sizes ignored.
pub fn closing_map_is_joined()
    ensures legal { IsLegal setup closing_joined }
    ensures allowed { IsAllowed setup closing_joined }
    ensures covered { IsCovered closing_joined }
    ensures not_tested { IsLegal setup joined_sizes_tested → ⊥ }
{}

/// The log of a stream outlives its map; an object that comes back has its reads forgotten, one that is
/// open keeps them.
pub fn settings_outlive_maps()
    ensures legal { IsLegal setup settings_after_reopening }
    ensures allowed { IsAllowed setup settings_after_reopening }
    ensures covered { IsCovered settings_after_reopening }
    ensures open_legal { IsLegal setup reads_kept }
    ensures open_allowed { IsAllowed setup reads_kept }
    ensures open_covered { IsCovered reads_kept }
    ensures not_forgotten { IsLegal setup reads_forgotten → ⊥ }
{}

/// A call that is refused at its end is told so, also where it met a fault.
pub fn refusal_comes_before_fault()
    ensures legal { IsLegal setup (object_went NotCached) }
    ensures allowed { IsAllowed setup (object_went NotCached) }
    ensures covered { IsCovered (object_went NotCached) }
    ensures not_the_fault { IsLegal setup (object_went (ReadFault 0)) → ⊥ }
{}

/// A read-ahead step whose object went is told its fault, and gives up where it met none.
pub fn step_is_told_its_fault()
    ensures legal { IsLegal setup step_met_fault }
    ensures allowed { IsAllowed setup step_met_fault }
    ensures covered { IsCovered step_met_fault }
{}
