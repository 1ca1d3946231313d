//! Worked journals on discards that are refused: of pages that have grown, are unsettled, or are held.

ghost use Rattle.cc_model.specs.Legal.{IsLegal};
ghost use Rattle.cc_model.specs.Allowed.{IsAllowed};
ghost use Rattle.cc_model.specs.Covered.{IsCovered};
ghost use Rattle.cc_entry.specs.declared.error.CcError.TheVariants.{NotCached, Held, Unsettled, Grown};
ghost use Rattle.cc_entry.specs.declared.entry.End.TheVariants as how;
ghost use Rattle.cc_worked.specs.Values.{setup};
ghost use Rattle.cc_worked.specs.DiscardRefusals.{barred_as_grown, grown_dropped, written_byte_back, valid_dropped, grown_since, grown_since_dropped, barred_as_zeroed, zeros_dropped, barred_as_reopened, barred_as_changed, settled_by_flush, unsettled_dropped, barred_after, cut_page_dropped, both_grown, dropped_beside_grown, unsettled_first, grown_first, unsettled_elsewhere, barred_by_hold, mapped_dropped, barred_beside_hold, of_second, of_held};

/// A page with a byte that became valid and was never written is not discarded.
pub fn grown_page_is_kept()
    ensures legal { IsLegal setup (barred_as_grown (Grown 1)) }
    ensures allowed { IsAllowed setup (barred_as_grown (Grown 1)) }
    ensures covered { IsCovered (barred_as_grown (Grown 1)) }
    ensures not_another { IsLegal setup (barred_as_grown (Grown 0)) → ⊥ }
    ensures not_dropped { IsLegal setup grown_dropped → ⊥ }
    ensures not_where_none_grew { IsLegal setup (barred_as_changed (Grown 0)) → ⊥ }
{}

/// Of two pages of the span that have grown the first is told; one outside it is no reason.
pub fn first_grown_page_of_span_is_told()
    ensures legal { IsLegal setup (both_grown (Grown 0)) }
    ensures allowed { IsAllowed setup (both_grown (Grown 0)) }
    ensures covered { IsCovered (both_grown (Grown 0)) }
    ensures not_second { IsLegal setup (both_grown (Grown 1)) → ⊥ }
    ensures beside_legal { IsLegal setup dropped_beside_grown }
    ensures beside_allowed { IsAllowed setup dropped_beside_grown }
    ensures beside_covered { IsCovered dropped_beside_grown }
{}

/// Once the page was written, it is discarded, unless it has grown since.
pub fn growth_counts_since_write()
    ensures legal { IsLegal setup written_byte_back }
    ensures allowed { IsAllowed setup written_byte_back }
    ensures covered { IsCovered written_byte_back }
    ensures valid_length_stays { IsLegal setup valid_dropped → ⊥ }
    ensures since_legal { IsLegal setup grown_since }
    ensures since_allowed { IsAllowed setup grown_since }
    ensures since_covered { IsCovered grown_since }
    ensures not_dropped { IsLegal setup grown_since_dropped → ⊥ }
{}

/// A page has grown where its valid bytes were fewer in between, by a size or a new map.
pub fn growth_counts_from_least_valid_length()
    ensures legal { IsLegal setup barred_as_zeroed }
    ensures allowed { IsAllowed setup barred_as_zeroed }
    ensures covered { IsCovered barred_as_zeroed }
    ensures not_dropped { IsLegal setup zeros_dropped → ⊥ }
    ensures reopened_legal { IsLegal setup barred_as_reopened }
    ensures reopened_allowed { IsAllowed setup barred_as_reopened }
    ensures reopened_covered { IsCovered barred_as_reopened }
{}

/// A page whose last write failed, or found no memory, is not discarded until one ends well or a size
/// takes the change away.
pub fn unsettled_page_is_kept()
    ensures legal { IsLegal setup settled_by_flush }
    ensures allowed { IsAllowed setup settled_by_flush }
    ensures covered { IsCovered settled_by_flush }
    ensures not_dropped { IsLegal setup unsettled_dropped → ⊥ }
    ensures cut_legal { IsLegal setup cut_page_dropped }
    ensures cut_allowed { IsAllowed setup cut_page_dropped }
    ensures cut_covered { IsCovered cut_page_dropped }
    ensures no_memory_legal { IsLegal setup (barred_after how.NoMemory) }
    ensures no_memory_allowed { IsAllowed setup (barred_after how.NoMemory) }
    ensures no_memory_covered { IsCovered (barred_after how.NoMemory) }
    ensures not_after_good_end { IsLegal setup (barred_after how.Good) → ⊥ }
    ensures not_unwritten { IsLegal setup (barred_as_changed (Unsettled 0)) → ⊥ }
{}

/// A failed write is told before a growth, and of a page of the span alone.
pub fn failed_write_is_told_before_growth()
    ensures legal { IsLegal setup unsettled_first }
    ensures allowed { IsAllowed setup unsettled_first }
    ensures covered { IsCovered unsettled_first }
    ensures not_growth { IsLegal setup grown_first → ⊥ }
    ensures not_elsewhere { IsLegal setup unsettled_elsewhere → ⊥ }
{}

/// A page under a hold is not discarded, another page is.
pub fn held_page_is_kept()
    ensures legal { IsLegal setup barred_by_hold }
    ensures allowed { IsAllowed setup barred_by_hold }
    ensures covered { IsCovered barred_by_hold }
    ensures not_dropped { IsLegal setup mapped_dropped → ⊥ }
    ensures not_beside { IsLegal setup barred_beside_hold → ⊥ }
{}

/// An object that is not open comes before a hold, and a hold before a failed write.
pub fn reasons_against_a_discard_in_order()
    ensures legal { IsLegal setup (of_second NotCached) }
    ensures allowed { IsAllowed setup (of_second NotCached) }
    ensures covered { IsCovered (of_second NotCached) }
    ensures not_hold { IsLegal setup (of_second (Held 1)) → ⊥ }
    ensures held_legal { IsLegal setup (of_held (Held 1)) }
    ensures held_allowed { IsAllowed setup (of_held (Held 1)) }
    ensures held_covered { IsCovered (of_held (Held 1)) }
    ensures not_failed_write { IsLegal setup (of_held (Unsettled 0)) → ⊥ }
{}
