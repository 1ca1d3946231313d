//! Worked journals on noncached stores: their begin at once behind them, their log, and the size that cuts them.

ghost use Rattle.cc_model.specs.Legal.{IsLegal};
ghost use Rattle.cc_model.specs.Allowed.{IsAllowed};
ghost use Rattle.cc_model.specs.Covered.{IsCovered};
ghost use Rattle.cc_worked.specs.Values.{setup};
ghost use Rattle.cc_worked.specs.Stores.{store_cut_at_size, ended_by_another, another_page_ended, ended_again, ended_under_way, stored_under_way, stored_after_log, stored_before_stamp, stored_before_log, store_refused, write_of_failed_log, log_fault_of_another, another_log_fault, log_fault_again, log_fault_before_stamp, cut_write_failed, cut_write_done, cut_write_done_unwritten, cut_fault_elsewhere, cut_fault_of_another, cut_fault_after_good_end};

/// A noncached store is cut at the size, and raises the valid data length to it.
pub fn store_is_cut_at_size()
    ensures legal { IsLegal setup store_cut_at_size }
    ensures allowed { IsAllowed setup store_cut_at_size }
    ensures covered { IsCovered store_cut_at_size }
{}

/// A noncached write is done once, by its caller, for the page that it stored, after the good end of
/// its transfer.
pub fn noncached_write_ends_its_store()
    ensures not_by_another { IsAllowed setup ended_by_another → ⊥ }
    ensures not_another_page { IsAllowed setup another_page_ended → ⊥ }
    ensures not_twice { IsAllowed setup ended_again → ⊥ }
    ensures not_under_way { IsAllowed setup ended_under_way → ⊥ }
{}

/// A noncached store begins while no transfer is under way.
pub fn store_begins_alone()
    ensures { IsAllowed setup stored_under_way → ⊥ }
{}

/// A noncached store of a stamped page follows the stamp, and the log up to it.
pub fn store_follows_stamp_and_log()
    ensures legal { IsLegal setup stored_after_log }
    ensures allowed { IsAllowed setup stored_after_log }
    ensures covered { IsCovered stored_after_log }
    ensures not_before_stamp { IsLegal setup stored_before_stamp → ⊥ }
    ensures not_before_log { IsCovered stored_before_log → ⊥ }
    ensures not_stored_before_log { IsAllowed setup stored_before_log → ⊥ }
{}

/// A noncached store past the valid data length, or past the size, is refused.
pub fn store_stays_within_sizes()
    ensures legal { IsLegal setup store_refused }
    ensures allowed { IsAllowed setup store_refused }
    ensures covered { IsCovered store_refused }
{}

/// A noncached write whose log fails is told so before it stores anything.
pub fn log_fault_fails_noncached_write()
    ensures legal { IsLegal setup write_of_failed_log }
    ensures allowed { IsAllowed setup write_of_failed_log }
    ensures covered { IsCovered write_of_failed_log }
    ensures not_another { IsLegal setup log_fault_of_another → ⊥ }
    ensures not_another_log { IsLegal setup another_log_fault → ⊥ }
    ensures not_again { IsLegal setup log_fault_again → ⊥ }
    ensures not_before_stamp { IsLegal setup log_fault_before_stamp → ⊥ }
{}

/// The end of a noncached write is told as its transfer ended, though the size fell meanwhile.
pub fn noncached_write_ends_past_size()
    ensures failed_legal { IsLegal setup cut_write_failed }
    ensures failed_allowed { IsAllowed setup cut_write_failed }
    ensures failed_covered { IsCovered cut_write_failed }
    ensures done_legal { IsLegal setup cut_write_done }
    ensures done_allowed { IsAllowed setup cut_write_done }
    ensures done_covered { IsCovered cut_write_done }
    ensures not_unwritten { IsAllowed setup cut_write_done_unwritten → ⊥ }
    ensures not_elsewhere { IsLegal setup cut_fault_elsewhere → ⊥ }
    ensures not_of_another { IsLegal setup cut_fault_of_another → ⊥ }
    ensures not_after_good_end { IsLegal setup cut_fault_after_good_end → ⊥ }
{}
