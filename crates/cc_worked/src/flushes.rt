//! Worked journals on flushes beside changes, pins and other spans.

ghost use Rattle.cc_model.specs.Legal.{IsLegal};
ghost use Rattle.cc_model.specs.Allowed.{IsAllowed};
ghost use Rattle.cc_model.specs.Covered.{IsCovered};
ghost use Rattle.cc_entry.specs.declared.error.CcError.TheVariants.{Busy};
ghost use Rattle.cc_worked.specs.Values.{setup};
ghost use Rattle.cc_worked.specs.Flushes.{later_change_left, synced_after_call, seen_change_left, other_syncs, flush_by_other_syncs, span_flushed, half_flushed, flushed_beside_pin, barred_beside_pin, unstamped_written, sync_fault_of, least_page_told, another_told};

/// A flush is done though another caller changed the page after the flusher's last call, but not where
/// the change came before.
pub fn flush_leaves_later_change()
    ensures legal { IsLegal setup later_change_left }
    ensures allowed { IsAllowed setup later_change_left }
    ensures covered { IsCovered later_change_left }
    ensures until_legal { IsLegal setup synced_after_call }
    ensures until_allowed { IsAllowed setup synced_after_call }
    ensures until_covered { IsCovered synced_after_call }
    ensures not_seen_change { IsAllowed setup seen_change_left → ⊥ }
{}

/// A flush is done by no sync of another caller, or of another stream.
pub fn flush_is_synced_by_itself()
    ensures legal { IsLegal setup other_syncs }
    ensures allowed { IsAllowed setup other_syncs }
    ensures covered { IsCovered other_syncs }
    ensures not_by_these { IsAllowed setup flush_by_other_syncs → ⊥ }
{}

/// A flush of one page is done while another is dirty.
pub fn flush_is_of_its_span()
    ensures legal { IsLegal setup span_flushed }
    ensures allowed { IsAllowed setup span_flushed }
    ensures covered { IsCovered span_flushed }
    ensures not_of_both { IsAllowed setup half_flushed → ⊥ }
{}

/// A pin that owes its stamp bars no flush of another page.
pub fn pin_bars_flush_of_its_page()
    ensures legal { IsLegal setup flushed_beside_pin }
    ensures allowed { IsAllowed setup flushed_beside_pin }
    ensures covered { IsCovered flushed_beside_pin }
    ensures not_barred { IsLegal setup barred_beside_pin → ⊥ }
{}

/// A page whose pin ended without a stamp is written without a flush of the log.
pub fn page_without_stamp_goes_without_log()
    ensures legal { IsLegal setup unstamped_written }
    ensures allowed { IsAllowed setup unstamped_written }
    ensures covered { IsCovered unstamped_written }
{}

/// A failed sync is told of the first page of the range, also where the range is empty.
pub fn sync_fault_is_of_first_page()
    ensures legal { IsLegal setup (sync_fault_of 2) }
    ensures allowed { IsAllowed setup (sync_fault_of 2) }
    ensures covered { IsCovered (sync_fault_of 2) }
    ensures not_of_another { IsLegal setup (sync_fault_of 0) → ⊥ }
{}

/// Of several pins that owe a stamp a flush is told the least one of the least page.
pub fn flush_is_told_least_page()
    ensures legal { IsLegal setup least_page_told }
    ensures allowed { IsAllowed setup least_page_told }
    ensures covered { IsCovered least_page_told }
    ensures not_least_pin { IsLegal setup (another_told (Busy 1)) → ⊥ }
    ensures not_later_pin { IsLegal setup (another_told (Busy 3)) → ⊥ }
{}
