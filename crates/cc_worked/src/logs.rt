//! Worked journals on stamped pages: their log is flushed first, as far as their newest stamp.

ghost use Rattle.cc_model.specs.Legal.{IsLegal};
ghost use Rattle.cc_model.specs.Allowed.{IsAllowed};
ghost use Rattle.cc_model.specs.Covered.{IsCovered};
ghost use Rattle.cc_worked.specs.Values.{setup};
ghost use Rattle.cc_worked.specs.Logs.{flushed, page_before_log, page_before_stamp, flush_before_stamp, log_up_to_newest, log_short_of_newest, lsn_left_out, log_flushed_back, log_failed, no_log_failed, greatest_stamped, append_past_greatest};

/// A flush is refused while a pin owes its stamp; then it flushes the log up to the stamp, writes the
/// page and syncs.
pub fn log_flush_before_write()
    ensures legal { IsLegal setup flushed }
    ensures allowed { IsAllowed setup flushed }
    ensures covered { IsCovered flushed }
    ensures not_before_log { IsCovered page_before_log → ⊥ }
    ensures not_begun_before_log { IsAllowed setup page_before_log → ⊥ }
    ensures not_before_stamp { IsCovered page_before_stamp → ⊥ }
    ensures not_begun_before_stamp { IsAllowed setup page_before_stamp → ⊥ }
    ensures not_flushed_before_stamp { IsLegal setup flush_before_stamp → ⊥ }
{}

/// A page that was stamped twice goes once its log is flushed to the newer LSN.
pub fn log_flush_up_to_newest_stamp()
    ensures legal { IsLegal setup log_up_to_newest }
    ensures allowed { IsAllowed setup log_up_to_newest }
    ensures covered { IsCovered log_up_to_newest }
    ensures not_at_older { IsCovered log_short_of_newest → ⊥ }
{}

/// An append takes the LSN after the floor of its log, and a flush goes past the ones before it.
pub fn log_goes_forward()
    ensures no_lsn_left_out { IsCovered lsn_left_out → ⊥ }
    ensures no_gap { IsAllowed setup lsn_left_out → ⊥ }
    ensures not_back { IsAllowed setup log_flushed_back → ⊥ }
{}

/// A flush whose log fails leaves the page dirty with its stamp; the next one flushes the log and
/// writes the page.
pub fn log_fault_fails_flush()
    ensures legal { IsLegal setup log_failed }
    ensures allowed { IsAllowed setup log_failed }
    ensures covered { IsCovered log_failed }
    ensures not_without_fault { IsLegal setup no_log_failed → ⊥ }
{}

/// Where a log was flushed to the greatest LSN, no append comes after it.
pub fn no_append_past_greatest_lsn()
    ensures legal { IsLegal setup greatest_stamped }
    ensures allowed { IsAllowed setup greatest_stamped }
    ensures covered { IsCovered greatest_stamped }
    ensures not_past_it { IsAllowed setup append_past_greatest → ⊥ }
{}
