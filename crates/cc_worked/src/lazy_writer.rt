//! Worked journals on the lazy writer: which pages a scan picks, and where it goes on.

ghost use Rattle.cc_model.specs.Legal.{IsLegal};
ghost use Rattle.cc_model.specs.Allowed.{IsAllowed};
ghost use Rattle.cc_model.specs.Covered.{IsCovered};
ghost use Rattle.cc_worked.specs.Values.{setup, with_threshold};
ghost use Rattle.cc_worked.specs.LazyWriter.{three_scans, all_picked, none_picked, another_picked, clean_page_begun, cursor_moved, cursor_lost, six_picked, five_picked, by_stream, by_page, temporary_passed_over, temporary_picked};

/// Of nine dirty pages the first scan picks one, the next the other eight, the third none; no clean
/// page is begun.
pub fn lazy_writer_picks_one_in_eight()
    ensures legal { IsLegal setup three_scans }
    ensures allowed { IsAllowed setup three_scans }
    ensures covered { IsCovered three_scans }
    ensures not_all { IsAllowed setup all_picked → ⊥ }
    ensures not_none { IsAllowed setup none_picked → ⊥ }
    ensures not_another { IsAllowed setup another_picked → ⊥ }
    ensures not_clean { IsAllowed setup clean_page_begun → ⊥ }
{}

/// A scan goes on after the last page that was picked, also where that was not written.
pub fn lazy_writer_goes_on_from_cursor()
    ensures legal { IsLegal setup cursor_moved }
    ensures allowed { IsAllowed setup cursor_moved }
    ensures covered { IsCovered cursor_moved }
    ensures not_again { IsAllowed setup cursor_lost → ⊥ }
{}

/// Where what is left after the base pick and what has come since the last scan exceed three quarters of
/// the threshold, the scan picks the difference beside: here all pages, or six.
pub fn lazy_writer_keeps_below_threshold()
    ensures legal { IsLegal (with_threshold 8) all_picked }
    ensures allowed { IsAllowed (with_threshold 8) all_picked }
    ensures covered { IsCovered all_picked }
    ensures not_one { IsAllowed (with_threshold 8) cursor_moved → ⊥ }
    ensures six_legal { IsLegal (with_threshold 16) six_picked }
    ensures six_allowed { IsAllowed (with_threshold 16) six_picked }
    ensures six_covered { IsCovered six_picked }
    ensures not_five { IsAllowed (with_threshold 16) five_picked → ⊥ }
{}

/// Pages are picked by stream and page, and none of a stream without write-behind.
pub fn lazy_writer_picks_by_stream_and_page()
    ensures legal { IsLegal setup by_stream }
    ensures allowed { IsAllowed setup by_stream }
    ensures covered { IsCovered by_stream }
    ensures not_by_page { IsAllowed setup by_page → ⊥ }
{}

/// A page of a temporary stream is not picked.
pub fn lazy_writer_passes_temporary_stream_over()
    ensures legal { IsLegal setup temporary_passed_over }
    ensures allowed { IsAllowed setup temporary_passed_over }
    ensures covered { IsCovered temporary_passed_over }
    ensures not_picked { IsAllowed setup temporary_picked → ⊥ }
{}
