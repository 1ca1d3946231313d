//! Worked journals on the record of a stream, which says its size and valid data length on its disk.

ghost use Rattle.std.specs.Prelude.{◌≡◌, [], ◌∷◌};
ghost use Rattle.cc_model.specs.Allowed.{IsAllowed};
ghost use Rattle.cc_worked.specs.Values.{setup};
ghost use Rattle.cc_worked.specs.Records.{tells_grown, tells_first, before_sync, after_failed_transfer, another_size, past_valid, under_way, told_by_second, told_lengths};

/// A record tells a valid data length whose pages were written and synced since the stream was first
/// initialised, and the stream's size.
pub fn record_tells_what_is_on_disk()
    ensures allowed { IsAllowed setup tells_grown }
    ensures first_allowed { IsAllowed setup tells_first }
    ensures not_before_sync { IsAllowed setup before_sync → ⊥ }
    ensures not_after_failed_transfer { IsAllowed setup after_failed_transfer → ⊥ }
    ensures not_another_size { IsAllowed setup another_size → ⊥ }
    ensures not_past_valid { IsAllowed setup past_valid → ⊥ }
    ensures not_under_way { IsAllowed setup under_way → ⊥ }
    ensures not_by_second { IsAllowed setup told_by_second → ⊥ }
{}

/// A crash may leave the record as it was, or as it was written, also where the write failed; a sync after a
/// good write leaves the last alone. The valid data length is told by its two lowest bytes.
pub fn crash_leaves_records()
    ensures synced { told_lengths tells_grown ≡ (137 ∷ 19 ∷ []) ∷ [] }
    ensures failed { told_lengths tells_first ≡ [] ∷ (136 ∷ 19 ∷ []) ∷ [] }
{}
