//! What holds of each stream at every place of a good journal. Each function does nothing: its
//! contract is the law.

ghost use Rattle.std.specs.Prelude.{◌≡◌, ℕ, ◌+◌, ◌<◌, ◌≤◌, ◌^◌, true, nat_le, List};
ghost use Rattle.std.specs.List.{list_all};
ghost use Rattle.cc_entry.specs.declared.entry.Entry.{Entry};
ghost use Rattle.cc_model.specs.Setup.{Setup};
ghost use Rattle.cc_model.specs.History.{history};
ghost use Rattle.cc_model.specs.Holds.{holds_of, is_held};
ghost use Rattle.cc_model.specs.Touches.{size_of, valid_of, is_dirty};
ghost use Rattle.cc_model.specs.Settings.{quota_of};
ghost use Rattle.cc_model.specs.Residency.{is_resident, mapped_block_count};
ghost use Rattle.cc_model.specs.Good.{IsGoodSoFar};
ghost use Rattle.cc_laws.specs.Facts.{IsSoundHistory};

/// The valid data length of a stream lies within its size, and the size is below 2^63.
pub fn sizes_are_in_order()
    ensures valid_within { (u : Setup) (past : List Entry) (s : ℕ) → IsGoodSoFar u past →
        valid_of (history past s) ≤ size_of (history past s) }
    ensures size_in_range { (u : Setup) (past : List Entry) (s : ℕ) → IsGoodSoFar u past →
        size_of (history past s) < 2 ^ 63 }
{}

/// Each open hold ends within the size of its stream.
pub fn holds_end_within_the_size()
    ensures { (u : Setup) (past : List Entry) (s : ℕ) → IsGoodSoFar u past →
        list_all (λ hold. nat_le (hold.at + hold.len) (size_of (history past s))) (holds_of (history past s)) ≡ true }
{}

/// Each page in which an open hold has a byte is resident.
pub fn held_pages_are_resident()
    ensures { (u : Setup) (past : List Entry) (s : ℕ) → IsGoodSoFar u past →
        (p : ℕ) → is_held (holds_of (history past s)) p ≡ true → is_resident (history past s) p ≡ true }
{}

/// Each dirty page is resident.
pub fn dirty_pages_are_resident()
    ensures { (u : Setup) (past : List Entry) (s : ℕ) → IsGoodSoFar u past →
        (p : ℕ) → is_dirty (history past s) p ≡ true → is_resident (history past s) p ≡ true }
{}

/// A stream has no more view blocks mapped than its quota.
pub fn blocks_are_within_quota()
    ensures { (u : Setup) (past : List Entry) (s : ℕ) → IsGoodSoFar u past →
        mapped_block_count (history past s) ≤ quota_of (history past s) }
{}

/// All of this holds of each stream, and what is clean is on the disk.
pub fn streams_are_sound()
    ensures { (u : Setup) (past : List Entry) (s : ℕ) → IsGoodSoFar u past → IsSoundHistory (history past s) }
{}
