//! What follows for the record of a stream. Each function does nothing: its contract is the law.

ghost use Rattle.std.specs.Prelude.{◌≡◌, ℕ, ◌+◌, ◌-◌, ◌*◌, ◌<◌, ◌≤◌, false, true, Option, None, List, ◌∷◌, ◌++◌, length, slice_index, Contains};
ghost use Rattle.cc_entry.specs.declared.entry.Entry.{Entry};
ghost use Rattle.cc_entry.specs.declared.entry.Entry.TheVariants as entry;
ghost use Rattle.cc_entry.specs.declared.entry.End.TheVariants as how;
ghost use Rattle.cc_format.specs.Spelling.{IsReadAs};
ghost use Rattle.cc_format.specs.declared.record.StreamRecord.{StreamRecord};
ghost use Rattle.cc_model.specs.Flushed.{settled_since};
ghost use Rattle.cc_model.specs.Good.{IsGoodSoFar};
ghost use Rattle.cc_model.specs.History.{history};
ghost use Rattle.cc_model.specs.Images.{crash_pages};
ghost use Rattle.cc_model.specs.Records.{crash_records, first_valid, is_stored, MayTellValid};
ghost use Rattle.cc_model.specs.Setup.{Setup};
ghost use Rattle.cc_model.specs.Touches.{valid_of, is_dirty};
ghost use Rattle.cc_records.specs.Calm.{IsCalm};
ghost use Rattle.cc_records.specs.Recorded.{told_valid, WasByte};

/// At every place of a good journal, a page with a byte that became valid since its stream was first initialised is
/// dirty, or its last transfer that ended ended well.
pub fn grown_pages_are_dirty_or_stored()
    ensures { (u : Setup) (past : List Entry) (s p : ℕ) → IsGoodSoFar u past →
        first_valid (history past s) < valid_of (history past s) → first_valid (history past s) < 4096 * p + 4096 →
        4096 * p < valid_of (history past s) → is_dirty (history past s) p ≡ false → is_stored (history past s) p ≡ true }
{}

/// What a flush of a stream settles, while no page of the stream comes in and each transfer ends well: behind its good
/// sync, at which each touch that was there at the moment `old` is written or cut, a valid data length may be told that
/// is neither more than at that moment nor more than now.
pub fn flushed_lengths_may_be_told()
    ensures { (u : Setup) (pass s : ℕ) (old later since : List Entry) →
        IsGoodSoFar u (since ++ entry.Sync pass s how.Good ∷ (later ++ old)) → IsCalm s later → IsCalm s since →
        settled_since (length (history old s)) (history (later ++ old) s) None ≡ true → (valid : ℕ) →
        valid ≤ valid_of (history old s) →
        valid ≤ valid_of (history (since ++ entry.Sync pass s how.Good ∷ (later ++ old)) s) →
        MayTellValid (history (since ++ entry.Sync pass s how.Good ∷ (later ++ old)) s) valid }
{}

/// Whatever a crash leaves of a stream's record page and of a page of its disk: each byte of the page below the valid data
/// length that the record then tells is one that the plain file had there at some place of the journal. If the record page
/// was read before, it told no more than the first initialise made valid; of a stream that was initialised otherwise nothing
/// is said.
pub fn recorded_bytes_were_there()
    ensures { (u : Setup) (past : List Entry) (s : ℕ) (pages : ℕ → List ℕ) → IsGoodSoFar u past →
        (opening content : List ℕ) (first read : Option StreamRecord) (p i : ℕ) (bytes : List ℕ) →
        IsReadAs opening first → told_valid first ≤ first_valid (history past s) →
        Contains (crash_records opening past s) content → IsReadAs content read → i < told_valid read →
        4096 * p ≤ i → i < 4096 * p + 4096 → Contains (crash_pages pages (history past s) p) bytes →
        WasByte pages past s i (slice_index bytes (i - 4096 * p)) }
{}
