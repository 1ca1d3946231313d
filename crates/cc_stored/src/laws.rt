//! What follows for a disk that went with its journal. The function does nothing: its contract is the law.

ghost use Rattle.std.specs.Prelude.{◌≡◌, ℕ, ◌+◌, ◌-◌, ◌*◌, ◌<◌, ◌≤◌, Option, List, ◌∷◌, [], slice_index, Contains};
ghost use Rattle.cc_entry.specs.declared.entry.Entry.{Entry};
ghost use Rattle.cc_format.specs.Spelling.{IsReadAs};
ghost use Rattle.cc_format.specs.declared.record.StreamRecord.{StreamRecord};
ghost use Rattle.cc_model.specs.Good.{IsGoodSoFar};
ghost use Rattle.cc_model.specs.History.{history};
ghost use Rattle.cc_model.specs.Records.{first_valid};
ghost use Rattle.cc_model.specs.Setup.{Setup};
ghost use Rattle.cc_records.specs.Recorded.{told_valid, WasByte};
ghost use Rattle.cc_traits.specs.Disk.{Disk, page_of, may_of};
ghost use Rattle.cc_turns.specs.Disk.{HasGone};
ghost use Rattle.cc_turns.specs.RecordPage.{record_number, RecordHasGone};

/// In every image that a crash may leave of a stream's disk, each byte below the valid data length that its record then tells
/// is one that the plain file had there at some place of the journal. The disk has gone with a good journal, and each of its
/// pages could be left in one way alone at first; the record that it had then told no more than the first initialise made
/// valid, if it told any.
pub fn crashes_leave_what_was_there()
    ensures { (u : Setup) (past : List Entry) (s : ℕ) (opening now : Disk) → IsGoodSoFar u past →
        HasGone (history past s) opening now → RecordHasGone past s opening now →
        ((p : ℕ) → may_of opening p ≡ page_of opening p ∷ []) →
        (content : List ℕ) (first read : Option StreamRecord) (p i : ℕ) (bytes : List ℕ) →
        IsReadAs (page_of opening record_number) first → told_valid first ≤ first_valid (history past s) →
        Contains (may_of now record_number) content → IsReadAs content read → i < told_valid read →
        4096 * p ≤ i → i < 4096 * p + 4096 → Contains (may_of now p) bytes →
        WasByte (page_of opening) past s i (slice_index bytes (i - 4096 * p)) }
{}
