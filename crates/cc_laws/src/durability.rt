//! What the disk holds of a stream. Each function does nothing: its contract is the law.

ghost use Rattle.std.specs.Prelude.{◌≡◌, ℕ, ◌+◌, ◌*◌, ◌<◌, ◌≤◌, false, List};
ghost use Rattle.cc_entry.specs.declared.entry.Entry.{Entry};
ghost use Rattle.cc_model.specs.Setup.{Setup};
ghost use Rattle.cc_model.specs.History.{history};
ghost use Rattle.cc_model.specs.Touches.{valid_of, is_dirty};
ghost use Rattle.cc_model.specs.Good.{IsGoodSoFar};
ghost use Rattle.cc_laws.specs.Facts.{IsOnDisk};

/// At every place of a good journal, what is clean is on the disk: each byte of a page that is not
/// dirty, below the valid data length, whatever the disk's opening pages are.
pub fn clean_pages_are_on_disk()
    ensures { (u : Setup) (past : List Entry) (s : ℕ) → IsGoodSoFar u past → (pages : ℕ → List ℕ) (p i : ℕ) →
        is_dirty (history past s) p ≡ false → 4096 * p ≤ i → i < 4096 * p + 4096 →
        i < valid_of (history past s) → IsOnDisk pages (history past s) p i }
{}
