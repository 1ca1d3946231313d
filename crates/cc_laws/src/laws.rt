//! Laws of what a journal means. Each function does nothing: its contract is the law.

ghost use Rattle.std.specs.Prelude.{◌≡◌, ◌↔◌, ℕ, ◌+◌, ◌-◌, ◌*◌, ◌<◌, ◌≤◌, true, false, not, ◌&&◌, ◌||◌, nat_le, Option, None, List, [], ◌∷◌, ◌++◌, length, slice_index};
ghost use Rattle.cc_entry.specs.declared.call.Call.{Call};
ghost use Rattle.cc_entry.specs.declared.reply.Reply.{Reply};
ghost use Rattle.cc_entry.specs.declared.reply.Outcome.TheVariants as outcome;
ghost use Rattle.cc_entry.specs.declared.error.CcError.{CcError};
ghost use Rattle.cc_entry.specs.declared.entry.Entry.{Entry};
ghost use Rattle.cc_entry.specs.declared.entry.Entry.TheVariants as entry;
ghost use Rattle.cc_entry.specs.declared.entry.End.{End};
ghost use Rattle.cc_entry.specs.Pages.{has_byte, has_page};
ghost use Rattle.cc_model.specs.Setup.{Setup};
ghost use Rattle.cc_model.specs.History.{Effect, Did, Began, Ended, Synced, history};
ghost use Rattle.cc_model.specs.Acts.{act_of, Resizes, Writes, Zeroes, Stores, Stamps, Looks};
ghost use Rattle.cc_model.specs.Holds.{holds_of, hold_at};
ghost use Rattle.cc_model.specs.Sizes.{hold_has, stored_range, ended_ok};
ghost use Rattle.cc_model.specs.Touches.{size_of, valid_of, unwritten, is_dirty};
ghost use Rattle.cc_model.specs.Bytes.{byte_of, page_bytes};
ghost use Rattle.cc_model.specs.Images.{image};
ghost use Rattle.cc_model.specs.Passes.{mine_of};
ghost use Rattle.cc_model.specs.Refusals.{refusal, IsUnrefused};
ghost use Rattle.cc_model.specs.Turns.{Book, Device, Log, is_quiet};
ghost use Rattle.cc_laws.specs.Laws.{SameBook, SameSettings, SameImages, SameCrash, SameLog, SamePass};

/// A stream's history is what came before what was.
pub fn histories_grow()
    ensures { (later past : List Entry) (s : ℕ) → history (later ++ past) s ≡ history later s ++ history past s }
{}

/// Entries that need neither the book nor the disk of a stream change nothing of it.
pub fn other_streams_change_nothing()
    ensures { (later past : List Entry) (s : ℕ) → is_quiet (Book s) later ≡ true →
        is_quiet (Device s) later ≡ true → history (later ++ past) s ≡ history past s }
{}

/// Entries that do not need the book of a stream change nothing that its book stands for, and no
/// image: a sync is the only effect that they may have.
pub fn entries_without_book_change_no_page()
    ensures book { (later past : List Entry) (s : ℕ) → is_quiet (Book s) later ≡ true →
        SameBook (history (later ++ past) s) (history past s) }
    ensures settings { (later past : List Entry) (s : ℕ) → is_quiet (Book s) later ≡ true →
        SameSettings (history (later ++ past) s) (history past s) }
    ensures images { (later past : List Entry) (s : ℕ) → is_quiet (Book s) later ≡ true →
        SameImages (history (later ++ past) s) (history past s) }
{}

/// Entries that do not need the disk of a stream change no transfer, no image and nothing that a
/// crash may leave.
pub fn entries_without_disk_change_no_image()
    ensures images { (later past : List Entry) (s : ℕ) → is_quiet (Device s) later ≡ true →
        SameImages (history (later ++ past) s) (history past s) }
    ensures crash { (later past : List Entry) (s : ℕ) → is_quiet (Device s) later ≡ true →
        SameCrash (history (later ++ past) s) (history past s) }
{}

/// A sync changes nothing of a stream but what a crash may leave.
pub fn sync_changes_no_page()
    ensures book { (pass : ℕ) (how : End) (h : List Effect) → SameBook (Synced pass how ∷ h) h }
    ensures settings { (pass : ℕ) (how : End) (h : List Effect) → SameSettings (Synced pass how ∷ h) h }
    ensures images { (pass : ℕ) (how : End) (h : List Effect) → SameImages (Synced pass how ∷ h) h }
{}

/// Entries that do not need a log change neither to where it was flushed nor its floor.
pub fn other_logs_change_nothing()
    ensures { (later past : List Entry) (log : ℕ) → is_quiet (Log log) later ≡ true →
        SameLog log (later ++ past) past }
{}

/// Entries of other passes change nothing of what a pass did and what befell it.
pub fn other_passes_change_nothing()
    ensures { (later past : List Entry) (me : ℕ) → mine_of me later ≡ [] → SamePass me (later ++ past) past }
{}

/// A call that failed changes nothing of any stream.
pub fn failed_calls_change_nothing()
    ensures { (pass nth : ℕ) (stream : Option ℕ) (call : Call) (error : CcError) (past : List Entry) (s : ℕ) →
        history (entry.Call pass nth stream call (outcome.Failed error) ∷ past) s ≡ history past s }
{}

/// After a write each byte that it gave reads as it was given, and each other byte below the valid
/// data length as before.
pub fn writes_change_their_bytes()
    ensures given { (pages : ℕ → List ℕ) (pass : ℕ) (call : Call) (reply : Reply) (h : List Effect)
        (at : ℕ) (bytes : List ℕ) (k : ℕ) → act_of call ≡ Writes at bytes → k < length bytes →
        byte_of pages (Did pass call reply ∷ h) (at + k) ≡ slice_index bytes k }
    ensures others { (pages : ℕ → List ℕ) (pass : ℕ) (call : Call) (reply : Reply) (h : List Effect)
        (at : ℕ) (bytes : List ℕ) (i : ℕ) → act_of call ≡ Writes at bytes → i < valid_of h →
        has_byte (record { from = at; to = at + length bytes }) i ≡ false →
        byte_of pages (Did pass call reply ∷ h) i ≡ byte_of pages h i }
{}

/// After a zeroing each of its bytes reads as zero, and each other byte below the valid data length
/// as before.
pub fn zeroings_clear_their_bytes()
    ensures cleared { (pages : ℕ → List ℕ) (pass : ℕ) (call : Call) (reply : Reply) (h : List Effect)
        (from to i : ℕ) → act_of call ≡ Zeroes from to → from ≤ i → i < to →
        byte_of pages (Did pass call reply ∷ h) i ≡ 0 }
    ensures others { (pages : ℕ → List ℕ) (pass : ℕ) (call : Call) (reply : Reply) (h : List Effect)
        (from to i : ℕ) → act_of call ≡ Zeroes from to → i < valid_of h →
        has_byte (record { from = from; to = to }) i ≡ false →
        byte_of pages (Did pass call reply ∷ h) i ≡ byte_of pages h i }
{}

/// After a noncached store each byte of its page below the size reads as it was given, and each other
/// byte below the valid data length as before.
pub fn stores_change_their_bytes()
    ensures given { (pages : ℕ → List ℕ) (pass : ℕ) (call : Call) (reply : Reply) (h : List Effect)
        (page : ℕ) (bytes : List ℕ) (i : ℕ) → act_of call ≡ Stores page bytes →
        has_byte (stored_range page (size_of h)) i ≡ true →
        byte_of pages (Did pass call reply ∷ h) i ≡ slice_index bytes (i - 4096 * page) }
    ensures others { (pages : ℕ → List ℕ) (pass : ℕ) (call : Call) (reply : Reply) (h : List Effect)
        (page : ℕ) (bytes : List ℕ) (i : ℕ) → act_of call ≡ Stores page bytes → i < valid_of h →
        has_byte (stored_range page (size_of h)) i ≡ false →
        byte_of pages (Did pass call reply ∷ h) i ≡ byte_of pages h i }
{}

/// A call that looks changes no byte and leaves no page more or less dirty.
pub fn looks_change_no_byte()
    ensures bytes { (pages : ℕ → List ℕ) (pass : ℕ) (call : Call) (reply : Reply) (h : List Effect) (i : ℕ) →
        act_of call ≡ Looks → byte_of pages (Did pass call reply ∷ h) i ≡ byte_of pages h i }
    ensures dirty { (pass : ℕ) (call : Call) (reply : Reply) (h : List Effect) (p : ℕ) →
        act_of call ≡ Looks → unwritten (Did pass call reply ∷ h) p ≡ unwritten h p }
{}

/// After a change the pages of its range are dirty, after a set-dirty those of its hold, and every
/// other page is as it was.
pub fn changes_dirty_their_pages()
    ensures writes { (pass : ℕ) (call : Call) (reply : Reply) (h : List Effect) (at : ℕ) (bytes : List ℕ) (p : ℕ) →
        act_of call ≡ Writes at bytes → is_dirty (Did pass call reply ∷ h) p
        ≡ (has_page (record { from = at; to = at + length bytes }) p || is_dirty h p) }
    ensures zeroings { (pass : ℕ) (call : Call) (reply : Reply) (h : List Effect) (from to p : ℕ) →
        act_of call ≡ Zeroes from to → is_dirty (Did pass call reply ∷ h) p
        ≡ (has_page (record { from = from; to = to }) p || is_dirty h p) }
    ensures stores { (pass : ℕ) (call : Call) (reply : Reply) (h : List Effect) (page : ℕ) (bytes : List ℕ) (p : ℕ) →
        act_of call ≡ Stores page bytes → is_dirty (Did pass call reply ∷ h) p
        ≡ (has_page (stored_range page (size_of h)) p || is_dirty h p) }
    ensures set_dirty { (pass : ℕ) (call : Call) (reply : Reply) (h : List Effect) (hold : ℕ) (lsn : Option ℕ) (p : ℕ) →
        act_of call ≡ Stamps hold lsn → is_dirty (Did pass call reply ∷ h) p
        ≡ (hold_has (hold_at (holds_of h) hold) p || is_dirty h p) }
{}

/// After the size is set no page past it is dirty, each other page is as it was, and from the size on
/// every byte reads as zero.
pub fn size_steps_cut_pages()
    ensures dirty { (pass : ℕ) (call : Call) (reply : Reply) (h : List Effect) (allocation size p : ℕ) →
        act_of call ≡ Resizes allocation size → is_dirty (Did pass call reply ∷ h) p
        ≡ (not (nat_le size (4096 * p)) && is_dirty h p) }
    ensures zeros { (pages : ℕ → List ℕ) (pass : ℕ) (call : Call) (reply : Reply) (h : List Effect)
        (allocation size i : ℕ) → act_of call ≡ Resizes allocation size → size ≤ i →
        byte_of pages (Did pass call reply ∷ h) i ≡ 0 }
{}

/// A transfer that ends well with nothing between leaves its page clean and on the disk as it began;
/// one that does not leaves each page as dirty as it was.
pub fn transfers_clean_their_page()
    ensures clean { (pass : ℕ) (how : End) (h : List Effect) (p : ℕ) → ended_ok how ≡ true →
        unwritten (Ended pass p how ∷ Began pass p ∷ h) p ≡ [] }
    ensures on_disk { (pages : ℕ → List ℕ) (pass : ℕ) (how : End) (h : List Effect) (p : ℕ) → ended_ok how ≡ true →
        image pages (Ended pass p how ∷ Began pass p ∷ h) p ≡ Some (page_bytes pages h p) }
    ensures dirty { (pass page : ℕ) (how : End) (h : List Effect) (p : ℕ) → ended_ok how ≡ false →
        unwritten (Ended pass page how ∷ h) p ≡ unwritten h p }
{}

/// Nothing refuses a call exactly where none of the reasons holds.
pub fn refusals_have_a_reason()
    ensures { (u : Setup) (past : List Entry) (h : List Effect) (call : Call) →
        (refusal u past h call ≡ None) ↔ IsUnrefused u past h call }
{}
