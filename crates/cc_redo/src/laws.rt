//! What follows from the definitions of a restart.

ghost use Rattle.std.specs.Prelude.{◌≡◌, ◌==◌, ◌<◌, ◌≤◌, ℕ, false, List, Contains, Some, drop, take};
ghost use Rattle.std.specs.List.{AllByRecursion};
ghost use Rattle.cc_traits.specs.Disk.{Disk, may_of};
ghost use Rattle.cc_redo.specs.Changes.{page_after};
ghost use Rattle.cc_redo.specs.Disks.{IsBetween, Was, page_made_by, record_number};
ghost use Rattle.cc_redo.specs.Heard.{Change, redone_of, valid_behind};
ghost use Rattle.cc_redo.specs.Reading.{SpellsLogRecord, said_by};
ghost use Rattle.cc_redo.specs.declared.record.LogRecord.{LogRecord};
ghost use Rattle.cc_redo.specs.declared.redo.Redo.{Redo};
ghost use Rattle.cc_redo.specs.declared.scan.ReadEntry.{ReadEntry};

/// What an entry spells is what is read of it, and what is read of its bytes is what they spell.
pub fn an_entry_says_what_it_spells()
    ensures read { (entry : List ℕ) → (told : LogRecord) → SpellsLogRecord entry told → said_by entry ≡ Some told }
    ensures spelled { (entry : List ℕ) → (told : LogRecord) → AllByRecursion (λ byte. byte < 256) entry →
        said_by entry ≡ Some told → SpellsLogRecord entry told }
{}

/// Changes that are applied to a page that has some of them already, in their order from the first on, make of it what
/// they make of the page without them; and so do those from one on, over a page that has all before it and maybe some of
/// them. So a restart that stopped can be begun again, and a restart from a checkpoint over pages that a crash left between
/// makes what all changes make. The valid data length stays as it was raised.
pub fn redoing_again_makes_the_same()
    ensures page { (changes : List Change) → (n page : ℕ) → (bytes : List ℕ) →
        page_after changes page (page_after (take n changes) page bytes) ≡ page_after changes page bytes }
    ensures rest { (changes : List Change) → (k n page : ℕ) → (bytes : List ℕ) → k ≤ n →
        page_after (drop k changes) page (page_after (take n changes) page bytes) ≡ page_after changes page bytes }
    ensures valid { (entries : List ReadEntry) → (redo : Redo) → (valid : ℕ) →
        valid_behind entries redo (valid_behind entries redo valid) ≡ valid_behind entries redo valid }
{}

/// Whatever a crash leaves of a data page on which a restart stopped, the same updates make of it what they made of all that
/// the page could be before: so a restart that stopped, however often, makes the same once it is done.
pub fn a_stopped_restart_can_begin_again()
    ensures { (redo : Redo) → (from : ℕ) → (entries : List ReadEntry) → (old new : Disk) →
        IsBetween (page_made_by redo from entries old) old new → (page : ℕ) → (made : List ℕ) → (record_number == page) ≡ false →
        ((bytes : List ℕ) → Was old page bytes → page_after (redone_of redo from entries) page bytes ≡ made) →
        (bytes : List ℕ) → Contains (may_of new page) bytes → page_after (redone_of redo from entries) page bytes ≡ made }
{}
