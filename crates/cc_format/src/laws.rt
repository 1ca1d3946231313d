//! What follows from how a record is spelled.

ghost use Rattle.std.specs.Prelude.{◌≡◌, ℕ, List};
ghost use Rattle.cc_format.specs.declared.record.StreamRecord.{StreamRecord};
ghost use Rattle.cc_format.specs.Spelling.{SpellsStreamRecord};

/// A page spells one record at most, whatever the versions.
pub fn a_page_spells_one_record()
    ensures { (page : List ℕ) → (one other : StreamRecord) → SpellsStreamRecord page one → SpellsStreamRecord page other → one ≡ other }
{}
