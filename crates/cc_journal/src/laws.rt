//! Laws of the journal. Each function does nothing: its contract is the law.

ghost use Rattle.std.specs.Prelude.{List, ◌∷◌};
ghost use Rattle.cc_entry.specs.declared.entry.Entry.{Entry};
ghost use Rattle.cc_model.specs.Setup.{Setup};
ghost use Rattle.cc_model.specs.Good.{IsGoodSoFar};
ghost use Rattle.cc_journal.specs.Journal.{MayBePushed};

/// An entry after which the journal is good so far may be pushed.
pub fn good_entries_may_be_pushed()
    ensures { (u : Setup) (past : List Entry) (e : Entry) → IsGoodSoFar u (e ∷ past) → MayBePushed past e }
{}
