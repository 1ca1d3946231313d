//! What calls answer where no disk and no log failed. Each function does nothing: its contract is the law.

ghost use Rattle.std.specs.Prelude.{◌≡◌, ℕ, true, false, Option, List, ◌∷◌, ◌++◌};
ghost use Rattle.std.specs.List.{list_any};
ghost use Rattle.cc_entry.specs.declared.answer.LineReply.{LineReply};
ghost use Rattle.cc_entry.specs.declared.call.Call.{Call};
ghost use Rattle.cc_entry.specs.declared.entry.Entry.{Entry};
ghost use Rattle.cc_entry.specs.declared.entry.Entry.TheVariants as entry;
ghost use Rattle.cc_entry.specs.declared.reply.Outcome.{Outcome};
ghost use Rattle.cc_model.specs.Good.{IsGood};
ghost use Rattle.cc_model.specs.Setup.{Setup};
ghost use Rattle.cc_effects.specs.Calls.{CallLeft, leaves_entry};
ghost use Rattle.cc_pieces.specs.Faultless.{IsFaultless, shows_fault};
ghost use Rattle.cc_faultless_laws.specs.Tabled.{AreByTable, IsByTable};

use cc_effects::outcomes_are_as_defined;

/// A run whose journal is good, with no failure shown and none told (the clauses `good` and `faultless` of the program's call): each
/// call that has an entry was answered by the table of refusals, or with its reply, and none with a fault.
pub fn runs_without_faults_answer_by_the_table()
    ensures { (u : Setup) (past : List Entry) (told : List LineReply) → IsGood u past → IsFaultless told past → AreByTable u past }
{}

/// So it is of one call of such a run, from the moment in which it began to the one in which it was answered: where it is answered
/// neither for want of room nor of memory, its entry stands with this very answer, by the table.
pub fn calls_without_faults_answer_by_the_table()
    ensures { (u : Setup) (me : ℕ) (it : Call) (answered : Outcome) (old new newer : List Entry) → IsGood u (newer ++ new) →
        list_any shows_fault (newer ++ new) ≡ false → CallLeft u me it answered old new → leaves_entry answered ≡ true →
        (nth : ℕ) × (stream : Option ℕ) × (later : List Entry) × (earlier : List Entry)
        × (new ≡ later ++ (entry.Call me nth stream it answered ∷ (earlier ++ old)))
        × IsByTable u (earlier ++ old) me stream it answered }
{
    outcomes_are_as_defined();
}
