//! A worked run that is stopped meets all that is asked of its journal, and one whose checkpoint syncs no stream does not.

ghost use Rattle.std.specs.Prelude.{◌≡◌, ℕ, [], ◌∷◌, ◌++◌};
ghost use Rattle.cc_log.specs.Turn.{appended};
ghost use Rattle.cc_model.specs.Allowed.{IsAllowedSoFar};
ghost use Rattle.cc_model.specs.Covered.{IsCovered};
ghost use Rattle.cc_model.specs.Legal.{IsLegal};
ghost use Rattle.cc_model.specs.Logs.{flushed_to};
ghost use Rattle.cc_redo.specs.declared.redo.Redo.{Redo};
ghost use Rattle.cc_restart_laws.specs.Stops.{IsGivenAs, LogKeeps};
ghost use Rattle.cc_restart_laws.specs.Updates.{IsUpdated};
ghost use Rattle.cc_stop_laws.specs.Worked.{durable_entries, first_bytes, last_entry, setup, stopped, unsynced};

/// The run is good and of the form, though it has an update before its checkpoint and one behind it, and a page under way. Its log
/// has the three records, of which a stop may lose the last one. A crash leaves the first page with the byte that it began with or
/// with the one that it got, and the second as it was.
#[tactic(auto, unfolding(crate::proofs::Computed::computed))]
pub fn a_worked_run_is_stopped()
    ensures legal { IsLegal setup stopped }
    ensures allowed { IsAllowedSoFar setup stopped }
    ensures covered { IsCovered stopped }
    ensures form { IsUpdated 0 0 stopped }
    ensures logged { appended stopped 0 ≡ durable_entries ++ last_entry ∷ [] }
    ensures flushed { flushed_to stopped 0 ≡ 2 }
    ensures kept { LogKeeps 2 (durable_entries ++ last_entry ∷ []) durable_entries }
    ensures given { (redo : Redo) → redo.stream ≡ 0 → redo.size ≡ 8192 → redo.valid ≡ 8192 → IsGivenAs 0 8192 stopped redo }
    ensures first_page { first_bytes stopped 0 ≡ 90 ∷ 171 ∷ [] }
    ensures second_page { first_bytes stopped 1 ≡ 90 ∷ [] }
{}

/// A checkpoint that synced no stream behind the table that it listed is none of the form.
pub fn a_checkpoint_syncs_its_streams()
    ensures wrong { IsUpdated 0 0 unsynced → ⊥ }
{}
