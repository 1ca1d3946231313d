//! What the program leaves where nothing failed. The function does nothing: its contract is the law.

ghost use Rattle.std.specs.Prelude.{◌≡◌, ℕ, true, List, reverse};
ghost use Rattle.std.specs.declared.option.Option.{Option};
ghost use Rattle.cc_entry.specs.declared.answer.LineReply.{LineReply};
ghost use Rattle.cc_entry.specs.declared.entry.Entry.{Entry};
ghost use Rattle.cc_model.specs.Good.{IsGood};
ghost use Rattle.cc_model.specs.Setup.{Setup};
ghost use Rattle.cc_program.specs.Complete.{HaveStayed, IsFound, RanWithoutFault};
ghost use Rattle.cc_program.specs.Ends.{Input, ProgramOutput, has_devices};
ghost use Rattle.cc_program.specs.Main.{HasMain};
ghost use Rattle.cc_program.specs.Setups.{run_disks, run_logs};
ghost use Rattle.cc_script.specs.declared.script.Script.{Script};
ghost use Rattle.cc_run_laws.specs.Complete.{IsComplete};

use cc_faultless_laws::runs_without_faults_answer_by_the_table;
use cc_traits::{LogFile, PageDisk};

/// The program ended as its clauses `ended`, `good` and `faultless` say. Where the words ask for a script that is sure to be found, there
/// are enough devices for it, the sink neither failed nor took nothing, and no count of faults rose of the disks and the logs of a run,
/// the run is complete.
pub fn runs_without_faults_are_complete<D: PageDisk, L: LogFile>()
    ensures { (u : Setup) (i : Input) (o : ProgramOutput) (script : Script) (made : Option Script) (replies told : List LineReply)
        (journal : List Entry) (status : ℕ) (disks disks_after : List D) (logs logs_after : List L) →
        HasMain i o made replies journal status → IsGood u (reverse journal) →
        RanWithoutFault D.faults L.faults disks disks_after logs logs_after told (reverse journal) →
        IsFound i script → has_devices i.disks i.logs i.posts script ≡ true →
        o.faults_after ≡ o.faults → o.stalls_after ≡ o.stalls →
        HaveStayed D.faults (run_disks disks) (run_disks disks_after) → HaveStayed L.faults (run_logs logs) (run_logs logs_after) →
        IsComplete u i o script made replies told journal status }
{
    runs_without_faults_answer_by_the_table();
}
