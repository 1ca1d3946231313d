//! No crash shows a stamped change before its log has it. Each function does nothing: its contract is the law.

ghost use Rattle.std.specs.Prelude.{◌≡◌, ℕ, ◌==◌, ◌⊎◌, false, List, [], ◌∷◌, ◌++◌, Contains};
ghost use Rattle.cc_entry.specs.declared.entry.Entry.{Entry};
ghost use Rattle.cc_entry.specs.declared.entry.Entry.TheVariants as entry;
ghost use Rattle.cc_crash_laws.specs.Logged.{HasStamps, IsShownLogged};
ghost use Rattle.cc_log.specs.Turn.{HoldsLogEntries, LogTurnState, appended};
ghost use Rattle.cc_model.specs.Covered.{IsCovered};
ghost use Rattle.cc_model.specs.History.{history};
ghost use Rattle.cc_model.specs.Logs.{flushed_to};
ghost use Rattle.cc_traits.specs.Disk.{Disk, may_of, page_of};
ghost use Rattle.cc_traits.specs.Log.{Log};
ghost use Rattle.cc_traits.specs.Told.{IfTold};
ghost use Rattle.cc_turns.specs.Disk.{HasGone};
ghost use Rattle.cc_turns.specs.Log.{LogStands};
ghost use Rattle.cc_turns.specs.RecordPage.{record_number};
ghost use Rattle.cc_turns.specs.Standing.{LogAtFirst};

use cc_traits::LogFile;

/// As each transfer of a page begins, the page's newest LSN is on the medium of its stream's log, and stays there. `holds` is of a log
/// as a run leaves it, `stands` of one under its turn or at home, at whatever moment.
pub fn begun_pages_are_logged<L: LogFile>()
    ensures holds { (past later front : List Entry) (pass s p log : ℕ) (begun now : Log) → IsCovered past →
        past ≡ later ++ entry.WriteBegin pass (record { stream = s; page = p }) ∷ front →
        HoldsLogEntries (appended past log) (flushed_to past log) begun now → HasStamps front s p log now }
    ensures stands { (past later front : List Entry) (pass s p : ℕ) (first : LogAtFirst) (log : LogTurnState L) → IsCovered past →
        past ≡ later ++ entry.WriteBegin pass (record { stream = s; page = p }) ∷ front →
        LogStands L.told L.faults first past log → IfTold (L.told log.file) (HasStamps front s p log.handle) }
{}

/// Of a disk that has gone with its stream, a crash shows no stamped change that its log has not: what it leaves of a page is what the
/// disk opened with, or the page as one of its transfers began, and of that the newest LSN is on the medium of the stream's log.
pub fn no_crash_shows_an_unlogged_change()
    ensures { (past : List Entry) (s p log : ℕ) (opening now : Disk) (begun after : Log) (content : List ℕ) → IsCovered past →
        HasGone (history past s) opening now → HoldsLogEntries (appended past log) (flushed_to past log) begun after →
        (p == record_number) ≡ false → may_of opening p ≡ page_of opening p ∷ [] → Contains (may_of now p) content →
        (content ≡ page_of opening p) ⊎ IsShownLogged (page_of opening) past s p log after content }
{}
