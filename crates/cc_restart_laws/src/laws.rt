//! What follows of a stop and a restart. Each function does nothing: its contract is the law.

ghost use Rattle.std.specs.Prelude.{◌≡◌, ℕ, ◌+◌, ◌*◌, ◌<◌, ◌≤◌, true, Option, List, ◌++◌, length, take, Contains};
ghost use Rattle.std.specs.List.{AllByRecursion};
ghost use Rattle.cc_entry.specs.declared.entry.Entry.{Entry};
ghost use Rattle.cc_format.specs.Spelling.{IsReadAs};
ghost use Rattle.cc_format.specs.declared.record.StreamRecord.{StreamRecord};
ghost use Rattle.cc_log.specs.Turn.{HoldsLogEntries, appended};
ghost use Rattle.cc_model.specs.Good.{IsGoodSoFar};
ghost use Rattle.cc_model.specs.History.{history};
ghost use Rattle.cc_model.specs.Images.{crash_pages};
ghost use Rattle.cc_model.specs.Logs.{flushed_to};
ghost use Rattle.cc_model.specs.Objects.{had_map};
ghost use Rattle.cc_model.specs.Records.{crash_records, first_valid, is_settled};
ghost use Rattle.cc_model.specs.Setup.{Setup};
ghost use Rattle.cc_records.specs.Recorded.{told_valid};
ghost use Rattle.cc_traits.specs.Disk.{Disk, may_of, page_of};
ghost use Rattle.cc_traits.specs.Log.{Log, LogEntry};
ghost use Rattle.cc_redo.specs.Disks.{IsBetween, DiskIsMade, Was};
ghost use Rattle.cc_redo.specs.Ends.{made_by_log};
ghost use Rattle.cc_redo.specs.Heard.{is_given, readings, redone_valid};
ghost use Rattle.cc_redo.specs.declared.redo.Redo.{Redo};
ghost use Rattle.cc_restart_laws.specs.Updates.{IsUpdated};
ghost use Rattle.cc_restart_laws.specs.Stops.{HadBegun, IsGivenAs, LogKeeps, LogKeepsBehind, MakesFile, file_byte, redone_byte, updated_byte, updates_in, valid_after_changes};

/// Wherever a run stops whose journal is good and whose log had no entry at first: if a stream changes by updates alone, each
/// with its record in the log, each page of its disk is left as a crash may leave it, and the log keeps its first entries, all
/// durable ones among them, then a restart makes of the pages the opening file with the updates that have a record among the
/// kept entries applied in their order, each whole. `page` says it of one page, whatever the others hold.
pub fn stopped_runs_are_redone()
    ensures file { (u : Setup) (past : List Entry) (s log first durable : ℕ) (pages : ℕ → List ℕ) → s < 16 →
        IsGoodSoFar u past → IsUpdated s log past → ((p : ℕ) → length (pages p) ≡ 4096) →
        (streams : List Redo) (redo : Redo) → Contains streams redo → IsGivenAs s first past redo →
        (kept : List LogEntry) → flushed_to past log ≤ durable → LogKeeps durable (appended past log) kept →
        (disk : ℕ → List ℕ) → ((p : ℕ) → 4096 * p < redo.size → Contains (crash_pages pages (history past s) p) (disk p)) →
        (i : ℕ) → redone_byte streams kept redo disk i ≡ updated_byte pages first (updates_in redo kept) i }
    ensures page { (u : Setup) (past : List Entry) (s log first durable : ℕ) (pages : ℕ → List ℕ) → s < 16 →
        IsGoodSoFar u past → IsUpdated s log past → ((p : ℕ) → length (pages p) ≡ 4096) →
        (streams : List Redo) (redo : Redo) → Contains streams redo → IsGivenAs s first past redo →
        (kept : List LogEntry) → flushed_to past log ≤ durable → LogKeeps durable (appended past log) kept →
        (page : ℕ) (bytes : List ℕ) → 4096 * page < redo.size → Contains (crash_pages pages (history past s) page) bytes →
        MakesFile streams kept redo pages first page bytes }
{}

/// The same of a run that began with a restart of its log: the updates of the entries that the log had then, and those of the
/// kept entries behind them, are applied to the file from which that restart made the opening file.
pub fn restarted_runs_are_redone()
    ensures file { (u : Setup) (past : List Entry) (s log first durable : ℕ) (pages : ℕ → List ℕ) → s < 16 →
        IsGoodSoFar u past → IsUpdated s log past → ((p : ℕ) → length (pages p) ≡ 4096) →
        (streams : List Redo) (redo : Redo) → Contains streams redo → IsGivenAs s first past redo →
        (kept : List LogEntry) → flushed_to past log ≤ durable → LogKeeps durable (appended past log) kept →
        (begun : List LogEntry) (old_pages : ℕ → List ℕ) (old_first : ℕ) →
        HadBegun redo begun (appended past log) pages first old_pages old_first →
        (disk : ℕ → List ℕ) → ((p : ℕ) → 4096 * p < redo.size → Contains (crash_pages pages (history past s) p) (disk p)) →
        (i : ℕ) → redone_byte streams (begun ++ kept) redo disk i ≡ updated_byte old_pages old_first (updates_in redo (begun ++ kept)) i }
    ensures page { (u : Setup) (past : List Entry) (s log first durable : ℕ) (pages : ℕ → List ℕ) → s < 16 →
        IsGoodSoFar u past → IsUpdated s log past → ((p : ℕ) → length (pages p) ≡ 4096) →
        (streams : List Redo) (redo : Redo) → Contains streams redo → IsGivenAs s first past redo →
        (kept : List LogEntry) → flushed_to past log ≤ durable → LogKeeps durable (appended past log) kept →
        (begun : List LogEntry) (old_pages : ℕ → List ℕ) (old_first : ℕ) →
        HadBegun redo begun (appended past log) pages first old_pages old_first →
        (page : ℕ) (bytes : List ℕ) → 4096 * page < redo.size → Contains (crash_pages pages (history past s) page) bytes →
        MakesFile streams (begun ++ kept) redo old_pages old_first page bytes }
{}

/// A restart that is done over pages of which it makes the file leaves that file on the disk, with as much valid data as it has
/// or more: with the greatest of what the restart was given and the ends of the kept updates. One that stopped leaves pages of which
/// the next one makes it, whatever a crash leaves of them, if it was so of all that the page could be before; also where the next one
/// is given the valid data length to which the updates raised it.
pub fn restarts_make_the_file()
    ensures made { (streams : List Redo) (kept : List LogEntry) (redo : Redo) (pages : ℕ → List ℕ) (first : ℕ) (old new : Disk) →
        ((p : ℕ) → 4096 * p < redo.size → MakesFile streams kept redo pages first p (page_of old p)) →
        DiskIsMade (made_by_log streams (readings kept) redo old) new →
        (i : ℕ) → i < redo.size → file_byte (page_of new) (redone_valid (readings kept) redo) i
        ≡ updated_byte pages first (updates_in redo kept) i }
    ensures valid { (kept : List LogEntry) (redo : Redo) (first : ℕ) → first ≤ redo.valid →
        valid_after_changes (updates_in redo kept) first ≤ redone_valid (readings kept) redo }
    ensures greatest { (kept : List LogEntry) (redo : Redo) →
        redone_valid (readings kept) redo ≡ valid_after_changes (updates_in redo kept) redo.valid }
    ensures again { (streams : List Redo) (kept : List LogEntry) (redo : Redo) (pages : ℕ → List ℕ) (first : ℕ) (old new : Disk) →
        IsBetween (made_by_log streams (readings kept) redo old) old new → (p : ℕ) → 4096 * p < redo.size →
        ((bytes : List ℕ) → Was old p bytes → MakesFile streams kept redo pages first p bytes) →
        (bytes : List ℕ) → Contains (may_of new p) bytes → MakesFile streams kept redo pages first p bytes }
    ensures raised { (streams others : List Redo) (kept : List LogEntry) (redo later : Redo) (pages : ℕ → List ℕ) (first : ℕ) →
        later.stream ≡ redo.stream → later.size ≡ redo.size → later.valid ≡ redone_valid (readings kept) redo →
        ((n : ℕ) → is_given others n ≡ is_given streams n) → (page : ℕ) (bytes : List ℕ) →
        MakesFile streams kept redo pages first page bytes → MakesFile others kept later pages first page bytes }
{}

/// The updates of the kept entries are the first of all that the log has, and each entry that is durable is kept.
pub fn kept_updates_are_the_first()
    ensures first { (redo : Redo) (durable : ℕ) (all kept : List LogEntry) → LogKeeps durable all kept →
        updates_in redo kept ≡ take (length (updates_in redo kept)) (updates_in redo all) }
    ensures durable { (durable : ℕ) (all kept : List LogEntry) → LogKeeps durable all kept → (entry : LogEntry) →
        Contains all entry → entry.lsn ≤ durable → Contains kept entry }
{}

/// What a run leaves of its log, as its devices tell it, and what a stop keeps of that: the entries that it had at first, if all
/// of them are durable, and behind them the first of those that the run appended, all durable ones among them.
pub fn logs_keep_what_is_durable()
    ensures { (past : List Entry) (log : ℕ) (begun now : Log) (all : List LogEntry) →
        HoldsLogEntries (appended past log) (flushed_to past log) begun now →
        AllByRecursion (λ entry. entry.lsn ≤ now.durable) begun.entries → LogKeeps now.durable now.entries all →
        LogKeepsBehind now.durable begun.entries (appended past log) all }
{}

/// Whatever a crash leaves of a stream's record page, the valid data length that it then tells may be given to a restart
/// (`IsGivenAs`), as far as that asks for pages that are settled: the record that was there at first told no more than the first
/// initialise made valid, if it told any.
pub fn records_tell_what_may_be_given()
    ensures { (u : Setup) (past : List Entry) (s first : ℕ) → IsGoodSoFar u past →
        (had_map (history past s) ≡ true → first_valid (history past s) ≡ first) →
        (opening content : List ℕ) (before read : Option StreamRecord) → IsReadAs opening before → told_valid before ≤ first →
        Contains (crash_records opening past s) content → IsReadAs content read → (p : ℕ) → first < told_valid read →
        first < 4096 * p + 4096 → 4096 * p < told_valid read → is_settled (history past s) p ≡ true }
{}
