//! What updates and checkpoints leave, and what is asked of a journal that is redone. Each function does nothing: its contract
//! is the law.

ghost use Rattle.std.specs.Prelude.{◌≡◌, ℕ, ◌*◌, ◌^◌, ◌<◌, ◌≤◌, ◌⊎◌, false, true, Err, Result, Some, List, [], ◌∷◌, ◌++◌, Contains, length};
ghost use Rattle.std.specs.List.{AllByRecursion, filter};
ghost use Rattle.cc_entry.specs.Place.{File};
ghost use Rattle.cc_entry.specs.declared.entry.Entry.{Entry};
ghost use Rattle.cc_entry.specs.declared.error.CcError.{CcError};
ghost use Rattle.cc_format.specs.LogRecords.{update_record as record_of_update};
ghost use Rattle.cc_log.specs.Turn.{HoldsLogEntries, appended};
ghost use Rattle.cc_model.specs.Good.{IsGoodSoFar};
ghost use Rattle.cc_model.specs.History.{history};
ghost use Rattle.cc_model.specs.Logs.{flushed_to};
ghost use Rattle.cc_model.specs.Objects.{had_map};
ghost use Rattle.cc_model.specs.Settings.{log_of};
ghost use Rattle.cc_model.specs.Passes.{is_mine};
ghost use Rattle.cc_model.specs.Setup.{Setup};
ghost use Rattle.cc_model.specs.Touches.{size_of};
ghost use Rattle.cc_pieces.specs.Checkpoints.{CheckpointLeft};
ghost use Rattle.cc_pieces.specs.Shim.{IsForWant, UpdateLeft, update_record_of_file};
ghost use Rattle.cc_redo.specs.Disks.{DiskIsMade};
ghost use Rattle.cc_redo.specs.Ends.{made_by_log};
ghost use Rattle.cc_redo.specs.Heard.{last_lsn_of, readings, redone_valid};
ghost use Rattle.cc_redo.specs.Reading.{said_by};
ghost use Rattle.cc_redo.specs.declared.redo.Redo.{Redo};
ghost use Rattle.cc_restart_laws.specs.Stops.{AreAscending, HadBegun, IsGivenAs, LogKeeps, MakesFile, redone_byte, updated_byte, updates_in};
ghost use Rattle.cc_restart_laws.specs.Updates.{IsUpdated, is_update_of};
ghost use Rattle.cc_traits.specs.Disk.{Disk, page_of};
ghost use Rattle.cc_traits.specs.Log.{Log, LogEntry};
ghost use Rattle.cc_turns.specs.Disk.{HasGone};
ghost use Rattle.cc_update_laws.specs.Devices.{AreLeft, GoesOnFrom, IsWholeDisk};
ghost use Rattle.cc_update_laws.specs.Logs.{EachEndsWithin, IsLogOf};
ghost use Rattle.cc_update_laws.specs.Keeping.{AreStamped, HasNoneOpen, IsCalmForCheckpoint, PassKeepsForm, KeepsForm, OthersRecordNone, RowsFit};

/// What an update leaves, whatever it was answered, keeps the form that is asked of a stream that changes by updates alone: of
/// each stream and each log. A stream of that form is given no other log, so the log that the update was told is this one. The record
/// that it gives the log is the one that a restart reads.
pub fn updates_keep_the_form()
    ensures kept { (u : Setup) (s log me : ℕ) (file : File) (at : ℕ) (bytes : List ℕ) (answered : Result ℕ CcError)
        (old new : List Entry) → file.stream < 255 → at < 2 ^ 64 → length bytes < 2 ^ 32 →
        IsGoodSoFar u new → HasNoneOpen s log me old →
        UpdateLeft u me file at bytes answered old new → PassKeepsForm s log me old new × HasNoneOpen s log me new }
    ensures spelled { (file : File) (at : ℕ) (bytes : List ℕ) → update_record_of_file file at bytes ≡ record_of_update file.stream at bytes }
{}

/// Each update that was answered with its LSN, or was refused for another reason than want of room or of memory, leaves no record
/// without its change: if each update that had a record was set dirty before it, and no other pass gives the log one meanwhile,
/// then so it is behind it.
pub fn answered_updates_are_set_dirty()
    ensures { (u : Setup) (s log me : ℕ) (file : File) (at : ℕ) (bytes : List ℕ) (answered : Result ℕ CcError)
        (old new : List Entry) → file.stream < 255 → at < 2 ^ 64 → length bytes < 2 ^ 32 →
        IsGoodSoFar u new → IsUpdated s log new →
        ((e : CcError) → answered ≡ Err e → IsForWant e → ⊥) → OthersRecordNone s log me old new → AreStamped s log old →
        UpdateLeft u me file at bytes answered old new → AreStamped s log new }
{}

/// What a checkpoint leaves, whatever it was answered, keeps the form: its record has the rows of the table that it listed, and it
/// synced the stream since. The stream is one of those that it asks, and has the log as it begins, or never had a map.
pub fn checkpoints_keep_the_form()
    ensures { (u : Setup) (s log me streams handle : ℕ) (answered : Result ℕ CcError) (old new : List Entry) → s < streams →
        (log_of (history old s) ≡ Some log) ⊎ (had_map (history new s) ≡ false) → IsCalmForCheckpoint s log me old new →
        ((later during : List Entry) → new ≡ later ++ (during ++ old) → RowsFit log (during ++ old)) →
        IsGoodSoFar u new → HasNoneOpen s log me old → CheckpointLeft u me streams handle answered old new →
        PassKeepsForm s log me old new × HasNoneOpen s log me new }
{}

/// A journal each of whose entries keeps the form has it; an entry keeps it that its pass placed in a stretch that keeps it.
pub fn kept_forms_are_the_journals()
    ensures whole { (s log : ℕ) (past : List Entry) →
        ((later front : List Entry) (e : Entry) → past ≡ later ++ e ∷ front → KeepsForm s log front e) → IsUpdated s log past }
    ensures each { (s log me : ℕ) (old new later front : List Entry) (e : Entry) → PassKeepsForm s log me old new →
        new ≡ later ++ e ∷ (front ++ old) → is_mine me e ≡ true → KeepsForm s log (front ++ old) e }
{}

/// What a run leaves of a disk and of a log, as the devices tell it, and what a stop keeps of them: a restart makes of it the file
/// that the run was handed, with the updates that the log kept applied in their order, each whole. `first` is of a log that had no
/// entry, `later` of one of whose entries a restart had made that file.
pub fn left_devices_are_redone()
    ensures first { (u : Setup) (past : List Entry) (s log first : ℕ) (opening now : Disk) (begun after : Log) → s < 16 →
        IsGoodSoFar u past → IsUpdated s log past → IsWholeDisk opening → HasGone (history past s) opening now →
        HoldsLogEntries (appended past log) (flushed_to past log) begun after → (streams : List Redo) (redo : Redo) →
        Contains streams redo → IsGivenAs s first past redo → begun.entries ≡ [] → (kept : List LogEntry) →
        LogKeeps after.durable after.entries kept → (disk : ℕ → List ℕ) → AreLeft now redo.size disk → (i : ℕ) →
        redone_byte streams kept redo disk i ≡ updated_byte (page_of opening) first (updates_in redo kept) i }
    ensures later { (u : Setup) (past : List Entry) (s log first : ℕ) (opening now : Disk) (begun after : Log) → s < 16 →
        IsGoodSoFar u past → IsUpdated s log past → IsWholeDisk opening → HasGone (history past s) opening now →
        HoldsLogEntries (appended past log) (flushed_to past log) begun after → (streams : List Redo) (redo : Redo) →
        Contains streams redo → IsGivenAs s first past redo → AllByRecursion (λ entry. entry.lsn ≤ after.durable) begun.entries →
        (old_pages : ℕ → List ℕ) (old_first : ℕ) →
        HadBegun redo begun.entries (appended past log) (page_of opening) first old_pages old_first → (kept : List LogEntry) →
        LogKeeps after.durable after.entries kept → (disk : ℕ → List ℕ) → AreLeft now redo.size disk → (i : ℕ) →
        redone_byte streams kept redo disk i ≡ updated_byte old_pages old_first (updates_in redo kept) i }
{}

/// No update that a run recorded is passed over by a restart, and none that the log had before, if each of those ends within the size
/// of the stream, as it does where an earlier run of that size recorded it. `within`: so it is of what the log keeps. `applied`: of
/// such entries a restart applies as many updates as record one of the stream.
pub fn each_kept_update_is_applied()
    ensures within { (u : Setup) (past : List Entry) (s log size durable : ℕ) → IsGoodSoFar u past → IsUpdated s log past →
        (had_map (history past s) ≡ true → size_of (history past s) ≡ size) → (begun kept : List LogEntry) →
        EachEndsWithin s size begun → LogKeeps durable (begun ++ appended past log) kept → EachEndsWithin s size kept }
    ensures applied { (redo : Redo) (kept : List LogEntry) → EachEndsWithin redo.stream redo.size kept →
        length (updates_in redo kept) ≡ length (filter (λ entry. is_update_of redo.stream (said_by entry.bytes)) kept) }
{}

/// A run that goes on with the log of a stream from the greatest LSN that its restart read: the entries that the log had are durable
/// as the run is stopped, whenever that is (`durable`); what it leaves is again the log of the stream (`left`); and so is each front
/// of that, as a stop may leave it (`front`).
pub fn runs_go_on_with_their_logs()
    ensures durable { (past : List Entry) (log : ℕ) (begun after : Log) →
        GoesOnFrom log (last_lsn_of (readings begun.entries)) past → AllByRecursion (λ entry. entry.lsn ≤ 2 ^ 62) begun.entries →
        HoldsLogEntries (appended past log) (flushed_to past log) begun after →
        AllByRecursion (λ entry. entry.lsn ≤ after.durable) begun.entries }
    ensures left { (u : Setup) (past : List Entry) (s log size : ℕ) (begun : List LogEntry) → IsGoodSoFar u past →
        IsUpdated s log past → (had_map (history past s) ≡ true → size_of (history past s) ≡ size) →
        GoesOnFrom log (last_lsn_of (readings begun)) past → IsLogOf s size begun → IsLogOf s size (begun ++ appended past log) }
    ensures front { (s size durable : ℕ) (all kept : List LogEntry) → IsLogOf s size all → LogKeeps durable all kept →
        IsLogOf s size kept }
{}

/// What a restart leaves on the disk of a stream is what the law on restarted runs asks of the next run, which goes on with the log
/// from the greatest LSN that the restart read, before it appends to it.
pub fn restarts_begin_the_next_run()
    ensures { (u : Setup) (past : List Entry) (log : ℕ) (streams : List Redo) (kept : List LogEntry) (redo : Redo)
        (old_pages : ℕ → List ℕ) (old_first first : ℕ) (old new : Disk) → IsGoodSoFar u past →
        GoesOnFrom log (last_lsn_of (readings kept)) past → AreAscending kept → AllByRecursion (λ entry. entry.lsn ≤ 2 ^ 62) kept →
        ((p : ℕ) → 4096 * p < redo.size → MakesFile streams kept redo old_pages old_first p (page_of old p)) →
        DiskIsMade (made_by_log streams (readings kept) redo old) new → old_first ≤ redo.valid → first ≡ redone_valid (readings kept) redo →
        HadBegun redo kept (appended past log) (page_of new) first old_pages old_first }
{}
