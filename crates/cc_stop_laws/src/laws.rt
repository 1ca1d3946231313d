//! What follows of a stop of a run and of the next run's restarts. Each function does nothing: its contract is the law.

ghost use Rattle.std.specs.Prelude.{◌≡◌, ℕ, false, List, [], Ok, Some, slice_get};
ghost use Rattle.std.specs.declared.option.Option.{Option};
ghost use Rattle.cc_entry.specs.declared.entry.Entry.{Entry};
ghost use Rattle.cc_format.specs.Spelling.{IsReadAs};
ghost use Rattle.cc_format.specs.declared.record.StreamRecord.{StreamRecord};
ghost use Rattle.cc_model.specs.Good.{IsGoodSoFar};
ghost use Rattle.cc_model.specs.History.{history};
ghost use Rattle.cc_model.specs.Objects.{had_map};
ghost use Rattle.cc_model.specs.Setup.{Setup};
ghost use Rattle.cc_redo.specs.Disks.{record_number};
ghost use Rattle.cc_redo.specs.Heard.{last_lsn_of, readings};
ghost use Rattle.cc_restarts.specs.Given.{size_said, valid_said};
ghost use Rattle.cc_restarts.specs.Restarting.{LogsRestarted, lsn_of};
ghost use Rattle.cc_restarts.specs.declared.ended.LogRestart.{LogRestart};
ghost use Rattle.cc_restarts.specs.declared.ended.Numbers.{Numbers};
ghost use Rattle.cc_script.specs.declared.script.RestartLine.{RestartLine};
ghost use Rattle.cc_script.specs.declared.script.StreamLine.{StreamLine};
ghost use Rattle.cc_stop_laws.specs.Redoable.{HoldsPossible, IsFileMade, IsHandedIn, IsLeftUnopened, NamesAgain, RecordsTell, RestartsOnce, RestartsStream, TellsAt, TellsGreatest};
ghost use Rattle.cc_stop_laws.specs.Runs.{HasBegunWith, IsRedoneFrom, IsUpdatedRun, as_read};
ghost use Rattle.cc_traits.specs.Disk.{Disk, page_of};
ghost use Rattle.cc_traits.specs.Log.{Log, LogEntry};
ghost use Rattle.cc_turns.specs.Disk.{HasGone};
ghost use Rattle.cc_turns.specs.RecordPage.{RecordHasGone};
ghost use Rattle.cc_update_laws.specs.Devices.{GoesOnFrom, IsWholeDisk};
ghost use Rattle.cc_update_laws.specs.Logs.{IsLogOf};

use cc_traits::{LogFile, PageDisk};

/// What a run leaves of a stream's disk and of its log can be redone: whatever a crash leaves of each page and of the record page, and
/// wherever it cuts the log past what is durable, a restart makes of it the file with which the run began, that of the old pages with
/// the log's entries applied, with the kept updates applied behind them (`left`). The stream may be named by another line then, which
/// names the numbers of the run's line again where the run found no record. `first` is of a log that had no entry: the run began with
/// the file that it was handed.
pub fn what_a_run_leaves_can_be_redone()
    ensures first { (u : Setup) (past : List Entry) (s log : ℕ) (stream : StreamLine) (read : Option StreamRecord)
        (opening left : Disk) (begun after : Log) → IsUpdatedRun u past s log stream read opening left begun after →
        IsWholeDisk opening → begun.entries ≡ [] →
        HasBegunWith past s log stream read (page_of opening) (valid_said stream read) opening begun }
    ensures left { (u : Setup) (past : List Entry) (s log first : ℕ) (stream line : StreamLine) (read : Option StreamRecord)
        (pages : ℕ → List ℕ) (opening left : Disk) (begun after : Log) →
        IsUpdatedRun u past s log line read opening left begun after →
        HasBegunWith past s log line read pages first opening begun → NamesAgain opening stream line →
        IsRedoneFrom s stream (size_said line read) pages first left after }
{}

/// What the restarts of a script make (`LogsRestarted`, of the clause `restarted` of the program's call), where what a crash left of
/// a stream's disk and of its log was handed in. One that is done makes the file, with the valid data length that it is to tell (`made`),
/// and tells the greatest LSN of the log (`last`).
/// However it ended, at whichever call it stopped, it leaves a disk of which the next one makes it, whatever a crash leaves of it then,
/// if the log still has the entries that were read (`again`), and each page of that disk holds what a crash can leave of it. So it is of
/// what was handed in where nothing was restarted (`untouched`).
pub fn restarts_redo_what_is_left<D: PageDisk, L: LogFile>()
    ensures made { (streams : List StreamLine) (restarts : List RestartLine) (ended : List LogRestart) (disks disks_begun : List D)
        (logs logs_begun : List L) →
        LogsRestarted D.told D.faults L.told L.faults streams restarts ended disks disks_begun logs logs_begun →
        (s log n size first : ℕ) (stream line : StreamLine) (one : LogRestart) (pages : ℕ → List ℕ) (left handed : Disk)
        (after kept : Log) → RestartsStream s log line streams restarts n → RestartsOnce log restarts n →
        slice_get ended n ≡ Some one → IsRedoneFrom s stream size pages first left after →
        IsHandedIn D.told L.told disks logs s log left after handed kept → NamesAgain handed stream line →
        (numbers : Numbers) → one.ended ≡ Ok numbers → (made : Disk) × TellsAt D.told disks_begun s made
        × TellsAt L.told logs_begun log kept × (file : IsFileMade s size kept.entries pages first made) × IsLogOf s size kept.entries
        × TellsGreatest line handed kept.entries file.has.redo file.valid }
    ensures last { (streams : List StreamLine) (restarts : List RestartLine) (ended : List LogRestart) (disks disks_begun : List D)
        (logs logs_begun : List L) →
        LogsRestarted D.told D.faults L.told L.faults streams restarts ended disks disks_begun logs logs_begun →
        (s log n : ℕ) (line : StreamLine) (one : LogRestart) (kept : Log) → RestartsStream s log line streams restarts n →
        RestartsOnce log restarts n → slice_get ended n ≡ Some one → TellsAt L.told logs log kept → (numbers : Numbers) → one.ended ≡ Ok numbers →
        numbers.last ≡ lsn_of (last_lsn_of (readings kept.entries)) }
    ensures again { (streams : List StreamLine) (restarts : List RestartLine) (ended : List LogRestart) (disks disks_begun : List D)
        (logs logs_begun : List L) →
        LogsRestarted D.told D.faults L.told L.faults streams restarts ended disks disks_begun logs logs_begun →
        (s log n size first : ℕ) (stream line : StreamLine) (one : LogRestart) (pages : ℕ → List ℕ) (left handed : Disk)
        (after kept : Log) → RestartsStream s log line streams restarts n → RestartsOnce log restarts n →
        slice_get ended n ≡ Some one → IsRedoneFrom s stream size pages first left after →
        IsHandedIn D.told L.told disks logs s log left after handed kept → NamesAgain handed stream line →
        (now : Disk) × TellsAt D.told disks_begun s now × TellsAt L.told logs_begun log kept
        × IsRedoneFrom s stream size pages first now (as_read kept) × HoldsPossible now }
    ensures untouched { (disks : List D) (logs : List L) (s log size first : ℕ) (stream : StreamLine) (pages : ℕ → List ℕ)
        (left handed : Disk) (after kept : Log) → IsRedoneFrom s stream size pages first left after →
        IsHandedIn D.told L.told disks logs s log left after handed kept →
        IsRedoneFrom s stream size pages first handed (as_read kept) × HoldsPossible handed }
{}

/// What a restart made is what `what_a_run_leaves_can_be_redone` asks of the run that begins with it, where that goes on with the log
/// from the greatest LSN that was read: whatever the line of the stream says, its record tells the numbers.
pub fn made_files_begin_the_next_run()
    ensures begun { (past : List Entry) (s log size first : ℕ) (pages : ℕ → List ℕ) (made : Disk) (begun : Log) →
        IsFileMade s size begun.entries pages first made → IsLogOf s size begun.entries →
        GoesOnFrom log (last_lsn_of (readings begun.entries)) past → (line : StreamLine) (read : Option StreamRecord) →
        IsReadAs (page_of made record_number) read →
        (size_said line read ≡ size) × HasBegunWith past s log line read pages first made begun }
    ensures named { (s size first : ℕ) (kept : List LogEntry) (pages : ℕ → List ℕ) (made : Disk) →
        IsFileMade s size kept pages first made → (stream line : StreamLine) → NamesAgain made stream line }
{}

/// Of what is left behind a run in which a stream has no map can be redone what could of the disk with which it began: of what that run
/// gives back, page by page as the disk holds it, or as a crash could leave it as the run began, or, where that was in one way alone, as a
/// crash may leave it now. So it is too where a restart was refused between its writes, and a crash could leave a page in two ways.
pub fn unopened_streams_are_left_alone()
    ensures { (u : Setup) (past : List Entry) (s size first : ℕ) (stream : StreamLine) (pages : ℕ → List ℕ) (opening back left : Disk)
        (after : Log) → IsGoodSoFar u past → had_map (history past s) ≡ false → RecordsTell s 0 past → HoldsPossible opening →
        HasGone (history past s) opening back → RecordHasGone past s opening back → IsLeftUnopened opening back left →
        IsRedoneFrom s stream size pages first opening after → IsRedoneFrom s stream size pages first left after }
{}
