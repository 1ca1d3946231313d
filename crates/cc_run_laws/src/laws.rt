//! What follows of the program's clauses for calls that are stopped and those behind them. The functions do nothing: their contracts are
//! the laws.

ghost use Rattle.std.specs.Prelude.{◌≡◌, ℕ, ◌≤◌, Contains, List, Some, length};
ghost use Rattle.std.specs.List.{filter};
ghost use Rattle.std.specs.declared.option.Option.{Option};
ghost use Rattle.cc_format.specs.declared.record.StreamRecord.{StreamRecord};
ghost use Rattle.cc_redo.specs.Heard.{last_lsn_of, readings};
ghost use Rattle.cc_redo.specs.Reading.{said_by};
ghost use Rattle.cc_redo.specs.declared.record.LogRecord.TheVariants.{Update};
ghost use Rattle.cc_redo.specs.declared.redo.Redo.{Redo};
ghost use Rattle.cc_restart_laws.specs.Stops.{updates_in};
ghost use Rattle.cc_restart_laws.specs.Updates.{is_update_of};
ghost use Rattle.cc_restarts.specs.Given.{size_said, valid_said};
ghost use Rattle.cc_run_laws.specs.Calls.{HasRestarted, LogEntryIsFlushed, IsScriptOf, NamesStream};
ghost use Rattle.cc_program.specs.Calls.{HasClauses, ProgramCall};
ghost use Rattle.cc_run_laws.specs.Chains.{HaveLeft, IsFirst, IsRunOf, RunsOn};
ghost use Rattle.cc_script.specs.declared.script.Script.{Script};
ghost use Rattle.cc_script.specs.declared.script.StreamLine.{StreamLine};
ghost use Rattle.cc_stop_laws.specs.Redoable.{HoldsPossible, IsFileMade, IsHandedIn, TellsAt, TellsGreatest};
ghost use Rattle.cc_stop_laws.specs.Runs.{IsRedoneFrom, as_read};
ghost use Rattle.cc_traits.specs.Disk.{Disk, page_of};
ghost use Rattle.cc_traits.specs.Log.{Log, LogEntry};
ghost use Rattle.cc_update_laws.specs.Devices.{GoesOnFrom};

use cc_traits::{LogFile, PageDisk};

/// A run goes on with a log from the greatest LSN that the restart of it read, if the line of the restart was answered as done: before
/// anything was appended to the log, it was flushed up to that LSN, so later LSNs are greater.
pub fn restarted_runs_go_on<D: PageDisk, L: LogFile>()
    ensures { (s log : ℕ) (stream : StreamLine) (was : Disk) (had : Log) (call : ProgramCall D L) →
        (restarted : HasRestarted D.told D.faults L.told L.faults s log stream was had call) →
        GoesOnFrom log (last_lsn_of (readings restarted.kept.entries)) call.past }
{}

/// One stop and the call behind it. `first`: a first run leaves of its disk and of its log what can be redone to the file with which it
/// began. `made`: what can be redone so is redone by the next call, if its restart is answered as done: the disk with which its run begins
/// has the file with the kept updates applied in their order, each whole; these are all that the kept entries record of the stream; and its
/// record tells as valid the greatest of what the restart was given and the ends of these updates.
/// `later`: what that run leaves in turn can be redone to the same file.
pub fn stopped_runs_are_redone_by_the_next<D: PageDisk, L: LogFile>()
    ensures first { (s log : ℕ) (stream : StreamLine) (read : Option StreamRecord) (opening : Disk) (call : ProgramCall D L)
        (left : Disk) (after : Log) → IsFirst D.told D.faults L.told L.faults s log stream read opening call left after →
        IsRedoneFrom s stream (size_said stream read) (page_of opening) (valid_said stream read) left after }
    ensures made { (s log size first : ℕ) (stream : StreamLine) (pages : ℕ → List ℕ) (was : Disk) (had : Log) →
        IsRedoneFrom s stream size pages first was had → (call : ProgramCall D L) →
        (restarted : HasRestarted D.told D.faults L.told L.faults s log stream was had call) →
        (made : Disk) × TellsAt D.told call.disks_begun s made × TellsAt L.told call.logs_begun log restarted.kept
        × (file : IsFileMade s size restarted.kept.entries pages first made)
        × (length (updates_in file.has.redo restarted.kept.entries)
        ≡ length (filter (λ entry. is_update_of s (said_by entry.bytes)) restarted.kept.entries))
        × TellsGreatest restarted.line restarted.handed restarted.kept.entries file.has.redo file.valid }
    ensures later { (s log size first : ℕ) (stream : StreamLine) (pages : ℕ → List ℕ) (was : Disk) (had : Log) →
        IsRedoneFrom s stream size pages first was had → (call : ProgramCall D L) (left : Disk) (after : Log) →
        RunsOn D.told D.faults L.told L.faults s log stream was had call left after →
        IsRedoneFrom s stream size pages first left after }
{}

/// A call that is stopped within its restarts, at whichever of their calls, or behind them, whether it then ran its script or found no
/// memory for that, or that ended before them: the disk with which it began can be redone to the file, whatever a crash leaves of it, if
/// the log still has the entries that it was handed; and each page of it holds what a crash can leave.
pub fn stopped_restarts_are_redone_by_the_next<D: PageDisk, L: LogFile>()
    ensures { (s log size first : ℕ) (stream : StreamLine) (pages : ℕ → List ℕ) (was : Disk) (had : Log) →
        IsRedoneFrom s stream size pages first was had → (call : ProgramCall D L) (handed : Disk) (kept : Log) →
        HasClauses D.told D.faults L.told L.faults call →
        IsHandedIn D.told L.told call.disks call.logs s log was had handed kept →
        ((script : Script) → IsScriptOf call.input call.script script → NamesStream s log stream handed script) →
        (left : Disk) × TellsAt D.told call.disks_begun s left × TellsAt L.told call.logs_begun log kept
        × IsRedoneFrom s stream size pages first left (as_read kept) × HoldsPossible left }
{}

/// Any number of calls, each behind a stop of the one before it: `left` says of what they leave that it can be redone, and `file` that the
/// next call whose restart is answered as done begins with the file with which the first one's run began, with the updates of the kept
/// entries applied in their order, each whole, all that these record of the stream, and with the valid data length that it is to tell.
pub fn any_number_of_stops_is_redone<D: PageDisk, L: LogFile>()
    ensures left { (s log : ℕ) (stream : StreamLine) (read : Option StreamRecord) (opening : Disk) (calls : List (ProgramCall D L))
        (left : Disk) (after : Log) → HaveLeft D.told D.faults L.told L.faults s log stream read opening calls left after →
        IsRedoneFrom s stream (size_said stream read) (page_of opening) (valid_said stream read) left after }
    ensures file { (s log : ℕ) (stream : StreamLine) (read : Option StreamRecord) (opening : Disk) (calls : List (ProgramCall D L))
        (was : Disk) (had : Log) → HaveLeft D.told D.faults L.told L.faults s log stream read opening calls was had →
        (call : ProgramCall D L) → (restarted : HasRestarted D.told D.faults L.told L.faults s log stream was had call) →
        (made : Disk) × TellsAt D.told call.disks_begun s made
        × (file : IsFileMade s (size_said stream read) restarted.kept.entries (page_of opening) (valid_said stream read) made)
        × (length (updates_in file.has.redo restarted.kept.entries)
        ≡ length (filter (λ entry. is_update_of s (said_by entry.bytes)) restarted.kept.entries))
        × TellsGreatest restarted.line restarted.handed restarted.kept.entries file.has.redo file.valid }
{}

/// Every flushed record is among the redone ones. `durable`: each entry of the log that was durable as a call ended is among those that
/// the next one restarts with. `flushed`: so is each that any of the runs before appended to the log and flushed it up to, however many
/// calls were stopped since. `applied`: each of these entries that records an update of the stream gives its change to the file that the
/// restart makes (`file` of `any_number_of_stops_is_redone`).
pub fn flushed_updates_are_redone<D: PageDisk, L: LogFile>()
    ensures durable { (s log : ℕ) (stream : StreamLine) (was : Disk) (had : Log) (call : ProgramCall D L) →
        (restarted : HasRestarted D.told D.faults L.told L.faults s log stream was had call) → (it : LogEntry) →
        Contains had.entries it → it.lsn ≤ had.durable → Contains restarted.kept.entries it }
    ensures flushed { (s log : ℕ) (stream : StreamLine) (read : Option StreamRecord) (opening : Disk) (calls : List (ProgramCall D L))
        (was : Disk) (had : Log) → (have : HaveLeft D.told D.faults L.told L.faults s log stream read opening calls was had) →
        (call : ProgramCall D L) → (restarted : HasRestarted D.told D.faults L.told L.faults s log stream was had call) →
        (run : ProgramCall D L) → IsRunOf D.told D.faults L.told L.faults s log stream read opening calls was had have run →
        (it : LogEntry) → LogEntryIsFlushed log it run.past → Contains restarted.kept.entries it }
    ensures applied { (s log : ℕ) (stream : StreamLine) (read : Option StreamRecord) (opening : Disk) (calls : List (ProgramCall D L))
        (was : Disk) (had : Log) → HaveLeft D.told D.faults L.told L.faults s log stream read opening calls was had →
        (call : ProgramCall D L) → (restarted : HasRestarted D.told D.faults L.told L.faults s log stream was had call) →
        (redo : Redo) → redo.stream ≡ s → redo.size ≡ size_said stream read → (it : LogEntry) → Contains restarted.kept.entries it →
        (at : ℕ) (bytes : List ℕ) → said_by it.bytes ≡ Some (Update s at bytes) →
        Contains (updates_in redo restarted.kept.entries) (record { at = at; bytes = bytes }) }
{}
