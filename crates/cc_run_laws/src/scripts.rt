//! What follows of the lines of scripts. The functions do nothing: their contracts are the laws.

ghost use Rattle.std.specs.Prelude.{◌≡◌, ℕ, false, Some, List, length};
ghost use Rattle.std.specs.List.{filter};
ghost use Rattle.std.specs.declared.option.Option.{Option};
ghost use Rattle.cc_entry.specs.declared.error.CcError.{CcError};
ghost use Rattle.cc_format.specs.declared.record.StreamRecord.{StreamRecord};
ghost use Rattle.cc_model.specs.History.{history};
ghost use Rattle.cc_model.specs.Objects.{had_map};
ghost use Rattle.cc_pieces.specs.Restarts.{refused_for};
ghost use Rattle.cc_redo.specs.Reading.{said_by};
ghost use Rattle.cc_restart_laws.specs.Stops.{updates_in};
ghost use Rattle.cc_restart_laws.specs.Updates.{is_update_of};
ghost use Rattle.cc_restarts.specs.Given.{AreRestartSizes, size_said, valid_said};
ghost use Rattle.cc_run_laws.specs.Calls.{HasRestarted, RanUpdated};
ghost use Rattle.cc_program.specs.Calls.{HasClauses, ProgramCall};
ghost use Rattle.cc_run_laws.specs.ScriptChains.{HaveLeftByScripts};
ghost use Rattle.cc_run_laws.specs.Scripts.{CheckpointsAreRight, HadDevices, HasNoCheckpoint, HasNoneOrOpensNone, InitialisesNone, StreamIsOpened, LeavesToUpdates, NamesTheLog};
ghost use Rattle.cc_script.specs.declared.script.StreamLine.{StreamLine};
ghost use Rattle.cc_stop_laws.specs.Redoable.{IsFileMade, TellsAt, TellsGreatest};
ghost use Rattle.cc_traits.specs.Disk.{Disk, page_of};
ghost use Rattle.cc_traits.specs.Log.{Log};

use crate::laws::any_number_of_stops_is_redone;
use cc_script_laws::{
    refused_restarts_open_no_stream, scripts_of_updates_keep_the_form,
    streams_open_with_their_numbers,
};
use cc_traits::{LogFile, PageDisk};

/// A run whose script left a stream to its updates is one of which the laws on stops speak (`RanUpdated`): the stream changed by logged
/// updates alone, and was first initialised with the numbers of its record, or else of its line. `updates` is of a script without a
/// checkpoint of the log, `checkpoints` of one whose checkpoints are right, the stream's own line being done. `kept` is of one whose own
/// line of the stream may have been refused, and of whose callers no line initialises the stream: without a checkpoint of the log, or
/// where the stream had no map in the run.
pub fn scripts_of_updates_are_redone<D: PageDisk, L: LogFile>()
    ensures updates { (call : ProgramCall D L) → HasClauses D.told D.faults L.told L.faults call → (s log : ℕ) (line : StreamLine)
        (read : Option StreamRecord) (opening left : Disk) (begun after : Log) → (leaves : LeavesToUpdates call s log line) →
        HadDevices D.told L.told call s log line read opening left begun after → StreamIsOpened leaves →
        HasNoCheckpoint log leaves.its.script → RanUpdated D.told L.told call s log line read opening left begun after }
    ensures checkpoints { (call : ProgramCall D L) → HasClauses D.told D.faults L.told L.faults call → (s log : ℕ) (line : StreamLine)
        (read : Option StreamRecord) (opening left : Disk) (begun after : Log) → (leaves : LeavesToUpdates call s log line) →
        HadDevices D.told L.told call s log line read opening left begun after → StreamIsOpened leaves →
        CheckpointsAreRight call s log leaves.its.script → RanUpdated D.told L.told call s log line read opening left begun after }
    ensures kept { (call : ProgramCall D L) → HasClauses D.told D.faults L.told L.faults call → (s log : ℕ) (line : StreamLine)
        (read : Option StreamRecord) (opening left : Disk) (begun after : Log) → (leaves : LeavesToUpdates call s log line) →
        HadDevices D.told L.told call s log line read opening left begun after → InitialisesNone s leaves.its.script →
        AreRestartSizes line read → HasNoneOrOpensNone call s log leaves.its.script →
        RanUpdated D.told L.told call s log line read opening left begun after }
{
    scripts_of_updates_keep_the_form();
    streams_open_with_their_numbers();
}

/// Any number of calls, each behind a stop of the one before it, whose scripts left a stream to its updates: the next call whose
/// restart is answered as done begins with the file with which the first one's run began, with all updates of the kept entries applied
/// in their order, each whole, and all that these record of the stream; and the record tells as valid the greatest of what the restart
/// was given and the ends of these updates.
pub fn scripts_of_stopped_calls_are_redone<D: PageDisk, L: LogFile>()
    ensures { (s log : ℕ) (stream : StreamLine) (read : Option StreamRecord) (opening : Disk) (calls : List (ProgramCall D L))
        (was : Disk) (had : Log) → HaveLeftByScripts D.told D.faults L.told L.faults s log stream read opening calls was had →
        (call : ProgramCall D L) → (restarted : HasRestarted D.told D.faults L.told L.faults s log stream was had call) →
        (made : Disk) × TellsAt D.told call.disks_begun s made
        × (file : IsFileMade s (size_said stream read) restarted.kept.entries (page_of opening) (valid_said stream read) made)
        × (length (updates_in file.has.redo restarted.kept.entries)
        ≡ length (filter (λ entry. is_update_of s (said_by entry.bytes)) restarted.kept.entries))
        × TellsGreatest restarted.line restarted.handed restarted.kept.entries file.has.redo file.valid }
{
    scripts_of_updates_are_redone::<D, L>();
    any_number_of_stops_is_redone::<D, L>();
}

/// A call whose restart of the log was refused, and of whose callers no line initialises the stream, has no map of the stream in its
/// run: the stream's own line is refused as the restart was. So the run is one that opens the stream at no time (`RunsUnopened`).
pub fn refused_restarts_leave_the_stream<D: PageDisk, L: LogFile>()
    ensures { (call : ProgramCall D L) → HasClauses D.told D.faults L.told L.faults call → (s log : ℕ) (line : StreamLine) →
        (its : NamesTheLog call s log line) → InitialisesNone s its.script → (e : CcError) →
        refused_for (Some log) its.script.restarts call.told.replies ≡ Some e → had_map (history call.past s) ≡ false }
{
    refused_restarts_open_no_stream();
}
