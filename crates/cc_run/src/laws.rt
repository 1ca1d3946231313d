//! What follows of how the program ended. Each function does nothing: its contract is the law.

ghost use Rattle.std.specs.Prelude.{◌≡◌, ◌⊎◌, ◌<◌, ◌≤◌, ◌+◌, ◌-◌, ◌*◌, ℕ, [], ◌∷◌, List, None, Some, is_some, true, false, IfSome, Contains, length, slice_get, slice_index};
ghost use Rattle.std.specs.declared.option.Option.{Option};
ghost use Rattle.cc_entry.specs.declared.answer.LineReply.{LineReply};
ghost use Rattle.cc_entry.specs.declared.entry.Entry.{Entry};
ghost use Rattle.cc_entry.specs.declared.place.Request.{Request};
ghost use Rattle.cc_script.specs.declared.script.Script.{Script};
ghost use Rattle.cc_script.specs.declared.script.StreamLine.{StreamLine};
ghost use Rattle.cc_format.specs.Spelling.{IsReadAs};
ghost use Rattle.cc_format.specs.declared.record.StreamRecord.{StreamRecord};
ghost use Rattle.cc_model.specs.Good.{IsGood};
ghost use Rattle.cc_model.specs.History.{history};
ghost use Rattle.cc_model.specs.Records.{first_valid};
ghost use Rattle.cc_model.specs.Setup.{Setup};
ghost use Rattle.cc_pieces.specs.Explained.{Answered, GivenToRun, IsExplained};
ghost use Rattle.cc_pieces.specs.Restarts.{refused_for};
ghost use Rattle.cc_records.specs.Recorded.{told_valid, WasByte};
ghost use Rattle.cc_traits.specs.Disk.{Disk, page_of, may_of};
ghost use Rattle.cc_turns.specs.RecordPage.{record_number};
ghost use Rattle.cc_program.specs.Disks.{DisksLeft};
ghost use Rattle.cc_program.specs.Setups.{run_disks};
ghost use Rattle.cc_run.specs.StoredLines.{StoredLine};
ghost use Rattle.cc_program.specs.Ends.{Input, ProgramOutput, SinkHasFailed, HasTooFewDevices, IsAsked, ProgramIsEnded, IsTextPut, IsWrong, TookMany, printed_by};
ghost use Rattle.cc_command.specs.Words.{command_of, is_command};

use cc_traits::PageDisk;

/// Each exit status that tells of no run, or of a text that was not written, has its cause.
pub fn statuses_have_causes()
    ensures usage { (i : Input) (o : ProgramOutput) (script : Option Script) (replies : List LineReply) (journal : List Entry)
        (status : ℕ) → ProgramIsEnded i o script replies journal status → status ≡ 1 → is_command i.words ≡ false }
    ensures syntax { (i : Input) (o : ProgramOutput) (script : Option Script) (replies : List LineReply) (journal : List Entry)
        (status : ℕ) → ProgramIsEnded i o script replies journal status → status ≡ 2 → (line : ℕ) × IsWrong i line }
    ensures read_fault { (i : Input) (o : ProgramOutput) (script : Option Script) (replies : List LineReply) (journal : List Entry)
        (status : ℕ) → ProgramIsEnded i o script replies journal status → status ≡ 3 → i.faults < i.faults_after }
    ensures write_fault { (i : Input) (o : ProgramOutput) (script : Option Script) (replies : List LineReply) (journal : List Entry)
        (status : ℕ) → ProgramIsEnded i o script replies journal status → status ≡ 4 → SinkHasFailed o }
    ensures too_long { (i : Input) (o : ProgramOutput) (script : Option Script) (replies : List LineReply) (journal : List Entry)
        (status : ℕ) → ProgramIsEnded i o script replies journal status → status ≡ 5 → TookMany i }
    ensures too_few { (i : Input) (o : ProgramOutput) (script : Option Script) (replies : List LineReply) (journal : List Entry)
        (status : ℕ) → ProgramIsEnded i o script replies journal status → status ≡ 7 → HasTooFewDevices i }
{}

/// A run was made at the statuses 0 and 4, of the script that the words ask for, and at 0 all of its text was written.
/// Where none was made the journal is empty.
pub fn runs_are_of_the_script()
    ensures made { (i : Input) (o : ProgramOutput) (script : Option Script) (replies : List LineReply) (journal : List Entry)
        (status : ℕ) → ProgramIsEnded i o script replies journal status → (status ≡ 0) ⊎ (status ≡ 4) → is_some script ≡ true }
    ensures asked { (i : Input) (o : ProgramOutput) (script : Option Script) (replies : List LineReply) (journal : List Entry)
        (status : ℕ) → ProgramIsEnded i o script replies journal status → IfSome script (IsAsked i) }
    ensures printed { (i : Input) (o : ProgramOutput) (script : Option Script) (replies : List LineReply) (journal : List Entry)
        (status : ℕ) → ProgramIsEnded i o script replies journal status → status ≡ 0 →
        IfSome script (λ made. IsTextPut o (printed_by (command_of i.words) made replies journal)) }
    ensures empty { (i : Input) (o : ProgramOutput) (script : Option Script) (replies : List LineReply) (journal : List Entry)
        (status : ℕ) → ProgramIsEnded i o script replies journal status → script ≡ None → journal ≡ [] }
{}

/// What follows of the clauses `good` and `disks` of the program's call. Of a disk of the run that tells its pages, each of
/// which a crash could leave in one way alone at first: whatever a crash leaves of it now, each byte below the valid data
/// length that its record then tells, 0 where that page spells none, is one that the plain file had there at some place of
/// the journal. The record that it had at first told no more than the first initialise made valid, if it told any: so it is of
/// a stored stream, which is initialised with what that record tells.
pub fn records_tell_what_was_there<D: PageDisk>()
    ensures { (u : Setup) (past : List Entry) (old new : List D) → IsGood u past → DisksLeft D.told D.faults past old new →
        (s : ℕ) (before after : D) (opening now : Disk) → slice_get (run_disks old) s ≡ Some before →
        slice_get (run_disks new) s ≡ Some after → D.told before ≡ Some opening → D.told after ≡ Some now →
        ((p : ℕ) → may_of opening p ≡ page_of opening p ∷ []) →
        (content : List ℕ) (first read : Option StreamRecord) (p i : ℕ) (bytes : List ℕ) →
        IsReadAs (page_of opening record_number) first → told_valid first ≤ first_valid (history past s) →
        Contains (may_of now record_number) content → IsReadAs content read → i < told_valid read →
        4096 * p ≤ i → i < 4096 * p + 4096 → Contains (may_of now p) bytes →
        WasByte (page_of opening) past s i (slice_index bytes (i - 4096 * p)) }
{}

/// What follows of the clause `explained` of the program's call, of the line of a stored stream: where its record was read, what was
/// read is what the record's page spelled as the run began, where the disk told its pages. For no record of the stream stands in the
/// journal before its line. A stream whose log was not restarted is not opened, and reads nothing.
pub fn stored_streams_open_as_spelled()
    ensures { (u : Setup) (given : GivenToRun) (told : Answered) (taken : List Request) (past : List Entry) →
        IsExplained u given told taken past → (s : ℕ) (stream : StreamLine) (reply : LineReply) →
        slice_get given.streams s ≡ Some stream → slice_get told.replies (length given.restarts + s) ≡ Some reply →
        stream.stored ≡ true → refused_for stream.log given.restarts told.replies ≡ None →
        StoredLine u s stream reply.answer past }
{}
