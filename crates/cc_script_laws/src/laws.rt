//! What follows of the clause that explains a run's journal. Each function does nothing: its contract is the law.

ghost use Rattle.std.specs.Prelude.{◌≡◌, ℕ, ◌+◌, ◌⊎◌, true, false, Some, None, List, ◌∷◌, ◌++◌, length, slice_get};
ghost use Rattle.std.specs.List.{AllByRecursion};
ghost use Rattle.std.specs.declared.option.Option.{Option};
ghost use Rattle.cc_entry.specs.declared.answer.Answer.TheVariants as answer;
ghost use Rattle.cc_entry.specs.declared.answer.LineReply.{LineReply};
ghost use Rattle.cc_entry.specs.declared.entry.End.{End};
ghost use Rattle.cc_entry.specs.declared.entry.Entry.{Entry};
ghost use Rattle.cc_entry.specs.declared.entry.Entry.TheVariants as entry;
ghost use Rattle.cc_entry.specs.declared.error.CcError.{CcError};
ghost use Rattle.cc_entry.specs.declared.place.Request.{Request};
ghost use Rattle.cc_entry.specs.declared.reply.Reply.TheVariants as reply;
ghost use Rattle.cc_format.specs.Spelling.{IsReadAs};
ghost use Rattle.cc_format.specs.declared.record.StreamRecord.{StreamRecord};
ghost use Rattle.cc_model.specs.Good.{IsGoodSoFar};
ghost use Rattle.cc_model.specs.History.{history};
ghost use Rattle.cc_model.specs.Objects.{had_map};
ghost use Rattle.cc_model.specs.Setup.{Setup};
ghost use Rattle.cc_pieces.specs.Explained.{Answered, GivenToRun, IsExplained};
ghost use Rattle.cc_pieces.specs.Restarts.{refused_for};
ghost use Rattle.cc_redo.specs.Disks.{record_number};
ghost use Rattle.cc_restart_laws.specs.Updates.{IsUpdated};
ghost use Rattle.cc_restarts.specs.Given.{AreRestartSizes};
ghost use Rattle.cc_script.specs.Checkpoints.{CheckpointsStandApart};
ghost use Rattle.cc_script.specs.declared.script.StreamLine.{StreamLine};
ghost use Rattle.cc_script_laws.specs.Lines.{AreStampedAtTables, IsKnownAt, IsUnwanting, checkpoints, left_to_updates, lines_answered};
ghost use Rattle.cc_script_laws.specs.Told.{TellsLesser, initialises};
ghost use Rattle.cc_stop_laws.specs.Redoable.{StreamIsNumbered};

/// Each write of a stream's record in a run tells the lesser of the valid data lengths of two moments, the second one that of the
/// write; at the first one the stream had a map.
pub fn records_tell_what_was_valid()
    ensures { (u : Setup) (given : GivenToRun) (told : Answered) (taken : List Request) (past : List Entry) →
        IsExplained u given told taken past → IsGoodSoFar u past → (s : ℕ) (later front : List Entry) (pass size valid : ℕ) (how : End) →
        past ≡ later ++ entry.Record pass s size valid how ∷ front → TellsLesser s valid front }
{}

/// A stream of a run, which changes by updates alone, was first initialised with the numbers of its record, where its line stores it,
/// or else of its line, and no record that was written of it tells less valid data (`StreamIsNumbered`). `done` is of a stream whose line
/// was done; `kept` of one whose line may have been refused, where no line of a caller initialises an object of it.
pub fn streams_open_with_their_numbers()
    ensures done { (u : Setup) (given : GivenToRun) (told : Answered) (taken : List Request) (past : List Entry) →
        IsExplained u given told taken past → IsGoodSoFar u past → (s log : ℕ) → IsUpdated s log past →
        (stream : StreamLine) (line : LineReply) → slice_get given.streams s ≡ Some stream →
        slice_get told.replies (length given.restarts + s) ≡ Some line → (read : Option StreamRecord) (pages : ℕ → List ℕ) →
        u.opening s ≡ Some pages → IsReadAs (pages record_number) read → (stream.stored ≡ true) ⊎ (read ≡ None) →
        line.answer ≡ answer.Given reply.Unit → StreamIsNumbered s stream read past }
    ensures kept { (u : Setup) (given : GivenToRun) (told : Answered) (taken : List Request) (past : List Entry) →
        IsExplained u given told taken past → IsGoodSoFar u past → (s log : ℕ) → IsUpdated s log past →
        (stream : StreamLine) (line : LineReply) → slice_get given.streams s ≡ Some stream →
        slice_get told.replies (length given.restarts + s) ≡ Some line → (read : Option StreamRecord) (pages : ℕ → List ℕ) →
        u.opening s ≡ Some pages → IsReadAs (pages record_number) read → (stream.stored ≡ true) ⊎ (read ≡ None) →
        AllByRecursion (λ each. initialises s each.action ≡ false) given.lines → AreRestartSizes stream read → StreamIsNumbered s stream read past }
{}

/// A run whose lines left a stream to its updates (`left_to_updates`), and whose line of the stream was done and gave it this log,
/// leaves a journal in which the stream changes by logged updates alone (`IsUpdated`), also where callers run beside one another.
/// `updates` is of a script without a checkpoint of the log. So it is, whatever the line of the stream was answered, where no line of
/// a caller initialises an object of it: `kept` is of a script without a checkpoint of the log, `unopened` of any, if the stream had
/// no map. `checkpoints` is of one with some, each alone in its phase with lines of its caller, as the grammar asks: no update of the
/// stream was refused for want of room or of memory; and at the sync of the stream that each checkpoint made the image of each of its
/// pages was known. `set_dirty` asks, in place of the answers, that each recorded update was set dirty where a checkpoint listed the
/// table of the log's dirty pages.
pub fn scripts_of_updates_keep_the_form()
    ensures updates { (u : Setup) (given : GivenToRun) (told : Answered) (taken : List Request) (past : List Entry) →
        IsExplained u given told taken past → IsGoodSoFar u past → (s log : ℕ) (stream : StreamLine) (line : LineReply) →
        slice_get given.streams s ≡ Some stream → slice_get told.replies (length given.restarts + s) ≡ Some line →
        stream.log ≡ Some log → line.answer ≡ answer.Given reply.Unit →
        AllByRecursion (λ each. left_to_updates s log each.0 each.1 ≡ true) (lines_answered given told) →
        AllByRecursion (λ each. checkpoints log each.action ≡ false) given.lines → IsUpdated s log past }
    ensures kept { (u : Setup) (given : GivenToRun) (told : Answered) (taken : List Request) (past : List Entry) →
        IsExplained u given told taken past → IsGoodSoFar u past → (s log : ℕ) (stream : StreamLine) →
        slice_get given.streams s ≡ Some stream → stream.log ≡ Some log →
        AllByRecursion (λ each. left_to_updates s log each.0 each.1 ≡ true) (lines_answered given told) →
        AllByRecursion (λ each. checkpoints log each.action ≡ false) given.lines →
        AllByRecursion (λ each. initialises s each.action ≡ false) given.lines → IsUpdated s log past }
    ensures unopened { (u : Setup) (given : GivenToRun) (told : Answered) (taken : List Request) (past : List Entry) →
        IsExplained u given told taken past → IsGoodSoFar u past → (s log : ℕ) (stream : StreamLine) →
        slice_get given.streams s ≡ Some stream → stream.log ≡ Some log →
        AllByRecursion (λ each. left_to_updates s log each.0 each.1 ≡ true) (lines_answered given told) → CheckpointsStandApart given.lines →
        AllByRecursion (λ each. initialises s each.action ≡ false) given.lines → had_map (history past s) ≡ false →
        IsUpdated s log past }
    ensures checkpoints { (u : Setup) (given : GivenToRun) (told : Answered) (taken : List Request) (past : List Entry) →
        IsExplained u given told taken past → IsGoodSoFar u past → (s log : ℕ) (stream : StreamLine) (line : LineReply) →
        slice_get given.streams s ≡ Some stream → slice_get told.replies (length given.restarts + s) ≡ Some line →
        stream.log ≡ Some log → line.answer ≡ answer.Given reply.Unit →
        AllByRecursion (λ each. left_to_updates s log each.0 each.1 ≡ true) (lines_answered given told) →
        CheckpointsStandApart given.lines →
        AllByRecursion (λ each. IsUnwanting s each.0 each.1) (lines_answered given told) →
        AllByRecursion (λ each. checkpoints log each.action ≡ true → IsKnownAt s log each.caller past) given.lines →
        IsUpdated s log past }
    ensures set_dirty { (u : Setup) (given : GivenToRun) (told : Answered) (taken : List Request) (past : List Entry) →
        IsExplained u given told taken past → IsGoodSoFar u past → (s log : ℕ) (stream : StreamLine) (line : LineReply) →
        slice_get given.streams s ≡ Some stream → slice_get told.replies (length given.restarts + s) ≡ Some line →
        stream.log ≡ Some log → line.answer ≡ answer.Given reply.Unit →
        AllByRecursion (λ each. left_to_updates s log each.0 each.1 ≡ true) (lines_answered given told) → CheckpointsStandApart given.lines →
        AreStampedAtTables s log past →
        AllByRecursion (λ each. checkpoints log each.action ≡ true → IsKnownAt s log each.caller past) given.lines →
        IsUpdated s log past }
{}

/// A stream whose log's restart was refused has no map in the run, if no line of a caller initialises an object of it: its own line is
/// refused as the restart was, and opens nothing.
pub fn refused_restarts_open_no_stream()
    ensures { (u : Setup) (given : GivenToRun) (told : Answered) (taken : List Request) (past : List Entry) →
        IsExplained u given told taken past → (s : ℕ) (stream : StreamLine) (e : CcError) → slice_get given.streams s ≡ Some stream →
        refused_for stream.log given.restarts told.replies ≡ Some e →
        AllByRecursion (λ each. initialises s each.action ≡ false) given.lines → had_map (history past s) ≡ false }
{}
