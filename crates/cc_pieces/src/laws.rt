//! How a caller's run grows, what a read in it answers, which test tells of a lock, and which holds words name. Each function does
//! nothing: its contract is the law.

ghost use Rattle.std.specs.Prelude.{◌≡◌, ◌≢◌, ◌≤◌, ◌+◌, ℕ, Bool, false, not, Some, None, List, [], ◌∷◌, ◌++◌, length, true, Ok, Err};
ghost use Rattle.std.specs.List.{list_any};
ghost use Rattle.std.specs.declared.option.Option.{Option};
ghost use Rattle.cc_entry.specs.Kinds.{is_map, is_pin};
ghost use Rattle.cc_entry.specs.declared.hold.HoldKind.TheVariants as kind;
ghost use Rattle.cc_entry.specs.declared.error.CcError.{CcError};
ghost use Rattle.cc_entry.specs.declared.error.CcError.TheVariants as error;
ghost use Rattle.cc_script.specs.declared.script.ReadPath.{ReadPath};
ghost use Rattle.cc_entry.specs.Place.{File};
ghost use Rattle.cc_entry.specs.declared.call.Call.TheVariants as call;
ghost use Rattle.cc_entry.specs.declared.reply.Reply.TheVariants as reply;
ghost use Rattle.cc_entry.specs.declared.query.Value.TheVariants as value;
ghost use Rattle.cc_entry.specs.declared.reply.Outcome.TheVariants as outcome;
ghost use Rattle.cc_entry.specs.declared.answer.Answer.{Answer};
ghost use Rattle.cc_entry.specs.declared.answer.Answer.TheVariants as answer;
ghost use Rattle.cc_entry.specs.declared.answer.AsyncDone.{AsyncDone};
ghost use Rattle.cc_entry.specs.declared.answer.AsyncStart.TheVariants as start;
ghost use Rattle.cc_entry.specs.declared.answer.LineReply.{LineReply};
ghost use Rattle.cc_entry.specs.declared.entry.Entry.{Entry};
ghost use Rattle.cc_entry.specs.declared.entry.Entry.TheVariants as entry;
ghost use Rattle.cc_script.specs.declared.script.Action.{Action};
ghost use Rattle.cc_script.specs.declared.script.RestartLine.{RestartLine};
ghost use Rattle.cc_script.specs.declared.script.StreamLine.{StreamLine};
ghost use Rattle.cc_script.specs.declared.script.Action.TheVariants as action;
ghost use Rattle.cc_model.specs.Setup.{Setup};
ghost use Rattle.cc_model.specs.History.{Did, history};
ghost use Rattle.cc_model.specs.Touches.{is_mapped};
ghost use Rattle.cc_model.specs.Good.{IsGood};
ghost use Rattle.cc_effects.specs.Moments.{IsIdle};
ghost use Rattle.cc_effects.specs.Noncached.{pages_from};
ghost use Rattle.cc_pieces.specs.Bindings.{Binding, bound, bindings_pinned, hold_named, OnHold};
ghost use Rattle.cc_pieces.specs.HoldLines.{HeldReadLine, PinnedWriteLine};
ghost use Rattle.cc_pieces.specs.Openings.{Opened, is_record_of};
ghost use Rattle.cc_pieces.specs.Restarts.{RestartsInOrder};
ghost use Rattle.cc_pieces.specs.Locks.{TestLeft, tested_range};
ghost use Rattle.cc_pieces.specs.PlainPages.{ArePlainPages};
ghost use Rattle.cc_pieces.specs.PlainReads.{IsPlainRead};
ghost use Rattle.cc_pieces.specs.Runs.{Explains, Ran, bindings_of};

/// What explains a line explains it in every longer stretch in which the caller placed nothing else.
pub fn pieces_stay_explained()
    ensures after { (u : Setup) (limit me : ℕ) (bindings : List Binding) (asked : Action) (told : Answer)
        (old new newer : List Entry) →
        Explains u limit me bindings asked told old new → IsIdle me new newer → Explains u limit me bindings asked told old newer }
    ensures before { (u : Setup) (limit me : ℕ) (bindings : List Binding) (asked : Action) (told : Answer)
        (older old new : List Entry) →
        IsIdle me older old → Explains u limit me bindings asked told old new → Explains u limit me bindings asked told older new }
{}

/// A caller's run goes on by a line that a piece explains, with the bindings that its lines so far made.
pub fn one_more_piece()
    ensures { (u : Setup) (limit me : ℕ) (bindings : List Binding) (lines : List (Action × Answer)) (asked : Action) (told : Answer)
        (old between new : List Entry) →
        Ran u limit me bindings lines old between → Explains u limit me (bindings_of bindings lines) asked told between new →
        Ran u limit me bindings (lines ++ (asked, told) ∷ []) old new }
{}

/// What other callers place behind a caller's run changes nothing of it.
pub fn others_go_on()
    ensures { (u : Setup) (limit me : ℕ) (bindings : List Binding) (lines : List (Action × Answer))
        (old between new : List Entry) →
        Ran u limit me bindings lines old between → IsIdle me between new → Ran u limit me bindings lines old new }
{}

/// In a good journal, a line that a copied read answered with bytes has its entry in its piece, and the bytes
/// are the plain file's at that place, where the disk told its opening pages; else their number is, and those from the
/// valid data length on are zeros (`CcCopyRead`).
pub fn reads_answer_the_plain_file()
    ensures { (u : Setup) (limit me : ℕ) (bindings : List Binding) (file : File) (at len : ℕ) (wait : Bool) (bytes : List ℕ)
        (old new newer : List Entry) →
        IsGood u (newer ++ new) →
        Explains u limit me bindings (action.CopyRead file at len wait) (answer.Given (reply.Read bytes)) old new →
        IsPlainRead u me file at len wait bytes old new }
{}

/// The same of a read that may be queued and was answered at once, and of the completion of a queued one: its bytes are those
/// at the place of the completion's entry, not at that of the line that queued it (`CcAsyncCopyRead`).
pub fn queued_reads_answer_the_plain_file()
    ensures ready { (u : Setup) (limit me : ℕ) (bindings : List Binding) (file : File) (at len : ℕ) (bytes : List ℕ)
        (old new newer : List Entry) →
        IsGood u (newer ++ new) →
        Explains u limit me bindings (action.AsyncRead file at len) (answer.Started (start.Ready bytes)) old new →
        IsPlainRead u me file at len false bytes old new }
    ensures completed { (u : Setup) (limit me : ℕ) (bindings : List Binding) (done : AsyncDone) (bytes : List ℕ)
        (old new newer : List Entry) →
        IsGood u (newer ++ new) → done.answer ≡ Ok bytes →
        Explains u limit me bindings action.Complete (answer.Completed (Some done)) old new →
        IsPlainRead u me done.file done.at done.len true bytes old new }
{}

/// In a good journal, each page that a noncached read answered has its entry in the piece of the line, and is whole but for
/// the last. Its bytes are the plain file's at that place, where the disk told its opening pages; else their number is, and
/// those from the valid data length on are zeros.
pub fn noncached_reads_answer_the_plain_file()
    ensures { (u : Setup) (limit me : ℕ) (bindings : List Binding) (file : File) (at len : ℕ) (bytes : List ℕ)
        (old new newer : List Entry) →
        IsGood u (newer ++ new) →
        Explains u limit me bindings (action.NcRead file at len) (answer.Given (reply.Read bytes)) old new →
        ArePlainPages u me file (pages_from at len) bytes old new }
{}

/// In a good journal, a line that an uninitialise answered (`CcUninitializeCacheMap`) has its entry in its piece, and was
/// told that the shared map went exactly where there is none behind that entry.
pub fn uninitialise_tells_whether_the_map_went()
    ensures { (u : Setup) (limit me : ℕ) (bindings : List Binding) (file : File) (truncate : Option ℕ) (gone : Bool)
        (old new newer : List Entry) →
        IsGood u (newer ++ new) →
        Explains u limit me bindings (action.Uninitialise file truncate) (answer.Given (reply.Value (value.Flag gone))) old new →
        (nth : ℕ) × (later : List Entry) × (earlier : List Entry)
        × (new ≡ later
        ++ (entry.Call me nth (Some file.stream) (call.Uninitialise file truncate) (outcome.Done (reply.Value (value.Flag gone)))
        ∷ (earlier ++ old)))
        × (gone ≡ not (is_mapped (Did me (call.Uninitialise file truncate) (reply.Value (value.Flag gone)) ∷ history (earlier ++ old) file.stream))) }
{}

/// A line that reads, writes or updates and is told of a lock in its way has the test that tells it, of its own range, as its
/// last entry: the calls behind a test are told of none.
pub fn conflicts_are_tested()
    ensures read { (u : Setup) (limit me : ℕ) (bindings : List Binding) (file : File) (path : ReadPath) (at len id : ℕ)
        (old new : List Entry) →
        Explains u limit me bindings (action.Read file path at len) (answer.Refused (error.LockConflict id)) old new →
        (between : List Entry) × TestLeft me file (tested_range at len) false (Err (error.LockConflict id)) between new }
    ensures write { (u : Setup) (limit me : ℕ) (bindings : List Binding) (file : File) (at : ℕ) (bytes : List ℕ) (id : ℕ)
        (old new : List Entry) →
        Explains u limit me bindings (action.Write file at bytes) (answer.Refused (error.LockConflict id)) old new →
        (between : List Entry) × TestLeft me file (tested_range at (length bytes)) true (Err (error.LockConflict id)) between new }
    ensures update { (u : Setup) (limit me : ℕ) (bindings : List Binding) (file : File) (at : ℕ) (bytes : List ℕ) (id : ℕ)
        (old new : List Entry) →
        Explains u limit me bindings (action.Update file at bytes) (answer.Refused (error.LockConflict id)) old new →
        (between : List Entry) × TestLeft me file (tested_range at (length bytes)) true (Err (error.LockConflict id)) between new }
{}

/// Of a caller's first word: it names the hold that its line made, of the kind that the hold is now; a refused line binds
/// nothing.
pub fn words_name_holds()
    ensures made { (word id : ℕ) → hold_named (bound word kind.Map (answer.Given (reply.Hold id)) []) word is_map ≡ Some id }
    ensures of_its_kind { (word id : ℕ) → hold_named (bound word kind.Map (answer.Given (reply.Hold id)) []) word is_pin ≡ None }
    ensures pinned { (word id : ℕ) →
        hold_named (bindings_pinned word (answer.Given (reply.Hold id)) (bound word kind.Map (answer.Given (reply.Hold id)) [])) word is_pin
        ≡ Some id }
    ensures refused { (word : ℕ) (e : CcError) → hold_named (bound word kind.Map (answer.Refused e) []) word is_map ≡ None }
{}

/// A read through a word that names no hold, and a pinned write through one that names a map, are answered so and leave
/// nothing.
pub fn lines_without_hold_leave_nothing()
    ensures read { (u : Setup) (me word at len : ℕ) (told : Answer) (old new : List Entry) →
        HeldReadLine u me [] word at len told old new → (told ≡ answer.NoHold) × IsIdle me old new }
    ensures write { (u : Setup) (me word : ℕ) (bytes : List ℕ) (id at : ℕ) (told : Answer) (old new : List Entry) →
        PinnedWriteLine u me (bound word kind.Map (answer.Given (reply.Hold id)) []) word at bytes told old new →
        (told ≡ answer.NoHold) × IsIdle me old new }
{}

/// Behind the lines of restarts no record of a stream stands that was not there before, and behind the lines of streams,
/// numbered from one on, none of a later stream: so what the line of a stored stream read of its record is what its opening page
/// spells, where the disk told its pages.
pub fn no_record_is_written_before_its_line()
    ensures restarts { (u : Setup) (t : ℕ) (restarts : List RestartLine) (ended : List LineReply) (old new : List Entry) →
        RestartsInOrder u restarts ended old new → ((me : ℕ) → me ≢ 0 → IsIdle me old new) →
        list_any (is_record_of t) old ≡ false → list_any (is_record_of t) new ≡ false }
    ensures streams { (u : Setup) (t : ℕ) (restarts : List RestartLine) (ended : List LineReply) (s : ℕ)
        (streams : List StreamLine) (replies : List LineReply) (old new : List Entry) →
        Opened u restarts ended s streams replies old new → ((me : ℕ) → me ≢ 0 → IsIdle me old new) → s + length streams ≤ t →
        list_any (is_record_of t) old ≡ false → list_any (is_record_of t) new ≡ false }
{}
