//! What holds of all that calls leave. Each function does nothing: its contract is the law.

ghost use Rattle.std.specs.Prelude.{◌≡◌, ℕ, Bool, true, false, Option, List, ◌∷◌, ◌++◌, Result};
ghost use Rattle.std.specs.List.{list_any};
ghost use Rattle.cc_entry.specs.Place.{File, Page};
ghost use Rattle.cc_entry.specs.declared.answer.Tick.{Tick};
ghost use Rattle.cc_entry.specs.declared.answer.AheadDone.{AheadDone};
ghost use Rattle.cc_entry.specs.declared.place.Request.{Request};
ghost use Rattle.cc_entry.specs.declared.call.Call.{Call};
ghost use Rattle.cc_entry.specs.declared.error.CcError.{CcError};
ghost use Rattle.cc_entry.specs.declared.reply.Outcome.{Outcome};
ghost use Rattle.cc_entry.specs.declared.entry.Entry.{Entry};
ghost use Rattle.cc_entry.specs.declared.entry.Entry.TheVariants as entry;
ghost use Rattle.cc_model.specs.Setup.{Setup};
ghost use Rattle.cc_model.specs.Passes.{HasSeen, WasPlaced};
ghost use Rattle.cc_model.specs.Legal.{IsOutcome};
ghost use Rattle.cc_model.specs.Allowed.{MayCall};
ghost use Rattle.cc_model.specs.Good.{IsGood};
ghost use Rattle.cc_entry.specs.declared.error.CcError.TheVariants as error;
ghost use Rattle.cc_entry.specs.declared.reply.Outcome.TheVariants as outcome;
ghost use Rattle.cc_effects.specs.Moments.{own, EachOwn, IsIdle};
ghost use Rattle.cc_effects.specs.Asked.{Calls};
ghost use Rattle.cc_effects.specs.Places.{MayPlace};
ghost use Rattle.cc_effects.specs.Licences.{IsLicensed, is_call_entry, shows_told_fault};
ghost use Rattle.cc_effects.specs.Calls.{IsUnderWay, CallLeft, leaves_entry};
ghost use Rattle.cc_effects.specs.LogCalls.{AppendLeft, LogFlushLeft};
ghost use Rattle.cc_effects.specs.Throttle.{DeferLeft, PostLeft};
ghost use Rattle.cc_effects.specs.PageWrites.{PageWrite, PageWriteLeft, TickLeft};
ghost use Rattle.cc_effects.specs.Begins.{BeginsAscending};
ghost use Rattle.cc_effects.specs.ReadAhead.{AheadLeft};
ghost use Rattle.cc_effects.specs.Levels.{LevelsLeft};
ghost use Rattle.cc_effects.specs.Noncached.{NcReadLeft, NcWriteLeft};
ghost use Rattle.cc_effects.specs.Repins.{UnpinLeft};

/// What explains a call explains it in every longer stretch: others' entries before and after, and what the
/// call placed before, are part of it.
pub fn calls_stay_explained()
    ensures after { (u : Setup) (me : ℕ) (it : Call) (answered : Outcome) (old new newer : List Entry) →
        CallLeft u me it answered old new → IsIdle me new newer → CallLeft u me it answered old newer }
    ensures before { (u : Setup) (me : ℕ) (it : Call) (answered : Outcome) (older old new : List Entry) →
        IsIdle me older old → CallLeft u me it answered old new → CallLeft u me it answered older new }
    ensures joined { (u : Setup) (me : ℕ) (it : Call) (answered : Outcome) (older old new : List Entry) →
        IsUnderWay me it older old → CallLeft u me it answered old new → CallLeft u me it answered older new }
{}

/// The same of appends to a log and of its flushes.
pub fn log_calls_stay_explained()
    ensures append_after { (u : Setup) (me handle : ℕ) (bytes : List ℕ) (answered : Result ℕ CcError)
        (old new newer : List Entry) →
        AppendLeft u me handle bytes answered old new → IsIdle me new newer → AppendLeft u me handle bytes answered old newer }
    ensures append_before { (u : Setup) (me handle : ℕ) (bytes : List ℕ) (answered : Result ℕ CcError)
        (older old new : List Entry) →
        IsIdle me older old → AppendLeft u me handle bytes answered old new → AppendLeft u me handle bytes answered older new }
    ensures flush_after { (u : Setup) (me handle lsn : ℕ) (answered : Result ℕ CcError) (old new newer : List Entry) →
        LogFlushLeft u me handle lsn answered old new → IsIdle me new newer → LogFlushLeft u me handle lsn answered old newer }
    ensures flush_before { (u : Setup) (me handle lsn : ℕ) (answered : Result ℕ CcError) (older old new : List Entry) →
        IsIdle me older old → LogFlushLeft u me handle lsn answered old new → LogFlushLeft u me handle lsn answered older new }
{}

/// The same of deferrals and posts.
pub fn throttle_stays_explained()
    ensures defer_after { (me : ℕ) (file : File) (bytes : ℕ) (retrying : Bool) (answered : Result ℕ CcError)
        (old new newer : List Entry) →
        DeferLeft me file bytes retrying answered old new → IsIdle me new newer → DeferLeft me file bytes retrying answered old newer }
    ensures defer_before { (me : ℕ) (file : File) (bytes : ℕ) (retrying : Bool) (answered : Result ℕ CcError)
        (older old new : List Entry) →
        IsIdle me older old → DeferLeft me file bytes retrying answered old new → DeferLeft me file bytes retrying answered older new }
    ensures post_after { (u : Setup) (me : ℕ) (answered : Result (Option ℕ) CcError) (old new newer : List Entry) →
        PostLeft u me answered old new → IsIdle me new newer → PostLeft u me answered old newer }
    ensures post_before { (u : Setup) (me : ℕ) (answered : Result (Option ℕ) CcError) (older old new : List Entry) →
        IsIdle me older old → PostLeft u me answered old new → PostLeft u me answered older new }
{}

/// The same of the writing of a page and of ticks.
pub fn page_writes_stay_explained()
    ensures page_after { (me : ℕ) (page : Page) (answered : Result PageWrite CcError) (old new newer : List Entry) →
        PageWriteLeft me page answered old new → IsIdle me new newer → PageWriteLeft me page answered old newer }
    ensures page_before { (me : ℕ) (page : Page) (answered : Result PageWrite CcError) (older old new : List Entry) →
        IsIdle me older old → PageWriteLeft me page answered old new → PageWriteLeft me page answered older new }
    ensures tick_after { (me : ℕ) (answered : Result Tick CcError) (old new newer : List Entry) →
        TickLeft me answered old new → IsIdle me new newer → TickLeft me answered old newer }
    ensures tick_before { (me : ℕ) (answered : Result Tick CcError) (older old new : List Entry) →
        IsIdle me older old → TickLeft me answered old new → TickLeft me answered older new }
{}

/// The same of read-ahead steps and of questions for the levels of a view index.
pub fn steps_and_levels_stay_explained()
    ensures step_after { (u : Setup) (me : ℕ) (taken : Option Request) (answered : Result (Option AheadDone) CcError)
        (old new newer : List Entry) →
        AheadLeft u me taken answered old new → IsIdle me new newer → AheadLeft u me taken answered old newer }
    ensures step_before { (u : Setup) (me : ℕ) (taken : Option Request) (answered : Result (Option AheadDone) CcError)
        (older old new : List Entry) →
        IsIdle me older old → AheadLeft u me taken answered old new → AheadLeft u me taken answered older new }
    ensures levels_after { (levels : ℕ → ℕ) (me : ℕ) (file : File) (answered : Result ℕ CcError)
        (old new newer : List Entry) →
        LevelsLeft levels me file answered old new → IsIdle me new newer → LevelsLeft levels me file answered old newer }
    ensures levels_before { (levels : ℕ → ℕ) (me : ℕ) (file : File) (answered : Result ℕ CcError)
        (older old new : List Entry) →
        IsIdle me older old → LevelsLeft levels me file answered old new → LevelsLeft levels me file answered older new }
{}

/// The same of noncached reads and writes, page by page.
pub fn noncached_calls_stay_explained()
    ensures read_after { (u : Setup) (me : ℕ) (file : File) (at len : ℕ) (answered : Result (List ℕ) (ℕ × CcError))
        (old new newer : List Entry) →
        NcReadLeft u me file at len answered old new → IsIdle me new newer → NcReadLeft u me file at len answered old newer }
    ensures read_before { (u : Setup) (me : ℕ) (file : File) (at len : ℕ) (answered : Result (List ℕ) (ℕ × CcError))
        (older old new : List Entry) →
        IsIdle me older old → NcReadLeft u me file at len answered old new → NcReadLeft u me file at len answered older new }
    ensures write_after { (u : Setup) (me : ℕ) (file : File) (at : ℕ) (bytes : List ℕ) (answered : Result ℕ (ℕ × CcError))
        (old new newer : List Entry) →
        NcWriteLeft u me file at bytes answered old new → IsIdle me new newer → NcWriteLeft u me file at bytes answered old newer }
    ensures write_before { (u : Setup) (me : ℕ) (file : File) (at : ℕ) (bytes : List ℕ) (answered : Result ℕ (ℕ × CcError))
        (older old new : List Entry) →
        IsIdle me older old → NcWriteLeft u me file at bytes answered old new → NcWriteLeft u me file at bytes answered older new }
{}

/// The same of the end of a repin, with write through or without.
pub fn repins_stay_explained()
    ensures after { (u : Setup) (me id : ℕ) (through : Bool) (answered : Outcome) (old new newer : List Entry) →
        UnpinLeft u me id through answered old new → IsIdle me new newer → UnpinLeft u me id through answered old newer }
    ensures before { (u : Setup) (me id : ℕ) (through : Bool) (answered : Outcome) (older old new : List Entry) →
        IsIdle me older old → UnpinLeft u me id through answered old new → UnpinLeft u me id through answered older new }
{}

/// The transfers that a pass began ascend in every longer stretch in which it placed nothing else, and in two stretches
/// together of which the second goes on from where the first ended.
pub fn begins_stay_ascending()
    ensures after { (me low high : ℕ) (old new newer : List Entry) →
        BeginsAscending me low high old new → IsIdle me new newer → BeginsAscending me low high old newer }
    ensures before { (me low high : ℕ) (older old new : List Entry) →
        IsIdle me older old → BeginsAscending me low high old new → BeginsAscending me low high older new }
    ensures joined { (me low mid high : ℕ) (old between new : List Entry) →
        BeginsAscending me low mid old between → BeginsAscending me mid high between new → BeginsAscending me low high old new }
{}

/// The entry of a call stands after all that its pass had seen as the call began, and in what it has seen
/// after it.
pub fn entries_stand_after_what_was_seen()
    ensures { (u : Setup) (me : ℕ) (it : Call) (answered : Outcome) (seen old new : List Entry) →
        HasSeen seen old → CallLeft u me it answered old new → leaves_entry answered ≡ true →
        (nth : ℕ) × (stream : Option ℕ) × WasPlaced me (entry.Call me nth stream it answered) seen new }
{}

/// In a good journal the outcome of a call is the one that its entry's front defines: the reply of the
/// definition where nothing refuses it, or the refusal with its cause.
pub fn outcomes_are_as_defined()
    ensures { (u : Setup) (me : ℕ) (it : Call) (answered : Outcome) (old new newer : List Entry) →
        IsGood u (newer ++ new) → CallLeft u me it answered old new → leaves_entry answered ≡ true →
        (nth : ℕ) × (stream : Option ℕ) × (later : List Entry) × (earlier : List Entry)
        × (new ≡ later ++ (entry.Call me nth stream it answered ∷ (earlier ++ old)))
        × IsOutcome u (earlier ++ old) me stream it answered }
{}

/// In a good journal the entry of a call may stand where it does: a call that is done has the pages of its
/// range resident at its front, a flush has synced, and a purge has taken its span out.
pub fn entries_may_stand_where_they_do()
    ensures { (u : Setup) (me : ℕ) (it : Call) (answered : Outcome) (old new newer : List Entry) →
        IsGood u (newer ++ new) → CallLeft u me it answered old new → leaves_entry answered ≡ true →
        (nth : ℕ) × (stream : Option ℕ) × (later : List Entry) × (earlier : List Entry)
        × (new ≡ later ++ (entry.Call me nth stream it answered ∷ (earlier ++ old)))
        × MayCall u (earlier ++ old) me nth stream it answered }
{}

/// Each entry of the pass in a stretch that a call explains is the call's own one, or one that the call may
/// place before it; a call that leaves an entry has it there, and one that leaves none has no call's entry.
pub fn own_entries_are_licensed()
    ensures licensed { (u : Setup) (me : ℕ) (it : Call) (answered : Outcome) (during old : List Entry) →
        CallLeft u me it answered old (during ++ old) → leaves_entry answered ≡ true →
        EachOwn me (IsLicensed me it answered old) during old }
    ensures unplaced { (u : Setup) (me : ℕ) (it : Call) (answered : Outcome) (during old : List Entry) →
        CallLeft u me it answered old (during ++ old) → leaves_entry answered ≡ false →
        EachOwn me (MayPlace me (Calls it) old) during old }
    ensures has_entry { (u : Setup) (me : ℕ) (it : Call) (answered : Outcome) (during old : List Entry) →
        CallLeft u me it answered old (during ++ old) → leaves_entry answered ≡ true →
        list_any is_call_entry (own me during) ≡ true }
{}

/// A call is told a fault only where an entry of its own pass in its own stretch shows it.
pub fn faults_are_shown()
    ensures read { (u : Setup) (me : ℕ) (it : Call) (page : ℕ) (during old : List Entry) →
        CallLeft u me it (outcome.Failed (error.ReadFault page)) old (during ++ old) →
        shows_told_fault me it (error.ReadFault page) during ≡ true }
    ensures write { (u : Setup) (me : ℕ) (it : Call) (page : ℕ) (during old : List Entry) →
        CallLeft u me it (outcome.Failed (error.WriteFault page)) old (during ++ old) →
        shows_told_fault me it (error.WriteFault page) during ≡ true }
    ensures log { (u : Setup) (me : ℕ) (it : Call) (handle : ℕ) (during old : List Entry) →
        CallLeft u me it (outcome.Failed (error.LogFault handle)) old (during ++ old) →
        shows_told_fault me it (error.LogFault handle) during ≡ true }
{}
