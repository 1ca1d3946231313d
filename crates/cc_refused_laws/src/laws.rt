//! What a call changes that was refused. Each function does nothing: its contract is the law.

ghost use Rattle.std.specs.Prelude.{◌≡◌, ◌⊎◌, ℕ, ◌/◌, Bool, true, false, Option, Some, List, ◌∷◌, ◌++◌, take, Result, Err};
ghost use Rattle.cc_entry.specs.Place.{File, Page, Range};
ghost use Rattle.cc_entry.specs.declared.answer.Tick.{Tick};
ghost use Rattle.cc_entry.specs.declared.call.Call.{Call};
ghost use Rattle.cc_entry.specs.declared.call.Call.TheVariants as call;
ghost use Rattle.cc_entry.specs.declared.entry.Entry.{Entry};
ghost use Rattle.cc_entry.specs.declared.entry.Entry.TheVariants as entry;
ghost use Rattle.cc_entry.specs.declared.error.CcError.{CcError};
ghost use Rattle.cc_entry.specs.declared.error.CcError.TheVariants as error;
ghost use Rattle.cc_entry.specs.declared.place.Request.{Request};
ghost use Rattle.cc_entry.specs.declared.reply.Outcome.TheVariants as outcome;
ghost use Rattle.cc_entry.specs.declared.reply.Reply.TheVariants as reply;
ghost use Rattle.cc_model.specs.Allowed.{MayStand, is_fault};
ghost use Rattle.cc_model.specs.Legal.{IsFailure, IsLegal};
ghost use Rattle.cc_model.specs.Setup.{Setup};
ghost use Rattle.cc_effects.specs.Asked.{Work};
ghost use Rattle.cc_effects.specs.Calls.{CallLeft};
ghost use Rattle.cc_effects.specs.Events.{Answers, IsWanting, faulted_by};
ghost use Rattle.cc_effects.specs.Levels.{LevelsLeft};
ghost use Rattle.cc_effects.specs.Licences.{IsEntryOf};
ghost use Rattle.cc_effects.specs.LogCalls.{AppendLeft, LogFlushLeft};
ghost use Rattle.cc_effects.specs.Moments.{IsIdle};
ghost use Rattle.cc_effects.specs.Noncached.{NcReadLeft, NcWriteLeft, PageRefused, TransferRefused};
ghost use Rattle.cc_effects.specs.PageWrites.{PageWrite, PageWriteLeft, TickLeft};
ghost use Rattle.cc_effects.specs.Places.{MayPlace};
ghost use Rattle.cc_effects.specs.ReadAhead.{AheadLeft};
ghost use Rattle.cc_effects.specs.Repins.{UnpinLeft};
ghost use Rattle.cc_effects.specs.Throttle.{DeferLeft, PostLeft};
ghost use Rattle.cc_effects.specs.declared.events.Event.{Event};
ghost use Rattle.cc_effects.specs.declared.events.StepReply.TheVariants as step;
ghost use Rattle.cc_records.specs.Left.{LoadLeft, SettleLeft};
ghost use Rattle.cc_refused_laws.specs.Changed.{ChangedNoFile, ChangedNoFileBut, ChangedNothing, OthersAre};
ghost use Rattle.cc_refused_laws.specs.Changed.{KeepsAll, KeepsFiles, TellsNoFault, may_step};
ghost use Rattle.cc_refused_laws.specs.Same.{ChangesNoFile, ChangesNothing};

/// The entry of a call that was refused changes nothing.
pub fn refused_entries_change_nothing()
    ensures { (pass nth : ℕ) (stream : Option ℕ) (it : Call) (e : CcError) (past : List Entry) →
        ChangesNothing past (entry.Call pass nth stream it (outcome.Failed e) ∷ past) }
{}

/// Nor does, where it may stand, that of a lock that was refused, of the end of a lock that the file object did not own, or of a test
/// against locks, whatever it found.
pub fn refused_locks_change_nothing()
    ensures lock { (u : Setup) (past : List Entry) (pass : ℕ) (file : File) (span : Range) (exclusive : Bool) (id : ℕ) →
        MayStand u past (entry.Locked pass file span exclusive false id) →
        ChangesNothing past (entry.Locked pass file span exclusive false id ∷ past) }
    ensures unlock { (u : Setup) (past : List Entry) (pass : ℕ) (file : File) (id : ℕ) →
        MayStand u past (entry.Unlocked pass file id false) → ChangesNothing past (entry.Unlocked pass file id false ∷ past) }
    ensures test { (past : List Entry) (pass : ℕ) (file : File) (span : Range) (write : Bool) (conflict : Option ℕ) →
        ChangesNothing past (entry.Tested pass file span write conflict ∷ past) }
{}

/// What a pass may place for a call before the call's own entry, or for the writing of pages, changes no file: pages that come in and
/// go out, transfers, a sync, flushes of a log, and what failed.
pub fn steps_change_no_file()
    ensures { (me : ℕ) (work : Work) (old past : List Entry) (e : Entry) → MayPlace me work old past e → KeepsFiles past e }
{}

/// A call that was refused changed no file; and one that brings no page in, and neither writes nor takes one out, changed nothing at
/// all. The end of a hold is refused by nothing.
pub fn refused_calls_change_no_file()
    ensures files { (u : Setup) (me : ℕ) (it : Call) (e : CcError) (old new : List Entry) →
        CallLeft u me it (outcome.Failed e) old new → ChangedNoFile me old new }
    ensures stepless { (u : Setup) (me : ℕ) (it : Call) (e : CcError) (old new : List Entry) → may_step it ≡ false →
        CallLeft u me it (outcome.Failed e) old new → ChangedNothing me old new }
    ensures ends { (u : Setup) (me id : ℕ) (e : CcError) (old new : List Entry) →
        CallLeft u me (call.EndHold id) (outcome.Failed e) old new → ⊥ }
{}

/// Where a pass changed no file, and others neither, no file is other than it was; and where nothing, nothing is. So what is other
/// behind a refused call, others changed; on a desk, where there are none, nobody did.
pub fn files_stay_where_nobody_changes_them()
    ensures files { (me : ℕ) (old new : List Entry) → ChangedNoFile me old new → OthersAre me KeepsFiles old new →
        ChangesNoFile old new }
    ensures nothing { (me : ℕ) (old new : List Entry) → ChangedNothing me old new → OthersAre me KeepsAll old new →
        ChangesNothing old new }
{}

/// A noncached read changes no file, whatever it was answered. Of a noncached write, the page that was refused changed none where it
/// was refused before its store (`page`), so the whole write none that finished no page (`first`). Where its transfer failed or found
/// no memory (`cause`) its store stands, and is all that it changed (`store`).
pub fn refused_noncached_calls_change_no_file()
    ensures read { (u : Setup) (me : ℕ) (file : File) (at len : ℕ) (answered : Result (List ℕ) (ℕ × CcError)) (old new : List Entry) →
        NcReadLeft u me file at len answered old new → ChangedNoFile me old new }
    ensures page { (u : Setup) (me : ℕ) (file : File) (page : ℕ) (bytes : List ℕ) (e : CcError) (old new : List Entry) →
        PageRefused u me file page bytes e old new → ChangedNoFile me old new ⊎ TransferRefused me file page bytes e old new }
    ensures first { (u : Setup) (me : ℕ) (file : File) (at : ℕ) (bytes : List ℕ) (e : CcError) (old new : List Entry) →
        NcWriteLeft u me file at bytes (Err (0, e)) old new →
        ChangedNoFile me old new
        ⊎ ((between : List Entry) × IsIdle me old between × TransferRefused me file (at / 4096) (take 4096 bytes) e between new) }
    ensures cause { (me : ℕ) (file : File) (page : ℕ) (bytes : List ℕ) (e : CcError) (old new : List Entry) →
        TransferRefused me file page bytes e old new → (e ≡ error.WriteFault page) ⊎ (e ≡ error.NoMemory) }
    ensures store { (me : ℕ) (file : File) (page : ℕ) (bytes : List ℕ) (e : CcError) (old new : List Entry) →
        TransferRefused me file page bytes e old new →
        ChangedNoFileBut me (IsEntryOf (call.NcStore file page bytes) (outcome.Done reply.Unit)) old new }
{}

/// The end of a repin is refused only with write through, and then all that it changed of files is that its hold is ended.
pub fn end_of_a_hold_is_the_rest_of_a_refused_unpin()
    ensures through { (u : Setup) (me id : ℕ) (e : CcError) (old new : List Entry) →
        UnpinLeft u me id true (outcome.Failed e) old new →
        ChangedNoFileBut me (IsEntryOf (call.EndHold id) (outcome.Done reply.Unit)) old new }
    ensures alone { (u : Setup) (me id : ℕ) (e : CcError) (old new : List Entry) →
        UnpinLeft u me id false (outcome.Failed e) old new → ⊥ }
{}

/// Of the calls that leave no call's entry, or take a request first: an append and a flush of a log that were refused changed nothing;
/// a refused deferral, post and question for levels placed nothing; the writing of a page and a tick change no file, whatever they were
/// answered; and neither does a read-ahead step that was refused.
pub fn refused_others_change_no_file()
    ensures append { (u : Setup) (me handle : ℕ) (bytes : List ℕ) (e : CcError) (old new : List Entry) →
        AppendLeft u me handle bytes (Err e) old new → ChangedNothing me old new }
    ensures log_flush { (u : Setup) (me handle lsn : ℕ) (e : CcError) (old new : List Entry) →
        LogFlushLeft {T = Unit {0}} u me handle lsn (Err e) old new → ChangedNothing me old new }
    ensures deferral { (me : ℕ) (file : File) (bytes : ℕ) (retrying : Bool) (e : CcError) (old new : List Entry) →
        DeferLeft me file bytes retrying (Err e) old new → IsIdle me old new }
    ensures post { (u : Setup) (me : ℕ) (e : CcError) (old new : List Entry) → PostLeft u me (Err e) old new → IsIdle me old new }
    ensures levels { (levels : ℕ → ℕ) (me : ℕ) (file : File) (e : CcError) (old new : List Entry) →
        LevelsLeft levels me file (Err e) old new → IsIdle me old new }
    ensures write_one { (me : ℕ) (page : Page) (answered : Result PageWrite CcError) (old new : List Entry) →
        PageWriteLeft me page answered old new → ChangedNoFile me old new }
    ensures tick { (me : ℕ) (answered : Result Tick CcError) (old new : List Entry) →
        TickLeft me answered old new → ChangedNoFile me old new }
    ensures ahead_step { (u : Setup) (me : ℕ) (taken : Option Request) (e : CcError) (old new : List Entry) →
        AheadLeft u me taken (Err e) old new → ChangedNoFile me old new }
{}

/// Of the calls on the record of a stream: one that did not read it changed nothing; a settling that was refused changed no file, though
/// it may have written pages, and the record.
pub fn refused_record_calls_change_no_file()
    ensures load { (me s : ℕ) (e : CcError) (old new : List Entry) →
        LoadLeft {A = Unit {0}} me s (Err e) old new → ChangedNothing me old new }
    ensures settle { (u : Setup) (me : ℕ) (file : File) (e : CcError) (old new : List Entry) →
        SettleLeft u me file (Err e) old new → ChangedNoFile me old new }
{}

/// So it is of the events of the World: one that was refused placed what changes nothing; the entry of one whose disk or log failed
/// changes no file, and neither does what one placed that found no memory.
pub fn refused_events_change_nothing<Q>()
    ensures refused { (u : Setup) (past : List Entry) (it : Event Q) (e : CcError) (added : List Entry) →
        Answers u past it (step.Refused e) added → ChangesNothing past (added ++ past) }
    ensures faulted { (past : List Entry) (it : Event Q) (e : Entry) → faulted_by past it ≡ Some e → KeepsFiles past e }
    ensures wanting { (past : List Entry) (it : Event Q) (added : List Entry) →
        IsWanting past it added → ChangesNoFile past (added ++ past) }
{}

/// In a legal journal none of whose entries tells a fault of a pass, no call tells one: each call that has an entry was done, with its
/// reply, or was refused for a reason that the table of refusals gives at its front.
pub fn without_faults_the_table_refuses()
    ensures { (u : Setup) (past : List Entry) → IsLegal u past → TellsNoFault past →
        (later front : List Entry) (pass nth : ℕ) (stream : Option ℕ) (it : Call) (e : CcError) →
        past ≡ later ++ entry.Call pass nth stream it (outcome.Failed e) ∷ front →
        (is_fault e ≡ false) × IsFailure u front pass stream it e }
{}
