//! The events of the journal alone: scans, deferrals and posts, and the calls that are filed under no stream.

ghost use Rattle.std.specs.Prelude.{◌≡◌, ℕ, ◌+◌, true, false, is_some, List, Option, Some, [], ◌∷◌, IfOk, IfErr, OnOk, OnErr};
ghost use Rattle.cc_book.specs.Book.{BookStands};
ghost use Rattle.cc_entry.specs.declared.call.Call.TheVariants as call;
ghost use Rattle.cc_entry.specs.declared.query.Query.TheVariants as query;
ghost use Rattle.cc_model.specs.Faults.{faults_since, oldest};
ghost use Rattle.cc_model.specs.Good.{IsGood};
ghost use Rattle.cc_model.specs.Refusals.{refusal};
ghost use Rattle.cc_model.specs.Setup.{Setup};
ghost use Rattle.cc_model.specs.Stamps.{dirty_table};
ghost use Rattle.cc_world.specs.Faults.{fault_in};
ghost use Rattle.cc_world.specs.Filing.{is_unfiled, log_named};
ghost use Rattle.cc_world.specs.Journals.{IsJournalStanding, JournalLeft, JournalStandsUnder, JournalWent};
ghost use Rattle.cc_world.specs.Notes.{NotesStand};
ghost use Rattle.cc_world.specs.Reserving.{CanDefer, HasReserved, IsDeferralRefusal, unreserved};
ghost use Rattle.cc_effects.specs.Events.{call_entry};
ghost use Rattle.cc_effects.specs.declared.events.Event.TheVariants as event;

use crate::faults::Fault;
use crate::notes::Notes;
use crate::told::error_of;
use cc_book::Book;
use cc_effects::StepReply;
use cc_entry::{Call, CcError, Entry, FileId, NoMemory, Outcome, Query, Reply, Rows, Value};
use cc_journal::{Journal, dirty_table, is_any_dirty};
use cc_traits::PostRoutine;
use std::alloc::Global;

/// The lazy writer picks the pages that it would write, and its pick stands in the journal.
pub(crate) fn scan<Q: PostRoutine>(journal: &mut Journal<Q>, pass: u32) -> StepReply<Q>
    requires standing { IsJournalStanding Q.posted journal.old }
    ensures { (u : Setup) → JournalStandsUnder Q.posted u journal.old →
        JournalLeft Q.posted u (event.Scan pass) result journal.old journal.new }
{
    match journal.reserve(1) {
        Ok(()) => match journal.pick() {
            Ok(picked) => {
                journal.push(Entry::Scan { pass, picked });
                StepReply::Done(Reply::Unit)
            }
            Err(NoMemory) => {
                journal.release(1);
                StepReply::Refused(CcError::NoMemory)
            }
        },
        Err(error) => StepReply::Refused(error),
    }
}

/// A write of so many bytes is deferred, whose routine was not posted.
pub(crate) fn defer<Q: PostRoutine>(
    book: &Book,
    journal: &mut Journal<Q>,
    pass: u32,
    file: FileId,
    bytes: u64,
    retrying: bool,
    routine: Q,
) -> StepReply<Q>
    requires stream { file.stream ≡ book.now.stream }
    requires book { (opening : Option (ℕ → List ℕ)) × BookStands opening journal.old.entries book.now }
    requires unposted { Q.posted routine ≡ false }
    requires standing { IsJournalStanding Q.posted journal.old }
    ensures { (u : Setup) → JournalStandsUnder Q.posted u journal.old →
        JournalLeft Q.posted u (event.Defer pass file bytes retrying routine) result journal.old journal.new }
{
    match reserve_deferral(book, journal, file) {
        Ok(()) => {
            let pages = bytes.div_ceil(4096);
            StepReply::Deferred(journal.push_defer(pass, file, pages, retrying, routine))
        }
        Err(error) => StepReply::Kept(routine, error),
    }
}

// Reserves a place for a deferral by an object, which has to be cached, in a queue of fewer than 64. The room for it is
// asked first.
fn reserve_deferral<Q>(book: &Book, journal: &mut Journal<Q>, file: FileId) -> Result<(), CcError>
    requires stream { file.stream ≡ book.now.stream }
    requires book { (opening : Option (ℕ → List ℕ)) × BookStands opening journal.old.entries book.now }
    ensures ok { OnOk result (CanDefer file journal.old × (journal.new ≡ record journal.old { reserved = journal.old.reserved + 1 })) }
    ensures err { OnErr result (journal.new ≡ journal.old) }
    ensures causes { IfErr result (λ e. IsDeferralRefusal file e journal.old) }
{
    if journal.room() == 0 {
        return Err(CcError::JournalFull {
            entries: journal.len(),
        });
    }
    if !book.is_open(file.object()) {
        return Err(CcError::NotCached);
    }
    if journal.queued() >= 64 {
        return Err(CcError::QueueFull);
    }
    journal.reserve(1)
}

/// The deferred write at the head of the queue is posted, where it may go.
pub(crate) fn post<Q: PostRoutine>(journal: &mut Journal<Q>, pass: u32) -> StepReply<Q>
    requires standing { IsJournalStanding Q.posted journal.old }
    ensures { (u : Setup) → JournalStandsUnder Q.posted u journal.old →
        JournalLeft Q.posted u (event.Post pass) result journal.old journal.new }
{
    if !journal.may_post() {
        return StepReply::Posted(None);
    }
    match journal.reserve(1) {
        Ok(()) => StepReply::Posted(Some(journal.push_posted())),
        Err(error) => StepReply::Refused(error),
    }
}

/// A call of a pass ends that is filed under no stream.
pub(crate) fn do_unfiled<Q: PostRoutine>(
    alloc: Global,
    journal: &mut Journal<Q>,
    pass: u32,
    call: Call,
) -> StepReply<Q>
    requires unfiled { is_unfiled call ≡ true }
    requires standing { IsJournalStanding Q.posted journal.old }
    ensures { (u : Setup) → JournalStandsUnder Q.posted u journal.old →
        JournalLeft Q.posted u (event.Do pass call) result journal.old journal.new }
{
    match journal.reserve(1) {
        Ok(()) => match log_of(&call) {
            Some(handle) => tell_rows(alloc, journal, pass, handle),
            None => tell_dirty(journal, pass),
        },
        Err(error) => StepReply::Refused(error),
    }
}

// Tells the dirty page table of a log, which there has to be, where a place is reserved for the entry. The table is made
// twice: for the entry, and for the reply.
fn tell_rows<Q: PostRoutine>(
    alloc: Global,
    journal: &mut Journal<Q>,
    pass: u32,
    handle: u8,
) -> StepReply<Q>
    requires reserved { HasReserved Q.posted journal.old }
    ensures { (u : Setup) → JournalStandsUnder Q.posted u (unreserved journal.old) →
        JournalLeft Q.posted u (event.Do pass (call.Query (query.DirtyPages handle))) result (unreserved journal.old) journal.new }
{
    if journal.logs() <= handle {
        let error = CcError::NoLog {
            handle: u64::from(handle),
        };
        let outcome = Outcome::Failed(error);
        place(
            journal,
            pass,
            Call::Query(Query::DirtyPages { handle }),
            outcome,
        );
        return StepReply::Refused(error);
    }
    match two_tables(alloc, journal, handle) {
        Ok((rows, told)) => {
            let outcome = Outcome::Done(Reply::Rows(rows));
            place(
                journal,
                pass,
                Call::Query(Query::DirtyPages { handle }),
                outcome,
            );
            StepReply::Done(Reply::Rows(told))
        }
        Err(NoMemory) => {
            journal.release(1);
            StepReply::Refused(CcError::NoMemory)
        }
    }
}

// The dirty page table of a log, twice.
fn two_tables<Q>(alloc: Global, journal: &Journal<Q>, handle: u8) -> Result<(Rows, Rows), NoMemory>
    ensures { IfOk result (λ tables. (tables.0 ≡ dirty_table journal.now.entries handle)
        × (tables.1 ≡ dirty_table journal.now.entries handle)) }
{
    let rows = dirty_table(alloc, journal, handle)?;
    let told = dirty_table(alloc, journal, handle)?;
    Ok((rows, told))
}

// Tells whether a page is dirty, where a place is reserved for the entry.
fn tell_dirty<Q: PostRoutine>(journal: &mut Journal<Q>, pass: u32) -> StepReply<Q>
    requires reserved { HasReserved Q.posted journal.old }
    ensures { (u : Setup) → JournalStandsUnder Q.posted u (unreserved journal.old) →
        JournalLeft Q.posted u (event.Do pass (call.Query query.IsDirtyData)) result (unreserved journal.old) journal.new }
{
    let flag = is_any_dirty(journal);
    let outcome = Outcome::Done(Reply::Value(Value::Flag(flag)));
    place(journal, pass, Call::Query(Query::IsDirtyData), outcome);
    StepReply::Done(Reply::Value(Value::Flag(flag)))
}

/// A call of a pass that is filed under no stream tells the oldest fault of the pass since its last call.
pub(crate) fn fail_unfiled<Q: PostRoutine>(
    journal: &mut Journal<Q>,
    notes: &Notes,
    pass: u32,
    call: Call,
) -> StepReply<Q>
    requires unfiled { is_unfiled call ≡ true }
    requires standing { IsJournalStanding Q.posted journal.old }
    requires notes { NotesStand journal.old.entries notes.now }
    ensures { (u : Setup) → JournalStandsUnder Q.posted u journal.old →
        JournalLeft Q.posted u (event.Fail pass call) result journal.old journal.new }
{
    if is_refused(journal, &call) {
        return StepReply::NotNow;
    }
    match notes.passes.fault(pass) {
        Some(fault) => tell_fault(journal, pass, call, fault),
        None => StepReply::NotNow,
    }
}

// A call tells a fault that befell its pass, where nothing refuses it.
fn tell_fault<Q: PostRoutine>(
    journal: &mut Journal<Q>,
    pass: u32,
    call: Call,
    fault: Fault,
) -> StepReply<Q>
    requires unfiled { is_unfiled call ≡ true }
    requires oldest { oldest (faults_since journal.old.entries pass) ≡ Some (fault_in fault) }
    requires admitted { (u : Setup) → u.logs ≡ journal.old.logs → refusal u journal.old.entries [] call ≡ None }
    requires standing { IsJournalStanding Q.posted journal.old }
    ensures { (u : Setup) → JournalStandsUnder Q.posted u journal.old →
        JournalLeft Q.posted u (event.Fail pass call) result journal.old journal.new }
{
    match journal.reserve(1) {
        Ok(()) => {
            let error = error_of(&call, fault);
            place(journal, pass, call, Outcome::Failed(error));
            StepReply::Refused(error)
        }
        Err(error) => StepReply::Refused(error),
    }
}

// Whether a call is refused that is filed under no stream: it asks for the dirty page table of a log that there is not.
fn is_refused<Q>(journal: &Journal<Q>, call: &Call) -> bool
    requires { is_unfiled call.now ≡ true }
    ensures { (u : Setup) → u.logs ≡ journal.now.logs →
        result ≡ is_some (refusal u journal.now.entries [] call.now) }
{
    match log_of(call) {
        Some(handle) => journal.logs() <= handle,
        None => false,
    }
}

// The log that a call names.
fn log_of(call: &Call) -> Option<u8>
    ensures { result ≡ log_named call.now }
{
    match call {
        Call::Query(query) => query.log(),
        _ => None,
    }
}

// Places the entry of a pass's next call, for which a place is reserved, and gives the one of the end of a noncached write
// of the pass back.
fn place<Q: PostRoutine>(journal: &mut Journal<Q>, pass: u32, call: Call, outcome: Outcome)
    requires unfiled { is_unfiled call ≡ true }
    requires reserved { HasReserved Q.posted journal.old }
    requires good { (u : Setup) × IsGood u (call_entry journal.old.entries pass call outcome ∷ journal.old.entries) }
    ensures went { (u : Setup) → JournalStandsUnder Q.posted u (unreserved journal.old) →
        IsGood u (call_entry journal.old.entries pass call outcome ∷ journal.old.entries) →
        JournalWent Q.posted u (call_entry journal.old.entries pass call outcome ∷ [])
        (unreserved journal.old) journal.new }
    ensures queue { journal.new.queue ≡ journal.old.queue }
{
    let nth = journal.next_call(pass);
    let owed = journal.owed_end(pass);
    journal.push(Entry::Call {
        pass,
        nth,
        stream: None,
        call,
        outcome,
    });
    journal.release(owed);
}
