//! A call that tells a fault of a device or a log.

ghost use Rattle.std.specs.Prelude.{◌≡◌, not, true, false, IfOk, List, Some};
ghost use Rattle.cc_entry.specs.declared.entry.Entry.{Entry};
ghost use Rattle.cc_model.specs.Legal.{NothingElse, ends_own_store};
ghost use Rattle.cc_model.specs.Setup.{Setup};
ghost use Rattle.cc_turns.specs.Standing.{DiskAtFirst};
ghost use Rattle.cc_world.specs.Failing.{FailEventLeft, IsFailing, IsTelling, IsFaultToldBy};
ghost use Rattle.cc_world.specs.Notes.{NotesStand};
ghost use Rattle.cc_world.specs.Pages.{Says};
ghost use Rattle.cc_world.specs.Rows.{IsStanding, RowLeft, StandsUnder};
ghost use Rattle.cc_effects.specs.Events.{filed_under};
ghost use Rattle.cc_effects.specs.declared.events.Event.TheVariants as event;

use crate::filed::is_filed;
use crate::notes::Notes;
use crate::rows::StreamRow;
use crate::told::error_of;
use cc_book::Book;
use cc_effects::StepReply;
use cc_entry::{Call, CcError, NoMemory};
use cc_journal::Journal;
use cc_traits::PageDisk;
use std::alloc::Global;

impl<D: PageDisk> StreamRow<D> {
    /// A call of a pass, which is filed under the row's stream, tells the oldest fault of the pass since its last call.
    pub(crate) fn fail_call<Q>(
        &mut self,
        alloc: Global,
        journal: &mut Journal<Q>,
        notes: &Notes,
        pass: u32,
        call: Call,
    ) -> StepReply<Q>
        requires filed { filed_under journal.old.entries call ≡ Some self.old.book.stream }
        requires standing { IsStanding D.told D.faults 0 self.old journal.old }
        requires notes { NotesStand journal.old.entries notes.now }
        ensures { (u : Setup) (first : DiskAtFirst) → StandsUnder D.told D.faults u first 0 self.old journal.old →
            RowLeft D.told D.faults u first (event.Fail pass call) result self.old self.new journal.old journal.new }
    {
        fail_on(alloc, &mut self.book, journal, notes, pass, call)
    }
}

// A call of a pass that is filed under the book's stream tells the oldest fault of the pass since its last call.
fn fail_on<Q>(
    alloc: Global,
    book: &mut Book,
    journal: &mut Journal<Q>,
    notes: &Notes,
    pass: u32,
    call: Call,
) -> StepReply<Q>
    requires failing { (u : Setup) × IsFailing u call book.old journal.old }
    requires notes { NotesStand journal.old.entries notes.now }
    ensures { (u : Setup) → IsFailing u call book.old journal.old →
        FailEventLeft u pass call result book.old book.new journal.old journal.new }
{
    match error_now(alloc, book, journal, notes, pass, &call) {
        Ok(Some(error)) => tell(book, journal, notes, pass, call, error),
        Ok(None) => StepReply::NotNow,
        Err(NoMemory) => StepReply::Refused(CcError::NoMemory),
    }
}

// The error by which a call of a pass tells the oldest fault of the pass since its last call; none where it may tell none.
fn error_now<Q>(
    alloc: Global,
    book: &Book,
    journal: &Journal<Q>,
    notes: &Notes,
    pass: u32,
    call: &Call,
) -> Result<Option<CcError>, NoMemory>
    requires failing { (u : Setup) × IsFailing u call.now book.now journal.now }
    requires notes { NotesStand journal.now.entries notes.now }
    ensures { IfOk result (λ error. (u : Setup) → IsFailing u call.now book.now journal.now →
        IsFaultToldBy u journal.now.entries pass call.now error) }
{
    let Some(fault) = notes.passes.fault(pass) else {
        return Ok(None);
    };
    if !is_filed(book, pass, call) {
        return Ok(None);
    }
    if is_refused(alloc, book, journal, notes, pass, call)? {
        return Ok(None);
    }
    Ok(Some(error_of(call, fault)))
}

// Whether a call is refused beside a fault. The end of a noncached write passed its tests at its store.
fn is_refused<Q>(
    alloc: Global,
    book: &Book,
    journal: &Journal<Q>,
    notes: &Notes,
    pass: u32,
    call: &Call,
) -> Result<bool, NoMemory>
    requires { NotesStand journal.now.entries notes.now }
    ensures { IfOk result (λ refused. (u : Setup) → IsFailing u call.now book.now journal.now →
        Says (not refused) (NothingElse u journal.now.entries pass (Some book.now.stream) call.now)) }
{
    if ends_store(book, notes, pass, call) {
        return Ok(false);
    }
    let refused = book.refusal(alloc, journal, call)?;
    Ok(refused.is_some())
}

// Whether a call is the end of a noncached write whose store is the last call of the pass.
fn ends_store(book: &Book, notes: &Notes, pass: u32, call: &Call) -> bool
    ensures { (past : List Entry) → NotesStand past notes.now →
        result ≡ ends_own_store past pass (Some book.now.stream) call.now }
{
    match call {
        Call::NcWrite { page, .. } => notes.passes.ends_own_store(pass, book.stream(), *page),
        _ => false,
    }
}

// A call tells a fault by this error. The end of a noncached write has its place.
fn tell<Q>(
    book: &mut Book,
    journal: &mut Journal<Q>,
    notes: &Notes,
    pass: u32,
    call: Call,
    error: CcError,
) -> StepReply<Q>
    requires telling { (u : Setup) × IsTelling u pass call error book.old journal.old }
    requires notes { NotesStand journal.old.entries notes.now }
    ensures { (u : Setup) → IsTelling u pass call error book.old journal.old →
        FailEventLeft u pass call result book.old book.new journal.old journal.new }
{
    if ends_store(book, notes, pass, &call) {
        book.fail(journal, pass, call, error);
        return StepReply::Refused(error);
    }
    match journal.reserve(1) {
        Ok(()) => {
            let owed = journal.owed_end(pass);
            book.fail(journal, pass, call, error);
            journal.release(owed);
            StepReply::Refused(error)
        }
        Err(full) => StepReply::Refused(full),
    }
}
