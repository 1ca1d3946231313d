//! A call that met a fault of a device or a log.

ghost use Rattle.std.specs.Prelude.{◌≡◌, true};
ghost use Rattle.cc_model.specs.Allowed.{is_fault};
ghost use Rattle.cc_model.specs.History.{history};
ghost use Rattle.cc_model.specs.Refusals.{refusal};
ghost use Rattle.cc_model.specs.Setup.{Setup};
ghost use Rattle.cc_step.specs.Step.{is_answered};
ghost use Rattle.cc_step.specs.Faults.{MayFail, FailLeft};

use cc_book::Book;
use cc_entry::{Call, CcError};
use cc_journal::Journal;
use std::alloc::Global;

/// How a call that met a fault ended.
#[derive(Drop)]
pub enum Failed {
    /// Others brought a refusal about meanwhile. Its entry has the refusal too.
    Refused(CcError),
    /// The call answered the fault, which its entry has too.
    Told,
    /// There was no room in the journal (`JournalFull`) or no memory (`NoMemory`). The call left no entry.
    Stopped(CcError),
}

/// Ends a call of this pass that met a fault: refused, where others brought a refusal about meanwhile, else with the
/// fault.
///
/// `JournalFull` only where there is too little room, with the number of entries; `NoMemory`.
pub fn fail<Q>(
    alloc: Global,
    book: &mut Book,
    journal: &mut Journal<Q>,
    pass: u32,
    call: Call,
    fault: CcError,
) -> Failed
    requires answered { is_answered call ≡ true }
    requires fault { is_fault fault ≡ true }
    requires may { (u : Setup) × MayFail u pass call fault book.old journal.old }
    ensures { (u : Setup) → MayFail u pass call fault book.old journal.old →
        FailLeft u pass call fault result book.old book.new journal.old journal.new }
{
    match book.refusal(alloc, journal, &call) {
        Ok(refused) => answer(book, journal, pass, call, refused, fault),
        Err(_) => Failed::Stopped(CcError::NoMemory),
    }
}

// Places the entry of a call with its refusal, where there is one, else with the fault that it met.
fn answer<Q>(
    book: &mut Book,
    journal: &mut Journal<Q>,
    pass: u32,
    call: Call,
    refused: Option<CcError>,
    fault: CcError,
) -> Failed
    requires answered { is_answered call ≡ true }
    requires may { (u : Setup) × MayFail u pass call fault book.old journal.old
        × (refusal u journal.old.entries (history journal.old.entries book.old.stream) call ≡ refused) }
    ensures { (u : Setup) → MayFail u pass call fault book.old journal.old →
        refusal u journal.old.entries (history journal.old.entries book.old.stream) call ≡ refused →
        FailLeft u pass call fault result book.old book.new journal.old journal.new }
{
    match journal.reserve(1) {
        Ok(()) => {
            let owed = journal.owed_end(pass);
            match refused {
                Some(error) => {
                    book.fail(journal, pass, call, error);
                    journal.release(owed);
                    Failed::Refused(error)
                }
                None => {
                    book.fail(journal, pass, call, fault);
                    journal.release(owed);
                    Failed::Told
                }
            }
        }
        Err(error) => Failed::Stopped(error),
    }
}
