//! What a flush does on a book and a journal: its next step, and its end.

ghost use Rattle.std.specs.Prelude.{◌≡◌, ◌≤◌, ◌<◌, ◌^◌, true};
ghost use Rattle.cc_entry.specs.declared.call.Call.TheVariants as call;
ghost use Rattle.cc_model.specs.Setup.{Setup};
ghost use Rattle.cc_step.specs.Step.{MayStep};
ghost use Rattle.cc_ranges.specs.FlushSteps.{FlushNextLeft, FlushGoneOn, FlushMayFinish, FlushFinishLeft, FlushHasEnded, FlushPageIsNumbered, without_one};

use crate::dirty::next_dirty;
use cc_book::Book;
use cc_entry::{Call, CcError, FileId, NoMemory, Reply, Span};
use cc_journal::Journal;
use std::alloc::Global;

/// What a flush does next on its book.
#[derive(Drop)]
pub(crate) enum FlushNext {
    /// It was refused. Its entry has the refusal too.
    Refused(CcError),
    /// This page of the span is to be written, the least dirty one from where it has come to.
    Writes(u64),
    /// No page of the span is dirty from there on. A place is reserved for the entry of the sync.
    Syncs,
    /// There was no room in the journal (`JournalFull`) or no memory (`NoMemory`). The flush left no entry.
    Stopped(CcError),
}

/// How a flush ended that has synced.
#[derive(Drop)]
pub(crate) enum FlushEnd {
    /// It was done.
    Done,
    /// Others brought a refusal about meanwhile. Its entry has the refusal too.
    Refused(CcError),
    /// There was no room in the journal (`JournalFull`) or no memory (`NoMemory`). The flush left no entry.
    Stopped(CcError),
}

/// Decides what a flush of this pass does next that has come to a page. The room for an entry is asked first.
pub(crate) fn next_step<Q>(
    alloc: Global,
    book: &mut Book,
    journal: &mut Journal<Q>,
    pass: u32,
    file: FileId,
    span: &Option<Span>,
    from: u64,
) -> FlushNext
    requires may { (u : Setup) × MayStep u pass (call.Flush file span.now) book.old journal.old }
    ensures left { (u : Setup) → MayStep u pass (call.Flush file span.now) book.old journal.old →
        FlushNextLeft u pass file span.now from result book.old book.new journal.old journal.new }
    ensures numbered { FlushPageIsNumbered result }
{
    match journal.reserve(1) {
        Ok(()) => go_on(alloc, book, journal, pass, file, span, from),
        Err(error) => FlushNext::Stopped(error),
    }
}

// Goes on with a flush for whose entry a place is reserved, which is given back where nothing is placed.
fn go_on<Q>(
    alloc: Global,
    book: &mut Book,
    journal: &mut Journal<Q>,
    pass: u32,
    file: FileId,
    span: &Option<Span>,
    from: u64,
) -> FlushNext
    requires reserved { 0 < journal.old.reserved }
    requires may { (u : Setup) × MayStep u pass (call.Flush file span.now) book.old (without_one journal.old) }
    ensures left { (u : Setup) → MayStep u pass (call.Flush file span.now) book.old (without_one journal.old) →
        FlushGoneOn u pass file span.now from result book.old book.new journal.old journal.new }
    ensures numbered { FlushPageIsNumbered result }
{
    let call = Call::Flush { file, span: *span };
    match book.refusal(alloc, journal, &call) {
        Ok(Some(error)) => {
            let owed = journal.owed_end(pass);
            book.fail(journal, pass, call, error);
            journal.release(owed);
            FlushNext::Refused(error)
        }
        Ok(None) => match next_dirty(journal, book.stream(), *span, from) {
            Some(page) => {
                journal.release(1);
                FlushNext::Writes(page)
            }
            None => FlushNext::Syncs,
        },
        Err(NoMemory) => {
            journal.release(1);
            FlushNext::Stopped(CcError::NoMemory)
        }
    }
}

/// Ends a flush of this pass that has synced. The room for its entry is asked first.
pub(crate) fn finish<Q>(
    alloc: Global,
    book: &mut Book,
    journal: &mut Journal<Q>,
    pass: u32,
    file: FileId,
    span: &Option<Span>,
) -> FlushEnd
    requires may { (u : Setup) × FlushMayFinish u pass file span.now book.old journal.old }
    ensures { (u : Setup) → FlushMayFinish u pass file span.now book.old journal.old →
        FlushFinishLeft u pass file span.now result book.old book.new journal.old journal.new }
{
    match journal.reserve(1) {
        Ok(()) => end(alloc, book, journal, pass, file, span),
        Err(error) => FlushEnd::Stopped(error),
    }
}

// Ends a flush for whose entry a place is reserved, which is given back where nothing is placed.
fn end<Q>(
    alloc: Global,
    book: &mut Book,
    journal: &mut Journal<Q>,
    pass: u32,
    file: FileId,
    span: &Option<Span>,
) -> FlushEnd
    requires reserved { 0 < journal.old.reserved }
    requires may { (u : Setup) × FlushMayFinish u pass file span.now book.old (without_one journal.old) }
    ensures { (u : Setup) → FlushMayFinish u pass file span.now book.old (without_one journal.old) →
        FlushHasEnded u pass file span.now result book.old book.new journal.old journal.new }
{
    let call = Call::Flush { file, span: *span };
    match book.refusal(alloc, journal, &call) {
        Ok(Some(error)) => {
            let owed = journal.owed_end(pass);
            book.fail(journal, pass, call, error);
            journal.release(owed);
            FlushEnd::Refused(error)
        }
        Ok(None) => {
            let owed = journal.owed_end(pass);
            match book.done(alloc, journal, pass, call, Reply::Unit) {
                Ok(()) => {
                    journal.release(owed);
                    FlushEnd::Done
                }
                Err(NoMemory) => {
                    journal.release(1);
                    FlushEnd::Stopped(CcError::NoMemory)
                }
            }
        }
        Err(NoMemory) => {
            journal.release(1);
            FlushEnd::Stopped(CcError::NoMemory)
        }
    }
}
