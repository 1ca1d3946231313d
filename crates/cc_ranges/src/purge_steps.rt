//! What a purge does next on a book and a journal.

ghost use Rattle.std.specs.Prelude.{◌≡◌, ◌<◌, ◌^◌};
ghost use Rattle.cc_entry.specs.declared.call.Call.TheVariants as call;
ghost use Rattle.cc_step.specs.Fill.{MayFill, book_page};
ghost use Rattle.cc_model.specs.Setup.{Setup};
ghost use Rattle.cc_ranges.specs.FlushSteps.{without_one};
ghost use Rattle.cc_ranges.specs.PurgeSteps.{PurgeNextLeft, PurgeGoneOn, MayEmpty, PurgeMayEnd, PurgePageIsNumbered};

use crate::dirty::next_dirty;
use crate::residents::least_resident;
use cc_book::Book;
use cc_entry::{Call, CcError, FileId, NoMemory, PageId, Reply, Span};
use cc_journal::Journal;
use std::alloc::Global;

/// What a purge does next on its book.
#[derive(Drop)]
pub(crate) enum PurgeNext {
    /// It was done: no page of its span is resident.
    Done,
    /// It was refused. Its entry has the refusal too.
    Refused(CcError),
    /// This page of the span is to be written, the least dirty one from where it has come to.
    Writes(u64),
    /// No page of the span is dirty from where it has come to, which is not the stream's first page.
    Cleaned,
    /// No page of the span is dirty, and its least resident page went out.
    WentOut,
    /// There was no room in the journal (`JournalFull`) or no memory (`NoMemory`). The purge left no entry.
    Stopped(CcError),
}

/// Decides what a purge of this pass does next that has come to a page. The room for an entry is asked first.
pub(crate) fn next_step<Q>(
    alloc: Global,
    book: &mut Book,
    journal: &mut Journal<Q>,
    pass: u32,
    file: FileId,
    span: &Option<Span>,
    from: u64,
) -> PurgeNext
    requires may { (u : Setup) × MayFill u pass (call.Purge file span.now) book.old journal.old }
    ensures left { (u : Setup) → MayFill u pass (call.Purge file span.now) book.old journal.old →
        PurgeNextLeft u pass file span.now from result book.old book.new journal.old journal.new }
    ensures numbered { PurgePageIsNumbered result }
{
    match journal.reserve(1) {
        Ok(()) => go_on(alloc, book, journal, pass, file, span, from),
        Err(error) => PurgeNext::Stopped(error),
    }
}

// Goes on with a purge for whose entry a place is reserved, which is given back where nothing is placed.
fn go_on<Q>(
    alloc: Global,
    book: &mut Book,
    journal: &mut Journal<Q>,
    pass: u32,
    file: FileId,
    span: &Option<Span>,
    from: u64,
) -> PurgeNext
    requires reserved { 0 < journal.old.reserved }
    requires may { (u : Setup) × MayFill u pass (call.Purge file span.now) book.old (without_one journal.old) }
    ensures left { (u : Setup) → MayFill u pass (call.Purge file span.now) book.old (without_one journal.old) →
        PurgeGoneOn u pass file span.now from result book.old book.new journal.old journal.new }
    ensures numbered { PurgePageIsNumbered result }
{
    let call = Call::Purge { file, span: *span };
    match book.refusal(alloc, journal, &call) {
        Ok(Some(error)) => {
            let owed = journal.owed_end(pass);
            book.fail(journal, pass, call, error);
            journal.release(owed);
            PurgeNext::Refused(error)
        }
        Ok(None) => match next_dirty(journal, book.stream(), *span, from) {
            Some(page) => {
                journal.release(1);
                PurgeNext::Writes(page)
            }
            None => {
                if from == 0 {
                    empty(alloc, book, journal, pass, file, span)
                } else {
                    journal.release(1);
                    PurgeNext::Cleaned
                }
            }
        },
        Err(NoMemory) => {
            journal.release(1);
            PurgeNext::Stopped(CcError::NoMemory)
        }
    }
}

// Goes on with a purge of whose span no page is dirty: the least resident page goes out, or the purge is done.
fn empty<Q>(
    alloc: Global,
    book: &mut Book,
    journal: &mut Journal<Q>,
    pass: u32,
    file: FileId,
    span: &Option<Span>,
) -> PurgeNext
    requires reserved { 0 < journal.old.reserved }
    requires may { (u : Setup) × MayEmpty u pass file span.now book.old journal.old }
    ensures left { (u : Setup) → MayEmpty u pass file span.now book.old journal.old →
        PurgeGoneOn u pass file span.now 0 result book.old book.new journal.old journal.new }
    ensures numbered { PurgePageIsNumbered result }
{
    match least_resident(book, span) {
        Some(page) => {
            let going = page_id(book, page);
            book.take_out(journal, pass, going);
            PurgeNext::WentOut
        }
        None => end(alloc, book, journal, pass, file, span),
    }
}

// Ends a purge of whose span no page is resident.
fn end<Q>(
    alloc: Global,
    book: &mut Book,
    journal: &mut Journal<Q>,
    pass: u32,
    file: FileId,
    span: &Option<Span>,
) -> PurgeNext
    requires reserved { 0 < journal.old.reserved }
    requires may { (u : Setup) × PurgeMayEnd u pass file span.now book.old journal.old }
    ensures left { (u : Setup) → PurgeMayEnd u pass file span.now book.old journal.old →
        PurgeGoneOn u pass file span.now 0 result book.old book.new journal.old journal.new }
    ensures numbered { PurgePageIsNumbered result }
{
    let call = Call::Purge { file, span: *span };
    let owed = journal.owed_end(pass);
    match book.done(alloc, journal, pass, call, Reply::Unit) {
        Ok(()) => {
            journal.release(owed);
            PurgeNext::Done
        }
        Err(NoMemory) => {
            journal.release(1);
            PurgeNext::Stopped(CcError::NoMemory)
        }
    }
}

// A page of a book's stream.
fn page_id(book: &Book, page: u64) -> PageId
    requires { page < 2 ^ 51 }
    ensures { result ≡ book_page book.now page }
{
    PageId::new(book.stream(), page).unwrap()
}
