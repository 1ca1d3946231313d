//! What a page of a noncached read does on a book and a journal: its next step, and its end once the disk was read.

ghost use Rattle.std.specs.Prelude.{◌≡◌, ℕ, ◌*◌, ◌<◌, not, List, Option, IfOk};
ghost use Rattle.std.specs.declared.option.Option.TheVariants.{None};
ghost use Rattle.cc_entry.specs.declared.call.Call.TheVariants as call;
ghost use Rattle.cc_book.specs.Book.{BookStands};
ghost use Rattle.cc_effects.specs.Calls.{has_no_write};
ghost use Rattle.cc_step.specs.Fill.{MayFill, book_page};
ghost use Rattle.cc_model.specs.History.{history};
ghost use Rattle.cc_model.specs.Refusals.{refusal};
ghost use Rattle.cc_model.specs.Setup.{Setup};
ghost use Rattle.cc_ranges.specs.ReadSteps.{ReadAdmittedLeft, ReadGoneOn, ReadHasEnded, ReadMayEnd, ReadNextLeft};
ghost use Rattle.cc_ranges.specs.FlushSteps.{without_one};

use crate::dirty_page::is_dirty;
use cc_book::Book;
use cc_entry::{Bytes, Call, CcError, FileId, NoMemory, Reply};
use cc_journal::Journal;
use std::alloc::Global;

/// What the read of a page does next on its book.
#[derive(Drop)]
pub(crate) enum ReadNext {
    /// It was done: the page starts at the size or past it, and has no bytes.
    Done,
    /// It was refused. Its entry has the refusal too.
    Refused(CcError),
    /// The page is dirty, and is to be written first.
    Writes,
    /// The page is to be read from the disk. A place is reserved for the entry of what the disk gives.
    Reads,
    /// There was no room in the journal (`JournalFull`) or no memory (`NoMemory`). The read left no entry.
    Stopped(CcError),
}

/// How the read of a page ended that was read from the disk.
#[derive(Drop)]
pub(crate) enum ReadEnd {
    /// It was done. Its entry, the journal's last, has the bytes.
    Done,
    /// Others brought a refusal about meanwhile. Its entry has the refusal too.
    Refused(CcError),
    /// There was no memory. The read left no entry.
    Stopped,
}

/// Decides what the read of a page by this pass does next, which has written the page before or not. The room for an
/// entry is asked first.
pub(crate) fn next_step<Q>(
    alloc: Global,
    book: &mut Book,
    journal: &mut Journal<Q>,
    pass: u32,
    file: FileId,
    page: u64,
    written: bool,
) -> ReadNext
    requires may { (u : Setup) × MayFill u pass (call.NcRead file page) book.old journal.old }
    ensures { (u : Setup) → MayFill u pass (call.NcRead file page) book.old journal.old →
        ReadNextLeft u pass file page written result book.old book.new journal.old journal.new }
{
    match journal.reserve(1) {
        Ok(()) => go_on(alloc, book, journal, pass, file, page, written),
        Err(error) => ReadNext::Stopped(error),
    }
}

// Goes on with a read for whose entry a place is reserved, which is given back where nothing is placed.
fn go_on<Q>(
    alloc: Global,
    book: &mut Book,
    journal: &mut Journal<Q>,
    pass: u32,
    file: FileId,
    page: u64,
    written: bool,
) -> ReadNext
    requires reserved { 0 < journal.old.reserved }
    requires may { (u : Setup) × MayFill u pass (call.NcRead file page) book.old (without_one journal.old) }
    ensures { (u : Setup) → MayFill u pass (call.NcRead file page) book.old (without_one journal.old) →
        ReadGoneOn u pass file page written result book.old book.new journal.old journal.new }
{
    let call = Call::NcRead { file, page };
    match book.refusal(alloc, journal, &call) {
        Ok(Some(error)) => {
            let owed = journal.owed_end(pass);
            book.fail(journal, pass, call, error);
            journal.release(owed);
            ReadNext::Refused(error)
        }
        Ok(None) => admitted(alloc, book, journal, pass, file, page, written),
        Err(NoMemory) => {
            journal.release(1);
            ReadNext::Stopped(CcError::NoMemory)
        }
    }
}

// Goes on with a read that nothing refuses.
fn admitted<Q>(
    alloc: Global,
    book: &mut Book,
    journal: &mut Journal<Q>,
    pass: u32,
    file: FileId,
    page: u64,
    written: bool,
) -> ReadNext
    requires reserved { 0 < journal.old.reserved }
    requires may { (u : Setup) × MayFill u pass (call.NcRead file page) book.old (without_one journal.old)
        × (refusal u journal.old.entries (history journal.old.entries book.old.stream) (call.NcRead file page) ≡ None) }
    ensures { (u : Setup) → MayFill u pass (call.NcRead file page) book.old (without_one journal.old) →
        refusal u journal.old.entries (history journal.old.entries book.old.stream) (call.NcRead file page) ≡ None →
        ReadAdmittedLeft u pass file page written result book.old book.new journal.old journal.new }
{
    if !written && is_to_write(book, journal, page) {
        journal.release(1);
        return ReadNext::Writes;
    }
    match book.start_of(page) {
        Some(_) => ReadNext::Reads,
        None => {
            let call = Call::NcRead { file, page };
            let owed = journal.owed_end(pass);
            match book.done(alloc, journal, pass, call, Reply::Read(Bytes::new(alloc))) {
                Ok(()) => {
                    journal.release(owed);
                    ReadNext::Done
                }
                Err(_) => unreachable!(),
            }
        }
    }
}

/// Ends the read of a page by this pass that was read from the disk, with these bytes. A place is reserved for its
/// entry, which is given back where nothing is placed.
pub(crate) fn end<Q>(
    alloc: Global,
    book: &mut Book,
    journal: &mut Journal<Q>,
    pass: u32,
    file: FileId,
    page: u64,
    raw: &[u8; 4096],
) -> ReadEnd
    requires reserved { 0 < journal.old.reserved }
    requires may { (u : Setup) × ReadMayEnd u pass file page raw.now book.old (without_one journal.old) }
    ensures { (u : Setup) → ReadMayEnd u pass file page raw.now book.old (without_one journal.old) →
        ReadHasEnded u pass file page result book.old book.new journal.old journal.new }
{
    let call = Call::NcRead { file, page };
    match book.refusal(alloc, journal, &call) {
        Ok(Some(error)) => {
            let owed = journal.owed_end(pass);
            book.fail(journal, pass, call, error);
            journal.release(owed);
            ReadEnd::Refused(error)
        }
        Ok(None) => match book.read_noncached(alloc, page, raw) {
            Ok(bytes) => {
                let owed = journal.owed_end(pass);
                match book.done(alloc, journal, pass, call, Reply::Read(bytes)) {
                    Ok(()) => {
                        journal.release(owed);
                        ReadEnd::Done
                    }
                    Err(_) => unreachable!(),
                }
            }
            Err(NoMemory) => {
                journal.release(1);
                ReadEnd::Stopped
            }
        },
        Err(NoMemory) => {
            journal.release(1);
            ReadEnd::Stopped
        }
    }
}

// Whether a page has bytes that can be written: it is dirty, and no pin owes it a stamp.
fn is_to_write<Q>(book: &Book, journal: &Journal<Q>, page: u64) -> bool
    ensures { (opening : Option (ℕ → List ℕ)) → BookStands opening journal.now.entries book.now →
        result ≡ not (has_no_write (book_page book.now page) journal.now.entries) }
{
    is_dirty(journal, book.stream(), page) && !book.is_unstamped(page)
}
