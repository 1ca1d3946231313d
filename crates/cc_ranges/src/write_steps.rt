//! What the noncached write of a page does next on a book and a journal, until the page is ready to be stored.

ghost use Rattle.std.specs.Prelude.{◌≡◌, ◌<◌};
ghost use Rattle.std.specs.declared.option.Option.TheVariants.{None};
ghost use Rattle.cc_entry.specs.declared.call.Call.TheVariants as call;
ghost use Rattle.cc_step.specs.Fill.{MakesWay, MayFill};
ghost use Rattle.cc_model.specs.Refusals.{refusal};
ghost use Rattle.cc_model.specs.Setup.{Setup};
ghost use Rattle.cc_ranges.specs.WriteSteps.{MayMakeRoom, WriteNextLeft, next_of};
ghost use Rattle.cc_ranges.specs.FlushSteps.{without_one};

use cc_book::Book;
use cc_entry::{Call, CcError, FileId, NoMemory};
use cc_journal::Journal;
use cc_step::{Way, has_room, make_room};
use std::alloc::Global;

/// What the write of a page does next on its book.
#[derive(Drop)]
pub(crate) enum WriteNext {
    /// It was refused. Its entry has the refusal too.
    Refused(CcError),
    /// There is room for the block of its page, which is ready to be stored.
    Ready,
    /// A page of the block to give up went out.
    WentOut,
    /// This page of the block to give up is dirty, and is to be written before.
    Writes(u64),
    /// There was no room in the journal (`JournalFull`) or no memory (`NoMemory`). The write left no entry.
    Stopped(CcError),
}

/// Decides what the write of a page by this pass does next. The room for an entry is asked first.
pub(crate) fn next_step<Q>(
    alloc: Global,
    book: &mut Book,
    journal: &mut Journal<Q>,
    pass: u32,
    file: FileId,
    page: u64,
) -> WriteNext
    requires may { (u : Setup) × MayFill u pass (call.NcWrite file page) book.old journal.old }
    ensures { (u : Setup) → MayFill u pass (call.NcWrite file page) book.old journal.old →
        WriteNextLeft u pass file page result book.old book.new journal.old journal.new }
{
    match journal.reserve(1) {
        Ok(()) => go_on(alloc, book, journal, pass, file, page),
        Err(error) => WriteNext::Stopped(error),
    }
}

// Goes on with a write for whose entry a place is reserved, which is given back where it is not refused.
fn go_on<Q>(
    alloc: Global,
    book: &mut Book,
    journal: &mut Journal<Q>,
    pass: u32,
    file: FileId,
    page: u64,
) -> WriteNext
    requires reserved { 0 < journal.old.reserved }
    requires may { (u : Setup) × MayFill u pass (call.NcWrite file page) book.old (without_one journal.old) }
    ensures { (u : Setup) → MayFill u pass (call.NcWrite file page) book.old (without_one journal.old) →
        WriteNextLeft u pass file page result book.old book.new (without_one journal.old) journal.new }
{
    let call = Call::NcWrite { file, page };
    match book.refusal(alloc, journal, &call) {
        Ok(Some(error)) => {
            let owed = journal.owed_end(pass);
            book.fail(journal, pass, call, error);
            journal.release(owed);
            WriteNext::Refused(error)
        }
        Ok(None) => {
            journal.release(1);
            admitted(alloc, book, journal, pass, file, page)
        }
        Err(NoMemory) => {
            journal.release(1);
            WriteNext::Stopped(CcError::NoMemory)
        }
    }
}

// Goes on with a write that nothing refuses: its page is ready, or room is made for its block.
fn admitted<Q>(
    alloc: Global,
    book: &mut Book,
    journal: &mut Journal<Q>,
    pass: u32,
    file: FileId,
    page: u64,
) -> WriteNext
    requires may { (u : Setup) × MayMakeRoom u pass file page book.old journal.old }
    ensures { (u : Setup) → MayMakeRoom u pass file page book.old journal.old →
        WriteNextLeft u pass file page result book.old book.new journal.old journal.new }
{
    if has_room(book, page) {
        return WriteNext::Ready;
    }
    let call = Call::NcWrite { file, page };
    next_of(make_room(alloc, book, journal, pass, call))
}

// The step that makes room.
fn next_of(made: Result<Way, CcError>) -> WriteNext
    requires { MakesWay made }
    ensures { result ≡ next_of made }
{
    match made {
        Ok(Way::WentOut(_call)) => WriteNext::WentOut,
        Ok(Way::Writes(page, _call)) => WriteNext::Writes(page),
        Ok(Way::Reads(..)) => unreachable!(),
        Err(error) => WriteNext::Stopped(error),
    }
}
