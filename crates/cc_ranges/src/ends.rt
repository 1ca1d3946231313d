//! The end of a noncached write: its page goes out again where it may, and its entry is placed.

ghost use Rattle.std.specs.Prelude.{◌≡◌, ◌-◌, ◌<◌, ◌≤◌, true, false};
ghost use Rattle.cc_effects.specs.Moments.{IsIdle};
ghost use Rattle.cc_model.specs.Conditions.{MayFinish};
ghost use Rattle.cc_model.specs.History.{history};
ghost use Rattle.cc_model.specs.Setup.{Setup};
ghost use Rattle.cc_step.specs.Step.{StandUnder};
ghost use Rattle.cc_writes.specs.Hands.{HasBook, IsAtRest, SameDisk, Went, WentWith};
ghost use Rattle.cc_ranges.specs.Stores.{places_kept};
ghost use Rattle.cc_ranges.specs.Ends.{MayFinishHere, IsTidied, WriteIsEnded, IsIdlePage, HasTidied, HasEndedWrite, HasFinished};
ghost use Rattle.cc_ranges.specs.Ends.{HasFailedSince, HasFailedWrite, PageOutPlaceLeft};

use crate::dirty_page::is_dirty;
use cc_book::Book;
use cc_entry::{Call, CcError, FileId, PageId, Reply};
use cc_journal::Journal;
use cc_turns::Turns;
use std::alloc::Global;

/// Ends a noncached write whose page is on the disk: the page goes out where it is resident and clean, no hold has it,
/// and a place was kept for that or the journal has room, and then the write is done. Each is an event of its own, with the
/// book kept between them.
pub(crate) fn finish_at<T: Turns>(
    alloc: Global,
    turns: &mut T,
    book: &mut Book,
    file: FileId,
    page: PageId,
    kept: bool,
)
    requires book { HasBook (T.standing turns.old) page.stream book.old }
    requires rest { IsAtRest (T.standing turns.old) page.stream }
    requires kept { (T.standing turns.old).in_flight ≡ places_kept kept }
    requires here { file.stream ≡ page.stream }
    requires finishes { MayFinish (T.standing turns.old).seen (T.standing turns.old).number page.stream page.page }
    ensures book { HasBook (T.standing turns.new) page.stream book.new }
    ensures rest { IsAtRest (T.standing turns.new) page.stream }
    ensures went { WentWith 0 (T.standing turns.old) (T.standing turns.new) }
    ensures left { HasFinished (T.standing turns.old) file page (T.standing turns.new).seen }
{
    tidy_at(turns, book, file, page, kept);
    done_at(alloc, turns, book, file, page);
}

// Takes the page out where it may go. The place that was kept for that is used, or given back.
fn tidy_at<T: Turns>(turns: &mut T, book: &mut Book, file: FileId, page: PageId, kept: bool)
    requires book { HasBook (T.standing turns.old) page.stream book.old }
    requires rest { IsAtRest (T.standing turns.old) page.stream }
    requires kept { (T.standing turns.old).in_flight ≡ places_kept kept }
    requires here { file.stream ≡ page.stream }
    requires finishes { MayFinish (T.standing turns.old).seen (T.standing turns.old).number page.stream page.page }
    ensures book { HasBook (T.standing turns.new) page.stream book.new }
    ensures rest { IsAtRest (T.standing turns.new) page.stream }
    ensures went { WentWith 0 (T.standing turns.old) (T.standing turns.new) }
    ensures finishes { MayFinish (T.standing turns.new).seen (T.standing turns.new).number page.stream page.page }
    ensures left { HasTidied (T.standing turns.old) page (T.standing turns.new).seen }
{
    // The stream's number is what says that the journal counts what the stream owes.
    let _stream = page.stream().number();
    let mut journal = turns.take_journal();
    let pass = turns.me();
    tidy(book, &mut journal, pass, file, page, kept);
    turns.give_journal(journal);
}

// Places the entry of the write. Its place is reserved.
fn done_at<T: Turns>(alloc: Global, turns: &mut T, book: &mut Book, file: FileId, page: PageId)
    requires book { HasBook (T.standing turns.old) page.stream book.old }
    requires rest { IsAtRest (T.standing turns.old) page.stream }
    requires none { (T.standing turns.old).in_flight ≡ 0 }
    requires here { file.stream ≡ page.stream }
    requires finishes { MayFinish (T.standing turns.old).seen (T.standing turns.old).number page.stream page.page }
    ensures book { HasBook (T.standing turns.new) page.stream book.new }
    ensures rest { IsAtRest (T.standing turns.new) page.stream }
    ensures went { Went (T.standing turns.old) (T.standing turns.new) }
    ensures left { HasEndedWrite (T.standing turns.old) file page (T.standing turns.new).seen }
{
    // The stream's number is what says that the journal counts what the stream owes.
    let _stream = page.stream().number();
    let mut journal = turns.take_journal();
    let pass = turns.me();
    end(alloc, book, &mut journal, pass, file, page);
    turns.give_journal(journal);
}

/// Ends a noncached write whose transfer failed. Its place is reserved. The place that was kept for the page to go out is
/// given back.
pub(crate) fn fail_at<T: Turns>(
    turns: &mut T,
    book: &mut Book,
    file: FileId,
    page: PageId,
    kept: bool,
)
    requires book { HasBook (T.standing turns.old) page.stream book.old }
    requires rest { IsAtRest (T.standing turns.old) page.stream }
    requires kept { (T.standing turns.old).in_flight ≡ places_kept kept }
    requires here { file.stream ≡ page.stream }
    requires fails { HasFailedSince (T.standing turns.old).seen (T.standing turns.old).number page }
    ensures book { HasBook (T.standing turns.new) page.stream book.new }
    ensures rest { IsAtRest (T.standing turns.new) page.stream }
    ensures went { WentWith 0 (T.standing turns.old) (T.standing turns.new) }
    ensures left { HasFailedWrite (T.standing turns.old) file page (T.standing turns.new).seen }
{
    // The stream's number is what says that the journal counts what the stream owes.
    let _stream = page.stream().number();
    let mut journal = turns.take_journal();
    let pass = turns.me();
    let call = Call::NcWrite {
        file,
        page: page.page(),
    };
    book.fail(
        &mut journal,
        pass,
        call,
        CcError::WriteFault { page: page.page() },
    );
    give_back(&mut journal, kept);
    turns.give_journal(journal);
}

/// A transfer found no memory: the place is given back that was kept for the page to go out.
pub(crate) fn forgo_at<T: Turns>(turns: &mut T, book: &Book, page: PageId, kept: bool)
    requires book { HasBook (T.standing turns.old) page.stream book.now }
    requires rest { IsAtRest (T.standing turns.old) page.stream }
    requires kept { (T.standing turns.old).in_flight ≡ places_kept kept }
    ensures book { HasBook (T.standing turns.new) page.stream book.now }
    ensures rest { IsAtRest (T.standing turns.new) page.stream }
    ensures went { WentWith 0 (T.standing turns.old) (T.standing turns.new) }
    ensures disk { SameDisk (T.standing turns.old).seen (T.standing turns.new).seen page.stream }
    ensures idle { IsIdle (T.standing turns.old).number (T.standing turns.old).seen (T.standing turns.new).seen }
{
    let _book = book;
    let mut journal = turns.take_journal();
    give_back(&mut journal, kept);
    turns.give_journal(journal);
}

// Places the entry of the write.
fn end<Q>(
    alloc: Global,
    book: &mut Book,
    journal: &mut Journal<Q>,
    pass: u32,
    file: FileId,
    page: PageId,
)
    requires stream { page.stream ≡ book.old.stream }
    requires may { (u : Setup) × MayFinishHere u pass file page book.old journal.old }
    ensures ended { (u : Setup) → MayFinishHere u pass file page book.old journal.old →
        WriteIsEnded u pass file page book.new journal.old journal.new }
    ensures stream { book.new.stream ≡ book.old.stream }
{
    let call = Call::NcWrite {
        file,
        page: page.page(),
    };
    match book.done(alloc, journal, pass, call, Reply::Unit) {
        Ok(()) => (),
        Err(_) => unreachable!(),
    }
}

// Takes the page out where it may go and there is a place.
fn tidy<Q>(
    book: &mut Book,
    journal: &mut Journal<Q>,
    pass: u32,
    file: FileId,
    page: PageId,
    kept: bool,
)
    requires stream { page.stream ≡ book.old.stream }
    requires may { (u : Setup) × MayFinishHere u pass file page book.old journal.old }
    requires spare { places_kept kept < journal.old.reserved }
    ensures tidied { (u : Setup) → MayFinishHere u pass file page book.old journal.old →
        IsTidied u pass file page kept book.new journal.old journal.new }
    ensures stream { book.new.stream ≡ book.old.stream }
{
    let _file = file;
    if may_go(book, journal, page) {
        if has_place(journal, kept) {
            book.take_out(journal, pass, page);
        }
    } else {
        give_back(journal, kept);
    }
}

// Whether there is a place for a page to go out: the one that was kept, or one that is reserved now.
fn has_place<Q>(journal: &mut Journal<Q>, kept: bool) -> bool
    ensures { PageOutPlaceLeft kept result journal.old journal.new }
{
    if kept {
        return true;
    }
    match journal.reserve(1) {
        Ok(()) => true,
        Err(_) => false,
    }
}

// Gives the place back, where one was kept.
fn give_back<Q>(journal: &mut Journal<Q>, kept: bool)
    requires { places_kept kept ≤ journal.old.reserved }
    ensures { journal.new ≡ record journal.old { reserved = journal.old.reserved - places_kept kept } }
{
    if kept {
        journal.release(1);
    }
}

// Whether a page is resident and clean, and no hold has it.
fn may_go<Q>(book: &Book, journal: &Journal<Q>, page: PageId) -> bool
    ensures goes { result ≡ true → (u : Setup) → StandUnder u book.now journal.now → page.stream ≡ book.now.stream →
        IsIdlePage (history journal.now.entries page.stream) page.page }
    ensures stays { result ≡ false → (u : Setup) → StandUnder u book.now journal.now → page.stream ≡ book.now.stream →
        IsIdlePage (history journal.now.entries page.stream) page.page → ⊥ }
{
    let number = page.page();
    if book.is_held(number) {
        return false;
    }
    match book.page(number) {
        Some(_) => !is_dirty(journal, page.stream(), number),
        None => false,
    }
}
