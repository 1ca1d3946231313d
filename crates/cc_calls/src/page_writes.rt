//! The writing of one page for no call: one that the lazy writer picked, or that is named.

ghost use Rattle.std.specs.Prelude.{◌≡◌, ℕ, ◌<◌, not, List, Option};
ghost use Rattle.cc_book.specs.Book.{BookStands};
ghost use Rattle.cc_effects.specs.Moments.{IsIdle};
ghost use Rattle.cc_effects.specs.PageWrites.{is_passed_over};
ghost use Rattle.cc_model.specs.Good.{IsGood};
ghost use Rattle.cc_writes.specs.Hands.{HasBook, IsAtRest, SameDisk, Went};
ghost use Rattle.cc_writes.specs.Writes.{HasBoth};
ghost use Rattle.cc_calls.specs.Answers.{CanCall};
ghost use Rattle.cc_calls.specs.Pages.{WentOn};
ghost use Rattle.cc_calls.specs.PageWrites.{IsFullPage, IsWrittenAmong, WriteOneEnds, page_write_answer};

use cc_book::Book;
use cc_entry::{CcError, PageId};
use cc_journal::{Journal, oldest_unwritten};
use cc_turns::Turns;
use cc_writes::write_page;

/// What became of a page that was to be written.
#[derive(Clone, Copy)]
pub enum PageWriteAnswer {
    Written,
    /// The page was clean, or a pin owes it a stamp, so that it is not written as it stands.
    Skipped,
    /// The disk failed, or the log that was to be flushed before.
    Failed,
}

/// Writes one page of a stream, its log first, where it is dirty and no pin owes it a stamp. It is no Cc routine: the
/// lazy writer writes each page that it picked so. Nothing is synced, and no call's entry is left.
///
/// `JournalFull`, `NoMemory`.
pub fn write_one<T: Turns>(turns: &mut T, page: PageId) -> Result<PageWriteAnswer, CcError>
    requires can { CanCall (T.standing turns.old) page.stream }
    ensures ends { WriteOneEnds (T.standing turns.old) (T.standing turns.new) page result }
{
    write_picked(turns, page)
}

/// The same of one of the pages that are to be written.
pub(crate) fn write_picked<T: Turns>(
    turns: &mut T,
    page: PageId,
) -> Result<PageWriteAnswer, CcError>
    requires can { CanCall (T.standing turns.old) page.stream }
    ensures left { IsWrittenAmong (T.standing turns.old).number page result (T.standing turns.old).seen (T.standing turns.new).seen }
    ensures full { IsFullPage page (T.standing turns.new) result }
    ensures goes_on { WentOn (T.standing turns.old) (T.standing turns.new) }
    ensures good { IsGood (T.standing turns.old).setup (T.standing turns.new).seen }
{
    let stream = page.stream();
    let mut disk = turns.take_device(stream);
    let book = turns.take_book(stream);
    let (book, answer) = write_held(turns, &mut disk, book, page);
    turns.give_book(stream, book);
    turns.give_device(stream, disk);
    answer
}

// The same with the disk and the book of the page's stream in hand. The book is given for as long as the disk takes.
fn write_held<T: Turns>(
    turns: &mut T,
    disk: &mut T::Disk,
    book: Book,
    page: PageId,
) -> (Book, Result<PageWriteAnswer, CcError>)
    requires known { page.stream < (T.standing turns.old).streams }
    requires both { HasBoth T.Disk.told T.Disk.faults (T.standing turns.old) page.stream book disk.old }
    requires none { (T.standing turns.old).in_flight ≡ 0 }
    ensures both { HasBoth T.Disk.told T.Disk.faults (T.standing turns.new) page.stream result.0 disk.new }
    ensures went { Went (T.standing turns.old) (T.standing turns.new) }
    ensures left { IsWrittenAmong (T.standing turns.old).number page result.1 (T.standing turns.old).seen (T.standing turns.new).seen }
    ensures full { IsFullPage page (T.standing turns.new) result.1 }
{
    if is_to_write_at(turns, &book, page) {
        let (book, written) = write_page(turns, disk, book, page.page(), false);
        (book, answer_of(written))
    } else {
        (book, Ok(PageWriteAnswer::Skipped))
    }
}

// Whether a page is to be written. The turn of the journal is taken for that.
fn is_to_write_at<T: Turns>(turns: &mut T, book: &Book, page: PageId) -> bool
    requires book { HasBook (T.standing turns.old) page.stream book.now }
    requires rest { IsAtRest (T.standing turns.old) page.stream }
    requires none { (T.standing turns.old).in_flight ≡ 0 }
    ensures book { HasBook (T.standing turns.new) page.stream book.now }
    ensures rest { IsAtRest (T.standing turns.new) page.stream }
    ensures went { Went (T.standing turns.old) (T.standing turns.new) }
    ensures disk { SameDisk (T.standing turns.old).seen (T.standing turns.new).seen page.stream }
    ensures idle { IsIdle (T.standing turns.old).number (T.standing turns.old).seen (T.standing turns.new).seen }
    ensures found { is_passed_over page (T.standing turns.new).seen ≡ not result }
{
    let journal = turns.take_journal();
    let found = is_to_write(book, &journal, page);
    turns.give_journal(journal);
    found
}

// Whether a page is dirty, and no pin owes it a stamp. The stream of a dirty page has a map.
fn is_to_write<Q>(book: &Book, journal: &Journal<Q>, page: PageId) -> bool
    requires stream { book.now.stream ≡ page.stream }
    ensures { (opening : Option (ℕ → List ℕ)) → BookStands opening journal.now.entries book.now →
        is_passed_over page journal.now.entries ≡ not result }
{
    oldest_unwritten(journal, page).is_some() && !book.is_unstamped(page.page())
}

// What is answered of a page whose writing ended so.
fn answer_of(written: Result<cc_writes::PageTransfer, CcError>) -> Result<PageWriteAnswer, CcError>
    ensures { result ≡ page_write_answer written }
{
    match written {
        Ok(cc_writes::PageTransfer::Written) => Ok(PageWriteAnswer::Written),
        Ok(cc_writes::PageTransfer::NotWritten) => Ok(PageWriteAnswer::Failed),
        Ok(cc_writes::PageTransfer::NotLogged(_)) => Ok(PageWriteAnswer::Failed),
        Err(error) => Err(error),
    }
}
