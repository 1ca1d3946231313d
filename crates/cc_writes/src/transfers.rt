//! The transfer of a page: its begin, the transfer itself, and its end.

ghost use Rattle.std.specs.Prelude.{◌≡◌, ◌<◌, ◌≤◌, true, None, Some};
ghost use Rattle.cc_entry.specs.declared.entry.Entry.TheVariants as entry;
ghost use Rattle.cc_book.specs.Book.{MayPlaceOnBook};
ghost use Rattle.cc_model.specs.Covered.{IsLogged};
ghost use Rattle.cc_model.specs.History.{history};
ghost use Rattle.cc_model.specs.Images.{open_of};
ghost use Rattle.cc_model.specs.Touches.{is_dirty};
ghost use Rattle.cc_writes.specs.Hands.{HasBook, IsAtRest, Went};
ghost use Rattle.cc_writes.specs.Visits.{HasPlaced};
ghost use Rattle.cc_writes.specs.Ways.{IsFull};
ghost use Rattle.cc_writes.specs.Transfers.{BeginLeft, BegunLeft, GrowsBeside, IsCarried};

use cc_book::Book;
use cc_entry::{CcError, End, NoMemory, PageId};
use cc_journal::Journal;
use cc_pages::Frame;
use cc_turns::{Turns, transfer};

/// The transfer of a dirty page begins whose log is flushed, with a snapshot of the page. A place stays reserved for
/// its end.
///
/// `JournalFull`, `NoMemory`.
pub(crate) fn begin_at<T: Turns>(
    turns: &mut T,
    book: &mut Book,
    page: PageId,
) -> Result<Frame, CcError>
    requires book { HasBook (T.standing turns.old) page.stream book.old }
    requires rest { IsAtRest (T.standing turns.old) page.stream }
    requires none { (T.standing turns.old).in_flight ≡ 0 }
    requires dirty { is_dirty (history (T.standing turns.old).seen page.stream) page.page ≡ true }
    requires logged { IsLogged (T.standing turns.old).seen page.stream page.page }
    ensures book { HasBook (T.standing turns.new) page.stream book.new }
    ensures went { Went (T.standing turns.old) (T.standing turns.new) }
    ensures left { BeginLeft (T.standing turns.old) page result (T.standing turns.new).seen }
    ensures full { IsFull 2 (T.standing turns.new) result }
{
    // The stream's number is what says that the journal counts what the stream owes.
    let _stream = page.stream().number();
    let mut journal = turns.take_journal();
    let pass = turns.me();
    let begun = begin(book, &mut journal, pass, page);
    turns.give_journal(journal);
    begun
}

// The transfer of a page begins, where the journal has room for its begin and for its end.
fn begin<Q>(
    book: &mut Book,
    journal: &mut Journal<Q>,
    pass: u32,
    page: PageId,
) -> Result<Frame, CcError>
    requires stream { page.stream ≡ book.old.stream }
    requires may { MayPlaceOnBook journal.old.entries (entry.WriteBegin pass page) book.old }
    ensures { BegunLeft pass page result book.old book.new journal.old journal.new }
{
    match journal.reserve(2) {
        Ok(()) => match book.begin(journal, pass, page) {
            Ok(frame) => Ok(frame),
            Err(NoMemory) => {
                journal.release(2);
                Err(CcError::NoMemory)
            }
        },
        Err(error) => Err(error),
    }
}

/// Carries the bytes of a page to the disk whose transfer began with them, and says how that ended. The book is given
/// meanwhile, unless it is to be kept.
pub(crate) fn carry<T: Turns>(
    turns: &mut T,
    disk: &mut T::Disk,
    book: Book,
    page: PageId,
    bytes: &[u8; 4096],
    keeps: bool,
) -> (Book, End)
    requires known { page.stream < (T.standing turns.old).streams }
    requires book { HasBook (T.standing turns.old) page.stream book }
    requires device { (T.standing turns.old).held.device ≡ Some page.stream }
    ensures book { HasBook (T.standing turns.new) page.stream result.0 }
    ensures went { Went (T.standing turns.old) (T.standing turns.new) }
    ensures grows { GrowsBeside (T.standing turns.old) page.stream keeps (T.standing turns.new).seen }
    ensures carried { IsCarried T.Disk.told T.Disk.faults page bytes.now result.1 disk.old disk.new }
{
    if keeps {
        let how = transfer(disk, page.page(), bytes);
        return (book, how);
    }
    let stream = page.stream();
    turns.give_book(stream, book);
    let ended = transfer(disk, page.page(), bytes);
    (turns.take_book(stream), ended)
}

/// Ends the transfer of a page that the pass began.
pub(crate) fn end_at<T: Turns>(turns: &mut T, book: &mut Book, page: PageId, how: End)
    requires book { HasBook (T.standing turns.old) page.stream book.old }
    requires device { (T.standing turns.old).held.device ≡ Some page.stream }
    requires few { (T.standing turns.old).in_flight ≤ 1 }
    requires begun { open_of (history (T.standing turns.old).seen page.stream)
        ≡ Some (record { pass = (T.standing turns.old).number; page = page.page }) }
    ensures book { HasBook (T.standing turns.new) page.stream book.new }
    ensures went { Went (T.standing turns.old) (T.standing turns.new) }
    ensures placed { HasPlaced (T.standing turns.old) (entry.WriteEnd (T.standing turns.old).number page how)
        (T.standing turns.new).seen }
{
    // The stream's number is what says that the journal counts what the stream owes.
    let _stream = page.stream().number();
    let mut journal = turns.take_journal();
    let pass = turns.me();
    book.end(&mut journal, pass, page, how);
    turns.give_journal(journal);
}
