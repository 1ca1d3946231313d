//! The writing of a page: its log is flushed, then its transfer begins, goes to the disk, and ends.

ghost use Rattle.std.specs.Prelude.{◌≡◌, ◌<◌, ◌≤◌, true, List};
ghost use Rattle.cc_entry.specs.declared.entry.Entry.{Entry};
ghost use Rattle.cc_effects.specs.Asked.{Work, may_write};
ghost use Rattle.cc_model.specs.Covered.{IsLogged};
ghost use Rattle.cc_model.specs.History.{history};
ghost use Rattle.cc_model.specs.Touches.{is_dirty};
ghost use Rattle.cc_writes.specs.Hands.{Went};
ghost use Rattle.cc_writes.specs.Ways.{IsAtWork, IsFull};
ghost use Rattle.cc_writes.specs.Writes.{HasBoth, IsToWrite, WorkWriteLeft, WriteShown};
ghost use Rattle.cc_writes.specs.Transfers.{OwnTransferIsUnderWay, IsFinished, PutLeft, TransferFinishLeft, transfer_answer};

use crate::log::{LogFlush, flush_log};
use crate::transfers::{begin_at, carry, end_at};
use cc_book::Book;
use cc_entry::{CcError, End, PageId};
use cc_pages::Frame;
use cc_turns::Turns;

/// What became of a page that was to be written.
#[derive(Clone, Copy)]
pub enum PageTransfer {
    Written,
    /// The disk failed.
    NotWritten,
    /// The log of this handle failed, and the page's transfer did not begin.
    NotLogged(u8),
}

/// Writes a dirty page: flushes its log to the page's newest LSN where it was not, begins the transfer, and ends it.
/// The book is given for as long as the disk takes, unless it is to be kept.
///
/// `JournalFull`, `NoMemory`.
pub fn write_page<T: Turns>(
    turns: &mut T,
    disk: &mut T::Disk,
    book: Book,
    page: u64,
    keeps: bool,
) -> (Book, Result<PageTransfer, CcError>)
    requires known { book.stream < (T.standing turns.old).streams }
    requires both { HasBoth T.Disk.told T.Disk.faults (T.standing turns.old) book.stream book disk.old }
    requires none { (T.standing turns.old).in_flight ≡ 0 }
    requires to_write { IsToWrite (record { stream = book.stream; page = page }) (T.standing turns.old).seen }
    ensures both { HasBoth T.Disk.told T.Disk.faults (T.standing turns.new) book.stream result.0 disk.new }
    ensures went { Went (T.standing turns.old) (T.standing turns.new) }
    ensures left { (work : Work) (begun : List Entry) →
        may_write work (record { stream = book.stream; page = page }) (T.standing turns.old).seen ≡ true →
        IsAtWork (T.standing turns.old).number work begun (T.standing turns.old).seen →
        WorkWriteLeft (T.standing turns.old).number work (record { stream = book.stream; page = page }) result.1
        begun (T.standing turns.new).seen }
    ensures shown { WriteShown (T.standing turns.old) (record { stream = book.stream; page = page }) keeps result.1
        (T.standing turns.new).seen }
    ensures full { IsFull 2 (T.standing turns.new) result.1 }
{
    let page = PageId::new(book.stream(), page).unwrap();
    match flush_log(turns, &book, page) {
        Ok(LogFlush::Reached) => put(turns, disk, book, page, keeps),
        Ok(LogFlush::Failed(handle)) => (book, Ok(PageTransfer::NotLogged(handle))),
        Err(error) => (book, Err(error)),
    }
}

// Writes a dirty page whose log is flushed.
fn put<T: Turns>(
    turns: &mut T,
    disk: &mut T::Disk,
    mut book: Book,
    page: PageId,
    keeps: bool,
) -> (Book, Result<PageTransfer, CcError>)
    requires known { page.stream < (T.standing turns.old).streams }
    requires both { HasBoth T.Disk.told T.Disk.faults (T.standing turns.old) page.stream book disk.old }
    requires none { (T.standing turns.old).in_flight ≡ 0 }
    requires dirty { is_dirty (history (T.standing turns.old).seen page.stream) page.page ≡ true }
    requires logged { IsLogged (T.standing turns.old).seen page.stream page.page }
    ensures both { HasBoth T.Disk.told T.Disk.faults (T.standing turns.new) page.stream result.0 disk.new }
    ensures went { Went (T.standing turns.old) (T.standing turns.new) }
    ensures left { PutLeft (T.standing turns.old) page keeps result.1 (T.standing turns.new).seen }
    ensures full { IsFull 2 (T.standing turns.new) result.1 }
{
    match begin_at(turns, &mut book, page) {
        Ok(frame) => finish(turns, disk, book, page, frame, keeps),
        Err(error) => (book, Err(error)),
    }
}

// Carries a page to the disk whose transfer began with these bytes, and ends the transfer.
fn finish<T: Turns>(
    turns: &mut T,
    disk: &mut T::Disk,
    book: Book,
    page: PageId,
    frame: Frame,
    keeps: bool,
) -> (Book, Result<PageTransfer, CcError>)
    requires known { page.stream < (T.standing turns.old).streams }
    requires begun { OwnTransferIsUnderWay T.Disk.told T.Disk.faults (T.standing turns.old) page frame book disk.old }
    requires none { (T.standing turns.old).in_flight ≡ 0 }
    ensures both { HasBoth T.Disk.told T.Disk.faults (T.standing turns.new) page.stream result.0 disk.new }
    ensures went { Went (T.standing turns.old) (T.standing turns.new) }
    ensures left { TransferFinishLeft (T.standing turns.old) page keeps result.1 (T.standing turns.new).seen }
{
    let (book, how) = finish_transfer(turns, disk, book, page, frame.bytes(), keeps);
    (book, answer_of(how))
}

/// Carries these bytes of a page to the disk, with which the pass began the page's transfer, and ends the transfer. Says
/// how it ended. The book is given meanwhile, unless it is to be kept.
pub fn finish_transfer<T: Turns>(
    turns: &mut T,
    disk: &mut T::Disk,
    book: Book,
    page: PageId,
    bytes: &[u8; 4096],
    keeps: bool,
) -> (Book, End)
    requires known { page.stream < (T.standing turns.old).streams }
    requires begun { OwnTransferIsUnderWay T.Disk.told T.Disk.faults (T.standing turns.old) page bytes.now book disk.old }
    requires few { (T.standing turns.old).in_flight ≤ 1 }
    ensures both { HasBoth T.Disk.told T.Disk.faults (T.standing turns.new) page.stream result.0 disk.new }
    ensures went { Went (T.standing turns.old) (T.standing turns.new) }
    ensures left { IsFinished (T.standing turns.old) page result.1 keeps (T.standing turns.new).seen }
{
    let (mut book, how) = carry(turns, disk, book, page, bytes, keeps);
    end_at(turns, &mut book, page, how);
    (book, how)
}

// What the writing of a page answers whose transfer ended so.
fn answer_of(how: End) -> Result<PageTransfer, CcError>
    ensures { result ≡ transfer_answer how }
{
    match how {
        End::Good => Ok(PageTransfer::Written),
        End::Failed => Ok(PageTransfer::NotWritten),
        End::NoMemory => Err(CcError::NoMemory),
    }
}
