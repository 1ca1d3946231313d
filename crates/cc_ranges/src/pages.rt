//! The writing of one page of a noncached write that is ready to be stored.

ghost use Rattle.std.specs.Prelude.{◌≡◌, ◌<◌, true, length, List, OnOk};
ghost use Rattle.cc_entry.specs.declared.call.Call.TheVariants as call;
ghost use Rattle.cc_entry.specs.declared.entry.Entry.{Entry};
ghost use Rattle.cc_effects.specs.Asked.{Calls};
ghost use Rattle.cc_model.specs.Covered.{IsLogged};
ghost use Rattle.cc_model.specs.Passes.{is_the_page, store_of};
ghost use Rattle.cc_writes.specs.Hands.{Went, WentWith};
ghost use Rattle.cc_writes.specs.Ways.{IsAtWork};
ghost use Rattle.cc_writes.specs.Transfers.{OwnTransferIsUnderWay};
ghost use Rattle.cc_writes.specs.Writes.{HasBoth};
ghost use Rattle.cc_ranges.specs.Pages.{FinishedLeft, ReadyWriteLeft};
ghost use Rattle.cc_ranges.specs.Ends.{HasEndedTidy, IsTidyEnd};
ghost use Rattle.cc_ranges.specs.Stores.{IsFullStoring, IsReadyToStore, places_kept};

use crate::ends::{fail_at, finish_at, forgo_at};
use crate::stores::store_at;
use cc_book::Book;
use cc_content::cleared;
use cc_entry::{Bytes, CcError, End, FileId, PageId};
use cc_turns::Turns;
use cc_writes::finish_transfer;
use std::alloc::Global;

/// Stores a page that is ready, puts it on the disk with the book free for as long as that takes, and ends the write.
/// Answers how many bytes the store changed, which is cut at the size.
///
/// `WriteFault` (of the page), `JournalFull`, `NoMemory`. Where the transfer failed or found no memory the store stands.
pub(crate) fn put_page<T: Turns>(
    alloc: Global,
    turns: &mut T,
    disk: &mut T::Disk,
    mut book: Book,
    file: FileId,
    page: PageId,
    bytes: &[u8; 4096],
) -> (Book, Result<usize, CcError>)
    requires known { page.stream < (T.standing turns.old).streams }
    requires both { HasBoth T.Disk.told T.Disk.faults (T.standing turns.old) page.stream book disk.old }
    requires none { (T.standing turns.old).in_flight ≡ 0 }
    requires ready { IsReadyToStore (T.standing turns.old).setup (T.standing turns.old).seen file page }
    requires logged { IsLogged (T.standing turns.old).seen page.stream page.page }
    ensures both { HasBoth T.Disk.told T.Disk.faults (T.standing turns.new) page.stream result.0 disk.new }
    ensures went { Went (T.standing turns.old) (T.standing turns.new) }
    ensures left { (begun : List Entry) →
        IsAtWork (T.standing turns.old).number (Calls (call.NcStore file page.page bytes.now)) begun (T.standing turns.old).seen →
        ReadyWriteLeft (T.standing turns.old) file page.page bytes.now result.1 begun (T.standing turns.new).seen }
    ensures full { IsFullStoring file page (T.standing turns.new) result.1 }
    ensures tidy { OnOk result.1 (IsTidyEnd (T.standing turns.old).setup (T.standing turns.old).most_others
        (T.standing turns.old).number file page (T.standing turns.old).seen (T.standing turns.new).seen) }
{
    let end = book.size() - 4096 * page.page();
    match Bytes::of(alloc, bytes) {
        Ok(stored) => match store_at(alloc, turns, &mut book, file, page, stored) {
            Ok(kept) => {
                let whole = cleared(bytes, end);
                note_whole(&whole);
                finish_page(
                    alloc,
                    turns,
                    disk,
                    book,
                    file,
                    page,
                    &whole,
                    end.min(4096) as usize,
                    kept,
                )
            }
            Err(error) => (book, Err(error)),
        },
        Err(_) => (book, Err(CcError::NoMemory)),
    }
}

// Puts a page on the disk that the pass stored, and whose transfer it began with these bytes, and ends the write of so
// many bytes. A place may be kept for the page to go out.
fn finish_page<T: Turns>(
    alloc: Global,
    turns: &mut T,
    disk: &mut T::Disk,
    book: Book,
    file: FileId,
    page: PageId,
    bytes: &[u8; 4096],
    count: usize,
    kept: bool,
) -> (Book, Result<usize, CcError>)
    requires known { page.stream < (T.standing turns.old).streams }
    requires begun { OwnTransferIsUnderWay T.Disk.told T.Disk.faults (T.standing turns.old) page bytes.now book disk.old }
    requires kept { (T.standing turns.old).in_flight ≡ places_kept kept }
    requires here { file.stream ≡ page.stream }
    requires stored { is_the_page page (store_of (T.standing turns.old).seen (T.standing turns.old).number) ≡ true }
    ensures both { HasBoth T.Disk.told T.Disk.faults (T.standing turns.new) page.stream result.0 disk.new }
    ensures went { WentWith 0 (T.standing turns.old) (T.standing turns.new) }
    ensures left { FinishedLeft (T.standing turns.old) file page count result.1 (T.standing turns.new).seen }
    ensures tidy { OnOk result.1 (HasEndedTidy (T.standing turns.old) file page kept (T.standing turns.new).seen) }
{
    let (mut book, how) = finish_transfer(turns, disk, book, page, bytes, false);
    match how {
        End::Good => {
            finish_at(alloc, turns, &mut book, file, page, kept);
            (book, Ok(count))
        }
        End::Failed => {
            fail_at(turns, &mut book, file, page, kept);
            (book, Err(CcError::WriteFault { page: page.page() }))
        }
        End::NoMemory => {
            forgo_at(turns, &book, page, kept);
            (book, Err(CcError::NoMemory))
        }
    }
}

// Notes that a page has 4096 bytes.
fn note_whole(page: &[u8; 4096])
    ensures { length page.now ≡ 4096 }
{
    let _page = page;
}
