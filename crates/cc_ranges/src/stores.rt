//! The store of a page into the cache, and the begin of its transfer.

ghost use Rattle.std.specs.Prelude.{◌≡◌, ◌+◌, nat_le, length};
ghost use Rattle.cc_journal.specs.Journal.{room_of};
ghost use Rattle.cc_model.specs.Covered.{IsLogged};
ghost use Rattle.cc_model.specs.Setup.{Setup};
ghost use Rattle.cc_writes.specs.Hands.{HasBook, IsAtRest, WentWith};
ghost use Rattle.cc_writes.specs.Ways.{IsFull};
ghost use Rattle.cc_ranges.specs.Stores.{IsReadyToStore, IsTightUnkept, MayStoreHere, StoredLeft, StoreLeft, kept_in, places_kept};

use cc_book::Book;
use cc_entry::{Bytes, CcError, FileId, NoMemory, PageId};
use cc_journal::Journal;
use cc_turns::Turns;
use std::alloc::Global;

/// Stores the bytes of a page into the cache, which makes the page resident and dirty, and begins the page's transfer.
/// Places stay reserved for the end of the transfer and for that of the write, and where there is room for one more, a place
/// is kept for the page to go out again. Answers whether one is.
///
/// `JournalFull`, `NoMemory`.
pub(crate) fn store_at<T: Turns>(
    alloc: Global,
    turns: &mut T,
    book: &mut Book,
    file: FileId,
    page: PageId,
    bytes: Bytes,
) -> Result<bool, CcError>
    requires book { HasBook (T.standing turns.old) page.stream book.old }
    requires rest { IsAtRest (T.standing turns.old) page.stream }
    requires none { (T.standing turns.old).in_flight ≡ 0 }
    requires whole { length bytes ≡ 4096 }
    requires ready { IsReadyToStore (T.standing turns.old).setup (T.standing turns.old).seen file page }
    requires logged { IsLogged (T.standing turns.old).seen page.stream page.page }
    ensures book { HasBook (T.standing turns.new) page.stream book.new }
    ensures went { WentWith (kept_in result) (T.standing turns.old) (T.standing turns.new) }
    ensures left { StoreLeft (T.standing turns.old) file page bytes result (T.standing turns.new).seen }
    ensures full { IsFull 4 (T.standing turns.new) result }
    ensures tight { IsTightUnkept (T.standing turns.old) (T.standing turns.new).most_others file page result
        (T.standing turns.new).seen }
{
    // The stream's number is what says that the journal counts what the stream owes.
    let _stream = page.stream().number();
    let mut journal = turns.take_journal();
    let pass = turns.me();
    let stored = store(alloc, book, &mut journal, pass, file, page, bytes);
    turns.give_journal(journal);
    stored
}

// Stores a page that is ready, where the journal has room for the store, the begin, and the ends of both. A place is kept
// for the page to go out where there is room for it too: it is taken here, since once the page is stored nothing may be
// refused for want of memory. The place of the end of another write that the pass owed is given back.
fn store<Q>(
    alloc: Global,
    book: &mut Book,
    journal: &mut Journal<Q>,
    pass: u32,
    file: FileId,
    page: PageId,
    bytes: Bytes,
) -> Result<bool, CcError>
    requires stream { page.stream ≡ book.old.stream }
    requires may { (u : Setup) × MayStoreHere u pass file page bytes book.old journal.old }
    ensures stored { (u : Setup) → MayStoreHere u pass file page bytes book.old journal.old →
        StoredLeft u pass file page bytes result book.new journal.old journal.new }
    ensures stream { book.new.stream ≡ book.old.stream }
{
    let owed = journal.owed_end(pass);
    let kept = has_room(journal);
    let places = places_of(kept);
    match journal.reserve(places) {
        Ok(()) => match book.store(alloc, journal, pass, file, page, bytes) {
            Ok(()) => {
                journal.release(owed);
                Ok(kept)
            }
            Err(NoMemory) => {
                journal.release(places);
                Err(CcError::NoMemory)
            }
        },
        Err(error) => Err(error),
    }
}

// Whether the journal has room for the four entries of a store and one more.
fn has_room<Q>(journal: &Journal<Q>) -> bool
    ensures { result ≡ nat_le 5 (room_of journal.now) }
{
    journal.room() >= 5
}

// How many places a store reserves that keeps one for its page to go out, or none.
fn places_of(kept: bool) -> u64
    ensures { result ≡ 4 + places_kept kept }
{
    if kept { 5 } else { 4 }
}
