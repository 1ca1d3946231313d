//! The tests of the World on a page: whether it may come in, go out, be written, or be stored.

ghost use Rattle.std.specs.Prelude.{◌≡◌, ℕ, ◌*◌, nat_le, nat_lt, is_some, List, Option};
ghost use Rattle.cc_entry.specs.declared.entry.Entry.{Entry};
ghost use Rattle.cc_book.specs.Book.{BookStands};
ghost use Rattle.cc_model.specs.History.{history};
ghost use Rattle.cc_model.specs.Residency.{mapped_blocks_with};
ghost use Rattle.cc_model.specs.Settings.{quota_of};
ghost use Rattle.cc_model.specs.Touches.{is_dirty, valid_of};
ghost use Rattle.cc_world.specs.Pages.{CanBegin, CanComeIn, CanGoOut, IsLoggedBy, LsnIsReached, newest_later};
ghost use Rattle.cc_world.specs.Uncached.{CanStore};

use cc_book::Book;
use cc_dirty::Row;
use cc_entry::{Bytes, Lsn, PageId};
use cc_journal::Journal;
use cc_log::LogTurn;
use cc_traits::LogFile;

/// Whether a page may come in of whose stream no transfer is open.
pub(crate) fn may_come_in(book: &Book, page: PageId) -> bool
    ensures { CanComeIn book.now page result }
{
    if !book.has_map() {
        return false;
    }
    if book.page(page.page()).is_some() {
        return false;
    }
    if book.size() <= 4096 * page.page() {
        return false;
    }
    has_room(book, page.page())
}

/// Whether a page has a byte below the valid data length.
pub(crate) fn has_valid_byte(book: &Book, page: PageId) -> bool
    ensures { (opening : Option (ℕ → List ℕ)) (past : List Entry) → BookStands opening past book.now →
        result ≡ nat_lt (4096 * page.page) (valid_of (history past book.now.stream)) }
{
    4096 * page.page() < book.valid()
}

/// Whether a page may go out of whose stream no transfer is open.
pub(crate) fn may_go_out<Q>(book: &Book, journal: &Journal<Q>, page: PageId) -> bool
    requires { page.stream ≡ book.now.stream }
    ensures { CanGoOut book.now journal.now.entries page result }
{
    if book.page(page.page()).is_none() {
        return false;
    }
    if book.is_held(page.page()) {
        return false;
    }
    !is_dirty(journal, page)
}

/// Whether the transfer of a page may begin of whose stream none is open: the page is dirty, no pin owes it a stamp, and
/// its log is flushed to its newest LSN.
pub(crate) fn may_begin<L: LogFile, Q>(
    book: &Book,
    logs: &[LogTurn<L>],
    journal: &Journal<Q>,
    page: PageId,
) -> bool
    requires stream { page.stream ≡ book.now.stream }
    requires logs { IsLoggedBy book.now journal.now.entries logs.now }
    ensures { CanBegin book.now journal.now.entries page result }
{
    let Some(row) = journal.dirty().row_of(page) else {
        return false;
    };
    if book.is_unstamped(page.page()) {
        return false;
    }
    is_flushed(book, logs, newest_later(&row))
}

/// Whether these bytes may be stored as a page of whose stream no transfer is open: they are a whole page, no pin owes it a
/// stamp, its view block has room, and its log is flushed to its newest LSN.
pub(crate) fn may_store<L: LogFile, Q>(
    book: &Book,
    logs: &[LogTurn<L>],
    journal: &Journal<Q>,
    page: PageId,
    bytes: &Bytes,
) -> bool
    requires stream { page.stream ≡ book.now.stream }
    requires logs { IsLoggedBy book.now journal.now.entries logs.now }
    ensures { CanStore book.now journal.now.entries page bytes.now result }
{
    if bytes.len() != 4096 {
        return false;
    }
    if book.is_unstamped(page.page()) {
        return false;
    }
    if !has_room(book, page.page()) {
        return false;
    }
    match journal.dirty().row_of(page) {
        Some(row) => is_flushed(book, logs, newest_later(&row)),
        None => true,
    }
}

// Whether the view blocks that are mapped, with that of a page, are within the quota.
fn has_room(book: &Book, page: u64) -> bool
    ensures { (opening : Option (ℕ → List ℕ)) (past : List Entry) → BookStands opening past book.now →
        let h = history past book.now.stream in result ≡ nat_le (mapped_blocks_with h page) (quota_of h) }
{
    let quota = u32::from(book.quota());
    if book.is_block_mapped(page / 64) {
        book.mapped() <= quota
    } else {
        book.mapped() < quota
    }
}

// Whether a page is dirty.
fn is_dirty<Q>(journal: &Journal<Q>, page: PageId) -> bool
    ensures { result ≡ is_dirty (history journal.now.entries page.stream) page.page }
{
    journal.dirty().row_of(page).is_some()
}

// The newest LSN of what was touched of a page since its last transfer began.
fn newest_later(row: &Row) -> Option<Lsn>
    ensures { result ≡ newest_later row.now }
{
    row.later.lsns.map(|lsns| lsns.1)
}

// Whether the log of a stream, where it has one, is flushed to an LSN, where there is one.
fn is_flushed<L: LogFile>(book: &Book, logs: &[LogTurn<L>], newest: Option<Lsn>) -> bool
    requires { (past : List Entry) × IsLoggedBy book.now past logs.now }
    ensures { LsnIsReached book.now logs.now newest result }
{
    let Some(handle) = book.log() else {
        return true;
    };
    let Some(lsn) = newest else {
        return true;
    };
    lsn.number() <= logs[usize::from(handle)].flushed()
}
