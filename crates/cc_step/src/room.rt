//! Room for the block of a page, and the block to give up to make it.

ghost use Rattle.std.specs.Prelude.{◌≡◌, ℕ, ◌*◌, ◌<◌, ◌^◌, nat_lt, true, List, Option, Some, IfOk};
ghost use Rattle.cc_entry.specs.Place.{Range};
ghost use Rattle.cc_entry.specs.Queries.{extent_of_query};
ghost use Rattle.cc_entry.specs.declared.entry.Entry.{Entry};
ghost use Rattle.cc_book.specs.Book.{BookStands};
ghost use Rattle.cc_effects.specs.Asked.{makes_room};
ghost use Rattle.cc_model.specs.History.{history};
ghost use Rattle.cc_model.specs.Ranges.{range_of, cut_range, queried_range};
ghost use Rattle.cc_model.specs.Setup.{Setup};
ghost use Rattle.cc_model.specs.Sizes.{stored_range};
ghost use Rattle.cc_model.specs.Touches.{size_of, valid_of};
ghost use Rattle.cc_step.specs.Step.{is_answered};
ghost use Rattle.cc_step.specs.Fill.{book_page};
ghost use Rattle.cc_step.specs.Room.{has_room, IsWaiting, IsCrowded, IsToGo, IsDirtyIn, IsLeastIn};

use cc_book::Book;
use cc_entry::{Call, NoMemory, PageId, Query, Span};
use cc_journal::Journal;
use std::alloc::Global;

/// A page of a book's stream.
pub(crate) fn page_id(book: &Book, page: u64) -> PageId
    requires { page < 2 ^ 51 }
    ensures { result ≡ book_page book.now page }
{
    PageId::new(book.stream(), page).unwrap()
}

/// Whether a page has a byte below the valid data length.
pub(crate) fn has_valid_byte(book: &Book, page: u64) -> bool
    ensures { (opening : Option (ℕ → List ℕ)) (past : List Entry) → BookStands opening past book.now →
        result ≡ nat_lt (4096 * page) (valid_of (history past book.now.stream)) }
{
    page < book.valid().div_ceil(4096)
}

/// Whether the block of a page is mapped, or fewer blocks than the quota are.
pub fn has_room(book: &Book, page: u64) -> bool
    ensures { (opening : Option (ℕ → List ℕ)) (past : List Entry) → BookStands opening past book.now →
        result ≡ has_room (history past book.now.stream) page }
{
    book.is_block_mapped(page / 64) || book.mapped() < u32::from(book.quota())
}

/// The block to give up for a call that waits for a page for whose block there is no room.
pub(crate) fn block_to_go(alloc: Global, book: &Book, call: &Call) -> Result<u64, NoMemory>
    requires answered { is_answered call.now ≡ true }
    requires room { makes_room call.now ≡ true }
    requires crowded { (u : Setup) × (past : List Entry) × (page : ℕ) × IsCrowded u past call.now page book.now }
    ensures { IfOk result (λ block. (u : Setup) (past : List Entry) (page : ℕ) →
        IsCrowded u past call.now page book.now →
        IsToGo (history past book.now.stream) (range_of (size_of (history past book.now.stream)) call.now) block) }
{
    let span = span_of(book, call).unwrap();
    let block = book.block_to_go(alloc, span)?;
    Ok(block.unwrap())
}

// The range of a call that waits for a page.
fn span_of(book: &Book, call: &Call) -> Option<Span>
    requires answered { is_answered call.now ≡ true }
    requires room { makes_room call.now ≡ true }
    ensures { (u : Setup) (opening : Option (ℕ → List ℕ)) (past : List Entry) (page : ℕ) →
        BookStands opening past book.now → IsWaiting u past book.now.stream call.now page →
        result ≡ range_of (size_of (history past book.now.stream)) call.now }
{
    match call {
        Call::CopyWrite { at, bytes, .. } => span_below(book, *at, bytes.len()),
        Call::Zero { span, .. } => Some(*span),
        Call::CopyRead { at, len, .. } => span_below(book, *at, *len),
        Call::Map { at, len, .. } => span_below(book, *at, *len),
        Call::PinRead { at, len, .. } => span_below(book, *at, *len),
        Call::PreparePin { at, len, .. } => span_below(book, *at, *len),
        Call::MdlRead { at, len, .. } => span_below(book, *at, *len),
        Call::MdlWrite { at, len, .. } => span_below(book, *at, *len),
        Call::NcWrite { page, .. } => stored_span(book, *page),
        Call::AheadStep { request } => span_below(book, request.at, request.len),
        Call::Query(query) => span_for(book, query),
        _ => None,
    }
}

// The bytes whose pages a query needs, as far as the size, where there are any.
fn span_for(book: &Book, query: &Query) -> Option<Span>
    ensures { (opening : Option (ℕ → List ℕ)) (past : List Entry) (r : Range) → BookStands opening past book.now →
        queried_range (size_of (history past book.now.stream)) (extent_of_query query.now) ≡ Some r → r.from < r.to →
        result ≡ Some r }
{
    let (at, len) = query.extent()?;
    span_below(book, at, len)
}

// The bytes of a page as far as the size, where it has any.
fn stored_span(book: &Book, page: u64) -> Option<Span>
    ensures { (opening : Option (ℕ → List ℕ)) (past : List Entry) → BookStands opening past book.now →
        let size = size_of (history past book.now.stream) in
        4096 * page < size → result ≡ Some (stored_range page size) }
{
    if page < book.size().div_ceil(4096) {
        return span_below(book, 4096 * page, 4096);
    }
    None
}

// So many bytes from a place on, as far as the size, where there is one.
fn span_below(book: &Book, at: u64, len: u64) -> Option<Span>
    ensures { (opening : Option (ℕ → List ℕ)) (past : List Entry) → BookStands opening past book.now →
        let r = cut_range (size_of (history past book.now.stream)) at len in r.from < r.to → result ≡ Some r }
{
    let end = u128::from(at) + u128::from(len);
    Span::new(at, end.min(u128::from(book.size())) as u64)
}

/// The least dirty page of a block, where there is one.
pub(crate) fn dirty_in<Q>(book: &Book, journal: &Journal<Q>, block: u64) -> Option<u64>
    requires { block < 2 ^ 45 }
    ensures { IsDirtyIn (history journal.now.entries book.now.stream) block result }
{
    let first = 64 * block;
    match journal
        .dirty()
        .first_between(book.stream(), first, first + 64)
    {
        Some(row) => Some(row.page.page()),
        None => None,
    }
}

/// The least resident page of a block.
pub(crate) fn least_in(book: &Book, block: u64) -> Option<u64>
    requires { block < 2 ^ 45 }
    ensures { (opening : Option (ℕ → List ℕ)) (past : List Entry) → BookStands opening past book.now →
        IsLeastIn (history past book.now.stream) block result }
{
    for page in 64 * block..64 * block + 64 {
        if book.page(page).is_some() {
            return Some(page);
        }
    }
    None
}
