//! The least resident page of a span.

ghost use Rattle.std.specs.Prelude.{◌≡◌, ℕ, ◌+◌, ◌*◌, ◌/◌, ◌<◌, ◌≤◌, ◌^◌, true, List, Option};
ghost use Rattle.cc_entry.specs.declared.entry.Entry.{Entry};
ghost use Rattle.cc_book.specs.Book.{BookStands};
ghost use Rattle.cc_model.specs.Good.{IsGood};
ghost use Rattle.cc_model.specs.History.{history};
ghost use Rattle.cc_model.specs.Ranges.{span_has};
ghost use Rattle.cc_model.specs.Setup.{Setup};
ghost use Rattle.cc_model.specs.Touches.{size_of};
ghost use Rattle.cc_ranges.specs.Residents.{IsLeastOfSpanIn, IsLeastOf};

use cc_book::Book;
use cc_entry::Span;
use cc_events::span_has;

/// The least resident page of a span of a book's stream; of the whole stream where no span is said.
pub(crate) fn least_resident(book: &Book, span: &Option<Span>) -> Option<u64>
    ensures { (u : Setup) (past : List Entry) → IsGood u past →
        BookStands (u.opening book.now.stream) past book.now → IsLeastOf (history past book.now.stream) span.now result }
{
    for block in first_block(*span)..end_block(book, *span) {
        let least = least_in(book, span, block);
        if least.is_some() {
            return least;
        }
    }
    None
}

// The block of the first page of a span, 0 where there is none.
fn first_block(span: Option<Span>) -> u64
    ensures { (p : ℕ) → span_has span p ≡ true → result ≤ p / 64 }
{
    match span {
        Some(span) => span.from() / 262_144,
        None => 0,
    }
}

// The block behind the last one in which a page of a span can be resident.
fn end_block(book: &Book, span: Option<Span>) -> u64
    ensures within { result ≤ 2 ^ 46 }
    ensures behind { (opening : Option (ℕ → List ℕ)) (past : List Entry) → BookStands opening past book.now → (p : ℕ) →
        span_has span p ≡ true → 4096 * p < size_of (history past book.now.stream) → p / 64 < result }
{
    match span {
        Some(span) => book.size().min(span.to()).div_ceil(262_144),
        None => book.size().div_ceil(262_144),
    }
}

// The least resident page of a span in one block.
fn least_in(book: &Book, span: &Option<Span>, block: u64) -> Option<u64>
    requires { block < 2 ^ 46 }
    ensures { (opening : Option (ℕ → List ℕ)) (past : List Entry) → BookStands opening past book.now →
        IsLeastOfSpanIn (history past book.now.stream) span.now block result }
{
    if !book.is_block_mapped(block) {
        return None;
    }
    for page in 64 * block..64 * block + 64 {
        if span_has(*span, u128::from(page)) && book.page(page).is_some() {
            return Some(page);
        }
    }
    None
}
