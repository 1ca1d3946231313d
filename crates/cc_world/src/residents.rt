//! Whether a page of a span is resident.

ghost use Rattle.std.specs.Prelude.{◌≡◌, ℕ, ◌<◌, ◌^◌, List, Option};
ghost use Rattle.std.specs.List.{list_any};
ghost use Rattle.cc_entry.specs.declared.entry.Entry.{Entry};
ghost use Rattle.cc_book.specs.Book.{BookStands};
ghost use Rattle.cc_model.specs.History.{history};
ghost use Rattle.cc_model.specs.Ranges.{span_has};
ghost use Rattle.cc_model.specs.Residency.{residents};
ghost use Rattle.cc_world.specs.Blocks.{BlocksStand};
ghost use Rattle.cc_world.specs.Residents.{IsInBlock};

use crate::blocks::Blocks;
use cc_book::Book;
use cc_entry::Span;
use cc_events::span_has;

/// Whether a page of a span of the book's stream is resident; of the whole stream where no span is said. The blocks that may be
/// mapped tell it.
pub(crate) fn has_resident(book: &Book, blocks: &Blocks, span: &Option<Span>) -> bool
    ensures { (opening : Option (ℕ → List ℕ)) (past : List Entry) → BookStands opening past book.now →
        BlocksStand past blocks.now.pages.items →
        result ≡ list_any (span_has span.now) (residents (history past book.now.stream)) }
{
    for place in blocks.pages() {
        if place.stream.number() == book.stream().number()
            && block_has_resident(book, span, place.page / 64)
        {
            return true;
        }
    }
    false
}

// Whether a page of a span is resident that is in the block.
fn block_has_resident(book: &Book, span: &Option<Span>, block: u64) -> bool
    requires { block < 2 ^ 58 }
    ensures { (opening : Option (ℕ → List ℕ)) (past : List Entry) → BookStands opening past book.now →
        IsInBlock (history past book.now.stream) span.now block result }
{
    if !book.is_block_mapped(block) {
        return false;
    }
    for offset in 0..64 {
        let page = 64 * block + offset;
        if span_has(*span, u128::from(page)) && book.page(page).is_some() {
            return true;
        }
    }
    false
}
