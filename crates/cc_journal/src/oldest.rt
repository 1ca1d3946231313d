//! The place of the oldest unwritten touch of a page, and whether each came after the front of the journal.

ghost use Rattle.std.specs.Prelude.{◌≡◌, ◌++◌, List, length};
ghost use Rattle.cc_entry.specs.declared.entry.Entry.{Entry};
ghost use Rattle.cc_model.specs.History.{history};
ghost use Rattle.cc_journal.specs.Rows.{oldest_unwritten};
ghost use Rattle.cc_journal.specs.Since.{is_past, is_settled_page};

use crate::Journal;
use cc_entry::PageId;

/// The place in the journal of the oldest touch of a page that is neither written nor cut, where the page is dirty: how many
/// entries there were with it.
pub fn oldest_unwritten<Q>(journal: &Journal<Q>, page: PageId) -> Option<u64>
    ensures { result ≡ oldest_unwritten journal.now.entries page }
{
    match journal.dirty().row_of(page) {
        Some(row) => row.oldest(),
        None => None,
    }
}

/// Whether each touch of a page that is neither written nor cut came after so many entries of the journal.
pub fn is_settled_since<Q>(journal: &Journal<Q>, page: PageId, entries: u64) -> bool
    ensures { (later front : List Entry) → journal.now.entries ≡ later ++ front → length front ≡ entries →
        result ≡ is_settled_page (length (history front page.stream)) (history journal.now.entries page.stream) page.page }
{
    is_past(entries, oldest_unwritten(journal, page))
}

// Whether a place, where there is one, is past so many entries.
fn is_past(entries: u64, place: Option<u64>) -> bool
    ensures { result ≡ is_past entries place }
{
    match place {
        Some(place) => entries < place,
        None => true,
    }
}
