//! Whether a page is dirty.

ghost use Rattle.std.specs.Prelude.{◌≡◌};
ghost use Rattle.cc_model.specs.History.{history};
ghost use Rattle.cc_model.specs.Touches.{is_dirty};

use crate::next_dirty;
use cc_entry::StreamId;
use cc_journal::Journal;

/// Whether a page of a stream is dirty.
pub(crate) fn is_dirty<Q>(journal: &Journal<Q>, stream: StreamId, page: u64) -> bool
    ensures { result ≡ is_dirty (history journal.now.entries stream) page }
{
    match next_dirty(journal, stream, None, page) {
        Some(next) => next == page,
        None => false,
    }
}
