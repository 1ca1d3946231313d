//! Whether a page is dirty.

ghost use Rattle.std.specs.Prelude.{◌≡◌};
ghost use Rattle.cc_model.specs.Cache.{is_any_dirty};

use crate::Journal;

/// Whether a page is dirty, of whichever stream (`CcIsThereDirtyData`).
pub fn is_any_dirty<Q>(journal: &Journal<Q>) -> bool
    ensures { result ≡ is_any_dirty journal.now.entries }
{
    !journal.dirty().rows().is_empty()
}
