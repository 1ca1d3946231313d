//! Worked journals on maps, pins and repins: what a hold keeps in the cache, and what its end writes.

ghost use Rattle.cc_model.specs.Legal.{IsLegal};
ghost use Rattle.cc_model.specs.Allowed.{IsAllowed};
ghost use Rattle.cc_model.specs.Covered.{IsCovered};
ghost use Rattle.cc_worked.specs.Values.{setup};
ghost use Rattle.cc_worked.specs.Holds.{purged, mapped_page_out, mapped_page_purged, mapped_page_cut, purged_in_place, read_without_page, written_through, pinned_twice, dirty_page_out, synced_unwritten, flush_without_sync, flush_without_write};

/// A mapped page bars a purge, and a size below the end of its hold; after the hold's end the purge
/// takes the page out, and a read brings it in again.
pub fn mapped_page_is_kept()
    ensures legal { IsLegal setup purged }
    ensures allowed { IsAllowed setup purged }
    ensures covered { IsCovered purged }
    ensures not_out { IsAllowed setup mapped_page_out → ⊥ }
    ensures not_purged { IsLegal setup mapped_page_purged → ⊥ }
    ensures not_cut { IsLegal setup mapped_page_cut → ⊥ }
    ensures not_purged_in_place { IsAllowed setup purged_in_place → ⊥ }
{}

/// A read that may not wait answers only what is in the cache.
pub fn read_that_may_not_wait()
    ensures { IsLegal setup read_without_page → ⊥ }
{}

/// An exclusive pin zeroes its page and bars another pin; the end of its repin writes the page through.
pub fn prepared_page_is_written_through()
    ensures legal { IsLegal setup written_through }
    ensures allowed { IsAllowed setup written_through }
    ensures covered { IsCovered written_through }
    ensures not_pinned_twice { IsLegal setup pinned_twice → ⊥ }
    ensures not_out_while_dirty { IsAllowed setup dirty_page_out → ⊥ }
{}

/// A flush is done only after a sync at which its pages were written.
pub fn flush_writes_and_syncs()
    ensures legal { IsLegal setup synced_unwritten }
    ensures allowed { IsAllowed setup synced_unwritten }
    ensures covered { IsCovered synced_unwritten }
    ensures not_without_sync { IsAllowed setup flush_without_sync → ⊥ }
    ensures not_without_write { IsAllowed setup flush_without_write → ⊥ }
{}
