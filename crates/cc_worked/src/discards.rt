//! Worked journals on discards: what is dropped, what the disk gives back, and what other pages keep.

ghost use Rattle.cc_model.specs.Legal.{IsLegal};
ghost use Rattle.cc_model.specs.Allowed.{IsAllowed};
ghost use Rattle.cc_model.specs.Covered.{IsCovered};
ghost use Rattle.cc_worked.specs.Values.{setup};
ghost use Rattle.cc_worked.specs.Discards.{flushed_byte_back, dirty_after, found_after, out_after, dropped_byte_read, flushed_byte_lost, written_bytes_back, discarded_under_way, discarded_after_end, first_kept, first_clean, first_comes_in, first_dropped, stamp_dropped, stamp_kept};

/// A discard drops what was not written: the page is clean, goes from the cache, and comes in as the
/// disk holds it.
pub fn discard_drops_unwritten_change()
    ensures legal { IsLegal setup flushed_byte_back }
    ensures allowed { IsAllowed setup flushed_byte_back }
    ensures covered { IsCovered flushed_byte_back }
    ensures not_dirty { IsLegal setup dirty_after → ⊥ }
    ensures not_found { IsLegal setup found_after → ⊥ }
    ensures not_resident { IsAllowed setup out_after → ⊥ }
    ensures not_read { IsLegal setup dropped_byte_read → ⊥ }
    ensures written_stays { IsLegal setup flushed_byte_lost → ⊥ }
{}

/// What was written after a discard outlives the next.
pub fn discard_keeps_what_was_written()
    ensures legal { IsLegal setup written_bytes_back }
    ensures allowed { IsAllowed setup written_bytes_back }
    ensures covered { IsCovered written_bytes_back }
{}

/// No page is discarded during a transfer; after its end the disk holds the page as the transfer began.
pub fn discard_waits_for_transfer()
    ensures legal { IsLegal setup discarded_after_end }
    ensures allowed { IsAllowed setup discarded_after_end }
    ensures covered { IsCovered discarded_after_end }
    ensures not_under_way { IsAllowed setup discarded_under_way → ⊥ }
{}

/// A discard takes the pages of which its span has a byte, whole, and no other.
pub fn discard_is_of_its_span()
    ensures legal { IsLegal setup first_kept }
    ensures allowed { IsAllowed setup first_kept }
    ensures covered { IsCovered first_kept }
    ensures not_clean { IsLegal setup first_clean → ⊥ }
    ensures is_resident { IsAllowed setup first_comes_in → ⊥ }
    ensures not_dropped { IsLegal setup first_dropped → ⊥ }
{}

/// A discard drops stamps too.
pub fn discard_drops_stamp()
    ensures legal { IsLegal setup stamp_dropped }
    ensures allowed { IsAllowed setup stamp_dropped }
    ensures covered { IsCovered stamp_dropped }
    ensures not_kept { IsLegal setup stamp_kept → ⊥ }
{}
