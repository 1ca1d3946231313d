//! Worked journals on a map that outlives its objects while a page is dirty.

ghost use Rattle.cc_model.specs.Legal.{IsLegal};
ghost use Rattle.cc_model.specs.Allowed.{IsAllowed};
ghost use Rattle.cc_model.specs.Covered.{IsCovered};
ghost use Rattle.cc_worked.specs.Values.{setup};
ghost use Rattle.cc_worked.specs.Maps.{bytes_outlive_map, gone_while_dirty, read_without_object, page_without_map, valid_raised, page_outlives_map, write_lost};

/// A map with a dirty page stays after its last object and goes with the write of the page; the stream
/// keeps its bytes.
pub fn dirty_map_outlives_its_objects()
    ensures legal { IsLegal setup bytes_outlive_map }
    ensures allowed { IsAllowed setup bytes_outlive_map }
    ensures covered { IsCovered bytes_outlive_map }
    ensures not_gone_while_dirty { IsLegal setup gone_while_dirty → ⊥ }
    ensures no_read_without_object { IsLegal setup read_without_object → ⊥ }
    ensures no_page_without_map { IsAllowed setup page_without_map → ⊥ }
    ensures no_more_valid { IsLegal setup valid_raised → ⊥ }
    ensures no_page_left { IsLegal setup page_outlives_map → ⊥ }
    ensures no_write_lost { IsLegal setup write_lost → ⊥ }
{}
