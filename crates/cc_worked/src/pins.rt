//! Worked journals on pins: which bar each other, what is written through them, and holds of no byte.

ghost use Rattle.cc_model.specs.Legal.{IsLegal};
ghost use Rattle.cc_model.specs.Allowed.{IsAllowed};
ghost use Rattle.cc_model.specs.Covered.{IsCovered};
ghost use Rattle.cc_worked.specs.Values.{setup};
ghost use Rattle.cc_worked.specs.Pins.{barred_by_page, map_pinned, later_hold_named, map_written, written_past_pin, pin_read_as_map, repin_stamped, shared_pins, empty_hold_bars_size, empty_hold_bars_purge, lsns_told, pinned_write_at_valid, hole_under_pin};

/// An exclusive pin bars each pin of its page, and no copied write.
pub fn exclusive_pin_bars_its_page()
    ensures legal { IsLegal setup barred_by_page }
    ensures allowed { IsAllowed setup barred_by_page }
    ensures covered { IsCovered barred_by_page }
    ensures map_not_pinned { IsLegal setup map_pinned → ⊥ }
    ensures least_is_named { IsLegal setup later_hold_named → ⊥ }
{}

/// A pinned write is of a pin and within its range; a pin is no map, and a repin no pin.
pub fn pins_serve_as_pins()
    ensures no_map { IsAllowed setup map_written → ⊥ }
    ensures not_past_range { IsAllowed setup written_past_pin → ⊥ }
    ensures not_as_map { IsAllowed setup pin_read_as_map → ⊥ }
    ensures no_repin { IsAllowed setup repin_stamped → ⊥ }
{}

/// Two shared pins of a page stand; an exclusive one is barred by the first.
pub fn shared_pins_stand_together()
    ensures legal { IsLegal setup shared_pins }
    ensures allowed { IsAllowed setup shared_pins }
    ensures covered { IsCovered shared_pins }
{}

/// A hold of no byte bars a size below its end and the last uninitialise, and no purge.
pub fn empty_hold_bars_size_alone()
    ensures legal { IsLegal setup empty_hold_bars_size }
    ensures allowed { IsAllowed setup empty_hold_bars_size }
    ensures covered { IsCovered empty_hold_bars_size }
    ensures no_purge_barred { IsLegal setup empty_hold_bars_purge → ⊥ }
{}

/// The LSNs of a stream are the least and the greatest over all its dirty pages.
pub fn lsns_of_all_pages()
    ensures legal { IsLegal setup (lsns_told 5 7) }
    ensures allowed { IsAllowed setup (lsns_told 5 7) }
    ensures covered { IsCovered (lsns_told 5 7) }
    ensures not_of_last_stamps { IsLegal setup (lsns_told 5 6) → ⊥ }
    ensures not_of_first_page { IsLegal setup (lsns_told 6 7) → ⊥ }
{}

/// A pinned write starts at or below the valid data length, and raises it.
pub fn pinned_write_leaves_no_hole()
    ensures legal { IsLegal setup pinned_write_at_valid }
    ensures allowed { IsAllowed setup pinned_write_at_valid }
    ensures covered { IsCovered pinned_write_at_valid }
    ensures no_hole { IsLegal setup hole_under_pin → ⊥ }
{}
