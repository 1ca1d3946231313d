//! Worked journals on copied reads and writes, and on zeroing: what they read, and where they may begin and end.

ghost use Rattle.cc_model.specs.Legal.{IsLegal};
ghost use Rattle.cc_model.specs.Allowed.{IsAllowed};
ghost use Rattle.cc_model.specs.Covered.{IsCovered};
ghost use Rattle.cc_entry.specs.declared.error.CcError.TheVariants.{BeyondSize, BeyondValid};
ghost use Rattle.cc_worked.specs.Values.{setup};
ghost use Rattle.cc_worked.specs.Copies.{read_around, disk_past_valid, disk_under_write, zero_page, zero_page_read, read_to_size, read_past_size, write_past_size, write_past_valid, hole_in_valid, too_long, zeroed, zeroing_past_valid, hole_before_zeros};

/// A copied write at the valid data length, and a read of both sides of it: past the valid data length
/// bytes read as zeros.
pub fn copied_write_at_valid_length()
    ensures legal { IsLegal setup read_around }
    ensures allowed { IsAllowed setup read_around }
    ensures covered { IsCovered read_around }
    ensures no_disk_past_valid { IsLegal setup disk_past_valid → ⊥ }
    ensures no_disk_under_write { IsLegal setup disk_under_write → ⊥ }
{}

/// A page with no valid byte comes in as zeros, without a read of the disk.
pub fn page_past_valid_length_is_zero()
    ensures legal { IsLegal setup zero_page }
    ensures allowed { IsAllowed setup zero_page }
    ensures covered { IsCovered zero_page }
    ensures not_read { IsAllowed setup zero_page_read → ⊥ }
{}

/// A read answers the bytes below the size, and none from there on.
pub fn read_ends_at_size()
    ensures legal { IsLegal setup read_to_size }
    ensures allowed { IsAllowed setup read_to_size }
    ensures covered { IsCovered read_to_size }
    ensures not_past_size { IsLegal setup read_past_size → ⊥ }
{}

/// A write that ends past the size, or starts past the valid data length, is refused, by the first of
/// the two where both hold.
pub fn write_stays_within_sizes()
    ensures size_legal { IsLegal setup (write_past_size (BeyondSize 8192)) }
    ensures size_allowed { IsAllowed setup (write_past_size (BeyondSize 8192)) }
    ensures size_covered { IsCovered (write_past_size (BeyondSize 8192)) }
    ensures valid_legal { IsLegal setup (write_past_valid (BeyondValid 5000)) }
    ensures valid_allowed { IsAllowed setup (write_past_valid (BeyondValid 5000)) }
    ensures valid_covered { IsCovered (write_past_valid (BeyondValid 5000)) }
    ensures size_counts_first { IsLegal setup (write_past_size (BeyondValid 5000)) → ⊥ }
    ensures no_hole { IsLegal setup hole_in_valid → ⊥ }
{}

/// A zeroing or a copied read of more than 1048576 bytes is refused.
pub fn copies_have_a_limit()
    ensures legal { IsLegal setup too_long }
    ensures allowed { IsAllowed setup too_long }
    ensures covered { IsCovered too_long }
{}

/// A zeroing from the valid data length on raises it, so a write may start at its end.
pub fn zeroing_raises_valid_length()
    ensures legal { IsLegal setup zeroed }
    ensures allowed { IsAllowed setup zeroed }
    ensures covered { IsCovered zeroed }
{}

/// A zeroing starts at or below the valid data length.
pub fn zeroing_leaves_no_hole()
    ensures legal { IsLegal setup zeroing_past_valid }
    ensures allowed { IsAllowed setup zeroing_past_valid }
    ensures covered { IsCovered zeroing_past_valid }
    ensures no_hole { IsLegal setup hole_before_zeros → ⊥ }
{}
