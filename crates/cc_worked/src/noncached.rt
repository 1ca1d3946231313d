//! Worked journals on noncached pages beside what the cache has of the same bytes.

ghost use Rattle.cc_model.specs.Legal.{IsLegal};
ghost use Rattle.cc_model.specs.Allowed.{IsAllowed};
ghost use Rattle.cc_model.specs.Covered.{IsCovered};
ghost use Rattle.cc_worked.specs.Values.{setup, untold};
ghost use Rattle.cc_worked.specs.Noncached.{read_through, disk_read_while_dirty, read_past_size, copied, written_around, store_left, store_parted, part_stored, read_and_written, byte_left_out, store_stands, done_without_transfer};

/// A noncached read writes a dirty page first, and answers what the cache has, up to the size.
pub fn noncached_read_sees_cache()
    ensures legal { IsLegal setup read_through }
    ensures allowed { IsAllowed setup read_through }
    ensures covered { IsCovered read_through }
    ensures not_disk { IsLegal setup disk_read_while_dirty → ⊥ }
    ensures not_past_size { IsLegal setup read_past_size → ⊥ }
{}

/// A copied write, and a read over the boundary of two pages.
pub fn copied_write_and_read()
    ensures legal { IsLegal setup copied }
    ensures allowed { IsAllowed setup copied }
    ensures covered { IsCovered copied }
{}

/// A noncached write is stored, transferred at once and taken out; a copied read then shows it.
pub fn noncached_write_between_copies()
    ensures legal { IsLegal setup written_around }
    ensures allowed { IsAllowed setup written_around }
    ensures covered { IsCovered written_around }
    ensures not_left { IsAllowed setup store_left → ⊥ }
    ensures not_parted { IsAllowed setup store_parted → ⊥ }
    ensures not_by_part { IsAllowed setup part_stored → ⊥ }
{}

/// Of disks that do not tell what they hold, a noncached read answers a page as long as it is.
pub fn noncached_page_is_read_whole()
    ensures legal { IsLegal untold read_and_written }
    ensures allowed { IsAllowed untold read_and_written }
    ensures covered { IsCovered read_and_written }
    ensures no_byte_left_out { IsLegal untold byte_left_out → ⊥ }
{}

/// A noncached write whose transfer fails is refused, and its store stays in the cache.
pub fn failed_noncached_write_stands_in_cache()
    ensures legal { IsLegal setup store_stands }
    ensures allowed { IsAllowed setup store_stands }
    ensures covered { IsCovered store_stands }
    ensures not_done { IsAllowed setup done_without_transfer → ⊥ }
{}
