//! Worked journals on view blocks: the quota of a stream, the pool of all, and which block is given up.

ghost use Rattle.cc_model.specs.Legal.{IsLegal};
ghost use Rattle.cc_model.specs.Allowed.{IsAllowed};
ghost use Rattle.cc_model.specs.Covered.{IsCovered};
ghost use Rattle.cc_entry.specs.declared.error.CcError.TheVariants.{NotResident};
ghost use Rattle.cc_worked.specs.Values.{setup};
ghost use Rattle.cc_worked.specs.Views.{block_taken_over, quota_exceeded, no_view_left, page_before_view, ninth_stored, ninth_mapped, pool_empty, pool_exceeded, within_a_block, over_the_boundary};

/// A stream with holds in all blocks of its quota is refused another; when one hold has ended, its
/// block is given up.
pub fn stream_keeps_to_its_quota()
    ensures legal { IsLegal setup block_taken_over }
    ensures allowed { IsAllowed setup block_taken_over }
    ensures covered { IsCovered block_taken_over }
    ensures not_exceeded { IsAllowed setup quota_exceeded → ⊥ }
{}

/// Where no block may be given up, a call that needs one more is refused: a read that may not wait before
/// it is told of a page, a hold, and a noncached write.
pub fn block_is_refused_before_page()
    ensures legal { IsLegal setup no_view_left }
    ensures allowed { IsAllowed setup no_view_left }
    ensures covered { IsCovered no_view_left }
    ensures not_of_page { IsLegal setup (page_before_view (NotResident 512)) → ⊥ }
    ensures not_stored { IsLegal setup ninth_stored → ⊥ }
    ensures no_room_for_store { IsAllowed setup ninth_stored → ⊥ }
    ensures not_mapped { IsLegal setup ninth_mapped → ⊥ }
{}

/// Four streams that take all of the pool leave no view for a fifth.
pub fn streams_share_the_pool()
    ensures legal { IsLegal setup pool_empty }
    ensures allowed { IsAllowed setup pool_empty }
    ensures covered { IsCovered pool_empty }
    ensures not_exceeded { IsLegal setup pool_exceeded → ⊥ }
{}

/// A map over the boundary of two blocks is refused; one of a whole block is pinned, written and
/// stamped.
pub fn map_stays_within_a_block()
    ensures legal { IsLegal setup within_a_block }
    ensures allowed { IsAllowed setup within_a_block }
    ensures covered { IsCovered within_a_block }
    ensures not_over { IsLegal setup over_the_boundary → ⊥ }
{}
