//! Worked journals on deferred writes: when a write is held back, and in which order they are posted.

ghost use Rattle.cc_model.specs.Legal.{IsLegal};
ghost use Rattle.cc_model.specs.Allowed.{IsAllowed};
ghost use Rattle.cc_model.specs.Covered.{IsCovered};
ghost use Rattle.cc_worked.specs.Values.{setup, with_threshold};
ghost use Rattle.cc_worked.specs.Throttle.{posted_in_order, posted_out_of_order, posted_twice, number_deferred_twice, uncached_deferred, retry_posted_first, retry_posted_last, let_go, posted_while_held};

/// Deferred writes are posted in order, each once.
pub fn deferred_writes_are_posted_in_order()
    ensures legal { IsLegal setup posted_in_order }
    ensures allowed { IsAllowed setup posted_in_order }
    ensures covered { IsCovered posted_in_order }
    ensures not_out_of_order { IsAllowed setup posted_out_of_order → ⊥ }
    ensures not_twice { IsAllowed setup posted_twice → ⊥ }
    ensures no_number_again { IsAllowed setup number_deferred_twice → ⊥ }
    ensures not_uncached { IsAllowed setup uncached_deferred → ⊥ }
{}

/// A deferred write that is tried again goes to the head of the queue.
pub fn retried_write_goes_first()
    ensures legal { IsLegal setup retry_posted_first }
    ensures allowed { IsAllowed setup retry_posted_first }
    ensures covered { IsCovered retry_posted_first }
    ensures not_last { IsAllowed setup retry_posted_last → ⊥ }
{}

/// A write that would reach the threshold of the cache, or of its stream, is held back; a flush lets it
/// go.
pub fn write_is_held_back_at_threshold()
    ensures legal { IsLegal (with_threshold 4) let_go }
    ensures allowed { IsAllowed (with_threshold 4) let_go }
    ensures covered { IsCovered let_go }
    ensures not_while_held { IsAllowed (with_threshold 4) posted_while_held → ⊥ }
    ensures but_below_it { IsAllowed (with_threshold 5) posted_while_held }
{}
