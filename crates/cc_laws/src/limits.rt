//! What holds of view blocks and of the whole cache. Each function does nothing: its contract is the
//! law.

ghost use Rattle.std.specs.Prelude.{ℕ, ◌≤◌, List};
ghost use Rattle.cc_entry.specs.declared.entry.Entry.{Entry};
ghost use Rattle.cc_model.specs.Setup.{Setup};
ghost use Rattle.cc_model.specs.History.{history};
ghost use Rattle.cc_model.specs.Cache.{views_taken, dirty_total};
ghost use Rattle.cc_model.specs.Legal.{IsLegal};
ghost use Rattle.cc_model.specs.Good.{IsGoodSoFar};
ghost use Rattle.cc_laws.specs.Facts.{IsOrderOfMapped, IsWithinLimits};

/// At every place of a legal journal the order of use of a stream's view blocks has each mapped block
/// once, and no other.
pub fn order_of_use_is_of_mapped_blocks()
    ensures { (u : Setup) (past : List Entry) (s : ℕ) → IsLegal u past → IsOrderOfMapped (history past s) }
{}

/// At every place of a good journal the mapped streams take at most the 256 views of the pool.
pub fn views_are_within_the_pool()
    ensures { (u : Setup) (past : List Entry) → IsGoodSoFar u past → views_taken past ≤ 256 }
{}

/// At every place of a good journal at most as many pages are dirty as 256 views have.
pub fn dirty_pages_are_within_the_cache()
    ensures { (u : Setup) (past : List Entry) → IsGoodSoFar u past → dirty_total past ≤ 16384 }
{}

/// So the whole cache is within its limits.
pub fn cache_is_within_limits()
    ensures { (u : Setup) (past : List Entry) → IsGoodSoFar u past → IsWithinLimits past }
{}
