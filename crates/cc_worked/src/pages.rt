//! Worked journals on pages that come in and go out, and on transfers, of which each ends once.

ghost use Rattle.cc_model.specs.Legal.{IsLegal};
ghost use Rattle.cc_model.specs.Allowed.{IsAllowed};
ghost use Rattle.cc_model.specs.Covered.{IsCovered};
ghost use Rattle.cc_worked.specs.Values.{setup};
ghost use Rattle.cc_worked.specs.Pages.{out_and_in, out_under_way, in_under_way, out_after_failure, ended_twice, another_ended, in_twice, out_twice, in_past_size, in_without_map, valid_page_of_zeros, read_beside, read_under_way};

/// A page that goes to the disk is read meanwhile, and goes out after a good end alone.
pub fn page_stays_during_transfer()
    ensures legal { IsLegal setup out_and_in }
    ensures allowed { IsAllowed setup out_and_in }
    ensures covered { IsCovered out_and_in }
    ensures not_out_under_way { IsAllowed setup out_under_way → ⊥ }
    ensures not_in_under_way { IsAllowed setup in_under_way → ⊥ }
    ensures not_out_after_failure { IsAllowed setup out_after_failure → ⊥ }
{}

/// A transfer ends once, for its own page.
pub fn transfer_ends_once()
    ensures not_twice { IsAllowed setup ended_twice → ⊥ }
    ensures not_another { IsAllowed setup another_ended → ⊥ }
{}

/// A page comes in where it is absent, begins below the size and has a map, and goes out where it is
/// there.
pub fn page_comes_in_where_absent()
    ensures not_in_twice { IsAllowed setup in_twice → ⊥ }
    ensures not_out_twice { IsAllowed setup out_twice → ⊥ }
    ensures not_past_size { IsAllowed setup in_past_size → ⊥ }
    ensures not_without_map { IsAllowed setup in_without_map → ⊥ }
{}

/// A page with a valid byte comes in from the disk.
pub fn valid_page_is_read()
    ensures { IsAllowed setup valid_page_of_zeros → ⊥ }
{}

/// A noncached read takes a page from the disk where no transfer is under way.
pub fn noncached_read_waits_for_disk()
    ensures legal { IsLegal setup read_beside }
    ensures allowed { IsAllowed setup read_beside }
    ensures covered { IsCovered read_beside }
    ensures not_under_way { IsAllowed setup read_under_way → ⊥ }
{}
