//! A refusal by a test, and the first of several.

ghost use Rattle.std.specs.Prelude.{◌≡◌};
ghost use Rattle.cc_model.specs.Reasons.{refuse_if};
ghost use Rattle.cc_model.specs.Refusals.{first_of};

use cc_entry::CcError;

/// A refusal where a test holds.
pub fn refuse(test: bool, error: CcError) -> Option<CcError>
    ensures { result ≡ refuse_if test error }
{
    if test { Some(error) } else { None }
}

/// The first refusal of a list.
pub fn first_in(reasons: &[Option<CcError>]) -> Option<CcError>
    ensures { result ≡ first_of reasons.now }
{
    let Some((first, rest)) = reasons.split_first() else {
        return None;
    };
    match first {
        Some(refused) => Some(*refused),
        None => first_in(rest),
    }
}
