//! Reasons for a refusal that lie in the maps and in the sizes that a call meets, from what is kept of its stream.

ghost use Rattle.std.specs.Prelude.{◌≡◌, List};
ghost use Rattle.cc_model.specs.History.{Effect};
ghost use Rattle.cc_model.specs.Acts.{file_of};
ghost use Rattle.cc_model.specs.Touches.{valid_of, is_mapped};
ghost use Rattle.cc_model.specs.Reasons.{not_cached, cached_file, bad_sizes};
ghost use Rattle.cc_stream.specs.Stream.{StreamStands};

use crate::known::Known;
use cc_entry::{Call, CcError};
use cc_reasons::{are_allocated, breaks_rules, cached_file, refuse};
use cc_stream::StreamState;

/// The refusal of a call on a file object that has no private cache map.
pub(crate) fn by_map(state: &StreamState, call: &Call) -> Option<CcError>
    ensures { (h : List Effect) → StreamStands h state.now →
        result ≡ not_cached h (cached_file call.now (file_of call.now)) }
{
    match cached_file(call) {
        Some(file) => refuse(!state.is_open(file.object()), CcError::NotCached),
        None => None,
    }
}

/// The refusal of sizes that break the rules of their call.
pub(crate) fn by_sizes(known: &Known, call: &Call) -> Option<CcError>
    ensures { (h : List Effect) → StreamStands h known.now.state.now →
        known.now.valid ≡ valid_of h → known.now.mapped ≡ is_mapped h →
        result ≡ bad_sizes h call.now }
{
    match call {
        Call::Initialise { sizes, .. } => {
            let had = known.state.had_map();
            let breaks = breaks_rules(known.mapped, had, u128::from(known.valid), *sizes);
            refuse(breaks, CcError::BadSizes)
        }
        Call::SetSizes {
            allocation,
            size,
            ..
        } => refuse(!are_allocated(*size, *allocation), CcError::BadSizes),
        _ => None,
    }
}
