//! Reasons that lie in the sizes and in the valid data length that a call meets.

ghost use Rattle.std.specs.Prelude.{◌≡◌, ℕ, ◌+◌, ◌*◌, ◌^◌, not, ◌&&◌, ◌||◌, nat_le, nat_lt};
ghost use Rattle.cc_model.specs.Reasons.{in_order, past_size, beyond_size, past_valid, beyond_valid, refuse_if};

use crate::first::refuse;
use cc_entry::{Call, CcError, FileSizes};

// Whether sizes stand in their order.
fn are_in_order(sizes: FileSizes) -> bool
    ensures { result ≡ in_order sizes }
{
    sizes.valid <= sizes.size && sizes.size <= sizes.allocation && sizes.allocation < 1 << 63
}

/// Whether sizes break the rules of an initialise: of a stream that is mapped or not, that had a map or not, and whose
/// valid data length is so many bytes.
pub fn breaks_rules(mapped: bool, had: bool, valid: u128, sizes: FileSizes) -> bool
    ensures { result ≡ (not mapped && (not (in_order sizes) || (had && nat_lt valid sizes.valid))) }
{
    !mapped && (!are_in_order(sizes) || (had && valid < u128::from(sizes.valid)))
}

/// Whether the sizes that a call sets are in order.
pub fn are_allocated(size: u64, allocation: u64) -> bool
    ensures { result ≡ (nat_le size allocation && nat_lt allocation (2 ^ 63)) }
{
    size <= allocation && allocation < 1 << 63
}

// A refusal of bytes that end past the size.
fn by_end(size: u64, end: u128) -> Option<CcError>
    ensures { result ≡ past_size size end }
{
    refuse(u128::from(size) < end, CcError::BeyondSize { size })
}

// A refusal of a noncached page that begins at the size or past it.
fn by_page(size: u64, page: u64) -> Option<CcError>
    ensures { result ≡ refuse_if (nat_le size (4096 * page)) (CcError.BeyondSize size) }
{
    refuse(
        u128::from(size) <= 4096 * u128::from(page),
        CcError::BeyondSize { size },
    )
}

/// The refusal of a call past the size.
pub fn by_size(size: u64, call: &Call) -> Option<CcError>
    ensures { result ≡ beyond_size size call.now }
{
    match call {
        Call::CopyWrite { at, bytes, .. } => by_end(
            size,
            u128::from(*at) + u128::from(bytes.len()),
        ),
        Call::Zero { span, .. } => by_end(size, u128::from(span.to())),
        Call::Map { at, len, .. }
        | Call::PinRead { at, len, .. }
        | Call::PreparePin { at, len, .. }
        | Call::MdlRead { at, len, .. }
        | Call::MdlWrite { at, len, .. } => by_end(size, u128::from(*at) + u128::from(*len)),
        Call::NcStore { page, .. } | Call::NcWrite { page, .. } => by_page(size, *page),
        _ => None,
    }
}

// A refusal of a change that starts past the valid data length.
fn by_start(valid: u64, start: u128) -> Option<CcError>
    ensures { result ≡ past_valid valid start }
{
    refuse(u128::from(valid) < start, CcError::BeyondValid { valid })
}

/// The refusal of a change past the valid data length.
pub fn by_valid(valid: u64, call: &Call) -> Option<CcError>
    ensures { result ≡ beyond_valid valid call.now }
{
    match call {
        Call::CopyWrite { at, .. }
        | Call::PreparePin { at, zero: true, .. }
        | Call::PinnedWrite { at, .. }
        | Call::MdlStore { at, .. } => by_start(valid, u128::from(*at)),
        Call::Zero { span, .. } => by_start(valid, u128::from(span.from())),
        Call::NcStore { page, .. } | Call::NcWrite { page, .. } => {
            by_start(valid, 4096 * u128::from(*page))
        }
        _ => None,
    }
}
