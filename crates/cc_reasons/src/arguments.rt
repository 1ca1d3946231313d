//! Reasons that lie in the arguments of a call alone, or beside the number of logs.

ghost use Rattle.std.specs.Prelude.{◌≡◌, Some};
ghost use Rattle.cc_model.specs.Setup.{Setup};
ghost use Rattle.cc_model.specs.Acts.{file_of};
ghost use Rattle.cc_model.specs.Reasons.{cached_file, longer, too_long, crosses_blocks, view_boundary, is_granularity, bad_granularity, missing_log, no_log};

use crate::first::refuse;
use cc_entry::{Call, CcError, FileId};

/// The file object that has to have a private cache map for the call.
pub fn cached_file(call: &Call) -> Option<FileId>
    ensures { result ≡ cached_file call.now (file_of call.now) }
{
    match call {
        Call::Uninitialise { file, .. }
        | Call::CopyRead { file, .. }
        | Call::CopyWrite { file, .. }
        | Call::Zero { file, .. }
        | Call::Map { file, .. }
        | Call::PinRead { file, .. }
        | Call::PreparePin { file, .. }
        | Call::MdlRead { file, .. }
        | Call::MdlWrite { file, .. }
        | Call::NcRead { file, .. }
        | Call::NcStore { file, .. }
        | Call::NcWrite { file, .. }
        | Call::SetSizes { file, .. }
        | Call::Flush { file, .. }
        | Call::Purge { file, .. }
        | Call::Discard { file, .. }
        | Call::SetLog { file, .. }
        | Call::SetGranularity { file, .. }
        | Call::SetAttributes { file, .. }
        | Call::SetThreshold { file, .. }
        | Call::AskAhead { file, .. } => Some(*file),
        Call::Query(query) => query.file(),
        Call::Initialise { .. }
        | Call::AheadStep { .. }
        | Call::PinMapped { .. }
        | Call::MappedRead { .. }
        | Call::PinnedRead { .. }
        | Call::PinnedWrite { .. }
        | Call::SetDirty { .. }
        | Call::EndHold { .. }
        | Call::Repin { .. }
        | Call::MdlBytes { .. }
        | Call::MdlStore { .. } => None,
    }
}

// A refusal of more bytes than a call takes.
fn by_limit(len: u64) -> Option<CcError>
    ensures { result ≡ longer len }
{
    refuse(len > 1_048_576, CcError::TooLong { limit: 1_048_576 })
}

/// The refusal of a call that takes too many bytes.
pub fn by_length(call: &Call) -> Option<CcError>
    ensures { result ≡ too_long call.now }
{
    match call {
        Call::CopyRead { len, .. } | Call::MdlRead { len, .. } | Call::MdlWrite { len, .. } => {
            by_limit(*len)
        }
        Call::CopyWrite { bytes, .. } => by_limit(bytes.len()),
        Call::Zero { span, .. } => by_limit(span.to() - span.from()),
        _ => None,
    }
}

// Whether bytes lie in more than one view block.
fn crosses(at: u64, len: u64) -> bool
    ensures { result ≡ crosses_blocks at len }
{
    if len == 0 {
        return false;
    }
    let at = u128::from(at);
    at / 262_144 != (at + u128::from(len) - 1) / 262_144
}

/// The refusal of a map or a pin that has bytes in two view blocks.
pub fn by_view(call: &Call) -> Option<CcError>
    ensures { result ≡ view_boundary call.now }
{
    match call {
        Call::Map { at, len, .. }
        | Call::PinRead { at, len, .. }
        | Call::PreparePin { at, len, .. } => { refuse(crosses(*at, *len), CcError::ViewBoundary) }
        _ => None,
    }
}

// Whether a granularity is a power of two from 4096 to 1048576.
fn is_power(bytes: u64) -> bool
    ensures { result ≡ is_granularity bytes }
{
    bytes == 4096
        || bytes == 8192
        || bytes == 16_384
        || bytes == 32_768
        || bytes == 65_536
        || bytes == 131_072
        || bytes == 262_144
        || bytes == 524_288
        || bytes == 1_048_576
}

/// The refusal of a granularity that is no power of two of its range.
pub fn by_granularity(call: &Call) -> Option<CcError>
    ensures { result ≡ bad_granularity call.now }
{
    match call {
        Call::SetGranularity { bytes, .. } => refuse(!is_power(*bytes), CcError::BadGranularity),
        _ => None,
    }
}

// The refusal of a log that there is not.
fn by_missing_log(logs: u8, handle: u8) -> Option<CcError>
    ensures { (u : Setup) → u.logs ≡ logs → result ≡ missing_log u (Some handle) }
{
    refuse(
        logs <= handle,
        CcError::NoLog {
            handle: u64::from(handle),
        },
    )
}

/// The refusal of a call that names a log that there is not.
pub fn by_log(logs: u8, call: &Call) -> Option<CcError>
    ensures { (u : Setup) → u.logs ≡ logs → result ≡ no_log u call.now }
{
    match call {
        Call::SetLog { handle, .. } => by_missing_log(logs, *handle),
        Call::Query(query) => by_missing_log(logs, query.log()?),
        _ => None,
    }
}
