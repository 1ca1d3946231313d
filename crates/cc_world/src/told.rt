//! The error by which a call tells a fault.

ghost use Rattle.std.specs.Prelude.{◌≡◌};
ghost use Rattle.cc_entry.specs.Queries.{extent_of_query};
ghost use Rattle.cc_model.specs.Ranges.{first_of_span, first_page, first_queried};
ghost use Rattle.cc_world.specs.Faults.{fault_in};
ghost use Rattle.cc_effects.specs.Events.{error_of};

use crate::faults::Fault;
use cc_entry::{Call, CcError, Query, Span};

/// The error by which a call tells a fault; a failed sync names the first page of the call's range.
pub(crate) fn error_of(call: &Call, fault: Fault) -> CcError
    ensures { result ≡ error_of call.now (fault_in fault) }
{
    match fault {
        Fault::Read(page) => CcError::ReadFault { page },
        Fault::Write(page) => CcError::WriteFault { page },
        Fault::Sync => CcError::WriteFault {
            page: first_page(call),
        },
        Fault::Log(handle) => CcError::LogFault {
            handle: u64::from(handle),
        },
    }
}

// The first page of the range that a call was given, 0 where it has none.
fn first_page(call: &Call) -> u64
    ensures { result ≡ first_page call.now }
{
    match call {
        Call::CopyRead { at, .. }
        | Call::CopyWrite { at, .. }
        | Call::Map { at, .. }
        | Call::PinRead { at, .. }
        | Call::PreparePin { at, .. }
        | Call::MdlRead { at, .. }
        | Call::MdlWrite { at, .. } => *at / 4096,
        Call::Zero { span, .. } => span.from() / 4096,
        Call::NcRead { page, .. } | Call::NcStore { page, .. } | Call::NcWrite { page, .. } =>
            *page,
        Call::AheadStep { request } => request.at / 4096,
        Call::Flush { span, .. } | Call::Purge { span, .. } | Call::Discard { span, .. } => {
            first_of_span(*span)
        }
        Call::Query(query) => first_queried(query),
        _ => 0,
    }
}

// The first page of the bytes whose pages a query needs, 0 where it needs none.
fn first_queried(query: &Query) -> u64
    ensures { result ≡ first_queried (extent_of_query query.now) }
{
    match query.extent() {
        Some((at, _)) => at / 4096,
        None => 0,
    }
}

// The first page of a span, 0 where there is none.
fn first_of_span(span: Option<Span>) -> u64
    ensures { result ≡ first_of_span span }
{
    match span {
        Some(span) => span.from() / 4096,
        None => 0,
    }
}
