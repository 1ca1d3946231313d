//! Queries and what they find, as they are printed.

ghost use Rattle.std.specs.Prelude.{◌≡◌, ◌++◌, OnOk, string_bytes};
ghost use Rattle.cc_print.specs.Queries.{lsns_text, query_text, state_text, value_text};

use crate::words::{push_number_or_dash, push_of_file, push_of_file_number};
use cc_entry::{FileState, Lsn, Query, Value};
use cc_script::StreamLine;
use std::alloc::AllocError;

/// A query with its arguments.
pub(crate) fn push_query(
    text: &mut String,
    streams: &[StreamLine],
    query: &Query,
) -> Result<(), AllocError>
    ensures { OnOk result
        (string_bytes text.new ≡ string_bytes text.old ++ query_text streams.now query.now) }
{
    match query {
        Query::State { file } => push_of_file(text, "state", streams, *file, ""),
        Query::DirtyPages { handle } => write!(text, "dirty {handle}"),
        Query::LsnForFile { file } => push_of_file(text, "lsns", streams, *file, ""),
        Query::IsDirtyData => text.push_str("isdirty"),
        Query::CanWrite { file, bytes } => push_of_file_number(
            text, "canwrite", streams, *file, *bytes,
        ),
    }
}

/// What was found.
pub(crate) fn push_value(text: &mut String, value: &Value) -> Result<(), AllocError>
    ensures { OnOk result (string_bytes text.new ≡ string_bytes text.old ++ value_text value.now) }
{
    match value {
        Value::Flag(true) => text.push_str("true"),
        Value::Flag(false) => text.push_str("false"),
        Value::Lsns(lsns) => push_lsns(text, *lsns),
        Value::State(state) => push_state(text, *state),
    }
}

fn push_lsns(text: &mut String, lsns: Option<(Lsn, Lsn)>) -> Result<(), AllocError>
    ensures { OnOk result (string_bytes text.new ≡ string_bytes text.old ++ lsns_text lsns) }
{
    match lsns {
        Some((oldest, newest)) => {
            let oldest = oldest.number();
            let newest = newest.number();
            write!(text, "lsns {oldest} {newest}")
        }
        None => text.push_str("none"),
    }
}

fn push_state(text: &mut String, state: FileState) -> Result<(), AllocError>
    ensures { OnOk result (string_bytes text.new ≡ string_bytes text.old ++ state_text state) }
{
    let allocation = state.sizes.allocation;
    let size = state.sizes.size;
    let valid = state.sizes.valid;
    write!(text, "state {allocation} {size} {valid} ")?;
    push_number_or_dash(text, log_number(state.log))
}

fn log_number(log: Option<u8>) -> Option<u64>
    ensures { result ≡ log }
{
    match log {
        Some(handle) => Some(u64::from(handle)),
        None => None,
    }
}
