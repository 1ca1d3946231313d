//! The trace: what the disks and the logs did, from the journal's entries in order.

ghost use Rattle.std.specs.Prelude.{◌≡◌, ◌++◌, OnOk, string_bytes};
ghost use Rattle.cc_print.specs.Trace.{read_line, has_read, trace_call, record_trace, trace_line};

use crate::entry::end_text;
use crate::words::{name_of, push_page};
use cc_entry::{Call, End, Entry, Outcome, Reply, StreamId};
use cc_script::StreamLine;
use std::alloc::AllocError;

// A noncached read counts where it answered at least one byte.
fn has_read(outcome: &Outcome) -> bool
    ensures { result ≡ has_read outcome.now }
{
    match outcome {
        Outcome::Done(Reply::Read(bytes)) => !bytes.is_empty(),
        Outcome::Done(_) | Outcome::Failed(_) => false,
    }
}

fn push_read_line(
    text: &mut String,
    streams: &[StreamLine],
    stream: StreamId,
    page: u64,
) -> Result<(), AllocError>
    ensures { OnOk result
        (string_bytes text.new ≡ string_bytes text.old ++ read_line streams.now stream page) }
{
    let name = name_of(streams, stream);
    write!(text, "read {name} {page}\n")
}

fn push_trace_call(
    text: &mut String,
    streams: &[StreamLine],
    call: &Call,
    outcome: &Outcome,
) -> Result<(), AllocError>
    ensures { OnOk result
        (string_bytes text.new ≡ string_bytes text.old ++ trace_call streams.now call.now outcome.now) }
{
    match call {
        Call::NcRead { file, page } if has_read(outcome) => push_read_line(
            text,
            streams,
            file.stream(),
            *page,
        ),
        _ => Ok(()),
    }
}

// What a record says that was written, or how its write ended.
fn push_record(text: &mut String, size: u64, valid: u64, how: End) -> Result<(), AllocError>
    ensures { OnOk result
        (string_bytes text.new ≡ string_bytes text.old ++ record_trace size valid how) }
{
    match how {
        End::Good => write!(text, " {size} {valid}"),
        End::Failed => text.push_str(" failed"),
        End::NoMemory => text.push_str(" nomemory"),
    }
}

/// The line of an entry in the trace, with its line feed; nothing where the entry has none.
pub(crate) fn push_trace_line(
    text: &mut String,
    streams: &[StreamLine],
    entry: &Entry,
) -> Result<(), AllocError>
    ensures { OnOk result
        (string_bytes text.new ≡ string_bytes text.old ++ trace_line streams.now entry.now) }
{
    match entry {
        Entry::Call { call, outcome, .. } => push_trace_call(text, streams, call, outcome),
        Entry::PageIn {
            page,
            from_disk: true,
            ..
        } => { push_read_line(text, streams, page.stream(), page.page()) }
        Entry::FillFailed { page, .. } => {
            text.push_str("read ")?;
            push_page(text, streams, *page)?;
            text.push_str(" failed\n")
        }
        Entry::WriteBegin { page, .. } => {
            text.push_str("write ")?;
            push_page(text, streams, *page)?;
            text.push_str(" begin\n")
        }
        Entry::WriteEnd { page, how, .. } => {
            let how = end_text(*how);
            text.push_str("write ")?;
            push_page(text, streams, *page)?;
            write!(text, " {how}\n")
        }
        Entry::Sync { stream, how, .. } => {
            let name = name_of(streams, *stream);
            let how = end_text(*how);
            write!(text, "sync {name} {how}\n")
        }
        Entry::Append { handle, lsn, .. } => {
            let lsn = lsn.number();
            write!(text, "log {handle} append {lsn}\n")
        }
        Entry::Flushed { handle, to, .. } => {
            let to = to.number();
            write!(text, "log {handle} flush {to}\n")
        }
        Entry::LogFailed { handle, .. } => write!(text, "log {handle} failed\n"),
        Entry::Record {
            stream,
            size,
            valid,
            how,
            ..
        } => {
            let name = name_of(streams, *stream);
            write!(text, "record {name}")?;
            push_record(text, *size, *valid, *how)?;
            text.push_str("\n")
        }
        Entry::PageIn {
            from_disk: false,
            ..
        }
        | Entry::PageOut { .. }
        | Entry::Defer { .. }
        | Entry::Posted { .. }
        | Entry::Scan { .. }
        | Entry::RecordFailed { .. }
        | Entry::Locked { .. }
        | Entry::Unlocked { .. }
        | Entry::Tested { .. } => Ok(()),
    }
}
