//! Entries of the journal as they are printed.

ghost use Rattle.std.specs.Prelude.{◌≡◌, ◌++◌, OnOk, codes, string_bytes};
ghost use Rattle.cc_print.specs.Words.{word_if};
ghost use Rattle.cc_print.specs.Entries.{outcome_text, end_text, pages_text, scan_text, called_text, appended_text, deferred_text, range_text, granted_text, access_text, conflict_text, entry_text};

use crate::answer::{push_error, push_reply};
use crate::call::push_call;
use crate::words::{name_of, push_bytes, push_file, push_page, word_if};
use cc_entry::{Bytes, Call, End, Entry, FileId, Lsn, Outcome, PageId, Span};
use cc_script::StreamLine;
use std::alloc::AllocError;

fn push_outcome(
    text: &mut String,
    streams: &[StreamLine],
    outcome: &Outcome,
) -> Result<(), AllocError>
    ensures { OnOk result
        (string_bytes text.new ≡ string_bytes text.old ++ outcome_text streams.now outcome.now) }
{
    match outcome {
        Outcome::Done(reply) => push_reply(text, streams, reply),
        Outcome::Failed(error) => push_error(text, *error),
    }
}

/// How a transfer or a sync ended.
pub(crate) fn end_text(how: End) -> &'static str
    ensures { result.now ≡ end_text how }
{
    match how {
        End::Good => "ok",
        End::Failed => "failed",
        End::NoMemory => "nomemory",
    }
}

fn push_called(
    text: &mut String,
    streams: &[StreamLine],
    number: (u32, u64),
    call: &Call,
    outcome: &Outcome,
) -> Result<(), AllocError>
    ensures { OnOk result
        (string_bytes text.new ≡ string_bytes text.old ++ called_text streams.now number.0 number.1 call.now outcome.now) }
{
    let pass = number.0;
    let nth = number.1;
    write!(text, "call {pass} {nth} ")?;
    push_call(text, streams, call)?;
    text.push_str(" = ")?;
    push_outcome(text, streams, outcome)
}

fn push_appended(
    text: &mut String,
    pass: u32,
    handle: u8,
    lsn: Lsn,
    bytes: &Bytes,
) -> Result<(), AllocError>
    ensures { OnOk result
        (string_bytes text.new ≡ string_bytes text.old ++ appended_text pass handle lsn bytes.now) }
{
    let lsn = lsn.number();
    write!(text, "append {pass} {handle} {lsn} ")?;
    push_bytes(text, bytes)
}

fn push_deferred(
    text: &mut String,
    streams: &[StreamLine],
    number: (u32, u64),
    file: FileId,
    pages: u64,
    retrying: bool,
) -> Result<(), AllocError>
    ensures { OnOk result
        (string_bytes text.new ≡ string_bytes text.old ++ deferred_text streams.now number.0 number.1 file pages retrying) }
{
    let pass = number.0;
    let id = number.1;
    let name = name_of(streams, file.stream());
    let retry = word_if(retrying, " retry");
    write!(text, "defer {pass} {id} {name} {pages}{retry}")
}

fn push_pages(text: &mut String, streams: &[StreamLine], pages: &[PageId]) -> Result<(), AllocError>
    ensures { OnOk result
        (string_bytes text.new ≡ string_bytes text.old ++ pages_text streams.now pages.now) }
{
    for &page in pages {
        text.push_str("; ")?;
        push_page(text, streams, page)?;
    }
    Ok(())
}

fn push_scan(
    text: &mut String,
    streams: &[StreamLine],
    pass: u32,
    picked: &[PageId],
) -> Result<(), AllocError>
    ensures { OnOk result
        (string_bytes text.new ≡ string_bytes text.old ++ scan_text streams.now pass picked.now) }
{
    write!(text, "scan {pass}")?;
    push_pages(text, streams, picked)
}

// A range of a file object, behind a verb and the pass.
fn push_range(
    text: &mut String,
    streams: &[StreamLine],
    verb: &str,
    pass: u32,
    file: FileId,
    span: Span,
) -> Result<(), AllocError>
    ensures { OnOk result
        (string_bytes text.new ≡ string_bytes text.old ++ range_text streams.now verb.now pass file span) }
{
    write!(text, "{verb} {pass} ")?;
    push_file(text, streams, file)?;
    let from = span.from();
    let to = span.to();
    write!(text, " {from} {to}")
}

// How a lock was asked for, and its id or that of the lock in its way.
fn push_granted(
    text: &mut String,
    exclusive: bool,
    granted: bool,
    id: u64,
) -> Result<(), AllocError>
    ensures { OnOk result
        (string_bytes text.new ≡ string_bytes text.old ++ (word_if exclusive (codes " excl") ++ granted_text granted id)) }
{
    let excl = word_if(exclusive, " excl");
    let how = if granted { "ok" } else { "conflict" };
    write!(text, "{excl} {how} {id}")
}

// What a range was tested for, and the lock in the way.
fn push_test(text: &mut String, write: bool, conflict: Option<u64>) -> Result<(), AllocError>
    ensures { OnOk result
        (string_bytes text.new ≡ string_bytes text.old ++ (access_text write ++ conflict_text conflict)) }
{
    text.push_str(if write { " write" } else { " read" })?;
    match conflict {
        Some(id) => write!(text, " conflict {id}"),
        None => Ok(()),
    }
}

/// One entry of the journal.
pub(crate) fn push_entry(
    text: &mut String,
    streams: &[StreamLine],
    entry: &Entry,
) -> Result<(), AllocError>
    ensures { OnOk result
        (string_bytes text.new ≡ string_bytes text.old ++ entry_text streams.now entry.now) }
{
    match entry {
        Entry::Call {
            pass,
            nth,
            call,
            outcome,
            ..
        } => { push_called(text, streams, (*pass, *nth), call, outcome) }
        Entry::PageIn {
            page,
            from_disk,
            ..
        } => {
            let source = if *from_disk { "disk" } else { "zero" };
            text.push_str("in ")?;
            push_page(text, streams, *page)?;
            write!(text, " {source}")
        }
        Entry::PageOut { page, .. } => {
            text.push_str("out ")?;
            push_page(text, streams, *page)
        }
        Entry::FillFailed { pass, page } => {
            write!(text, "fillfailed {pass} ")?;
            push_page(text, streams, *page)
        }
        Entry::WriteBegin { pass, page } => {
            write!(text, "begin {pass} ")?;
            push_page(text, streams, *page)
        }
        Entry::WriteEnd { pass, page, how } => {
            let how = end_text(*how);
            write!(text, "end {pass} ")?;
            push_page(text, streams, *page)?;
            write!(text, " {how}")
        }
        Entry::Sync { pass, stream, how } => {
            let name = name_of(streams, *stream);
            let how = end_text(*how);
            write!(text, "sync {pass} {name} {how}")
        }
        Entry::Append {
            pass,
            handle,
            lsn,
            bytes,
        } => push_appended(text, *pass, *handle, *lsn, bytes),
        Entry::Flushed { handle, to, .. } => {
            let to = to.number();
            write!(text, "flushed {handle} {to}")
        }
        Entry::LogFailed { pass, handle } => write!(text, "logfailed {pass} {handle}"),
        Entry::Defer {
            pass,
            id,
            file,
            pages,
            retrying,
        } => { push_deferred(text, streams, (*pass, *id), *file, *pages, *retrying) }
        Entry::Posted { id } => write!(text, "posted {id}"),
        Entry::Scan { pass, picked } => push_scan(text, streams, *pass, picked.as_slice()),
        Entry::Record {
            pass,
            stream,
            size,
            valid,
            how,
        } => {
            let name = name_of(streams, *stream);
            let how = end_text(*how);
            write!(text, "record {pass} {name} {size} {valid} {how}")
        }
        Entry::RecordFailed { pass, stream } => {
            let name = name_of(streams, *stream);
            write!(text, "recordfailed {pass} {name}")
        }
        Entry::Locked {
            pass,
            file,
            span,
            exclusive,
            granted,
            id,
        } => {
            push_range(text, streams, "locked", *pass, *file, *span)?;
            push_granted(text, *exclusive, *granted, *id)
        }
        Entry::Unlocked {
            pass,
            file,
            id,
            gone,
        } => {
            write!(text, "unlocked {pass} ")?;
            push_file(text, streams, *file)?;
            write!(text, " {id} {gone}")
        }
        Entry::Tested {
            pass,
            file,
            span,
            write,
            conflict,
        } => {
            push_range(text, streams, "tested", *pass, *file, *span)?;
            push_test(text, *write, *conflict)
        }
    }
}
