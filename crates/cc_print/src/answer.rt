//! What a line was answered, as it is printed.

ghost use Rattle.std.specs.Prelude.{◌≡◌, ◌++◌, OnOk, codes, string_bytes};
ghost use Rattle.cc_print.specs.Words.{bytes_text};
ghost use Rattle.cc_print.specs.Answers.{error_numbers, error_text, row_text, rows_text, counted_rows, ahead_text, whole_word, stepped_text, reply_text, ids_text, more_ids, tick_text, started_text, completed_text, answer_text};

use crate::query::push_value;
use crate::words::{push_bytes, push_page, push_request};
use cc_entry::{
    AheadDone, Answer, AsyncDone, AsyncStart, Bytes, CcError, DirtyRow, Reply, Request, Tick,
};
use cc_script::StreamLine;
use std::alloc::AllocError;

fn push_error_numbers(text: &mut String, error: CcError) -> Result<(), AllocError>
    ensures { OnOk result (string_bytes text.new ≡ string_bytes text.old ++ error_numbers error) }
{
    match error {
        CcError::NotCached
        | CcError::ViewBoundary
        | CcError::Unaligned
        | CcError::BadSizes
        | CcError::QueueFull
        | CcError::NoMemory
        | CcError::BadGranularity => Ok(()),
        CcError::NoViews { active, quota } => write!(text, " {active} {quota}"),
        CcError::BeyondSize { size: n }
        | CcError::BeyondValid { valid: n }
        | CcError::TooLong { limit: n }
        | CcError::Held { id: n }
        | CcError::Busy { id: n }
        | CcError::NotResident { page: n }
        | CcError::NoVacbs { free: n }
        | CcError::JournalFull { entries: n }
        | CcError::ReadFault { page: n }
        | CcError::WriteFault { page: n }
        | CcError::LogFault { handle: n }
        | CcError::LogFull { handle: n }
        | CcError::NoLog { handle: n }
        | CcError::Unsettled { page: n }
        | CcError::Grown { page: n }
        | CcError::GapTooLong { limit: n }
        | CcError::LockConflict { id: n } => write!(text, " {n}"),
    }
}

/// A refusal: its number, its name, then its numbers.
pub(crate) fn push_error(text: &mut String, error: CcError) -> Result<(), AllocError>
    ensures { OnOk result (string_bytes text.new ≡ string_bytes text.old ++ error_text error) }
{
    let number = error.number();
    let name = error.name();
    write!(text, "error {number} {name}")?;
    push_error_numbers(text, error)
}

fn push_row(text: &mut String, streams: &[StreamLine], row: &DirtyRow) -> Result<(), AllocError>
    ensures { OnOk result
        (string_bytes text.new ≡ string_bytes text.old ++ row_text streams.now row.now) }
{
    let oldest = row.oldest.number();
    let newest = row.newest.number();
    text.push_str("; ")?;
    push_page(text, streams, row.page)?;
    write!(text, " {oldest} {newest}")
}

fn push_rows(text: &mut String, streams: &[StreamLine], rows: &[DirtyRow]) -> Result<(), AllocError>
    ensures { OnOk result
        (string_bytes text.new ≡ string_bytes text.old ++ rows_text streams.now rows.now) }
{
    for row in rows {
        push_row(text, streams, row)?;
    }
    Ok(())
}

fn push_counted_rows(
    text: &mut String,
    streams: &[StreamLine],
    rows: &[DirtyRow],
) -> Result<(), AllocError>
    ensures { OnOk result
        (string_bytes text.new ≡ string_bytes text.old ++ counted_rows streams.now rows.now) }
{
    let count = rows.len();
    write!(text, "ok rows {count}")?;
    push_rows(text, streams, rows)
}

fn push_ahead(
    text: &mut String,
    streams: &[StreamLine],
    ahead: Option<Request>,
    behind: &str,
) -> Result<(), AllocError>
    ensures { OnOk result
        (string_bytes text.new ≡ string_bytes text.old ++ ahead_text streams.now ahead behind.now) }
{
    match ahead {
        Some(request) => {
            text.push_str("ok ")?;
            push_request(text, streams, request)?;
            text.push_str(behind)
        }
        None => text.push_str("ok none"),
    }
}

fn whole_word(whole: bool) -> &'static str
    ensures { result.now ≡ whole_word whole }
{
    if whole { " whole" } else { " part" }
}

fn push_stepped(
    text: &mut String,
    streams: &[StreamLine],
    stepped: Option<AheadDone>,
) -> Result<(), AllocError>
    ensures { OnOk result
        (string_bytes text.new ≡ string_bytes text.old ++ stepped_text streams.now stepped) }
{
    match stepped {
        Some(done) => push_ahead(text, streams, Some(done.request), whole_word(done.whole)),
        None => push_ahead(text, streams, None, ""),
    }
}

/// What a call answered that is done.
pub(crate) fn push_reply(
    text: &mut String,
    streams: &[StreamLine],
    reply: &Reply,
) -> Result<(), AllocError>
    ensures { OnOk result
        (string_bytes text.new ≡ string_bytes text.old ++ reply_text streams.now reply.now) }
{
    match reply {
        Reply::Unit => text.push_str("ok"),
        Reply::Read(bytes) => push_read(text, bytes),
        Reply::Hold(id) => write!(text, "ok hold {id}"),
        Reply::Value(value) => {
            text.push_str("ok ")?;
            push_value(text, value)
        }
        Reply::Rows(rows) => push_counted_rows(text, streams, rows.as_slice()),
        Reply::Ahead(ahead) => push_ahead(text, streams, *ahead, ""),
        Reply::Whole(whole) => {
            let how = whole_word(*whole);
            write!(text, "ok{how}")
        }
    }
}

fn push_more_ids(text: &mut String, ids: &[u64]) -> Result<(), AllocError>
    ensures { OnOk result (string_bytes text.new ≡ string_bytes text.old ++ more_ids ids.now) }
{
    for &id in ids {
        write!(text, " {id}")?;
    }
    Ok(())
}

fn push_ids(text: &mut String, ids: &[u64]) -> Result<(), AllocError>
    ensures { OnOk result (string_bytes text.new ≡ string_bytes text.old ++ ids_text ids.now) }
{
    if ids.is_empty() {
        return text.push_str("ok posted -");
    }
    text.push_str("ok posted")?;
    push_more_ids(text, ids)
}

fn push_tick(text: &mut String, tick: &Tick) -> Result<(), AllocError>
    ensures { OnOk result (string_bytes text.new ≡ string_bytes text.old ++ tick_text tick.now) }
{
    let picked = tick.picked.as_slice().len();
    let written = tick.written;
    let skipped = tick.skipped;
    let failed = tick.failed;
    write!(
        text,
        "ok tick picked {picked} written {written} skipped {skipped} failed {failed}"
    )
}

fn push_read(text: &mut String, bytes: &Bytes) -> Result<(), AllocError>
    ensures { OnOk result
        (string_bytes text.new ≡ string_bytes text.old ++ (codes "ok " ++ bytes_text bytes.now)) }
{
    text.push_str("ok ")?;
    push_bytes(text, bytes)
}

// A read that was answered at once, or its number in the queue.
fn push_started(text: &mut String, started: &AsyncStart) -> Result<(), AllocError>
    ensures { OnOk result (string_bytes text.new ≡ string_bytes text.old ++ started_text started.now) }
{
    match started {
        AsyncStart::Ready(bytes) => push_read(text, bytes),
        AsyncStart::Queued(id) => {
            let n = id.n;
            write!(text, "ok queued {n}")
        }
    }
}

// A queued read that was completed, with its answer.
fn push_completed(text: &mut String, completed: &Option<AsyncDone>) -> Result<(), AllocError>
    ensures { OnOk result (string_bytes text.new ≡ string_bytes text.old ++ completed_text completed.now) }
{
    let done = match completed {
        Some(done) => done,
        None => return text.push_str("ok none"),
    };
    let pass = done.id.pass;
    let n = done.id.n;
    write!(text, "ok done t{pass} {n} ")?;
    match &done.answer {
        Ok(bytes) => push_read(text, bytes),
        Err(error) => push_error(text, *error),
    }
}

/// The answer of a line.
pub(crate) fn push_answer(
    text: &mut String,
    streams: &[StreamLine],
    answer: &Answer,
) -> Result<(), AllocError>
    ensures { OnOk result
        (string_bytes text.new ≡ string_bytes text.old ++ answer_text streams.now answer.now) }
{
    match answer {
        Answer::Given(reply) => push_reply(text, streams, reply),
        Answer::Refused(error) => push_error(text, *error),
        Answer::NcRefused { done, cause } => {
            push_error(text, *cause)?;
            write!(text, " done {done}")
        }
        Answer::Count(bytes) => write!(text, "ok count {bytes}"),
        Answer::NewLsn(lsn) => {
            let lsn = lsn.number();
            write!(text, "ok lsn {lsn}")
        }
        Answer::Ticked(tick) => push_tick(text, tick),
        Answer::Posts(ids) => push_ids(text, ids.as_slice()),
        Answer::Deferred(id) => write!(text, "ok deferred {id}"),
        Answer::Levels(levels) => write!(text, "ok levels {levels}"),
        Answer::Stepped(stepped) => push_stepped(text, streams, *stepped),
        Answer::Started(started) => push_started(text, started),
        Answer::Completed(completed) => push_completed(text, completed),
        Answer::Restarted(updates) => write!(text, "ok restart {updates}"),
        Answer::LockId(id) => write!(text, "ok lock {id}"),
        Answer::NoHold => text.push_str("no hold"),
        Answer::NotNow => text.push_str("not now"),
        Answer::Faulted => text.push_str("faulted"),
    }
}
