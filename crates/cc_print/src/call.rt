//! Calls as they are printed: the verb of the script's line that makes the call, then its arguments.

ghost use Rattle.std.specs.Prelude.{◌≡◌, ◌++◌, OnOk, codes, string_bytes};
ghost use Rattle.cc_print.specs.Words.{file_text, number_if};
ghost use Rattle.cc_print.specs.Calls.{of_file_span, of_file_numbers, of_file_bytes, of_hold, of_hold_numbers, of_hold_bytes, initialise_text, prepare_text, digit_of, call_text};

use crate::query::push_query;
use crate::words::{
    lsn_number, push_bytes, push_file, push_number_if, push_of_file, push_of_file_number,
    push_request, push_span_if, push_verb, word_if,
};
use cc_entry::{Bytes, Call, FileId, FileSizes, Quota, Span};
use cc_script::StreamLine;
use std::alloc::AllocError;

fn push_of_file_span(
    text: &mut String,
    verb: &str,
    streams: &[StreamLine],
    file: FileId,
    span: Option<Span>,
) -> Result<(), AllocError>
    ensures { OnOk result
        (string_bytes text.new ≡ string_bytes text.old ++ of_file_span verb.now streams.now file span) }
{
    push_verb(text, verb, streams, file)?;
    push_span_if(text, span)
}

fn push_of_file_numbers(
    text: &mut String,
    verb: &str,
    streams: &[StreamLine],
    file: FileId,
    numbers: (u64, u64),
    behind: &str,
) -> Result<(), AllocError>
    ensures { OnOk result
        (string_bytes text.new ≡ string_bytes text.old ++ of_file_numbers verb.now streams.now file numbers.0 numbers.1 behind.now) }
{
    let first = numbers.0;
    let second = numbers.1;
    push_verb(text, verb, streams, file)?;
    write!(text, " {first} {second}{behind}")
}

fn push_of_file_bytes(
    text: &mut String,
    verb: &str,
    streams: &[StreamLine],
    file: FileId,
    at: u64,
    bytes: &Bytes,
) -> Result<(), AllocError>
    ensures { OnOk result
        (string_bytes text.new ≡ string_bytes text.old ++ of_file_bytes verb.now streams.now file at bytes.now) }
{
    push_verb(text, verb, streams, file)?;
    write!(text, " {at} ")?;
    push_bytes(text, bytes)
}

fn push_of_hold(text: &mut String, verb: &str, hold: u64, behind: &str) -> Result<(), AllocError>
    ensures { OnOk result
        (string_bytes text.new ≡ string_bytes text.old ++ of_hold verb.now hold behind.now) }
{
    write!(text, "{verb} #{hold}{behind}")
}

fn push_of_hold_number_if(
    text: &mut String,
    verb: &str,
    hold: u64,
    number: Option<u64>,
) -> Result<(), AllocError>
    ensures { OnOk result
        (string_bytes text.new ≡ string_bytes text.old ++ of_hold verb.now hold (number_if number)) }
{
    write!(text, "{verb} #{hold}")?;
    push_number_if(text, number)
}

fn push_of_hold_numbers(
    text: &mut String,
    verb: &str,
    hold: u64,
    at: u64,
    len: u64,
) -> Result<(), AllocError>
    ensures { OnOk result
        (string_bytes text.new ≡ string_bytes text.old ++ of_hold_numbers verb.now hold at len) }
{
    write!(text, "{verb} #{hold} {at} {len}")
}

fn push_of_hold_bytes(
    text: &mut String,
    verb: &str,
    hold: u64,
    at: u64,
    bytes: &Bytes,
) -> Result<(), AllocError>
    ensures { OnOk result
        (string_bytes text.new ≡ string_bytes text.old ++ of_hold_bytes verb.now hold at bytes.now) }
{
    write!(text, "{verb} #{hold} {at} ")?;
    push_bytes(text, bytes)
}

fn push_initialise(
    text: &mut String,
    streams: &[StreamLine],
    file: FileId,
    sizes: FileSizes,
    quota: Quota,
    temporary: bool,
) -> Result<(), AllocError>
    ensures { OnOk result
        (string_bytes text.new ≡ string_bytes text.old ++ initialise_text streams.now file sizes quota temporary) }
{
    let allocation = sizes.allocation;
    let size = sizes.size;
    let valid = sizes.valid;
    let quota = quota.blocks();
    let temporary = word_if(temporary, " temporary");
    text.push_str("init ")?;
    push_file(text, streams, file)?;
    write!(
        text,
        " {allocation} {size} {valid} quota {quota}{temporary}"
    )
}

fn push_prepare(
    text: &mut String,
    streams: &[StreamLine],
    file: FileId,
    range: (u64, u64),
    zero: bool,
    exclusive: bool,
) -> Result<(), AllocError>
    ensures { OnOk result
        (string_bytes text.new ≡ string_bytes text.old ++ prepare_text streams.now file range.0 range.1 zero exclusive) }
{
    let at = range.0;
    let len = range.1;
    let zero = word_if(zero, " zero");
    let exclusive = word_if(exclusive, " excl");
    text.push_str("prepare ")?;
    push_file(text, streams, file)?;
    write!(text, " {at} {len}{zero}{exclusive}")
}

fn digit_of(is_set: bool) -> u64
    ensures { result ≡ digit_of is_set }
{
    if is_set { 1 } else { 0 }
}

/// A call with its arguments. A hold is `#` and its id, and the hold that a call makes has no word.
pub(crate) fn push_call(
    text: &mut String,
    streams: &[StreamLine],
    call: &Call,
) -> Result<(), AllocError>
    ensures { OnOk result
        (string_bytes text.new ≡ string_bytes text.old ++ call_text streams.now call.now) }
{
    match call {
        Call::Initialise {
            file,
            sizes,
            quota,
            temporary,
        } => { push_initialise(text, streams, *file, *sizes, *quota, *temporary) }
        Call::Uninitialise { file, truncate } => {
            push_verb(text, "uninit", streams, *file)?;
            push_number_if(text, *truncate)
        }
        Call::CopyRead {
            file,
            at,
            len,
            wait,
        } => {
            let nowait = word_if(!*wait, " nowait");
            push_of_file_numbers(text, "cread", streams, *file, (*at, *len), nowait)
        }
        Call::CopyWrite { file, at, bytes } => push_of_file_bytes(
            text, "cwrite", streams, *file, *at, bytes,
        ),
        Call::Zero { file, span } => {
            push_of_file_numbers(text, "zero", streams, *file, (span.from(), span.to()), "")
        }
        Call::Map { file, at, len } => push_of_file_numbers(
            text,
            "map",
            streams,
            *file,
            (*at, *len),
            "",
        ),
        Call::PinRead {
            file,
            at,
            len,
            exclusive,
        } => {
            let exclusive = word_if(*exclusive, " excl");
            push_of_file_numbers(text, "pin", streams, *file, (*at, *len), exclusive)
        }
        Call::PinMapped { hold, exclusive } => push_of_hold(
            text,
            "pinmapped",
            *hold,
            word_if(*exclusive, " excl"),
        ),
        Call::PreparePin {
            file,
            at,
            len,
            zero,
            exclusive,
        } => { push_prepare(text, streams, *file, (*at, *len), *zero, *exclusive) }
        Call::MappedRead { hold, at, len } | Call::PinnedRead { hold, at, len } => {
            push_of_hold_numbers(text, "hread", *hold, *at, *len)
        }
        Call::PinnedWrite { hold, at, bytes } => push_of_hold_bytes(
            text, "pwrite", *hold, *at, bytes,
        ),
        Call::SetDirty { hold, lsn } => {
            push_of_hold_number_if(text, "stamp", *hold, lsn_number(*lsn))
        }
        Call::EndHold { hold } => push_of_hold(text, "unpin", *hold, ""),
        Call::Repin { hold } => push_of_hold(text, "repin", *hold, ""),
        Call::MdlRead { file, at, len } => push_of_file_numbers(
            text,
            "mdlread",
            streams,
            *file,
            (*at, *len),
            "",
        ),
        Call::MdlWrite { file, at, len } => push_of_file_numbers(
            text,
            "mdlwrite",
            streams,
            *file,
            (*at, *len),
            "",
        ),
        Call::MdlBytes { hold, at, len } => push_of_hold_numbers(text, "mdlget", *hold, *at, *len),
        Call::MdlStore { hold, at, bytes } => push_of_hold_bytes(text, "mdlput", *hold, *at, bytes),
        Call::NcRead { file, page } => push_of_file_number(text, "ncread", streams, *file, *page),
        Call::NcStore { file, page, bytes } => push_of_file_bytes(
            text, "ncstore", streams, *file, *page, bytes,
        ),
        Call::NcWrite { file, page } => push_of_file_number(text, "ncwrite", streams, *file, *page),
        Call::SetSizes {
            file,
            allocation,
            size,
        } => { push_of_file_numbers(text, "sizes", streams, *file, (*allocation, *size), "") }
        Call::Flush { file, span } => push_of_file_span(text, "flush", streams, *file, *span),
        Call::Purge { file, span } => push_of_file_span(text, "purge", streams, *file, *span),
        Call::Discard { file, span } => push_of_file_span(text, "discard", streams, *file, *span),
        Call::SetLog { file, handle } => push_of_file_number(
            text,
            "setlog",
            streams,
            *file,
            u64::from(*handle),
        ),
        Call::Query(query) => push_query(text, streams, query),
        Call::SetGranularity { file, bytes } => push_of_file_number(
            text,
            "granularity",
            streams,
            *file,
            *bytes,
        ),
        Call::SetAttributes {
            file,
            no_read_ahead,
            no_write_behind,
        } => {
            let flags = (digit_of(*no_read_ahead), digit_of(*no_write_behind));
            push_of_file_numbers(text, "attributes", streams, *file, flags, "")
        }
        Call::SetThreshold { file, pages } => push_of_file_number(
            text,
            "fthreshold",
            streams,
            *file,
            u64::from(*pages),
        ),
        Call::AskAhead { file, at, len } => push_of_file_numbers(
            text,
            "ask",
            streams,
            *file,
            (*at, *len),
            "",
        ),
        Call::AheadStep { request } => push_request(text, streams, *request),
    }
}
