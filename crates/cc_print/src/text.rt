//! The text of a run: its five kinds of section.

ghost use Rattle.std.specs.Prelude.{◌≡◌, ◌++◌, IfOk, OnOk, codes, string_bytes};
ghost use Rattle.cc_print.specs.Entries.{entry_text};
ghost use Rattle.cc_print.specs.Text.{numbered, section, reply_line, restart_lines, stream_lines, setup_lines, caller_lines, each_caller, callers_text, caller_heading, journal_from, table_lines, trace_lines, text_of};

use crate::answer::push_answer;
use crate::entry::push_entry;
use crate::replies::Replies;
use crate::table::{TableRow, push_table_line};
use crate::trace::push_trace_line;
use cc_entry::{Entry, LineReply, NoMemory};
use cc_script::{ActionLine, RestartLine, Script, StreamLine};
use std::alloc::{AllocError, Global};

/// The callers of a script, in their order.
const CALLERS: [u32; 16] = [1, 2, 3, 4, 5, 6, 7, 8, 9, 10, 11, 12, 13, 14, 15, 16];

fn push_section(text: &mut String, heading: &str, lines: &str) -> Result<(), AllocError>
    ensures { OnOk result
        (string_bytes text.new ≡ string_bytes text.old ++ section heading.now lines.now) }
{
    if !lines.is_empty() {
        text.push_str(heading)?;
        text.push_str("\n")?;
        text.push_str(lines)?;
    }
    Ok(())
}

fn push_reply_line(
    text: &mut String,
    streams: &[StreamLine],
    replies: &Replies,
    line: u32,
) -> Result<(), AllocError>
    ensures { OnOk result
        (string_bytes text.new ≡ string_bytes text.old ++ reply_line streams.now replies.now line) }
{
    match replies.of_line(line) {
        Some(reply) => {
            let number = reply.line;
            write!(text, "{number} ")?;
            push_answer(text, streams, &reply.answer)?;
            text.push_str("\n")
        }
        None => Ok(()),
    }
}

fn push_restart_lines(
    text: &mut String,
    restarts: &[RestartLine],
    streams: &[StreamLine],
    replies: &Replies,
) -> Result<(), AllocError>
    ensures { OnOk result
        (string_bytes text.new ≡ string_bytes text.old ++ restart_lines restarts.now streams.now replies.now) }
{
    for restart in restarts {
        push_reply_line(text, streams, replies, restart.line)?;
    }
    Ok(())
}

fn push_stream_lines(
    text: &mut String,
    streams: &[StreamLine],
    replies: &Replies,
) -> Result<(), AllocError>
    ensures { OnOk result
        (string_bytes text.new ≡ string_bytes text.old ++ stream_lines streams.now replies.now) }
{
    for stream in streams {
        push_reply_line(text, streams, replies, stream.line)?;
    }
    Ok(())
}

fn setup_lines(
    alloc: Global,
    restarts: &[RestartLine],
    streams: &[StreamLine],
    replies: &Replies,
) -> Result<String, AllocError>
    ensures { IfOk result (λ text. string_bytes text ≡ setup_lines restarts.now streams.now replies.now) }
{
    let mut text = String::new(alloc);
    push_restart_lines(&mut text, restarts, streams, replies)?;
    push_stream_lines(&mut text, streams, replies)?;
    Ok(text)
}

fn caller_lines(
    alloc: Global,
    streams: &[StreamLine],
    lines: &[ActionLine],
    replies: &Replies,
    caller: u32,
) -> Result<String, AllocError>
    ensures { IfOk result
        (λ text. string_bytes text ≡ caller_lines streams.now lines.now replies.now caller) }
{
    let mut text = String::new(alloc);
    for action in lines {
        if action.caller == caller {
            push_reply_line(&mut text, streams, replies, action.line)?;
        }
    }
    Ok(text)
}

fn caller_heading(alloc: Global, caller: u32) -> Result<String, AllocError>
    ensures { IfOk result (λ text. string_bytes text ≡ caller_heading caller) }
{
    format!(in alloc; "caller t{caller}")
}

fn push_each_caller(
    alloc: Global,
    text: &mut String,
    streams: &[StreamLine],
    lines: &[ActionLine],
    replies: &Replies,
    callers: &[u32],
) -> Result<(), AllocError>
    ensures { OnOk result
        (string_bytes text.new ≡ string_bytes text.old ++ each_caller streams.now lines.now replies.now callers.now) }
{
    for &caller in callers {
        let heading = caller_heading(alloc, caller)?;
        let told = caller_lines(alloc, streams, lines, replies, caller)?;
        push_section(text, heading.as_str(), told.as_str())?;
    }
    Ok(())
}

#[tactic(auto, unfolding(crate::specs::Text::callers_text))]
fn push_callers(
    alloc: Global,
    text: &mut String,
    streams: &[StreamLine],
    lines: &[ActionLine],
    replies: &Replies,
) -> Result<(), AllocError>
    ensures { OnOk result
        (string_bytes text.new ≡ string_bytes text.old ++ callers_text streams.now lines.now replies.now) }
{
    push_each_caller(alloc, text, streams, lines, replies, &CALLERS)
}

fn push_entry_line(
    text: &mut String,
    streams: &[StreamLine],
    number: u64,
    entry: &Entry,
) -> Result<(), AllocError>
    ensures { OnOk result
        (string_bytes text.new ≡ string_bytes text.old ++ numbered number (entry_text streams.now entry.now)) }
{
    write!(text, "{number} ")?;
    push_entry(text, streams, entry)?;
    text.push_str("\n")
}

fn push_journal_lines(
    text: &mut String,
    streams: &[StreamLine],
    journal: &[Entry],
) -> Result<(), AllocError>
    ensures { OnOk result
        (string_bytes text.new ≡ string_bytes text.old ++ journal_from streams.now 1 journal.now) }
{
    for (i, entry) in journal.iter().enumerate() {
        push_entry_line(text, streams, i as u64 + 1, entry)?;
    }
    Ok(())
}

// The journal's section. Most of a text is in it, so it is made at its place.
fn push_journal(
    text: &mut String,
    streams: &[StreamLine],
    journal: &[Entry],
) -> Result<(), AllocError>
    ensures { OnOk result
        (string_bytes text.new ≡ string_bytes text.old ++ section (codes "journal") (journal_from streams.now 1 journal.now)) }
{
    if !journal.is_empty() {
        text.push_str("journal\n")?;
        push_journal_lines(text, streams, journal)?;
    }
    Ok(())
}

fn table_lines(
    alloc: Global,
    streams: &[StreamLine],
    table: &[TableRow],
) -> Result<String, AllocError>
    ensures { IfOk result (λ text. string_bytes text ≡ table_lines streams.now table.now) }
{
    let mut text = String::new(alloc);
    for row in table {
        push_table_line(&mut text, streams, row)?;
    }
    Ok(text)
}

fn trace_lines(
    alloc: Global,
    streams: &[StreamLine],
    journal: &[Entry],
) -> Result<String, AllocError>
    ensures { IfOk result (λ text. string_bytes text ≡ trace_lines streams.now journal.now) }
{
    let mut text = String::new(alloc);
    for entry in journal {
        push_trace_line(&mut text, streams, entry)?;
    }
    Ok(text)
}

#[tactic(auto, unfolding(crate::specs::Text::text_of))]
fn whole_text(
    alloc: Global,
    script: &Script,
    replies: &[LineReply],
    journal: &[Entry],
    table: &[TableRow],
) -> Result<String, AllocError>
    ensures { IfOk result
        (λ text. string_bytes text ≡ text_of script.now replies.now journal.now table.now) }
{
    let streams = script.streams.as_slice();
    let replies = Replies::new(alloc, replies)?;
    let setup = setup_lines(alloc, script.restarts.as_slice(), streams, &replies)?;
    let rows = table_lines(alloc, streams, table)?;
    let trace = trace_lines(alloc, streams, journal)?;
    let mut text = String::new(alloc);
    push_section(&mut text, "setup", setup.as_str())?;
    push_callers(alloc, &mut text, streams, script.lines.as_slice(), &replies)?;
    push_journal(&mut text, streams, journal)?;
    push_section(&mut text, "table", rows.as_str())?;
    push_section(&mut text, "trace", trace.as_str())?;
    Ok(text)
}

/// The whole text of a run. `table` are the pages that are dirty at the end, by stream and page. Answers `NoMemory`
/// where memory is wanting.
pub fn text_of(
    alloc: Global,
    script: &Script,
    replies: &[LineReply],
    journal: &[Entry],
    table: &[TableRow],
) -> Result<Vec<u8>, NoMemory>
    ensures { IfOk result (λ bytes. bytes.items ≡ text_of script.now replies.now journal.now table.now) }
{
    match whole_text(alloc, script, replies, journal, table) {
        Ok(text) => Ok(text.into_bytes()),
        Err(_) => Err(NoMemory),
    }
}
