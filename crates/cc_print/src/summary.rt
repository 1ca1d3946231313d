//! The summary of a generated script's run: one line of numbers.

ghost use Rattle.std.specs.Prelude.{◌≡◌, ◌++◌, IfOk, OnOk, string_bytes};
ghost use Rattle.cc_print.specs.Summary.{is_answer_of_kind, was_told, count_of_kind, counts_of, counts_text, summary_line, summary_of};

use crate::replies::Replies;
use crate::table::TableRow;
use cc_entry::{Answer, Entry, LineReply, NoMemory};
use cc_script::{ActionLine, Script};
use std::alloc::{AllocError, Global};

/// A kind of answer that a summary counts.
#[derive(Clone, Copy)]
pub(crate) enum Kind {
    Ok,
    Refused,
    NotNow,
    Faulted,
}

impl Kind {
    // Whether an answer is of the kind; `no hold` is of none.
    fn is_of(self, answer: &Answer) -> bool
        ensures { result ≡ is_answer_of_kind self answer.now }
    {
        match self {
            Kind::Ok => !matches!(
                answer,
                Answer::Refused(_)
                    | Answer::NcRefused { .. }
                    | Answer::NotNow
                    | Answer::Faulted
                    | Answer::NoHold
            ),
            Kind::Refused => matches!(answer, Answer::Refused(_) | Answer::NcRefused { .. }),
            Kind::NotNow => matches!(answer, Answer::NotNow),
            Kind::Faulted => matches!(answer, Answer::Faulted),
        }
    }

    // Whether a line was answered so.
    #[tactic(auto, unfolding(crate::specs::Summary::was_told))]
    fn was_told(self, replies: &Replies, line: u32) -> bool
        ensures { result ≡ was_told self replies.now line }
    {
        match replies.of_line(line) {
            Some(reply) => self.is_of(&reply.answer),
            None => false,
        }
    }

    // How many lines were answered so.
    fn count(self, lines: &[ActionLine], replies: &Replies) -> usize
        ensures { result ≡ count_of_kind self replies.now lines.now }
    {
        let mut count = 0;
        for action in lines {
            if self.was_told(replies, action.line) {
                count += 1;
            }
        }
        count
    }
}

/// How many lines were answered in each way.
#[derive(Clone, Copy)]
pub(crate) struct AnswerCounts {
    pub(crate) ok: usize,
    pub(crate) refused: usize,
    pub(crate) not_now: usize,
    pub(crate) faulted: usize,
}

#[tactic(auto, unfolding(crate::specs::Summary::counts_of))]
fn counts_of(lines: &[ActionLine], replies: &Replies) -> AnswerCounts
    ensures { result ≡ counts_of replies.now lines.now }
{
    AnswerCounts {
        ok: Kind::Ok.count(lines, replies),
        refused: Kind::Refused.count(lines, replies),
        not_now: Kind::NotNow.count(lines, replies),
        faulted: Kind::Faulted.count(lines, replies),
    }
}

fn push_counts(text: &mut String, counts: AnswerCounts) -> Result<(), AllocError>
    ensures { OnOk result (string_bytes text.new ≡ string_bytes text.old ++ counts_text counts) }
{
    let AnswerCounts {
        ok,
        refused,
        not_now,
        faulted,
    } = counts;
    write!(
        text,
        "ok {ok} refused {refused} notnow {not_now} faulted {faulted}"
    )
}

fn push_summary(
    text: &mut String,
    n: u64,
    counts: AnswerCounts,
    entries: usize,
    dirty: usize,
) -> Result<(), AllocError>
    ensures { OnOk result
        (string_bytes text.new ≡ string_bytes text.old ++ summary_line n counts entries dirty) }
{
    write!(text, "gen {n}: ")?;
    push_counts(text, counts)?;
    write!(text, " entries {entries} dirty {dirty}\n")
}

#[tactic(auto, unfolding(crate::specs::Summary::summary_of))]
fn summary_text(
    alloc: Global,
    n: u64,
    script: &Script,
    replies: &[LineReply],
    journal: &[Entry],
    table: &[TableRow],
) -> Result<String, AllocError>
    ensures { IfOk result
        (λ text. string_bytes text ≡ summary_of n script.now replies.now journal.now table.now) }
{
    let replies = Replies::new(alloc, replies)?;
    let counts = counts_of(script.lines.as_slice(), &replies);
    let mut text = String::new(alloc);
    push_summary(&mut text, n, counts, journal.len(), table.len())?;
    Ok(text)
}

/// The summary of the run of the script that a number gave: of its actions, how many were answered in each way, as
/// `text_of` prints the answers; how many entries the journal has; and how many pages are dirty at the end, of which
/// `table` has one row each. Answers `NoMemory` where memory is wanting.
pub fn summary_of(
    alloc: Global,
    n: u64,
    script: &Script,
    replies: &[LineReply],
    journal: &[Entry],
    table: &[TableRow],
) -> Result<Vec<u8>, NoMemory>
    ensures { IfOk result
        (λ bytes. bytes.items ≡ summary_of n script.now replies.now journal.now table.now) }
{
    match summary_text(alloc, n, script, replies, journal, table) {
        Ok(text) => Ok(text.into_bytes()),
        Err(_) => Err(NoMemory),
    }
}
