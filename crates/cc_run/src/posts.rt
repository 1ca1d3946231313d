//! The post routines of a run: what waits in the queue of deferred writes for each of them, and which are posted.

ghost use Rattle.std.specs.Prelude.{◌≡◌, ◌+◌, ◌≤◌, All, Some, false, length, reverse, vec_capacity};
ghost use Rattle.std.specs.List.{list_any};
ghost use Rattle.cc_script.specs.EventActions.{defer_lines, is_defer};
ghost use Rattle.cc_pieces.specs.Steps.{RoutinesLeft, deferral_in, deferrals_by, deferrals_of_lines, posts_it, was_posted};
ghost use Rattle.cc_run.specs.Once.{AreToldOnce};

use crate::once::tell_once;
use cc_entry::{Answer, Entry, LineReply};
use cc_lines::Fresh;
use cc_script::{Action, ActionLine, Script};
use cc_traits::PostRoutine;

/// What waits in the queue of deferred writes for the routine of a `defer` line: whether its write was posted.
#[derive(Drop)]
pub(crate) struct PostMark {
    posted: bool,
}

impl PostRoutine for PostMark {
    ghost posted = { λ m. m.posted };

    fn post(&mut self) {
        self.posted = true;
    }
}

impl Fresh for PostMark {
    fn fresh() -> PostMark {
        PostMark { posted: false }
    }
}

/// Settles what the lines of the throttle left, at the end of their run: each deferred write is told posted in one answer
/// alone, and each routine is posted whose write the journal shows posted. The first `defer` line has the first routine, and
/// so on.
pub(crate) fn settle<Q: PostRoutine>(
    script: &Script,
    replies: &mut Vec<LineReply>,
    entries: &[Entry],
    posts: Vec<Q>,
) -> Vec<Q>
    requires answered { length replies.old.items ≡ length script.now.streams + length script.now.lines }
    requires enough { defer_lines script.now.lines ≤ length posts.items }
    requires unposted { All (λ routine. Q.posted routine ≡ false) posts.items }
    ensures told { AreToldOnce script.now.streams script.now.lines replies.old.items replies.new.items }
    ensures posts { RoutinesLeft Q.posted (deferrals_by script.now.streams script.now.lines replies.new.items)
        (reverse entries.now) posts.items result.items }
    ensures count { length replies.new.items ≡ length replies.old.items }
    ensures capacity { vec_capacity replies.new ≡ vec_capacity replies.old }
{
    let lines = script.lines.as_slice();
    let answers = &mut replies[script.streams.len()..];
    tell_once(lines, answers);
    post_routines(lines, answers, entries, posts)
}

// Posts each routine whose deferred write a journal shows posted.
fn post_routines<Q: PostRoutine>(
    lines: &[ActionLine],
    answers: &[LineReply],
    entries: &[Entry],
    posts: Vec<Q>,
) -> Vec<Q>
    requires answered { length answers.now ≡ length lines.now }
    requires enough { defer_lines lines.now ≤ length posts.items }
    requires unposted { All (λ routine. Q.posted routine ≡ false) posts.items }
    ensures { RoutinesLeft Q.posted (deferrals_of_lines lines.now answers.now) (reverse entries.now) posts.items result.items }
{
    let mut posts = posts;
    let mut next = 0;
    let mut at = 0;
    while at < lines.len() {
        if defers(&lines[at]) {
            if was_posted(&answers[at], entries) {
                posts[next].post();
            }
            next += 1;
        }
        at += 1;
    }
    posts
}

// Whether a line defers a write.
fn defers(line: &ActionLine) -> bool
    ensures { result ≡ is_defer line.now.action }
{
    matches!(line.action, Action::Defer { .. })
}

// Whether a journal shows the write posted that was deferred by a line with this answer.
fn was_posted(reply: &LineReply, entries: &[Entry]) -> bool
    ensures { result ≡ was_posted (reverse entries.now) (Some (deferral_in reply.now.answer)) }
{
    match &reply.answer {
        Answer::Deferred(id) => is_post_among(entries, *id),
        _ => false,
    }
}

// Whether the post of a deferred write is among entries.
fn is_post_among(entries: &[Entry], id: u64) -> bool
    ensures { result ≡ list_any (posts_it id) (reverse entries.now) }
{
    entries.iter().any(|entry| is_post(entry, id))
}

// Whether an entry is the post of a deferred write.
fn is_post(entry: &Entry, id: u64) -> bool
    ensures { result ≡ posts_it id entry.now }
{
    match entry {
        Entry::Posted { id: posted } => *posted == id,
        _ => false,
    }
}
