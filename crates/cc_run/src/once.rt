//! What the lines that post tell: each deferred write in one answer alone.

ghost use Rattle.std.specs.Prelude.{◌≡◌, ◌<◌, ◌++◌, ℕ, nat_eq, length};
ghost use Rattle.std.specs.List.{IsDistinct};
ghost use Rattle.cc_entry.specs.declared.answer.Answer.{Answer};
ghost use Rattle.cc_pieces.specs.Explained.{posted_in};
ghost use Rattle.cc_pieces.specs.Served.{posted_by};
ghost use Rattle.cc_run.specs.Once.{AllTellPart, ArePart, IsAnswerPut, TellsPart, tells_it};

use cc_entry::{Answer, Ids, LineReply};
use cc_script::{Action, ActionLine};
use std::mem::replace;

/// Leaves out of each answer of a line that posts what a later answer tells too. Each deferred write is posted once, by one
/// line; but what a pass is promised of its turns does not say that no other line was told of it, so that is looked for here.
pub(crate) fn tell_once(lines: &[ActionLine], replies: &mut [LineReply])
    requires { length lines.now ≡ length replies.old }
    ensures part { AllTellPart lines.now replies.old replies.new }
    ensures once { IsDistinct nat_eq (posted_in lines.now replies.new) }
    ensures all { (id : ℕ) → tells_it id (posted_in lines.now replies.old) ≡ tells_it id (posted_in lines.now replies.new) }
{
    let mut at = lines.len();
    while at > 0 {
        at -= 1;
        let told = exchange(replies, at, Answer::NoHold);
        let all: &[LineReply] = replies;
        let kept = untold(told, &lines[at], &lines[at + 1..], &all[at + 1..]);
        put(replies, at, kept);
    }
}

// Puts an answer in place of another.
fn put(replies: &mut [LineReply], at: usize, answer: Answer)
    requires { at < length replies.old }
    ensures { (told : Answer) × IsAnswerPut at answer told replies.old replies.new }
{
    exchange(replies, at, answer);
}

// Puts an answer in place of another, which comes back.
fn exchange(replies: &mut [LineReply], at: usize, answer: Answer) -> Answer
    requires { at < length replies.old }
    ensures { IsAnswerPut at answer result replies.old replies.new }
{
    let reply = &mut replies[at];
    replace(&mut reply.answer, answer)
}

// The answer of a line without what these later ones tell, or the line itself again.
fn untold(told: Answer, line: &ActionLine, lines: &[ActionLine], replies: &[LineReply]) -> Answer
    requires long { length lines.now ≡ length replies.now }
    requires apart { IsDistinct nat_eq (posted_in lines.now replies.now) }
    ensures part { TellsPart line.now.action told result }
    ensures once { IsDistinct nat_eq (posted_by line.now.action result ++ posted_in lines.now replies.now) }
    ensures all { (id : ℕ) → tells_it id (posted_by line.now.action told ++ posted_in lines.now replies.now)
        ≡ tells_it id (posted_by line.now.action result ++ posted_in lines.now replies.now) }
{
    match (&line.action, told) {
        (Action::Post, Answer::Posts(ids)) => {
            let kept = untold_ids(ids.into_vec(), lines, replies);
            Answer::Posts(Ids::from_vec(kept))
        }
        (_, told) => told,
    }
}

// These numbers without those that the lines tell, and each of the others once.
fn untold_ids(ids: Vec<u64>, lines: &[ActionLine], replies: &[LineReply]) -> Vec<u64>
    requires long { length lines.now ≡ length replies.now }
    requires apart { IsDistinct nat_eq (posted_in lines.now replies.now) }
    ensures part { ArePart ids.items result.items }
    ensures once { IsDistinct nat_eq (result.items ++ posted_in lines.now replies.now) }
    ensures all { (id : ℕ) → tells_it id (ids.items ++ posted_in lines.now replies.now)
        ≡ tells_it id (result.items ++ posted_in lines.now replies.now) }
{
    let mut ids = ids;
    let mut at = ids.len();
    while at > 0 {
        at -= 1;
        let id = ids[at];
        if ids[at + 1..].contains(&id) || is_told(lines, replies, id) {
            ids.remove(at);
        }
    }
    ids
}

// Whether a line that posts tells a number.
fn is_told(lines: &[ActionLine], replies: &[LineReply], id: u64) -> bool
    requires { length lines.now ≡ length replies.now }
    ensures { result ≡ tells_it id (posted_in lines.now replies.now) }
{
    let mut at = 0;
    while at < lines.len() {
        if tells(&lines[at], &replies[at], id) {
            return true;
        }
        at += 1;
    }
    false
}

// Whether the answer of a line that posts has a number.
fn tells(line: &ActionLine, reply: &LineReply, id: u64) -> bool
    ensures { result ≡ tells_it id (posted_by line.now.action reply.now.answer) }
{
    match (&line.action, &reply.answer) {
        (Action::Post, Answer::Posts(ids)) => ids.as_slice().contains(&id),
        _ => false,
    }
}
