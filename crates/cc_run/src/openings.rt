//! The streams of a script on a desk, each of which is opened before the first line.

ghost use Rattle.std.specs.Prelude.{◌≡◌, ◌≢◌, ℕ, ◌+◌, ◌<◌, ◌≤◌, None, length, vec_len, vec_capacity};
ghost use Rattle.cc_effects.specs.Moments.{IsIdle};
ghost use Rattle.cc_turns.specs.Desk.{standing_of};
ghost use Rattle.cc_lines.specs.Line.{IsFullTold, WentOn};
ghost use Rattle.cc_pieces.specs.Openings.{OpeningBehind};
ghost use Rattle.cc_run.specs.Desks.{PassIsReady, IsSameRun};
ghost use Rattle.cc_run.specs.Lines.{StreamsOpened};
ghost use Rattle.cc_pieces.specs.Restarts.{refusal_told, refused_for, refused_restart};

use cc_entry::{Answer, CcError, LineReply};
use cc_lines::open_stream;
use cc_script::{RestartLine, StreamLine};
use cc_traits::{LogFile, PageDisk, PostRoutine};
use cc_turns::Desk;
use std::alloc::Global;

/// Opens the streams in their order as pass 0, but those whose log was not restarted, by the replies of the restarts, and puts the
/// answer of each line behind the replies that are there.
pub(crate) fn open_streams<D: PageDisk, L: LogFile, Q: PostRoutine>(
    alloc: Global,
    desk: &mut Desk<D, L, Q>,
    restarts: &[RestartLine],
    ended: &[LineReply],
    streams: &[StreamLine],
    replies: &mut Vec<LineReply>,
)
    requires first { desk.old.pass ≡ 0 }
    requires begins { desk.old.since ≡ desk.old.last.entries }
    requires ready { PassIsReady (standing_of D.told D.faults L.told L.faults desk.old) }
    requires known { length streams.now ≤ (standing_of D.told D.faults L.told L.faults desk.old).streams }
    requires few { length streams.now ≤ 16 }
    requires room { vec_len replies.old + length streams.now ≤ vec_capacity replies.old }
    ensures opened { StreamsOpened (standing_of D.told D.faults L.told L.faults desk.old).setup restarts.now ended.now 0 streams.now
        replies.old.items replies.new.items desk.old.last.entries desk.new.last.entries }
    ensures alone { (me : ℕ) → me ≢ 0 → IsIdle me desk.old.last.entries desk.new.last.entries }
    ensures run { IsSameRun (standing_of D.told D.faults L.told L.faults desk.old)
        (standing_of D.told D.faults L.told L.faults desk.new) }
    ensures ready { PassIsReady (standing_of D.told D.faults L.told L.faults desk.new) }
    ensures capacity { vec_capacity replies.new ≡ vec_capacity replies.old }
{
    let mut number = 0;
    for stream in streams {
        let refused = refused_for(stream.log, restarts, ended);
        let answer = open_behind(alloc, desk, number, stream, refused);
        replies.push_reserved(LineReply {
            line: stream.line,
            answer,
        });
        number += 1;
    }
    desk.own();
}

// Opens a stream, but where the restart of its log was refused: then its line is answered so.
fn open_behind<D: PageDisk, L: LogFile, Q: PostRoutine>(
    alloc: Global,
    desk: &mut Desk<D, L, Q>,
    number: u8,
    stream: &StreamLine,
    refused: Option<CcError>,
) -> Answer
    requires first { desk.old.pass ≡ 0 }
    requires ready { PassIsReady (standing_of D.told D.faults L.told L.faults desk.old) }
    requires known { number < (standing_of D.told D.faults L.told L.faults desk.old).streams }
    requires few { number < 16 }
    ensures opened { OpeningBehind (standing_of D.told D.faults L.told L.faults desk.old).setup number stream.now refused result
        desk.old.last.entries desk.new.last.entries }
    ensures full { refused ≡ None → IsFullTold (standing_of D.told D.faults L.told L.faults desk.new) result }
    ensures goes_on { WentOn (standing_of D.told D.faults L.told L.faults desk.old)
        (standing_of D.told D.faults L.told L.faults desk.new) }
{
    match refused {
        Some(error) => Answer::Refused(error),
        None => open_stream(alloc, desk, number, stream),
    }
}

// By what the restart of a stream's log was refused, where the stream has one.
fn refused_for(log: Option<u8>, restarts: &[RestartLine], replies: &[LineReply]) -> Option<CcError>
    ensures { result ≡ refused_for log restarts.now replies.now }
{
    match log {
        Some(handle) => refused_restart(handle, restarts, replies),
        None => None,
    }
}

// By what the restart of a log was refused, where there was one.
fn refused_restart(handle: u8, restarts: &[RestartLine], replies: &[LineReply]) -> Option<CcError>
    ensures { result ≡ refused_restart handle restarts.now replies.now }
{
    for number in 0..restarts.len() {
        let Some(reply) = replies.get(number) else {
            return None;
        };
        if restarts[number].handle == handle {
            return refusal_told(&reply.answer);
        }
    }
    None
}

// The refusal that an answer tells.
fn refusal_told(answer: &Answer) -> Option<CcError>
    ensures { result ≡ refusal_told answer.now }
{
    match answer {
        Answer::Refused(error) => Some(*error),
        _ => None,
    }
}
