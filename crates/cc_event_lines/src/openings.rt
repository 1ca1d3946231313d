//! The streams of a script, which pass 0 sets up before the first line.

ghost use Rattle.std.specs.Prelude.{◌≡◌, ◌+◌, ◌<◌, ◌≤◌, length, vec_len, vec_capacity};
ghost use Rattle.cc_model.specs.Acts.{file_of};
ghost use Rattle.cc_turns.specs.Desk.{tells_of};
ghost use Rattle.cc_effects.specs.Events.{NamesOf};
ghost use Rattle.cc_effects.specs.declared.events.Event.TheVariants as event;
ghost use Rattle.cc_event_lines.specs.Lines.{StreamWent, StreamsWent, WasAnswered};

use crate::happening::answer_to;
use cc_effects::Event;
use cc_entry::{Answer, Call, FileId, FileSizes, LineReply, Reply};
use cc_script::StreamLine;
use cc_traits::{LogFile, PageDisk, PostRoutine};
use cc_world::World;

/// Sets the streams up in their order, and puts the reply of each line behind the replies.
pub(crate) fn open_streams<D: PageDisk, L: LogFile, Q: PostRoutine>(
    world: &mut World<D, L, Q>,
    streams: &[StreamLine],
    replies: &mut Vec<LineReply>,
)
    requires known { length streams.now ≤ length world.old.begun.disks }
    requires few { length streams.now ≤ 16 }
    requires room { vec_len replies.old + length streams.now ≤ vec_capacity replies.old }
    ensures went { StreamsWent (tells_of D.told D.faults L.told L.faults Q.posted) 0 streams.now
        replies.old.items replies.new.items world.old world.new }
    ensures capacity { vec_capacity replies.new ≡ vec_capacity replies.old }
{
    for (number, stream) in streams.iter().enumerate() {
        let answer = open_stream(world, number as u8, stream);
        replies.push_reserved(LineReply {
            line: stream.line,
            answer,
        });
    }
}

// Initialises the first object of a stream, with what is allocated as large as the size, and then gives the stream its
// log, where the line names one and the first call was done.
fn open_stream<D: PageDisk, L: LogFile, Q: PostRoutine>(
    world: &mut World<D, L, Q>,
    number: u8,
    stream: &StreamLine,
) -> Answer
    requires known { number < length world.old.begun.disks }
    requires few { number < 16 }
    ensures { StreamWent (tells_of D.told D.faults L.told L.faults Q.posted) number stream.now result
        world.old world.new }
{
    let file = FileId::new(number, 0).unwrap();
    let opening = Call::Initialise {
        file,
        sizes: FileSizes {
            allocation: stream.size,
            size: stream.size,
            valid: stream.valid,
        },
        quota: stream.quota,
        temporary: stream.temporary,
    };
    match (stream.log, set_up(world, opening)) {
        (Some(handle), Answer::Given(Reply::Unit)) => set_up(world, Call::SetLog { file, handle }),
        (_, answer) => answer,
    }
}

// A call of pass 0.
fn set_up<D: PageDisk, L: LogFile, Q: PostRoutine>(world: &mut World<D, L, Q>, call: Call) -> Answer
    requires { NamesOf (length world.old.begun.disks) (file_of call) }
    ensures { WasAnswered (tells_of D.told D.faults L.told L.faults Q.posted) (event.Do 0 call) result
        world.old world.new }
{
    answer_to(world, Event::Do { pass: 0, call })
}
