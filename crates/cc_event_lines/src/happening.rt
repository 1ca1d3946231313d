//! One event of the World, and what it leaves of the journal.

ghost use Rattle.std.specs.Prelude.{◌≡◌, length};
ghost use Rattle.cc_pieces.specs.Steps.{answer_by};
ghost use Rattle.cc_turns.specs.Desk.{tells_of};
ghost use Rattle.cc_effects.specs.Events.{IsKnown, IsUnposted};
ghost use Rattle.cc_event_lines.specs.Doing.{IsPlainEvent};
ghost use Rattle.cc_event_lines.specs.Happening.{HasHappened, PostsNone, reply_without, without_routine};
ghost use Rattle.cc_event_lines.specs.Lines.{WasAnswered};

use cc_effects::{Event, StepReply};
use cc_entry::Answer;
use cc_traits::{LogFile, PageDisk, PostRoutine};
use cc_world::World;

/// Lets an event happen, at the end of the journal so far.
pub(crate) fn happen<D: PageDisk, L: LogFile, Q: PostRoutine>(
    world: &mut World<D, L, Q>,
    event: Event<Q>,
) -> StepReply<Q>
    requires known { IsKnown (length world.old.begun.disks) event }
    requires unposted { IsUnposted Q.posted event }
    ensures { HasHappened (tells_of D.told D.faults L.told L.faults Q.posted) event result world.old world.new }
{
    // The journal is what says that it has the room that its entries leave.
    let _journal = world.journal();
    world.step(event)
}

/// Lets an event happen that neither defers nor posts a write, and answers its line.
pub(crate) fn answer_to<D: PageDisk, L: LogFile, Q: PostRoutine>(
    world: &mut World<D, L, Q>,
    event: Event<Q>,
) -> Answer
    requires known { IsKnown (length world.old.begun.disks) event }
    requires plain { IsPlainEvent event }
    ensures { WasAnswered (tells_of D.told D.faults L.told L.faults Q.posted) (without_routine event) result
        world.old world.new }
{
    answer_of(happen(world, event))
}

// The answer of a line whose event was replied this. A post is answered apart, as its routine comes back.
fn answer_of<Q: Drop>(reply: StepReply<Q>) -> Answer
    requires { PostsNone reply }
    ensures { result ≡ answer_by (reply_without reply) }
{
    match reply {
        StepReply::Done(reply) => Answer::Given(reply),
        StepReply::NewLsn(lsn) => Answer::NewLsn(lsn),
        StepReply::Deferred(id) => Answer::Deferred(id),
        StepReply::Posted(_) => unreachable!(),
        StepReply::Refused(error) => Answer::Refused(error),
        StepReply::Kept(_, error) => Answer::Refused(error),
        StepReply::Faulted => Answer::Faulted,
        StepReply::NotNow => Answer::NotNow,
    }
}
