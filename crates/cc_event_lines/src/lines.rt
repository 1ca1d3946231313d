//! The lines of a script, each an event at its place.

ghost use Rattle.std.specs.Prelude.{◌≡◌, ◌+◌, ◌<◌, ◌≤◌, ◌∷◌, [], length, true, vec_len, vec_capacity};
ghost use Rattle.std.specs.List.{AllByRecursion};
ghost use Rattle.cc_script.specs.EventActions.{defer_lines, is_defer};
ghost use Rattle.cc_pieces.specs.Steps.{deferral_in};
ghost use Rattle.cc_turns.specs.Desk.{tells_of};
ghost use Rattle.cc_effects.specs.declared.events.Event.TheVariants as event;
ghost use Rattle.cc_event_lines.specs.Lines.{EventWent, IsKnownTo, LineWent, LinesWent, event_of_call};
ghost use Rattle.cc_event_lines.specs.Names.{bindings_in, words_in};
ghost use Rattle.cc_event_lines.specs.Routines.{RoutinesStand};

use crate::doing::{MadeDoing, doing_of};
use crate::happening::{answer_to, happen};
use crate::names::NamedHolds;
use crate::routines::{RoutineSlot, Routines};
use cc_effects::{Event, StepReply};
use cc_entry::{Answer, Call, CcError, FileId, Ids, LineReply};
use cc_script::ActionLine;
use cc_traits::{LogFile, PageDisk, PostRoutine, PostedRoutine};
use cc_world::World;
use std::alloc::Global;

/// Steps through the lines in their order, and puts the reply of each behind the replies.
pub(crate) fn step_lines<D: PageDisk, L: LogFile, Q: PostRoutine>(
    alloc: Global,
    world: &mut World<D, L, Q>,
    routines: &mut Routines<Q>,
    names: &mut NamedHolds,
    lines: &[ActionLine],
    replies: &mut Vec<LineReply>,
)
    requires known { AllByRecursion (λ line. IsKnownTo (length world.old.begun.disks) line.action) lines.now }
    requires routines { RoutinesStand Q.posted world.old.journal.entries world.old.journal.queue routines.old }
    requires enough { defer_lines lines.now ≤ length routines.old.unused }
    requires words { length names.old.named + words_in lines.now ≤ names.old.room }
    requires room { vec_len replies.old + length lines.now ≤ vec_capacity replies.old }
    ensures { LinesWent (tells_of D.told D.faults L.told L.faults Q.posted) (bindings_in names.old.named) lines.now
        replies.old.items replies.new.items world.old world.new routines.old routines.new }
{
    for line in lines {
        let answer = step_line(alloc, world, routines, names, line);
        names.follow(line, &answer);
        replies.push_reserved(LineReply {
            line: line.line,
            answer,
        });
    }
}

// Lets the event of a line happen, and answers the line.
fn step_line<D: PageDisk, L: LogFile, Q: PostRoutine>(
    alloc: Global,
    world: &mut World<D, L, Q>,
    routines: &mut Routines<Q>,
    names: &NamedHolds,
    line: &ActionLine,
) -> Answer
    requires known { IsKnownTo (length world.old.begun.disks) line.now.action }
    requires routines { RoutinesStand Q.posted world.old.journal.entries world.old.journal.queue routines.old }
    requires enough { is_defer line.now.action ≡ true → 0 < length routines.old.unused }
    ensures { LineWent (tells_of D.told D.faults L.told L.faults Q.posted) (bindings_in names.now.named line.now.caller)
        line.now result world.old world.new routines.old routines.new }
{
    let pass = line.caller;
    let Ok(doing) = doing_of(alloc, pass, names, &line.action) else {
        return Answer::Refused(CcError::NoMemory);
    };
    match doing {
        MadeDoing::Happens(event) => answer_to(world, event),
        MadeDoing::Makes(call) => answer_to(world, called(pass, line.fails, call)),
        MadeDoing::Defers {
            file,
            bytes,
            retrying,
        } => defer(world, routines, pass, file, bytes, retrying),
        MadeDoing::Posts => post(alloc, world, routines, pass),
        MadeDoing::NamesNone => Answer::NoHold,
    }
}

// The event of a call, which is to fail or to be done.
fn called<Q>(pass: u32, fails: bool, call: Call) -> Event<Q>
    ensures { result ≡ event_of_call pass fails call }
{
    if fails {
        Event::Fail { pass, call }
    } else {
        Event::Do { pass, call }
    }
}

// A write is deferred with the next routine, which is kept where it is refused.
fn defer<D: PageDisk, L: LogFile, Q: PostRoutine>(
    world: &mut World<D, L, Q>,
    routines: &mut Routines<Q>,
    pass: u32,
    file: FileId,
    bytes: u64,
    retrying: bool,
) -> Answer
    requires known { file.stream < length world.old.begun.disks }
    requires routines { RoutinesStand Q.posted world.old.journal.entries world.old.journal.queue routines.old }
    requires enough { 0 < length routines.old.unused }
    ensures { EventWent (tells_of D.told D.faults L.told L.faults Q.posted) (event.Defer pass file bytes retrying tt)
        (deferral_in result ∷ []) result world.old world.new routines.old routines.new }
{
    let event = Event::Defer {
        pass,
        file,
        bytes,
        retrying,
        routine: routines.next(),
    };
    match happen(world, event) {
        StepReply::Deferred(id) => {
            routines.keep(RoutineSlot {
                deferral: Some(id),
                routine: None,
            });
            Answer::Deferred(id)
        }
        StepReply::Kept(routine, error) => {
            routines.keep(RoutineSlot {
                deferral: None,
                routine: Some(routine),
            });
            Answer::Refused(error)
        }
        _ => unreachable!(),
    }
}

// The first deferred write is posted, where it may go. The memory for its number is taken before.
fn post<D: PageDisk, L: LogFile, Q: PostRoutine>(
    alloc: Global,
    world: &mut World<D, L, Q>,
    routines: &mut Routines<Q>,
    pass: u32,
) -> Answer
    requires { RoutinesStand Q.posted world.old.journal.entries world.old.journal.queue routines.old }
    ensures { EventWent (tells_of D.told D.faults L.told L.faults Q.posted) (event.Post pass)
        [] result world.old world.new routines.old routines.new }
{
    let Ok(mut ids) = Vec::with_capacity(alloc, 1) else {
        return Answer::Refused(CcError::NoMemory);
    };
    match happen(world, Event::Post { pass }) {
        StepReply::Posted(Some(PostedRoutine { id, routine })) => {
            routines.put_back(id, routine);
            ids.push_reserved(id);
            Answer::Posts(Ids::from_vec(ids))
        }
        StepReply::Posted(None) => Answer::Posts(Ids::from_vec(ids)),
        StepReply::Refused(error) => Answer::Refused(error),
        _ => unreachable!(),
    }
}
