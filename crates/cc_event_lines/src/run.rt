//! The run of a script of steps: its memory is taken, its streams are set up, its lines are stepped through, and all
//! comes back.

ghost use Rattle.std.specs.Prelude.{◌≡◌, ◌+◌, ◌<◌, ◌≤◌, ◌^◌, [], All, IfOk, IfErr, false, length, reverse, vec_len, vec_capacity};
ghost use Rattle.cc_journal.specs.Capacity.{IsWithinCapacity};
ghost use Rattle.cc_model.specs.Good.{IsGood};
ghost use Rattle.cc_pieces.specs.Steps.{IsSteppedThrough, RoutinesLeft, deferrals_by};
ghost use Rattle.cc_script.specs.EventActions.{defer_lines};
ghost use Rattle.cc_script.specs.Within.{ScriptIsWithin};
ghost use Rattle.cc_traits.specs.Setup.{capacity_of};
ghost use Rattle.cc_turns.specs.Desk.{made_from, tells_of};
ghost use Rattle.cc_world.specs.World.{WorldDisksEnded, WorldIsFresh, WorldLogsEnded};
ghost use Rattle.cc_event_lines.specs.Names.{words_in};
ghost use Rattle.cc_event_lines.specs.Routines.{AreNew};
ghost use Rattle.cc_event_lines.specs.Run.{IsScriptRun};
ghost use Rattle.cc_turns.specs.Slots.{setup_in};

use crate::lines::step_lines;
use crate::names::{NamedHolds, words_in};
use crate::openings::open_streams;
use crate::routines::Routines;
use cc_entry::{Entry, LineReply};
use cc_journal::{Journal, Parts};
use cc_script::Script;
use cc_traits::{LogFile, PageDisk, PostRoutine, Setup};
use cc_world::World;
use std::alloc::Global;
use std::marker::Model;

/// A script of steps that was run: the World that it left, the reply of each line, and the post routines.
pub struct StepsRun<D: PageDisk, L: LogFile, Q: PostRoutine> {
    world: World<D, L, Q>,
    routines: Routines<Q>,
    replies: Vec<LineReply>,
}

impl<D: PageDisk, L: LogFile, Q: PostRoutine> Model for StepsRun<D, L, Q> {
    ghost use Rattle.cc_event_lines.specs.Routines.{RoutinesStand, deferrals_of_slots};
    ghost use Rattle.cc_event_lines.specs.Run.{RunState};

    ghost Value = { RunState D L Q };

    ghost view = { λ r. record {
      world = r.world;
      replies = r.replies.items;
      deferrals = deferrals_of_slots r.routines.slots;
      posts = r.routines.handed;
    } };

    ghost invariant = { λ r. RoutinesStand Q.posted r.world.journal.entries r.world.journal.queue r.routines };
}

/// What a run gives back.
pub struct StepsEnd<D, L, Q> {
    /// The reply of each line, those of the streams first.
    pub replies: Vec<LineReply>,
    /// The oldest entry first.
    pub journal: Vec<Entry>,
    pub disks: Vec<D>,
    pub logs: Vec<L>,
    /// The post routines in the order in which they were handed in.
    pub posts: Vec<Q>,
}

/// Runs a script of steps over a setup with a disk for each of its streams. The k-th `defer` line has the k-th post
/// routine. Where memory is wanting before the first event, all comes back.
pub fn run_steps<D: PageDisk, L: LogFile, Q: PostRoutine>(
    alloc: Global,
    script: &Script,
    setup: Setup<D, L>,
    posts: Vec<Q>,
) -> Result<StepsRun<D, L, Q>, (Setup<D, L>, Vec<Q>)>
    requires within { ScriptIsWithin script.now }
    requires recorded { capacity_of setup.journal < 2 ^ 32 }
    requires disks { length script.now.streams ≤ length setup.disks.items }
    requires posts { defer_lines script.now.lines ≤ length posts.items }
    requires unposted { All (λ routine. Q.posted routine ≡ false) posts.items }
    ensures begun { IfOk result (λ run. run.world.begun ≡ made_from setup) }
    ensures explained { IfOk result (λ run. IsSteppedThrough
        (setup_in (tells_of D.told D.faults L.told L.faults Q.posted) (made_from setup))
        script.now.streams script.now.lines run.replies run.world.journal.entries) }
    ensures deferrals { IfOk result (λ run. run.deferrals
        ≡ deferrals_by script.now.streams script.now.lines run.replies) }
    ensures posts { IfOk result (λ run. run.posts ≡ posts.items) }
    ensures kept { IfErr result (λ back. (back.0 ≡ setup) × (back.1.items ≡ posts.items)) }
{
    let lines = script.lines.as_slice();
    let Ok(replies) = Vec::with_capacity(alloc, script.streams.len() + lines.len()) else {
        return Err((setup, posts));
    };
    let Ok(names) = NamedHolds::with_room(alloc, words_in(lines)) else {
        return Err((setup, posts));
    };
    let routines = match Routines::new(alloc, posts) {
        Ok(routines) => routines,
        Err(posts) => return Err((setup, posts)),
    };
    match World::new(alloc, setup) {
        Ok(world) => Ok(run_on(alloc, script, world, routines, names, replies)),
        Err((setup, _)) => Err((setup, routines.end(Vec::new(alloc)))),
    }
}

// Runs a script over a World of which nothing happened yet, with the memory that it needs.
fn run_on<D: PageDisk, L: LogFile, Q: PostRoutine>(
    alloc: Global,
    script: &Script,
    world: World<D, L, Q>,
    routines: Routines<Q>,
    names: NamedHolds,
    replies: Vec<LineReply>,
) -> StepsRun<D, L, Q>
    requires within { ScriptIsWithin script.now }
    requires fresh { WorldIsFresh world.begun world }
    requires disks { length script.now.streams ≤ length world.begun.disks }
    requires routines { AreNew Q.posted routines }
    requires enough { defer_lines script.now.lines ≤ length routines.handed }
    requires none { (names.named ≡ []) × (replies.items ≡ []) }
    requires words { words_in script.now.lines ≤ names.room }
    requires room { length script.now.streams + length script.now.lines ≤ vec_capacity replies }
    ensures { IsScriptRun (tells_of D.told D.faults L.told L.faults Q.posted) script.now world.begun routines.handed result }
{
    let mut world = world;
    let mut routines = routines;
    let mut names = names;
    let mut replies = replies;
    open_streams(&mut world, script.streams.as_slice(), &mut replies);
    step_lines(
        alloc,
        &mut world,
        &mut routines,
        &mut names,
        script.lines.as_slice(),
        &mut replies,
    );
    StepsRun {
        world,
        routines,
        replies,
    }
}

impl<D: PageDisk, L: LogFile, Q: PostRoutine> StepsRun<D, L, Q> {
    /// The journal, with the dirty page table that it keeps.
    pub fn journal(&self) -> &Journal<Q>
        ensures { result.now ≡ self.now.world.journal }
    {
        self.world.journal()
    }

    /// Gives all back, where the journal is recorded. It takes no memory.
    pub fn end(self) -> StepsEnd<D, L, Q>
        requires { self.world.begun.capacity < 2 ^ 32 }
        ensures replies { result.replies.items ≡ self.replies }
        ensures journal { reverse result.journal.items ≡ self.world.journal.entries }
        ensures good { IsGood (setup_in (tells_of D.told D.faults L.told L.faults Q.posted) self.world.begun)
            self.world.journal.entries }
        ensures within { IsWithinCapacity self.world.begun.capacity self.world.journal.entries }
        ensures disks { WorldDisksEnded (tells_of D.told D.faults L.told L.faults Q.posted) self.world result.disks.items }
        ensures logs { WorldLogsEnded (tells_of D.told D.faults L.told L.faults Q.posted) self.world result.logs.items }
        ensures posts { RoutinesLeft Q.posted self.deferrals self.world.journal.entries self.posts result.posts.items }
    {
        let StepsRun {
            world,
            routines,
            replies,
        } = self;
        // The journal is what says that no routine that waits was posted.
        let _journal = world.journal();
        let Parts {
            disks,
            logs,
            journal,
            queued,
        } = world.end();
        StepsEnd {
            replies,
            journal,
            disks,
            logs,
            posts: routines.end(queued),
        }
    }
}
