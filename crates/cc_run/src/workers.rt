//! The lazy writer and the read-ahead worker of a phase, each on a thread of its own beside the callers.

ghost use Rattle.std.specs.Prelude.{◌≡◌, ◌+◌, ◌≤◌, length, vec_capacity};
ghost use Rattle.std.specs.List.{AllByRecursion};
ghost use Rattle.std.specs.Thread.{IsSync};
ghost use Rattle.cc_turns.specs.Places.{IsRoomFor};
ghost use Rattle.cc_turns.specs.Desk.{tells_of};
ghost use Rattle.cc_board.specs.Board.{IsFirstOf, IsOfBoard, IsSplit, after_join};
ghost use Rattle.cc_run.specs.Callers.{MayAllRun, AllRan};
ghost use Rattle.cc_run.specs.Places.{queues_of};
ghost use Rattle.cc_run.specs.Workers.{MayStepOn, MayWork, StepperRan, WorkerRan};

use crate::aheads::{Aheads, make_steps};
use crate::callers::{Caller, FinishedCaller, run_callers};
use crate::ticks::{Ticks, make_ticks};
use cc_board::{Board, FirstPass, Pass, Seated};
use cc_lines::{Fresh, Queues};
use cc_script::ActionLine;
use cc_traits::{Gate, LogFile, PageDisk, PostRoutine, Told};
use std::alloc::Global;
use std::mem;
use std::sync::Wait;
use std::thread::{Threads, join};

/// The lazy writer in a phase: its pass, and its ticks, with room for the answers of the phase.
#[derive(Drop)]
pub(crate) struct Worker<D: Told, L: LogFile, Q: PostRoutine> {
    pub(crate) pass: Pass<D, L, Q>,
    pub(crate) ticks: Ticks,
}

/// Splits the pass of the lazy writer, which takes the ticks of the run with it.
pub(crate) fn split_worker<D: PageDisk, L: LogFile, Q: PostRoutine>(
    alloc: Global,
    board: &Board<D, L, Q>,
    first: &mut FirstPass<D, L, Q>,
    ticks: &mut Ticks,
) -> Worker<D, L, Q>
    requires here { IsFirstOf board.now first.old }
    requires more { first.old.knows.made ≤ first.old.knows.passes }
    ensures split { IsSplit first.old first.new result.pass }
    ensures ticks { result.ticks ≡ ticks.old }
{
    let Some(pass) = board.split(first) else {
        unreachable!()
    };
    Worker {
        pass,
        ticks: mem::replace(ticks, Ticks::none(alloc)),
    }
}

/// Joins the pass of the lazy writer, which gives the ticks of the run back.
pub(crate) fn join_worker<D: PageDisk, L: LogFile, Q: PostRoutine>(
    board: &Board<D, L, Q>,
    first: &mut FirstPass<D, L, Q>,
    worker: Worker<D, L, Q>,
    ticks: &mut Ticks,
)
    requires here { IsFirstOf board.now first.old }
    requires worker_here { IsOfBoard board.now worker.pass }
    ensures joined { first.new ≡ after_join first.old worker.pass }
    ensures ticks { ticks.new ≡ worker.ticks }
{
    let Worker { pass, ticks: made } = worker;
    board.join(first, pass);
    *ticks = made;
}

/// The read-ahead worker in a phase: its pass, and its steps, with room for the answers of the phase.
#[derive(Drop)]
pub(crate) struct Stepper<D: Told, L: LogFile, Q: PostRoutine> {
    pub(crate) pass: Pass<D, L, Q>,
    pub(crate) aheads: Aheads,
}

/// Splits the pass of the read-ahead worker, which takes the steps of the run with it.
pub(crate) fn split_stepper<D: PageDisk, L: LogFile, Q: PostRoutine>(
    board: &Board<D, L, Q>,
    first: &mut FirstPass<D, L, Q>,
    aheads: Aheads,
) -> Stepper<D, L, Q>
    requires here { IsFirstOf board.now first.old }
    requires more { first.old.knows.made ≤ first.old.knows.passes }
    ensures split { IsSplit first.old first.new result.pass }
    ensures aheads { result.aheads ≡ aheads }
{
    let Some(pass) = board.split(first) else {
        unreachable!()
    };
    Stepper { pass, aheads }
}

/// Joins the pass of the read-ahead worker, which gives the steps of the run back.
pub(crate) fn join_stepper<D: PageDisk, L: LogFile, Q: PostRoutine>(
    board: &Board<D, L, Q>,
    first: &mut FirstPass<D, L, Q>,
    stepper: Stepper<D, L, Q>,
) -> Aheads
    requires here { IsFirstOf board.now first.old }
    requires stepper_here { IsOfBoard board.now stepper.pass }
    ensures joined { first.new ≡ after_join first.old stepper.pass }
    ensures aheads { result ≡ stepper.aheads }
{
    let Stepper { pass, aheads } = stepper;
    board.join(first, pass);
    aheads
}

/// Runs the callers of a phase, and beside them the workers, each on a thread of its own where it has anything to do. A thread
/// that can't be started is run by the one that starts it.
pub(crate) fn run_all<
    R: Threads + Wait + Sync,
    D: PageDisk + Send,
    L: LogFile + Send,
    Q: Fresh + Send,
    P: Gate,
>(
    rt: &R,
    alloc: Global,
    board: &Board<D, L, Q>,
    queues: &Queues,
    phase: u32,
    lines: &[ActionLine],
    gate: &P,
    callers: Vec<Caller<D, L, Q>>,
    room: Vec<FinishedCaller<D, L, Q>>,
    worker: Worker<D, L, Q>,
    stepper: Stepper<D, L, Q>,
) -> (
    Vec<FinishedCaller<D, L, Q>>,
    Worker<D, L, Q>,
    Stepper<D, L, Q>,
)
    requires may { MayAllRun (tells_of D.told D.faults L.told L.faults Q.posted) board.now lines.now callers.items }
    requires own { AllByRecursion (λ caller. queues_of caller.names.places ≡ queues.now) callers.items }
    requires room { IsRoomFor (length callers.items) room.items (vec_capacity room) }
    requires may_work { MayWork board.now worker }
    requires may_step { MayStepOn board.now queues.now.ahead stepper }
    ensures ran { AllRan (tells_of D.told D.faults L.told L.faults Q.posted) board.now lines.now
        callers.items result.0.items }
    ensures worked { WorkerRan (tells_of D.told D.faults L.told L.faults Q.posted) board.now phase worker result.1 }
    ensures stepped { StepperRan (tells_of D.told D.faults L.told L.faults Q.posted) board.now phase stepper result.2 }
{
    if stepper.aheads.each == 0 {
        let (ended, worker) = run_ticking(
            rt, alloc, board, queues, phase, lines, gate, callers, room, worker,
        );
        return (ended, worker, stepper);
    }
    let ((ended, worker), stepper) = join(
        rt,
        move || -> (Vec<FinishedCaller<D, L, Q>>, Worker<D, L, Q>)
            requires { IsSync R.row
                × MayAllRun (tells_of D.told D.faults L.told L.faults Q.posted) board.now lines.now callers.items
                × AllByRecursion (λ caller. queues_of caller.names.places ≡ queues.now) callers.items
                × IsRoomFor (length callers.items) room.items (vec_capacity room)
                × MayWork board.now worker }
            ensures { AllRan (tells_of D.told D.faults L.told L.faults Q.posted) board.entry.now lines.entry.now
                callers.items result.0.items
                × WorkerRan (tells_of D.told D.faults L.told L.faults Q.posted) board.entry.now phase worker result.1 }
        {
            run_ticking(
                rt, alloc, board, queues, phase, lines, gate, callers, room, worker,
            )
        },
        move || -> Stepper<D, L, Q>
            requires { IsSync R.row × MayStepOn board.now queues.now.ahead stepper }
            ensures { StepperRan (tells_of D.told D.faults L.told L.faults Q.posted) board.entry.now phase stepper result }
        { run_stepper(rt, alloc, board, queues, phase, stepper) },
    );
    (ended, worker, stepper)
}

// Runs the callers of a phase, and beside them the lazy writer.
fn run_ticking<
    R: Threads + Wait + Sync,
    D: PageDisk + Send,
    L: LogFile + Send,
    Q: Fresh + Send,
    P: Gate,
>(
    rt: &R,
    alloc: Global,
    board: &Board<D, L, Q>,
    queues: &Queues,
    phase: u32,
    lines: &[ActionLine],
    gate: &P,
    callers: Vec<Caller<D, L, Q>>,
    room: Vec<FinishedCaller<D, L, Q>>,
    worker: Worker<D, L, Q>,
) -> (Vec<FinishedCaller<D, L, Q>>, Worker<D, L, Q>)
    requires may { MayAllRun (tells_of D.told D.faults L.told L.faults Q.posted) board.now lines.now callers.items }
    requires own { AllByRecursion (λ caller. queues_of caller.names.places ≡ queues.now) callers.items }
    requires room { IsRoomFor (length callers.items) room.items (vec_capacity room) }
    requires may_work { MayWork board.now worker }
    ensures ran { AllRan (tells_of D.told D.faults L.told L.faults Q.posted) board.now lines.now
        callers.items result.0.items }
    ensures worked { WorkerRan (tells_of D.told D.faults L.told L.faults Q.posted) board.now phase worker result.1 }
{
    if worker.ticks.each == 0 {
        return (
            run_callers(rt, alloc, board, queues, lines, gate, callers, room),
            worker,
        );
    }
    join(
        rt,
        move || -> Vec<FinishedCaller<D, L, Q>>
            requires { IsSync R.row
                × MayAllRun (tells_of D.told D.faults L.told L.faults Q.posted) board.now lines.now callers.items
                × AllByRecursion (λ caller. queues_of caller.names.places ≡ queues.now) callers.items
                × IsRoomFor (length callers.items) room.items (vec_capacity room) }
            ensures { AllRan (tells_of D.told D.faults L.told L.faults Q.posted) board.entry.now lines.entry.now
                callers.items result.items }
        { run_callers(rt, alloc, board, queues, lines, gate, callers, room) },
        move || -> Worker<D, L, Q>
            requires { IsSync R.row × MayWork board.now worker }
            ensures { WorkerRan (tells_of D.told D.faults L.told L.faults Q.posted) board.entry.now phase worker result }
        { run_worker(rt, alloc, board, phase, worker) },
    )
}

// Makes the ticks of a phase.
fn run_worker<R: Wait, D: PageDisk, L: LogFile, Q: PostRoutine>(
    rt: &R,
    alloc: Global,
    board: &Board<D, L, Q>,
    phase: u32,
    worker: Worker<D, L, Q>,
) -> Worker<D, L, Q>
    requires may { MayWork board.now worker }
    ensures ran { WorkerRan (tells_of D.told D.faults L.told L.faults Q.posted) board.now phase worker result }
{
    let Worker { pass, mut ticks } = worker;
    let mut seated = Seated::new(rt, board, pass);
    make_ticks(alloc, &mut seated, phase, &mut ticks);
    Worker {
        pass: seated.into_pass(),
        ticks,
    }
}

// Makes the read-ahead steps of a phase.
fn run_stepper<R: Wait, D: PageDisk, L: LogFile, Q: PostRoutine>(
    rt: &R,
    alloc: Global,
    board: &Board<D, L, Q>,
    queues: &Queues,
    phase: u32,
    stepper: Stepper<D, L, Q>,
) -> Stepper<D, L, Q>
    requires may { MayStepOn board.now queues.now.ahead stepper }
    ensures ran { StepperRan (tells_of D.told D.faults L.told L.faults Q.posted) board.now phase stepper result }
{
    let Stepper { pass, mut aheads } = stepper;
    let mut seated = Seated::new(rt, board, pass);
    make_steps(rt, alloc, &mut seated, &queues.ahead, phase, &mut aheads);
    Stepper {
        pass: seated.into_pass(),
        aheads,
    }
}
