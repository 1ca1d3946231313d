//! The callers of a phase, each on a thread of its own, over one board.

ghost use Rattle.std.specs.Prelude.{◌≡◌, ℕ, ◌+◌, ◌<◌, ◌≤◌, length, vec_len, vec_capacity};
ghost use Rattle.std.specs.List.{AllByRecursion};
ghost use Rattle.std.specs.Thread.{IsSync};
ghost use Rattle.cc_turns.specs.Places.{IsRoomFor};
ghost use Rattle.cc_turns.specs.Desk.{tells_of};
ghost use Rattle.cc_run.specs.Callers.{MayRun, CallerRan, MayAllRun, AllRan};
ghost use Rattle.cc_run.specs.Places.{queues_of};

use cc_board::{Board, Pass, Seated};
use cc_entry::Answer;
use cc_lines::{Fresh, Names, Queues, serve_at};
use cc_script::ActionLine;
use cc_traits::{Gate, LogFile, PageDisk, PostRoutine, Told};
use cc_turns::Turns;
use std::alloc::Global;
use std::sync::Wait;
use std::thread::{Threads, join};

/// A caller of a phase.
#[derive(Drop)]
pub(crate) struct Caller<D: Told, L: LogFile, Q: PostRoutine> {
    pub(crate) pass: Pass<D, L, Q>,
    /// Room for the answer of each of its lines.
    pub(crate) room: Vec<Answer>,
    /// What its words name, with room for those that its lines bind, and its places at the queues.
    pub(crate) names: Names,
    /// How many calls it made in the phases before.
    pub(crate) calls: u32,
}

/// What a caller leaves: its pass, the answers of its lines in their order, and what its words name.
#[derive(Drop)]
pub(crate) struct FinishedCaller<D: Told, L: LogFile, Q: PostRoutine> {
    pub(crate) pass: Pass<D, L, Q>,
    pub(crate) answers: Vec<Answer>,
    pub(crate) names: Names,
}

/// Runs the lines of each caller, on a thread of its own where it has any. A thread that can't be started is run by the
/// one that starts it.
pub(crate) fn run_callers<
    R: Threads + Wait + Sync,
    D: PageDisk + Send,
    L: LogFile + Send,
    Q: Fresh + Send,
    P: Gate,
>(
    rt: &R,
    alloc: Global,
    board: &Board<D, L, Q>,
    queues: &Queues,
    lines: &[ActionLine],
    gate: &P,
    callers: Vec<Caller<D, L, Q>>,
    room: Vec<FinishedCaller<D, L, Q>>,
) -> Vec<FinishedCaller<D, L, Q>>
    requires may { MayAllRun (tells_of D.told D.faults L.told L.faults Q.posted) board.now lines.now callers.items }
    requires own { AllByRecursion (λ caller. queues_of caller.names.places ≡ queues.now) callers.items }
    requires room { IsRoomFor (length callers.items) room.items (vec_capacity room) }
    ensures ran { AllRan (tells_of D.told D.faults L.told L.faults Q.posted) board.now lines.now
        callers.items result.items }
    ensures capacity { vec_capacity result ≡ vec_capacity room }
{
    let mut callers = callers;
    let Some(caller) = callers.pop() else {
        return room;
    };
    if caller.room.capacity() == 0 {
        let Caller {
            pass,
            room: answers,
            names,
            calls: _,
        } = caller;
        let mut ended = run_callers(rt, alloc, board, queues, lines, gate, callers, room);
        ended.push_reserved(FinishedCaller {
            pass,
            answers,
            names,
        });
        return ended;
    }
    let (mut ended, last) = join(
        rt,
        move || -> Vec<FinishedCaller<D, L, Q>>
            requires { IsSync R.row
                × MayAllRun (tells_of D.told D.faults L.told L.faults Q.posted) board.now lines.now callers.items
                × AllByRecursion (λ caller. queues_of caller.names.places ≡ queues.now) callers.items
                × IsRoomFor (length callers.items) room.items (vec_capacity room) }
            ensures { AllRan (tells_of D.told D.faults L.told L.faults Q.posted) board.entry.now lines.entry.now
                callers.items result.items × (vec_capacity result ≡ vec_capacity room) }
        { run_callers(rt, alloc, board, queues, lines, gate, callers, room) },
        move || -> FinishedCaller<D, L, Q>
            requires { IsSync R.row × MayRun (tells_of D.told D.faults L.told L.faults Q.posted) board.now lines.now caller
                × (queues_of caller.names.places ≡ queues.now) }
            ensures { CallerRan (tells_of D.told D.faults L.told L.faults Q.posted) board.entry.now lines.entry.now
                caller result }
        { run_caller(rt, alloc, board, queues, lines, gate, caller) },
    );
    ended.push_reserved(last);
    ended
}

// Runs the lines of a caller.
fn run_caller<R: Wait, D: PageDisk, L: LogFile, Q: Fresh, P: Gate>(
    rt: &R,
    alloc: Global,
    board: &Board<D, L, Q>,
    queues: &Queues,
    lines: &[ActionLine],
    gate: &P,
    caller: Caller<D, L, Q>,
) -> FinishedCaller<D, L, Q>
    requires may { MayRun (tells_of D.told D.faults L.told L.faults Q.posted) board.now lines.now caller }
    requires own { queues_of caller.names.places ≡ queues.now }
    ensures ran { CallerRan (tells_of D.told D.faults L.told L.faults Q.posted) board.now lines.now caller result }
{
    let Caller {
        pass,
        room: mut answers,
        mut names,
        mut calls,
    } = caller;
    let mut seated = Seated::new(rt, board, pass);
    let me = seated.me();
    for line in lines {
        if line.caller == me {
            calls = calls.saturating_add(1);
            let answer = serve_at(
                rt,
                alloc,
                &mut seated,
                queues,
                &line.action,
                gate,
                calls,
                &mut names,
            );
            answers.push_reserved(answer);
        }
    }
    FinishedCaller {
        pass: seated.into_pass(),
        answers,
        names,
    }
}
