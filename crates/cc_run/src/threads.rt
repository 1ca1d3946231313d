//! A phase on threads: a board is made of the desk, each caller runs its lines with a pass of it, and with two more the lazy
//! writer makes its ticks, and the read-ahead worker its steps; then it is closed into the desk again.

ghost use Rattle.std.specs.Prelude.{◌≡◌, ◌≢◌, ℕ, ◌+◌, ◌<◌, ◌≤◌, ◌++◌, [], false, List, length, map, vec_len, vec_capacity, IfOk, IfErr, OnOk, OnErr};
ghost use Rattle.std.specs.List.{AllByRecursion};
ghost use Rattle.cc_pieces.specs.Explained.{answered_lines};
ghost use Rattle.cc_pieces.specs.Phases.{is_of_phase};
ghost use Rattle.cc_pieces.specs.Rooms.{is_alone, room_limit};
ghost use Rattle.cc_pieces.specs.Runs.{asked_of};
ghost use Rattle.cc_board.specs.Board.{IsFirstOf, IsOfBoard};
ghost use Rattle.cc_turns.specs.Desk.{standing_of, tells_of};
ghost use Rattle.cc_turns.specs.Places.{IsRoomFor};
ghost use Rattle.cc_run.specs.Callers.{AllRan, AreAnswerRows, MayAllRun, asked_own, count_of_caller, row_at};
ghost use Rattle.cc_run.specs.Desks.{PassIsReady, IsSameRun};
ghost use Rattle.cc_pieces.specs.Bindings.{Binding};
ghost use Rattle.cc_script.specs.HoldWords.{AreUsedRight};
ghost use Rattle.cc_script.specs.declared.bound.Bound.{Bound};
ghost use Rattle.cc_lines.specs.Line.{IsServable};
ghost use Rattle.cc_run.specs.Lines.{AllStand, IsCaller, KeepRoom, MayServe};
ghost use Rattle.cc_run.specs.Phases.{PhaseEnds};
ghost use Rattle.cc_run.specs.Threads.{AreRooms, AreSplit, AreJoined, Merged, MaySplit, MayJoin};
ghost use Rattle.cc_run.specs.Aheads.{HasStepRoom, StepsMade};
ghost use Rattle.cc_run.specs.Places.{AreOfQueues, PlacesRan};
ghost use Rattle.cc_run.specs.Ticks.{HasTickRoom, TicksMade};

use crate::aheads::Aheads;
use crate::call_numbers::CallNumbers;
use crate::callers::{Caller, FinishedCaller};
use crate::ticks::Ticks;
use crate::workers::{join_stepper, join_worker, run_all, split_stepper, split_worker};
use cc_board::{Board, FirstPass};
use cc_entry::{Answer, LineReply, NoMemory};
use cc_lines::{Fresh, Names, Queues};
use cc_script::ActionLine;
use cc_traits::{Gate, LogFile, PageDisk, PostRoutine, Told};
use cc_turns::Desk;
use std::alloc::Global;
use std::sync::Wait;
use std::thread::Threads;

/// The most callers of a script.
const CALLERS: u16 = 16;

/// The passes beside pass 0: the callers, the lazy writer and the read-ahead worker.
const PASSES: u16 = CALLERS + 2;

/// Serves the lines of a phase, each caller's on a thread of its own, and puts the answer of each behind the replies, in
/// the order of the lines; and makes its ticks and its read-ahead steps on two further threads. Where memory is wanting for the
/// threads, nothing was done, and desk and steps come back.
pub(crate) fn serve_on_threads<
    R: Threads + Wait + Sync,
    D: PageDisk + Send,
    L: LogFile + Send,
    Q: Fresh + Send,
    P: Gate,
>(
    rt: &R,
    alloc: Global,
    desk: Desk<D, L, Q>,
    queues: &Queues,
    phase: u32,
    lines: &[ActionLine],
    gate: &P,
    calls: &mut CallNumbers,
    names: &mut Vec<Names>,
    replies: &mut Vec<LineReply>,
    ticks: &mut Ticks,
    aheads: Aheads,
) -> Result<(Desk<D, L, Q>, Aheads), (Desk<D, L, Q>, Aheads)>
    requires ready { PassIsReady (standing_of D.told D.faults L.told L.faults desk) }
    requires servable { AllByRecursion (λ line.
        IsServable (standing_of D.told D.faults L.told L.faults desk).streams line.action) lines.now }
    requires callers { AllByRecursion (λ line. IsCaller line.caller) lines.now }
    requires words { MayServe (standing_of D.told D.faults L.told L.faults desk).streams desk.last.entries
        lines.now names.old.items }
    requires those { AllByRecursion (λ line. line.phase ≡ phase) lines.now }
    requires room { vec_len replies.old + length lines.now ≤ vec_capacity replies.old }
    requires tick_room { HasTickRoom ticks.old }
    requires own { AreOfQueues queues.now names.old.items }
    requires own_place { aheads.place.queue ≡ queues.now.ahead }
    requires step_room { HasStepRoom aheads }
    requires beside { room_limit ticks.old.each aheads.each (is_alone phase lines.now) ≡ 32 }
    ensures served { IfOk result (λ done. (bounds : ℕ → List Bound) (bindings : ℕ → List Binding) →
        AllStand (standing_of D.told D.faults L.told L.faults desk).streams desk.last.entries bounds bindings
        names.old.items → ((me : ℕ) → AreUsedRight me (bounds me) lines.now) →
        PhaseEnds (standing_of D.told D.faults L.told L.faults desk).setup
        (standing_of D.told D.faults L.told L.faults desk).streams phase ticks.old.each aheads.each bounds bindings lines.now
        replies.old.items replies.new.items desk.last.entries done.0.last.entries names.new.items) }
    ensures ticked { IfOk result (λ done. TicksMade (standing_of D.told D.faults L.told L.faults desk).setup phase
        ticks.old.each ticks.old ticks.new desk.last.entries done.0.last.entries) }
    ensures stepped { IfOk result (λ done. StepsMade (standing_of D.told D.faults L.told L.faults desk).setup phase
        aheads.each aheads done.1 desk.last.entries done.0.last.entries) }
    ensures placed { IfOk result (λ done. PlacesRan lines.now replies.old.items replies.new.items names.old.items
        names.new.items desk.last.entries done.0.last.entries) }
    ensures kept_room { KeepRoom names.old.items names.new.items }
    ensures run { IfOk result (λ done. IsSameRun (standing_of D.told D.faults L.told L.faults desk)
        (standing_of D.told D.faults L.told L.faults done.0)) }
    ensures ready { IfOk result (λ done. PassIsReady (standing_of D.told D.faults L.told L.faults done.0)) }
    ensures kept { OnErr result ((replies.new.items ≡ replies.old.items) × (names.new.items ≡ names.old.items)) }
    ensures kept_ticks { OnErr result (ticks.new ≡ ticks.old) }
    ensures kept_aheads { IfErr result (λ back. back.1 ≡ aheads) }
    ensures same { IfErr result (λ back. back.0.last.entries ≡ desk.last.entries) }
    ensures run_kept { IfErr result (λ back. IsSameRun (standing_of D.told D.faults L.told L.faults desk)
        (standing_of D.told D.faults L.told L.faults back.0)) }
    ensures ready_still { IfErr result (λ back. PassIsReady (standing_of D.told D.faults L.told L.faults back.0)) }
    ensures capacity { vec_capacity replies.new ≡ vec_capacity replies.old }
{
    let Rooms {
        rooms,
        callers,
        ended,
        rows,
    } = match rooms_for(alloc, lines) {
        Ok(rooms) => rooms,
        Err(NoMemory) => return Err((desk, aheads)),
    };
    desk.good();
    let (board, mut first) = match Board::new(alloc, desk, PASSES) {
        Ok(made) => made,
        Err((desk, _)) => return Err((desk, aheads)),
    };
    names.reverse();
    let callers = split_all(&board, &mut first, calls, rooms, names, callers);
    let worker = split_worker(alloc, &board, &mut first, ticks);
    let stepper = split_stepper(&board, &mut first, aheads);
    let (ended, worker, stepper) = run_all(
        rt, alloc, &board, queues, phase, lines, gate, callers, ended, worker, stepper,
    );
    let rows = join_all(&board, &mut first, calls, ended, names, rows);
    join_worker(&board, &mut first, worker, ticks);
    let aheads = join_stepper(&board, &mut first, stepper);
    names.reverse();
    match board.close(first) {
        Ok(desk) => {
            desk.good();
            merge(lines, rows, replies);
            Ok((desk, aheads))
        }
        Err(_) => unreachable!(),
    }
}

/// The memory that a phase takes before any of its calls.
struct Rooms<D: Told, L: LogFile, Q: PostRoutine> {
    /// Of each caller, from the last one on, room for the answers of its lines.
    rooms: Vec<Vec<Answer>>,
    callers: Vec<Caller<D, L, Q>>,
    ended: Vec<FinishedCaller<D, L, Q>>,
    rows: Vec<Vec<Answer>>,
}

// Takes the memory of a phase.
fn rooms_for<D: Told, L: LogFile, Q: PostRoutine>(
    alloc: Global,
    lines: &[ActionLine],
) -> Result<Rooms<D, L, Q>, NoMemory>
    ensures rooms { IfOk result (λ rooms. AreRooms lines.now rooms.rooms.items) }
    ensures callers { IfOk result (λ rooms. IsRoomFor 16 rooms.callers.items (vec_capacity rooms.callers)) }
    ensures ended { IfOk result (λ rooms. IsRoomFor 16 rooms.ended.items (vec_capacity rooms.ended)) }
    ensures rows { IfOk result (λ rooms. IsRoomFor 16 rooms.rows.items (vec_capacity rooms.rows)) }
{
    let count = usize::from(CALLERS);
    let callers = Vec::with_capacity(alloc, count)?;
    let ended = Vec::with_capacity(alloc, count)?;
    let rows = Vec::with_capacity(alloc, count)?;
    Ok(Rooms {
        rooms: answer_rooms(alloc, lines)?,
        callers,
        ended,
        rows,
    })
}

// Room for the answers of each caller, from the last one on.
fn answer_rooms(alloc: Global, lines: &[ActionLine]) -> Result<Vec<Vec<Answer>>, NoMemory>
    ensures { IfOk result (λ rooms. AreRooms lines.now rooms.items) }
{
    let mut rooms = Vec::with_capacity(alloc, usize::from(CALLERS))?;
    let mut caller = u32::from(CALLERS);
    while caller > 0 {
        rooms.push_reserved(Vec::with_capacity(alloc, count_of(lines, caller))?);
        caller -= 1;
    }
    Ok(rooms)
}

// How many lines are a caller's.
fn count_of(lines: &[ActionLine], caller: u32) -> usize
    ensures count { result ≡ count_of_caller caller lines.now }
    ensures within { result ≤ length lines.now }
{
    let mut count = 0;
    for line in lines {
        if line.caller == caller {
            count += 1;
        }
    }
    count
}

// Splits a pass for each caller, in the order of their numbers.
fn split_all<D: PageDisk, L: LogFile, Q: PostRoutine>(
    board: &Board<D, L, Q>,
    first: &mut FirstPass<D, L, Q>,
    calls: &CallNumbers,
    rooms: Vec<Vec<Answer>>,
    names: &mut Vec<Names>,
    callers: Vec<Caller<D, L, Q>>,
) -> Vec<Caller<D, L, Q>>
    requires may { MaySplit board.now first.old }
    requires rooms { length rooms.items ≡ 16 }
    requires names { length names.old.items ≡ 16 }
    requires room { IsRoomFor 16 callers.items (vec_capacity callers) }
    ensures split { AreSplit board.now rooms.items names.old.items first.old first.new result.items }
    ensures emptied { (names.new.items ≡ []) × (vec_capacity names.new ≡ vec_capacity names.old) }
{
    let mut rooms = rooms;
    let mut callers = callers;
    let mut number = 0;
    while let Some(room) = rooms.pop() {
        number += 1;
        let Some(pass) = board.split(first) else {
            unreachable!()
        };
        let Some(own) = names.pop() else {
            unreachable!()
        };
        callers.push_reserved(Caller {
            pass,
            room,
            names: own,
            calls: calls.of(number),
        });
    }
    callers
}

// Joins the pass of each caller. Of each the row of its answers is left, from the last caller on, and from the last
// answer on, and what its words name, from the last caller on too.
fn join_all<D: PageDisk, L: LogFile, Q: PostRoutine>(
    board: &Board<D, L, Q>,
    first: &mut FirstPass<D, L, Q>,
    calls: &mut CallNumbers,
    ended: Vec<FinishedCaller<D, L, Q>>,
    names: &mut Vec<Names>,
    rows: Vec<Vec<Answer>>,
) -> Vec<Vec<Answer>>
    requires may { MayJoin board.now first.old ended.items }
    requires room { IsRoomFor 16 rows.items (vec_capacity rows) }
    requires name_room { IsRoomFor 16 names.old.items (vec_capacity names.old) }
    ensures joined { AreJoined first.old first.new ended.items result.items names.new.items }
{
    let mut ended = ended;
    let mut rows = rows;
    let mut number = u32::from(CALLERS);
    while let Some(
        FinishedCaller {
            pass,
            answers,
            names: own,
        },
    ) = ended.pop()
    {
        board.join(first, pass);
        let made = u32::try_from(answers.len()).unwrap_or(u32::MAX);
        calls.add(number, made);
        number -= 1;
        let mut row = answers;
        row.reverse();
        rows.push_reserved(row);
        names.push_reserved(own);
    }
    rows
}

// Puts the answer of each line behind the replies, from the rows of its caller.
fn merge(lines: &[ActionLine], rows: Vec<Vec<Answer>>, replies: &mut Vec<LineReply>)
    requires callers { AllByRecursion (λ line. IsCaller line.caller) lines.now }
    requires rows { AreAnswerRows lines.now (map (λ row. row.items) rows.items) }
    requires room { vec_len replies.old + length lines.now ≤ vec_capacity replies.old }
    ensures merged { Merged lines.now (map (λ row. row.items) rows.items) replies.old.items replies.new.items }
    ensures capacity { vec_capacity replies.new ≡ vec_capacity replies.old }
{
    let mut rows = rows;
    for line in lines {
        let Some(answer) = rows[usize::from(CALLERS) - line.caller as usize].pop() else {
            unreachable!()
        };
        replies.push_reserved(LineReply {
            line: line.line,
            answer,
        });
    }
}
