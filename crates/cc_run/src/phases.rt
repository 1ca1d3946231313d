//! The phases of a script, one after the other: in each the callers and the lazy writer run on threads, over one board.

ghost use Rattle.std.specs.Prelude.{◌≡◌, ℕ, ◌+◌, ◌*◌, ◌<◌, ◌≤◌, ◌++◌, ◌==◌, [], suc, List, true, take, drop, length, vec_len, vec_capacity};
ghost use Rattle.std.specs.List.{AllByRecursion};
ghost use Rattle.cc_pieces.specs.Rooms.{is_alone, room_limit};
ghost use Rattle.cc_script.specs.Within.{PhasesAscend};
ghost use Rattle.cc_turns.specs.Desk.{standing_of};
ghost use Rattle.cc_run.specs.Desks.{PassIsReady, IsSameRun};
ghost use Rattle.cc_pieces.specs.Bindings.{Binding};
ghost use Rattle.cc_script.specs.HoldWords.{AreUsedRight};
ghost use Rattle.cc_script.specs.declared.bound.Bound.{Bound};
ghost use Rattle.cc_lines.specs.Line.{IsServable};
ghost use Rattle.cc_run.specs.Lines.{AllStand, HaveNoWords, IsCaller, KeepRoom, MayServe};
ghost use Rattle.cc_run.specs.Phases.{PhaseEnds, PhasesServed};
ghost use Rattle.cc_run.specs.Aheads.{HasStepRoom, StepsMade, step_lines};
ghost use Rattle.cc_run.specs.Places.{AreOfQueues, PlaceWent, PlacesRan};
ghost use Rattle.cc_run.specs.Ticks.{HasTickRoom, TicksMade};

use crate::aheads::Aheads;
use crate::call_numbers::CallNumbers;
use crate::lines::{serve_lines, serve_steps, serve_ticks};
use crate::threads::serve_on_threads;
use crate::ticks::Ticks;
use cc_entry::LineReply;
use cc_lines::{Fresh, Names, Queues};
use cc_script::ActionLine;
use cc_traits::{Gate, LogFile, PageDisk};
use cc_turns::Desk;
use std::alloc::Global;
use std::sync::Wait;
use std::thread::Threads;

/// Serves the lines phase by phase, and puts the answer of each behind the replies, in the order of the lines, and that of
/// each tick and each read-ahead step behind those before. What the callers' words name, with their places, comes back.
pub(crate) fn serve_phases<
    R: Threads + Wait + Sync,
    D: PageDisk + Send,
    L: LogFile + Send,
    Q: Fresh + Send,
    P: Gate,
>(
    rt: &R,
    alloc: Global,
    desk: Desk<D, L, Q>,
    queues: &Queues,
    phases: u32,
    lines: &[ActionLine],
    gate: &P,
    names: Vec<Names>,
    replies: &mut Vec<LineReply>,
    ticks: &mut Ticks,
    aheads: Aheads,
) -> (Desk<D, L, Q>, Vec<Names>, Aheads)
    requires ready { PassIsReady (standing_of D.told D.faults L.told L.faults desk) }
    requires servable { AllByRecursion (λ line.
        IsServable (standing_of D.told D.faults L.told L.faults desk).streams line.action) lines.now }
    requires callers { AllByRecursion (λ line. IsCaller line.caller) lines.now }
    requires few { phases < 2048 }
    requires ascend { PhasesAscend 1 lines.now }
    requires within { AllByRecursion (λ line. line.phase ≤ phases) lines.now }
    requires words { HaveNoWords lines.now names.items }
    requires room { vec_len replies.old + length lines.now ≤ vec_capacity replies.old }
    requires own { AreOfQueues queues.now names.items }
    requires own_place { aheads.place.queue ≡ queues.now.ahead }
    requires no_ticks { ticks.old.answers.items ≡ [] }
    requires tick_room { ticks.old.each * phases ≤ vec_capacity ticks.old.answers }
    requires no_steps { aheads.answers.items ≡ [] }
    requires none_taken { aheads.place.taken ≡ [] }
    requires step_room { aheads.each * phases ≤ vec_capacity aheads.answers }
    ensures served { PhasesServed (standing_of D.told D.faults L.told L.faults desk).setup ticks.old.each aheads.each phases
        lines.now replies.old.items replies.new.items ticks.new.answers.items result.2.answers.items
        result.2.place.taken desk.last.entries result.0.last.entries }
    ensures placed { PlacesRan lines.now replies.old.items replies.new.items names.items result.1.items
        desk.last.entries result.0.last.entries }
    ensures counted { length result.1.items ≡ 16 }
    ensures stepped { PlaceWent 18 (step_lines result.2.answers.items) aheads.place result.2.place
        desk.last.entries result.0.last.entries }
    ensures run { IsSameRun (standing_of D.told D.faults L.told L.faults desk)
        (standing_of D.told D.faults L.told L.faults result.0) }
    ensures capacity { vec_capacity replies.new ≡ vec_capacity replies.old }
    ensures ready { PassIsReady (standing_of D.told D.faults L.told L.faults result.0) }
{
    let mut desk = desk;
    let mut names = names;
    let mut aheads = aheads;
    let mut calls = CallNumbers::new();
    let mut rest = lines;
    for phase in 1..phases + 1 {
        let (now, later) = rest.split_at(count_of_phase(rest, phase));
        (desk, aheads) = serve_phase(
            rt, alloc, desk, queues, phase, now, gate, &mut calls, &mut names, replies, ticks,
            aheads,
        );
        rest = later;
    }
    (desk, names, aheads)
}

// How many lines are of a phase, which no line is before.
fn count_of_phase(lines: &[ActionLine], phase: u32) -> usize
    requires { PhasesAscend phase lines.now }
    ensures within { result ≤ length lines.now }
    ensures those { AllByRecursion (λ line. line.phase ≡ phase) (take result lines.now) }
    ensures later { PhasesAscend (suc phase) (drop result lines.now) }
{
    let mut count = 0;
    while count < lines.len() && lines[count].phase == phase {
        count += 1;
    }
    count
}

// Serves the lines of a phase, and makes its ticks and its read-ahead steps: on threads, but the lines of one caller alone without
// either. Where memory is wanting for threads, the lines are served in their order, the ticks follow them, and then the steps.
fn serve_phase<
    R: Threads + Wait + Sync,
    D: PageDisk + Send,
    L: LogFile + Send,
    Q: Fresh + Send,
    P: Gate,
>(
    rt: &R,
    alloc: Global,
    desk: Desk<D, L, Q>,
    queues: &Queues,
    phase: u32,
    lines: &[ActionLine],
    gate: &P,
    calls: &mut CallNumbers,
    names: &mut Vec<Names>,
    replies: &mut Vec<LineReply>,
    ticks: &mut Ticks,
    aheads: Aheads,
) -> (Desk<D, L, Q>, Aheads)
    requires ready { PassIsReady (standing_of D.told D.faults L.told L.faults desk) }
    requires servable { AllByRecursion (λ line.
        IsServable (standing_of D.told D.faults L.told L.faults desk).streams line.action) lines.now }
    requires callers { AllByRecursion (λ line. IsCaller line.caller) lines.now }
    requires those { AllByRecursion (λ line. line.phase ≡ phase) lines.now }
    requires words { MayServe (standing_of D.told D.faults L.told L.faults desk).streams desk.last.entries
        lines.now names.old.items }
    requires room { vec_len replies.old + length lines.now ≤ vec_capacity replies.old }
    requires own { AreOfQueues queues.now names.old.items }
    requires own_place { aheads.place.queue ≡ queues.now.ahead }
    requires tick_room { HasTickRoom ticks.old }
    requires step_room { HasStepRoom aheads }
    ensures served { (bounds : ℕ → List Bound) (bindings : ℕ → List Binding) →
        AllStand (standing_of D.told D.faults L.told L.faults desk).streams desk.last.entries bounds bindings
        names.old.items → ((me : ℕ) → AreUsedRight me (bounds me) lines.now) →
        PhaseEnds (standing_of D.told D.faults L.told L.faults desk).setup
        (standing_of D.told D.faults L.told L.faults desk).streams phase ticks.old.each aheads.each bounds bindings lines.now
        replies.old.items replies.new.items desk.last.entries result.0.last.entries names.new.items }
    ensures ticked { TicksMade (standing_of D.told D.faults L.told L.faults desk).setup phase ticks.old.each
        ticks.old ticks.new desk.last.entries result.0.last.entries }
    ensures stepped { StepsMade (standing_of D.told D.faults L.told L.faults desk).setup phase aheads.each
        aheads result.1 desk.last.entries result.0.last.entries }
    ensures placed { PlacesRan lines.now replies.old.items replies.new.items names.old.items names.new.items
        desk.last.entries result.0.last.entries }
    ensures kept_room { KeepRoom names.old.items names.new.items }
    ensures run { IsSameRun (standing_of D.told D.faults L.told L.faults desk)
        (standing_of D.told D.faults L.told L.faults result.0) }
    ensures ready { PassIsReady (standing_of D.told D.faults L.told L.faults result.0) }
    ensures capacity { vec_capacity replies.new ≡ vec_capacity replies.old }
{
    let mut desk = desk;
    let mut aheads = aheads;
    if runs_beside(lines, ticks.each, aheads.each) {
        match serve_on_threads(
            rt, alloc, desk, queues, phase, lines, gate, calls, names, replies, ticks, aheads,
        ) {
            Ok(done) => return done,
            Err(back) => (desk, aheads) = back,
        }
    }
    serve_lines(
        rt, alloc, &mut desk, queues, lines, gate, calls, names, replies,
    );
    serve_ticks(alloc, &mut desk, phase, ticks);
    serve_steps(rt, alloc, &mut desk, &queues.ahead, phase, &mut aheads);
    (desk, aheads)
}

// Whether a phase has ticks, read-ahead steps, or lines of several callers.
fn runs_beside(lines: &[ActionLine], ticks: u32, aheads: u32) -> bool
    ensures { (phase : ℕ) → AllByRecursion (λ line. line.phase ≡ phase) lines.now → result ≡ true →
        room_limit ticks aheads (is_alone phase lines.now) ≡ 32 }
{
    ticks > 0 || aheads > 0 || !is_alone(lines)
}

// Whether lines are all of one caller.
fn is_alone(lines: &[ActionLine]) -> bool
    ensures { (phase : ℕ) → AllByRecursion (λ line. line.phase ≡ phase) lines.now →
        result ≡ is_alone phase lines.now }
{
    match lines.first() {
        Some(first) => lines.iter().all(|line| line.caller == first.caller),
        None => true,
    }
}
