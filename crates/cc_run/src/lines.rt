//! The lines of a phase on a desk, in their order, and the ticks and the read-ahead steps behind them.

ghost use Rattle.std.specs.Prelude.{◌≡◌, ◌≢◌, ℕ, ◌+◌, ◌≤◌, List, [], ◌∷◌, length, vec_len, vec_capacity};
ghost use Rattle.std.specs.List.{AllByRecursion};
ghost use Rattle.cc_effects.specs.Moments.{IsIdle};
ghost use Rattle.cc_turns.specs.Desk.{standing_of};
ghost use Rattle.cc_run.specs.Desks.{PassIsReady, IsSameRun};
ghost use Rattle.cc_model.specs.Good.{IsGood};
ghost use Rattle.cc_pieces.specs.Bindings.{Binding};
ghost use Rattle.cc_pieces.specs.Phases.{lazy_writer, read_ahead_worker};
ghost use Rattle.cc_script.specs.HoldWords.{AreUsedRight, UsesRight};
ghost use Rattle.cc_script.specs.declared.bound.Bound.{Bound};
ghost use Rattle.cc_lines.specs.Holds.{NamesStand};
ghost use Rattle.cc_lines.specs.Line.{IsServable};
ghost use Rattle.cc_run.specs.Lines.{AllStand, IsCaller, KeepRoom, LineEnd, LinesEnd, MayServe, MayServeLine};
ghost use Rattle.cc_run.specs.Aheads.{HasStepRoom, StepsMade};
ghost use Rattle.cc_run.specs.Places.{AreOfQueues, PlacesRan, PlacesWent, queues_of};
ghost use Rattle.cc_run.specs.Ticks.{HasTickRoom, TicksMade};

use crate::aheads::{Aheads, make_steps};
use crate::call_numbers::CallNumbers;
use crate::ticks::{Ticks, make_ticks};
use cc_entry::{Answer, LineReply, Request};
use cc_lines::{Fresh, Names, Queues, serve_at};
use cc_queue::Queue;
use cc_script::ActionLine;
use cc_traits::{Gate, LogFile, PageDisk, PostRoutine};
use cc_turns::Desk;
use std::alloc::Global;
use std::sync::Wait;

/// The pass of the lazy writer.
const LAZY_WRITER: u32 = 17;

/// The pass of the read-ahead worker.
const READ_AHEAD_WORKER: u32 = 18;

/// Serves the lines, and puts the answer of each behind the replies.
pub(crate) fn serve_lines<R: Wait, D: PageDisk, L: LogFile, Q: Fresh, P: Gate>(
    rt: &R,
    alloc: Global,
    desk: &mut Desk<D, L, Q>,
    queues: &Queues,
    lines: &[ActionLine],
    gate: &P,
    calls: &mut CallNumbers,
    names: &mut [Names],
    replies: &mut Vec<LineReply>,
)
    requires ready { PassIsReady (standing_of D.told D.faults L.told L.faults desk.old) }
    requires servable { AllByRecursion (λ line.
        IsServable (standing_of D.told D.faults L.told L.faults desk.old).streams line.action) lines.now }
    requires callers { AllByRecursion (λ line. IsCaller line.caller) lines.now }
    requires words { MayServe (standing_of D.told D.faults L.told L.faults desk.old).streams desk.old.last.entries
        lines.now names.old }
    requires room { vec_len replies.old + length lines.now ≤ vec_capacity replies.old }
    requires own { AreOfQueues queues.now names.old }
    ensures served { (bounds : ℕ → List Bound) (bindings : ℕ → List Binding) →
        AllStand (standing_of D.told D.faults L.told L.faults desk.old).streams desk.old.last.entries bounds bindings names.old →
        ((me : ℕ) → AreUsedRight me (bounds me) lines.now) →
        LinesEnd (standing_of D.told D.faults L.told L.faults desk.old) bounds bindings lines.now
        replies.old.items replies.new.items desk.old.last.entries desk.new.last.entries names.new }
    ensures kept_room { KeepRoom names.old names.new }
    ensures placed { PlacesRan lines.now replies.old.items replies.new.items names.old names.new
        desk.old.last.entries desk.new.last.entries }
    ensures run { IsSameRun (standing_of D.told D.faults L.told L.faults desk.old)
        (standing_of D.told D.faults L.told L.faults desk.new) }
    ensures ready { PassIsReady (standing_of D.told D.faults L.told L.faults desk.new) }
    ensures capacity { vec_capacity replies.new ≡ vec_capacity replies.old }
{
    for line in lines {
        let own = &mut names[line.caller as usize - 1];
        let answer = serve_line(
            rt,
            alloc,
            desk,
            queues,
            line,
            gate,
            calls.next(line.caller),
            own,
        );
        replies.push_reserved(LineReply {
            line: line.line,
            answer,
        });
    }
}

// Serves a line as its caller.
fn serve_line<R: Wait, D: PageDisk, L: LogFile, Q: Fresh, P: Gate>(
    rt: &R,
    alloc: Global,
    desk: &mut Desk<D, L, Q>,
    queues: &Queues,
    line: &ActionLine,
    gate: &P,
    number: u32,
    names: &mut Names,
) -> Answer
    requires ready { PassIsReady (standing_of D.told D.faults L.told L.faults desk.old) }
    requires servable { IsServable (standing_of D.told D.faults L.told L.faults desk.old).streams line.now.action }
    requires words { MayServeLine (standing_of D.told D.faults L.told L.faults desk.old).streams desk.old.last.entries
        line.now names.old }
    requires own { queues_of names.old.places ≡ queues.now }
    ensures left { (bounds : List Bound) (bindings : List Binding) →
        NamesStand (standing_of D.told D.faults L.told L.faults desk.old).streams line.now.caller
        desk.old.last.entries bounds bindings names.old.named → UsesRight bounds line.now.action →
        LineEnd (standing_of D.told D.faults L.told L.faults desk.old) bounds bindings line.now
        result desk.old.last.entries desk.new.last.entries names.new }
    ensures kept_room { names.new.room ≡ names.old.room }
    ensures placed { PlacesWent line.now.caller ((line.now.action, result) ∷ []) names.old.places names.new.places
        desk.old.last.entries desk.new.last.entries }
    ensures alone { (me : ℕ) → me ≢ line.now.caller → IsIdle me desk.old.last.entries desk.new.last.entries }
    ensures good { IsGood (standing_of D.told D.faults L.told L.faults desk.old).setup desk.new.last.entries }
    ensures run { IsSameRun (standing_of D.told D.faults L.told L.faults desk.old)
        (standing_of D.told D.faults L.told L.faults desk.new) }
    ensures ready { PassIsReady (standing_of D.told D.faults L.told L.faults desk.new) }
{
    desk.act_as(line.caller);
    desk.good();
    let answer = serve_at(rt, alloc, desk, queues, &line.action, gate, number, names);
    desk.own();
    answer
}

/// Makes the ticks of a phase as the lazy writer.
pub(crate) fn serve_ticks<D: PageDisk, L: LogFile, Q: PostRoutine>(
    alloc: Global,
    desk: &mut Desk<D, L, Q>,
    phase: u32,
    ticks: &mut Ticks,
)
    requires ready { PassIsReady (standing_of D.told D.faults L.told L.faults desk.old) }
    requires room { HasTickRoom ticks.old }
    ensures made { TicksMade (standing_of D.told D.faults L.told L.faults desk.old).setup phase ticks.old.each
        ticks.old ticks.new desk.old.last.entries desk.new.last.entries }
    ensures alone { (me : ℕ) → me ≢ lazy_writer → IsIdle me desk.old.last.entries desk.new.last.entries }
    ensures good { IsGood (standing_of D.told D.faults L.told L.faults desk.old).setup desk.new.last.entries }
    ensures run { IsSameRun (standing_of D.told D.faults L.told L.faults desk.old)
        (standing_of D.told D.faults L.told L.faults desk.new) }
    ensures ready { PassIsReady (standing_of D.told D.faults L.told L.faults desk.new) }
{
    desk.act_as(LAZY_WRITER);
    make_ticks(alloc, desk, phase, ticks);
    desk.own();
    desk.good();
}

/// Makes the read-ahead steps of a phase as the worker.
pub(crate) fn serve_steps<R: Wait, D: PageDisk, L: LogFile, Q: PostRoutine>(
    rt: &R,
    alloc: Global,
    desk: &mut Desk<D, L, Q>,
    queue: &Queue<Request>,
    phase: u32,
    aheads: &mut Aheads,
)
    requires ready { PassIsReady (standing_of D.told D.faults L.told L.faults desk.old) }
    requires own { aheads.old.place.queue ≡ queue.now }
    requires room { HasStepRoom aheads.old }
    ensures made { StepsMade (standing_of D.told D.faults L.told L.faults desk.old).setup phase aheads.old.each
        aheads.old aheads.new desk.old.last.entries desk.new.last.entries }
    ensures alone { (me : ℕ) → me ≢ read_ahead_worker → IsIdle me desk.old.last.entries desk.new.last.entries }
    ensures good { IsGood (standing_of D.told D.faults L.told L.faults desk.old).setup desk.new.last.entries }
    ensures run { IsSameRun (standing_of D.told D.faults L.told L.faults desk.old)
        (standing_of D.told D.faults L.told L.faults desk.new) }
    ensures ready { PassIsReady (standing_of D.told D.faults L.told L.faults desk.new) }
{
    desk.act_as(READ_AHEAD_WORKER);
    make_steps(rt, alloc, desk, queue, phase, aheads);
    desk.own();
    desk.good();
}
