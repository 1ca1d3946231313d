//! The ticks of the lazy writer, so many in each phase, and their answers.

ghost use Rattle.std.specs.Prelude.{◌≡◌, ◌*◌, ◌≤◌, [], IfOk, vec_capacity};
ghost use Rattle.cc_lines.specs.Line.{WentOn};
ghost use Rattle.cc_run.specs.Ticks.{HasTickRoom, MayTick, TicksMade};

use cc_entry::{LineReply, NoMemory};
use cc_lines::serve_tick;
use cc_turns::Turns;
use std::alloc::Global;

/// How many ticks each phase of a run has, and the answer of each so far, with the number of its phase as line.
#[derive(Drop)]
pub(crate) struct Ticks {
    pub(crate) each: u32,
    pub(crate) answers: Vec<LineReply>,
}

impl Ticks {
    /// None yet, with room for the answers of so many phases.
    pub(crate) fn with_room(alloc: Global, each: u32, phases: u32) -> Result<Ticks, NoMemory>
        requires few { each ≤ 1000 }
        requires few_phases { phases ≤ 1001 }
        ensures each { IfOk result (λ ticks. ticks.each ≡ each) }
        ensures none { IfOk result (λ ticks. ticks.answers.items ≡ []) }
        ensures room { IfOk result (λ ticks. each * phases ≤ vec_capacity ticks.answers) }
    {
        let answers = Vec::with_capacity(alloc, each as usize * phases as usize)?;
        Ok(Ticks { each, answers })
    }

    /// None at all, which takes no memory.
    pub(crate) fn none(alloc: Global) -> Ticks {
        Ticks {
            each: 0,
            answers: Vec::new(alloc),
        }
    }
}

/// Makes the ticks of a phase as the lazy writer, and puts the answer of each behind those of the phases before.
pub(crate) fn make_ticks<T: Turns>(alloc: Global, turns: &mut T, phase: u32, ticks: &mut Ticks)
    requires may { MayTick (T.standing turns.old) }
    requires room { HasTickRoom ticks.old }
    ensures made { TicksMade (T.standing turns.old).setup phase ticks.old.each ticks.old ticks.new
        (T.standing turns.old).seen (T.standing turns.new).seen }
    ensures goes_on { WentOn (T.standing turns.old) (T.standing turns.new) }
{
    for _ in 0..ticks.each {
        let answer = serve_tick(alloc, turns);
        turns.note_others();
        ticks.answers.push_reserved(LineReply {
            line: phase,
            answer,
        });
    }
}
