//! The steps of the read-ahead worker, up to so many in each phase, and their answers.

ghost use Rattle.std.specs.Prelude.{◌≡◌, ◌*◌, ◌≤◌, [], IfOk, vec_capacity};
ghost use Rattle.cc_pieces.specs.Queue.{is_none_stepped};
ghost use Rattle.cc_lines.specs.Line.{WentOn};
ghost use Rattle.cc_run.specs.Aheads.{HasStepRoom, WorkerMayStep, StepsMade};

use cc_entry::{Answer, LineReply, NoMemory, Request};
use cc_lines::serve_step;
use cc_queue::{Queue, QueuePlace};
use cc_turns::Turns;
use std::alloc::Global;
use std::sync::Wait;

/// How many steps each phase of a run has at most, the answer of each so far, with the number of its phase as line, and the
/// worker's place at the queue.
#[derive(Drop)]
pub(crate) struct Aheads {
    pub(crate) each: u32,
    pub(crate) answers: Vec<LineReply>,
    pub(crate) place: QueuePlace<Request>,
}

impl Aheads {
    /// None yet, at this place, with room for the answers of so many phases.
    pub(crate) fn with_room(
        alloc: Global,
        each: u32,
        phases: u32,
        place: QueuePlace<Request>,
    ) -> Result<Aheads, NoMemory>
        requires few { each ≤ 1000 }
        requires few_phases { phases ≤ 1001 }
        ensures each { IfOk result (λ aheads. aheads.each ≡ each) }
        ensures none { IfOk result (λ aheads. aheads.answers.items ≡ []) }
        ensures room { IfOk result (λ aheads. each * phases ≤ vec_capacity aheads.answers) }
        ensures place { IfOk result (λ aheads. aheads.place ≡ place) }
    {
        let answers = Vec::with_capacity(alloc, each as usize * phases as usize)?;
        Ok(Aheads {
            each,
            answers,
            place,
        })
    }
}

/// Makes the steps of a phase as the read-ahead worker, until there are so many or one found no request, and puts the answer of
/// each behind those of the phases before.
pub(crate) fn make_steps<R: Wait, T: Turns>(
    rt: &R,
    alloc: Global,
    turns: &mut T,
    queue: &Queue<Request>,
    phase: u32,
    aheads: &mut Aheads,
)
    requires may { WorkerMayStep (T.standing turns.old) }
    requires own { aheads.old.place.queue ≡ queue.now }
    requires room { HasStepRoom aheads.old }
    ensures made { StepsMade (T.standing turns.old).setup phase aheads.old.each aheads.old aheads.new
        (T.standing turns.old).seen (T.standing turns.new).seen }
    ensures goes_on { WentOn (T.standing turns.old) (T.standing turns.new) }
{
    for _ in 0..aheads.each {
        let answer = serve_step(rt, alloc, turns, queue, &mut aheads.place);
        turns.note_others();
        let found_none = is_none(&answer);
        aheads.answers.push_reserved(LineReply {
            line: phase,
            answer,
        });
        if found_none {
            return;
        }
    }
}

// Whether a step answers that there was no request.
fn is_none(answer: &Answer) -> bool
    ensures { result ≡ is_none_stepped answer.now }
{
    matches!(answer, Answer::Stepped(None))
}
