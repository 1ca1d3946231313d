//! What a script left that was run, in either mode.

ghost use Rattle.std.specs.Prelude.{◌≡◌, ◌⊎◌, ◌++◌, All, IfOk, IfErr, length, reverse, true, false};
ghost use Rattle.cc_turns.specs.Desk.{tells_of};
ghost use Rattle.cc_script.specs.Modes.{IsOfMode};
ghost use Rattle.cc_script.specs.Within.{ScriptIsWithin};
ghost use Rattle.cc_program.specs.Complete.{RanWithoutFault};
ghost use Rattle.cc_program.specs.Ends.{has_devices};
ghost use Rattle.cc_program.specs.Restarting.{AreEndsOf, AreUntouched, MadeAlone, RestartsTold};
ghost use Rattle.cc_run.specs.Runs.{HasRun, HasRunBehind};
ghost use Rattle.cc_program.specs.Setups.{setup_of};

use crate::run::run_script;
use crate::steps::step_script;
use cc_async::AsyncPass;
use cc_entry::{Entry, LineReply, Request};
use cc_print::TableRow;
use cc_queue::QueuePlace;
use cc_restarts::{LogRestart, restart_script};
use cc_script::{Mode, Script};
use cc_traits::{Gate, LogFile, PageDisk, PostRoutine};
use std::alloc::Global;
use std::snapshot::Snapshot;
use std::sync::Wait;
use std::thread::Threads;

/// The most disks of a run.
pub(crate) const MOST_DISKS: usize = 16;

/// The most logs of a run.
pub(crate) const MOST_LOGS: usize = 4;

/// What a script left that was run.
pub(crate) struct RunResult<D, L, Q> {
    /// The answer of each line, those of the restarts and then those of the streams first.
    pub(crate) replies: Vec<LineReply>,
    /// The answer of each tick, with the number of its phase.
    pub(crate) ticks: Vec<LineReply>,
    /// The answer of each step of the read-ahead worker, with the number of its phase.
    pub(crate) aheads: Vec<LineReply>,
    /// The places of the passes 1 to 18 at the queue of read-ahead, in order; none in steps.
    pub(crate) places: Vec<QueuePlace<Request>>,
    /// The places of the passes 1 to 16 at the queue of copied reads, in order; none in steps.
    pub(crate) async_places: Vec<AsyncPass>,
    /// The oldest entry first.
    pub(crate) journal: Vec<Entry>,
    /// The rows of the pages that are dirty at the end; None where memory was wanting after the run began.
    pub(crate) table: Option<Vec<TableRow>>,
    pub(crate) disks: Vec<D>,
    pub(crate) logs: Vec<L>,
    pub(crate) posts: Vec<Q>,
}

/// What a script left that was run behind its restarts, and with what its run began.
pub(crate) struct RestartedRun<D, L, Q> {
    /// The disks and the logs as the restarts left them.
    pub(crate) disks_begun: Snapshot<Vec<D>>,
    pub(crate) logs_begun: Snapshot<Vec<L>>,
    pub(crate) ran: RunResult<D, L, Q>,
}

/// Makes the restarts of a script, and then runs it in its mode over the first disks that are handed in, 16 at most, and the
/// first logs, 4 at most, which come back with the others, and over the post routines. Where memory is wanting before the run
/// begins, all comes back, the disks and the logs as they were, or as the restarts left them.
pub(crate) fn run_in_mode<
    R: Threads + Wait + Sync,
    D: PageDisk + Send,
    L: LogFile + Send,
    Q: PostRoutine + Send,
    P: Gate,
>(
    rt: &R,
    alloc: Global,
    mode: Mode,
    script: &Script,
    gate: &P,
    disks: Vec<D>,
    logs: Vec<L>,
    posts: Vec<Q>,
) -> Result<RestartedRun<D, L, Q>, (Vec<D>, Vec<L>, Vec<Q>)>
    requires within { ScriptIsWithin script.now }
    requires of_mode { IsOfMode mode script.now }
    requires enough { has_devices (length disks.items) (length logs.items) (length posts.items) script.now ≡ true }
    requires posts { All (λ routine. Q.posted routine ≡ false) posts.items }
    ensures ran { IfOk result (HasRunBehind (tells_of D.told D.faults L.told L.faults Q.posted) mode script.now
        disks.items logs.items posts.items) }
    ensures faultless { IfOk result (λ done. RanWithoutFault D.faults L.faults disks.items done.ran.disks.items
        logs.items done.ran.logs.items
        (done.ran.replies.items ++ done.ran.ticks.items ++ done.ran.aheads.items) (reverse done.ran.journal.items)) }
    ensures left { IfErr result (λ back. AreUntouched disks.items back.0.items logs.items back.1.items
        ⊎ MadeAlone D.told D.faults L.told L.faults script.now disks.items back.0.items logs.items back.1.items) }
    ensures posts_kept { IfErr result (λ back. back.2.items ≡ posts.items) }
{
    let mut disks = disks;
    let mut logs = logs;
    let Ok(ended) = restart_script(alloc, script, &mut logs, &mut disks) else {
        return Err((disks, logs, posts));
    };
    let disks_begun = Snapshot::of(&disks);
    let logs_begun = Snapshot::of(&logs);
    match run_restarted(rt, alloc, mode, script, &ended, gate, disks, logs, posts) {
        Ok(ran) => Ok(RestartedRun {
            disks_begun,
            logs_begun,
            ran,
        }),
        Err(back) => Err(back),
    }
}

// Runs a script, whose restarts ended so, in its mode. Where memory is wanting before the run begins, all comes back as it was.
fn run_restarted<
    R: Threads + Wait + Sync,
    D: PageDisk + Send,
    L: LogFile + Send,
    Q: PostRoutine + Send,
    P: Gate,
>(
    rt: &R,
    alloc: Global,
    mode: Mode,
    script: &Script,
    ended: &[LogRestart],
    gate: &P,
    disks: Vec<D>,
    logs: Vec<L>,
    posts: Vec<Q>,
) -> Result<RunResult<D, L, Q>, (Vec<D>, Vec<L>, Vec<Q>)>
    requires within { ScriptIsWithin script.now }
    requires of_mode { IsOfMode mode script.now }
    requires enough { has_devices (length disks.items) (length logs.items) (length posts.items) script.now ≡ true }
    requires posts { All (λ routine. Q.posted routine ≡ false) posts.items }
    requires ended { AreEndsOf script.now.restarts ended.now }
    ensures ran { IfOk result (HasRun (tells_of D.told D.faults L.told L.faults Q.posted) mode script.now
        disks.items logs.items posts.items) }
    ensures told { IfOk result (λ ran. RestartsTold (setup_of D.told D.faults script.now disks.items logs.items) ended.now
        ran.replies.items (reverse ran.journal.items)) }
    ensures kept { IfErr result (λ back. back.0.items ≡ disks.items) }
    ensures logs_kept { IfErr result (λ back. back.1.items ≡ logs.items) }
    ensures posts_kept { IfErr result (λ back. back.2.items ≡ posts.items) }
{
    match mode {
        Mode::Run => {
            run_script::<R, D, L, Q, P>(rt, alloc, script, ended, gate, disks, logs, posts)
        }
        Mode::Steps => step_script(alloc, script, disks, logs, posts),
    }
}
