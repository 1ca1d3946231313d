//! A script of steps: on a World its streams are set up, each of its lines is an event, and all comes back.

ghost use Rattle.std.specs.Prelude.{◌≡◌, All, IfOk, IfErr, length, true, false};
ghost use Rattle.cc_turns.specs.Desk.{tells_of};
ghost use Rattle.cc_script.specs.Modes.{IsOfMode};
ghost use Rattle.cc_script.specs.Within.{ScriptIsWithin};
ghost use Rattle.cc_script.specs.declared.script.Mode.TheVariants as mode;
ghost use Rattle.cc_program.specs.Ends.{has_devices};
ghost use Rattle.cc_run.specs.Runs.{HasRun};

use crate::modes::{MOST_DISKS, MOST_LOGS, RunResult};
use crate::row::{first_of, put_back};
use crate::table::printed_rows;
use cc_event_lines::{StepsEnd, run_steps};
use cc_script::Script;
use cc_traits::{JournalKind, LogFile, PageDisk, PostRoutine, Setup};
use std::alloc::Global;

/// Takes a script through the World over the first disks that are handed in, 16 at most, and the first logs, 4 at most, which
/// come back with the others, and over the post routines. Where memory is wanting before it begins, all comes back as it was.
pub(crate) fn step_script<D: PageDisk, L: LogFile, Q: PostRoutine>(
    alloc: Global,
    script: &Script,
    disks: Vec<D>,
    logs: Vec<L>,
    posts: Vec<Q>,
) -> Result<RunResult<D, L, Q>, (Vec<D>, Vec<L>, Vec<Q>)>
    requires within { ScriptIsWithin script.now }
    requires of_mode { IsOfMode mode.Steps script.now }
    requires enough { has_devices (length disks.items) (length logs.items) (length posts.items) script.now ≡ true }
    requires posts { All (λ routine. Q.posted routine ≡ false) posts.items }
    ensures ran { IfOk result (HasRun (tells_of D.told D.faults L.told L.faults Q.posted) mode.Steps script.now
        disks.items logs.items posts.items) }
    ensures kept { IfErr result (λ back. back.0.items ≡ disks.items) }
    ensures logs_kept { IfErr result (λ back. back.1.items ≡ logs.items) }
    ensures posts_kept { IfErr result (λ back. back.2.items ≡ posts.items) }
{
    let mut rest = disks;
    let mut further = logs;
    let Ok(disks) = first_of(alloc, &mut rest, MOST_DISKS) else {
        return Err((rest, further, posts));
    };
    let Ok(logs) = first_of(alloc, &mut further, MOST_LOGS) else {
        return Err((put_back(disks, rest), further, posts));
    };
    let setup = Setup {
        disks,
        logs,
        journal: JournalKind::Recorded(script.journal as u32),
        threshold: script.threshold,
    };
    match run_steps(alloc, script, setup, posts) {
        Ok(ran) => {
            let table = printed_rows(alloc, ran.journal().dirty().rows()).ok();
            let StepsEnd {
                replies,
                journal,
                disks,
                logs,
                posts,
            } = ran.end();
            Ok(RunResult {
                replies,
                ticks: Vec::new(alloc),
                aheads: Vec::new(alloc),
                places: Vec::new(alloc),
                async_places: Vec::new(alloc),
                journal,
                table,
                disks: put_back(disks, rest),
                logs: put_back(logs, further),
                posts,
            })
        }
        Err((setup, posts)) => Err((
            put_back(setup.disks, rest),
            put_back(setup.logs, further),
            posts,
        )),
    }
}
