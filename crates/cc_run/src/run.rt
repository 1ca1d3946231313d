//! The run of a script: on a desk its streams are opened, its phases are served, and all comes back.

ghost use Rattle.std.specs.Prelude.{◌≡◌, List, ◌+◌, ◌*◌, ◌^◌, ◌<◌, ◌≤◌, ◌++◌, [], ◌∷◌, All, IfOk, IfErr, IfSome, length, map, reverse, true, false, vec_capacity};
ghost use Rattle.cc_journal.specs.Capacity.{IsWithinCapacity};
ghost use Rattle.cc_model.specs.Good.{IsGood};
ghost use Rattle.cc_turns.specs.Desk.{DeskIsFresh, standing_of, tells_of};
ghost use Rattle.cc_script.specs.Within.{ScriptIsWithin};
ghost use Rattle.cc_script.specs.Modes.{IsOfMode};
ghost use Rattle.cc_script.specs.declared.script.Mode.TheVariants as mode;
ghost use Rattle.cc_pieces.specs.Table.{table_of};
ghost use Rattle.cc_pieces.specs.Explained.{IsExplained};
ghost use Rattle.cc_pieces.specs.Steps.{RoutinesLeft, deferrals_by};
ghost use Rattle.cc_script.specs.EventActions.{defer_lines};
ghost use Rattle.cc_program.specs.Ends.{has_devices};
ghost use Rattle.cc_program.specs.Disks.{DisksStand};
ghost use Rattle.cc_run.specs.Lines.{HaveNoWords};
ghost use Rattle.cc_program.specs.Runs.{given_of, run_answered};
ghost use Rattle.cc_program.specs.Logs.{LogsStand};
ghost use Rattle.cc_run.specs.Places.{AreAsyncQueued, AreQueued, new_places, queues_of, taken_at};
ghost use Rattle.cc_queue.specs.Places.{new_place};
ghost use Rattle.cc_turns.specs.Places.{IsRoomFor};
ghost use Rattle.std.specs.List.{AllByRecursion};
ghost use Rattle.cc_run.specs.Runs.{HasRun, run_replies};
ghost use Rattle.cc_entry.specs.declared.entry.Entry.{Entry};
ghost use Rattle.cc_run.specs.Begun.{RunHasBegun};
ghost use Rattle.cc_run.specs.Desks.{PassIsReady, IsSameRun};
ghost use Rattle.cc_program.specs.Restarting.{AreEndsOf, RestartsTold};
ghost use Rattle.cc_program.specs.Setups.{setup_of};

use crate::aheads::Aheads;
use crate::modes::{MOST_DISKS, MOST_LOGS, RunResult};
use crate::openings::open_streams;
use crate::phases::serve_phases;
use crate::posts::{PostMark, settle};
use crate::restarts::end_restarts;
use crate::row::{first_of, put_back};
use crate::table::printed_rows;
use crate::ticks::Ticks;
use cc_async::AsyncPass;
use cc_entry::{LineReply, NoMemory, Request};
use cc_journal::Parts;
use cc_lines::{Names, Places, Queues};
use cc_queue::QueuePlace;
use cc_restarts::LogRestart;
use cc_script::Script;
use cc_traits::{Gate, JournalKind, LogFile, PageDisk, PostRoutine, Setup};
use cc_turns::Desk;
use std::alloc::Global;
use std::sync::Wait;
use std::thread::Threads;

/// The callers, which have a place at each queue.
const CALLERS: usize = 16;

/// The passes that have a place at the queue of read-ahead: the callers and the two workers.
const PLACES: usize = CALLERS + 2;

/// Runs a script, whose restarts ended so, over the first disks that are handed in, 16 at most, and the first logs, 4 at most,
/// which come back with the others. Where memory is wanting before the run begins, they come back as they were.
pub(crate) fn run_script<
    R: Threads + Wait + Sync,
    D: PageDisk + Send,
    L: LogFile + Send,
    Q: PostRoutine + Send,
    P: Gate,
>(
    rt: &R,
    alloc: Global,
    script: &Script,
    ended: &[LogRestart],
    gate: &P,
    disks: Vec<D>,
    logs: Vec<L>,
    posts: Vec<Q>,
) -> Result<RunResult<D, L, Q>, (Vec<D>, Vec<L>, Vec<Q>)>
    requires within { ScriptIsWithin script.now }
    requires of_mode { IsOfMode mode.Run script.now }
    requires enough { has_devices (length disks.items) (length logs.items) (length posts.items) script.now ≡ true }
    requires posts { All (λ routine. Q.posted routine ≡ false) posts.items }
    requires ended { AreEndsOf script.now.restarts ended.now }
    ensures ran { IfOk result (HasRun (tells_of D.told D.faults L.told L.faults Q.posted) mode.Run script.now
        disks.items logs.items posts.items) }
    ensures told { IfOk result (λ ran. RestartsTold (setup_of D.told D.faults script.now disks.items logs.items) ended.now
        ran.replies.items (reverse ran.journal.items)) }
    ensures kept { IfErr result (λ back. back.0.items ≡ disks.items) }
    ensures logs_kept { IfErr result (λ back. back.1.items ≡ logs.items) }
    ensures posts_kept { IfErr result (λ back. back.2.items ≡ posts.items) }
{
    let mut rest = disks;
    let mut further = logs;
    let count = ended.len() + script.streams.len() + script.lines.as_slice().len();
    let Ok(replies) = Vec::with_capacity(alloc, count) else {
        return Err((rest, further, posts));
    };
    let Ok(told) = Vec::with_capacity(alloc, ended.len()) else {
        return Err((rest, further, posts));
    };
    let Ok((queues, mut first)) = Queues::new(alloc) else {
        return Err((rest, further, posts));
    };
    let Ok(names) = names_for(alloc, script, &queues, &mut first) else {
        return Err((rest, further, posts));
    };
    let Places {
        ahead: mut place,
        ..
    } = first;
    let lazy = queues.ahead.split(&mut place);
    let Ok(aheads) = Aheads::with_room(alloc, script.aheads, script.phases, place) else {
        return Err((rest, further, posts));
    };
    let Ok(places) = Vec::with_capacity(alloc, PLACES) else {
        return Err((rest, further, posts));
    };
    let Ok(async_places) = Vec::with_capacity(alloc, CALLERS) else {
        return Err((rest, further, posts));
    };
    let Ok(ticks) = Ticks::with_room(alloc, script.ticks, script.phases) else {
        return Err((rest, further, posts));
    };
    let Ok(disks) = first_of(alloc, &mut rest, MOST_DISKS) else {
        return Err((rest, further, posts));
    };
    let Ok(logs) = first_of(alloc, &mut further, MOST_LOGS) else {
        return Err((put_back(disks, rest), further, posts));
    };
    let setup = Setup {
        disks,
        logs,
        journal: JournalKind::Recorded(script.journal as u32),
        threshold: script.threshold,
    };
    match Desk::<D, L, PostMark>::new(alloc, setup) {
        Ok(desk) => {
            let RunResult {
                replies,
                ticks,
                aheads,
                places,
                async_places,
                journal,
                table,
                disks,
                logs,
                posts,
            } = run_on(
                rt,
                alloc,
                script,
                gate,
                desk,
                &queues,
                names,
                ended,
                told,
                replies,
                ticks,
                aheads,
                lazy,
                places,
                async_places,
                posts,
            );
            Ok(RunResult {
                replies,
                ticks,
                aheads,
                places,
                async_places,
                journal,
                table,
                disks: put_back(disks, rest),
                logs: put_back(logs, further),
                posts,
            })
        }
        Err((setup, _)) => Err((
            put_back(setup.disks, rest),
            put_back(setup.logs, further),
            posts,
        )),
    }
}

// What is kept of the words of the 16 callers, none yet, with room for all that each binds, and with the places of each at
// the queues.
fn names_for(
    alloc: Global,
    script: &Script,
    queues: &Queues,
    places: &mut Places,
) -> Result<Vec<Names>, NoMemory>
    requires within { ScriptIsWithin script.now }
    requires own { queues_of places.old ≡ queues.now }
    ensures words { IfOk result (λ names. HaveNoWords script.now.lines names.items) }
    ensures places { IfOk result (λ names. AllByRecursion (λ own. own.places ≡ new_places queues.now) names.items) }
    ensures same { places.new ≡ places.old }
{
    let mut names = Vec::with_capacity(alloc, CALLERS)?;
    for caller in 1..17 {
        let own = queues.split(places);
        names.push_reserved(Names::with_room(alloc, script.words_of(caller), own)?);
    }
    Ok(names)
}

// Runs a script on a desk of which nothing happened yet, with room for the replies, for the callers' words and for the answers
// of the ticks.
fn run_on<
    R: Threads + Wait + Sync,
    D: PageDisk + Send,
    L: LogFile + Send,
    Q: PostRoutine + Send,
    P: Gate,
>(
    rt: &R,
    alloc: Global,
    script: &Script,
    gate: &P,
    desk: Desk<D, L, PostMark>,
    queues: &Queues,
    names: Vec<Names>,
    ended: &[LogRestart],
    told: Vec<LineReply>,
    replies: Vec<LineReply>,
    ticks: Ticks,
    aheads: Aheads,
    lazy: QueuePlace<Request>,
    places: Vec<QueuePlace<Request>>,
    async_places: Vec<AsyncPass>,
    posts: Vec<Q>,
) -> RunResult<D, L, Q>
    requires fresh { DeskIsFresh desk.begun desk }
    requires within { ScriptIsWithin script.now }
    requires of_mode { IsOfMode mode.Run script.now }
    requires recorded { desk.begun.capacity < 2 ^ 32 }
    requires enough { length script.now.streams ≤ length desk.begun.disks }
    requires words { HaveNoWords script.now.lines names.items }
    requires deferring { defer_lines script.now.lines ≤ length posts.items }
    requires unposted { All (λ routine. Q.posted routine ≡ false) posts.items }
    requires none { replies.items ≡ [] }
    requires ended { AreEndsOf script.now.restarts ended.now }
    requires none_told { told.items ≡ [] }
    requires told_room { length ended.now ≤ vec_capacity told }
    requires room { length ended.now + (length script.now.streams + length script.now.lines) ≤ vec_capacity replies }
    requires ticks { ticks.each ≡ script.now.ticks }
    requires no_ticks { ticks.answers.items ≡ [] }
    requires tick_room { script.now.ticks * script.now.phases ≤ vec_capacity ticks.answers }
    requires new_places { AllByRecursion (λ own. own.places ≡ new_places queues.now) names.items }
    requires new_lazy { lazy ≡ new_place queues.now.ahead }
    requires new_own { aheads.place ≡ new_place queues.now.ahead }
    requires steps { aheads.each ≡ script.now.aheads }
    requires no_steps { aheads.answers.items ≡ [] }
    requires step_room { script.now.aheads * script.now.phases ≤ vec_capacity aheads.answers }
    requires place_room { IsRoomFor 18 places.items (vec_capacity places) }
    requires async_room { IsRoomFor 16 async_places.items (vec_capacity async_places) }
    ensures good { IsGood (standing_of D.told D.faults L.told L.faults desk).setup (reverse result.journal.items) }
    ensures within { IsWithinCapacity desk.begun.capacity (reverse result.journal.items) }
    ensures explained { IsExplained (standing_of D.told D.faults L.told L.faults desk).setup
        (given_of script.now) (run_answered result.replies.items result.ticks.items result.aheads.items)
        (taken_at result.places.items) (reverse result.journal.items) }
    ensures told { RestartsTold (standing_of D.told D.faults L.told L.faults desk).setup ended.now result.replies.items
        (reverse result.journal.items) }
    ensures queued { AreQueued (given_of script.now) (run_answered result.replies.items result.ticks.items result.aheads.items)
        result.places.items (reverse result.journal.items) }
    ensures async_queued { AreAsyncQueued (given_of script.now)
        (run_answered result.replies.items result.ticks.items result.aheads.items) result.async_places.items }
    ensures ticked { length result.ticks.items ≡ script.now.ticks * script.now.phases }
    ensures table { IfSome result.table (λ rows. rows.items ≡ table_of (reverse result.journal.items)) }
    ensures disks { DisksStand D.told D.faults (standing_of D.told D.faults L.told L.faults desk).disks
        (length desk.begun.disks) (reverse result.journal.items) result.disks.items }
    ensures logs { LogsStand L.told L.faults (standing_of D.told D.faults L.told L.faults desk).logs
        (length desk.begun.logs) (reverse result.journal.items) result.logs.items }
    ensures posts { RoutinesLeft Q.posted
        (deferrals_by script.now.streams script.now.lines (run_replies script.now result.replies.items))
        (reverse result.journal.items) posts.items result.posts.items }
{
    let mut desk = desk;
    let mut told = told;
    let mut replies = replies;
    let mut ticks = ticks;
    begin_run(alloc, &mut desk, script, ended, &mut told, &mut replies);
    let (desk, names, aheads) = serve_phases(
        rt,
        alloc,
        desk,
        queues,
        script.phases,
        script.lines.as_slice(),
        gate,
        names,
        &mut replies,
        &mut ticks,
        aheads,
    );
    let Aheads {
        answers: aheads,
        place,
        ..
    } = aheads;
    let (places, async_places) = all_places(places, async_places, names, lazy, place);
    let table = printed_rows(alloc, desk.journal().dirty().rows()).ok();
    let Parts {
        disks,
        logs,
        journal,
        ..
    } = desk.end();
    let posts = settle(script, &mut replies, &journal, posts);
    replies.reverse();
    RunResult {
        replies: put_back(told, replies),
        ticks: ticks.answers,
        aheads,
        places,
        async_places,
        journal,
        table,
        disks,
        logs,
        posts,
    }
}

// Ends the restarts of a script and opens its streams, as pass 0, and puts the answers of their lines into the room that is there.
fn begin_run<D: PageDisk, L: LogFile, Q: PostRoutine>(
    alloc: Global,
    desk: &mut Desk<D, L, Q>,
    script: &Script,
    ended: &[LogRestart],
    told: &mut Vec<LineReply>,
    replies: &mut Vec<LineReply>,
)
    requires first { desk.old.pass ≡ 0 }
    requires begins { desk.old.since ≡ desk.old.last.entries }
    requires ready { PassIsReady (standing_of D.told D.faults L.told L.faults desk.old) }
    requires empty { desk.old.last.entries ≡ [] }
    requires known { length script.now.streams ≤ (standing_of D.told D.faults L.told L.faults desk.old).streams }
    requires few { length script.now.streams ≤ 16 }
    requires ended { AreEndsOf script.now.restarts ended.now }
    requires none_told { told.old.items ≡ [] }
    requires told_room { length ended.now ≤ vec_capacity told.old }
    requires none { replies.old.items ≡ [] }
    requires room { length script.now.streams ≤ vec_capacity replies.old }
    ensures begun { (ends : List Entry) × RunHasBegun (standing_of D.told D.faults L.told L.faults desk.old).setup script.now ended.now
        told.new.items replies.new.items ends desk.new.last.entries }
    ensures run { IsSameRun (standing_of D.told D.faults L.told L.faults desk.old)
        (standing_of D.told D.faults L.told L.faults desk.new) }
    ensures ready { PassIsReady (standing_of D.told D.faults L.told L.faults desk.new) }
    ensures capacity { vec_capacity replies.new ≡ vec_capacity replies.old }
{
    end_restarts(desk, ended, told);
    desk.act_as(0);
    open_streams(
        alloc,
        desk,
        script.restarts.as_slice(),
        told,
        script.streams.as_slice(),
        replies,
    );
}

// The places of all passes at each queue, from the first pass on: those of the callers, and at the queue of read-ahead that of the
// lazy writer, and that of the read-ahead worker.
fn all_places(
    places: Vec<QueuePlace<Request>>,
    async_places: Vec<AsyncPass>,
    names: Vec<Names>,
    lazy: QueuePlace<Request>,
    worker: QueuePlace<Request>,
) -> (Vec<QueuePlace<Request>>, Vec<AsyncPass>)
    requires callers { length names.items ≡ 16 }
    requires room { IsRoomFor 18 places.items (vec_capacity places) }
    requires async_room { IsRoomFor 16 async_places.items (vec_capacity async_places) }
    ensures places { result.0.items ≡ map (λ own. own.places.ahead) names.items ++ lazy ∷ worker ∷ [] }
    ensures async_places { result.1.items ≡ map (λ own. own.places.copies) names.items }
{
    let mut places = places;
    let mut async_places = async_places;
    let mut names = names;
    names.reverse();
    while let Some(own) = names.pop() {
        let Places { ahead, copies } = own.into_places();
        places.push_reserved(ahead);
        async_places.push_reserved(copies);
    }
    places.push_reserved(lazy);
    places.push_reserved(worker);
    (places, async_places)
}
