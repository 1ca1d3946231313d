//! The top call: words, script, run, text, status, in this order.

ghost use Rattle.std.specs.Prelude.{◌≡◌, ◌⊎◌, ◌≤◌, ◌+◌, ◌++◌, ℕ, List, [], All, Some, None, true, false, is_some, reverse, map, length, string_bytes, IfSome, IfOk, IfErr};
ghost use Rattle.cc_model.specs.Setup.{Setup};
ghost use Rattle.cc_journal.specs.Capacity.{IsWithinCapacity};
ghost use Rattle.cc_model.specs.Good.{IsGood};
ghost use Rattle.cc_script.specs.Within.{ScriptIsWithin};
ghost use Rattle.cc_script.specs.Modes.{IsOfMode};
ghost use Rattle.cc_pieces.specs.Steps.{RoutinesLeft};
ghost use Rattle.cc_pieces.specs.Table.{table_of};
ghost use Rattle.cc_program.specs.Setups.{IsSetupOf, setup_of};
ghost use Rattle.cc_command.specs.Taken.{WasTaken};
ghost use Rattle.cc_program.specs.Ends.{Input, input, output, IsCause, ProgramIsRefused, ProgramIsEnded, IsAsked, IsFaultPut, IsPrinted, has_devices, printed_by};
ghost use Rattle.cc_program.specs.Calls.{HasClauses};
ghost use Rattle.cc_program.specs.Complete.{RanWithoutFault};
ghost use Rattle.cc_program.specs.Main.{HasMain};
ghost use Rattle.cc_command.specs.declared.no_run.NoRun.TheVariants as no_run;
ghost use Rattle.cc_program.specs.Disks.{DisksLeft};
ghost use Rattle.cc_program.specs.Logs.{LogsLeft};
ghost use Rattle.cc_command.specs.Words.{command_of, is_reading, mode_by, mode_in, reads_source};
ghost use Rattle.cc_command.specs.declared.words.Command.TheVariants as asked;
ghost use Rattle.cc_program.specs.Runs.{IsExplainedBy, run_answered};
ghost use Rattle.cc_run.specs.Places.{taken_at};
ghost use Rattle.cc_program.specs.Begun.{RunIsBegun};
ghost use Rattle.cc_run.specs.Runs.{AreAsyncQueuedBy, AreQueuedBy, deferrals_of_script, ticks_asked};

use crate::devices::has_devices;
use crate::modes::{RestartedRun, RunResult, run_in_mode};
use cc_async::AsyncPass;
use cc_command::{
    Command, IntakeError, NoRun, OutputError, put_all, read_words, syntax_text, take_all,
};
use cc_entry::{Entry, LineReply, Request};
use cc_print::{summary_of, text_of};
use cc_queue::QueuePlace;
use cc_script::{Mode, Script, ScriptFault, generate, read_script};
use cc_traits::{Gate, LogFile, PageDisk, PostRoutine, Sink, Source};
use std::alloc::Global;
use std::snapshot::Snapshot;
use std::sync::Wait;
use std::thread::Threads;

/// What a run of the program leaves. Disks, logs and posts come back in the order handed in.
pub struct Ended<D, L = Box<dyn LogFile + Send>, Q = Box<dyn PostRoutine + Send>> {
    /// The exit status: 0 the text was written whole, 1 the words are no command, 2 a line is not in the
    /// grammar, 3 the source failed, 4 the sink failed, 5 the script is too long, 6 memory was wanting,
    /// 7 the script has more streams than there are disks, names a log that there is not, or defers more writes than there are
    /// post routines.
    pub status: u8,
    /// The script that was run, where one was: at the statuses 0 and 4, and at 6 where memory was wanting
    /// after the run began.
    pub script: Option<Script>,
    /// The answer of each line, those of the restarts and then those of the streams first.
    pub replies: Vec<LineReply>,
    /// The answers of the lazy writer's ticks in their order, with the number of the phase, from 1, as line.
    pub ticks: Vec<LineReply>,
    /// The answers of the read-ahead worker's steps, likewise.
    pub aheads: Vec<LineReply>,
    /// The places of the passes 1 to 18 at the one queue of read-ahead of a run, in order; none in `steps` and `gen`, and where
    /// no run was made.
    pub places: Vec<QueuePlace<Request>>,
    /// The places of the passes 1 to 16 at the one queue of copied reads of a run, in order; none where `places` has none.
    pub async_places: Vec<AsyncPass>,
    /// The journal, oldest entry first; empty where no run was made.
    pub journal: Vec<Entry>,
    pub disks: Vec<D>,
    pub logs: Vec<L>,
    pub posts: Vec<Q>,
    /// The disks and the logs as the run began: as they were handed in, but for what the restarts of the script did. Nothing of
    /// them is kept; clauses alone see them.
    pub disks_begun: Snapshot<Vec<D>>,
    pub logs_begun: Snapshot<Vec<L>>,
}

/// A script, and the command that asked for it.
struct Prepared {
    command: Command,
    script: Script,
}

/// What was made of the words, the script, the disks, the logs and the post routines.
struct Report<D, L, Q> {
    status: u8,
    script: Option<Script>,
    replies: Vec<LineReply>,
    ticks: Vec<LineReply>,
    aheads: Vec<LineReply>,
    places: Vec<QueuePlace<Request>>,
    async_places: Vec<AsyncPass>,
    journal: Vec<Entry>,
    disks: Vec<D>,
    logs: Vec<L>,
    posts: Vec<Q>,
    disks_begun: Snapshot<Vec<D>>,
    logs_begun: Snapshot<Vec<L>>,
}

/// Puts out why no run was made, as far as the sink takes it. What ends the program is answered: where
/// memory is wanting, that.
fn put_fault<K: Sink>(alloc: Global, out: &mut K, why: NoRun) -> NoRun
    ensures kept { (result ≡ why) ⊎ (result ≡ NoRun.NoMemory) }
    ensures put { IsFaultPut (output K.told K.faults K.stalls out.old out.new) result }
{
    let put = match why {
        NoRun::Syntax { line } => match syntax_text(alloc, line) {
            Ok(text) => put_all(out, text.as_bytes()),
            Err(_) => Err(OutputError::NoMemory),
        },
        _ => put_all(out, why.fixed_text().as_bytes()),
    };
    match put {
        Err(OutputError::NoMemory) => NoRun::NoMemory,
        _ => why,
    }
}

/// A report without a run.
fn refused<K: Sink, D, L, Q>(
    alloc: Global,
    out: &mut K,
    why: NoRun,
    disks: Vec<D>,
    logs: Vec<L>,
    posts: Vec<Q>,
) -> Report<D, L, Q>
    ensures script { result.script ≡ None }
    ensures replies { result.replies.items ≡ [] }
    ensures ticks { result.ticks.items ≡ [] }
    ensures aheads { result.aheads.items ≡ [] }
    ensures places { result.places.items ≡ [] }
    ensures async_places { result.async_places.items ≡ [] }
    ensures journal { result.journal.items ≡ [] }
    ensures disks { result.disks ≡ disks }
    ensures logs { result.logs ≡ logs }
    ensures posts { result.posts ≡ posts }
    ensures status { why ≡ NoRun.NoMemory → result.status ≡ 6 }
    ensures disks_begun { result.disks_begun.value ≡ disks }
    ensures logs_begun { result.logs_begun.value ≡ logs }
    ensures refused { (i : Input) → IsCause i why → ProgramIsRefused i (output K.told K.faults K.stalls out.old out.new) result.status }
{
    let why = put_fault(alloc, out, why);
    let disks_begun = Snapshot::of(&disks);
    let logs_begun = Snapshot::of(&logs);
    Report {
        status: why.status(),
        script: None,
        replies: Vec::new(alloc),
        ticks: Vec::new(alloc),
        aheads: Vec::new(alloc),
        places: Vec::new(alloc),
        async_places: Vec::new(alloc),
        journal: Vec::new(alloc),
        disks,
        logs,
        posts,
        disks_begun,
        logs_begun,
    }
}

/// The script that the source's bytes spell in a mode, or why there is none. What it says holds of any words that ask for
/// the source in this mode.
fn read_source<S: Source>(alloc: Global, source: &mut S, mode: Mode) -> Result<Script, NoRun>
    ensures asked { IfOk result (λ script. (words : List (List ℕ)) (disks logs posts : ℕ) → command_of words ≡ Some (Command.Read mode) →
        IsAsked (input S.told S.faults S.given S.ended words source.old source.new disks logs posts) script) }
    ensures cause { IfErr result (λ why. (words : List (List ℕ)) (disks logs posts : ℕ) → command_of words ≡ Some (Command.Read mode) →
        IsCause (input S.told S.faults S.given S.ended words source.old source.new disks logs posts) why) }
    ensures given { WasTaken (S.told source.old) (S.told source.new) (S.given source.old) (S.given source.new) }
    ensures bounded { length (S.given source.new) ≤ length (S.given source.old) + 16777217 }
    ensures within { IfOk result ScriptIsWithin }
    ensures of_mode { IfOk result (IsOfMode mode) }
{
    let bytes = match take_all(alloc, source) {
        Ok(bytes) => bytes,
        Err(IntakeError::Failed) => return Err(NoRun::ReadFault),
        Err(IntakeError::TooLong) => return Err(NoRun::TooLong),
        Err(IntakeError::NoMemory) => return Err(NoRun::NoMemory),
    };
    match read_script(alloc, &bytes, mode) {
        Ok(script) => Ok(script),
        Err(ScriptFault::Syntax { line }) => Err(NoRun::Syntax { line }),
        Err(ScriptFault::NoMemory) => Err(NoRun::NoMemory),
    }
}

/// The script that a command asks for, from the source or of its number, or why there is none.
fn script_of<S: Source>(alloc: Global, source: &mut S, command: Command) -> Result<Script, NoRun>
    ensures asked { IfOk result (λ script. (words : List (List ℕ)) (disks logs posts : ℕ) → command_of words ≡ Some command →
        IsAsked (input S.told S.faults S.given S.ended words source.old source.new disks logs posts) script) }
    ensures cause { IfErr result (λ why. (words : List (List ℕ)) (disks logs posts : ℕ) → command_of words ≡ Some command →
        IsCause (input S.told S.faults S.given S.ended words source.old source.new disks logs posts) why) }
    ensures untouched { is_reading (Some command) ≡ false → source.new ≡ source.old }
    ensures given { WasTaken (S.told source.old) (S.told source.new) (S.given source.old) (S.given source.new) }
    ensures bounded { length (S.given source.new) ≤ length (S.given source.old) + 16777217 }
    ensures within { IfOk result ScriptIsWithin }
    ensures of_mode { IfOk result (IsOfMode (mode_by command)) }
{
    match command {
        Command::Read(mode) => read_source(alloc, source, mode),
        Command::Generate(number) => generate(alloc, number).map_err(|_| NoRun::NoMemory),
    }
}

/// The script that the words ask for, and their command, or why it is not run.
fn prepare<S: Source>(
    alloc: Global,
    words: &[String],
    source: &mut S,
    disks: usize,
    logs: usize,
    posts: usize,
) -> Result<Prepared, NoRun>
    ensures command { IfOk result (λ prepared. command_of (map string_bytes words.now) ≡ Some prepared.command) }
    ensures asked { IfOk result (λ prepared. IsAsked (input S.told S.faults S.given S.ended (map string_bytes words.now)
        source.old source.new disks logs posts) prepared.script) }
    ensures untouched { reads_source (map string_bytes words.now) ≡ false → source.new ≡ source.old }
    ensures given { WasTaken (S.told source.old) (S.told source.new) (S.given source.old) (S.given source.new) }
    ensures bounded { length (S.given source.new) ≤ length (S.given source.old) + 16777217 }
    ensures within { IfOk result (λ prepared. ScriptIsWithin prepared.script) }
    ensures of_mode { IfOk result (λ prepared. IsOfMode (mode_by prepared.command) prepared.script) }
    ensures enough { IfOk result (λ prepared. has_devices disks logs posts prepared.script ≡ true) }
    ensures cause { IfErr result (IsCause (input S.told S.faults S.given S.ended (map string_bytes words.now) source.old source.new
        disks logs posts)) }
{
    let command = read_words(alloc, words)?;
    let script = match script_of(alloc, source, command) {
        Ok(script) => script,
        Err(why) => return Err(why),
    };
    if !has_devices(&script, disks, logs, posts) {
        return Err(NoRun::TooFewDevices);
    }
    Ok(Prepared { command, script })
}

/// Prints a run, and answers the status: 0 where all of the text went out, 4 where the sink failed, 6
/// where memory was wanting.
fn print<K: Sink, D, L, Q>(
    alloc: Global,
    out: &mut K,
    command: Command,
    script: &Script,
    ran: &RunResult<D, L, Q>,
) -> u8
    requires { IfSome ran.now.table (λ rows. rows.items ≡ table_of (reverse ran.now.journal.items)) }
    ensures printed { IsPrinted (output K.told K.faults K.stalls out.old out.new)
        (printed_by (Some command) script.now ran.now.replies.items ran.now.journal.items) result }
    ensures whole { is_some ran.now.table ≡ false → result ≡ 6 }
{
    let Some(table) = &ran.table else {
        return 6;
    };
    let text = match command {
        Command::Read(_) => text_of(alloc, script, &ran.replies, &ran.journal, table),
        Command::Generate(number) => summary_of(
            alloc,
            number,
            script,
            &ran.replies,
            &ran.journal,
            table,
        ),
    };
    match text {
        Ok(text) => match put_all(out, &text) {
            Ok(()) => 0,
            Err(OutputError::Failed) => 4,
            Err(OutputError::NoMemory) => 6,
        },
        Err(_) => 6,
    }
}

/// Finds the script that the words ask for and runs it, in their mode.
fn conduct<
    R: Threads + Wait + Sync,
    S: Source,
    K: Sink,
    D: PageDisk + Send,
    L: LogFile + Send,
    Q: PostRoutine + Send,
    P: Gate,
>(
    rt: &R,
    alloc: Global,
    words: &[String],
    source: &mut S,
    out: &mut K,
    disks: Vec<D>,
    logs: Vec<L>,
    posts: Vec<Q>,
    gate: &P,
) -> Report<D, L, Q>
    requires posts { All (λ routine. Q.posted routine ≡ false) posts.items }
    ensures good { (u : Setup) → IsSetupOf D.told D.faults result.script result.disks_begun.value.items
        result.logs_begun.value.items u →
        IsGood u (reverse result.journal.items) }
    ensures within { IfSome result.script (λ made. IsWithinCapacity made.journal (reverse result.journal.items)) }
    ensures ended { ProgramIsEnded
        (input S.told S.faults S.given S.ended (map string_bytes words.now) source.old source.new
        (length disks.items) (length logs.items) (length posts.items))
        (output K.told K.faults K.stalls out.old out.new)
        result.script result.replies.items result.journal.items result.status }
    ensures explained { IfSome result.script (λ made. IsExplainedBy (mode_in (map string_bytes words.now))
        (setup_of D.told D.faults made result.disks_begun.value.items result.logs_begun.value.items) made
        (run_answered result.replies.items result.ticks.items result.aheads.items)
        (taken_at result.places.items) (reverse result.journal.items)) }
    ensures queued { IfSome result.script (λ made. AreQueuedBy (mode_in (map string_bytes words.now)) made
        (run_answered result.replies.items result.ticks.items result.aheads.items) result.places.items
        (reverse result.journal.items)) }
    ensures no_places { result.script ≡ None → result.places.items ≡ [] }
    ensures async_queued { IfSome result.script (λ made. AreAsyncQueuedBy (mode_in (map string_bytes words.now)) made
        (run_answered result.replies.items result.ticks.items result.aheads.items) result.async_places.items) }
    ensures no_async_places { result.script ≡ None → result.async_places.items ≡ [] }
    ensures no_steps { result.script ≡ None → result.aheads.items ≡ [] }
    ensures ticked { length result.ticks.items ≡ ticks_asked (mode_in (map string_bytes words.now)) result.script }
    ensures untouched { reads_source (map string_bytes words.now) ≡ false → source.new ≡ source.old }
    ensures given { WasTaken (S.told source.old) (S.told source.new) (S.given source.old) (S.given source.new) }
    ensures bounded { length (S.given source.new) ≤ length (S.given source.old) + 16777217 }
    ensures disks { DisksLeft D.told D.faults (reverse result.journal.items) result.disks_begun.value.items
        result.disks.items }
    ensures logs { LogsLeft L.told L.faults (reverse result.journal.items) result.logs_begun.value.items result.logs.items }
    ensures posts { RoutinesLeft Q.posted (deferrals_of_script result.script result.replies.items) (reverse result.journal.items)
        posts.items result.posts.items }
    ensures restarted { RunIsBegun D.told D.faults L.told L.faults
        (input S.told S.faults S.given S.ended (map string_bytes words.now) source.old source.new
        (length disks.items) (length logs.items) (length posts.items))
        result.script result.replies.items (reverse result.journal.items) result.status
        disks.items result.disks_begun.value.items logs.items result.logs_begun.value.items }
    ensures disks_unused { result.script ≡ None → result.disks.items ≡ result.disks_begun.value.items }
    ensures logs_unused { result.script ≡ None → result.logs.items ≡ result.logs_begun.value.items }
    ensures unused { result.script ≡ None → result.posts.items ≡ posts.items }
    ensures faultless { RanWithoutFault D.faults L.faults disks.items result.disks.items logs.items result.logs.items
        (result.replies.items ++ result.ticks.items ++ result.aheads.items) (reverse result.journal.items) }
{
    let Prepared { command, script } = match prepare(
        alloc,
        words,
        source,
        disks.len(),
        logs.len(),
        posts.len(),
    ) {
        Ok(prepared) => prepared,
        Err(why) => return refused(alloc, out, why, disks, logs, posts),
    };
    let done = match run_in_mode(rt, alloc, command.mode(), &script, gate, disks, logs, posts) {
        Ok(done) => done,
        Err((disks, logs, posts)) => {
            return refused(alloc, out, NoRun::NoMemory, disks, logs, posts);
        }
    };
    let RestartedRun {
        disks_begun,
        logs_begun,
        ran,
    } = done;
    let status = print(alloc, out, command, &script, &ran);
    let RunResult {
        replies,
        ticks,
        aheads,
        places,
        async_places,
        journal,
        table: _,
        disks,
        logs,
        posts,
    } = ran;
    Report {
        status,
        script: Some(script),
        replies,
        ticks,
        aheads,
        places,
        async_places,
        journal,
        disks,
        logs,
        posts,
        disks_begun,
        logs_begun,
    }
}

/// The program: the words of the command line without its name, the script's bytes from a source, the text to a sink, a
/// disk for each stream, the logs that streams may name, of which the first four are taken, the post routines, of which
/// each line that defers a write has one, and the gate that callers pass. `run FILE`, also with a folder behind it, for
/// whoever hands in the disks: the callers of a phase make the calls of their lines on threads, the lazy writer its ticks, and
/// the read-ahead worker its steps, phase after phase.
/// `steps FILE`: the lines are events, one after the other. `gen N`: so are those of the script that is generated of N,
/// whose summary is the text; the source is not touched. Before a run the streams that are stored are restarted from the logs
/// that the script's `restart` lines name. Whatever is handed in, the journal that is given back is good
/// over the pages that the disks tell, and it is what happened, also where memory was wanting after the run began. Over
/// each front of it the entries, and the places that they reserve, are within the script's capacity.
pub fn cache_main<
    R: Threads + Wait + Sync,
    S: Source,
    K: Sink,
    D: PageDisk + Send,
    L: LogFile + Send,
    Q: PostRoutine + Send,
    P: Gate,
>(
    rt: &R,
    alloc: Global,
    words: &[String],
    script: &mut S,
    out: &mut K,
    disks: Vec<D>,
    logs: Vec<L>,
    posts: Vec<Q>,
    gate: &P,
) -> Ended<D, L, Q>
    requires posts { All (λ routine. Q.posted routine ≡ false) posts.items }
    // With what the run began: the restarts of the script were made on what was handed in, one after the other, each by its log
    // and over the streams that are stored and have it, and the first answers tell how each ended; without restarts, and in steps,
    // it is what was handed in. So it is without a run too, but where memory was wanting behind the restarts.
    ensures restarted { RunIsBegun D.told D.faults L.told L.faults
        (input S.told S.faults S.given S.ended (map string_bytes words.now) script.old script.new
        (length disks.items) (length logs.items) (length posts.items))
        result.script result.replies.items (reverse result.journal.items) result.status
        disks.items result.disks_begun.value.items logs.items result.logs_begun.value.items }
    // What happened: the journal is good over the pages that the disks told as the run began, was always within the script's
    // capacity, and explains every answer.
    ensures good { (u : Setup) → IsSetupOf D.told D.faults result.script result.disks_begun.value.items
        result.logs_begun.value.items u → IsGood u (reverse result.journal.items) }
    ensures within { IfSome result.script (λ made. IsWithinCapacity made.journal (reverse result.journal.items)) }
    ensures explained { IfSome result.script (λ made. IsExplainedBy (mode_in (map string_bytes words.now))
        (setup_of D.told D.faults made result.disks_begun.value.items result.logs_begun.value.items) made
        (record { replies = result.replies.items; ticked = result.ticks.items; stepped = result.aheads.items })
        (taken_at result.places.items) (reverse result.journal.items)) }
    // What the passes have at the one queue of read-ahead of a run: each pushed the requests that its done calls for read-ahead
    // answered, in order; it took a request for each step that does not answer none, among them those of its steps' entries in
    // order; and it found the queue empty, and full, at least as often as it was answered so. Without a run, and in steps, there
    // are no places.
    ensures queued { IfSome result.script (λ made. AreQueuedBy (mode_in (map string_bytes words.now)) made
        (record { replies = result.replies.items; ticked = result.ticks.items; stepped = result.aheads.items })
        result.places.items (reverse result.journal.items)) }
    ensures no_places { result.script ≡ None → result.places.items ≡ [] }
    // What the callers have at the one queue of copied reads of a run: each queued the reads of its lines that were answered so, in
    // order, under the numbers of the answers, from 1 on; it completed those that its lines tell, in order; and it found the queue
    // empty, and full, at least as often as it was answered so. Without a run, and in steps, there are no places.
    ensures async_queued { IfSome result.script (λ made. AreAsyncQueuedBy (mode_in (map string_bytes words.now)) made
        (record { replies = result.replies.items; ticked = result.ticks.items; stepped = result.aheads.items })
        result.async_places.items) }
    ensures no_async_places { result.script ≡ None → result.async_places.items ≡ [] }
    // How the program ended, with a run and without: the script that the words ask for, what was printed, the status and its
    // cause, which statuses are sure to come, and what was taken of the source.
    ensures ended { HasMain
        (input S.told S.faults S.given S.ended (map string_bytes words.now) script.old script.new
        (length disks.items) (length logs.items) (length posts.items))
        (output K.told K.faults K.stalls out.old out.new)
        result.script result.replies.items result.journal.items result.status }
    ensures untouched { reads_source (map string_bytes words.now) ≡ false → script.new ≡ script.old }
    // What comes back: the disks and the logs as the run began with them, and the journal says; and the routines, one posted exactly
    // where the deferral of its line was.
    ensures disks { DisksLeft D.told D.faults (reverse result.journal.items) result.disks_begun.value.items
        result.disks.items }
    ensures logs { LogsLeft L.told L.faults (reverse result.journal.items) result.logs_begun.value.items result.logs.items }
    ensures posts { RoutinesLeft Q.posted (deferrals_of_script result.script result.replies.items) (reverse result.journal.items)
        posts.items result.posts.items }
    // Five of these clauses, `restarted`, `good`, `explained`, `disks` and `logs`, as one record over this call, with what `ended` says of
    // its script: the laws on calls that follow each other are stated over it.
    ensures clauses { HasClauses D.told D.faults L.told L.faults (record {
      input = input S.told S.faults S.given S.ended (map string_bytes words.now) script.old script.new
          (length disks.items) (length logs.items) (length posts.items);
      script = result.script;
      told = record { replies = result.replies.items; ticked = result.ticks.items; stepped = result.aheads.items };
      taken = taken_at result.places.items;
      past = reverse result.journal.items;
      status = result.status;
      disks = disks.items;
      disks_begun = result.disks_begun.value.items;
      disks_left = result.disks.items;
      logs = logs.items;
      logs_begun = result.logs_begun.value.items;
      logs_left = result.logs.items;
    }) }
    // Without a run, all of them come back so.
    ensures disks_unused { result.script ≡ None → result.disks.items ≡ result.disks_begun.value.items }
    ensures logs_unused { result.script ≡ None → result.logs.items ≡ result.logs_begun.value.items }
    ensures unused { result.script ≡ None → result.posts.items ≡ posts.items }
    // Where no count of faults rose, in the restarts and in the run, no failure stands in the journal, and no answer tells one.
    ensures faultless { RanWithoutFault D.faults L.faults disks.items result.disks.items logs.items result.logs.items
        (result.replies.items ++ result.ticks.items ++ result.aheads.items) (reverse result.journal.items) }
    // So many ticks are answered as the script has in its phases, none without a run and none in steps; and no step of read-ahead
    // without a run.
    ensures ticks { length result.ticks.items ≡ ticks_asked (mode_in (map string_bytes words.now)) result.script }
    ensures aheads { result.script ≡ None → result.aheads.items ≡ [] }
{
    let Report {
        status,
        script,
        replies,
        ticks,
        aheads,
        places,
        async_places,
        journal,
        disks,
        logs,
        posts,
        disks_begun,
        logs_begun,
    } = conduct(rt, alloc, words, script, out, disks, logs, posts, gate);
    Ended {
        status,
        script,
        replies,
        ticks,
        aheads,
        places,
        async_places,
        journal,
        disks,
        logs,
        posts,
        disks_begun,
        logs_begun,
    }
}
