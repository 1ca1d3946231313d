//! What the lines so far say, and how one more line changes it.

ghost use Rattle.std.specs.Prelude.{◌≡◌, ◌<◌, ◌≤◌, ◌+◌, ◌^◌, true, false, length, IfOk, MatchOption};
ghost use Rattle.std.specs.Bool.{OnTrue};
ghost use Rattle.cc_script.specs.Outcome.{Gives, Becomes};
ghost use Rattle.cc_script.specs.ActionTable.{bytes_counted, dirty_lines};
ghost use Rattle.cc_script.specs.Grammar.{nothing_read, may_add, with_stream_line, parsed_stream, parsed_setting, with_journal_line, with_threshold, parsed_workers, with_workers, parsed_restart, with_restart, with_phase, keeps_totals, keeps_apart, with_action, action_line, caller_line, verb_line};

use crate::action::{action, bytes_counted, dirty_lines};
use crate::caller_words::{AllWords, CallerWords};
use crate::fault::LineFault;
use crate::part::Words;
use crate::phase_lines::PhaseLines;
use crate::script::{
    Action, ActionLine, ActionLines, Mode, RestartLine, RestartLines, Script, StreamLine,
    StreamLines,
};
use crate::verb::Verb;
use cc_entry::NoMemory;
use std::alloc::Global;

/// The most entries of a journal, and what it has where no line says so.
pub(crate) const MOST_ENTRIES: u64 = 1048576;

/// The highest cache threshold, in pages.
const MOST_PAGES: u64 = 16384;

/// The most ticks of a phase, and the most steps of its read-ahead worker.
const MOST_TICKS: u64 = 1000;

const MOST_AHEADS: u64 = 1000;

/// The most bytes that the lines of a script read, write, append and hold.
const MOST_BYTES: u64 = 33554432;

/// The most lines `dirty` of a script.
const MOST_DIRTY: u64 = 64;

/// How many ticks the lazy writer makes in each phase, and how many steps the read-ahead worker.
#[derive(Clone, Copy)]
pub(crate) struct Workers {
    pub(crate) ticks: u32,
    pub(crate) aheads: u32,
}

/// What the lines so far say.
#[derive(Drop)]
pub(crate) struct Reading {
    pub(crate) script: Script,
    pub(crate) total: u64,
    pub(crate) has_journal: bool,
    pub(crate) has_threshold: bool,
    pub(crate) has_workers: bool,
    /// How many lines are `dirty`.
    pub(crate) dirty: u64,
    pub(crate) words: AllWords,
    /// The lines of the phase that is under way.
    pub(crate) phase: PhaseLines,
}

impl Reading {
    pub(crate) fn new(alloc: Global) -> Result<Reading, NoMemory>
        ensures { IfOk result (λ reading. reading ≡ nothing_read) }
    {
        let script = Script {
            journal: 1048576,
            threshold: 1024,
            ticks: 0,
            aheads: 0,
            phases: 1,
            restarts: RestartLines::new(alloc),
            streams: StreamLines::new(alloc),
            lines: ActionLines::new(alloc),
        };
        Ok(Reading {
            script,
            total: 0,
            has_journal: false,
            has_threshold: false,
            has_workers: false,
            dirty: 0,
            words: AllWords::new(alloc)?,
            phase: PhaseLines::none(),
        })
    }

    #[tactic(auto, unfolding(crate::specs::Grammar::may_add))]
    fn may_add(&self, stream: &StreamLine) -> bool
        ensures value { result ≡ may_add stream.now self.now }
        ensures room { OnTrue result (length self.now.script.streams < 16) }
    {
        self.script.lines.is_empty()
            && self.script.streams.len() < 16
            && self.script.streams.find(stream.name.as_bytes()).is_none()
    }

    #[tactic(auto, unfolding(crate::specs::Grammar::with_stream_line))]
    fn add_stream(&mut self, stream: StreamLine) -> Result<(), LineFault>
        ensures { Becomes (with_stream_line stream self.old) result self.new }
    {
        if !self.may_add(&stream) {
            return Err(LineFault::Syntax);
        }
        self.script.streams.push(stream)?;
        Ok(())
    }

    #[tactic(auto, unfolding(crate::specs::Grammar::with_journal_line))]
    fn set_journal(&mut self, capacity: u32) -> Result<(), LineFault>
        ensures { Becomes (with_journal_line capacity self.old) result self.new }
    {
        if !self.script.lines.is_empty() || self.has_journal {
            return Err(LineFault::Syntax);
        }
        self.script.journal = u64::from(capacity);
        self.has_journal = true;
        Ok(())
    }

    #[tactic(auto, unfolding(crate::specs::Grammar::with_threshold))]
    fn set_threshold(&mut self, pages: u32) -> Result<(), LineFault>
        ensures { Becomes (with_threshold pages self.old) result self.new }
    {
        if !self.script.lines.is_empty() || self.has_threshold {
            return Err(LineFault::Syntax);
        }
        self.script.threshold = pages;
        self.has_threshold = true;
        Ok(())
    }

    #[tactic(auto, unfolding(crate::specs::Grammar::with_workers))]
    fn set_workers(&mut self, workers: Workers) -> Result<(), LineFault>
        ensures { Becomes (with_workers workers self.old) result self.new }
    {
        if !self.script.lines.is_empty() || self.has_workers {
            return Err(LineFault::Syntax);
        }
        self.script.ticks = workers.ticks;
        self.script.aheads = workers.aheads;
        self.has_workers = true;
        Ok(())
    }

    #[tactic(auto, unfolding(crate::specs::Grammar::with_restart))]
    fn add_restart(&mut self, restart: RestartLine) -> Result<(), LineFault>
        ensures { Becomes (with_restart restart self.old) result self.new }
    {
        let script = &mut self.script;
        if !script.lines.is_empty()
            || !script.streams.is_empty()
            || script.restarts.has(restart.handle)
        {
            return Err(LineFault::Syntax);
        }
        script.restarts.push(restart)?;
        Ok(())
    }

    #[tactic(auto, unfolding(crate::specs::Grammar::with_phase))]
    fn begin_phase(&mut self, words: &Words) -> Result<(), LineFault>
        ensures { Becomes (with_phase words.now self.old) result self.new }
    {
        if !words.is_empty() || self.script.phases > 1000 {
            return Err(LineFault::Syntax);
        }
        self.script.phases += 1;
        self.phase = PhaseLines::none();
        Ok(())
    }

    // The total of bytes and the number of `dirty` lines with one more line, where they are not too high.
    fn totals_with(&self, action: &Action) -> Option<(u64, u64)>
        ensures { MatchOption result (keeps_totals action.now self.now ≡ false) (λ totals.
            (keeps_totals action.now self.now ≡ true)
            × (totals.0 ≡ self.now.total + bytes_counted action.now)
            × (totals.1 ≡ self.now.dirty + dirty_lines action.now)) }
    {
        let total = self.total.checked_add(bytes_counted(action))?;
        let dirty = self.dirty.checked_add(dirty_lines(action))?;
        if total <= MOST_BYTES && dirty <= MOST_DIRTY {
            Some((total, dirty))
        } else {
            None
        }
    }

    // An action of a caller with these words, of which those that it binds are known already; only a call may fail.
    #[tactic(auto, unfolding(crate::specs::Grammar::with_action))]
    fn add_action(
        &mut self,
        number: u32,
        caller: u32,
        fails: bool,
        own: CallerWords,
        action: Action,
    ) -> Result<(), LineFault>
        requires caller { caller ≤ 16 }
        ensures { Becomes (with_action number caller fails own action self.old) result self.new }
    {
        let (total, dirty) = self.totals_with(&action).ok_or(LineFault::Syntax)?;
        let phase_lines = self.phase.with(caller, &action);
        if !phase_lines.is_kept_apart()
            || !own.bounds.may_use(&action)
            || (fails && !action.is_call())
        {
            return Err(LineFault::Syntax);
        }
        let mut own = own;
        own.bounds.follow(&action)?;
        self.words.put(caller, own);
        let phase = self.script.phases;
        self.script.lines.push(ActionLine {
            line: number,
            phase,
            caller,
            fails,
            action,
        })?;
        self.total = total;
        self.dirty = dirty;
        self.phase = phase_lines;
        Ok(())
    }

    #[tactic(auto, using(crate::proofs::Taken::action_taken), unfolding(crate::specs::Grammar::action_line))]
    fn action(
        &mut self,
        alloc: Global,
        mode: Mode,
        number: u32,
        caller: u32,
        fails: bool,
        verb: Verb,
        words: &mut Words,
    ) -> Result<(), LineFault>
        requires { caller ≤ 16 }
        ensures { Becomes (action_line mode number caller fails verb words.old self.old) result self.new }
    {
        let mut own = self.words.take(caller);
        let action = action(
            alloc,
            mode,
            &self.script.streams,
            &mut own.names,
            verb,
            words,
        )?;
        self.add_action(number, caller, fails, own, action)
    }

    /// A line of a caller: an action, or `fail` and an action.
    #[tactic(auto, unfolding(crate::specs::Grammar::caller_line))]
    pub(crate) fn by_caller(
        &mut self,
        alloc: Global,
        mode: Mode,
        number: u32,
        caller: u32,
        verb: Verb,
        words: &mut Words,
    ) -> Result<(), LineFault>
        requires { caller ≤ 16 }
        ensures { Becomes (caller_line mode number caller verb words.old self.old) result self.new }
    {
        match verb {
            Verb::Fail => {
                let failing = words.verb(mode).ok_or(LineFault::Syntax)?;
                self.action(alloc, mode, number, caller, true, failing, words)
            }
            _ => self.action(alloc, mode, number, caller, false, verb, words),
        }
    }

    /// A line of a verb, without a caller word.
    #[tactic(auto, unfolding(crate::specs::Grammar::verb_line))]
    pub(crate) fn verb(
        &mut self,
        alloc: Global,
        mode: Mode,
        number: u32,
        verb: Verb,
        words: &mut Words,
    ) -> Result<(), LineFault>
        ensures { Becomes (verb_line mode number verb words.old self.old) result self.new }
    {
        match verb {
            Verb::Stream => {
                let stream = stream(alloc, mode, number, words)?;
                self.add_stream(stream)
            }
            Verb::Journal => {
                let capacity = setting(64, MOST_ENTRIES, words).ok_or(LineFault::Syntax)?;
                self.set_journal(capacity)
            }
            Verb::Threshold => {
                let pages = setting(1, MOST_PAGES, words).ok_or(LineFault::Syntax)?;
                self.set_threshold(pages)
            }
            Verb::Workers => {
                let workers = worker_counts(words).ok_or(LineFault::Syntax)?;
                self.set_workers(workers)
            }
            Verb::Restart => {
                let restart = restart(number, words).ok_or(LineFault::Syntax)?;
                self.add_restart(restart)
            }
            Verb::Phase => self.begin_phase(words),
            _ => self.by_caller(alloc, mode, number, 1, verb, words),
        }
    }
}

#[tactic(auto, unfolding(crate::specs::Grammar::parsed_stream))]
fn stream(
    alloc: Global,
    mode: Mode,
    number: u32,
    words: &mut Words,
) -> Result<StreamLine, LineFault>
    ensures { Gives (parsed_stream mode number words.old) result }
{
    let name = words.name(alloc)?;
    let size = words.number().ok_or(LineFault::Syntax)?;
    let valid = words.number().ok_or(LineFault::Syntax)?;
    let quota = words.quota().ok_or(LineFault::Syntax)?;
    let temporary = words.flag(b"temporary");
    let log = words.log().ok_or(LineFault::Syntax)?;
    let stored = words.stored(mode);
    if !words.is_empty() {
        return Err(LineFault::Syntax);
    }
    Ok(StreamLine {
        line: number,
        name,
        size,
        valid,
        quota,
        temporary,
        log,
        stored,
    })
}

#[tactic(auto, unfolding(crate::specs::Grammar::parsed_setting))]
fn setting(low: u64, high: u64, words: &mut Words) -> Option<u32>
    requires { high < 2 ^ 32 }
    ensures { result ≡ parsed_setting low high words.old }
{
    let number = words.number_between(low, high)?;
    if words.is_empty() {
        Some(number as u32)
    } else {
        None
    }
}

#[tactic(auto, unfolding(crate::specs::Grammar::parsed_workers))]
fn worker_counts(words: &mut Words) -> Option<Workers>
    ensures { result ≡ parsed_workers words.old }
{
    let ticks = words.number_between(0, MOST_TICKS)?;
    let aheads = words.number_between(0, MOST_AHEADS)?;
    if words.is_empty() {
        Some(Workers {
            ticks: ticks as u32,
            aheads: aheads as u32,
        })
    } else {
        None
    }
}

#[tactic(auto, unfolding(crate::specs::Grammar::parsed_restart))]
fn restart(number: u32, words: &mut Words) -> Option<RestartLine>
    ensures { result ≡ parsed_restart number words.old }
{
    let handle = words.handle()?;
    if words.is_empty() {
        Some(RestartLine {
            line: number,
            handle,
        })
    } else {
        None
    }
}
