//! The generator: a script of `steps` that a number gives, drawn line by line.

ghost use Rattle.std.specs.Prelude.{◌≡◌, ◌<◌, ◌≤◌, false, IfOk, replicate};
ghost use Rattle.cc_script.specs.declared.script.Mode.TheVariants as mode;
ghost use Rattle.cc_script.specs.Modes.{IsOfMode};
ghost use Rattle.cc_script.specs.Within.{ScriptIsWithin};
ghost use Rattle.cc_script.specs.Generator.{state_after, draw_of, byte_state, draws_of, drawn_page, drawn_action, drawn_caller, drawn_line, drawn_lines, drawn_streams, generated};

use crate::name::Name;
use crate::script::{
    Action, ActionLine, ActionLines, RestartLines, Script, StreamLine, StreamLines,
};
use cc_entry::{Bytes, FileId, NoMemory, PageId, Quota, StreamId};
use std::alloc::Global;

/// The number of the first line behind those of the two streams.
const FIRST_LINE: u32 = 3;

/// How many lines are drawn.
const LINES: u32 = 4000;

/// How many bytes a page has.
const PAGE_BYTES: u64 = 4096;

/// The script that a number gives: two streams, and 4000 lines of `steps`. It keeps within what a run of `steps` relies
/// on, as one that was read.
pub fn generate(alloc: Global, n: u64) -> Result<Script, NoMemory>
    ensures script { IfOk result (λ script. script ≡ generated n) }
    ensures within { IfOk result ScriptIsWithin }
    ensures of_mode { IfOk result (IsOfMode mode.Steps) }
{
    Ok(Script {
        journal: 1048576,
        threshold: 1024,
        ticks: 0,
        aheads: 0,
        phases: 1,
        restarts: RestartLines::new(alloc),
        streams: streams(alloc)?,
        lines: lines(alloc, n)?,
    })
}

// A stream that is not temporary, with the quota of one whose line says none.
fn stream(
    alloc: Global,
    line: u32,
    name: &[u8],
    size: u64,
    valid: u64,
    log: Option<u8>,
) -> Result<StreamLine, NoMemory>
    ensures { IfOk result (λ stream. stream ≡ record {
      line = line;
      name = name.now;
      size = size;
      valid = valid;
      quota = 16;
      temporary = false;
      log = log;
      stored = false;
    }) }
{
    Ok(StreamLine {
        line,
        name: name_of(alloc, name)?,
        size,
        valid,
        quota: Quota::new(16).unwrap(),
        temporary: false,
        log,
        stored: false,
    })
}

#[tactic(auto, using(crate::proofs::Steps::name_gives))]
fn name_of(alloc: Global, word: &[u8]) -> Result<Name, NoMemory>
    ensures { IfOk result (λ name. name ≡ word.now) }
{
    match Name::of(alloc, word) {
        Ok(name) => Ok(name),
        Err(_) => Err(NoMemory),
    }
}

fn streams(alloc: Global) -> Result<StreamLines, NoMemory>
    ensures { IfOk result (λ streams. streams ≡ drawn_streams) }
{
    let mut streams = StreamLines::new(alloc);
    streams.push(stream(alloc, 1, b"a", 1048576, 1048576, Some(0))?)?;
    streams.push(stream(alloc, 2, b"b", 8192, 5000, None)?)?;
    Ok(streams)
}

#[tactic(auto, using(crate::proofs::Generated::lines_on))]
fn lines(alloc: Global, n: u64) -> Result<ActionLines, NoMemory>
    ensures { IfOk result (λ lines. lines ≡ drawn_lines 4000 3 n) }
{
    let mut generator = Generator { state: n };
    let mut lines = ActionLines::new(alloc);
    for number in FIRST_LINE..FIRST_LINE + LINES {
        let drawn = generator.line();
        lines.push(drawn.line(alloc, number)?)?;
    }
    Ok(lines)
}

/// What numbers are drawn from.
#[derive(Drop)]
struct Generator {
    state: u64,
}

impl Generator {
    #[tactic(auto, using(crate::proofs::Generated::draw_steps), unfolding(crate::specs::Generator::draw_of))]
    fn draw(&mut self, below: u64) -> u64
        requires { 0 < below }
        ensures state { self.new.state ≡ state_after self.old.state }
        ensures drawn { result ≡ draw_of below self.new.state }
        ensures in_range { result < below }
    {
        let next = self
            .state
            .wrapping_mul(6364136223846793005)
            .wrapping_add(1442695040888963407);
        self.state = next;
        (next >> 33) % below
    }

    // The draws of one line.
    #[tactic(auto, unfolding(crate::specs::Generator::draws_of))]
    fn line(&mut self) -> Draws
        ensures state { self.new.state ≡ byte_state self.old.state }
        ensures drawn { result ≡ draws_of self.old.state }
    {
        let caller = self.draw(4) + 1;
        let verb = self.draw(8);
        let stream = self.draw(2);
        let page = self.draw(2);
        let byte = self.draw(256);
        Draws {
            caller: caller as u32,
            verb: verb as u8,
            stream: StreamId::new(stream as u8).unwrap(),
            page: page as u8,
            byte: byte as u8,
        }
    }
}

/// What is drawn for a line: a caller of four, the number of its verb, a stream, a page and a byte.
#[derive(Clone, Copy)]
pub(crate) struct Draws {
    pub(crate) caller: u32,
    pub(crate) verb: u8,
    pub(crate) stream: StreamId,
    pub(crate) page: u8,
    pub(crate) byte: u8,
}

impl Draws {
    fn line(self, alloc: Global, number: u32) -> Result<ActionLine, NoMemory>
        ensures { IfOk result (λ line. line ≡ drawn_line number self) }
    {
        Ok(ActionLine {
            line: number,
            phase: 1,
            caller: self.caller(),
            fails: false,
            action: self.action(alloc)?,
        })
    }

    // The caller of the line; those of `out`, `end` and `scan` have no caller word.
    #[tactic(auto, unfolding(crate::specs::Generator::drawn_caller))]
    fn caller(self) -> u32
        ensures { result ≡ drawn_caller self }
    {
        match self.verb {
            1 | 3 | 7 => 1,
            _ => self.caller,
        }
    }

    #[tactic(auto, unfolding(crate::specs::Generator::drawn_action))]
    fn action(self, alloc: Global) -> Result<Action, NoMemory>
        ensures { IfOk result (λ action. action ≡ drawn_action self) }
    {
        let page = self.page();
        let file = FileId::new(self.stream.number(), 0).unwrap();
        let at = PAGE_BYTES * u64::from(self.page);
        Ok(match self.verb {
            0 => Action::Fill { page },
            1 => Action::Drop { page },
            2 => Action::WriteBegin { page },
            3 => Action::WriteEnd { page },
            4 => Action::CopyRead {
                file,
                at,
                len: 16,
                wait: true,
            },
            5 => Action::CopyWrite {
                file,
                at,
                bytes: run(alloc, self.byte, 4)?,
            },
            6 => Action::Append {
                handle: 0,
                bytes: run(alloc, 1, 1)?,
            },
            _ => Action::Scan,
        })
    }

    fn page(self) -> PageId
        ensures { result ≡ drawn_page self }
    {
        PageId::new(self.stream, u64::from(self.page)).unwrap()
    }
}

// One byte so many times.
fn run(alloc: Global, byte: u8, count: u64) -> Result<Bytes, NoMemory>
    requires some { 0 < count }
    requires few { count ≤ 4 }
    ensures { IfOk result (λ bytes. bytes ≡ replicate count byte) }
{
    let mut bytes = Bytes::new(alloc);
    bytes.append(byte, count)?;
    Ok(bytes)
}
