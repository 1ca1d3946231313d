//! The reader of scripts: lines, words, and the script that they spell.

ghost use Rattle.std.specs.Prelude.{◌≡◌, ◌≤◌, IfOk};
ghost use Rattle.std.specs.List.{list_all};
ghost use Rattle.std.specs.Str.Lines.{strip_carriage_return};
ghost use Rattle.cc_script.specs.Outcome.{Becomes};
ghost use Rattle.cc_script.specs.Answers.{ReadsScript};
ghost use Rattle.cc_script.specs.Within.{ScriptIsWithin};
ghost use Rattle.cc_script.specs.Modes.{IsOfMode};
ghost use Rattle.cc_script.specs.Grammar.{is_printable, called_line, uncalled_line, words_line, text_line, line_of, script_of};

use crate::fault::LineFault;
use crate::part::{Words, first_line};
use crate::reading::Reading;
use crate::script::{Mode, Script, ScriptFault};
use crate::word;
use std::alloc::Global;

/// The most lines of a script.
const MOST_LINES: u32 = 65536;

/// The script that bytes spell, or the first line that is not in the grammar of the mode. A run may rely on what a script
/// that was read keeps within, and on which actions one of its mode may have; it needs no test of either.
///
/// `ScriptFault::Syntax` with the number of that line, counted from 1; `ScriptFault::NoMemory`.
pub fn read_script(alloc: Global, bytes: &[u8], mode: Mode) -> Result<Script, ScriptFault>
    ensures read { ReadsScript (script_of mode bytes.now) result }
    ensures within { IfOk result ScriptIsWithin }
    ensures of_mode { IfOk result (IsOfMode mode) }
{
    read_lines(alloc, bytes, mode)
}

#[tactic(auto, using(crate::proofs::Parts::lines_none), unfolding(crate::specs::Grammar::script_of, crate::specs::Grammar::lines_of))]
fn read_lines(alloc: Global, bytes: &[u8], mode: Mode) -> Result<Script, ScriptFault>
    ensures { ReadsScript (script_of mode bytes.now) result }
{
    let Ok(mut reading) = Reading::new(alloc) else {
        return Err(ScriptFault::NoMemory);
    };
    let mut rest = bytes;
    let mut line = 0;
    while !rest.is_empty() {
        let (text, behind) = first_line(rest);
        if line >= MOST_LINES {
            return Err(ScriptFault::Syntax { line: line + 1 });
        }
        line += 1;
        match reading.line(alloc, mode, line, text) {
            Ok(()) => {}
            Err(LineFault::Syntax) => return Err(ScriptFault::Syntax { line }),
            Err(LineFault::NoMemory) => return Err(ScriptFault::NoMemory),
        }
        rest = behind;
    }
    Ok(reading.script)
}

impl Reading {
    // One more line, which may end with a carriage return.
    #[tactic(auto, unfolding(crate::specs::Grammar::line_of))]
    fn line(&mut self, alloc: Global, mode: Mode, number: u32, line: &[u8]) -> Result<(), LineFault>
        ensures { Becomes (line_of mode number line.now self.old) result self.new }
    {
        self.text(alloc, mode, number, without_return(line))
    }

    #[tactic(auto, unfolding(crate::specs::Grammar::text_line))]
    fn text(&mut self, alloc: Global, mode: Mode, number: u32, text: &[u8]) -> Result<(), LineFault>
        ensures { Becomes (text_line mode number text.now self.old) result self.new }
    {
        if !is_printable(text) {
            return Err(LineFault::Syntax);
        }
        if !text.is_empty() && text[0] == b'#' {
            return Ok(());
        }
        self.words(alloc, mode, number, &mut Words::new(text))
    }

    #[tactic(auto, unfolding(crate::specs::Grammar::words_line))]
    fn words(
        &mut self,
        alloc: Global,
        mode: Mode,
        number: u32,
        words: &mut Words,
    ) -> Result<(), LineFault>
        ensures { Becomes (words_line mode number words.old self.old) result self.new }
    {
        let Some((word, mut behind)) = words.split_first() else {
            return Ok(());
        };
        match word::caller(word) {
            Some(caller) => self.called(alloc, mode, number, caller, &mut behind),
            None => self.uncalled(alloc, mode, number, words),
        }
    }

    // The words behind a caller word.
    #[tactic(auto, unfolding(crate::specs::Grammar::called_line))]
    fn called(
        &mut self,
        alloc: Global,
        mode: Mode,
        number: u32,
        caller: u32,
        words: &mut Words,
    ) -> Result<(), LineFault>
        requires { caller ≤ 16 }
        ensures { Becomes (called_line mode number caller words.old self.old) result self.new }
    {
        let verb = words.verb(mode).ok_or(LineFault::Syntax)?;
        if !verb.takes_caller() {
            return Err(LineFault::Syntax);
        }
        self.by_caller(alloc, mode, number, caller, verb, words)
    }

    // The words of a line without a caller word.
    #[tactic(auto, unfolding(crate::specs::Grammar::uncalled_line))]
    fn uncalled(
        &mut self,
        alloc: Global,
        mode: Mode,
        number: u32,
        words: &mut Words,
    ) -> Result<(), LineFault>
        ensures { Becomes (uncalled_line mode number words.old self.old) result self.new }
    {
        let verb = words.verb(mode).ok_or(LineFault::Syntax)?;
        self.verb(alloc, mode, number, verb, words)
    }
}

fn without_return(line: &[u8]) -> &[u8]
    ensures { result.now ≡ strip_carriage_return line.now }
{
    let last = line.len().saturating_sub(1);
    if !line.is_empty() && line[last] == b'\r' {
        &line[..last]
    } else {
        line
    }
}

fn is_printable(text: &[u8]) -> bool
    ensures { result ≡ list_all is_printable text.now }
{
    text.iter().all(|b| 32 <= *b && *b <= 126)
}
