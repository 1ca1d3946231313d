//! The words of the command line: which command they are.

ghost use Rattle.std.specs.Prelude.{◌≡◌, None, Some, ◌⊎◌, map, string_bytes, IfOk, IfErr};
ghost use Rattle.cc_script.specs.Words.{parsed_number, number_onto};
ghost use Rattle.cc_command.specs.Words.{command_by as the_command_by, command_in as the_command_in, command_of, is_argument as is_an_argument, is_line as is_a_line, mode_by};

use crate::command_line::parse;
use crate::no_run::NoRun;
use cc_script::Mode;
use std::alloc::Global;

/// What the program is to run.
#[derive(Clone, Copy)]
pub enum Command {
    /// The script of the source, in a mode.
    Read(Mode),
    /// The script that is generated of a number, in steps.
    Generate(u64),
}

impl Command {
    /// The mode in which the script is run.
    pub fn mode(self) -> Mode
        ensures { result ≡ mode_by self }
    {
        match self {
            Command::Read(mode) => mode,
            Command::Generate(_) => Mode::Steps,
        }
    }
}

/// The command that the words ask for, without the program's name: `run FILE`, `run FILE DIR`, `steps FILE` or `gen N`. They
/// are tested first, for clap takes words that begin with a dash as its own.
///
/// `Usage` exactly where they are no command, `NoMemory`.
pub fn read_words(alloc: Global, words: &[String]) -> Result<Command, NoRun>
    ensures ok { IfOk result (λ command. command_of (map string_bytes words.now) ≡ Some command) }
    ensures err { IfErr result (λ why. ((why ≡ NoRun.Usage) × (command_of (map string_bytes words.now) ≡ None))
        ⊎ (why ≡ NoRun.NoMemory)) }
{
    if !is_line(words) || command_in(words).is_none() {
        return Err(NoRun::Usage);
    }
    let (word, argument) = parse(alloc, words)?;
    command_by(word, argument).ok_or(NoRun::Usage)
}

/// Whether words are two or three arguments.
fn is_line(words: &[String]) -> bool
    ensures { result ≡ is_a_line (map string_bytes words.now) }
{
    match words {
        [word, argument] => is_argument(word.as_str()) && is_argument(argument.as_str()),
        [word, argument, folder] => {
            is_argument(word.as_str())
                && is_argument(argument.as_str())
                && is_argument(folder.as_str())
        }
        _ => false,
    }
}

/// The command of a row of words.
fn command_in(words: &[String]) -> Option<Command>
    ensures { result ≡ the_command_in (map string_bytes words.now) }
{
    match words {
        [word, argument] => command_by(word.as_str(), argument.as_str()),
        [word, _, _] if word.as_str() == "run" => Some(Command::Read(Mode::Run)),
        _ => None,
    }
}

/// The command of a first word and of the word behind it.
fn command_by(word: &str, argument: &str) -> Option<Command>
    ensures { result ≡ the_command_by word.now argument.now }
{
    match word {
        "run" => Some(Command::Read(Mode::Run)),
        "steps" => Some(Command::Read(Mode::Steps)),
        "gen" => number(argument).map(Command::Generate),
        _ => None,
    }
}

/// A decimal number below 2^64, without a leading zero.
#[tactic(auto, unfolding(cc_script::specs::Words::parsed_number))]
fn number(word: &str) -> Option<u64>
    ensures { result ≡ parsed_number word.now }
{
    match word.as_bytes() {
        [] | [b'0', _, ..] => None,
        digits => digits_value(digits),
    }
}

fn digits_value(digits: &[u8]) -> Option<u64>
    ensures { result ≡ number_onto 0 digits.now }
{
    let mut n: u64 = 0;
    for &digit in digits {
        if !digit.is_ascii_digit() {
            return None;
        }
        n = n.checked_mul(10)?.checked_add(u64::from(digit - b'0'))?;
    }
    Some(n)
}

/// Whether a word is neither empty nor begins with a dash.
fn is_argument(word: &str) -> bool
    ensures { result ≡ is_an_argument word.now }
{
    match word.as_bytes() {
        [] => false,
        [first, ..] => *first != b'-',
    }
}
