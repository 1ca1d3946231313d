//! The command line, as clap reads it.

ghost use Rattle.std.specs.Prelude.{◌≡◌, true, Some, map, string_bytes, slice_get, IfOk, IfErr};
ghost use Rattle.clap.specs.Words.{app_of, kind_of};
ghost use Rattle.cc_command.specs.CommandLine.{command_line as the_command_line, no_run_by};
ghost use Rattle.cc_command.specs.Words.{is_line};

use crate::no_run::NoRun;
use clap::error::ErrorKind;
use clap::{Arg, Command, Error};
use std::alloc::{AllocError, Global};

/// The first two words of a command line of two or three arguments: the word of a mode, and the first behind it. Nothing of
/// what clap would print is printed.
///
/// `NoMemory`; clap has no other error at such words.
pub(crate) fn parse<'a>(alloc: Global, words: &'a [String]) -> Result<(&'a str, &'a str), NoRun>
    requires { is_line (map string_bytes words.now) ≡ true }
    ensures first { IfOk result (λ found. slice_get (map string_bytes words.now) 0 ≡ Some found.0.now) }
    ensures second { IfOk result (λ found. slice_get (map string_bytes words.now) 1 ≡ Some found.1.now) }
    ensures err { IfErr result (λ why. why ≡ NoRun.NoMemory) }
{
    let line = match command_line(alloc) {
        Ok(line) => line,
        Err(_) => return Err(NoRun::NoMemory),
    };
    let matches = match line.try_get_matches_from(words) {
        Ok(matches) => matches,
        Err(error) => return Err(no_run_of(&error)),
    };
    let mode = matches.get_str("MODE").ok_or(NoRun::Usage)?;
    let argument = matches.get_str("ARG").ok_or(NoRun::Usage)?;
    Ok((mode, argument))
}

/// Why no run is made where clap has an error.
fn no_run_of(error: &Error) -> NoRun
    ensures { result ≡ no_run_by (kind_of error.now) }
{
    match error.kind() {
        ErrorKind::OutOfMemory => NoRun::NoMemory,
        _ => NoRun::Usage,
    }
}

/// The command line: the word of a mode, and one argument or two behind it, with no option and nothing that clap adds.
fn command_line<'a>(alloc: Global) -> Result<Command<'a>, AllocError>
    ensures { IfOk result (λ line. app_of line ≡ the_command_line) }
{
    let mode = Arg::new(alloc, "MODE").required(true);
    let argument = Arg::new(alloc, "ARG").required(true).num_args(1..=2usize);
    Command::new(alloc, "ntcache")
        .no_binary_name(true)
        .disable_help_flag(true)
        .disable_help_subcommand(true)
        .disable_version_flag(true)
        .arg(mode)?
        .arg(argument)
}
