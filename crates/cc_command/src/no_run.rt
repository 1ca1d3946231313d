//! Why no run was made: the exit status, and what is printed.

ghost use Rattle.std.specs.Prelude.{◌≡◌, false, IfOk, string_bytes};
ghost use Rattle.cc_command.specs.NoRun.{status_of, fault_text, syntax_text as the_syntax_text, is_syntax};

use std::alloc::{AllocError, Global};

/// Why no run was made.
#[derive(Clone, Copy)]
pub enum NoRun {
    /// The words are none of the program's commands.
    Usage,
    /// The line of this number, counted from 1, is the first that is not in the grammar.
    Syntax { line: u32 },
    /// The source of the script failed.
    ReadFault,
    /// The script has more bytes than a script may have.
    TooLong,
    /// No memory was found.
    NoMemory,
    /// The script has more streams than there are disks, a stream or a restart names a log that there is not, or more
    /// writes are deferred than there are post routines.
    TooFewDevices,
}

impl NoRun {
    /// The exit status of the program.
    pub fn status(self) -> u8
        ensures { result ≡ status_of self }
    {
        match self {
            NoRun::Usage => 1,
            NoRun::Syntax { .. } => 2,
            NoRun::ReadFault => 3,
            NoRun::TooLong => 5,
            NoRun::NoMemory => 6,
            NoRun::TooFewDevices => 7,
        }
    }

    /// What the program prints, but for the number of a line.
    pub fn fixed_text(self) -> &'static str
        requires { is_syntax self ≡ false }
        ensures { result.now ≡ fault_text self }
    {
        match self {
            NoRun::Usage => "usage: ntcache run FILE [DIR] | steps FILE | gen N\n",
            NoRun::ReadFault => "script read fault\n",
            NoRun::TooLong => "script too long\n",
            NoRun::TooFewDevices => "too few devices\n",
            NoRun::Syntax { .. } | NoRun::NoMemory => "",
        }
    }
}

/// What the program prints where the line of this number is not in the grammar. Fails for want of memory.
pub fn syntax_text(alloc: Global, line: u32) -> Result<String, AllocError>
    ensures { IfOk result (λ text. string_bytes text ≡ the_syntax_text line) }
{
    format!(in alloc; "syntax at line {line}\n")
}
