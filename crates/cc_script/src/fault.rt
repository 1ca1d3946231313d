//! Why a script is not read.

use cc_entry::NoMemory;

/// Why a line, or a word of it, is not read.
#[derive(Clone, Copy)]
pub(crate) enum LineFault {
    /// It is not in the grammar.
    Syntax,
    NoMemory,
}

impl From<NoMemory> for LineFault {
    ghost use Rattle.std.specs.Prelude.{◌≡◌};
    ghost use Rattle.cc_script.specs.declared.fault.LineFault.TheVariants as faults;

    ghost from_gives = { λ _ fault. fault ≡ faults.NoMemory };

    fn from(_: NoMemory) -> LineFault {
        LineFault::NoMemory
    }
}
