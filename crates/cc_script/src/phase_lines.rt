//! Who has lines in a phase, and whether a checkpoint is among them.

ghost use Rattle.std.specs.Prelude.{◌≡◌};
ghost use Rattle.cc_script.specs.Checkpoints.{no_lines_yet, is_other, phase_with, is_kept_apart};

use crate::script::Action;

/// The lines of a phase so far.
#[derive(Clone, Copy)]
pub(crate) struct PhaseLines {
    /// The caller of the last one.
    pub(crate) caller: Option<u32>,
    /// Whether they are of more than one caller.
    pub(crate) many: bool,
    pub(crate) checkpoint: bool,
}

impl PhaseLines {
    pub(crate) fn none() -> PhaseLines
        ensures { result ≡ no_lines_yet }
    {
        PhaseLines {
            caller: None,
            many: false,
            checkpoint: false,
        }
    }

    fn is_other(self, caller: u32) -> bool
        ensures { result ≡ is_other self.caller caller }
    {
        match self.caller {
            Some(last) => last != caller,
            None => false,
        }
    }

    /// With one line more.
    pub(crate) fn with(self, caller: u32, action: &Action) -> PhaseLines
        ensures { result ≡ phase_with caller action.now self }
    {
        PhaseLines {
            caller: Some(caller),
            many: self.many || self.is_other(caller),
            checkpoint: self.checkpoint || action.is_checkpoint(),
        }
    }

    /// Whether it has not both a checkpoint and a second caller.
    pub(crate) fn is_kept_apart(self) -> bool
        ensures { result ≡ is_kept_apart self }
    {
        !(self.many && self.checkpoint)
    }
}
