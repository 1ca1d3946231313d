//! How many calls each caller has made, which the gate is told.

ghost use Rattle.cc_run.specs.Lines.{IsCaller};

/// How many calls each of the 16 callers has made.
#[derive(Drop)]
pub(crate) struct CallNumbers {
    made: [u32; 16],
}

impl CallNumbers {
    /// None.
    pub(crate) fn new() -> CallNumbers {
        CallNumbers { made: [0; 16] }
    }

    /// The number of the next call of a caller, from 1 on.
    pub(crate) fn next(&mut self, caller: u32) -> u32
        requires { IsCaller caller }
    {
        self.add(caller, 1);
        self.of(caller)
    }

    /// How many calls a caller has made.
    pub(crate) fn of(&self, caller: u32) -> u32
        requires { IsCaller caller }
    {
        self.made[caller as usize - 1]
    }

    /// A caller made so many calls more.
    pub(crate) fn add(&mut self, caller: u32, more: u32)
        requires { IsCaller caller }
    {
        let made = &mut self.made[caller as usize - 1];
        *made = made.saturating_add(more);
    }
}
