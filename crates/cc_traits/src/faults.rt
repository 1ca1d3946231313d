//! The count of faults of an object outside.

ghost use Rattle.std.specs.Prelude.{◌≡◌, ℕ, ◌+◌, ◌-◌, ◌^◌, ◌↔◌, IsTrue};
ghost use Rattle.cc_traits.specs.Stop.{faults_of};

use crate::Stop;
use std::marker::Model;

/// The count of faults of an object outside. It never falls. At its end it stands still, and the
/// object answers [`Stop::NoMemory`] in place of a failure that it could not count.
#[derive(Drop)]
pub struct Faults {
    count: u64,
}

impl Model for Faults {
    ghost Value = { ℕ };

    ghost view = { λ faults. faults.count };
}

impl Faults {
    /// No fault yet.
    pub fn new() -> Faults
        ensures { result ≡ 0 }
    {
        Faults { count: 0 }
    }

    /// How many faults there were.
    pub fn count(&self) -> u64
        ensures { result ≡ self.now }
    {
        self.count
    }

    /// Whether no further fault can be counted.
    pub fn is_full(&self) -> bool
        ensures { IsTrue result ↔ (self.now ≡ 2 ^ 64 - 1) }
    {
        self.count == u64::MAX
    }

    /// Counts one fault, if it can be counted, and answers what the call that failed answers.
    pub fn raise(&mut self) -> Stop
        ensures counted { self.new ≡ self.old + faults_of result }
        ensures full { (result ≡ Stop.NoMemory) ↔ (self.old ≡ 2 ^ 64 - 1) }
    {
        if self.is_full() {
            return Stop::NoMemory;
        }
        self.count += 1;
        Stop::Failed
    }
}
