//! Logs: what one tells of its entries, and what its calls promise.

ghost use Rattle.std.specs.Prelude.{◌≡◌, ℕ, ◌+◌, ◌-◌, ◌^◌, Option, IfOk, OnOk, OnErr};
ghost use Rattle.cc_traits.specs.Stop.{faults_in, OnFailed, OnNoMemory};
ghost use Rattle.cc_traits.specs.Told.{Both, IfTold};
ghost use Rattle.cc_traits.specs.Log.{Log, Appended, LogKept, Flushed, HoldsEntry};

use crate::Stop;

/// A log of entries, each with its log sequence number (LSN) and its bytes.
pub trait LogFile: Drop {
    // The entries, and the LSN up to which they are on the medium.
    ghost told: { Self → Option Log };

    // How many calls failed, a number below 2 ^ 64.
    ghost faults: { Self → ℕ };

    /// Puts one entry behind the others.
    fn append(&mut self, lsn: u64, bytes: &[u8]) -> Result<(), Stop>
        ensures appended { OnOk result
            (Both (told self.old) (told self.new) (Appended lsn bytes.now)) }
        ensures failed { OnFailed result (Both (told self.old) (told self.new) LogKept) }
        ensures no_memory { OnNoMemory result (told self.new ≡ told self.old) }
        ensures counted { faults self.new ≡ faults self.old + faults_in result };

    /// Waits until every entry up to `lsn` is on the medium. It takes no memory: it answers
    /// [`Stop::NoMemory`] only where the count of faults is at its end.
    fn flush(&mut self, lsn: u64) -> Result<(), Stop>
        ensures flushed { OnOk result (Both (told self.old) (told self.new) (Flushed lsn)) }
        ensures failed { OnFailed result (Both (told self.old) (told self.new) LogKept) }
        ensures no_memory { OnNoMemory result (told self.new ≡ told self.old) }
        ensures takes_no_memory { OnNoMemory result (faults self.old ≡ 2 ^ 64 - 1) }
        ensures counted { faults self.new ≡ faults self.old + faults_in result };

    /// Reads the `n`-th entry, counted from 0. Answers its LSN, and `out` has its bytes then; or `None`, where
    /// there is no such entry. What `out` has where it answers anything else is left open.
    fn entry(&mut self, n: u64, out: &mut Vec<u8>) -> Result<Option<u64>, Stop>
        ensures held { IfOk result (λ lsn. IfTold (told self.old) (HoldsEntry n lsn out.new.items)) }
        ensures stays { told self.new ≡ told self.old }
        ensures counted { faults self.new ≡ faults self.old + faults_in result };
}

impl LogFile for Box<dyn LogFile + Send> {
    ghost told = { λ b. (LogFile-box b).told b.value };

    ghost faults = { λ b. (LogFile-box b).faults b.value };

    fn append(&mut self, lsn: u64, bytes: &[u8]) -> Result<(), Stop> {
        (**self).append(lsn, bytes)
    }

    fn flush(&mut self, lsn: u64) -> Result<(), Stop> {
        (**self).flush(lsn)
    }

    fn entry(&mut self, n: u64, out: &mut Vec<u8>) -> Result<Option<u64>, Stop> {
        (**self).entry(n, out)
    }
}
