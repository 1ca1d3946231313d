//! The log of one handle: append, flush, floor.

ghost use Rattle.std.specs.Prelude.{◌≡◌, ◌↔◌, ℕ, ◌+◌, ◌-◌, ◌^◌, ◌≤◌, List, [], Option, max, IfOk, IfErr, IsErrOf};
ghost use Rattle.cc_entry.specs.declared.error.CcError.TheVariants as error;
ghost use Rattle.cc_entry.specs.declared.entry.Entry.{Entry};
ghost use Rattle.cc_traits.specs.Log.{Log};
ghost use Rattle.cc_log.specs.Turn.{LogTurnState, Stands, past_appended, past_flushed, log_faults_by, refusal_of, IsAppendError, IsFlushError};

use cc_entry::{CcError, Lsn};
use cc_traits::{LogFile, Stop};
use std::marker::Model;

/// One log, as whoever holds its turn has it. LSNs run from 1 to 2^62, and 0 is none.
#[derive(Drop)]
pub struct LogTurn<L = Box<dyn LogFile + Send>> {
    handle: u8,
    floor: u64,
    flushed: u64,
    file: L,
}

impl<L> Model for LogTurn<L> {
    ghost use Rattle.std.specs.Prelude.{◌≤◌, ◌^◌};
    ghost use Rattle.cc_log.specs.Turn.{LogTurnState};

    ghost Value = { LogTurnState L };

    ghost view = { λ t. record { handle = t.handle; floor = t.floor; flushed = t.flushed; file = t.file } };

    ghost invariant = { λ t. (t.flushed ≤ t.floor) × (t.floor ≤ 2 ^ 62) };
}

impl<L: LogFile> LogTurn<L> {
    /// The log of this handle over a file, of which nothing was appended or flushed yet.
    pub fn new(handle: u8, file: L) -> LogTurn<L>
        ensures same { result ≡ record { handle = handle; floor = 0; flushed = 0; file = file } }
        ensures stands { Stands L.told (L.told file) [] result }
    {
        LogTurn {
            handle,
            floor: 0,
            flushed: 0,
            file,
        }
    }

    /// The greatest LSN that was appended or flushed to, 0 at first. No Cc routine: it is the log's own.
    pub fn floor(&self) -> u64
        ensures { result ≡ self.now.floor }
    {
        self.floor
    }

    /// The greatest LSN that was flushed to, 0 at first. No Cc routine: it is the log's own.
    pub fn flushed(&self) -> u64
        ensures same { result ≡ self.now.flushed }
        ensures within { self.now.flushed ≤ self.now.floor }
    {
        self.flushed
    }

    /// Appends an entry and answers its LSN, one more than the floor. No Cc routine: it is the log's own.
    ///
    /// `LogFull` where no LSN is left, `LogFault` where the file failed, `NoMemory`.
    pub fn append(&mut self, bytes: &[u8]) -> Result<Lsn, CcError>
        ensures next { IfOk result (λ lsn. lsn ≡ self.old.floor + 1) }
        ensures full { IsErrOf result (error.LogFull self.old.handle) ↔ (self.old.floor ≡ 2 ^ 62) }
        ensures within { self.old.floor ≤ 2 ^ 62 }
        ensures causes { IfErr result (λ e. IsAppendError self.old.handle e) }
        ensures counted { L.faults self.new.file ≡ L.faults self.old.file + log_faults_by result }
        ensures handle { self.new.handle ≡ self.old.handle }
        ensures stands { (begun : Option Log) (past : List Entry) (pass : ℕ) → Stands L.told begun past self.old →
            Stands L.told begun (past_appended pass self.old.handle bytes.now result past) self.new }
    {
        let Some(lsn) = Lsn::new(self.floor + 1) else {
            return Err(CcError::LogFull {
                handle: u64::from(self.handle),
            });
        };
        match self.file.append(lsn.number(), bytes) {
            Ok(()) => {
                self.floor = lsn.number();
                Ok(lsn)
            }
            Err(stop) => Err(refusal(self.handle, stop)),
        }
    }

    /// Flushes the log up to an LSN. It takes no memory. In Windows it is the routine that a file system hands to
    /// `CcSetLogHandleForFile`.
    ///
    /// `LogFault` where the file failed; `NoMemory` only where the file's count of faults is at its end.
    pub fn flush(&mut self, to: Lsn) -> Result<(), CcError>
        ensures causes { IfErr result (λ e. IsFlushError self.old.handle e) }
        ensures full { IsErrOf result error.NoMemory → L.faults self.old.file ≡ 2 ^ 64 - 1 }
        ensures counted { L.faults self.new.file ≡ L.faults self.old.file + log_faults_by result }
        ensures handle { self.new.handle ≡ self.old.handle }
        ensures stands { (begun : Option Log) (past : List Entry) (pass : ℕ) → Stands L.told begun past self.old →
            Stands L.told begun (past_flushed pass self.old.handle to result past) self.new }
    {
        match self.file.flush(to.number()) {
            Ok(()) => {
                self.floor = self.floor.max(to.number());
                self.flushed = self.flushed.max(to.number());
                Ok(())
            }
            Err(stop) => Err(refusal(self.handle, stop)),
        }
    }

    /// The file.
    pub fn end(self) -> L
        ensures { result ≡ self.file }
    {
        self.file
    }
}

// what a call on the log of a handle answers whose file stopped
fn refusal(handle: u8, stop: Stop) -> CcError
    ensures { result ≡ refusal_of handle stop }
{
    match stop {
        Stop::Failed => CcError::LogFault {
            handle: u64::from(handle),
        },
        Stop::NoMemory => CcError::NoMemory,
    }
}
