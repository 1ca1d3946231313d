//! A log in memory, of which chosen calls fail.

ghost use Rattle.std.specs.Prelude.{◌≡◌, ◌+◌, ◌-◌, ◌^◌, ◌↔◌, true, false, max, map, [], ◌∷◌, ◌++◌, Some, None, IfOk, IsOk, OnOk, OnErr};
ghost use Rattle.cc_traits.specs.Stop.{faults_in, OnFailed, OnNoMemory};
ghost use Rattle.cc_traits.specs.Log.{HoldsEntry};
ghost use Rattle.cc_memdev.specs.Calls.{plan_after_call, after_any_call, fails_next};
ghost use Rattle.cc_memdev.specs.Devices.{LogState, entries_of, greatest_lsn};

use crate::calls::{AllCalls, DeviceCalls};
use cc_traits::{Faults, LogFile, Stop};
use std::alloc::Global;
use std::marker::Model;

/// The numbers of the calls that are to fail, each kind counted by itself from 1.
#[derive(Drop)]
pub struct LogFails {
    pub appends: Vec<u64>,
    pub flushes: Vec<u64>,
    /// Reads of an entry.
    pub reads: Vec<u64>,
}

/// A log in memory.
#[derive(Drop)]
pub struct MemLog {
    alloc: Global,
    entries: Vec<(u64, Vec<u8>)>,
    durable: u64,
    appends: DeviceCalls,
    flushes: DeviceCalls,
    reads: DeviceCalls,
    all: AllCalls,
    faults: Faults,
}

impl Model for MemLog {
    ghost Value = { LogState };

    ghost view = { λ l. record {
      log = record { entries = entries_of l.entries.items; durable = l.durable };
      appends = l.appends;
      flushes = l.flushes;
      reads = l.reads;
      stop = l.all;
      faults = l.faults;
    } };
}

/// The greatest LSN of these entries, or 0.
fn last_lsn(entries: &[(u64, Vec<u8>)]) -> u64
    ensures { result ≡ greatest_lsn 0 (entries_of entries.now) }
{
    let mut last = 0;
    for entry in entries {
        last = entry.0.max(last);
    }
    last
}

impl MemLog {
    /// A log with no entries. It takes no memory.
    pub fn new(alloc: Global, fails: LogFails) -> MemLog
        ensures log { result.log ≡ record { entries = []; durable = 0 } }
        ensures appends { result.appends ≡ record { fails = fails.appends.items; made = 0 } }
        ensures flushes { result.flushes ≡ record { fails = fails.flushes.items; made = 0 } }
        ensures reads { result.reads ≡ record { fails = fails.reads.items; made = 0 } }
        ensures no_stop { result.stop ≡ record { after = None; made = 0 } }
        ensures no_fault { result.faults ≡ 0 }
    {
        MemLog::with_entries(alloc, Vec::new(alloc), fails)
    }

    /// A log with these entries, each an LSN and its bytes, all of them on the medium. It takes no
    /// memory.
    pub fn with_entries(alloc: Global, entries: Vec<(u64, Vec<u8>)>, fails: LogFails) -> MemLog
        ensures entries { result.log.entries ≡ entries_of entries.items }
        ensures durable { result.log.durable ≡ greatest_lsn 0 (entries_of entries.items) }
        ensures appends { result.appends ≡ record { fails = fails.appends.items; made = 0 } }
        ensures flushes { result.flushes ≡ record { fails = fails.flushes.items; made = 0 } }
        ensures reads { result.reads ≡ record { fails = fails.reads.items; made = 0 } }
        ensures no_stop { result.stop ≡ record { after = None; made = 0 } }
        ensures no_fault { result.faults ≡ 0 }
    {
        let durable = last_lsn(&entries);
        MemLog {
            alloc,
            entries,
            durable,
            appends: DeviceCalls::new(fails.appends),
            flushes: DeviceCalls::new(fails.flushes),
            reads: DeviceCalls::new(fails.reads),
            all: AllCalls::new(),
            faults: Faults::new(),
        }
    }

    /// From the call after the `k`-th of this log on, of any kind, every call fails.
    pub fn stop_after(&mut self, k: u64)
        ensures { self.new ≡ record self.old { stop = record { after = Some k; made = self.old.stop.made } } }
    {
        self.all.stop_after(k);
    }

    /// The LSN up to which the entries are on the medium, or 0.
    pub fn durable(&self) -> u64
        ensures { result ≡ self.now.log.durable }
    {
        self.durable
    }

    /// The entries, oldest first.
    pub fn entries(&self) -> &[(u64, Vec<u8>)]
        ensures { entries_of result.now ≡ self.now.log.entries }
    {
        &self.entries
    }

    /// How many calls failed.
    pub fn faults(&self) -> u64
        ensures { result ≡ self.now.faults }
    {
        self.faults.count()
    }
}

impl LogFile for MemLog {
    ghost told = { λ l. Some l.log };

    ghost faults = { λ l. l.faults };

    fn append(&mut self, lsn: u64, bytes: &[u8]) -> Result<(), Stop>
        ensures appended { OnOk result
            (self.new.log ≡ record self.old.log {
              entries = self.old.log.entries ++ record { lsn = lsn; bytes = bytes.now } ∷ [];
            }) }
        ensures err { OnErr result (self.new.log ≡ self.old.log) }
        ensures state { self.new ≡ record self.old {
          log = self.new.log;
          appends = plan_after_call self.old.appends;
          stop = after_any_call self.old.stop;
          faults = self.old.faults + faults_in result;
        } }
        ensures ok_unplanned { OnOk result (fails_next self.old.appends self.old.stop ≡ false) }
        ensures failed_planned { OnFailed result (fails_next self.old.appends self.old.stop ≡ true) }
    {
        let listed = self.appends.is_next_listed();
        let stopped = self.all.is_next_stopped();
        if listed || stopped {
            return Err(self.faults.raise());
        }
        let kept = Vec::from_slice(self.alloc, bytes)?;
        self.entries.push((lsn, kept))?;
        Ok(())
    }

    fn flush(&mut self, lsn: u64) -> Result<(), Stop>
        ensures flushed { OnOk result
            (self.new.log ≡ record self.old.log { durable = max self.old.log.durable lsn }) }
        ensures err { OnErr result (self.new.log ≡ self.old.log) }
        ensures state { self.new ≡ record self.old {
          log = self.new.log;
          flushes = plan_after_call self.old.flushes;
          stop = after_any_call self.old.stop;
          faults = self.old.faults + faults_in result;
        } }
        ensures planned { IsOk result ↔ (fails_next self.old.flushes self.old.stop ≡ false) }
        ensures full { OnNoMemory result (self.old.faults ≡ 2 ^ 64 - 1) }
    {
        let listed = self.flushes.is_next_listed();
        let stopped = self.all.is_next_stopped();
        if listed || stopped {
            return Err(self.faults.raise());
        }
        self.durable = self.durable.max(lsn);
        Ok(())
    }

    fn entry(&mut self, n: u64, out: &mut Vec<u8>) -> Result<Option<u64>, Stop>
        ensures held { IfOk result (λ lsn. HoldsEntry n lsn out.new.items self.old.log) }
        ensures state { self.new ≡ record self.old {
          reads = plan_after_call self.old.reads;
          stop = after_any_call self.old.stop;
          faults = self.old.faults + faults_in result;
        } }
        ensures ok_unplanned { OnOk result (fails_next self.old.reads self.old.stop ≡ false) }
        ensures failed_planned { OnFailed result (fails_next self.old.reads self.old.stop ≡ true) }
    {
        let listed = self.reads.is_next_listed();
        let stopped = self.all.is_next_stopped();
        if listed || stopped {
            return Err(self.faults.raise());
        }
        match self.entries.get(n as usize) {
            Some(entry) => {
                out.clear();
                out.extend_from_slice(&entry.1)?;
                Ok(Some(entry.0))
            }
            None => Ok(None),
        }
    }
}
