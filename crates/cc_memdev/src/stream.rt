//! A source and a sink of bytes in memory.

ghost use Rattle.std.specs.Prelude.{◌≡◌, ◌+◌, ◌-◌, ◌^◌, ◌<◌, ◌≤◌, ◌↔◌, true, false, min, length, take, drop, vec_len, [], ◌++◌, Some, IsOk, IfOk, OnOk, OnErr};
ghost use Rattle.cc_traits.specs.Stop.{faults_in, given_in, is_end, OnFailed, OnNoMemory};
ghost use Rattle.cc_memdev.specs.Calls.{plan_after_call, is_listed};
ghost use Rattle.cc_memdev.specs.Devices.{SourceState, SinkState};

use crate::calls::DeviceCalls;
use cc_traits::{Faults, Sink, Source, Stop, is_end};
use std::alloc::Global;
use std::marker::Model;

/// A source of bytes in memory.
#[derive(Drop)]
pub struct MemSource {
    bytes: Vec<u8>,
    at: usize,
    ended: bool,
    chunk: usize,
    takes: DeviceCalls,
    faults: Faults,
}

impl Model for MemSource {
    ghost Value = { SourceState };

    ghost view = { λ s. record {
      left = drop s.at s.bytes.items;
      given = take s.at s.bytes.items;
      ended = s.ended;
      chunk = s.chunk;
      takes = s.takes;
      faults = s.faults;
    } };

    ghost invariant = { λ s. (s.at ≤ vec_len s.bytes) × (0 < s.chunk) };
}

impl MemSource {
    /// A source of these bytes, which gives at most `chunk` of them a call, and fails at the calls
    /// with these numbers, counted from 1. It takes no memory.
    pub fn new(bytes: Vec<u8>, chunk: usize, fails: Vec<u64>) -> MemSource
        requires { 0 < chunk }
        ensures left { result.left ≡ bytes.items }
        ensures none_given { result.given ≡ [] }
        ensures not_ended { result.ended ≡ false }
        ensures chunk { result.chunk ≡ chunk }
        ensures takes { result.takes ≡ record { fails = fails.items; made = 0 } }
        ensures no_fault { result.faults ≡ 0 }
    {
        MemSource {
            bytes,
            at: 0,
            ended: false,
            chunk,
            takes: DeviceCalls::new(fails),
            faults: Faults::new(),
        }
    }

    /// How many calls failed.
    pub fn faults(&self) -> u64
        ensures { result ≡ self.now.faults }
    {
        self.faults.count()
    }
}

impl Source for MemSource {
    ghost told = { λ s. Some s.left };

    ghost faults = { λ s. s.faults };

    ghost given = { λ s. s.given };

    ghost ended = { λ s. s.ended };

    fn take(&mut self, buf: &mut [u8]) -> Result<usize, Stop>
        ensures amount { IfOk result
            (λ n. n ≡ min self.old.chunk (min (length buf.old) (length self.old.left))) }
        ensures given { IfOk result (λ n. self.old.left ≡ take n buf.new ++ self.new.left) }
        ensures end { IfOk result (λ n. n ≡ 0 → 0 < length buf.old → self.old.left ≡ []) }
        ensures err { OnErr result (self.new.left ≡ self.old.left) }
        ensures none_lost { self.new.given ++ self.new.left ≡ self.old.given ++ self.old.left }
        ensures noted { self.new.given ≡ self.old.given ++ given_in buf.new result }
        ensures at_end { self.new.ended ≡ is_end buf.new result }
        ensures state { self.new ≡ record self.old {
          left = self.new.left;
          given = self.new.given;
          ended = self.new.ended;
          takes = plan_after_call self.old.takes;
          faults = self.old.faults + faults_in result;
        } }
        ensures planned { IsOk result ↔ (is_listed self.old.takes ≡ false) }
        ensures full { OnNoMemory result (self.old.faults ≡ 2 ^ 64 - 1) }
    {
        self.ended = false;
        if self.takes.is_next_listed() {
            return Err(self.faults.raise());
        }
        let left = self.bytes.len() - self.at;
        let n = self.chunk.min(buf.len().min(left));
        buf[..n].copy_from_slice(&self.bytes[self.at..self.at + n]);
        self.at += n;
        self.ended = is_end(buf, n);
        Ok(n)
    }
}

/// A sink that keeps what it takes, and takes all that it is given.
#[derive(Drop)]
pub struct MemSink {
    taken: Vec<u8>,
    puts: DeviceCalls,
    faults: Faults,
}

impl Model for MemSink {
    ghost Value = { SinkState };

    ghost view = { λ s. record { taken = s.taken.items; puts = s.puts; faults = s.faults } };
}

impl MemSink {
    /// A sink that fails at the calls with these numbers, counted from 1. It takes no memory.
    pub fn new(alloc: Global, fails: Vec<u64>) -> MemSink
        ensures taken { result.taken ≡ [] }
        ensures puts { result.puts ≡ record { fails = fails.items; made = 0 } }
        ensures no_fault { result.faults ≡ 0 }
    {
        MemSink {
            taken: Vec::new(alloc),
            puts: DeviceCalls::new(fails),
            faults: Faults::new(),
        }
    }

    /// The bytes that were taken.
    pub fn taken(&self) -> &[u8]
        ensures { result.now ≡ self.now.taken }
    {
        &self.taken
    }

    /// How many calls failed.
    pub fn faults(&self) -> u64
        ensures { result ≡ self.now.faults }
    {
        self.faults.count()
    }
}

impl Sink for MemSink {
    ghost told = { λ s. Some s.taken };

    ghost faults = { λ s. s.faults };

    // It takes all that it is given.
    ghost stalls = { λ _. 0 };

    fn put(&mut self, bytes: &[u8]) -> Result<usize, Stop>
        ensures whole { IfOk result (λ n. n ≡ length bytes.now) }
        ensures taken { OnOk result (self.new.taken ≡ self.old.taken ++ bytes.now) }
        ensures err { OnErr result (self.new.taken ≡ self.old.taken) }
        ensures state { self.new ≡ record self.old {
          taken = self.new.taken;
          puts = plan_after_call self.old.puts;
          faults = self.old.faults + faults_in result;
        } }
        ensures ok_unplanned { OnOk result (is_listed self.old.puts ≡ false) }
        ensures failed_planned { OnFailed result (is_listed self.old.puts ≡ true) }
    {
        if self.puts.is_next_listed() {
            return Err(self.faults.raise());
        }
        self.taken.extend_from_slice(bytes)?;
        Ok(bytes.len())
    }
}
