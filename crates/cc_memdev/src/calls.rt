//! Which calls on a device are to fail: those that are listed, and those after a stop.

ghost use Rattle.std.specs.Prelude.{◌≡◌, ◌++◌, [], Some, None};
ghost use Rattle.cc_memdev.specs.Calls.{CallPlan, StopPlan, is_listed, plan_after_call, is_stopped, after_any_call};

use std::marker::Model;

/// The calls of one kind on a device, counted from 1, and the numbers of those that are to fail.
#[derive(Drop)]
pub(crate) struct DeviceCalls {
    fails: Vec<u64>,
    made: u64,
}

impl Model for DeviceCalls {
    ghost Value = { CallPlan };

    ghost view = { λ calls. record { fails = calls.fails.items; made = calls.made } };
}

impl DeviceCalls {
    pub(crate) fn new(fails: Vec<u64>) -> DeviceCalls
        ensures { result ≡ record { fails = fails.items; made = 0 } }
    {
        DeviceCalls { fails, made: 0 }
    }

    /// Counts the next call, and answers whether it is to fail.
    pub(crate) fn is_next_listed(&mut self) -> bool
        ensures listed { result ≡ is_listed self.old }
        ensures counted { self.new ≡ plan_after_call self.old }
    {
        self.made = self.made.saturating_add(1);
        self.fails.contains(&self.made)
    }
}

/// The calls of every kind on a device, counted from 1, and the number after which each fails.
#[derive(Drop)]
pub(crate) struct AllCalls {
    after: Option<u64>,
    made: u64,
}

impl Model for AllCalls {
    ghost Value = { StopPlan };

    ghost view = { λ calls. record { after = calls.after; made = calls.made } };
}

impl AllCalls {
    pub(crate) fn new() -> AllCalls
        ensures { result ≡ record { after = None; made = 0 } }
    {
        AllCalls {
            after: None,
            made: 0,
        }
    }

    /// Counts the next call, and answers whether it comes after the stop.
    pub(crate) fn is_next_stopped(&mut self) -> bool
        ensures stopped { result ≡ is_stopped self.old }
        ensures counted { self.new ≡ after_any_call self.old }
    {
        self.made = self.made.saturating_add(1);
        match self.after {
            Some(k) => k < self.made,
            None => false,
        }
    }

    pub(crate) fn stop_after(&mut self, k: u64)
        ensures { self.new ≡ record { after = Some k; made = self.old.made } }
    {
        self.after = Some(k);
    }
}
