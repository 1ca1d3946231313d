//! What the gate is told: each call passes it once, and tells it its end once, behind that.

use std::alloc::{AllocError, Global};
use std::sync::atomic::{AtomicBool, AtomicU64, Ordering};

/// The callers of a script are numbered from 1 to 16.
const CALLERS: usize = 17;

/// How many calls on disks and logs are made between the two moments of a caller's call.
#[derive(Clone, Copy)]
pub struct Work {
    pub caller: u64,
    pub call: u64,
    pub calls: u64,
}

/// A call of which a case says how many calls on disks and logs it makes, and how many there were at its two moments.
#[derive(Drop)]
struct Watched {
    work: Work,
    begun: AtomicU64,
    ended: AtomicU64,
}

impl Watched {
    /// Whether as many were made as the case says.
    fn was_kept(&self) -> bool {
        let begun = self.begun.load(Ordering::SeqCst);
        let ended = self.ended.load(Ordering::SeqCst);
        ended.checked_sub(begun) == Some(self.work.calls)
    }
}

/// The moments of all calls of one run.
#[derive(Drop)]
pub struct Moments {
    /// How many moments there were of each caller: two for each of its calls, in their order.
    came: Vec<AtomicU64>,
    is_out_of_order: AtomicBool,
    watched: Vec<Watched>,
}

impl Moments {
    /// No call yet, of which these are watched.
    pub fn new(alloc: Global, works: &[Work]) -> Result<Moments, AllocError> {
        let mut came = Vec::new(alloc);
        for _ in 0..CALLERS {
            came.push(AtomicU64::new(0))?;
        }
        let mut watched = Vec::new(alloc);
        for work in works {
            // One that never comes has an end before its begin.
            watched.push(Watched {
                work: *work,
                begun: AtomicU64::new(u64::MAX),
                ended: AtomicU64::new(0),
            })?;
        }
        Ok(Moments {
            came,
            is_out_of_order: AtomicBool::new(false),
            watched,
        })
    }

    /// A caller's call passes the gate, where there were so many calls on disks and logs.
    pub fn begin(&self, caller: u64, call: u64, calls: u64) {
        self.note(caller, call.saturating_mul(2).saturating_sub(1));
        for one in self.watched.iter() {
            if one.work.caller == caller && one.work.call == call {
                one.begun.store(calls, Ordering::SeqCst);
            }
        }
    }

    /// A caller's call has ended, where there were so many calls on disks and logs.
    pub fn end(&self, caller: u64, call: u64, calls: u64) {
        self.note(caller, call.saturating_mul(2));
        for one in self.watched.iter() {
            if one.work.caller == caller && one.work.call == call {
                one.ended.store(calls, Ordering::SeqCst);
            }
        }
    }

    /// How many calls passed the gate and told it their end.
    pub fn passed(&self) -> u64 {
        let mut sum = 0u64;
        for came in self.came.iter() {
            sum = sum.saturating_add(came.load(Ordering::SeqCst) / 2);
        }
        sum
    }

    /// Whether each call that passed told its end behind that, none came twice, and each caller's came in order.
    pub fn are_in_order(&self) -> bool {
        !self.is_out_of_order.load(Ordering::SeqCst)
            && self
                .came
                .iter()
                .all(|came| came.load(Ordering::SeqCst) % 2 == 0)
    }

    /// Whether each call that is watched made as many calls on disks and logs as the case says.
    pub fn were_kept(&self) -> bool {
        self.watched.iter().all(|one| one.was_kept())
    }

    /// A moment comes, the one of this number of its caller.
    fn note(&self, caller: u64, moment: u64) {
        for (number, came) in self.came.iter().enumerate() {
            if number as u64 == caller && came.load(Ordering::SeqCst).saturating_add(1) == moment {
                came.store(moment, Ordering::SeqCst);
                return;
            }
        }
        self.is_out_of_order.store(true, Ordering::SeqCst);
    }
}
