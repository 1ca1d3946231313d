//! What the devices and the callers of one run share: the troubles of the calls, what waits for what, and what the gate is told.

use crate::moments::Moments;
use crate::trouble::{Fate, Place, Trouble};
use cc_traits::Gate;
use std::sync::atomic::{AtomicBool, AtomicU64, Ordering};
use std::thread;

/// Something that comes in a run of threads.
#[derive(Clone, Copy, PartialEq, Eq)]
pub enum Event {
    /// A caller is about to make the call of this number.
    Before { caller: u64, call: u64 },
    /// It begins that call.
    Begun { caller: u64, call: u64 },
    /// That call was answered.
    After { caller: u64, call: u64 },
    /// A device is inside a call.
    Inside(Place),
}

/// An event that waits for another.
#[derive(Drop)]
pub struct Order {
    first: Event,
    then: Event,
    came: AtomicBool,
    waited: AtomicBool,
    missed: AtomicBool,
}

impl Order {
    /// The second event waits for the first.
    pub fn new(first: Event, then: Event) -> Order {
        Order {
            first,
            then,
            came: AtomicBool::new(false),
            waited: AtomicBool::new(false),
            missed: AtomicBool::new(false),
        }
    }

    /// Whether the first event came, and the second, which did not wait in vain.
    pub fn was_kept(&self) -> bool {
        self.came.load(Ordering::SeqCst)
            && self.waited.load(Ordering::SeqCst)
            && !self.missed.load(Ordering::SeqCst)
    }

    /// The first event comes.
    fn come(&self) {
        self.came.store(true, Ordering::SeqCst);
    }

    /// The second event waits for the first, at most ten million turns.
    fn wait(&self) {
        self.waited.store(true, Ordering::SeqCst);
        for _ in 0..10_000_000 {
            if self.came.load(Ordering::SeqCst) {
                return;
            }
            thread::yield_now();
        }
        self.missed.store(true, Ordering::SeqCst);
    }
}

/// The troubles and the orders of one run, how many calls there were on all disks and logs, and the moments of the callers'.
#[derive(Drop)]
pub struct Stage {
    pub troubles: Vec<Trouble>,
    pub orders: Vec<Order>,
    pub moments: Moments,
    calls: AtomicU64,
}

impl Stage {
    /// A stage on which nothing happened.
    pub fn new(troubles: Vec<Trouble>, orders: Vec<Order>, moments: Moments) -> Stage {
        Stage {
            troubles,
            orders,
            moments,
            calls: AtomicU64::new(0),
        }
    }

    /// How many calls there were on all disks and logs.
    pub fn calls(&self) -> u64 {
        self.calls.load(Ordering::SeqCst)
    }

    /// Counts a call on a device, the one of this number on it, waits inside it where it has to, and answers what becomes
    /// of it.
    pub fn call(&self, place: Place, own: u64) -> Fate {
        if place.device.is_stopped_with_others() {
            self.calls.fetch_add(1, Ordering::SeqCst);
        }
        let all = self.calls();
        self.come(Event::Inside(place));
        self.wait(Event::Inside(place));
        self.troubles
            .iter()
            .map(|trouble| trouble.fate(place, own, all))
            .find(|fate| *fate != Fate::Good)
            .unwrap_or(Fate::Good)
    }

    /// An event comes.
    fn come(&self, event: Event) {
        for order in self.orders.iter() {
            if order.first == event {
                order.come();
            }
        }
    }

    /// An event waits for those that have to come before it.
    fn wait(&self, event: Event) {
        for order in self.orders.iter() {
            if order.then == event {
                order.wait();
            }
        }
    }
}

impl Gate for Stage {
    fn before(&self, caller: u32, call: u32) {
        let (caller, call) = (u64::from(caller), u64::from(call));
        self.wait(Event::Before { caller, call });
        self.moments.begin(caller, call, self.calls());
        self.come(Event::Begun { caller, call });
    }

    fn after(&self, caller: u32, call: u32) {
        let (caller, call) = (u64::from(caller), u64::from(call));
        self.moments.end(caller, call, self.calls());
        self.come(Event::After { caller, call });
    }
}
