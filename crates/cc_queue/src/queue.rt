//! The queue, and the places of its passes.

ghost use Rattle.std.specs.Prelude.{◌≡◌, [], IfOk, IfErr, OnOk, IfSome, IfNone};
ghost use Rattle.crossbeam_queue.specs.Passes.{view};
ghost use Rattle.cc_queue.specs.Order.{empty_hand};
ghost use Rattle.cc_queue.specs.Places.{new_place, pushing, taking, WasHeld, PushLeft, PopLeft};

use crate::rule::{Hand, InOneOrder, OneMore, Pushed, Taken};
use cc_entry::NoMemory;
use crossbeam_queue::{Pass, RuledArrayQueue};
use std::alloc::Global;
use std::marker::Model;
use std::sync::Wait;

/// A queue of 64 items, which threads share.
#[derive(Drop)]
pub struct Queue<T> {
    ring: RuledArrayQueue<T, Hand<T>, InOneOrder>,
}

impl<T> Model for Queue<T> {
    ghost use Rattle.std.specs.Prelude.{◌≡◌};
    ghost use Rattle.atomic_table.specs.Seated.{TableId};
    ghost use Rattle.crossbeam_queue.specs.Passes.{ruled_capacity};

    // Which queue it is.
    ghost Value = { TableId };

    ghost view = { λ q. q.ring.table.shared.table_id };

    ghost invariant = { λ q. ruled_capacity q.ring ≡ 64 };
}

/// A pass's place at a queue. Its pass alone pushes and takes there.
#[derive(Drop)]
pub struct QueuePlace<T> {
    pass: Pass<T, Hand<T>>,
    empties: u64,
    fulls: u64,
}

impl<T> Model for QueuePlace<T> {
    ghost use Rattle.std.specs.Prelude.{◌≡◌, []};
    ghost use Rattle.crossbeam_queue.specs.Passes.{view as knows};
    ghost use Rattle.cc_queue.specs.Places.{PlaceState};

    ghost Value = { PlaceState T };

    ghost view = { λ p. record {
      queue = p.pass.table_id;
      pushed = (knows p.pass).pushed;
      taken = (knows p.pass).taken;
      empties = p.empties;
      fulls = p.fulls;
    } };

    ghost invariant = { λ p. p.pass.me.1 ≡ [] };
}

impl<T: Drop> Queue<T> {
    /// An empty queue, and its first place. Answers `NoMemory` where memory is wanting.
    pub fn new(alloc: Global) -> Result<(Queue<T>, QueuePlace<T>), NoMemory>
        ensures { IfOk result (λ made. made.1 ≡ new_place made.0) }
    {
        let (ring, pass) = RuledArrayQueue::ruled(alloc, 64)?;
        Ok((Queue { ring }, place_of(pass)))
    }

    /// One place more. It takes no memory.
    pub fn split(&self, place: &mut QueuePlace<T>) -> QueuePlace<T>
        requires own { place.old.queue ≡ self.now }
        ensures same { place.new ≡ place.old }
        ensures made { result ≡ new_place self.now }
    {
        place_of(self.ring.another::<OneMore>(&mut place.pass))
    }

    /// Pushes an item behind all others. Answers false only where the queue was full at one moment of the call. It takes
    /// no memory.
    pub fn push<R: Wait>(&self, rt: &R, place: &mut QueuePlace<T>, item: T) -> bool
        requires own { place.old.queue ≡ self.now }
        ensures left { PushLeft item result place.old place.new }
    {
        match self.offer(rt, place, item) {
            Ok(()) => true,
            Err(_) => {
                place.fulls = place.fulls.saturating_add(1);
                false
            }
        }
    }

    /// Takes the first item. Answers none only where the queue was empty at one moment of the call. It takes no memory.
    pub fn pop<R: Wait>(&self, rt: &R, place: &mut QueuePlace<T>) -> Option<T>
        requires own { place.old.queue ≡ self.now }
        ensures left { PopLeft result place.old place.new }
    {
        let taken = self.take(rt, place);
        if taken.is_none() {
            place.empties = place.empties.saturating_add(1);
        }
        taken
    }

    // Pushes an item, or hands it back where the queue was full.
    fn offer<R: Wait>(&self, rt: &R, place: &mut QueuePlace<T>, item: T) -> Result<(), T>
        requires own { place.old.queue ≡ self.now }
        ensures pushed { OnOk result (place.new ≡ pushing item place.old) }
        ensures back { IfErr result (λ back. (back ≡ item) × (place.new ≡ place.old) × WasHeld 64 place.old) }
    {
        self.ring.push_as::<Pushed, R>(rt, &mut place.pass, item)
    }

    // Takes the first item, unless the queue was empty.
    fn take<R: Wait>(&self, rt: &R, place: &mut QueuePlace<T>) -> Option<T>
        requires own { place.old.queue ≡ self.now }
        ensures taken { IfSome result (λ item. place.new ≡ taking item place.old) }
        ensures none { IfNone result ((place.new ≡ place.old) × WasHeld 0 place.old) }
    {
        self.ring.pop_as::<Taken, R>(rt, &mut place.pass)
    }
}

impl<T> QueuePlace<T> {
    /// How often the queue was found empty here.
    pub fn empties(&self) -> u64
        ensures { result ≡ self.now.empties }
    {
        self.empties
    }

    /// How often it was found full.
    pub fn fulls(&self) -> u64
        ensures { result ≡ self.now.fulls }
    {
        self.fulls
    }
}

// The place of a new pass.
fn place_of<T>(pass: Pass<T, Hand<T>>) -> QueuePlace<T>
    requires idle { pass.me.1 ≡ [] }
    requires fresh { view pass ≡ empty_hand }
    ensures { result ≡ new_place pass.table_id }
{
    QueuePlace {
        pass,
        empties: 0,
        fulls: 0,
    }
}
