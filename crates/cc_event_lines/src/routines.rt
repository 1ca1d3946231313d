//! The post routines that were handed in, one for each `defer` line in their order.

ghost use Rattle.std.specs.Prelude.{◌≡◌, ◌+◌, ◌<◌, ◌≤◌, ◌++◌, ◌∷◌, [], IfOk, IfErr, IfSome, length, position};
ghost use Rattle.cc_event_lines.specs.Routines.{all_back, come_back, here, waits_for};

use std::alloc::Global;
use std::marker::Model;
use std::mem::{drop, replace};
use std::snapshot::Snapshot;

/// The routine of a `defer` line.
#[derive(Drop)]
pub(crate) struct RoutineSlot<Q> {
    /// The number of the write that was deferred with it, where one was.
    pub(crate) deferral: Option<u64>,
    /// None while it waits in the journal.
    pub(crate) routine: Option<Q>,
}

impl<Q> RoutineSlot<Q> {
    // Whether its routine waits under this number.
    fn waits_for(&self, id: u64) -> bool
        ensures { result ≡ waits_for id self.now }
    {
        match (&self.deferral, &self.routine) {
            (Some(own), None) => *own == id,
            _ => false,
        }
    }
}

/// The post routines that were handed in.
pub(crate) struct Routines<Q> {
    /// Those of the `defer` lines so far, in their order.
    slots: Vec<RoutineSlot<Q>>,
    /// Those of the lines to come, the last first, with room for all.
    unused: Vec<Q>,
    /// All, as they were handed in.
    handed: Snapshot<Vec<Q>>,
}

impl<Q> Model for Routines<Q> {
    ghost use Rattle.std.specs.Prelude.{◌≤◌, reverse, vec_capacity};
    ghost use Rattle.cc_event_lines.specs.Routines.{RoutinesState};

    ghost Value = { RoutinesState Q };

    ghost view = { λ r. record {
      slots = r.slots.items;
      unused = reverse r.unused.items;
      handed = r.handed.value.items;
      room = vec_capacity r.slots;
    } };

    ghost invariant = { λ r. vec_capacity r.slots ≤ vec_capacity r.unused };
}

impl<Q: Drop> Routines<Q> {
    /// All are of lines to come. Where memory is wanting they come back.
    pub(crate) fn new(alloc: Global, routines: Vec<Q>) -> Result<Routines<Q>, Vec<Q>>
        ensures ok { IfOk result (λ all. (all.slots ≡ []) × (all.unused ≡ routines.items) × (all.handed ≡ routines.items)) }
        ensures room { IfOk result (λ all. length routines.items ≤ all.room) }
        ensures err { IfErr result (λ back. back.items ≡ routines.items) }
    {
        let handed = Snapshot::of(&routines);
        let Ok(slots) = Vec::with_capacity(alloc, routines.len()) else {
            return Err(routines);
        };
        let mut unused = routines;
        unused.reverse();
        Ok(Routines {
            slots,
            unused,
            handed,
        })
    }

    /// Takes the routine of the next `defer` line out.
    pub(crate) fn next(&mut self) -> Q
        requires { 0 < length self.old.unused }
        ensures taken { self.old.unused ≡ result ∷ self.new.unused }
        ensures rest { self.new ≡ record self.old { unused = self.new.unused } }
    {
        self.unused.pop().unwrap()
    }

    /// Keeps what became of the routine that was taken out last.
    pub(crate) fn keep(&mut self, slot: RoutineSlot<Q>)
        requires { length self.old.slots < self.old.room }
        ensures { self.new ≡ record self.old { slots = self.old.slots ++ slot ∷ [] } }
    {
        self.slots.push_reserved(slot);
    }

    /// The routine of the write of this number comes back to its place.
    pub(crate) fn put_back(&mut self, id: u64, routine: Q)
        ensures { self.new ≡ record self.old { slots = come_back id routine self.old.slots } }
    {
        if let Some(place) = place_of(&self.slots, id) {
            let slot = RoutineSlot {
                deferral: Some(id),
                routine: Some(routine),
            };
            drop(replace(&mut self.slots[place], slot));
        }
    }

    /// All in their order, where these come back with the numbers of their writes. It takes no memory.
    pub(crate) fn end(self, queued: Vec<(u64, Q)>) -> Vec<Q>
        requires { length self.slots + length self.unused ≤ self.room }
        ensures { result.items ≡ here (all_back queued.items self.slots) ++ self.unused }
    {
        let mut routines = self;
        let mut queued = queued;
        while let Some((id, routine)) = queued.pop() {
            routines.put_back(id, routine);
        }
        routines.into_vec()
    }

    // Those that are here, in their order.
    fn into_vec(self) -> Vec<Q>
        requires { length self.slots + length self.unused ≤ self.room }
        ensures { result.items ≡ here self.slots ++ self.unused }
    {
        let Routines {
            mut slots,
            unused,
            handed: _,
        } = self;
        let mut routines = unused;
        while let Some(RoutineSlot { routine, .. }) = slots.pop() {
            if let Some(routine) = routine {
                routines.push_reserved(routine);
            }
        }
        routines.reverse();
        routines
    }
}

// The place whose routine waits under this number.
fn place_of<Q>(slots: &[RoutineSlot<Q>], id: u64) -> Option<usize>
    ensures place { result ≡ position (waits_for id) slots.now }
    ensures within { IfSome result (λ place. place < length slots.now) }
{
    slots.iter().position(|slot| slot.waits_for(id))
}
