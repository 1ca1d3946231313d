//! The ranges of open holds, by stream and id: a set-dirty names its hold alone, and touches the pages of its range.

ghost use Rattle.std.specs.Prelude.{◌≡◌, ◌+◌, ◌<◌, ◌≤◌, [], ◌∷◌, List, Option, None, Some, OnOk};
ghost use Rattle.indexmap.specs.IndexMap.{spare};
ghost use Rattle.cc_journal.specs.Places.{held_at, Sets, ChangesHoldPlaces, PlacesHolds};

use cc_entry::{NoMemory, StreamId};
use cc_events::Holding;
use indexmap::IndexMap;
use std::alloc::Global;

/// The place and the length of each open hold, by its stream and its id.
#[derive(Drop)]
pub(crate) struct HoldPlaces {
    places: IndexMap<(u8, u64), (u64, u64)>,
}

impl HoldPlaces {
    #[tactic(auto, using(crate::proofs::PlaceSteps::places_none))]
    pub(crate) fn new(alloc: Global) -> HoldPlaces
        ensures { PlacesHolds [] result.places.entries }
    {
        HoldPlaces {
            places: IndexMap::new(alloc),
        }
    }

    /// The place and the length of a stream's open hold.
    pub(crate) fn of(&self, stream: StreamId, id: u64) -> Option<(u64, u64)>
        ensures { result ≡ held_at self.now.places.entries stream id }
    {
        self.places.get(&(stream.number(), id)).copied()
    }

    /// Makes room for so many holds more.
    pub(crate) fn reserve(&mut self, holds: usize) -> Result<(), NoMemory>
        ensures room { OnOk result (holds ≤ spare self.new.places) }
        ensures places { self.new.places.entries ≡ self.old.places.entries }
        ensures no_less { spare self.old.places ≤ spare self.new.places }
    {
        self.places.reserve(holds).map_err(|_| NoMemory)
    }

    /// Follows what happened to the holds of a stream.
    pub(crate) fn follow(&mut self, stream: StreamId, what: Holding)
        requires room { 0 < spare self.old.places }
        ensures holds { ChangesHoldPlaces self.old.places.entries self.new.places.entries stream what }
        ensures room { spare self.old.places ≤ spare self.new.places + 1 }
    {
        match what {
            Holding::Makes { id, at, len } => self.set(stream, id, (at, len)),
            Holding::Repins { id, of } => {
                if let Some(place) = self.of(stream, of) {
                    self.set(stream, id, place);
                }
            }
            Holding::Ends { id } => self.remove(stream, id),
            Holding::Rests => (),
        }
    }

    fn set(&mut self, stream: StreamId, id: u64, place: (u64, u64))
        requires room { 0 < spare self.old.places }
        ensures sets { Sets self.old.places.entries self.new.places.entries stream id (Some place) }
        ensures room { spare self.old.places ≤ spare self.new.places + 1 }
    {
        let _old = self.places.insert((stream.number(), id), place).unwrap();
    }

    fn remove(&mut self, stream: StreamId, id: u64)
        ensures sets { Sets self.old.places.entries self.new.places.entries stream id None }
        ensures room { spare self.old.places ≤ spare self.new.places }
    {
        self.places.swap_remove(&(stream.number(), id));
    }
}
