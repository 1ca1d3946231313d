//! The locks by their ids, in the order in which they were granted, and by their places.

ghost use Rattle.std.specs.Prelude.{◌≡◌, ◌<◌, ◌≤◌, [], ◌∷◌, ◌++◌, not, All, OnOk, OnErr};
ghost use Rattle.std.specs.List.{list_any, filter};
ghost use Rattle.cc_entry.specs.Locks.{least_lock_id, is_named};
ghost use Rattle.cc_locks.specs.Asked.{conflicts};
ghost use Rattle.cc_locks.specs.Place.{lesser_id, CoversClass, IsLeastOfClass};

use crate::asked::Asked;
use crate::place::{Place, class_of, least_between, place_of};
use cc_entry::{FileId, Lock, NoMemory};
use std::alloc::Global;
use std::collections::BTreeMap;
use std::marker::Model;

/// The locks, and which classes of lengths they have had so far.
#[derive(Drop)]
pub(crate) struct LockIndex {
    ids: BTreeMap<u64, Lock>,
    places: BTreeMap<Place, Lock>,
    used: [bool; 65],
}

impl Model for LockIndex {
    ghost use Rattle.std.specs.Prelude.{List};
    ghost use Rattle.std.specs.Map.{values_of};
    ghost use Rattle.cc_entry.specs.declared.lock.Lock.{Lock};
    ghost use Rattle.cc_locks.specs.Place.{LocksAreIndexed};

    ghost Value = { List Lock };

    ghost view = { λ index. values_of index.ids.entries };

    ghost invariant = { λ index. LocksAreIndexed index.ids.entries index.places.entries index.used };
}

impl LockIndex {
    pub(crate) fn new(alloc: Global) -> LockIndex
        ensures { result ≡ [] }
    {
        LockIndex {
            ids: BTreeMap::new(alloc),
            places: BTreeMap::new(alloc),
            used: [false; 65],
        }
    }

    /// Adds a lock whose id is above all others. Answers `NoMemory`, and then nothing has changed.
    pub(crate) fn insert(&mut self, lock: Lock) -> Result<(), NoMemory>
        requires { All (λ l. l.id < lock.id) self.old }
        ensures ok { OnOk result (self.new ≡ self.old ++ lock ∷ []) }
        ensures err { OnErr result (self.new ≡ self.old) }
    {
        let place = place_of(&lock);
        self.used[class_of(lock.span) as usize] = true;
        self.places.insert(place, lock)?;
        match self.ids.insert(lock.id, lock) {
            Ok(_) => Ok(()),
            Err(_) => {
                let _ = self.places.remove(&place);
                Err(NoMemory)
            }
        }
    }

    /// Takes out the lock of this id where the file object owns it, and answers whether it does.
    pub(crate) fn remove(&mut self, file: FileId, id: u64) -> bool
        ensures owned { result ≡ list_any (is_named file id) self.old }
        ensures rest { self.new ≡ filter (λ l. not (is_named file id l)) self.old }
    {
        let Some(lock) = self.ids.get(&id).copied() else {
            return false;
        };
        if !lock.is_of(file) {
            return false;
        }
        let _ = self.ids.remove(&id);
        let _ = self.places.remove(&place_of(&lock));
        true
    }

    /// The least id of a lock that conflicts.
    pub(crate) fn least(&self, asked: &Asked) -> Option<u64>
        ensures { result ≡ least_lock_id (conflicts asked.now) self.now }
    {
        let mut found = None;
        let mut reach = 0u64;
        for class in 0..65u8 {
            found = lesser(found, self.least_of_class(class, reach, asked));
            reach = reach.saturating_mul(2).saturating_add(1);
        }
        found
    }

    // The least id of a lock of a class that conflicts. A lock that overlaps the span begins less than its own length
    // before it, so only those are looked at that begin so.
    fn least_of_class(&self, class: u8, reach: u64, asked: &Asked) -> Option<u64>
        requires within { class ≤ 64 }
        requires covers { CoversClass class reach }
        ensures { IsLeastOfClass asked.now self.now class result }
    {
        let used = self.used[class as usize];
        if !used {
            return None;
        }
        let span = asked.span();
        let low = span.from().saturating_sub(reach);
        least_between(&self.places, class, low, span.to(), asked)
    }
}

// The lesser of two ids, either of which may be missing.
fn lesser(a: Option<u64>, b: Option<u64>) -> Option<u64>
    ensures { result ≡ lesser_id a b }
{
    match (a, b) {
        (None, id) => id,
        (Some(id), None) => Some(id),
        (Some(id), Some(other)) => Some(id.min(other)),
    }
}
