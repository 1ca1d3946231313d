//! A disk under its turn: of its faults, those before the take that no entry tells are not counted.

ghost use Rattle.std.specs.Prelude.{◌≡◌};
ghost use Rattle.cc_turns.specs.Standing.{Standing};
ghost use Rattle.cc_turns.specs.Held.{held_told, held_faults, untold_of_disk};

use cc_entry::StreamId;
use cc_traits::{PageDisk, Stop, Told};
use std::marker::Model;
use std::snapshot::Snapshot;

/// Whoever takes a turn, as what is taken keeps it for clauses alone.
pub trait AtTake {
    // What its pass knows.
    ghost knew: { Self → Standing };
}

/// A disk under its turn. Its faults are counted from the take on: before it, only those that an entry tells.
pub struct HeldDisk<D: Told, K: AtTake> {
    disk: D,
    stream: StreamId,
    /// The disk as it was taken.
    taken: Snapshot<D>,
    /// Who took it, with the turn.
    at_take: Snapshot<K>,
}

impl<D: Told, K: AtTake> Model for HeldDisk<D, K> {
    ghost use Rattle.std.specs.Prelude.{◌≤◌};
    ghost use Rattle.cc_turns.specs.Held.{HeldDevice, untold_of_disk};

    ghost Value = { HeldDevice D };

    ghost view = { λ h. record { device = h.disk; untold = untold_of_disk (K.knew h.at_take.value) h.stream (D.faults h.taken.value) } };

    ghost invariant = { λ h. untold_of_disk (K.knew h.at_take.value) h.stream (D.faults h.taken.value) ≤ D.faults h.disk };
}

impl<D: Told, K: AtTake> HeldDisk<D, K> {
    /// The disk of a stream, as a pass takes its turn.
    pub fn new(disk: D, stream: StreamId, at_take: Snapshot<K>) -> HeldDisk<D, K>
        ensures disk { result.device ≡ disk }
        ensures untold { result.untold ≡ untold_of_disk (K.knew at_take.value) stream (D.faults disk) }
    {
        let taken = Snapshot::of(&disk);
        HeldDisk {
            disk,
            stream,
            taken,
            at_take,
        }
    }

    /// The disk, as its turn is given.
    pub fn into_disk(self) -> D
        ensures { result ≡ self.device }
    {
        let HeldDisk {
            disk,
            stream: _,
            taken: _,
            at_take: _,
        } = self;
        disk
    }
}

impl<D: Told, K: AtTake> Told for HeldDisk<D, K> {
    ghost told = { held_told D.told };

    ghost faults = { held_faults D.faults };
}

impl<D: PageDisk, K: AtTake> PageDisk for HeldDisk<D, K> {
    fn read_page(&mut self, page: u64, out: &mut [u8; 4096]) -> Result<(), Stop> {
        self.disk.read_page(page, out)
    }

    fn write_page(&mut self, page: u64, bytes: &[u8; 4096]) -> Result<(), Stop> {
        self.disk.write_page(page, bytes)
    }

    fn sync(&mut self) -> Result<(), Stop> {
        self.disk.sync()
    }
}
