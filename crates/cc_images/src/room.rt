//! Room for the pages of a map that may have grown.

ghost use Rattle.std.specs.Prelude.{◌*◌, ◌≤◌, IfOk};

use cc_entry::{NoMemory, Quota};
use std::alloc::Global;
use std::collections::VecDeque;
use std::marker::Model;

/// Room for the pages of a map that may have grown, taken before the map is made.
#[derive(Drop)]
pub struct Room {
    pub(crate) bytes: VecDeque<u64>,
}

impl Model for Room {
    ghost use Rattle.std.specs.Prelude.{◌≡◌, ℕ, []};
    ghost use Rattle.std.specs.VecDeque.{deque_capacity};

    ghost Value = { ℕ };

    ghost view = { λ r. deque_capacity r.bytes };

    ghost invariant = { λ r. r.bytes.items ≡ [] };
}

impl Room {
    /// Room for all pages of a quota. Answers `NoMemory` where memory is wanting.
    pub fn new(alloc: Global, quota: Quota) -> Result<Room, NoMemory>
        ensures { IfOk result (λ room. 64 * quota ≤ room) }
    {
        let pages = 64 * quota.blocks() as usize;
        let bytes = VecDeque::with_capacity(alloc, pages)?;
        Ok(Room { bytes })
    }
}
