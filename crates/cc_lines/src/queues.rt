//! The queues that the callers of a run share, and a caller's places at them.

ghost use Rattle.std.specs.Prelude.{◌≡◌, IfOk};
ghost use Rattle.cc_lines.specs.Queues.{new_places, queues_of};

use cc_async::{AsyncPass, AsyncQueue};
use cc_entry::{NoMemory, Request};
use cc_queue::{Queue, QueuePlace};
use std::alloc::Global;

/// The queue of read-ahead, and that of copied reads.
#[derive(Drop)]
pub struct Queues {
    pub ahead: Queue<Request>,
    pub copies: AsyncQueue,
}

/// A caller's place at each of the two.
#[derive(Drop)]
pub struct Places {
    pub ahead: QueuePlace<Request>,
    pub copies: AsyncPass,
}

impl Queues {
    /// Empty queues, and the first place at each. Answers `NoMemory` where memory is wanting.
    pub fn new(alloc: Global) -> Result<(Queues, Places), NoMemory>
        ensures { IfOk result (λ made. made.1 ≡ new_places made.0) }
    {
        let (ahead, ahead_place) = Queue::new(alloc)?;
        let (copies, copies_place) = AsyncQueue::new(alloc)?;
        let places = Places {
            ahead: ahead_place,
            copies: copies_place,
        };
        Ok((Queues { ahead, copies }, places))
    }

    /// One place more at each. It takes no memory.
    pub fn split(&self, places: &mut Places) -> Places
        requires own { queues_of places.old ≡ self.now }
        ensures same { places.new ≡ places.old }
        ensures made { result ≡ new_places self.now }
    {
        Places {
            ahead: self.ahead.split(&mut places.ahead),
            copies: self.copies.split(&mut places.copies),
        }
    }
}
