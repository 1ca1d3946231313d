//! The queue of reads that wait for their pages, and the places of its passes.

ghost use Rattle.std.specs.Prelude.{◌≡◌, suc, length, IfOk, IfSome};
ghost use Rattle.cc_queue.specs.Places.{new_place, PushLeft, PopLeft};
ghost use Rattle.cc_async.specs.Reads.{HasNumber};

use cc_entry::{AsyncId, FileId, NoMemory};
use cc_queue::{Queue, QueuePlace};
use std::alloc::Global;
use std::marker::Model;
use std::sync::Wait;

/// A read that waits for its pages: `len` bytes from `at` on, under the number that its caller was answered.
#[derive(Clone, Copy)]
pub struct QueuedRead {
    pub id: AsyncId,
    pub file: FileId,
    pub at: u64,
    pub len: u64,
}

/// A queue of 64 reads, which threads share.
#[derive(Drop)]
pub struct AsyncQueue {
    queue: Queue<QueuedRead>,
}

impl Model for AsyncQueue {
    ghost use Rattle.atomic_table.specs.Seated.{TableId};

    // Which queue it is.
    ghost Value = { TableId };

    ghost view = { λ q. q.queue };
}

/// A pass's place at the queue. Its pass alone queues reads and completes them there.
#[derive(Drop)]
pub struct AsyncPass {
    place: QueuePlace<QueuedRead>,
    /// How many reads were queued here.
    queued: u64,
}

impl Model for AsyncPass {
    ghost use Rattle.std.specs.Prelude.{◌≡◌, length};
    ghost use Rattle.cc_queue.specs.Places.{PlaceState};
    ghost use Rattle.cc_async.specs.declared.queue.QueuedRead.{QueuedRead};

    ghost Value = { PlaceState QueuedRead };

    ghost view = { λ p. p.place };

    ghost invariant = { λ p. p.queued ≡ length p.place.pushed };
}

impl AsyncQueue {
    /// An empty queue, and its first place. Answers `NoMemory` where memory is wanting.
    pub fn new(alloc: Global) -> Result<(AsyncQueue, AsyncPass), NoMemory>
        ensures { IfOk result (λ made. made.1 ≡ new_place made.0) }
    {
        let (queue, place) = Queue::new(alloc)?;
        Ok((AsyncQueue { queue }, AsyncPass { place, queued: 0 }))
    }

    /// One place more. It takes no memory.
    pub fn split(&self, place: &mut AsyncPass) -> AsyncPass
        requires own { place.old.queue ≡ self.now }
        ensures same { place.new ≡ place.old }
        ensures made { result ≡ new_place self.now }
    {
        let place = self.queue.split(&mut place.place);
        AsyncPass { place, queued: 0 }
    }

    // Queues a read behind all others. Answers false only where the queue was full at one moment of the call.
    pub(crate) fn push<R: Wait>(&self, rt: &R, place: &mut AsyncPass, read: QueuedRead) -> bool
        requires own { place.old.queue ≡ self.now }
        requires more { HasNumber place.old }
        ensures left { PushLeft read result place.old place.new }
    {
        let pushed = self.queue.push(rt, &mut place.place, read);
        if pushed {
            place.queued += 1;
        }
        pushed
    }

    // Takes the first read. Answers none only where the queue was empty at one moment of the call.
    pub(crate) fn pop<R: Wait>(&self, rt: &R, place: &mut AsyncPass) -> Option<QueuedRead>
        requires own { place.old.queue ≡ self.now }
        ensures left { PopLeft result place.old place.new }
    {
        self.queue.pop(rt, &mut place.place)
    }
}

impl AsyncPass {
    /// How often the queue was found empty here.
    pub fn empties(&self) -> u64
        ensures { result ≡ self.now.empties }
    {
        self.place.empties()
    }

    /// How often it was found full.
    pub fn fulls(&self) -> u64
        ensures { result ≡ self.now.fulls }
    {
        self.place.fulls()
    }

    // The number of the next read that is queued here, but where all numbers were given.
    pub(crate) fn next_number(&self) -> Option<u64>
        ensures { IfSome result (λ n. (n ≡ suc (length self.now.pushed)) × HasNumber self.now) }
    {
        if self.queued < u64::MAX {
            Some(self.queued + 1)
        } else {
            None
        }
    }
}
