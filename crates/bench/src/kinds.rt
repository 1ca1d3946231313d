//! The kinds of calls that there are to measure.

ghost use Rattle.std.specs.Prelude.{◌<◌};

use cc_entry::Quota;

/// What is done once for each number.
#[derive(Clone, Copy)]
pub enum Act {
    Read,
    /// A read of a page of the next view block.
    Evict,
    /// A read that asks for read-ahead, with the step of the worker behind it.
    ReadAhead,
    Write,
    /// A write, and every sixteenth time a tick of the lazy writer behind it.
    Tick,
    /// So many writes, one behind the other, and a flush of the stream.
    Flush(u32),
    Map,
    Pin,
    /// A pin, a write through it, its set-dirty and its end.
    Change,
    NoncachedRead,
    NoncachedWrite,
    Mix,
}

/// The stream that calls are made on, and the disk below it.
#[derive(Clone, Copy, PartialEq)]
pub enum Bed {
    /// 1 MiB, all of it in memory.
    Resident,
    /// 16 MiB, with what was used last in memory, 2 MiB.
    Wide,
    /// 16 MiB, all of it in memory.
    Kept,
    /// 4 MiB, of which 2 MiB are in memory, over a disk of which each hundredth write fails.
    Mixed,
}

/// A kind of call.
pub struct Kind {
    pub name: &'static str,
    pub act: Act,
    /// How many bytes each read or write of it has.
    pub bytes: u32,
    pub bed: Bed,
}

impl Kind {
    /// How many bytes the stream has.
    pub fn size(&self) -> u32 {
        match self.bed {
            Bed::Resident => 1048576,
            Bed::Mixed => 4194304,
            _ => 16777216,
        }
    }

    /// How many view blocks the stream may have in memory, of 256 KiB each.
    pub fn quota(&self) -> Quota {
        let blocks = if self.bed == Bed::Kept { 64 } else { 8 };
        Quota::new(blocks).unwrap()
    }

    /// Of how many writes to the disk one fails; 0 where none does.
    pub fn fails(&self) -> u64 {
        if self.bed == Bed::Mixed { 100 } else { 0 }
    }

    /// How often it is made where no number says so.
    pub fn few(&self) -> u64 {
        match self.bed {
            Bed::Kept => 2,
            Bed::Mixed => 1000,
            _ => 64,
        }
    }

    /// How many bytes are moved each time.
    pub fn moves(&self) -> u64 {
        match self.act {
            Act::Flush(pieces) => u64::from(pieces) * u64::from(self.bytes),
            _ => u64::from(self.bytes),
        }
    }

    /// Where the call with a number has its place: behind the one before, and at the front again where the stream ends.
    pub fn place(&self, number: u64) -> u64 {
        let stride = match self.act {
            Act::Evict => 262144,
            _ => self.bytes.max(4096),
        };
        let places = (self.size() / stride).max(1);
        number % u64::from(places) * u64::from(stride)
    }
}

/// All of them.
pub const KINDS: [Kind; 21] = [
    Kind {
        name: "read-48",
        act: Act::Read,
        bytes: 48,
        bed: Bed::Resident,
    },
    Kind {
        name: "read-4k",
        act: Act::Read,
        bytes: 4096,
        bed: Bed::Resident,
    },
    Kind {
        name: "read-64k",
        act: Act::Read,
        bytes: 65536,
        bed: Bed::Resident,
    },
    Kind {
        name: "write-48",
        act: Act::Write,
        bytes: 48,
        bed: Bed::Resident,
    },
    Kind {
        name: "write-4k",
        act: Act::Write,
        bytes: 4096,
        bed: Bed::Resident,
    },
    Kind {
        name: "write-64k",
        act: Act::Write,
        bytes: 65536,
        bed: Bed::Resident,
    },
    Kind {
        name: "write-1m",
        act: Act::Write,
        bytes: 1048576,
        bed: Bed::Resident,
    },
    Kind {
        name: "map-48",
        act: Act::Map,
        bytes: 48,
        bed: Bed::Resident,
    },
    Kind {
        name: "map-4k",
        act: Act::Map,
        bytes: 4096,
        bed: Bed::Resident,
    },
    Kind {
        name: "pin-4k",
        act: Act::Pin,
        bytes: 4096,
        bed: Bed::Resident,
    },
    Kind {
        name: "change-48",
        act: Act::Change,
        bytes: 48,
        bed: Bed::Resident,
    },
    Kind {
        name: "miss-4k",
        act: Act::Read,
        bytes: 4096,
        bed: Bed::Wide,
    },
    Kind {
        name: "evict-4k",
        act: Act::Evict,
        bytes: 4096,
        bed: Bed::Wide,
    },
    Kind {
        name: "ahead-4k",
        act: Act::ReadAhead,
        bytes: 4096,
        bed: Bed::Wide,
    },
    Kind {
        name: "flush-1",
        act: Act::Flush(1),
        bytes: 4096,
        bed: Bed::Kept,
    },
    Kind {
        name: "flush-64",
        act: Act::Flush(1),
        bytes: 262144,
        bed: Bed::Kept,
    },
    Kind {
        name: "flush-4096",
        act: Act::Flush(16),
        bytes: 1048576,
        bed: Bed::Kept,
    },
    Kind {
        name: "noncached-read-4k",
        act: Act::NoncachedRead,
        bytes: 4096,
        bed: Bed::Resident,
    },
    Kind {
        name: "noncached-write-4k",
        act: Act::NoncachedWrite,
        bytes: 4096,
        bed: Bed::Resident,
    },
    Kind {
        name: "tick-4k",
        act: Act::Tick,
        bytes: 4096,
        bed: Bed::Resident,
    },
    Kind {
        name: "steady",
        act: Act::Mix,
        bytes: 4096,
        bed: Bed::Mixed,
    },
];
