//! Calls on devices, and what is made of chosen ones.

ghost use Rattle.std.specs.Prelude.{◌<◌};

use std::fmt;

/// A kind of call on a device.
#[derive(Clone, Copy, PartialEq, Eq)]
pub enum Kind {
    Read,
    Write,
    Sync,
    Append,
    Flush,
    /// The read of a log's entry.
    Entry,
    Take,
    Put,
}

impl Kind {
    /// The kinds of a disk's calls.
    pub const OF_DISK: [Kind; 3] = [Kind::Read, Kind::Write, Kind::Sync];

    /// The kinds of a log's calls.
    pub const OF_LOG: [Kind; 3] = [Kind::Append, Kind::Flush, Kind::Entry];

    /// The kind that a word names.
    pub fn named(word: &str) -> Option<Kind> {
        match word {
            "read" => Some(Kind::Read),
            "write" => Some(Kind::Write),
            "sync" => Some(Kind::Sync),
            "append" => Some(Kind::Append),
            "flush" => Some(Kind::Flush),
            "entry" => Some(Kind::Entry),
            "take" => Some(Kind::Take),
            "put" => Some(Kind::Put),
            _ => None,
        }
    }

    /// Where a device counts its calls of the kind.
    pub fn slot(self) -> usize
        ensures { result < 3 }
    {
        match self {
            Kind::Read | Kind::Append | Kind::Take | Kind::Put => 0,
            Kind::Write | Kind::Flush => 1,
            Kind::Sync | Kind::Entry => 2,
        }
    }
}

impl fmt::Display for Kind {
    fn fmt<W: fmt::Write>(&self, f: &mut fmt::Formatter<W>) -> fmt::Result {
        let name = match self {
            Kind::Read => "read",
            Kind::Write => "write",
            Kind::Sync => "sync",
            Kind::Append => "append",
            Kind::Flush => "flush",
            Kind::Entry => "entry",
            Kind::Take => "take",
            Kind::Put => "put",
        };
        write!(f, "{name}")
    }
}

/// What a case hands in, and may trouble. Disks and logs are numbered from 0.
#[derive(Clone, Copy, PartialEq, Eq)]
pub enum Device {
    Disk(usize),
    Log(usize),
    Source,
    Sink,
}

impl Device {
    /// Whether it has calls of a kind.
    pub fn has(self, kind: Kind) -> bool {
        match self {
            Device::Disk(_) => matches!(kind, Kind::Read | Kind::Write | Kind::Sync),
            Device::Log(_) => matches!(kind, Kind::Append | Kind::Flush | Kind::Entry),
            Device::Source => kind == Kind::Take,
            Device::Sink => kind == Kind::Put,
        }
    }

    /// Whether it is a disk or a log.
    pub fn is_stopped_with_others(self) -> bool {
        matches!(self, Device::Disk(_) | Device::Log(_))
    }
}

impl fmt::Display for Device {
    fn fmt<W: fmt::Write>(&self, f: &mut fmt::Formatter<W>) -> fmt::Result {
        match self {
            Device::Disk(number) => write!(f, "disk {number}"),
            Device::Log(number) => write!(f, "log {number}"),
            Device::Source => write!(f, "source"),
            Device::Sink => write!(f, "sink"),
        }
    }
}

/// A call on a device, counted from 1 among those of its kind.
#[derive(Clone, Copy, PartialEq, Eq)]
pub struct Place {
    pub device: Device,
    pub kind: Kind,
    pub number: u64,
}

impl Place {
    /// The number of a place that stands for each number.
    pub const ANY: u64 = 0;

    /// The next call of the kind.
    fn next(self) -> Place {
        Place {
            number: self.number.saturating_add(1),
            ..self
        }
    }

    /// Whether it is a call, or stands for each of its kind on its device.
    fn stands_for(self, call: Place) -> bool {
        let is_any = self.number == Place::ANY;
        let is_same_kind = self.device == call.device && self.kind == call.kind;
        self == call || is_any && is_same_kind
    }
}

impl fmt::Display for Place {
    fn fmt<W: fmt::Write>(&self, f: &mut fmt::Formatter<W>) -> fmt::Result {
        let Place {
            device,
            kind,
            number,
        } = self;
        write!(f, "{device} {kind} {number}")
    }
}

/// What becomes of a call.
#[derive(Clone, Copy, PartialEq, Eq)]
pub enum Fate {
    Good,
    Fails,
    NoMemory,
}

/// What is made of chosen calls.
#[derive(Clone, Copy, PartialEq, Eq)]
pub enum Trouble {
    /// The call fails.
    Fails(Place),
    /// The call finds no memory.
    NoMemory(Place),
    /// Each call on the device after so many fails.
    Stops(Device, u64),
    /// Each call on a disk or a log after so many on all of them fails.
    AllStop(u64),
}

impl Trouble {
    /// The same trouble at the next number.
    pub fn next(self) -> Trouble {
        match self {
            Trouble::Fails(place) => Trouble::Fails(place.next()),
            Trouble::NoMemory(place) => Trouble::NoMemory(place.next()),
            Trouble::Stops(device, after) => Trouble::Stops(device, after.saturating_add(1)),
            Trouble::AllStop(after) => Trouble::AllStop(after.saturating_add(1)),
        }
    }

    /// Whether it is a trouble, or stands for each of its kind.
    fn stands_for(self, other: Trouble) -> bool {
        match (self, other) {
            (Trouble::Fails(place), Trouble::Fails(call)) => place.stands_for(call),
            (Trouble::NoMemory(place), Trouble::NoMemory(call)) => place.stands_for(call),
            _ => self == other,
        }
    }

    /// What it makes of a call, the one of these numbers on its device and on all disks and logs.
    pub fn fate(self, place: Place, own: u64, all: u64) -> Fate {
        match self {
            Trouble::Fails(chosen) if chosen == place => Fate::Fails,
            Trouble::NoMemory(chosen) if chosen == place => Fate::NoMemory,
            Trouble::Stops(device, after) if device == place.device && after < own => Fate::Fails,
            Trouble::AllStop(after) if after < all && place.device.is_stopped_with_others() => {
                Fate::Fails
            }
            _ => Fate::Good,
        }
    }
}

impl fmt::Display for Trouble {
    fn fmt<W: fmt::Write>(&self, f: &mut fmt::Formatter<W>) -> fmt::Result {
        match self {
            Trouble::Fails(place) => write!(f, "{place} fails"),
            Trouble::NoMemory(place) => write!(f, "{place} finds no memory"),
            Trouble::Stops(device, after) => write!(f, "{device} stops after {after}"),
            Trouble::AllStop(after) => write!(f, "devices stop after {after}"),
        }
    }
}

/// The troubles of a run of a sweep: one, or two.
#[derive(Clone, Copy)]
pub struct Troubles {
    pub first: Trouble,
    pub second: Option<Trouble>,
}

impl Troubles {
    /// Whether these are others, or stand for each of their kind.
    pub fn stand_for(self, others: Troubles) -> bool {
        let is_second = match (self.second, others.second) {
            (Some(one), Some(other)) => one.stands_for(other),
            (None, None) => true,
            _ => false,
        };
        is_second && self.first.stands_for(others.first)
    }

    /// How many calls they make fail, where they stop none.
    pub fn failures(self) -> Option<u64> {
        match (self.first, self.second) {
            (Trouble::Fails(_), None) => Some(1),
            (Trouble::Fails(_), Some(Trouble::Fails(_))) => Some(2),
            (Trouble::NoMemory(_), None) => Some(0),
            _ => None,
        }
    }
}

impl fmt::Display for Troubles {
    fn fmt<W: fmt::Write>(&self, f: &mut fmt::Formatter<W>) -> fmt::Result {
        let first = self.first;
        match self.second {
            None => write!(f, "{first}"),
            Some(second) => write!(f, "{first} and {second}"),
        }
    }
}
