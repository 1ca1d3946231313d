//! What every hold tells of itself.

ghost use Rattle.std.specs.Prelude.{◌≡◌};
ghost use Rattle.cc_calls.specs.Held.{held_covers};
ghost use Rattle.cc_calls.specs.declared.held.Held.{Held};

use cc_entry::FileId;

/// A hold as its caller keeps it: the file object that it was made for, its id, and its range, in bytes.
#[derive(Clone, Copy)]
pub struct Held {
    pub file: FileId,
    pub id: u64,
    pub at: u64,
    pub len: u64,
}

impl Held {
    /// Whether so many bytes at a place lie in the hold.
    pub fn covers(&self, at: u64, len: u64) -> bool
        ensures { result ≡ held_covers self.now at len }
    {
        let end = u128::from(at) + u128::from(len);
        self.at <= at && end <= u128::from(self.at) + u128::from(self.len)
    }
}

/// A hold of a kind of its own: a map, a pin, a repin or a chain.
pub trait HoldHandle {
    // What it holds.
    ghost held: { Self → Held };

    /// What it holds.
    fn held(&self) -> Held
        ensures { result ≡ held self.now };

    /// The file object that it was made for.
    fn file(&self) -> FileId
        ensures { result ≡ (held self.now).file }
    {
        self.held().file
    }

    /// Its id in the journal.
    fn id(&self) -> u64
        ensures { result ≡ (held self.now).id }
    {
        self.held().id
    }

    /// Where its range begins, in bytes.
    fn at(&self) -> u64
        ensures { result ≡ (held self.now).at }
    {
        self.held().at
    }

    /// How many bytes its range has.
    fn len(&self) -> u64
        ensures { result ≡ (held self.now).len }
    {
        self.held().len
    }

    /// Whether so many bytes at a place lie in it.
    fn covers(&self, at: u64, len: u64) -> bool
        ensures { result ≡ held_covers (held self.now) at len }
    {
        self.held().covers(at, len)
    }
}
