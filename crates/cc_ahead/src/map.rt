//! What is kept of one object of a stream: its granularity, and the last two reads, by which a read-ahead follows or not.

ghost use Rattle.std.specs.Prelude.{◌≡◌, ◌+◌, ◌*◌, ◌^◌, ◌<◌};
ghost use Rattle.cc_model.specs.ReadAhead.{is_sequential, rounded_up};
ghost use Rattle.cc_ahead.specs.Kept.{unused};
ghost use Rattle.cc_ahead.specs.After.{without_reads, with_read, with_granularity};
ghost use Rattle.cc_ahead.specs.Request.{request_after};

use cc_entry::{FileId, Request};
use std::marker::Model;

/// The bytes that a copied read answered, one at least: from `from` up to, and without, `to`.
#[derive(Clone, Copy)]
pub(crate) struct KeptRead {
    from: u64,
    to: u128,
}

impl Model for KeptRead {
    ghost use Rattle.std.specs.Prelude.{◌<◌};
    ghost use Rattle.cc_entry.specs.Place.{Range};

    ghost Value = { Range };

    ghost view = { λ r. record { from = r.from; to = r.to } };

    ghost invariant = { λ r. r.from < r.to };

    ghost inverse = { λ r. record { from = r.from; to = r.to } };
}

impl KeptRead {
    /// A read of so many bytes from a place on.
    pub(crate) fn new(at: u64, len: u64) -> KeptRead
        requires { 0 < len }
        ensures { result ≡ record { from = at; to = at + len } }
    {
        KeptRead {
            from: at,
            to: u128::from(at) + u128::from(len),
        }
    }
}

/// The last reads of an object that are kept, two at most.
#[derive(Clone, Copy)]
pub(crate) enum LastReads {
    Empty,
    One(KeptRead),
    Two { newest: KeptRead, older: KeptRead },
}

/// The granularity of an object in bytes, and its last reads.
#[derive(Clone, Copy)]
pub(crate) struct PrivateMap {
    granularity: u64,
    reads: LastReads,
}

impl Model for PrivateMap {
    ghost use Rattle.cc_ahead.specs.Kept.{ObjectReads};

    ghost Value = { ObjectReads };

    ghost use Rattle.cc_ahead.specs.Reads.{reads_in, reads_as, reads_as-reads_in};
    ghost use Rattle.std.proofs.Common.{ap};

    ghost view = { λ m. record { granularity = m.granularity; reads = reads_in m.reads } };

    ghost inverse = { λ k. record { granularity = k.granularity; reads = reads_as k.reads } };

    ghost inverse_ok = { λ m h. ap (λ r. record m { reads = r }) (reads_as-reads_in m.reads) };
}

impl PrivateMap {
    /// An object of which nothing happened yet.
    pub(crate) fn new() -> PrivateMap
        ensures { result ≡ unused }
    {
        PrivateMap {
            granularity: 65536,
            reads: LastReads::Empty,
        }
    }

    pub(crate) fn granularity(&self) -> u64
        ensures { result ≡ self.now.granularity }
    {
        self.granularity
    }

    pub(crate) fn set_granularity(&mut self, bytes: u64)
        ensures { self.new ≡ with_granularity bytes self.old }
    {
        self.granularity = bytes;
    }

    pub(crate) fn forget_reads(&mut self)
        ensures { self.new ≡ without_reads self.old }
    {
        self.reads = LastReads::Empty;
    }

    /// Keeps a read of so many bytes from a place on, if it is one at least.
    pub(crate) fn keep(&mut self, at: u64, len: u64)
        ensures { self.new ≡ with_read at len self.old }
    {
        if len == 0 {
            return;
        }
        let newest = KeptRead::new(at, len);
        self.reads = match &self.reads {
            LastReads::Empty => LastReads::One(newest),
            LastReads::One(older) => LastReads::Two {
                newest,
                older: *older,
            },
            LastReads::Two { newest: older, .. } => LastReads::Two {
                newest,
                older: *older,
            },
        };
    }

    /// Whether the two kept reads lead up to a place: each ends where the next begins.
    pub(crate) fn is_sequential(&self, at: u64) -> bool
        ensures { result ≡ is_sequential at self.now.reads }
    {
        match &self.reads {
            LastReads::Two { newest, older } => {
                older.to == u128::from(newest.from) && newest.to == u128::from(at)
            }
            LastReads::Empty | LastReads::One(_) => false,
        }
    }

    /// The read-ahead that a read of `len` bytes at a place leads to, where it leads to one.
    pub(crate) fn request_after(
        &self,
        file: FileId,
        at: u64,
        len: u64,
        no_read_ahead: bool,
        size: u64,
    ) -> Option<Request>
        ensures { result ≡ request_after self.now file at len no_read_ahead size }
    {
        let start = next_granule(at, len, self.granularity);
        let leads = len > 0 && self.is_sequential(at) && !no_read_ahead && start < u128::from(size);
        if !leads {
            return None;
        }
        let end = u128::from(size).min(start + u128::from(self.granularity));
        Some(Request {
            file,
            at: start as u64,
            len: (end - start) as u64,
        })
    }
}

// The end of `len` bytes from `at` on, rounded up to a whole granule; 0 where a granule has no byte.
fn next_granule(at: u64, len: u64, granularity: u64) -> u128
    ensures same { result ≡ rounded_up (at + len) granularity }
    ensures within { result < 3 * 2 ^ 64 }
{
    let granule = u128::from(granularity);
    if granule == 0 {
        return 0;
    }
    let end = u128::from(at) + u128::from(len);
    (end + (granule - 1)) / granule * granule
}
