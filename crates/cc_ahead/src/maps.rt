//! The private maps of a stream's objects.

ghost use Rattle.std.specs.Prelude.{◌≡◌, ℕ, ◌<◌, List, [], ◌∷◌};
ghost use Rattle.cc_model.specs.History.{Effect, Did};
ghost use Rattle.cc_model.specs.Objects.{objects};
ghost use Rattle.cc_model.specs.Touches.{size_of};
ghost use Rattle.cc_model.specs.Settings.{granularity_of, has_no_read_ahead};
ghost use Rattle.cc_model.specs.ReadAhead.{reads_of, is_sequential, ahead_of};
ghost use Rattle.cc_ahead.specs.Kept.{kept_of, PrivateStands};
ghost use Rattle.cc_ahead.specs.After.{kept_after, SaysOpen};
ghost use Rattle.cc_ahead.specs.Request.{request_after};

use crate::map::PrivateMap;
use cc_entry::{Call, FileId, Reply, Request};
use std::marker::Model;

/// The private maps of a stream's sixteen objects.
#[derive(Drop)]
pub struct PrivateMaps {
    maps: [PrivateMap; 16],
}

impl Model for PrivateMaps {
    ghost use Rattle.std.specs.Prelude.{◌≡◌, List, length};
    ghost use Rattle.cc_ahead.specs.Kept.{ObjectReads};

    ghost Value = { List ObjectReads };

    ghost view = { λ m. m.maps };

    ghost invariant = { λ m. length m.maps ≡ 16 };
}

impl PrivateMaps {
    /// The maps of a stream of which nothing happened yet.
    pub fn new() -> PrivateMaps
        ensures stands { PrivateStands [] result }
    {
        PrivateMaps {
            maps: [PrivateMap::new(); 16],
        }
    }

    /// The read-ahead granularity of an object in bytes (`CcSetReadAheadGranularity`): 65536 where none was
    /// set, and past object 15.
    pub fn granularity(&self, object: u8) -> u64
        ensures same { result ≡ (kept_of self.now object).granularity }
        ensures stands { (h : List Effect) → PrivateStands h self.now → object < 16 →
            result ≡ granularity_of object h }
    {
        self.map(object).granularity()
    }

    /// Whether the last two copied reads of an object lead up to a place: each ends where the next begins.
    pub fn is_sequential(&self, object: u8, at: u64) -> bool
        ensures same { result ≡ is_sequential at (kept_of self.now object).reads }
        ensures stands { (h : List Effect) → PrivateStands h self.now → object < 16 →
            result ≡ is_sequential at (reads_of object h) }
    {
        self.map(object).is_sequential(at)
    }

    /// Follows a call on the stream that was done; `was_open` says whether the object that an initialise
    /// names had a private map before it.
    pub fn done(&mut self, call: &Call, reply: &Reply, was_open: bool)
        ensures stands { (h : List Effect) (pass : ℕ) →
            PrivateStands h self.old → SaysOpen was_open call.now (objects h) →
            PrivateStands (Did pass call.now reply.now ∷ h) self.new }
    {
        follow(&mut self.maps, call, reply, was_open);
    }

    /// The read-ahead that a read of `len` bytes at a place leads to (`CcScheduleReadAhead`), where it leads
    /// to one: the granule that begins at its end, rounded up to a whole granule, cut at the size.
    pub fn ahead_of(
        &self,
        file: FileId,
        at: u64,
        len: u64,
        no_read_ahead: bool,
        size: u64,
    ) -> Option<Request>
        ensures same { result ≡ request_after (kept_of self.now file.object) file at len no_read_ahead size }
        ensures stands { (h : List Effect) → PrivateStands h self.now →
            no_read_ahead ≡ has_no_read_ahead h → size ≡ size_of h → result ≡ ahead_of h file at len }
    {
        let map = self.map(file.object());
        map.request_after(file, at, len, no_read_ahead, size)
    }

    // What is kept of an object, past 15 as of one of which nothing happened.
    fn map(&self, object: u8) -> PrivateMap
        ensures { result ≡ kept_of self.now object }
    {
        self.maps
            .get(usize::from(object))
            .copied()
            .unwrap_or(PrivateMap::new())
    }
}

// Follows a call that was done.
fn follow(maps: &mut [PrivateMap; 16], call: &Call, reply: &Reply, was_open: bool)
    ensures { maps.new ≡ kept_after call.now reply.now was_open maps.old }
{
    match call {
        Call::Initialise { file, .. } => {
            if !was_open {
                maps[usize::from(file.object())].forget_reads();
            }
        }
        Call::Uninitialise { file, .. } => maps[usize::from(file.object())].forget_reads(),
        Call::CopyRead { file, at, .. } => {
            if let Reply::Read(bytes) = reply {
                maps[usize::from(file.object())].keep(*at, bytes.len());
            }
        }
        Call::SetGranularity { file, bytes } => {
            maps[usize::from(file.object())].set_granularity(*bytes);
        }
        Call::CopyWrite { .. }
        | Call::Zero { .. }
        | Call::Map { .. }
        | Call::PinRead { .. }
        | Call::PinMapped { .. }
        | Call::PreparePin { .. }
        | Call::MappedRead { .. }
        | Call::PinnedRead { .. }
        | Call::PinnedWrite { .. }
        | Call::SetDirty { .. }
        | Call::EndHold { .. }
        | Call::Repin { .. }
        | Call::MdlRead { .. }
        | Call::MdlWrite { .. }
        | Call::MdlBytes { .. }
        | Call::MdlStore { .. }
        | Call::NcRead { .. }
        | Call::NcStore { .. }
        | Call::NcWrite { .. }
        | Call::SetSizes { .. }
        | Call::Flush { .. }
        | Call::Purge { .. }
        | Call::Discard { .. }
        | Call::SetLog { .. }
        | Call::SetAttributes { .. }
        | Call::SetThreshold { .. }
        | Call::AskAhead { .. }
        | Call::AheadStep { .. }
        | Call::Query(_) => {}
    }
}
