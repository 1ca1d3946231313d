//! The state of one stream: its objects, its sizes, its log, and its other settings.

ghost use Rattle.std.specs.Prelude.{◌≡◌, ℕ, not, List, [], ◌∷◌, length, slice_set};
ghost use Rattle.cc_entry.specs.declared.reply.Reply.{Reply};
ghost use Rattle.cc_model.specs.Numbers.{is_empty, is_among};
ghost use Rattle.cc_model.specs.History.{Effect, Did};
ghost use Rattle.cc_model.specs.Acts.{act_of};
ghost use Rattle.cc_model.specs.Objects.{objects, had_map};
ghost use Rattle.cc_model.specs.Touches.{size_of, is_mapped};
ghost use Rattle.cc_model.specs.Settings.{allocation_of, quota_of, is_temporary, log_of, has_no_read_ahead, has_no_write_behind, threshold_of};
ghost use Rattle.cc_events.specs.Events.{truncation_by};
ghost use Rattle.cc_stream.specs.Stream.{StreamStands, any_open, is_open_in, cut_of};
ghost use Rattle.cc_stream.specs.After.{after, ObjectIsNumbered};

use cc_entry::Call;
use std::marker::Model;

/// What is kept of one stream beside its pages and its holds.
#[derive(Clone, Copy)]
pub struct StreamState {
    opened: [bool; 16],
    had_map: bool,
    size: u64,
    allocation: u64,
    quota: u8,
    temporary: bool,
    log: Option<u8>,
    no_read_ahead: bool,
    no_write_behind: bool,
    threshold: u64,
}

impl Model for StreamState {
    ghost use Rattle.cc_stream.specs.Stream.{Stream};

    ghost Value = { Stream };

    ghost view = { λ s. record {
      opened = s.opened;
      had_map = s.had_map;
      size = s.size;
      allocation = s.allocation;
      quota = s.quota;
      temporary = s.temporary;
      log = s.log;
      no_read_ahead = s.no_read_ahead;
      no_write_behind = s.no_write_behind;
      threshold = s.threshold;
    } };

    ghost inverse = { λ s. record {
      opened = s.opened;
      had_map = s.had_map;
      size = s.size;
      allocation = s.allocation;
      quota = s.quota;
      temporary = s.temporary;
      log = s.log;
      no_read_ahead = s.no_read_ahead;
      no_write_behind = s.no_write_behind;
      threshold = s.threshold;
    } };
}

impl StreamState {
    /// A stream of which nothing happened yet.
    pub fn new() -> StreamState
        ensures stands { StreamStands [] result }
    {
        StreamState {
            opened: [false; 16],
            had_map: false,
            size: 0,
            allocation: 0,
            quota: 0,
            temporary: false,
            log: None,
            no_read_ahead: false,
            no_write_behind: false,
            threshold: 0,
        }
    }

    /// Follows a call on the stream that was done; `mapped` says whether there was a shared map before it.
    pub fn done(&mut self, call: &Call, mapped: bool)
        ensures stands { (h : List Effect) (pass : ℕ) (reply : Reply) →
            StreamStands h self.old → mapped ≡ is_mapped h →
            StreamStands (Did pass call.now reply ∷ h) self.new }
    {
        *self = self.after(call, mapped);
    }

    /// Whether an object has a private cache map (`CcInitializeCacheMap`); none past 15 has.
    pub fn is_open(&self, object: u8) -> bool
        ensures same { result ≡ is_open_in self.now.opened object }
        ensures stands { (h : List Effect) → StreamStands h self.now → result ≡ is_among object (objects h) }
    {
        self.opened
            .get(usize::from(object))
            .copied()
            .unwrap_or(false)
    }

    /// Whether any object has a private cache map.
    pub fn has_objects(&self) -> bool
        ensures same { result ≡ any_open self.now.opened }
        ensures stands { (h : List Effect) → StreamStands h self.now → result ≡ not (is_empty (objects h)) }
    {
        any_open(self.opened)
    }

    /// Whether the stream ever had a shared map.
    pub fn had_map(&self) -> bool
        ensures same { result ≡ self.now.had_map }
        ensures stands { (h : List Effect) → StreamStands h self.now → result ≡ had_map h }
    {
        self.had_map
    }

    /// The size in bytes (`CcSetFileSizes`), 0 before the first initialise.
    pub fn size(&self) -> u64
        ensures same { result ≡ self.now.size }
        ensures stands { (h : List Effect) → StreamStands h self.now → result ≡ size_of h }
    {
        self.size
    }

    /// The allocation in bytes (`CcSetFileSizes`), 0 before the first initialise.
    pub fn allocation(&self) -> u64
        ensures same { result ≡ self.now.allocation }
        ensures stands { (h : List Effect) → StreamStands h self.now → result ≡ allocation_of h }
    {
        self.allocation
    }

    /// How many view blocks may be mapped (`CcInitializeCacheMap`), 0 before the first initialise.
    pub fn quota(&self) -> u8
        ensures same { result ≡ self.now.quota }
        ensures stands { (h : List Effect) → StreamStands h self.now → result ≡ quota_of h }
    {
        self.quota
    }

    /// Whether the stream is marked as temporary (`CcInitializeCacheMap`).
    pub fn is_temporary(&self) -> bool
        ensures same { result ≡ self.now.temporary }
        ensures stands { (h : List Effect) → StreamStands h self.now → result ≡ is_temporary h }
    {
        self.temporary
    }

    /// The handle of the stream's log, where it has one (`CcSetLogHandleForFile`).
    pub fn log(&self) -> Option<u8>
        ensures same { result ≡ self.now.log }
        ensures stands { (h : List Effect) → StreamStands h self.now → result ≡ log_of h }
    {
        self.log
    }

    /// Whether read-ahead is off (`CcSetAdditionalCacheAttributes`).
    pub fn has_no_read_ahead(&self) -> bool
        ensures same { result ≡ self.now.no_read_ahead }
        ensures stands { (h : List Effect) → StreamStands h self.now → result ≡ has_no_read_ahead h }
    {
        self.no_read_ahead
    }

    /// Whether the lazy writer passes the stream over (`CcSetAdditionalCacheAttributes`).
    pub fn has_no_write_behind(&self) -> bool
        ensures same { result ≡ self.now.no_write_behind }
        ensures stands { (h : List Effect) → StreamStands h self.now → result ≡ has_no_write_behind h }
    {
        self.no_write_behind
    }

    /// The stream's own limit of dirty pages (`CcSetDirtyPageThreshold`); 0 is none.
    pub fn threshold(&self) -> u64
        ensures same { result ≡ self.now.threshold }
        ensures stands { (h : List Effect) → StreamStands h self.now → result ≡ threshold_of h }
    {
        self.threshold
    }

    /// The size in bytes that an uninitialise of the object sets (`CcUninitializeCacheMap`): its truncate,
    /// where the object is the last that is open and the truncate is below the size.
    pub fn truncation(&self, object: u8, truncate: Option<u64>) -> Option<u64>
        ensures { (h : List Effect) → StreamStands h self.now →
            result ≡ truncation_by object truncate (objects h) (size_of h) }
    {
        self.cut(object, truncate)
    }

    // What `truncation` answers, by the flags.
    fn cut(&self, object: u8, truncate: Option<u64>) -> Option<u64>
        ensures { result ≡ cut_of self.now object truncate }
    {
        let to = truncate?;
        let is_last = self.is_open(object) && !any_open(with_flag(self.opened, object, false));
        (is_last && to < self.size).then_some(to)
    }

    // The state after a call.
    fn after(self, call: &Call, mapped: bool) -> StreamState
        ensures after { result ≡ after call.now mapped self }
        ensures numbered { ObjectIsNumbered (act_of call.now) }
        ensures sixteen { length self.opened ≡ 16 }
    {
        match call {
            Call::Initialise {
                file,
                sizes,
                quota,
                temporary,
            } => {
                let joined = StreamState {
                    opened: with_flag(self.opened, file.object(), true),
                    had_map: true,
                    ..self
                };
                if mapped {
                    joined
                } else {
                    StreamState {
                        size: sizes.size,
                        allocation: sizes.allocation,
                        quota: quota.blocks(),
                        temporary: *temporary,
                        ..joined
                    }
                }
            }
            Call::Uninitialise { file, truncate } => StreamState {
                opened: with_flag(self.opened, file.object(), false),
                size: self.cut(file.object(), *truncate).unwrap_or(self.size),
                ..self
            },
            Call::SetSizes {
                allocation,
                size,
                ..
            } => StreamState {
                allocation: *allocation,
                size: *size,
                ..self
            },
            Call::SetLog { handle, .. } => StreamState {
                log: Some(*handle),
                ..self
            },
            Call::SetAttributes {
                no_read_ahead,
                no_write_behind,
                ..
            } => StreamState {
                no_read_ahead: *no_read_ahead,
                no_write_behind: *no_write_behind,
                ..self
            },
            Call::SetThreshold { pages, .. } => StreamState {
                threshold: u64::from(*pages),
                ..self
            },
            Call::CopyRead { .. }
            | Call::CopyWrite { .. }
            | Call::Zero { .. }
            | Call::Map { .. }
            | Call::PinRead { .. }
            | Call::PinMapped { .. }
            | Call::PreparePin { .. }
            | Call::MappedRead { .. }
            | Call::PinnedRead { .. }
            | Call::PinnedWrite { .. }
            | Call::SetDirty { .. }
            | Call::EndHold { .. }
            | Call::Repin { .. }
            | Call::MdlRead { .. }
            | Call::MdlWrite { .. }
            | Call::MdlBytes { .. }
            | Call::MdlStore { .. }
            | Call::NcRead { .. }
            | Call::NcStore { .. }
            | Call::NcWrite { .. }
            | Call::Flush { .. }
            | Call::Purge { .. }
            | Call::Discard { .. }
            | Call::SetGranularity { .. }
            | Call::AskAhead { .. }
            | Call::AheadStep { .. }
            | Call::Query(_) => self,
        }
    }
}

// Whether any object is open.
fn any_open(opened: [bool; 16]) -> bool
    ensures { result ≡ any_open opened }
{
    opened.iter().any(|open| *open)
}

// The flags with that of an object set; an object past 15 has none.
fn with_flag(mut opened: [bool; 16], object: u8, flag: bool) -> [bool; 16]
    ensures { result ≡ slice_set opened object flag }
{
    if object < 16 {
        opened[usize::from(object)] = flag;
    }
    opened
}
