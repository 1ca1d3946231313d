//! What an entry does to the places of a stream's open holds.

ghost use Rattle.std.specs.Prelude.{◌≡◌};
ghost use Rattle.cc_model.specs.History.{effect_of};
ghost use Rattle.cc_model.specs.Holds.{id_of};
ghost use Rattle.cc_events.specs.Holdings.{holding_of_call, holding_of};

use cc_entry::{Call, Entry, Outcome, Reply, StreamId};

/// What an effect on a stream does to the places of its open holds.
#[derive(Clone, Copy)]
pub enum Holding {
    /// Nothing.
    Rests,
    /// A hold of this place is made.
    Makes { id: u64, at: u64, len: u64 },
    /// A hold of another one's place is made.
    Repins { id: u64, of: u64 },
    /// A hold ends.
    Ends { id: u64 },
}

/// The id in a reply, 0 where it has none.
pub fn id_in(reply: &Reply) -> u64
    ensures { result ≡ id_of reply.now }
{
    match reply {
        Reply::Hold(id) => *id,
        Reply::Unit
        | Reply::Read(_)
        | Reply::Value(_)
        | Reply::Rows(_)
        | Reply::Ahead(_)
        | Reply::Whole(_) => 0,
    }
}

/// What a done call whose reply has this id does to the places of open holds.
pub fn holding_by(call: &Call, id: u64) -> Holding
    ensures { result ≡ holding_of_call call.now id }
{
    match call {
        Call::Map { at, len, .. }
        | Call::PinRead { at, len, .. }
        | Call::PreparePin { at, len, .. }
        | Call::MdlRead { at, len, .. }
        | Call::MdlWrite { at, len, .. } => Holding::Makes {
            id,
            at: *at,
            len: *len,
        },
        Call::Repin { hold } => Holding::Repins { id, of: *hold },
        Call::EndHold { hold } => Holding::Ends { id: *hold },
        Call::Initialise { .. }
        | Call::Uninitialise { .. }
        | Call::CopyRead { .. }
        | Call::CopyWrite { .. }
        | Call::Zero { .. }
        | Call::PinMapped { .. }
        | Call::MappedRead { .. }
        | Call::PinnedRead { .. }
        | Call::PinnedWrite { .. }
        | Call::SetDirty { .. }
        | Call::MdlBytes { .. }
        | Call::MdlStore { .. }
        | Call::NcRead { .. }
        | Call::NcStore { .. }
        | Call::NcWrite { .. }
        | Call::SetSizes { .. }
        | Call::Flush { .. }
        | Call::Purge { .. }
        | Call::Discard { .. }
        | Call::SetLog { .. }
        | Call::SetGranularity { .. }
        | Call::SetAttributes { .. }
        | Call::SetThreshold { .. }
        | Call::AskAhead { .. }
        | Call::AheadStep { .. }
        | Call::Query(_) => Holding::Rests,
    }
}

/// What an entry does to the places of a stream's open holds.
pub fn holding_on(entry: &Entry, stream: StreamId) -> Holding
    ensures { result ≡ holding_of (effect_of entry.now stream) }
{
    match entry {
        Entry::Call {
            stream: Some(of),
            call,
            outcome: Outcome::Done(reply),
            ..
        } => {
            if of.number() == stream.number() {
                holding_by(call, id_in(reply))
            } else {
                Holding::Rests
            }
        }
        Entry::Call { .. }
        | Entry::PageIn { .. }
        | Entry::PageOut { .. }
        | Entry::FillFailed { .. }
        | Entry::WriteBegin { .. }
        | Entry::WriteEnd { .. }
        | Entry::Sync { .. }
        | Entry::Append { .. }
        | Entry::Flushed { .. }
        | Entry::LogFailed { .. }
        | Entry::Defer { .. }
        | Entry::Posted { .. }
        | Entry::Scan { .. }
        | Entry::Record { .. }
        | Entry::RecordFailed { .. }
        | Entry::Locked { .. }
        | Entry::Unlocked { .. }
        | Entry::Tested { .. } => Holding::Rests,
    }
}
