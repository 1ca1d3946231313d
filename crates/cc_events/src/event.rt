//! What an entry does to the sizes and the pages of a stream, without the bytes.

ghost use Rattle.std.specs.Prelude.{◌≡◌, ◌+◌, ◌≤◌, ◌^◌};
ghost use Rattle.cc_model.specs.Acts.{act_of};
ghost use Rattle.cc_events.specs.Events.{event_of_act, event_on, end_of_event};
ghost use Rattle.cc_model.specs.Sizes.{ended_ok};

use cc_entry::{Call, End, Entry, Lsn, Outcome, Span, StreamId};

/// What an effect on a stream does to its sizes and its dirty and resident pages.
#[derive(Clone, Copy)]
pub enum StreamEvent {
    /// Nothing.
    Rests,
    /// A private cache map is made, and the shared one with these sizes where there is none.
    Opens { object: u8, size: u64, valid: u64 },
    /// A private cache map goes.
    Closes { object: u8, truncate: Option<u64> },
    /// The size is set.
    Resizes { size: u64 },
    /// The bytes from `from` up to, and without, `to` change.
    Changes { from: u128, to: u128 },
    /// A noncached page comes into the cache.
    Stores { page: u64 },
    /// The pages of a pin are made dirty.
    Stamps { hold: u64, lsn: Option<Lsn> },
    /// The pages of the span go unwritten, all of them where there is none.
    Discards { span: Option<Span> },
    /// A page becomes resident.
    CameIn { page: u64 },
    /// A page stops being resident.
    WentOut { page: u64 },
    /// A page's transfer to the disk begins.
    Began { page: u64 },
    /// That transfer ended ok, or not.
    Ended { page: u64, ok: bool },
}

/// What a call does once it is done.
pub fn act(call: &Call) -> StreamEvent
    ensures what { result ≡ event_of_act (act_of call.now) }
    ensures within { end_of_event result ≤ 2 ^ 65 }
{
    match call {
        Call::Initialise { file, sizes, .. } => StreamEvent::Opens {
            object: file.object(),
            size: sizes.size,
            valid: sizes.valid,
        },
        Call::Uninitialise { file, truncate } => StreamEvent::Closes {
            object: file.object(),
            truncate: *truncate,
        },
        Call::CopyWrite { at, bytes, .. } => changes(*at, bytes.len()),
        Call::Zero { span, .. } => StreamEvent::Changes {
            from: u128::from(span.from()),
            to: u128::from(span.to()),
        },
        Call::PreparePin {
            at,
            len,
            zero: true,
            ..
        } => changes(*at, *len),
        Call::PinnedWrite { at, bytes, .. } => changes(*at, bytes.len()),
        Call::SetDirty { hold, lsn } => StreamEvent::Stamps {
            hold: *hold,
            lsn: *lsn,
        },
        Call::MdlStore { at, bytes, .. } => changes(*at, bytes.len()),
        Call::NcStore { page, .. } => StreamEvent::Stores { page: *page },
        Call::SetSizes { size, .. } => StreamEvent::Resizes { size: *size },
        Call::Discard { span, .. } => StreamEvent::Discards { span: *span },
        Call::CopyRead { .. }
        | Call::Map { .. }
        | Call::PinRead { .. }
        | Call::PinMapped { .. }
        | Call::PreparePin { zero: false, .. }
        | Call::MappedRead { .. }
        | Call::PinnedRead { .. }
        | Call::EndHold { .. }
        | Call::Repin { .. }
        | Call::MdlRead { .. }
        | Call::MdlWrite { .. }
        | Call::MdlBytes { .. }
        | Call::NcRead { .. }
        | Call::NcWrite { .. }
        | Call::Flush { .. }
        | Call::Purge { .. }
        | Call::SetLog { .. }
        | Call::SetGranularity { .. }
        | Call::SetAttributes { .. }
        | Call::SetThreshold { .. }
        | Call::AskAhead { .. }
        | Call::AheadStep { .. }
        | Call::Query(_) => StreamEvent::Rests,
    }
}

// A change of `len` bytes from `at` on.
fn changes(at: u64, len: u64) -> StreamEvent
    ensures what { result ≡ StreamEvent.Changes at (at + len) }
    ensures within { end_of_event result ≤ 2 ^ 65 }
{
    StreamEvent::Changes {
        from: u128::from(at),
        to: u128::from(at) + u128::from(len),
    }
}

/// What an entry does to a stream.
pub fn event_on(entry: &Entry, stream: StreamId) -> StreamEvent
    ensures what { result ≡ event_on entry.now stream }
    ensures within { end_of_event result ≤ 2 ^ 65 }
{
    match entry {
        Entry::Call {
            stream: Some(of),
            call,
            outcome: Outcome::Done(_),
            ..
        } => {
            if of.number() == stream.number() {
                act(call)
            } else {
                StreamEvent::Rests
            }
        }
        Entry::PageIn { page, .. } => {
            if page.stream().number() == stream.number() {
                StreamEvent::CameIn { page: page.page() }
            } else {
                StreamEvent::Rests
            }
        }
        Entry::PageOut { page, .. } => {
            if page.stream().number() == stream.number() {
                StreamEvent::WentOut { page: page.page() }
            } else {
                StreamEvent::Rests
            }
        }
        Entry::WriteBegin { page, .. } => {
            if page.stream().number() == stream.number() {
                StreamEvent::Began { page: page.page() }
            } else {
                StreamEvent::Rests
            }
        }
        Entry::WriteEnd { page, how, .. } => {
            if page.stream().number() == stream.number() {
                StreamEvent::Ended {
                    page: page.page(),
                    ok: is_ok(*how),
                }
            } else {
                StreamEvent::Rests
            }
        }
        Entry::Call { .. }
        | Entry::FillFailed { .. }
        | Entry::Sync { .. }
        | Entry::Append { .. }
        | Entry::Flushed { .. }
        | Entry::LogFailed { .. }
        | Entry::Defer { .. }
        | Entry::Posted { .. }
        | Entry::Scan { .. }
        | Entry::Record { .. }
        | Entry::RecordFailed { .. }
        | Entry::Locked { .. }
        | Entry::Unlocked { .. }
        | Entry::Tested { .. } => StreamEvent::Rests,
    }
}

// Whether a transfer ended ok.
fn is_ok(how: End) -> bool
    ensures { result ≡ ended_ok how }
{
    match how {
        End::Good => true,
        End::Failed | End::NoMemory => false,
    }
}
