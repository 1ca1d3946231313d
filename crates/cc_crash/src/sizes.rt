//! The sizes of a stream, and its valid data length.

ghost use Rattle.std.specs.Prelude.{◌≡◌, ◌+◌, IfOk, length, vec_len};
ghost use Rattle.cc_model.specs.Touches.{valid_of};
ghost use Rattle.cc_crash.specs.Effects.{effects, AreSizesOverJournal};
ghost use Rattle.cc_events.specs.Events.{event_on, size_after, valid_after};

use crate::dirty::has_map;
use crate::touches::truncation_at;
use cc_entry::{Entry, NoMemory, StreamId};
use cc_events::{StreamEvent, event_on, stored_end};
use std::alloc::Global;

/// The size before each entry of a journal, and after the last one.
pub(crate) fn sizes(
    alloc: Global,
    journal: &[Entry],
    stream: StreamId,
) -> Result<Vec<u64>, NoMemory>
    ensures each { IfOk result (λ found. AreSizesOverJournal found.items journal.now stream) }
    ensures count { IfOk result (λ found. length found.items ≡ length journal.now + 1) }
{
    let mut found = Vec::new(alloc);
    found.push(0)?;
    for (i, entry) in journal.iter().enumerate() {
        let size = size_then(alloc, entry, &journal[..i], &found, stream)?;
        found.push(size)?;
    }
    Ok(found)
}

// The size after an entry, given the entries before it.
fn size_then(
    alloc: Global,
    last: &Entry,
    rest: &[Entry],
    sizes: &[u64],
    stream: StreamId,
) -> Result<u64, NoMemory>
    requires { AreSizesOverJournal sizes.now rest.now stream }
    ensures { IfOk result (λ size. size ≡ size_after (event_on last.now stream) (effects rest.now stream)) }
{
    let size = sizes[rest.len()];
    match event_on(last, stream) {
        StreamEvent::Opens { size: given, .. } => {
            if has_map(alloc, rest, sizes, stream)? {
                Ok(size)
            } else {
                Ok(given)
            }
        }
        StreamEvent::Closes { object, truncate } => {
            match truncation_at(alloc, rest, stream, size, object, truncate)? {
                Some(to) => Ok(to),
                None => Ok(size),
            }
        }
        StreamEvent::Resizes { size: to } => Ok(to),
        StreamEvent::Rests
        | StreamEvent::Changes { .. }
        | StreamEvent::Stores { .. }
        | StreamEvent::Stamps { .. }
        | StreamEvent::Discards { .. }
        | StreamEvent::CameIn { .. }
        | StreamEvent::WentOut { .. }
        | StreamEvent::Began { .. }
        | StreamEvent::Ended { .. } => Ok(size),
    }
}

/// The valid data length of a stream, given its sizes. In a journal that is not good it may be past 2^64.
pub(crate) fn valid_with(
    alloc: Global,
    journal: &[Entry],
    sizes: &[u64],
    stream: StreamId,
) -> Result<u128, NoMemory>
    requires { AreSizesOverJournal sizes.now journal.now stream }
    ensures { IfOk result (λ valid. valid ≡ valid_of (effects journal.now stream)) }
{
    let mut valid = 0;
    for (i, entry) in journal.iter().enumerate() {
        valid = valid_then(alloc, entry, &journal[..i], sizes, valid, stream)?;
    }
    Ok(valid)
}

// The valid data length after an entry, given the entries before it.
fn valid_then(
    alloc: Global,
    last: &Entry,
    rest: &[Entry],
    sizes: &[u64],
    before: u128,
    stream: StreamId,
) -> Result<u128, NoMemory>
    requires sizes { AreSizesOverJournal sizes.now rest.now stream }
    requires before { before ≡ valid_of (effects rest.now stream) }
    ensures { IfOk result (λ valid. valid ≡ valid_after (event_on last.now stream) (effects rest.now stream)) }
{
    let size = sizes[rest.len()];
    match event_on(last, stream) {
        StreamEvent::Opens { valid: given, .. } => {
            if has_map(alloc, rest, sizes, stream)? {
                Ok(before)
            } else {
                Ok(u128::from(given))
            }
        }
        StreamEvent::Closes { object, truncate } => {
            match truncation_at(alloc, rest, stream, size, object, truncate)? {
                Some(to) => Ok(before.min(u128::from(to))),
                None => Ok(before),
            }
        }
        StreamEvent::Resizes { size: to } => Ok(before.min(u128::from(to))),
        StreamEvent::Changes { to, .. } => Ok(before.max(to)),
        StreamEvent::Stores { page } => Ok(before.max(stored_end(page, size))),
        StreamEvent::Rests
        | StreamEvent::Stamps { .. }
        | StreamEvent::Discards { .. }
        | StreamEvent::CameIn { .. }
        | StreamEvent::WentOut { .. }
        | StreamEvent::Began { .. }
        | StreamEvent::Ended { .. } => Ok(before),
    }
}
