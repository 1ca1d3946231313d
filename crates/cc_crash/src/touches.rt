//! What an entry does to the unwritten touches of a page.

ghost use Rattle.std.specs.Prelude.{◌≡◌, IfOk};
ghost use Rattle.cc_model.specs.Objects.{objects};
ghost use Rattle.cc_model.specs.Ranges.{span_has};
ghost use Rattle.cc_entry.specs.Pages.{has_page};
ghost use Rattle.cc_model.specs.Sizes.{stored_range};
ghost use Rattle.cc_model.specs.Touches.{size_of};
ghost use Rattle.cc_crash.specs.Effects.{effects};
ghost use Rattle.cc_events.specs.Events.{event_on, truncation_by};
ghost use Rattle.cc_events.specs.Touchings.{cut_by, touch_if, touching_of};

use crate::maps::{hold_place, open_objects, others};
use cc_entry::{Entry, Lsn, NoMemory, StreamId};
use cc_events::{StreamEvent, Touching, cut_at, event_on, range_has, span_has, stored_end, touch};
use std::alloc::Global;

/// What an entry does to the touches of a page, given the entries before it and the size before it.
pub(crate) fn touching_by(
    alloc: Global,
    last: &Entry,
    rest: &[Entry],
    size: u64,
    stream: StreamId,
    page: u128,
) -> Result<Touching, NoMemory>
    requires { size ≡ size_of (effects rest.now stream) }
    ensures { IfOk result (λ what. what ≡ touching_of (event_on last.now stream) (effects rest.now stream) page) }
{
    match event_on(last, stream) {
        StreamEvent::Closes { object, truncate } => {
            let to = truncation_at(alloc, rest, stream, size, object, truncate)?;
            Ok(cut_at(to, page))
        }
        StreamEvent::Resizes { size } => Ok(cut_at(Some(size), page)),
        StreamEvent::Changes { from, to } => Ok(touch(range_has(from, to, page), None)),
        StreamEvent::Stores { page: stored } => {
            let from = 4096 * u128::from(stored);
            Ok(touch(range_has(from, stored_end(stored, size), page), None))
        }
        StreamEvent::Stamps { hold, lsn } => Ok(stamp(rest, stream, hold, lsn, page)),
        StreamEvent::Discards { span } => {
            if span_has(span, page) {
                Ok(Touching::Cuts)
            } else {
                Ok(Touching::Rests)
            }
        }
        StreamEvent::Began { page: begun } => {
            if u128::from(begun) == page {
                Ok(Touching::Begins)
            } else {
                Ok(Touching::Rests)
            }
        }
        StreamEvent::Ended { page: ended, ok } => {
            if u128::from(ended) == page && ok {
                Ok(Touching::Ends)
            } else {
                Ok(Touching::Rests)
            }
        }
        StreamEvent::Rests
        | StreamEvent::Opens { .. }
        | StreamEvent::CameIn { .. }
        | StreamEvent::WentOut { .. } => { Ok(Touching::Rests) }
    }
}

// What a set-dirty of a hold does to a page.
fn stamp(rest: &[Entry], stream: StreamId, hold: u64, lsn: Option<Lsn>, page: u128) -> Touching
    ensures { result ≡ touching_of (StreamEvent.Stamps hold lsn) (effects rest.now stream) page }
{
    match hold_place(rest, stream, hold) {
        Some((at, len)) => {
            let from = u128::from(at);
            touch(range_has(from, from + u128::from(len), page), lsn)
        }
        None => Touching::Rests,
    }
}

/// The size that an uninitialise of the object sets, where it sets one.
pub(crate) fn truncation_at(
    alloc: Global,
    rest: &[Entry],
    stream: StreamId,
    size: u64,
    object: u8,
    truncate: Option<u64>,
) -> Result<Option<u64>, NoMemory>
    ensures { IfOk result (λ to. to ≡ truncation_by object truncate (objects (effects rest.now stream)) size) }
{
    let Some(to) = truncate else {
        return Ok(None);
    };
    let found = open_objects(alloc, rest, stream)?;
    if !found.contains(&object) {
        return Ok(None);
    }
    let left = others(alloc, &found, object)?;
    if left.len() > 0 {
        return Ok(None);
    }
    if to < size { Ok(Some(to)) } else { Ok(None) }
}
