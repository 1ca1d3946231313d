//! The file objects of a stream, and the places of its holds.

ghost use Rattle.std.specs.Prelude.{◌≡◌, IfOk};
ghost use Rattle.cc_model.specs.Numbers.{without};
ghost use Rattle.cc_model.specs.Objects.{objects};
ghost use Rattle.cc_model.specs.Holds.{holds_of};
ghost use Rattle.cc_crash.specs.Effects.{effects};
ghost use Rattle.cc_events.specs.Events.{objects_after};
ghost use Rattle.cc_events.specs.Holdings.{place_in};

use cc_entry::{Entry, NoMemory, StreamId};
use cc_events::{Holding, StreamEvent, event_on, holding_on};
use std::alloc::Global;

/// The file objects that have a private cache map, the newest first.
pub(crate) fn open_objects(
    alloc: Global,
    journal: &[Entry],
    stream: StreamId,
) -> Result<Vec<u8>, NoMemory>
    ensures { IfOk result (λ found. found.items ≡ objects (effects journal.now stream)) }
{
    let mut open = Vec::new(alloc);
    for entry in journal {
        open = objects_then(alloc, open, event_on(entry, stream))?;
    }
    Ok(open)
}

// The objects after an event.
fn objects_then(alloc: Global, before: Vec<u8>, event: StreamEvent) -> Result<Vec<u8>, NoMemory>
    ensures { IfOk result (λ then. then.items ≡ objects_after event before.items) }
{
    match event {
        StreamEvent::Opens { object, .. } => {
            let mut then = others(alloc, &before, object)?;
            then.insert(0, object)?;
            Ok(then)
        }
        StreamEvent::Closes { object, .. } => others(alloc, &before, object),
        StreamEvent::Rests
        | StreamEvent::Resizes { .. }
        | StreamEvent::Changes { .. }
        | StreamEvent::Stores { .. }
        | StreamEvent::Stamps { .. }
        | StreamEvent::Discards { .. }
        | StreamEvent::CameIn { .. }
        | StreamEvent::WentOut { .. }
        | StreamEvent::Began { .. }
        | StreamEvent::Ended { .. } => Ok(before),
    }
}

/// The objects but for one.
pub(crate) fn others(alloc: Global, opened: &[u8], object: u8) -> Result<Vec<u8>, NoMemory>
    ensures { IfOk result (λ others. others.items ≡ without object opened.now) }
{
    let kept = opened
        .iter()
        .copied()
        .filter(|other| *other != object)
        .collect(alloc)?;
    Ok(kept)
}

/// The place and the length of an open hold.
pub(crate) fn hold_place(journal: &[Entry], stream: StreamId, hold: u64) -> Option<(u64, u64)>
    ensures { result ≡ place_in (holds_of (effects journal.now stream)) hold }
{
    let mut left = journal;
    while let Some((last, rest)) = left.split_last() {
        match holding_on(last, stream) {
            Holding::Rests => {}
            Holding::Makes { id, at, len } if id == hold => return Some((at, len)),
            Holding::Ends { id } if id == hold => return None,
            Holding::Repins { id, of } if id == hold => {
                if let Some(place) = hold_place(rest, stream, of) {
                    return Some(place);
                }
            }
            Holding::Makes { .. } | Holding::Ends { .. } | Holding::Repins { .. } => {}
        }
        left = rest;
    }
    None
}
