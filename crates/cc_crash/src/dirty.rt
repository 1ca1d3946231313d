//! Whether a page of a stream is dirty, given the sizes before each entry, and whether the stream has a map.

ghost use Rattle.std.specs.Prelude.{◌≡◌, ◌++◌, not, IfOk};
ghost use Rattle.std.specs.List.{list_any};
ghost use Rattle.cc_model.specs.Numbers.{is_empty};
ghost use Rattle.cc_model.specs.Touches.{touches, touched, is_dirty, is_mapped};
ghost use Rattle.cc_crash.specs.Effects.{effects, AreSizesOverJournal};
ghost use Rattle.cc_events.specs.Events.{event_on, touched_pages};

use crate::maps::{hold_place, open_objects};
use crate::pages::range_before;
use crate::touches::touching_by;
use cc_entry::{Entry, NoMemory, StreamId};
use cc_events::{StreamEvent, Touching, event_on};
use std::alloc::Global;

/// Whether a page has a touch that is neither written nor cut, where `ended` says whether its transfer
/// ended ok after the journal's last entry.
pub(crate) fn is_unwritten(
    alloc: Global,
    journal: &[Entry],
    sizes: &[u64],
    stream: StreamId,
    page: u128,
    mut ended: bool,
) -> Result<bool, NoMemory>
    requires { AreSizesOverJournal sizes.now journal.now stream }
    ensures { IfOk result (λ dirty. dirty ≡ not (is_empty (touches ended (effects journal.now stream) page))) }
{
    let mut left = journal;
    while let Some((last, rest)) = left.split_last() {
        match touching_by(alloc, last, rest, sizes[rest.len()], stream, page)? {
            Touching::Rests => {}
            Touching::Touches(_) => return Ok(true),
            Touching::Cuts => return Ok(false),
            Touching::Begins if ended => return Ok(false),
            Touching::Begins => {}
            Touching::Ends => ended = true,
        }
        left = rest;
    }
    Ok(false)
}

/// Whether the stream has a shared cache map.
pub(crate) fn has_map(
    alloc: Global,
    journal: &[Entry],
    sizes: &[u64],
    stream: StreamId,
) -> Result<bool, NoMemory>
    requires { AreSizesOverJournal sizes.now journal.now stream }
    ensures { IfOk result (λ mapped. mapped ≡ is_mapped (effects journal.now stream)) }
{
    let found = open_objects(alloc, journal, stream)?;
    if found.len() > 0 {
        return Ok(true);
    }
    let touched = touched(alloc, journal, stream)?;
    is_any_dirty(alloc, journal, sizes, stream, &touched)
}

// Every page that was ever touched, with repeats.
fn touched(alloc: Global, journal: &[Entry], stream: StreamId) -> Result<Vec<u64>, NoMemory>
    ensures { IfOk result (λ pages. pages.items ≡ touched (effects journal.now stream)) }
{
    let mut pages = Vec::new(alloc);
    for (i, entry) in journal.iter().enumerate() {
        pages = touched_then(alloc, entry, &journal[..i], stream, pages)?;
    }
    Ok(pages)
}

// The pages that an entry touched, given the entries before it, before others.
fn touched_then(
    alloc: Global,
    last: &Entry,
    rest: &[Entry],
    stream: StreamId,
    before: Vec<u64>,
) -> Result<Vec<u64>, NoMemory>
    ensures { IfOk result (λ pages. pages.items ≡ touched_pages (event_on last.now stream) (effects rest.now stream) ++ before.items) }
{
    match event_on(last, stream) {
        StreamEvent::Changes { from, to } => range_before(alloc, from, to, before),
        StreamEvent::Stores { page } => {
            let mut then = before;
            then.insert(0, page)?;
            Ok(then)
        }
        StreamEvent::Stamps { hold, .. } => match hold_place(rest, stream, hold) {
            Some((at, len)) => {
                let from = u128::from(at);
                range_before(alloc, from, from + u128::from(len), before)
            }
            None => Ok(before),
        },
        StreamEvent::Rests
        | StreamEvent::Opens { .. }
        | StreamEvent::Closes { .. }
        | StreamEvent::Resizes { .. }
        | StreamEvent::Discards { .. }
        | StreamEvent::CameIn { .. }
        | StreamEvent::WentOut { .. }
        | StreamEvent::Began { .. }
        | StreamEvent::Ended { .. } => Ok(before),
    }
}

// Whether one of the pages is dirty.
fn is_any_dirty(
    alloc: Global,
    journal: &[Entry],
    sizes: &[u64],
    stream: StreamId,
    pages: &[u64],
) -> Result<bool, NoMemory>
    requires { AreSizesOverJournal sizes.now journal.now stream }
    ensures { IfOk result (λ any. any ≡ list_any (is_dirty (effects journal.now stream)) pages.now) }
{
    for page in pages {
        if is_unwritten(alloc, journal, sizes, stream, u128::from(*page), false)? {
            return Ok(true);
        }
    }
    Ok(false)
}
