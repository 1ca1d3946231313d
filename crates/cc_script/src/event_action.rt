//! The lines of steps alone, those of read-ahead, of queued reads, of the lazy writer and of the throttle, and the settings
//! of a stream, each read from the words behind its verb.

ghost use Rattle.std.specs.Prelude.{◌≡◌};
ghost use Rattle.cc_script.specs.Outcome.{Gives};
ghost use Rattle.cc_script.specs.Actions.{ended};
ghost use Rattle.cc_script.specs.EventActions.{parsed_fill, parsed_drop, parsed_write_begin, parsed_write_end, parsed_sync, parsed_nc_read_page, parsed_nc_store_page, parsed_nc_write_page, parsed_ask_ahead, parsed_async_read, parsed_defer, parsed_set_granularity, parsed_set_attributes, parsed_set_threshold};
ghost use Rattle.cc_script.specs.declared.script.Action.TheVariants as action;

use crate::fault::LineFault;
use crate::part::Words;
use crate::script::{Action, StreamLines};
use std::alloc::Global;

/// The most dirty pages that a stream's own threshold says.
const MOST_OWN_PAGES: u64 = 4294967295;

/// How many bytes a page has.
const PAGE_BYTES: u64 = 4096;

#[tactic(auto, unfolding(crate::specs::EventActions::parsed_fill))]
pub(crate) fn fill(streams: &StreamLines, words: &mut Words) -> Option<Action>
    ensures { result ≡ parsed_fill streams.now words.old }
{
    let page = words.page(streams)?;
    if words.is_empty() {
        Some(Action::Fill { page })
    } else {
        None
    }
}

#[tactic(auto, unfolding(crate::specs::EventActions::parsed_drop))]
pub(crate) fn drop(streams: &StreamLines, words: &mut Words) -> Option<Action>
    ensures { result ≡ parsed_drop streams.now words.old }
{
    let page = words.page(streams)?;
    if words.is_empty() {
        Some(Action::Drop { page })
    } else {
        None
    }
}

#[tactic(auto, unfolding(crate::specs::EventActions::parsed_write_begin))]
pub(crate) fn write_begin(streams: &StreamLines, words: &mut Words) -> Option<Action>
    ensures { result ≡ parsed_write_begin streams.now words.old }
{
    let page = words.page(streams)?;
    if words.is_empty() {
        Some(Action::WriteBegin { page })
    } else {
        None
    }
}

#[tactic(auto, unfolding(crate::specs::EventActions::parsed_write_end))]
pub(crate) fn write_end(streams: &StreamLines, words: &mut Words) -> Option<Action>
    ensures { result ≡ parsed_write_end streams.now words.old }
{
    let page = words.page(streams)?;
    if words.is_empty() {
        Some(Action::WriteEnd { page })
    } else {
        None
    }
}

#[tactic(auto, unfolding(crate::specs::EventActions::parsed_sync))]
pub(crate) fn sync(streams: &StreamLines, words: &mut Words) -> Option<Action>
    ensures { result ≡ parsed_sync streams.now words.old }
{
    let stream = words.stream(streams)?;
    if words.is_empty() {
        Some(Action::Sync { stream })
    } else {
        None
    }
}

pub(crate) fn scan(words: &mut Words) -> Option<Action>
    ensures { result ≡ ended words.old action.Scan }
{
    if words.is_empty() {
        Some(Action::Scan)
    } else {
        None
    }
}

#[tactic(auto, unfolding(crate::specs::EventActions::parsed_ask_ahead))]
pub(crate) fn ask_ahead(streams: &StreamLines, words: &mut Words) -> Option<Action>
    ensures { result ≡ parsed_ask_ahead streams.now words.old }
{
    let file = words.file(streams)?;
    let at = words.number()?;
    let len = words.number()?;
    if words.is_empty() {
        Some(Action::AskAhead { file, at, len })
    } else {
        None
    }
}

pub(crate) fn ahead_step(words: &mut Words) -> Option<Action>
    ensures { result ≡ ended words.old action.AheadStep }
{
    if words.is_empty() {
        Some(Action::AheadStep)
    } else {
        None
    }
}

#[tactic(auto, unfolding(crate::specs::EventActions::parsed_async_read))]
pub(crate) fn async_read(streams: &StreamLines, words: &mut Words) -> Option<Action>
    ensures { result ≡ parsed_async_read streams.now words.old }
{
    let file = words.file(streams)?;
    let at = words.number()?;
    let len = words.read_length()?;
    if words.is_empty() {
        Some(Action::AsyncRead { file, at, len })
    } else {
        None
    }
}

pub(crate) fn complete(words: &mut Words) -> Option<Action>
    ensures { result ≡ ended words.old action.Complete }
{
    if words.is_empty() {
        Some(Action::Complete)
    } else {
        None
    }
}

pub(crate) fn tick(words: &mut Words) -> Option<Action>
    ensures { result ≡ ended words.old action.Tick }
{
    if words.is_empty() {
        Some(Action::Tick)
    } else {
        None
    }
}

pub(crate) fn post(words: &mut Words) -> Option<Action>
    ensures { result ≡ ended words.old action.Post }
{
    if words.is_empty() {
        Some(Action::Post)
    } else {
        None
    }
}

#[tactic(auto, unfolding(crate::specs::EventActions::parsed_nc_read_page))]
pub(crate) fn nc_read_page(streams: &StreamLines, words: &mut Words) -> Option<Action>
    ensures { result ≡ parsed_nc_read_page streams.now words.old }
{
    let file = words.file(streams)?;
    let page = words.page_number()?;
    if words.is_empty() {
        Some(Action::NcReadPage { file, page })
    } else {
        None
    }
}

#[tactic(auto, unfolding(crate::specs::EventActions::parsed_nc_store_page))]
pub(crate) fn nc_store_page(
    alloc: Global,
    streams: &StreamLines,
    words: &mut Words,
) -> Result<Action, LineFault>
    ensures { Gives (parsed_nc_store_page streams.now words.old) result }
{
    let file = words.file(streams).ok_or(LineFault::Syntax)?;
    let page = words.page_number().ok_or(LineFault::Syntax)?;
    let bytes = words.bytes(alloc)?;
    if bytes.len() == PAGE_BYTES && words.is_empty() {
        Ok(Action::NcStorePage { file, page, bytes })
    } else {
        Err(LineFault::Syntax)
    }
}

#[tactic(auto, unfolding(crate::specs::EventActions::parsed_nc_write_page))]
pub(crate) fn nc_write_page(streams: &StreamLines, words: &mut Words) -> Option<Action>
    ensures { result ≡ parsed_nc_write_page streams.now words.old }
{
    let file = words.file(streams)?;
    let page = words.page_number()?;
    if words.is_empty() {
        Some(Action::NcWritePage { file, page })
    } else {
        None
    }
}

#[tactic(auto, unfolding(crate::specs::EventActions::parsed_defer))]
pub(crate) fn defer(streams: &StreamLines, words: &mut Words) -> Option<Action>
    ensures { result ≡ parsed_defer streams.now words.old }
{
    let file = words.file(streams)?;
    let bytes = words.number()?;
    let retrying = words.flag(b"retry");
    if words.is_empty() {
        Some(Action::Defer {
            file,
            bytes,
            retrying,
        })
    } else {
        None
    }
}

#[tactic(auto, unfolding(crate::specs::EventActions::parsed_set_granularity))]
pub(crate) fn set_granularity(streams: &StreamLines, words: &mut Words) -> Option<Action>
    ensures { result ≡ parsed_set_granularity streams.now words.old }
{
    let file = words.file(streams)?;
    let bytes = words.number()?;
    if words.is_empty() {
        Some(Action::SetGranularity { file, bytes })
    } else {
        None
    }
}

#[tactic(auto, unfolding(crate::specs::EventActions::parsed_set_attributes))]
pub(crate) fn set_attributes(streams: &StreamLines, words: &mut Words) -> Option<Action>
    ensures { result ≡ parsed_set_attributes streams.now words.old }
{
    let file = words.file(streams)?;
    let ahead = words.number_between(0, 1)?;
    let behind = words.number_between(0, 1)?;
    if words.is_empty() {
        Some(Action::SetAttributes {
            file,
            no_read_ahead: ahead == 1,
            no_write_behind: behind == 1,
        })
    } else {
        None
    }
}

#[tactic(auto, unfolding(crate::specs::EventActions::parsed_set_threshold))]
pub(crate) fn set_threshold(streams: &StreamLines, words: &mut Words) -> Option<Action>
    ensures { result ≡ parsed_set_threshold streams.now words.old }
{
    let file = words.file(streams)?;
    let pages = words.number_between(0, MOST_OWN_PAGES)?;
    if words.is_empty() {
        Some(Action::SetThreshold {
            file,
            pages: pages as u32,
        })
    } else {
        None
    }
}
