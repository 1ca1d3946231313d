//! The actions, each read from the words behind its verb.

ghost use Rattle.std.specs.Prelude.{◌≡◌};
ghost use Rattle.cc_script.specs.Outcome.{Gives, TakesIf};
ghost use Rattle.cc_script.specs.Actions.{parsed_initialise, parsed_uninitialise, parsed_copy_read, parsed_copy_write, parsed_zero, parsed_nc_read, parsed_nc_write, parsed_set_sizes, parsed_flush, parsed_purge, parsed_discard, parsed_set_log, parsed_append, parsed_log_flush};
ghost use Rattle.cc_script.specs.EventActions.{nc_read_in, nc_write_in};
ghost use Rattle.cc_script.specs.ActionTable.{action_of, bytes_counted, dirty_lines};

use crate::event_action::{
    ahead_step, ask_ahead, async_read, complete, defer, drop, fill, nc_read_page, nc_store_page,
    nc_write_page, post, scan, set_attributes, set_granularity, set_threshold, sync, tick,
    write_begin, write_end,
};
use crate::fault::LineFault;
use crate::hold_action::{
    held_read, map, mdl_abort, mdl_bytes, mdl_done, mdl_read, mdl_store, mdl_write, pin_mapped,
    pin_read, pinned_write, prepare_pin, repin, set_dirty, unpin, unpin_repinned,
};
use crate::hold_word::HoldNames;
use crate::part::Words;
use crate::query_action::query;
use crate::script::{Action, Mode, StreamLines};
use crate::shim_action::{checkpoint, levels, lock, read, settle, unlock, update, write};
use crate::verb::Verb;
use cc_entry::Query;
use std::alloc::Global;

#[tactic(auto, unfolding(crate::specs::Actions::parsed_initialise))]
fn initialise(streams: &StreamLines, words: &mut Words) -> Option<Action>
    ensures { result ≡ parsed_initialise streams.now words.old }
{
    let file = words.file(streams)?;
    let sizes = words.sizes()?;
    let quota = words.quota()?;
    let temporary = words.flag(b"temporary");
    if words.is_empty() {
        Some(Action::Initialise {
            file,
            sizes,
            quota,
            temporary,
        })
    } else {
        None
    }
}

#[tactic(auto, unfolding(crate::specs::Actions::parsed_uninitialise))]
fn uninitialise(streams: &StreamLines, words: &mut Words) -> Option<Action>
    ensures { result ≡ parsed_uninitialise streams.now words.old }
{
    let file = words.file(streams)?;
    let truncate = words.optional_number()?;
    Some(Action::Uninitialise { file, truncate })
}

#[tactic(auto, unfolding(crate::specs::Actions::parsed_copy_read))]
fn copy_read(streams: &StreamLines, words: &mut Words) -> Option<Action>
    ensures { result ≡ parsed_copy_read streams.now words.old }
{
    let file = words.file(streams)?;
    let at = words.number()?;
    let len = words.read_length()?;
    let wait = !words.flag(b"nowait");
    if words.is_empty() {
        Some(Action::CopyRead {
            file,
            at,
            len,
            wait,
        })
    } else {
        None
    }
}

#[tactic(auto, unfolding(crate::specs::Actions::parsed_copy_write))]
fn copy_write(alloc: Global, streams: &StreamLines, words: &mut Words) -> Result<Action, LineFault>
    ensures { Gives (parsed_copy_write streams.now words.old) result }
{
    let file = words.file(streams).ok_or(LineFault::Syntax)?;
    let at = words.number().ok_or(LineFault::Syntax)?;
    let bytes = words.bytes(alloc)?;
    if words.is_empty() {
        Ok(Action::CopyWrite { file, at, bytes })
    } else {
        Err(LineFault::Syntax)
    }
}

#[tactic(auto, unfolding(crate::specs::Actions::parsed_zero))]
fn zero(streams: &StreamLines, words: &mut Words) -> Option<Action>
    ensures { result ≡ parsed_zero streams.now words.old }
{
    let file = words.file(streams)?;
    let span = words.span()?;
    if words.is_empty() {
        Some(Action::Zero { file, span })
    } else {
        None
    }
}

#[tactic(auto, unfolding(crate::specs::Actions::parsed_nc_read))]
fn nc_read(streams: &StreamLines, words: &mut Words) -> Option<Action>
    ensures { result ≡ parsed_nc_read streams.now words.old }
{
    let file = words.file(streams)?;
    let at = words.number()?;
    let len = words.read_length()?;
    if words.is_empty() {
        Some(Action::NcRead { file, at, len })
    } else {
        None
    }
}

#[tactic(auto, unfolding(crate::specs::Actions::parsed_nc_write))]
fn nc_write(alloc: Global, streams: &StreamLines, words: &mut Words) -> Result<Action, LineFault>
    ensures { Gives (parsed_nc_write streams.now words.old) result }
{
    let file = words.file(streams).ok_or(LineFault::Syntax)?;
    let at = words.number().ok_or(LineFault::Syntax)?;
    let bytes = words.bytes(alloc)?;
    if words.is_empty() {
        Ok(Action::NcWrite { file, at, bytes })
    } else {
        Err(LineFault::Syntax)
    }
}

// A noncached read, of many pages in a run and of one in steps.
fn nc_read_in(mode: Mode, streams: &StreamLines, words: &mut Words) -> Option<Action>
    ensures { result ≡ nc_read_in mode streams.now words.old }
{
    match mode {
        Mode::Run => nc_read(streams, words),
        Mode::Steps => nc_read_page(streams, words),
    }
}

// A noncached write, likewise.
fn nc_write_in(
    alloc: Global,
    mode: Mode,
    streams: &StreamLines,
    words: &mut Words,
) -> Result<Action, LineFault>
    ensures { Gives (nc_write_in mode streams.now words.old) result }
{
    match mode {
        Mode::Run => nc_write(alloc, streams, words),
        Mode::Steps => nc_write_page(streams, words).ok_or(LineFault::Syntax),
    }
}

#[tactic(auto, unfolding(crate::specs::Actions::parsed_set_sizes))]
fn set_sizes(streams: &StreamLines, words: &mut Words) -> Option<Action>
    ensures { result ≡ parsed_set_sizes streams.now words.old }
{
    let file = words.file(streams)?;
    let allocation = words.number()?;
    let size = words.number()?;
    if words.is_empty() {
        Some(Action::SetSizes {
            file,
            allocation,
            size,
        })
    } else {
        None
    }
}

#[tactic(auto, unfolding(crate::specs::Actions::parsed_flush))]
fn flush(streams: &StreamLines, words: &mut Words) -> Option<Action>
    ensures { result ≡ parsed_flush streams.now words.old }
{
    let file = words.file(streams)?;
    let span = words.optional_span()?;
    Some(Action::Flush { file, span })
}

#[tactic(auto, unfolding(crate::specs::Actions::parsed_purge))]
fn purge(streams: &StreamLines, words: &mut Words) -> Option<Action>
    ensures { result ≡ parsed_purge streams.now words.old }
{
    let file = words.file(streams)?;
    let span = words.optional_span()?;
    Some(Action::Purge { file, span })
}

#[tactic(auto, unfolding(crate::specs::Actions::parsed_discard))]
fn discard(streams: &StreamLines, words: &mut Words) -> Option<Action>
    ensures { result ≡ parsed_discard streams.now words.old }
{
    let file = words.file(streams)?;
    let span = words.optional_span()?;
    Some(Action::Discard { file, span })
}

#[tactic(auto, unfolding(crate::specs::Actions::parsed_set_log))]
fn set_log(streams: &StreamLines, words: &mut Words) -> Option<Action>
    ensures { result ≡ parsed_set_log streams.now words.old }
{
    let file = words.file(streams)?;
    let handle = words.handle()?;
    if words.is_empty() {
        Some(Action::SetLog { file, handle })
    } else {
        None
    }
}

#[tactic(auto, unfolding(crate::specs::Actions::parsed_append))]
fn append(alloc: Global, words: &mut Words) -> Result<Action, LineFault>
    ensures { Gives (parsed_append words.old) result }
{
    let handle = words.handle().ok_or(LineFault::Syntax)?;
    let bytes = words.bytes(alloc)?;
    if words.is_empty() {
        Ok(Action::Append { handle, bytes })
    } else {
        Err(LineFault::Syntax)
    }
}

#[tactic(auto, unfolding(crate::specs::Actions::parsed_log_flush))]
fn log_flush(words: &mut Words) -> Option<Action>
    ensures { result ≡ parsed_log_flush words.old }
{
    let handle = words.handle()?;
    let lsn = words.lsn()?;
    if words.is_empty() {
        Some(Action::LogFlush { handle, lsn })
    } else {
        None
    }
}

/// The action of a verb, `Syntax` where it has none of these words. A word that it binds is known from now on.
#[tactic(auto, unfolding(crate::specs::ActionTable::action_of))]
pub(crate) fn action(
    alloc: Global,
    mode: Mode,
    streams: &StreamLines,
    names: &mut HoldNames,
    verb: Verb,
    words: &mut Words,
) -> Result<Action, LineFault>
    ensures { TakesIf (action_of mode streams.now names.old verb words.old) result names.new }
{
    match verb {
        Verb::Initialise => initialise(streams, words).ok_or(LineFault::Syntax),
        Verb::Uninitialise => uninitialise(streams, words).ok_or(LineFault::Syntax),
        Verb::CopyRead => copy_read(streams, words).ok_or(LineFault::Syntax),
        Verb::CopyWrite => copy_write(alloc, streams, words),
        Verb::Zero => zero(streams, words).ok_or(LineFault::Syntax),
        Verb::Map => map(alloc, streams, names, words),
        Verb::PinRead => pin_read(alloc, streams, names, words),
        Verb::PinMapped => pin_mapped(names, words).ok_or(LineFault::Syntax),
        Verb::PreparePin => prepare_pin(alloc, streams, names, words),
        Verb::HeldRead => held_read(names, words).ok_or(LineFault::Syntax),
        Verb::PinnedWrite => pinned_write(alloc, names, words),
        Verb::SetDirty => set_dirty(names, words).ok_or(LineFault::Syntax),
        Verb::Unpin => unpin(names, words).ok_or(LineFault::Syntax),
        Verb::Repin => repin(alloc, names, words),
        Verb::UnpinRepinned => unpin_repinned(mode, names, words).ok_or(LineFault::Syntax),
        Verb::MdlRead => mdl_read(alloc, streams, names, words),
        Verb::MdlWrite => mdl_write(alloc, streams, names, words),
        Verb::MdlBytes => mdl_bytes(names, words).ok_or(LineFault::Syntax),
        Verb::MdlStore => mdl_store(alloc, names, words),
        Verb::MdlDone => mdl_done(names, words).ok_or(LineFault::Syntax),
        Verb::MdlAbort => mdl_abort(names, words).ok_or(LineFault::Syntax),
        Verb::NcRead => nc_read_in(mode, streams, words).ok_or(LineFault::Syntax),
        Verb::NcWrite => nc_write_in(alloc, mode, streams, words),
        Verb::NcStore => nc_store_page(alloc, streams, words),
        Verb::SetSizes => set_sizes(streams, words).ok_or(LineFault::Syntax),
        Verb::Query(verb) => query(streams, verb, words).ok_or(LineFault::Syntax),
        Verb::Flush => flush(streams, words).ok_or(LineFault::Syntax),
        Verb::Purge => purge(streams, words).ok_or(LineFault::Syntax),
        Verb::Discard => discard(streams, words).ok_or(LineFault::Syntax),
        Verb::Read => read(streams, words).ok_or(LineFault::Syntax),
        Verb::Write => write(alloc, streams, words),
        Verb::Update => update(alloc, streams, words),
        Verb::Lock => lock(streams, words).ok_or(LineFault::Syntax),
        Verb::Unlock => unlock(streams, words).ok_or(LineFault::Syntax),
        Verb::Levels => levels(streams, words).ok_or(LineFault::Syntax),
        Verb::Settle => settle(streams, words).ok_or(LineFault::Syntax),
        Verb::Checkpoint => checkpoint(streams, words).ok_or(LineFault::Syntax),
        Verb::SetLog => set_log(streams, words).ok_or(LineFault::Syntax),
        Verb::Append => append(alloc, words),
        Verb::LogFlush => log_flush(words).ok_or(LineFault::Syntax),
        Verb::SetGranularity => set_granularity(streams, words).ok_or(LineFault::Syntax),
        Verb::SetAttributes => set_attributes(streams, words).ok_or(LineFault::Syntax),
        Verb::SetThreshold => set_threshold(streams, words).ok_or(LineFault::Syntax),
        Verb::Fill => fill(streams, words).ok_or(LineFault::Syntax),
        Verb::Drop => drop(streams, words).ok_or(LineFault::Syntax),
        Verb::WriteBegin => write_begin(streams, words).ok_or(LineFault::Syntax),
        Verb::WriteEnd => write_end(streams, words).ok_or(LineFault::Syntax),
        Verb::Sync => sync(streams, words).ok_or(LineFault::Syntax),
        Verb::Scan => scan(words).ok_or(LineFault::Syntax),
        Verb::AskAhead => ask_ahead(streams, words).ok_or(LineFault::Syntax),
        Verb::AheadStep => ahead_step(words).ok_or(LineFault::Syntax),
        Verb::AsyncRead => async_read(streams, words).ok_or(LineFault::Syntax),
        Verb::Complete => complete(words).ok_or(LineFault::Syntax),
        Verb::Tick => tick(words).ok_or(LineFault::Syntax),
        Verb::Defer => defer(streams, words).ok_or(LineFault::Syntax),
        Verb::Post => post(words).ok_or(LineFault::Syntax),
        Verb::Stream
        | Verb::Journal
        | Verb::Threshold
        | Verb::Workers
        | Verb::Restart
        | Verb::Phase
        | Verb::Fail => Err(LineFault::Syntax),
    }
}

/// How many bytes of an action count in the total: those that it reads, writes or appends, the length of a hold that it
/// makes, and that of a read that it announces.
pub(crate) fn bytes_counted(action: &Action) -> u64
    ensures { result ≡ bytes_counted action.now }
{
    match action {
        Action::CopyRead { len, .. }
        | Action::HeldRead { len, .. }
        | Action::MdlBytes { len, .. }
        | Action::NcRead { len, .. }
        | Action::Read { len, .. }
        | Action::AsyncRead { len, .. }
        | Action::Map { len, .. }
        | Action::PinRead { len, .. }
        | Action::PreparePin { len, .. }
        | Action::MdlRead { len, .. }
        | Action::MdlWrite { len, .. }
        | Action::AskAhead { len, .. } => *len,
        Action::PinnedWrite { bytes, .. }
        | Action::MdlStore { bytes, .. }
        | Action::NcWrite { bytes, .. }
        | Action::Write { bytes, .. }
        | Action::Update { bytes, .. }
        | Action::NcStorePage { bytes, .. } => bytes.len(),
        Action::CopyWrite { bytes, .. } | Action::Append { bytes, .. } => bytes.len(),
        _ => 0,
    }
}

/// Whether a line is `dirty`, as a number.
pub(crate) fn dirty_lines(action: &Action) -> u64
    ensures { result ≡ dirty_lines action.now }
{
    match action {
        Action::Query(Query::DirtyPages { .. }) => 1,
        _ => 0,
    }
}
