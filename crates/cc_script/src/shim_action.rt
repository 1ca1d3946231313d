//! The lines of the file system shim, byte-range locks and checkpoints among them, of the levels of a view index and of the
//! record of a stream, each read from the words behind its verb.

ghost use Rattle.std.specs.Prelude.{◌≡◌};
ghost use Rattle.cc_script.specs.Outcome.{Gives};
ghost use Rattle.cc_script.specs.ShimActions.{parsed_read, parsed_write, parsed_update, parsed_levels, parsed_settle, parsed_checkpoint, parsed_lock, parsed_unlock};

use crate::fault::LineFault;
use crate::part::Words;
use crate::script::{Action, StreamLines};
use std::alloc::Global;

#[tactic(auto, unfolding(crate::specs::ShimActions::parsed_read))]
pub(crate) fn read(streams: &StreamLines, words: &mut Words) -> Option<Action>
    ensures { result ≡ parsed_read streams.now words.old }
{
    let file = words.file(streams)?;
    let path = words.path()?;
    let at = words.number()?;
    let len = words.read_length()?;
    if words.is_empty() {
        Some(Action::Read {
            file,
            path,
            at,
            len,
        })
    } else {
        None
    }
}

#[tactic(auto, unfolding(crate::specs::ShimActions::parsed_write))]
pub(crate) fn write(
    alloc: Global,
    streams: &StreamLines,
    words: &mut Words,
) -> Result<Action, LineFault>
    ensures { Gives (parsed_write streams.now words.old) result }
{
    let file = words.file(streams).ok_or(LineFault::Syntax)?;
    let at = words.number().ok_or(LineFault::Syntax)?;
    let bytes = words.bytes(alloc)?;
    if words.is_empty() {
        Ok(Action::Write { file, at, bytes })
    } else {
        Err(LineFault::Syntax)
    }
}

#[tactic(auto, unfolding(crate::specs::ShimActions::parsed_update))]
pub(crate) fn update(
    alloc: Global,
    streams: &StreamLines,
    words: &mut Words,
) -> Result<Action, LineFault>
    ensures { Gives (parsed_update streams.now words.old) result }
{
    let file = words.file(streams).ok_or(LineFault::Syntax)?;
    let at = words.number().ok_or(LineFault::Syntax)?;
    let bytes = words.bytes(alloc)?;
    if words.is_empty() {
        Ok(Action::Update { file, at, bytes })
    } else {
        Err(LineFault::Syntax)
    }
}

#[tactic(auto, unfolding(crate::specs::ShimActions::parsed_lock))]
pub(crate) fn lock(streams: &StreamLines, words: &mut Words) -> Option<Action>
    ensures { result ≡ parsed_lock streams.now words.old }
{
    let file = words.file(streams)?;
    let span = words.span()?;
    let exclusive = words.flag(b"excl");
    if words.is_empty() {
        Some(Action::Lock {
            file,
            span,
            exclusive,
        })
    } else {
        None
    }
}

#[tactic(auto, unfolding(crate::specs::ShimActions::parsed_unlock))]
pub(crate) fn unlock(streams: &StreamLines, words: &mut Words) -> Option<Action>
    ensures { result ≡ parsed_unlock streams.now words.old }
{
    let file = words.file(streams)?;
    let id = words.number()?;
    if words.is_empty() {
        Some(Action::Unlock { file, id })
    } else {
        None
    }
}

#[tactic(auto, unfolding(crate::specs::ShimActions::parsed_levels))]
pub(crate) fn levels(streams: &StreamLines, words: &mut Words) -> Option<Action>
    ensures { result ≡ parsed_levels streams.now words.old }
{
    let file = words.file(streams)?;
    if words.is_empty() {
        Some(Action::Levels { file })
    } else {
        None
    }
}

#[tactic(auto, unfolding(crate::specs::ShimActions::parsed_settle))]
pub(crate) fn settle(streams: &StreamLines, words: &mut Words) -> Option<Action>
    ensures { result ≡ parsed_settle streams.now words.old }
{
    let file = words.file(streams)?;
    if words.is_empty() {
        Some(Action::Settle { file })
    } else {
        None
    }
}

#[tactic(auto, unfolding(crate::specs::ShimActions::parsed_checkpoint))]
pub(crate) fn checkpoint(streams: &StreamLines, words: &mut Words) -> Option<Action>
    ensures { result ≡ parsed_checkpoint streams.now words.old }
{
    let handle = words.handle()?;
    if words.is_empty() {
        Some(Action::Checkpoint {
            streams: streams.len() as u8,
            handle,
        })
    } else {
        None
    }
}
