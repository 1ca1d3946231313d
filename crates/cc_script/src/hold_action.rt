//! The actions on holds, each read from the words behind its verb.

ghost use Rattle.std.specs.Prelude.{◌≡◌};
ghost use Rattle.cc_script.specs.Outcome.{Gives, TakesIf};
ghost use Rattle.cc_script.specs.HoldActions.{parsed_map, parsed_pin_read, parsed_pin_mapped, parsed_prepare_pin, parsed_held_read, parsed_pinned_write, parsed_stamp, parsed_set_dirty, parsed_unpin, parsed_repin, parsed_unpin_repinned, parsed_mdl_read, parsed_mdl_write, parsed_mdl_bytes, parsed_mdl_store, parsed_mdl_done, parsed_mdl_abort};

use crate::fault::LineFault;
use crate::hold_word::HoldNames;
use crate::part::Words;
use crate::script::{Action, Mode, StreamLines};
use cc_entry::Lsn;
use std::alloc::Global;

#[tactic(auto, unfolding(crate::specs::HoldActions::parsed_map))]
pub(crate) fn map(
    alloc: Global,
    streams: &StreamLines,
    names: &mut HoldNames,
    words: &mut Words,
) -> Result<Action, LineFault>
    ensures { TakesIf (parsed_map streams.now names.old words.old) result names.new }
{
    let on = words.stretch(alloc, streams, names)?;
    if words.is_empty() {
        Ok(Action::Map {
            file: on.file,
            at: on.at,
            len: on.len,
            word: on.word,
        })
    } else {
        Err(LineFault::Syntax)
    }
}

#[tactic(auto, unfolding(crate::specs::HoldActions::parsed_pin_read))]
pub(crate) fn pin_read(
    alloc: Global,
    streams: &StreamLines,
    names: &mut HoldNames,
    words: &mut Words,
) -> Result<Action, LineFault>
    ensures { TakesIf (parsed_pin_read streams.now names.old words.old) result names.new }
{
    let on = words.stretch(alloc, streams, names)?;
    let exclusive = words.flag(b"excl");
    if words.is_empty() {
        Ok(Action::PinRead {
            file: on.file,
            at: on.at,
            len: on.len,
            word: on.word,
            exclusive,
        })
    } else {
        Err(LineFault::Syntax)
    }
}

#[tactic(auto, unfolding(crate::specs::HoldActions::parsed_pin_mapped))]
pub(crate) fn pin_mapped(names: &HoldNames, words: &mut Words) -> Option<Action>
    ensures { result ≡ parsed_pin_mapped names.now words.old }
{
    let word = words.word(names)?;
    let exclusive = words.flag(b"excl");
    if words.is_empty() {
        Some(Action::PinMapped { word, exclusive })
    } else {
        None
    }
}

#[tactic(auto, unfolding(crate::specs::HoldActions::parsed_prepare_pin))]
pub(crate) fn prepare_pin(
    alloc: Global,
    streams: &StreamLines,
    names: &mut HoldNames,
    words: &mut Words,
) -> Result<Action, LineFault>
    ensures { TakesIf (parsed_prepare_pin streams.now names.old words.old) result names.new }
{
    let on = words.stretch(alloc, streams, names)?;
    let zero = words.flag(b"zero");
    let exclusive = words.flag(b"excl");
    if words.is_empty() {
        Ok(Action::PreparePin {
            file: on.file,
            at: on.at,
            len: on.len,
            word: on.word,
            zero,
            exclusive,
        })
    } else {
        Err(LineFault::Syntax)
    }
}

#[tactic(auto, unfolding(crate::specs::HoldActions::parsed_held_read))]
pub(crate) fn held_read(names: &HoldNames, words: &mut Words) -> Option<Action>
    ensures { result ≡ parsed_held_read names.now words.old }
{
    let word = words.word(names)?;
    let at = words.number()?;
    let len = words.read_length()?;
    if words.is_empty() {
        Some(Action::HeldRead { word, at, len })
    } else {
        None
    }
}

#[tactic(auto, unfolding(crate::specs::HoldActions::parsed_pinned_write))]
pub(crate) fn pinned_write(
    alloc: Global,
    names: &HoldNames,
    words: &mut Words,
) -> Result<Action, LineFault>
    ensures { Gives (parsed_pinned_write names.now words.old) result }
{
    let word = words.word(names).ok_or(LineFault::Syntax)?;
    let at = words.number().ok_or(LineFault::Syntax)?;
    let bytes = words.bytes(alloc)?;
    if words.is_empty() {
        Ok(Action::PinnedWrite { word, at, bytes })
    } else {
        Err(LineFault::Syntax)
    }
}

// The stamp of a set-dirty, none where the words don't say it.
#[tactic(auto, unfolding(crate::specs::HoldActions::parsed_stamp))]
fn stamp(words: &mut Words) -> Option<Option<Lsn>>
    ensures { result ≡ parsed_stamp words.old }
{
    if words.is_empty() {
        return Some(None);
    }
    let lsn = words.lsn()?;
    if words.is_empty() {
        Some(Some(lsn))
    } else {
        None
    }
}

#[tactic(auto, unfolding(crate::specs::HoldActions::parsed_set_dirty))]
pub(crate) fn set_dirty(names: &HoldNames, words: &mut Words) -> Option<Action>
    ensures { result ≡ parsed_set_dirty names.now words.old }
{
    let word = words.word(names)?;
    let lsn = stamp(words)?;
    Some(Action::SetDirty { word, lsn })
}

#[tactic(auto, unfolding(crate::specs::HoldActions::parsed_unpin))]
pub(crate) fn unpin(names: &HoldNames, words: &mut Words) -> Option<Action>
    ensures { result ≡ parsed_unpin names.now words.old }
{
    let word = words.word(names)?;
    if words.is_empty() {
        Some(Action::Unpin { word })
    } else {
        None
    }
}

#[tactic(auto, unfolding(crate::specs::HoldActions::parsed_repin))]
pub(crate) fn repin(
    alloc: Global,
    names: &mut HoldNames,
    words: &mut Words,
) -> Result<Action, LineFault>
    ensures { TakesIf (parsed_repin names.old words.old) result names.new }
{
    let word = words.word(names).ok_or(LineFault::Syntax)?;
    let name = words.name(alloc)?;
    let made = names.bind(name)?;
    if words.is_empty() {
        Ok(Action::Repin { word, made })
    } else {
        Err(LineFault::Syntax)
    }
}

#[tactic(auto, unfolding(crate::specs::HoldActions::parsed_unpin_repinned))]
pub(crate) fn unpin_repinned(mode: Mode, names: &HoldNames, words: &mut Words) -> Option<Action>
    ensures { result ≡ parsed_unpin_repinned mode names.now words.old }
{
    let word = words.word(names)?;
    let through = match mode {
        Mode::Run => words.flag(b"through"),
        Mode::Steps => false,
    };
    if words.is_empty() {
        Some(Action::UnpinRepinned { word, through })
    } else {
        None
    }
}

#[tactic(auto, unfolding(crate::specs::HoldActions::parsed_mdl_read))]
pub(crate) fn mdl_read(
    alloc: Global,
    streams: &StreamLines,
    names: &mut HoldNames,
    words: &mut Words,
) -> Result<Action, LineFault>
    ensures { TakesIf (parsed_mdl_read streams.now names.old words.old) result names.new }
{
    let on = words.stretch(alloc, streams, names)?;
    if words.is_empty() {
        Ok(Action::MdlRead {
            file: on.file,
            at: on.at,
            len: on.len,
            word: on.word,
        })
    } else {
        Err(LineFault::Syntax)
    }
}

#[tactic(auto, unfolding(crate::specs::HoldActions::parsed_mdl_write))]
pub(crate) fn mdl_write(
    alloc: Global,
    streams: &StreamLines,
    names: &mut HoldNames,
    words: &mut Words,
) -> Result<Action, LineFault>
    ensures { TakesIf (parsed_mdl_write streams.now names.old words.old) result names.new }
{
    let on = words.stretch(alloc, streams, names)?;
    if words.is_empty() {
        Ok(Action::MdlWrite {
            file: on.file,
            at: on.at,
            len: on.len,
            word: on.word,
        })
    } else {
        Err(LineFault::Syntax)
    }
}

#[tactic(auto, unfolding(crate::specs::HoldActions::parsed_mdl_bytes))]
pub(crate) fn mdl_bytes(names: &HoldNames, words: &mut Words) -> Option<Action>
    ensures { result ≡ parsed_mdl_bytes names.now words.old }
{
    let word = words.word(names)?;
    let at = words.number()?;
    let len = words.read_length()?;
    if words.is_empty() {
        Some(Action::MdlBytes { word, at, len })
    } else {
        None
    }
}

#[tactic(auto, unfolding(crate::specs::HoldActions::parsed_mdl_store))]
pub(crate) fn mdl_store(
    alloc: Global,
    names: &HoldNames,
    words: &mut Words,
) -> Result<Action, LineFault>
    ensures { Gives (parsed_mdl_store names.now words.old) result }
{
    let word = words.word(names).ok_or(LineFault::Syntax)?;
    let at = words.number().ok_or(LineFault::Syntax)?;
    let bytes = words.bytes(alloc)?;
    if words.is_empty() {
        Ok(Action::MdlStore { word, at, bytes })
    } else {
        Err(LineFault::Syntax)
    }
}

#[tactic(auto, unfolding(crate::specs::HoldActions::parsed_mdl_done))]
pub(crate) fn mdl_done(names: &HoldNames, words: &mut Words) -> Option<Action>
    ensures { result ≡ parsed_mdl_done names.now words.old }
{
    let word = words.word(names)?;
    if words.is_empty() {
        Some(Action::MdlDone { word })
    } else {
        None
    }
}

#[tactic(auto, unfolding(crate::specs::HoldActions::parsed_mdl_abort))]
pub(crate) fn mdl_abort(names: &HoldNames, words: &mut Words) -> Option<Action>
    ensures { result ≡ parsed_mdl_abort names.now words.old }
{
    let word = words.word(names)?;
    if words.is_empty() {
        Some(Action::MdlAbort { word })
    } else {
        None
    }
}
