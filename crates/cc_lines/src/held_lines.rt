//! The lines on holds: those that make one, use one and end one.

ghost use Rattle.std.specs.Prelude.{◌≡◌, ◌<◌, ◌++◌, ◌∷◌, [], length, true};
ghost use Rattle.cc_entry.specs.Kinds.{is_map, is_pin, is_read_chain, is_write_chain};
ghost use Rattle.cc_entry.specs.declared.call.Call.TheVariants as call;
ghost use Rattle.cc_calls.specs.Answers.{CanCall};
ghost use Rattle.cc_calls.specs.Held.{IsHolding, held_covers};
ghost use Rattle.cc_script.specs.declared.script.Action.TheVariants as action;
ghost use Rattle.cc_lines.specs.Holds.{bound_named, made_told};
ghost use Rattle.cc_lines.specs.Line.{CanServe, CanServeNext, HeldReadTold, LineServed, NextEnds};

use crate::holds::{Named, Names};
use crate::line::answered;
use cc_calls::{
    HoldHandle, Mapped, Pinned, ReadChain, WriteChain, map_data, mapped_read, mdl_bytes, mdl_read,
    mdl_read_complete, mdl_store, mdl_write_abort, mdl_write_complete, pin_mapped, pin_read,
    pinned_read, pinned_write, prepare_mdl_write, prepare_pin_write, repin, set_dirty, unmap,
    unpin, unpin_repinned,
};
use cc_entry::{Answer, Bytes, BytesRoom, CcError, FileId, Lsn, Reply};
use cc_script::HoldWord;
use cc_turns::Turns;
use std::alloc::Global;

/// A map, which the next word names.
pub(crate) fn map<T: Turns>(
    alloc: Global,
    turns: &mut T,
    names: &mut Names,
    file: FileId,
    at: u64,
    len: u64,
) -> Answer
    requires { CanServeNext (T.standing turns.old) (action.Map file at len) names.old }
    ensures { NextEnds (T.standing turns.old) (T.standing turns.new) (action.Map file at len)
        result names.old names.new }
{
    match map_data(alloc, turns, file, at, len) {
        Ok(hold) => bind(names, Ok(Named::Map(hold))),
        Err(error) => bind(names, Err(error)),
    }
}

/// A pin, which the next word names.
pub(crate) fn pin<T: Turns>(
    alloc: Global,
    turns: &mut T,
    names: &mut Names,
    file: FileId,
    at: u64,
    len: u64,
    exclusive: bool,
) -> Answer
    requires { CanServeNext (T.standing turns.old) (λ word. action.PinRead file at len word exclusive) names.old }
    ensures { NextEnds (T.standing turns.old) (T.standing turns.new) (λ word. action.PinRead file at len word exclusive)
        result names.old names.new }
{
    match pin_read(alloc, turns, file, at, len, exclusive) {
        Ok(hold) => bind(names, Ok(Named::Pin(hold))),
        Err(error) => bind(names, Err(error)),
    }
}

/// A pin of bytes that are to be written, which the next word names.
pub(crate) fn prepare<T: Turns>(
    alloc: Global,
    turns: &mut T,
    names: &mut Names,
    file: FileId,
    at: u64,
    len: u64,
    zero: bool,
    exclusive: bool,
) -> Answer
    requires { CanServeNext (T.standing turns.old) (λ word. action.PreparePin file at len word zero exclusive) names.old }
    ensures { NextEnds (T.standing turns.old) (T.standing turns.new) (λ word. action.PreparePin file at len word zero exclusive)
        result names.old names.new }
{
    match prepare_pin_write(alloc, turns, file, at, len, zero, exclusive) {
        Ok(hold) => bind(names, Ok(Named::Pin(hold))),
        Err(error) => bind(names, Err(error)),
    }
}

/// A read chain, which the next word names.
pub(crate) fn chain<T: Turns>(
    alloc: Global,
    turns: &mut T,
    names: &mut Names,
    file: FileId,
    at: u64,
    len: u64,
) -> Answer
    requires { CanServeNext (T.standing turns.old) (action.MdlRead file at len) names.old }
    ensures { NextEnds (T.standing turns.old) (T.standing turns.new) (action.MdlRead file at len)
        result names.old names.new }
{
    match mdl_read(alloc, turns, file, at, len) {
        Ok(hold) => bind(names, Ok(Named::ReadChain(hold))),
        Err(error) => bind(names, Err(error)),
    }
}

/// A write chain, which the next word names.
pub(crate) fn write_chain<T: Turns>(
    alloc: Global,
    turns: &mut T,
    names: &mut Names,
    file: FileId,
    at: u64,
    len: u64,
) -> Answer
    requires { CanServeNext (T.standing turns.old) (action.MdlWrite file at len) names.old }
    ensures { NextEnds (T.standing turns.old) (T.standing turns.new) (action.MdlWrite file at len)
        result names.old names.new }
{
    match prepare_mdl_write(alloc, turns, file, at, len) {
        Ok(hold) => bind(names, Ok(Named::WriteChain(hold))),
        Err(error) => bind(names, Err(error)),
    }
}

/// A pin of the map that a word names. Where the call is refused the word names the map still.
pub(crate) fn pin_map<T: Turns>(
    alloc: Global,
    turns: &mut T,
    names: &mut Names,
    word: HoldWord,
    exclusive: bool,
) -> Answer
    requires { CanServe (T.standing turns.old) (action.PinMapped word exclusive) names.old }
    ensures { LineServed (T.standing turns.old) (T.standing turns.new) (action.PinMapped word exclusive) result names.old names.new }
{
    match names.take(word) {
        Some(named) => match named {
            Named::Map(hold) => match pin_mapped(alloc, turns, hold, exclusive) {
                Ok(pin) => {
                    let id = pin.id();
                    names.put(word, Named::Pin(pin));
                    Answer::Given(Reply::Hold(id))
                }
                Err((hold, error)) => {
                    names.put(word, Named::Map(hold));
                    Answer::Refused(error)
                }
            },
            other => {
                names.put(word, other);
                Answer::NoHold
            }
        },
        None => Answer::NoHold,
    }
}

/// A read of the bytes of a map or of a pin.
pub(crate) fn held_read<T: Turns>(
    alloc: Global,
    turns: &mut T,
    names: &mut Names,
    word: HoldWord,
    at: u64,
    len: u64,
) -> Answer
    requires { CanServe (T.standing turns.old) (action.HeldRead word at len) names.old }
    ensures { LineServed (T.standing turns.old) (T.standing turns.new) (action.HeldRead word at len) result names.old names.new }
{
    match names.get(word) {
        Some(named) => match named {
            Named::Map(hold) => read_map(alloc, turns, hold, at, len),
            Named::Pin(hold) => read_pin(alloc, turns, hold, at, len),
            _ => Answer::NoHold,
        },
        None => Answer::NoHold,
    }
}

/// A write through a pin.
pub(crate) fn held_write<T: Turns>(
    alloc: Global,
    turns: &mut T,
    names: &mut Names,
    word: HoldWord,
    at: u64,
    bytes: &Bytes,
) -> Answer
    requires { CanServe (T.standing turns.old) (action.PinnedWrite word at bytes.now) names.old }
    ensures { LineServed (T.standing turns.old) (T.standing turns.new) (action.PinnedWrite word at bytes.now) result names.old names.new }
{
    match names.get(word) {
        Some(named) => match named {
            Named::Pin(hold) => write_pin(alloc, turns, hold, at, bytes),
            _ => Answer::NoHold,
        },
        None => Answer::NoHold,
    }
}

/// A set-dirty of a pin.
pub(crate) fn stamp<T: Turns>(
    alloc: Global,
    turns: &mut T,
    names: &mut Names,
    word: HoldWord,
    lsn: Option<Lsn>,
) -> Answer
    requires { CanServe (T.standing turns.old) (action.SetDirty word lsn) names.old }
    ensures { LineServed (T.standing turns.old) (T.standing turns.new) (action.SetDirty word lsn) result names.old names.new }
{
    match names.get(word) {
        Some(named) => match named {
            Named::Pin(hold) => answered(set_dirty(alloc, turns, hold, lsn)),
            _ => Answer::NoHold,
        },
        None => Answer::NoHold,
    }
}

/// The end of a map or of a pin.
pub(crate) fn release<T: Turns>(
    alloc: Global,
    turns: &mut T,
    names: &mut Names,
    word: HoldWord,
) -> Answer
    requires { CanServe (T.standing turns.old) (action.Unpin word) names.old }
    ensures { LineServed (T.standing turns.old) (T.standing turns.new) (action.Unpin word) result names.old names.new }
{
    match names.take(word) {
        Some(named) => match named {
            Named::Map(hold) => {
                unmap(alloc, turns, hold);
                Answer::Given(Reply::Unit)
            }
            Named::Pin(hold) => {
                unpin(alloc, turns, hold);
                Answer::Given(Reply::Unit)
            }
            _ => Answer::NoHold,
        },
        None => Answer::NoHold,
    }
}

/// A repin of a pin, which the next word names.
pub(crate) fn hold_again<T: Turns>(
    alloc: Global,
    turns: &mut T,
    names: &mut Names,
    word: HoldWord,
) -> Answer
    requires { CanServeNext (T.standing turns.old) (action.Repin word) names.old }
    ensures { NextEnds (T.standing turns.old) (T.standing turns.new) (action.Repin word) result names.old names.new }
{
    match names.get(word) {
        Some(named) => match named {
            Named::Pin(hold) => match repin(alloc, turns, hold) {
                Ok(again) => bind(names, Ok(Named::Repin(again))),
                Err(error) => bind(names, Err(error)),
            },
            _ => {
                names.bind(None);
                Answer::NoHold
            }
        },
        None => {
            names.bind(None);
            Answer::NoHold
        }
    }
}

/// The end of a repin, with write through or without.
pub(crate) fn release_repinned<T: Turns>(
    alloc: Global,
    turns: &mut T,
    names: &mut Names,
    word: HoldWord,
    through: bool,
) -> Answer
    requires { CanServe (T.standing turns.old) (action.UnpinRepinned word through) names.old }
    ensures { LineServed (T.standing turns.old) (T.standing turns.new) (action.UnpinRepinned word through) result names.old names.new }
{
    match names.take(word) {
        Some(named) => match named {
            Named::Repin(hold) => answered(unpin_repinned(alloc, turns, hold, through)),
            _ => Answer::NoHold,
        },
        None => Answer::NoHold,
    }
}

/// A read of the bytes of a read chain.
pub(crate) fn chain_read<T: Turns>(
    alloc: Global,
    turns: &mut T,
    names: &mut Names,
    word: HoldWord,
    at: u64,
    len: u64,
) -> Answer
    requires { CanServe (T.standing turns.old) (action.MdlBytes word at len) names.old }
    ensures { LineServed (T.standing turns.old) (T.standing turns.new) (action.MdlBytes word at len) result names.old names.new }
{
    match names.get(word) {
        Some(named) => match named {
            Named::ReadChain(chain) => read_chain(alloc, turns, chain, at, len),
            _ => Answer::NoHold,
        },
        None => Answer::NoHold,
    }
}

/// A store into a write chain.
pub(crate) fn chain_store<T: Turns>(
    alloc: Global,
    turns: &mut T,
    names: &mut Names,
    word: HoldWord,
    at: u64,
    bytes: &Bytes,
) -> Answer
    requires { CanServe (T.standing turns.old) (action.MdlStore word at bytes.now) names.old }
    ensures { LineServed (T.standing turns.old) (T.standing turns.new) (action.MdlStore word at bytes.now) result names.old names.new }
{
    match names.get(word) {
        Some(named) => match named {
            Named::WriteChain(chain) => store(alloc, turns, chain, at, bytes),
            _ => Answer::NoHold,
        },
        None => Answer::NoHold,
    }
}

/// The end of a chain.
pub(crate) fn chain_done<T: Turns>(
    alloc: Global,
    turns: &mut T,
    names: &mut Names,
    word: HoldWord,
) -> Answer
    requires { CanServe (T.standing turns.old) (action.MdlDone word) names.old }
    ensures { LineServed (T.standing turns.old) (T.standing turns.new) (action.MdlDone word) result names.old names.new }
{
    match names.take(word) {
        Some(named) => match named {
            Named::ReadChain(chain) => {
                mdl_read_complete(alloc, turns, chain);
                Answer::Given(Reply::Unit)
            }
            Named::WriteChain(chain) => {
                mdl_write_complete(alloc, turns, chain);
                Answer::Given(Reply::Unit)
            }
            _ => Answer::NoHold,
        },
        None => Answer::NoHold,
    }
}

/// The abort of a write chain.
pub(crate) fn chain_abort<T: Turns>(
    alloc: Global,
    turns: &mut T,
    names: &mut Names,
    word: HoldWord,
) -> Answer
    requires { CanServe (T.standing turns.old) (action.MdlAbort word) names.old }
    ensures { LineServed (T.standing turns.old) (T.standing turns.new) (action.MdlAbort word) result names.old names.new }
{
    match names.take(word) {
        Some(named) => match named {
            Named::WriteChain(chain) => {
                mdl_write_abort(alloc, turns, chain);
                Answer::Given(Reply::Unit)
            }
            _ => Answer::NoHold,
        },
        None => Answer::NoHold,
    }
}

// Binds the next word to what a call made, where it made anything, and answers the call's line.
fn bind(names: &mut Names, made: Result<Named, CcError>) -> Answer
    requires { length names.old.named < names.old.room }
    ensures bound { names.new ≡ record names.old { named = names.old.named ++ bound_named made ∷ [] } }
    ensures told { result ≡ made_told made }
{
    match made {
        Ok(named) => {
            let id = named.id();
            names.bind(Some(named));
            Answer::Given(Reply::Hold(id))
        }
        Err(error) => {
            names.bind(None);
            Answer::Refused(error)
        }
    }
}

// A read of mapped bytes, which are the answer.
fn read_map<T: Turns>(alloc: Global, turns: &mut T, hold: &Mapped, at: u64, len: u64) -> Answer
    requires can { CanCall (T.standing turns.old) hold.now.file.stream }
    requires holding { IsHolding (T.standing turns.old) is_map hold.now }
    requires covers { held_covers hold.now at len ≡ true }
    ensures { HeldReadTold (T.standing turns.old) (T.standing turns.new) is_map hold.now (call.MappedRead hold.now.id at len) result }
{
    let Ok(mut out) = vec![in alloc; 0; len as usize] else {
        return Answer::Refused(CcError::NoMemory);
    };
    let Ok(room) = BytesRoom::new(alloc, out.len()) else {
        return Answer::Refused(CcError::NoMemory);
    };
    match mapped_read(alloc, turns, hold, at, &mut out) {
        Ok(()) => Answer::Given(Reply::Read(room.keep(&out))),
        Err(error) => Answer::Refused(error),
    }
}

// A read of pinned bytes, which are the answer.
fn read_pin<T: Turns>(alloc: Global, turns: &mut T, hold: &Pinned, at: u64, len: u64) -> Answer
    requires can { CanCall (T.standing turns.old) hold.now.file.stream }
    requires holding { IsHolding (T.standing turns.old) is_pin hold.now }
    requires covers { held_covers hold.now at len ≡ true }
    ensures { HeldReadTold (T.standing turns.old) (T.standing turns.new) is_pin hold.now (call.PinnedRead hold.now.id at len) result }
{
    let Ok(mut out) = vec![in alloc; 0; len as usize] else {
        return Answer::Refused(CcError::NoMemory);
    };
    let Ok(room) = BytesRoom::new(alloc, out.len()) else {
        return Answer::Refused(CcError::NoMemory);
    };
    match pinned_read(alloc, turns, hold, at, &mut out) {
        Ok(()) => Answer::Given(Reply::Read(room.keep(&out))),
        Err(error) => Answer::Refused(error),
    }
}

// A read of a chain's bytes, which are the answer.
fn read_chain<T: Turns>(alloc: Global, turns: &mut T, hold: &ReadChain, at: u64, len: u64) -> Answer
    requires can { CanCall (T.standing turns.old) hold.now.file.stream }
    requires holding { IsHolding (T.standing turns.old) is_read_chain hold.now }
    requires covers { held_covers hold.now at len ≡ true }
    ensures { HeldReadTold (T.standing turns.old) (T.standing turns.new) is_read_chain hold.now (call.MdlBytes hold.now.id at len) result }
{
    let Ok(mut out) = vec![in alloc; 0; len as usize] else {
        return Answer::Refused(CcError::NoMemory);
    };
    let Ok(room) = BytesRoom::new(alloc, out.len()) else {
        return Answer::Refused(CcError::NoMemory);
    };
    match mdl_bytes(alloc, turns, hold, at, &mut out) {
        Ok(()) => Answer::Given(Reply::Read(room.keep(&out))),
        Err(error) => Answer::Refused(error),
    }
}

// A write through a pin.
fn write_pin<T: Turns>(
    alloc: Global,
    turns: &mut T,
    hold: &Pinned,
    at: u64,
    bytes: &Bytes,
) -> Answer
    requires can { CanCall (T.standing turns.old) hold.now.file.stream }
    requires holding { IsHolding (T.standing turns.old) is_pin hold.now }
    requires covers { held_covers hold.now at (length bytes.now) ≡ true }
    ensures { HeldReadTold (T.standing turns.old) (T.standing turns.new) is_pin hold.now
        (call.PinnedWrite hold.now.id at bytes.now) result }
{
    match bytes.to_vec(alloc) {
        Ok(piece) => answered(pinned_write(alloc, turns, hold, at, &piece)),
        Err(_) => Answer::Refused(CcError::NoMemory),
    }
}

// A store into a write chain.
fn store<T: Turns>(
    alloc: Global,
    turns: &mut T,
    chain: &WriteChain,
    at: u64,
    bytes: &Bytes,
) -> Answer
    requires can { CanCall (T.standing turns.old) chain.now.file.stream }
    requires holding { IsHolding (T.standing turns.old) is_write_chain chain.now }
    requires covers { held_covers chain.now at (length bytes.now) ≡ true }
    ensures { HeldReadTold (T.standing turns.old) (T.standing turns.new) is_write_chain chain.now
        (call.MdlStore chain.now.id at bytes.now) result }
{
    match bytes.to_vec(alloc) {
        Ok(piece) => answered(mdl_store(alloc, turns, chain, at, &piece)),
        Err(_) => Answer::Refused(CcError::NoMemory),
    }
}
