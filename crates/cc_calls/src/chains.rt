//! Descriptor chains (`CcMdlRead`, `CcPrepareMdlWrite`).

ghost use Rattle.std.specs.Prelude.{◌≡◌, true, length};
ghost use Rattle.cc_entry.specs.Kinds.{is_read_chain, is_write_chain};
ghost use Rattle.cc_entry.specs.declared.call.Call.TheVariants as call;
ghost use Rattle.cc_calls.specs.Answers.{CanCall};
ghost use Rattle.cc_calls.specs.Held.{IsHolding, held_covers};
ghost use Rattle.cc_calls.specs.Ends.{HeldReadEnds, HoldEnded, MakingEnds, UseEnds};

use crate::{Held, HoldHandle, end_hold, hold_range, read_hold, write_hold};
use cc_entry::{Bytes, Call, CcError, FileId};
use cc_turns::Turns;
use std::alloc::Global;
use std::marker::Model;

/// Bytes of a stream that are held to be read. Dropping it leaves its hold open.
#[derive(Drop)]
pub struct ReadChain {
    held: Held,
}

impl Model for ReadChain {
    ghost use Rattle.cc_calls.specs.declared.held.Held.{Held};

    ghost Value = { Held };

    ghost view = { λ c. c.held };
}

impl HoldHandle for ReadChain {
    ghost held = { λ chain. chain };

    fn held(&self) -> Held {
        self.held
    }
}

/// Bytes of a stream that are held to be stored into. Dropping it leaves its hold open.
#[derive(Drop)]
pub struct WriteChain {
    held: Held,
}

impl Model for WriteChain {
    ghost use Rattle.cc_calls.specs.declared.held.Held.{Held};

    ghost Value = { Held };

    ghost view = { λ c. c.held };
}

impl HoldHandle for WriteChain {
    ghost held = { λ chain. chain };

    fn held(&self) -> Held {
        self.held
    }
}

/// Holds so many bytes of a stream from a place on, to be read (`CcMdlRead`). At most 1 MiB.
///
/// `NotCached`, `TooLong`, `BeyondSize`, `NoViews`, `ReadFault`, `WriteFault`, `LogFault`, `JournalFull`, `NoMemory`.
pub fn mdl_read<T: Turns>(
    alloc: Global,
    turns: &mut T,
    file: FileId,
    at: u64,
    len: u64,
) -> Result<ReadChain, CcError>
    requires can { CanCall (T.standing turns.old) file.stream }
    ensures ends { MakingEnds (T.standing turns.old) (T.standing turns.new) is_read_chain file at len
        (call.MdlRead file at len) result }
{
    let call = Call::MdlRead { file, at, len };
    match hold_range(alloc, turns, file, at, len, call) {
        Ok(held) => Ok(ReadChain { held }),
        Err(error) => Err(error),
    }
}

/// Holds so many bytes of a stream from a place on, to be stored into (`CcPrepareMdlWrite`). At most 1 MiB.
///
/// As [`mdl_read`].
pub fn prepare_mdl_write<T: Turns>(
    alloc: Global,
    turns: &mut T,
    file: FileId,
    at: u64,
    len: u64,
) -> Result<WriteChain, CcError>
    requires can { CanCall (T.standing turns.old) file.stream }
    ensures ends { MakingEnds (T.standing turns.old) (T.standing turns.new) is_write_chain file at len
        (call.MdlWrite file at len) result }
{
    let call = Call::MdlWrite { file, at, len };
    match hold_range(alloc, turns, file, at, len, call) {
        Ok(held) => Ok(WriteChain { held }),
        Err(error) => Err(error),
    }
}

/// Reads bytes of a read chain from a place of the stream on, as many as `out` has. In Windows it is a read of what the
/// MDL describes.
///
/// `JournalFull`, `NoMemory`.
pub fn mdl_bytes<T: Turns>(
    alloc: Global,
    turns: &mut T,
    chain: &ReadChain,
    at: u64,
    out: &mut [u8],
) -> Result<(), CcError>
    requires can { CanCall (T.standing turns.old) chain.now.file.stream }
    requires holding { IsHolding (T.standing turns.old) is_read_chain chain.now }
    requires covers { held_covers chain.now at (length out.old) ≡ true }
    ensures ends { HeldReadEnds (T.standing turns.old) (T.standing turns.new) is_read_chain chain.now
        (call.MdlBytes chain.now.id at (length out.old)) result out.old out.new }
{
    let call = Call::MdlBytes {
        hold: chain.held.id,
        at,
        len: out.len() as u64,
    };
    read_hold(alloc, turns, &chain.held, call, out)
}

/// Stores bytes into a write chain from a place of the stream on. The store is visible and dirty at once. In Windows it
/// is a write into what the MDL describes.
///
/// `BeyondValid`, `JournalFull`, `NoMemory`.
pub fn mdl_store<T: Turns>(
    alloc: Global,
    turns: &mut T,
    chain: &WriteChain,
    at: u64,
    piece: &[u8],
) -> Result<(), CcError>
    requires can { CanCall (T.standing turns.old) chain.now.file.stream }
    requires holding { IsHolding (T.standing turns.old) is_write_chain chain.now }
    requires covers { held_covers chain.now at (length piece.now) ≡ true }
    ensures ends { UseEnds (T.standing turns.old) (T.standing turns.new) is_write_chain chain.now
        (call.MdlStore chain.now.id at piece.now) result }
{
    let bytes = Bytes::of(alloc, piece)?;
    let call = Call::MdlStore {
        hold: chain.held.id,
        at,
        bytes,
    };
    write_hold(alloc, turns, &chain.held, call)
}

/// Ends a read chain (`CcMdlReadComplete`). Nothing refuses it.
pub fn mdl_read_complete<T: Turns>(alloc: Global, turns: &mut T, chain: ReadChain)
    requires can { CanCall (T.standing turns.old) chain.file.stream }
    requires holding { IsHolding (T.standing turns.old) is_read_chain chain }
    ensures ends { HoldEnded (T.standing turns.old) (T.standing turns.new) chain }
{
    let ReadChain { held } = chain;
    end_hold(alloc, turns, held);
}

/// Ends a write chain (`CcMdlWriteComplete`). Nothing refuses it.
pub fn mdl_write_complete<T: Turns>(alloc: Global, turns: &mut T, chain: WriteChain)
    requires can { CanCall (T.standing turns.old) chain.file.stream }
    requires holding { IsHolding (T.standing turns.old) is_write_chain chain }
    ensures ends { HoldEnded (T.standing turns.old) (T.standing turns.new) chain }
{
    let WriteChain { held } = chain;
    end_hold(alloc, turns, held);
}

/// Ends a write chain and leaves what was stored into it (`CcMdlWriteAbort`). Nothing refuses it.
pub fn mdl_write_abort<T: Turns>(alloc: Global, turns: &mut T, chain: WriteChain)
    requires can { CanCall (T.standing turns.old) chain.file.stream }
    requires holding { IsHolding (T.standing turns.old) is_write_chain chain }
    ensures ends { HoldEnded (T.standing turns.old) (T.standing turns.new) chain }
{
    mdl_write_complete(alloc, turns, chain);
}
