//! The calls that copy bytes out of a stream's pages and into them.

ghost use Rattle.cc_entry.specs.declared.call.Call.TheVariants as call;
ghost use Rattle.cc_calls.specs.Answers.{CanCall};
ghost use Rattle.cc_calls.specs.Pages.{ChangeEnds, ReadEnds};

use crate::turned::call_paged;
use cc_entry::{Bytes, Call, CcError, FileId, Span};
use cc_turns::Turns;
use cc_writes::Returned;
use std::alloc::Global;

/// Copies the bytes of a stream from a place on into the front of `out`, as far as they go below the size, and answers
/// how many they are (`CcCopyRead`). A call that may not wait brings no page in. At most 1 MiB.
///
/// `NotCached`, `TooLong`, `NoViews`, `NotResident` (of one that may not wait), `ReadFault`, `WriteFault`, `LogFault`,
/// `JournalFull`, `NoMemory`.
pub fn copy_read<T: Turns>(
    alloc: Global,
    turns: &mut T,
    file: FileId,
    at: u64,
    wait: bool,
    out: &mut [u8],
) -> Result<usize, CcError>
    requires can { CanCall (T.standing turns.old) file.stream }
    ensures ends { ReadEnds (T.standing turns.old) (T.standing turns.new) file at wait result out.old out.new }
{
    let len = out.len() as u64;
    let call = Call::CopyRead {
        file,
        at,
        len,
        wait,
    };
    match call_paged(alloc, turns, file.stream(), call, out) {
        Ok(told) => match told {
            Returned::Bytes(read) => Ok(read),
            _ => unreachable!(),
        },
        Err(error) => Err(error),
    }
}

/// Copies bytes into a stream from a place on (`CcCopyWrite`). At most 1 MiB.
///
/// `NotCached`, `TooLong`, `BeyondSize`, `BeyondValid`, `NoViews`, `ReadFault`, `WriteFault`, `LogFault`, `JournalFull`,
/// `NoMemory`.
pub fn copy_write<T: Turns>(
    alloc: Global,
    turns: &mut T,
    file: FileId,
    at: u64,
    piece: &[u8],
) -> Result<(), CcError>
    requires can { CanCall (T.standing turns.old) file.stream }
    ensures ends { ChangeEnds (T.standing turns.old) (T.standing turns.new) (call.CopyWrite file at piece.now) result }
{
    let bytes = Bytes::of(alloc, piece)?;
    let call = Call::CopyWrite { file, at, bytes };
    call_paged(alloc, turns, file.stream(), call, &mut [])?;
    Ok(())
}

/// Sets the bytes of a span to zero (`CcZeroData`). At most 1 MiB.
///
/// As [`copy_write`].
pub fn zero_data<T: Turns>(
    alloc: Global,
    turns: &mut T,
    file: FileId,
    span: Span,
) -> Result<(), CcError>
    requires can { CanCall (T.standing turns.old) file.stream }
    ensures ends { ChangeEnds (T.standing turns.old) (T.standing turns.new) (call.Zero file span) result }
{
    let call = Call::Zero { file, span };
    call_paged(alloc, turns, file.stream(), call, &mut [])?;
    Ok(())
}
