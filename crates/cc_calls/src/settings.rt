//! The calls that set something of their stream: they need no page, and answer no value.

ghost use Rattle.std.specs.Prelude.{◌≡◌, true};
ghost use Rattle.cc_entry.specs.declared.call.Call.TheVariants as call;
ghost use Rattle.cc_writes.specs.Visits.{CallIsOfStream};
ghost use Rattle.cc_calls.specs.Answers.{CanCall, CallSets, is_setting};

use crate::turned::call_at_once;
use cc_entry::{Call, CcError, FileId, StreamId};
use cc_turns::Turns;
use std::alloc::Global;

/// Sets the allocation and the size of a stream, in bytes (`CcSetFileSizes`). Pages at or past the size go.
///
/// `NotCached`, `BadSizes`, `Held`, `JournalFull`, `NoMemory`.
pub fn set_file_sizes<T: Turns>(
    alloc: Global,
    turns: &mut T,
    file: FileId,
    allocation: u64,
    size: u64,
) -> Result<(), CcError>
    requires { CanCall (T.standing turns.old) file.stream }
    ensures { CallSets (T.standing turns.old) (T.standing turns.new) (call.SetSizes file allocation size) result }
{
    let call = Call::SetSizes {
        file,
        allocation,
        size,
    };
    set(alloc, turns, file.stream(), call)
}

/// Sets the log of a stream (`CcSetLogHandleForFile`).
///
/// `NotCached`, `NoLog`, `JournalFull`, `NoMemory`.
pub fn set_log_handle<T: Turns>(
    alloc: Global,
    turns: &mut T,
    file: FileId,
    handle: u8,
) -> Result<(), CcError>
    requires { CanCall (T.standing turns.old) file.stream }
    ensures { CallSets (T.standing turns.old) (T.standing turns.new) (call.SetLog file handle) result }
{
    set(alloc, turns, file.stream(), Call::SetLog { file, handle })
}

/// Sets the granularity of a file object's read-ahead, in bytes (`CcSetReadAheadGranularity`).
///
/// `NotCached`, `BadGranularity`, `JournalFull`, `NoMemory`.
pub fn set_granularity<T: Turns>(
    alloc: Global,
    turns: &mut T,
    file: FileId,
    bytes: u64,
) -> Result<(), CcError>
    requires { CanCall (T.standing turns.old) file.stream }
    ensures { CallSets (T.standing turns.old) (T.standing turns.new) (call.SetGranularity file bytes) result }
{
    set(
        alloc,
        turns,
        file.stream(),
        Call::SetGranularity { file, bytes },
    )
}

/// Sets what the journal says of a stream's read-ahead and of the lazy writer's choice of its pages
/// (`CcSetAdditionalCacheAttributes`). Nothing reads ahead or writes behind by itself.
///
/// `NotCached`, `JournalFull`, `NoMemory`.
pub fn set_attributes<T: Turns>(
    alloc: Global,
    turns: &mut T,
    file: FileId,
    no_read_ahead: bool,
    no_write_behind: bool,
) -> Result<(), CcError>
    requires { CanCall (T.standing turns.old) file.stream }
    ensures { CallSets (T.standing turns.old) (T.standing turns.new)
        (call.SetAttributes file no_read_ahead no_write_behind) result }
{
    let call = Call::SetAttributes {
        file,
        no_read_ahead,
        no_write_behind,
    };
    set(alloc, turns, file.stream(), call)
}

/// Sets how many pages of a stream may be dirty before a write may not go, 0 for no limit (`CcSetDirtyPageThreshold`).
/// Nothing holds a write back by itself.
///
/// `NotCached`, `JournalFull`, `NoMemory`.
pub fn set_threshold<T: Turns>(
    alloc: Global,
    turns: &mut T,
    file: FileId,
    pages: u32,
) -> Result<(), CcError>
    requires { CanCall (T.standing turns.old) file.stream }
    ensures { CallSets (T.standing turns.old) (T.standing turns.new) (call.SetThreshold file pages) result }
{
    set(
        alloc,
        turns,
        file.stream(),
        Call::SetThreshold { file, pages },
    )
}

/// Makes such a call.
pub(crate) fn set<T: Turns>(
    alloc: Global,
    turns: &mut T,
    stream: StreamId,
    call: Call,
) -> Result<(), CcError>
    requires can { CanCall (T.standing turns.old) stream }
    requires sets { is_setting call ≡ true }
    requires filed { CallIsOfStream call stream }
    ensures { CallSets (T.standing turns.old) (T.standing turns.new) call result }
{
    call_at_once(alloc, turns, stream, call, &mut [])?;
    Ok(())
}
