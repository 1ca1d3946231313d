//! The calls that make cache maps and end them.

ghost use Rattle.cc_entry.specs.declared.call.Call.TheVariants as call;
ghost use Rattle.cc_calls.specs.Answers.{CanCall, CallSets};
ghost use Rattle.cc_calls.specs.Maps.{UninitializeEnds};

use crate::settings::set;
use crate::told::flag;
use crate::turned::call_at_once;
use cc_entry::{Call, CcError, FileId, FileSizes, Quota};
use cc_turns::Turns;
use std::alloc::Global;

/// Makes the shared cache map of a stream, with a private one for the file object, or the private one alone where there
/// is a shared map (`CcInitializeCacheMap`). Sizes are in bytes, the quota is in view blocks.
///
/// `BadSizes`, `NoVacbs`, `JournalFull`, `NoMemory`.
pub fn initialize<T: Turns>(
    alloc: Global,
    turns: &mut T,
    file: FileId,
    sizes: FileSizes,
    quota: Quota,
    temporary: bool,
) -> Result<(), CcError>
    requires { CanCall (T.standing turns.old) file.stream }
    ensures { CallSets (T.standing turns.old) (T.standing turns.new) (call.Initialise file sizes quota temporary) result }
{
    let call = Call::Initialise {
        file,
        sizes,
        quota,
        temporary,
    };
    set(alloc, turns, file.stream(), call)
}

/// Ends the private cache map of a file object (`CcUninitializeCacheMap`), and answers whether the shared map of its
/// stream went with it. With the last private one the stream's size falls to `truncate`, in bytes, where that is below
/// it; the shared map goes too, unless a page is dirty: then it is closing, and goes with the step that leaves none.
///
/// `NotCached`, `Held` (of the last private map, while a hold of the stream is open), `JournalFull`, `NoMemory`.
pub fn uninitialize<T: Turns>(
    alloc: Global,
    turns: &mut T,
    file: FileId,
    truncate: Option<u64>,
) -> Result<bool, CcError>
    requires can { CanCall (T.standing turns.old) file.stream }
    ensures ends { UninitializeEnds (T.standing turns.old) (T.standing turns.new) file truncate result }
{
    let call = Call::Uninitialise { file, truncate };
    match call_at_once(alloc, turns, file.stream(), call, &mut []) {
        Ok(told) => Ok(flag(told)),
        Err(error) => Err(error),
    }
}
