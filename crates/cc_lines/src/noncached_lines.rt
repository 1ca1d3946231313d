//! The noncached lines, which read and write whole pages.

ghost use Rattle.cc_entry.specs.declared.answer.Answer.TheVariants as answer;
ghost use Rattle.cc_entry.specs.declared.error.CcError.TheVariants as error;
ghost use Rattle.cc_pieces.specs.Answered.{NcReadAnswered, NcWriteAnswered};
ghost use Rattle.cc_calls.specs.Answers.{CanCall};
ghost use Rattle.cc_calls.specs.Pages.{StaysGood, WentOn};
ghost use Rattle.cc_lines.specs.Line.{IsFullTold, nc_refused};
ghost use Rattle.std.specs.Prelude.{◌≡◌};

use cc_entry::{Answer, Bytes, BytesRoom, CcError, FileId, Reply};
use cc_ranges::{NcError, noncached_read, noncached_write};
use cc_turns::Turns;
use std::alloc::Global;

/// A noncached read, whose bytes are the answer. Where memory for them is wanting, no page is read.
pub(crate) fn read_noncached<T: Turns>(
    alloc: Global,
    turns: &mut T,
    file: FileId,
    at: u64,
    len: u64,
) -> Answer
    requires { CanCall (T.standing turns.old) file.stream }
    ensures answered { NcReadAnswered (T.standing turns.old).setup (T.standing turns.old).number file at len result
        (T.standing turns.old).seen (T.standing turns.new).seen }
    ensures full { IsFullTold (T.standing turns.new) result }
    ensures goes_on { WentOn (T.standing turns.old) (T.standing turns.new) }
    ensures good { StaysGood (T.standing turns.old) (T.standing turns.new) }
{
    let Ok(mut out) = vec![in alloc; 0; len as usize] else {
        return wanting();
    };
    let Ok(room) = BytesRoom::new(alloc, out.len()) else {
        return wanting();
    };
    match noncached_read(alloc, turns, file, at, &mut out) {
        Ok(count) => Answer::Given(Reply::Read(room.keep(&out[..count]))),
        Err(failed) => refused(failed),
    }
}

/// A noncached write, whose answer is how many bytes it changed. Where memory for its bytes is wanting, no page is written.
pub(crate) fn write_noncached<T: Turns>(
    alloc: Global,
    turns: &mut T,
    file: FileId,
    at: u64,
    bytes: &Bytes,
) -> Answer
    requires { CanCall (T.standing turns.old) file.stream }
    ensures answered { NcWriteAnswered (T.standing turns.old).setup (T.standing turns.old).number file at bytes.now result
        (T.standing turns.old).seen (T.standing turns.new).seen }
    ensures full { IsFullTold (T.standing turns.new) result }
    ensures goes_on { WentOn (T.standing turns.old) (T.standing turns.new) }
    ensures good { StaysGood (T.standing turns.old) (T.standing turns.new) }
{
    let Ok(piece) = bytes.to_vec(alloc) else {
        return wanting();
    };
    match noncached_write(alloc, turns, file, at, &piece) {
        Ok(count) => Answer::Count(count as u64),
        Err(failed) => refused(failed),
    }
}

// The answer of a noncached call for which memory is wanting before its first page.
fn wanting() -> Answer
    ensures { result ≡ answer.NcRefused 0 error.NoMemory }
{
    Answer::NcRefused {
        done: 0,
        cause: CcError::NoMemory,
    }
}

// The answer of a noncached call that was refused, or failed.
fn refused(failed: NcError) -> Answer
    ensures { result ≡ nc_refused failed }
{
    Answer::NcRefused {
        done: failed.done,
        cause: failed.cause,
    }
}
