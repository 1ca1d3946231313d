//! A copied read whose bytes are kept: by one that may wait or may not, and of a stream that there is not.

ghost use Rattle.std.specs.Prelude.{◌≡◌, ◌≤◌, true, length, Err};
ghost use Rattle.cc_model.specs.Good.{IsGood};
ghost use Rattle.cc_model.specs.Room.{reserved_in};
ghost use Rattle.cc_model.specs.Setup.{Setup};
ghost use Rattle.cc_calls.specs.Answers.{CanCall, IsFree};
ghost use Rattle.cc_async.specs.Reads.{IsRefusedIn, AsyncReadLeft};

use crate::queue::QueuedRead;
use cc_calls::copy_read;
use cc_entry::{Bytes, BytesRoom, Call, CcError, Entry, FileId, Outcome};
use cc_journal::Journal;
use cc_turns::Turns;
use std::alloc::Global;

/// Copies bytes of a stream that there is, and keeps them. The memory for them is taken before the read is made.
pub(crate) fn keep_read<T: Turns>(
    alloc: Global,
    turns: &mut T,
    file: FileId,
    at: u64,
    len: u64,
    wait: bool,
) -> Result<Bytes, CcError>
    requires can { CanCall (T.standing turns.old) file.stream }
    ensures left { AsyncReadLeft (T.standing turns.old) (T.standing turns.new) file at len wait result }
{
    let Ok(mut out) = vec![in alloc; 0; len as usize] else {
        return Err(CcError::NoMemory);
    };
    let Ok(room) = BytesRoom::new(alloc, out.len()) else {
        return Err(CcError::NoMemory);
    };
    read_into(alloc, turns, file, at, wait, &mut out, room)
}

// The same, into what has the length of the read, with room for its bytes.
fn read_into<T: Turns>(
    alloc: Global,
    turns: &mut T,
    file: FileId,
    at: u64,
    wait: bool,
    out: &mut [u8],
    room: BytesRoom,
) -> Result<Bytes, CcError>
    requires can { CanCall (T.standing turns.old) file.stream }
    requires fits { length out.old ≤ room }
    ensures left { AsyncReadLeft (T.standing turns.old) (T.standing turns.new) file at (length out.old) wait result }
{
    match copy_read(alloc, turns, file, at, wait, out) {
        Ok(count) => Ok(room.keep(&out[..count])),
        Err(error) => Err(error),
    }
}

/// Refuses a queued read of a stream that there is not: no object of it is open. Its entry is placed under the journal's turn
/// alone.
pub(crate) fn refuse_read<T: Turns>(turns: &mut T, read: QueuedRead) -> CcError
    requires can { IsFree (T.standing turns.old) }
    requires unknown { (T.standing turns.old).streams ≤ read.file.stream }
    ensures left { AsyncReadLeft (T.standing turns.old) (T.standing turns.new) read.file read.at read.len true (Err result) }
{
    let mut journal = turns.take_journal();
    let pass = turns.me();
    let error = refuse_in(&mut journal, pass, read);
    turns.give_journal(journal);
    error
}

// The same with the journal in hand. Room comes first. No run opens an object of a stream that there is not; one that is open
// could not be told as closed, and `NoMemory` is answered.
fn refuse_in<Q>(journal: &mut Journal<Q>, pass: u32, read: QueuedRead) -> CcError
    requires good { (u : Setup) × IsGood u journal.old.entries }
    requires owed { reserved_in journal.old.entries ≤ journal.old.reserved }
    ensures { IsRefusedIn pass read result journal.old journal.new }
{
    let stream = read.file.stream();
    match journal.reserve(1) {
        Ok(()) => {}
        Err(error) => return error,
    }
    if journal.is_mapped(stream) {
        journal.release(1);
        return CcError::NoMemory;
    }
    let nth = journal.next_call(pass);
    let owed = journal.owed_end(pass);
    journal.push(Entry::Call {
        pass,
        nth,
        stream: Some(stream),
        call: Call::CopyRead {
            file: read.file,
            at: read.at,
            len: read.len,
            wait: true,
        },
        outcome: Outcome::Failed(CcError::NotCached),
    });
    journal.release(owed);
    CcError::NotCached
}
