//! The calls on a log. They are no Cc routines: the log is the file system's own, and the cache flushes it before a page
//! goes to its disk.

ghost use Rattle.std.specs.Prelude.{◌≡◌, ◌<◌, false, None, Some};
ghost use Rattle.cc_effects.specs.LogCalls.{AppendLeft, LogFlushLeft};
ghost use Rattle.cc_model.specs.Good.{IsGood};
ghost use Rattle.cc_turns.specs.Log.{LogStands};
ghost use Rattle.cc_turns.specs.Takes.{Grows};
ghost use Rattle.cc_writes.specs.Hands.{WentWith};
ghost use Rattle.cc_writes.specs.Ways.{IsFull};
ghost use Rattle.cc_calls.specs.Answers.{IsFree};
ghost use Rattle.cc_calls.specs.Logs.{HadRoom, IsNotFull, LogEnds, PlaceIn, LogPlaceLeft, LogPlaceKept};

use cc_entry::{Bytes, CcError, Entry, Lsn};
use cc_journal::Journal;
use cc_log::LogTurn;
use cc_turns::Turns;
use cc_writes::{LogFlush, flush_to, give_back, place};
use std::alloc::Global;

/// Appends an entry to a log, and answers its LSN, which is the one behind the log's floor.
///
/// `JournalFull`, `NoLog`, `LogFull`, `LogFault`, `NoMemory`.
pub fn log_append<T: Turns>(
    alloc: Global,
    turns: &mut T,
    handle: u8,
    piece: &[u8],
) -> Result<Lsn, CcError>
    requires can { IsFree (T.standing turns.old) }
    ensures ends { LogEnds (T.standing turns.old) (T.standing turns.new)
        (AppendLeft (T.standing turns.old).setup (T.standing turns.old).number handle piece.now) result }
{
    let bytes = Bytes::of(alloc, piece)?;
    reserve_for(turns, handle)?;
    append_to(turns, handle, piece, bytes)
}

/// Flushes a log to an LSN. Where an earlier flush reached it, nothing is done.
///
/// `JournalFull`, `NoLog`, `LogFault`, `NoMemory`.
pub fn log_flush<T: Turns>(turns: &mut T, handle: u8, lsn: Lsn) -> Result<(), CcError>
    requires can { IsFree (T.standing turns.old) }
    ensures ends { LogEnds (T.standing turns.old) (T.standing turns.new)
        (LogFlushLeft (T.standing turns.old).setup (T.standing turns.old).number handle lsn) result }
{
    reserve_for(turns, handle)?;
    match flush_to(turns, handle, lsn) {
        Ok(LogFlush::Reached) => Ok(()),
        Ok(LogFlush::Failed(failed)) => Err(CcError::LogFault {
            handle: u64::from(failed),
        }),
        Err(error) => Err(error),
    }
}

// Reserves a place for the entry of a log, which there has to be.
fn reserve_for<T: Turns>(turns: &mut T, handle: u8) -> Result<(), CcError>
    requires away { (T.standing turns.old).held.journal ≡ false }
    requires none { (T.standing turns.old).in_flight ≡ 0 }
    ensures grows { Grows (T.standing turns.old) (T.standing turns.new).seen }
    ensures good { IsGood (T.standing turns.new).setup (T.standing turns.new).seen }
    ensures left { LogPlaceLeft handle result (T.standing turns.old) (T.standing turns.new) }
    ensures full { IsFull 1 (T.standing turns.new) result }
    ensures room { HadRoom (T.standing turns.new) result }
{
    let mut journal = turns.take_journal();
    let reserved = reserve_in(&mut journal, handle);
    turns.give_journal(journal);
    reserved
}

// The same in a journal in hand. Room is asked before the log.
fn reserve_in<Q>(journal: &mut Journal<Q>, handle: u8) -> Result<(), CcError>
    ensures { PlaceIn handle result journal.old journal.new }
{
    match journal.reserve(1) {
        Ok(()) => place_of(journal, handle),
        Err(error) => Err(error),
    }
}

// The place that is reserved stays where there is such a log, and is given back where there is none.
fn place_of<Q>(journal: &mut Journal<Q>, handle: u8) -> Result<(), CcError>
    requires { 0 < journal.old.reserved }
    ensures { LogPlaceKept handle result journal.old journal.new }
{
    if handle < journal.logs() {
        return Ok(());
    }
    journal.release(1);
    Err(CcError::NoLog {
        handle: u64::from(handle),
    })
}

// Appends an entry to a log. The place that is reserved for it is used, or given back.
fn append_to<T: Turns>(
    turns: &mut T,
    handle: u8,
    piece: &[u8],
    bytes: Bytes,
) -> Result<Lsn, CcError>
    requires no_log { (T.standing turns.old).held.log ≡ None }
    requires away { (T.standing turns.old).held.journal ≡ false }
    requires reserved { (T.standing turns.old).in_flight ≡ 1 }
    requires known { handle < (T.standing turns.old).setup.logs }
    requires same { bytes ≡ piece.now }
    ensures good { IsGood (T.standing turns.new).setup (T.standing turns.new).seen }
    ensures went { WentWith 0 (T.standing turns.old) (T.standing turns.new) }
    ensures left { AppendLeft (T.standing turns.old).setup (T.standing turns.old).number handle piece.now result
        (T.standing turns.old).seen (T.standing turns.new).seen }
    ensures room { IsNotFull result }
{
    let mut log = turns.take_log(handle);
    let appended = append_held(turns, &mut log, handle, piece, bytes);
    turns.give_log(handle, log);
    appended
}

// The same of a log whose turn is held.
fn append_held<T: Turns>(
    turns: &mut T,
    log: &mut LogTurn<T::Log>,
    handle: u8,
    piece: &[u8],
    bytes: Bytes,
) -> Result<Lsn, CcError>
    requires held { (T.standing turns.old).held.log ≡ Some handle }
    requires away { (T.standing turns.old).held.journal ≡ false }
    requires reserved { (T.standing turns.old).in_flight ≡ 1 }
    requires known { handle < (T.standing turns.old).setup.logs }
    requires same { bytes ≡ piece.now }
    requires handle { log.old.handle ≡ handle }
    requires stands { LogStands T.Log.told T.Log.faults ((T.standing turns.old).logs handle)
        (T.standing turns.old).seen log.old }
    ensures good { IsGood (T.standing turns.new).setup (T.standing turns.new).seen }
    ensures went { WentWith 0 (T.standing turns.old) (T.standing turns.new) }
    ensures left { AppendLeft (T.standing turns.old).setup (T.standing turns.old).number handle piece.now result
        (T.standing turns.old).seen (T.standing turns.new).seen }
    ensures room { IsNotFull result }
    ensures handle { log.new.handle ≡ handle }
    ensures stands { LogStands T.Log.told T.Log.faults ((T.standing turns.new).logs handle)
        (T.standing turns.new).seen log.new }
{
    let pass = turns.me();
    match log.append(piece) {
        Ok(lsn) => {
            let entry = Entry::Append {
                pass,
                handle,
                lsn,
                bytes,
            };
            place(turns, entry);
            Ok(lsn)
        }
        Err(error) => {
            match error {
                CcError::LogFault { .. } => place(turns, Entry::LogFailed { pass, handle }),
                _ => give_back(turns),
            }
            Err(error)
        }
    }
}
