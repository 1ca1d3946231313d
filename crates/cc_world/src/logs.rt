//! What an event does to a log.

ghost use Rattle.std.specs.Prelude.{◌≡◌, false};
ghost use Rattle.cc_model.specs.Setup.{Setup};
ghost use Rattle.cc_turns.specs.Standing.{LogAtFirst};
ghost use Rattle.cc_world.specs.Logs.{IsLogStanding, IsToFlush, LogEnded, LogEventLeft, LogStandsUnder};
ghost use Rattle.cc_effects.specs.declared.events.Event.TheVariants as event;

use cc_effects::StepReply;
use cc_entry::{Bytes, CcError, Entry, Lsn, NoMemory, Reply};
use cc_journal::Journal;
use cc_log::LogTurn;
use cc_traits::LogFile;
use std::alloc::Global;

/// Appends an entry to a log.
pub(crate) fn append<L: LogFile, Q>(
    alloc: Global,
    log: &mut LogTurn<L>,
    journal: &mut Journal<Q>,
    pass: u32,
    handle: u8,
    bytes: Bytes,
) -> StepReply<Q>
    requires handle { log.old.handle ≡ handle }
    requires standing { IsLogStanding L.told L.faults 0 log.old journal.old }
    ensures { (u : Setup) (first : LogAtFirst) → LogStandsUnder L.told L.faults u first 0 log.old journal.old →
        LogEventLeft L.told L.faults u first (event.Append pass handle bytes) result log.old log.new
        journal.old journal.new }
{
    match journal.reserve(1) {
        Ok(()) => append_on(alloc, log, journal, pass, handle, bytes),
        Err(error) => StepReply::Refused(error),
    }
}

// Appends an entry to a log, with a place reserved for that of the journal.
fn append_on<L: LogFile, Q>(
    alloc: Global,
    log: &mut LogTurn<L>,
    journal: &mut Journal<Q>,
    pass: u32,
    handle: u8,
    bytes: Bytes,
) -> StepReply<Q>
    requires handle { log.old.handle ≡ handle }
    requires standing { IsLogStanding L.told L.faults 1 log.old journal.old }
    ensures { (u : Setup) (first : LogAtFirst) → LogStandsUnder L.told L.faults u first 1 log.old journal.old →
        LogEnded L.told L.faults u first (event.Append pass handle bytes) result log.old log.new
        journal.old journal.new }
{
    match bytes.to_vec(alloc) {
        Ok(piece) => append_kept(log, journal, pass, handle, &piece, bytes),
        Err(NoMemory) => {
            journal.release(1);
            StepReply::Refused(CcError::NoMemory)
        }
    }
}

// The same, with the bytes as the log takes them.
fn append_kept<L: LogFile, Q>(
    log: &mut LogTurn<L>,
    journal: &mut Journal<Q>,
    pass: u32,
    handle: u8,
    piece: &Vec<u8>,
    bytes: Bytes,
) -> StepReply<Q>
    requires handle { log.old.handle ≡ handle }
    requires same { bytes ≡ piece.now.items }
    requires standing { IsLogStanding L.told L.faults 1 log.old journal.old }
    ensures { (u : Setup) (first : LogAtFirst) → LogStandsUnder L.told L.faults u first 1 log.old journal.old →
        LogEnded L.told L.faults u first (event.Append pass handle bytes) result log.old log.new
        journal.old journal.new }
{
    match log.append(piece) {
        Ok(lsn) => {
            journal.push(Entry::Append {
                pass,
                handle,
                lsn,
                bytes,
            });
            StepReply::NewLsn(lsn)
        }
        Err(error) => match error {
            CcError::LogFault { .. } => {
                journal.push(Entry::LogFailed { pass, handle });
                StepReply::Faulted
            }
            _ => {
                journal.release(1);
                StepReply::Refused(error)
            }
        },
    }
}

/// Flushes a log to an LSN, where it was not flushed so far.
pub(crate) fn flush<L: LogFile, Q>(
    log: &mut LogTurn<L>,
    journal: &mut Journal<Q>,
    pass: u32,
    handle: u8,
    to: Lsn,
) -> StepReply<Q>
    requires handle { log.old.handle ≡ handle }
    requires standing { IsLogStanding L.told L.faults 0 log.old journal.old }
    ensures { (u : Setup) (first : LogAtFirst) → LogStandsUnder L.told L.faults u first 0 log.old journal.old →
        LogEventLeft L.told L.faults u first (event.LogFlush pass handle to) result log.old log.new
        journal.old journal.new }
{
    if to.number() <= log.flushed() {
        return StepReply::Done(Reply::Unit);
    }
    match journal.reserve(1) {
        Ok(()) => flush_on(log, journal, pass, handle, to),
        Err(error) => StepReply::Refused(error),
    }
}

// Flushes a log that was not flushed so far, with a place reserved for the entry.
fn flush_on<L: LogFile, Q>(
    log: &mut LogTurn<L>,
    journal: &mut Journal<Q>,
    pass: u32,
    handle: u8,
    to: Lsn,
) -> StepReply<Q>
    requires handle { log.old.handle ≡ handle }
    requires standing { IsToFlush L.told L.faults handle to log.old journal.old }
    ensures { (u : Setup) (first : LogAtFirst) → LogStandsUnder L.told L.faults u first 1 log.old journal.old →
        LogEnded L.told L.faults u first (event.LogFlush pass handle to) result log.old log.new
        journal.old journal.new }
{
    match log.flush(to) {
        Ok(()) => {
            journal.push(Entry::Flushed { pass, handle, to });
            StepReply::Done(Reply::Unit)
        }
        Err(error) => match error {
            CcError::LogFault { .. } => {
                journal.push(Entry::LogFailed { pass, handle });
                StepReply::Faulted
            }
            _ => {
                journal.release(1);
                StepReply::Refused(error)
            }
        },
    }
}
