//! A checkpoint of a log, from which a restart begins.

ghost use Rattle.std.specs.Prelude.{◌≡◌, ◌++◌, ◌∷◌, [], ◌<◌, ◌≤◌, All, IfOk, OnOk, length, map, if◌then◌else◌};
ghost use Rattle.cc_calls.specs.Answers.{CanCall, IsFree};
ghost use Rattle.cc_pieces.specs.Checkpoints.{CheckpointLeft, RecordFlushed, RecordLogged, RowsLogged, SyncedLogged, record_of_rows, sync_call};
ghost use Rattle.cc_pieces.specs.Shim.{CallsLeft};
ghost use Rattle.cc_shim.specs.Checkpoints.{LogAsked, LogsAsked, SyncCallLeft};
ghost use Rattle.cc_shim.specs.Ends.{ListEnds};

use crate::rows::record_of_rows;
use crate::volume::Volume;
use cc_calls::{dirty_pages, file_state, flush, log_append, log_flush};
use cc_entry::{CcError, DirtyRow, FileId, Lsn, NoMemory, Span};
use cc_turns::Turns;
use std::alloc::Global;

/// Makes a checkpoint of a log: asks for the log's dirty page table, syncs the disk of each stream of the volume that has
/// the log, by the flush of an empty span of its object 0, appends the record of the table to the log, and flushes the log
/// up to it. The answer is the LSN of that record: the byte 255, the number of rows (4 bytes), and of each row the stream
/// (1 byte), the page (8 bytes) and the oldest LSN (8 bytes), with numbers little endian. A stream whose object 0 is not
/// open is passed over. In Windows it is what a file system does with its log from time to time: `CcGetDirtyPages`, and its
/// log.
///
/// The first refusal of its calls is the answer, and the calls before it stand.
///
/// `NotCached` where an object that was seen open is closed before it is flushed; `NoLog`, `LogFull`, `WriteFault` (of page 0,
/// where a sync failed), `LogFault`, `JournalFull`, `NoMemory`.
pub fn checkpoint<T: Turns>(
    alloc: Global,
    turns: &mut T,
    volume: &Volume,
    handle: u8,
) -> Result<Lsn, CcError>
    requires can { IsFree (T.standing turns.old) }
    requires known { length volume.now ≤ (T.standing turns.old).streams }
    ensures ends { ListEnds (T.standing turns.old) (T.standing turns.new)
        (CheckpointLeft (T.standing turns.old).setup (T.standing turns.old).number (length volume.now) handle) result }
{
    checkpoint_streams(alloc, turns, volume.len(), handle)
}

/// The same of the first streams of a run, so many of them.
pub fn checkpoint_streams<T: Turns>(
    alloc: Global,
    turns: &mut T,
    streams: u8,
    handle: u8,
) -> Result<Lsn, CcError>
    requires can { IsFree (T.standing turns.old) }
    requires known { streams ≤ (T.standing turns.old).streams }
    requires few { streams ≤ 16 }
    ensures ends { ListEnds (T.standing turns.old) (T.standing turns.new)
        (CheckpointLeft (T.standing turns.old).setup (T.standing turns.old).number streams handle) result }
{
    match dirty_pages(alloc, turns, handle) {
        Ok(rows) => log_rows(alloc, turns, streams, handle, rows.as_slice()),
        Err(error) => {
            turns.note_others();
            Err(error)
        }
    }
}

// The same by these rows. Their record is made before the streams are asked.
fn log_rows<T: Turns>(
    alloc: Global,
    turns: &mut T,
    streams: u8,
    handle: u8,
    rows: &[DirtyRow],
) -> Result<Lsn, CcError>
    requires can { IsFree (T.standing turns.old) }
    requires known { streams ≤ (T.standing turns.old).streams }
    requires few { streams ≤ 16 }
    ensures ends { ListEnds (T.standing turns.old) (T.standing turns.new)
        (RowsLogged (T.standing turns.old).setup (T.standing turns.old).number streams handle rows.now) result }
{
    match record_of_rows(alloc, rows) {
        Ok(spelled) => log_spelled(alloc, turns, streams, handle, rows, &spelled),
        Err(NoMemory) => Err(CcError::NoMemory),
    }
}

// The same with the record's bytes.
fn log_spelled<T: Turns>(
    alloc: Global,
    turns: &mut T,
    streams: u8,
    handle: u8,
    rows: &[DirtyRow],
    spelled: &[u8],
) -> Result<Lsn, CcError>
    requires can { IsFree (T.standing turns.old) }
    requires known { streams ≤ (T.standing turns.old).streams }
    requires few { streams ≤ 16 }
    requires spelled { spelled.now ≡ record_of_rows rows.now }
    ensures ends { ListEnds (T.standing turns.old) (T.standing turns.new)
        (RowsLogged (T.standing turns.old).setup (T.standing turns.old).number streams handle rows.now) result }
{
    match streams_of(alloc, turns, streams, handle) {
        Ok(found) => log_synced(alloc, turns, &found, handle, spelled),
        Err(error) => Err(error),
    }
}

// Those of the first streams that are open and have the log.
fn streams_of<T: Turns>(
    alloc: Global,
    turns: &mut T,
    streams: u8,
    handle: u8,
) -> Result<Vec<u8>, CcError>
    requires can { IsFree (T.standing turns.old) }
    requires known { streams ≤ (T.standing turns.old).streams }
    requires few { streams ≤ 16 }
    ensures ends { ListEnds (T.standing turns.old) (T.standing turns.new)
        (LogsAsked (T.standing turns.old).setup (T.standing turns.old).number handle streams) result }
    ensures below { IfOk result (λ found. All (λ stream. stream < streams) found.items) }
{
    let mut found = Vec::new(alloc);
    for stream in 0..streams {
        match has_log(alloc, turns, stream, handle) {
            Ok(has) => match keep(&mut found, stream, has) {
                Ok(()) => (),
                Err(NoMemory) => return Err(CcError::NoMemory),
            },
            Err(error) => return Err(error),
        }
    }
    Ok(found)
}

// Keeps a stream that has the log.
fn keep(found: &mut Vec<u8>, stream: u8, has: bool) -> Result<(), NoMemory>
    ensures { OnOk result (found.new.items ≡ (if has then found.old.items ++ stream ∷ [] else found.old.items)) }
{
    if has {
        found.push(stream).map_err(|_| NoMemory)?;
    }
    Ok(())
}

// Whether a stream has the log; one that is not open has not.
fn has_log<T: Turns>(alloc: Global, turns: &mut T, stream: u8, handle: u8) -> Result<bool, CcError>
    requires can { CanCall (T.standing turns.old) stream }
    requires few { stream < 16 }
    ensures ends { ListEnds (T.standing turns.old) (T.standing turns.new)
        (LogAsked (T.standing turns.old).setup (T.standing turns.old).number handle stream) result }
{
    let file = FileId::new(stream, 0).unwrap();
    match file_state(alloc, turns, file) {
        Ok(state) => match state.log {
            Some(log) => Ok(log == handle),
            None => Ok(false),
        },
        Err(CcError::NotCached) => Ok(false),
        Err(error) => {
            turns.note_others();
            Err(error)
        }
    }
}

// Syncs the disks of streams, and logs the record behind that.
fn log_synced<T: Turns>(
    alloc: Global,
    turns: &mut T,
    found: &[u8],
    handle: u8,
    spelled: &[u8],
) -> Result<Lsn, CcError>
    requires can { IsFree (T.standing turns.old) }
    requires known { All (λ stream. stream < (T.standing turns.old).streams) found.now }
    requires few { All (λ stream. stream < 16) found.now }
    ensures ends { ListEnds (T.standing turns.old) (T.standing turns.new)
        (SyncedLogged (T.standing turns.old).setup (T.standing turns.old).number handle found.now spelled.now) result }
{
    match sync_all(alloc, turns, found) {
        Ok(()) => log_record(alloc, turns, handle, spelled),
        Err(error) => Err(error),
    }
}

// Syncs the disks of streams, of one after the other.
fn sync_all<T: Turns>(alloc: Global, turns: &mut T, found: &[u8]) -> Result<(), CcError>
    requires can { IsFree (T.standing turns.old) }
    requires known { All (λ stream. stream < (T.standing turns.old).streams) found.now }
    requires few { All (λ stream. stream < 16) found.now }
    ensures ends { ListEnds (T.standing turns.old) (T.standing turns.new)
        (CallsLeft (T.standing turns.old).setup (T.standing turns.old).number (map sync_call found.now)) result }
{
    for stream in found {
        match sync(alloc, turns, *stream) {
            Ok(()) => (),
            Err(error) => return Err(error),
        }
    }
    Ok(())
}

// Syncs the disk of a stream: flushes a span of it that has no byte.
fn sync<T: Turns>(alloc: Global, turns: &mut T, stream: u8) -> Result<(), CcError>
    requires can { CanCall (T.standing turns.old) stream }
    requires few { stream < 16 }
    ensures ends { ListEnds (T.standing turns.old) (T.standing turns.new)
        (SyncCallLeft (T.standing turns.old).setup (T.standing turns.old).number stream) result }
{
    let file = FileId::new(stream, 0).unwrap();
    let span = Span::new(0, 0).unwrap();
    let answer = flush(alloc, turns, file, Some(span));
    turns.note_others();
    answer
}

// Appends the record, and flushes the log up to it.
fn log_record<T: Turns>(
    alloc: Global,
    turns: &mut T,
    handle: u8,
    spelled: &[u8],
) -> Result<Lsn, CcError>
    requires can { IsFree (T.standing turns.old) }
    ensures ends { ListEnds (T.standing turns.old) (T.standing turns.new)
        (RecordLogged (T.standing turns.old).setup (T.standing turns.old).number handle spelled.now) result }
{
    match log_append(alloc, turns, handle, spelled) {
        Ok(lsn) => flush_record(turns, handle, lsn),
        Err(error) => {
            turns.note_others();
            Err(error)
        }
    }
}

// Flushes the log up to the record.
fn flush_record<T: Turns>(turns: &mut T, handle: u8, lsn: Lsn) -> Result<Lsn, CcError>
    requires can { IsFree (T.standing turns.old) }
    ensures ends { ListEnds (T.standing turns.old) (T.standing turns.new)
        (RecordFlushed (T.standing turns.old).setup (T.standing turns.old).number handle lsn) result }
{
    match log_flush(turns, handle, lsn) {
        Ok(()) => Ok(lsn),
        Err(error) => {
            turns.note_others();
            Err(error)
        }
    }
}
