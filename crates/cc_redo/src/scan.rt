//! A log is read, and what a restart takes from its entries.

ghost use Rattle.std.specs.Prelude.{◌≡◌, ◌+◌, ◌^◌, ◌≤◌, Some, None, IfOk, IfErr, MatchOption, length};
ghost use Rattle.cc_traits.specs.Told.{IfTold};
ghost use Rattle.cc_redo.specs.Ends.{log_faults};
ghost use Rattle.cc_redo.specs.Heard.{all_updates, change_said, from_of, is_given, is_update, last_lsn_of, oldest_given_in, readings, redone_valid};
ghost use Rattle.cc_redo.specs.Scanned.{IsLogRefusal, log_refusal_of};

use crate::record::{LogRecord, read_log_record};
use crate::redo::Redo;
use cc_entry::CcError;
use cc_format::OldestRow;
use cc_traits::{LogFile, Stop};
use std::alloc::Global;

/// The most entries of a log that is redone.
const MOST: u64 = 4194304;

/// The handle that a fault of the log carries: a restart knows the log's own of no caller.
const HANDLE: u64 = 255;

/// The greatest LSN.
const LAST_LSN: u64 = 1 << 62;

/// An entry of a log, as it is read.
#[derive(Drop)]
pub(crate) struct ReadEntry {
    pub lsn: u64,
    pub says: Option<LogRecord>,
}

/// Reads a log, each entry once. What no record spells is not kept.
pub(crate) fn read_log<L: LogFile>(alloc: Global, log: &mut L) -> Result<Vec<ReadEntry>, CcError>
    ensures read { IfOk result (λ entries. IfTold (L.told log.old) (λ told.
        (entries.items ≡ readings told.entries) × (length told.entries ≤ 4194304))) }
    ensures stays { L.told log.new ≡ L.told log.old }
    ensures refused { IfErr result (IsLogRefusal (L.told log.old)) }
    ensures counted { L.faults log.new ≡ L.faults log.old + log_faults result }
{
    let mut entries = Vec::new(alloc);
    let mut bytes = Vec::new(alloc);
    for n in 0..MOST {
        match log.entry(n, &mut bytes) {
            Ok(Some(lsn)) => {
                let says = read_log_record(alloc, &bytes)?;
                entries.push(ReadEntry { lsn, says })?;
            }
            Ok(None) => return Ok(entries),
            Err(stop) => return Err(log_refusal(stop)),
        }
    }
    match log.entry(MOST, &mut bytes) {
        Ok(Some(_)) => Err(CcError::TooLong { limit: MOST }),
        Ok(None) => Ok(entries),
        Err(stop) => Err(log_refusal(stop)),
    }
}

// What a restart answers whose log stopped.
fn log_refusal(stop: Stop) -> CcError
    ensures { result ≡ log_refusal_of stop }
{
    match stop {
        Stop::Failed => CcError::LogFault { handle: HANDLE },
        Stop::NoMemory => CcError::NoMemory,
    }
}

/// The change that a record says for a stream: its place and its bytes.
pub(crate) fn change_in<'a>(says: &'a Option<LogRecord>, redo: &Redo) -> Option<(u64, &'a [u8])>
    ensures { MatchOption result (change_said redo.now says.now ≡ None)
        (λ found. change_said redo.now says.now ≡ Some (record { at = found.0; bytes = found.1.now })) }
{
    match says {
        Some(LogRecord::Update { stream, at, bytes }) => {
            let bytes = bytes.as_slice();
            if *stream == redo.stream && *at <= redo.size && bytes.len() as u64 <= redo.size - *at {
                Some((*at, bytes))
            } else {
                None
            }
        }
        _ => None,
    }
}

/// The greatest LSN that was read, 0 where there is none.
pub(crate) fn last_lsn(entries: &[ReadEntry]) -> u64
    ensures { result ≡ last_lsn_of entries.now }
{
    let mut last = 0;
    for entry in entries {
        if entry.lsn <= LAST_LSN {
            last = entry.lsn.max(last);
        }
    }
    last
}

/// How many updates of the streams were not passed over.
pub(crate) fn count_updates(entries: &[ReadEntry], streams: &[Redo]) -> u64
    ensures { result ≡ all_updates streams.now entries.now }
{
    let mut count = 0;
    for entry in entries {
        if is_update(streams, entry) {
            count += 1;
        }
    }
    count
}

// Whether an entry says an update of one of the streams.
fn is_update(streams: &[Redo], entry: &ReadEntry) -> bool
    ensures { result ≡ is_update streams.now entry.now }
{
    streams
        .iter()
        .any(|redo| change_in(&entry.says, redo).is_some())
}

/// The valid data length of a stream, with all updates that were not passed over.
pub(crate) fn valid_length(entries: &[ReadEntry], redo: &Redo) -> u64
    ensures valid { result ≡ redone_valid entries.now redo.now }
    ensures within { result ≤ redo.now.size }
{
    let mut valid = redo.valid;
    for entry in entries {
        if let Some((at, bytes)) = change_in(&entry.says, redo) {
            valid = valid.max(at + bytes.len() as u64);
        }
    }
    valid
}

/// The LSN from which on updates are redone.
pub(crate) fn first_redone(entries: &[ReadEntry], streams: &[Redo]) -> u64
    ensures { result ≡ from_of streams.now entries.now }
{
    let mut from = 1;
    for entry in entries {
        if let Some(LogRecord::Checkpoint { rows }) = &entry.says {
            from = least_oldest(streams, entry.lsn, rows.as_slice());
        }
    }
    from
}

// The least of the LSN of a checkpoint and the oldest of its rows of the streams.
fn least_oldest(streams: &[Redo], lsn: u64, rows: &[OldestRow]) -> u64
    ensures { result ≡ oldest_given_in streams.now lsn rows.now }
{
    let mut oldest = lsn;
    for row in rows {
        if is_given(streams, row.stream) {
            oldest = oldest.min(row.oldest);
        }
    }
    oldest
}

// Whether a stream is restarted.
fn is_given(streams: &[Redo], stream: u8) -> bool
    ensures { result ≡ is_given streams.now stream }
{
    streams.iter().any(|redo| redo.stream == stream)
}
