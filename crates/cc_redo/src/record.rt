//! What an entry of a log says to a restart.

ghost use Rattle.std.specs.Prelude.{◌≡◌, ◌*◌, ◌+◌, ◌≤◌, length, IfOk};
ghost use Rattle.cc_redo.specs.Reading.{checkpoint_in, row_in, rows_in, said_by, update_in};

use byteorder::{ByteOrder, LittleEndian};
use cc_entry::NoMemory;
use cc_format::OldestRow;
use std::alloc::Global;
use std::marker::Model;

/// The byte with which the record of a checkpoint begins, and no other.
const CHECKPOINT: u8 = 255;

/// The bytes of a row of a checkpoint.
const ROW: usize = 17;

/// The bytes that an update changes.
#[derive(Drop)]
pub struct Piece {
    items: Vec<u8>,
}

impl Model for Piece {
    ghost use Rattle.std.specs.Prelude.{List, ℕ};

    ghost Value = { List ℕ };

    ghost view = { λ p. p.items.items };
}

impl Piece {
    /// The bytes of a slice. Answers `NoMemory` where memory is wanting.
    pub fn of(alloc: Global, bytes: &[u8]) -> Result<Piece, NoMemory>
        ensures { IfOk result (λ piece. piece ≡ bytes.now) }
    {
        let items = Vec::from_slice(alloc, bytes)?;
        Ok(Piece { items })
    }

    /// The bytes.
    pub fn as_slice(&self) -> &[u8]
        ensures { result.now ≡ self.now }
    {
        &self.items
    }
}

/// The rows of a checkpoint.
#[derive(Drop)]
pub struct OldestRows {
    items: Vec<OldestRow>,
}

impl Model for OldestRows {
    ghost use Rattle.std.specs.Prelude.{List};
    ghost use Rattle.cc_format.specs.declared.log.OldestRow.{OldestRow};

    ghost Value = { List OldestRow };

    ghost view = { λ r. r.items.items };
}

impl OldestRows {
    /// The rows of a `Vec`, in its order.
    pub fn from_vec(items: Vec<OldestRow>) -> OldestRows
        ensures { result ≡ items.items }
    {
        OldestRows { items }
    }

    /// The rows, in their order.
    pub fn as_slice(&self) -> &[OldestRow]
        ensures { result.now ≡ self.now }
    {
        &self.items
    }
}

/// A record of a log that a restart reads.
#[derive(Drop)]
pub enum LogRecord {
    /// An update changed these bytes of a stream from a place on.
    Update { stream: u8, at: u64, bytes: Piece },
    /// A checkpoint found these pages dirty.
    Checkpoint { rows: OldestRows },
}

/// The record that an entry of a log spells, `None` where it spells none. Answers `NoMemory` where memory is wanting.
pub fn read_log_record(alloc: Global, entry: &[u8]) -> Result<Option<LogRecord>, NoMemory>
    ensures { IfOk result (λ told. told ≡ said_by entry.now) }
{
    if entry.is_empty() {
        return Ok(None);
    }
    if entry[0] == CHECKPOINT {
        read_checkpoint(alloc, &entry[1..])
    } else {
        read_update(alloc, entry[0], &entry[1..])
    }
}

// The update that the bytes behind the number of its stream spell.
fn read_update(alloc: Global, stream: u8, rest: &[u8]) -> Result<Option<LogRecord>, NoMemory>
    ensures { IfOk result (λ told. told ≡ update_in stream rest.now) }
{
    if rest.len() < 12 {
        return Ok(None);
    }
    let at = LittleEndian::read_u64(rest);
    let len = LittleEndian::read_u32(&rest[8..]);
    let bytes = &rest[12..];
    if bytes.len() != len as usize {
        return Ok(None);
    }
    let bytes = Piece::of(alloc, bytes)?;
    Ok(Some(LogRecord::Update { stream, at, bytes }))
}

// The checkpoint that the bytes behind its first spell.
fn read_checkpoint(alloc: Global, rest: &[u8]) -> Result<Option<LogRecord>, NoMemory>
    ensures { IfOk result (λ told. told ≡ checkpoint_in rest.now) }
{
    if rest.len() < 4 {
        return Ok(None);
    }
    let count = LittleEndian::read_u32(rest) as usize;
    let spelled = &rest[4..];
    if spelled.len() != ROW * count {
        return Ok(None);
    }
    let rows = read_rows(alloc, count, spelled)?;
    Ok(Some(LogRecord::Checkpoint { rows }))
}

// So many rows that stand one behind the other.
fn read_rows(alloc: Global, count: usize, spelled: &[u8]) -> Result<OldestRows, NoMemory>
    requires long { 17 * count ≤ length spelled.now }
    ensures { IfOk result (λ rows. rows ≡ rows_in count spelled.now) }
{
    let mut items = Vec::with_capacity(alloc, count)?;
    for k in 0..count {
        items.push(read_row(&spelled[ROW * k..]))?;
    }
    Ok(OldestRows { items })
}

// The row that bytes begin with.
fn read_row(bytes: &[u8]) -> OldestRow
    requires long { 17 ≤ length bytes.now }
    ensures { result ≡ row_in bytes.now }
{
    OldestRow {
        stream: bytes[0],
        page: LittleEndian::read_u64(&bytes[1..]),
        oldest: LittleEndian::read_u64(&bytes[9..]),
    }
}
