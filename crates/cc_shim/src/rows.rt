//! The record of a checkpoint, as a log has it.

ghost use Rattle.std.specs.Prelude.{◌≡◌, ◌++◌, ◌∷◌, [], IfOk, OnOk, map};
ghost use Rattle.cc_format.specs.LogRecords.{spelled_rows};
ghost use Rattle.cc_model.specs.Records.{little_endian};
ghost use Rattle.cc_pieces.specs.Checkpoints.{oldest_row, record_of_rows};

use byteorder::{LittleEndian, WriteBytesExt};
use cc_entry::{DirtyRow, NoMemory};
use std::alloc::Global;
use std::io::Result as IoResult;

/// The byte with which the record of a checkpoint begins; no stream has that number.
const CHECKPOINT: u8 = 255;

/// The record of a checkpoint with these rows. There is no memory for 2^32 of them.
pub(crate) fn record_of_rows(alloc: Global, rows: &[DirtyRow]) -> Result<Vec<u8>, NoMemory>
    ensures { IfOk result (λ spelled. spelled.items ≡ record_of_rows rows.now) }
{
    let Ok(count) = u32::try_from(rows.len()) else {
        return Err(NoMemory);
    };
    let mut out = Vec::new(alloc);
    match spell(&mut out, count, rows) {
        Ok(()) => Ok(out),
        Err(_) => Err(NoMemory),
    }
}

// Writes the record behind what there is.
fn spell(out: &mut Vec<u8>, count: u32, rows: &[DirtyRow]) -> IoResult<()>
    ensures { OnOk result
        (out.new.items ≡ out.old.items ++ (CHECKPOINT ∷ (little_endian 4 count ++ spelled_rows (map oldest_row rows.now)))) }
{
    out.write_u8(CHECKPOINT)?;
    out.write_u32::<LittleEndian>(count)?;
    spell_rows(out, rows)
}

// Writes rows behind what there is.
fn spell_rows(out: &mut Vec<u8>, rows: &[DirtyRow]) -> IoResult<()>
    ensures { OnOk result (out.new.items ≡ out.old.items ++ spelled_rows (map oldest_row rows.now)) }
{
    for row in rows {
        spell_row(out, row)?;
    }
    Ok(())
}

// Writes a row behind what there is.
fn spell_row(out: &mut Vec<u8>, row: &DirtyRow) -> IoResult<()>
    ensures { OnOk result (out.new.items ≡ out.old.items ++ spelled_rows (oldest_row row.now ∷ [])) }
{
    out.write_u8(row.page.stream().number())?;
    out.write_u64::<LittleEndian>(row.page.page())?;
    out.write_u64::<LittleEndian>(row.oldest.number())
}
