//! The record of an update, as a log has it.

ghost use Rattle.std.specs.Prelude.{◌≡◌, ◌++◌, ◌<◌, ◌^◌, IfOk, OnOk, length};
ghost use Rattle.cc_pieces.specs.Shim.{update_record_of_file};

use byteorder::{LittleEndian, WriteBytesExt};
use cc_entry::{FileId, NoMemory};
use std::alloc::Global;
use std::io::{Result as IoResult, Write};

/// The record of an update: the stream, the place, the length and the bytes, with numbers little endian.
pub(crate) fn record_of(
    alloc: Global,
    file: FileId,
    at: u64,
    piece: &[u8],
) -> Result<Vec<u8>, NoMemory>
    requires { length piece.now < 2 ^ 32 }
    ensures { IfOk result (λ spelled. spelled.items ≡ update_record_of_file file at piece.now) }
{
    let mut out = Vec::new(alloc);
    match spell(&mut out, file, at, piece) {
        Ok(()) => Ok(out),
        Err(_) => Err(NoMemory),
    }
}

// Writes the record behind what there is.
fn spell(out: &mut Vec<u8>, file: FileId, at: u64, piece: &[u8]) -> IoResult<()>
    requires { length piece.now < 2 ^ 32 }
    ensures { OnOk result (out.new.items ≡ out.old.items ++ update_record_of_file file at piece.now) }
{
    out.write_u8(file.stream().number())?;
    out.write_u64::<LittleEndian>(at)?;
    out.write_u32::<LittleEndian>(piece.len() as u32)?;
    out.write_all(piece)
}
