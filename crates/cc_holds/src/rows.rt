//! The row of the hold that a call makes.

ghost use Rattle.std.specs.Prelude.{◌≡◌, ◌<◌, ◌^◌, ◌&&◌, None, is_none, not};
ghost use Rattle.cc_entry.specs.Kinds.{is_pin};
ghost use Rattle.cc_holds.specs.Makes.{new_row, row_named, zeroed_by_prepare, zeroed_end};

use crate::owed::is_pin;
use cc_entry::{Call, FileId, HoldKind, HoldRow, Span};

/// The row of the hold that a done call makes of a range that it names, whose reply has this id.
pub(crate) fn row_named(call: &Call, id: u64) -> Option<HoldRow>
    requires { zeroed_end call.now < 2 ^ 64 }
    ensures { result ≡ row_named call.now id }
{
    match call {
        Call::Map { file, at, len } => Some(new_row(id, *file, *at, *len, HoldKind::Map, false)),
        Call::MdlRead { file, at, len } => {
            Some(new_row(id, *file, *at, *len, HoldKind::ReadChain, false))
        }
        Call::MdlWrite { file, at, len } => {
            Some(new_row(id, *file, *at, *len, HoldKind::WriteChain, false))
        }
        Call::PinRead {
            file,
            at,
            len,
            exclusive,
        } => Some(new_row(id, *file, *at, *len, HoldKind::Pin, *exclusive)),
        Call::PreparePin {
            file,
            at,
            len,
            zero,
            exclusive,
        } => {
            let row = new_row(id, *file, *at, *len, HoldKind::Pin, *exclusive);
            let written = if *zero {
                Span::new(*at, *at + *len)
            } else {
                None
            };
            Some(HoldRow { written, ..row })
        }
        _ => None,
    }
}

/// The row of a hold through which nothing was written.
pub(crate) fn new_row(
    id: u64,
    file: FileId,
    at: u64,
    len: u64,
    kind: HoldKind,
    exclusive: bool,
) -> HoldRow
    ensures { result ≡ new_row id file at len kind exclusive None }
{
    HoldRow {
        id,
        file,
        at,
        len,
        kind,
        exclusive,
        written: None,
    }
}

/// Whether a hold of this row is a pin through which something was written since its last set-dirty.
pub(crate) fn owes_set_dirty(row: &HoldRow) -> bool
    ensures { result ≡ (is_pin row.now.kind && not (is_none row.now.written)) }
{
    is_pin(row.kind) && row.written.is_some()
}
