//! The store in one stream, over any turns: lines of text, each added behind the others by a logged update.
//!
//! Each function asks what a call of the cache asks, that its pass may call on the stream (`CanCall`), and leaves what a call
//! leaves, a pass that goes on as it stood (`WentOn`), so that it may call again.

ghost use Rattle.std.specs.Prelude.{◌≡◌, ◌<◌, IfOk};
ghost use Rattle.cc_calls.specs.Answers.{CanCall};
ghost use Rattle.cc_calls.specs.Pages.{WentOn};

use cc_calls::{copy_read, file_state, flush, initialize, log_flush, set_log_handle};
use cc_entry::{CcError, FileId, FileSizes, Lsn, Quota};
use cc_shim::update;
use cc_stored::load_record;
use cc_turns::Turns;
use std::alloc::Global;

/// The handle of the log of both streams.
pub const LOG: u8 = 0;

/// How many bytes each stream has. An update that would end past them is refused with `BeyondSize`.
pub const SIZE: u64 = 65536;

/// Opens both streams, behind a restart that read the log up to `last`, 0 where it had no entry. A pass that may call on
/// stream 1 may call on stream 0 too.
pub fn open_both<T: Turns>(
    alloc: Global,
    turns: &mut T,
    last: u64,
) -> Result<(FileId, FileId), CcError>
    requires can { CanCall (T.standing turns.old) 1 }
    ensures goes_on { WentOn (T.standing turns.old) (T.standing turns.new) }
    ensures streams { IfOk result (λ files. (files.0.stream ≡ 0) × (files.1.stream ≡ 1)) }
{
    // Behind a flush of all that the log has, the next entry comes behind the old ones.
    if let Some(lsn) = Lsn::new(last) {
        log_flush(turns, LOG, lsn)?;
    }
    let one = open(alloc, turns, 0)?;
    let other = open(alloc, turns, 1)?;
    Ok((one, other))
}

/// Opens a stream. Its lines end at the valid data length, which the restart wrote into its record.
fn open<T: Turns>(alloc: Global, turns: &mut T, stream: u8) -> Result<FileId, CcError>
    requires few { stream < 16 }
    requires can { CanCall (T.standing turns.old) stream }
    ensures goes_on { WentOn (T.standing turns.old) (T.standing turns.new) }
    ensures stream { IfOk result (λ file. file.stream ≡ stream) }
{
    let file = FileId::new(stream, 0).unwrap();
    let valid = match load_record(turns, file.stream())? {
        Some(record) => record.valid(),
        None => 0,
    };
    let sizes = FileSizes {
        allocation: SIZE,
        size: SIZE,
        valid,
    };
    let quota = Quota::new(8).unwrap();
    initialize(alloc, turns, file, sizes, quota, false)?;
    set_log_handle(alloc, turns, file, LOG)?;
    Ok(file)
}

/// Adds a line, writes it to the disk, and reads all lines.
pub fn keep<T: Turns>(
    alloc: Global,
    turns: &mut T,
    file: FileId,
    line: &str,
) -> Result<Vec<u8>, CcError>
    requires can { CanCall (T.standing turns.old) file.stream }
    ensures goes_on { WentOn (T.standing turns.old) (T.standing turns.new) }
{
    add(alloc, turns, file, line)?;
    flush(alloc, turns, file, None)?;
    read(alloc, turns, file)
}

/// Adds a line: the log gets the change, the page gets the bytes and is stamped with the change's number, so that it goes to
/// the disk behind the log alone.
fn add<T: Turns>(alloc: Global, turns: &mut T, file: FileId, line: &str) -> Result<(), CcError>
    requires can { CanCall (T.standing turns.old) file.stream }
    ensures goes_on { WentOn (T.standing turns.old) (T.standing turns.new) }
{
    // The lines end at the valid data length, which an update at its end moves on.
    let end = file_state(alloc, turns, file)?.sizes.valid;
    update(alloc, turns, file, end, line.as_bytes())?;
    Ok(())
}

/// All lines.
fn read<T: Turns>(alloc: Global, turns: &mut T, file: FileId) -> Result<Vec<u8>, CcError>
    requires can { CanCall (T.standing turns.old) file.stream }
    ensures goes_on { WentOn (T.standing turns.old) (T.standing turns.new) }
{
    let end = file_state(alloc, turns, file)?.sizes.valid;
    let mut lines = vec![in alloc; 0; end as usize]?;
    copy_read(alloc, turns, file, 0, true, &mut lines)?;
    Ok(lines)
}
