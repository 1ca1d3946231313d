//! Noncached writes.

ghost use Rattle.std.specs.Prelude.{◌≡◌, ◌+◌, ◌*◌, ◌<◌, ◌≤◌, ◌^◌, length};
ghost use Rattle.cc_writes.specs.Fetch.{CanCall};
ghost use Rattle.cc_ranges.specs.Writes.{NcWriteEnds, PageWriteEnds, PagesWriteEnds};

use crate::error::NcError;
use crate::shapes::{refuse, shape_refusal};
use crate::write_held::write_held;
use cc_entry::{Call, CcError, FileId};
use cc_turns::Turns;
use std::alloc::Global;

/// Writes whole pages of a stream, from a place on, each into the cache and to the disk at once, and answers how many
/// bytes its stores changed, each cut at the size. A page that is written goes out again where no hold has it. Place and
/// length are multiples of 4096, and the length is at most 65536. A write of no bytes succeeds for every file object.
///
/// `TooLong` and `Unaligned` (behind `NotCached`, with no page finished), `NotCached`, `BeyondSize`, `BeyondValid`,
/// `Busy` (a pin owes a stamp to the page), `NoViews`, `WriteFault`, `LogFault`, `JournalFull`, `NoMemory`. Where the
/// transfer of a page failed or found no memory, its store stands, and the page is dirty.
pub fn noncached_write<T: Turns>(
    alloc: Global,
    turns: &mut T,
    file: FileId,
    at: u64,
    piece: &[u8],
) -> Result<usize, NcError>
    requires can { CanCall (T.standing turns.old) file.stream }
    ensures ends { NcWriteEnds (T.standing turns.old) (T.standing turns.new) file at piece.now result }
{
    match shape_refusal(at, piece.len()) {
        Some(refusal) => {
            let call = Call::NcWrite {
                file,
                page: at / 4096,
            };
            let cause = refuse(turns, file, call, refusal);
            Err(NcError { done: 0, cause })
        }
        None => write_pages(alloc, turns, file, at / 4096, piece),
    }
}

// Writes pages, ascending, and adds up how many bytes their stores changed.
fn write_pages<T: Turns>(
    alloc: Global,
    turns: &mut T,
    file: FileId,
    first: u64,
    piece: &[u8],
) -> Result<usize, NcError>
    requires can { CanCall (T.standing turns.old) file.stream }
    requires numbered { first < 2 ^ 52 }
    requires most { length piece.now ≤ 65536 }
    ensures ends { PagesWriteEnds (T.standing turns.old) (T.standing turns.new) file first piece.now result }
{
    let pages = piece.len() as u32 / 4096;
    let mut bytes = [0; 4096];
    let mut changed = 0;
    for done in 0..pages {
        let start = 4096 * done as usize;
        bytes.copy_from_slice(&piece[start..start + 4096]);
        match write_page(alloc, turns, file, first + u64::from(done), &bytes) {
            Ok(count) => changed += count,
            Err(cause) => return Err(NcError { done, cause }),
        }
    }
    Ok(changed)
}

// Writes one page, with the turns of its stream's disk and book.
fn write_page<T: Turns>(
    alloc: Global,
    turns: &mut T,
    file: FileId,
    page: u64,
    bytes: &[u8; 4096],
) -> Result<usize, CcError>
    requires can { CanCall (T.standing turns.old) file.stream }
    ensures ends { PageWriteEnds (T.standing turns.old) (T.standing turns.new) file page bytes.now result }
{
    let stream = file.stream();
    let mut disk = turns.take_device(stream);
    let book = turns.take_book(stream);
    let (book, answer) = write_held(alloc, turns, &mut disk, book, file, page, bytes);
    turns.give_book(stream, book);
    turns.give_device(stream, disk);
    answer
}
