//! Noncached reads.

ghost use Rattle.std.specs.Prelude.{◌≡◌, ◌+◌, ◌*◌, ◌<◌, ◌≤◌, ◌^◌, length};
ghost use Rattle.cc_writes.specs.Fetch.{CanCall};
ghost use Rattle.cc_ranges.specs.Reads.{NcReadEnds, PageReadEnds, PagesReadEnds};

use crate::error::NcError;
use crate::read_held::read_held;
use crate::shapes::{refuse, shape_refusal};
use cc_entry::{Call, CcError, FileId};
use cc_turns::Turns;
use std::alloc::Global;

/// Reads whole pages of a stream, noncached, from a place on, into the front of `out`, and answers how many bytes
/// they are. It is no Cc routine: in Windows it is a read of a file object without intermediate buffering. A page that
/// is dirty and owes no stamp is written first; where a page is resident the bytes are its frame's. No page comes in. The
/// page that begins at the size or past it ends the read. So does the page behind one that came short, whose bytes are not
/// told, since the file may have grown between the two. Place and length are multiples of 4096, and the length is at most
/// 65536. A read of no bytes at an aligned place succeeds for every file object.
///
/// `TooLong` and `Unaligned` (behind `NotCached`, with no page finished), `NotCached`, `ReadFault`, `WriteFault`,
/// `LogFault`, `JournalFull`, `NoMemory`.
pub fn noncached_read<T: Turns>(
    alloc: Global,
    turns: &mut T,
    file: FileId,
    at: u64,
    out: &mut [u8],
) -> Result<usize, NcError>
    requires can { CanCall (T.standing turns.old) file.stream }
    ensures ends { NcReadEnds (T.standing turns.old) (T.standing turns.new) file at result out.old out.new }
{
    match shape_refusal(at, out.len()) {
        Some(refusal) => {
            let call = Call::NcRead {
                file,
                page: at / 4096,
            };
            let cause = refuse(turns, file, call, refusal);
            Err(NcError { done: 0, cause })
        }
        None => read_pages(alloc, turns, file, at / 4096, out),
    }
}

// Reads pages, ascending, until one answers no bytes, for it began at the size or past it, or stands behind one that came
// short. The bytes of each stand behind those of the page before.
fn read_pages<T: Turns>(
    alloc: Global,
    turns: &mut T,
    file: FileId,
    first: u64,
    out: &mut [u8],
) -> Result<usize, NcError>
    requires can { CanCall (T.standing turns.old) file.stream }
    requires numbered { first < 2 ^ 52 }
    requires most { length out.old ≤ 65536 }
    ensures ends { PagesReadEnds (T.standing turns.old) (T.standing turns.new) file first result out.old out.new }
{
    let pages = out.len() as u32 / 4096;
    let mut bytes = [0; 4096];
    let mut told = 0;
    for done in 0..pages {
        let page = first + u64::from(done);
        let whole = 4096 * done as usize;
        match read_page(alloc, turns, file, page, &mut bytes) {
            Ok(count) => {
                // The page before came short, and the file may have grown since.
                if told < whole {
                    return Ok(told);
                }
                if count == 0 {
                    return Ok(told);
                }
                out[told..told + count].copy_from_slice(&bytes[..count]);
                told += count;
            }
            Err(cause) => return Err(NcError { done, cause }),
        }
    }
    Ok(told)
}

// Reads one page, with the turns of its stream's disk and book.
fn read_page<T: Turns>(
    alloc: Global,
    turns: &mut T,
    file: FileId,
    page: u64,
    out: &mut [u8],
) -> Result<usize, CcError>
    requires can { CanCall (T.standing turns.old) file.stream }
    requires room { length out.old ≡ 4096 }
    ensures ends { PageReadEnds (T.standing turns.old) (T.standing turns.new) file page result out.old out.new }
{
    let stream = file.stream();
    let mut disk = turns.take_device(stream);
    let book = turns.take_book(stream);
    let (book, answer) = read_held(alloc, turns, &mut disk, book, file, page, out);
    turns.give_book(stream, book);
    turns.give_device(stream, disk);
    answer
}
