//! How the entries of a log stand in its file: one behind the other, each the LSN in eight bytes, the length in four,
//! little endian, and the bytes.

ghost use Rattle.std.specs.Prelude.{◌≡◌, ℕ, ◌+◌, ◌^◌, ◌<◌, ◌≤◌, ◌↔◌, IsTrue, length, drop, IfSome, IfOk, OnOk};
ghost use Rattle.byteorder.specs.Endian.{little_number};
ghost use Rattle.cc_filedev.specs.Entry.{head_bytes, entry_bytes};

use byteorder::{ByteOrder, LittleEndian};
use std::alloc::AllocError;
use std::fs::OpenFile;
use std::io;
use std::io::ErrorKind;
use std::os::unix::fs::FileExt;

/// How many bytes of an entry stand before its own.
pub(crate) const HEAD: u64 = 12;

/// Whether a number is an LSN. Zeros, which a stop can leave at the end of a file, are none.
pub(crate) fn is_lsn(number: u64) -> bool
    ensures { IsTrue result ↔ ((0 < number) × (number ≤ 2 ^ 62)) }
{
    0 < number && number <= 1 << 62
}

/// What an entry begins with.
#[derive(Clone, Copy)]
pub(crate) struct Head {
    pub lsn: u64,
    pub size: u32,
}

impl Head {
    /// The head that stands in these bytes.
    fn read(bytes: &[u8; 12]) -> Head
        ensures lsn { result.lsn ≡ little_number 8 bytes.now }
        ensures size { result.size ≡ little_number 4 (drop 8 bytes.now) }
        ensures reads_back { (lsn size : ℕ) → lsn < 2 ^ 64 → size < 2 ^ 32 → bytes.now ≡ head_bytes lsn size →
            (result.lsn ≡ lsn) × (result.size ≡ size) }
    {
        Head {
            lsn: LittleEndian::read_u64(bytes),
            size: LittleEndian::read_u32(&bytes[8..]),
        }
    }
}

/// Makes `out` the bytes of an entry.
pub(crate) fn put_entry(
    out: &mut Vec<u8>,
    lsn: u64,
    size: u32,
    bytes: &[u8],
) -> Result<(), AllocError>
    requires size { size ≡ length bytes.now }
    ensures { OnOk result (out.new.items ≡ entry_bytes lsn bytes.now) }
{
    let mut head = [0; 12];
    LittleEndian::write_u64(&mut head, lsn);
    LittleEndian::write_u32(&mut head[8..], size);
    out.clear();
    out.extend_from_slice(&head)?;
    out.extend_from_slice(bytes)
}

/// An entry that stands whole in a file.
#[derive(Clone, Copy)]
pub(crate) struct FileEntry {
    pub lsn: u64,
    /// Where its bytes begin, and how many there are.
    pub from: u64,
    pub size: u32,
    /// Where it ends.
    pub end: u64,
}

/// The entry with this head at a place, if it ends at most where its file does.
fn whole(head: Head, place: u64, len: u64) -> Option<FileEntry>
    ensures { IfSome result (λ entry. entry.end ≡ place + 12 + head.size × entry.end ≤ len) }
{
    let from = place.checked_add(HEAD)?;
    let end = from.checked_add(u64::from(head.size))?;
    let Head { lsn, size } = head;
    if end <= len && is_lsn(lsn) {
        Some(FileEntry {
            lsn,
            from,
            size,
            end,
        })
    } else {
        None
    }
}

/// The entry at a place of a file of `len` bytes; or none, where no whole one stands there.
pub(crate) fn entry_at<F: FileExt>(file: &F, place: u64, len: u64) -> io::Result<Option<FileEntry>>
    ensures { IfOk result (λ found. IfSome found (λ entry. entry.end ≤ len)) }
{
    if len.saturating_sub(place) < HEAD {
        return Ok(None);
    }
    let mut head = [0; 12];
    file.read_exact_at(&mut head, place)?;
    Ok(whole(Head::read(&head), place, len))
}

/// The place of an entry, by its number from 0.
#[derive(Clone, Copy)]
pub(crate) struct EntryMark {
    pub nth: u64,
    pub place: u64,
}

/// The place of the first entry.
const FIRST: EntryMark = EntryMark { nth: 0, place: 0 };

/// What is known of the entries of a file.
#[derive(Clone, Copy)]
pub(crate) struct Entries {
    /// How many there are, and where the last one ends.
    pub last: EntryMark,
    /// Whether the file goes on behind them.
    pub has_tail: bool,
    // Behind the entry that was read last.
    next: EntryMark,
}

impl Entries {
    /// Looks through a file, up to the first place where no whole entry stands.
    pub(crate) fn of<F: FileExt + OpenFile>(file: &F) -> io::Result<Entries> {
        let metadata = file.metadata()?;
        if !metadata.is_file() {
            return Err(io::Error::from(ErrorKind::InvalidInput));
        }
        let len = metadata.len();
        let last = last_mark(file, len)?;
        Ok(Entries {
            last,
            has_tail: last.place < len,
            next: FIRST,
        })
    }

    /// Cuts off what stands behind the entries.
    pub(crate) fn cut_tail<F: OpenFile>(&mut self, file: &F) -> io::Result<()> {
        if self.has_tail {
            file.set_len(self.last.place)?;
            self.has_tail = false;
        }
        Ok(())
    }

    /// Notes that an entry of so many bytes, its head among them, was put behind the others.
    pub(crate) fn note(&mut self, bytes: u64) {
        self.last = EntryMark {
            nth: self.last.nth.saturating_add(1),
            place: self.last.place.saturating_add(bytes),
        };
    }

    /// The `n`-th entry, counted from 0; or none, where there are not so many. Entries that are asked for in their order
    /// are found one behind the other, any other from the first on.
    pub(crate) fn find<F: FileExt>(&mut self, file: &F, n: u64) -> io::Result<Option<FileEntry>> {
        if self.last.nth <= n {
            return Ok(None);
        }
        if n < self.next.nth {
            self.next = FIRST;
        }
        for _ in self.next.nth..n {
            self.pass(file)?;
        }
        Ok(Some(self.pass(file)?))
    }

    // The next entry, which is among those that were found whole.
    fn pass<F: FileExt>(&mut self, file: &F) -> io::Result<FileEntry> {
        match entry_at(file, self.next.place, self.last.place)? {
            Some(entry) => {
                self.next = EntryMark {
                    nth: self.next.nth.saturating_add(1),
                    place: entry.end,
                };
                Ok(entry)
            }
            None => Err(io::Error::from(ErrorKind::InvalidData)),
        }
    }
}

/// Behind the last entry of a file of `len` bytes.
fn last_mark<F: FileExt>(file: &F, len: u64) -> io::Result<EntryMark>
    ensures { IfOk result (λ mark. mark.place ≤ len) }
{
    let mut place = 0;
    for nth in 0..u64::MAX {
        match entry_at(file, place, len)? {
            Some(entry) => place = entry.end,
            None => return Ok(EntryMark { nth, place }),
        }
    }
    Err(io::Error::from(ErrorKind::FileTooLarge))
}
