//! The plain files by which an image is judged: arrays of bytes, to which the updates of a log are made in order.
//!
//! It reads the records of a log and those of streams by itself, and calls nothing of the cache or of a restart.

ghost use Rattle.std.specs.Prelude.{◌≤◌};

use crate::trials::devices::RECORD_PAGE;
use crate::trials::image::{LogEntry, Page};
use crate::trials::stream::{PAGE, Stream, record_page};
use anyhow::Result;
use byteorder::{ByteOrder, LittleEndian};
use cc_memdev::MemDisk;
use std::alloc::Global;

/// An update that an entry of a log spells.
#[derive(Clone, Copy)]
pub struct Update<'a> {
    stream: u8,
    at: u64,
    bytes: &'a [u8],
}

impl<'a> Update<'a> {
    /// The update that an entry spells.
    pub fn in_entry(entry: &'a [u8]) -> Option<Update<'a>> {
        if entry.len() < 13 || entry[0] == 0xFF {
            return None;
        }
        let bytes = &entry[13..];
        if u64::from(LittleEndian::read_u32(&entry[9..13])) != bytes.len() as u64 {
            return None;
        }
        Some(Update {
            stream: entry[0],
            at: LittleEndian::read_u64(&entry[1..9]),
            bytes,
        })
    }

    /// Whether it is one of a stream, and ends within its size.
    pub fn is_of(&self, stream: &Stream) -> bool {
        self.stream == stream.number && self.end() <= stream.size
    }

    /// Where it ends.
    fn end(&self) -> u64 {
        self.at.saturating_add(self.bytes.len() as u64)
    }

    /// The byte that it gives a place.
    fn byte_at(&self, place: u64) -> Option<u8> {
        let from = place.checked_sub(self.at)?;
        self.bytes.get(from as usize).copied()
    }

    /// Gives a page its bytes.
    fn put(&self, page: &mut Page) {
        for (from, byte) in self.bytes.iter().enumerate() {
            let place = self.at.saturating_add(from as u64);
            if place / PAGE == page.0 {
                page.1[(place % PAGE) as usize] = *byte;
            }
        }
    }
}

/// A stream's file, on the pages that a trial looks at.
#[derive(Drop)]
pub struct File {
    valid: u64,
    pages: Vec<Page>,
}

impl File {
    /// The file before all updates: what the disk holds, and zeros from the valid data length on.
    pub fn at_first(alloc: Global, stream: &Stream) -> Result<File> {
        let mut pages = Vec::new(alloc);
        for page in stream.pages.iter() {
            let mut content = stream.content(*page);
            content[valid_end(*page, stream.valid)..].fill(0);
            pages.push((*page, content))?;
        }
        Ok(File {
            valid: stream.valid,
            pages,
        })
    }

    /// The same file with the updates of a log made to it, in order.
    pub fn after(&self, alloc: Global, stream: &Stream, entries: &[LogEntry]) -> Result<File> {
        let mut file = File {
            valid: self.valid,
            pages: Vec::from_slice(alloc, &self.pages)?,
        };
        for (_, bytes) in entries {
            if let Some(update) = Update::in_entry(bytes) {
                if update.is_of(stream) {
                    file.make(&update);
                }
            }
        }
        Ok(file)
    }

    /// Makes an update.
    fn make(&mut self, update: &Update) {
        self.valid = self.valid.max(update.end());
        for page in self.pages.iter_mut() {
            update.put(page);
        }
    }

    /// Its valid data length.
    pub fn valid(&self) -> u64 {
        self.valid
    }

    /// Whether a disk holds it.
    pub fn is_on(&self, disk: &MemDisk) -> bool {
        self.pages.iter().all(|page| has_front(
            &disk.page(page.0),
            page,
            valid_end(page.0, self.valid),
        ))
    }

    /// Whether each byte of a page that stands below a valid data length is one of this file, or one that an update of a log
    /// gave it.
    fn has_given(&self, stream: &Stream, entries: &[LogEntry], valid: u64, page: &Page) -> bool {
        let end = valid_end(page.0, valid);
        match self.pages.iter().find(|own| own.0 == page.0) {
            None => false,
            Some(own) => has_front(&page.1, own, end) || are_given(stream, entries, own, page, end),
        }
    }
}

/// Whether so many bytes are those of a page.
fn has_front(content: &[u8; 4096], page: &Page, end: usize) -> bool
    requires { end ≤ 4096 }
{
    &content[..end] == &page.1[..end]
}

/// Whether each of so many bytes of a page is that of another, or one that an update of a log gave it.
fn are_given(stream: &Stream, entries: &[LogEntry], own: &Page, page: &Page, end: usize) -> bool {
    let begin = page.0.saturating_mul(PAGE);
    let bytes = own.1.iter().zip(page.1.iter());
    bytes.take(end).enumerate().all(|(at, (first, byte))| {
        first == byte || is_given(stream, entries, begin.saturating_add(at as u64), *byte)
    })
}

/// Whether an update of a log gave a place this byte.
fn is_given(stream: &Stream, entries: &[LogEntry], place: u64, byte: u8) -> bool {
    entries.iter().any(|entry| match Update::in_entry(&entry.1) {
        Some(update) => update.is_of(stream) && update.byte_at(place) == Some(byte),
        None => false,
    })
}

/// How many bytes of a page stand below a valid data length.
fn valid_end(page: u64, valid: u64) -> usize
    ensures { result ≤ 4096 }
{
    valid.saturating_sub(page.saturating_mul(PAGE)).min(PAGE) as usize
}

/// The valid data length that the page of a record tells, 0 where it tells none.
fn recorded_valid(page: &[u8; 4096]) -> u64 {
    let size = LittleEndian::read_u64(&page[8..16]);
    let valid = LittleEndian::read_u64(&page[16..24]);
    if *page == record_page(1, size, 0) {
        return size;
    }
    if *page == record_page(2, size, valid) {
        return valid;
    }
    0
}

/// Whether each byte of a crashed disk below the valid data length that its record tells is one that the file once had: one of the
/// file before all updates, or one that an update gave it.
pub fn is_once_given(stream: &Stream, first: &File, entries: &[LogEntry], disk: &[Page]) -> bool {
    let valid = match disk.last() {
        Some(page) if page.0 == RECORD_PAGE => recorded_valid(&page.1),
        _ => return false,
    };
    disk.iter()
        .filter(|page| page.0 != RECORD_PAGE)
        .all(|page| first.has_given(stream, entries, valid, page))
}

/// Whether a disk holds a file and its record, and a crash would leave that alone.
pub fn is_settled(stream: &Stream, file: &File, disk: &MemDisk) -> Result<bool> {
    for page in stream.pages.iter() {
        if disk.may(*page)?.len() != 1 {
            return Ok(false);
        }
    }
    Ok(
        file.is_on(disk)
            && disk.may(RECORD_PAGE)?.len() == 1
            && disk.page(RECORD_PAGE) == record_page(2, stream.size, file.valid()),
    )
}

/// How many updates of the streams a log has.
pub fn count_updates(streams: &[Stream], entries: &[LogEntry]) -> u64 {
    let count = entries.iter().filter(|entry| match Update::in_entry(&entry.1) {
        Some(update) => streams.iter().any(|stream| update.is_of(stream)),
        None => false,
    });
    count.count() as u64
}
