//! The streams of a trial, and what their disks hold at first.

use crate::trials::devices::RECORD_PAGE;
use crate::trials::draws::Draws;
use crate::trials::image::{Image, Page};
use anyhow::Result;
use byteorder::{ByteOrder, LittleEndian};
use std::alloc::Global;

/// The pages of a view block.
const BLOCK: u64 = 64;

/// The pages of a view block that updates may change: its first ones.
const BLOCK_PAGES: u64 = 2;

/// The bytes of a page.
pub const PAGE: u64 = 4096;

/// The record that a disk has of its stream at first.
#[derive(Clone, Copy, PartialEq, Eq)]
pub enum Opening {
    /// None: the line of the stream says the numbers.
    Line,
    /// One of the first version: all of the size is valid.
    First,
    /// One of the second version.
    Second,
}

/// A stream of a trial.
#[derive(Drop)]
pub struct Stream {
    pub number: u8,
    pub name: &'static str,
    pub size: u64,
    pub valid: u64,
    /// The pages that updates may change, which are all that a trial looks at.
    pub pages: Vec<u64>,
    opening: Opening,
    /// Whether its disk holds one byte everywhere at first, the one that fills it.
    is_filled: bool,
}

impl Stream {
    /// A stream of two pages, all of whose bytes are valid, over a disk that holds one byte everywhere.
    pub fn filled(alloc: Global, number: u8, name: &'static str) -> Result<Stream> {
        let mut pages = Vec::new(alloc);
        for page in 0..2u64 {
            pages.push(page)?;
        }
        Ok(Stream {
            number,
            name,
            size: 2 * PAGE,
            valid: 2 * PAGE,
            pages,
            opening: Opening::Line,
            is_filled: true,
        })
    }

    /// A stream of more view blocks than its quota has, all of whose bytes are valid, so that its pages go out.
    pub fn wide(
        alloc: Global,
        number: u8,
        name: &'static str,
        draws: &mut Draws,
    ) -> Result<Stream> {
        let mut pages = Vec::new(alloc);
        for block in 0..10u64 {
            for page in 0..BLOCK_PAGES {
                pages.push(block * BLOCK + page)?;
            }
        }
        let size = 10 * BLOCK * PAGE;
        Ok(Stream {
            number,
            name,
            size,
            valid: size,
            pages,
            opening: draw_opening(draws),
            is_filled: false,
        })
    }

    /// A stream of a few pages, which updates may make valid to its size.
    pub fn narrow(
        alloc: Global,
        number: u8,
        name: &'static str,
        draws: &mut Draws,
    ) -> Result<Stream> {
        let mut pages = Vec::new(alloc);
        for page in 0..6u64 {
            pages.push(page)?;
        }
        let size = draws.between(5 * PAGE, 6 * PAGE);
        let opening = draw_opening(draws);
        let valid = match opening {
            Opening::First => size,
            _ => draws.between(0, size),
        };
        Ok(Stream {
            number,
            name,
            size,
            valid,
            pages,
            opening,
            is_filled: false,
        })
    }

    /// The byte that fills its disk.
    pub fn fill(&self) -> u8 {
        if self.number == 0 { 0x5A } else { 0xC3 }
    }

    /// What a page of its disk holds at first: the byte that fills it, or else bytes that differ from page to page and along each.
    pub fn content(&self, page: u64) -> [u8; 4096] {
        if self.is_filled {
            return [self.fill(); 4096];
        }
        let begin = page % 1000 * 7 + u64::from(self.fill());
        let mut content = [0; 4096];
        for (at, byte) in content.iter_mut().enumerate() {
            *byte = ((begin + at as u64 % 251) % 256) as u8;
        }
        content
    }

    /// Where the pages end that updates may change which begin in a page: in the view block, and in the stream.
    pub fn end_of(&self, page: u64) -> u64 {
        let first = page - page % BLOCK;
        let pages = if self.size > BLOCK * PAGE {
            BLOCK_PAGES
        } else {
            BLOCK
        };
        first
            .saturating_add(pages)
            .saturating_mul(PAGE)
            .min(self.size)
    }

    /// The size and the valid data length that its line says.
    pub fn said(&self) -> (u64, u64) {
        match self.opening {
            Opening::Line => (self.size, self.valid),
            _ => (1, 0),
        }
    }

    /// The page of its record at first.
    fn record(&self) -> [u8; 4096] {
        match self.opening {
            Opening::Line => [self.fill(); 4096],
            Opening::First => record_page(1, self.size, 0),
            Opening::Second => record_page(2, self.size, self.valid),
        }
    }

    /// The pages of its disk that a trial looks at.
    fn disk(&self, alloc: Global) -> Result<Vec<Page>> {
        let mut disk = Vec::new(alloc);
        for page in self.pages.iter() {
            disk.push((*page, self.content(*page)))?;
        }
        disk.push((RECORD_PAGE, self.record()))?;
        Ok(disk)
    }
}

/// How a record stands at first: mostly there is none.
fn draw_opening(draws: &mut Draws) -> Opening {
    match draws.below(5) {
        0 => Opening::First,
        1 => Opening::Second,
        _ => Opening::Line,
    }
}

/// The page of a record of this version.
pub fn record_page(version: u32, size: u64, valid: u64) -> [u8; 4096] {
    let mut page = [0; 4096];
    page[..4].copy_from_slice(b"NTCS");
    LittleEndian::write_u32(&mut page[4..8], version);
    LittleEndian::write_u64(&mut page[8..16], size);
    LittleEndian::write_u64(&mut page[16..24], valid);
    page
}

/// What the devices of streams with an empty log hold at first.
pub fn opening_image(alloc: Global, streams: &[Stream]) -> Result<Image> {
    let mut disks = Vec::new(alloc);
    for stream in streams {
        disks.push(stream.disk(alloc)?)?;
    }
    Ok(Image {
        disks,
        entries: Vec::new(alloc),
    })
}

/// The two streams of a trial.
pub fn draw_streams(alloc: Global, draws: &mut Draws) -> Result<Vec<Stream>> {
    let mut streams = Vec::new(alloc);
    for (number, name) in [(0, "a"), (1, "b")] {
        if draws.comes(60) {
            streams.push(Stream::wide(alloc, number, name, draws)?)?;
        } else {
            streams.push(Stream::narrow(alloc, number, name, draws)?)?;
        }
    }
    Ok(streams)
}
