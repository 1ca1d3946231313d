//! What a crash leaves of the devices of a run: of each page one of the contents that it may leave, and a front of the log that has
//! every entry that is on the medium.

use crate::trials::devices::{RECORD_PAGE, TrialDisk, TrialLog};
use crate::trials::draws::Draws;
use crate::trials::stream::Stream;
use anyhow::{Context, Result};
use std::alloc::{AllocError, Global};

/// A page of a disk, and what it holds.
pub type Page = (u64, [u8; 4096]);

/// An entry of a log: its LSN and its bytes.
pub type LogEntry = (u64, Vec<u8>);

/// What the devices hold: of each disk the pages that a trial looks at, with that of the record last, and the log's entries.
#[derive(Drop)]
pub struct Image {
    pub disks: Vec<Vec<Page>>,
    pub entries: Vec<LogEntry>,
}

/// Which of the contents a crash leaves.
#[derive(Clone, Copy, PartialEq, Eq)]
pub enum Choice {
    /// The oldest of each page.
    Oldest,
    /// The newest of each page.
    Newest,
    /// Of each page one that is drawn.
    Drawn,
}

impl Image {
    /// Its entries, once more.
    pub fn entries(&self, alloc: Global) -> Result<Vec<LogEntry>, AllocError> {
        copy_entries(alloc, &self.entries)
    }

    /// The pages of a disk, once more.
    pub fn pages(&self, alloc: Global, disk: usize) -> Result<Vec<Page>> {
        let pages = self.disks.get(disk).context("no disk")?;
        Ok(Vec::from_slice(alloc, pages)?)
    }
}

/// The entries of a log, once more.
pub fn copy_entries(alloc: Global, entries: &[LogEntry]) -> Result<Vec<LogEntry>, AllocError> {
    let mut copy = Vec::new(alloc);
    for (lsn, bytes) in entries {
        copy.push((*lsn, bytes.clone()?))?;
    }
    Ok(copy)
}

/// The pages that a crash leaves of disks.
pub fn draw_disks(
    alloc: Global,
    streams: &[Stream],
    disks: &[TrialDisk],
    choice: Choice,
    draws: &mut Draws,
) -> Result<Vec<Vec<Page>>> {
    let mut left = Vec::new(alloc);
    for (stream, disk) in streams.iter().zip(disks) {
        left.push(draw_pages(alloc, stream, disk, choice, draws)?)?;
    }
    Ok(left)
}

/// The pages that it leaves of one.
fn draw_pages(
    alloc: Global,
    stream: &Stream,
    disk: &TrialDisk,
    choice: Choice,
    draws: &mut Draws,
) -> Result<Vec<Page>> {
    let mut left = Vec::new(alloc);
    for page in stream.pages.iter() {
        left.push((*page, draw_page(disk, *page, choice, draws)?))?;
    }
    left.push((RECORD_PAGE, draw_page(disk, RECORD_PAGE, choice, draws)?))?;
    Ok(left)
}

/// What it leaves of a page.
fn draw_page(disk: &TrialDisk, page: u64, choice: Choice, draws: &mut Draws) -> Result<[u8; 4096]> {
    let may = disk.inner().may(page)?;
    let content = match choice {
        Choice::Oldest => may.first(),
        Choice::Newest => may.last(),
        Choice::Drawn => may.get(draws.below(may.len() as u64) as usize),
    };
    Ok(*content.context("a page has no content")?)
}

/// The front of a log that a crash leaves: all of it, or a drawn one, or the shortest.
pub fn draw_entries(
    alloc: Global,
    log: &TrialLog,
    choice: Choice,
    draws: &mut Draws,
) -> Result<Vec<LogEntry>> {
    let entries = log.entries();
    let durable = log.durable();
    let least = entries.iter().filter(|entry| entry.0 <= durable).count();
    let more = entries.len().saturating_sub(least);
    let kept = match choice {
        Choice::Oldest => least,
        Choice::Newest => entries.len(),
        Choice::Drawn => least.saturating_add(draws.below(more as u64 + 1) as usize),
    };
    let mut left = Vec::new(alloc);
    for (lsn, bytes) in entries.iter().take(kept) {
        left.push((*lsn, bytes.clone()?))?;
    }
    Ok(left)
}
