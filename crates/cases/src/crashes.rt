//! What a crash may leave of the pages of a run, by the entries of its journal.

use cc_crash::crash_pages;
use cc_entry::{End, Entry, NoMemory, PageId};
use std::alloc::{AllocError, Global};

/// How many pages of a run are looked at, at most.
const MOST_PAGES: usize = 64;

/// The first pages that a journal names, each once.
pub fn pages_of(alloc: Global, journal: &[Entry]) -> Result<Vec<PageId>, AllocError> {
    let mut pages = Vec::new(alloc);
    for entry in journal {
        if let Some(page) = page_of(entry) {
            if pages.len() < MOST_PAGES && !pages.contains(&page) {
                pages.push(page)?;
            }
        }
    }
    Ok(pages)
}

/// The page that an entry names, where it came in, failed to, or was about to be written.
fn page_of(entry: &Entry) -> Option<PageId> {
    match entry {
        Entry::PageIn { page, .. }
        | Entry::FillFailed { page, .. }
        | Entry::WriteBegin { page, .. } => Some(*page),
        _ => None,
    }
}

/// How many entries are gone over for what a crash may leave of a page: all of them, and twice more for each of its transfers.
pub fn work_of(journal: &[Entry], page: PageId) -> usize {
    let times = begun(journal, page).saturating_mul(2).saturating_add(1);
    times.saturating_mul(journal.len())
}

/// Whether what a disk may leave of a page, which the run found so, is what a journal allows: each content is among those that
/// it tells, and it is all of them, in their order, where each transfer of the page has ended well.
pub fn fits(
    alloc: Global,
    journal: &[Entry],
    opening: &[u8; 4096],
    page: PageId,
    may: &[[u8; 4096]],
) -> Result<bool, NoMemory> {
    let told = crash_pages(alloc, journal, opening, page)?;
    if begun(journal, page) == ended_well(journal, page) {
        return Ok(
            may.len() == told.len() && may.iter().zip(told.iter()).all(|(one, other)| one == other),
        );
    }
    Ok(
        may.iter()
            .all(|content| told.iter().any(|other| content == other)),
    )
}

/// How many transfers of a page have begun.
fn begun(journal: &[Entry], page: PageId) -> usize {
    journal
        .iter()
        .filter(|entry| matches!(entry, Entry::WriteBegin { page: one, .. } if *one == page))
        .count()
}

/// How many of them have ended well.
fn ended_well(journal: &[Entry], page: PageId) -> usize {
    journal
        .iter()
        .filter(
            |entry| matches!(entry, Entry::WriteEnd { page: one, how: End::Good, .. } if *one == page),
        )
        .count()
}

/// The greatest LSN to which a journal says that a log was flushed, 0 where it does not.
pub fn flushed_to(journal: &[Entry], log: usize) -> u64 {
    let mut most = 0;
    for entry in journal {
        if let Entry::Flushed { handle, to, .. } = entry {
            if *handle as usize == log {
                most = most.max(to.number());
            }
        }
    }
    most
}
