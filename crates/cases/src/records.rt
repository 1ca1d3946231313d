//! What a crash may leave of the record of each stream, computed from the entries of a run.

use cc_entry::{End, Entry};
use cc_format::{StreamRecord, read_record};
use std::alloc::{AllocError, Global};

/// The page of a disk that has the record of its stream.
pub const RECORD_PAGE: u64 = 1 << 51;

/// What entries say that a crash may leave of the record page of a stream.
#[derive(Drop)]
pub struct MayTell {
    /// The contents, the oldest first: what a write of the record spells, or `None` for the page as the run found it.
    contents: Vec<Option<StreamRecord>>,
    /// Whether the last write of the record ended well, or there was none.
    stored: bool,
    /// How many transfers of pages are open.
    open: u64,
    /// Whether each transfer, sync and write of the record ended well.
    well: bool,
}

impl MayTell {
    /// Goes through the entries of a journal, from the first on.
    pub fn of_entries(alloc: Global, journal: &[Entry], stream: u8) -> Result<MayTell, AllocError> {
        let mut contents = Vec::new(alloc);
        contents.push(None)?;
        let mut told = MayTell {
            contents,
            stored: true,
            open: 0,
            well: true,
        };
        for entry in journal {
            told.note(entry, stream)?;
        }
        Ok(told)
    }

    /// One entry more.
    fn note(&mut self, entry: &Entry, of: u8) -> Result<(), AllocError> {
        match entry {
            Entry::WriteBegin { page, .. } if page.stream().number() == of => {
                self.open = self.open.saturating_add(1);
            }
            Entry::WriteEnd { page, how, .. } if page.stream().number() == of => {
                self.open = self.open.saturating_sub(1);
                self.end(*how);
            }
            Entry::Record {
                stream,
                size,
                valid,
                how,
                ..
            } if stream.number() == of => {
                let (size, valid) = (*size, *valid);
                self.contents.push(Some(StreamRecord::V2 { size, valid }))?;
                self.stored = self.end(*how);
            }
            Entry::Sync { stream, how, .. } if stream.number() == of => {
                if self.end(*how) && self.stored {
                    self.keep_last()?;
                }
            }
            _ => {}
        }
        Ok(())
    }

    /// Something ended so; whether well.
    fn end(&mut self, how: End) -> bool {
        let good = matches!(how, End::Good);
        self.well = self.well && good;
        good
    }

    /// A sync leaves the last content alone.
    fn keep_last(&mut self) -> Result<(), AllocError> {
        let last = self.contents.pop().flatten();
        self.contents.clear();
        self.contents.push(last)?;
        Ok(())
    }

    /// Whether what a disk may leave of the page, which the run found so, is what the entries say: each content is among those
    /// that they tell, and it is all of them, in their order, where no transfer is open and everything ended well.
    pub fn fits(&self, may: &[[u8; 4096]], opening: &[u8; 4096]) -> bool {
        if self.open == 0 && self.well {
            return may.len() == self.contents.len()
                && may
                    .iter()
                    .zip(self.contents.iter())
                    .all(|(page, one)| is_told(*one, page, opening));
        }
        may.iter().all(|page| self.contents.iter().any(|one| is_told(*one, page, opening)))
    }
}

/// Whether a page has this content.
fn is_told(one: Option<StreamRecord>, page: &[u8; 4096], opening: &[u8; 4096]) -> bool {
    match one {
        None => page == opening,
        Some(_) => read_record(page) == one,
    }
}
