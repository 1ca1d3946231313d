//! What is below the cache: four disks, in memory or over the files of a folder, and a log that keeps nothing.
//!
//! A disk in memory is an array of pages, so that little of what is measured is its own work. None of these tells what it holds.

ghost use Rattle.std.specs.Prelude.{◌≡◌, length, IfOk, None, false};

use cc_filedev::{FileDisk, FolderFile};
use cc_traits::{Faults, LogFile, PageDisk, PostRoutine, Stop, Told};
use std::alloc::{AllocError, Global};
use std::fs::Files;
use std::os::unix::fs::FileExt;

/// A disk in memory, of so many pages. Each write of a number that `fails` divides fails.
#[derive(Drop)]
pub struct ArrayDisk {
    pages: Vec<[u8; 4096]>,
    writes: u64,
    fails: u64,
    faults: Faults,
}

impl Told for ArrayDisk {
    ghost told = { λ _. None };

    ghost faults = { λ disk. disk.faults };
}

impl PageDisk for ArrayDisk {
    fn read_page(&mut self, page: u64, out: &mut [u8; 4096]) -> Result<(), Stop> {
        match self.pages.get(page as usize) {
            Some(bytes) => {
                *out = *bytes;
                Ok(())
            }
            None => Err(self.faults.raise()),
        }
    }

    fn write_page(&mut self, page: u64, bytes: &[u8; 4096]) -> Result<(), Stop> {
        self.writes = self.writes.wrapping_add(1);
        if self.fails > 0 && self.writes % self.fails == 0 {
            return Err(self.faults.raise());
        }
        match self.pages.get_mut(page as usize) {
            Some(held) => {
                *held = *bytes;
                Ok(())
            }
            None => Err(self.faults.raise()),
        }
    }

    fn sync(&mut self) -> Result<(), Stop> {
        Ok(())
    }
}

/// Four disks in memory, of so many bytes each, of which each write of a number that `fails` divides fails.
pub fn memory_disks(alloc: Global, size: u32, fails: u64) -> Result<Vec<ArrayDisk>, AllocError>
    ensures { IfOk result (λ disks. length disks.items ≡ 4) }
{
    Ok(vec![in alloc;
        memory_disk(alloc, size, fails)?,
        memory_disk(alloc, size, fails)?,
        memory_disk(alloc, size, fails)?,
        memory_disk(alloc, size, fails)?,
    ]?)
}

fn memory_disk(alloc: Global, size: u32, fails: u64) -> Result<ArrayDisk, AllocError> {
    let mut page = [0; 4096];
    fill(&mut page);
    Ok(ArrayDisk {
        pages: Vec::from_elem(alloc, page, size as usize / 4096)?,
        writes: 0,
        fails,
        faults: Faults::new(),
    })
}

/// Fills bytes so that no two that follow each other are equal.
pub fn fill(bytes: &mut [u8]) {
    let mut next: u8 = 0;
    for byte in bytes {
        *byte = next;
        next = next.wrapping_add(97);
    }
}

/// Four disks over files of a folder.
pub fn file_disks<R: Files + Copy + Drop>(
    alloc: Global,
    files: R,
    folder: &str,
) -> Result<Vec<FileDisk<FolderFile<R>>>, AllocError>
where
    R::File: FileExt,
    ensures { IfOk result (λ disks. length disks.items ≡ 4) }
{
    let mut disks = Vec::with_capacity(alloc, 4)?;
    disks.push_reserved(file_disk(alloc, files, folder, 0)?);
    disks.push_reserved(file_disk(alloc, files, folder, 1)?);
    disks.push_reserved(file_disk(alloc, files, folder, 2)?);
    disks.push_reserved(file_disk(alloc, files, folder, 3)?);
    Ok(disks)
}

fn file_disk<R: Files + Copy + Drop>(
    alloc: Global,
    files: R,
    folder: &str,
    k: u8,
) -> Result<FileDisk<FolderFile<R>>, AllocError>
where
    R::File: FileExt,
{
    let pages = FolderFile::of_disk(alloc, files, folder, k)?;
    let record = FolderFile::of_record(alloc, files, folder, k)?;
    Ok(FileDisk::new(pages, record))
}

/// A log that keeps no entry, so that its memory is none of the cache's.
#[derive(Drop)]
pub struct EmptyLog {
    faults: Faults,
}

impl EmptyLog {
    /// Such a log.
    pub fn new() -> EmptyLog {
        EmptyLog {
            faults: Faults::new(),
        }
    }
}

impl LogFile for EmptyLog {
    ghost told = { λ _. None };

    ghost faults = { λ log. log.faults };

    fn append(&mut self, _lsn: u64, _bytes: &[u8]) -> Result<(), Stop> {
        Ok(())
    }

    fn flush(&mut self, _lsn: u64) -> Result<(), Stop> {
        Ok(())
    }

    fn entry(&mut self, _n: u64, _out: &mut Vec<u8>) -> Result<Option<u64>, Stop> {
        Ok(None)
    }
}

/// A routine that is made where a write is deferred.
pub trait Fresh: PostRoutine {
    /// One that was not posted.
    fn fresh() -> Self
        ensures { Self.posted result ≡ false };
}

/// What a deferred write posts here: nothing goes on behind it.
#[derive(Drop)]
pub struct Wake {
    posted: bool,
}

impl PostRoutine for Wake {
    ghost posted = { λ wake. wake.posted };

    fn post(&mut self) {
        self.posted = true;
    }
}

impl Fresh for Wake {
    fn fresh() -> Wake {
        Wake { posted: false }
    }
}
