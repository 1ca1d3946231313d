//! Two disks, one for each stream, and the log of both: in memory, or over the files of a folder.

ghost use Rattle.std.specs.Prelude.{◌≡◌, length, IfOk};

use cc_filedev::{FileDisk, FileLog, FolderFile};
use cc_memdev::{DiskFails, LogFails, MemDisk, MemLog};
use cc_traits::PostRoutine;
use std::alloc::{AllocError, Global};
use std::fs::Files;
use std::os::unix::fs::FileExt;

/// Two disks in memory, full of zeros, none of whose calls is to fail.
pub fn memory_disks(alloc: Global) -> Result<Vec<MemDisk>, AllocError>
    ensures { IfOk result (λ disks. length disks.items ≡ 2) }
{
    Ok(vec![in alloc; memory_disk(alloc), memory_disk(alloc)]?)
}

fn memory_disk(alloc: Global) -> MemDisk {
    let fails = DiskFails {
        reads: Vec::new(alloc),
        writes: Vec::new(alloc),
        syncs: Vec::new(alloc),
    };
    MemDisk::new(alloc, 0, fails)
}

/// One log in memory.
pub fn memory_logs(alloc: Global) -> Result<Vec<MemLog>, AllocError>
    ensures { IfOk result (λ logs. length logs.items ≡ 1) }
{
    let fails = LogFails {
        appends: Vec::new(alloc),
        flushes: Vec::new(alloc),
        reads: Vec::new(alloc),
    };
    Ok(vec![in alloc; MemLog::new(alloc, fails)]?)
}

/// Two disks over files of a folder, which are made where they are missing, each at the first call that needs it.
pub fn file_disks<R: Files + Copy + Drop>(
    alloc: Global,
    files: R,
    folder: &str,
) -> Result<Vec<FileDisk<FolderFile<R>>>, AllocError>
where
    R::File: FileExt,
    ensures { IfOk result (λ disks. length disks.items ≡ 2) }
{
    let mut disks = Vec::with_capacity(alloc, 2)?;
    disks.push_reserved(file_disk(alloc, files, folder, 0)?);
    disks.push_reserved(file_disk(alloc, files, folder, 1)?);
    Ok(disks)
}

/// The disk of stream k, over the files `k.dat`, with the pages, and `k.rec`, with the record of the stream.
fn file_disk<R: Files + Copy + Drop>(
    alloc: Global,
    files: R,
    folder: &str,
    k: u8,
) -> Result<FileDisk<FolderFile<R>>, AllocError>
where
    R::File: FileExt,
{
    let pages = FolderFile::of_disk(alloc, files, folder, k)?;
    let record = FolderFile::of_record(alloc, files, folder, k)?;
    Ok(FileDisk::new(pages, record))
}

/// The log over the file `0.log` of a folder.
pub fn file_logs<R: Files + Copy + Drop>(
    alloc: Global,
    files: R,
    folder: &str,
) -> Result<Vec<FileLog<FolderFile<R>>>, AllocError>
where
    R::File: FileExt,
    ensures { IfOk result (λ logs. length logs.items ≡ 1) }
{
    let mut logs = Vec::with_capacity(alloc, 1)?;
    let file = FolderFile::of_log(alloc, files, folder, 0)?;
    logs.push_reserved(FileLog::new(alloc, file));
    Ok(logs)
}

/// What a deferred write would post. This program defers none.
#[derive(Drop)]
pub struct Wake {
    posted: bool,
}

impl PostRoutine for Wake {
    ghost posted = { λ wake. wake.posted };

    fn post(&mut self) {
        self.posted = true;
    }
}
