//! Disks and logs over the files of a folder: nothing is opened here, but by each one's first call.

ghost use Rattle.std.specs.Prelude.{◌≡◌, replicate, IfOk};
ghost use Rattle.ntcache.specs.Edge.{new_file_disk, new_file_log};

use cc_filedev::{FileDisk, FileLog, FolderFile};
use std::alloc::{AllocError, Global};
use std::fs::Files;
use std::os::unix::fs::FileExt;

/// A disk for each stream that a script can have, that of stream k over `k.dat` and `k.rec`. Answers `AllocError` where memory is
/// wanting.
pub fn file_disks<R: Files + Copy + Drop>(
    alloc: Global,
    files: R,
    folder: &str,
) -> Result<Vec<FileDisk<FolderFile<R>>>, AllocError>
where
    R::File: FileExt,
    ensures { IfOk result (λ disks. disks.items ≡ replicate 16 new_file_disk) }
{
    let mut disks = Vec::with_capacity(alloc, 16)?;
    for k in 0..16u8 {
        disks.push_reserved(file_disk(alloc, files, folder, k)?);
    }
    Ok(disks)
}

/// The disk of stream k.
fn file_disk<R: Files + Copy + Drop>(
    alloc: Global,
    files: R,
    folder: &str,
    k: u8,
) -> Result<FileDisk<FolderFile<R>>, AllocError>
where
    R::File: FileExt,
    ensures { IfOk result (λ disk. disk ≡ new_file_disk) }
{
    let pages = FolderFile::of_disk(alloc, files, folder, k)?;
    let record = FolderFile::of_record(alloc, files, folder, k)?;
    Ok(FileDisk::new(pages, record))
}

/// Each log that a script can name, that of number k over `k.log`. Answers `AllocError` where memory is wanting.
pub fn file_logs<R: Files + Copy + Drop>(
    alloc: Global,
    files: R,
    folder: &str,
) -> Result<Vec<FileLog<FolderFile<R>>>, AllocError>
where
    R::File: FileExt,
    ensures { IfOk result (λ logs. logs.items ≡ replicate 4 new_file_log) }
{
    let mut logs = Vec::with_capacity(alloc, 4)?;
    for k in 0..4u8 {
        logs.push_reserved(FileLog::new(alloc, FolderFile::of_log(alloc, files, folder, k)?));
    }
    Ok(logs)
}
