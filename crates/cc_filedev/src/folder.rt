//! Files of a folder, which are made where they are missing.

use std::alloc::{AllocError, Global};
use std::fs::{Files, OpenFile, OpenOptions};
use std::os::unix::fs::FileExt;
use std::path::{Path, PathBuf};
use std::{fs, io};

/// A file of a folder. It may not be there yet, and nor may the folder.
pub trait InFolder: Drop {
    /// The file, once it is open.
    type File: FileExt + OpenFile + Drop;

    /// Opens the file for reading and writing. Answers an error of the kind `NotFound` where it is missing.
    fn open(&self) -> io::Result<Self::File>;

    /// Makes the file, and opens it for reading and writing. Answers an error where it is there.
    fn make(&self) -> io::Result<Self::File>;

    /// Waits until the names of the folder's files are on the medium.
    fn sync_folder(&self) -> io::Result<()>;
}

/// A file of a folder, by the folder's path. The empty path is the folder in which the program runs.
#[derive(Drop)]
pub struct FolderFile<R: Files> {
    files: R,
    folder: PathBuf,
    path: PathBuf,
}

impl<R: Files + Drop> FolderFile<R> {
    /// The file of disk `k`, `k.dat`. Answers `AllocError` where memory is wanting.
    pub fn of_disk(
        alloc: Global,
        files: R,
        folder: &str,
        k: u8,
    ) -> Result<FolderFile<R>, AllocError> {
        let name = format!(in alloc; "{k}.dat")?;
        FolderFile::named(alloc, files, folder, name.as_str())
    }

    /// The file of the record of disk `k`, `k.rec`. Answers `AllocError` where memory is wanting.
    pub fn of_record(
        alloc: Global,
        files: R,
        folder: &str,
        k: u8,
    ) -> Result<FolderFile<R>, AllocError> {
        let name = format!(in alloc; "{k}.rec")?;
        FolderFile::named(alloc, files, folder, name.as_str())
    }

    /// The file of log `k`, `k.log`. Answers `AllocError` where memory is wanting.
    pub fn of_log(
        alloc: Global,
        files: R,
        folder: &str,
        k: u8,
    ) -> Result<FolderFile<R>, AllocError> {
        let name = format!(in alloc; "{k}.log")?;
        FolderFile::named(alloc, files, folder, name.as_str())
    }

    fn named(
        alloc: Global,
        files: R,
        folder: &str,
        name: &str,
    ) -> Result<FolderFile<R>, AllocError> {
        let folder = Path::new(if folder.is_empty() { "." } else { folder });
        Ok(FolderFile {
            files,
            folder: folder.to_path_buf(alloc)?,
            path: folder.join(alloc, name)?,
        })
    }
}

impl<R: Files + Drop> InFolder for FolderFile<R>
where
    R::File: FileExt,
{
    type File = R::File;

    fn open(&self) -> io::Result<R::File> {
        OpenOptions::new()
            .read(true)
            .write(true)
            .open(&self.files, &self.path)
    }

    fn make(&self) -> io::Result<R::File> {
        OpenOptions::new()
            .read(true)
            .write(true)
            .create_new(true)
            .open(&self.files, &self.path)
    }

    fn sync_folder(&self) -> io::Result<()> {
        fs::open(&self.files, &self.folder)?.sync_all()
    }
}
