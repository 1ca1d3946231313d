//! The file of a device, opened at the first call that needs it.

ghost use Rattle.std.specs.Prelude.{◌≡◌, ◌+◌, ◌-◌, ◌^◌, ◌↔◌, Bool, true, false, IsErr};
ghost use Rattle.cc_traits.specs.Stop.{faults_in, OnNoMemory};

use crate::InFolder;
use cc_traits::{Faults, Stop};
use std::fs::OpenFile;
use std::io;
use std::io::ErrorKind;
use std::marker::Model;
use std::os::unix::fs::FileExt;

/// What a call answers that was tried: an error of the system is a failure, and is counted.
pub(crate) fn counted<T: Drop>(faults: &mut Faults, tried: io::Result<T>) -> Result<T, Stop>
    ensures counted { faults.new ≡ faults.old + faults_in result }
    ensures err { IsErr result ↔ IsErr tried }
    ensures full { OnNoMemory result (faults.old ≡ 2 ^ 64 - 1) }
{
    match tried {
        Ok(value) => Ok(value),
        Err(_) => Err(faults.raise()),
    }
}

/// The file of a device. Where it can't be opened the next call tries again. A sync that failed may have lost what
/// was written before it, and the system tells so only once; so every later one fails.
#[derive(Drop)]
pub(crate) struct KeptFile<P: InFolder> {
    place: P,
    file: Option<P::File>,
    // The file was made, and its name may not be on the medium.
    is_new: bool,
    // Bytes were handed to the system for it.
    is_written: bool,
    has_lost: bool,
}

impl<P: InFolder> Model for KeptFile<P> {
    ghost Value = { Bool };

    ghost view = { λ file. file.has_lost };
}

impl<P: InFolder> KeptFile<P> {
    /// A file that is not open yet.
    pub(crate) fn new(place: P) -> KeptFile<P>
        ensures { result ≡ false }
    {
        KeptFile {
            place,
            file: None,
            is_new: false,
            is_written: false,
            has_lost: false,
        }
    }

    /// The file, once it is open.
    pub(crate) fn get(&self) -> io::Result<&P::File> {
        match &self.file {
            Some(file) => Ok(file),
            None => Err(io::Error::from(ErrorKind::NotFound)),
        }
    }

    /// Opens the file if no call has opened it, and makes it where it is missing.
    pub(crate) fn open(&mut self) -> io::Result<()>
        ensures { self.new ≡ self.old }
    {
        if self.file.is_some() {
            return Ok(());
        }
        let file = match self.place.open() {
            Err(error) if error.kind() == ErrorKind::NotFound => self.make()?,
            opened => opened?,
        };
        if self.is_new {
            sync_names(&self.place)?;
            self.is_new = false;
        }
        self.file = Some(file);
        Ok(())
    }

    fn make(&mut self) -> io::Result<P::File>
        ensures { self.new ≡ self.old }
    {
        let file = self.place.make()?;
        self.is_new = true;
        Ok(file)
    }

    /// Writes bytes from a place on.
    pub(crate) fn write(&mut self, bytes: &[u8], place: u64) -> io::Result<()>
        ensures { self.new ≡ self.old }
    {
        self.open()?;
        self.is_written = true;
        self.get()?.write_all_at(bytes, place)
    }

    /// The same as [`KeptFile::sync`], but for a file that was never written, which is left alone.
    pub(crate) fn sync_written(&mut self) -> io::Result<()>
        ensures fails { self.old ≡ true → IsErr result }
        ensures stays { self.old ≡ true → self.new ≡ true }
    {
        if self.is_written || self.has_lost {
            self.sync()
        } else {
            Ok(())
        }
    }

    /// Waits until what was written is on the medium.
    pub(crate) fn sync(&mut self) -> io::Result<()>
        ensures fails { self.old ≡ true → IsErr result }
        ensures stays { self.old ≡ true → self.new ≡ true }
    {
        if self.has_lost {
            return Err(io::Error::from(ErrorKind::Other));
        }
        self.open()?;
        let synced = self.get()?.sync_data();
        self.has_lost = synced.is_err();
        synced
    }
}

/// Waits until the names of a folder are on the medium, where the system can do that for a folder.
fn sync_names<P: InFolder>(place: &P) -> io::Result<()> {
    match place.sync_folder() {
        Err(error) if is_unsupported(error.kind()) => Ok(()),
        synced => synced,
    }
}

/// Whether the system says by such an error that it syncs no folder of this kind.
fn is_unsupported(kind: ErrorKind) -> bool {
    matches!(kind, ErrorKind::InvalidInput | ErrorKind::Unsupported)
}
