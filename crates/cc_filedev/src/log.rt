//! A log over a file.

ghost use Rattle.std.specs.Prelude.{◌≡◌, ◌+◌, ◌-◌, ◌^◌, true, false, None, IsErr};
ghost use Rattle.cc_traits.specs.Stop.{faults_in, OnNoMemory};
ghost use Rattle.cc_filedev.specs.Devices.{LogState};

use crate::InFolder;
use crate::entries::{Entries, FileEntry, is_lsn, put_entry};
use crate::kept::{KeptFile, counted};
use cc_traits::{Faults, LogFile, Stop};
use std::alloc::Global;
use std::fs::OpenFile;
use std::io;
use std::io::ErrorKind;
use std::marker::Model;
use std::os::unix::fs::FileExt;

/// A log over a file of a folder. It tells nothing of what the file holds.
///
/// The entries are those that stand whole, one behind the other, from the file's first byte on. What stands behind them,
/// as a stop in an append leaves it, is no entry, and the next append goes in its place. An append that fails leaves the
/// file as long as its entries; where that fails too, every later call fails.
#[derive(Drop)]
pub struct FileLog<P: InFolder> {
    file: KeptFile<P>,
    // What the file has, once an append or a read of an entry asked.
    entries: Option<Entries>,
    // The bytes of the entry that is appended, so that one write takes them.
    bytes: Vec<u8>,
    is_broken: bool,
    faults: Faults,
}

impl<P: InFolder> Model for FileLog<P> {
    ghost Value = { LogState };

    ghost view = { λ log. record { has_lost = log.file; is_broken = log.is_broken; faults = log.faults } };
}

impl<P: InFolder> FileLog<P> {
    /// The log over a file, which is not open yet. It takes no memory.
    pub fn new(alloc: Global, place: P) -> FileLog<P>
        ensures { result ≡ record { has_lost = false; is_broken = false; faults = 0 } }
    {
        FileLog {
            file: KeptFile::new(place),
            entries: None,
            bytes: Vec::new(alloc),
            is_broken: false,
            faults: Faults::new(),
        }
    }

    /// How many calls failed.
    pub fn faults(&self) -> u64
        ensures { result ≡ self.now.faults }
    {
        self.faults.count()
    }

    // Puts the bytes of an entry into the file, behind the others.
    fn put(&mut self) -> io::Result<()>
        ensures broken { self.old.is_broken ≡ true → IsErr result }
        ensures stays_broken { self.old.is_broken ≡ true → self.new.is_broken ≡ true }
        ensures kept { self.new.has_lost ≡ self.old.has_lost }
        ensures faults { self.new.faults ≡ self.old.faults }
    {
        check(self.is_broken)?;
        self.file.open()?;
        let file = self.file.get()?;
        let mut entries = found(self.entries, file)?;
        entries.cut_tail(file)?;
        let written = file.write_all_at(&self.bytes, entries.last.place);
        match written {
            Ok(()) => entries.note(self.bytes.len() as u64),
            Err(_) => self.is_broken = file.set_len(entries.last.place).is_err(),
        }
        self.entries = Some(entries);
        written
    }

    // The `n`-th entry, if there is one.
    fn find(&mut self, n: u64) -> io::Result<Option<FileEntry>>
        ensures broken { self.old.is_broken ≡ true → IsErr result }
        ensures kept { self.new ≡ self.old }
    {
        check(self.is_broken)?;
        self.file.open()?;
        let file = self.file.get()?;
        let mut entries = found(self.entries, file)?;
        let entry = entries.find(file, n)?;
        self.entries = Some(entries);
        Ok(entry)
    }

    fn sync(&mut self) -> io::Result<()>
        ensures broken { self.old.is_broken ≡ true → IsErr result }
        ensures lost { self.old.has_lost ≡ true → IsErr result }
        ensures stays_lost { self.old.has_lost ≡ true → self.new.has_lost ≡ true }
        ensures stays_broken { self.new.is_broken ≡ self.old.is_broken }
        ensures faults { self.new.faults ≡ self.old.faults }
    {
        check(self.is_broken)?;
        self.file.sync()
    }
}

/// An error where the log is broken.
fn check(is_broken: bool) -> io::Result<()>
    ensures { is_broken ≡ true → IsErr result }
{
    if is_broken {
        Err(io::Error::from(ErrorKind::Other))
    } else {
        Ok(())
    }
}

/// What a file has: as it is known, or by looking through it.
fn found<F: FileExt + OpenFile>(known: Option<Entries>, file: &F) -> io::Result<Entries> {
    match known {
        Some(entries) => Ok(entries),
        None => Entries::of(file),
    }
}

impl<P: InFolder> LogFile for FileLog<P> {
    ghost told = { λ _. None };

    ghost faults = { λ log. log.faults };

    fn append(&mut self, lsn: u64, bytes: &[u8]) -> Result<(), Stop>
        ensures counted { self.new.faults ≡ self.old.faults + faults_in result }
        ensures broken { self.old.is_broken ≡ true → IsErr result }
        ensures stays_broken { self.old.is_broken ≡ true → self.new.is_broken ≡ true }
        ensures kept { self.new.has_lost ≡ self.old.has_lost }
    {
        let size = match u32::try_from(bytes.len()) {
            Ok(size) if is_lsn(lsn) => size,
            _ => return Err(self.faults.raise()),
        };
        put_entry(&mut self.bytes, lsn, size, bytes)?;
        let appended = self.put();
        counted(&mut self.faults, appended)
    }

    fn flush(&mut self, _lsn: u64) -> Result<(), Stop>
        ensures counted { self.new.faults ≡ self.old.faults + faults_in result }
        ensures takes_no_memory { OnNoMemory result (self.old.faults ≡ 2 ^ 64 - 1) }
        ensures broken { self.old.is_broken ≡ true → IsErr result }
        ensures lost { self.old.has_lost ≡ true → IsErr result }
        ensures stays_lost { self.old.has_lost ≡ true → self.new.has_lost ≡ true }
        ensures stays_broken { self.new.is_broken ≡ self.old.is_broken }
    {
        let synced = self.sync();
        counted(&mut self.faults, synced)
    }

    fn entry(&mut self, n: u64, out: &mut Vec<u8>) -> Result<Option<u64>, Stop>
        ensures state { self.new ≡ record self.old { faults = self.old.faults + faults_in result } }
        ensures broken { self.old.is_broken ≡ true → IsErr result }
    {
        let found = self.find(n);
        match counted(&mut self.faults, found)? {
            Some(entry) => {
                out.clear();
                out.resize(entry.size as usize, 0)?;
                let read = read_bytes(&mut self.file, entry.from, out);
                counted(&mut self.faults, read)?;
                Ok(Some(entry.lsn))
            }
            None => Ok(None),
        }
    }
}

fn read_bytes<P: InFolder>(file: &mut KeptFile<P>, place: u64, out: &mut [u8]) -> io::Result<()>
    ensures { file.new ≡ file.old }
{
    file.open()?;
    file.get()?.read_exact_at(out, place)
}
