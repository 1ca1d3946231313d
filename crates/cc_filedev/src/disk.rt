//! A disk over two files: page p is the 4096 bytes from 4096 p on of the one, and the page past them is the other.

ghost use Rattle.std.specs.Prelude.{◌≡◌, ◌+◌, ◌-◌, ◌*◌, ◌^◌, ◌<◌, ◌≤◌, ◌↔◌, ◌||◌, true, false, None, IfOk, IsErr, length};
ghost use Rattle.cc_traits.specs.Stop.{faults_in, OnNoMemory};
ghost use Rattle.cc_filedev.specs.Devices.{DiskState};

use crate::InFolder;
use crate::kept::{KeptFile, counted};
use cc_traits::{Faults, PageDisk, Stop, Told};
use std::io;
use std::io::ErrorKind;
use std::marker::Model;
use std::os::unix::fs::FileExt;

/// A disk over files of a folder: one of pages, and one of the page with the record of its stream, which stands past
/// every page that a file can have. It tells nothing of what they hold.
#[derive(Drop)]
pub struct FileDisk<P: InFolder> {
    pages: KeptFile<P>,
    record: KeptFile<P>,
    faults: Faults,
}

impl<P: InFolder> Model for FileDisk<P> {
    ghost Value = { DiskState };

    ghost view = { λ disk. record { has_lost = disk.pages || disk.record; faults = disk.faults } };
}

impl<P: InFolder> FileDisk<P> {
    /// The disk over a file of pages and one of the record, neither of which is open yet.
    pub fn new(pages: P, record: P) -> FileDisk<P>
        ensures { result ≡ record { has_lost = false; faults = 0 } }
    {
        FileDisk {
            pages: KeptFile::new(pages),
            record: KeptFile::new(record),
            faults: Faults::new(),
        }
    }

    /// How many calls failed.
    pub fn faults(&self) -> u64
        ensures { result ≡ self.now.faults }
    {
        self.faults.count()
    }

    // Waits until what was written to the files is on the medium. A record that was not written has no file to wait for.
    fn sync_files(&mut self) -> io::Result<()>
        ensures lost { self.old.has_lost ≡ true → IsErr result }
        ensures stays_lost { self.old.has_lost ≡ true → self.new.has_lost ≡ true }
        ensures faults { self.new.faults ≡ self.old.faults }
    {
        self.pages.sync()?;
        self.record.sync_written()
    }
}

impl<P: InFolder> Told for FileDisk<P> {
    ghost told = { λ _. None };

    ghost faults = { λ disk. disk.faults };
}

impl<P: InFolder> PageDisk for FileDisk<P> {
    fn read_page(&mut self, page: u64, out: &mut [u8; 4096]) -> Result<(), Stop>
        ensures state { self.new ≡ record self.old { faults = self.old.faults + faults_in result } }
        ensures no_file { 2 ^ 51 < page → IsErr result }
        ensures full { OnNoMemory result (self.old.faults ≡ 2 ^ 64 - 1) }
    {
        let read = match page {
            RECORD_PAGE => read_page(&mut self.record, 0, out),
            _ => read_page(&mut self.pages, page, out),
        };
        counted(&mut self.faults, read)
    }

    fn write_page(&mut self, page: u64, bytes: &[u8; 4096]) -> Result<(), Stop>
        ensures state { self.new ≡ record self.old { faults = self.old.faults + faults_in result } }
        ensures no_file { 2 ^ 51 < page → IsErr result }
        ensures full { OnNoMemory result (self.old.faults ≡ 2 ^ 64 - 1) }
    {
        let written = match page {
            RECORD_PAGE => write_page(&mut self.record, 0, bytes),
            _ => write_page(&mut self.pages, page, bytes),
        };
        counted(&mut self.faults, written)
    }

    fn sync(&mut self) -> Result<(), Stop>
        ensures counted { self.new.faults ≡ self.old.faults + faults_in result }
        ensures lost { self.old.has_lost ≡ true → IsErr result }
        ensures stays_lost { self.old.has_lost ≡ true → self.new.has_lost ≡ true }
        ensures full { OnNoMemory result (self.old.faults ≡ 2 ^ 64 - 1) }
    {
        let synced = self.sync_files();
        counted(&mut self.faults, synced)
    }
}

/// The page of the record, which no file of pages has.
const RECORD_PAGE: u64 = 1 << 51;

/// How many bytes a file has at most. The system reads none behind them, so the last page lacks one byte.
const MOST: u64 = (1 << 63) - 1;

/// Where a page begins in its file. No file reaches to a page that is not below 2 ^ 51.
fn place_of(page: u64) -> io::Result<u64>
    ensures place { IfOk result (λ place. place ≡ 4096 * page) }
    ensures no_file { IsErr result ↔ (2 ^ 51 ≤ page) }
{
    if page < 1 << 51 {
        Ok(4096 * page)
    } else {
        Err(io::Error::from(ErrorKind::InvalidInput))
    }
}

fn read_page<P: InFolder>(file: &mut KeptFile<P>, page: u64, out: &mut [u8; 4096]) -> io::Result<()>
    ensures kept { file.new ≡ file.old }
    ensures no_file { 2 ^ 51 ≤ page → IsErr result }
{
    let place = place_of(page)?;
    file.open()?;
    let within = (MOST - place).min(4096) as usize;
    let got = read_up_to(file.get()?, place, &mut out[..within])?;
    out[got..].fill(0);
    Ok(())
}

fn write_page<P: InFolder>(file: &mut KeptFile<P>, page: u64, bytes: &[u8; 4096]) -> io::Result<()>
    ensures kept { file.new ≡ file.old }
    ensures no_file { 2 ^ 51 ≤ page → IsErr result }
{
    let place = place_of(page)?;
    file.write(bytes, place)
}

/// Reads from a place on, until `out` is full or the file ends, and answers how many bytes it read.
fn read_up_to<F: FileExt>(file: &F, place: u64, out: &mut [u8]) -> io::Result<usize>
    ensures { IfOk result (λ got. got ≤ length out.old) }
{
    let mut got = 0;
    while got < out.len() {
        match file.read_at(&mut out[got..], place.saturating_add(got as u64))? {
            0 => return Ok(got),
            n => got += n,
        }
    }
    Ok(got)
}
