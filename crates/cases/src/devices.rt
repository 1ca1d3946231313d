//! Devices in memory of whose calls chosen ones fail, find no memory or wait.

ghost use Rattle.std.specs.Prelude.{◌≡◌, ◌+◌, if◌then◌else◌, Some, None, IfErr};
ghost use Rattle.cc_traits.specs.declared.stop.Stop.TheVariants.{NoMemory};

use crate::stage::Stage;
use crate::trouble::{Device, Fate, Kind, Place};
use cc_memdev::{MemDisk, MemLog, MemSource};
use cc_traits::{Faults, LogFile, PageDisk, PostRoutine, Sink, Source, Stop, Told, is_end};

/// The calls that were made on a device.
#[derive(Drop)]
pub struct Calls<'a> {
    device: Device,
    stage: &'a Stage,
    made: [u64; 3],
    all: u64,
    failed: u64,
}

impl<'a> Calls<'a> {
    /// No call yet.
    pub fn new(device: Device, stage: &'a Stage) -> Calls<'a> {
        Calls {
            device,
            stage,
            made: [0; 3],
            all: 0,
            failed: 0,
        }
    }

    /// What they are made on.
    pub fn device(&self) -> Device {
        self.device
    }

    /// How many were made of a kind.
    pub fn made(&self, kind: Kind) -> u64 {
        self.made[kind.slot()]
    }

    /// How many were made.
    pub fn all(&self) -> u64 {
        self.all
    }

    /// How many were made to fail.
    pub fn failed(&self) -> u64 {
        self.failed
    }

    /// Counts a call, waits inside it where it has to, and answers what becomes of it.
    fn next(&mut self, kind: Kind) -> Fate {
        let slot = kind.slot();
        self.made[slot] = self.made[slot].saturating_add(1);
        self.all = self.all.saturating_add(1);
        let place = Place {
            device: self.device,
            kind,
            number: self.made[slot],
        };
        let fate = self.stage.call(place, self.all);
        if fate == Fate::Fails {
            self.failed = self.failed.saturating_add(1);
        }
        fate
    }
}

/// A disk in memory. It may be one that tells nothing of what it holds.
#[derive(Drop)]
pub struct CaseDisk<'a> {
    pub calls: Calls<'a>,
    pub inner: MemDisk,
    pub tells: bool,
}

impl<'a> CaseDisk<'a> {
    /// Makes the disk ready for a call, so that it fails where it has to.
    fn begin(&mut self, kind: Kind) -> Result<(), Stop>
        ensures disk { self.new.inner.disk ≡ self.old.inner.disk }
        ensures faults { self.new.inner.faults ≡ self.old.inner.faults }
        ensures tells { self.new.tells ≡ self.old.tells }
        ensures err { IfErr result (λ stop. stop ≡ NoMemory) }
    {
        match self.calls.next(kind) {
            Fate::Good => self.inner.stop_after(u64::MAX),
            Fate::Fails => self.inner.stop_after(0),
            Fate::NoMemory => return Err(Stop::NoMemory),
        }
        Ok(())
    }
}

impl<'a> Told for CaseDisk<'a> {
    ghost told = { λ disk. if disk.tells then Some disk.inner.disk else None };

    ghost faults = { λ disk. disk.inner.faults };
}

impl<'a> PageDisk for CaseDisk<'a> {
    fn read_page(&mut self, page: u64, out: &mut [u8; 4096]) -> Result<(), Stop> {
        self.begin(Kind::Read)?;
        self.inner.read_page(page, out)
    }

    fn write_page(&mut self, page: u64, bytes: &[u8; 4096]) -> Result<(), Stop> {
        self.begin(Kind::Write)?;
        self.inner.write_page(page, bytes)
    }

    fn sync(&mut self) -> Result<(), Stop> {
        self.begin(Kind::Sync)?;
        self.inner.sync()
    }
}

/// A log in memory.
#[derive(Drop)]
pub struct CaseLog<'a> {
    pub calls: Calls<'a>,
    pub inner: MemLog,
}

impl<'a> CaseLog<'a> {
    /// Makes the log ready for a call, so that it fails where it has to.
    fn begin(&mut self, kind: Kind) -> Result<(), Stop>
        ensures log { self.new.inner.log ≡ self.old.inner.log }
        ensures faults { self.new.inner.faults ≡ self.old.inner.faults }
        ensures err { IfErr result (λ stop. stop ≡ NoMemory) }
    {
        match self.calls.next(kind) {
            Fate::Good => self.inner.stop_after(u64::MAX),
            Fate::Fails => self.inner.stop_after(0),
            Fate::NoMemory => return Err(Stop::NoMemory),
        }
        Ok(())
    }
}

impl<'a> LogFile for CaseLog<'a> {
    ghost told = { λ log. Some log.inner.log };

    ghost faults = { λ log. log.inner.faults };

    fn append(&mut self, lsn: u64, bytes: &[u8]) -> Result<(), Stop> {
        self.begin(Kind::Append)?;
        self.inner.append(lsn, bytes)
    }

    // A flush takes no memory.
    fn flush(&mut self, lsn: u64) -> Result<(), Stop> {
        match self.calls.next(Kind::Flush) {
            Fate::Fails => self.inner.stop_after(0),
            _ => self.inner.stop_after(u64::MAX),
        }
        self.inner.flush(lsn)
    }

    fn entry(&mut self, n: u64, out: &mut Vec<u8>) -> Result<Option<u64>, Stop> {
        self.begin(Kind::Entry)?;
        self.inner.entry(n, out)
    }
}

/// A source of a script's bytes.
#[derive(Drop)]
pub struct CaseSource<'a> {
    pub calls: Calls<'a>,
    pub inner: MemSource,
    pub ended: bool,
    pub faults: Faults,
}

impl<'a> Source for CaseSource<'a> {
    ghost told = { λ _. None };

    ghost faults = { λ source. source.faults + source.inner.faults };

    ghost given = { λ source. source.inner.given };

    ghost ended = { λ source. source.ended };

    fn take(&mut self, buf: &mut [u8]) -> Result<usize, Stop> {
        self.ended = false;
        match self.calls.next(Kind::Take) {
            Fate::Good => {
                let given = self.inner.take(buf)?;
                self.ended = is_end(buf, given);
                Ok(given)
            }
            Fate::Fails => Err(self.faults.raise()),
            Fate::NoMemory => Err(Stop::NoMemory),
        }
    }
}

/// A sink of a text that takes at most so many bytes a call, and after so many calls nothing.
#[derive(Drop)]
pub struct CaseSink<'a> {
    pub calls: Calls<'a>,
    pub most: usize,
    pub stalls_after: u64,
    pub taken: Vec<u8>,
    pub stalls: u64,
    pub faults: Faults,
}

impl<'a> Sink for CaseSink<'a> {
    ghost told = { λ _. None };

    ghost faults = { λ sink. sink.faults };

    ghost stalls = { λ sink. sink.stalls };

    fn put(&mut self, bytes: &[u8]) -> Result<usize, Stop> {
        match self.calls.next(Kind::Put) {
            Fate::Good => {}
            Fate::Fails => return Err(self.faults.raise()),
            Fate::NoMemory => return Err(Stop::NoMemory),
        }
        let most = if self.calls.made(Kind::Put) > self.stalls_after {
            0
        } else {
            self.most
        };
        let front = bytes.len().min(most);
        if front == 0 && !bytes.is_empty() {
            // A count at its end cannot rise.
            if self.stalls == u64::MAX {
                return Err(Stop::NoMemory);
            }
            self.stalls += 1;
            return Ok(0);
        }
        self.taken.extend_from_slice(&bytes[..front])?;
        Ok(front)
    }
}

/// A post routine that notes that it was posted.
#[derive(Drop)]
pub struct Routine {
    pub number: u64,
    pub posted: bool,
}

impl PostRoutine for Routine {
    ghost posted = { λ routine. routine.posted };

    fn post(&mut self) {
        self.posted = true;
    }
}
