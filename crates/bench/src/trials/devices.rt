//! Devices in memory that stop after so many calls, together or apart, and some of whose calls may be left out or late though they
//! are answered.

ghost use Rattle.std.specs.Prelude.{◌≡◌, if◌then◌else◌, Some, None};

use cc_memdev::{DiskFails, LogFails, MemDisk, MemLog};
use cc_traits::{Gate, LogFile, PageDisk, Stop, Told};
use std::alloc::Global;
use std::sync::atomic::{AtomicU64, Ordering};

/// The page of a disk that has the record of its stream.
pub const RECORD_PAGE: u64 = 1 << 51;

/// What is left out on purpose, or late.
#[derive(Clone, Copy, PartialEq, Eq)]
pub enum Wrong {
    Nothing,
    /// Each sync of a run, so that of a checkpoint.
    RunSyncs,
    /// Each flush of the log in a run, so that before a page is written.
    LogFlushes,
    /// A flush of the log in a run comes behind the next call on a disk, so behind the write of a page that it has to precede.
    LateLogFlushes,
    /// The sync of a restart before the record is written.
    FirstSync,
    /// The sync of a restart behind the record.
    LastSync,
    /// The write of the record in a restart, by which the valid data length is raised.
    Records,
}

impl Wrong {
    /// What a word names.
    pub fn named(word: &str) -> Option<Wrong> {
        match word {
            "run-syncs" => Some(Wrong::RunSyncs),
            "log-flushes" => Some(Wrong::LogFlushes),
            "late-log-flushes" => Some(Wrong::LateLogFlushes),
            "first-sync" => Some(Wrong::FirstSync),
            "last-sync" => Some(Wrong::LastSync),
            "records" => Some(Wrong::Records),
            _ => None,
        }
    }
}

/// The calls on some devices of a run, counted, and the number after which each fails.
#[derive(Drop)]
pub struct Calls {
    after: u64,
    made: AtomicU64,
}

impl Calls {
    /// No call yet; those after so many fail.
    pub fn stopping_after(after: u64) -> Calls {
        Calls {
            after,
            made: AtomicU64::new(0),
        }
    }

    /// How many were made.
    pub fn made(&self) -> u64 {
        self.made.load(Ordering::SeqCst)
    }

    /// How many did not fail.
    pub fn kept(&self) -> u64 {
        self.made().min(self.after)
    }

    /// Whether a call failed.
    pub fn have_stopped(&self) -> bool {
        self.after < self.made()
    }

    // Counts the next call. Answers after how many calls its device is to stop: at once, or never.
    fn next_stop(&self) -> u64 {
        self.made.fetch_add(1, Ordering::SeqCst);
        if self.have_stopped() { 0 } else { u64::MAX }
    }
}

/// Which calls of a disk are answered and not made.
#[derive(Clone, Copy, PartialEq, Eq)]
enum Skipped {
    None,
    Syncs,
    FirstSync,
    LaterSyncs,
    Records,
}

/// A disk in memory. One of which calls are left out tells nothing of what it holds.
#[derive(Drop)]
pub struct TrialDisk<'a> {
    calls: &'a Calls,
    inner: MemDisk,
    tells: bool,
    skipped: Skipped,
    reads: u64,
    writes: u64,
    syncs: u64,
}

impl<'a> TrialDisk<'a> {
    /// A disk of a run, with these pages.
    pub fn of_run(
        alloc: Global,
        calls: &'a Calls,
        fill: u8,
        pages: Vec<(u64, [u8; 4096])>,
        wrong: Wrong,
    ) -> TrialDisk<'a> {
        let skipped = match wrong {
            Wrong::RunSyncs => Skipped::Syncs,
            _ => Skipped::None,
        };
        TrialDisk::new(alloc, calls, fill, pages, skipped)
    }

    /// A disk that is restarted, with these pages.
    pub fn of_restart(
        alloc: Global,
        calls: &'a Calls,
        fill: u8,
        pages: Vec<(u64, [u8; 4096])>,
        wrong: Wrong,
    ) -> TrialDisk<'a> {
        let skipped = match wrong {
            Wrong::FirstSync => Skipped::FirstSync,
            Wrong::LastSync => Skipped::LaterSyncs,
            Wrong::Records => Skipped::Records,
            _ => Skipped::None,
        };
        TrialDisk::new(alloc, calls, fill, pages, skipped)
    }

    fn new(
        alloc: Global,
        calls: &'a Calls,
        fill: u8,
        pages: Vec<(u64, [u8; 4096])>,
        skipped: Skipped,
    ) -> TrialDisk<'a> {
        let fails = DiskFails {
            reads: Vec::new(alloc),
            writes: Vec::new(alloc),
            syncs: Vec::new(alloc),
        };
        TrialDisk {
            calls,
            inner: MemDisk::with_pages(alloc, fill, pages, fails),
            tells: skipped == Skipped::None,
            skipped,
            reads: 0,
            writes: 0,
            syncs: 0,
        }
    }

    /// What it holds, and what a crash may leave of that.
    pub fn inner(&self) -> &MemDisk {
        &self.inner
    }

    /// How many reads, writes and syncs there were.
    pub fn counts(&self) -> (u64, u64, u64) {
        (self.reads, self.writes, self.syncs)
    }

    // Makes the disk ready for a call, so that it fails where it has to.
    fn begin(&mut self)
        ensures disk { self.new.inner.disk ≡ self.old.inner.disk }
        ensures faults { self.new.inner.faults ≡ self.old.inner.faults }
        ensures tells { self.new.tells ≡ self.old.tells }
    {
        let stop = self.calls.next_stop();
        self.inner.stop_after(stop);
    }

    // Whether the sync that is counted is left out.
    fn skips_sync(&self) -> bool {
        match self.skipped {
            Skipped::Syncs => true,
            Skipped::FirstSync => self.syncs == 1,
            Skipped::LaterSyncs => self.syncs > 1,
            _ => false,
        }
    }
}

impl<'a> Told for TrialDisk<'a> {
    ghost told = { λ disk. if disk.tells then Some disk.inner.disk else None };

    ghost faults = { λ disk. disk.inner.faults };
}

impl<'a> PageDisk for TrialDisk<'a> {
    fn read_page(&mut self, page: u64, out: &mut [u8; 4096]) -> Result<(), Stop> {
        self.reads = self.reads.saturating_add(1);
        self.begin();
        self.inner.read_page(page, out)
    }

    fn write_page(&mut self, page: u64, bytes: &[u8; 4096]) -> Result<(), Stop> {
        self.writes = self.writes.saturating_add(1);
        self.begin();
        let is_skipped = page == RECORD_PAGE && self.skipped == Skipped::Records;
        if is_skipped && !self.tells && !self.calls.have_stopped() {
            return Ok(());
        }
        self.inner.write_page(page, bytes)
    }

    fn sync(&mut self) -> Result<(), Stop> {
        self.syncs = self.syncs.saturating_add(1);
        self.begin();
        let is_skipped = self.skips_sync();
        if is_skipped && !self.tells && !self.calls.have_stopped() {
            return Ok(());
        }
        self.inner.sync()
    }
}

/// A log in memory. One whose flushes are left out or late tells nothing of what it holds.
#[derive(Drop)]
pub struct TrialLog<'a> {
    calls: &'a Calls,
    /// Those on disks.
    disk_calls: &'a Calls,
    inner: MemLog,
    tells: bool,
    /// Where its flushes are late: up to where they came, and of the last one how far it goes and behind which call on a disk it
    /// was asked for.
    is_late: bool,
    came: u64,
    asked: u64,
    behind: u64,
    reads: u64,
}

impl<'a> TrialLog<'a> {
    /// A log of a run or of a restart, with these entries.
    pub fn new(
        alloc: Global,
        calls: &'a Calls,
        disk_calls: &'a Calls,
        entries: Vec<(u64, Vec<u8>)>,
        wrong: Wrong,
    ) -> TrialLog<'a> {
        let fails = LogFails {
            appends: Vec::new(alloc),
            flushes: Vec::new(alloc),
            reads: Vec::new(alloc),
        };
        let is_late = wrong == Wrong::LateLogFlushes;
        TrialLog {
            calls,
            disk_calls,
            inner: MemLog::with_entries(alloc, entries, fails),
            tells: wrong != Wrong::LogFlushes && !is_late,
            is_late,
            came: 0,
            asked: 0,
            behind: 0,
            reads: 0,
        }
    }

    /// Its entries, the oldest first.
    pub fn entries(&self) -> &[(u64, Vec<u8>)] {
        self.inner.entries()
    }

    /// The LSN up to which they are on the medium, or 0.
    pub fn durable(&self) -> u64 {
        let come = if self.behind < self.disk_calls.kept() {
            self.asked
        } else {
            0
        };
        self.inner.durable().max(self.came).max(come)
    }

    /// How many reads of an entry there were.
    pub fn reads(&self) -> u64 {
        self.reads
    }

    // Makes the log ready for a call, so that it fails where it has to.
    fn begin(&mut self)
        ensures log { self.new.inner.log ≡ self.old.inner.log }
        ensures faults { self.new.inner.faults ≡ self.old.inner.faults }
        ensures tells { self.new.tells ≡ self.old.tells }
    {
        let stop = self.calls.next_stop();
        self.inner.stop_after(stop);
    }

    // Notes a flush that is answered and not made.
    fn note_flush(&mut self, lsn: u64)
        ensures faults { self.new.inner.faults ≡ self.old.inner.faults }
        ensures tells { self.new.tells ≡ self.old.tells }
    {
        if self.is_late {
            self.came = self.durable();
            self.asked = self.asked.max(lsn);
            self.behind = self.disk_calls.kept();
        }
    }
}

impl<'a> LogFile for TrialLog<'a> {
    ghost told = { λ log. if log.tells then Some log.inner.log else None };

    ghost faults = { λ log. log.inner.faults };

    fn append(&mut self, lsn: u64, bytes: &[u8]) -> Result<(), Stop> {
        self.begin();
        self.inner.append(lsn, bytes)
    }

    fn flush(&mut self, lsn: u64) -> Result<(), Stop> {
        self.begin();
        if !self.tells && !self.calls.have_stopped() {
            self.note_flush(lsn);
            return Ok(());
        }
        self.inner.flush(lsn)
    }

    fn entry(&mut self, n: u64, out: &mut Vec<u8>) -> Result<Option<u64>, Stop> {
        self.reads = self.reads.saturating_add(1);
        self.begin();
        self.inner.entry(n, out)
    }
}

/// A gate that holds nobody back.
pub struct Open;

impl Gate for Open {
    fn before(&self, _caller: u32, _call: u32) {}

    fn after(&self, _caller: u32, _call: u32) {}
}
