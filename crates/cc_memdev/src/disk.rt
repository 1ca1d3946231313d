//! A disk in memory, of which chosen calls fail.

ghost use Rattle.std.specs.Prelude.{◌≡◌, ◌+◌, ◌-◌, ◌^◌, ◌↔◌, true, false, [], Some, None, IsOk, IfOk, OnOk, OnErr};
ghost use Rattle.cc_traits.specs.Stop.{faults_in, OnFailed, OnNoMemory};
ghost use Rattle.cc_traits.specs.Disk.{Found, page_of, may_of, Wrote, Settled};
ghost use Rattle.cc_memdev.specs.Calls.{plan_after_call, after_any_call, fails_next};
ghost use Rattle.cc_memdev.specs.Content.{WriteFailedInPlace};
ghost use Rattle.cc_memdev.specs.Devices.{DiskState};

use crate::calls::{AllCalls, DeviceCalls};
use crate::content::Content;
use cc_traits::{Faults, PageDisk, Stop, Told};
use std::alloc::{AllocError, Global};
use std::marker::Model;

/// The numbers of the calls that are to fail, each kind counted by itself from 1.
#[derive(Drop)]
pub struct DiskFails {
    pub reads: Vec<u64>,
    pub writes: Vec<u64>,
    pub syncs: Vec<u64>,
}

/// A disk in memory.
#[derive(Drop)]
pub struct MemDisk {
    content: Content,
    reads: DeviceCalls,
    writes: DeviceCalls,
    syncs: DeviceCalls,
    all: AllCalls,
    faults: Faults,
}

impl Model for MemDisk {
    ghost Value = { DiskState };

    ghost view = { λ d. record {
      disk = d.content;
      reads = d.reads;
      writes = d.writes;
      syncs = d.syncs;
      stop = d.all;
      faults = d.faults;
    } };
}

impl Told for MemDisk {
    ghost told = { λ d. Some d.disk };

    ghost faults = { λ d. d.faults };
}

impl MemDisk {
    /// A disk whose pages are full of one byte. It takes no memory.
    pub fn new(alloc: Global, fill: u8, fails: DiskFails) -> MemDisk
        ensures disk { result.disk ≡ record { fill = fill; holds = []; may = [] } }
        ensures reads { result.reads ≡ record { fails = fails.reads.items; made = 0 } }
        ensures writes { result.writes ≡ record { fails = fails.writes.items; made = 0 } }
        ensures syncs { result.syncs ≡ record { fails = fails.syncs.items; made = 0 } }
        ensures no_stop { result.stop ≡ record { after = None; made = 0 } }
        ensures no_fault { result.faults ≡ 0 }
    {
        MemDisk::with_pages(alloc, fill, Vec::new(alloc), fails)
    }

    /// A disk with these pages, and one byte in all others. Of two pairs with one page the later
    /// stands. It takes no memory, and keeps the pages as they are handed in: a page that is not
    /// written is looked for among all of them.
    pub fn with_pages(
        alloc: Global,
        fill: u8,
        pages: Vec<(u64, [u8; 4096])>,
        fails: DiskFails,
    ) -> MemDisk
        ensures disk { result.disk ≡ record { fill = fill; holds = pages.items; may = [] } }
        ensures reads { result.reads ≡ record { fails = fails.reads.items; made = 0 } }
        ensures writes { result.writes ≡ record { fails = fails.writes.items; made = 0 } }
        ensures syncs { result.syncs ≡ record { fails = fails.syncs.items; made = 0 } }
        ensures no_stop { result.stop ≡ record { after = None; made = 0 } }
        ensures no_fault { result.faults ≡ 0 }
    {
        MemDisk {
            content: Content::new(alloc, fill, pages),
            reads: DeviceCalls::new(fails.reads),
            writes: DeviceCalls::new(fails.writes),
            syncs: DeviceCalls::new(fails.syncs),
            all: AllCalls::new(),
            faults: Faults::new(),
        }
    }

    /// From the call after the `k`-th of this disk on, of any kind, every call fails.
    pub fn stop_after(&mut self, k: u64)
        ensures { self.new ≡ record self.old { stop = record { after = Some k; made = self.old.stop.made } } }
    {
        self.all.stop_after(k);
    }

    /// What a page holds.
    pub fn page(&self, page: u64) -> [u8; 4096]
        ensures { result ≡ page_of self.now.disk page }
    {
        self.content.page(page)
    }

    /// The contents of a page that a crash now can leave, oldest first. Answers `AllocError` where memory is wanting.
    pub fn may(&self, page: u64) -> Result<Vec<[u8; 4096]>, AllocError>
        ensures { IfOk result (λ contents. contents.items ≡ may_of self.now.disk page) }
    {
        self.content.may(page)
    }

    /// How many calls failed.
    pub fn faults(&self) -> u64
        ensures { result ≡ self.now.faults }
    {
        self.faults.count()
    }
}

impl PageDisk for MemDisk {
    fn read_page(&mut self, page: u64, out: &mut [u8; 4096]) -> Result<(), Stop>
        ensures found { OnOk result (Found page out.new self.old.disk) }
        ensures state { self.new ≡ record self.old {
          reads = plan_after_call self.old.reads;
          stop = after_any_call self.old.stop;
          faults = self.old.faults + faults_in result;
        } }
        ensures planned { IsOk result ↔ (fails_next self.old.reads self.old.stop ≡ false) }
        ensures full { OnNoMemory result (self.old.faults ≡ 2 ^ 64 - 1) }
    {
        let listed = self.reads.is_next_listed();
        let stopped = self.all.is_next_stopped();
        if listed || stopped {
            return Err(self.faults.raise());
        }
        *out = self.content.page(page);
        Ok(())
    }

    fn write_page(&mut self, page: u64, bytes: &[u8; 4096]) -> Result<(), Stop>
        ensures wrote { OnOk result (Wrote page bytes.now self.old.disk self.new.disk) }
        ensures failed { OnFailed result (WriteFailedInPlace page bytes.now self.old.disk self.new.disk) }
        ensures no_memory { OnNoMemory result (self.new.disk ≡ self.old.disk) }
        ensures state { self.new ≡ record self.old {
          disk = self.new.disk;
          writes = plan_after_call self.old.writes;
          stop = after_any_call self.old.stop;
          faults = self.old.faults + faults_in result;
        } }
        ensures ok_unplanned { OnOk result (fails_next self.old.writes self.old.stop ≡ false) }
        ensures failed_planned { OnFailed result (fails_next self.old.writes self.old.stop ≡ true) }
    {
        let listed = self.writes.is_next_listed();
        let stopped = self.all.is_next_stopped();
        if !listed && !stopped {
            self.content.record(page, bytes, true)?;
            return Ok(());
        }
        if self.faults.is_full() {
            return Err(Stop::NoMemory);
        }
        self.content.record(page, bytes, false)?;
        Err(self.faults.raise())
    }

    fn sync(&mut self) -> Result<(), Stop>
        ensures settled { OnOk result (Settled self.old.disk self.new.disk) }
        ensures err { OnErr result (self.new.disk ≡ self.old.disk) }
        ensures state { self.new ≡ record self.old {
          disk = self.new.disk;
          syncs = plan_after_call self.old.syncs;
          stop = after_any_call self.old.stop;
          faults = self.old.faults + faults_in result;
        } }
        ensures planned { IsOk result ↔ (fails_next self.old.syncs self.old.stop ≡ false) }
        ensures full { OnNoMemory result (self.old.faults ≡ 2 ^ 64 - 1) }
    {
        let listed = self.syncs.is_next_listed();
        let stopped = self.all.is_next_stopped();
        if listed || stopped {
            return Err(self.faults.raise());
        }
        self.content.settle();
        Ok(())
    }
}
