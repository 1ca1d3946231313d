//! One run of a case, and what is seen of it.

ghost use Rattle.std.specs.Prelude.{◌≡◌, false, All, IfOk};

use crate::case::{Case, DiskPlan, LogPlan};
use crate::devices::{Calls, CaseDisk, CaseLog, CaseSink, CaseSource, Routine};
use crate::records::MayTell;
use crate::stage::Stage;
use crate::trouble::Device;
use cc_async::AsyncPass;
use cc_entry::{End, Entry, Request};
use cc_memdev::{DiskFails, LogFails, MemDisk, MemLog, MemSource};
use cc_queue::QueuePlace;
use cc_run::{Ended, cache_main};
use cc_traits::Faults;
use std::alloc::{AllocError, Global};
use std::sync::Wait;
use std::thread::Threads;

/// What a run gave back.
#[derive(Drop)]
pub struct Left<'a> {
    pub status: u8,
    pub text: String,
    pub replies: usize,
    pub entries: usize,
    /// The entries of the journal, the oldest first.
    pub journal: Vec<Entry>,
    /// How many entries of the journal say that a device failed.
    pub failures: usize,
    /// How many of them say that a deferred write was posted.
    pub posted: usize,
    pub ticks: usize,
    pub aheads: usize,
    /// How often each pass, from 1 on, found the queue of read-ahead empty, and full.
    pub places: Vec<(u64, u64)>,
    /// The same of the queue of copied reads.
    pub async_places: Vec<(u64, u64)>,
    /// How many calls passed the gate and told it their end.
    pub passed: u64,
    /// What the journal says of the record page of each disk.
    pub records: Vec<MayTell>,
    /// Whether the script restarts a log, which writes records without an entry.
    pub restarts: bool,
    pub source: CaseSource<'a>,
    pub sink: CaseSink<'a>,
    pub disks: Vec<CaseDisk<'a>>,
    pub logs: Vec<CaseLog<'a>>,
    pub posts: Vec<Routine>,
}

impl<'a> Left<'a> {
    /// The calls on a device, where there is such a one.
    pub fn calls(&self, device: Device) -> Option<&Calls<'a>> {
        match device {
            Device::Disk(disk) => Some(&self.disks.get(disk)?.calls),
            Device::Log(log) => Some(&self.logs.get(log)?.calls),
            Device::Source => Some(&self.source.calls),
            Device::Sink => Some(&self.sink.calls),
        }
    }
}

/// Runs the program over what a case hands in.
pub fn run_once<'a, R: Threads + Wait + Sync>(
    rt: &R,
    alloc: Global,
    case: &Case,
    script: &str,
    stage: &'a Stage,
) -> Result<Left<'a>, AllocError> {
    let mut words = Vec::new(alloc);
    for word in case.words.iter() {
        words.push(word.clone()?)?;
    }
    let mut source = CaseSource {
        calls: Calls::new(Device::Source, stage),
        inner: MemSource::new(
            script.as_bytes().to_vec(alloc)?,
            case.gives.max(1),
            Vec::new(alloc),
        ),
        ended: false,
        faults: Faults::new(),
    };
    let mut sink = CaseSink {
        calls: Calls::new(Device::Sink, stage),
        most: case.takes,
        stalls_after: case.stalls_after,
        taken: Vec::new(alloc),
        stalls: 0,
        faults: Faults::new(),
    };
    let disks = disks(alloc, &case.disks, stage)?;
    let logs = logs(alloc, &case.logs, stage)?;
    let posts = routines(alloc, case.routines)?;
    let Ended {
        status,
        script: _script,
        replies,
        ticks,
        aheads,
        places,
        async_places,
        journal,
        disks,
        logs,
        posts,
        disks_begun: _disks_begun,
        logs_begun: _logs_begun,
    } = cache_main(
        rt,
        alloc,
        &words,
        &mut source,
        &mut sink,
        disks,
        logs,
        posts,
        stage,
    );
    Ok(Left {
        status,
        text: String::from_utf8_lossy(alloc, &sink.taken)?,
        replies: replies.len(),
        entries: journal.len(),
        failures: journal.iter().filter(|entry| is_failure(entry)).count(),
        posted: journal.iter().filter(|entry| is_post(entry)).count(),
        ticks: ticks.len(),
        aheads: aheads.len(),
        places: found(alloc, &places)?,
        async_places: found_async(alloc, &async_places)?,
        passed: stage.moments.passed(),
        records: records(alloc, &journal, disks.len())?,
        restarts: script.lines().any(|line| line.starts_with("restart ")),
        journal,
        source,
        sink,
        disks,
        logs,
        posts,
    })
}

/// How often each pass found the queue of read-ahead empty, and full.
fn found(alloc: Global, places: &[QueuePlace<Request>]) -> Result<Vec<(u64, u64)>, AllocError> {
    let mut found = Vec::new(alloc);
    for place in places {
        found.push((place.empties(), place.fulls()))?;
    }
    Ok(found)
}

/// The same of the queue of copied reads.
fn found_async(alloc: Global, places: &[AsyncPass]) -> Result<Vec<(u64, u64)>, AllocError> {
    let mut found = Vec::new(alloc);
    for place in places {
        found.push((place.empties(), place.fulls()))?;
    }
    Ok(found)
}

/// What a journal says of the record page of each of so many disks.
fn records(alloc: Global, journal: &[Entry], many: usize) -> Result<Vec<MayTell>, AllocError> {
    let mut records = Vec::new(alloc);
    for stream in 0..many.min(16) as u8 {
        records.push(MayTell::of_entries(alloc, journal, stream)?)?;
    }
    Ok(records)
}

/// Whether an entry says that a device failed.
fn is_failure(entry: &Entry) -> bool {
    match entry {
        Entry::FillFailed { .. } | Entry::LogFailed { .. } | Entry::RecordFailed { .. } => true,
        Entry::WriteEnd { how, .. } | Entry::Sync { how, .. } | Entry::Record { how, .. } => {
            matches!(how, End::Failed)
        }
        _ => false,
    }
}

/// Whether an entry says that a deferred write was posted.
fn is_post(entry: &Entry) -> bool {
    matches!(entry, Entry::Posted { .. })
}

/// The disks of these plans.
fn disks<'a>(
    alloc: Global,
    plans: &[DiskPlan],
    stage: &'a Stage,
) -> Result<Vec<CaseDisk<'a>>, AllocError> {
    let mut disks = Vec::new(alloc);
    for (number, plan) in plans.iter().enumerate() {
        let fails = DiskFails {
            reads: Vec::new(alloc),
            writes: Vec::new(alloc),
            syncs: Vec::new(alloc),
        };
        disks.push(CaseDisk {
            calls: Calls::new(Device::Disk(number), stage),
            inner: MemDisk::with_pages(alloc, plan.fill, pages(alloc, plan)?, fails),
            tells: plan.tells,
        })?;
    }
    Ok(disks)
}

/// The opening pages of a plan, whole.
fn pages(alloc: Global, plan: &DiskPlan) -> Result<Vec<(u64, [u8; 4096])>, AllocError> {
    let mut pages = Vec::new(alloc);
    for (page, bytes) in plan.pages.iter() {
        pages.push((*page, whole_page(plan.fill, bytes)))?;
    }
    Ok(pages)
}

/// A page that begins with these bytes, and is filled up with one.
pub fn whole_page(fill: u8, bytes: &[u8]) -> [u8; 4096] {
    let mut page = [fill; 4096];
    let n = bytes.len().min(4096);
    page[..n].copy_from_slice(&bytes[..n]);
    page
}

/// The logs of these plans.
fn logs<'a>(
    alloc: Global,
    plans: &[LogPlan],
    stage: &'a Stage,
) -> Result<Vec<CaseLog<'a>>, AllocError> {
    let mut logs = Vec::new(alloc);
    for (number, plan) in plans.iter().enumerate() {
        let fails = LogFails {
            appends: Vec::new(alloc),
            flushes: Vec::new(alloc),
            reads: Vec::new(alloc),
        };
        logs.push(CaseLog {
            calls: Calls::new(Device::Log(number), stage),
            inner: MemLog::with_entries(alloc, entries(alloc, plan)?, fails),
        })?;
    }
    Ok(logs)
}

/// The opening entries of a plan.
fn entries(alloc: Global, plan: &LogPlan) -> Result<Vec<(u64, Vec<u8>)>, AllocError> {
    let mut entries = Vec::new(alloc);
    for (lsn, bytes) in plan.entries.iter() {
        entries.push((*lsn, bytes.clone()?))?;
    }
    Ok(entries)
}

/// So many routines, numbered from 1, none of which was posted.
fn routines(alloc: Global, many: u64) -> Result<Vec<Routine>, AllocError>
    ensures { IfOk result (λ routines. All (λ routine. routine.posted ≡ false) routines.items) }
{
    let mut routines = Vec::new(alloc);
    for made in 0..many {
        routines.push(Routine {
            number: made.saturating_add(1),
            posted: false,
        })?;
    }
    Ok(routines)
}
