//! A case: what is handed in to a run of the program, and what has to come of it.

use crate::moments::Work;
use crate::stage::Event;
use crate::trouble::{Device, Kind, Trouble, Troubles};
use crate::words::Words;
use anyhow::Result;
use std::alloc::Global;

/// A case. Disks, logs and post routines are those of each run.
#[derive(Drop)]
pub struct Case {
    pub title: String,
    pub words: Vec<String>,
    pub script: Script,
    pub disks: Vec<DiskPlan>,
    pub logs: Vec<LogPlan>,
    pub routines: u64,
    /// How many bytes the source gives in a call, above 0, and the sink takes.
    pub gives: usize,
    pub takes: usize,
    /// After how many calls the sink takes nothing more.
    pub stalls_after: u64,
    pub troubles: Vec<Trouble>,
    pub orders: Vec<(Event, Event)>,
    pub works: Vec<Work>,
    /// How many runs are made at most, until one leaves what is wanted.
    pub tries: u64,
    pub sweep: Option<Sweep>,
    /// What has to hold in each run.
    pub wants: Vec<Want>,
    /// What has to hold, besides, in a run of a sweep that has these troubles.
    pub at: Vec<(Troubles, Vec<Want>)>,
}

impl Case {
    /// A case that says nothing yet: `run s` with no script over a disk of 5A and 16 routines.
    pub fn new(alloc: Global, title: &str) -> Result<Case> {
        let title = String::from_str(alloc, title)?;
        let words = Words::of("run s").rest(alloc)?;
        let disks = disks(alloc, 1)?;
        Ok(Case {
            title,
            words,
            script: Script::Lines(String::new(alloc)),
            disks,
            logs: Vec::new(alloc),
            routines: 16,
            gives: 4096,
            takes: 4096,
            stalls_after: u64::MAX,
            troubles: Vec::new(alloc),
            orders: Vec::new(alloc),
            works: Vec::new(alloc),
            tries: 1,
            sweep: None,
            wants: Vec::new(alloc),
            at: Vec::new(alloc),
        })
    }

    /// Adds what has to come of each run, or of the run that the last line of one names.
    pub fn add(&mut self, want: Want) -> Result<()> {
        match self.at.last_mut() {
            Some((_, wants)) => wants.push(want)?,
            None => self.wants.push(want)?,
        }
        Ok(())
    }
}

/// A script: its text, or the file that has it.
#[derive(Drop)]
pub enum Script {
    Lines(String),
    File(String),
}

/// A disk as it is handed in.
#[derive(Drop)]
pub struct DiskPlan {
    pub fill: u8,
    pub tells: bool,
    pub pages: Vec<(u64, Vec<u8>)>,
}

/// So many disks of 5A.
pub fn disks(alloc: Global, many: u64) -> Result<Vec<DiskPlan>> {
    let mut disks = Vec::new(alloc);
    for _ in 0..many {
        disks.push(DiskPlan {
            fill: 0x5A,
            tells: true,
            pages: Vec::new(alloc),
        })?;
    }
    Ok(disks)
}

/// A log as it is handed in.
#[derive(Drop)]
pub struct LogPlan {
    pub entries: Vec<(u64, Vec<u8>)>,
}

/// The runs of a case that is no single one.
#[derive(Clone, Copy, PartialEq, Eq)]
pub enum Sweep {
    /// Each call on each disk and each log fails once.
    Fails,
    /// Each of them but a log's flush finds no memory once.
    NoMemory,
    /// The disks and logs stop together after each number of calls, from none to all.
    StopsTogether,
    /// Each of them stops after each number of its calls, likewise.
    StopsAlone,
    /// The first disk stops after each number of its calls, and the first log after each of its own.
    StopsBoth,
    /// Each two of their calls fail.
    Pairs,
}

/// A number that a run leaves.
#[derive(Clone, Copy)]
pub enum Count {
    /// The exit status.
    Status,
    /// Lines of the text.
    Lines,
    Replies,
    Entries,
    Ticks,
    Aheads,
    /// The places at the queue of read-ahead.
    Places,
    /// How often a pass found the queue empty, and full.
    Empties(u64),
    Fulls(u64),
    /// The same of the queue of copied reads.
    AsyncPlaces,
    AsyncEmpties(u64),
    AsyncFulls(u64),
    /// Calls that failed, on everything that was handed in.
    Faults,
    /// Calls of the callers that passed the gate and told it their end.
    Passed,
    /// Calls on a device.
    Made(Device, Kind),
}

impl Count {
    /// The word that begins its line in a case.
    pub fn word(self) -> &'static str {
        match self {
            Count::Status => "status",
            Count::Lines => "lines",
            Count::Replies => "replies",
            Count::Entries => "entries",
            Count::Ticks => "ticks",
            Count::Aheads => "aheads",
            Count::Places => "places",
            Count::Empties(_) => "empties",
            Count::Fulls(_) => "fulls",
            Count::AsyncPlaces => "async_places",
            Count::AsyncEmpties(_) => "async_empties",
            Count::AsyncFulls(_) => "async_fulls",
            Count::Faults => "faults",
            Count::Passed => "passed",
            Count::Made(..) => "made",
        }
    }
}

/// A part of a text.
#[derive(Clone, Copy)]
pub enum Part {
    Whole,
    Front,
    End,
    Inside,
    Nowhere,
}

/// What has to come of a run.
#[derive(Drop)]
pub enum Want {
    Text(Part, String),
    /// The lines of the text that answer a line of the script. Where a run has lines of its own with the same numbers, these.
    Answers(String),
    /// Each line of the text from one to another has one of these forms, a line each.
    Each {
        from: usize,
        to: usize,
        forms: String,
    },
    Count(Count, u64),
    /// The numbers of the routines that were posted.
    Posted(Vec<u64>),
    /// The page of a disk begins with these bytes, and has the disk's fill byte behind them.
    Holds {
        disk: usize,
        page: u64,
        bytes: Vec<u8>,
    },
    /// The contents of a page that a crash may leave, oldest first.
    MayHold {
        disk: usize,
        page: u64,
        contents: Vec<Vec<u8>>,
    },
    /// The entries of a log.
    Logged {
        log: usize,
        entries: Vec<(u64, Vec<u8>)>,
    },
    /// The LSN up to which a log is on its medium.
    Durable {
        log: usize,
        lsn: u64,
    },
}
