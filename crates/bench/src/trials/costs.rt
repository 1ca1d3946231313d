//! The trial of a restart's cost: how many calls on devices it makes over a log of so many updates.

use crate::trials::devices::{Calls, Wrong};
use crate::trials::draws::Draws;
use crate::trials::image::{Image, LogEntry};
use crate::trials::runs::restart_image;
use crate::trials::stream::{PAGE, Stream, opening_image};
use anyhow::{Result, bail};
use byteorder::{ByteOrder, LittleEndian};
use std::alloc::Global;
use std::fmt;

/// The calls of a restart.
#[derive(Drop)]
pub struct Costs {
    /// The entries of its log, and the pages that they change.
    entries: u64,
    pages: u64,
    entry_reads: u64,
    reads: u64,
    writes: u64,
    syncs: u64,
}

impl Costs {
    /// Whether each entry was read at most twice, as the end of the log was, and each page was written once, with the record
    /// of each of the two streams.
    pub fn are_kept(&self) -> bool {
        self.entry_reads <= self.entries.saturating_add(1).saturating_mul(2)
            && self.writes == self.pages.saturating_add(2)
    }
}

impl fmt::Display for Costs {
    fn fmt<W: fmt::Write>(&self, f: &mut fmt::Formatter<W>) -> fmt::Result {
        let Costs {
            entries,
            pages,
            entry_reads,
            reads,
            writes,
            syncs,
        } = self;
        write!(
            f,
            "{entries} entries of {pages} pages: {entry_reads} reads of entries, "
        )?;
        write!(
            f,
            "{reads} reads, {writes} writes and {syncs} syncs of disks"
        )
    }
}

/// Restarts two streams from a log of so many updates of their pages.
pub fn count_costs(alloc: Global, entries: u64) -> Result<Costs> {
    let mut draws = Draws::new(0);
    let mut streams = Vec::new(alloc);
    streams.push(Stream::wide(alloc, 0, "a", &mut draws)?)?;
    streams.push(Stream::wide(alloc, 1, "b", &mut draws)?)?;
    let opening = opening_image(alloc, &streams)?;
    let image = Image {
        disks: opening.disks,
        entries: log_of(alloc, &streams, entries)?,
    };
    let calls = Calls::stopping_after(u64::MAX);
    let (answer, left) = restart_image(alloc, &streams, &image, &calls, Wrong::Nothing)?;
    if answer.is_err() {
        bail!("a restart was refused")
    }
    let mut costs = Costs {
        entries,
        pages: streams
            .iter()
            .map(|stream| stream.pages.len() as u64)
            .fold(0, u64::saturating_add),
        entry_reads: left.log.reads(),
        reads: 0,
        writes: 0,
        syncs: 0,
    };
    for disk in left.disks.iter() {
        let (reads, writes, syncs) = disk.counts();
        costs.reads = costs.reads.saturating_add(reads);
        costs.writes = costs.writes.saturating_add(writes);
        costs.syncs = costs.syncs.saturating_add(syncs);
    }
    Ok(costs)
}

/// A log of so many updates, of one page after the other of each stream in turn.
fn log_of(alloc: Global, streams: &[Stream], entries: u64) -> Result<Vec<LogEntry>> {
    let mut log = Vec::new(alloc);
    for number in 0..entries {
        let stream = number % 2;
        if let Some(stream) = streams.get(stream as usize) {
            let many = stream.pages.len().max(1);
            let page = stream.pages.get((number / 2) as usize % many).copied();
            let at = page
                .unwrap_or(0)
                .saturating_mul(PAGE)
                .saturating_add(number % 4000);
            log.push((
                number.saturating_add(1),
                record_of(alloc, stream.number, at)?,
            ))?;
        }
    }
    Ok(log)
}

/// The record of an update of four bytes.
fn record_of(alloc: Global, stream: u8, at: u64) -> Result<Vec<u8>> {
    let mut record = [0xEE; 17];
    record[0] = stream;
    LittleEndian::write_u64(&mut record[1..9], at);
    LittleEndian::write_u32(&mut record[9..13], 4);
    Ok(record.as_slice().to_vec(alloc)?)
}
