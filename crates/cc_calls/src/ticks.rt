//! A tick of the lazy writer.

ghost use Rattle.std.specs.Prelude.{◌≡◌, ◌≤◌, IfOk};
ghost use Rattle.std.specs.List.{list_all};
ghost use Rattle.cc_model.specs.Good.{IsGood};
ghost use Rattle.cc_model.specs.Setup.{Setup};
ghost use Rattle.cc_writes.specs.Hands.{Went};
ghost use Rattle.cc_writes.specs.Ways.{IsFull};
ghost use Rattle.cc_calls.specs.Answers.{IsFree};
ghost use Rattle.cc_calls.specs.Pages.{StaysGood, WentOn};
ghost use Rattle.cc_calls.specs.Ticks.{AddsUp, AllLeft, ArePicked, IsFullAmong, IsPickedTwice, ScanIn, ScanLeft, TickEnds, counted_page, has_disk, pages_counted};

use crate::page_writes::{PageWriteAnswer, write_picked};
use cc_entry::{CcError, Entry, NoMemory, PageId, Pages, Tick};
use cc_journal::Journal;
use cc_turns::Turns;
use std::alloc::Global;

/// One tick of the lazy writer, which in Windows a system thread makes: a scan picks pages, and then each of them is
/// written, in the order in which they were picked, where it is dirty still and no pin owes it a stamp. A page whose disk or
/// log fails counts as failed, and the tick goes on. It leaves no call's entry.
///
/// `JournalFull` where there is no room for the entry of the scan, or later for those of a transfer: the scan and what was
/// written stand. `NoMemory` likewise.
pub fn tick<T: Turns>(alloc: Global, turns: &mut T) -> Result<Tick, CcError>
    requires can { IsFree (T.standing turns.old) }
    ensures ends { TickEnds (T.standing turns.old) (T.standing turns.new) result }
    ensures adds_up { IfOk result AddsUp }
{
    match scan(alloc, turns) {
        Ok(picked) => match write_all(turns, picked.as_slice()) {
            Ok(counts) => Ok(Tick {
                picked,
                written: counts.written,
                skipped: counts.skipped,
                failed: counts.failed,
            }),
            Err(error) => Err(error),
        },
        Err(error) => Err(error),
    }
}

/// How many pages were written, skipped, and not written because the disk or the log failed.
#[derive(Clone, Copy)]
pub(crate) struct TickCounts {
    written: u32,
    skipped: u32,
    failed: u32,
}

impl TickCounts {
    // Counts one page more, by what is told of it.
    fn count(&mut self, told: PageWriteAnswer)
        requires few { pages_counted self.old ≤ 16384 }
        ensures { self.new ≡ counted_page told self.old }
    {
        match told {
            PageWriteAnswer::Written => self.written += 1,
            PageWriteAnswer::Skipped => self.skipped += 1,
            PageWriteAnswer::Failed => self.failed += 1,
        }
    }
}

// Places the scan of a tick, and answers the pages that it picked.
fn scan<T: Turns>(alloc: Global, turns: &mut T) -> Result<Pages, CcError>
    requires can { IsFree (T.standing turns.old) }
    ensures went { Went (T.standing turns.old) (T.standing turns.new) }
    ensures good { IsGood (T.standing turns.old).setup (T.standing turns.new).seen }
    ensures left { ScanLeft (T.standing turns.old) result (T.standing turns.new).seen }
    ensures full { IsFull 1 (T.standing turns.new) result }
{
    let streams = turns.streams();
    let mut journal = turns.take_journal();
    let pass = turns.me();
    let picked = scan_in(alloc, &mut journal, pass, streams);
    turns.give_journal(journal);
    picked
}

// The same in a journal in hand. The room is asked first.
fn scan_in<Q>(
    alloc: Global,
    journal: &mut Journal<Q>,
    pass: u32,
    streams: u8,
) -> Result<Pages, CcError>
    requires good { (u : Setup) × IsGood u journal.old.entries × (u.threshold ≡ journal.old.threshold) }
    ensures { ScanIn pass streams result journal.old journal.new }
{
    match journal.reserve(1) {
        Ok(()) => match picked_twice(alloc, journal, streams) {
            Ok((picked, told)) => {
                journal.push(Entry::Scan { pass, picked });
                Ok(told)
            }
            Err(NoMemory) => {
                journal.release(1);
                Err(CcError::NoMemory)
            }
        },
        Err(error) => Err(error),
    }
}

// The pages that a scan picks, twice: for its entry, and for the tick. A page of a stream without a disk is none that a run
// makes dirty; it could not be written, and `NoMemory` is answered.
fn picked_twice<Q>(
    alloc: Global,
    journal: &Journal<Q>,
    streams: u8,
) -> Result<(Pages, Pages), NoMemory>
    ensures { IfOk result (IsPickedTwice streams journal.now) }
{
    let picked = journal.pick()?;
    if have_disks(picked.as_slice(), streams) {
        let told = copy_of(alloc, picked.as_slice())?;
        Ok((picked, Pages::from_vec(told)))
    } else {
        Err(NoMemory)
    }
}

// Whether each page is of a stream that has a disk, where so many streams have one.
fn have_disks(pages: &[PageId], streams: u8) -> bool
    ensures { result ≡ list_all (has_disk streams) pages.now }
{
    pages.iter().all(|page| page.stream().number() < streams)
}

// The same pages once more.
fn copy_of(alloc: Global, pages: &[PageId]) -> Result<Vec<PageId>, NoMemory>
    ensures { IfOk result (λ copy. copy.items ≡ pages.now) }
{
    let copy = pages.iter().copied().collect(alloc)?;
    Ok(copy)
}

// Writes pages, one after the other, and counts what became of them.
fn write_all<T: Turns>(turns: &mut T, pages: &[PageId]) -> Result<TickCounts, CcError>
    requires can { IsFree (T.standing turns.old) }
    requires picked { ArePicked (T.standing turns.old).streams pages.now }
    ensures left { AllLeft (T.standing turns.old).number pages.now result (T.standing turns.old).seen (T.standing turns.new).seen }
    ensures full { IsFullAmong pages.now (T.standing turns.new) result }
    ensures goes_on { WentOn (T.standing turns.old) (T.standing turns.new) }
    ensures good { StaysGood (T.standing turns.old) (T.standing turns.new) }
{
    let mut counts = TickCounts {
        written: 0,
        skipped: 0,
        failed: 0,
    };
    for page in pages {
        match write_picked(turns, *page) {
            Ok(told) => counts.count(told),
            Err(error) => return Err(error),
        }
    }
    Ok(counts)
}
