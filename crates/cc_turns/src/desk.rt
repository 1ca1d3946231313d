//! The turns of one thread, over which nobody else goes on.

ghost use Rattle.std.specs.Prelude.{◌≡◌, ◌<◌, ◌^◌, ℕ, List, length, reverse, map, IfOk, IfErr, Some, true, false};
ghost use Rattle.cc_entry.specs.declared.error.CcError.TheVariants as error;
ghost use Rattle.cc_journal.specs.Capacity.{IsWithinCapacity};
ghost use Rattle.cc_model.specs.Good.{IsGood};
ghost use Rattle.cc_model.specs.Throttle.{queue};
ghost use Rattle.cc_turns.specs.Standing.{Standing, nothing};
ghost use Rattle.cc_turns.specs.Log.{LogStands};
ghost use Rattle.cc_turns.specs.Journal.{JournalStands};
ghost use Rattle.cc_turns.specs.Takes.{AddsEvent, HasActed, without_log, without_journal};
ghost use Rattle.cc_turns.specs.Desk.{AreDeskRowsFor, DeskDisksEnded, DeskLogsEnded, DeskIsFresh, made_from, standing_of, tells_of};
ghost use Rattle.cc_turns.specs.Crash.{IsCrashSafe};

use crate::held::{AtTake, HeldDisk};
use crate::places;
use crate::turns::Turns;
use cc_book::Book;
use cc_entry::{CcError, NoMemory, StreamId};
use cc_journal::{Journal, Left, Parts};
use cc_log::LogTurn;
use cc_traits::{LogFile, PageDisk, PostRoutine, Setup};
use std::alloc::Global;
use std::marker::Model;
use std::snapshot::Snapshot;

/// The turns that are out.
#[derive(Clone, Copy)]
pub(crate) struct TurnsOut {
    pub(crate) device: Option<StreamId>,
    pub(crate) book: Option<StreamId>,
    pub(crate) log: Option<u8>,
    pub(crate) journal: bool,
}

/// The disks, books, logs and journal of a run on one thread, which acts as one pass at a time.
pub struct Desk<D: PageDisk, L: LogFile, Q: PostRoutine> {
    pub(crate) disks: Vec<Option<D>>,
    pub(crate) books: Vec<Option<Book>>,
    pub(crate) logs: Vec<Option<LogTurn<L>>>,
    pub(crate) journal: Option<Journal<Q>>,
    /// Empty, with room for the disks as they are given back.
    pub(crate) disk_room: Vec<D>,
    /// The same for the logs.
    pub(crate) log_room: Vec<L>,
    pub(crate) pass: u32,
    pub(crate) held: TurnsOut,
    pub(crate) device_turns: u64,
    /// What the run was made from.
    pub(crate) begun: Snapshot<Setup<D, L>>,
    /// The journal as it last was at home.
    pub(crate) last: Snapshot<Journal<Q>>,
    /// The journal as it was as the desk began to act as its pass.
    pub(crate) since: Snapshot<Snapshot<Journal<Q>>>,
}

// rows with room for the disks and logs that a run is made from, the books of its streams, and its journal
struct Rows<D, L, Q> {
    journal: Journal<Q>,
    books: Vec<Option<Book>>,
    logs: Vec<Option<LogTurn<L>>>,
    disks: Vec<Option<D>>,
}

impl<D: PageDisk, L: LogFile, Q: PostRoutine> Model for Desk<D, L, Q> {
    ghost use Rattle.std.specs.Prelude.{length, vec_capacity};
    ghost use Rattle.cc_turns.specs.Places.{IsRoomFor};
    ghost use Rattle.cc_turns.specs.Desk.{DeskState, DeskStands, desk_state, tells_of};

    ghost Value = { DeskState D L Q };

    ghost view = { λ d. desk_state d.begun.value d.disks.items d.logs.items d.last.value d.since.value.value.entries
        d.pass d.held d.device_turns };

    ghost invariant = { λ d.
        DeskStands (tells_of D.told D.faults L.told L.faults Q.posted)
        (desk_state d.begun.value d.disks.items d.logs.items d.last.value d.since.value.value.entries
        d.pass d.held d.device_turns)
        d.disks.items d.books.items d.logs.items d.journal
        × IsRoomFor (length d.begun.value.disks.items) d.disk_room.items (vec_capacity d.disk_room)
        × IsRoomFor (length d.begun.value.logs.items) d.log_room.items (vec_capacity d.log_room) };
}

impl<D: PageDisk, L: LogFile, Q: PostRoutine> Rows<D, L, Q> {
    fn new(alloc: Global, setup: &Setup<D, L>) -> Result<Rows<D, L, Q>, NoMemory>
        ensures { IfOk result (λ rows. AreDeskRowsFor (made_from setup.now) rows) }
    {
        let streams = setup.disks.len();
        let logs = setup.logs.len();
        Ok(Rows {
            journal: Journal::new(alloc, setup.journal.capacity(), setup.threshold, logs as u8)?,
            books: places::of_books(alloc, streams as u8)?,
            logs: Vec::with_capacity(alloc, logs)?,
            disks: Vec::with_capacity(alloc, streams)?,
        })
    }
}

impl<D: PageDisk, L: LogFile, Q: PostRoutine> Desk<D, L, Q> {
    /// The desk of a run of which nothing happened yet, acting as pass 0. Where memory is wanting the setup comes
    /// back.
    pub fn new(alloc: Global, setup: Setup<D, L>) -> Result<Desk<D, L, Q>, (Setup<D, L>, CcError)>
        ensures fresh { IfOk result (λ desk. DeskIsFresh (made_from setup) desk) }
        ensures err { IfErr result (λ back. (back.0 ≡ setup) × (back.1 ≡ error.NoMemory)) }
    {
        match Rows::new(alloc, &setup) {
            Ok(rows) => Ok(Desk::over(setup, rows)),
            Err(NoMemory) => Err((setup, CcError::NoMemory)),
        }
    }

    // The desk of a setup, over rows with room for it. It takes no memory.
    fn over(setup: Setup<D, L>, rows: Rows<D, L, Q>) -> Desk<D, L, Q>
        requires { AreDeskRowsFor (made_from setup) rows }
        ensures { DeskIsFresh (made_from setup) result }
    {
        let begun = Snapshot::of(&setup);
        let Setup {
            mut disks,
            mut logs,
            ..
        } = setup;
        let Rows {
            journal,
            books,
            logs: log_places,
            disks: disk_places,
        } = rows;
        let last = Snapshot::of(&journal);
        let since = Snapshot::of(&last);
        Desk {
            books,
            disks: places::out_of(&mut disks, disk_places),
            logs: places::of_logs(&mut logs, log_places),
            journal: Some(journal),
            disk_room: disks,
            log_room: logs,
            pass: 0,
            held: TurnsOut {
                device: None,
                book: None,
                log: None,
                journal: false,
            },
            device_turns: 0,
            begun,
            last,
            since,
        }
    }

    /// Acts as this pass from now on.
    pub fn act_as(&mut self, pass: u32)
        ensures { self.new ≡ record self.old { pass = pass; since = self.old.last.entries } }
    {
        self.pass = pass;
        self.since = Snapshot::of(&self.last);
    }

    /// What was placed since the desk acts as its pass is that pass's own.
    pub fn own(&self)
        ensures { HasActed self.now.pass self.now.since self.now.last.entries }
    {
        let _pass = self.pass;
    }

    /// What the journal has is good.
    pub fn good(&self)
        ensures { IsGood (standing_of D.told D.faults L.told L.faults self.now).setup self.now.last.entries }
    {
        let _pass = self.pass;
    }

    /// While no turn is held, a crash leaves of each page only what the journal allows, and of each log what was stamped on its
    /// streams' pages as their transfers began.
    pub fn crash_safe(&self)
        requires { self.now.held ≡ nothing }
        ensures { IsCrashSafe (tells_of D.told D.faults L.told L.faults Q.posted) self.now }
    {
        let _pass = self.pass;
    }

    /// The journal, where its turn is not held.
    pub fn journal(&self) -> &Journal<Q>
        requires { self.now.held.journal ≡ false }
        ensures { result.now ≡ self.now.last }
    {
        self.journal.as_ref().unwrap()
    }

    /// Gives all back, where the journal is recorded. It takes no memory.
    pub fn end(self) -> Parts<D, L, Q>
        requires free { self.held ≡ nothing }
        requires recorded { self.begun.capacity < 2 ^ 32 }
        ensures journal { reverse result.journal.items ≡ self.last.entries }
        ensures good { IsGood (standing_of D.told D.faults L.told L.faults self).setup self.last.entries }
        ensures within { IsWithinCapacity self.begun.capacity self.last.entries }
        ensures crash { IsCrashSafe (tells_of D.told D.faults L.told L.faults Q.posted) self }
        ensures same { (result.disks.items ≡ self.disks) × (result.logs.items ≡ self.logs) }
        ensures disks { DeskDisksEnded D.told D.faults self result.disks.items }
        ensures logs { DeskLogsEnded L.told L.faults self result.logs.items }
        ensures queued { map (λ waiting. waiting.0) result.queued.items
            ≡ map (λ d. d.id) (queue self.last.entries) }
    {
        let (disks, logs, journal) = self.into_all();
        let (journal, queued) = journal.end();
        Parts {
            disks,
            logs,
            journal,
            queued,
        }
    }

    /// Gives back all but the entries, whether the journal is recorded or not. It takes no memory.
    pub fn leave(self) -> Left<D, L, Q>
        requires { self.held ≡ nothing }
        ensures good { IsGood (standing_of D.told D.faults L.told L.faults self).setup self.last.entries }
        ensures within { IsWithinCapacity self.begun.capacity self.last.entries }
        ensures crash { IsCrashSafe (tells_of D.told D.faults L.told L.faults Q.posted) self }
        ensures same { (result.disks.items ≡ self.disks) × (result.logs.items ≡ self.logs) }
        ensures disks { DeskDisksEnded D.told D.faults self result.disks.items }
        ensures logs { DeskLogsEnded L.told L.faults self result.logs.items }
        ensures queued { map (λ waiting. waiting.0) result.queued.items
            ≡ map (λ d. d.id) (queue self.last.entries) }
    {
        let (disks, logs, journal) = self.into_all();
        Left {
            disks,
            logs,
            queued: journal.leave(),
        }
    }

    // The disks, the logs and the journal. It takes no memory.
    fn into_all(self) -> (Vec<D>, Vec<L>, Journal<Q>)
        requires { self.held ≡ nothing }
        ensures journal { result.2 ≡ self.last }
        ensures capacity { self.last.capacity ≡ self.begun.capacity }
        ensures good { IsGood (standing_of D.told D.faults L.told L.faults self).setup self.last.entries }
        ensures within { IsWithinCapacity self.begun.capacity self.last.entries }
        ensures crash { IsCrashSafe (tells_of D.told D.faults L.told L.faults Q.posted) self }
        ensures same { (result.0.items ≡ self.disks) × (result.1.items ≡ self.logs) }
        ensures disks { DeskDisksEnded D.told D.faults self result.0.items }
        ensures logs { DeskLogsEnded L.told L.faults self result.1.items }
    {
        let Desk {
            disks,
            logs,
            journal,
            disk_room,
            log_room,
            books: _,
            pass: _,
            held: _,
            device_turns: _,
            begun: _,
            last: _,
            since: _,
        } = self;
        (
            places::back_to(disks, disk_room),
            places::back_to_logs(logs, log_room),
            journal.unwrap(),
        )
    }
}

impl<D: PageDisk, L: LogFile, Q: PostRoutine> AtTake for Desk<D, L, Q> {
    ghost knew = { standing_of D.told D.faults L.told L.faults };
}

impl<D: PageDisk, L: LogFile, Q: PostRoutine> Turns for Desk<D, L, Q> {
    type Disk = HeldDisk<D, Desk<D, L, Q>>;

    type Log = L;

    type Post = Q;

    ghost standing = { standing_of D.told D.faults L.told L.faults };

    fn me(&self) -> u32 {
        self.pass
    }

    fn streams(&self) -> u8 {
        self.disks.len() as u8
    }

    fn logs(&self) -> u8 {
        self.logs.len() as u8
    }

    fn note_others(&self) {}

    fn take_device(&mut self, stream: StreamId) -> HeldDisk<D, Desk<D, L, Q>> {
        let at_take = Snapshot::of(self);
        let disk = self.disks[usize::from(stream.number())].take().unwrap();
        self.held.device = Some(stream);
        self.device_turns = self.device_turns.saturating_add(1);
        HeldDisk::new(disk, stream, at_take)
    }

    fn give_device(&mut self, stream: StreamId, disk: HeldDisk<D, Desk<D, L, Q>>) {
        match self.disks[usize::from(stream.number())].replace(disk.into_disk()) {
            None => self.held.device = None,
            Some(_) => unreachable!(),
        }
    }

    fn take_book(&mut self, stream: StreamId) -> Book {
        let book = self.books[usize::from(stream.number())].take().unwrap();
        self.held.book = Some(stream);
        book
    }

    fn give_book(&mut self, stream: StreamId, book: Book) {
        self.books[usize::from(stream.number())] = Some(book);
        self.held.book = None;
    }

    fn take_log(&mut self, handle: u8) -> LogTurn<L> {
        let log = self.logs[usize::from(handle)].take().unwrap();
        self.held.log = Some(handle);
        log
    }

    fn give_log(&mut self, handle: u8, log: LogTurn<L>)
        requires held { self.old.held.log ≡ Some handle }
        requires no_journal { self.old.held.journal ≡ false }
        requires handle { log.handle ≡ handle }
        requires stands { LogStands L.told L.faults
            ((standing_of D.told D.faults L.told L.faults self.old).logs handle) self.old.last.entries log }
        ensures { standing_of D.told D.faults L.told L.faults self.new
            ≡ without_log (standing_of D.told D.faults L.told L.faults self.old) }
    {
        self.logs[usize::from(handle)] = Some(log);
        self.held.log = None;
    }

    fn take_journal(&mut self) -> Journal<Q> {
        let journal = self.journal.take().unwrap();
        self.held.journal = true;
        journal
    }

    fn give_journal(&mut self, journal: Journal<Q>)
        requires held { self.old.held.journal ≡ true }
        requires adds { AddsEvent (standing_of D.told D.faults L.told L.faults self.old) journal.entries }
        requires stands { JournalStands Q.posted
            (without_journal journal (standing_of D.told D.faults L.told L.faults self.old)) journal }
        ensures { standing_of D.told D.faults L.told L.faults self.new
            ≡ without_journal journal (standing_of D.told D.faults L.told L.faults self.old) }
    {
        journal.note_capacity();
        self.last = Snapshot::of(&journal);
        self.journal = Some(journal);
        self.held.journal = false;
    }
}
