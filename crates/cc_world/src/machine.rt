//! The machine: a row for each stream, the logs, and the journal. What it needs to know of the entries that went by is told it
//! with each event.

ghost use Rattle.std.specs.Prelude.{◌≡◌, ◌<◌, ◌≤◌, false, [], IfOk, IfErr, length};
ghost use Rattle.cc_entry.specs.declared.error.CcError.TheVariants as error;
ghost use Rattle.cc_journal.specs.Capacity.{IsWithinCapacity};
ghost use Rattle.cc_model.specs.Acts.{file_of};
ghost use Rattle.cc_model.specs.Good.{IsGood};
ghost use Rattle.cc_model.specs.History.{history};
ghost use Rattle.cc_model.specs.Residency.{block_is_mapped};
ghost use Rattle.cc_turns.specs.Desk.{made_from, tells_of};
ghost use Rattle.cc_effects.specs.Events.{IsKnown, IsUnposted, IsWanting, NamesOf};
ghost use Rattle.cc_turns.specs.Crash.{DisksAreCrashSafe, LogsAreDurable};
ghost use Rattle.cc_world.specs.Crash.{disks_in, files_in};
ghost use Rattle.cc_world.specs.Notes.{Grew, NotesStand};
ghost use Rattle.cc_world.specs.World.{AreWorldRowsFor, WorldDisksEnded, WorldIsFresh, IsNoLogReply, JournalRests, WorldLogsEnded, WorldEventLeft, WorldStands};
ghost use Rattle.cc_effects.specs.declared.events.Event.TheVariants as event;
ghost use Rattle.cc_turns.specs.Slots.{setup_in};

use crate::filing::{Filing, filing_of};
use crate::journal::{defer, do_unfiled, fail_unfiled, post, scan};
use crate::logs::{append, flush};
use crate::notes::Notes;
use crate::places::{books_of, disks_of, files_of, logs_of, rows_of};
use crate::rows::StreamRow;
use cc_book::Book;
use cc_effects::{Event, StepReply};
use cc_entry::{Bytes, Call, CcError, FileId, Lsn, NoMemory, PageId, StreamId};
use cc_journal::Journal;
use cc_log::LogTurn;
use cc_traits::{LogFile, PageDisk, PostRoutine, Setup};
use std::alloc::Global;
use std::marker::Model;
use std::snapshot::Snapshot;

/// The disks and the logs of a setup with the journal, to which one event happens after the other.
pub(crate) struct Machine<D: PageDisk, L: LogFile, Q: PostRoutine> {
    alloc: Global,
    rows: Vec<StreamRow<D>>,
    logs: Vec<LogTurn<L>>,
    journal: Journal<Q>,
    /// Empty, with room for the disks as they are given back.
    disk_room: Vec<D>,
    /// The same for the logs.
    log_room: Vec<L>,
    /// What the run was made from.
    begun: Snapshot<Setup<D, L>>,
}

// rows with room for all that a run is made from, the books of its streams, and its journal
struct Rows<D, L, Q> {
    journal: Journal<Q>,
    books: Vec<Book>,
    logs: Vec<LogTurn<L>>,
    rows: Vec<StreamRow<D>>,
}

impl<D: PageDisk, L: LogFile, Q: PostRoutine> Model for Machine<D, L, Q> {
    ghost use Rattle.std.specs.Prelude.{length, vec_capacity};
    ghost use Rattle.cc_turns.specs.Desk.{tells_of};
    ghost use Rattle.cc_turns.specs.Places.{IsRoomFor};
    ghost use Rattle.cc_world.specs.World.{WorldState, WorldStands, world_of};

    ghost Value = { WorldState D L Q };

    ghost view = { λ w. world_of w.begun.value w.rows.items w.logs.items w.journal };

    ghost invariant = { λ w.
        WorldStands (tells_of D.told D.faults L.told L.faults Q.posted)
        (world_of w.begun.value w.rows.items w.logs.items w.journal)
        × IsRoomFor (length w.begun.value.disks.items) w.disk_room.items (vec_capacity w.disk_room)
        × IsRoomFor (length w.begun.value.logs.items) w.log_room.items (vec_capacity w.log_room) };
}

impl<D: PageDisk, L: LogFile, Q: PostRoutine> Rows<D, L, Q> {
    fn new(alloc: Global, setup: &Setup<D, L>) -> Result<Rows<D, L, Q>, NoMemory>
        ensures { IfOk result (λ rows. AreWorldRowsFor (made_from setup.now) rows) }
    {
        let streams = setup.disks.len();
        let logs = setup.logs.len();
        Ok(Rows {
            journal: Journal::new(alloc, setup.journal.capacity(), setup.threshold, logs as u8)?,
            books: books_of(alloc, streams as u8)?,
            logs: Vec::with_capacity(alloc, logs)?,
            rows: Vec::with_capacity(alloc, streams)?,
        })
    }
}

impl<D: PageDisk, L: LogFile, Q: PostRoutine> Machine<D, L, Q> {
    /// That of a run of which nothing happened yet. Where memory is wanting the setup comes back.
    pub(crate) fn new(
        alloc: Global,
        setup: Setup<D, L>,
    ) -> Result<Machine<D, L, Q>, (Setup<D, L>, CcError)>
        ensures fresh { IfOk result (λ machine. WorldIsFresh (made_from setup) machine) }
        ensures err { IfErr result (λ back. (back.0 ≡ setup) × (back.1 ≡ error.NoMemory)) }
    {
        match Rows::new(alloc, &setup) {
            Ok(rows) => Ok(Machine::over(alloc, setup, rows)),
            Err(NoMemory) => Err((setup, CcError::NoMemory)),
        }
    }

    // That of a setup, over rows with room for it. It takes no memory.
    fn over(alloc: Global, setup: Setup<D, L>, rows: Rows<D, L, Q>) -> Machine<D, L, Q>
        requires { AreWorldRowsFor (made_from setup) rows }
        ensures { WorldIsFresh (made_from setup) result }
    {
        let begun = Snapshot::of(&setup);
        let Setup {
            mut disks,
            mut logs,
            ..
        } = setup;
        let Rows {
            journal,
            books,
            logs: turns,
            rows,
        } = rows;
        Machine {
            alloc,
            rows: rows_of(&mut disks, books, rows),
            logs: logs_of(&mut logs, turns),
            journal,
            disk_room: disks,
            log_room: logs,
            begun,
        }
    }

    /// Lets an event happen, where the law of entries allows it now.
    pub(crate) fn step(&mut self, event: Event<Q>, notes: &Notes) -> StepReply<Q>
        requires known { IsKnown (length self.old.begun.disks) event }
        requires unposted { IsUnposted Q.posted event }
        requires notes { NotesStand self.old.journal.entries notes.now }
        ensures stepped { WorldEventLeft (tells_of D.told D.faults L.told L.faults Q.posted) event result self.old self.new }
        ensures grew { Grew self.old.journal.entries self.new.journal.entries event }
    {
        self.happen(event, notes)
    }

    /// What is replied to an event for whose following there is no memory: nothing happens.
    pub(crate) fn refuse(&self, event: Event<Q>) -> StepReply<Q>
        requires known { IsKnown (length self.now.begun.disks) event }
        requires wanting { IsWanting self.now.journal.entries event [] }
        ensures { WorldEventLeft (tells_of D.told D.faults L.told L.faults Q.posted) event result self.now self.now }
    {
        self.stands();
        match event {
            Event::Defer {
                pass: _,
                file: _,
                bytes: _,
                retrying: _,
                routine,
            } => StepReply::Kept(routine, CcError::NoMemory),
            _ => StepReply::Refused(CcError::NoMemory),
        }
    }

    /// Whether a view block of a stream is mapped.
    pub(crate) fn is_block_mapped(&self, stream: StreamId, block: u64) -> bool
        ensures { result ≡ block_is_mapped (history self.now.journal.entries stream) block }
    {
        let place = usize::from(stream.number());
        if self.rows.len() <= place {
            return false;
        }
        let row = &self.rows[place];
        row.book.is_block_mapped(block)
    }

    /// The rows, the logs and the journal stand.
    pub(crate) fn stands(&self)
        ensures { WorldStands (tells_of D.told D.faults L.told L.faults Q.posted) self.now }
    {
        let _alloc = self.alloc;
    }

    /// A crash leaves only what the journal allows, and the logs have what was stamped on each page as its transfers began.
    pub(crate) fn crash_safe(&self)
        ensures crash { DisksAreCrashSafe (tells_of D.told D.faults L.told L.faults Q.posted)
            self.now.begun.disks self.now.journal.entries (disks_in self.now) }
        ensures logged { LogsAreDurable (tells_of D.told D.faults L.told L.faults Q.posted)
            self.now.journal.entries (files_in self.now) }
    {
        let _alloc = self.alloc;
    }

    // An event happens.
    fn happen(&mut self, event: Event<Q>, notes: &Notes) -> StepReply<Q>
        requires known { IsKnown (length self.old.begun.disks) event }
        requires unposted { IsUnposted Q.posted event }
        requires notes { NotesStand self.old.journal.entries notes.now }
        ensures { WorldEventLeft (tells_of D.told D.faults L.told L.faults Q.posted) event result self.old self.new }
    {
        match event {
            Event::Fill { pass, page } => self.fill(pass, page),
            Event::Drop { page } => self.drop_page(page),
            Event::WriteBegin { pass, page } => self.begin(pass, page),
            Event::WriteEnd { page } => self.end_transfer(page),
            Event::Sync { pass, stream } => self.sync(pass, stream),
            Event::Append {
                pass,
                handle,
                bytes,
            } => self.append(pass, handle, bytes),
            Event::LogFlush { pass, handle, to } => self.flush_log(pass, handle, to),
            Event::Do { pass, call } => self.do_call(notes, pass, call),
            Event::Fail { pass, call } => self.fail_call(notes, pass, call),
            Event::Scan { pass } => {
                let reply = scan(&mut self.journal, pass);
                self.journal.note_capacity();
                reply
            }
            Event::Defer {
                pass,
                file,
                bytes,
                retrying,
                routine,
            } => self.defer(pass, file, bytes, retrying, routine),
            Event::Post { pass } => {
                let reply = post(&mut self.journal, pass);
                self.journal.note_capacity();
                reply
            }
        }
    }

    // A call of a pass ends.
    fn do_call(&mut self, notes: &Notes, pass: u32, call: Call) -> StepReply<Q>
        requires names { NamesOf (length self.old.begun.disks) (file_of call) }
        requires notes { NotesStand self.old.journal.entries notes.now }
        ensures { WorldEventLeft (tells_of D.told D.faults L.told L.faults Q.posted) (event.Do pass call) result
            self.old self.new }
    {
        match filing_of(&self.rows, &call) {
            Filing::Stream(stream) => {
                let row = &mut self.rows[usize::from(stream.number())];
                let reply = row.do_call(
                    self.alloc,
                    &self.logs,
                    &mut self.journal,
                    notes,
                    pass,
                    call,
                );
                self.journal.note_capacity();
                reply
            }
            Filing::Journal => {
                let reply = do_unfiled(self.alloc, &mut self.journal, pass, call);
                self.journal.note_capacity();
                reply
            }
            Filing::NoHold => StepReply::NotNow,
        }
    }

    // A call of a pass tells a fault.
    fn fail_call(&mut self, notes: &Notes, pass: u32, call: Call) -> StepReply<Q>
        requires names { NamesOf (length self.old.begun.disks) (file_of call) }
        requires notes { NotesStand self.old.journal.entries notes.now }
        ensures { WorldEventLeft (tells_of D.told D.faults L.told L.faults Q.posted) (event.Fail pass call) result
            self.old self.new }
    {
        match filing_of(&self.rows, &call) {
            Filing::Stream(stream) => {
                let row = &mut self.rows[usize::from(stream.number())];
                let reply = row.fail_call(self.alloc, &mut self.journal, notes, pass, call);
                self.journal.note_capacity();
                reply
            }
            Filing::Journal => {
                let reply = fail_unfiled(&mut self.journal, notes, pass, call);
                self.journal.note_capacity();
                reply
            }
            Filing::NoHold => StepReply::NotNow,
        }
    }

    // A write of a pass is deferred.
    fn defer(
        &mut self,
        pass: u32,
        file: FileId,
        bytes: u64,
        retrying: bool,
        routine: Q,
    ) -> StepReply<Q>
        requires stream { file.stream < length self.old.begun.disks }
        requires unposted { Q.posted routine ≡ false }
        ensures { WorldEventLeft (tells_of D.told D.faults L.told L.faults Q.posted)
            (event.Defer pass file bytes retrying routine) result self.old self.new }
    {
        let row = &self.rows[usize::from(file.stream().number())];
        let reply = defer(
            &row.book,
            &mut self.journal,
            pass,
            file,
            bytes,
            retrying,
            routine,
        );
        self.journal.note_capacity();
        reply
    }

    // A page comes in.
    fn fill(&mut self, pass: u32, page: PageId) -> StepReply<Q>
        requires { page.stream < length self.old.begun.disks }
        ensures { WorldEventLeft (tells_of D.told D.faults L.told L.faults Q.posted) (event.Fill pass page) result
            self.old self.new }
    {
        let row = &mut self.rows[usize::from(page.stream().number())];
        let reply = row.fill(&mut self.journal, pass, page);
        self.journal.note_capacity();
        reply
    }

    // A page goes out.
    fn drop_page(&mut self, page: PageId) -> StepReply<Q>
        requires { page.stream < length self.old.begun.disks }
        ensures { WorldEventLeft (tells_of D.told D.faults L.told L.faults Q.posted) (event.Drop page) result
            self.old self.new }
    {
        let row = &mut self.rows[usize::from(page.stream().number())];
        let reply = row.drop_page(&mut self.journal, page);
        self.journal.note_capacity();
        reply
    }

    // The transfer of a page begins.
    fn begin(&mut self, pass: u32, page: PageId) -> StepReply<Q>
        requires { page.stream < length self.old.begun.disks }
        ensures { WorldEventLeft (tells_of D.told D.faults L.told L.faults Q.posted) (event.WriteBegin pass page) result
            self.old self.new }
    {
        let row = &mut self.rows[usize::from(page.stream().number())];
        let reply = row.begin(&self.logs, &mut self.journal, pass, page);
        self.journal.note_capacity();
        reply
    }

    // The transfer of a page ends.
    fn end_transfer(&mut self, page: PageId) -> StepReply<Q>
        requires { page.stream < length self.old.begun.disks }
        ensures { WorldEventLeft (tells_of D.told D.faults L.told L.faults Q.posted) (event.WriteEnd page) result
            self.old self.new }
    {
        let row = &mut self.rows[usize::from(page.stream().number())];
        let reply = row.end(&mut self.journal, page);
        self.journal.note_capacity();
        reply
    }

    // The disk of a stream is synced.
    fn sync(&mut self, pass: u32, stream: StreamId) -> StepReply<Q>
        requires { stream < length self.old.begun.disks }
        ensures { WorldEventLeft (tells_of D.told D.faults L.told L.faults Q.posted) (event.Sync pass stream) result
            self.old self.new }
    {
        let row = &mut self.rows[usize::from(stream.number())];
        let reply = row.sync(&mut self.journal, pass, stream);
        self.journal.note_capacity();
        reply
    }

    // An entry is appended to a log.
    fn append(&mut self, pass: u32, handle: u8, bytes: Bytes) -> StepReply<Q>
        ensures { WorldEventLeft (tells_of D.told D.faults L.told L.faults Q.posted) (event.Append pass handle bytes) result
            self.old self.new }
    {
        if self.logs.len() <= usize::from(handle) {
            return self.no_log(handle);
        }
        let log = &mut self.logs[usize::from(handle)];
        let reply = append(self.alloc, log, &mut self.journal, pass, handle, bytes);
        self.journal.note_capacity();
        reply
    }

    // A log is flushed.
    fn flush_log(&mut self, pass: u32, handle: u8, to: Lsn) -> StepReply<Q>
        ensures { WorldEventLeft (tells_of D.told D.faults L.told L.faults Q.posted) (event.LogFlush pass handle to) result
            self.old self.new }
    {
        if self.logs.len() <= usize::from(handle) {
            // An LSN's number is what says that it is above 0, to which no log is flushed that there is not.
            let _lsn = to.number();
            return self.no_log(handle);
        }
        let log = &mut self.logs[usize::from(handle)];
        let reply = flush(log, &mut self.journal, pass, handle, to);
        self.journal.note_capacity();
        reply
    }

    // What is replied to an event on a log that there is not. Room for its entry is asked first.
    fn no_log(&self, handle: u8) -> StepReply<Q>
        requires { length self.now.begun.logs ≤ handle }
        ensures { IsNoLogReply handle self.now result }
    {
        if self.journal.room() == 0 {
            return StepReply::Refused(CcError::JournalFull {
                entries: self.journal.len(),
            });
        }
        StepReply::Refused(CcError::NoLog {
            handle: u64::from(handle),
        })
    }

    /// The journal, which is good, has the limits of the setup, has reserved just what its entries owe, and was always within
    /// the capacity.
    pub(crate) fn journal(&self) -> &Journal<Q>
        ensures same { result.now ≡ self.now.journal }
        ensures rests { JournalRests (tells_of D.told D.faults L.told L.faults Q.posted) self.now.begun
            self.now.journal }
    {
        &self.journal
    }

    /// The disks, the logs and the journal. It takes no memory.
    pub(crate) fn into_all(self) -> (Vec<D>, Vec<L>, Journal<Q>)
        ensures journal { result.2 ≡ self.journal }
        ensures limit { self.journal.capacity ≡ self.begun.capacity }
        ensures good { IsGood (setup_in (tells_of D.told D.faults L.told L.faults Q.posted) self.begun)
            self.journal.entries }
        ensures within { IsWithinCapacity self.begun.capacity self.journal.entries }
        ensures disks { WorldDisksEnded (tells_of D.told D.faults L.told L.faults Q.posted) self result.0.items }
        ensures logs { WorldLogsEnded (tells_of D.told D.faults L.told L.faults Q.posted) self result.1.items }
        ensures crash { DisksAreCrashSafe (tells_of D.told D.faults L.told L.faults Q.posted)
            self.begun.disks self.journal.entries result.0.items }
        ensures logged { LogsAreDurable (tells_of D.told D.faults L.told L.faults Q.posted)
            self.journal.entries result.1.items }
    {
        let Machine {
            rows,
            logs,
            journal,
            disk_room,
            log_room,
            begun: _,
            alloc: _,
        } = self;
        (disks_of(rows, disk_room), files_of(logs, log_room), journal)
    }
}
