//! A pass of a board as it takes turns, for which it may wait, and gives them back.

ghost use Rattle.std.specs.Prelude.{◌≡◌, ℕ, ◌+◌, ◌≤◌, true, false, None, Some};
ghost use Rattle.cc_book.specs.Book.{BookStands};
ghost use Rattle.cc_model.specs.History.{history};
ghost use Rattle.cc_model.specs.Images.{open_of};
ghost use Rattle.cc_turns.specs.Standing.{nothing};
ghost use Rattle.cc_turns.specs.Desk.{tells_of};
ghost use Rattle.cc_turns.specs.Disk.{DiskStands, opening_of};
ghost use Rattle.cc_turns.specs.Log.{LogStands};
ghost use Rattle.cc_turns.specs.Journal.{JournalStands};
ghost use Rattle.cc_turns.specs.Takes.{Takes, AddsEvent, with_device, with_book, with_log, with_journal, without_device, without_book, without_log, without_journal};
ghost use Rattle.cc_board.specs.View.{turns_held, view_standing};
ghost use Rattle.cc_board.specs.Board.{IsOfBoard, seated_pass, seated_standing};

use crate::board::{Board, Pass};
use crate::rule::{
    GivesBook, GivesDevice, GivesJournal, GivesLog, Slot, TakesBook, TakesDevice, TakesJournal,
    TakesLog, View,
};
use atomic_table::Seat;
use cc_book::Book;
use cc_entry::StreamId;
use cc_journal::Journal;
use cc_log::LogTurn;
use cc_traits::{LogFile, PageDisk, PostRoutine, Told};
use cc_turns::{AtTake, HeldDisk, Place, Turns};
use std::marker::Model;
use std::snapshot::Snapshot;
use std::sync::Wait;

/// A pass of a board, as it takes turns and gives them. Taking one may wait.
pub struct Seated<'b, R: Wait, D: Told, L: LogFile, Q: PostRoutine> {
    rt: &'b R,
    board: &'b Board<D, L, Q>,
    seat: Seat<Slot<D, L, Q>, View<D, L>>,
    number: u32,
    device_turns: u64,
}

/// The seat of a pass as it takes a turn, for clauses alone.
#[derive(Drop)]
pub struct SeatAtTake<D: Told, L: LogFile, Q: PostRoutine> {
    seat: Snapshot<Seat<Slot<D, L, Q>, View<D, L>>>,
}

impl<'b, R: Wait, D: Told, L: LogFile, Q: PostRoutine> Model for Seated<'b, R, D, L, Q> {
    ghost use Rattle.std.specs.Prelude.{◌≡◌, true, false};
    ghost use Rattle.cc_board.specs.View.{run_of, turns_held};
    ghost use Rattle.cc_board.specs.Board.{SeatedState, HoldsOwn, PassIsWithin, carried_of};

    ghost Value = { SeatedState D L };

    ghost view = { λ s. record { board = s.board.now; knows = s.seat.me.0; device_turns = s.device_turns } };

    ghost invariant = { λ s.
        (s.seat.table_id ≡ s.board.now.id) × (run_of s.seat.me.0 ≡ s.board.now.begun)
        × (s.seat.me.1 ≡ carried_of s.board.now.begun (turns_held s.seat.me.0))
        × (s.seat.me.0.live ≡ true) × (s.seat.me.0.drawn ≡ false)
        × (s.number ≡ s.seat.me.0.number) × PassIsWithin s.seat.me.0
        × HoldsOwn s.board.now.begun (turns_held s.seat.me.0) };
}

impl<'b, R: Wait, D: Told, L: LogFile, Q: PostRoutine> Seated<'b, R, D, L, Q> {
    /// Seats a pass at its board.
    pub fn new(rt: &'b R, board: &'b Board<D, L, Q>, pass: Pass<D, L, Q>) -> Seated<'b, R, D, L, Q>
        requires here { IsOfBoard board.now pass }
        ensures board { result.board ≡ board.now }
        ensures pass { seated_pass result ≡ pass }
        ensures free { turns_held result.knows ≡ nothing }
    {
        let Pass {
            mut seat,
            number,
            device_turns,
        } = pass;
        board.learn(&mut seat);
        Seated {
            rt,
            board,
            seat,
            number,
            device_turns,
        }
    }

    /// Gives the pass back.
    pub fn into_pass(self) -> Pass<D, L, Q>
        requires free { turns_held self.knows ≡ nothing }
        ensures pass { result ≡ seated_pass self.entry }
        ensures here { IsOfBoard self.entry.board result }
    {
        let Seated {
            rt: _,
            board: _,
            seat,
            number,
            device_turns,
        } = self;
        Pass {
            seat,
            number,
            device_turns,
        }
    }
}

// A seat as it is now.
fn at_take_of<D: Told, L: LogFile, Q: PostRoutine>(
    seat: &Seat<Slot<D, L, Q>, View<D, L>>,
) -> Snapshot<SeatAtTake<D, L, Q>>
    ensures { result.value.seat.value ≡ seat.now }
{
    Snapshot::of(&SeatAtTake {
        seat: Snapshot::of(seat),
    })
}

impl<D: Told, L: LogFile, Q: PostRoutine> AtTake for SeatAtTake<D, L, Q> {
    ghost knew = { λ at_take. view_standing (tells_of D.told D.faults L.told L.faults Q.posted) at_take.seat.value.me.0 0 };
}

impl<'b, R: Wait, D: PageDisk, L: LogFile, Q: PostRoutine> Turns for Seated<'b, R, D, L, Q> {
    type Disk = HeldDisk<D, SeatAtTake<D, L, Q>>;

    type Log = L;

    type Post = Q;

    ghost standing = { seated_standing (tells_of D.told D.faults L.told L.faults Q.posted) };

    fn me(&self) -> u32 {
        self.number
    }

    fn streams(&self) -> u8 {
        self.board.streams()
    }

    fn logs(&self) -> u8 {
        self.board.logs()
    }

    fn note_others(&self) {
        // What is true of each pass is known where a field is used.
        let _ = &self.rt;
    }

    fn take_device(&mut self, stream: StreamId) -> HeldDisk<D, SeatAtTake<D, L, Q>> {
        let slot = usize::from(stream.number());
        let place = self
            .board
            .take::<TakesDevice, R>(self.rt, &mut self.seat, slot);
        self.device_turns = self.device_turns.saturating_add(1);
        match place {
            Some(Place::Device(disk)) => HeldDisk::new(disk, stream, at_take_of(&self.seat)),
            _ => unreachable!(),
        }
    }

    fn give_device(&mut self, stream: StreamId, disk: HeldDisk<D, SeatAtTake<D, L, Q>>) {
        let slot = usize::from(stream.number());
        self.board
            .give::<GivesDevice>(&mut self.seat, slot, Place::Device(disk.into_disk()));
    }

    fn take_book(&mut self, stream: StreamId) -> Book {
        let slot = usize::from(self.board.streams()) + usize::from(stream.number());
        match self
            .board
            .take::<TakesBook, R>(self.rt, &mut self.seat, slot)
        {
            Some(Place::Book(book)) => book,
            _ => unreachable!(),
        }
    }

    fn give_book(&mut self, stream: StreamId, book: Book) {
        let slot = usize::from(self.board.streams()) + usize::from(stream.number());
        self.board
            .give::<GivesBook>(&mut self.seat, slot, Place::Book(book));
    }

    fn take_log(&mut self, handle: u8) -> LogTurn<L> {
        let slot = 2 * usize::from(self.board.streams()) + usize::from(handle);
        match self
            .board
            .take::<TakesLog, R>(self.rt, &mut self.seat, slot)
        {
            Some(Place::Log(log)) => log,
            _ => unreachable!(),
        }
    }

    fn give_log(&mut self, handle: u8, log: LogTurn<L>)
        requires held { (turns_held self.old.knows).log ≡ Some handle }
        requires no_journal { (turns_held self.old.knows).journal ≡ false }
        requires handle { log.handle ≡ handle }
        requires stands { LogStands L.told L.faults
            ((seated_standing (tells_of D.told D.faults L.told L.faults Q.posted) self.old).logs handle) self.old.knows.seen log }
        ensures { seated_standing (tells_of D.told D.faults L.told L.faults Q.posted) self.new
            ≡ without_log (seated_standing (tells_of D.told D.faults L.told L.faults Q.posted) self.old) }
    {
        let slot = 2 * usize::from(self.board.streams()) + usize::from(handle);
        self.board
            .give::<GivesLog>(&mut self.seat, slot, Place::Log(log));
    }

    fn take_journal(&mut self) -> Journal<Q> {
        let slot = 2 * usize::from(self.board.streams()) + usize::from(self.board.logs());
        match self
            .board
            .take::<TakesJournal, R>(self.rt, &mut self.seat, slot)
        {
            Some(Place::Journal(journal)) => journal,
            _ => unreachable!(),
        }
    }

    fn give_journal(&mut self, journal: Journal<Q>)
        requires held { (turns_held self.old.knows).journal ≡ true }
        requires adds { AddsEvent (seated_standing (tells_of D.told D.faults L.told L.faults Q.posted) self.old) journal.entries }
        requires stands { JournalStands Q.posted
            (without_journal journal (seated_standing (tells_of D.told D.faults L.told L.faults Q.posted) self.old)) journal }
        requires few { (without_journal journal
            (seated_standing (tells_of D.told D.faults L.told L.faults Q.posted) self.old)).in_flight ≤ 1 }
        ensures { seated_standing (tells_of D.told D.faults L.told L.faults Q.posted) self.new
            ≡ without_journal journal (seated_standing (tells_of D.told D.faults L.told L.faults Q.posted) self.old) }
    {
        journal.note_capacity();
        let slot = 2 * self.board.streams() as usize + self.board.logs() as usize;
        self.board
            .give::<GivesJournal>(&mut self.seat, slot, Place::Journal(journal));
    }
}
