//! A desk taken apart into slots, one for each turn, and put together again.

ghost use Rattle.std.specs.Prelude.{◌≡◌, ℕ, ◌+◌, ◌≤◌, true, List, ◌++◌, length, map, is_some, vec_capacity, IfOk, IfErr};
ghost use Rattle.std.specs.List.{list_all};
ghost use Rattle.std.specs.Option.{option_map};
ghost use Rattle.cc_entry.specs.declared.entry.Entry.{Entry};
ghost use Rattle.cc_turns.specs.Standing.{nothing};
ghost use Rattle.cc_turns.specs.Places.{IsRoomFor};
ghost use Rattle.cc_turns.specs.Desk.{tells_of, made_from};
ghost use Rattle.cc_turns.specs.declared.slots.Place.TheVariants as place;
ghost use Rattle.cc_turns.specs.Slots.{AreInSlots, IsPutTogether, slots_of, under_way_in};

use crate::desk::{Desk, TurnsOut};
use cc_book::Book;
use cc_entry::NoMemory;
use cc_journal::Journal;
use cc_log::LogTurn;
use cc_traits::{LogFile, PageDisk, PostRoutine, Setup};
use std::alloc::{AllocError, Global};
use std::marker::Model;
use std::snapshot::Snapshot;

/// What a turn is of.
#[derive(Drop)]
pub enum Place<D, L, Q> {
    Device(D),
    Book(Book),
    Log(LogTurn<L>),
    Journal(Journal<Q>),
}

/// What is left of a desk that was taken apart: rows with a place for all that its turns are of.
pub struct Emptied<D, L> {
    disks: Vec<Option<D>>,
    books: Vec<Option<Book>>,
    logs: Vec<Option<LogTurn<L>>>,
    disk_room: Vec<D>,
    log_room: Vec<L>,
    device_turns: u64,
    begun: Snapshot<Setup<D, L>>,
}

/// A desk in slots.
pub struct Apart<D: PageDisk, L: LogFile, Q: PostRoutine> {
    pub emptied: Emptied<D, L>,
    /// What each turn is of, in the slot of the turn.
    pub slots: Vec<Option<Place<D, L, Q>>>,
    /// Empty, with room for the slots as they come back.
    pub room: Vec<Option<Place<D, L, Q>>>,
}

impl<D, L> Model for Emptied<D, L> {
    ghost use Rattle.std.specs.Prelude.{length, vec_capacity};
    ghost use Rattle.cc_turns.specs.Places.{IsRoomFor};
    ghost use Rattle.cc_turns.specs.Desk.{Begun, made_from};

    ghost Value = { Begun D L };

    ghost view = { λ e. made_from e.begun.value };

    ghost invariant = { λ e.
        IsRoomFor (length e.begun.value.disks.items) e.disks.items (vec_capacity e.disks)
        × IsRoomFor (length e.begun.value.disks.items) e.books.items (vec_capacity e.books)
        × IsRoomFor (length e.begun.value.logs.items) e.logs.items (vec_capacity e.logs)
        × IsRoomFor (length e.begun.value.disks.items) e.disk_room.items (vec_capacity e.disk_room)
        × IsRoomFor (length e.begun.value.logs.items) e.log_room.items (vec_capacity e.log_room) };
}

impl<D: PageDisk, L: LogFile, Q: PostRoutine> Desk<D, L, Q> {
    /// Takes the desk apart. Where memory is wanting, it comes back as it was.
    pub fn take_apart(self, alloc: Global) -> Result<Apart<D, L, Q>, Desk<D, L, Q>>
        requires free { self.held ≡ nothing }
        ensures run { IfOk result (λ apart. apart.emptied ≡ self.begun) }
        ensures slots { IfOk result (λ apart. AreInSlots (tells_of D.told D.faults L.told L.faults Q.posted)
            self.begun self.last.entries (under_way_in self) apart.slots.items) }
        ensures room { IfOk result (λ apart. IsRoomFor (slots_of self.begun) apart.room.items (vec_capacity apart.room)) }
        ensures err { IfErr result (λ back. back ≡ self) }
    {
        let count = self.disks.len() + self.books.len() + self.logs.len() + 1;
        match two_rows(alloc, count) {
            Ok((slots, room)) => Ok(self.into_slots(slots, room)),
            Err(NoMemory) => Err(self),
        }
    }

    // The desk in slots. It takes no memory.
    fn into_slots(
        self,
        mut slots: Vec<Option<Place<D, L, Q>>>,
        room: Vec<Option<Place<D, L, Q>>>,
    ) -> Apart<D, L, Q>
        requires free { self.held ≡ nothing }
        requires slots { IsRoomFor (slots_of self.begun) slots.items (vec_capacity slots) }
        requires room { IsRoomFor (slots_of self.begun) room.items (vec_capacity room) }
        ensures run { result.emptied ≡ self.begun }
        ensures slots { AreInSlots (tells_of D.told D.faults L.told L.faults Q.posted)
            self.begun self.last.entries (under_way_in self) result.slots.items }
        ensures room { result.room ≡ room }
    {
        let Desk {
            mut disks,
            mut books,
            mut logs,
            journal,
            disk_room,
            log_room,
            device_turns,
            begun,
            pass: _,
            held: _,
            last: _,
            since: _,
        } = self;
        disks_out(&mut disks, &mut slots);
        books_out(&mut books, &mut slots);
        logs_out(&mut logs, &mut slots);
        slots.push_reserved(Some(Place::Journal(journal.unwrap())));
        Apart {
            emptied: Emptied {
                disks,
                books,
                logs,
                disk_room,
                log_room,
                device_turns,
                begun,
            },
            slots,
            room,
        }
    }
}

impl<D: PageDisk, L: LogFile> Emptied<D, L> {
    /// What the run was made from.
    pub fn begun(&self) -> &Snapshot<Setup<D, L>>
        ensures { made_from result.now.value ≡ self.now }
    {
        &self.begun
    }

    /// Puts a desk together of what is in the slots. It acts as pass 0.
    pub fn put_together<Q: PostRoutine>(
        self,
        mut slots: Vec<Option<Place<D, L, Q>>>,
    ) -> Desk<D, L, Q>
        requires slots { (past : List Entry) × ((under_way : ℕ)
            × AreInSlots (tells_of D.told D.faults L.told L.faults Q.posted) self past under_way slots.items) }
        ensures desk { (past : List Entry) (under_way : ℕ) →
            AreInSlots (tells_of D.told D.faults L.told L.faults Q.posted) self past under_way slots.items →
            IsPutTogether self past under_way result }
    {
        let Emptied {
            mut disks,
            mut books,
            mut logs,
            disk_room,
            log_room,
            device_turns,
            begun,
        } = self;
        let mut journal = None;
        while let Some(slot) = slots.pop() {
            match slot.unwrap() {
                Place::Device(disk) => disks.push_reserved(Some(disk)),
                Place::Book(book) => books.push_reserved(Some(book)),
                Place::Log(log) => logs.push_reserved(Some(log)),
                Place::Journal(home) => journal = Some(home),
            }
        }
        slots.destroy_empty();
        disks.reverse();
        books.reverse();
        logs.reverse();
        let journal = journal.unwrap();
        let last = Snapshot::of(&journal);
        let since = Snapshot::of(&last);
        Desk {
            disks,
            books,
            logs,
            journal: Some(journal),
            disk_room,
            log_room,
            pass: 0,
            held: TurnsOut {
                device: None,
                book: None,
                log: None,
                journal: false,
            },
            device_turns,
            begun,
            last,
            since,
        }
    }
}

// Two rows with room for so many.
fn two_rows<A>(alloc: Global, count: usize) -> Result<(Vec<A>, Vec<A>), NoMemory>
    ensures { IfOk result (λ rows. IsRoomFor count rows.0.items (vec_capacity rows.0)
        × IsRoomFor count rows.1.items (vec_capacity rows.1)) }
{
    let first = Vec::with_capacity(alloc, count)?;
    match Vec::with_capacity(alloc, count) {
        Ok(second) => Ok((first, second)),
        Err(AllocError) => {
            first.destroy_empty();
            Err(NoMemory)
        }
    }
}

// Moves the disks out of their row, each into a slot of its own.
fn disks_out<D, L, Q>(row: &mut Vec<Option<D>>, slots: &mut Vec<Option<Place<D, L, Q>>>)
    requires home { list_all is_some row.old.items ≡ true }
    requires room { length slots.old.items + length row.old.items ≤ vec_capacity slots.old }
    ensures moved { slots.new.items ≡ slots.old.items ++ map (option_map (λ disk. place.Device disk)) row.old.items }
    ensures capacity { vec_capacity slots.new ≡ vec_capacity slots.old }
    ensures emptied { IsRoomFor (length row.old.items) row.new.items (vec_capacity row.new) }
{
    row.reverse();
    while let Some(item) = row.pop() {
        slots.push_reserved(Some(Place::Device(item.unwrap())));
    }
}

// Moves the books out of their row, each into a slot of its own.
fn books_out<D, L, Q>(row: &mut Vec<Option<Book>>, slots: &mut Vec<Option<Place<D, L, Q>>>)
    requires home { list_all is_some row.old.items ≡ true }
    requires room { length slots.old.items + length row.old.items ≤ vec_capacity slots.old }
    ensures moved { slots.new.items ≡ slots.old.items ++ map (option_map (λ b. place.Book b)) row.old.items }
    ensures capacity { vec_capacity slots.new ≡ vec_capacity slots.old }
    ensures emptied { IsRoomFor (length row.old.items) row.new.items (vec_capacity row.new) }
{
    row.reverse();
    while let Some(item) = row.pop() {
        slots.push_reserved(Some(Place::Book(item.unwrap())));
    }
}

// Moves the logs out of their row, each into a slot of its own.
fn logs_out<D, L, Q>(row: &mut Vec<Option<LogTurn<L>>>, slots: &mut Vec<Option<Place<D, L, Q>>>)
    requires home { list_all is_some row.old.items ≡ true }
    requires room { length slots.old.items + length row.old.items ≤ vec_capacity slots.old }
    ensures moved { slots.new.items ≡ slots.old.items ++ map (option_map (λ l. place.Log l)) row.old.items }
    ensures capacity { vec_capacity slots.new ≡ vec_capacity slots.old }
    ensures emptied { IsRoomFor (length row.old.items) row.new.items (vec_capacity row.new) }
{
    row.reverse();
    while let Some(item) = row.pop() {
        slots.push_reserved(Some(Place::Log(item.unwrap())));
    }
}
