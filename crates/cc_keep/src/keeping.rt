//! The turns of a pass that keeps the turn of a disk.

ghost use Rattle.std.specs.Prelude.{◌≡◌, ℕ, ◌<◌, ◌≤◌, true, false, None, Some, ◌∷◌};
ghost use Rattle.cc_book.specs.Book.{BookStands};
ghost use Rattle.cc_model.specs.History.{history};
ghost use Rattle.cc_model.specs.Images.{open_of};
ghost use Rattle.cc_turns.specs.Standing.{Standing, nothing};
ghost use Rattle.cc_keep.specs.Keeps.{KeepsDisk, keeping_standing};
ghost use Rattle.cc_turns.specs.Disk.{DiskStands, opening_of};
ghost use Rattle.cc_turns.specs.Log.{LogStands};
ghost use Rattle.cc_turns.specs.Held.{DiskFaultsAreTold};
ghost use Rattle.cc_turns.specs.Journal.{JournalStands};
ghost use Rattle.cc_turns.specs.Takes.{Takes, AddsEvent, with_device, with_book, with_log, with_journal, without_device, without_book, without_log, without_journal};

use cc_book::Book;
use cc_entry::StreamId;
use cc_journal::Journal;
use cc_log::LogTurn;
use cc_turns::Turns;
use std::snapshot::Snapshot;

/// The turns of a pass that had the turn of a stream's disk when this was made.
pub struct Keeping<'a, T: Turns> {
    turns: &'a mut T,
    stream: StreamId,
    /// The pass as it was then.
    begun: Snapshot<T>,
    /// How often it took the turn of a disk since, up to the last number.
    device_turns: u64,
    ghost keeps: { KeepsDisk device_turns stream (T.standing begun.value) (T.standing turns.now) },
}

impl<'a, T: Turns> Keeping<'a, T> {
    /// The same turns, of whoever holds the disk of a stream.
    pub fn new(turns: &'a mut T, stream: StreamId) -> Keeping<'a, T>
        ensures same_reference { result.turns.ghost_name ≡ turns.entry.ghost_name }
        ensures now { result.turns.now ≡ turns.old }
        ensures begun { result.begun.value ≡ turns.old }
        ensures stream { result.stream ≡ stream }
        ensures turns { result.device_turns ≡ 0 }
    {
        let begun = Snapshot::of(&*turns);
        Keeping {
            turns,
            stream,
            begun,
            device_turns: 0,
        }
    }

    /// Ends the keeping.
    pub fn end(self)
        ensures { self.exit.0.now ≡ self.entry.turns.now }
    {
        let Keeping {
            turns: _,
            stream: _,
            begun: _,
            device_turns: _,
        } = self;
    }
}

impl<'a, T: Turns> Turns for Keeping<'a, T> {
    type Disk = T::Disk;

    type Log = T::Log;

    type Post = T::Post;

    ghost standing = { λ k. keeping_standing (T.standing k.turns.now) k.turns.ghost_name k.stream (T.standing k.begun.value) k.device_turns };

    fn me(&self) -> u32 {
        self.turns.me()
    }

    fn streams(&self) -> u8 {
        self.turns.streams()
    }

    fn logs(&self) -> u8 {
        self.turns.logs()
    }

    fn note_others(&self) {
        self.turns.note_others()
    }

    fn take_device(&mut self, stream: StreamId) -> T::Disk {
        self.device_turns = self.device_turns.saturating_add(1);
        self.turns.take_device(stream)
    }

    fn give_device(&mut self, stream: StreamId, disk: T::Disk) {
        self.turns.give_device(stream, disk)
    }

    fn take_book(&mut self, stream: StreamId) -> Book {
        self.turns.take_book(stream)
    }

    fn give_book(&mut self, stream: StreamId, book: Book) {
        self.turns.give_book(stream, book)
    }

    fn take_log(&mut self, handle: u8) -> LogTurn<T::Log> {
        self.turns.take_log(handle)
    }

    fn give_log(&mut self, handle: u8, log: LogTurn<T::Log>)
        requires held { (T.standing self.old.turns.now).held.log ≡ Some handle }
        requires no_journal { (T.standing self.old.turns.now).held.journal ≡ false }
        requires handle { log.handle ≡ handle }
        requires stands { LogStands T.Log.told T.Log.faults ((T.standing self.old.turns.now).logs handle)
            (T.standing self.old.turns.now).seen log }
        ensures { keeping_standing (T.standing self.new.turns.now) self.new.turns.ghost_name self.new.stream
            (T.standing self.new.begun.value) self.new.device_turns
            ≡ without_log (keeping_standing (T.standing self.old.turns.now) self.old.turns.ghost_name self.old.stream
            (T.standing self.old.begun.value) self.old.device_turns) }
    {
        self.turns.give_log(handle, log)
    }

    fn take_journal(&mut self) -> Journal<T::Post> {
        self.turns.take_journal()
    }

    fn give_journal(&mut self, journal: Journal<T::Post>)
        requires held { (T.standing self.old.turns.now).held.journal ≡ true }
        requires adds { AddsEvent (keeping_standing (T.standing self.old.turns.now) self.old.turns.ghost_name self.old.stream
            (T.standing self.old.begun.value) self.old.device_turns) journal.entries }
        requires stands { JournalStands T.Post.posted (without_journal journal
            (keeping_standing (T.standing self.old.turns.now) self.old.turns.ghost_name self.old.stream
            (T.standing self.old.begun.value) self.old.device_turns)) journal }
        requires few { (without_journal journal (T.standing self.old.turns.now)).in_flight ≤ 1 }
        ensures { keeping_standing (T.standing self.new.turns.now) self.new.turns.ghost_name self.new.stream
            (T.standing self.new.begun.value) self.new.device_turns
            ≡ without_journal journal (keeping_standing (T.standing self.old.turns.now) self.old.turns.ghost_name
            self.old.stream (T.standing self.old.begun.value) self.old.device_turns) }
    {
        self.turns.give_journal(journal)
    }
}
