//! The trait of turns: what a pass is promised as it takes a disk, book, log or journal, and owes as it gives one.

ghost use Rattle.std.specs.Prelude.{◌≡◌, ℕ, ◌<◌, ◌≤◌, true, false, None, Some};
ghost use Rattle.cc_book.specs.Book.{BookStands};
ghost use Rattle.cc_model.specs.History.{history};
ghost use Rattle.cc_model.specs.Images.{open_of};
ghost use Rattle.cc_turns.specs.Standing.{Standing, nothing};
ghost use Rattle.cc_turns.specs.Disk.{DiskStands, opening_of};
ghost use Rattle.cc_turns.specs.Log.{LogStands};
ghost use Rattle.cc_turns.specs.Held.{DiskFaultsAreTold};
ghost use Rattle.cc_turns.specs.Journal.{JournalStands};
ghost use Rattle.cc_turns.specs.Takes.{Takes, AddsEvent, with_device, with_book, with_log, with_journal, without_device, without_book, without_log, without_journal};

use cc_book::Book;
use cc_entry::StreamId;
use cc_journal::Journal;
use cc_log::LogTurn;
use cc_traits::{LogFile, PageDisk, PostRoutine};

/// The turns of one pass, a caller of the cache. Whoever holds a turn has what it is of to itself.
pub trait Turns {
    type Disk: PageDisk;

    type Log: LogFile;

    type Post: PostRoutine;

    // What the pass knows.
    ghost standing: { Self → Standing };

    /// The number of the pass.
    fn me(&self) -> u32
        ensures { result ≡ (standing self.now).number };

    /// How many streams have a disk.
    fn streams(&self) -> u8
        ensures { result ≡ (standing self.now).streams };

    /// How many logs there are.
    fn logs(&self) -> u8
        ensures { result ≡ (standing self.now).setup.logs };

    /// Notes that others never have more under way than their most. It does nothing.
    fn note_others(&self)
        ensures few { (standing self.now).others ≤ (standing self.now).most_others };

    /// Takes the turn of a stream's disk; no other turn is held. No transfer is under way on a disk at home. Of its faults
    /// before, only those are counted that an entry tells.
    fn take_device(&mut self, stream: StreamId) -> Self::Disk
        requires known { stream < (standing self.old).streams }
        requires free { (standing self.old).held ≡ nothing }
        ensures took { Takes (with_device stream) (standing self.old) (standing self.new) }
        ensures opening { (standing self.new).setup.opening stream
            ≡ opening_of ((standing self.new).disks stream).told }
        ensures stands { DiskStands Self.Disk.told Self.Disk.faults ((standing self.new).disks stream)
            (standing self.new).seen stream result }
        ensures counted { DiskFaultsAreTold Self.Disk.faults ((standing self.new).disks stream)
            (standing self.new).seen stream result }
        ensures at_rest { open_of (history (standing self.new).seen stream) ≡ None };

    /// Gives the turn of a stream's disk, with no transfer under way. Its count of faults rose since the take by at least
    /// the failures that were placed since.
    fn give_device(&mut self, stream: StreamId, disk: Self::Disk)
        requires held { (standing self.old).held ≡ record nothing { device = Some stream } }
        requires stands { DiskStands Self.Disk.told Self.Disk.faults ((standing self.old).disks stream)
            (standing self.old).seen stream disk }
        requires at_rest { open_of (history (standing self.old).seen stream) ≡ None }
        ensures { standing self.new ≡ without_device (standing self.old) };

    /// Takes the turn of a stream's book.
    fn take_book(&mut self, stream: StreamId) -> Book
        requires known { stream < (standing self.old).streams }
        requires free { (standing self.old).held
            ≡ record nothing { device = (standing self.old).held.device } }
        ensures took { Takes (with_book stream) (standing self.old) (standing self.new) }
        ensures stream { result.stream ≡ stream }
        ensures stands { BookStands ((standing self.new).setup.opening stream) (standing self.new).seen result };

    /// Gives the turn of a stream's book.
    fn give_book(&mut self, stream: StreamId, book: Book)
        requires held { (standing self.old).held
            ≡ record nothing { device = (standing self.old).held.device; book = Some stream } }
        requires stream { book.stream ≡ stream }
        requires stands { BookStands ((standing self.old).setup.opening stream) (standing self.old).seen book }
        ensures { standing self.new ≡ without_book (standing self.old) };

    /// Takes the turn of a log. Entries tell each fault that it had since the run began.
    fn take_log(&mut self, handle: u8) -> LogTurn<Self::Log>
        requires known { handle < (standing self.old).setup.logs }
        requires no_log { (standing self.old).held.log ≡ None }
        requires no_journal { (standing self.old).held.journal ≡ false }
        ensures took { Takes (with_log handle) (standing self.old) (standing self.new) }
        ensures handle { result.handle ≡ handle }
        ensures stands { LogStands Self.Log.told Self.Log.faults ((standing self.new).logs handle)
            (standing self.new).seen result };

    /// Gives the turn of a log. Its count of faults rose since the take by just the failures that were placed since.
    fn give_log(&mut self, handle: u8, log: LogTurn<Self::Log>)
        requires held { (standing self.old).held.log ≡ Some handle }
        requires no_journal { (standing self.old).held.journal ≡ false }
        requires handle { log.handle ≡ handle }
        requires stands { LogStands Self.Log.told Self.Log.faults ((standing self.old).logs handle)
            (standing self.old).seen log }
        ensures { standing self.new ≡ without_log (standing self.old) };

    /// Takes the turn of the journal.
    fn take_journal(&mut self) -> Journal<Self::Post>
        requires free { (standing self.old).held.journal ≡ false }
        ensures took { Takes with_journal (standing self.old) (standing self.new) }
        ensures stands { JournalStands Self.Post.posted (standing self.new) result }
        ensures few { (standing self.new).others ≤ (standing self.new).most_others };

    /// Gives the turn of the journal, with one event of the pass at most: an entry, or a noncached store with the begin of
    /// its transfer. So others may see the journal between any two events. Each entry stands where the turns that it needs
    /// are held. The pass has one entry at most reserved for what it has under way.
    fn give_journal(&mut self, journal: Journal<Self::Post>)
        requires held { (standing self.old).held.journal ≡ true }
        requires adds { AddsEvent (standing self.old) journal.entries }
        requires stands { JournalStands Self.Post.posted (without_journal journal (standing self.old)) journal }
        requires few { (without_journal journal (standing self.old)).in_flight ≤ 1 }
        ensures { standing self.new ≡ without_journal journal (standing self.old) };
}
