//! What each pass of a board knows, what is true of all of them between any two steps, and what the steps tell.

use atomic_table::{Join, Play, Split, TableRule};
use cc_book::Book;
use cc_entry::Entry;
use cc_journal::Journal;
use cc_traits::{LogFile, PostRoutine, Setup, Told};
use cc_turns::Place;
use std::collections::LinkedList;
use std::marker::{Brand, PhantomData};
use std::snapshot::Snapshot;

/// What a slot holds: what its turn is of, but not while the turn is held.
pub type Slot<D, L, Q> = Option<Place<D, L, Q>>;

/// What a pass knows. No value of it is made.
pub struct View<D, L> {
    /// What the run was made from.
    pub disks: LinkedList<D>,
    pub logs: LinkedList<L>,
    pub capacity: u64,
    pub threshold: u32,
    /// Whether it was not joined yet.
    pub live: bool,
    pub number: u32,
    /// The entries of the journal that it has seen, the newest first.
    pub seen: LinkedList<Entry>,
    /// The turns that it holds.
    pub device: Option<u8>,
    pub book: Option<u8>,
    pub log: Option<u8>,
    pub journal: bool,
    /// How many entries it has reserved for what it has under way, and how many others had, as it last took a turn.
    pub in_flight: u64,
    pub others: u64,
    /// How many passes the board has at most beside pass 0, and how many entries were under way as it was made.
    pub passes: u64,
    pub before: u64,
    /// Of pass 0: how many passes were made, whether a number was drawn for one that is not made yet, and of each that
    /// was joined its number and what it had seen.
    pub made: u64,
    pub drawn: bool,
    pub ended: LinkedList<(u32, LinkedList<Entry>)>,
}

/// What a board was made from: the run, and the journal as it was then; and how many passes it has at most beside
/// pass 0.
#[derive(Drop)]
pub struct Key<D, L, Q> {
    pub begun: Snapshot<Snapshot<Setup<D, L>>>,
    pub journal: Snapshot<Journal<Q>>,
    pub passes: u64,
}

/// The rule of a board.
pub struct BoardRule<D, L, Q> {
    of: PhantomData<(D, L, Q)>,
}

impl<D: Told, L: LogFile, Q: PostRoutine> TableRule<Slot<D, L, Q>, View<D, L>, Key<D, L, Q>>
    for BoardRule<D, L, Q> {
    ghost use Rattle.cc_turns.specs.Desk.{tells_of};
    ghost use Rattle.cc_board.specs.View.{run_in, first_view};
    ghost use Rattle.cc_board.specs.Rule.{IsBoard};

    ghost holds = { λ key. IsBoard (tells_of D.told D.faults L.told L.faults Q.posted) (run_in key) };

    ghost first = { first_view };
}

/// The turn of a disk is taken.
pub struct TakesDevice;

impl<D: Told, L: LogFile, Q: PostRoutine> Play<Slot<D, L, Q>, View<D, L>> for TakesDevice {
    ghost use Rattle.cc_turns.specs.Desk.{tells_of};
    ghost use Rattle.cc_board.specs.Plays.{TakesTurn, device_at};

    ghost then = { TakesTurn (tells_of D.told D.faults L.told L.faults Q.posted) device_at };
}

/// The turn of a book is taken.
pub struct TakesBook;

impl<D: Told, L: LogFile, Q: PostRoutine> Play<Slot<D, L, Q>, View<D, L>> for TakesBook {
    ghost use Rattle.cc_turns.specs.Desk.{tells_of};
    ghost use Rattle.cc_board.specs.Plays.{TakesTurn, book_at};

    ghost then = { TakesTurn (tells_of D.told D.faults L.told L.faults Q.posted) book_at };
}

/// The turn of a log is taken.
pub struct TakesLog;

impl<D: Told, L: LogFile, Q: PostRoutine> Play<Slot<D, L, Q>, View<D, L>> for TakesLog {
    ghost use Rattle.cc_turns.specs.Desk.{tells_of};
    ghost use Rattle.cc_board.specs.Plays.{TakesTurn, log_at};

    ghost then = { TakesTurn (tells_of D.told D.faults L.told L.faults Q.posted) log_at };
}

/// The turn of the journal is taken.
pub struct TakesJournal;

impl<D: Told, L: LogFile, Q: PostRoutine> Play<Slot<D, L, Q>, View<D, L>> for TakesJournal {
    ghost use Rattle.cc_turns.specs.Desk.{tells_of};
    ghost use Rattle.cc_board.specs.Plays.{TakesTurn, journal_at};

    ghost then = { TakesTurn (tells_of D.told D.faults L.told L.faults Q.posted) journal_at };
}

/// The turn of a disk is given back.
pub struct GivesDevice;

impl<D, L, Q> Play<Slot<D, L, Q>, View<D, L>> for GivesDevice {
    ghost use Rattle.cc_board.specs.Plays.{GivesTurn, device_at};

    ghost then = { GivesTurn device_at };
}

/// The turn of a book is given back.
pub struct GivesBook;

impl<D, L, Q> Play<Slot<D, L, Q>, View<D, L>> for GivesBook {
    ghost use Rattle.cc_board.specs.Plays.{GivesTurn, book_at};

    ghost then = { GivesTurn book_at };
}

/// The turn of a log is given back.
pub struct GivesLog;

impl<D, L, Q> Play<Slot<D, L, Q>, View<D, L>> for GivesLog {
    ghost use Rattle.cc_board.specs.Plays.{GivesTurn, log_at};

    ghost then = { GivesTurn log_at };
}

/// The turn of the journal is given back.
pub struct GivesJournal;

impl<D, L, Q> Play<Slot<D, L, Q>, View<D, L>> for GivesJournal {
    ghost use Rattle.cc_board.specs.Plays.{GivesTurn, journal_at};

    ghost then = { GivesTurn journal_at };
}

/// Pass 0 looks how many passes were made.
pub struct CountsPasses;

impl<D, L, Q> Play<Slot<D, L, Q>, View<D, L>> for CountsPasses {
    ghost use Rattle.cc_board.specs.Plays.{CountsPasses};

    ghost then = { CountsPasses };
}

/// Pass 0 draws the number of the next pass.
pub struct DrawsNumber;

impl<D, L, Q> Play<Slot<D, L, Q>, View<D, L>> for DrawsNumber {
    ghost use Rattle.cc_board.specs.Plays.{DrawsNumber};

    ghost then = { DrawsNumber };
}

/// How a pass is split from pass 0, and joined to it.
pub struct Parting;

impl<D, L> Split<View<D, L>> for Parting {
    ghost use Rattle.cc_board.specs.View.{split_left, split_right};

    ghost left = { split_left };

    ghost right = { split_right };
}

impl<D, L> Join<View<D, L>> for Parting {
    ghost use Rattle.cc_board.specs.View.{joined_view, spent};

    ghost both = { joined_view };

    ghost spent = { spent };
}

/// Names the run that a board is of.
pub trait Naming<D, L> {
    ghost use Rattle.cc_turns.specs.Desk.{Begun};

    ghost begun: { Begun D L };
}

impl<D, L> Naming<D, L> for Brand {
    ghost use Rattle.cc_board.specs.View.{no_run};

    ghost begun = { no_run };
}

/// A pass learns that it is of its board's run.
pub struct LearnsRun<N> {
    of: PhantomData<N>,
}

impl<D, L, Q, N: Naming<D, L>> Play<Slot<D, L, Q>, View<D, L>> for LearnsRun<N> {
    ghost use Rattle.cc_board.specs.Plays.{LearnsRun};

    ghost then = { LearnsRun N.begun };
}
