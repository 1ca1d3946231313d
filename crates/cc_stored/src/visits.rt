//! The visits to the journal with a disk in hand: a place is reserved there, and the entry of what the disk did placed.

ghost use Rattle.std.specs.Prelude.{◌≡◌, false};
ghost use Rattle.cc_model.specs.Good.{IsGood};
ghost use Rattle.cc_turns.specs.Takes.{Grows};
ghost use Rattle.cc_writes.specs.Hands.{WentWith};
ghost use Rattle.cc_writes.specs.Visits.{HasPlaced};
ghost use Rattle.cc_writes.specs.Ways.{IsFull};
ghost use Rattle.cc_stored.specs.Stored.{MayNote, ReservedIn, ReservedOne};

use cc_entry::{CcError, Entry};
use cc_journal::Journal;
use cc_turns::Turns;

/// Reserves a place for one entry.
///
/// `JournalFull`, `NoMemory`.
pub(crate) fn reserve_one<T: Turns>(turns: &mut T) -> Result<(), CcError>
    requires away { (T.standing turns.old).held.journal ≡ false }
    requires none { (T.standing turns.old).in_flight ≡ 0 }
    ensures grows { Grows (T.standing turns.old) (T.standing turns.new).seen }
    ensures good { IsGood (T.standing turns.new).setup (T.standing turns.new).seen }
    ensures left { ReservedOne result (T.standing turns.old) (T.standing turns.new) }
    ensures full { IsFull 1 (T.standing turns.new) result }
{
    let mut journal = turns.take_journal();
    let reserved = reserve_in(&mut journal);
    turns.give_journal(journal);
    reserved
}

// The same in a journal in hand.
fn reserve_in<Q>(journal: &mut Journal<Q>) -> Result<(), CcError>
    ensures { ReservedIn result journal.old journal.new }
{
    journal.reserve(1)
}

/// Places the entry of a read, a write or a sync of a disk whose turn is held, for which a place is reserved.
pub(crate) fn place_held<T: Turns>(turns: &mut T, entry: Entry)
    requires away { (T.standing turns.old).held.journal ≡ false }
    requires reserved { (T.standing turns.old).in_flight ≡ 1 }
    requires may { MayNote (T.standing turns.old) entry }
    ensures good { IsGood (T.standing turns.new).setup (T.standing turns.new).seen }
    ensures went { WentWith 0 (T.standing turns.old) (T.standing turns.new) }
    ensures placed { HasPlaced (T.standing turns.old) entry (T.standing turns.new).seen }
{
    let mut journal = turns.take_journal();
    journal.push(entry);
    turns.give_journal(journal);
}
