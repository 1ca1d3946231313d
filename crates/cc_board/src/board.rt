//! The board: made of a desk, split into passes, joined again, and closed into a desk.

ghost use Rattle.std.specs.Prelude.{◌≡◌, ◌≢◌, ◌↔◌, ◌≤◌, ◌<◌, ◌+◌, suc, length, IfOk, IfErr, IfSome, IfNone, IsErr, IsNone, OnErr, ◌∷◌, replicate, vec_capacity};
ghost use Rattle.std.specs.Mem.Slots.{slots_items, slots_len, IsFull};
ghost use Rattle.cc_entry.specs.declared.error.CcError.TheVariants as error;
ghost use Rattle.cc_turns.specs.Standing.{nothing};
ghost use Rattle.cc_turns.specs.Places.{IsRoomFor};
ghost use Rattle.cc_turns.specs.Desk.{tells_of};
ghost use Rattle.cc_turns.specs.Crash.{IsCrashSafe};
ghost use Rattle.cc_board.specs.Board.{IsOfBoard, IsFirstOf, BoardIsOpened, IsHandedBack, IsSplit, IsClosed, after_join};

use crate::rule::{BoardRule, CountsPasses, DrawsNumber, Key, Parting, Slot, View};
use atomic_table::{Closed, Refused, Seat, Table};
use cc_entry::CcError;
use cc_traits::{LogFile, PageDisk, PostRoutine, Told};
use cc_turns::{Apart, Desk, Emptied, Turns};
use std::alloc::{AllocError, Global};
use std::marker::Model;
use std::snapshot::Snapshot;

/// The turns of one run, which threads share.
pub struct Board<D: Told, L: LogFile, Q: PostRoutine> {
    pub(crate) table: Table<Slot<D, L, Q>, View<D, L>, Key<D, L, Q>, BoardRule<D, L, Q>, Global>,
    pub(crate) streams: u8,
    pub(crate) logs: u8,
}

/// What pass 0 keeps until the board is closed: the desk without what its turns are of.
pub(crate) struct Rest<D: Told, L: LogFile, Q: PostRoutine> {
    pub(crate) emptied: Emptied<D, L>,
    pub(crate) room: Vec<Slot<D, L, Q>>,
}

/// Pass 0 of a board, which makes the other passes and takes them back.
pub struct FirstPass<D: Told, L: LogFile, Q: PostRoutine> {
    seat: Seat<Slot<D, L, Q>, View<D, L>>,
    /// How many passes were joined to it.
    joined: u32,
    /// How many are made at most.
    passes: u16,
    rest: Rest<D, L, Q>,
}

/// A caller's token of a board. It holds no turn.
#[derive(Drop)]
pub struct Pass<D: Told, L: LogFile, Q: PostRoutine> {
    pub(crate) seat: Seat<Slot<D, L, Q>, View<D, L>>,
    pub(crate) number: u32,
    pub(crate) device_turns: u64,
}

/// The board, where some passes were not joined yet.
pub struct StillOut<D: Told, L: LogFile, Q: PostRoutine> {
    pub board: Board<D, L, Q>,
    pub first: FirstPass<D, L, Q>,
    /// How many.
    pub passes: u32,
}

impl<D: Told, L: LogFile, Q: PostRoutine> Model for Board<D, L, Q> {
    ghost use Rattle.std.specs.Prelude.{◌≡◌, ◌≤◌, suc, length};
    ghost use Rattle.cc_turns.specs.Slots.{slots_of};
    ghost use Rattle.cc_board.specs.View.{run_in};
    ghost use Rattle.cc_board.specs.Board.{BoardState};

    ghost Value = { BoardState D L };

    ghost view = { λ b. record { id = b.table.shared.table_id; begun = run_in b.table.shared.key } };

    ghost invariant = { λ b.
        (b.table.shared.table_id.words ≡ suc (slots_of (run_in b.table.shared.key)))
        × (b.table.shared.table_id.slots ≡ slots_of (run_in b.table.shared.key))
        × (b.streams ≡ length (run_in b.table.shared.key).disks)
        × (b.logs ≡ length (run_in b.table.shared.key).logs)
        × (b.streams ≤ 16) × (b.logs ≤ 4) };
}

impl<D: Told, L: LogFile, Q: PostRoutine> Model for FirstPass<D, L, Q> {
    ghost use Rattle.std.specs.Prelude.{◌≡◌, [], length};
    ghost use Rattle.cc_board.specs.Board.{FirstState, PassIsAtRest};
    ghost use Rattle.cc_board.specs.Rest.{IsRestOf};

    ghost Value = { FirstState D L };

    ghost view = { λ f. record { board = f.seat.table_id; knows = f.seat.me.0 } };

    ghost invariant = { λ f.
        (f.seat.me.1 ≡ []) × PassIsAtRest f.seat.me.0
        × (f.seat.me.0.number ≡ 0) × (f.joined ≡ length f.seat.me.0.ended) × (f.passes ≡ f.seat.me.0.passes)
        × IsRestOf f.seat.me.0 f.rest };
}

impl<D: Told, L: LogFile, Q: PostRoutine> Model for Pass<D, L, Q> {
    ghost use Rattle.std.specs.Prelude.{◌≡◌, ◌≢◌, []};
    ghost use Rattle.cc_board.specs.Board.{PassState, PassIsAtRest, PassIsWithin};

    ghost Value = { PassState D L };

    ghost view = { λ p. record { board = p.seat.table_id; knows = p.seat.me.0; device_turns = p.device_turns } };

    ghost invariant = { λ p.
        (p.seat.me.1 ≡ []) × PassIsAtRest p.seat.me.0
        × (p.number ≡ p.seat.me.0.number) × PassIsWithin p.seat.me.0 };
}

// The words of a board with so many turns, each of them free, of which one pass was made.
fn first_words(alloc: Global, turns: usize) -> Result<Vec<u64>, AllocError>
    requires { turns < 1024 }
    ensures { IfOk result (λ words. words.items ≡ 1 ∷ replicate turns 0) }
{
    let mut words = Vec::from_elem(alloc, 0, turns + 1)?;
    words[0] = 1;
    Ok(words)
}

// Takes all out of the slots of a table, in their order.
fn take_out<S>(mut closed: Closed<S, Global>, mut room: Vec<S>) -> Vec<S>
    requires full { IsFull closed.slots }
    requires room { IsRoomFor (slots_len closed.slots) room.items (vec_capacity room) }
    ensures { result.items ≡ slots_items closed.slots }
{
    let mut slot = 0;
    while slot < closed.slot_count() {
        room.push_reserved(closed.take(slot));
        slot += 1;
    }
    closed.free();
    room
}

impl<D: PageDisk, L: LogFile, Q: PostRoutine> Board<D, L, Q> {
    /// The board of a desk, with pass 0, of which so many passes can be split. Where memory is wanting, the desk comes
    /// back.
    pub fn new(
        alloc: Global,
        desk: Desk<D, L, Q>,
        passes: u16,
    ) -> Result<(Board<D, L, Q>, FirstPass<D, L, Q>), (Desk<D, L, Q>, CcError)>
        requires free { desk.held ≡ nothing }
        ensures opened { IfOk result (λ made. BoardIsOpened desk passes made.0 made.1) }
        ensures err { IfErr result (λ back. IsHandedBack desk back.0 × (back.1 ≡ error.NoMemory)) }
    {
        let streams = desk.streams();
        let logs = desk.logs();
        let Ok(words) = first_words(alloc, 2 * usize::from(streams) + usize::from(logs) + 1) else {
            return Err((desk, CcError::NoMemory));
        };
        let journal = Snapshot::of(desk.journal());
        let Apart {
            emptied,
            slots,
            room,
        } = match desk.take_apart(alloc) {
            Ok(apart) => apart,
            Err(desk) => return Err((desk, CcError::NoMemory)),
        };
        let key = Key {
            begun: Snapshot::of(emptied.begun()),
            journal,
            passes: u64::from(passes),
        };
        match Table::new(alloc, words.as_slice(), slots, &key) {
            Ok((table, seat)) => {
                let board = Board {
                    table,
                    streams,
                    logs,
                };
                let first = FirstPass {
                    seat,
                    joined: 0,
                    passes,
                    rest: Rest { emptied, room },
                };
                Ok((board, first))
            }
            Err(Refused { slots }) => {
                room.destroy_empty();
                Err((emptied.put_together(slots), CcError::NoMemory))
            }
        }
    }

    /// Closes the board into a desk, which is refused exactly where another pass was not joined. Of the disks that the
    /// desk then has a crash leaves only what the journal allows, and its logs are durable to what was stamped on each
    /// page as a transfer of it began. It takes no memory.
    pub fn close(self, first: FirstPass<D, L, Q>) -> Result<Desk<D, L, Q>, StillOut<D, L, Q>>
        requires here { IsFirstOf self first }
        ensures closed { IfOk result (λ desk. IsClosed self first desk) }
        ensures crash { IfOk result (λ desk. IsCrashSafe (tells_of D.told D.faults L.told L.faults Q.posted) desk) }
        ensures refused { IsErr result ↔ (suc (length first.knows.ended) < first.knows.made) }
        ensures out { IfErr result (λ still. (still.board ≡ self) × (still.first ≡ first)
            × (suc (length first.knows.ended) + still.passes ≡ first.knows.made)) }
    {
        let mut first = first;
        self.learn(&mut first.seat);
        let made = self.table.shared.load::<CountsPasses>(&mut first.seat, 0);
        let joined = u64::from(first.joined) + 1;
        if joined < made {
            return Err(StillOut {
                board: self,
                first,
                passes: (made - joined) as u32,
            });
        }
        let FirstPass {
            seat,
            joined: _,
            passes: _,
            rest: Rest { emptied, room },
        } = first;
        let Board {
            table,
            streams: _,
            logs: _,
        } = self;
        let desk = emptied.put_together(take_out(table.close_with(seat), room));
        desk.crash_safe();
        Ok(desk)
    }
}

impl<D: Told, L: LogFile, Q: PostRoutine> Board<D, L, Q> {
    /// How many streams have a disk.
    pub fn streams(&self) -> u8
        ensures { result ≡ length self.now.begun.disks }
    {
        self.streams
    }

    /// How many logs there are.
    pub fn logs(&self) -> u8
        ensures { result ≡ length self.now.begun.logs }
    {
        self.logs
    }

    /// Makes a pass, with the next number. `None` comes exactly where as many were made as the board has at most. It
    /// takes no memory.
    pub fn split(&self, first: &mut FirstPass<D, L, Q>) -> Option<Pass<D, L, Q>>
        requires here { IsFirstOf self.now first.old }
        ensures none { IsNone result ↔ (first.old.knows.passes < first.old.knows.made) }
        ensures kept { IfNone result (first.new ≡ first.old) }
        ensures made { IfSome result (λ made. IsSplit first.old first.new made) }
    {
        let made = self.table.shared.load::<CountsPasses>(&mut first.seat, 0);
        if u64::from(first.passes) < made {
            return None;
        }
        self.table
            .shared
            .store::<DrawsNumber>(&mut first.seat, 0, made + 1);
        let seat = self.table.shared.split_seat::<Parting>(&mut first.seat);
        Some(Pass {
            seat,
            number: made as u32,
            device_turns: 0,
        })
    }

    /// Takes a pass back.
    pub fn join(&self, first: &mut FirstPass<D, L, Q>, other: Pass<D, L, Q>)
        requires here { IsFirstOf self.now first.old }
        requires other_here { IsOfBoard self.now other }
        ensures { first.new ≡ after_join first.old other }
    {
        let Pass {
            seat,
            number: _,
            device_turns: _,
        } = other;
        self.table
            .shared
            .join_seat::<Parting>(&mut first.seat, seat);
        // The count shows how many there are to join at most.
        self.table.shared.load::<CountsPasses>(&mut first.seat, 0);
        first.joined += 1;
    }
}
