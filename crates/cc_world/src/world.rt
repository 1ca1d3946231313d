//! The machine over which events happen, and what is kept of the entries that went by.

ghost use Rattle.std.specs.Prelude.{◌≡◌, ◌<◌, ◌^◌, IfOk, IfErr, length, map, reverse};
ghost use Rattle.cc_entry.specs.declared.error.CcError.TheVariants as error;
ghost use Rattle.cc_journal.specs.Capacity.{IsWithinCapacity};
ghost use Rattle.cc_journal.specs.Queue.{routines_of};
ghost use Rattle.cc_model.specs.Good.{IsGood};
ghost use Rattle.cc_model.specs.Throttle.{queue};
ghost use Rattle.cc_turns.specs.Desk.{made_from, tells_of};
ghost use Rattle.cc_effects.specs.Events.{IsKnown, IsUnposted};
ghost use Rattle.cc_turns.specs.Crash.{DisksAreCrashSafe, LogsAreDurable};
ghost use Rattle.cc_world.specs.Crash.{disks_in, files_in};
ghost use Rattle.cc_world.specs.World.{WorldDisksEnded, WorldIsFresh, JournalRests, WorldLogsEnded, WorldEventLeft};
ghost use Rattle.cc_turns.specs.Slots.{setup_in};

use crate::machine::Machine;
use crate::notes::Notes;
use cc_effects::{Event, StepReply};
use cc_entry::{CcError, NoMemory};
use cc_journal::{Journal, Left, Parts};
use cc_traits::{LogFile, PageDisk, PostRoutine, Setup};
use std::alloc::Global;
use std::marker::Model;

/// The cache over the disks and the logs of a setup, to which one event happens after the other. Its journal may be recorded or
/// not.
pub struct World<D: PageDisk, L: LogFile, Q: PostRoutine> {
    alloc: Global,
    machine: Machine<D, L, Q>,
    notes: Notes,
}

impl<D: PageDisk, L: LogFile, Q: PostRoutine> Model for World<D, L, Q> {
    ghost use Rattle.cc_world.specs.Notes.{NotesStand};
    ghost use Rattle.cc_world.specs.World.{WorldState};

    ghost Value = { WorldState D L Q };

    ghost view = { λ w. w.machine };

    ghost invariant = { λ w. NotesStand w.machine.journal.entries w.notes };
}

impl<D: PageDisk, L: LogFile, Q: PostRoutine> World<D, L, Q> {
    /// The World of a run of which nothing happened yet. Where memory is wanting the setup comes back.
    pub fn new(alloc: Global, setup: Setup<D, L>) -> Result<World<D, L, Q>, (Setup<D, L>, CcError)>
        ensures fresh { IfOk result (λ world. WorldIsFresh (made_from setup) world) }
        ensures crash { IfOk result (λ world. DisksAreCrashSafe (tells_of D.told D.faults L.told L.faults Q.posted)
            world.begun.disks world.journal.entries (disks_in world)) }
        ensures logged { IfOk result (λ world. LogsAreDurable (tells_of D.told D.faults L.told L.faults Q.posted)
            world.journal.entries (files_in world)) }
        ensures err { IfErr result (λ back. (back.0 ≡ setup) × (back.1 ≡ error.NoMemory)) }
    {
        match Notes::new(alloc) {
            Ok(notes) => match Machine::new(alloc, setup) {
                Ok(machine) => {
                    machine.crash_safe();
                    Ok(World {
                        alloc,
                        machine,
                        notes,
                    })
                }
                Err(back) => Err(back),
            },
            Err(NoMemory) => Err((setup, CcError::NoMemory)),
        }
    }

    /// Lets an event happen, where the law of entries allows it now. Whatever is replied, a crash leaves behind it of each page
    /// of a disk only what the journal allows, and each log is durable to the newest LSN that a page of its streams had as a
    /// transfer of it began.
    pub fn step(&mut self, event: Event<Q>) -> StepReply<Q>
        requires known { IsKnown (length self.old.begun.disks) event }
        requires unposted { IsUnposted Q.posted event }
        ensures stepped { WorldEventLeft (tells_of D.told D.faults L.told L.faults Q.posted) event result self.old self.new }
        ensures crash { DisksAreCrashSafe (tells_of D.told D.faults L.told L.faults Q.posted)
            self.new.begun.disks self.new.journal.entries (disks_in self.new) }
        ensures logged { LogsAreDurable (tells_of D.told D.faults L.told L.faults Q.posted)
            self.new.journal.entries (files_in self.new) }
    {
        let reply = self.happen(event);
        self.machine.crash_safe();
        reply
    }

    // An event happens, and what came of it is followed. Room for that is made before.
    fn happen(&mut self, event: Event<Q>) -> StepReply<Q>
        requires known { IsKnown (length self.old.begun.disks) event }
        requires unposted { IsUnposted Q.posted event }
        ensures { WorldEventLeft (tells_of D.told D.faults L.told L.faults Q.posted) event result self.old self.new }
    {
        match self.notes.take_room(self.alloc, &self.machine, &event) {
            Ok(unsettled) => {
                let before = self.machine.journal().len();
                let reply = self.machine.step(event, &self.notes);
                self.notes.follow(self.machine.journal(), before, unsettled);
                reply
            }
            Err(NoMemory) => self.machine.refuse(event),
        }
    }

    /// The journal, which is good, has the limits of the setup, has reserved just what its entries owe, and was always within
    /// the capacity.
    pub fn journal(&self) -> &Journal<Q>
        ensures same { result.now ≡ self.now.journal }
        ensures rests { JournalRests (tells_of D.told D.faults L.told L.faults Q.posted) self.now.begun
            self.now.journal }
    {
        self.machine.journal()
    }

    /// Gives all back, where the journal is recorded. It takes no memory.
    pub fn end(self) -> Parts<D, L, Q>
        requires { self.begun.capacity < 2 ^ 32 }
        ensures journal { reverse result.journal.items ≡ self.journal.entries }
        ensures good { IsGood (setup_in (tells_of D.told D.faults L.told L.faults Q.posted) self.begun)
            self.journal.entries }
        ensures within { IsWithinCapacity self.begun.capacity self.journal.entries }
        ensures disks { WorldDisksEnded (tells_of D.told D.faults L.told L.faults Q.posted) self result.disks.items }
        ensures logs { WorldLogsEnded (tells_of D.told D.faults L.told L.faults Q.posted) self result.logs.items }
        ensures crash { DisksAreCrashSafe (tells_of D.told D.faults L.told L.faults Q.posted)
            self.begun.disks self.journal.entries result.disks.items }
        ensures logged { LogsAreDurable (tells_of D.told D.faults L.told L.faults Q.posted)
            self.journal.entries result.logs.items }
        ensures queued { map (λ waiting. waiting.0) result.queued.items
            ≡ map (λ d. d.id) (queue self.journal.entries) }
        ensures routines { result.queued.items ≡ routines_of self.journal.queue }
    {
        let World {
            machine,
            notes: _notes,
            alloc: _,
        } = self;
        let (disks, logs, journal) = machine.into_all();
        let (journal, queued) = journal.end();
        Parts {
            disks,
            logs,
            journal,
            queued,
        }
    }

    /// Gives back all but the entries, whether the journal is recorded or not. It takes no memory.
    pub fn leave(self) -> Left<D, L, Q>
        ensures good { IsGood (setup_in (tells_of D.told D.faults L.told L.faults Q.posted) self.begun)
            self.journal.entries }
        ensures within { IsWithinCapacity self.begun.capacity self.journal.entries }
        ensures disks { WorldDisksEnded (tells_of D.told D.faults L.told L.faults Q.posted) self result.disks.items }
        ensures logs { WorldLogsEnded (tells_of D.told D.faults L.told L.faults Q.posted) self result.logs.items }
        ensures crash { DisksAreCrashSafe (tells_of D.told D.faults L.told L.faults Q.posted)
            self.begun.disks self.journal.entries result.disks.items }
        ensures logged { LogsAreDurable (tells_of D.told D.faults L.told L.faults Q.posted)
            self.journal.entries result.logs.items }
        ensures queued { map (λ waiting. waiting.0) result.queued.items
            ≡ map (λ d. d.id) (queue self.journal.entries) }
        ensures routines { result.queued.items ≡ routines_of self.journal.queue }
    {
        let World {
            machine,
            notes: _notes,
            alloc: _,
        } = self;
        let (disks, logs, journal) = machine.into_all();
        Left {
            disks,
            logs,
            queued: journal.leave(),
        }
    }
}
