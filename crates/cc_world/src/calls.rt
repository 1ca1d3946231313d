//! A call that ends at once: it is refused, or done, or may not end now.

ghost use Rattle.std.specs.Prelude.{◌≡◌, Some};
ghost use Rattle.cc_model.specs.Setup.{Setup};
ghost use Rattle.cc_turns.specs.Standing.{DiskAtFirst};
ghost use Rattle.cc_world.specs.Notes.{NotesStand};
ghost use Rattle.cc_world.specs.Pages.{AreFlushed};
ghost use Rattle.cc_world.specs.Rows.{IsStanding, RowLeft, StandsUnder};
ghost use Rattle.cc_effects.specs.Events.{filed_under};
ghost use Rattle.cc_effects.specs.declared.events.Event.TheVariants as event;

use crate::ends::end_call;
use crate::notes::Notes;
use crate::rows::StreamRow;
use cc_effects::StepReply;
use cc_entry::Call;
use cc_journal::Journal;
use cc_log::LogTurn;
use cc_traits::{LogFile, PageDisk};
use std::alloc::Global;

impl<D: PageDisk> StreamRow<D> {
    /// A call of a pass ends, which is filed under the row's stream.
    pub(crate) fn do_call<L: LogFile, Q>(
        &mut self,
        alloc: Global,
        logs: &[LogTurn<L>],
        journal: &mut Journal<Q>,
        notes: &Notes,
        pass: u32,
        call: Call,
    ) -> StepReply<Q>
        requires filed { filed_under journal.old.entries call ≡ Some self.old.book.stream }
        requires standing { IsStanding D.told D.faults 0 self.old journal.old }
        requires notes { NotesStand journal.old.entries notes.now }
        requires logs { AreFlushed self.old.book.stream journal.old.entries logs.now }
        ensures { (u : Setup) (first : DiskAtFirst) → StandsUnder D.told D.faults u first 0 self.old journal.old →
            RowLeft D.told D.faults u first (event.Do pass call) result self.old self.new journal.old journal.new }
    {
        match call {
            Call::NcRead { file, page } => self.read_uncached(alloc, journal, pass, file, page),
            Call::NcStore { file, page, bytes } => {
                self.store_uncached(alloc, logs, journal, pass, file, page, bytes)
            }
            call => {
                let resting = self.kept.is_none();
                end_call(alloc, &mut self.book, journal, notes, pass, call, resting)
            }
        }
    }
}
