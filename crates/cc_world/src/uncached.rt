//! A noncached read or store of a page, for which the disk is used.

ghost use Rattle.std.specs.Prelude.{◌≡◌, ◌<◌, ◌^◌, ℕ, ◌||◌, is_none, List, Option, Some};
ghost use Rattle.cc_entry.specs.declared.call.Call.TheVariants as call;
ghost use Rattle.cc_entry.specs.declared.entry.Entry.{Entry};
ghost use Rattle.cc_model.specs.History.{history};
ghost use Rattle.cc_model.specs.Images.{open_of};
ghost use Rattle.cc_model.specs.Residency.{is_resident};
ghost use Rattle.cc_model.specs.Setup.{Setup};
ghost use Rattle.cc_turns.specs.Disk.{opening_of};
ghost use Rattle.cc_turns.specs.Standing.{DiskAtFirst};
ghost use Rattle.cc_world.specs.Pages.{AreFlushed};
ghost use Rattle.cc_world.specs.Rows.{IsStanding, RowEnded, RowLeft, RowStands, StandsUnder};
ghost use Rattle.cc_book.specs.Noncached.{WasRead};
ghost use Rattle.cc_world.specs.Uncached.{IsAdmittedOn, IsReadyOn, StoreEventLeft};
ghost use Rattle.cc_effects.specs.Events.{filed_under};
ghost use Rattle.cc_effects.specs.declared.events.Event.TheVariants as event;

use crate::ends::refuse;
use crate::page_bytes::{finish_read, image_of};
use crate::pages::may_store;
use crate::rows::{BegunTransfer, StreamRow};
use cc_effects::StepReply;
use cc_entry::{Bytes, Call, CcError, Entry, FileId, NoMemory, PageId, Reply, StreamId};
use cc_journal::Journal;
use cc_log::LogTurn;
use cc_traits::{LogFile, PageDisk, Stop};
use cc_turns::read;
use std::alloc::Global;

impl<D: PageDisk> StreamRow<D> {
    /// A noncached read of a page ends, which is filed under the row's stream.
    pub(crate) fn read_uncached<Q>(
        &mut self,
        alloc: Global,
        journal: &mut Journal<Q>,
        pass: u32,
        file: FileId,
        page: u64,
    ) -> StepReply<Q>
        requires filed { filed_under journal.old.entries (call.NcRead file page) ≡ Some self.old.book.stream }
        requires standing { IsStanding D.told D.faults 0 self.old journal.old }
        ensures { (u : Setup) (first : DiskAtFirst) → StandsUnder D.told D.faults u first 0 self.old journal.old →
            RowLeft D.told D.faults u first (event.Do pass (call.NcRead file page)) result
            self.old self.new journal.old journal.new }
    {
        let call = Call::NcRead { file, page };
        match self.book.refusal(alloc, journal, &call) {
            Ok(None) => self.read_admitted(alloc, journal, pass, file, page),
            Ok(Some(error)) => refuse(&mut self.book, journal, pass, call, error),
            Err(NoMemory) => StepReply::Refused(CcError::NoMemory),
        }
    }

    // Reads a page where nothing refuses it, and it may be read now.
    fn read_admitted<Q>(
        &mut self,
        alloc: Global,
        journal: &mut Journal<Q>,
        pass: u32,
        file: FileId,
        page: u64,
    ) -> StepReply<Q>
        requires { (u : Setup) × (first : DiskAtFirst)
            × IsAdmittedOn D.told D.faults u first 0 (call.NcRead file page) self.old journal.old }
        ensures { (u : Setup) (first : DiskAtFirst) →
            IsAdmittedOn D.told D.faults u first 0 (call.NcRead file page) self.old journal.old →
            RowLeft D.told D.faults u first (event.Do pass (call.NcRead file page)) result
            self.old self.new journal.old journal.new }
    {
        if !self.may_read(page) {
            return StepReply::NotNow;
        }
        match journal.reserve(1) {
            Ok(()) => self.read_ready(alloc, journal, pass, file, page),
            Err(error) => StepReply::Refused(error),
        }
    }

    // Whether a page may be read now: it is resident, or no transfer is open.
    fn may_read(&self, page: u64) -> bool
        ensures { (opening : Option (ℕ → List ℕ)) (first : DiskAtFirst) (past : List Entry) →
            RowStands D.told D.faults opening first past self.now →
            let h = history past self.now.book.stream in result ≡ (is_resident h page || is_none (open_of h)) }
    {
        match &self.kept {
            None => true,
            Some(_) => self.book.page(page).is_some(),
        }
    }

    // Reads a page that may be read now, and for whose entry a place is reserved. The disk is read where the page starts
    // below the size.
    fn read_ready<Q>(
        &mut self,
        alloc: Global,
        journal: &mut Journal<Q>,
        pass: u32,
        file: FileId,
        page: u64,
    ) -> StepReply<Q>
        requires { (u : Setup) × (first : DiskAtFirst)
            × IsReadyOn D.told D.faults u first 1 pass (call.NcRead file page) self.old journal.old }
        ensures { (u : Setup) (first : DiskAtFirst) →
            IsReadyOn D.told D.faults u first 1 pass (call.NcRead file page) self.old journal.old →
            RowEnded D.told D.faults u first (event.Do pass (call.NcRead file page)) result
            self.old self.new journal.old journal.new }
    {
        let mut raw = [0; 4096];
        if self.book.size().div_ceil(4096) <= page {
            return self.end_read(alloc, journal, pass, file, page, &raw);
        }
        match read(&mut self.disk, page, &mut raw) {
            Ok(()) => self.end_read(alloc, journal, pass, file, page, &raw),
            Err(Stop::Failed) => {
                let page = page_id(self.book.stream(), page);
                journal.push(Entry::FillFailed { pass, page });
                StepReply::Faulted
            }
            Err(Stop::NoMemory) => {
                journal.release(1);
                StepReply::Refused(CcError::NoMemory)
            }
        }
    }

    // Ends the read of a page that may end now, and for whose entry a place is reserved. Where the page starts below the
    // size, this was read of it from the disk.
    fn end_read<Q>(
        &mut self,
        alloc: Global,
        journal: &mut Journal<Q>,
        pass: u32,
        file: FileId,
        page: u64,
        raw: &[u8; 4096],
    ) -> StepReply<Q>
        requires { (u : Setup) × (first : DiskAtFirst)
            × IsReadyOn D.told D.faults u first 1 pass (call.NcRead file page) self.old journal.old
            × WasRead (opening_of first.told) (history journal.old.entries self.old.book.stream) page raw.now }
        ensures { (u : Setup) (first : DiskAtFirst) →
            IsReadyOn D.told D.faults u first 1 pass (call.NcRead file page) self.old journal.old →
            WasRead (opening_of first.told) (history journal.old.entries self.old.book.stream) page raw.now →
            RowEnded D.told D.faults u first (event.Do pass (call.NcRead file page)) result
            self.old self.new journal.old journal.new }
    {
        match finish_read(alloc, &mut self.book, journal, pass, file, page, raw) {
            Ok(reply) => StepReply::Done(reply),
            Err(NoMemory) => {
                journal.release(1);
                StepReply::Refused(CcError::NoMemory)
            }
        }
    }

    /// A noncached store of a page ends, which is filed under the row's stream, and the page's transfer begins.
    pub(crate) fn store_uncached<L: LogFile, Q>(
        &mut self,
        alloc: Global,
        logs: &[LogTurn<L>],
        journal: &mut Journal<Q>,
        pass: u32,
        file: FileId,
        page: u64,
        bytes: Bytes,
    ) -> StepReply<Q>
        requires filed { filed_under journal.old.entries (call.NcStore file page bytes) ≡ Some self.old.book.stream }
        requires standing { IsStanding D.told D.faults 0 self.old journal.old }
        requires logs { AreFlushed self.old.book.stream journal.old.entries logs.now }
        ensures { (u : Setup) (first : DiskAtFirst) → StandsUnder D.told D.faults u first 0 self.old journal.old →
            RowLeft D.told D.faults u first (event.Do pass (call.NcStore file page bytes)) result
            self.old self.new journal.old journal.new }
    {
        // A store is refused as the write is that it belongs to.
        let write = Call::NcWrite { file, page };
        match self.book.refusal(alloc, journal, &write) {
            Ok(None) => self.store_admitted(alloc, logs, journal, pass, file, page, bytes),
            Ok(Some(error)) => {
                let call = Call::NcStore { file, page, bytes };
                refuse(&mut self.book, journal, pass, call, error)
            }
            Err(NoMemory) => StepReply::Refused(CcError::NoMemory),
        }
    }

    // Stores a page where nothing refuses it, and it may be stored now.
    fn store_admitted<L: LogFile, Q>(
        &mut self,
        alloc: Global,
        logs: &[LogTurn<L>],
        journal: &mut Journal<Q>,
        pass: u32,
        file: FileId,
        page: u64,
        bytes: Bytes,
    ) -> StepReply<Q>
        requires may { (u : Setup) × (first : DiskAtFirst)
            × IsAdmittedOn D.told D.faults u first 0 (call.NcStore file page bytes) self.old journal.old }
        requires logs { AreFlushed self.old.book.stream journal.old.entries logs.now }
        ensures { (u : Setup) (first : DiskAtFirst) →
            IsAdmittedOn D.told D.faults u first 0 (call.NcStore file page bytes) self.old journal.old →
            RowLeft D.told D.faults u first (event.Do pass (call.NcStore file page bytes)) result
            self.old self.new journal.old journal.new }
    {
        if self.kept.is_some() {
            return StepReply::NotNow;
        }
        let page = page_id(self.book.stream(), page);
        if !may_store(&self.book, logs, journal, page, &bytes) {
            return StepReply::NotNow;
        }
        match journal.reserve(4) {
            Ok(()) => self.store_ready(alloc, journal, pass, file, page, bytes),
            Err(error) => StepReply::Refused(error),
        }
    }

    // Stores a page that may be stored now, and begins its transfer. Places are reserved for both entries, and for the ends
    // of the transfer and of the write.
    fn store_ready<Q>(
        &mut self,
        alloc: Global,
        journal: &mut Journal<Q>,
        pass: u32,
        file: FileId,
        page: PageId,
        bytes: Bytes,
    ) -> StepReply<Q>
        requires stream { page.stream ≡ self.old.book.stream }
        requires may { (u : Setup) × (first : DiskAtFirst)
            × IsReadyOn D.told D.faults u first 4 pass (call.NcStore file page.page bytes) self.old journal.old }
        ensures { (u : Setup) (first : DiskAtFirst) →
            IsReadyOn D.told D.faults u first 4 pass (call.NcStore file page.page bytes) self.old journal.old →
            RowEnded D.told D.faults u first (event.Do pass (call.NcStore file page.page bytes)) result
            self.old self.new journal.old journal.new }
    {
        match self.store(alloc, journal, pass, file, page, bytes) {
            Ok(()) => StepReply::Done(Reply::Unit),
            Err(NoMemory) => {
                journal.release(4);
                StepReply::Refused(CcError::NoMemory)
            }
        }
    }

    // Stores a page, and keeps the bytes that go to the disk. The place is given back of the end of another write that the
    // pass owed.
    fn store<Q>(
        &mut self,
        alloc: Global,
        journal: &mut Journal<Q>,
        pass: u32,
        file: FileId,
        page: PageId,
        bytes: Bytes,
    ) -> Result<(), NoMemory>
        requires stream { page.stream ≡ self.old.book.stream }
        requires may { (u : Setup) × (first : DiskAtFirst)
            × IsReadyOn D.told D.faults u first 4 pass (call.NcStore file page.page bytes) self.old journal.old }
        ensures { (u : Setup) (first : DiskAtFirst) →
            IsReadyOn D.told D.faults u first 4 pass (call.NcStore file page.page bytes) self.old journal.old →
            StoreEventLeft D.told D.faults u first pass (call.NcStore file page.page bytes) result
            self.old self.new journal.old journal.new }
    {
        let image = image_of(alloc, &self.book, page, &bytes)?;
        let owed = journal.owed_end(pass);
        self.book.store(alloc, journal, pass, file, page, bytes)?;
        journal.release(owed);
        self.kept = Some(BegunTransfer {
            pass,
            page,
            bytes: image,
        });
        Ok(())
    }
}

// A page of a stream.
fn page_id(stream: StreamId, page: u64) -> PageId
    requires { page < 2 ^ 51 }
    ensures { result ≡ record { stream = stream; page = page } }
{
    PageId::new(stream, page).unwrap()
}
