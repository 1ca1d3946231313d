//! What there is of one stream, and what an event does to it.

ghost use Rattle.std.specs.Prelude.{◌≡◌};
ghost use Rattle.cc_content.specs.Filling.{IsReadFrom};
ghost use Rattle.cc_model.specs.History.{history};
ghost use Rattle.cc_model.specs.Setup.{Setup};
ghost use Rattle.cc_turns.specs.Disk.{opening_of};
ghost use Rattle.cc_turns.specs.Standing.{DiskAtFirst};
ghost use Rattle.cc_world.specs.Pages.{AreFlushed};
ghost use Rattle.cc_world.specs.Rows.{IsBeginning, IsBringing, IsStanding, DiskIsUnread, RowEnded, RowLeft, StandsUnder, reply_to};
ghost use Rattle.cc_effects.specs.declared.events.Event.TheVariants as event;

use crate::pages::{has_valid_byte, may_begin, may_come_in, may_go_out};
use cc_book::Book;
use cc_effects::StepReply;
use cc_entry::{CcError, End, Entry, NoMemory, PageId, Reply, StreamId};
use cc_journal::Journal;
use cc_log::LogTurn;
use cc_pages::Frame;
use cc_traits::{LogFile, PageDisk, Stop};
use cc_turns::{read, sync, transfer};

/// The bytes of a page whose transfer a pass began.
#[derive(Drop)]
pub(crate) struct BegunTransfer {
    pub(crate) pass: u32,
    pub(crate) page: PageId,
    pub(crate) bytes: Frame,
}

/// The disk and the book of a stream, and what is kept of the transfer that is open on the disk.
pub(crate) struct StreamRow<D> {
    pub(crate) disk: D,
    pub(crate) book: Book,
    pub(crate) kept: Option<BegunTransfer>,
}

impl<D: PageDisk> StreamRow<D> {
    /// A page comes in, from the disk where it has a byte below the valid data length; where it has none, nothing is asked
    /// of the disk.
    pub(crate) fn fill<Q>(
        &mut self,
        journal: &mut Journal<Q>,
        pass: u32,
        page: PageId,
    ) -> StepReply<Q>
        requires stream { page.stream ≡ self.old.book.stream }
        requires standing { IsStanding D.told D.faults 0 self.old journal.old }
        ensures left { (u : Setup) (first : DiskAtFirst) → StandsUnder D.told D.faults u first 0 self.old journal.old →
            RowLeft D.told D.faults u first (event.Fill pass page) result self.old self.new journal.old journal.new }
        ensures unread { DiskIsUnread self.old.book page.page self.old.disk self.new.disk }
    {
        if self.kept.is_some() {
            return StepReply::NotNow;
        }
        if !may_come_in(&self.book, page) {
            return StepReply::NotNow;
        }
        match journal.reserve(1) {
            Ok(()) => self.bring(journal, pass, page),
            Err(error) => StepReply::Refused(error),
        }
    }

    // A page comes in that may, and for whose entry a place is reserved.
    fn bring<Q>(&mut self, journal: &mut Journal<Q>, pass: u32, page: PageId) -> StepReply<Q>
        requires stream { page.stream ≡ self.old.book.stream }
        requires standing { IsBringing D.told D.faults page self.old journal.old }
        ensures ended { (u : Setup) (first : DiskAtFirst) → StandsUnder D.told D.faults u first 1 self.old journal.old →
            RowEnded D.told D.faults u first (event.Fill pass page) result
            self.old self.new journal.old journal.new }
        ensures unread { DiskIsUnread self.old.book page.page self.old.disk self.new.disk }
    {
        let mut raw = [0; 4096];
        if !has_valid_byte(&self.book, page) {
            return self.land_read(journal, pass, page, &raw);
        }
        match read(&mut self.disk, page.page(), &mut raw) {
            Ok(()) => self.land_read(journal, pass, page, &raw),
            Err(Stop::Failed) => {
                journal.push(Entry::FillFailed { pass, page });
                StepReply::Faulted
            }
            Err(Stop::NoMemory) => {
                journal.release(1);
                StepReply::Refused(CcError::NoMemory)
            }
        }
    }

    // A page comes in of which this was read, where it has a byte below the valid data length.
    fn land_read<Q>(
        &mut self,
        journal: &mut Journal<Q>,
        pass: u32,
        page: PageId,
        raw: &[u8; 4096],
    ) -> StepReply<Q>
        requires stream { page.stream ≡ self.old.book.stream }
        requires standing { IsBringing D.told D.faults page self.old journal.old }
        ensures ended { (u : Setup) (first : DiskAtFirst) → StandsUnder D.told D.faults u first 1 self.old journal.old →
            IsReadFrom (opening_of first.told) (history journal.old.entries self.old.book.stream) page.page raw.now →
            RowEnded D.told D.faults u first (event.Fill pass page) result
            self.old self.new journal.old journal.new }
        ensures disk { self.new.disk ≡ self.old.disk }
    {
        match self.book.bring_in(journal, pass, page, raw) {
            Ok(()) => StepReply::Done(Reply::Unit),
            Err(NoMemory) => {
                journal.release(1);
                StepReply::Refused(CcError::NoMemory)
            }
        }
    }

    /// A page goes out.
    pub(crate) fn drop_page<Q>(&mut self, journal: &mut Journal<Q>, page: PageId) -> StepReply<Q>
        requires stream { page.stream ≡ self.old.book.stream }
        requires standing { IsStanding D.told D.faults 0 self.old journal.old }
        ensures { (u : Setup) (first : DiskAtFirst) → StandsUnder D.told D.faults u first 0 self.old journal.old →
            RowLeft D.told D.faults u first (event.Drop page) result self.old self.new journal.old journal.new }
    {
        if self.kept.is_some() {
            return StepReply::NotNow;
        }
        if !may_go_out(&self.book, journal, page) {
            return StepReply::NotNow;
        }
        match journal.reserve(1) {
            Ok(()) => {
                self.book.take_out(journal, 1, page);
                StepReply::Done(Reply::Unit)
            }
            Err(error) => StepReply::Refused(error),
        }
    }

    /// The transfer of a page begins, whose bytes are kept until it ends.
    pub(crate) fn begin<L: LogFile, Q>(
        &mut self,
        logs: &[LogTurn<L>],
        journal: &mut Journal<Q>,
        pass: u32,
        page: PageId,
    ) -> StepReply<Q>
        requires stream { page.stream ≡ self.old.book.stream }
        requires standing { IsStanding D.told D.faults 0 self.old journal.old }
        requires logs { AreFlushed self.old.book.stream journal.old.entries logs.now }
        ensures { (u : Setup) (first : DiskAtFirst) → StandsUnder D.told D.faults u first 0 self.old journal.old →
            RowLeft D.told D.faults u first (event.WriteBegin pass page) result self.old self.new
            journal.old journal.new }
    {
        if self.kept.is_some() {
            return StepReply::NotNow;
        }
        if !may_begin(&self.book, logs, journal, page) {
            return StepReply::NotNow;
        }
        match journal.reserve(2) {
            Ok(()) => self.keep(journal, pass, page),
            Err(error) => StepReply::Refused(error),
        }
    }

    // The transfer of a page begins that may, and for which a place is reserved for its begin, and one for its end.
    fn keep<Q>(&mut self, journal: &mut Journal<Q>, pass: u32, page: PageId) -> StepReply<Q>
        requires stream { page.stream ≡ self.old.book.stream }
        requires standing { IsBeginning D.told D.faults page self.old journal.old }
        ensures { (u : Setup) (first : DiskAtFirst) → StandsUnder D.told D.faults u first 2 self.old journal.old →
            RowEnded D.told D.faults u first (event.WriteBegin pass page) result
            self.old self.new journal.old journal.new }
    {
        match self.book.begin(journal, pass, page) {
            Ok(bytes) => {
                self.kept = Some(BegunTransfer { pass, page, bytes });
                StepReply::Done(Reply::Unit)
            }
            Err(NoMemory) => {
                journal.release(2);
                StepReply::Refused(CcError::NoMemory)
            }
        }
    }

    /// The transfer of a page ends: the bytes that were kept are written.
    pub(crate) fn end<Q>(&mut self, journal: &mut Journal<Q>, page: PageId) -> StepReply<Q>
        requires stream { page.stream ≡ self.old.book.stream }
        requires standing { IsStanding D.told D.faults 0 self.old journal.old }
        ensures { (u : Setup) (first : DiskAtFirst) → StandsUnder D.told D.faults u first 0 self.old journal.old →
            RowLeft D.told D.faults u first (event.WriteEnd page) result self.old self.new journal.old journal.new }
    {
        match self.kept.take() {
            Some(kept) => {
                if kept.page.page() == page.page() {
                    let how = transfer(&mut self.disk, page.page(), kept.bytes.bytes());
                    self.book.end(journal, kept.pass, page, how);
                    reply_to(how)
                } else {
                    self.kept = Some(kept);
                    StepReply::NotNow
                }
            }
            None => StepReply::NotNow,
        }
    }

    /// The disk is synced.
    pub(crate) fn sync<Q>(
        &mut self,
        journal: &mut Journal<Q>,
        pass: u32,
        stream: StreamId,
    ) -> StepReply<Q>
        requires stream { stream ≡ self.old.book.stream }
        requires standing { IsStanding D.told D.faults 0 self.old journal.old }
        ensures { (u : Setup) (first : DiskAtFirst) → StandsUnder D.told D.faults u first 0 self.old journal.old →
            RowLeft D.told D.faults u first (event.Sync pass stream) result self.old self.new journal.old journal.new }
    {
        if self.kept.is_some() {
            return StepReply::NotNow;
        }
        match journal.reserve(1) {
            Ok(()) => {
                let how = sync(&mut self.disk);
                journal.push(Entry::Sync { pass, stream, how });
                reply_to(how)
            }
            Err(error) => StepReply::Refused(error),
        }
    }
}

// What is replied to the end of a transfer, or to a sync, that ended so.
fn reply_to<Q>(how: End) -> StepReply<Q>
    ensures { result ≡ reply_to how }
{
    match how {
        End::Good => StepReply::Done(Reply::Unit),
        End::Failed => StepReply::Faulted,
        End::NoMemory => StepReply::Refused(CcError::NoMemory),
    }
}
