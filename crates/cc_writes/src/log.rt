//! The log of a page that is to be written, and what the calls on a log need of it.

ghost use Rattle.std.specs.Prelude.{◌≡◌, ◌<◌, false, None, Some};
ghost use Rattle.cc_model.specs.Good.{IsGood};
ghost use Rattle.cc_model.specs.History.{history};
ghost use Rattle.cc_model.specs.Images.{open_of};
ghost use Rattle.cc_model.specs.Settings.{log_of};
ghost use Rattle.cc_model.specs.Stamps.{is_unstamped};
ghost use Rattle.cc_turns.specs.Log.{LogStands};
ghost use Rattle.cc_turns.specs.Takes.{Grows};
ghost use Rattle.cc_writes.specs.Hands.{HasBook, IsAtRest, Went, WentWith};
ghost use Rattle.cc_writes.specs.Visits.{HasPlaced};
ghost use Rattle.cc_writes.specs.Ways.{IsFull};
ghost use Rattle.cc_writes.specs.Logs.{FlushLeft, FlushToLsnLeft, NewestLeft, ReservedLeft, MayLog, HoldsBoth, newest_later_in};

use cc_book::Book;
use cc_dirty::Row;
use cc_entry::{CcError, Entry, Lsn, PageId};
use cc_journal::Journal;
use cc_log::LogTurn;
use cc_turns::Turns;

/// How the flush of a log ended.
#[derive(Clone, Copy)]
pub enum LogFlush {
    /// The log is flushed to the LSN, or there is none to flush to.
    Reached,
    /// The log of this handle failed.
    Failed(u8),
}

/// Flushes the log of a page's stream to the newest LSN that is stamped on the page and not yet written, where there
/// are such a log and such an LSN, and the log was not flushed so far.
///
/// `JournalFull`, `NoMemory`.
pub fn flush_log<T: Turns>(turns: &mut T, book: &Book, page: PageId) -> Result<LogFlush, CcError>
    requires book { HasBook (T.standing turns.old) page.stream book.now }
    requires rest { IsAtRest (T.standing turns.old) page.stream }
    requires none { (T.standing turns.old).in_flight ≡ 0 }
    requires stamped { is_unstamped (history (T.standing turns.old).seen page.stream) page.page ≡ false }
    ensures book { HasBook (T.standing turns.new) page.stream book.now }
    ensures went { Went (T.standing turns.old) (T.standing turns.new) }
    ensures left { FlushLeft (T.standing turns.old) page result (T.standing turns.new).seen }
    ensures full { IsFull 1 (T.standing turns.new) result }
{
    match book.log() {
        Some(handle) => flush_of(turns, page, handle),
        None => Ok(LogFlush::Reached),
    }
}

// Flushes the log of this handle, which is the log of the page's stream.
fn flush_of<T: Turns>(turns: &mut T, page: PageId, handle: u8) -> Result<LogFlush, CcError>
    requires held { HoldsBoth (T.standing turns.old) page.stream }
    requires rest { open_of (history (T.standing turns.old).seen page.stream) ≡ None }
    requires none { (T.standing turns.old).in_flight ≡ 0 }
    requires stamped { is_unstamped (history (T.standing turns.old).seen page.stream) page.page ≡ false }
    requires log { log_of (history (T.standing turns.old).seen page.stream) ≡ Some handle }
    requires known { handle < (T.standing turns.old).setup.logs }
    ensures good { IsGood (T.standing turns.new).setup (T.standing turns.new).seen }
    ensures went { Went (T.standing turns.old) (T.standing turns.new) }
    ensures left { FlushLeft (T.standing turns.old) page result (T.standing turns.new).seen }
    ensures full { IsFull 1 (T.standing turns.new) result }
{
    match newest_at(turns, page) {
        Ok(Some(to)) => flush_to(turns, handle, to),
        Ok(None) => Ok(LogFlush::Reached),
        Err(error) => Err(error),
    }
}

// The newest LSN of a page, where it has one, with a place reserved for the entry of its log's flush.
fn newest_at<T: Turns>(turns: &mut T, page: PageId) -> Result<Option<Lsn>, CcError>
    requires away { (T.standing turns.old).held.journal ≡ false }
    requires rest { IsAtRest (T.standing turns.old) page.stream }
    requires none { (T.standing turns.old).in_flight ≡ 0 }
    ensures good { IsGood (T.standing turns.new).setup (T.standing turns.new).seen }
    ensures grows { Grows (T.standing turns.old) (T.standing turns.new).seen }
    ensures left { NewestLeft (T.standing turns.old) page result (T.standing turns.new) }
    ensures full { IsFull 1 (T.standing turns.new) result }
{
    let mut journal = turns.take_journal();
    let newest = newest_reserved(&mut journal, page);
    turns.give_journal(journal);
    newest
}

// The newest LSN of a page of which no transfer is under way, where it has one, with a place reserved.
fn newest_reserved<Q>(journal: &mut Journal<Q>, page: PageId) -> Result<Option<Lsn>, CcError>
    requires rest { open_of (history journal.old.entries page.stream) ≡ None }
    ensures { ReservedLeft page result journal.old journal.new }
{
    match newest_later(journal.dirty().row_of(page)) {
        Some(newest) => match journal.reserve(1) {
            Ok(()) => Ok(Some(newest)),
            Err(error) => Err(error),
        },
        None => Ok(None),
    }
}

// The newest LSN of what was touched of a row's page since its last transfer began.
fn newest_later(row: Option<Row>) -> Option<Lsn>
    ensures { result ≡ newest_later_in row }
{
    row?.later.lsns.map(|lsns| lsns.1)
}

/// Flushes a log to an LSN, where it was not flushed so far. The place that is reserved for its entry is used, or given
/// back.
///
/// `NoMemory`.
pub fn flush_to<T: Turns>(turns: &mut T, handle: u8, to: Lsn) -> Result<LogFlush, CcError>
    requires known { handle < (T.standing turns.old).setup.logs }
    requires no_log { (T.standing turns.old).held.log ≡ None }
    requires away { (T.standing turns.old).held.journal ≡ false }
    requires reserved { (T.standing turns.old).in_flight ≡ 1 }
    ensures good { IsGood (T.standing turns.new).setup (T.standing turns.new).seen }
    ensures went { WentWith 0 (T.standing turns.old) (T.standing turns.new) }
    ensures left { FlushToLsnLeft (T.standing turns.old) handle to result (T.standing turns.new).seen }
{
    let mut log = turns.take_log(handle);
    let flushed = flush_in_hand(turns, &mut log, handle, to);
    turns.give_log(handle, log);
    flushed
}

// The same of a log whose turn is held.
fn flush_in_hand<T: Turns>(
    turns: &mut T,
    log: &mut LogTurn<T::Log>,
    handle: u8,
    to: Lsn,
) -> Result<LogFlush, CcError>
    requires held { (T.standing turns.old).held.log ≡ Some handle }
    requires away { (T.standing turns.old).held.journal ≡ false }
    requires reserved { (T.standing turns.old).in_flight ≡ 1 }
    requires handle { log.old.handle ≡ handle }
    requires stands { LogStands T.Log.told T.Log.faults ((T.standing turns.old).logs handle)
        (T.standing turns.old).seen log.old }
    ensures good { IsGood (T.standing turns.new).setup (T.standing turns.new).seen }
    ensures went { WentWith 0 (T.standing turns.old) (T.standing turns.new) }
    ensures left { FlushToLsnLeft (T.standing turns.old) handle to result (T.standing turns.new).seen }
    ensures handle { log.new.handle ≡ handle }
    ensures stands { LogStands T.Log.told T.Log.faults ((T.standing turns.new).logs handle)
        (T.standing turns.new).seen log.new }
{
    if to.number() <= log.flushed() {
        give_back(turns);
        return Ok(LogFlush::Reached);
    }
    let pass = turns.me();
    match log.flush(to) {
        Ok(()) => {
            place(turns, Entry::Flushed { pass, handle, to });
            Ok(LogFlush::Reached)
        }
        Err(error) => match error {
            CcError::LogFault { .. } => {
                place(turns, Entry::LogFailed { pass, handle });
                Ok(LogFlush::Failed(handle))
            }
            _ => {
                give_back(turns);
                Err(error)
            }
        },
    }
}

/// Places an entry of the log whose turn is held, for which a place is reserved.
pub fn place<T: Turns>(turns: &mut T, entry: Entry)
    requires away { (T.standing turns.old).held.journal ≡ false }
    requires reserved { (T.standing turns.old).in_flight ≡ 1 }
    requires may { MayLog (T.standing turns.old) entry }
    ensures good { IsGood (T.standing turns.new).setup (T.standing turns.new).seen }
    ensures went { WentWith 0 (T.standing turns.old) (T.standing turns.new) }
    ensures placed { HasPlaced (T.standing turns.old) entry (T.standing turns.new).seen }
{
    let mut journal = turns.take_journal();
    journal.push(entry);
    turns.give_journal(journal);
}

/// Gives a place back that is reserved.
pub fn give_back<T: Turns>(turns: &mut T)
    requires away { (T.standing turns.old).held.journal ≡ false }
    requires reserved { (T.standing turns.old).in_flight ≡ 1 }
    ensures good { IsGood (T.standing turns.new).setup (T.standing turns.new).seen }
    ensures went { WentWith 0 (T.standing turns.old) (T.standing turns.new) }
    ensures grows { Grows (T.standing turns.old) (T.standing turns.new).seen }
{
    let mut journal = turns.take_journal();
    journal.release(1);
    turns.give_journal(journal);
}
