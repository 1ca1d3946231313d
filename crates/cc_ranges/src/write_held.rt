//! The noncached write of a page, with the disk and the book of its stream in hand.

ghost use Rattle.std.specs.Prelude.{◌≡◌, ◌<◌, List, OnOk};
ghost use Rattle.cc_entry.specs.declared.call.Call.TheVariants as call;
ghost use Rattle.cc_entry.specs.declared.entry.Entry.{Entry};
ghost use Rattle.cc_writes.specs.Calls.{IsFullWriting};
ghost use Rattle.cc_writes.specs.Hands.{Went};
ghost use Rattle.cc_writes.specs.Writes.{HasBoth};
ghost use Rattle.cc_ranges.specs.Ends.{IsTidyEnd};
ghost use Rattle.cc_ranges.specs.Stores.{IsFullStoring};
ghost use Rattle.cc_ranges.specs.WriteHeld.{IsFullWriteRound, WriteIsNearer, IsReadyAfter, WriteOfPageLeft, RoomLeft, WriteRoundLeft, RoundReady, write_round_of};
ghost use Rattle.cc_ranges.specs.WriteVisits.{WriteIsUnderWay};
ghost use Rattle.cc_ranges.specs.ReadVisits.{file_page};

use crate::pages::put_page;
use crate::write_visits::{WriteStep, next_write_step};
use cc_book::Book;
use cc_entry::{Call, CcError, FileId, PageId};
use cc_turns::Turns;
use cc_writes::{LogFlush, Rounds, fail_at, flush_log, write_for};
use std::alloc::Global;

// How the write of a page stands after a round.
#[derive(Drop)]
enum Round {
    Ended(CcError),
    Ready,
    GoesOn,
}

/// Writes a page of a stream into its cache and to its disk, and answers how many bytes the store changed, which is cut
/// at the size. Room is made for the page's block first.
///
/// `NotCached`, `BeyondSize`, `BeyondValid`, `Busy`, `NoViews`, `WriteFault` (of the page, or of one that was written to
/// make room), `LogFault`, `JournalFull`, `NoMemory`.
pub(crate) fn write_held<T: Turns>(
    alloc: Global,
    turns: &mut T,
    disk: &mut T::Disk,
    book: Book,
    file: FileId,
    page: u64,
    bytes: &[u8; 4096],
) -> (Book, Result<usize, CcError>)
    requires known { book.stream < (T.standing turns.old).streams }
    requires stream { book.stream ≡ file.stream }
    requires both { HasBoth T.Disk.told T.Disk.faults (T.standing turns.old) book.stream book disk.old }
    requires none { (T.standing turns.old).in_flight ≡ 0 }
    ensures both { HasBoth T.Disk.told T.Disk.faults (T.standing turns.new) book.stream result.0 disk.new }
    ensures went { Went (T.standing turns.old) (T.standing turns.new) }
    ensures left { (begun : List Entry) →
        WriteIsUnderWay (T.standing turns.old).number file page begun (T.standing turns.old).seen →
        WriteOfPageLeft (T.standing turns.old).setup (T.standing turns.old).number file page bytes.now result.1
        begun (T.standing turns.new).seen }
    ensures full { IsFullStoring file (file_page file page) (T.standing turns.new) result.1 }
    ensures tidy { OnOk result.1 (IsTidyEnd (T.standing turns.old).setup (T.standing turns.old).most_others
        (T.standing turns.old).number file (file_page file page) (T.standing turns.old).seen (T.standing turns.new).seen) }
{
    let (book, room) = make_room(alloc, turns, disk, book, file, page);
    match room {
        Ok(()) => write_ready(alloc, turns, disk, book, file, page, bytes),
        Err(error) => (book, Err(error)),
    }
}

// Goes on in rounds, until the page is ready to be stored. The dirty pages of the block that is given up are written with
// the book free once at most, and then with the book kept: each round leaves fewer transfers that may be made with the book
// free, or less to do.
fn make_room<T: Turns>(
    alloc: Global,
    turns: &mut T,
    disk: &mut T::Disk,
    mut book: Book,
    file: FileId,
    page: u64,
) -> (Book, Result<(), CcError>)
    requires known { book.stream < (T.standing turns.old).streams }
    requires stream { book.stream ≡ file.stream }
    requires both { HasBoth T.Disk.told T.Disk.faults (T.standing turns.old) book.stream book disk.old }
    requires none { (T.standing turns.old).in_flight ≡ 0 }
    ensures both { HasBoth T.Disk.told T.Disk.faults (T.standing turns.new) book.stream result.0 disk.new }
    ensures went { Went (T.standing turns.old) (T.standing turns.new) }
    ensures left { (begun : List Entry) →
        WriteIsUnderWay (T.standing turns.old).number file page begun (T.standing turns.old).seen →
        RoomLeft (T.standing turns.old).setup (T.standing turns.old).number file page result.1
        begun (T.standing turns.new).seen }
    ensures ready { OnOk result.1 (IsReadyAfter (T.standing turns.new) file page) }
    ensures full { IsFullWriting (call.NcWrite file page) (T.standing turns.new) result.1 }
{
    let mut rounds = Rounds::new();
    'pages: loop {
        let (now, came) = advance(alloc, turns, disk, book, file, page, &mut rounds);
        book = now;
        match came {
            Round::Ended(error) => return (book, Err(error)),
            Round::Ready => return (book, Ok(())),
            Round::GoesOn => {}
        }
    }
}

// One round: the next step, with the writing of the page that it asks for.
fn advance<T: Turns>(
    alloc: Global,
    turns: &mut T,
    disk: &mut T::Disk,
    mut book: Book,
    file: FileId,
    page: u64,
    rounds: &mut Rounds,
) -> (Book, Round)
    requires known { book.stream < (T.standing turns.old).streams }
    requires stream { book.stream ≡ file.stream }
    requires both { HasBoth T.Disk.told T.Disk.faults (T.standing turns.old) book.stream book disk.old }
    requires none { (T.standing turns.old).in_flight ≡ 0 }
    ensures both { HasBoth T.Disk.told T.Disk.faults (T.standing turns.new) book.stream result.0 disk.new }
    ensures went { Went (T.standing turns.old) (T.standing turns.new) }
    ensures left { (begun : List Entry) →
        WriteIsUnderWay (T.standing turns.old).number file page begun (T.standing turns.old).seen →
        WriteRoundLeft (T.standing turns.old).setup (T.standing turns.old).number file page result.1
        begun (T.standing turns.new).seen }
    ensures ready { RoundReady (T.standing turns.new) file page result.1 }
    ensures nearer { WriteIsNearer file page result.1 rounds.old rounds.new
        (T.standing turns.old).seen (T.standing turns.new).seen }
    ensures full { IsFullWriteRound file page (T.standing turns.new) result.1 }
{
    match next_write_step(alloc, turns, &mut book, file, page) {
        WriteStep::Ended(error) => (book, Round::Ended(error)),
        WriteStep::Ready => (book, Round::Ready),
        WriteStep::GoesOn => (book, Round::GoesOn),
        WriteStep::Writes(dirty) => {
            let keeps = rounds.keeps_for_write(dirty);
            let call = Call::NcWrite { file, page };
            let (book, written) = write_for(alloc, turns, disk, book, call, dirty, keeps);
            (book, round_of(written))
        }
    }
}

// How the write stands for which a page was written, or failed.
fn round_of(written: Result<Call, CcError>) -> Round
    ensures { result ≡ write_round_of written }
{
    match written {
        Ok(_) => Round::GoesOn,
        Err(error) => Round::Ended(error),
    }
}

// Writes a page that is ready to be stored: its log is flushed first, up to the newest LSN that is stamped on it.
fn write_ready<T: Turns>(
    alloc: Global,
    turns: &mut T,
    disk: &mut T::Disk,
    mut book: Book,
    file: FileId,
    page: u64,
    bytes: &[u8; 4096],
) -> (Book, Result<usize, CcError>)
    requires known { book.stream < (T.standing turns.old).streams }
    requires stream { book.stream ≡ file.stream }
    requires both { HasBoth T.Disk.told T.Disk.faults (T.standing turns.old) book.stream book disk.old }
    requires none { (T.standing turns.old).in_flight ≡ 0 }
    requires ready { IsReadyAfter (T.standing turns.old) file page }
    ensures both { HasBoth T.Disk.told T.Disk.faults (T.standing turns.new) book.stream result.0 disk.new }
    ensures went { Went (T.standing turns.old) (T.standing turns.new) }
    ensures left { (begun : List Entry) →
        WriteIsUnderWay (T.standing turns.old).number file page begun (T.standing turns.old).seen →
        WriteOfPageLeft (T.standing turns.old).setup (T.standing turns.old).number file page bytes.now result.1
        begun (T.standing turns.new).seen }
    ensures full { IsFullStoring file (file_page file page) (T.standing turns.new) result.1 }
    ensures tidy { OnOk result.1 (IsTidyEnd (T.standing turns.old).setup (T.standing turns.old).most_others
        (T.standing turns.old).number file (file_page file page) (T.standing turns.old).seen (T.standing turns.new).seen) }
{
    let stored = PageId::new(file.stream(), page).unwrap();
    match flush_log(turns, &book, stored) {
        Ok(LogFlush::Reached) => put_page(alloc, turns, disk, book, file, stored, bytes),
        Ok(LogFlush::Failed(handle)) => {
            let handle = u64::from(handle);
            let fault = CcError::LogFault { handle };
            let call = Call::NcWrite { file, page };
            let error = fail_at(alloc, turns, &mut book, call, fault);
            (book, Err(error))
        }
        Err(error) => (book, Err(error)),
    }
}
