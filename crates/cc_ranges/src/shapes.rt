//! The place and the length of a noncached call, and the refusal of one whose are out of order.

ghost use Rattle.std.specs.Prelude.{◌≡◌, ◌<◌, List};
ghost use Rattle.cc_entry.specs.declared.entry.Entry.{Entry};
ghost use Rattle.cc_book.specs.Book.{BookStands};
ghost use Rattle.cc_effects.specs.Noncached.{MisshapenLeft, shape_refusal};
ghost use Rattle.cc_model.specs.Good.{IsGood};
ghost use Rattle.cc_model.specs.History.{history};
ghost use Rattle.cc_model.specs.Setup.{Setup};
ghost use Rattle.cc_step.specs.Step.{MayStep};
ghost use Rattle.cc_writes.specs.Hands.{HasBook, Went};
ghost use Rattle.cc_writes.specs.Ways.{IsFullError};
ghost use Rattle.cc_writes.specs.Fetch.{CanCall, WentOn};
ghost use Rattle.cc_ranges.specs.Shapes.{IsPageOf, IsShape, RefuseLeft, refusal_first};

use cc_book::Book;
use cc_entry::{Call, CcError, FileId};
use cc_journal::Journal;
use cc_turns::Turns;

// The most bytes of a noncached call.
const MOST: u32 = 65_536;

/// Why a place and a length are refused, whatever the file: `TooLong` before `Unaligned`.
pub(crate) fn shape_refusal(at: u64, len: usize) -> Option<CcError>
    ensures { result ≡ shape_refusal at len }
{
    if len > MOST as usize {
        return Some(CcError::TooLong {
            limit: u64::from(MOST),
        });
    }
    if at % 4096 == 0 && len % 4096 == 0 {
        None
    } else {
        Some(CcError::Unaligned)
    }
}

/// Refuses a noncached call whose place or length is out of order, by the entry of its first page: with `NotCached`
/// where its file object has no private map, else with this refusal. Answers which.
///
/// `JournalFull` and `NoMemory`, with no entry.
pub(crate) fn refuse<T: Turns>(turns: &mut T, file: FileId, call: Call, refusal: CcError) -> CcError
    requires can { CanCall (T.standing turns.old) file.stream }
    requires page { IsPageOf file call }
    requires shape { IsShape refusal }
    ensures left { MisshapenLeft (T.standing turns.old).number file call refusal result
        (T.standing turns.old).seen (T.standing turns.new).seen }
    ensures full { IsFullError 1 (T.standing turns.new) result }
    ensures goes_on { WentOn (T.standing turns.old) (T.standing turns.new) }
    ensures good { IsGood (T.standing turns.old).setup (T.standing turns.new).seen }
{
    let stream = file.stream();
    let mut book = turns.take_book(stream);
    let error = refuse_at(turns, &mut book, file, call, refusal);
    turns.give_book(stream, book);
    error
}

// Places the entry of a noncached call that is refused so, or of one whose file object is not cached.
fn refuse_at<T: Turns>(
    turns: &mut T,
    book: &mut Book,
    file: FileId,
    call: Call,
    refusal: CcError,
) -> CcError
    requires book { HasBook (T.standing turns.old) file.stream book.old }
    requires none { (T.standing turns.old).in_flight ≡ 0 }
    requires page { IsPageOf file call }
    requires shape { IsShape refusal }
    ensures book { HasBook (T.standing turns.new) file.stream book.new }
    ensures went { Went (T.standing turns.old) (T.standing turns.new) }
    ensures left { MisshapenLeft (T.standing turns.old).number file call refusal result
        (T.standing turns.old).seen (T.standing turns.new).seen }
    ensures full { IsFullError 1 (T.standing turns.new) result }
{
    let mut journal = turns.take_journal();
    let pass = turns.me();
    let error = refuse_on(book, &mut journal, pass, file, call, refusal);
    turns.give_journal(journal);
    error
}

// The same on the book and the journal. The room for the entry is asked first.
fn refuse_on<Q>(
    book: &mut Book,
    journal: &mut Journal<Q>,
    pass: u32,
    file: FileId,
    call: Call,
    refusal: CcError,
) -> CcError
    requires page { IsPageOf file call }
    requires shape { IsShape refusal }
    requires may { (u : Setup) × MayStep u pass call book.old journal.old }
    ensures { (u : Setup) → MayStep u pass call book.old journal.old →
        RefuseLeft u pass call refusal result book.old book.new journal.old journal.new }
{
    match journal.reserve(1) {
        Ok(()) => {
            let error = refusal_first(book, file, refusal);
            let owed = journal.owed_end(pass);
            book.fail(journal, pass, call, error);
            journal.release(owed);
            error
        }
        Err(error) => error,
    }
}

// What comes first: `NotCached`, or the refusal of the place or the length.
fn refusal_first(book: &Book, file: FileId, refusal: CcError) -> CcError
    ensures { (past : List Entry) → (u : Setup) → BookStands (u.opening book.now.stream) past book.now →
        result ≡ refusal_first (history past book.now.stream) file refusal }
{
    if book.is_open(file.object()) {
        refusal
    } else {
        CcError::NotCached
    }
}
