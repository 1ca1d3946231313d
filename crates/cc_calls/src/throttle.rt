//! The throttle: whether a write may go, a write that is deferred, and the post of the first deferred one.

ghost use Rattle.std.specs.Prelude.{◌≡◌, ℕ, false, true, IfErr, IfOk, IfSome, List, Option};
ghost use Rattle.cc_book.specs.Book.{BookStands};
ghost use Rattle.cc_entry.specs.declared.call.Call.TheVariants as call;
ghost use Rattle.cc_entry.specs.declared.query.Query.TheVariants as query;
ghost use Rattle.cc_journal.specs.Queue.{AllUnposted};
ghost use Rattle.cc_model.specs.Good.{IsGood};
ghost use Rattle.cc_model.specs.Setup.{Setup};
ghost use Rattle.cc_writes.specs.Hands.{HasBook};
ghost use Rattle.cc_calls.specs.Answers.{CallEnds, CanCall, IsFree, flag_outcome};
ghost use Rattle.cc_calls.specs.Throttle.{DeferEnds, DeferIn, PlaceFor, PostEnds, PostIn, deferral_told, post_told};

use crate::told::flag;
use crate::turned::call_at_once;
use cc_book::Book;
use cc_entry::{Call, CcError, FileId, Query};
use cc_journal::Journal;
use cc_traits::{PostRoutine, PostedRoutine};
use cc_turns::Turns;
use std::alloc::Global;

/// Whether a write of so many bytes to a stream may go (`CcCanIWrite`): the dirty pages of all streams with its own, one for
/// each 4,096 bytes begun, stay below the cache's threshold, and those of the stream below the stream's, where it has one.
///
/// `NotCached`, `JournalFull`, `NoMemory`.
pub fn can_i_write<T: Turns>(
    alloc: Global,
    turns: &mut T,
    file: FileId,
    bytes: u64,
) -> Result<bool, CcError>
    requires can { CanCall (T.standing turns.old) file.stream }
    ensures ends { CallEnds flag_outcome (T.standing turns.old) (T.standing turns.new) (call.Query (query.CanWrite file bytes)) result }
    ensures good { IsGood (T.standing turns.old).setup (T.standing turns.new).seen }
{
    match call_at_once(
        alloc,
        turns,
        file.stream(),
        Call::Query(Query::CanWrite { file, bytes }),
        &mut [],
    ) {
        Ok(told) => Ok(flag(told)),
        Err(error) => Err(error),
    }
}

/// Defers a write of so many bytes (`CcDeferWrite`), and answers its number: to the head of the queue where it is tried again,
/// else to its end. Where it is refused, the routine comes back, as it was. Room for its entry is asked before the object and
/// the queue are. It takes no turn of a disk.
///
/// `JournalFull`, `NotCached`, `QueueFull` where 64 writes wait, `NoMemory`.
pub fn defer<T: Turns>(
    turns: &mut T,
    file: FileId,
    bytes: u64,
    retrying: bool,
    routine: T::Post,
) -> Result<u64, (T::Post, CcError)>
    requires can { CanCall (T.standing turns.old) file.stream }
    requires unposted { T.Post.posted routine ≡ false }
    ensures ends { DeferEnds (T.standing turns.old) (T.standing turns.new) file bytes retrying (deferral_told result) }
    ensures back { IfErr result (λ refused. refused.0 ≡ routine) }
{
    let book = turns.take_book(file.stream());
    let answer = defer_at(turns, &book, file, bytes, retrying, routine);
    turns.give_book(file.stream(), book);
    answer
}

/// Posts the first deferred write, where one waits and it may go, and hands over its routine, which was posted; `None` where
/// there is nothing to post, whatever room the journal has. No public Cc routine does that: in Windows the cache does it
/// itself, as dirty pages are written. It needs no stream.
///
/// `JournalFull`, `NoMemory`.
pub fn post_next<T: Turns>(turns: &mut T) -> Result<Option<PostedRoutine<T::Post>>, CcError>
    requires can { IsFree (T.standing turns.old) }
    ensures ends { PostEnds (T.standing turns.old) (T.standing turns.new) (post_told result) }
    ensures posted { IfOk result (λ found. IfSome found (λ posted. T.Post.posted posted.routine ≡ true)) }
{
    let mut journal = turns.take_journal();
    let answer = post_in(&mut journal);
    turns.give_journal(journal);
    answer
}

// Defers a write, with the book of its stream in hand.
fn defer_at<T: Turns>(
    turns: &mut T,
    book: &Book,
    file: FileId,
    bytes: u64,
    retrying: bool,
    routine: T::Post,
) -> Result<u64, (T::Post, CcError)>
    requires book { HasBook (T.standing turns.old) file.stream book.now }
    requires none { (T.standing turns.old).in_flight ≡ 0 }
    requires unposted { T.Post.posted routine ≡ false }
    ensures book { HasBook (T.standing turns.new) file.stream book.now }
    ensures ends { DeferEnds (T.standing turns.old) (T.standing turns.new) file bytes retrying (deferral_told result) }
    ensures back { IfErr result (λ refused. refused.0 ≡ routine) }
{
    let mut journal = turns.take_journal();
    let pass = turns.me();
    let answer = defer_in(book, &mut journal, pass, file, bytes, retrying, routine);
    turns.give_journal(journal);
    answer
}

// The same with the journal in hand too.
fn defer_in<Q: PostRoutine>(
    book: &Book,
    journal: &mut Journal<Q>,
    pass: u32,
    file: FileId,
    bytes: u64,
    retrying: bool,
    routine: Q,
) -> Result<u64, (Q, CcError)>
    requires stream { file.stream ≡ book.now.stream }
    requires book { (opening : Option (ℕ → List ℕ)) × BookStands opening journal.old.entries book.now }
    requires unposted { Q.posted routine ≡ false }
    requires waiting { AllUnposted Q.posted journal.old.queue }
    ensures left { DeferIn pass file bytes retrying (deferral_told result) journal.old journal.new }
    ensures back { IfErr result (λ refused. refused.0 ≡ routine) }
    ensures waiting { AllUnposted Q.posted journal.new.queue }
{
    match reserve_deferral(book, journal, file) {
        Ok(()) => {
            let pages = bytes.div_ceil(4096);
            Ok(journal.push_defer(pass, file, pages, retrying, routine))
        }
        Err(error) => Err((routine, error)),
    }
}

// Reserves a place for a deferral by an object, which has to be cached, in a queue of fewer than 64. The room for it is
// asked first.
fn reserve_deferral<Q>(book: &Book, journal: &mut Journal<Q>, file: FileId) -> Result<(), CcError>
    requires stream { file.stream ≡ book.now.stream }
    requires book { (opening : Option (ℕ → List ℕ)) × BookStands opening journal.old.entries book.now }
    ensures { PlaceFor file result journal.old journal.new }
{
    if journal.room() == 0 {
        return Err(CcError::JournalFull {
            entries: journal.len(),
        });
    }
    if !book.is_open(file.object()) {
        return Err(CcError::NotCached);
    }
    if journal.queued() >= 64 {
        return Err(CcError::QueueFull);
    }
    journal.reserve(1)
}

// Posts the first deferred write from a journal in hand, where one waits and it may go.
fn post_in<Q: PostRoutine>(journal: &mut Journal<Q>) -> Result<Option<PostedRoutine<Q>>, CcError>
    requires waiting { AllUnposted Q.posted journal.old.queue }
    ensures left { (u : Setup) → u.threshold ≡ journal.old.threshold → PostIn u (post_told result) journal.old journal.new }
    ensures posted { IfOk result (λ found. IfSome found (λ posted. Q.posted posted.routine ≡ true)) }
    ensures waiting { AllUnposted Q.posted journal.new.queue }
{
    if !journal.may_post() {
        return Ok(None);
    }
    journal.reserve(1)?;
    Ok(Some(journal.push_posted()))
}
