//! Read-ahead: a request for it, where the reads of an object lead to one, and the step that serves the first request.

ghost use Rattle.std.specs.Prelude.{◌≡◌, ◌≤◌, true, is_some, Some, IfErr, IfOk};
ghost use Rattle.cc_entry.specs.declared.call.Call.TheVariants as call;
ghost use Rattle.cc_entry.specs.declared.error.CcError.TheVariants as error;
ghost use Rattle.cc_model.specs.Good.{IsGood};
ghost use Rattle.cc_model.specs.Room.{reserved_in};
ghost use Rattle.cc_model.specs.Setup.{Setup};
ghost use Rattle.cc_step.specs.Step.{MayStep, StandUnder};
ghost use Rattle.cc_writes.specs.Hands.{HasBook};
ghost use Rattle.cc_calls.specs.Answers.{CallEnds, CanCall, IsFree};
ghost use Rattle.cc_calls.specs.Ahead.{AskedAt, AskedIn, IsDecided, PassedOver, RequestServed, StepEnds, IsServed, ahead_outcome};

use crate::told::flag;
use crate::turned::call_paged;
use cc_book::Book;
use cc_entry::{AheadDone, Call, CcError, Entry, FileId, NoMemory, Outcome, Reply, Request};
use cc_journal::Journal;
use cc_queue::{Queue, QueuePlace};
use cc_turns::Turns;
use std::alloc::Global;
use std::sync::Wait;

/// Asks for read-ahead behind a read of so many bytes at a place that is to come (`CcScheduleReadAhead`), and answers the
/// request that was pushed, where the last two reads of the object lead to one. The room and the memory of its entry are
/// taken before the push. It takes no turn of a disk.
///
/// `NotCached`, `QueueFull`, `JournalFull`, `NoMemory`.
pub fn schedule_read_ahead<R: Wait, T: Turns>(
    rt: &R,
    alloc: Global,
    turns: &mut T,
    queue: &Queue<Request>,
    place: &mut QueuePlace<Request>,
    file: FileId,
    at: u64,
    len: u64,
) -> Result<Option<Request>, CcError>
    requires can { CanCall (T.standing turns.old) file.stream }
    requires own { place.old.queue ≡ queue.now }
    ensures ends { CallEnds ahead_outcome (T.standing turns.old) (T.standing turns.new) (call.AskAhead file at len) result }
    ensures good { IsGood (T.standing turns.old).setup (T.standing turns.new).seen }
    ensures asked { AskedAt result place.old place.new }
{
    let mut book = turns.take_book(file.stream());
    let asked = ask_at(rt, alloc, turns, &mut book, queue, place, file, at, len);
    turns.give_book(file.stream(), book);
    asked
}

/// Serves the first request of the queue: brings in the pages of it below the size, where its object is open and the quota
/// has room for its blocks, and answers whether it did. Answers none only where the queue was empty, whatever room the
/// journal has. A request of a stream that there is not brings nothing in, and takes the journal's turn alone. A request that
/// was taken is spent, whatever is answered. In Windows a system thread makes these steps.
///
/// `ReadFault`, `WriteFault`, `LogFault`, `JournalFull`, `NoMemory`.
pub fn read_ahead_step<R: Wait, T: Turns>(
    rt: &R,
    alloc: Global,
    turns: &mut T,
    queue: &Queue<Request>,
    place: &mut QueuePlace<Request>,
) -> Result<Option<AheadDone>, CcError>
    requires can { IsFree (T.standing turns.old) }
    requires own { place.old.queue ≡ queue.now }
    ensures ends { StepEnds (T.standing turns.old) (T.standing turns.new) place.old place.new result }
{
    match queue.pop(rt, place) {
        Some(request) => step_for(alloc, turns, request),
        None => Ok(None),
    }
}

// The same for the request that was taken.
fn step_for<T: Turns>(
    alloc: Global,
    turns: &mut T,
    request: Request,
) -> Result<Option<AheadDone>, CcError>
    requires can { IsFree (T.standing turns.old) }
    ensures { IsServed (T.standing turns.old) (T.standing turns.new) request result }
{
    let Request { file, at, len } = request;
    let request = Request { file, at, len };
    match serve(alloc, turns, Request { file, at, len }) {
        Ok(whole) => Ok(Some(AheadDone { request, whole })),
        Err(error) => Err(error),
    }
}

// Asks for read-ahead, with the book of the object's stream in hand.
fn ask_at<R: Wait, T: Turns>(
    rt: &R,
    alloc: Global,
    turns: &mut T,
    book: &mut Book,
    queue: &Queue<Request>,
    place: &mut QueuePlace<Request>,
    file: FileId,
    at: u64,
    len: u64,
) -> Result<Option<Request>, CcError>
    requires book { HasBook (T.standing turns.old) book.old.stream book.old }
    requires filed { book.old.stream ≡ file.stream }
    requires none { (T.standing turns.old).in_flight ≡ 0 }
    requires own { place.old.queue ≡ queue.now }
    ensures book { HasBook (T.standing turns.new) book.old.stream book.new }
    ensures ends { CallEnds ahead_outcome (T.standing turns.old) (T.standing turns.new) (call.AskAhead file at len) result }
    ensures asked { AskedAt result place.old place.new }
{
    let mut journal = turns.take_journal();
    let pass = turns.me();
    let asked = ask_in(
        rt,
        alloc,
        book,
        &mut journal,
        pass,
        queue,
        place,
        file,
        at,
        len,
    );
    turns.give_journal(journal);
    asked
}

// The same with the journal in hand too. The room and the memory of the entry come first.
fn ask_in<R: Wait, Q>(
    rt: &R,
    alloc: Global,
    book: &mut Book,
    journal: &mut Journal<Q>,
    pass: u32,
    queue: &Queue<Request>,
    place: &mut QueuePlace<Request>,
    file: FileId,
    at: u64,
    len: u64,
) -> Result<Option<Request>, CcError>
    requires may { (u : Setup) × MayStep u pass (call.AskAhead file at len) book.old journal.old }
    requires own { place.old.queue ≡ queue.now }
    ensures left { (u : Setup) → MayStep u pass (call.AskAhead file at len) book.old journal.old →
        AskedIn u pass file at len result book.old book.new journal.old journal.new }
    ensures asked { AskedAt result place.old place.new }
{
    // The stream's number is what says that it is below 16, so that what its holds owe is counted.
    let _stream = book.stream().number();
    journal.reserve(1)?;
    let owed = journal.owed_end(pass);
    let call = Call::AskAhead { file, at, len };
    match decide(rt, alloc, book, journal, queue, place, file, at, len) {
        Ok(request) => {
            let reply = Reply::Ahead(same(&request));
            match book.done(alloc, journal, pass, call, reply) {
                Ok(()) => {
                    journal.release(owed);
                    Ok(request)
                }
                Err(NoMemory) => unreachable!(),
            }
        }
        Err(error) => match error {
            CcError::NoMemory => {
                journal.release(1);
                Err(CcError::NoMemory)
            }
            _ => {
                book.fail(journal, pass, call, error);
                journal.release(owed);
                Err(error)
            }
        },
    }
}

// What a call for read-ahead is to answer. The request that it answers was pushed.
fn decide<R: Wait, Q>(
    rt: &R,
    alloc: Global,
    book: &Book,
    journal: &Journal<Q>,
    queue: &Queue<Request>,
    place: &mut QueuePlace<Request>,
    file: FileId,
    at: u64,
    len: u64,
) -> Result<Option<Request>, CcError>
    requires stand { (u : Setup) × StandUnder u book.now journal.now }
    requires own { place.old.queue ≡ queue.now }
    ensures decided { (u : Setup) → StandUnder u book.now journal.now →
        IsDecided u journal.now.entries book.now.stream file at len result }
    ensures asked { AskedAt result place.old place.new }
{
    match book.refusal(alloc, journal, &Call::AskAhead { file, at, len }) {
        Ok(None) => push_request(rt, queue, place, book.ahead_of(file, at, len)),
        Ok(Some(error)) => Err(error),
        Err(NoMemory) => Err(CcError::NoMemory),
    }
}

// The same request, or none.
fn same(request: &Option<Request>) -> Option<Request>
    ensures { result ≡ request.now }
{
    *request
}

// Pushes a request, where there is one.
fn push_request<R: Wait>(
    rt: &R,
    queue: &Queue<Request>,
    place: &mut QueuePlace<Request>,
    request: Option<Request>,
) -> Result<Option<Request>, CcError>
    requires own { place.old.queue ≡ queue.now }
    ensures pushed { IfOk result (λ answered. answered ≡ request) }
    ensures full { IfErr result (λ e. (e ≡ error.QueueFull) × (is_some request ≡ true)) }
    ensures asked { AskedAt result place.old place.new }
{
    match request {
        Some(asked) => push_one(rt, queue, place, asked),
        None => Ok(None),
    }
}

// Pushes a request.
fn push_one<R: Wait>(
    rt: &R,
    queue: &Queue<Request>,
    place: &mut QueuePlace<Request>,
    request: Request,
) -> Result<Option<Request>, CcError>
    requires own { place.old.queue ≡ queue.now }
    ensures pushed { IfOk result (λ answered. answered ≡ Some request) }
    ensures full { IfErr result (λ e. e ≡ error.QueueFull) }
    ensures asked { AskedAt result place.old place.new }
{
    let Request { file, at, len } = request;
    if queue.push(rt, place, Request { file, at, len }) {
        Ok(Some(Request { file, at, len }))
    } else {
        Err(CcError::QueueFull)
    }
}

// Serves a request, and answers whether all its pages below the size are there.
fn serve<T: Turns>(alloc: Global, turns: &mut T, request: Request) -> Result<bool, CcError>
    requires can { IsFree (T.standing turns.old) }
    ensures { RequestServed (T.standing turns.old) (T.standing turns.new) request result }
{
    if request.file.stream().number() < turns.streams() {
        bring(alloc, turns, request)
    } else {
        pass_over(turns, request)
    }
}

// Serves a request of a stream that there is.
fn bring<T: Turns>(alloc: Global, turns: &mut T, request: Request) -> Result<bool, CcError>
    requires can { CanCall (T.standing turns.old) request.file.stream }
    ensures { RequestServed (T.standing turns.old) (T.standing turns.new) request result }
{
    let stream = request.file.stream();
    match call_paged(alloc, turns, stream, Call::AheadStep { request }, &mut []) {
        Ok(told) => Ok(flag(told)),
        Err(error) => Err(error),
    }
}

// Passes over a request of a stream that there is not: it brings nothing in.
fn pass_over<T: Turns>(turns: &mut T, request: Request) -> Result<bool, CcError>
    requires can { IsFree (T.standing turns.old) }
    requires unknown { (T.standing turns.old).streams ≤ request.file.stream }
    ensures { RequestServed (T.standing turns.old) (T.standing turns.new) request result }
{
    let mut journal = turns.take_journal();
    let pass = turns.me();
    let answer = tell_passed(&mut journal, pass, request);
    turns.give_journal(journal);
    answer
}

// Places the entry of such a step. No run opens an object of a stream that there is not; one that is open could not be told as
// closed, and `NoMemory` is answered.
fn tell_passed<Q>(journal: &mut Journal<Q>, pass: u32, request: Request) -> Result<bool, CcError>
    requires good { (u : Setup) × IsGood u journal.old.entries }
    requires owed { reserved_in journal.old.entries ≤ journal.old.reserved }
    ensures { PassedOver pass request result journal.old journal.new }
{
    let stream = request.file.stream();
    // The stream's number is what says that it is below 16, so that what its holds owe is counted.
    let _number = stream.number();
    journal.reserve(1)?;
    if journal.is_mapped(stream) {
        journal.release(1);
        return Err(CcError::NoMemory);
    }
    let nth = journal.next_call(pass);
    let owed = journal.owed_end(pass);
    journal.push(Entry::Call {
        pass,
        nth,
        stream: Some(stream),
        call: Call::AheadStep { request },
        outcome: Outcome::Done(Reply::Whole(false)),
    });
    journal.release(owed);
    Ok(false)
}
