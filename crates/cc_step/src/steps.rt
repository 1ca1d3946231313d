//! The step of a call: refused, done with its entry, waiting for a page, or stopped for want of room or memory.

ghost use Rattle.std.specs.Prelude.{◌≡◌, ℕ, suc, ◌<◌, true, List, Option, None, Some, IfOk};
ghost use Rattle.cc_entry.specs.Queries.{extent_of_query};
ghost use Rattle.cc_entry.specs.declared.call.Call.TheVariants as call;
ghost use Rattle.cc_entry.specs.declared.entry.Entry.{Entry};
ghost use Rattle.cc_model.specs.History.{history};
ghost use Rattle.cc_model.specs.Holds.{holds_of};
ghost use Rattle.cc_model.specs.Ranges.{range_of, cut_range, queried_range};
ghost use Rattle.cc_model.specs.Refusals.{refusal};
ghost use Rattle.cc_model.specs.Setup.{Setup};
ghost use Rattle.cc_model.specs.Touches.{size_of};
ghost use Rattle.cc_book.specs.Book.{BookStands};
ghost use Rattle.cc_step.specs.Step.{is_stepped, asked_now, places_spared, StandUnder, MayStep, IsReadyFor, IsReplyOf, StepLeft, StepPlacingLeft, AttemptLeft, has_placed, least_absent, needed_range, awaited};

use crate::replies::reply;
use crate::ways::Attempt;
use cc_book::Book;
use cc_entry::{Call, CcError, NoMemory, Query, Reply, Request};
use cc_journal::Journal;
use std::alloc::Global;

/// Takes the step of a call by this pass where the journal has room for its entry and for what it reserves with it. A
/// set-dirty that was reserved, and the end of a hold, have their place and take no memory. Where the pass owed the end of
/// a noncached write, whose transfer found no memory, the place of that end is given back.
///
/// `JournalFull` only where there is too little room, with the number of entries; `NoMemory`.
pub fn attempt<Q>(
    alloc: Global,
    book: &mut Book,
    journal: &mut Journal<Q>,
    pass: u32,
    call: Call,
) -> Attempt<(u64, Call)>
    requires stepped { is_stepped call ≡ true }
    requires may { (u : Setup) × MayStep u pass call book.old journal.old }
    ensures { (u : Setup) → MayStep u pass call book.old journal.old →
        AttemptLeft u pass call result book.old book.new journal.old journal.new }
{
    let asked = places_asked(book, &call);
    if asked == 0 {
        place_reserved(alloc, book, journal, pass, call)
    } else {
        place_new(alloc, book, journal, pass, call, asked - 1)
    }
}

/// The page that a call waits for: none where it is refused, else the least that it needs and that is not resident, if
/// there is one.
pub fn waits_for<Q>(
    alloc: Global,
    book: &Book,
    journal: &Journal<Q>,
    call: &Call,
) -> Result<Option<u64>, NoMemory>
    requires stepped { is_stepped call.now ≡ true }
    ensures { IfOk result (λ page. (u : Setup) → StandUnder u book.now journal.now →
        page ≡ awaited u journal.now.entries book.now.stream call.now) }
{
    match book.refusal(alloc, journal, call)? {
        None => absent(alloc, book, call),
        Some(_) => Ok(None),
    }
}

// Whether the step of a call that ended so placed an entry.
fn has_placed<T>(ended: &Attempt<T>) -> bool
    ensures { result ≡ has_placed ended.now }
{
    match ended {
        Attempt::Done | Attempt::Refused(_) => true,
        Attempt::Stopped(_) | Attempt::GoesOn(_) => false,
    }
}

// Takes the step of a call that asks a place, and so many more where it is done.
fn place_new<Q>(
    alloc: Global,
    book: &mut Book,
    journal: &mut Journal<Q>,
    pass: u32,
    call: Call,
    more: u64,
) -> Attempt<(u64, Call)>
    requires stepped { is_stepped call ≡ true }
    requires may { (u : Setup) × MayStep u pass call book.old journal.old
        × (asked_now journal.old.entries book.old.stream call ≡ suc more) }
    ensures { (u : Setup) → MayStep u pass call book.old journal.old →
        asked_now journal.old.entries book.old.stream call ≡ suc more →
        AttemptLeft u pass call result book.old book.new journal.old journal.new }
{
    // The stream's number is what says that it is below 16, so that what its holds owe is counted.
    let _stream = book.stream().number();
    match journal.reserve(1) {
        Ok(()) => {
            let owed = journal.owed_end(pass);
            let ended = step(alloc, book, journal, pass, call, more);
            if has_placed(&ended) {
                journal.release(owed);
            } else {
                journal.release(1);
            }
            ended
        }
        Err(error) => Attempt::Stopped(error),
    }
}

// Takes the step of a call for whose entry a place was reserved, and which nothing refuses: an owed set-dirty, or the
// end of a hold.
fn place_reserved<Q>(
    alloc: Global,
    book: &mut Book,
    journal: &mut Journal<Q>,
    pass: u32,
    call: Call,
) -> Attempt<(u64, Call)>
    requires stepped { is_stepped call ≡ true }
    requires may { (u : Setup) × MayStep u pass call book.old journal.old
        × (asked_now journal.old.entries book.old.stream call ≡ 0) }
    ensures { (u : Setup) → MayStep u pass call book.old journal.old →
        asked_now journal.old.entries book.old.stream call ≡ 0 →
        AttemptLeft u pass call result book.old book.new journal.old journal.new }
{
    // The stream's number is what says that it is below 16, so that what its holds owe is counted.
    let _stream = book.stream().number();
    let spared = places_spared(book, &call);
    let owed = journal.owed_end(pass);
    match book.done(alloc, journal, pass, call, Reply::Unit) {
        Ok(()) => {
            journal.release(spared);
            journal.release(owed);
            Attempt::Done
        }
        Err(_) => unreachable!(),
    }
}

// Takes the step of a call by this pass, for whose entry a place is reserved; where it is done, it reserves so many more.
fn step<Q>(
    alloc: Global,
    book: &mut Book,
    journal: &mut Journal<Q>,
    pass: u32,
    call: Call,
    more: u64,
) -> Attempt<(u64, Call)>
    requires stepped { is_stepped call ≡ true }
    requires reserved { 0 < journal.old.reserved }
    requires may { (u : Setup) × MayStep u pass call book.old journal.old }
    ensures { (u : Setup) → MayStep u pass call book.old journal.old →
        StepLeft u pass more call result book.old book.new journal.old journal.new }
{
    match book.refusal(alloc, journal, &call) {
        Ok(None) => admitted(alloc, book, journal, pass, call, more),
        Ok(Some(error)) => {
            book.fail(journal, pass, call, error);
            Attempt::Refused(error)
        }
        Err(_) => Attempt::Stopped(CcError::NoMemory),
    }
}

// Takes the step of a call that nothing refuses.
fn admitted<Q>(
    alloc: Global,
    book: &mut Book,
    journal: &mut Journal<Q>,
    pass: u32,
    call: Call,
    more: u64,
) -> Attempt<(u64, Call)>
    requires stepped { is_stepped call ≡ true }
    requires reserved { 0 < journal.old.reserved }
    requires may { (u : Setup) × MayStep u pass call book.old journal.old
        × (refusal u journal.old.entries (history journal.old.entries book.old.stream) call ≡ None) }
    ensures { (u : Setup) → MayStep u pass call book.old journal.old →
        refusal u journal.old.entries (history journal.old.entries book.old.stream) call ≡ None →
        StepLeft u pass more call result book.old book.new journal.old journal.new }
{
    match absent(alloc, book, &call) {
        Ok(Some(page)) => Attempt::GoesOn((page, call)),
        Ok(None) => finish(alloc, book, journal, pass, call, more),
        Err(_) => Attempt::Stopped(CcError::NoMemory),
    }
}

// Takes the step of a call that may be done, where there is room for what it reserves.
fn finish<Q>(
    alloc: Global,
    book: &mut Book,
    journal: &mut Journal<Q>,
    pass: u32,
    call: Call,
    more: u64,
) -> Attempt<(u64, Call)>
    requires stepped { is_stepped call ≡ true }
    requires reserved { 0 < journal.old.reserved }
    requires may { (u : Setup) × MayStep u pass call book.old journal.old
        × IsReadyFor u journal.old.entries book.old.stream call }
    ensures { (u : Setup) → MayStep u pass call book.old journal.old →
        IsReadyFor u journal.old.entries book.old.stream call →
        StepLeft u pass more call result book.old book.new journal.old journal.new }
{
    match reply(alloc, book, journal, &call) {
        Ok(answer) => match journal.reserve(more) {
            Ok(()) => place(alloc, book, journal, pass, call, answer, more),
            Err(error) => Attempt::Stopped(error),
        },
        Err(_) => Attempt::Stopped(CcError::NoMemory),
    }
}

// Places the entry of a call that is done with this answer. The places more that are reserved for it are given back
// where there is no memory.
fn place<Q>(
    alloc: Global,
    book: &mut Book,
    journal: &mut Journal<Q>,
    pass: u32,
    call: Call,
    answer: Reply,
    more: u64,
) -> Attempt<(u64, Call)>
    requires stepped { is_stepped call ≡ true }
    requires reserved { more < journal.old.reserved }
    requires may { (u : Setup) × MayStep u pass call book.old journal.old
        × IsReadyFor u journal.old.entries book.old.stream call
        × IsReplyOf u journal.old.entries book.old.stream pass call answer }
    ensures { (u : Setup) → MayStep u pass call book.old journal.old →
        IsReadyFor u journal.old.entries book.old.stream call →
        IsReplyOf u journal.old.entries book.old.stream pass call answer →
        StepPlacingLeft u pass more call answer result book.old book.new journal.old journal.new }
{
    match book.done(alloc, journal, pass, call, answer) {
        Ok(()) => Attempt::Done,
        Err(_) => {
            journal.release(more);
            Attempt::Stopped(CcError::NoMemory)
        }
    }
}

/// The least page that a call needs which nothing refuses, and that is not resident. A read-ahead step that brings no page
/// in needs none.
pub fn absent(alloc: Global, book: &Book, call: &Call) -> Result<Option<u64>, NoMemory>
    requires stepped { is_stepped call.now ≡ true }
    ensures { IfOk result (λ page. (u : Setup) (opening : Option (ℕ → List ℕ)) (past : List Entry) →
        BookStands opening past book.now → refusal u past (history past book.now.stream) call.now ≡ None →
        page ≡ least_absent (history past book.now.stream) (needed_range (history past book.now.stream) call.now)) }
{
    match call {
        Call::AheadStep { request } => absent_ahead(alloc, book, request),
        _ => Ok(absent_in_range(book, call)),
    }
}

// The least page that a read-ahead step needs and that is not resident.
fn absent_ahead(alloc: Global, book: &Book, request: &Request) -> Result<Option<u64>, NoMemory>
    ensures { IfOk result (λ page. (opening : Option (ℕ → List ℕ)) (past : List Entry) → BookStands opening past book.now →
        page ≡ least_absent (history past book.now.stream)
        (needed_range (history past book.now.stream) (call.AheadStep request.now))) }
{
    let whole = book.is_whole(alloc, request)?;
    if whole {
        Ok(absent_below(book, request.at, request.len))
    } else {
        Ok(None)
    }
}

// The least page of the range of a call which nothing refuses, and that is not resident.
fn absent_in_range(book: &Book, call: &Call) -> Option<u64>
    requires stepped { is_stepped call.now ≡ true }
    ensures { (u : Setup) (opening : Option (ℕ → List ℕ)) (past : List Entry) → BookStands opening past book.now →
        refusal u past (history past book.now.stream) call.now ≡ None →
        result ≡ least_absent (history past book.now.stream)
        (range_of (size_of (history past book.now.stream)) call.now) }
{
    match call {
        Call::CopyWrite { at, bytes, .. } => absent_below(book, *at, bytes.len()),
        Call::Zero { span, .. } => book.first_absent(span.from(), span.to()),
        Call::CopyRead { at, len, .. } => absent_below(book, *at, *len),
        Call::Map { at, len, .. } => absent_below(book, *at, *len),
        Call::PinRead { at, len, .. } => absent_below(book, *at, *len),
        Call::PreparePin { at, len, .. } => absent_below(book, *at, *len),
        Call::MdlRead { at, len, .. } => absent_below(book, *at, *len),
        Call::MdlWrite { at, len, .. } => absent_below(book, *at, *len),
        Call::AheadStep { request } => absent_below(book, request.at, request.len),
        Call::Query(query) => absent_for(book, query),
        _ => None,
    }
}

// The least page that a query needs and that is not resident.
fn absent_for(book: &Book, query: &Query) -> Option<u64>
    ensures { (opening : Option (ℕ → List ℕ)) (past : List Entry) → BookStands opening past book.now →
        result ≡ least_absent (history past book.now.stream)
        (queried_range (size_of (history past book.now.stream)) (extent_of_query query.now)) }
{
    let (at, len) = query.extent()?;
    absent_below(book, at, len)
}

// The least page of so many bytes from a place on, as far as the size, that is not resident.
fn absent_below(book: &Book, at: u64, len: u64) -> Option<u64>
    ensures { (opening : Option (ℕ → List ℕ)) (past : List Entry) → BookStands opening past book.now →
        result ≡ least_absent (history past book.now.stream)
        (Some (cut_range (size_of (history past book.now.stream)) at len)) }
{
    let end = u128::from(at) + u128::from(len);
    let to = end.min(u128::from(book.size())) as u64;
    book.first_absent(at, to)
}

/// How many places a call asks that is done, with that of its entry.
pub fn places_asked(book: &Book, call: &Call) -> u64
    ensures { (opening : Option (ℕ → List ℕ)) (past : List Entry) → BookStands opening past book.now →
        result ≡ asked_now past book.now.stream call.now }
{
    match call {
        Call::Map { .. }
        | Call::PinRead { .. }
        | Call::Repin { .. }
        | Call::MdlRead { .. }
        | Call::MdlWrite { .. } => 2,
        Call::PreparePin { zero, .. } => { if *zero { 3 } else { 2 } }
        Call::PinnedWrite { hold, .. } => { if book.owes_set_dirty(*hold) { 1 } else { 2 } }
        Call::SetDirty { hold, .. } => { if book.owes_set_dirty(*hold) { 0 } else { 1 } }
        Call::EndHold { .. } => 0,
        _ => 1,
    }
}

/// How many reserved places a call gives back beside that of its entry.
pub fn places_spared(book: &Book, call: &Call) -> u64
    ensures { (opening : Option (ℕ → List ℕ)) (past : List Entry) → BookStands opening past book.now →
        result ≡ places_spared (holds_of (history past book.now.stream)) call.now }
{
    match call {
        Call::EndHold { hold } => u64::from(book.owes_set_dirty(*hold)),
        _ => 0,
    }
}
