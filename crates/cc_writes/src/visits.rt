//! The visits: each takes the journal's turn once.

ghost use Rattle.std.specs.Prelude.{◌≡◌, ◌<◌, true, List, OnOk, Some, Err};
ghost use Rattle.std.specs.Option.{option_copied};
ghost use Rattle.cc_entry.specs.declared.entry.Entry.{Entry};
ghost use Rattle.cc_entry.specs.declared.reply.Outcome.TheVariants as outcome;
ghost use Rattle.cc_effects.specs.Asked.{brings_in};
ghost use Rattle.cc_effects.specs.Calls.{CallLeft, IsUnderWay};
ghost use Rattle.cc_effects.specs.Refusals.{may_refuse};
ghost use Rattle.cc_step.specs.Fill.{MayLand, LandLeft as BookLandLeft, UnreadLeft};
ghost use Rattle.cc_model.specs.Setup.{Setup};
ghost use Rattle.cc_step.specs.Step.{StandUnder, is_answered, is_stepped};
ghost use Rattle.cc_effects.specs.Begins.{BeginsNone, TakesNoneOut};
ghost use Rattle.cc_writes.specs.Alone.{NobodyElseChanged};
ghost use Rattle.cc_writes.specs.Hands.{HasBook, IsAtRest, SameDisk, Went, WentWith};
ghost use Rattle.cc_writes.specs.Told.{CourseAs, FitsAttempt, fault_answer};
ghost use Rattle.cc_writes.specs.Ways.{ReadFitsIn, IsFull, IsHalted, IsCallReason, WasWanted};
ghost use Rattle.cc_writes.specs.Visits.{IsFiledNow, CallIsOfStream, TriedLeft, CallStepLeft, CallStepPlaced, CallStepWent, IsFullTried, IsFullCallStep, WasReadFor, VisitLandLeft, UnreadPlaced, VisitUnreadLeft};

use crate::course::Course;
use crate::tell::tell_last;
use cc_book::Book;
use cc_entry::{Call, CcError, NoMemory};
use cc_journal::Journal;
use cc_step::{Attempt, Failed, Way, attempt, fail, land_on_book, next, unread};
use cc_turns::Turns;
use std::alloc::Global;

/// Attempts a call on its book.
pub fn attempt_at<T: Turns>(
    alloc: Global,
    turns: &mut T,
    book: &mut Book,
    call: Call,
    out: &mut [u8],
) -> Course<(u64, Call)>
    requires book { HasBook (T.standing turns.old) book.old.stream book.old }
    requires none { (T.standing turns.old).in_flight ≡ 0 }
    requires stepped { is_stepped call ≡ true }
    requires filed { IsFiledNow (T.standing turns.old) book.old.stream call }
    requires fits { ReadFitsIn call out.old }
    ensures book { HasBook (T.standing turns.new) book.old.stream book.new }
    ensures went { Went (T.standing turns.old) (T.standing turns.new) }
    ensures left { (begun : List Entry) →
        IsUnderWay (T.standing turns.old).number call begun (T.standing turns.old).seen →
        TriedLeft (T.standing turns.old).setup (T.standing turns.old).number book.old.stream call result
        begun (T.standing turns.new).seen out.old out.new }
    ensures full { IsFullTried (T.standing turns.new) book.old.stream call result }
{
    // The stream's number is what says that a set-dirty without room has its pin among the streams' holds.
    let _stream = book.stream().number();
    let mut journal = turns.take_journal();
    let pass = turns.me();
    let ended = attempt(alloc, book, &mut journal, pass, call);
    let course = told_course(ended, &journal, out);
    turns.give_journal(journal);
    course
}

/// Takes the next step of a call that may bring pages in, with its stream's disk in hand.
pub fn next_call_step<T: Turns>(
    alloc: Global,
    turns: &mut T,
    book: &mut Book,
    call: Call,
    out: &mut [u8],
) -> Course<Way>
    requires book { HasBook (T.standing turns.old) book.old.stream book.old }
    requires rest { IsAtRest (T.standing turns.old) book.old.stream }
    requires none { (T.standing turns.old).in_flight ≡ 0 }
    requires stepped { is_stepped call ≡ true }
    requires brings { brings_in call ≡ true }
    requires filed { CallIsOfStream call book.old.stream }
    requires fits { ReadFitsIn call out.old }
    ensures book { HasBook (T.standing turns.new) book.old.stream book.new }
    ensures rest { IsAtRest (T.standing turns.new) book.old.stream }
    ensures went { CallStepWent result (T.standing turns.old) (T.standing turns.new) }
    ensures disk { SameDisk (T.standing turns.old).seen (T.standing turns.new).seen book.old.stream }
    ensures left { (begun : List Entry) →
        IsUnderWay (T.standing turns.old).number call begun (T.standing turns.old).seen →
        CallStepLeft (T.standing turns.old).setup (T.standing turns.old).number book.old.stream call result
        begun (T.standing turns.new).seen out.old out.new }
    ensures placed { CallStepPlaced (T.standing turns.old) book.old.stream call result (T.standing turns.new).seen }
    ensures full { IsFullCallStep (T.standing turns.new) call result }
{
    let mut journal = turns.take_journal();
    let pass = turns.me();
    let ended = next(alloc, book, &mut journal, pass, call);
    let course = told_course(ended, &journal, out);
    turns.give_journal(journal);
    course
}

/// Brings a page in that a call waits for, from the raw bytes of the disk where it was read, exactly if the call still
/// waits for it, there is room for its block, and it was read if it has to be. The place that is reserved for it is used,
/// or given back.
///
/// `NoMemory`, and then the place is given back.
pub fn land_at<T: Turns>(
    alloc: Global,
    turns: &mut T,
    book: &mut Book,
    call: &Call,
    page: u64,
    raw: Option<&[u8; 4096]>,
) -> Result<(), NoMemory>
    requires book { HasBook (T.standing turns.old) book.old.stream book.old }
    requires rest { IsAtRest (T.standing turns.old) book.old.stream }
    requires reserved { (T.standing turns.old).in_flight ≡ 1 }
    requires stepped { is_stepped call.now ≡ true }
    requires brings { brings_in call.now ≡ true }
    requires filed { CallIsOfStream call.now book.old.stream }
    requires read { WasReadFor (T.standing turns.old) book.old.stream page (option_copied raw) }
    ensures book { HasBook (T.standing turns.new) book.old.stream book.new }
    ensures rest { IsAtRest (T.standing turns.new) book.old.stream }
    ensures went { WentWith 0 (T.standing turns.old) (T.standing turns.new) }
    ensures disk { SameDisk (T.standing turns.old).seen (T.standing turns.new).seen book.old.stream }
    ensures left { (begun : List Entry) →
        IsUnderWay (T.standing turns.old).number call.now begun (T.standing turns.old).seen →
        IsUnderWay (T.standing turns.old).number call.now begun (T.standing turns.new).seen }
    ensures landed { OnOk result (VisitLandLeft (T.standing turns.old) book.old.stream call.now page
        (option_copied raw.entry) (T.standing turns.new).seen) }
{
    let mut journal = turns.take_journal();
    let pass = turns.me();
    let landed = land_page(alloc, book, &mut journal, pass, call, page, raw);
    turns.give_journal(journal);
    landed
}

/// The disk failed to read a page for a call: the entry is placed where the page is on the disk alone still, and the
/// answer says whether it is. The place that is reserved for it is used, or given back.
pub fn unread_at<T: Turns>(turns: &mut T, book: &Book, page: u64) -> bool
    requires book { HasBook (T.standing turns.old) book.now.stream book.now }
    requires rest { IsAtRest (T.standing turns.old) book.now.stream }
    requires reserved { (T.standing turns.old).in_flight ≡ 1 }
    ensures book { HasBook (T.standing turns.new) book.now.stream book.now }
    ensures rest { IsAtRest (T.standing turns.new) book.now.stream }
    ensures went { WentWith 0 (T.standing turns.old) (T.standing turns.new) }
    ensures placed { UnreadPlaced (T.standing turns.old) (T.standing turns.new) book.now.stream page result }
    ensures left { (it : Call) (begun : List Entry) → brings_in it ≡ true →
        IsUnderWay (T.standing turns.old).number it begun (T.standing turns.old).seen →
        WasWanted (T.standing turns.old).setup it (record { stream = book.now.stream; page = page })
        begun (T.standing turns.old).seen →
        VisitUnreadLeft (T.standing turns.old).setup (T.standing turns.old).number book.now.stream it page result
        begun (T.standing turns.new).seen }
{
    let mut journal = turns.take_journal();
    let pass = turns.me();
    let unread = tell_unread(book, &mut journal, pass, page);
    turns.give_journal(journal);
    unread
}

/// Ends a call that met a fault: with the fault, or with a refusal that others brought about meanwhile. Answers which.
pub fn fail_at<T: Turns>(
    alloc: Global,
    turns: &mut T,
    book: &mut Book,
    call: Call,
    fault: CcError,
) -> CcError
    requires book { HasBook (T.standing turns.old) book.old.stream book.old }
    requires none { (T.standing turns.old).in_flight ≡ 0 }
    requires answered { is_answered call ≡ true }
    requires listed { may_refuse call fault ≡ true }
    requires filed { CallIsOfStream call book.old.stream }
    requires halted { (begun : List Entry) × IsHalted (T.standing turns.old).setup (T.standing turns.old).number
        book.old.stream call fault begun (T.standing turns.old).seen }
    ensures book { HasBook (T.standing turns.new) book.old.stream book.new }
    ensures went { Went (T.standing turns.old) (T.standing turns.new) }
    ensures disk { (T.standing turns.old).held.device ≡ Some book.old.stream →
        SameDisk (T.standing turns.old).seen (T.standing turns.new).seen book.old.stream }
    ensures left { (begun : List Entry) → IsHalted (T.standing turns.old).setup (T.standing turns.old).number
        book.old.stream call fault begun (T.standing turns.old).seen →
        CallLeft (T.standing turns.old).setup (T.standing turns.old).number call (outcome.Failed result)
        begun (T.standing turns.new).seen }
    ensures begun { BeginsNone (T.standing turns.old).number (T.standing turns.old).seen (T.standing turns.new).seen }
    ensures stays { TakesNoneOut (T.standing turns.old).number (T.standing turns.old).seen (T.standing turns.new).seen }
    ensures alone { (T.standing turns.old).held.device ≡ Some book.old.stream →
        NobodyElseChanged (T.standing turns.old).number book.old.stream
        (T.standing turns.old).seen (T.standing turns.new).seen }
    ensures reason { IsCallReason (T.standing turns.old).setup book.old.stream call result }
    ensures full { IsFull {A = Unit {0}} 1 (T.standing turns.new) (Err result) }
{
    let mut journal = turns.take_journal();
    let pass = turns.me();
    let ended = fail(alloc, book, &mut journal, pass, call, fault);
    turns.give_journal(journal);
    answer_of(ended, fault)
}

// The course of a call after an attempt, with the reply told where the call was done.
fn told_course<T, Q>(ended: Attempt<T>, journal: &Journal<Q>, out: &mut [u8]) -> Course<T>
    requires fits { FitsAttempt ended journal.now.entries out.old }
    ensures { CourseAs ended result journal.now.entries out.old out.new }
{
    match ended {
        Attempt::Done => Course::Ended(Ok(tell_last(journal, out))),
        Attempt::Refused(error) => Course::Ended(Err(error)),
        Attempt::Stopped(error) => Course::Ended(Err(error)),
        Attempt::GoesOn(way) => Course::GoesOn(way),
    }
}

// Lands a page, whatever number is said to be its own: from 2^51 on there is none, and no call waits for one.
fn land_page<Q>(
    alloc: Global,
    book: &mut Book,
    journal: &mut Journal<Q>,
    pass: u32,
    call: &Call,
    page: u64,
    raw: Option<&[u8; 4096]>,
) -> Result<(), NoMemory>
    requires stepped { is_stepped call.now ≡ true }
    requires brings { brings_in call.now ≡ true }
    requires reserved { 0 < journal.old.reserved }
    requires may { (u : Setup) × MayLand u pass call.now page (option_copied raw) book.old journal.old }
    ensures { (u : Setup) → MayLand u pass call.now page (option_copied raw.entry) book.old journal.old →
        BookLandLeft u pass call.now page (option_copied raw.entry) result
        book.old book.new journal.old journal.new }
{
    if page < 1 << 51 {
        land_on_book(alloc, book, journal, pass, call, page, raw)
    } else {
        journal.release(1);
        Ok(())
    }
}

// Places the entry of a page that the disk failed to read, where it has a number and is on the disk alone.
fn tell_unread<Q>(book: &Book, journal: &mut Journal<Q>, pass: u32, page: u64) -> bool
    requires reserved { 0 < journal.old.reserved }
    requires may { (u : Setup) × StandUnder u book.now journal.old }
    ensures { (u : Setup) → StandUnder u book.now journal.old →
        UnreadLeft u pass page result book.now journal.old journal.new }
{
    if page < 1 << 51 {
        unread(book, journal, pass, page)
    } else {
        journal.release(1);
        false
    }
}

// What a call answers that met a fault and ended so.
fn answer_of(ended: Failed, fault: CcError) -> CcError
    ensures { result ≡ fault_answer ended fault }
{
    match ended {
        Failed::Refused(error) => error,
        Failed::Told => fault,
        Failed::Stopped(error) => error,
    }
}
