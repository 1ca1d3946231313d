//! What a call that may bring pages in does next on its book.

ghost use Rattle.std.specs.Prelude.{◌≡◌, ℕ, true, None};
ghost use Rattle.cc_effects.specs.Asked.{brings_in, makes_room};
ghost use Rattle.cc_model.specs.History.{history};
ghost use Rattle.cc_model.specs.Ranges.{range_of};
ghost use Rattle.cc_model.specs.Setup.{Setup};
ghost use Rattle.cc_model.specs.Touches.{size_of};
ghost use Rattle.cc_step.specs.Step.{is_answered, is_stepped};
ghost use Rattle.cc_step.specs.Fill.{MayFill, NextLeft, MakeRoomLeft, MakesWay};
ghost use Rattle.cc_step.specs.Room.{IsWaiting, IsCrowded, IsToGo, IsDirtyIn};

use crate::attempt;
use crate::room::{block_to_go, dirty_in, has_room, least_in, page_id};
use crate::ways::{Attempt, Way};
use cc_book::Book;
use cc_entry::{Call, CcError};
use cc_journal::Journal;
use std::alloc::Global;

/// Goes on with a call of this pass as far as its book and the journal alone allow.
///
/// `Stopped` with `JournalFull` or `NoMemory`.
pub fn next<Q>(
    alloc: Global,
    book: &mut Book,
    journal: &mut Journal<Q>,
    pass: u32,
    call: Call,
) -> Attempt<Way>
    requires stepped { is_stepped call ≡ true }
    requires brings { brings_in call ≡ true }
    requires may { (u : Setup) × MayFill u pass call book.old journal.old }
    ensures { (u : Setup) → MayFill u pass call book.old journal.old →
        NextLeft u pass call result book.old book.new journal.old journal.new }
{
    match attempt(alloc, book, journal, pass, call) {
        Attempt::Done => Attempt::Done,
        Attempt::Refused(error) => Attempt::Refused(error),
        Attempt::Stopped(error) => Attempt::Stopped(error),
        Attempt::GoesOn((page, call)) => bring(alloc, book, journal, pass, page, call),
    }
}

// Goes on with a call that waits for a page: the page is to come in, or room is made for its block.
fn bring<Q>(
    alloc: Global,
    book: &mut Book,
    journal: &mut Journal<Q>,
    pass: u32,
    page: u64,
    call: Call,
) -> Attempt<Way>
    requires stepped { is_stepped call ≡ true }
    requires brings { brings_in call ≡ true }
    requires may { (u : Setup) × MayFill u pass call book.old journal.old
        × IsWaiting u journal.old.entries book.old.stream call page }
    ensures { (u : Setup) → MayFill u pass call book.old journal.old →
        IsWaiting u journal.old.entries book.old.stream call page →
        NextLeft u pass call result book.old book.new journal.old journal.new }
{
    if has_room(book, page) {
        match journal.reserve(1) {
            Ok(()) => Attempt::GoesOn(Way::Reads(page, call)),
            Err(error) => Attempt::Stopped(error),
        }
    } else {
        match make_room(alloc, book, journal, pass, call) {
            Ok(way) => Attempt::GoesOn(way),
            Err(error) => Attempt::Stopped(error),
        }
    }
}

/// Makes room for the block of the page that a call waits for: a dirty page of the block to give up is to be written, or
/// its least page goes out.
///
/// `JournalFull`, `NoMemory`.
pub fn make_room<Q>(
    alloc: Global,
    book: &mut Book,
    journal: &mut Journal<Q>,
    pass: u32,
    call: Call,
) -> Result<Way, CcError>
    requires answered { is_answered call ≡ true }
    requires room { makes_room call ≡ true }
    requires may { (u : Setup) × (page : ℕ) × MayFill u pass call book.old journal.old
        × IsCrowded u journal.old.entries call page book.old }
    ensures left { (u : Setup) (page : ℕ) → MayFill u pass call book.old journal.old →
        IsCrowded u journal.old.entries call page book.old →
        MakeRoomLeft u pass call result book.old book.new journal.old journal.new }
    ensures way { MakesWay result }
{
    match block_to_go(alloc, book, &call) {
        Ok(block) => give_up(book, journal, pass, block, call),
        Err(_) => Err(CcError::NoMemory),
    }
}

// Goes on with the block to give up: a dirty page of it is to be written, or its least page goes out.
fn give_up<Q>(
    book: &mut Book,
    journal: &mut Journal<Q>,
    pass: u32,
    block: u64,
    call: Call,
) -> Result<Way, CcError>
    requires answered { is_answered call ≡ true }
    requires room { makes_room call ≡ true }
    requires may { (u : Setup) × (page : ℕ) × MayFill u pass call book.old journal.old
        × IsCrowded u journal.old.entries call page book.old
        × IsToGo (history journal.old.entries book.old.stream)
        (range_of (size_of (history journal.old.entries book.old.stream)) call) block }
    ensures left { (u : Setup) (page : ℕ) → MayFill u pass call book.old journal.old →
        IsCrowded u journal.old.entries call page book.old →
        IsToGo (history journal.old.entries book.old.stream)
        (range_of (size_of (history journal.old.entries book.old.stream)) call) block →
        MakeRoomLeft u pass call result book.old book.new journal.old journal.new }
    ensures way { MakesWay result }
{
    match dirty_in(book, journal, block) {
        Some(page) => Ok(Way::Writes(page, call)),
        None => empty(book, journal, pass, block, call),
    }
}

// Takes the least page out of the block to give up, of which no page is dirty.
fn empty<Q>(
    book: &mut Book,
    journal: &mut Journal<Q>,
    pass: u32,
    block: u64,
    call: Call,
) -> Result<Way, CcError>
    requires answered { is_answered call ≡ true }
    requires room { makes_room call ≡ true }
    requires may { (u : Setup) × (page : ℕ) × MayFill u pass call book.old journal.old
        × IsCrowded u journal.old.entries call page book.old
        × IsToGo (history journal.old.entries book.old.stream)
        (range_of (size_of (history journal.old.entries book.old.stream)) call) block
        × IsDirtyIn (history journal.old.entries book.old.stream) block None }
    ensures left { (u : Setup) (page : ℕ) → MayFill u pass call book.old journal.old →
        IsCrowded u journal.old.entries call page book.old →
        IsToGo (history journal.old.entries book.old.stream)
        (range_of (size_of (history journal.old.entries book.old.stream)) call) block →
        IsDirtyIn (history journal.old.entries book.old.stream) block None →
        MakeRoomLeft u pass call result book.old book.new journal.old journal.new }
    ensures way { MakesWay result }
{
    let page = least_in(book, block).unwrap();
    match journal.reserve(1) {
        Ok(()) => {
            let going = page_id(book, page);
            book.take_out(journal, pass, going);
            Ok(Way::WentOut(call))
        }
        Err(error) => Err(error),
    }
}
