//! A page is brought in for a call.

ghost use Rattle.std.specs.Prelude.{◌≡◌, ◌<◌, true, false, List, IsErr, OnOk, Some};
ghost use Rattle.std.specs.Option.{option_copied, option_map};
ghost use Rattle.cc_entry.specs.declared.entry.Entry.{Entry};
ghost use Rattle.cc_traits.specs.Stop.{OnFailed};
ghost use Rattle.cc_effects.specs.Asked.{brings_in};
ghost use Rattle.cc_effects.specs.Calls.{IsUnderWay};
ghost use Rattle.cc_effects.specs.Moments.{IsIdle};
ghost use Rattle.cc_effects.specs.Places.{is_on_disk_alone};
ghost use Rattle.cc_step.specs.Step.{is_stepped};
ghost use Rattle.cc_writes.specs.Hands.{HasBook, IsAtRest, SameDisk, Went, WentWith};
ghost use Rattle.cc_writes.specs.Ways.{IsFull, WasWanted};
ghost use Rattle.cc_writes.specs.Visits.{IsElsewhere, CallIsOfStream, IsWaitedFor, VisitLandLeft, WasReadFor};
ghost use Rattle.cc_writes.specs.Calls.{PageStepLeft};
ghost use Rattle.cc_writes.specs.Writes.{HasBoth};
ghost use Rattle.cc_writes.specs.Rounds.{AwaitedPageLeft, IsBroughtKept, MayTellFailure, WasTold, CallWantedPage};

use crate::calls::{fail, given_up};
use crate::{land_at, release_at, unread_at};
use cc_book::Book;
use cc_entry::{Call, CcError, NoMemory};
use cc_traits::Stop;
use cc_turns::{Turns, read};
use std::alloc::Global;

/// Brings a page in that a call waits for, and for whose entry a place is reserved: read from the disk, where it has a
/// byte below the valid data length, or as zeros, and then nothing is asked of the disk. The call goes on, or fails.
pub(crate) fn bring<T: Turns>(
    alloc: Global,
    turns: &mut T,
    disk: &mut T::Disk,
    book: Book,
    call: Call,
    page: u64,
    keeps: bool,
) -> (Book, Result<Call, CcError>)
    requires known { book.stream < (T.standing turns.old).streams }
    requires both { HasBoth T.Disk.told T.Disk.faults (T.standing turns.old) book.stream book disk.old }
    requires reserved { (T.standing turns.old).in_flight ≡ 1 }
    requires stepped { is_stepped call ≡ true }
    requires brings { brings_in call ≡ true }
    requires filed { CallIsOfStream call book.stream }
    requires waited { IsWaitedFor (T.standing turns.old).setup book.stream call page (T.standing turns.old).seen }
    ensures both { HasBoth T.Disk.told T.Disk.faults (T.standing turns.new) book.stream result.0 disk.new }
    ensures went { WentWith 0 (T.standing turns.old) (T.standing turns.new) }
    ensures left { (begun : List Entry) →
        IsUnderWay (T.standing turns.old).number call begun (T.standing turns.old).seen →
        PageStepLeft (T.standing turns.old).setup (T.standing turns.old).number call result.1
        begun (T.standing turns.new).seen }
    ensures brought { OnOk result.1 (AwaitedPageLeft (T.standing turns.old) book.stream call page (T.standing turns.new).seen) }
    ensures kept { IsBroughtKept (T.standing turns.old) book.stream call page keeps result.1 (T.standing turns.new).seen }
    ensures unread { is_on_disk_alone (record { stream = book.stream; page = page }) (T.standing turns.old).seen ≡ false →
        disk.new ≡ disk.old }
    ensures full { IsFull 1 (T.standing turns.new) result.1 }
{
    if page < book.valid().div_ceil(4096) {
        bring_read(alloc, turns, disk, book, call, page, keeps)
    } else {
        land_for_call(alloc, turns, book, call, page, None)
    }
}

// Brings a page in that is on the disk alone, and is read from it.
fn bring_read<T: Turns>(
    alloc: Global,
    turns: &mut T,
    disk: &mut T::Disk,
    book: Book,
    call: Call,
    page: u64,
    keeps: bool,
) -> (Book, Result<Call, CcError>)
    requires known { book.stream < (T.standing turns.old).streams }
    requires both { HasBoth T.Disk.told T.Disk.faults (T.standing turns.old) book.stream book disk.old }
    requires reserved { (T.standing turns.old).in_flight ≡ 1 }
    requires stepped { is_stepped call ≡ true }
    requires brings { brings_in call ≡ true }
    requires filed { CallIsOfStream call book.stream }
    requires waited { IsWaitedFor (T.standing turns.old).setup book.stream call page (T.standing turns.old).seen }
    requires alone { is_on_disk_alone (record { stream = book.stream; page = page }) (T.standing turns.old).seen ≡ true }
    ensures both { HasBoth T.Disk.told T.Disk.faults (T.standing turns.new) book.stream result.0 disk.new }
    ensures went { WentWith 0 (T.standing turns.old) (T.standing turns.new) }
    ensures left { (begun : List Entry) →
        IsUnderWay (T.standing turns.old).number call begun (T.standing turns.old).seen →
        PageStepLeft (T.standing turns.old).setup (T.standing turns.old).number call result.1
        begun (T.standing turns.new).seen }
    ensures brought { OnOk result.1 (AwaitedPageLeft (T.standing turns.old) book.stream call page (T.standing turns.new).seen) }
    ensures kept { IsBroughtKept (T.standing turns.old) book.stream call page keeps result.1 (T.standing turns.new).seen }
    ensures full { IsFull 1 (T.standing turns.new) result.1 }
{
    let mut raw = [0; 4096];
    let (book, answer) = read_page(turns, disk, book, page, &mut raw, keeps);
    match answer {
        Ok(()) => land_for_call(alloc, turns, book, call, page, Some(&raw)),
        Err(Stop::Failed) => unread(alloc, turns, book, call, page),
        Err(Stop::NoMemory) => release(turns, book, call),
    }
}

// Reads a page from the disk. The book is given for as long as the disk takes, unless it is to be kept.
fn read_page<T: Turns>(
    turns: &mut T,
    disk: &mut T::Disk,
    book: Book,
    page: u64,
    raw: &mut [u8; 4096],
    keeps: bool,
) -> (Book, Result<(), Stop>)
    requires known { book.stream < (T.standing turns.old).streams }
    requires both { HasBoth T.Disk.told T.Disk.faults (T.standing turns.old) book.stream book disk.old }
    ensures both { HasBoth T.Disk.told T.Disk.faults (T.standing turns.new) book.stream result.0 disk.new }
    ensures went { Went (T.standing turns.old) (T.standing turns.new) }
    ensures idle { IsIdle (T.standing turns.old).number (T.standing turns.old).seen (T.standing turns.new).seen }
    ensures found { OnOk result.1 (WasReadFor (T.standing turns.new) book.stream page (Some raw.new)) }
    ensures failed { OnFailed result.1
        (MayTellFailure T.Disk.told T.Disk.faults (T.standing turns.new) book.stream page disk.new) }
    ensures kept { keeps ≡ true → T.standing turns.new ≡ T.standing turns.old }
{
    if keeps {
        (book, read(disk, page, raw))
    } else {
        read_free(turns, disk, book, page, raw)
    }
}

/// Reads a page with the book given. Answers `Stop::Failed` where the disk failed, and `Stop::NoMemory` where it could
/// not read for want of memory, or its count of faults is at its end.
pub fn read_free<T: Turns>(
    turns: &mut T,
    disk: &mut T::Disk,
    book: Book,
    page: u64,
    raw: &mut [u8; 4096],
) -> (Book, Result<(), Stop>)
    requires known { book.stream < (T.standing turns.old).streams }
    requires both { HasBoth T.Disk.told T.Disk.faults (T.standing turns.old) book.stream book disk.old }
    ensures both { HasBoth T.Disk.told T.Disk.faults (T.standing turns.new) book.stream result.0 disk.new }
    ensures went { Went (T.standing turns.old) (T.standing turns.new) }
    ensures idle { IsIdle (T.standing turns.old).number (T.standing turns.old).seen (T.standing turns.new).seen }
    ensures found { OnOk result.1 (WasReadFor (T.standing turns.new) book.stream page (Some raw.new)) }
    ensures failed { OnFailed result.1
        (MayTellFailure T.Disk.told T.Disk.faults (T.standing turns.new) book.stream page disk.new) }
{
    let stream = book.stream();
    turns.give_book(stream, book);
    let answer = read(disk, page, raw);
    let book = turns.take_book(stream);
    (book, answer)
}

// Brings a page in from the bytes that were read of it, where it was read.
fn land_for_call<T: Turns>(
    alloc: Global,
    turns: &mut T,
    mut book: Book,
    call: Call,
    page: u64,
    raw: Option<&[u8; 4096]>,
) -> (Book, Result<Call, CcError>)
    requires book { HasBook (T.standing turns.old) book.stream book }
    requires rest { IsAtRest (T.standing turns.old) book.stream }
    requires reserved { (T.standing turns.old).in_flight ≡ 1 }
    requires stepped { is_stepped call ≡ true }
    requires brings { brings_in call ≡ true }
    requires filed { CallIsOfStream call book.stream }
    requires read { WasReadFor (T.standing turns.old) book.stream page (option_map (λ bytes. bytes.now) raw) }
    ensures book { HasBook (T.standing turns.new) book.stream result.0 }
    ensures rest { IsAtRest (T.standing turns.new) book.stream }
    ensures went { WentWith 0 (T.standing turns.old) (T.standing turns.new) }
    ensures disk { SameDisk (T.standing turns.old).seen (T.standing turns.new).seen book.stream }
    ensures left { (begun : List Entry) →
        IsUnderWay (T.standing turns.old).number call begun (T.standing turns.old).seen →
        PageStepLeft (T.standing turns.old).setup (T.standing turns.old).number call result.1
        begun (T.standing turns.new).seen }
    ensures landed { OnOk result.1 (VisitLandLeft (T.standing turns.old) book.stream call page (option_copied raw.entry)
        (T.standing turns.new).seen) }
    ensures full { IsFull 1 (T.standing turns.new) result.1 }
{
    match land_at(alloc, turns, &mut book, &call, page, raw) {
        Ok(()) => (book, Ok(call)),
        Err(NoMemory) => (book, given_up(call, CcError::NoMemory)),
    }
}

// The disk failed to read a page for a call. The call fails, where the page is on the disk alone still.
fn unread<T: Turns>(
    alloc: Global,
    turns: &mut T,
    book: Book,
    call: Call,
    page: u64,
) -> (Book, Result<Call, CcError>)
    requires book { HasBook (T.standing turns.old) book.stream book }
    requires rest { IsAtRest (T.standing turns.old) book.stream }
    requires reserved { (T.standing turns.old).in_flight ≡ 1 }
    requires stepped { is_stepped call ≡ true }
    requires brings { brings_in call ≡ true }
    requires filed { CallIsOfStream call book.stream }
    requires wanted { CallWantedPage (T.standing turns.old) book.stream call page }
    ensures book { HasBook (T.standing turns.new) book.stream result.0 }
    ensures rest { IsAtRest (T.standing turns.new) book.stream }
    ensures went { WentWith 0 (T.standing turns.old) (T.standing turns.new) }
    ensures told { WasTold (T.standing turns.old) (T.standing turns.new) book.stream page }
    ensures left { (begun : List Entry) →
        IsUnderWay (T.standing turns.old).number call begun (T.standing turns.old).seen →
        WasWanted (T.standing turns.old).setup call (record { stream = book.stream; page = page })
        begun (T.standing turns.old).seen →
        PageStepLeft (T.standing turns.old).setup (T.standing turns.old).number call result.1
        begun (T.standing turns.new).seen }
    ensures passed_over { OnOk result.1
        (IsElsewhere (T.standing turns.old) book.stream page (T.standing turns.new).seen) }
    ensures full { IsFull 1 (T.standing turns.new) result.1 }
{
    if unread_at(turns, &book, page) {
        fail(alloc, turns, book, call, CcError::ReadFault { page })
    } else {
        (book, Ok(call))
    }
}

// The disk found no memory for the read of a page: the call fails, and the place that is reserved is given back.
fn release<T: Turns>(turns: &mut T, book: Book, call: Call) -> (Book, Result<Call, CcError>)
    requires book { HasBook (T.standing turns.old) book.stream book }
    requires rest { IsAtRest (T.standing turns.old) book.stream }
    requires reserved { (T.standing turns.old).in_flight ≡ 1 }
    requires stepped { is_stepped call ≡ true }
    requires brings { brings_in call ≡ true }
    ensures book { HasBook (T.standing turns.new) book.stream result.0 }
    ensures rest { IsAtRest (T.standing turns.new) book.stream }
    ensures went { WentWith 0 (T.standing turns.old) (T.standing turns.new) }
    ensures disk { SameDisk (T.standing turns.old).seen (T.standing turns.new).seen book.stream }
    ensures left { (begun : List Entry) →
        IsUnderWay (T.standing turns.old).number call begun (T.standing turns.old).seen →
        PageStepLeft (T.standing turns.old).setup (T.standing turns.old).number call result.1
        begun (T.standing turns.new).seen }
    ensures failed { IsErr result.1 }
    ensures full { IsFull 1 (T.standing turns.new) result.1 }
{
    release_at(turns);
    (book, given_up(call, CcError::NoMemory))
}
