//! A page is written for a call, which goes on, or fails.

ghost use Rattle.std.specs.Prelude.{◌≡◌, ◌+◌, ◌<◌, true, List, None, Err, IfErr, IfOk, IsErr};
ghost use Rattle.cc_entry.specs.declared.entry.End.TheVariants as how;
ghost use Rattle.cc_entry.specs.declared.entry.Entry.{Entry};
ghost use Rattle.cc_effects.specs.Asked.{Calls, may_write};
ghost use Rattle.cc_effects.specs.Calls.{IsUnderWay};
ghost use Rattle.cc_effects.specs.Refusals.{may_refuse};
ghost use Rattle.cc_model.specs.History.{history};
ghost use Rattle.cc_model.specs.Refusals.{refusal};
ghost use Rattle.cc_step.specs.Step.{is_answered};
ghost use Rattle.cc_effects.specs.Begins.{BeginsAscending, BeginsNone, TakesNoneOut};
ghost use Rattle.cc_writes.specs.Alone.{NobodyElseChanged};
ghost use Rattle.cc_writes.specs.Hands.{HasBook, IsAtRest, SameDisk, Went};
ghost use Rattle.cc_writes.specs.Ways.{IsFull, IsHalted, IsCallReason};
ghost use Rattle.cc_writes.specs.Visits.{CallIsOfStream};
ghost use Rattle.cc_writes.specs.Calls.{IsFullWriting, KeepsWork, MayFaultInWriting, PageStepLeft};
ghost use Rattle.cc_writes.specs.Writes.{HasBoth, HasTransferred, IsToWrite};

use crate::fail_at;
use crate::writes::{PageTransfer, write_page};
use cc_book::Book;
use cc_entry::{Call, CcError};
use cc_turns::Turns;
use std::alloc::Global;

/// Writes a dirty page for a call, which may write it. The call goes on, or fails.
pub fn write_for<T: Turns>(
    alloc: Global,
    turns: &mut T,
    disk: &mut T::Disk,
    book: Book,
    call: Call,
    page: u64,
    keeps: bool,
) -> (Book, Result<Call, CcError>)
    requires known { book.stream < (T.standing turns.old).streams }
    requires both { HasBoth T.Disk.told T.Disk.faults (T.standing turns.old) book.stream book disk.old }
    requires none { (T.standing turns.old).in_flight ≡ 0 }
    requires answered { is_answered call ≡ true }
    requires faults { MayFaultInWriting call }
    requires filed { CallIsOfStream call book.stream }
    requires admitted { refusal (T.standing turns.old).setup (T.standing turns.old).seen
        (history (T.standing turns.old).seen book.stream) call ≡ None }
    requires asked { may_write (Calls call) (record { stream = book.stream; page = page })
        (T.standing turns.old).seen ≡ true }
    requires to_write { IsToWrite (record { stream = book.stream; page = page }) (T.standing turns.old).seen }
    ensures both { HasBoth T.Disk.told T.Disk.faults (T.standing turns.new) book.stream result.0 disk.new }
    ensures went { Went (T.standing turns.old) (T.standing turns.new) }
    ensures left { (begun : List Entry) →
        IsUnderWay (T.standing turns.old).number call begun (T.standing turns.old).seen →
        PageStepLeft (T.standing turns.old).setup (T.standing turns.old).number call result.1
        begun (T.standing turns.new).seen }
    ensures reason { IfErr result.1 (IsCallReason (T.standing turns.old).setup book.stream call) }
    ensures written { IfOk result.1 (λ again. HasTransferred (T.standing turns.old)
        (record { stream = book.stream; page = page }) how.Good keeps (T.standing turns.new).seen) }
    ensures works { IfOk result.1 (λ again. KeepsWork (T.standing turns.old)
        (record { stream = book.stream; page = page }) (T.standing turns.new).seen) }
    ensures begun { BeginsAscending (T.standing turns.old).number page (page + 1)
        (T.standing turns.old).seen (T.standing turns.new).seen }
    ensures stays { TakesNoneOut (T.standing turns.old).number (T.standing turns.old).seen (T.standing turns.new).seen }
    ensures alone { keeps ≡ true → NobodyElseChanged (T.standing turns.old).number book.stream
        (T.standing turns.old).seen (T.standing turns.new).seen }
    ensures full { IsFull 2 (T.standing turns.new) result.1 }
    ensures writing { IsFullWriting call (T.standing turns.new) result.1 }
{
    let (book, written) = write_page(turns, disk, book, page, keeps);
    match written {
        Ok(PageTransfer::Written) => (book, Ok(call)),
        Ok(PageTransfer::NotWritten) => fail(
            alloc,
            turns,
            book,
            call,
            CcError::WriteFault { page },
        ),
        Ok(PageTransfer::NotLogged(handle)) => {
            let handle = u64::from(handle);
            fail(alloc, turns, book, call, CcError::LogFault { handle })
        }
        Err(error) => (book, given_up(call, error)),
    }
}

/// Ends a call that met a fault: with the fault, or with a refusal that others brought about meanwhile.
pub fn fail<T: Turns>(
    alloc: Global,
    turns: &mut T,
    mut book: Book,
    call: Call,
    fault: CcError,
) -> (Book, Result<Call, CcError>)
    requires book { HasBook (T.standing turns.old) book.stream book }
    requires rest { IsAtRest (T.standing turns.old) book.stream }
    requires none { (T.standing turns.old).in_flight ≡ 0 }
    requires answered { is_answered call ≡ true }
    requires listed { may_refuse call fault ≡ true }
    requires filed { CallIsOfStream call book.stream }
    requires halted { (begun : List Entry) × IsHalted (T.standing turns.old).setup (T.standing turns.old).number
        book.stream call fault begun (T.standing turns.old).seen }
    ensures book { HasBook (T.standing turns.new) book.stream result.0 }
    ensures rest { IsAtRest (T.standing turns.new) book.stream }
    ensures went { Went (T.standing turns.old) (T.standing turns.new) }
    ensures disk { SameDisk (T.standing turns.old).seen (T.standing turns.new).seen book.stream }
    ensures left { (begun : List Entry) → IsHalted (T.standing turns.old).setup (T.standing turns.old).number
        book.stream call fault begun (T.standing turns.old).seen →
        PageStepLeft (T.standing turns.old).setup (T.standing turns.old).number call result.1
        begun (T.standing turns.new).seen }
    ensures begun { BeginsNone (T.standing turns.old).number (T.standing turns.old).seen (T.standing turns.new).seen }
    ensures stays { TakesNoneOut (T.standing turns.old).number (T.standing turns.old).seen (T.standing turns.new).seen }
    ensures alone { NobodyElseChanged (T.standing turns.old).number book.stream
        (T.standing turns.old).seen (T.standing turns.new).seen }
    ensures reason { IfErr result.1 (IsCallReason (T.standing turns.old).setup book.stream call) }
    ensures failed { IsErr result.1 }
    ensures full { IsFull 1 (T.standing turns.new) result.1 }
{
    let error = fail_at(alloc, turns, &mut book, call, fault);
    (book, Err(error))
}

/// A call that is given up, for want of room or of memory. Answers the error that is handed in.
pub fn given_up(_call: Call, error: CcError) -> Result<Call, CcError>
    ensures { result ≡ Err error }
{
    Err(error)
}
