//! A call that ends on the book of its stream and the journal: it is refused, or done, or may not end now.

ghost use Rattle.std.specs.Prelude.{◌≡◌, ℕ, List, [], ◌∷◌, Option, None, Some, true, IfOk, OnErr, OnOk};
ghost use Rattle.cc_entry.specs.declared.entry.Entry.{Entry};
ghost use Rattle.cc_entry.specs.declared.reply.Outcome.TheVariants as outcome;
ghost use Rattle.cc_book.specs.Book.{BookStands, Stays};
ghost use Rattle.cc_model.specs.History.{history};
ghost use Rattle.cc_model.specs.Holds.{holds_of};
ghost use Rattle.cc_model.specs.Images.{open_of};
ghost use Rattle.cc_model.specs.Setup.{Setup};
ghost use Rattle.cc_world.specs.Calls.{CallEventLeft, CallWent, IsFiledOn, CallIsMade, CallIsRefusedSo, IsReplied, CallIsUnrefused, CallPlacingLeft, asked_on, asked_ready, ends_on_book, spared_on};
ghost use Rattle.cc_world.specs.Notes.{NotesStand};
ghost use Rattle.cc_world.specs.Pages.{Says};
ghost use Rattle.cc_effects.specs.Events.{call_entry, reason_of};

use crate::copies::copy_of;
use crate::filed::is_filed;
use crate::notes::Notes;
use crate::replies::reply_now;
use cc_book::Book;
use cc_effects::StepReply;
use cc_entry::{Call, CcError, NoMemory, Reply};
use cc_journal::Journal;
use cc_step::{places_asked, places_spared};
use std::alloc::Global;

/// A call of a pass ends on the book of the stream under which it is filed. `resting` says whether no transfer of the
/// stream is open.
pub(crate) fn end_call<Q>(
    alloc: Global,
    book: &mut Book,
    journal: &mut Journal<Q>,
    notes: &Notes,
    pass: u32,
    call: Call,
    resting: bool,
) -> StepReply<Q>
    requires made { (u : Setup) × CallIsMade u 0 call book.old journal.old }
    requires on_book { ends_on_book call ≡ true }
    requires notes { NotesStand journal.old.entries notes.now }
    requires resting { Says resting (open_of (history journal.old.entries book.old.stream) ≡ None) }
    ensures { (u : Setup) → CallIsMade u 0 call book.old journal.old →
        CallEventLeft u pass call result book.old book.new journal.old journal.new }
{
    if !is_filed(book, pass, &call) {
        return StepReply::NotNow;
    }
    end_filed(alloc, book, journal, notes, pass, call, resting)
}

// Ends a call that may be filed under the book's stream.
fn end_filed<Q>(
    alloc: Global,
    book: &mut Book,
    journal: &mut Journal<Q>,
    notes: &Notes,
    pass: u32,
    call: Call,
    resting: bool,
) -> StepReply<Q>
    requires made { (u : Setup) × CallIsMade u 0 call book.old journal.old }
    requires on_book { ends_on_book call ≡ true }
    requires notes { NotesStand journal.old.entries notes.now }
    requires filed { IsFiledOn journal.old.entries pass book.old.stream call }
    requires resting { Says resting (open_of (history journal.old.entries book.old.stream) ≡ None) }
    ensures { (u : Setup) → CallIsMade u 0 call book.old journal.old →
        CallEventLeft u pass call result book.old book.new journal.old journal.new }
{
    match reason(alloc, book, journal, &call) {
        Ok(None) => admit(alloc, book, journal, notes, pass, call, resting),
        Ok(Some(error)) => refuse(book, journal, pass, call, error),
        Err(NoMemory) => StepReply::Refused(CcError::NoMemory),
    }
}

// Why a call is refused. The end of a noncached write passed its tests at its store.
fn reason<Q>(
    alloc: Global,
    book: &Book,
    journal: &Journal<Q>,
    call: &Call,
) -> Result<Option<CcError>, NoMemory>
    ensures { IfOk result (λ refused. (u : Setup) → CallIsMade u 0 call.now book.now journal.now →
        refused ≡ reason_of u journal.now.entries call.now) }
{
    match call {
        Call::NcWrite { .. } => Ok(None),
        _ => book.refusal(alloc, journal, call),
    }
}

/// A call is refused, where there is room for its entry.
pub(crate) fn refuse<Q>(
    book: &mut Book,
    journal: &mut Journal<Q>,
    pass: u32,
    call: Call,
    refused: CcError,
) -> StepReply<Q>
    requires refused { (u : Setup) × CallIsRefusedSo u pass call refused book.old journal.old }
    ensures { (u : Setup) → CallIsRefusedSo u pass call refused book.old journal.old →
        CallEventLeft u pass call result book.old book.new journal.old journal.new }
{
    match journal.reserve(1) {
        Ok(()) => {
            let owed = journal.owed_end(pass);
            book.fail(journal, pass, call, refused);
            journal.release(owed);
            StepReply::Refused(refused)
        }
        Err(error) => StepReply::Refused(error),
    }
}

// Ends a call that nothing refuses, where it may end now.
fn admit<Q>(
    alloc: Global,
    book: &mut Book,
    journal: &mut Journal<Q>,
    notes: &Notes,
    pass: u32,
    call: Call,
    resting: bool,
) -> StepReply<Q>
    requires unrefused { (u : Setup) × CallIsUnrefused u 0 pass call book.old journal.old }
    requires on_book { ends_on_book call ≡ true }
    requires notes { NotesStand journal.old.entries notes.now }
    requires resting { Says resting (open_of (history journal.old.entries book.old.stream) ≡ None) }
    ensures { (u : Setup) → CallIsUnrefused u 0 pass call book.old journal.old →
        CallEventLeft u pass call result book.old book.new journal.old journal.new }
{
    match reply_now(alloc, book, journal, notes, pass, &call, resting) {
        Ok(Some(reply)) => finish(alloc, book, journal, pass, call, reply),
        Ok(None) => StepReply::NotNow,
        Err(NoMemory) => StepReply::Refused(CcError::NoMemory),
    }
}

// Ends a call that may be done with this reply, of which the caller gets a copy.
fn finish<Q>(
    alloc: Global,
    book: &mut Book,
    journal: &mut Journal<Q>,
    pass: u32,
    call: Call,
    reply: Reply,
) -> StepReply<Q>
    requires replied { (u : Setup) × IsReplied u 0 pass call reply book.old journal.old }
    ensures { (u : Setup) → IsReplied u 0 pass call reply book.old journal.old →
        CallEventLeft u pass call result book.old book.new journal.old journal.new }
{
    match copy_of(alloc, &reply) {
        Ok(copy) => match place(alloc, book, journal, pass, call, reply) {
            Ok(()) => StepReply::Done(copy),
            Err(error) => StepReply::Refused(error),
        },
        Err(NoMemory) => StepReply::Refused(CcError::NoMemory),
    }
}

// Places the entry of a call that may be done with this reply, where there is room for it and what it reserves.
fn place<Q>(
    alloc: Global,
    book: &mut Book,
    journal: &mut Journal<Q>,
    pass: u32,
    call: Call,
    reply: Reply,
) -> Result<(), CcError>
    requires replied { (u : Setup) × IsReplied u 0 pass call reply book.old journal.old }
    ensures { (u : Setup) → IsReplied u 0 pass call reply book.old journal.old →
        CallPlacingLeft u pass call reply result book.old book.new journal.old journal.new }
{
    let asked = asked(book, &call);
    match journal.reserve(asked) {
        Ok(()) => match done(alloc, book, journal, pass, call, reply) {
            Ok(()) => Ok(()),
            Err(NoMemory) => {
                journal.release(asked);
                Err(CcError::NoMemory)
            }
        },
        Err(error) => Err(error),
    }
}

/// Places the entry of a call that may be done with this reply, and for which the places are reserved that it asks.
pub(crate) fn done<Q>(
    alloc: Global,
    book: &mut Book,
    journal: &mut Journal<Q>,
    pass: u32,
    call: Call,
    reply: Reply,
) -> Result<(), NoMemory>
    requires replied { (u : Setup) × IsReplied u (asked_ready journal.old.entries pass call) pass call reply book.old journal.old }
    ensures placed { OnOk result ((u : Setup) →
        IsReplied u (asked_ready journal.old.entries pass call) pass call reply book.old journal.old →
        CallWent u (call_entry journal.old.entries pass call (outcome.Done reply) ∷ []) book.old book.new
        journal.old journal.new) }
    ensures err { OnErr result (Stays journal.old journal.new book.old book.new) }
{
    let spared = spared(book, journal, pass, &call);
    book.done(alloc, journal, pass, call, reply)?;
    journal.release(spared);
    Ok(())
}

// How many places a call asks that may be done, with that of its entry. The end of a noncached write has its place.
fn asked(book: &Book, call: &Call) -> u64
    ensures { (opening : Option (ℕ → List ℕ)) (past : List Entry) → BookStands opening past book.now →
        result ≡ asked_on (holds_of (history past book.now.stream)) call.now }
{
    match call {
        Call::NcWrite { .. } => 0,
        _ => places_asked(book, call),
    }
}

// How many reserved places a call gives back that is done, beside that of its entry: that of a set-dirty, where it ends a
// pin that owes one, and that of the end of a noncached write that the pass owed, where it is not that end.
fn spared<Q>(book: &Book, journal: &Journal<Q>, pass: u32, call: &Call) -> u64
    requires { (opening : Option (ℕ → List ℕ)) × BookStands opening journal.now.entries book.now }
    ensures { result ≡ spared_on journal.now.entries pass book.now.stream call.now }
{
    match call {
        Call::NcWrite { .. } => 0,
        _ => places_spared(book, call) + journal.owed_end(pass),
    }
}
