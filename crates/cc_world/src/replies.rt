//! What a call answers that may end now on the book of its stream and the journal.

ghost use Rattle.std.specs.Prelude.{◌≡◌, ℕ, List, Option, None, IfOk, true};
ghost use Rattle.cc_model.specs.History.{history};
ghost use Rattle.cc_model.specs.Images.{open_of};
ghost use Rattle.cc_model.specs.Setup.{Setup};
ghost use Rattle.cc_step.specs.Step.{is_stepped};
ghost use Rattle.cc_world.specs.Calls.{IsCallAnswer, CallIsUnrefused, ends_on_book, unit_if};
ghost use Rattle.cc_world.specs.Notes.{NotesStand};
ghost use Rattle.cc_world.specs.Pages.{Says};

use crate::notes::Notes;
use crate::residents::has_resident;
use cc_book::Book;
use cc_entry::{Call, NoMemory, Reply};
use cc_journal::Journal;
use cc_step::{absent, reply};
use std::alloc::Global;

/// What a call of a pass answers that nothing refuses; none where it may not end now. `resting` says whether no transfer
/// of the stream is open.
pub(crate) fn reply_now<Q>(
    alloc: Global,
    book: &Book,
    journal: &Journal<Q>,
    notes: &Notes,
    pass: u32,
    call: &Call,
    resting: bool,
) -> Result<Option<Reply>, NoMemory>
    requires on_book { ends_on_book call.now ≡ true }
    requires notes { NotesStand journal.now.entries notes.now }
    requires resting { Says resting (open_of (history journal.now.entries book.now.stream) ≡ None) }
    ensures { IfOk result (λ answer. (u : Setup) → CallIsUnrefused u 0 pass call.now book.now journal.now →
        IsCallAnswer u journal.now.entries pass book.now.stream call.now answer) }
{
    match call {
        Call::Flush { span, .. } => {
            let flushed = notes.syncs.is_flushed(pass, book.stream(), span);
            Ok(unit_if(flushed))
        }
        Call::Purge { span, .. } => Ok(unit_if(!has_resident(book, &notes.blocks, span))),
        Call::Discard { .. } => Ok(unit_if(resting)),
        Call::NcWrite { page, .. } => Ok(unit_if(
            notes.passes.may_finish(pass, book.stream(), *page),
        )),
        _ => reply_stepped(alloc, book, journal, call),
    }
}

// What a call answers that is stepped: none where it waits for a page.
fn reply_stepped<Q>(
    alloc: Global,
    book: &Book,
    journal: &Journal<Q>,
    call: &Call,
) -> Result<Option<Reply>, NoMemory>
    requires stepped { is_stepped call.now ≡ true }
    ensures { IfOk result (λ answer. (u : Setup) (pass : ℕ) → CallIsUnrefused u 0 pass call.now book.now journal.now →
        IsCallAnswer u journal.now.entries pass book.now.stream call.now answer) }
{
    match absent(alloc, book, call)? {
        Some(_) => Ok(None),
        None => Ok(Some(reply(alloc, book, journal, call)?)),
    }
}

// No answer but that the call is done, where it may end.
fn unit_if(ready: bool) -> Option<Reply>
    ensures { result ≡ unit_if ready }
{
    if ready { Some(Reply::Unit) } else { None }
}
