//! How a page that was looked for on the disk lands in its book.

ghost use Rattle.std.specs.Prelude.{◌≡◌, ℕ, ◌<◌, ◌^◌, true, List, Option, IfOk};
ghost use Rattle.std.specs.Option.{option_copied};
ghost use Rattle.cc_entry.specs.declared.call.Call.{Call};
ghost use Rattle.cc_entry.specs.declared.entry.Entry.{Entry};
ghost use Rattle.cc_book.specs.Book.{BookStands};
ghost use Rattle.cc_content.specs.Filling.{IsReadFrom};
ghost use Rattle.cc_effects.specs.Asked.{brings_in};
ghost use Rattle.cc_effects.specs.Places.{is_on_disk_alone};
ghost use Rattle.cc_model.specs.History.{history};
ghost use Rattle.cc_model.specs.Setup.{Setup};
ghost use Rattle.cc_step.specs.Step.{is_stepped, StandUnder};
ghost use Rattle.cc_step.specs.Fill.{book_page, PageIsRead, MayLand, BringLeft, LandLeft, UnreadLeft};
ghost use Rattle.cc_step.specs.Landing.{is_wanted, MayBring};

use crate::room::{has_room, has_valid_byte, page_id};
use crate::waits_for;
use cc_book::Book;
use cc_entry::{Call, Entry, NoMemory};
use cc_journal::Journal;
use std::alloc::Global;

/// A page that was looked for comes in exactly where the call still waits for it, there is room for its block, and it
/// was read if it has to be. The place that is reserved for it is used, or given back.
///
/// `raw` is what was read of it; `None` where it had no byte below the valid data length.
///
/// `NoMemory`, and then the place is given back.
pub fn land_on_book<Q>(
    alloc: Global,
    book: &mut Book,
    journal: &mut Journal<Q>,
    pass: u32,
    call: &Call,
    page: u64,
    raw: Option<&[u8; 4096]>,
) -> Result<(), NoMemory>
    requires stepped { is_stepped call.now ≡ true }
    requires brings { brings_in call.now ≡ true }
    requires reserved { 0 < journal.old.reserved }
    requires numbered { page < 2 ^ 51 }
    requires may { (u : Setup) × MayLand u pass call.now page (option_copied raw) book.old journal.old }
    ensures { (u : Setup) → MayLand u pass call.now page (option_copied raw.entry) book.old journal.old →
        LandLeft u pass call.now page (option_copied raw.entry) result
        book.old book.new journal.old journal.new }
{
    match is_wanted(alloc, book, journal, call, page) {
        Ok(true) => place(book, journal, pass, page, raw),
        Ok(false) => {
            journal.release(1);
            Ok(())
        }
        Err(error) => {
            journal.release(1);
            Err(error)
        }
    }
}

/// The disk failed to read a page: the entry, where the page is on the disk alone still, and whether it was placed.
/// The place that is reserved for it is used, or given back.
pub fn unread<Q>(book: &Book, journal: &mut Journal<Q>, pass: u32, page: u64) -> bool
    requires reserved { 0 < journal.old.reserved }
    requires numbered { page < 2 ^ 51 }
    requires may { (u : Setup) × StandUnder u book.now journal.old }
    ensures { (u : Setup) → StandUnder u book.now journal.old →
        UnreadLeft u pass page result book.now journal.old journal.new }
{
    if is_on_disk_alone(book, page) {
        let page = page_id(book, page);
        journal.push(Entry::FillFailed { pass, page });
        true
    } else {
        journal.release(1);
        false
    }
}

// Whether a page is not resident and has a byte below the valid data length.
fn is_on_disk_alone(book: &Book, page: u64) -> bool
    ensures { (opening : Option (ℕ → List ℕ)) (past : List Entry) → BookStands opening past book.now →
        result ≡ is_on_disk_alone (book_page book.now page) past }
{
    book.page(page).is_none() && has_valid_byte(book, page)
}

// Whether a call waits for this page, and there is room for its block.
fn is_wanted<Q>(
    alloc: Global,
    book: &Book,
    journal: &Journal<Q>,
    call: &Call,
    page: u64,
) -> Result<bool, NoMemory>
    requires { is_stepped call.now ≡ true }
    ensures { IfOk result (λ wanted. (u : Setup) → StandUnder u book.now journal.now →
        wanted ≡ is_wanted u journal.now.entries book.now.stream call.now page) }
{
    let waits = waits_for(alloc, book, journal, call)? == Some(page);
    Ok(waits && has_room(book, page))
}

// Brings in a page that a call waits for, where it was read or has no byte below the valid data length.
fn place<Q>(
    book: &mut Book,
    journal: &mut Journal<Q>,
    pass: u32,
    page: u64,
    raw: Option<&[u8; 4096]>,
) -> Result<(), NoMemory>
    requires reserved { 0 < journal.old.reserved }
    requires numbered { page < 2 ^ 51 }
    requires may { (u : Setup) × (it : Call) × MayBring u pass it page book.old journal.old }
    ensures { (u : Setup) (it : Call) → MayBring u pass it page book.old journal.old →
        PageIsRead u journal.old.entries book.old.stream page (option_copied raw.entry) →
        LandLeft u pass it page (option_copied raw.entry) result book.old book.new journal.old journal.new }
{
    match raw {
        Some(bytes) => bring_in(book, journal, pass, page, bytes),
        None => {
            if has_valid_byte(book, page) {
                journal.release(1);
                Ok(())
            } else {
                bring_in(book, journal, pass, page, &[0; 4096])
            }
        }
    }
}

// Brings in a page that a call waits for, of which these bytes were read.
fn bring_in<Q>(
    book: &mut Book,
    journal: &mut Journal<Q>,
    pass: u32,
    page: u64,
    raw: &[u8; 4096],
) -> Result<(), NoMemory>
    requires reserved { 0 < journal.old.reserved }
    requires numbered { page < 2 ^ 51 }
    requires may { (u : Setup) × (it : Call) × MayBring u pass it page book.old journal.old }
    ensures { (u : Setup) (it : Call) → MayBring u pass it page book.old journal.old →
        IsReadFrom (u.opening book.old.stream) (history journal.old.entries book.old.stream) page raw.now →
        BringLeft u pass it page result book.old book.new journal.old journal.new }
{
    let coming = page_id(book, page);
    match book.bring_in(journal, pass, coming, raw) {
        Ok(()) => Ok(()),
        Err(error) => {
            journal.release(1);
            Err(error)
        }
    }
}
