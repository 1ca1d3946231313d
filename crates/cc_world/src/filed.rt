//! Whether a call may be filed under the stream of a book.

ghost use Rattle.std.specs.Prelude.{◌≡◌, ℕ, List, Option, Some};
ghost use Rattle.cc_book.specs.Book.{BookStands};
ghost use Rattle.cc_entry.specs.declared.entry.Entry.{Entry};
ghost use Rattle.cc_model.specs.History.{history};
ghost use Rattle.cc_model.specs.Holds.{hold_at, holds_of};
ghost use Rattle.cc_world.specs.Calls.{IsFiledOn};
ghost use Rattle.cc_world.specs.HoldUses.{fits, hold_has_range, hold_in_row, is_of_kind, serves_use, use_of, hold_use};
ghost use Rattle.cc_world.specs.Pages.{Says};
ghost use Rattle.cc_effects.specs.Events.{filed_under};

use cc_book::Book;
use cc_entry::{Call, HoldKind, HoldRow};

/// What a call asks of the hold that it names: its id, its kind, where not each kind serves, and so many bytes from a place
/// on, where it asks any.
#[derive(Clone, Copy)]
pub(crate) struct HoldUse {
    pub(crate) hold: u64,
    pub(crate) kind: Option<HoldKind>,
    pub(crate) range: Option<(u64, u64)>,
}

/// Whether a call of a pass that is filed under the book's stream may be: it names a file, or a hold that this pass made,
/// of the call's kind and with its range.
pub(crate) fn is_filed(book: &Book, pass: u32, call: &Call) -> bool
    ensures { (opening : Option (ℕ → List ℕ)) (past : List Entry) → BookStands opening past book.now →
        filed_under past call.now ≡ Some book.now.stream →
        Says result (IsFiledOn past pass book.now.stream call.now) }
{
    match use_of(call) {
        Some(asked) => serves(book, pass, asked),
        None => true,
    }
}

// What a call asks of the hold that it names, where it names one.
fn use_of(call: &Call) -> Option<HoldUse>
    ensures { result ≡ use_of call.now }
{
    match call {
        Call::PinMapped { hold, .. } => used(*hold, HoldKind::Map, None),
        Call::MappedRead { hold, at, len } => used(*hold, HoldKind::Map, Some((*at, *len))),
        Call::PinnedRead { hold, at, len } => used(*hold, HoldKind::Pin, Some((*at, *len))),
        Call::PinnedWrite { hold, at, bytes } => {
            used(*hold, HoldKind::Pin, Some((*at, bytes.len())))
        }
        Call::SetDirty { hold, .. } | Call::Repin { hold } => used(*hold, HoldKind::Pin, None),
        Call::MdlBytes { hold, at, len } => used(*hold, HoldKind::ReadChain, Some((*at, *len))),
        Call::MdlStore { hold, at, bytes } => {
            used(*hold, HoldKind::WriteChain, Some((*at, bytes.len())))
        }
        Call::EndHold { hold } => Some(HoldUse {
            hold: *hold,
            kind: None,
            range: None,
        }),
        _ => None,
    }
}

// A hold of this id and kind is asked for, with these bytes.
fn used(hold: u64, kind: HoldKind, range: Option<(u64, u64)>) -> Option<HoldUse>
    ensures { result ≡ hold_use hold kind range }
{
    Some(HoldUse {
        hold,
        kind: Some(kind),
        range,
    })
}

// Whether an open hold of the pass is what is asked.
fn serves(book: &Book, pass: u32, asked: HoldUse) -> bool
    ensures { (opening : Option (ℕ → List ℕ)) (past : List Entry) → BookStands opening past book.now →
        result ≡ serves_use pass asked (hold_at (holds_of (history past book.now.stream)) asked.hold) }
{
    let Some(maker) = book.maker(asked.hold) else {
        return false;
    };
    match book.hold(asked.hold) {
        Some(hold) => fits(maker, &hold, pass, asked),
        None => false,
    }
}

// Whether a hold was made by the pass, is of the kind that is asked and has the bytes.
fn fits(maker: u32, row: &HoldRow, pass: u32, asked: HoldUse) -> bool
    ensures { result ≡ fits pass asked (hold_in_row maker row.now) }
{
    maker == pass && is_of_kind(row.kind, asked.kind) && has_range(row, asked.range)
}

// Whether a kind is the one that is asked, where one is.
fn is_of_kind(kind: HoldKind, asked: Option<HoldKind>) -> bool
    ensures { result ≡ is_of_kind asked kind }
{
    match (asked, kind) {
        (None, _)
        | (Some(HoldKind::Map), HoldKind::Map)
        | (Some(HoldKind::Pin), HoldKind::Pin)
        | (Some(HoldKind::Repin), HoldKind::Repin)
        | (Some(HoldKind::ReadChain), HoldKind::ReadChain)
        | (Some(HoldKind::WriteChain), HoldKind::WriteChain) => true,
        (Some(_), _) => false,
    }
}

// Whether a hold has the bytes that are asked, where any are.
fn has_range(row: &HoldRow, asked: Option<(u64, u64)>) -> bool
    ensures { (maker : ℕ) → result ≡ hold_has_range asked (hold_in_row maker row.now) }
{
    match asked {
        Some((at, len)) => {
            let end = u128::from(at) + u128::from(len);
            row.at <= at && end <= u128::from(row.at) + u128::from(row.len)
        }
        None => true,
    }
}
