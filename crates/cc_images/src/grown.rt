//! The pages that have grown, each by its first byte that became valid since the disk took the page. A flush takes them
//! out from the front on, so they stand in a ring.

ghost use Rattle.std.specs.Prelude.{◌≡◌, ◌==◌, ◌+◌, ◌-◌, ◌*◌, ◌/◌, ◌<◌, ◌≤◌, ◌^◌, false, max, [], ◌∷◌, ◌++◌, length, slice_set, slice_index_or, All, Option, None, IfSome};
ghost use Rattle.std.specs.List.{find, AllByRecursion};
ghost use Rattle.std.specs.Option.{option_map};
ghost use Rattle.std.specs.VecDeque.{deque_capacity};
ghost use Rattle.cc_model.specs.Ranges.{span_has};
ghost use Rattle.cc_images.specs.Images.{AscendsByPage};
ghost use Rattle.cc_images.specs.Changes.{has_page_of_bytes, with_page_of, starts, with_raised_length, lowered, grew_past, IsByteOfPage, with_written_page};

use cc_entry::Span;
use cc_events::span_has;
use std::cmp::max;
use std::collections::VecDeque;

/// The valid data length rises from one place to another: each page that it rises over has grown.
pub(crate) fn raise(bytes: &mut VecDeque<u64>, was: u64, now: u64)
    requires rises { was < now }
    requires in_order { AscendsByPage bytes.old.items }
    requires below { AllByRecursion (λ byte. byte < was) bytes.old.items }
    requires room { length (with_raised_length bytes.old.items was now) ≤ deque_capacity bytes.old }
    ensures bytes { bytes.new.items ≡ with_raised_length bytes.old.items was now }
    ensures capacity { deque_capacity bytes.old ≤ deque_capacity bytes.new }
{
    push_first(bytes, was);
    push_starts(bytes, was / 4096 + 1, (now - 1) / 4096 + 1);
}

// The page of the byte has grown from there on, where it has not before.
fn push_first(bytes: &mut VecDeque<u64>, byte: u64)
    requires in_order { AscendsByPage bytes.old.items }
    requires below { AllByRecursion (λ other. other < byte) bytes.old.items }
    requires room { length (with_page_of bytes.old.items byte) ≤ deque_capacity bytes.old }
    ensures bytes { bytes.new.items ≡ with_page_of bytes.old.items byte }
    ensures capacity { deque_capacity bytes.old ≤ deque_capacity bytes.new }
{
    if !ends_with_page_of(bytes, byte) {
        bytes.push_back_reserved(byte);
    }
}

// Whether a byte of the page of a byte past all of them is there: it is the last.
fn ends_with_page_of(bytes: &VecDeque<u64>, byte: u64) -> bool
    requires in_order { AscendsByPage bytes.now.items }
    requires below { AllByRecursion (λ other. other < byte) bytes.now.items }
    ensures { result ≡ has_page_of_bytes bytes.now.items (byte / 4096) }
{
    match bytes.back() {
        Some(last) => *last / 4096 == byte / 4096,
        None => false,
    }
}

// The first bytes of the pages from one number up to, and without, another come in.
fn push_starts(bytes: &mut VecDeque<u64>, from: u64, to: u64)
    requires in_order { from ≤ to }
    requires within { to ≤ 2 ^ 52 }
    requires room { length bytes.old.items + (to - from) ≤ deque_capacity bytes.old }
    ensures bytes { bytes.new.items ≡ bytes.old.items ++ starts from to }
    ensures capacity { deque_capacity bytes.old ≤ deque_capacity bytes.new }
{
    for page in from..to {
        bytes.push_back_reserved(4096 * page);
    }
}

/// The valid data length falls to a place.
pub(crate) fn lower(bytes: &mut VecDeque<u64>, now: u64)
    ensures bytes { bytes.new.items ≡ lowered bytes.old.items now }
    ensures capacity { deque_capacity bytes.new ≡ deque_capacity bytes.old }
{
    bytes.retain(|byte| *byte < now);
}

/// The disk took a page; `low` is the least valid data length since its transfer began.
pub(crate) fn write(bytes: &mut VecDeque<u64>, page: u64, low: u64, valid: u64)
    requires { AscendsByPage bytes.old.items }
    ensures bytes { bytes.new.items ≡ with_written_page bytes.old.items page low valid }
    ensures capacity { deque_capacity bytes.new ≡ deque_capacity bytes.old }
{
    match place_of(bytes, page) {
        Some(place) => write_at(bytes, place, page, low, valid),
        None => (),
    }
}

// Where the byte of a page stands, by binary search.
fn place_of(bytes: &VecDeque<u64>, page: u64) -> Option<usize>
    requires { AscendsByPage bytes.now.items }
    ensures some { IfSome result (λ place. IsByteOfPage bytes.now.items page place) }
    ensures none { result ≡ None → All (λ byte. (byte / 4096 == page) ≡ false) bytes.now.items }
{
    let place = bytes.partition_point(|byte| *byte / 4096 < page);
    if place == bytes.len() {
        return None;
    }
    let byte = bytes[place];
    if byte / 4096 == page {
        Some(place)
    } else {
        None
    }
}

// The disk took the page whose byte stands at a place.
fn write_at(bytes: &mut VecDeque<u64>, place: usize, page: u64, low: u64, valid: u64)
    requires in_order { AscendsByPage bytes.old.items }
    requires place { IsByteOfPage bytes.old.items page place }
    ensures bytes { bytes.new.items ≡ with_written_page bytes.old.items page low valid }
    ensures capacity { deque_capacity bytes.new ≡ deque_capacity bytes.old }
{
    if grew_past(page, low, valid) {
        regrow(bytes, place, low);
    } else {
        bytes.remove(place);
    }
}

// Whether a byte of the page, not valid at this least length, is valid now.
fn grew_past(page: u64, low: u64, valid: u64) -> bool
    ensures { result ≡ grew_past page low valid }
{
    low < valid && low / 4096 <= page
}

// The page whose byte stands at a place has grown from `low` on.
fn regrow(bytes: &mut VecDeque<u64>, place: usize, low: u64)
    requires { place < length bytes.old.items }
    ensures bytes { bytes.new.items ≡ slice_set bytes.old.items place (max (slice_index_or bytes.old.items place 0) low) }
    ensures capacity { deque_capacity bytes.new ≡ deque_capacity bytes.old }
{
    let byte = bytes[place];
    bytes[place] = max(byte, low);
}

/// The first page of a span that has grown.
pub(crate) fn first_in(bytes: &VecDeque<u64>, span: Option<Span>) -> Option<u64>
    ensures { result
        ≡ option_map (λ byte. byte / 4096) (find (λ byte. span_has span (byte / 4096)) bytes.now.items) }
{
    bytes
        .iter()
        .find(|byte| span_has(span, u128::from(**byte / 4096)))
        .map(|byte| *byte / 4096)
}
