//! What a done call makes of the bytes of a page.

ghost use Rattle.std.specs.Prelude.{◌≡◌, nat_lt, slice_index, false, if◌then◌else◌};
ghost use Rattle.std.specs.Option.{unwrap_or};
ghost use Rattle.cc_crash.specs.DiskPages.{IsApartFromPage, LeavesPage, changed_bytes, shown_bytes};
ghost use Rattle.cc_entry.specs.Pages.{has_byte};
ghost use Rattle.cc_model.specs.Acts.{act_of, Writes, Zeroes, Stores};
ghost use Rattle.cc_crash.specs.Changes.{change_by};

use cc_entry::{Bytes, Call, PageId};
use cc_events::stored_end;

/// The bytes of a page after a done call that is no discard, given the size before it.
pub(crate) fn changed(bytes: &[u8; 4096], call: &Call, size: u64, page: PageId) -> [u8; 4096]
    ensures { result ≡ changed_bytes (act_of call.now) size page.page bytes.now }
{
    let first = 4096 * page.page();
    let mut changed = [0; 4096];
    for i in 0..4096 {
        changed[i] = byte_after(call, size, first + i as u64, bytes[i]);
    }
    changed
}

/// Whether a done call may change bytes of a page; where it says no, the call changes none.
pub(crate) fn reaches(call: &Call, page: PageId) -> bool
    ensures { result ≡ false → LeavesPage (act_of call.now) page.page }
{
    match call {
        Call::CopyWrite { at, bytes, .. } => meets_bytes(*at, bytes, page),
        Call::PinnedWrite { at, bytes, .. } => meets_bytes(*at, bytes, page),
        Call::MdlStore { at, bytes, .. } => meets_bytes(*at, bytes, page),
        Call::Zero { span, .. } => meets(u128::from(span.from()), u128::from(span.to()), page),
        Call::PreparePin {
            at,
            len,
            zero: true,
            ..
        } => meets(u128::from(*at), u128::from(*at) + u128::from(*len), page),
        Call::NcStore { page: stored, .. } => *stored == page.page(),
        _ => false,
    }
}

// Whether bytes from `at` on may have one of a page.
fn meets_bytes(at: u64, bytes: &Bytes, page: PageId) -> bool
    ensures { result ≡ false → LeavesPage (Writes at bytes.now) page.page }
{
    let from = u128::from(at);
    meets(from, from + u128::from(bytes.len()), page)
}

// Whether a range may have a byte of a page.
fn meets(from: u128, to: u128, page: PageId) -> bool
    ensures { result ≡ false → IsApartFromPage (record { from = from; to = to }) page.page }
{
    let first = 4096 * u128::from(page.page());
    from < first + 4096 && first < to
}

/// The bytes of a page as the plain file has them: zero from the valid data length on.
pub(crate) fn shown(bytes: &[u8; 4096], valid: u128, page: PageId) -> [u8; 4096]
    ensures { result ≡ shown_bytes valid page.page bytes.now }
{
    let first = 4096 * u128::from(page.page());
    let mut shown = [0; 4096];
    for i in 0..4096 {
        shown[i] = byte_below(first + i as u128, valid, bytes[i]);
    }
    shown
}

// A byte at a place of a stream as the plain file has it.
fn byte_below(at: u128, valid: u128, byte: u8) -> u8
    ensures { result ≡ (if nat_lt at valid then byte else 0) }
{
    if at < valid { byte } else { 0 }
}

// The byte at `i` after a done call that is no discard, given the size before it and the byte then.
fn byte_after(call: &Call, size: u64, i: u64, was: u8) -> u8
    ensures { result ≡ unwrap_or (change_by (act_of call.now) size i) was }
{
    match call {
        Call::CopyWrite { at, bytes, .. } => written(*at, bytes, i, was),
        Call::PinnedWrite { at, bytes, .. } => written(*at, bytes, i, was),
        Call::MdlStore { at, bytes, .. } => written(*at, bytes, i, was),
        Call::Zero { span, .. } => zeroed(u128::from(span.from()), u128::from(span.to()), i, was),
        Call::PreparePin {
            at,
            len,
            zero: true,
            ..
        } => zeroed(u128::from(*at), u128::from(*at) + u128::from(*len), i, was),
        Call::NcStore { page, bytes, .. } => stored(*page, bytes, size, i, was),
        _ => was,
    }
}

// The same of a write of bytes from `at` on.
fn written(at: u64, bytes: &Bytes, i: u64, was: u8) -> u8
    ensures { result ≡ unwrap_or (change_by (Writes at bytes.now) 0 i) was }
{
    let from = u128::from(at);
    if has(from, from + u128::from(bytes.len()), i) {
        byte_in(bytes, i - at)
    } else {
        was
    }
}

// The same of a zeroing of the bytes from `from` up to `to`.
fn zeroed(from: u128, to: u128, i: u64, was: u8) -> u8
    ensures { result ≡ unwrap_or (change_by (Zeroes from to) 0 i) was }
{
    if has(from, to, i) { 0 } else { was }
}

// The same of a noncached store of a page.
fn stored(page: u64, bytes: &Bytes, size: u64, i: u64, was: u8) -> u8
    ensures { result ≡ unwrap_or (change_by (Stores page bytes.now) size i) was }
{
    let from = 4096 * u128::from(page);
    if has(from, stored_end(page, size), i) {
        let place = u128::from(i) - from;
        byte_in(bytes, place as u64)
    } else {
        was
    }
}

// Whether the range has the byte at `i`.
fn has(from: u128, to: u128, i: u64) -> bool
    ensures { result ≡ has_byte (record { from = from; to = to }) i }
{
    from <= u128::from(i) && u128::from(i) < to
}

// The byte at `i`, 0 past the end.
fn byte_in(bytes: &Bytes, i: u64) -> u8
    ensures { result ≡ slice_index bytes.now i }
{
    bytes.get(i).unwrap_or(0)
}
