//! What done calls do to the resident pages of a stream that has a map before and after them.
//!
//! Each function says that pages which stood for a history stand for the one with the call. What it requires
//! of the pages follows from what the call was allowed on.

ghost use Rattle.std.specs.Prelude.{◌≡◌, ℕ, ◌+◌, ◌*◌, ◌^◌, ◌<◌, ◌≤◌, ◌⊎◌, nat_lt, true, if◌then◌else◌, List, ◌∷◌, length, slice_index, Option, Some, OnOk, OnErr, IsOk};
ghost use Rattle.cc_entry.specs.Pages.{block_of, whole_range};
ghost use Rattle.cc_entry.specs.Place.{File};
ghost use Rattle.cc_entry.specs.declared.call.Call.{Call};
ghost use Rattle.cc_entry.specs.declared.reply.Reply.{Reply};
ghost use Rattle.cc_resident.specs.Residents.{all_resident, all_mapped, AllOwned, rest_of_page, blocks, is_block_among};
ghost use Rattle.cc_resident.specs.Changes.{is_number_between};
ghost use Rattle.cc_model.specs.Acts.{act_of, Closes, Resizes, Writes, Zeroes, Stores, Discards};
ghost use Rattle.cc_model.specs.History.{Effect, Did};
ghost use Rattle.cc_model.specs.Objects.{objects, truncation};
ghost use Rattle.cc_model.specs.Ranges.{span_has};
ghost use Rattle.cc_model.specs.Touches.{size_of, valid_of, is_mapped};
ghost use Rattle.cc_content.specs.Contents.{PagesStand};
ghost use Rattle.cc_content.specs.Done.{is_look, IsMapped, UsesBlocks, used_if};

use cc_entry::{NoMemory, Span};
use cc_resident::ResidentPages;

/// Follows a call that changes no byte, size or page, and uses the blocks of a range or none.
pub(crate) fn looked(pages: &mut ResidentPages, used: Option<Span>)
    requires { IsMapped pages.old used }
    ensures { (opening : Option (ℕ → List ℕ)) (h : List Effect) (pass : ℕ) (call : Call) (reply : Reply) →
        PagesStand opening h pages.old → is_look (act_of call) ≡ true → UsesBlocks h pass call reply used →
        is_mapped (Did pass call reply ∷ h) ≡ true →
        PagesStand opening (Did pass call reply ∷ h) pages.new }
{
    if let Some(span) = used {
        pages.use_range(span.from(), span.to());
    }
}

/// Follows a write of bytes, which begins at the valid data length or below it.
pub(crate) fn written(pages: &mut ResidentPages, at: u64, bytes: &[u8], uses: bool)
    requires resident { all_resident pages.old (whole_range at (length bytes.now)) ≡ true }
    requires owned { AllOwned pages.old (whole_range at (length bytes.now)) }
    requires fits { at + length bytes.now ≤ 2 ^ 63 }
    ensures { (opening : Option (ℕ → List ℕ)) (h : List Effect) (pass : ℕ) (call : Call) (reply : Reply) →
        PagesStand opening h pages.old → act_of call ≡ Writes at bytes.now →
        UsesBlocks h pass call reply (used_if uses (whole_range at (length bytes.now))) → at ≤ valid_of h →
        is_mapped (Did pass call reply ∷ h) ≡ true →
        PagesStand opening (Did pass call reply ∷ h) pages.new }
{
    pages.write(at, bytes);
    if uses {
        pages.use_range(at, at + bytes.len() as u64);
    }
}

/// Follows a zeroing of a range, which begins at the valid data length or below it, and a use of its blocks.
pub(crate) fn zeroed(pages: &mut ResidentPages, from: u64, to: u64)
    requires mapped { all_mapped pages.old (record { from = from; to = to }) ≡ true }
    requires owned { AllOwned pages.old (record { from = from; to = to }) }
    ensures { (opening : Option (ℕ → List ℕ)) (h : List Effect) (pass : ℕ) (call : Call) (reply : Reply) →
        PagesStand opening h pages.old → act_of call ≡ Zeroes from to →
        UsesBlocks h pass call reply (Some (record { from = from; to = to })) → from ≤ valid_of h →
        is_mapped (Did pass call reply ∷ h) ≡ true →
        PagesStand opening (Did pass call reply ∷ h) pages.new }
{
    pages.zero(from, to);
    pages.use_range(from, to);
}

/// Follows a set of sizes. Only growth takes memory.
pub(crate) fn resized(pages: &mut ResidentPages, size: u64) -> Result<(), NoMemory>
    requires { AllOwned pages.old (rest_of_page size) }
    ensures stands { OnOk result ((opening : Option (ℕ → List ℕ)) (h : List Effect) (pass : ℕ) (call : Call)
        (reply : Reply) (allocation : ℕ) →
        PagesStand opening h pages.old → act_of call ≡ Resizes allocation size →
        is_mapped (Did pass call reply ∷ h) ≡ true →
        PagesStand opening (Did pass call reply ∷ h) pages.new) }
    ensures smaller { size ≤ pages.old.size → IsOk result }
    ensures err { OnErr result (pages.new ≡ pages.old) }
{
    pages.cut(size)
}

/// Follows an uninitialise that sets the size, where the map stays.
pub(crate) fn truncated(pages: &mut ResidentPages, size: u64)
    requires smaller { size ≤ pages.old.size }
    requires owned { AllOwned pages.old (rest_of_page size) }
    ensures { (opening : Option (ℕ → List ℕ)) (h : List Effect) (pass : ℕ) (call : Call) (reply : Reply)
        (file : File) (truncate : Option ℕ) →
        PagesStand opening h pages.old → act_of call ≡ Closes file truncate →
        truncation (objects h) (size_of h) file truncate ≡ Some size →
        is_mapped (Did pass call reply ∷ h) ≡ true →
        PagesStand opening (Did pass call reply ∷ h) pages.new }
{
    match pages.cut(size) {
        Ok(()) => (),
        Err(_) => unreachable!(),
    }
}

/// Follows a noncached store of a page that starts at the valid data length or below it, and a use of its block.
pub(crate) fn stored(
    pages: &mut ResidentPages,
    page: u64,
    bytes: &[u8; 4096],
) -> Result<(), NoMemory>
    requires starts { 4096 * page < pages.old.size }
    requires room { (is_block_among (block_of page) (blocks pages.old) ≡ true)
        ⊎ (length (blocks pages.old) < pages.old.quota) }
    ensures stands { OnOk result ((opening : Option (ℕ → List ℕ)) (h : List Effect) (pass : ℕ) (call : Call)
        (reply : Reply) →
        PagesStand opening h pages.old → act_of call ≡ Stores page bytes.now →
        4096 * page ≤ valid_of h → valid_of h ≤ size_of h →
        is_mapped (Did pass call reply ∷ h) ≡ true →
        PagesStand opening (Did pass call reply ∷ h) pages.new) }
    ensures err { OnErr result (pages.new ≡ pages.old) }
{
    let end = pages.size() - 4096 * page;
    pages.bring_in(page, &bytes_below(bytes, end))
}

/// Follows a discard: the pages of the span go, all of them where there is none.
pub(crate) fn dropped(pages: &mut ResidentPages, span: Option<Span>)
    ensures { (opening : Option (ℕ → List ℕ)) (h : List Effect) (pass : ℕ) (call : Call) (reply : Reply) →
        PagesStand opening h pages.old → act_of call ≡ Discards span →
        is_mapped (Did pass call reply ∷ h) ≡ true →
        PagesStand opening (Did pass call reply ∷ h) pages.new }
{
    // The number of mapped blocks is what says that each page starts below the size.
    let _mapped = pages.mapped();
    let (from, to) = pages_of(span, pages.size());
    pages.drop_span(from, to);
}

/// The pages of a span, from the first up to, and without, the second; of a stream of that many bytes, where
/// there is none.
fn pages_of(span: Option<Span>, size: u64) -> (u64, u64)
    ensures { (p : ℕ) → 4096 * p < size → is_number_between result.0 result.1 p ≡ span_has span p }
{
    match span {
        None => (0, size.div_ceil(4096)),
        Some(span) if span.from() < span.to() => {
            (span.from() / 4096, (span.to() - 1) / 4096 + 1)
        }
        Some(_) => (0, 0),
    }
}

/// The bytes of a page below a place, and zeros from there on.
fn bytes_below(bytes: &[u8; 4096], end: u64) -> [u8; 4096]
    ensures { (i : ℕ) →
        slice_index result i ≡ (if nat_lt i end then slice_index bytes.now i else 0) }
{
    let mut page = *bytes;
    if end < 4096 {
        page[end as usize..].fill(0);
    }
    page
}
