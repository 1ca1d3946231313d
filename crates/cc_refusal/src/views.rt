//! Reasons for a refusal that lie in view blocks, the pool of views and resident pages.

ghost use Rattle.std.specs.Prelude.{◌≡◌, ℕ, ◌+◌, ◌-◌, ◌*◌, ◌<◌, ◌^◌, List, Option, None, Some, IfOk};
ghost use Rattle.std.specs.Option.{option_map};
ghost use Rattle.cc_entry.specs.declared.entry.Entry.{Entry};
ghost use Rattle.cc_entry.specs.Pages.{blocks_of, whole_range};
ghost use Rattle.cc_entry.specs.Queries.{extent_of_query};
ghost use Rattle.cc_model.specs.History.{Effect};
ghost use Rattle.cc_model.specs.Touches.{size_of, is_mapped};
ghost use Rattle.cc_model.specs.Sizes.{stored_range};
ghost use Rattle.cc_model.specs.Ranges.{range_of, cut_range, queried_range};
ghost use Rattle.cc_model.specs.Reasons.{beyond_size};
ghost use Rattle.cc_model.specs.Views.{viewed, no_views, no_vacbs, not_resident};
ghost use Rattle.cc_stream.specs.Stream.{StreamStands};
ghost use Rattle.cc_holds.specs.Stands.{HoldsStand};
ghost use Rattle.cc_refusal.specs.Known.{AreFreeViews, HasSameBlocks, IsLeastAbsent};

use crate::known::Known;
use cc_entry::{Call, CcError, NoMemory, Query, Span};
use cc_reasons::refuse;
use std::alloc::Global;

// So many bytes from a place on.
fn whole(at: u64, len: u64) -> Option<Span>
    ensures { at + len < 2 ^ 64 → result ≡ Some (whole_range at len) }
{
    Span::new(at, at.checked_add(len)?)
}

/// The same as far as they lie below the size, and no byte where they start past it.
pub(crate) fn cut(size: u64, at: u64, len: u64) -> Option<Span>
    ensures { HasSameBlocks result (Some (cut_range size at len)) }
{
    let end = at.saturating_add(len).min(size);
    Span::new(at, end.max(at))
}

// The bytes of a noncached page that starts below the size.
fn stored(page: u64, size: u64) -> Option<Span>
    ensures { 4096 * page < size → result ≡ Some (stored_range page size) }
{
    let from = page.checked_mul(4096)?;
    Span::new(from, from.saturating_add(4096).min(size))
}

// The bytes whose pages a query needs, as far as they lie below the size.
fn queried(size: u64, query: &Query) -> Option<Span>
    ensures { HasSameBlocks result (queried_range size (extent_of_query query.now)) }
{
    let (at, len) = query.extent()?;
    cut(size, at, len)
}

// The range whose blocks have to be mapped beside those of open holds, of a call that lies below the size. A
// read that may not wait has one only where a page of its range is not resident.
fn span_viewed(size: u64, call: &Call, absent: Option<u64>) -> Option<Span>
    ensures { (h : List Effect) → size ≡ size_of h → IsLeastAbsent h call.now absent →
        beyond_size size call.now ≡ None →
        HasSameBlocks result (viewed h call.now (range_of size call.now)) }
{
    match call {
        Call::CopyRead {
            at,
            len,
            wait: true,
            ..
        } => cut(size, *at, *len),
        Call::CopyRead {
            at,
            len,
            wait: false,
            ..
        } => span_absent(size, *at, *len, absent),
        Call::CopyWrite { at, bytes, .. } => whole(*at, bytes.len()),
        Call::Zero { span, .. } => Some(*span),
        Call::Map { at, len, .. } => whole(*at, *len),
        Call::PinRead { at, len, .. } => whole(*at, *len),
        Call::PreparePin { at, len, .. } => whole(*at, *len),
        Call::MdlRead { at, len, .. } => whole(*at, *len),
        Call::MdlWrite { at, len, .. } => whole(*at, *len),
        Call::NcStore { page, .. } => stored(*page, size),
        Call::NcWrite { page, .. } => stored(*page, size),
        Call::Query(query) => queried(size, query),
        _ => None,
    }
}

// The range of a read that may not wait, where a page of it is not resident.
fn span_absent(size: u64, at: u64, len: u64, absent: Option<u64>) -> Option<Span>
    ensures none { absent ≡ None → result ≡ None }
    ensures some { (p : ℕ) → absent ≡ Some p → HasSameBlocks result (Some (cut_range size at len)) }
{
    match absent {
        Some(_) => cut(size, at, len),
        None => None,
    }
}

/// The refusal of a call whose range has blocks that, with those of open holds, exceed the quota.
pub(crate) fn by_views(
    alloc: Global,
    known: &Known,
    call: &Call,
    absent: Option<u64>,
) -> Result<Option<CcError>, NoMemory>
    ensures { IfOk result (λ refused. (h : List Effect) →
        StreamStands h known.now.state.now → HoldsStand h known.now.holds.now →
        IsLeastAbsent h call.now absent → beyond_size (size_of h) call.now ≡ None →
        refused ≡ no_views h (viewed h call.now (range_of (size_of h) call.now))) }
{
    match span_viewed(known.state.size(), call, absent) {
        Some(span) => over_quota(alloc, known, span),
        None => Ok(None),
    }
}

// The refusal of a range whose blocks, with those of open holds, exceed the quota.
fn over_quota(alloc: Global, known: &Known, span: Span) -> Result<Option<CcError>, NoMemory>
    ensures { IfOk result (λ refused. (h : List Effect) →
        StreamStands h known.now.state.now → HoldsStand h known.now.holds.now →
        refused ≡ no_views h (Some span)) }
{
    let quota = u64::from(known.state.quota());
    if known.holds.needed_blocks(alloc, span)? <= quota {
        return Ok(None);
    }
    let active = known.holds.held_blocks(alloc)?.len() as u64;
    Ok(Some(CcError::NoViews { active, quota }))
}

/// The refusal of an initialise that makes the map and asks more views than the pool has left.
pub(crate) fn by_pool(mapped: bool, free_views: u16, call: &Call) -> Option<CcError>
    ensures { (past : List Entry) (h : List Effect) →
        mapped ≡ is_mapped h → AreFreeViews past call.now free_views →
        result ≡ no_vacbs past h call.now }
{
    match call {
        Call::Initialise { quota, .. } => {
            let free = u64::from(free_views);
            let short = free < u64::from(quota.blocks());
            refuse(!mapped && short, CcError::NoVacbs { free })
        }
        _ => None,
    }
}

// A refusal by a page that is not resident.
fn absent_at(page: Option<u64>) -> Option<CcError>
    ensures { result ≡ option_map (λ p. CcError.NotResident p) page }
{
    match page {
        Some(page) => Some(CcError::NotResident { page }),
        None => None,
    }
}

/// The refusal of a read that may not wait and needs a page that is not resident.
pub(crate) fn by_residents(call: &Call, absent: Option<u64>) -> Option<CcError>
    ensures { (h : List Effect) → IsLeastAbsent h call.now absent → result ≡ not_resident h call.now }
{
    match call {
        Call::CopyRead { wait: false, .. } => absent_at(absent),
        _ => None,
    }
}
