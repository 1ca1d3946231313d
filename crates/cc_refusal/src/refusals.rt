//! The refusal of a call: the first of its reasons, in their order.

ghost use Rattle.std.specs.Prelude.{◌≡◌, None, List, IfOk};
ghost use Rattle.cc_entry.specs.declared.entry.Entry.{Entry};
ghost use Rattle.cc_model.specs.Setup.{Setup};
ghost use Rattle.cc_model.specs.History.{Effect};
ghost use Rattle.cc_model.specs.Touches.{size_of};
ghost use Rattle.cc_model.specs.Reasons.{beyond_size};
ghost use Rattle.cc_model.specs.Refusals.{argument_reasons, first_of, refusal};
ghost use Rattle.cc_refusal.specs.Known.{KnownStands, IsLeastAbsent, AreFreeViews};
ghost use Rattle.cc_refusal.specs.Reasons.{hold_reasons, view_reasons, disk_reasons};

use crate::conflicts::{by_holds, by_pins};
use crate::disk::{by_growth, by_images};
use crate::known::Known;
use crate::maps::{by_map, by_sizes};
use crate::views::{by_pool, by_residents, by_views};
use cc_entry::{Call, CcError, NoMemory};
use cc_reasons::{by_granularity, by_length, by_log, by_size, by_valid, by_view, first_in};
use std::alloc::Global;

// The first reason that lies in the arguments, or in the sizes, maps and logs that the call meets.
fn by_arguments(known: &Known, call: &Call) -> Option<CcError>
    ensures { (u : Setup) (past : List Entry) (h : List Effect) → KnownStands u past h known.now →
        result ≡ first_of (argument_reasons u h call.now) }
{
    let reasons = [
        by_map(known.state, call),
        by_length(call),
        by_view(call),
        by_sizes(known, call),
        by_granularity(call),
        by_log(known.logs, call),
        by_size(known.state.size(), call),
        by_valid(known.valid, call),
    ];
    first_in(&reasons)
}

// The first reason that lies in open holds.
fn by_conflicts(known: &Known, call: &Call) -> Option<CcError>
    ensures { (u : Setup) (past : List Entry) (h : List Effect) → KnownStands u past h known.now →
        result ≡ first_of (hold_reasons h call.now) }
{
    first_in(&[by_holds(known, call), by_pins(known.holds, call)])
}

// The first reason that lies in view blocks, the pool of views or resident pages, of a call below the size.
fn by_use(
    alloc: Global,
    known: &Known,
    call: &Call,
    absent: Option<u64>,
    free_views: u16,
) -> Result<Option<CcError>, NoMemory>
    ensures { IfOk result (λ refused. (u : Setup) (past : List Entry) (h : List Effect) →
        KnownStands u past h known.now → IsLeastAbsent h call.now absent → AreFreeViews past call.now free_views →
        beyond_size (size_of h) call.now ≡ None →
        refused ≡ first_of (view_reasons past h call.now)) }
{
    let reasons = [
        by_views(alloc, known, call, absent)?,
        by_pool(known.mapped, free_views, call),
        by_residents(call, absent),
    ];
    Ok(first_in(&reasons))
}

// The first reason that lies in what the disk holds of dirty pages.
fn by_disk(known: &Known, call: &Call) -> Option<CcError>
    ensures { (u : Setup) (past : List Entry) (h : List Effect) → KnownStands u past h known.now →
        result ≡ first_of (disk_reasons h call.now) }
{
    first_in(&[by_images(known, call), by_growth(known.images, call)])
}

/// The refusal of a call on a stream: the first reason that holds, in their order. `absent` is the least page
/// of the call's range that is not resident, where the call is a copy read that may not wait, and `free_views` how
/// many of the 256 views no mapped stream has taken, where it is an initialise; of other calls they are not looked
/// at. Answers `NoMemory` where memory is wanting.
pub fn refusal(
    alloc: Global,
    known: &Known,
    call: &Call,
    absent: Option<u64>,
    free_views: u16,
) -> Result<Option<CcError>, NoMemory>
    ensures { IfOk result (λ refused. (u : Setup) (past : List Entry) (h : List Effect) →
        KnownStands u past h known.now → IsLeastAbsent h call.now absent → AreFreeViews past call.now free_views →
        refused ≡ refusal u past h call.now) }
{
    if let Some(refused) = by_arguments(known, call) {
        return Ok(Some(refused));
    }
    if let Some(refused) = by_conflicts(known, call) {
        return Ok(Some(refused));
    }
    if let Some(refused) = by_use(alloc, known, call, absent, free_views)? {
        return Ok(Some(refused));
    }
    Ok(by_disk(known, call))
}
