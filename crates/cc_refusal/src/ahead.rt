//! Whether a read-ahead brings its pages in. Nothing refuses one: where it can't, it is done and brings none in.

ghost use Rattle.std.specs.Prelude.{◌≡◌, nat_le, List, IfOk};
ghost use Rattle.cc_model.specs.History.{Effect};
ghost use Rattle.cc_model.specs.Holds.{holds_of};
ghost use Rattle.cc_model.specs.Ranges.{cut_range};
ghost use Rattle.cc_model.specs.Replies.{is_whole};
ghost use Rattle.cc_model.specs.Settings.{quota_of};
ghost use Rattle.cc_model.specs.Touches.{size_of};
ghost use Rattle.cc_model.specs.Views.{needed_blocks};
ghost use Rattle.cc_stream.specs.Stream.{StreamStands};
ghost use Rattle.cc_holds.specs.Stands.{HoldsStand};

use crate::views::cut;
use cc_entry::{NoMemory, Request};
use cc_holds::OpenHolds;
use cc_stream::StreamState;
use std::alloc::Global;

/// Whether a read-ahead brings in every page of its request below the size: its object is open, and the quota has room
/// for the request's blocks beside those of open holds.
pub fn is_whole(
    alloc: Global,
    state: &StreamState,
    holds: &OpenHolds,
    request: &Request,
) -> Result<bool, NoMemory>
    ensures { IfOk result (λ whole. (h : List Effect) → StreamStands h state.now → HoldsStand h holds.now →
        whole ≡ is_whole h request.now) }
{
    if state.is_open(request.file.object()) {
        within_quota(alloc, state, holds, request.at, request.len)
    } else {
        Ok(false)
    }
}

// Whether the quota has room for the blocks of so many bytes from a place on, as far as the size, beside those of open holds.
fn within_quota(
    alloc: Global,
    state: &StreamState,
    holds: &OpenHolds,
    at: u64,
    len: u64,
) -> Result<bool, NoMemory>
    ensures { IfOk result (λ within. (h : List Effect) → StreamStands h state.now → HoldsStand h holds.now →
        within ≡ nat_le (needed_blocks (holds_of h) (cut_range (size_of h) at len)) (quota_of h)) }
{
    let span = cut(state.size(), at, len).unwrap();
    let needed = holds.needed_blocks(alloc, span)?;
    Ok(needed <= u64::from(state.quota()))
}
