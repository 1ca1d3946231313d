//! The pages of a range.

ghost use Rattle.std.specs.Prelude.{◌≡◌, ◌+◌, ◌<◌, ◌≤◌, ◌^◌, ◌++◌, IfOk};
ghost use Rattle.std.specs.List.{range_with_len};
ghost use Rattle.cc_entry.specs.Pages.{pages_of};

use cc_entry::NoMemory;
use std::alloc::Global;

/// The pages of a range, before others.
pub(crate) fn range_before(
    alloc: Global,
    from: u128,
    to: u128,
    after: Vec<u64>,
) -> Result<Vec<u64>, NoMemory>
    requires { to ≤ 2 ^ 65 }
    ensures { IfOk result (λ pages. pages.items ≡ pages_of (record { from = from; to = to }) ++ after.items) }
{
    if from >= to {
        return Ok(after);
    }
    let first = from / 4096;
    let count = (to - 1) / 4096 + 1 - first;
    pages_before(alloc, first as u64, count as u64, after)
}

// So many pages from a first one on, before others.
fn pages_before(
    alloc: Global,
    first: u64,
    count: u64,
    after: Vec<u64>,
) -> Result<Vec<u64>, NoMemory>
    requires { first + count < 2 ^ 64 }
    ensures { IfOk result (λ pages. pages.items ≡ range_with_len first count ++ after.items) }
{
    let added: Vec<u64> = (first..first + count).collect(alloc)?;
    let mut pages = after;
    pages.splice(0..0, added)?;
    Ok(pages)
}
