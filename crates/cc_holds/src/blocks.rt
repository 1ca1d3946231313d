//! The view blocks of bytes.

ghost use Rattle.std.specs.Prelude.{◌≡◌, ◌-◌, ◌≤◌, ◌^◌};
ghost use Rattle.std.specs.List.{range_with_len};
ghost use Rattle.cc_entry.specs.Pages.{blocks_of};

/// Bytes in a view block.
const BLOCK_SIZE: u128 = 262144;

/// The first block of the bytes from `from` up to, and without, `to`, and the one after their last.
pub(crate) fn block_range(from: u128, to: u128) -> (u64, u64)
    requires { to ≤ 2 ^ 65 }
    ensures in_order { result.0 ≤ result.1 }
    ensures small { result.1 ≤ 2 ^ 47 }
    ensures blocks { range_with_len result.0 (result.1 - result.0) ≡ blocks_of (record { from = from; to = to }) }
{
    if from >= to {
        return (0, 0);
    }
    let first = from / BLOCK_SIZE;
    let end = (to - 1) / BLOCK_SIZE + 1;
    (first as u64, end as u64)
}
