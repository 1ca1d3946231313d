//! A row of what is handed in, disks or logs: how those of a run move out of it, and back.

ghost use Rattle.std.specs.Prelude.{◌≡◌, ◌+◌, ◌≤◌, ◌++◌, IfOk, OnOk, OnErr, take, drop, reverse, length, vec_len, vec_capacity};

use cc_entry::NoMemory;
use std::alloc::Global;

/// Takes the first items out of a row, so many at most. What is left of the row is turned round, with room for all.
pub(crate) fn first_of<A>(alloc: Global, row: &mut Vec<A>, most: usize) -> Result<Vec<A>, NoMemory>
    ensures first { IfOk result (λ first. first.items ≡ take most row.old.items) }
    ensures left { OnOk result (row.new.items ≡ reverse (drop most row.old.items)) }
    ensures room { OnOk result (length row.old.items ≤ vec_capacity row.new) }
    ensures err { OnErr result (row.new.items ≡ row.old.items) }
{
    let count = row.len().min(most);
    let mut first = Vec::with_capacity(alloc, count)?;
    row.reverse();
    for _ in 0..count {
        first.push_reserved(row.pop().unwrap());
    }
    Ok(first)
}

/// Puts the first items back in front of what was left of the row.
pub(crate) fn put_back<A>(mut first: Vec<A>, mut row: Vec<A>) -> Vec<A>
    requires { length first.items + length row.items ≤ vec_capacity row }
    ensures { result.items ≡ first.items ++ reverse row.items }
{
    while let Some(item) = first.pop() {
        row.push_reserved(item);
    }
    first.destroy_empty();
    row.reverse();
    row
}
