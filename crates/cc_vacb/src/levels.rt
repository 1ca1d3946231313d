//! How many levels an index has, and how many slots its root.

ghost use Rattle.std.specs.Prelude.{◌≡◌, ℕ, ◌+◌, ◌≤◌};
ghost use Rattle.cc_vacb.specs.Index.{width_of};
ghost use Rattle.cc_vacb.specs.Levels.{levels_of};

#[tactic(auto, unfolding(crate::specs::Levels::levels_of))]
pub(crate) fn levels_for(size: u64) -> u8
    ensures { result ≡ levels_of size }
{
    if size <= 1 << 25 {
        1
    } else if size <= 1 << 32 {
        2
    } else if size <= 1 << 39 {
        3
    } else if size <= 1 << 46 {
        4
    } else if size <= 1 << 53 {
        5
    } else if size <= 1 << 60 {
        6
    } else {
        7
    }
}

// The height of the root.
pub(crate) fn top_for(size: u64) -> u8
    ensures levels { result + 1 ≡ levels_of size }
    ensures bound { result ≤ 6 }
{
    levels_for(size) - 1
}

// How many slots the root has.
#[tactic(auto, unfolding(crate::specs::Index::width_of))]
pub(crate) fn width_for(size: u64) -> usize
    ensures { result ≡ width_of size }
{
    if size <= 1 << 20 { 4 } else { 128 }
}
