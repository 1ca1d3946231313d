//! Where bytes of one value begin and end in a slice.
//!
//! A long run is one of whole blocks, so that what does not repeat is looked at once a block.

ghost use Rattle.std.specs.Prelude.{◌≡◌, ◌≢◌, ℕ, ◌⊎◌, ◌<◌, ◌≤◌, ◌+◌, ◌-◌, List, ◌++◌, length, map, take, drop, replicate, slice_get, slice_index, Some, IsTrue};
ghost use Rattle.cc_entry.specs.Runs.{byte_alone, runs_of};

/// How many bytes of one value are kept as such at least.
pub(crate) const BLOCK: usize = 64;

/// Where the bytes of a value end that follow one another from a place on.
pub(crate) fn end_of_same(slice: &[u8], at: usize, byte: u8) -> usize
    requires { at ≤ length slice.now }
    ensures from { at ≤ result }
    ensures within { result ≤ length slice.now }
    ensures same { take result slice.now ≡ take at slice.now ++ replicate (result - at) byte }
    ensures ended { slice_get slice.now result ≢ Some byte }
{
    let mut end = at;
    while end < slice.len() && slice[end] == byte {
        end += 1;
    }
    end
}

/// Whether a block has this byte alone.
fn is_same(block: &[u8], byte: u8) -> bool
    requires { 0 < length block.now }
    ensures { IsTrue result → block.now ≡ replicate (length block.now) byte }
{
    block[0] == byte && block[1..] == block[..block.len() - 1]
}

/// The end of the blocks of one value that stand at a place.
pub(crate) fn end_of_blocks(slice: &[u8], at: usize, byte: u8) -> usize
    requires { at ≤ length slice.now }
    ensures from { at ≤ result }
    ensures within { result ≤ length slice.now }
    ensures same { take result slice.now ≡ take at slice.now ++ replicate (result - at) byte }
    ensures long { (result ≡ at) ⊎ (64 ≤ result - at) }
{
    let mut end = at;
    while slice.len() - end >= BLOCK && is_same(&slice[end..end + BLOCK], byte) {
        end += BLOCK;
    }
    end
}

/// The first bytes of a slice each of which is followed by another one: at most all but the last.
pub(crate) fn unlike(slice: &[u8]) -> usize
    ensures within { result ≤ length slice.now }
    ensures last { 0 < length slice.now → result < length slice.now }
    ensures alone { (behind : List ℕ) → runs_of (slice.now ++ behind) ≡
        map byte_alone (take result slice.now) ++ runs_of (drop result slice.now ++ behind) }
{
    let mut n = 0;
    while n + 1 < slice.len() && slice[n] != slice[n + 1] {
        n += 1;
    }
    n
}
