//! A part of a list of bytes: some bytes as they are, and then more of one value.

ghost use Rattle.std.specs.Prelude.{◌≡◌, ◌⊎◌, ◌<◌, ◌≤◌, ◌+◌, ◌++◌, length, take, replicate};

use crate::scan::{BLOCK, end_of_blocks};

/// The next `plain` of the bytes that one list keeps as they are, and then `count` of one value.
#[derive(Drop)]
pub(crate) struct Part {
    pub(crate) plain: usize,
    pub(crate) byte: u8,
    pub(crate) count: u64,
    ghost some: { 0 < plain + count },
}

impl Part {
    pub(crate) fn new(plain: usize, byte: u8, count: u64) -> Part
        requires { 0 < plain + count }
        ensures plain { result.plain ≡ plain }
        ensures byte { result.byte ≡ byte }
        ensures count { result.count ≡ count }
    {
        Part { plain, byte, count }
    }

    /// The part with the bytes of a slice from a place on, as far as the end of the next long run of one value.
    pub(crate) fn next(slice: &[u8], from: usize) -> Part
        requires { from < length slice.now }
        ensures same { take (from + result.plain + result.count) slice.now ≡
            take (from + result.plain) slice.now ++ replicate result.count result.byte }
        ensures within { from + result.plain + result.count ≤ length slice.now }
        ensures long { (from + result.plain + result.count ≡ length slice.now) ⊎ (64 ≤ result.count) }
    {
        let mut at = from;
        while at < slice.len() {
            let end = end_of_blocks(slice, at, slice[at]);
            if end > at {
                return Part::new(at - from, slice[at], (end - at) as u64);
            }
            at = slice.len().min(at + BLOCK);
        }
        Part::new(at - from, 0, 0)
    }
}
