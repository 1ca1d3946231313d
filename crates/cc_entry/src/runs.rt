//! The longest runs of equal bytes in a list of bytes, read from its parts.

ghost use Rattle.std.specs.Prelude.{◌≡◌, ◌≢◌, ◌<◌, ◌≤◌, ◌+◌, ◌^◌, List, ℕ, ◌++◌, length, map, replicate, slice_get, Some, true, false};
ghost use Rattle.std.specs.Iterator.{YieldsFirst, item_count};
ghost use Rattle.cc_entry.specs.Parts.{bytes_in, plain_in};
ghost use Rattle.cc_entry.specs.Runs.{byte_alone, runs_of};

use crate::part::Part;
use crate::scan::{end_of_same, unlike};
use std::marker::Model;

/// `count` bytes of one value.
#[derive(Clone, Copy, PartialEq, Eq)]
pub struct Run {
    pub byte: u8,
    pub count: u64,
}

/// The bytes that were not read yet.
#[derive(Drop)]
struct Left<'a> {
    /// Of the first part, the bytes as they are.
    front: &'a [u8],
    /// Of the first part, those of one value.
    byte: u8,
    count: u64,
    /// The parts behind it.
    parts: &'a [Part],
    /// Their bytes that are kept as they are.
    plain: &'a [u8],
}

impl<'a> Model for Left<'a> {
    ghost use Rattle.std.specs.Prelude.{◌≡◌, ◌<◌, ◌+◌, ◌^◌, List, ℕ, [], ◌++◌, length, replicate};
    ghost use Rattle.cc_entry.specs.Parts.{bytes_in, plain_in};

    ghost Value = { List ℕ };

    ghost view = { λ l. l.front.now ++ (replicate l.count l.byte ++ bytes_in l.parts.now l.plain.now) };

    ghost invariant = { λ l. (plain_in l.parts.now ≡ length l.plain.now) × (length l.front.now + l.count ≡ 0 → l.parts.now ≡ []) };
}

impl<'a> Left<'a> {
    /// All bytes of the parts, of which these are kept as they are.
    fn new(parts: &'a [Part], plain: &'a [u8]) -> Left<'a>
        requires { plain_in parts.now ≡ length plain.now }
        ensures { result ≡ bytes_in parts.now plain.now }
    {
        match parts.split_first() {
            Some((part, behind)) => {
                let (front, rest) = plain.split_at(part.plain);
                Left {
                    front,
                    byte: part.byte,
                    count: part.count,
                    parts: behind,
                    plain: rest,
                }
            }
            None => Left {
                front: plain,
                byte: 0,
                count: 0,
                parts,
                plain,
            },
        }
    }

    /// The first byte.
    fn first(&self) -> Option<u8>
        ensures { result ≡ slice_get self.now 0 }
    {
        match self.front.first() {
            Some(byte) => Some(*byte),
            None if self.count > 0 => Some(self.byte),
            None => None,
        }
    }

    /// Reads past the bytes of a value that come first in the first part. Says how many they were, and
    /// whether the part ended with them, so that more may follow.
    fn skip_in_part(&mut self, byte: u8) -> (u64, bool)
        requires { length self.old < 2 ^ 64 }
        ensures skipped { self.old ≡ replicate result.0 byte ++ self.new }
        ensures some { result.1 ≡ true → 0 < result.0 }
        ensures ended { result.1 ≡ false → slice_get self.new 0 ≢ Some byte }
    {
        let same = end_of_same(self.front, 0, byte);
        if same < self.front.len() || self.count > 0 && self.byte != byte {
            self.front = &self.front[same..];
            return (same as u64, false);
        }
        let same = same as u64 + self.count;
        let more = !self.parts.is_empty();
        *self = Left::new(self.parts, self.plain);
        (same, more)
    }

    /// Reads past all bytes of a value that come first, and says how many they were.
    fn skip_same(&mut self, byte: u8) -> u64
        requires { length self.old < 2 ^ 64 }
        ensures skipped { self.old ≡ replicate result byte ++ self.new }
        ensures all { slice_get self.new 0 ≢ Some byte }
    {
        let mut count = 0;
        loop {
            let (same, part_ended) = self.skip_in_part(byte);
            count += same;
            if !part_ended {
                return count;
            }
        }
    }

    /// Reads past bytes that come first, are kept as they are, and are each followed by another one.
    fn skip_unlike(&mut self) -> &'a [u8]
        ensures split { self.old ≡ result.now ++ self.new }
        ensures alone { runs_of self.old ≡ map byte_alone result.now ++ runs_of self.new }
    {
        let (read, rest) = self.front.split_at(unlike(self.front));
        self.front = rest;
        read
    }
}

/// The longest runs that were not given yet.
#[derive(Drop)]
pub struct Runs<'a> {
    left: Left<'a>,
}

impl<'a> Model for Runs<'a> {
    ghost use Rattle.std.specs.Prelude.{◌<◌, ◌^◌, List, length};
    ghost use Rattle.cc_entry.specs.declared.runs.Run.{Run};
    ghost use Rattle.cc_entry.specs.Runs.{runs_of};

    ghost Value = { List Run };

    ghost view = { λ r. runs_of r.left };

    ghost invariant = { λ r. length r.left < 2 ^ 64 };
}

impl<'a> Runs<'a> {
    pub(crate) fn new(parts: &'a [Part], plain: &'a [u8]) -> Runs<'a>
        requires whole { plain_in parts.now ≡ length plain.now }
        requires fits { length (bytes_in parts.now plain.now) < 2 ^ 64 }
        ensures { result ≡ runs_of (bytes_in parts.now plain.now) }
    {
        Runs {
            left: Left::new(parts, plain),
        }
    }

    /// Goes past runs of one byte that come next, and gives their bytes. It gives none where a longer run is
    /// next, and may stop where more follow.
    pub fn skip_alone(&mut self) -> &'a [u8]
        ensures { self.old ≡ map byte_alone result.now ++ self.new }
    {
        self.left.skip_unlike()
    }
}

impl<'a> Iterator for Runs<'a> {
    type Item = Run;

    ghost next_gives = { YieldsFirst (λ runs. runs) };

    ghost remaining = { item_count (λ runs. runs) };

    fn next(&mut self) -> Option<Run> {
        let byte = self.left.first()?;
        let count = self.left.skip_same(byte);
        Some(Run { byte, count })
    }
}
