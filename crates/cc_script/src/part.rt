//! Bytes in parts: lines, words, items.

ghost use Rattle.std.specs.Prelude.{◌≡◌, ◌==◌, ◌<◌, [], ◌∷◌, length, nat_lt, if◌then◌else◌, MatchOption, IfSome, IfNone};
ghost use Rattle.std.specs.List.{position};
ghost use Rattle.cc_script.specs.Text.{parts, lines, words};

use std::marker::Model;

/// The first byte and those behind it.
pub(crate) fn first_byte(bytes: &[u8]) -> Option<(u8, &[u8])>
    ensures { MatchOption result (bytes.now ≡ []) (λ found. bytes.now ≡ found.0 ∷ found.1.now) }
{
    match bytes {
        [first, rest @ ..] => Some((*first, rest)),
        [] => None,
    }
}

/// The place of the first byte of this value.
pub(crate) fn place_of(bytes: &[u8], byte: u8) -> Option<usize>
    ensures { result ≡ position (λ b. b == byte) bytes.now }
{
    bytes.iter().position(|b| *b == byte)
}

/// The first part of a list of bytes, and what stands behind the separator after it.
#[tactic(auto, using(crate::proofs::Parts::split_found, crate::proofs::Parts::split_none))]
pub(crate) fn first_part(bytes: &[u8], separator: u8) -> (&[u8], Option<&[u8]>)
    ensures parts { MatchOption result.1
        (parts separator bytes.now ≡ result.0.now ∷ [])
        (λ rest. parts separator bytes.now ≡ result.0.now ∷ parts separator rest.now) }
    ensures shorter { IfSome result.1 (λ rest. length rest.now < length bytes.now) }
    ensures whole { IfNone result.1 (result.0.now ≡ bytes.now) }
{
    match place_of(bytes, separator) {
        Some(end) => {
            let (_, rest) = bytes.split_at(end + 1);
            (&bytes[..end], Some(rest))
        }
        None => (bytes, None),
    }
}

/// The first line, and what stands behind its line feed.
#[tactic(auto, using(crate::proofs::Parts::lines_last, crate::proofs::Parts::lines_more))]
pub(crate) fn first_line(bytes: &[u8]) -> (&[u8], &[u8])
    requires { 0 < length bytes.now }
    ensures line { lines bytes.now ≡ result.0.now ∷ lines result.1.now }
    ensures shorter { length result.1.now < length bytes.now }
{
    match first_part(bytes, b'\n') {
        (line, Some(rest)) => (line, rest),
        (line, None) => (line, &[]),
    }
}

// What stands before the first space, and behind it.
#[tactic(auto, using(crate::proofs::Parts::words_last, crate::proofs::Parts::words_more))]
fn first_word(bytes: &[u8]) -> (&[u8], &[u8])
    requires { 0 < length bytes.now }
    ensures word { words bytes.now
        ≡ (if nat_lt 0 (length result.0.now) then result.0.now ∷ words result.1.now else words result.1.now) }
    ensures shorter { length result.1.now < length bytes.now }
{
    match first_part(bytes, b' ') {
        (word, Some(rest)) => (word, rest),
        (word, None) => (word, &[]),
    }
}

/// The words of a line that were not taken yet.
#[derive(Drop)]
pub(crate) struct Words<'a> {
    rest: &'a [u8],
}

impl<'a> Model for Words<'a> {
    ghost use Rattle.std.specs.Prelude.{List, ℕ};
    ghost use Rattle.cc_script.specs.Text.{words};

    ghost Value = { List (List ℕ) };

    ghost view = { λ w. words w.rest.now };
}

impl<'a> Words<'a> {
    pub(crate) fn new(line: &'a [u8]) -> Words<'a>
        ensures { result ≡ words line.now }
    {
        Words { rest: line }
    }

    /// Takes the first word.
    #[tactic(auto, using(crate::proofs::Parts::words_none))]
    pub(crate) fn next(&mut self) -> Option<&'a [u8]>
        ensures { MatchOption result (self.old ≡ []) (λ word. self.old ≡ word.now ∷ self.new) }
    {
        while !self.rest.is_empty() {
            let (word, rest) = first_word(self.rest);
            self.rest = rest;
            if !word.is_empty() {
                return Some(word);
            }
        }
        None
    }

    /// The first word, and the words behind it.
    pub(crate) fn split_first(&self) -> Option<(&'a [u8], Words<'a>)>
        ensures { MatchOption result (self.now ≡ []) (λ found. self.now ≡ found.0.now ∷ found.1) }
    {
        let mut behind = Words { rest: self.rest };
        match behind.next() {
            Some(word) => Some((word, behind)),
            None => None,
        }
    }

    pub(crate) fn is_empty(&self) -> bool
        ensures { result ≡ (length self.now == 0) }
    {
        let mut rest = Words { rest: self.rest };
        rest.next().is_none()
    }
}
