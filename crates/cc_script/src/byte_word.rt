//! The word that spells bytes: `-`, or items parted by commas.

ghost use Rattle.std.specs.Prelude.{◌≡◌, ◌<◌};
ghost use Rattle.cc_script.specs.Outcome.{Gives, Becomes};
ghost use Rattle.cc_script.specs.Text.{parts};
ghost use Rattle.cc_script.specs.Words.{parsed_hex_digit, parsed_pair, with_bytes, pair_onto, pairs_onto, run_onto, item_onto, items_onto, parsed_bytes};

use crate::fault::LineFault;
use crate::part::{first_byte, first_part};
use crate::word::number_between;
use cc_entry::Bytes;
use std::alloc::Global;

/// The most bytes that one word spells, and the most that one read line asks.
pub(crate) const LONGEST: u64 = 2097152;

fn hex_digit(c: u8) -> Option<u8>
    ensures { result ≡ parsed_hex_digit c }
{
    match c {
        b'0'..=b'9' => Some(c - b'0'),
        b'A'..=b'F' => Some(c - b'A' + 10),
        _ => None,
    }
}

#[tactic(auto, unfolding(crate::specs::Words::parsed_pair))]
fn pair(a: u8, b: u8) -> Option<u8>
    ensures { result ≡ parsed_pair a b }
{
    let high = hex_digit(a)?;
    let low = hex_digit(b)?;
    Some(16 * high + low)
}

// Adds bytes of one value, within the longest word.
#[tactic(auto, unfolding(crate::specs::Words::with_bytes))]
fn append(bytes: &mut Bytes, byte: u8, count: u64) -> Result<(), LineFault>
    requires { 0 < count }
    ensures { Becomes (with_bytes bytes.old byte count) result bytes.new }
{
    match bytes.len().checked_add(count) {
        Some(len) if len <= LONGEST => Ok(bytes.append(byte, count)?),
        _ => Err(LineFault::Syntax),
    }
}

#[tactic(auto, unfolding(crate::specs::Words::pair_onto))]
fn append_pair(bytes: &mut Bytes, a: u8, b: u8) -> Result<(), LineFault>
    ensures { Becomes (pair_onto bytes.old a b) result bytes.new }
{
    let byte = pair(a, b).ok_or(LineFault::Syntax)?;
    append(bytes, byte, 1)
}

#[tactic(auto, unfolding(crate::specs::Words::pairs_onto))]
fn append_pairs(bytes: &mut Bytes, item: &[u8]) -> Result<(), LineFault>
    ensures { Becomes (pairs_onto bytes.old item.now) result bytes.new }
{
    let mut rest = item;
    while let Some((a, behind)) = first_byte(rest) {
        let (b, behind) = first_byte(behind).ok_or(LineFault::Syntax)?;
        append_pair(bytes, a, b)?;
        rest = behind;
    }
    Ok(())
}

#[tactic(auto, unfolding(crate::specs::Words::run_onto))]
fn append_run(bytes: &mut Bytes, a: u8, b: u8, number: &[u8]) -> Result<(), LineFault>
    ensures { Becomes (run_onto bytes.old a b number.now) result bytes.new }
{
    let byte = pair(a, b).ok_or(LineFault::Syntax)?;
    let count = number_between(1, LONGEST, number).ok_or(LineFault::Syntax)?;
    append(bytes, byte, count)
}

#[tactic(auto, unfolding(crate::specs::Words::item_onto))]
fn append_item(bytes: &mut Bytes, item: &[u8]) -> Result<(), LineFault>
    ensures { Becomes (item_onto bytes.old item.now) result bytes.new }
{
    let (a, behind) = first_byte(item).ok_or(LineFault::Syntax)?;
    let (b, behind) = first_byte(behind).ok_or(LineFault::Syntax)?;
    match first_byte(behind) {
        Some((b'x', number)) => append_run(bytes, a, b, number),
        _ => append_pairs(bytes, item),
    }
}

#[tactic(auto, unfolding(crate::specs::Words::items_onto))]
fn append_items(bytes: &mut Bytes, word: &[u8]) -> Result<(), LineFault>
    ensures { Becomes (items_onto bytes.old (parts 44 word.now)) result bytes.new }
{
    let mut rest = word;
    loop {
        let (item, after) = first_part(rest, b',');
        append_item(bytes, item)?;
        match after {
            Some(behind) => rest = behind,
            None => return Ok(()),
        }
    }
}

/// The bytes that a word spells.
#[tactic(auto, unfolding(crate::specs::Words::parsed_bytes))]
pub(crate) fn bytes(alloc: Global, word: &[u8]) -> Result<Bytes, LineFault>
    ensures { Gives (parsed_bytes word.now) result }
{
    let mut bytes = Bytes::new(alloc);
    if word != b"-".as_slice() {
        append_items(&mut bytes, word)?;
    }
    Ok(bytes)
}
