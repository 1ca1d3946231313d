//! The forms of a word.

ghost use Rattle.std.specs.Prelude.{◌≡◌, ◌≤◌, true, IfSome};
ghost use Rattle.std.specs.Bool.{OnTrue};
ghost use Rattle.cc_script.specs.Words.{parsed_number, number_onto, number_between, is_name, is_name_byte, parsed_caller};
ghost use Rattle.std.specs.List.{list_all};

use crate::part::first_byte;

/// A decimal number below 2^64, without a leading zero.
#[tactic(auto, unfolding(crate::specs::Words::parsed_number))]
pub(crate) fn number(word: &[u8]) -> Option<u64>
    ensures { result ≡ parsed_number word.now }
{
    let (first, rest) = first_byte(word)?;
    if first == b'0' && !rest.is_empty() {
        return None;
    }
    digits(word)
}

fn digits(word: &[u8]) -> Option<u64>
    ensures { result ≡ number_onto 0 word.now }
{
    let mut n: u64 = 0;
    for &digit in word {
        if !digit.is_ascii_digit() {
            return None;
        }
        n = n.checked_mul(10)?.checked_add(u64::from(digit - b'0'))?;
    }
    Some(n)
}

/// A number from `low` to `high`.
#[tactic(auto, unfolding(crate::specs::Words::number_between))]
pub(crate) fn number_between(low: u64, high: u64, word: &[u8]) -> Option<u64>
    ensures value { result ≡ number_between low high word.now }
    ensures in_range { IfSome result (λ n. (low ≤ n) × (n ≤ high)) }
{
    let n = number(word)?;
    if low <= n && n <= high { Some(n) } else { None }
}

/// Whether a word is a name: a lower-case letter, then up to 15 lower-case letters or digits.
#[tactic(auto, unfolding(crate::specs::Words::is_name))]
pub(crate) fn is_name(word: &[u8]) -> bool
    ensures value { result ≡ is_name word.now }
    ensures bytes { OnTrue result (list_all is_name_byte word.now ≡ true) }
{
    let Some((first, rest)) = first_byte(word) else {
        return false;
    };
    first.is_ascii_lowercase() && rest.len() <= 15 && are_name_bytes(word)
}

fn are_name_bytes(bytes: &[u8]) -> bool
    ensures { result ≡ list_all is_name_byte bytes.now }
{
    bytes.iter().all(|c| is_name_byte(*c))
}

pub(crate) fn is_name_byte(c: u8) -> bool
    ensures { result ≡ is_name_byte c }
{
    c.is_ascii_lowercase() || c.is_ascii_digit()
}

/// The caller that a word `t1` to `t16` names.
#[tactic(auto, unfolding(crate::specs::Words::parsed_caller))]
pub(crate) fn caller(word: &[u8]) -> Option<u32>
    ensures value { result ≡ parsed_caller word.now }
    ensures in_range { IfSome result (λ caller. caller ≤ 16) }
{
    let (first, number) = first_byte(word)?;
    if first != b't' {
        return None;
    }
    let caller = number_between(1, 16, number)?;
    Some(caller as u32)
}
