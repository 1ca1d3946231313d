//! A list of bytes, kept in little memory where they repeat and where they don't.
//!
//! Contracts see the list, and its longest runs of equal bytes, which are a function of it; so is each
//! text that is printed of the bytes.

ghost use Rattle.std.specs.Prelude.{◌≡◌, ◌<◌, ◌≤◌, ◌+◌, ◌^◌, [], ◌++◌, length, take, drop, replicate, slice_get, IfOk, OnOk, OnErr, IsTrue, ◌↔◌};
ghost use Rattle.cc_entry.specs.Parts.{bytes_in, plain_in};
ghost use Rattle.cc_entry.specs.Runs.{runs_of, spelled, AreLongest};

use crate::error::NoMemory;
use crate::part::Part;
use crate::runs::Runs;
use crate::scan::BLOCK;
use std::alloc::Global;
use std::marker::Model;

/// A run that is shorter than this is kept byte by byte, in less memory than a part.
const SHORT: u64 = 24;

/// A list of bytes, of fewer than 2^64.
#[derive(Drop)]
pub struct Bytes {
    parts: Vec<Part>,
    /// The bytes that are kept as they are, of all parts.
    plain: Vec<u8>,
    len: u64,
}

impl Model for Bytes {
    ghost use Rattle.std.specs.Prelude.{◌≡◌, ◌<◌, ◌^◌, List, ℕ, length};
    ghost use Rattle.cc_entry.specs.Parts.{bytes_in, plain_in};

    ghost Value = { List ℕ };

    ghost view = { λ b. bytes_in b.parts.items b.plain.items };

    ghost invariant = { λ b. (plain_in b.parts.items ≡ length b.plain.items)
        × (b.len ≡ length (bytes_in b.parts.items b.plain.items)) × (b.len < 2 ^ 64) };
}

/// Room for a list of bytes of a greatest length, so that no memory is taken as they come.
#[derive(Drop)]
pub struct BytesRoom {
    parts: Vec<Part>,
    plain: Vec<u8>,
    most: usize,
}

impl Model for BytesRoom {
    ghost use Rattle.std.specs.Prelude.{◌≡◌, ◌≤◌, ◌*◌, ℕ, [], vec_capacity};

    ghost Value = { ℕ };

    ghost view = { λ r. r.most };

    ghost invariant = { λ r. (r.parts.items ≡ []) × (r.plain.items ≡ [])
        × (r.most ≤ 64 * vec_capacity r.parts) × (r.most ≤ vec_capacity r.plain) };
}

impl BytesRoom {
    /// Room for as many bytes at most. Answers `NoMemory` where memory is wanting.
    pub fn new(alloc: Global, most: usize) -> Result<BytesRoom, NoMemory>
        ensures { IfOk result (λ room. room ≡ most) }
    {
        // No part is shorter than a block but the last.
        let parts = Vec::with_capacity(alloc, most / BLOCK + 1)?;
        let plain = Vec::with_capacity(alloc, most)?;
        Ok(BytesRoom { parts, plain, most })
    }

    /// The bytes of a slice, in as little memory as they need.
    pub fn keep(self, slice: &[u8]) -> Bytes
        requires { length slice.now ≤ self }
        ensures { result ≡ slice.now }
    {
        let BytesRoom {
            mut parts,
            mut plain,
            most: _,
        } = self;
        let mut at = 0;
        while at < slice.len() {
            let part = Part::next(slice, at);
            // There is room for them, so this does not fail.
            let _kept = plain.extend_from_slice(&slice[at..at + part.plain]);
            at += part.plain + part.count as usize;
            parts.push_reserved(part);
        }
        parts.shrink_to_fit();
        plain.shrink_to_fit();
        Bytes {
            parts,
            plain,
            len: at as u64,
        }
    }
}

impl Bytes {
    /// No bytes.
    pub fn new(alloc: Global) -> Bytes
        ensures { result ≡ [] }
    {
        Bytes {
            parts: Vec::new(alloc),
            plain: Vec::new(alloc),
            len: 0,
        }
    }

    /// The bytes of a slice. Answers `NoMemory` where memory is wanting.
    pub fn of(alloc: Global, slice: &[u8]) -> Result<Bytes, NoMemory>
        ensures { IfOk result (λ bytes. bytes ≡ slice.now) }
    {
        let room = BytesRoom::new(alloc, slice.len())?;
        Ok(room.keep(slice))
    }

    /// Adds `count` bytes of one value at the end. Answers `NoMemory`, and then nothing has changed.
    pub fn append(&mut self, byte: u8, count: u64) -> Result<(), NoMemory>
        requires some { 0 < count }
        requires fits { length self.old + count < 2 ^ 64 }
        ensures ok { OnOk result (self.new ≡ self.old ++ replicate count byte) }
        ensures err { OnErr result (self.new ≡ self.old) }
    {
        extend(&mut self.parts, &mut self.plain, byte, count)?;
        self.len += count;
        Ok(())
    }

    /// How many bytes there are.
    pub fn len(&self) -> u64
        ensures { result ≡ length self.now }
    {
        self.len
    }

    /// Whether there is no byte.
    pub fn is_empty(&self) -> bool
        ensures { IsTrue result ↔ (self.now ≡ []) }
    {
        self.len == 0
    }

    /// The byte at a place, `None` past the end.
    pub fn get(&self, i: u64) -> Option<u8>
        ensures { result ≡ slice_get self.now i }
    {
        let mut plain = self.plain.as_slice();
        let mut at = i;
        for part in &self.parts {
            let (front, behind) = plain.split_at(part.plain);
            if at < front.len() as u64 {
                return Some(front[at as usize]);
            }
            at -= front.len() as u64;
            if at < part.count {
                return Some(part.byte);
            }
            at -= part.count;
            plain = behind;
        }
        None
    }

    /// The bytes in a `Vec`. Answers `NoMemory` where memory is wanting.
    pub fn to_vec(&self, alloc: Global) -> Result<Vec<u8>, NoMemory>
        ensures { IfOk result (λ bytes. bytes.items ≡ self.now) }
    {
        let mut bytes = vec![in alloc; 0; self.len as usize]?;
        self.copy_to(&mut bytes);
        Ok(bytes)
    }

    /// Copies the bytes into the front of a slice.
    pub fn copy_to(&self, out: &mut [u8])
        requires { length self.now ≤ length out.old }
        ensures { out.new ≡ self.now ++ drop (length self.now) out.old }
    {
        let mut plain = self.plain.as_slice();
        let mut at = 0;
        for part in &self.parts {
            let (front, behind) = plain.split_at(part.plain);
            put(out, at, front);
            at += front.len();
            fill(out, at, part.byte, part.count as usize);
            at += part.count as usize;
            plain = behind;
        }
    }

    /// The longest runs of equal bytes, in order: none is empty, and neighbours have different bytes.
    pub fn runs(&self) -> Runs<'_>
        ensures runs { result ≡ runs_of self.now }
        ensures spell { spelled result ≡ self.now }
        ensures longest { AreLongest result }
    {
        Runs::new(&self.parts, &self.plain)
    }
}

// Equal lists have the same runs.
impl PartialEq for Bytes {
    ghost use Rattle.std.specs.Prelude.{nat_eq};
    ghost use Rattle.std.specs.Cmp.Lexicographic.{pointwise, nat_list_eq_equiv};
    ghost use Rattle.std.specs.Cmp.{partial_equiv_from_equiv};

    ghost eq = { pointwise nat_eq };

    ghost laws = { partial_equiv_from_equiv nat_list_eq_equiv };

    fn eq(&self, other: &Bytes) -> bool {
        let mut theirs = other.runs();
        for run in self.runs() {
            match theirs.next() {
                Some(same) if run == same => {}
                _ => return false,
            }
        }
        theirs.next().is_none()
    }
}

// Copies bytes to a place of a slice.
fn put(out: &mut [u8], at: usize, bytes: &[u8])
    requires { at + length bytes.now ≤ length out.old }
    ensures front { take (at + length bytes.now) out.new ≡ take at out.old ++ bytes.now }
    ensures behind { drop (at + length bytes.now) out.new ≡ drop (at + length bytes.now) out.old }
{
    out[at..at + bytes.len()].copy_from_slice(bytes);
}

// Writes a byte so many times from a place of a slice on.
fn fill(out: &mut [u8], at: usize, byte: u8, count: usize)
    requires { at + count ≤ length out.old }
    ensures front { take (at + count) out.new ≡ take at out.old ++ replicate count byte }
    ensures behind { drop (at + count) out.new ≡ drop (at + count) out.old }
{
    out[at..at + count].fill(byte);
}

// Adds bytes at the end, in the last part where they repeat its last byte, or where that is one of few that do.
fn extend(parts: &mut Vec<Part>, plain: &mut Vec<u8>, byte: u8, count: u64) -> Result<(), NoMemory>
    requires some { 0 < count }
    requires fits { length (bytes_in parts.old.items plain.old.items) + count < 2 ^ 64 }
    requires whole { plain_in parts.old.items ≡ length plain.old.items }
    ensures ok { OnOk result (bytes_in parts.new.items plain.new.items ≡
        bytes_in parts.old.items plain.old.items ++ replicate count byte) }
    ensures err { OnErr result (bytes_in parts.new.items plain.new.items ≡
        bytes_in parts.old.items plain.old.items) }
    ensures whole { plain_in parts.new.items ≡ length plain.new.items }
{
    let n = parts.len();
    if n > 0 {
        let last = &parts[n - 1];
        if last.byte == byte {
            parts[n - 1] = Part::new(last.plain, byte, last.count + count);
            return Ok(());
        }
        if last.count < SHORT {
            let few = last.count as usize;
            plain.resize(plain.len() + few, last.byte)?;
            parts[n - 1] = Part::new(last.plain + few, byte, count);
            return Ok(());
        }
    }
    parts.push(Part::new(0, byte, count))?;
    Ok(())
}
