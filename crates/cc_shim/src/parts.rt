//! The parts of a range, each held, read and let go: one for each view block, or the range as a descriptor chain.

ghost use Rattle.std.specs.Prelude.{◌≡◌, ◌-◌, ◌+◌, ◌*◌, ◌<◌, ◌^◌, length};
ghost use Rattle.cc_calls.specs.Answers.{CanCall};
ghost use Rattle.cc_pieces.specs.Shim.{descriptor_path, mapped_path, part_in, parts_of, pinned_path};
ghost use Rattle.cc_shim.specs.Reads.{PartEnds, PartsEnds, hold_path_of, parts_by};

use cc_calls::{
    map_data, mapped_read, mdl_bytes, mdl_read, mdl_read_complete, pin_read, pinned_read, unmap,
    unpin,
};
use cc_entry::{CcError, FileId, Span};
use cc_turns::Turns;
use std::alloc::Global;

/// The bytes of a view block.
const BLOCK: u64 = 262144;

/// By what the parts of a range are held: a map, a shared pin, or one descriptor chain of all of it.
#[derive(Clone, Copy)]
pub(crate) enum By {
    Map,
    Pin,
    Chain,
}

/// Reads a range that has a byte, part by part, and fills `out`.
pub(crate) fn read_parts<T: Turns>(
    alloc: Global,
    turns: &mut T,
    file: FileId,
    by: By,
    span: Span,
    out: &mut [u8],
) -> Result<(), CcError>
    requires can { CanCall (T.standing turns.old) file.stream }
    requires some { span.from < span.to }
    requires below { span.to < 2 ^ 63 }
    requires fits { length out.old ≡ span.to - span.from }
    ensures ends { PartsEnds (T.standing turns.old) (T.standing turns.new) (hold_path_of by file) (parts_by by span)
        result out.old out.new }
{
    match by {
        By::Map => read_blocks(alloc, turns, file, by, span, out),
        By::Pin => read_blocks(alloc, turns, file, by, span, out),
        By::Chain => read_chain(alloc, turns, file, span, out),
    }
}

// Reads a range block by block, ascending.
fn read_blocks<T: Turns>(
    alloc: Global,
    turns: &mut T,
    file: FileId,
    by: By,
    span: Span,
    out: &mut [u8],
) -> Result<(), CcError>
    requires can { CanCall (T.standing turns.old) file.stream }
    requires some { span.from < span.to }
    requires below { span.to < 2 ^ 63 }
    requires fits { length out.old ≡ span.to - span.from }
    ensures ends { PartsEnds (T.standing turns.old) (T.standing turns.new) (hold_path_of by file) (parts_of span)
        result out.old out.new }
{
    let from = span.from();
    let first = from / BLOCK;
    let last = (span.to() - 1) / BLOCK;
    for block in first..last + 1 {
        let part = part_of(span, block);
        let begin = (part.from() - from) as usize;
        let end = (part.to() - from) as usize;
        match read_part(alloc, turns, file, by, part, &mut out[begin..end]) {
            Ok(()) => (),
            Err(error) => return Err(error),
        }
    }
    Ok(())
}

// The part of a range in a view block in which it has a byte.
fn part_of(span: Span, block: u64) -> Span
    requires begins { 262144 * block < span.to }
    requires ends { span.from < 262144 * block + 262144 }
    requires some { span.from < span.to }
    requires below { span.to < 2 ^ 63 }
    ensures { result ≡ part_in span block }
{
    let begin = BLOCK * block;
    let from = span.from().max(begin);
    let to = span.to().min(begin + BLOCK);
    Span::new(from, to).unwrap()
}

// Holds one part, reads it, and lets it go.
fn read_part<T: Turns>(
    alloc: Global,
    turns: &mut T,
    file: FileId,
    by: By,
    part: Span,
    out: &mut [u8],
) -> Result<(), CcError>
    requires can { CanCall (T.standing turns.old) file.stream }
    requires fits { length out.old ≡ part.to - part.from }
    ensures ends { PartEnds (T.standing turns.old) (T.standing turns.new) (hold_path_of by file) part result out.old out.new }
{
    match by {
        By::Map => read_mapped(alloc, turns, file, part, out),
        By::Pin => read_pinned(alloc, turns, file, part, out),
        By::Chain => read_chain(alloc, turns, file, part, out),
    }
}

// The same by a map.
fn read_mapped<T: Turns>(
    alloc: Global,
    turns: &mut T,
    file: FileId,
    part: Span,
    out: &mut [u8],
) -> Result<(), CcError>
    requires can { CanCall (T.standing turns.old) file.stream }
    requires fits { length out.old ≡ part.to - part.from }
    ensures ends { PartEnds (T.standing turns.old) (T.standing turns.new) (mapped_path file) part result out.old out.new }
{
    let from = part.from();
    let len = part.to() - from;
    match map_data(alloc, turns, file, from, len) {
        Ok(map) => {
            let answer = mapped_read(alloc, turns, &map, from, out);
            turns.note_others();
            unmap(alloc, turns, map);
            answer
        }
        Err(error) => {
            turns.note_others();
            Err(error)
        }
    }
}

// The same by a shared pin.
fn read_pinned<T: Turns>(
    alloc: Global,
    turns: &mut T,
    file: FileId,
    part: Span,
    out: &mut [u8],
) -> Result<(), CcError>
    requires can { CanCall (T.standing turns.old) file.stream }
    requires fits { length out.old ≡ part.to - part.from }
    ensures ends { PartEnds (T.standing turns.old) (T.standing turns.new) (pinned_path file) part result out.old out.new }
{
    let from = part.from();
    let len = part.to() - from;
    match pin_read(alloc, turns, file, from, len, false) {
        Ok(pin) => {
            let answer = pinned_read(alloc, turns, &pin, from, out);
            turns.note_others();
            unpin(alloc, turns, pin);
            answer
        }
        Err(error) => {
            turns.note_others();
            Err(error)
        }
    }
}

// The same by a descriptor chain.
fn read_chain<T: Turns>(
    alloc: Global,
    turns: &mut T,
    file: FileId,
    part: Span,
    out: &mut [u8],
) -> Result<(), CcError>
    requires can { CanCall (T.standing turns.old) file.stream }
    requires fits { length out.old ≡ part.to - part.from }
    ensures ends { PartEnds (T.standing turns.old) (T.standing turns.new) (descriptor_path file) part result out.old out.new }
{
    let from = part.from();
    let len = part.to() - from;
    match mdl_read(alloc, turns, file, from, len) {
        Ok(chain) => {
            let answer = mdl_bytes(alloc, turns, &chain, from, out);
            turns.note_others();
            mdl_read_complete(alloc, turns, chain);
            answer
        }
        Err(error) => {
            turns.note_others();
            Err(error)
        }
    }
}
