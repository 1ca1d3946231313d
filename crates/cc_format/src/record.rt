//! The record of a stream, and the page that spells it.

ghost use Rattle.std.specs.Prelude.{◌≡◌, ◌↔◌, ◌++◌, IsTrue, Some, replicate};
ghost use Rattle.cc_format.specs.Spelling.{recorded_size, recorded_valid, spelling, IsInRange, IsReadAs, SpellsStreamRecord};

use byteorder::{ByteOrder, LittleEndian};

/// The letters with which each record begins.
const LETTERS: [u8; 4] = *b"NTCS";

/// What the record of a stream says. Lengths are in bytes; the size is below 2^63, the valid data length at most the size.
#[derive(Clone, Copy, Debug, PartialEq)]
pub enum StreamRecord {
    /// A record of the first version, which says the size alone.
    V1 { size: u64 },
    /// A record of the second version.
    V2 { size: u64, valid: u64 },
}

impl StreamRecord {
    /// The size that it says.
    pub fn size(self) -> u64
        ensures { result ≡ recorded_size self }
    {
        match self {
            StreamRecord::V1 { size } => size,
            StreamRecord::V2 { size, valid: _ } => size,
        }
    }

    /// The valid data length that it says; of the first version the size.
    pub fn valid(self) -> u64
        ensures { result ≡ recorded_valid self }
    {
        match self {
            StreamRecord::V1 { size } => size,
            StreamRecord::V2 { size: _, valid } => valid,
        }
    }

    // Whether its numbers are ones that a record may say.
    fn is_in_range(self) -> bool
        ensures { IsTrue result ↔ IsInRange self }
    {
        self.size() < 1 << 63 && self.valid() <= self.size()
    }
}

/// The record of which the page is the spelling; `None` where the page spells none.
pub fn read_record(page: &[u8; 4096]) -> Option<StreamRecord>
    ensures { IsReadAs page.now result }
{
    match told_by(page) {
        Some(told) if told.is_in_range() && is_spelling(page, told) => Some(told),
        _ => None,
    }
}

/// Makes `out` the page that spells the record.
pub fn write_record(value: StreamRecord, out: &mut [u8; 4096])
    requires in_range { IsInRange value }
    ensures { SpellsStreamRecord out.new value }
{
    out.fill(0);
    out[..24].copy_from_slice(&head_of(value));
}

// Whether the page is the spelling of a record with numbers in range.
fn is_spelling(page: &[u8; 4096], told: StreamRecord) -> bool
    requires in_range { IsInRange told }
    ensures { IsTrue result ↔ (page.now ≡ spelling told) }
{
    let mut spelled = [0; 4096];
    write_record(told, &mut spelled);
    spelled == *page
}

// The bytes of a record up to the zeros with which its page ends.
fn head_of(value: StreamRecord) -> [u8; 24]
    ensures { spelling value ≡ result ++ replicate 4072 0 }
{
    let mut head = [0; 24];
    head[..4].copy_from_slice(&LETTERS);
    match value {
        StreamRecord::V1 { size } => {
            LittleEndian::write_u32(&mut head[4..8], 1);
            LittleEndian::write_u64(&mut head[8..16], size);
        }
        StreamRecord::V2 { size, valid } => {
            LittleEndian::write_u32(&mut head[4..8], 2);
            LittleEndian::write_u64(&mut head[8..16], size);
            LittleEndian::write_u64(&mut head[16..24], valid);
        }
    }
    head
}

// What the numbers of a page say, whatever else stands there.
fn told_by(page: &[u8; 4096]) -> Option<StreamRecord>
    ensures { (told : StreamRecord) → SpellsStreamRecord page.now told → result ≡ Some told }
{
    let version = LittleEndian::read_u32(&page[4..8]);
    let size = LittleEndian::read_u64(&page[8..16]);
    let valid = LittleEndian::read_u64(&page[16..24]);
    match version {
        1 => Some(StreamRecord::V1 { size }),
        2 => Some(StreamRecord::V2 { size, valid }),
        _ => None,
    }
}
