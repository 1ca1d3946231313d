//! Places: streams, file objects, pages, ranges, log sequence numbers, quotas and file sizes.

ghost use Rattle.std.specs.Prelude.{◌≡◌, ◌<◌, ◌≤◌, ◌^◌, ◌↔◌, IsSome, IfSome};

use std::marker::Model;

/// A stream, numbered 0 to 15. All file objects of one file share its stream.
#[derive(Clone, Copy, Debug, PartialEq, Eq)]
pub struct StreamId {
    number: u8,
}

impl Model for StreamId {
    ghost use Rattle.std.specs.Prelude.{ℕ, ◌<◌};

    ghost Value = { ℕ };

    ghost view = { λ s. s.number };

    ghost invariant = { λ s. s.number < 16 };

    ghost inverse = { λ n. record { number = n } };
}

impl StreamId {
    /// The stream of this number, `None` from 16 on.
    pub fn new(n: u8) -> Option<StreamId>
        ensures in_range { IsSome result ↔ (n < 16) }
        ensures number { IfSome result (λ stream. stream ≡ n) }
    {
        if n < 16 {
            Some(StreamId { number: n })
        } else {
            None
        }
    }

    /// Its number, 0 to 15.
    pub fn number(self) -> u8
        ensures same { result ≡ self }
        ensures in_range { result < 16 }
    {
        self.number
    }
}

/// One file object of a stream, numbered 0 to 15: what an open of the file gave.
#[derive(Clone, Copy, Debug, PartialEq, Eq)]
pub struct FileId {
    stream: StreamId,
    object: u8,
}

impl Model for FileId {
    ghost use Rattle.std.specs.Prelude.{ℕ, ◌<◌};
    ghost use Rattle.cc_entry.specs.Place.{File};

    ghost Value = { File };

    ghost view = { λ f. record { stream = f.stream; object = f.object } };

    ghost invariant = { λ f. f.object < 16 };

    ghost inverse = { λ f. record { stream = f.stream; object = f.object } };
}

impl FileId {
    /// The file object of this number and of the stream of that one; `None` where one of the two is 16 or more.
    pub fn new(stream: u8, object: u8) -> Option<FileId>
        ensures in_range { IsSome result ↔ ((stream < 16) × (object < 16)) }
        ensures stream { IfSome result (λ file. file.stream ≡ stream) }
        ensures object { IfSome result (λ file. file.object ≡ object) }
    {
        let stream = StreamId::new(stream)?;
        if object < 16 {
            Some(FileId { stream, object })
        } else {
            None
        }
    }

    /// The stream of its file.
    pub fn stream(self) -> StreamId
        ensures { result ≡ self.stream }
    {
        self.stream
    }

    /// Its number among the file objects of its stream, 0 to 15.
    pub fn object(self) -> u8
        ensures same { result ≡ self.object }
        ensures in_range { result < 16 }
    {
        self.object
    }
}

/// A page of a stream, of 4096 bytes; its number lies below 2^51.
#[derive(Clone, Copy, PartialEq, Eq)]
pub struct PageId {
    stream: StreamId,
    page: u64,
}

impl Model for PageId {
    ghost use Rattle.std.specs.Prelude.{ℕ, ◌<◌, ◌^◌};
    ghost use Rattle.cc_entry.specs.Place.{Page};

    ghost Value = { Page };

    ghost view = { λ p. record { stream = p.stream; page = p.page } };

    ghost invariant = { λ p. p.page < 2 ^ 51 };

    ghost inverse = { λ p. record { stream = p.stream; page = p.page } };
}

impl PageId {
    /// The page of this number in a stream, `None` from 2^51 on.
    pub fn new(stream: StreamId, page: u64) -> Option<PageId>
        ensures in_range { IsSome result ↔ (page < 2 ^ 51) }
        ensures stream { IfSome result (λ place. place.stream ≡ stream) }
        ensures page { IfSome result (λ place. place.page ≡ page) }
    {
        if page < 1 << 51 {
            Some(PageId { stream, page })
        } else {
            None
        }
    }

    /// The stream that has the page.
    pub fn stream(self) -> StreamId
        ensures { result ≡ self.stream }
    {
        self.stream
    }

    /// Its number in its stream, below 2^51.
    pub fn page(self) -> u64
        ensures same { result ≡ self.page }
        ensures in_range { result < 2 ^ 51 }
    {
        self.page
    }
}

/// A log sequence number, 1 to 2^62.
#[derive(Clone, Copy, Debug, PartialEq, Eq)]
pub struct Lsn {
    number: u64,
}

impl Model for Lsn {
    ghost use Rattle.std.specs.Prelude.{ℕ, ◌≤◌, ◌^◌};

    ghost Value = { ℕ };

    ghost view = { λ l. l.number };

    ghost invariant = { λ l. (1 ≤ l.number) × (l.number ≤ 2 ^ 62) };

    ghost inverse = { λ n. record { number = n } };
}

impl Lsn {
    /// The LSN of this number, `None` for 0 and past 2^62.
    pub fn new(n: u64) -> Option<Lsn>
        ensures in_range { IsSome result ↔ ((1 ≤ n) × (n ≤ 2 ^ 62)) }
        ensures number { IfSome result (λ lsn. lsn ≡ n) }
    {
        if 1 <= n && n <= 1 << 62 {
            Some(Lsn { number: n })
        } else {
            None
        }
    }

    /// Its number, 1 to 2^62.
    pub fn number(self) -> u64
        ensures same { result ≡ self }
        ensures above_zero { 1 ≤ result }
        ensures in_range { result ≤ 2 ^ 62 }
    {
        self.number
    }
}

/// The bytes of a stream from `from` up to, and without, `to`.
#[derive(Clone, Copy)]
pub struct Span {
    from: u64,
    to: u64,
}

impl Model for Span {
    ghost use Rattle.std.specs.Prelude.{◌≤◌};
    ghost use Rattle.cc_entry.specs.Place.{Range};

    ghost Value = { Range };

    ghost view = { λ s. record { from = s.from; to = s.to } };

    ghost invariant = { λ s. s.from ≤ s.to };

    ghost inverse = { λ r. record { from = r.from; to = r.to } };
}

impl Span {
    /// The bytes from `from` up to, and without, `to`; `None` where `to` is less than `from`.
    pub fn new(from: u64, to: u64) -> Option<Span>
        ensures in_order { IsSome result ↔ (from ≤ to) }
        ensures start { IfSome result (λ span. span.from ≡ from) }
        ensures end { IfSome result (λ span. span.to ≡ to) }
    {
        if from <= to {
            Some(Span { from, to })
        } else {
            None
        }
    }

    /// The first byte.
    pub fn from(self) -> u64
        ensures same { result ≡ self.from }
        ensures in_order { self.from ≤ self.to }
    {
        self.from
    }

    /// The byte after the last one.
    pub fn to(self) -> u64
        ensures same { result ≡ self.to }
        ensures in_order { self.from ≤ self.to }
    {
        self.to
    }
}

/// How many view blocks of a stream may be mapped, 8 to 64.
#[derive(Clone, Copy)]
pub struct Quota {
    blocks: u8,
}

impl Model for Quota {
    ghost use Rattle.std.specs.Prelude.{ℕ, ◌≤◌};

    ghost Value = { ℕ };

    ghost view = { λ q. q.blocks };

    ghost invariant = { λ q. (8 ≤ q.blocks) × (q.blocks ≤ 64) };

    ghost inverse = { λ n. record { blocks = n } };
}

impl Quota {
    /// The quota of so many view blocks, `None` below 8 and past 64.
    pub fn new(n: u8) -> Option<Quota>
        ensures in_range { IsSome result ↔ ((8 ≤ n) × (n ≤ 64)) }
        ensures blocks { IfSome result (λ quota. quota ≡ n) }
    {
        if 8 <= n && n <= 64 {
            Some(Quota { blocks: n })
        } else {
            None
        }
    }

    /// How many view blocks may be mapped, 8 to 64.
    pub fn blocks(self) -> u8
        ensures same { result ≡ self }
        ensures at_least { 8 ≤ result }
        ensures at_most { result ≤ 64 }
    {
        self.blocks
    }
}

/// The three sizes of a stream in bytes: what is allocated, its end, and the valid data length, past
/// which every byte reads as zero.
#[derive(Clone, Copy)]
pub struct FileSizes {
    pub allocation: u64,
    pub size: u64,
    pub valid: u64,
}

/// What a stream's `file_state` answers: its sizes and the log it writes to.
#[derive(Clone, Copy)]
pub struct FileState {
    pub sizes: FileSizes,
    pub log: Option<u8>,
}

/// A read-ahead request: `len` bytes of the file object's stream from `at` on.
#[derive(Clone, Copy, Debug, PartialEq, Eq)]
pub struct Request {
    pub file: FileId,
    pub at: u64,
    pub len: u64,
}

/// A row of the dirty page table: a page, and the least and greatest LSN not yet written to it.
#[derive(Clone, Copy)]
pub struct DirtyRow {
    pub page: PageId,
    pub oldest: Lsn,
    pub newest: Lsn,
}
