//! What a script says.

ghost use Rattle.std.specs.Prelude.{◌≡◌, ◌∷◌, ◌++◌, ◌<◌, ◌≤◌, ◌==◌, [], length, vec_len, OnOk, OnErr};
ghost use Rattle.std.specs.List.{position};
ghost use Rattle.std.specs.Str.{bytes_eq};
ghost use Rattle.cc_script.specs.HoldWords.{binds, words_bound};
ghost use Rattle.cc_script.specs.Modes.{is_call};
ghost use Rattle.cc_script.specs.EventActions.{is_defer, defer_lines};
ghost use Rattle.cc_script.specs.Checkpoints.{is_checkpoint};
ghost use Rattle.cc_script.specs.Grammar.{has_restart};

use crate::hold_word::HoldWord;
use crate::name::Name;
use cc_entry::{Bytes, FileId, FileSizes, Lsn, NoMemory, PageId, Query, Quota, Span, StreamId};
use std::alloc::Global;
use std::marker::Model;
use thiserror::Error;

/// What the lines of a script are: calls of callers, or events in their order.
#[derive(Clone, Copy)]
pub enum Mode {
    Run,
    Steps,
}

/// A stream of the script, numbered by its place in the list.
#[derive(Drop)]
pub struct StreamLine {
    pub line: u32,
    pub name: Name,
    pub size: u64,
    pub valid: u64,
    pub quota: Quota,
    pub temporary: bool,
    pub log: Option<u8>,
    /// Whether the stream is opened with the sizes of its record, where its disk has one.
    pub stored: bool,
}

/// The streams of a script, at most 16.
#[derive(Drop)]
pub struct StreamLines {
    items: Vec<StreamLine>,
}

impl Model for StreamLines {
    ghost use Rattle.std.specs.Prelude.{List, length, ◌≤◌};
    ghost use Rattle.cc_script.specs.declared.script.StreamLine.{StreamLine};

    ghost Value = { List StreamLine };

    ghost view = { λ l. l.items.items };

    ghost invariant = { λ l. length l.items.items ≤ 16 };
}

impl StreamLines {
    /// No stream.
    pub fn new(alloc: Global) -> StreamLines
        ensures { result ≡ [] }
    {
        StreamLines {
            items: Vec::new(alloc),
        }
    }

    /// The streams of a `Vec`, in its order; they are 16 at most.
    pub fn from_vec(items: Vec<StreamLine>) -> StreamLines
        requires { vec_len items ≤ 16 }
        ensures { result ≡ items.items }
    {
        StreamLines { items }
    }

    /// The streams in the `Vec` that keeps them.
    pub fn into_vec(self) -> Vec<StreamLine>
        ensures { result.items ≡ self }
    {
        let StreamLines { items } = self;
        items
    }

    /// The streams, each at the place that is its number.
    pub fn as_slice(&self) -> &[StreamLine]
        ensures same { result.now ≡ self.now }
        ensures most { length self.now ≤ 16 }
    {
        &self.items
    }

    /// How many streams there are, at most 16.
    pub fn len(&self) -> usize
        ensures count { result ≡ length self.now }
        ensures most { result ≤ 16 }
    {
        self.items.len()
    }

    /// Whether there is no stream.
    pub fn is_empty(&self) -> bool
        ensures { result ≡ (length self.now == 0) }
    {
        self.items.is_empty()
    }

    /// The first stream of a name.
    pub fn find(&self, name: &[u8]) -> Option<StreamId>
        ensures { result ≡ position (λ s. bytes_eq s.name name.now) self.now }
    {
        let place = place_of(&self.items, name)?;
        StreamId::new(place as u8)
    }

    pub(crate) fn push(&mut self, stream: StreamLine) -> Result<(), NoMemory>
        requires { length self.old < 16 }
        ensures ok { OnOk result (self.new ≡ self.old ++ stream ∷ []) }
        ensures err { OnErr result (self.new ≡ self.old) }
    {
        self.items.reserve(1).map_err(|_| NoMemory)?;
        self.items.push_reserved(stream);
        Ok(())
    }
}

fn place_of(streams: &[StreamLine], name: &[u8]) -> Option<usize>
    ensures { result ≡ position (λ s. bytes_eq s.name name.now) streams.now }
{
    streams.iter().position(|s| s.name.as_bytes() == name)
}

/// A log from which the streams that are stored are restarted, before they are opened.
#[derive(Clone, Copy)]
pub struct RestartLine {
    pub line: u32,
    pub handle: u8,
}

/// The restarts of a script, each of another of four logs.
#[derive(Drop)]
pub struct RestartLines {
    items: Vec<RestartLine>,
}

impl Model for RestartLines {
    ghost use Rattle.std.specs.Prelude.{List};
    ghost use Rattle.cc_script.specs.declared.script.RestartLine.{RestartLine};

    ghost Value = { List RestartLine };

    ghost view = { λ l. l.items.items };
}

impl RestartLines {
    /// No restart.
    pub fn new(alloc: Global) -> RestartLines
        ensures { result ≡ [] }
    {
        RestartLines {
            items: Vec::new(alloc),
        }
    }

    /// The restarts, in the order of their lines.
    pub fn as_slice(&self) -> &[RestartLine]
        ensures { result.now ≡ self.now }
    {
        &self.items
    }

    /// Whether one of them is of a log.
    pub(crate) fn has(&self, handle: u8) -> bool
        ensures { result ≡ has_restart handle self.now }
    {
        self.items.iter().any(|restart| restart.handle == handle)
    }

    pub(crate) fn push(&mut self, restart: RestartLine) -> Result<(), NoMemory>
        ensures ok { OnOk result (self.new ≡ self.old ++ restart ∷ []) }
        ensures err { OnErr result (self.new ≡ self.old) }
    {
        self.items.reserve(1).map_err(|_| NoMemory)?;
        self.items.push_reserved(restart);
        Ok(())
    }
}

/// By which calls a read of the file system shim goes.
#[derive(Clone, Copy)]
pub enum ReadPath {
    Cached,
    Mapped,
    Pinned,
    Descriptor,
    Noncached,
}

/// What a line asks for, with the values of its words.
#[derive(Drop)]
pub enum Action {
    /// An open of a file object, with any three sizes: where they are out of order, the call is refused.
    Initialise {
        file: FileId,
        sizes: FileSizes,
        quota: Quota,
        temporary: bool,
    },
    /// The close of a file object, with the size to which the stream is cut where one is said.
    Uninitialise {
        file: FileId,
        truncate: Option<u64>,
    },
    CopyRead {
        file: FileId,
        at: u64,
        len: u64,
        wait: bool,
    },
    CopyWrite {
        file: FileId,
        at: u64,
        bytes: Bytes,
    },
    Zero {
        file: FileId,
        span: Span,
    },
    Map {
        file: FileId,
        at: u64,
        len: u64,
        word: HoldWord,
    },
    PinRead {
        file: FileId,
        at: u64,
        len: u64,
        word: HoldWord,
        exclusive: bool,
    },
    PinMapped {
        word: HoldWord,
        exclusive: bool,
    },
    PreparePin {
        file: FileId,
        at: u64,
        len: u64,
        word: HoldWord,
        zero: bool,
        exclusive: bool,
    },
    /// A read of the bytes of a map or of a pin.
    HeldRead {
        word: HoldWord,
        at: u64,
        len: u64,
    },
    PinnedWrite {
        word: HoldWord,
        at: u64,
        bytes: Bytes,
    },
    SetDirty {
        word: HoldWord,
        lsn: Option<Lsn>,
    },
    /// The end of a map or of a pin.
    Unpin {
        word: HoldWord,
    },
    /// A repin of the pin of a word, which another word names from now on.
    Repin {
        word: HoldWord,
        made: HoldWord,
    },
    UnpinRepinned {
        word: HoldWord,
        through: bool,
    },
    MdlRead {
        file: FileId,
        at: u64,
        len: u64,
        word: HoldWord,
    },
    MdlWrite {
        file: FileId,
        at: u64,
        len: u64,
        word: HoldWord,
    },
    MdlBytes {
        word: HoldWord,
        at: u64,
        len: u64,
    },
    MdlStore {
        word: HoldWord,
        at: u64,
        bytes: Bytes,
    },
    /// The end of a chain, of whichever kind.
    MdlDone {
        word: HoldWord,
    },
    MdlAbort {
        word: HoldWord,
    },
    /// A noncached read of a run, page after page.
    NcRead {
        file: FileId,
        at: u64,
        len: u64,
    },
    /// A noncached write of a run, page after page.
    NcWrite {
        file: FileId,
        at: u64,
        bytes: Bytes,
    },
    SetSizes {
        file: FileId,
        allocation: u64,
        size: u64,
    },
    Flush {
        file: FileId,
        span: Option<Span>,
    },
    Purge {
        file: FileId,
        span: Option<Span>,
    },
    /// A purge that throws unwritten changes away.
    Discard {
        file: FileId,
        span: Option<Span>,
    },
    /// A read of the shim along one of its paths.
    Read {
        file: FileId,
        path: ReadPath,
        at: u64,
        len: u64,
    },
    /// A write of the shim, which extends the stream where it has to.
    Write {
        file: FileId,
        at: u64,
        bytes: Bytes,
    },
    /// A logged update of the shim.
    Update {
        file: FileId,
        at: u64,
        bytes: Bytes,
    },
    /// Locks a range of a stream, so that no other may lock it, or none exclusively.
    Lock {
        file: FileId,
        span: Span,
        exclusive: bool,
    },
    /// Ends the lock of this id.
    Unlock {
        file: FileId,
        id: u64,
    },
    /// How many levels the view index of a stream has.
    Levels {
        file: FileId,
    },
    /// A stream is flushed, and its size and valid data length are told on its disk.
    Settle {
        file: FileId,
    },
    /// The dirty page table of a log is appended to it, behind a sync of those of the script's streams, so many, that have it.
    Checkpoint {
        streams: u8,
        handle: u8,
    },
    Query(Query),
    SetLog {
        file: FileId,
        handle: u8,
    },
    Append {
        handle: u8,
        bytes: Bytes,
    },
    LogFlush {
        handle: u8,
        lsn: Lsn,
    },
    SetGranularity {
        file: FileId,
        bytes: u64,
    },
    SetAttributes {
        file: FileId,
        no_read_ahead: bool,
        no_write_behind: bool,
    },
    /// How many pages of a stream may be dirty before a write may not go, 0 for no limit.
    SetThreshold {
        file: FileId,
        pages: u32,
    },
    /// One page of a noncached read in steps.
    NcReadPage {
        file: FileId,
        page: u64,
    },
    /// One page of a noncached write in steps, as its bytes come into the cache.
    NcStorePage {
        file: FileId,
        page: u64,
        bytes: Bytes,
    },
    /// One page of a noncached write in steps, as it is on the disk.
    NcWritePage {
        file: FileId,
        page: u64,
    },
    /// A page comes in.
    Fill {
        page: PageId,
    },
    /// A page goes out.
    Drop {
        page: PageId,
    },
    /// The transfer of a page to the disk begins.
    WriteBegin {
        page: PageId,
    },
    /// The transfer of a page ends.
    WriteEnd {
        page: PageId,
    },
    /// The disk of a stream is synced.
    Sync {
        stream: StreamId,
    },
    /// The lazy writer chooses pages.
    Scan,
    /// A read is announced, and the read-ahead that follows from it is asked for.
    AskAhead {
        file: FileId,
        at: u64,
        len: u64,
    },
    /// The first read-ahead that was asked for is made.
    AheadStep,
    /// A copied read is made at once, or queued where a page of it is not resident.
    AsyncRead {
        file: FileId,
        at: u64,
        len: u64,
    },
    /// The first copied read that was queued is made.
    Complete,
    /// A tick of the lazy writer: it chooses pages and writes them.
    Tick,
    /// A write is deferred, at the head of the queue where it is tried again.
    Defer {
        file: FileId,
        bytes: u64,
        retrying: bool,
    },
    /// Deferred writes are posted, the first first: in a run as long as one may go, in steps one.
    Post,
}

impl Action {
    /// Whether it binds a word to a hold.
    pub fn binds(&self) -> bool
        ensures { result ≡ binds self.now }
    {
        matches!(
            self,
            Action::Map { .. }
                | Action::PinRead { .. }
                | Action::PreparePin { .. }
                | Action::Repin { .. }
                | Action::MdlRead { .. }
                | Action::MdlWrite { .. }
        )
    }

    /// Whether it is a call of the cache, which may fail by a fault of its caller. The others are steps of a page, a log
    /// or a queue, lines of the shim and `settle`, which are lists of calls, ticks, those of read-ahead, whose queue is a
    /// run's, and `levels`, which leaves no entry.
    pub fn is_call(&self) -> bool
        ensures { result ≡ is_call self.now }
    {
        !matches!(
            self,
            Action::Append { .. }
                | Action::LogFlush { .. }
                | Action::Fill { .. }
                | Action::Drop { .. }
                | Action::WriteBegin { .. }
                | Action::WriteEnd { .. }
                | Action::Sync { .. }
                | Action::Scan
                | Action::AskAhead { .. }
                | Action::AheadStep
                | Action::AsyncRead { .. }
                | Action::Complete
                | Action::Tick
                | Action::Read { .. }
                | Action::Write { .. }
                | Action::Update { .. }
                | Action::Lock { .. }
                | Action::Unlock { .. }
                | Action::Levels { .. }
                | Action::Settle { .. }
                | Action::Checkpoint { .. }
                | Action::Defer { .. }
                | Action::Post
        )
    }

    /// Whether it is a checkpoint, beside which no other caller has lines in its phase.
    pub(crate) fn is_checkpoint(&self) -> bool
        ensures { result ≡ is_checkpoint self.now }
    {
        matches!(self, Action::Checkpoint { .. })
    }

    fn is_defer(&self) -> bool
        ensures { result ≡ is_defer self.now }
    {
        matches!(self, Action::Defer { .. })
    }
}

/// An action with its line, its phase and its caller, all counted from 1, and whether it is to fail by a fault that its
/// caller met.
#[derive(Drop)]
pub struct ActionLine {
    pub line: u32,
    pub phase: u32,
    pub caller: u32,
    pub fails: bool,
    pub action: Action,
}

/// The actions of a script, in the order of their lines.
#[derive(Drop)]
pub struct ActionLines {
    items: Vec<ActionLine>,
}

impl Model for ActionLines {
    ghost use Rattle.std.specs.Prelude.{List};
    ghost use Rattle.cc_script.specs.declared.script.ActionLine.{ActionLine};

    ghost Value = { List ActionLine };

    ghost view = { λ l. l.items.items };
}

impl ActionLines {
    /// No action.
    pub fn new(alloc: Global) -> ActionLines
        ensures { result ≡ [] }
    {
        ActionLines {
            items: Vec::new(alloc),
        }
    }

    /// The actions of a `Vec`, in its order.
    pub fn from_vec(items: Vec<ActionLine>) -> ActionLines
        ensures { result ≡ items.items }
    {
        ActionLines { items }
    }

    /// The actions, in the order of their lines.
    pub fn as_slice(&self) -> &[ActionLine]
        ensures { result.now ≡ self.now }
    {
        &self.items
    }

    /// Whether there is no action.
    pub fn is_empty(&self) -> bool
        ensures { result ≡ (length self.now == 0) }
    {
        self.items.is_empty()
    }

    /// The actions in the `Vec` that keeps them.
    pub fn into_vec(self) -> Vec<ActionLine>
        ensures { result.items ≡ self }
    {
        let ActionLines { items } = self;
        items
    }

    pub(crate) fn push(&mut self, line: ActionLine) -> Result<(), NoMemory>
        ensures ok { OnOk result (self.new ≡ self.old ++ line ∷ []) }
        ensures err { OnErr result (self.new ≡ self.old) }
    {
        self.items.reserve(1).map_err(|_| NoMemory)?;
        self.items.push_reserved(line);
        Ok(())
    }
}

/// A script: what its header lines set, its streams and its actions. What a script doesn't set is a
/// journal of 1048576 entries and a cache threshold of 1024 pages.
#[derive(Drop)]
pub struct Script {
    pub journal: u64,
    pub threshold: u32,
    pub ticks: u32,
    pub aheads: u32,
    pub phases: u32,
    pub restarts: RestartLines,
    pub streams: StreamLines,
    pub lines: ActionLines,
}

impl Script {
    /// How many words a caller binds, so that there may be room for all of them at once.
    pub fn words_of(&self, caller: u32) -> usize
        ensures { result ≡ words_bound caller self.now.lines }
    {
        let mut count = 0;
        for line in self.lines.as_slice() {
            if line.caller == caller && line.action.binds() {
                count += 1;
            }
        }
        count
    }

    /// How many lines are `defer`. Each has a post routine of its own, in the order of the lines.
    pub fn defers(&self) -> usize
        ensures { result ≡ defer_lines self.now.lines }
    {
        let mut count = 0;
        for line in self.lines.as_slice() {
            if line.action.is_defer() {
                count += 1;
            }
        }
        count
    }
}

/// Why a script is not read.
#[derive(Clone, Copy, Debug, PartialEq, Eq, Error)]
pub enum ScriptFault {
    /// The first line that is not in the grammar, counted from 1.
    #[error("line {line} is not in the grammar")]
    Syntax { line: u32 },
    #[error("out of memory")]
    NoMemory,
}
