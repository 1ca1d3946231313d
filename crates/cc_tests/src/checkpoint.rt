//! A test of a checkpoint beside which another pass closes a file object. No script makes it: where a checkpoint is, there
//! is one caller.

ghost use Rattle.std.specs.Prelude.{◌≡◌, ◌≤◌, Some, length};
ghost use Rattle.std.specs.Thread.{IsSync};
ghost use Rattle.cc_calls.specs.Answers.{CanCall};
ghost use Rattle.cc_board.specs.Board.{IsFirstOf, IsOfBoard, IsSplit};
ghost use Rattle.cc_turns.specs.Standing.{nothing};
ghost use Rattle.cc_tests.specs.Boards.{IsNewBoard, MayAct};

use crate::desk::{desk_of, disk};
use crate::devices::Routine;
use cc_board::{Board, FirstPass, Pass, Seated};
use cc_calls::{copy_write, flush, initialize, set_log_handle, uninitialize};
use cc_entry::{CcError, FileId, FileSizes, Quota};
use cc_journal::Left;
use cc_memdev::MemDisk;
use cc_shim::checkpoint_streams;
use cc_traits::{LogFile, PageDisk, PostRoutine, Stop, Told};
use cc_turns::{Desk, Turns};
use std::alloc::Global;
use std::sync::Wait;
use std::sync::atomic::{AtomicBool, Ordering};
use std::test::Fail;
use std::thread::{self, Threads, join};

/// What came so far.
#[derive(Drop)]
struct Stage {
    /// A disk is inside a write.
    writes: AtomicBool,
    /// A disk was synced.
    synced: AtomicBool,
    /// The object was closed.
    closed: AtomicBool,
}

/// Waits until it came, at most ten million turns.
fn wait_for(came: &AtomicBool) {
    for _ in 0..10_000_000 {
        if came.load(Ordering::SeqCst) {
            return;
        }
        thread::yield_now();
    }
}

/// A disk whose writes wait until the object is closed.
#[derive(Drop)]
struct WaitingDisk<'a> {
    stage: &'a Stage,
    inner: MemDisk,
}

impl<'a> Told for WaitingDisk<'a> {
    ghost told = { λ disk. Some disk.inner.disk };

    ghost faults = { λ disk. disk.inner.faults };
}

impl<'a> PageDisk for WaitingDisk<'a> {
    fn read_page(&mut self, page: u64, out: &mut [u8; 4096]) -> Result<(), Stop> {
        self.inner.read_page(page, out)
    }

    fn write_page(&mut self, page: u64, bytes: &[u8; 4096]) -> Result<(), Stop> {
        self.stage.writes.store(true, Ordering::SeqCst);
        wait_for(&self.stage.closed);
        self.inner.write_page(page, bytes)
    }

    fn sync(&mut self) -> Result<(), Stop> {
        self.stage.synced.store(true, Ordering::SeqCst);
        self.inner.sync()
    }
}

/// What a pass does.
enum Part {
    /// Opens object 0 of each stream, writes a page of stream 1, and flushes it.
    Flush,
    /// Makes a checkpoint, while a disk is inside that write.
    Checkpoint,
    /// Closes object 0 of stream 1, once the checkpoint has synced the disk of stream 0.
    Close,
}

/// Opens object 0 of a stream, and sets log 0.
fn open<T: Turns>(alloc: Global, turns: &mut T, stream: u8) -> Result<(), CcError>
    requires known { stream ≤ 1 }
    requires can { CanCall (T.standing turns.old) 1 }
    ensures can { CanCall (T.standing turns.new) 1 }
    ensures here { (T.standing turns.new).shared ≡ (T.standing turns.old).shared }
{
    let file = FileId::new(stream, 0).unwrap();
    let quota = Quota::new(8).unwrap();
    let sizes = FileSizes {
        allocation: 8192,
        size: 8192,
        valid: 8192,
    };
    initialize(alloc, turns, file, sizes, quota, false)?;
    set_log_handle(alloc, turns, file, 0)
}

/// Does a part. The object is closed behind the checkpoint's question for its state, since the sync comes behind all of
/// them, and before the checkpoint's flush of it, since the write holds the turn of its disk until then.
fn act<T: Turns>(alloc: Global, turns: &mut T, stage: &Stage, part: Part) -> Result<(), CcError>
    requires can { CanCall (T.standing turns.old) 1 }
    ensures can { CanCall (T.standing turns.new) 1 }
    ensures here { (T.standing turns.new).shared ≡ (T.standing turns.old).shared }
{
    let file = FileId::new(1, 0).unwrap();
    match part {
        Part::Flush => {
            open(alloc, turns, 0)?;
            open(alloc, turns, 1)?;
            copy_write(alloc, turns, file, 0, b"bytes")?;
            flush(alloc, turns, file, None)
        }
        Part::Checkpoint => {
            wait_for(&stage.writes);
            checkpoint_streams(alloc, turns, 2, 0)?;
            Ok(())
        }
        Part::Close => {
            wait_for(&stage.synced);
            uninitialize(alloc, turns, file, None)?;
            stage.closed.store(true, Ordering::SeqCst);
            Ok(())
        }
    }
}

/// Acts with a pass of a board of two streams, which comes back.
fn act_seated<R: Wait, D: PageDisk, L: LogFile, Q: PostRoutine>(
    rt: &R,
    alloc: Global,
    board: &Board<D, L, Q>,
    stage: &Stage,
    pass: Pass<D, L, Q>,
    part: Part,
) -> (Pass<D, L, Q>, Result<(), CcError>)
    requires may { MayAct board.now pass }
    ensures { IsOfBoard board.now result.0 }
{
    let mut seated = Seated::new(rt, board, pass);
    let answer = act(alloc, &mut seated, stage, part);
    (seated.into_pass(), answer)
}

/// Splits a pass of a board of two streams, of which more can be split.
fn split<D: PageDisk, L: LogFile, Q: PostRoutine>(
    board: &Board<D, L, Q>,
    first: &mut FirstPass<D, L, Q>,
) -> Pass<D, L, Q>
    requires here { IsFirstOf board.now first.old }
    requires more { first.old.knows.made ≤ first.old.knows.passes }
    requires streams { length first.old.knows.disks ≡ 2 }
    ensures split { IsSplit first.old first.new result }
    ensures may { MayAct board.now result }
{
    let Some(pass) = board.split(first) else {
        unreachable!()
    };
    pass
}

/// Does the three parts, each on a thread of its own, and closes the board. Answers what the checkpoint was answered.
fn play<R: Threads + Wait + Sync, D: PageDisk + Send, L: LogFile + Send, Q: PostRoutine + Send>(
    rt: &R,
    alloc: Global,
    board: Board<D, L, Q>,
    first: FirstPass<D, L, Q>,
    stage: &Stage,
) -> (Desk<D, L, Q>, Result<(), CcError>)
    requires new { IsNewBoard 3 board first }
    requires streams { length first.knows.disks ≡ 2 }
    ensures { result.0.held ≡ nothing }
{
    let mut first = first;
    let one = split(&board, &mut first);
    let two = split(&board, &mut first);
    let three = split(&board, &mut first);
    let on = &board;
    let ((one, _), ((two, answer), (three, _))) = join(
        rt,
        move || -> (Pass<D, L, Q>, Result<(), CcError>)
            requires { IsSync R.row × MayAct on.now one }
            ensures { IsOfBoard on.entry.now result.0 }
        { act_seated(rt, alloc, on, stage, one, Part::Flush) },
        move || -> (
            (Pass<D, L, Q>, Result<(), CcError>),
            (Pass<D, L, Q>, Result<(), CcError>),
        )
            requires { IsSync R.row × MayAct on.now two × MayAct on.now three }
            ensures { IsOfBoard on.entry.now result.0.0 × IsOfBoard on.entry.now result.1.0 }
        {
            join(
                rt,
                move || -> (Pass<D, L, Q>, Result<(), CcError>)
                    requires { IsSync R.row × MayAct on.now two }
                    ensures { IsOfBoard on.entry.now result.0 }
                { act_seated(rt, alloc, on, stage, two, Part::Checkpoint) },
                move || -> (Pass<D, L, Q>, Result<(), CcError>)
                    requires { IsSync R.row × MayAct on.now three }
                    ensures { IsOfBoard on.entry.now result.0 }
                { act_seated(rt, alloc, on, stage, three, Part::Close) },
            )
        },
    );
    board.join(&mut first, one);
    board.join(&mut first, two);
    board.join(&mut first, three);
    match board.close(first) {
        Ok(desk) => (desk, answer),
        Err(_) => unreachable!(),
    }
}

#[test]
fn an_object_closes_between_its_state_and_its_flush(rt: HostRuntime) -> Result<(), Fail> {
    let alloc = rt.alloc();
    let stage = Stage {
        writes: AtomicBool::new(false),
        synced: AtomicBool::new(false),
        closed: AtomicBool::new(false),
    };
    let disks = vec![in alloc;
        WaitingDisk {
            stage: &stage,
            inner: disk(alloc)
        },
        WaitingDisk {
            stage: &stage,
            inner: disk(alloc)
        },
    ]?;
    let desk: Desk<_, _, Routine> = desk_of(alloc, disks, 64)?;
    let (desk, answer) = match Board::new(alloc, desk, 3) {
        Ok((board, first)) => play(&rt, alloc, board, first, &stage),
        Err((desk, _)) => {
            desk.leave();
            return Err(Fail::from("no memory"));
        }
    };
    let Left { logs, .. } = desk.leave();
    assert_eq!(rt; answer, Err(CcError::NotCached));
    assert!(rt; logs.iter().all(|log| log.entries().is_empty()));
    Ok(())
}
