//! A cache from its restart to its end: both streams are restarted from the log, a desk or a board is made, the store is used,
//! and the devices come back.

ghost use Rattle.std.specs.Prelude.{◌≡◌, ◌≤◌, ◌<◌, length, IfOk};
ghost use Rattle.std.specs.Thread.{IsSync};
ghost use Rattle.cc_board.specs.Board.{IsFirstOf, IsOfBoard, IsSplit};
ghost use Rattle.cc_calls.specs.Answers.{CanCall};
ghost use Rattle.cc_calls.specs.Pages.{WentOn};
ghost use Rattle.cc_turns.specs.Desk.{DeskIsFresh};
ghost use Rattle.cc_turns.specs.Standing.{nothing};
ghost use Rattle.embed.specs.Passes.{IsNewBoard, MayAct};

use crate::devices::Wake;
use crate::store::{SIZE, keep, open_both};
use anyhow::Result;
use cc_board::{Board, FirstPass, Pass, Seated};
use cc_entry::{CcError, FileId};
use cc_journal::Left;
use cc_redo::{Redo, Restarted, restart, stored_record};
use cc_traits::{JournalKind, LogFile, PageDisk, Setup};
use cc_turns::{Desk, Turns};
use std::alloc::Global;
use std::sync::Wait;
use std::thread::{Threads, join};

/// The store with one caller. The devices come back.
pub fn on_desk<R: Print, D: PageDisk + Drop, L: LogFile>(
    rt: &R,
    alloc: Global,
    disks: Vec<D>,
    logs: Vec<L>,
) -> Result<(Vec<D>, Vec<L>)>
    requires disks { length disks.items ≡ 2 }
    requires logs { length logs.items ≡ 1 }
    ensures disks { IfOk result (λ back. length back.0.items ≡ 2) }
    ensures logs { IfOk result (λ back. length back.1.items ≡ 1) }
{
    let (mut desk, found) = begin(alloc, disks, logs)?;
    // Entries of the journal name who acts. A desk is one pass at a time, and pass 0 at first.
    desk.act_as(1);
    let kept = keep_both(alloc, &mut desk, &found);
    // A desk can't be dropped: it is left, and gives the devices back, whatever was answered.
    let entries = desk.journal().len();
    let Left { disks, logs, .. } = desk.leave();
    let (first, second) = kept?;
    println!(rt; "desk: {} updates were in the log", found.updates)?;
    println!(rt; "desk: {} and {} lines", count(&first), count(&second))?;
    println!(rt; "desk: {entries} entries in the journal")?;
    Ok((disks, logs))
}

/// Opens both streams, and adds a line to each.
fn keep_both<T: Turns>(
    alloc: Global,
    turns: &mut T,
    found: &Restarted,
) -> Result<(Vec<u8>, Vec<u8>), CcError>
    requires can { CanCall (T.standing turns.old) 1 }
    ensures goes_on { WentOn (T.standing turns.old) (T.standing turns.new) }
{
    let (one, other) = open_both(alloc, turns, found.last)?;
    let first = keep(alloc, turns, one, "apples\n")?;
    let second = keep(alloc, turns, other, "bolts\n")?;
    Ok((first, second))
}

/// How many lines a text has.
fn count(text: &[u8]) -> usize {
    text.iter().filter(|byte| **byte == b'\n').count()
}

/// Restarts both streams from the log, and makes a desk of what that leaves, which acts as pass 0.
fn begin<D: PageDisk + Drop, L: LogFile>(
    alloc: Global,
    disks: Vec<D>,
    logs: Vec<L>,
) -> Result<(Desk<D, L, Wake>, Restarted), CcError>
    requires disks { length disks.items ≡ 2 }
    requires logs { length logs.items ≡ 1 }
    ensures fresh { IfOk result (λ begun. DeskIsFresh begun.0.begun begun.0) }
    ensures disks { IfOk result (λ begun. length begun.0.begun.disks ≡ 2) }
    ensures logs { IfOk result (λ begun. length begun.0.begun.logs ≡ 1) }
{
    let mut disks = disks;
    let mut logs = logs;
    // First what the records on the disks say, and then what the log has beyond that.
    let one = redo_of(&mut disks[0], 0)?;
    let other = redo_of(&mut disks[1], 1)?;
    let found = restart(alloc, &mut logs[0], &[one, other], &mut disks)?;
    let setup = Setup {
        disks,
        logs,
        // It keeps no entry but the last, so the store may run for ever.
        journal: JournalKind::Unrecorded,
        threshold: 16,
    };
    match Desk::new(alloc, setup) {
        Ok(desk) => Ok((desk, found)),
        Err((_, error)) => Err(error),
    }
}

/// A stream as it is to be restarted: with the valid data length of its record, which a new disk has not yet.
fn redo_of<D: PageDisk>(disk: &mut D, stream: u8) -> Result<Redo, CcError>
    ensures { IfOk result (λ redo. redo.disk ≡ stream) }
{
    let valid = match stored_record(disk)? {
        Some(record) => record.valid().min(SIZE),
        None => 0,
    };
    Ok(Redo {
        stream,
        disk: stream,
        size: SIZE,
        valid,
    })
}

/// The store with two threads, each with a stream of its own.
pub fn on_board<R: Print + Threads + Wait + Sync, D: PageDisk + Send + Drop, L: LogFile + Send>(
    rt: &R,
    alloc: Global,
    disks: Vec<D>,
    logs: Vec<L>,
) -> Result<()>
    requires disks { length disks.items ≡ 2 }
    requires logs { length logs.items ≡ 1 }
{
    let (mut desk, found) = begin(alloc, disks, logs)?;
    // Both streams are opened before the threads begin: what pass 0 has seen, each pass that is split from it has seen too.
    let (one, other) = match open_both(alloc, &mut desk, found.last) {
        Ok(files) => files,
        Err(error) => {
            desk.leave();
            return Err(error.into());
        }
    };
    let (desk, first, second) = match Board::new(alloc, desk, 2) {
        Ok((board, first)) => on_threads(rt, alloc, board, first, one, other),
        Err((desk, error)) => {
            desk.leave();
            return Err(error.into());
        }
    };
    desk.leave();
    println!(rt; "board: {} updates were in the log", found.updates)?;
    println!(rt; "board: {} and {} lines", count(&first?), count(&second?))?;
    Ok(())
}

/// What a thread hands back: its pass, and the lines that it read.
type Kept<D, L> = (Pass<D, L, Wake>, Result<Vec<u8>, CcError>);

/// Adds a line to each stream, on a thread for each, and closes the board.
fn on_threads<R: Threads + Wait + Sync, D: PageDisk + Send, L: LogFile + Send>(
    rt: &R,
    alloc: Global,
    board: Board<D, L, Wake>,
    first: FirstPass<D, L, Wake>,
    one: FileId,
    other: FileId,
) -> (
    Desk<D, L, Wake>,
    Result<Vec<u8>, CcError>,
    Result<Vec<u8>, CcError>,
)
    requires new { IsNewBoard board first }
    requires one { one.stream ≡ 0 }
    requires other { other.stream ≡ 1 }
    ensures { result.0.held ≡ nothing }
{
    let mut first = first;
    let left = split(&board, &mut first, one);
    let right = split(&board, &mut first, other);
    // The threads share the board; each has a pass of its own, and hands it back.
    let on = &board;
    let ((left, lines), (right, others)) = join(
        rt,
        move || -> Kept<D, L>
            requires { IsSync R.row × MayAct on.now left one }
            ensures { IsOfBoard on.entry.now result.0 }
        { keep_seated(rt, alloc, on, left, one, "pears\n") },
        move || -> Kept<D, L>
            requires { IsSync R.row × MayAct on.now right other }
            ensures { IsOfBoard on.entry.now result.0 }
        { keep_seated(rt, alloc, on, right, other, "nuts\n") },
    );
    board.join(&mut first, left);
    board.join(&mut first, right);
    // It is refused while a pass is out, and here none is.
    match board.close(first) {
        Ok(desk) => (desk, lines, others),
        Err(_) => unreachable!(),
    }
}

/// Splits a pass that may call on the stream of a file.
fn split<D: PageDisk, L: LogFile>(
    board: &Board<D, L, Wake>,
    first: &mut FirstPass<D, L, Wake>,
    file: FileId,
) -> Pass<D, L, Wake>
    requires here { IsFirstOf board.now first.old }
    requires more { first.old.knows.made ≤ first.old.knows.passes }
    requires known { file.stream < length first.old.knows.disks }
    ensures split { IsSplit first.old first.new result }
    ensures may { MayAct board.now result file }
{
    let Some(pass) = board.split(first) else {
        unreachable!()
    };
    pass
}

/// Adds a line as a pass of a board, which takes its turns while it is seated and comes back.
fn keep_seated<R: Wait, D: PageDisk, L: LogFile>(
    rt: &R,
    alloc: Global,
    board: &Board<D, L, Wake>,
    pass: Pass<D, L, Wake>,
    file: FileId,
    line: &str,
) -> Kept<D, L>
    requires may { MayAct board.now pass file }
    ensures { IsOfBoard board.now result.0 }
{
    let mut seated = Seated::new(rt, board, pass);
    let lines = keep(alloc, &mut seated, file, line);
    (seated.into_pass(), lines)
}
