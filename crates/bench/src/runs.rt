//! A cache from its setup to its end: four streams are opened, a desk or the threads of a board make their calls, and all ends.

ghost use Rattle.std.specs.Prelude.{◌≡◌, ◌≤◌, ◌<◌, suc, length, IfOk};
ghost use Rattle.std.specs.Thread.{IsSync};
ghost use Rattle.cc_board.specs.Board.{IsFirstOf, IsOfBoard, IsSplit};
ghost use Rattle.cc_calls.specs.Answers.{CanCall};
ghost use Rattle.cc_calls.specs.Pages.{WentOn};
ghost use Rattle.cc_turns.specs.Desk.{DeskIsFresh};
ghost use Rattle.cc_turns.specs.Standing.{nothing};
ghost use Rattle.bench.specs.Passes.{IsNewBoard, MayAct};

use crate::ahead::repeat_ahead;
use crate::calls::{open, repeat};
use crate::devices::{EmptyLog, Fresh, Wake, fill};
use crate::kinds::{Act, Kind};
use anyhow::Result;
use cc_board::{Board, FirstPass, Pass, Seated};
use cc_entry::{CcError, FileId};
use cc_traits::{JournalKind, PageDisk, Setup};
use cc_turns::{Desk, Turns};
use std::alloc::Global;
use std::io;
use std::sync::Wait;
use std::thread::{Threads, join};
use std::time::{Clock, Duration, Instant};

/// What a run came to.
#[derive(Drop)]
pub struct Tally {
    /// How many calls were made.
    pub made: u64,
    /// How many of them were refused.
    pub refused: u64,
    /// How long they took, without the opening of the streams.
    pub took: io::Result<Duration>,
}

/// Which calls a caller makes, and how many.
#[derive(Clone, Copy)]
pub struct Order<'a> {
    kind: &'a Kind,
    count: u64,
    callers: u64,
}

/// Makes one kind of call so many times over disks: with no callers on a desk, else each of one to four on a thread of a board,
/// and on a stream of its own.
pub fn run<R: Clock + Threads + Wait + Sync, D: PageDisk + Send + Drop>(
    rt: &R,
    alloc: Global,
    disks: Vec<D>,
    kind: &Kind,
    count: u64,
    callers: u64,
) -> Result<Tally>
    requires disks { length disks.items ≡ 4 }
{
    let mut desk = begin(alloc, disks)?;
    if let Err(error) = open_all(alloc, &mut desk, kind) {
        desk.leave();
        return Err(error.into());
    }
    let order = Order {
        kind,
        count,
        callers,
    };
    if callers == 0 {
        let begun = Instant::now(rt);
        let refused = make(rt, alloc, &mut desk, file_of(0), order);
        let took = since(rt, begun);
        desk.leave();
        return Ok(Tally {
            made: count,
            refused: refused?,
            took,
        });
    }
    let (board, first) = match Board::new(alloc, desk, 4) {
        Ok(made) => made,
        Err((desk, error)) => {
            desk.leave();
            return Err(error.into());
        }
    };
    let begun = Instant::now(rt);
    let (desk, refused) = on_threads(rt, alloc, board, first, order);
    let took = since(rt, begun);
    desk.leave();
    Ok(Tally {
        made: count.saturating_mul(callers.min(4)),
        refused: refused?,
        took,
    })
}

/// A desk over disks and a log, whose journal keeps no entry but the last.
fn begin<D: PageDisk + Drop>(alloc: Global, disks: Vec<D>) -> Result<Desk<D, EmptyLog, Wake>>
    requires disks { length disks.items ≡ 4 }
    ensures fresh { IfOk result (λ desk. DeskIsFresh desk.begun desk) }
    ensures disks { IfOk result (λ desk. length desk.begun.disks ≡ 4) }
{
    let setup = Setup {
        disks,
        logs: vec![in alloc; EmptyLog::new()]?,
        journal: JournalKind::Unrecorded,
        threshold: 256,
    };
    match Desk::new(alloc, setup) {
        Ok(desk) => Ok(desk),
        Err((_, error)) => Err(error.into()),
    }
}

/// The file object of a stream by which all calls are made.
fn file_of(stream: u8) -> FileId
    requires few { stream < 4 }
    ensures stream { result.stream ≡ stream }
{
    FileId::new(stream, 0).unwrap()
}

/// Opens the four streams. A pass that may call on stream 3 may call on the others too.
fn open_all<T: Turns>(alloc: Global, turns: &mut T, kind: &Kind) -> Result<(), CcError>
    requires can { CanCall (T.standing turns.old) 3 }
    ensures goes_on { WentOn (T.standing turns.old) (T.standing turns.new) }
{
    open(alloc, turns, file_of(0), kind)?;
    open(alloc, turns, file_of(1), kind)?;
    open(alloc, turns, file_of(2), kind)?;
    open(alloc, turns, file_of(3), kind)
}

/// The time since another.
fn since<R: Clock>(rt: &R, begun: io::Result<Instant>) -> io::Result<Duration> {
    begun?.elapsed(rt)
}

/// Makes the calls of an order, and answers how many were refused.
fn make<R: Wait, T: Turns>(
    rt: &R,
    alloc: Global,
    turns: &mut T,
    file: FileId,
    order: Order<'_>,
) -> Result<u64, CcError>
where
    T::Post: Fresh,
    requires can { CanCall (T.standing turns.old) file.stream }
    ensures goes_on { WentOn (T.standing turns.old) (T.standing turns.new) }
{
    let mut bytes = vec![in alloc; 0; order.kind.bytes as usize]?;
    fill(&mut bytes);
    match order.kind.act {
        Act::ReadAhead => repeat_ahead(rt, alloc, turns, file, order.kind, order.count, &mut bytes),
        _ => Ok(repeat(alloc, turns, file, order.kind, order.count, &mut bytes)),
    }
}

/// What a thread hands back: its pass, and how many calls were refused.
type Made<D> = (Pass<D, EmptyLog, Wake>, Result<u64, CcError>);

/// Makes an order by each of the first callers, of four, on a thread of its own, and closes the board. The others make none.
fn on_threads<R: Threads + Wait + Sync, D: PageDisk + Send>(
    rt: &R,
    alloc: Global,
    board: Board<D, EmptyLog, Wake>,
    first: FirstPass<D, EmptyLog, Wake>,
    order: Order<'_>,
) -> (Desk<D, EmptyLog, Wake>, Result<u64, CcError>)
    requires new { IsNewBoard board first }
    ensures { result.0.held ≡ nothing }
{
    let mut first = first;
    let one = split(&board, &mut first, 0);
    let two = split(&board, &mut first, 1);
    let three = split(&board, &mut first, 2);
    let four = split(&board, &mut first, 3);
    let on = &board;
    let ((one, two), (three, four)) = join(
        rt,
        move || -> (Made<D>, Made<D>)
            requires { IsSync R.row × MayAct on.now one 0 × MayAct on.now two 1 }
            ensures { IsOfBoard on.entry.now result.0.0 × IsOfBoard on.entry.now result.1.0 }
        { two_seated(rt, alloc, on, one, two, 0, order) },
        move || -> (Made<D>, Made<D>)
            requires { IsSync R.row × MayAct on.now three 2 × MayAct on.now four 3 }
            ensures { IsOfBoard on.entry.now result.0.0 × IsOfBoard on.entry.now result.1.0 }
        { two_seated(rt, alloc, on, three, four, 2, order) },
    );
    board.join(&mut first, one.0);
    board.join(&mut first, two.0);
    board.join(&mut first, three.0);
    board.join(&mut first, four.0);
    let refused = sum(sum(one.1, two.1), sum(three.1, four.1));
    // It is refused while a pass is out, and here none is.
    match board.close(first) {
        Ok(desk) => (desk, refused),
        Err(_) => unreachable!(),
    }
}

/// Two callers on threads, on the stream of a number and the next one.
fn two_seated<R: Threads + Wait + Sync, D: PageDisk + Send>(
    rt: &R,
    alloc: Global,
    board: &Board<D, EmptyLog, Wake>,
    one: Pass<D, EmptyLog, Wake>,
    other: Pass<D, EmptyLog, Wake>,
    stream: u8,
    order: Order<'_>,
) -> (Made<D>, Made<D>)
    requires few { stream < 3 }
    requires one { MayAct board.now one stream }
    requires other { MayAct board.now other (suc stream) }
    ensures one { IsOfBoard board.now result.0.0 }
    ensures other { IsOfBoard board.now result.1.0 }
{
    let next = stream + 1;
    join(
        rt,
        move || -> Made<D>
            requires { IsSync R.row × MayAct board.now one stream × (stream < 4) }
            ensures { IsOfBoard board.entry.now result.0 }
        { seated(rt, alloc, board, one, stream, order) },
        move || -> Made<D>
            requires { IsSync R.row × MayAct board.now other next × (next < 4) }
            ensures { IsOfBoard board.entry.now result.0 }
        { seated(rt, alloc, board, other, next, order) },
    )
}

/// One caller of a board, which takes its turns while it is seated and comes back.
fn seated<R: Wait, D: PageDisk>(
    rt: &R,
    alloc: Global,
    board: &Board<D, EmptyLog, Wake>,
    pass: Pass<D, EmptyLog, Wake>,
    stream: u8,
    order: Order<'_>,
) -> Made<D>
    requires few { stream < 4 }
    requires may { MayAct board.now pass stream }
    ensures { IsOfBoard board.now result.0 }
{
    let mut turns = Seated::new(rt, board, pass);
    let refused = if u64::from(stream) < order.callers {
        make(rt, alloc, &mut turns, file_of(stream), order)
    } else {
        Ok(0)
    };
    (turns.into_pass(), refused)
}

/// Splits a pass that may call on a stream.
fn split<D: PageDisk>(
    board: &Board<D, EmptyLog, Wake>,
    first: &mut FirstPass<D, EmptyLog, Wake>,
    stream: u8,
) -> Pass<D, EmptyLog, Wake>
    requires here { IsFirstOf board.now first.old }
    requires more { first.old.knows.made ≤ first.old.knows.passes }
    requires known { stream < length first.old.knows.disks }
    ensures split { IsSplit first.old first.new result }
    ensures may { MayAct board.now result stream }
{
    let Some(pass) = board.split(first) else {
        unreachable!()
    };
    pass
}

/// How many calls two callers were refused.
fn sum(one: Result<u64, CcError>, other: Result<u64, CcError>) -> Result<u64, CcError> {
    Ok(one?.saturating_add(other?))
}
