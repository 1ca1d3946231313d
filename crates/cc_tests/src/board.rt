//! A test of a board, which is not closed while a pass is out.

ghost use Rattle.std.specs.Prelude.{◌≡◌, IfOk};
ghost use Rattle.cc_turns.specs.Standing.{nothing};
ghost use Rattle.cc_tests.specs.Boards.{IsNewBoard};

use crate::desk::desk;
use crate::devices::Routine;
use cc_board::{Board, FirstPass, StillOut};
use cc_journal::Left;
use cc_memdev::{MemDisk, MemLog};
use cc_turns::Desk;
use std::alloc::Global;
use std::test::Fail;

/// A board of a desk, of which so many passes can be split.
fn board(
    alloc: Global,
    passes: u16,
) -> Result<
    (
        Board<MemDisk, MemLog, Routine>,
        FirstPass<MemDisk, MemLog, Routine>,
    ),
    Fail,
>
    ensures { IfOk result (λ made. IsNewBoard passes made.0 made.1) }
{
    match Board::new(alloc, desk(alloc)?, passes) {
        Ok(made) => Ok(made),
        Err((desk, _)) => {
            desk.leave();
            Err(Fail::from("no memory"))
        }
    }
}

/// Splits a pass, closes the board, which is refused, joins the pass, and closes it. Answers how many passes were out.
fn closed_in_the_end(
    board: Board<MemDisk, MemLog, Routine>,
    first: FirstPass<MemDisk, MemLog, Routine>,
) -> (u32, Desk<MemDisk, MemLog, Routine>)
    requires { IsNewBoard 1 board first }
    ensures { result.1.held ≡ nothing }
{
    let mut first = first;
    let Some(pass) = board.split(&mut first) else {
        unreachable!()
    };
    match board.close(first) {
        Err(
            StillOut {
                board,
                mut first,
                passes,
            },
        ) => {
            board.join(&mut first, pass);
            match board.close(first) {
                Ok(desk) => (passes, desk),
                Err(_) => unreachable!(),
            }
        }
        Ok(_) => unreachable!(),
    }
}

#[test]
fn a_board_closes_once_its_passes_are_joined(rt: HostRuntime) -> Result<(), Fail> {
    let (board, first) = board(rt.alloc(), 1)?;
    assert_eq!(rt; (board.streams(), board.logs()), (1, 4));
    let (out, desk) = closed_in_the_end(board, first);
    let entries = desk.journal().len();
    let Left {
        disks,
        logs,
        queued,
    } = desk.leave();
    assert_eq!(rt;
        (out, disks.len(), logs.len(), entries, queued.len()),
        (1, 1, 4, 0, 0)
    );
    Ok(())
}
