//! A test of the deferral that a full queue refuses: its routine comes back, which no line of a script shows.

ghost use Rattle.std.specs.Prelude.{◌≡◌, false};
ghost use Rattle.cc_calls.specs.Answers.{CanCall};
ghost use Rattle.cc_turns.specs.Desk.{standing_of};

use crate::desk::{desk_of, disk, object};
use cc_calls::{defer, initialize};
use cc_entry::{CcError, FileId, FileSizes, Quota};
use cc_journal::Left;
use cc_traits::{LogFile, PageDisk, PostRoutine};
use cc_turns::Desk;
use std::test::Fail;

/// A routine that has a number.
#[derive(Drop)]
struct Numbered {
    number: u64,
    posted: bool,
}

impl PostRoutine for Numbered {
    ghost posted = { λ routine. routine.posted };

    fn post(&mut self) {
        self.posted = true;
    }
}

/// The routine of a number, which was not posted.
fn unposted(number: u64) -> Numbered
    ensures { result.posted ≡ false }
{
    Numbered {
        number,
        posted: false,
    }
}

/// Defers so many writes of a page, and answers whether each was, by the next number.
fn defer_pages<D: PageDisk, L: LogFile>(
    desk: &mut Desk<D, L, Numbered>,
    file: FileId,
    writes: u64,
) -> bool
    requires can { CanCall (standing_of D.told D.faults L.told L.faults desk.old) file.stream }
    ensures can { CanCall (standing_of D.told D.faults L.told L.faults desk.new) file.stream }
{
    let mut are_deferred = true;
    for before in 0..writes {
        let number = before + 1;
        let answer = defer(desk, file, 4096, false, unposted(number));
        are_deferred &= matches!(answer, Ok(id) if id == number);
    }
    are_deferred
}

#[test]
fn a_routine_comes_back_from_a_full_queue(rt: HostRuntime) -> Result<(), Fail> {
    let alloc = rt.alloc();
    let file = object()?;
    let quota = Quota::new(8).ok_or("quota")?;
    let sizes = FileSizes {
        allocation: 8192,
        size: 8192,
        valid: 8192,
    };
    let mut desk = desk_of(alloc, vec![in alloc; disk(alloc)]?, 128)?;
    desk.act_as(1);
    let begun = initialize(alloc, &mut desk, file, sizes, quota, false);
    let deferred = defer_pages(&mut desk, file, 64);
    let refused = defer(&mut desk, file, 4096, false, unposted(65));
    let entries = desk.journal().len();
    let Left { queued, .. } = desk.leave();
    let (routine, error) = refused.err().ok_or("it was deferred")?;
    let back = queued
        .iter()
        .all(|(id, routine)| *id == routine.number && !routine.posted);
    assert_eq!(rt; (begun, deferred, back), (Ok(()), true, true));
    assert_eq!(rt; (routine.number, routine.posted), (65, false));
    assert_eq!(rt; error, CcError::QueueFull);
    assert_eq!(rt; (entries, queued.len()), (65, 64));
    Ok(())
}
