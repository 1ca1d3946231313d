//! The runs of a case: one, or as many as it takes until one shows what is wanted, or those of a sweep, in each of which other
//! calls have trouble.

use crate::case::{Case, Sweep, Want};
use crate::expect::{
    check_answers, check_failures, check_run, check_status, check_wants, is_of_sweep,
};
use crate::moments::Moments;
use crate::run::{Left, run_once};
use crate::stage::{Order, Stage};
use crate::trouble::{Device, Kind, Place, Trouble, Troubles};
use anyhow::{Context, Result, bail, ensure};
use std::alloc::{AllocError, Global};
use std::sync::Wait;
use std::thread::Threads;

/// How many runs with one kind of trouble a sweep makes at most.
const MOST: u64 = 10_000;

/// Makes the runs of a case over a script, and answers how many a sweep made.
pub fn run_case<R: Threads + Wait + Sync>(
    rt: &R,
    alloc: Global,
    case: &Case,
    script: &str,
) -> Result<Option<usize>> {
    let Some(sweep) = case.sweep else {
        run_until_shown(rt, alloc, case, script)?;
        return Ok(None);
    };
    let mut made = Vec::new(alloc);
    match sweep {
        Sweep::Pairs => run_pairs(rt, alloc, case, script, &mut made)?,
        Sweep::StopsBoth => run_stops(rt, alloc, case, script, &mut made)?,
        _ => run_alone(rt, alloc, case, script, sweep, &mut made)?,
    }
    ensure!(!made.is_empty(), "the sweep has no run");
    for (at, _) in case.at.iter() {
        ensure!(
            made.iter().any(|run| at.stand_for(*run)),
            "never reached: {at}"
        );
    }
    Ok(Some(made.len()))
}

/// Makes runs until one leaves what is wanted, and tells why the last did not, where none does of as many as the case allows.
fn run_until_shown<R: Threads + Wait + Sync>(
    rt: &R,
    alloc: Global,
    case: &Case,
    script: &str,
) -> Result<()> {
    for _ in 1..case.tries {
        if run_with(rt, alloc, case, script, None).is_ok() {
            return Ok(());
        }
    }
    run_with(rt, alloc, case, script, None)?;
    Ok(())
}

/// Which of the troubles of a run came.
#[derive(Drop)]
struct Came {
    first: bool,
    second: bool,
}

/// Makes the runs of a sweep that have one trouble each.
fn run_alone<R: Threads + Wait + Sync>(
    rt: &R,
    alloc: Global,
    case: &Case,
    script: &str,
    sweep: Sweep,
    made: &mut Vec<Troubles>,
) -> Result<()> {
    for first in first_troubles(alloc, case, sweep)? {
        run_from(rt, alloc, case, script, first, made)?;
    }
    Ok(())
}

/// Makes a run for each two calls, which fail.
fn run_pairs<R: Threads + Wait + Sync>(
    rt: &R,
    alloc: Global,
    case: &Case,
    script: &str,
    made: &mut Vec<Troubles>,
) -> Result<()> {
    let mut later = first_troubles(alloc, case, Sweep::Fails)?;
    later.reverse();
    for _ in 0..later.len() {
        if let Some(first) = later.last().copied() {
            run_pairs_with(rt, alloc, case, script, first, &later, made)?;
            later.pop();
        }
    }
    Ok(())
}

/// Makes a run for each call of one kind and each other of one of these kinds.
fn run_pairs_with<R: Threads + Wait + Sync>(
    rt: &R,
    alloc: Global,
    case: &Case,
    script: &str,
    first: Trouble,
    seconds: &[Trouble],
    made: &mut Vec<Troubles>,
) -> Result<()> {
    for second in seconds {
        run_pairs_of(rt, alloc, case, script, first, *second, made)?;
    }
    Ok(())
}

/// Makes a run for each call of one kind and each of another, from these on; of one kind, each later one.
fn run_pairs_of<R: Threads + Wait + Sync>(
    rt: &R,
    alloc: Global,
    case: &Case,
    script: &str,
    first: Trouble,
    second: Trouble,
    made: &mut Vec<Troubles>,
) -> Result<()> {
    let mut one = first;
    for _ in 0..MOST {
        let from = if first == second { one.next() } else { second };
        if !run_beside(rt, alloc, case, script, one, from, made)? {
            return Ok(());
        }
        one = one.next();
    }
    bail!("more than {MOST} runs from that where {first}")
}

/// Makes a run for one call and each other from one on, until the sweep has none with the next. Answers whether the one came.
fn run_beside<R: Threads + Wait + Sync>(
    rt: &R,
    alloc: Global,
    case: &Case,
    script: &str,
    first: Trouble,
    from: Trouble,
    made: &mut Vec<Troubles>,
) -> Result<bool> {
    let mut next = from;
    let mut is_there = false;
    for _ in 0..MOST {
        let both = Troubles {
            first,
            second: Some(next),
        };
        let came = run_where(rt, alloc, case, script, both)?;
        is_there |= came.first;
        if !came.second {
            return Ok(is_there);
        }
        if came.first {
            made.push(both)?;
        }
        next = next.next();
    }
    bail!("more than {MOST} runs from that where {first} and {from}")
}

/// Makes a run for each number of calls after which the first disk stops, and each after which the first log does, from none
/// to as many as there are where neither stops.
fn run_stops<R: Threads + Wait + Sync>(
    rt: &R,
    alloc: Global,
    case: &Case,
    script: &str,
    made: &mut Vec<Troubles>,
) -> Result<()> {
    let (of_disk, of_log) = calls_of_both(rt, alloc, case, script)?;
    for after in 0..=of_disk {
        run_log_stops(rt, alloc, case, script, after, of_log, made)?;
    }
    Ok(())
}

/// The same where the disk stops after so many calls.
fn run_log_stops<R: Threads + Wait + Sync>(
    rt: &R,
    alloc: Global,
    case: &Case,
    script: &str,
    after: u64,
    of_log: u64,
    made: &mut Vec<Troubles>,
) -> Result<()> {
    let first = Trouble::Stops(Device::Disk(0), after);
    for log_after in 0..=of_log {
        let both = Troubles {
            first,
            second: Some(Trouble::Stops(Device::Log(0), log_after)),
        };
        run_where(rt, alloc, case, script, both)?;
        made.push(both)?;
    }
    Ok(())
}

/// How many calls there are on the first disk and on the first log where neither stops.
fn calls_of_both<R: Threads + Wait + Sync>(
    rt: &R,
    alloc: Global,
    case: &Case,
    script: &str,
) -> Result<(u64, u64)> {
    let stage = stage_of(alloc, case, None)?;
    let left = run_once(rt, alloc, case, script, &stage)?;
    match (left.calls(Device::Disk(0)), left.calls(Device::Log(0))) {
        (Some(disk), Some(log)) => Ok((disk.all(), log.all())),
        _ => bail!("the sweep asks for a disk and a log"),
    }
}

/// The first trouble of each kind that a sweep makes.
fn first_troubles(alloc: Global, case: &Case, sweep: Sweep) -> Result<Vec<Trouble>, AllocError> {
    let mut troubles = Vec::new(alloc);
    if sweep == Sweep::StopsTogether {
        troubles.push(Trouble::AllStop(0))?;
        return Ok(troubles);
    }
    for disk in 0..case.disks.len() {
        push_first(&mut troubles, sweep, Device::Disk(disk), &Kind::OF_DISK)?;
    }
    for log in 0..case.logs.len() {
        push_first(&mut troubles, sweep, Device::Log(log), &Kind::OF_LOG)?;
    }
    Ok(troubles)
}

/// Adds the first troubles of a device, which has calls of these kinds.
fn push_first(
    troubles: &mut Vec<Trouble>,
    sweep: Sweep,
    device: Device,
    kinds: &[Kind],
) -> Result<(), AllocError> {
    if sweep == Sweep::StopsAlone {
        troubles.push(Trouble::Stops(device, 0))?;
        return Ok(());
    }
    for kind in kinds {
        let place = Place {
            device,
            kind: *kind,
            number: 1,
        };
        if sweep == Sweep::Fails {
            troubles.push(Trouble::Fails(place))?;
        } else if *kind != Kind::Flush {
            troubles.push(Trouble::NoMemory(place))?;
        }
    }
    Ok(())
}

/// Makes a run with each trouble from the first on, until the sweep has none with the next, and notes those that it has.
fn run_from<R: Threads + Wait + Sync>(
    rt: &R,
    alloc: Global,
    case: &Case,
    script: &str,
    first: Trouble,
    made: &mut Vec<Troubles>,
) -> Result<()> {
    let mut next = first;
    for _ in 0..MOST {
        let alone = Troubles {
            first: next,
            second: None,
        };
        if !run_where(rt, alloc, case, script, alone)?.first {
            return Ok(());
        }
        made.push(alone)?;
        next = next.next();
    }
    bail!("more than {MOST} runs from that where {first}")
}

/// Makes the run of a sweep that has these troubles, and says of what is wrong where it was.
fn run_where<R: Threads + Wait + Sync>(
    rt: &R,
    alloc: Global,
    case: &Case,
    script: &str,
    troubles: Troubles,
) -> Result<Came> {
    let ran = run_with(rt, alloc, case, script, Some(troubles));
    Ok(ran.context(format_args!("where {troubles}"))?)
}

/// Makes one run, in which troubles come beside those of the case, and checks it. Answers which of them came: where one did
/// not, nothing is checked.
fn run_with<R: Threads + Wait + Sync>(
    rt: &R,
    alloc: Global,
    case: &Case,
    script: &str,
    more: Option<Troubles>,
) -> Result<Came> {
    let stage = stage_of(alloc, case, more)?;
    let left = run_once(rt, alloc, case, script, &stage)?;
    let came = which_came(case, more, &stage, &left);
    if !came.first || !came.second {
        return Ok(came);
    }
    let wants = wants_at(case, more);
    check_run(alloc, case, &stage, &left)?;
    if let Some(faults) = failures_of(more) {
        check_failures(faults, &left)?;
    }
    check_status(&case.wants, wants, &left)?;
    check_answers(&case.wants, wants, &left.text)?;
    check_wants(alloc, &case.wants, case, &left)?;
    check_wants(alloc, wants, case, &left)?;
    Ok(came)
}

/// Which troubles of a run came. A sweep of stops of both devices has each of its runs, whatever came in it.
fn which_came(case: &Case, more: Option<Troubles>, stage: &Stage, left: &Left) -> Came {
    let mut came = Came {
        first: true,
        second: true,
    };
    if matches!(case.sweep, Some(Sweep::StopsBoth)) {
        return came;
    }
    if let Some(Troubles { first, second }) = more {
        came.first = is_of_sweep(first, stage, left);
        if let Some(second) = second {
            came.second = is_of_sweep(second, stage, left);
        }
    }
    came
}

/// How many calls fail by these troubles, where they stop none.
fn failures_of(more: Option<Troubles>) -> Option<u64> {
    more?.failures()
}

/// What a case wants in the run that has these troubles alone.
fn wants_at(case: &Case, run: Option<Troubles>) -> &[Want] {
    let Some(troubles) = run else {
        return &[];
    };
    match case.at.iter().find(|(at, _)| at.stand_for(troubles)) {
        Some((_, wants)) => wants.as_slice(),
        None => &[],
    }
}

/// The stage of a run of a case, in which troubles come beside its own.
fn stage_of(alloc: Global, case: &Case, more: Option<Troubles>) -> Result<Stage, AllocError> {
    let mut troubles = case.troubles.as_slice().to_vec(alloc)?;
    if let Some(Troubles { first, second }) = more {
        troubles.push(first)?;
        if let Some(second) = second {
            troubles.push(second)?;
        }
    }
    let moments = Moments::new(alloc, &case.works)?;
    Ok(Stage::new(troubles, orders(alloc, case)?, moments))
}

/// What waits for what in a run of a case.
fn orders(alloc: Global, case: &Case) -> Result<Vec<Order>, AllocError> {
    let mut orders = Vec::new(alloc);
    for (first, then) in case.orders.iter() {
        orders.push(Order::new(*first, *then))?;
    }
    Ok(orders)
}
