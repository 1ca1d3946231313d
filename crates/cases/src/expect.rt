//! Whether a run left what a case wants.

use crate::case::{Case, Count, DiskPlan, Part, Want};
use crate::crashes::{fits, flushed_to, pages_of, work_of};
use crate::devices::{Calls, CaseDisk, CaseLog, Routine};
use crate::records::RECORD_PAGE;
use crate::run::{Left, whole_page};
use crate::stage::Stage;
use crate::trouble::{Device, Trouble};
use crate::words::number_of;
use anyhow::{Context, Error, Result, anyhow, bail, ensure};
use cc_entry::PageId;
use std::alloc::Global;

/// How many entries are gone over at most for the pages of one run.
const MOST_WORK: usize = 10_000;

/// Whether a trouble came.
fn was_reached(trouble: Trouble, stage: &Stage, left: &Left) -> bool {
    match trouble {
        Trouble::Fails(place) | Trouble::NoMemory(place) => match left.calls(place.device) {
            Some(calls) => place.number <= calls.made(place.kind),
            None => false,
        },
        stop => { matches!(stop_in(stop, stage, left), Some((after, calls)) if after < calls) }
    }
}

/// Whether a sweep has a run with a trouble: it came, or it is the stop behind all the calls that there are.
pub fn is_of_sweep(trouble: Trouble, stage: &Stage, left: &Left) -> bool {
    was_reached(trouble, stage, left)
        || matches!(stop_in(trouble, stage, left), Some((after, calls)) if after == calls)
}

/// After how many calls a stop comes, and how many there were that it could meet.
fn stop_in(trouble: Trouble, stage: &Stage, left: &Left) -> Option<(u64, u64)> {
    match trouble {
        Trouble::Stops(device, after) => Some((after, left.calls(device)?.all())),
        Trouble::AllStop(after) => Some((after, stage.calls())),
        _ => None,
    }
}

/// What has to hold in every run: each trouble of the case came and each fault was counted, nothing waited in vain, the gate was
/// told of each call's two moments, what was handed in is back in its order, and what a crash may leave is as the journal says.
pub fn check_run(alloc: Global, case: &Case, stage: &Stage, left: &Left) -> Result<()> {
    for trouble in case.troubles.iter() {
        ensure!(
            was_reached(*trouble, stage, left),
            "never reached: {trouble}"
        );
    }
    ensure!(
        stage.orders.iter().all(|order| order.was_kept()),
        "something waited in vain, or never came"
    );
    ensure!(
        stage.moments.are_in_order(),
        "a call did not pass the gate once, and tell it its end once, behind that"
    );
    ensure!(
        stage.moments.were_kept(),
        "a call made more calls on disks and logs, or fewer, or never came"
    );
    ensure!(
        left.disks.len() == case.disks.len() && left.logs.len() == case.logs.len(),
        "{} disks and {} logs are back",
        left.disks.len(),
        left.logs.len()
    );
    check_devices(left)?;
    check_records(case, left)?;
    check_pages(alloc, case, left)?;
    check_logs(left)?;
    check_routines(case.routines, &left.posts)?;
    let posted = left.posts.iter().filter(|routine| routine.posted).count();
    ensure!(
        posted == left.posted,
        "{posted} routines were posted, and {} entries tell of one",
        left.posted
    );
    Ok(())
}

/// What a crash may leave of the record page of each disk is what the journal says, where the run restarted nothing.
fn check_records(case: &Case, left: &Left) -> Result<()> {
    if left.restarts {
        return Ok(());
    }
    let plans = case.disks.iter().zip(left.disks.iter());
    for (nth, ((plan, disk), told)) in plans.zip(left.records.iter()).enumerate() {
        let may = disk.inner.may(RECORD_PAGE)?;
        ensure!(
            told.fits(&may, &opening_of(plan, RECORD_PAGE)),
            "the record page of disk {nth} may be left otherwise than the journal says"
        );
    }
    Ok(())
}

/// What a crash may leave of the pages that a journal names is what it allows, where the run restarted nothing. Those of most
/// work are left out where all would take too much.
fn check_pages(alloc: Global, case: &Case, left: &Left) -> Result<()> {
    let mut left_over = MOST_WORK;
    for page in pages_of(alloc, &left.journal)?.iter() {
        let work = work_of(&left.journal, *page);
        if work <= left_over && !left.restarts {
            check_crash(alloc, case, left, *page)?;
            left_over = left_over.saturating_sub(work);
        }
    }
    Ok(())
}

/// What a crash may leave of a page is what the journal allows.
fn check_crash(alloc: Global, case: &Case, left: &Left, page: PageId) -> Result<()> {
    let (stream, number) = (page.stream().number() as usize, page.page());
    let plan = case.disks.get(stream).ok_or(anyhow!("no such disk"))?;
    let may = disk_of(left, stream)?.inner.may(number)?;
    let opening = opening_of(plan, number);
    ensure!(
        fits(alloc, &left.journal, &opening, page, &may)?,
        "page {number} of disk {stream} may be left otherwise than the journal allows"
    );
    Ok(())
}

/// Each log is on its medium up to where the journal says that it was flushed.
fn check_logs(left: &Left) -> Result<()> {
    for (nth, log) in left.logs.iter().enumerate() {
        let durable = log.inner.durable();
        let flushed = flushed_to(&left.journal, nth);
        ensure!(
            flushed <= durable,
            "log {nth} is durable up to {durable}, and flushed to {flushed}"
        );
    }
    Ok(())
}

/// A page of a disk as the run finds it.
fn opening_of(plan: &DiskPlan, page: u64) -> [u8; 4096] {
    let found = plan.pages.iter().rev().find(|(listed, _)| *listed == page);
    match found {
        Some((_, bytes)) => whole_page(plan.fill, bytes),
        None => [plan.fill; 4096],
    }
}

/// The disks and the logs are back in their order, and each failure was counted.
fn check_devices(left: &Left) -> Result<()> {
    for (nth, disk) in left.disks.iter().enumerate() {
        check_calls(Device::Disk(nth), &disk.calls, disk.inner.faults())?;
    }
    for (nth, log) in left.logs.iter().enumerate() {
        check_calls(Device::Log(nth), &log.calls, log.inner.faults())?;
    }
    check_calls(
        Device::Source,
        &left.source.calls,
        left.source.faults.count(),
    )?;
    check_calls(Device::Sink, &left.sink.calls, left.sink.faults.count())
}

/// A device is at its place, and each of its failures was counted.
fn check_calls(device: Device, calls: &Calls, faults: u64) -> Result<()> {
    let back = calls.device();
    ensure!(back == device, "{back} is back as {device}");
    let failed = calls.failed();
    ensure!(
        failed == faults,
        "{device} counts {faults} faults of {failed}"
    );
    Ok(())
}

/// The routines are back in their order.
fn check_routines(many: u64, posts: &[Routine]) -> Result<()> {
    ensure!(
        posts.len() as u64 == many,
        "{} routines are back",
        posts.len()
    );
    for (nth, routine) in posts.iter().enumerate() {
        let number = routine.number;
        ensure!(
            number == (nth as u64).saturating_add(1),
            "routine {number} is back in another place"
        );
    }
    Ok(())
}

/// What has to hold in a run of a sweep in which so many calls were made to fail: the journal tells of as many failures, and of
/// no other. What a restart met has no entry.
pub fn check_failures(faults: u64, left: &Left) -> Result<()> {
    let counted = count_of(Count::Faults, left);
    ensure!(
        counted == faults,
        "{counted} faults are counted, wanted {faults}"
    );
    let told = left.failures as u64;
    ensure!(
        told == faults || left.restarts && told < faults,
        "the journal tells of {told} faults, wanted {faults}"
    );
    Ok(())
}

/// The exit status is that which is wanted last, or 0.
pub fn check_status(wants: &[Want], more: &[Want], left: &Left) -> Result<()> {
    let wanted = wants
        .iter()
        .chain(more.iter())
        .fold(0, |last, want| match want {
            Want::Count(Count::Status, wanted) => *wanted,
            _ => last,
        });
    let status = u64::from(left.status);
    ensure!(status == wanted, "the status is {status}, wanted {wanted}");
    Ok(())
}

/// Each line of the script is answered as is wanted: as the run wants it, where it wants one of that number, else as the case.
pub fn check_answers(wants: &[Want], more: &[Want], text: &str) -> Result<()> {
    let (all, own) = (answers_of(wants), answers_of(more));
    let front = match text.split_once("\njournal\n") {
        Some((front, _)) => front,
        None => text,
    };
    let kept = all
        .lines()
        .filter(|line| line_of(own, first_word(line)).is_none());
    for wanted in own.lines().chain(kept) {
        check_answer(front, wanted)?;
    }
    let (many, found) = (answers_in(all), answers_in(front));
    ensure!(
        many == 0 || many == found,
        "{found} lines are answered, wanted {many}"
    );
    Ok(())
}

/// The answers that are wanted, none where no line says so.
fn answers_of(wants: &[Want]) -> &str {
    for want in wants {
        if let Want::Answers(answers) = want {
            return answers.as_str();
        }
    }
    ""
}

/// How many lines of a text begin with a number.
fn answers_in(text: &str) -> usize {
    text.lines()
        .filter(|line| number_of(first_word(line)).is_ok())
        .count()
}

/// A line of the script is answered so.
fn check_answer(front: &str, wanted: &str) -> Result<()> {
    let line = line_of(front, first_word(wanted)).unwrap_or("");
    ensure!(
        has_form(line, wanted),
        "an answer is `{line}`, wanted `{wanted}`"
    );
    Ok(())
}

/// The first line of a text that begins with a word.
fn line_of<'a>(text: &'a str, word: &str) -> Option<&'a str> {
    text.lines().find(|line| first_word(line) == word)
}

/// The first word of a line.
fn first_word(line: &str) -> &str {
    match line.split_once(' ') {
        Some((word, _)) => word,
        None => line,
    }
}

/// A run left what is wanted beside the status and the answers.
pub fn check_wants(alloc: Global, wants: &[Want], case: &Case, left: &Left) -> Result<()> {
    for want in wants {
        check_want(alloc, want, case, left)?;
    }
    Ok(())
}

/// A run left this.
fn check_want(alloc: Global, want: &Want, case: &Case, left: &Left) -> Result<()> {
    match want {
        Want::Text(part, wanted) => check_text(alloc, *part, wanted, &left.text),
        Want::Answers(_) => Ok(()),
        Want::Each { from, to, forms } => check_each(*from, *to, forms, &left.text),
        Want::Count(Count::Status, _) => Ok(()),
        Want::Count(count, wanted) => check_count(*count, *wanted, left),
        Want::Posted(numbers) => check_posted(numbers, &left.posts),
        Want::Holds { disk, page, bytes } => {
            let plan = case.disks.get(*disk).ok_or(anyhow!("no such disk"))?;
            let wanted = whole_page(plan.fill, bytes);
            check_page(*page, &disk_of(left, *disk)?.inner.page(*page), &wanted)
        }
        Want::MayHold {
            disk,
            page,
            contents,
        } => {
            let plan = case.disks.get(*disk).ok_or(anyhow!("no such disk"))?;
            let may = disk_of(left, *disk)?.inner.may(*page)?;
            check_contents(*page, plan.fill, &may, contents)
        }
        Want::Logged { log, entries } => {
            check_entries(log_of(left, *log)?.inner.entries(), entries)
        }
        Want::Durable { log, lsn } => {
            let durable = log_of(left, *log)?.inner.durable();
            ensure!(
                durable == *lsn,
                "log {log} is durable up to {durable}, wanted {lsn}"
            );
            Ok(())
        }
    }
}

/// A disk that is back.
fn disk_of<'l, 'a>(left: &'l Left<'a>, disk: usize) -> Result<&'l CaseDisk<'a>> {
    left.disks
        .get(disk)
        .ok_or(anyhow!("there is no disk {disk}"))
}

/// A log that is back.
fn log_of<'l, 'a>(left: &'l Left<'a>, log: usize) -> Result<&'l CaseLog<'a>> {
    left.logs.get(log).ok_or(anyhow!("there is no log {log}"))
}

/// The number that a run left.
fn count_of(count: Count, left: &Left) -> u64 {
    match count {
        Count::Status => u64::from(left.status),
        Count::Lines => left.text.lines().count() as u64,
        Count::Replies => left.replies as u64,
        Count::Entries => left.entries as u64,
        Count::Ticks => left.ticks as u64,
        Count::Aheads => left.aheads as u64,
        Count::Places => left.places.len() as u64,
        Count::Empties(pass) => place_of(pass, &left.places).0,
        Count::Fulls(pass) => place_of(pass, &left.places).1,
        Count::AsyncPlaces => left.async_places.len() as u64,
        Count::AsyncEmpties(pass) => place_of(pass, &left.async_places).0,
        Count::AsyncFulls(pass) => place_of(pass, &left.async_places).1,
        Count::Faults => faults(left),
        Count::Passed => left.passed,
        Count::Made(device, kind) => match left.calls(device) {
            Some(calls) => calls.made(kind),
            None => 0,
        },
    }
}

/// How often a pass found a queue empty, and full, by its place among these; never where it has none.
fn place_of(pass: u64, places: &[(u64, u64)]) -> (u64, u64) {
    match places.get(pass.wrapping_sub(1) as usize) {
        Some(found) => *found,
        None => (0, 0),
    }
}

/// How many calls failed, on everything that was handed in.
fn faults(left: &Left) -> u64 {
    let mut sum = left.source.faults.count();
    sum = sum.saturating_add(left.sink.faults.count());
    for disk in left.disks.iter() {
        sum = sum.saturating_add(disk.inner.faults());
    }
    for log in left.logs.iter() {
        sum = sum.saturating_add(log.inner.faults());
    }
    sum
}

/// A run left this number.
fn check_count(count: Count, wanted: u64, left: &Left) -> Result<()> {
    let was = count_of(count, left);
    let word = count.word();
    match count {
        Count::Made(device, kind) => ensure!(
            was == wanted,
            "{word} {device} {kind}: {was}, wanted {wanted}"
        ),
        Count::Empties(pass)
        | Count::Fulls(pass)
        | Count::AsyncEmpties(pass)
        | Count::AsyncFulls(pass) => ensure!(
            was == wanted,
            "pass {pass} {word}: {was}, wanted {wanted}"
        ),
        _ => ensure!(was == wanted, "{word}: {was}, wanted {wanted}"),
    }
    Ok(())
}

/// These routines were posted, and no others.
fn check_posted(wanted: &[u64], posts: &[Routine]) -> Result<()> {
    for routine in posts {
        let number = routine.number;
        ensure!(
            routine.posted == wanted.contains(&number),
            "routine {number} was posted, or was not"
        );
    }
    Ok(())
}

/// A page holds these bytes.
fn check_page(page: u64, was: &[u8; 4096], wanted: &[u8; 4096]) -> Result<()> {
    for (at, (one, other)) in was.iter().zip(wanted.iter()).enumerate() {
        ensure!(
            one == other,
            "byte {at} of page {page} is {one:02X}, wanted {other:02X}"
        );
    }
    Ok(())
}

/// A crash may leave these contents of a page.
fn check_contents(page: u64, fill: u8, may: &[[u8; 4096]], wanted: &[Vec<u8>]) -> Result<()> {
    ensure!(
        may.len() == wanted.len(),
        "page {page} may hold {} contents, wanted {}",
        may.len(),
        wanted.len()
    );
    for (was, bytes) in may.iter().zip(wanted.iter()) {
        check_page(page, was, &whole_page(fill, bytes))?;
    }
    Ok(())
}

/// A log has these entries.
fn check_entries(was: &[(u64, Vec<u8>)], wanted: &[(u64, Vec<u8>)]) -> Result<()> {
    ensure!(
        was.len() == wanted.len(),
        "a log has {} entries, wanted {}",
        was.len(),
        wanted.len()
    );
    for (one, other) in was.iter().zip(wanted.iter()) {
        ensure!(
            one.0 == other.0 && one.1 == other.1,
            "an entry has LSN {} or other bytes, wanted LSN {}",
            one.0,
            other.0
        );
    }
    Ok(())
}

/// The text has these lines at this part.
fn check_text(alloc: Global, part: Part, wanted: &str, text: &str) -> Result<()> {
    let is_right = match part {
        Part::Whole => text == wanted,
        Part::Front => text.starts_with(wanted),
        Part::End => is_within(alloc, text, wanted, true)?,
        Part::Inside => is_within(alloc, text, wanted, false)?,
        Part::Nowhere => !is_within(alloc, text, wanted, false)?,
    };
    if is_right {
        return Ok(());
    }
    let first = wanted.lines().next().unwrap_or("");
    match part {
        Part::Whole | Part::Front => Err(difference(wanted, text)),
        Part::End => bail!("the text does not end with the lines from `{first}` on"),
        Part::Inside => bail!("the text lacks the lines from `{first}` on"),
        Part::Nowhere => bail!("the text has the lines from `{first}` on"),
    }
}

/// Whether a text has, or ends with, these lines. The first need not begin a line where two dots stand before it.
fn is_within(alloc: Global, text: &str, wanted: &str, at_end: bool) -> Result<bool> {
    let behind_feed = format!(in alloc; "\n{wanted}")?;
    let sought = match wanted.strip_prefix("..") {
        Some(rest) => rest,
        None => behind_feed.as_str(),
    };
    if at_end {
        return Ok(text == wanted || text.ends_with(sought));
    }
    Ok(text.starts_with(wanted) || text.contains(sought))
}

/// Each line of the text from one to another has one of these forms.
fn check_each(from: usize, to: usize, forms: &str, text: &str) -> Result<()> {
    for number in from..=to {
        let line = text.lines().nth(number.saturating_sub(1)).unwrap_or("");
        ensure!(
            forms.lines().any(|form| has_form(line, form)),
            "line {number} of the text is `{line}`"
        );
    }
    Ok(())
}

/// Whether a line has a form: two dots at an end of it stand for whatever is there.
fn has_form(line: &str, form: &str) -> bool {
    let behind = form.strip_prefix("..");
    let rest = behind.unwrap_or(form);
    match (behind, rest.strip_suffix("..")) {
        (Some(_), Some(inner)) => line.contains(inner),
        (Some(_), None) => line.ends_with(rest),
        (None, Some(front)) => line.starts_with(front),
        (None, None) => line == form,
    }
}

/// Where two texts differ first.
fn difference(wanted: &str, text: &str) -> Error {
    let same = wanted
        .lines()
        .zip(text.lines())
        .take_while(|(one, other)| one == other)
        .count();
    let one = text.lines().nth(same).unwrap_or("nothing more");
    let other = wanted.lines().nth(same).unwrap_or("nothing more");
    anyhow!("it is `{one}`").context(format_args!(
        "line {} of the text: wanted `{other}`",
        same.saturating_add(1)
    ))
}
