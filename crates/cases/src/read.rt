//! Reads the cases of a file.

use crate::case::{Case, Count, DiskPlan, LogPlan, Part, Script, Sweep, Want, disks};
use crate::lines::Lines;
use crate::moments::Work;
use crate::stage::Event;
use crate::trouble::Device;
use crate::words::{Words, byte_of, bytes_of, caller_of, kind_of, number_of};
use anyhow::{Context, Result, anyhow, bail, ensure};
use std::alloc::Global;

/// The cases that a text has.
pub fn read_cases(alloc: Global, text: &str) -> Result<Vec<Case>> {
    let mut lines = Lines::of(alloc, text)?;
    let mut cases = Vec::new(alloc);
    for _ in 0..lines.len() {
        let read = read_case(alloc, &mut lines);
        match read.context(format_args!("line {}", lines.taken()))? {
            Some(case) => cases.push(case)?,
            None => break,
        }
    }
    Ok(cases)
}

/// Reads the next case.
fn read_case(alloc: Global, lines: &mut Lines) -> Result<Option<Case>> {
    let Some(title) = lines.title()? else {
        return Ok(None);
    };
    let mut case = Case::new(alloc, title)?;
    for _ in 0..lines.len() {
        let Some(line) = lines.of_case() else {
            break;
        };
        read_line(alloc, &mut case, lines, line)?;
    }
    Ok(Some(case))
}

/// Reads a line of a case, and the block behind it.
fn read_line(alloc: Global, case: &mut Case, lines: &mut Lines, line: &str) -> Result<()> {
    let mut words = Words::of(line);
    let first = words.word()?;
    match first {
        "disk" | "log" | "source" | "sink" => read_device(alloc, case, first, &mut words),
        "devices" | "at" => read_trouble(alloc, case, first, &mut words),
        "text" | "begins" | "ends" | "has" | "lacks" => read_text(case, lines, first, &mut words),
        "each" => read_each(case, lines, &mut words),
        "answers" => read_answers(case, lines, &mut words),
        "words" | "disks" | "logs" | "routines" | "script" | "sweep" | "tries" => {
            read_setup(alloc, case, lines, first, &mut words)
        }
        "during" => read_during(case, &mut words),
        "held" => read_held(case, &mut words),
        _ => match caller_of(first) {
            Some(caller) => read_call(case, caller, &mut words),
            None => read_want(alloc, case, first, &mut words),
        },
    }
}

/// Reads a trouble of all devices, or those of the run to which the lines behind belong.
fn read_trouble(alloc: Global, case: &mut Case, first: &str, words: &mut Words) -> Result<()> {
    match first {
        "devices" => {
            case.troubles.push(words.trouble_of_all()?)?;
            words.end()
        }
        _ => {
            case.at.push((words.troubles()?, Vec::new(alloc)))?;
            Ok(())
        }
    }
}

/// Reads a part of the text.
fn read_text(case: &mut Case, lines: &mut Lines, first: &str, words: &mut Words) -> Result<()> {
    words.end()?;
    let text = lines.text()?;
    case.add(Want::Text(part_of(first), text))
}

/// Reads the forms of some lines of the text.
fn read_each(case: &mut Case, lines: &mut Lines, words: &mut Words) -> Result<()> {
    let (from, to) = words.range()?;
    let forms = lines.block()?;
    case.add(Want::Each { from, to, forms })
}

/// Reads the answers of a text.
fn read_answers(case: &mut Case, lines: &mut Lines, words: &mut Words) -> Result<()> {
    words.end()?;
    let answers = lines.block()?;
    case.add(Want::Answers(answers))
}

/// The part of the text that a word speaks of.
fn part_of(word: &str) -> Part {
    match word {
        "begins" => Part::Front,
        "ends" => Part::End,
        "has" => Part::Inside,
        "lacks" => Part::Nowhere,
        _ => Part::Whole,
    }
}

/// Reads a line on the words, the script, the sweep, or how many there are of something.
fn read_setup(
    alloc: Global,
    case: &mut Case,
    lines: &mut Lines,
    first: &str,
    words: &mut Words,
) -> Result<()> {
    match first {
        "words" => case.words = words.rest(alloc)?,
        "disks" => case.disks = disks(alloc, words.last_number()?)?,
        "logs" => case.logs = logs(alloc, words.last_number()?)?,
        "routines" => case.routines = words.last_number()?,
        "tries" => case.tries = words.last_number()?,
        "sweep" => case.sweep = Some(sweep_of(words)?),
        _ => case.script = read_script(alloc, lines, words)?,
    }
    Ok(())
}

/// So many empty logs.
fn logs(alloc: Global, many: u64) -> Result<Vec<LogPlan>> {
    let mut logs = Vec::new(alloc);
    for _ in 0..many {
        logs.push(LogPlan {
            entries: Vec::new(alloc),
        })?;
    }
    Ok(logs)
}

/// The sweep that the words left name.
fn sweep_of(words: &mut Words) -> Result<Sweep> {
    let kind = words.word()?;
    let more = words.maybe();
    words.end()?;
    match (kind, more) {
        ("fails", None) => Ok(Sweep::Fails),
        ("no", Some("memory")) => Ok(Sweep::NoMemory),
        ("stops", Some("together")) => Ok(Sweep::StopsTogether),
        ("stops", Some("alone")) => Ok(Sweep::StopsAlone),
        ("stops", Some("both")) => Ok(Sweep::StopsBoth),
        ("pairs", None) => Ok(Sweep::Pairs),
        _ => bail!("`{kind}` is no sweep"),
    }
}

/// Reads a script: the name of a file, or the block behind the line.
fn read_script(alloc: Global, lines: &mut Lines, words: &mut Words) -> Result<Script> {
    match words.maybe() {
        Some(name) => {
            words.end()?;
            Ok(Script::File(String::from_str(alloc, name)?))
        }
        None => Ok(Script::Lines(lines.text()?)),
    }
}

/// Reads a line on a device: how it is handed in, its trouble, or what it has in the end.
fn read_device(alloc: Global, case: &mut Case, first: &str, words: &mut Words) -> Result<()> {
    let device = words.device(first)?;
    let verb = words.word()?;
    match (device, verb) {
        (Device::Source, "gives") => {
            case.gives = words.size()?;
            ensure!(case.gives > 0, "a source gives a byte at least");
            words.end()
        }
        (Device::Sink, "takes") => {
            case.takes = words.size()?;
            words.end()
        }
        (Device::Sink, "stalls") => {
            words.expect("after")?;
            case.stalls_after = words.last_number()?;
            Ok(())
        }
        (Device::Disk(disk), "fill" | "tells" | "opens") => {
            let plan = case.disks.get_mut(disk);
            read_disk(alloc, plan.ok_or(anyhow!("no such disk"))?, verb, words)
        }
        (Device::Log(log), "opens") => {
            let plan = case.logs.get_mut(log).ok_or(anyhow!("no such log"))?;
            plan.entries.push((words.number()?, words.bytes(alloc)?))?;
            words.end()
        }
        (Device::Disk(disk), "page") => {
            let want = read_page(alloc, disk, words)?;
            case.add(want)
        }
        (Device::Log(log), "durable") => {
            let lsn = words.last_number()?;
            case.add(Want::Durable { log, lsn })
        }
        (Device::Log(log), "holds") => {
            let entries = read_entries(alloc, words)?;
            case.add(Want::Logged { log, entries })
        }
        _ => {
            case.troubles.push(words.trouble_of(device, verb)?)?;
            words.end()
        }
    }
}

/// Reads how a disk is handed in.
fn read_disk(alloc: Global, plan: &mut DiskPlan, verb: &str, words: &mut Words) -> Result<()> {
    match verb {
        "fill" => plan.fill = byte_of(words.word()?)?,
        "tells" => {
            words.expect("nothing")?;
            plan.tells = false;
        }
        _ => {
            let page = words.number()?;
            plan.pages.push((page, words.bytes(alloc)?))?;
        }
    }
    words.end()
}

/// Reads what a page of a disk holds, or may hold after a crash.
fn read_page(alloc: Global, disk: usize, words: &mut Words) -> Result<Want> {
    let page = words.number()?;
    match words.word()? {
        "holds" => {
            let bytes = words.bytes(alloc)?;
            words.end()?;
            Ok(Want::Holds { disk, page, bytes })
        }
        _ => {
            words.expect("hold")?;
            let contents = read_contents(alloc, words)?;
            Ok(Want::MayHold {
                disk,
                page,
                contents,
            })
        }
    }
}

/// Reads the contents of a page.
fn read_contents(alloc: Global, words: &mut Words) -> Result<Vec<Vec<u8>>> {
    let mut contents = Vec::new(alloc);
    for _ in 0..u8::MAX {
        match words.maybe() {
            Some(word) => contents.push(bytes_of(alloc, word)?)?,
            None => break,
        }
    }
    Ok(contents)
}

/// Reads the entries of a log.
fn read_entries(alloc: Global, words: &mut Words) -> Result<Vec<(u64, Vec<u8>)>> {
    let mut entries = Vec::new(alloc);
    for _ in 0..u8::MAX {
        match words.maybe() {
            Some(word) => entries.push((number_of(word)?, words.bytes(alloc)?))?,
            None => break,
        }
    }
    Ok(entries)
}

/// Reads what a caller does during a call on a device: `DEVICE CALL N tC calls A to B`, or `DEVICE CALL N tC begins A`.
fn read_during(case: &mut Case, words: &mut Words) -> Result<()> {
    let inside = read_inside(words)?;
    let caller = words.caller()?;
    let (call, last) = match words.word()? {
        "calls" => {
            let (from, to) = words.range()?;
            let call = to as u64;
            (from as u64, Event::After { caller, call })
        }
        "begins" => {
            let call = words.last_number()?;
            (call, Event::Begun { caller, call })
        }
        word => bail!("`{word}` does not say what comes during a call"),
    };
    case.orders.push((inside, Event::Before { caller, call }))?;
    case.orders.push((last, inside))?;
    Ok(())
}

/// Reads that a device waits inside a call: `DEVICE CALL N until` and what it waits for, `tC call M` or `DEVICE CALL M`.
fn read_held(case: &mut Case, words: &mut Words) -> Result<()> {
    let inside = read_inside(words)?;
    words.expect("until")?;
    let first = words.word()?;
    match caller_of(first) {
        Some(caller) => read_answered(case, inside, caller, words),
        None => {
            let other = read_inside_of(first, words)?;
            words.end()?;
            case.orders.push((other, inside))?;
            Ok(())
        }
    }
}

/// Reads that a device is inside a call: `DEVICE CALL N`.
fn read_inside(words: &mut Words) -> Result<Event> {
    let first = words.word()?;
    read_inside_of(first, words)
}

/// The same where the first word was taken.
fn read_inside_of(first: &str, words: &mut Words) -> Result<Event> {
    let device = words.device(first)?;
    let kind = words.word()?;
    Ok(Event::Inside(words.place(device, kind)?))
}

/// Reads a line on a call of a caller, whose first word was taken: what it comes after, or how many calls it makes.
fn read_call(case: &mut Case, caller: u64, words: &mut Words) -> Result<()> {
    words.expect("call")?;
    let call = words.number()?;
    match words.word()? {
        "makes" => {
            let calls = words.last_number()?;
            case.works.push(Work {
                caller,
                call,
                calls,
            })?;
            Ok(())
        }
        "after" => read_order(case, Event::Before { caller, call }, words),
        word => bail!("`{word}` says nothing of a call"),
    }
}

/// Reads that an event comes after a call of a caller: `tC call N`.
fn read_order(case: &mut Case, then: Event, words: &mut Words) -> Result<()> {
    let caller = words.caller()?;
    read_answered(case, then, caller, words)
}

/// The same where the caller was taken.
fn read_answered(case: &mut Case, then: Event, caller: u64, words: &mut Words) -> Result<()> {
    words.expect("call")?;
    let call = words.number()?;
    words.end()?;
    case.orders.push((Event::After { caller, call }, then))?;
    Ok(())
}

/// Reads what has to come of a run, whose first word was taken.
fn read_want(alloc: Global, case: &mut Case, first: &str, words: &mut Words) -> Result<()> {
    let count = match first {
        "posted" => {
            let numbers = read_numbers(alloc, words)?;
            return case.add(Want::Posted(numbers));
        }
        "made" => {
            let first = words.word()?;
            let device = words.device(first)?;
            Count::Made(device, kind_of(device, words.word()?)?)
        }
        "pass" => {
            let pass = words.number()?;
            match words.word()? {
                "empties" => Count::Empties(pass),
                "fulls" => Count::Fulls(pass),
                "async_empties" => Count::AsyncEmpties(pass),
                "async_fulls" => Count::AsyncFulls(pass),
                word => bail!("`{word}` is no count of a pass"),
            }
        }
        "places" => Count::Places,
        "async_places" => Count::AsyncPlaces,
        "status" => Count::Status,
        "lines" => Count::Lines,
        "replies" => Count::Replies,
        "entries" => Count::Entries,
        "ticks" => Count::Ticks,
        "aheads" => Count::Aheads,
        "faults" => Count::Faults,
        "passed" => Count::Passed,
        _ => bail!("`{first}` begins no line"),
    };
    let wanted = words.last_number()?;
    case.add(Want::Count(count, wanted))
}

/// Reads numbers to the end of the line.
fn read_numbers(alloc: Global, words: &mut Words) -> Result<Vec<u64>> {
    let mut numbers = Vec::new(alloc);
    for _ in 0..u8::MAX {
        match words.maybe() {
            Some(word) => numbers.push(number_of(word)?)?,
            None => break,
        }
    }
    Ok(numbers)
}
