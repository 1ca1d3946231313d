//! Draws a script over the streams of a trial.

use crate::trials::draws::Draws;
use crate::trials::stream::{PAGE, Stream};
use anyhow::Result;
use std::alloc::Global;

/// The valid data lengths of the two streams as far as a script's own lines make them.
#[derive(Clone, Copy)]
struct Valid {
    of: [u64; 2],
}

impl Valid {
    /// That of a stream.
    fn get(&self, stream: &Stream) -> u64 {
        if stream.number == 0 {
            self.of[0]
        } else {
            self.of[1]
        }
    }

    /// An update of a stream ends here.
    fn raise(&mut self, stream: &Stream, end: u64) {
        if stream.number == 0 {
            self.of[0] = self.of[0].max(end);
        } else {
            self.of[1] = self.of[1].max(end);
        }
    }
}

/// A script of a run: the first one over new devices, or one that restarts what an earlier run left.
pub fn draw_script(
    alloc: Global,
    streams: &[Stream],
    restarts: bool,
    draws: &mut Draws,
) -> Result<String> {
    let mut text = String::new(alloc);
    text.push_str("journal 4096\nthreshold 8\n")?;
    if restarts {
        text.push_str("restart 0\n")?;
    }
    let mut valid = Valid { of: [0; 2] };
    for stream in streams {
        let (said, said_valid) = stream.said();
        let name = stream.name;
        let line = format!(in alloc; "stream {name} {said} {said_valid} quota 8 log 0 stored\n")?;
        text.push_str(line.as_str())?;
        valid.raise(stream, stream.valid);
    }
    for _ in 0..draws.between(8, 20) {
        if let Some(stream) = streams.get(draws.below(2) as usize) {
            let line = draw_line(alloc, stream, &mut valid, draws)?;
            text.push_str(line.as_str())?;
        }
    }
    Ok(text)
}

/// A line, mostly of a stream.
fn draw_line(
    alloc: Global,
    stream: &Stream,
    valid: &mut Valid,
    draws: &mut Draws,
) -> Result<String> {
    let name = stream.name;
    let line = match draws.below(100) {
        0..=44 => return draw_update(alloc, stream, valid, draws),
        45..=56 => String::from_str(alloc, "checkpoint 0\n")?,
        57..=63 => format!(in alloc; "flush {name}\n")?,
        64..=68 => {
            let from = draw_page(stream, draws).saturating_mul(PAGE);
            let end = from.saturating_add(PAGE);
            format!(in alloc; "flush {name} {from} {end}\n")?
        }
        69..=77 => String::from_str(alloc, "tick\n")?,
        78..=88 => draw_reads(alloc, stream, draws)?,
        89..=92 => format!(in alloc; "settle {name}\n")?,
        93..=94 => format!(in alloc; "purge {name}\n")?,
        95..=96 => String::from_str(alloc, "append 0 07\n")?,
        _ => format!(in alloc; "logflush 0 {}\n", draws.between(1, 12))?,
    };
    Ok(line)
}

/// A page of a stream that updates may change.
fn draw_page(stream: &Stream, draws: &mut Draws) -> u64 {
    let many = stream.pages.len() as u64;
    match stream.pages.get(draws.below(many) as usize) {
        Some(page) => *page % (1 << 40),
        None => 0,
    }
}

/// Reads of three places, by which view blocks go out.
fn draw_reads(alloc: Global, stream: &Stream, draws: &mut Draws) -> Result<String> {
    let name = stream.name;
    let mut text = String::new(alloc);
    for _ in 0..3 {
        let at = draw_page(stream, draws).saturating_mul(PAGE);
        text.push_str(format!(in alloc; "cread {name} {at} 1\n")?.as_str())?;
    }
    Ok(text)
}

/// An update that begins within the valid data length, mostly a short one. It may end in the page behind the one in which it
/// begins.
fn draw_update(
    alloc: Global,
    stream: &Stream,
    valid: &mut Valid,
    draws: &mut Draws,
) -> Result<String> {
    let name = stream.name;
    let page = draw_page(stream, draws);
    let place = page.saturating_mul(PAGE).saturating_add(draws.below(PAGE));
    let at = place.min(valid.get(stream));
    let room = stream.end_of(at / PAGE).saturating_sub(at);
    let most = if draws.comes(85) { 40 } else { 3000 };
    let first = draws.between(1, most).min(room);
    let second = draws.between(1, most).min(room.saturating_sub(first));
    if second == 0 {
        return Ok(format!(in alloc; "state {name}\n")?);
    }
    valid.raise(stream, at.saturating_add(first).saturating_add(second));
    let one = draws.byte();
    let other = draws.byte();
    Ok(format!(in alloc; "update {name} {at} {one:02X}x{first},{other:02X}x{second}\n")?)
}
