//! The lines of a case file, and its blocks of lines.

use crate::words::number_of;
use anyhow::{Result, anyhow, bail, ensure};
use std::alloc::Global;

/// The lines of a file, of which the first ones were taken.
#[derive(Drop)]
pub struct Lines<'a> {
    alloc: Global,
    lines: Vec<&'a str>,
    taken: usize,
}

impl<'a> Lines<'a> {
    /// All lines of a text.
    pub fn of(alloc: Global, text: &'a str) -> Result<Lines<'a>> {
        Ok(Lines {
            alloc,
            lines: text.lines().collect(alloc)?,
            taken: 0,
        })
    }

    /// How many lines there are.
    pub fn len(&self) -> usize {
        self.lines.len()
    }

    /// How many were taken, which is the number of the last one.
    pub fn taken(&self) -> usize {
        self.taken
    }

    /// Takes the next line that says something and is not the first of a case.
    pub fn of_case(&mut self) -> Option<&'a str> {
        self.skip_empty();
        let line = self.peek()?;
        if line.starts_with("case ") {
            return None;
        }
        self.advance();
        Some(line)
    }

    /// Takes the first line of a case, and answers its title; `None` at the end of the file.
    pub fn title(&mut self) -> Result<Option<&'a str>> {
        self.skip_empty();
        let Some(line) = self.peek() else {
            return Ok(None);
        };
        self.advance();
        match line.strip_prefix("case ") {
            Some(title) => Ok(Some(title)),
            None => bail!("the line stands before the first case"),
        }
    }

    /// Takes the indented lines that come next as a text, whose last line feed lacks where two dots stand before it.
    pub fn text(&mut self) -> Result<String> {
        let text = self.block()?;
        match text.strip_suffix("..\n") {
            Some(front) => Ok(String::from_str(self.alloc, front)?),
            None => Ok(text),
        }
    }

    /// Takes the indented lines that come next, each ended by a line feed.
    pub fn block(&mut self) -> Result<String> {
        let mut text = String::new(self.alloc);
        for _ in 0..self.len() {
            let Some(line) = self.indented() else {
                break;
            };
            match line.strip_prefix("%repeat ") {
                Some(times) => self.push_repeated(&mut text, times)?,
                None => push_line(&mut text, line)?,
            }
        }
        Ok(text)
    }

    /// Puts the lines up to the end of a repetition behind a text, so many times.
    fn push_repeated(&mut self, text: &mut String, times: &str) -> Result<()> {
        let times = number_of(times)?;
        let body = self.body()?;
        if !body.contains('{') {
            return push_times(self.alloc, text, &body, times);
        }
        for n in 0..times {
            push_counted(text, &body, n)?;
        }
        Ok(())
    }

    /// Takes the lines up to the end of a repetition, and that line.
    fn body(&mut self) -> Result<String> {
        let mut body = String::new(self.alloc);
        for _ in 0..self.len() {
            match self.repeated() {
                Some("%end") => return Ok(body),
                Some(line) => push_line(&mut body, line)?,
                None => break,
            }
        }
        bail!("a repetition has no end")
    }

    /// Takes the next line where it is indented, and answers it without its indentation.
    fn indented(&mut self) -> Option<&'a str> {
        let line = self.peek()?.strip_prefix("  ")?;
        self.advance();
        Some(line)
    }

    /// Takes the next line where it is indented or empty.
    fn repeated(&mut self) -> Option<&'a str> {
        if self.peek()?.is_empty() {
            self.advance();
            return Some("");
        }
        self.indented()
    }

    /// Takes lines that say nothing.
    fn skip_empty(&mut self) {
        for _ in 0..self.len() {
            match self.peek() {
                Some(line) if line.is_empty() || line.starts_with('#') => self.advance(),
                _ => break,
            }
        }
    }

    /// The next line.
    fn peek(&self) -> Option<&'a str> {
        self.lines.get(self.taken).copied()
    }

    /// Takes the next line.
    fn advance(&mut self) {
        self.taken = self.taken.saturating_add(1);
    }
}

/// Puts a line and a line feed behind a text.
fn push_line(text: &mut String, line: &str) -> Result<()> {
    text.push_str(line)?;
    text.push('\n')?;
    Ok(())
}

/// Puts a body behind a text, so many times, by doubling.
fn push_times(alloc: Global, text: &mut String, body: &str, times: u64) -> Result<()> {
    let mut all = String::new(alloc);
    for bit in (0..64u32).rev() {
        let half = all.clone()?;
        all.push_str(&half)?;
        if (times >> bit) & 1 == 1 {
            all.push_str(body)?;
        }
    }
    text.push_str(&all)?;
    Ok(())
}

/// Puts a body behind a text, in which numbers that follow from `n` stand in the place of what is in braces.
fn push_counted(text: &mut String, body: &str, n: u64) -> Result<()> {
    for (nth, part) in body.split('{').enumerate() {
        if nth == 0 {
            text.push_str(part)?;
            continue;
        }
        let (counter, rest) = part
            .split_once('}')
            .ok_or(anyhow!("a brace is not closed"))?;
        write!(text, "{}{rest}", counted(counter, n)?)?;
    }
    Ok(())
}

/// The number that `n`, `A*n`, `n+B` or `A*n+B` is.
fn counted(counter: &str, n: u64) -> Result<u64> {
    let (product, added) = counter.split_once('+').unwrap_or((counter, "0"));
    let (factor, name) = product.split_once('*').unwrap_or(("1", product));
    ensure!(name == "n", "`{counter}` does not follow from n");
    let product = number_of(factor)?.saturating_mul(n);
    Ok(product.saturating_add(number_of(added)?))
}
