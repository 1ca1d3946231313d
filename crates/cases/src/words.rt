//! The words of a line of a case file.

use crate::trouble::{Device, Kind, Place, Trouble, Troubles};
use anyhow::{Result, anyhow, bail, ensure};
use std::alloc::Global;

/// The words of a line that are left. A space stands between two of them.
#[derive(Drop)]
pub struct Words<'a> {
    left: Option<&'a str>,
}

impl<'a> Words<'a> {
    /// All words of a line.
    pub fn of(line: &'a str) -> Words<'a> {
        Words { left: Some(line) }
    }

    /// The next word, where there is one.
    pub fn maybe(&mut self) -> Option<&'a str> {
        let left = self.left?;
        match left.split_once(' ') {
            Some((word, rest)) => {
                self.left = Some(rest);
                Some(word)
            }
            None => {
                self.left = None;
                Some(left)
            }
        }
    }

    /// The next word.
    pub fn word(&mut self) -> Result<&'a str> {
        self.maybe().ok_or(anyhow!("a word is missing"))
    }

    /// The next word, which is this one.
    pub fn expect(&mut self, wanted: &str) -> Result<()> {
        let word = self.word()?;
        ensure!(word == wanted, "`{word}` stands in the place of `{wanted}`");
        Ok(())
    }

    /// No word is left.
    pub fn end(&mut self) -> Result<()> {
        match self.maybe() {
            Some(word) => bail!("`{word}` is one word too many"),
            None => Ok(()),
        }
    }

    /// A number.
    pub fn number(&mut self) -> Result<u64> {
        number_of(self.word()?)
    }

    /// A number that ends the line.
    pub fn last_number(&mut self) -> Result<u64> {
        let number = self.number()?;
        self.end()?;
        Ok(number)
    }

    /// The words that are left; two quotation marks are an empty one.
    pub fn rest(&mut self, alloc: Global) -> Result<Vec<String>> {
        let mut all = Vec::new(alloc);
        for _ in 0..u8::MAX {
            match self.maybe() {
                Some("\"\"") => all.push(String::new(alloc))?,
                Some(word) => all.push(String::from_str(alloc, word)?)?,
                None => break,
            }
        }
        Ok(all)
    }

    /// From where to where something goes, to the end of the line: `A to B`.
    pub fn range(&mut self) -> Result<(usize, usize)> {
        let from = self.size()?;
        self.expect("to")?;
        let to = self.size()?;
        self.end()?;
        Ok((from, to))
    }

    /// A number of something that is kept in memory.
    pub fn size(&mut self) -> Result<usize> {
        let word = self.word()?;
        match word.parse::<usize>() {
            Ok(number) => Ok(number),
            Err(_) => bail!("`{word}` is no number"),
        }
    }

    /// A caller.
    pub fn caller(&mut self) -> Result<u64> {
        let word = self.word()?;
        caller_of(word).ok_or(anyhow!("`{word}` is no caller"))
    }

    /// Bytes as scripts write them.
    pub fn bytes(&mut self, alloc: Global) -> Result<Vec<u8>> {
        bytes_of(alloc, self.word()?)
    }

    /// A device, whose first word was taken.
    pub fn device(&mut self, first: &str) -> Result<Device> {
        match first {
            "disk" => Ok(Device::Disk(self.size()?)),
            "log" => Ok(Device::Log(self.size()?)),
            "source" => Ok(Device::Source),
            "sink" => Ok(Device::Sink),
            _ => bail!("`{first}` is no device"),
        }
    }

    /// The call of this number and kind on a device; `any` stands for each number.
    pub fn place(&mut self, device: Device, kind: &str) -> Result<Place> {
        let kind = kind_of(device, kind)?;
        let number = match self.word()? {
            "any" => Place::ANY,
            word => call_number_of(word)?,
        };
        Ok(Place {
            device,
            kind,
            number,
        })
    }

    /// A trouble of a device, whose verb was taken.
    pub fn trouble_of(&mut self, device: Device, verb: &str) -> Result<Trouble> {
        if verb == "stops" {
            self.expect("after")?;
            return Ok(Trouble::Stops(device, self.number()?));
        }
        let place = self.place(device, verb)?;
        match self.word()? {
            "fails" => Ok(Trouble::Fails(place)),
            "finds" => {
                ensure!(place.kind != Kind::Flush, "a log's flush takes no memory");
                self.expect("no")?;
                self.expect("memory")?;
                Ok(Trouble::NoMemory(place))
            }
            word => bail!("`{word}` is no trouble"),
        }
    }

    /// The trouble of all devices, whose first word was taken.
    pub fn trouble_of_all(&mut self) -> Result<Trouble> {
        self.expect("stop")?;
        self.expect("after")?;
        Ok(Trouble::AllStop(self.number()?))
    }

    /// A trouble.
    fn trouble(&mut self) -> Result<Trouble> {
        let first = self.word()?;
        if first == "devices" {
            return self.trouble_of_all();
        }
        let device = self.device(first)?;
        let verb = self.word()?;
        self.trouble_of(device, verb)
    }

    /// The troubles of a run, to the end of the line: one, or two with `and` between them.
    pub fn troubles(&mut self) -> Result<Troubles> {
        let first = self.trouble()?;
        let second = match self.maybe() {
            None => None,
            Some("and") => Some(self.trouble()?),
            Some(word) => bail!("`{word}` is one word too many"),
        };
        self.end()?;
        Ok(Troubles { first, second })
    }
}

/// The number that a word is.
pub fn number_of(word: &str) -> Result<u64> {
    match word.parse::<u64>() {
        Ok(number) => Ok(number),
        Err(_) => bail!("`{word}` is no number"),
    }
}

/// The number of a call that a word is.
fn call_number_of(word: &str) -> Result<u64> {
    let number = number_of(word)?;
    ensure!(number > 0, "calls are numbered from 1");
    Ok(number)
}

/// The kind of call that a word names, which a device has.
pub fn kind_of(device: Device, word: &str) -> Result<Kind> {
    match Kind::named(word) {
        Some(kind) if device.has(kind) => Ok(kind),
        _ => bail!("`{word}` is no word of a {device}"),
    }
}

/// The caller that a word names.
pub fn caller_of(word: &str) -> Option<u64> {
    match number_of(word.strip_prefix("t")?) {
        Ok(caller) => Some(caller),
        Err(_) => None,
    }
}

/// The bytes that a word spells.
pub fn bytes_of(alloc: Global, word: &str) -> Result<Vec<u8>> {
    let mut bytes = Vec::new(alloc);
    if word == "-" {
        return Ok(bytes);
    }
    for item in word.split(',') {
        match item.split_once('x') {
            Some((byte, times)) => push_times(&mut bytes, byte_of(byte)?, number_of(times)?)?,
            None => push_pairs(&mut bytes, item)?,
        }
    }
    Ok(bytes)
}

/// The byte that a pair of hexadecimal digits is.
pub fn byte_of(pair: &str) -> Result<u8> {
    ensure!(pair.len() == 2, "`{pair}` is no byte");
    match u8::from_str_radix(pair, 16) {
        Ok(byte) => Ok(byte),
        Err(_) => bail!("`{pair}` is no byte"),
    }
}

/// Puts one byte so many times behind others.
fn push_times(bytes: &mut Vec<u8>, byte: u8, times: u64) -> Result<()> {
    for _ in 0..times {
        bytes.push(byte)?;
    }
    Ok(())
}

/// Puts the bytes that pairs of digits are behind others.
fn push_pairs(bytes: &mut Vec<u8>, pairs: &str) -> Result<()> {
    for pair in pairs.as_bytes().chunks(2) {
        bytes.push(byte_of(str::from_utf8(pair)?)?)?;
    }
    Ok(())
}
