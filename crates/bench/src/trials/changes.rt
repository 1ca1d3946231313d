//! The changes of bytes that a journal tells, their stamps, and which of them a page shows.

use crate::trials::stream::PAGE;
use anyhow::Result;
use cc_entry::{Bytes, Call, Entry, Lsn, Outcome};
use std::alloc::Global;

/// A change of bytes of a stream.
#[derive(Drop)]
pub struct Change {
    pub stream: u8,
    at: u64,
    bytes: Vec<u8>,
    /// The pin through which it was made, until that is set dirty.
    pin: Option<u64>,
    /// The LSN with which it was stamped.
    stamp: Option<u64>,
}

impl Change {
    /// The page of its first byte, and the one behind that of its last.
    pub fn pages(&self) -> (u64, u64) {
        let end = self.at.saturating_add(self.bytes.len() as u64);
        (self.at / PAGE, end.div_ceil(PAGE))
    }

    /// The byte that it gives a place of a stream.
    fn byte_at(&self, stream: u8, place: u64) -> Option<u8> {
        if self.stream != stream {
            return None;
        }
        let from = place.checked_sub(self.at)?;
        self.bytes.get(from as usize).copied()
    }
}

/// The changes that a journal tells of streams whose disks were full of one byte. What was zeroed is none of them.
///
/// A page shows a change where it has a byte that the change alone gives that place: not zero, not the byte of the disks, and not
/// one that another change gives it.
#[derive(Drop)]
pub struct Changes {
    fill: u8,
    all: Vec<Change>,
}

impl Changes {
    /// Those of a journal, in their order.
    pub fn in_journal(alloc: Global, fill: u8, journal: &[Entry]) -> Result<Changes> {
        let mut changes = Changes {
            fill,
            all: Vec::new(alloc),
        };
        for entry in journal {
            if let Entry::Call {
                stream: Some(stream),
                call,
                outcome: Outcome::Done(_),
                ..
            } = entry
            {
                changes.note(alloc, stream.number(), call)?;
            }
        }
        Ok(changes)
    }

    /// All of them.
    pub fn all(&self) -> &[Change] {
        &self.all
    }

    /// The stamps of those that a page shows.
    pub fn stamps_shown(
        &self,
        alloc: Global,
        stream: u8,
        page: u64,
        content: &[u8; 4096],
    ) -> Result<Vec<u64>> {
        let mut stamps = Vec::new(alloc);
        for (nth, change) in self.all.iter().enumerate() {
            if let Some(stamp) = change.stamp {
                if self.is_shown(nth, stream, page, content) {
                    stamps.push(stamp)?;
                }
            }
        }
        Ok(stamps)
    }

    /// The stamp of one that no page can show, since something else gives each of its bytes.
    pub fn stamp_hidden(&self) -> Option<u64> {
        for (nth, change) in self.all.iter().enumerate() {
            let mut bytes = change.bytes.iter().enumerate();
            let is_told = bytes.any(|(from, byte)| {
                self.is_own(
                    nth,
                    change.stream,
                    change.at.saturating_add(from as u64),
                    *byte,
                )
            });
            if change.stamp.is_some() && !is_told {
                return change.stamp;
            }
        }
        None
    }

    /// Whether a page shows the change of this place.
    fn is_shown(&self, nth: usize, stream: u8, page: u64, content: &[u8; 4096]) -> bool {
        let begin = page.saturating_mul(PAGE);
        content.iter().enumerate().any(|(at, byte)| {
            self.is_own(nth, stream, begin.saturating_add(at as u64), *byte)
        })
    }

    /// Whether the change of this place alone gives a place of a stream this byte.
    fn is_own(&self, nth: usize, stream: u8, place: u64, byte: u8) -> bool {
        let mut others = self
            .all
            .iter()
            .enumerate()
            .filter(|(other, _)| *other != nth);
        let given = self
            .all
            .get(nth)
            .and_then(|change| change.byte_at(stream, place));
        given == Some(byte)
            && byte != 0
            && byte != self.fill
            && !others.any(|(_, change)| change.byte_at(stream, place) == Some(byte))
    }

    /// Notes what a call that was done changes of its stream, or stamps.
    fn note(&mut self, alloc: Global, stream: u8, call: &Call) -> Result<()> {
        match call {
            Call::CopyWrite { at, bytes, .. } | Call::MdlStore { at, bytes, .. } => {
                self.push(alloc, stream, *at, bytes, None)
            }
            Call::NcStore { page, bytes, .. } => {
                self.push(alloc, stream, page.saturating_mul(PAGE), bytes, None)
            }
            Call::PinnedWrite { hold, at, bytes } => {
                self.push(alloc, stream, *at, bytes, Some(*hold))
            }
            Call::SetDirty { hold, lsn } => {
                self.stamp(*hold, *lsn);
                Ok(())
            }
            _ => Ok(()),
        }
    }

    /// Puts one behind the others.
    fn push(
        &mut self,
        alloc: Global,
        stream: u8,
        at: u64,
        bytes: &Bytes,
        pin: Option<u64>,
    ) -> Result<()> {
        self.all.push(Change {
            stream,
            at,
            bytes: bytes.to_vec(alloc)?,
            pin,
            stamp: None,
        })?;
        Ok(())
    }

    /// A pin is set dirty: what was changed through it since it was so last has this stamp.
    fn stamp(&mut self, hold: u64, lsn: Option<Lsn>) {
        let stamp = lsn.map(|lsn| lsn.number());
        for change in self.all.iter_mut() {
            if change.pin == Some(hold) {
                change.pin = None;
                change.stamp = stamp;
            }
        }
    }
}
