//! The newest hold that each word of a caller names, found by the caller and the word.

ghost use Rattle.std.specs.Prelude.{◌≡◌, ◌+◌, ◌<◌, ◌≤◌, [], IfOk, Some};
ghost use Rattle.std.specs.Option.{option_map};
ghost use Rattle.indexmap.specs.IndexMap.{spare};
ghost use Rattle.cc_event_lines.specs.Names.{Renames, newest_in, pinned};

use crate::names::NamedHold;
use cc_entry::{HoldKind, NoMemory};
use indexmap::IndexMap;
use std::alloc::Global;

/// The newest hold that each word names, by its caller and the word's number.
#[derive(Drop)]
pub(crate) struct NewestHolds {
    holds: IndexMap<(u32, usize), NamedHold>,
}

impl NewestHolds {
    /// None yet, with room for so many words.
    pub(crate) fn with_room(alloc: Global, words: usize) -> Result<NewestHolds, NoMemory>
        ensures none { IfOk result (λ newest. newest.holds.entries ≡ []) }
        ensures room { IfOk result (λ newest. words ≤ spare newest.holds) }
    {
        Ok(NewestHolds {
            holds: IndexMap::with_capacity(alloc, words)?,
        })
    }

    /// The newest hold that a word of a caller names.
    pub(crate) fn of(&self, caller: u32, word: usize) -> Option<NamedHold>
        ensures { result ≡ newest_in self.now.holds.entries caller word }
    {
        self.holds.get(&(caller, word)).copied()
    }

    /// A word names a hold from now on.
    pub(crate) fn name(&mut self, named: NamedHold)
        requires room { 0 < spare self.old.holds }
        ensures named { Renames self.old.holds.entries self.new.holds.entries named.caller named.word (Some named) }
        ensures room { spare self.old.holds ≤ spare self.new.holds + 1 }
    {
        let _old = self
            .holds
            .insert((named.caller, named.word), named)
            .unwrap();
    }

    /// The hold that a word of a caller names is a pin from now on.
    pub(crate) fn pin(&mut self, caller: u32, word: usize)
        ensures pinned { Renames self.old.holds.entries self.new.holds.entries caller word
            (option_map pinned (newest_in self.old.holds.entries caller word)) }
        ensures room { spare self.old.holds ≤ spare self.new.holds }
    {
        if let Some(named) = self.holds.get_mut(&(caller, word)) {
            named.kind = HoldKind::Pin;
        }
    }
}
