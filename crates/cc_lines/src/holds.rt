//! The holds that the words of a caller name, and the caller's places at the queues of a run.

ghost use Rattle.std.specs.Prelude.{◌≡◌, ◌<◌, ◌≤◌, ◌++◌, ◌∷◌, [], Option, Some, None, IfOk, length, slice_get, slice_set};
ghost use Rattle.std.specs.Option.{option_copied};
ghost use Rattle.cc_lines.specs.Holds.{named_at};

use crate::queues::Places;
use cc_calls::{HoldHandle, Mapped, Pinned, ReadChain, Repinned, WriteChain};
use cc_entry::NoMemory;
use cc_script::HoldWord;
use std::alloc::Global;
use std::marker::Model;
use std::mem::replace;

/// What a word of a caller names.
#[derive(Drop)]
pub enum Named {
    Map(Mapped),
    Pin(Pinned),
    Repin(Repinned),
    ReadChain(ReadChain),
    WriteChain(WriteChain),
}

impl Named {
    ghost use Rattle.std.specs.Prelude.{◌≡◌};
    ghost use Rattle.cc_lines.specs.Holds.{named_held};

    /// The id of the hold.
    pub fn id(&self) -> u64
        ensures { result ≡ (named_held self.now).id }
    {
        match self {
            Named::Map(hold) => hold.id(),
            Named::Pin(hold) => hold.id(),
            Named::Repin(hold) => hold.id(),
            Named::ReadChain(hold) => hold.id(),
            Named::WriteChain(hold) => hold.id(),
        }
    }
}

/// What the words of a caller name, in the order in which its lines bind them: nothing where the hold was not made, or
/// was ended. Beside them goes what else is a caller's through all phases, its places at the queues.
#[derive(Drop)]
pub struct Names {
    named: Vec<Option<Named>>,
    pub(crate) places: Places,
}

impl Model for Names {
    ghost use Rattle.std.specs.Prelude.{vec_capacity};
    ghost use Rattle.cc_lines.specs.Holds.{NamesState};

    ghost Value = { NamesState };

    ghost view = { λ n. record { named = n.named.items; room = vec_capacity n.named; places = n.places } };
}

impl Names {
    /// No words yet, with room for so many, and these places. Answers `NoMemory` where memory is wanting.
    pub fn with_room(alloc: Global, words: usize, places: Places) -> Result<Names, NoMemory>
        ensures room { IfOk result (λ names. (names.named ≡ []) × (words ≤ names.room)) }
        ensures places { IfOk result (λ names. names.places ≡ places) }
    {
        Ok(Names {
            named: Vec::with_capacity(alloc, words)?,
            places,
        })
    }

    /// The places at the queues.
    pub fn into_places(self) -> Places
        ensures { result ≡ self.places }
    {
        self.places
    }

    /// Binds the next word to what was made, where anything was. There is room for it.
    pub fn bind(&mut self, named: Option<Named>)
        requires { length self.old.named < self.old.room }
        ensures { self.new ≡ record self.old { named = self.old.named ++ named ∷ [] } }
    {
        self.named.push_reserved(named);
    }

    /// What a word names.
    pub fn get(&self, word: HoldWord) -> Option<&Named>
        ensures { option_copied result ≡ named_at self.now.named word }
    {
        match self.named.get(word.number()) {
            Some(named) => named.as_ref(),
            None => None,
        }
    }

    /// Takes out what a word names, which names nothing then.
    pub fn take(&mut self, word: HoldWord) -> Option<Named>
        requires { word < length self.old.named }
        ensures taken { result ≡ named_at self.old.named word }
        ensures rest { self.new ≡ record self.old { named = slice_set self.old.named word None } }
    {
        replace(&mut self.named[word.number()], None)
    }

    /// A word names this from now on.
    pub fn put(&mut self, word: HoldWord, named: Named)
        requires { word < length self.old.named }
        ensures { self.new ≡ record self.old { named = slice_set self.old.named word (Some named) } }
    {
        self.named[word.number()] = Some(named);
    }
}
