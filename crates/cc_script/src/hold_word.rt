//! The words that name holds, and their numbers.

ghost use Rattle.std.specs.Prelude.{◌≡◌, ◌∷◌, ◌++◌, [], None, length, OnOk};
ghost use Rattle.cc_script.specs.Outcome.{TakesIf};
ghost use Rattle.cc_script.specs.HoldNames.{word_of, new_word};

use crate::fault::LineFault;
use crate::name::Name;
use cc_entry::NoMemory;
use indexmap::IndexSet;
use std::alloc::Global;
use std::marker::Model;

/// A word that names a hold: its number among the words that its caller binds, in the order of the lines, from 0.
#[derive(Clone, Copy)]
pub struct HoldWord {
    number: usize,
}

impl Model for HoldWord {
    ghost use Rattle.std.specs.Prelude.{ℕ};

    ghost Value = { ℕ };

    ghost view = { λ w. w.number };

    ghost inverse = { λ n. record { number = n } };
}

impl HoldWord {
    /// The word of this number.
    pub fn new(number: usize) -> HoldWord
        ensures { result ≡ number }
    {
        HoldWord { number }
    }

    /// Its number among the words that its caller binds, from 0.
    pub fn number(self) -> usize
        ensures { result ≡ self }
    {
        self.number
    }
}

/// The words that a caller bound, in the order of the lines. A word is found without going over the others, however
/// many a script binds.
#[derive(Drop)]
pub(crate) struct HoldNames {
    alloc: Global,
    words: IndexSet<Vec<u8>>,
}

impl Model for HoldNames {
    ghost use Rattle.std.specs.Prelude.{List, ℕ};
    ghost use Rattle.cc_script.specs.HoldNames.{words_as_bytes};

    ghost Value = { List (List ℕ) };

    ghost view = { λ n. words_as_bytes n.words.keys };
}

impl HoldNames {
    pub(crate) fn new(alloc: Global) -> HoldNames
        ensures { result ≡ [] }
    {
        HoldNames {
            alloc,
            words: IndexSet::new(alloc),
        }
    }

    fn place_of(&self, word: &[u8]) -> Option<usize>
        ensures { result ≡ word_of self.now word.now }
    {
        self.words.get_index_of(word)
    }

    pub(crate) fn find(&self, word: &[u8]) -> Option<HoldWord>
        ensures { result ≡ word_of self.now word.now }
    {
        let place = self.place_of(word)?;
        Some(HoldWord::new(place))
    }

    // Puts a word that was not bound behind the others.
    fn insert(&mut self, word: Vec<u8>) -> Result<(), NoMemory>
        requires { word_of self.old word.items ≡ None }
        ensures { OnOk result (self.new ≡ self.old ++ word.items ∷ []) }
    {
        match self.words.insert_full(word) {
            Ok(_) => Ok(()),
            Err(_) => Err(NoMemory),
        }
    }

    fn push(&mut self, word: &[u8]) -> Result<(), NoMemory>
        requires { word_of self.old word.now ≡ None }
        ensures { OnOk result (self.new ≡ self.old ++ word.now ∷ []) }
    {
        match Vec::from_slice(self.alloc, word) {
            Ok(word) => self.insert(word),
            Err(_) => Err(NoMemory),
        }
    }

    fn len(&self) -> usize
        ensures { result ≡ length self.now }
    {
        self.words.len()
    }

    /// Binds a word, which was not bound before.
    #[tactic(auto, unfolding(crate::specs::HoldNames::new_word))]
    pub(crate) fn bind(&mut self, name: Name) -> Result<HoldWord, LineFault>
        ensures { TakesIf (new_word self.old name) result self.new }
    {
        if self.find(name.as_bytes()).is_some() {
            return Err(LineFault::Syntax);
        }
        let number = self.len();
        self.push(name.as_bytes())?;
        Ok(HoldWord::new(number))
    }
}
