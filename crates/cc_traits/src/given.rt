//! The bytes that a source gave, for clauses alone.

ghost use Rattle.std.specs.Prelude.{◌≡◌, ℕ, [], ◌∷◌, List, ◌++◌, reverse};

use crate::PastItems;
use std::marker::Model;

/// The bytes that a source gave, the first one first, also of a source that keeps none of them. It has no
/// size, and only [`Given::note`] makes it longer.
#[derive(Drop)]
pub struct Given {
    bytes: PastItems<u8>,
}

impl Model for Given {
    ghost Value = { List ℕ };

    ghost view = { λ given. reverse given.bytes.noted };
}

impl Given {
    /// No byte yet.
    pub fn new() -> Given
        ensures { result ≡ [] }
    {
        Given {
            bytes: PastItems::new(),
        }
    }

    /// Notes the next bytes that were given.
    pub fn note(&mut self, bytes: &[u8])
        ensures { self.new ≡ self.old ++ bytes.now }
    {
        for byte in bytes {
            self.note_byte(*byte);
        }
    }

    /// Notes the next byte.
    fn note_byte(&mut self, byte: u8)
        ensures { self.new ≡ self.old ++ byte ∷ [] }
    {
        self.bytes.grow(&byte);
    }
}
