//! The levels of a stream's view index.

ghost use Rattle.std.specs.Prelude.{◌≡◌, ℕ, List, Option, is_some, IfSome};
ghost use Rattle.cc_entry.specs.declared.entry.Entry.{Entry};
ghost use Rattle.cc_model.specs.History.{history};
ghost use Rattle.cc_model.specs.Touches.{is_mapped, size_of};
ghost use Rattle.cc_vacb.specs.Levels.{levels_of};
ghost use Rattle.cc_book.specs.Book.{BookStands};

use crate::book::Book;

impl Book {
    /// How many levels the view index of the stream has, where there is one: while the stream has a shared map. They are
    /// those of its size.
    pub fn levels(&self) -> Option<u8>
        ensures mapped { (opening : Option (ℕ → List ℕ)) (past : List Entry) → BookStands opening past self.now →
            is_some result ≡ is_mapped (history past self.now.stream) }
        ensures of_size { (opening : Option (ℕ → List ℕ)) (past : List Entry) → BookStands opening past self.now →
            IfSome result (λ levels. levels ≡ levels_of (size_of (history past self.now.stream))) }
    {
        self.parts.contents.levels()
    }
}
