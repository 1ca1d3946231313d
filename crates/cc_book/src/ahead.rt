//! Whether a read-ahead brings its pages in.

ghost use Rattle.std.specs.Prelude.{◌≡◌, ℕ, List, Option, IfOk};
ghost use Rattle.cc_entry.specs.declared.entry.Entry.{Entry};
ghost use Rattle.cc_model.specs.History.{history};
ghost use Rattle.cc_model.specs.Replies.{is_whole};
ghost use Rattle.cc_book.specs.Book.{BookStands};

use crate::book::Book;
use cc_entry::{NoMemory, Request};
use cc_refusal::is_whole;
use std::alloc::Global;

impl Book {
    /// Whether a read-ahead brings in every page of its request below the size: its object is open, and the quota has room
    /// for the request's blocks beside those of open holds. Answers `NoMemory` where memory is wanting.
    pub fn is_whole(&self, alloc: Global, request: &Request) -> Result<bool, NoMemory>
        ensures { IfOk result (λ whole. (opening : Option (ℕ → List ℕ)) (past : List Entry) →
            BookStands opening past self.now → whole ≡ is_whole (history past self.now.stream) request.now) }
    {
        let parts = &*self.parts;
        is_whole(alloc, &parts.state, &parts.holds, request)
    }
}
