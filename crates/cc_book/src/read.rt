//! The bytes that a read of resident pages answers, gathered page by page.

ghost use Rattle.std.specs.Prelude.{◌≡◌, ℕ, ◌-◌, ◌/◌, ◌%◌, ◌<◌, true, List, Option, length, min, IfOk};
ghost use Rattle.cc_entry.specs.declared.entry.Entry.{Entry};
ghost use Rattle.cc_entry.specs.declared.reply.Reply.TheVariants as reply;
ghost use Rattle.cc_model.specs.History.{history};
ghost use Rattle.cc_model.specs.Ranges.{cut_range};
ghost use Rattle.cc_model.specs.Replies.{Reads};
ghost use Rattle.cc_model.specs.Residency.{all_resident, is_resident};
ghost use Rattle.cc_model.specs.Touches.{size_of};
ghost use Rattle.cc_book.specs.Book.{BookStands};
ghost use Rattle.cc_book.specs.Read.{IsPartOf};

use crate::book::Book;
use cc_entry::{Bytes, NoMemory};
use std::alloc::Global;

// What is read of a page that is not resident, of which nothing is promised.
const ZEROS: [u8; 4096] = [0; 4096];

impl Book {
    /// The bytes of a read of so many bytes at a place (`CcCopyRead`), as far as the size, where each of their
    /// pages is resident. Answers `NoMemory` where memory is wanting.
    pub fn read(&self, alloc: Global, at: u64, len: u64) -> Result<Bytes, NoMemory>
        ensures { IfOk result (λ bytes. (opening : Option (ℕ → List ℕ)) (past : List Entry) →
            BookStands opening past self.now →
            all_resident (history past self.now.stream)
            (cut_range (size_of (history past self.now.stream)) at len) ≡ true →
            Reads opening (history past self.now.stream) at len (reply.Read bytes)) }
    {
        let end = at.saturating_add(len).min(self.size());
        let mut bytes = Vec::new(alloc);
        let mut next = at;
        while next < end {
            let part = self.part(next, end);
            bytes.extend_from_slice(part)?;
            next += part.len() as u64;
        }
        Bytes::of(alloc, &bytes)
    }

    // The bytes of the page at a place, from the place on as far as the page and the end go.
    fn part(&self, at: u64, end: u64) -> &[u8]
        requires { at < end }
        ensures long { length result.now ≡ min (end - at) (4096 - at % 4096) }
        ensures bytes { (opening : Option (ℕ → List ℕ)) (past : List Entry) →
            BookStands opening past self.now →
            is_resident (history past self.now.stream) (at / 4096) ≡ true →
            IsPartOf opening (history past self.now.stream) at result.now }
    {
        let frame = self.page(at / 4096).unwrap_or(&ZEROS);
        let from = at % 4096;
        let to = from + (end - at).min(4096 - from);
        &frame[from as usize..to as usize]
    }
}
