//! What a noncached read of a page answers: the bytes of its frame, or those that its disk gave.

ghost use Rattle.std.specs.Prelude.{◌≡◌, ℕ, ◌*◌, ◌<◌, List, Option, IfOk};
ghost use Rattle.cc_entry.specs.declared.entry.Entry.{Entry};
ghost use Rattle.cc_entry.specs.declared.reply.Reply.TheVariants as reply;
ghost use Rattle.cc_content.specs.Filling.{IsReadFrom};
ghost use Rattle.cc_model.specs.History.{history};
ghost use Rattle.cc_model.specs.Replies.{Reads};
ghost use Rattle.cc_model.specs.Touches.{size_of};
ghost use Rattle.cc_book.specs.Book.{BookStands};
ghost use Rattle.cc_book.specs.Noncached.{IsStart, WasRead};

use crate::book::Book;
use cc_content::cleared;
use cc_entry::{Bytes, NoMemory};
use std::alloc::Global;

impl Book {
    /// The place, in bytes, where a page starts, if it starts below the size.
    pub fn start_of(&self, page: u64) -> Option<u64>
        ensures { (opening : Option (ℕ → List ℕ)) (past : List Entry) → BookStands opening past self.now →
            IsStart (size_of (history past self.now.stream)) page result }
    {
        if page < self.size().div_ceil(4096) {
            Some(4096 * page)
        } else {
            None
        }
    }

    /// What a noncached read of a page answers: the bytes of its frame where it is resident, else those that the disk
    /// gave, as far as the size. A page that starts at the size or past it has none. Answers `NoMemory` where memory is
    /// wanting.
    pub fn read_noncached(
        &self,
        alloc: Global,
        page: u64,
        raw: &[u8; 4096],
    ) -> Result<Bytes, NoMemory>
        requires stands { (opening : Option (ℕ → List ℕ)) × (past : List Entry) × BookStands opening past self.now }
        ensures { IfOk result (λ bytes. (opening : Option (ℕ → List ℕ)) (past : List Entry) →
            BookStands opening past self.now → WasRead opening (history past self.now.stream) page raw.now →
            Reads opening (history past self.now.stream) (4096 * page) 4096 (reply.Read bytes)) }
    {
        match self.start_of(page) {
            None => Ok(Bytes::new(alloc)),
            Some(at) => match self.page(page) {
                Some(_) => self.read(alloc, at, 4096),
                None => self.from_disk(alloc, at, raw),
            },
        }
    }

    // The bytes of a page that starts at this place, of which the disk gave these, as far as the size: past the valid
    // data length they are zero.
    fn from_disk(&self, alloc: Global, at: u64, raw: &[u8; 4096]) -> Result<Bytes, NoMemory>
        requires below { (opening : Option (ℕ → List ℕ)) × (past : List Entry) × BookStands opening past self.now
            × (at < size_of (history past self.now.stream)) }
        ensures { IfOk result (λ bytes. (opening : Option (ℕ → List ℕ)) (past : List Entry) (page : ℕ) →
            BookStands opening past self.now → at ≡ 4096 * page → at < size_of (history past self.now.stream) →
            IsReadFrom opening (history past self.now.stream) page raw.now →
            Reads opening (history past self.now.stream) at 4096 (reply.Read bytes)) }
    {
        let bytes = cleared(raw, self.valid().saturating_sub(at));
        let end = (self.size() - at).min(4096);
        Bytes::of(alloc, &bytes[..end as usize])
    }
}
