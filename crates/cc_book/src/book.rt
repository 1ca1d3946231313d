//! What is kept of one stream, and the entries that change it.

ghost use Rattle.std.specs.Prelude.{◌≡◌, ℕ, ◌+◌, ◌*◌, ◌<◌, [], ◌∷◌, List, Option, is_some, IfSome, OnOk, OnErr, IfOk, false, not, slice_index};
ghost use Rattle.cc_entry.specs.declared.entry.Entry.{Entry};
ghost use Rattle.cc_entry.specs.declared.entry.Entry.TheVariants as entry;
ghost use Rattle.cc_model.specs.History.{history};
ghost use Rattle.cc_content.specs.Contents.{IsByteOfContents};
ghost use Rattle.cc_content.specs.Filling.{IsReadFrom};
ghost use Rattle.cc_model.specs.ReadAhead.{ahead_of};
ghost use Rattle.std.specs.List.{find};
ghost use Rattle.std.specs.Option.{option_map};
ghost use Rattle.cc_entry.specs.Pages.{pages_of};
ghost use Rattle.cc_model.specs.Ranges.{cut_range};
ghost use Rattle.cc_model.specs.Residency.{block_is_mapped, is_resident, mapped_block_count};
ghost use Rattle.cc_model.specs.Holds.{hold_at, holds_of, is_held};
ghost use Rattle.cc_model.specs.Numbers.{is_among};
ghost use Rattle.cc_model.specs.Objects.{had_map, objects};
ghost use Rattle.cc_model.specs.Settings.{allocation_of, log_of, quota_of};
ghost use Rattle.cc_model.specs.Touches.{is_mapped, size_of, valid_of};
ghost use Rattle.cc_model.specs.Refusals.{refusal};
ghost use Rattle.cc_model.specs.Setup.{Setup};
ghost use Rattle.cc_model.specs.Stamps.{is_unstamped};
ghost use Rattle.cc_effects.specs.Asked.{block_to_go};
ghost use Rattle.cc_holds.specs.Stands.{shown, shown_row};
ghost use Rattle.cc_refusal.specs.Known.{AreFreeViews, IsLeastAbsent};
ghost use Rattle.cc_book.specs.Book.{BookStands, MayPlaceOnBook, Gains, GoesOn, Stays, IsSnapshot, book_page_in, failed};
ghost use Rattle.cc_model.specs.Room.{owes_set_dirty};

use cc_ahead::PrivateMaps;
use cc_content::Contents;
use cc_entry::{
    Call, CcError, End, Entry, FileId, HoldRow, NoMemory, Outcome, PageId, Request, Span, StreamId,
};
use cc_holds::OpenHolds;
use cc_images::Images;
use cc_journal::Journal;
use cc_pages::Frame;
use cc_refusal::{Known, refusal};
use cc_stream::StreamState;
use std::alloc::Global;
use std::marker::Model;

/// What is kept of one stream. Its parts lie in a box, so a move of the book moves none of them.
#[derive(Drop)]
pub struct Book {
    pub(crate) stream: StreamId,
    pub(crate) parts: Box<BookParts>,
}

/// The parts of a book.
#[derive(Drop)]
pub(crate) struct BookParts {
    pub(crate) state: StreamState,
    pub(crate) maps: PrivateMaps,
    pub(crate) holds: OpenHolds,
    pub(crate) contents: Contents,
    pub(crate) images: Images,
}

impl Model for Book {
    ghost use Rattle.cc_book.specs.Book.{BookState, book_of};

    ghost Value = { BookState };

    ghost view = { λ b. book_of b.stream b.parts.value };
}

impl Book {
    /// The book of a stream of which nothing happened yet. Answers `NoMemory` where memory is wanting.
    pub fn new(alloc: Global, stream: StreamId) -> Result<Book, NoMemory>
        ensures stream { IfOk result (λ book. book.stream ≡ stream) }
        ensures stands { IfOk result (λ book. (opening : Option (ℕ → List ℕ)) (past : List Entry) →
            history past stream ≡ [] → BookStands opening past book) }
    {
        let parts = BookParts {
            state: StreamState::new(),
            maps: PrivateMaps::new(),
            holds: OpenHolds::new(alloc),
            contents: Contents::new(),
            images: Images::new(alloc),
        };
        let Ok(parts) = Box::new(alloc, parts) else {
            return Err(NoMemory);
        };
        Ok(Book { stream, parts })
    }

    /// The stream that the book is of.
    pub fn stream(&self) -> StreamId
        ensures { result ≡ self.now.stream }
    {
        self.stream
    }

    /// The size in bytes, 0 before the first initialise.
    pub fn size(&self) -> u64
        ensures { (opening : Option (ℕ → List ℕ)) (past : List Entry) → BookStands opening past self.now →
            result ≡ size_of (history past self.now.stream) }
    {
        self.parts.state.size()
    }

    /// The valid data length in bytes, 0 before the first initialise.
    pub fn valid(&self) -> u64
        ensures { (opening : Option (ℕ → List ℕ)) (past : List Entry) → BookStands opening past self.now →
            result ≡ valid_of (history past self.now.stream) }
    {
        self.parts.contents.valid()
    }

    /// The allocation in bytes (`CcSetFileSizes`), 0 before the first initialise.
    pub fn allocation(&self) -> u64
        ensures { (opening : Option (ℕ → List ℕ)) (past : List Entry) → BookStands opening past self.now →
            result ≡ allocation_of (history past self.now.stream) }
    {
        self.parts.state.allocation()
    }

    /// How many view blocks may be mapped (`CcInitializeCacheMap`), 0 before the first initialise.
    pub fn quota(&self) -> u8
        ensures { (opening : Option (ℕ → List ℕ)) (past : List Entry) → BookStands opening past self.now →
            result ≡ quota_of (history past self.now.stream) }
    {
        self.parts.state.quota()
    }

    /// The handle of the stream's log, where it has one (`CcSetLogHandleForFile`).
    pub fn log(&self) -> Option<u8>
        ensures { (opening : Option (ℕ → List ℕ)) (past : List Entry) → BookStands opening past self.now →
            result ≡ log_of (history past self.now.stream) }
    {
        self.parts.state.log()
    }

    /// Whether a file object has a private cache map; none past 15 has.
    pub fn is_open(&self, object: u8) -> bool
        ensures { (opening : Option (ℕ → List ℕ)) (past : List Entry) → BookStands opening past self.now →
            result ≡ is_among object (objects (history past self.now.stream)) }
    {
        self.parts.state.is_open(object)
    }

    /// Whether the stream has a shared map.
    pub fn has_map(&self) -> bool
        ensures { (opening : Option (ℕ → List ℕ)) (past : List Entry) → BookStands opening past self.now →
            result ≡ is_mapped (history past self.now.stream) }
    {
        self.parts.contents.has_map()
    }

    /// Whether the stream ever had a shared map.
    pub fn had_map(&self) -> bool
        ensures { (opening : Option (ℕ → List ℕ)) (past : List Entry) → BookStands opening past self.now →
            result ≡ had_map (history past self.now.stream) }
    {
        self.parts.state.had_map()
    }

    /// The open hold of an id; its written span is no part of what is promised.
    pub fn hold(&self, id: u64) -> Option<HoldRow>
        ensures { (opening : Option (ℕ → List ℕ)) (past : List Entry) → BookStands opening past self.now →
            option_map shown_row result ≡ option_map shown (hold_at (holds_of (history past self.now.stream)) id) }
    {
        self.parts.holds.get(id)
    }

    /// The pass that made the open hold of an id.
    pub fn maker(&self, id: u64) -> Option<u32>
        ensures { (opening : Option (ℕ → List ℕ)) (past : List Entry) → BookStands opening past self.now →
            result ≡ option_map (λ hold. hold.pass) (hold_at (holds_of (history past self.now.stream)) id) }
    {
        self.parts.holds.maker(id)
    }

    /// Whether the open hold of an id is a pin that changed bytes and was not set dirty since.
    pub fn owes_set_dirty(&self, id: u64) -> bool
        ensures { (opening : Option (ℕ → List ℕ)) (past : List Entry) → BookStands opening past self.now →
            result ≡ owes_set_dirty (hold_at (holds_of (history past self.now.stream)) id) }
    {
        self.parts.holds.owes_set_dirty(id)
    }

    /// Whether an open hold has the page.
    pub fn is_held(&self, page: u64) -> bool
        ensures { (opening : Option (ℕ → List ℕ)) (past : List Entry) → BookStands opening past self.now →
            result ≡ is_held (holds_of (history past self.now.stream)) page }
    {
        self.parts.holds.is_held(page)
    }

    /// Whether an open pin changed the page and was not set dirty since (Unstamped).
    pub fn is_unstamped(&self, page: u64) -> bool
        ensures { (opening : Option (ℕ → List ℕ)) (past : List Entry) → BookStands opening past self.now →
            result ≡ is_unstamped (history past self.now.stream) page }
    {
        self.parts.holds.is_unstamped(page)
    }

    /// How many view blocks are mapped.
    pub fn mapped(&self) -> u32
        ensures { (opening : Option (ℕ → List ℕ)) (past : List Entry) → BookStands opening past self.now →
            result ≡ mapped_block_count (history past self.now.stream) }
    {
        self.parts.contents.mapped()
    }

    /// Whether a view block is mapped: whether a page of it is resident.
    pub fn is_block_mapped(&self, block: u64) -> bool
        ensures { (opening : Option (ℕ → List ℕ)) (past : List Entry) → BookStands opening past self.now →
            result ≡ block_is_mapped (history past self.now.stream) block }
    {
        self.parts.contents.is_block_mapped(block)
    }

    /// The page at this number, where it is resident.
    pub fn page(&self, page: u64) -> Option<&[u8; 4096]>
        ensures resident { (opening : Option (ℕ → List ℕ)) (past : List Entry) →
            BookStands opening past self.now →
            is_some result ≡ is_resident (history past self.now.stream) page }
        ensures bytes { (opening : Option (ℕ → List ℕ)) (past : List Entry) → BookStands opening past self.now →
            IfSome result (λ bytes. (i : ℕ) → i < 4096 →
            IsByteOfContents opening (history past self.now.stream) (4096 * page + i) (slice_index bytes.now i)) }
    {
        self.parts.contents.get(page)
    }

    /// The least page with bytes of the range that is not resident.
    pub fn first_absent(&self, from: u64, to: u64) -> Option<u64>
        ensures { (opening : Option (ℕ → List ℕ)) (past : List Entry) → BookStands opening past self.now →
            result ≡ find (λ p. not (is_resident (history past self.now.stream) p))
            (pages_of (record { from = from; to = to })) }
    {
        self.parts.contents.first_absent(from, to)
    }

    /// The read-ahead that a read of so many bytes at a place leads to (`CcScheduleReadAhead`), where it leads
    /// to one.
    pub fn ahead_of(&self, file: FileId, at: u64, len: u64) -> Option<Request>
        ensures { (opening : Option (ℕ → List ℕ)) (past : List Entry) → BookStands opening past self.now →
            result ≡ ahead_of (history past self.now.stream) file at len }
    {
        let parts = &*self.parts;
        let no_read_ahead = parts.state.has_no_read_ahead();
        parts
            .maps
            .ahead_of(file, at, len, no_read_ahead, parts.state.size())
    }

    /// The refusal of a call on the stream, where there is one. Answers `NoMemory` where memory is wanting.
    pub fn refusal<Q>(
        &self,
        alloc: Global,
        journal: &Journal<Q>,
        call: &Call,
    ) -> Result<Option<CcError>, NoMemory>
        ensures { IfOk result (λ refused. (u : Setup) (opening : Option (ℕ → List ℕ)) →
            u.logs ≡ journal.now.logs → BookStands opening journal.now.entries self.now →
            refused ≡ refusal u journal.now.entries (history journal.now.entries self.now.stream) call.now) }
    {
        let parts = &*self.parts;
        let known = Known {
            stream: self.stream,
            state: &parts.state,
            valid: parts.contents.valid(),
            mapped: parts.contents.has_map(),
            holds: &parts.holds,
            images: &parts.images,
            dirty: journal.dirty().rows(),
            logs: journal.logs(),
        };
        let free_views = free_views_for(journal, call);
        refusal(alloc, &known, call, self.least_absent(call), free_views)
    }

    /// The view block to give up so that one of the span can be mapped: the least recently used one that has no
    /// open hold and is none of the span's. Answers `NoMemory` where memory is wanting.
    pub fn block_to_go(&self, alloc: Global, span: Span) -> Result<Option<u64>, NoMemory>
        ensures { IfOk result (λ block. (opening : Option (ℕ → List ℕ)) (past : List Entry) →
            BookStands opening past self.now →
            block ≡ block_to_go (history past self.now.stream) span) }
    {
        let parts = &*self.parts;
        let kept = parts.holds.kept_blocks(alloc, span)?;
        Ok(parts.contents.oldest_of(&kept))
    }

    /// A page goes out. It takes no memory.
    pub fn take_out<Q>(&mut self, journal: &mut Journal<Q>, pass: u32, page: PageId)
        requires stream { page.stream ≡ self.old.stream }
        requires reserved { 0 < journal.old.reserved }
        requires may { MayPlaceOnBook journal.old.entries (entry.PageOut pass page) self.old }
        ensures placed { Gains (entry.PageOut pass page) journal.old journal.new }
        ensures stands { GoesOn journal.old.entries journal.new.entries self.old self.new }
        ensures stream { self.new.stream ≡ self.old.stream }
    {
        self.parts.contents.went_out(page.page());
        journal.push(Entry::PageOut { pass, page });
    }

    /// A page comes in from the raw bytes of the disk, as zeros where it begins at the valid data length or past
    /// it. Answers `NoMemory`, and then nothing has changed.
    pub fn bring_in<Q>(
        &mut self,
        journal: &mut Journal<Q>,
        pass: u32,
        page: PageId,
        raw: &[u8; 4096],
    ) -> Result<(), NoMemory>
        requires stream { page.stream ≡ self.old.stream }
        requires reserved { 0 < journal.old.reserved }
        requires may { MayPlaceOnBook journal.old.entries (book_page_in pass page self.old) self.old }
        ensures placed { OnOk result (Gains (book_page_in pass page self.old) journal.old journal.new) }
        ensures stands { OnOk result ((opening : Option (ℕ → List ℕ)) →
            IsReadFrom opening (history journal.old.entries self.old.stream) page.page raw.now →
            BookStands opening journal.old.entries self.old → BookStands opening journal.new.entries self.new) }
        ensures stream { self.new.stream ≡ self.old.stream }
        ensures err { OnErr result ((self.new ≡ self.old) × (journal.new ≡ journal.old)) }
    {
        let contents = &mut self.parts.contents;
        let from_disk = 4096 * page.page() < contents.valid();
        contents.came_in(page.page(), raw)?;
        journal.push(Entry::PageIn {
            pass,
            page,
            from_disk,
        });
        Ok(())
    }

    /// The transfer of a page to the disk begins, with a snapshot of the page. Answers `NoMemory`, and then the journal
    /// is as it was, and the book stands for it as before.
    pub fn begin<Q>(
        &mut self,
        journal: &mut Journal<Q>,
        pass: u32,
        page: PageId,
    ) -> Result<Frame, NoMemory>
        requires stream { page.stream ≡ self.old.stream }
        requires reserved { 0 < journal.old.reserved }
        requires may { MayPlaceOnBook journal.old.entries (entry.WriteBegin pass page) self.old }
        ensures placed { OnOk result (Gains (entry.WriteBegin pass page) journal.old journal.new) }
        ensures snapshot { IfOk result (IsSnapshot self.old page.page) }
        ensures stands { OnOk result (GoesOn journal.old.entries journal.new.entries self.old self.new) }
        ensures stream { self.new.stream ≡ self.old.stream }
        ensures err { OnErr result (Stays journal.old journal.new self.old self.new) }
    {
        let parts = &mut *self.parts;
        let snapshot = parts.contents.share(page.page())?;
        match snapshot {
            Some(frame) => {
                parts.images.began(parts.contents.valid())?;
                journal.push(Entry::WriteBegin { pass, page });
                Ok(frame)
            }
            None => unreachable!(),
        }
    }

    /// That transfer ended. A map without an object goes with its last dirty page, and its pages with it.
    pub fn end<Q>(&mut self, journal: &mut Journal<Q>, pass: u32, page: PageId, how: End)
        requires stream { page.stream ≡ self.old.stream }
        requires reserved { 0 < journal.old.reserved }
        requires may { MayPlaceOnBook journal.old.entries (entry.WriteEnd pass page how) self.old }
        ensures placed { Gains (entry.WriteEnd pass page how) journal.old journal.new }
        ensures stands { GoesOn journal.old.entries journal.new.entries self.old self.new }
        ensures stream { self.new.stream ≡ self.old.stream }
    {
        let parts = &mut *self.parts;
        parts.images.ended(page.page(), how, parts.contents.valid());
        journal.push(Entry::WriteEnd { pass, page, how });
        let mapped = journal.is_mapped(self.stream);
        parts.contents.ended(mapped);
    }

    /// A call on the stream failed.
    pub fn fail<Q>(&mut self, journal: &mut Journal<Q>, pass: u32, call: Call, error: CcError)
        requires reserved { 0 < journal.old.reserved }
        requires may { MayPlaceOnBook journal.old.entries (failed pass journal.old.entries self.old.stream call error) self.old }
        ensures placed { Gains (failed pass journal.old.entries self.old.stream call error) journal.old journal.new }
        ensures stands { GoesOn journal.old.entries journal.new.entries self.old self.new }
        ensures same { self.new ≡ self.old }
    {
        journal.push(Entry::Call {
            pass,
            nth: journal.next_call(pass),
            stream: Some(self.stream),
            call,
            outcome: Outcome::Failed(error),
        });
    }

    // The least page that a read which may not wait needs and that is not resident.
    fn least_absent(&self, call: &Call) -> Option<u64>
        ensures { (opening : Option (ℕ → List ℕ)) (past : List Entry) → BookStands opening past self.now →
            IsLeastAbsent (history past self.now.stream) call.now result }
    {
        match call {
            Call::CopyRead { at, len, wait, .. } => {
                if *wait {
                    None
                } else {
                    self.absent_of(*at, *len)
                }
            }
            _ => None,
        }
    }

    // The least page of so many bytes from a place on, as far as the size, that is not resident.
    fn absent_of(&self, at: u64, len: u64) -> Option<u64>
        ensures { (opening : Option (ℕ → List ℕ)) (past : List Entry) → BookStands opening past self.now →
            result ≡ find (λ p. not (is_resident (history past self.now.stream) p))
            (pages_of (cut_range (size_of (history past self.now.stream)) at len)) }
    {
        let parts = &*self.parts;
        let end = u128::from(at) + u128::from(len);
        let to = end.min(u128::from(parts.state.size())) as u64;
        parts.contents.first_absent(at, to)
    }
}

// How many of the 256 views no mapped stream has taken, where the call is an initialise. They are added up for it alone.
fn free_views_for<Q>(journal: &Journal<Q>, call: &Call) -> u16
    ensures { AreFreeViews journal.now.entries call.now result }
{
    match call {
        Call::Initialise { .. } => journal.free_views(),
        _ => 0,
    }
}
