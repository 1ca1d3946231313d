//! The contents of one stream: its valid data length, and the bytes of its resident pages.

ghost use Rattle.std.specs.Prelude.{◌≡◌, ℕ, ◌+◌, ◌-◌, ◌*◌, ◌<◌, ◌≤◌, not, List, [], ◌∷◌, length, IfSome, IfOk, OnOk, OnErr, Option, None, Some, Bool, is_some, false, slice_index};
ghost use Rattle.std.specs.List.{find};
ghost use Rattle.cc_entry.specs.Place.{File};
ghost use Rattle.cc_entry.specs.declared.place.FileSizes.{FileSizes};
ghost use Rattle.cc_entry.specs.declared.call.Call.TheVariants as call;
ghost use Rattle.cc_entry.specs.declared.entry.End.{End};
ghost use Rattle.cc_entry.specs.declared.reply.Reply.{Reply};
ghost use Rattle.cc_entry.specs.Pages.{pages_of};
ghost use Rattle.cc_views.specs.Views.{first_not_in};
ghost use Rattle.cc_model.specs.History.{Effect, Did, CameIn, WentOut, Ended};
ghost use Rattle.cc_model.specs.Residency.{is_resident, block_is_mapped, mapped_block_count, order_of_use};
ghost use Rattle.cc_model.specs.Touches.{size_of, valid_of, is_mapped};
ghost use Rattle.cc_vacb.specs.Levels.{levels_of};
ghost use Rattle.cc_content.specs.Contents.{ContentsStand, IsByteOfContents};
ghost use Rattle.cc_content.specs.Filling.{HasRoomToKeepPage, HasRoomInViews, IsReadFrom, IsClearedFrom, Fills};
ghost use Rattle.cc_content.specs.Leaves.{LeavesContents};
ghost use Rattle.cc_content.specs.Owned.{SameContents};

use cc_entry::{NoMemory, Quota};
use cc_pages::Frame;
use cc_resident::ResidentPages;
use std::alloc::Global;
use std::cmp::min;
use std::marker::Model;

/// What is kept of the bytes of one stream: its valid data length, and its resident pages while it has a
/// shared map.
#[derive(Drop)]
pub struct Contents {
    pub(crate) valid: u64,
    pub(crate) pages: Option<ResidentPages>,
}

impl Model for Contents {
    ghost use Rattle.cc_content.specs.Contents.{Contents};

    ghost Value = { Contents };

    ghost view = { λ c. record { valid = c.valid; pages = c.pages } };
}

impl Contents {
    /// A stream of which nothing happened yet.
    pub fn new() -> Contents
        ensures { (opening : Option (ℕ → List ℕ)) → ContentsStand opening [] result }
    {
        Contents {
            valid: 0,
            pages: None,
        }
    }

    /// The valid data length in bytes, 0 before the first initialise.
    pub fn valid(&self) -> u64
        ensures same { result ≡ self.now.valid }
        ensures stands { (opening : Option (ℕ → List ℕ)) (h : List Effect) →
            ContentsStand opening h self.now → result ≡ valid_of h }
    {
        self.valid
    }

    /// Whether the stream has a shared map.
    pub fn has_map(&self) -> bool
        ensures same { result ≡ is_some self.now.pages }
        ensures stands { (opening : Option (ℕ → List ℕ)) (h : List Effect) →
            ContentsStand opening h self.now → result ≡ is_mapped h }
    {
        self.pages.is_some()
    }

    /// The page at this number, where it is resident.
    pub fn get(&self, page: u64) -> Option<&[u8; 4096]>
        ensures resident { (opening : Option (ℕ → List ℕ)) (h : List Effect) →
            ContentsStand opening h self.now → is_some result ≡ is_resident h page }
        ensures bytes { (opening : Option (ℕ → List ℕ)) (h : List Effect) →
            ContentsStand opening h self.now →
            IfSome result (λ bytes. (i : ℕ) → i < 4096 →
            IsByteOfContents opening h (4096 * page + i) (slice_index bytes.now i)) }
    {
        match &self.pages {
            Some(pages) => pages.get(page),
            None => None,
        }
    }

    /// The least page with bytes of the range that is not resident.
    pub fn first_absent(&self, from: u64, to: u64) -> Option<u64>
        ensures { (opening : Option (ℕ → List ℕ)) (h : List Effect) →
            ContentsStand opening h self.now →
            result ≡ find (λ p. not (is_resident h p)) (pages_of (record { from = from; to = to })) }
    {
        match &self.pages {
            Some(pages) => pages.first_absent(from, to),
            None => (from < to).then_some(from / 4096),
        }
    }

    /// How many view blocks are mapped.
    pub fn mapped(&self) -> u32
        ensures order { (opening : Option (ℕ → List ℕ)) (h : List Effect) →
            ContentsStand opening h self.now → result ≡ length (order_of_use h) }
        ensures count { (opening : Option (ℕ → List ℕ)) (h : List Effect) →
            ContentsStand opening h self.now → result ≡ mapped_block_count h }
    {
        match &self.pages {
            Some(pages) => pages.mapped(),
            None => 0,
        }
    }

    /// Whether a view block is mapped: whether a page of it is resident.
    pub fn is_block_mapped(&self, block: u64) -> bool
        ensures { (opening : Option (ℕ → List ℕ)) (h : List Effect) →
            ContentsStand opening h self.now → result ≡ block_is_mapped h block }
    {
        match &self.pages {
            Some(pages) => pages.is_mapped(block),
            None => false,
        }
    }

    /// The levels of the view index, where the stream has a shared map.
    pub fn levels(&self) -> Option<u8>
        ensures mapped { (opening : Option (ℕ → List ℕ)) (h : List Effect) →
            ContentsStand opening h self.now → is_some result ≡ is_mapped h }
        ensures of_size { (opening : Option (ℕ → List ℕ)) (h : List Effect) →
            ContentsStand opening h self.now → IfSome result (λ levels. levels ≡ levels_of (size_of h)) }
    {
        match &self.pages {
            Some(pages) => Some(pages.levels()),
            None => None,
        }
    }

    /// The least recently used view block that is not among the kept ones.
    pub fn oldest_of(&self, kept: &[u64]) -> Option<u64>
        ensures { (opening : Option (ℕ → List ℕ)) (h : List Effect) →
            ContentsStand opening h self.now → result ≡ first_not_in kept.now (order_of_use h) }
    {
        match &self.pages {
            Some(pages) => pages.oldest_of(kept),
            None => None,
        }
    }

    /// Makes a snapshot of a page, where it is resident. The page is shared then, and a call that changes it
    /// owns it first. Answers `NoMemory` where memory is wanting; no byte changes in either case.
    pub fn share(&mut self, page: u64) -> Result<Option<Frame>, NoMemory>
        ensures resident { IfOk result (λ frame. (opening : Option (ℕ → List ℕ)) (h : List Effect) →
            ContentsStand opening h self.old → is_some frame ≡ is_resident h page) }
        ensures bytes { IfOk result (λ frame. (opening : Option (ℕ → List ℕ)) (h : List Effect) →
            ContentsStand opening h self.old →
            IfSome frame (λ bytes. (i : ℕ) → i < 4096 →
            IsByteOfContents opening h (4096 * page + i) (slice_index bytes i))) }
        ensures whole { IfOk result (λ frame. IfSome frame (λ bytes. length bytes ≡ 4096)) }
        ensures same { SameContents self.old self.new }
    {
        match &mut self.pages {
            Some(pages) => pages.share(page),
            None => Ok(None),
        }
    }

    /// Follows an initialise that makes the shared map (`CcInitializeCacheMap`), with this size and valid data
    /// length in bytes. Answers `NoMemory`, and then nothing has changed.
    pub fn open(
        &mut self,
        alloc: Global,
        quota: Quota,
        size: u64,
        valid: u64,
    ) -> Result<(), NoMemory>
        ensures stands { OnOk result ((opening : Option (ℕ → List ℕ)) (h : List Effect) (pass : ℕ)
            (file : File) (sizes : FileSizes) (temporary : Bool) (reply : Reply) →
            is_mapped h ≡ false → sizes.size ≡ size → sizes.valid ≡ valid →
            ContentsStand opening (Did pass (call.Initialise file sizes quota temporary) reply ∷ h) self.new) }
        ensures err { OnErr result (self.new ≡ self.old) }
    {
        let pages = ResidentPages::new(alloc, quota, size)?;
        self.start(valid, pages);
        Ok(())
    }

    /// Follows a page that came in, given what was read of it: below the valid data length that stays, and
    /// from there on the page is 0. Answers `NoMemory`, and then nothing has changed.
    pub fn came_in(&mut self, page: u64, raw: &[u8; 4096]) -> Result<(), NoMemory>
        requires { HasRoomToKeepPage self.old page }
        ensures stands { OnOk result ((opening : Option (ℕ → List ℕ)) (h : List Effect) (pass : ℕ)
            (from_disk : Bool) →
            ContentsStand opening h self.old → IsReadFrom opening h page raw.now →
            ContentsStand opening (CameIn pass page from_disk ∷ h) self.new) }
        ensures err { OnErr result (self.new ≡ self.old) }
    {
        match &mut self.pages {
            Some(pages) => fill(pages, self.valid, page, raw),
            None => unreachable!(),
        }
    }

    /// Follows a page that went out.
    pub fn went_out(&mut self, page: u64)
        ensures { (opening : Option (ℕ → List ℕ)) (h : List Effect) (pass : ℕ) →
            ContentsStand opening h self.old → ContentsStand opening (WentOut pass page ∷ h) self.new }
    {
        match &mut self.pages {
            Some(pages) => pages.take_out(page),
            None => (),
        }
    }

    /// Follows the end of a transfer, or whatever else changes no byte, size or page by itself; `mapped` says
    /// whether there is a shared map after it, without which the pages go.
    pub fn ended(&mut self, mapped: bool)
        ensures ended { (opening : Option (ℕ → List ℕ)) (h : List Effect) (pass page : ℕ) (how : End) →
            ContentsStand opening h self.old → mapped ≡ is_mapped (Ended pass page how ∷ h) →
            ContentsStand opening (Ended pass page how ∷ h) self.new }
        ensures left { (opening : Option (ℕ → List ℕ)) (h later : List Effect) →
            ContentsStand opening h self.old → LeavesContents h later → mapped ≡ is_mapped later →
            ContentsStand opening later self.new }
    {
        if !mapped {
            self.drop_pages();
        }
    }

    pub(crate) fn drop_pages(&mut self)
        ensures { self.new ≡ record self.old { pages = None } }
    {
        self.pages = None;
    }

    fn start(&mut self, valid: u64, pages: ResidentPages)
        ensures { self.new ≡ record { valid = valid; pages = Some pages } }
    {
        *self = Contents {
            valid,
            pages: Some(pages),
        };
    }
}

// Brings a page in with what was read of it, cleared from the valid data length on.
fn fill(pages: &mut ResidentPages, valid: u64, page: u64, raw: &[u8; 4096]) -> Result<(), NoMemory>
    requires { HasRoomInViews pages.old page }
    ensures fills { OnOk result (Fills pages.old pages.new page (valid - 4096 * page) raw.now) }
    ensures err { OnErr result (pages.new ≡ pages.old) }
{
    // The size is what says that the page starts in range.
    let _size = pages.size();
    let bytes = cleared(raw, valid.saturating_sub(4096 * page));
    pages.bring_in(page, &bytes)?;
    // The number of blocks is what says that each has a page.
    let _count = pages.mapped();
    Ok(())
}

/// The bytes of a page, with 0 from a place on.
pub fn cleared(raw: &[u8; 4096], from: u64) -> [u8; 4096]
    ensures { IsClearedFrom from raw.now result }
{
    let mut bytes = *raw;
    let start = min(from, 4096) as usize;
    for place in start..4096 {
        bytes[place] = 0;
    }
    bytes
}
