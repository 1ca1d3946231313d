//! The resident pages of a stream by number, with the order in which their blocks were last used.

ghost use Rattle.std.specs.Prelude.{◌≡◌, ◌≢◌, ℕ, ◌+◌, ◌-◌, ◌*◌, ◌/◌, ◌%◌, ◌^◌, ◌<◌, ◌≤◌, ◌==◌, ◌&&◌, ◌⊎◌, [], ◌∷◌, length, IsSome, IfSome, IfOk, IsOk, OnOk, OnErr, None, Some, true, false, is_some, not, slice_index};
ghost use Rattle.std.specs.List.{list_all, filter, find};
ghost use Rattle.std.specs.Option.{option_copied};
ghost use Rattle.cc_entry.specs.Pages.{block_of, blocks_of, pages_of, whole_range};
ghost use Rattle.cc_vacb.specs.Levels.{levels_of};
ghost use Rattle.cc_views.specs.Views.{ViewsAreSound, first_not_in};
ghost use Rattle.cc_resident.specs.Residents.{page_bytes_at, is_resident, all_resident, all_mapped, is_shared, AllOwned, rest_of_page, blocks, has_pages, is_block_among, used};
ghost use Rattle.cc_resident.specs.Changes.{KeepsOthers, KeepsFrames, SameBytes, StaysOwned, OwnsOnly, SharesOnly, CoversRange, Zeroes, Cuts, CutsPages, is_number_between};

use crate::steps;
use cc_entry::{NoMemory, Quota};
use cc_pages::Frame;
use cc_views::Views;
use std::alloc::Global;
use std::cmp::min;
use std::marker::Model;

const ZEROS: [u8; 4096] = [0; 4096];

/// The resident pages of a stream, and the order in which its view blocks were last used.
#[derive(Drop)]
pub struct ResidentPages {
    views: Views,
}

impl Model for ResidentPages {
    ghost use Rattle.cc_views.specs.Views.{MappedViews};
    ghost use Rattle.cc_resident.specs.Residents.{AreResidents};

    ghost Value = { MappedViews };

    ghost view = { λ r. r.views };

    ghost invariant = { λ r. AreResidents r.views };
}

impl ResidentPages {
    /// No page, of a stream of that many bytes. Answers `NoMemory` where memory is wanting.
    pub fn new(alloc: Global, quota: Quota, size: u64) -> Result<ResidentPages, NoMemory>
        ensures empty { IfOk result (λ r. (p : ℕ) → page_bytes_at r p ≡ None) }
        ensures blocks { IfOk result (λ r. blocks r ≡ []) }
        ensures quota { IfOk result (λ r. r.quota ≡ quota) }
        ensures size { IfOk result (λ r. r.size ≡ size) }
    {
        let views = Views::new(alloc, quota, size)?;
        Ok(ResidentPages { views })
    }

    /// The page at this number.
    pub fn get(&self, page: u64) -> Option<&[u8; 4096]>
        ensures page { option_copied result ≡ page_bytes_at self.now page }
        ensures starts { IsSome result → 4096 * page < self.now.size }
    {
        match self.views.frames(page / 64) {
            Some(frames) => frames.get((page % 64) as u8),
            None => None,
        }
    }

    /// The least page with bytes of the range that is not resident. Each block is looked up once.
    pub fn first_absent(&self, from: u64, to: u64) -> Option<u64>
        ensures { result
            ≡ find (λ p. not (is_resident self.now p)) (pages_of (record { from = from; to = to })) }
    {
        if from < to {
            let end = (to - 1) / 4096 + 1;
            let mut page = from / 4096;
            while page < end {
                let next = end.min(64 * (page / 64) + 64);
                let absent = steps::absent_in_block(&self.views, page, next);
                if absent.is_some() {
                    return absent;
                }
                page = next;
            }
        }
        None
    }

    /// How many blocks are mapped.
    pub fn mapped(&self) -> u32
        ensures count { result ≡ length (blocks self.now) }
        ensures blocks_have_pages { list_all (has_pages self.now) (blocks self.now) ≡ true }
        ensures starts { (p : ℕ) → is_resident self.now p ≡ true → 4096 * p < self.now.size }
        ensures whole { (p : ℕ) → IfSome (page_bytes_at self.now p) (λ bytes. length bytes ≡ 4096) }
        ensures sound { ViewsAreSound self.now }
    {
        self.views.len() as u32
    }

    /// Whether a block is mapped: whether a page of it is resident.
    pub fn is_mapped(&self, block: u64) -> bool
        ensures mapped { result ≡ is_block_among block (blocks self.now) }
        ensures has_pages { result ≡ has_pages self.now block }
    {
        self.views.frames(block).is_some()
    }

    /// The least recently used block that is not among the kept ones.
    pub fn oldest_of(&self, kept: &[u64]) -> Option<u64>
        ensures { result ≡ first_not_in kept.now (blocks self.now) }
    {
        self.views.oldest_of(kept)
    }

    /// How many bytes the stream has.
    pub fn size(&self) -> u64
        ensures { result ≡ self.now.size }
    {
        self.views.size()
    }

    /// The most blocks that may be mapped.
    pub fn quota(&self) -> Quota
        ensures { result ≡ self.now.quota }
    {
        self.views.quota()
    }

    /// The levels of the view index.
    pub fn levels(&self) -> u8
        ensures { result ≡ levels_of self.now.size }
    {
        self.views.levels()
    }

    /// Makes a snapshot of a page, which is shared then; `None` where the page is not resident. Answers `NoMemory`
    /// where memory is wanting; no byte changes in either case.
    pub fn share(&mut self, page: u64) -> Result<Option<Frame>, NoMemory>
        ensures snapshot { IfOk result (λ frame. frame ≡ page_bytes_at self.old page) }
        ensures whole { IfOk result (λ frame. IfSome frame (λ bytes. length bytes ≡ 4096)) }
        ensures bytes { SameBytes self.old self.new }
        ensures others { SharesOnly self.old self.new page }
    {
        steps::share(&mut self.views, page)
    }

    /// Makes the resident pages with bytes of a range owned, and no other, by a copy of each that is shared. Answers
    /// `NoMemory`, and then no byte has changed, but some of the pages may be owned.
    pub fn own_range(&mut self, from: u64, to: u64) -> Result<(), NoMemory>
        ensures owned { OnOk result (AllOwned self.new (record { from = from; to = to })) }
        ensures bytes { SameBytes self.old self.new }
        ensures stays { StaysOwned self.old self.new }
        ensures only { OwnsOnly self.old self.new (record { from = from; to = to }) }
    {
        if from < to {
            steps::own_span(&mut self.views, from / 4096, to.div_ceil(4096))
        } else {
            Ok(())
        }
    }

    /// Makes the page owned that a cut to a size would change, where there is one. Answers `NoMemory`, and then no byte
    /// has changed.
    pub fn own_rest(&mut self, size: u64) -> Result<(), NoMemory>
        ensures owned { OnOk result (AllOwned self.new (rest_of_page size)) }
        ensures bytes { SameBytes self.old self.new }
        ensures stays { StaysOwned self.old self.new }
        ensures only { OwnsOnly self.old self.new (rest_of_page size) }
    {
        steps::own_span(&mut self.views, size / 4096, size.div_ceil(4096))
    }

    /// Makes a page these bytes, whether it was resident or not, and notes a use of its block. Answers `NoMemory`, and
    /// then nothing has changed.
    pub fn bring_in(&mut self, page: u64, bytes: &[u8; 4096]) -> Result<(), NoMemory>
        requires starts { 4096 * page < self.old.size }
        requires room { (is_block_among (block_of page) (blocks self.old) ≡ true)
            ⊎ (length (blocks self.old) < self.old.quota) }
        ensures page { OnOk result (page_bytes_at self.new page ≡ Some bytes.now) }
        ensures others { KeepsOthers self.old self.new page }
        ensures blocks { OnOk result
            (blocks self.new ≡ used (block_of page ∷ []) (blocks self.old)) }
        ensures quota { self.new.quota ≡ self.old.quota }
        ensures size { self.new.size ≡ self.old.size }
        ensures err { OnErr result (self.new ≡ self.old) }
    {
        if self.is_mapped(page / 64) {
            steps::renew(&mut self.views, page, bytes)
        } else {
            steps::add(&mut self.views, page, bytes)
        }
    }

    /// Takes a page out, where it is resident. Its block goes with the last of its pages.
    pub fn take_out(&mut self, page: u64)
        ensures page { page_bytes_at self.new page ≡ None }
        ensures others { KeepsOthers self.old self.new page }
        ensures blocks { blocks self.new ≡ filter (has_pages self.new) (blocks self.old) }
        ensures quota { self.new.quota ≡ self.old.quota }
        ensures size { self.new.size ≡ self.old.size }
    {
        steps::clear(&mut self.views, page);
        steps::drop_if_empty(&mut self.views, page / 64);
    }

    /// Takes out the pages from one up to, and without, another.
    pub fn drop_span(&mut self, from_page: u64, to_page: u64)
        ensures gone { (p : ℕ) → from_page ≤ p → p < to_page → page_bytes_at self.new p ≡ None }
        ensures others { (p : ℕ) → (p < from_page) ⊎ (to_page ≤ p) → page_bytes_at self.new p ≡ page_bytes_at self.old p }
        ensures blocks { blocks self.new ≡ filter (has_pages self.new) (blocks self.old) }
        ensures quota { self.new.quota ≡ self.old.quota }
        ensures size { self.new.size ≡ self.old.size }
    {
        steps::clear_span(&mut self.views, from_page, to_page);
        steps::drop_empty(&mut self.views);
    }

    /// Cuts the stream to a size, or lets it grow. The pages that start at or past the size are taken out,
    /// and bytes past it are 0. Only growth takes memory. Answers `NoMemory`, and then nothing has changed.
    pub fn cut(&mut self, size: u64) -> Result<(), NoMemory>
        requires owned { AllOwned self.old (rest_of_page size) }
        ensures pages { OnOk result (Cuts self.old self.new size) }
        ensures blocks { OnOk result (blocks self.new ≡ filter (has_pages self.new) (blocks self.old)) }
        ensures quota { self.new.quota ≡ self.old.quota }
        ensures size { OnOk result (self.new.size ≡ size) }
        ensures smaller { size ≤ self.old.size → IsOk result }
        ensures err { OnErr result (self.new ≡ self.old) }
    {
        self.cut_pages(size)?;
        self.zero_part(size / 4096, (size % 4096) as u16, 4096);
        Ok(())
    }

    /// Writes bytes over those of a range whose pages are resident and owned.
    pub fn write(&mut self, at: u64, bytes: &[u8])
        requires resident { all_resident self.old (whole_range at (length bytes.now)) ≡ true }
        requires owned { AllOwned self.old (whole_range at (length bytes.now)) }
        requires fits { at + length bytes.now ≤ 2 ^ 63 }
        ensures bytes { CoversRange self.old self.new (whole_range at (length bytes.now))
            (λ i. slice_index bytes.now (i - at)) }
        ensures blocks { blocks self.new ≡ blocks self.old }
        ensures quota { self.new.quota ≡ self.old.quota }
        ensures size { self.new.size ≡ self.old.size }
    {
        let mut done: usize = 0;
        while done < bytes.len() {
            let place = at + done as u64;
            let start = place % 4096;
            let count = min(4096 - start as usize, bytes.len() - done);
            self.write_in_page(place / 4096, start as u16, &bytes[done..done + count]);
            done += count;
        }
    }

    /// Makes the bytes of a range 0, wherever their page is resident, and so owned.
    pub fn zero(&mut self, from: u64, to: u64)
        requires { AllOwned self.old (record { from = from; to = to }) }
        ensures bytes { CoversRange self.old self.new (record { from = from; to = to }) (λ _. 0) }
        ensures blocks { blocks self.new ≡ blocks self.old }
        ensures quota { self.new.quota ≡ self.old.quota }
        ensures size { self.new.size ≡ self.old.size }
    {
        // The size is what says that the numbers of the pages are in range.
        let _size = self.views.size();
        for place in 0..self.views.len() {
            let block = self.views.block_at(place);
            self.zero_in_block(block, from, to);
        }
    }

    /// Notes a use of each block of a range, one after the other.
    pub fn use_range(&mut self, from: u64, to: u64)
        requires { all_mapped self.old (record { from = from; to = to }) ≡ true }
        ensures pages { (p : ℕ) → page_bytes_at self.new p ≡ page_bytes_at self.old p }
        ensures shared { (p : ℕ) → is_shared self.new p ≡ is_shared self.old p }
        ensures blocks { blocks self.new
            ≡ used (blocks_of (record { from = from; to = to })) (blocks self.old) }
        ensures quota { self.new.quota ≡ self.old.quota }
        ensures size { self.new.size ≡ self.old.size }
    {
        if from < to {
            for block in from / 262144..(to - 1) / 262144 + 1 {
                self.use_block(block);
            }
        }
    }

    // Cuts whole pages alone.
    fn cut_pages(&mut self, size: u64) -> Result<(), NoMemory>
        ensures pages { OnOk result (CutsPages self.old self.new size) }
        ensures blocks { OnOk result (blocks self.new ≡ filter (has_pages self.new) (blocks self.old)) }
        ensures smaller { size ≤ self.old.size → IsOk result }
        ensures err { OnErr result (self.new ≡ self.old) }
    {
        if size > self.size() {
            self.grow(size)
        } else {
            self.shrink(size);
            Ok(())
        }
    }

    fn grow(&mut self, size: u64) -> Result<(), NoMemory>
        requires { self.old.size ≤ size }
        ensures pages { OnOk result (CutsPages self.old self.new size) }
        ensures blocks { OnOk result (blocks self.new ≡ filter (has_pages self.new) (blocks self.old)) }
        ensures err { OnErr result (self.new ≡ self.old) }
    {
        self.views.resize(size)
    }

    fn shrink(&mut self, size: u64)
        requires { size ≤ self.old.size }
        ensures pages { CutsPages self.old self.new size }
        ensures blocks { blocks self.new ≡ filter (has_pages self.new) (blocks self.old) }
    {
        let end = self.views.size().div_ceil(4096);
        steps::clear_span(&mut self.views, size.div_ceil(4096), end);
        steps::drop_empty(&mut self.views);
        match self.views.resize(size) {
            Ok(()) => (),
            Err(_) => unreachable!(),
        }
    }

    // Writes bytes into one page that is resident and owned.
    fn write_in_page(&mut self, page: u64, at: u16, bytes: &[u8])
        requires resident { is_resident self.old page ≡ true }
        requires owned { is_shared self.old page ≡ false }
        requires fits { at + length bytes.now ≤ 4096 }
        ensures bytes { CoversRange self.old self.new (whole_range (4096 * page + at) (length bytes.now))
            (λ i. slice_index bytes.now (i - (4096 * page + at))) }
        ensures blocks { blocks self.new ≡ blocks self.old }
        ensures quota { self.new.quota ≡ self.old.quota }
        ensures size { self.new.size ≡ self.old.size }
    {
        steps::overwrite(&mut self.views, page, at, bytes);
    }

    fn zero_in_block(&mut self, block: u64, from: u64, to: u64)
        requires number { block < 2 ^ 46 }
        requires owned { AllOwned self.old (record { from = from; to = to }) }
        ensures bytes { Zeroes self.old self.new
            (λ i. block_of (i / 4096) == block && is_number_between from to i) }
        ensures blocks { blocks self.new ≡ blocks self.old }
        ensures quota { self.new.quota ≡ self.old.quota }
        ensures size { self.new.size ≡ self.old.size }
    {
        for page in 64 * block..64 * block + 64 {
            self.zero_in_page(page, from, to);
        }
    }

    fn zero_in_page(&mut self, page: u64, from: u64, to: u64)
        requires number { page < 2 ^ 52 }
        requires owned { AllOwned self.old (record { from = from; to = to }) }
        ensures bytes { Zeroes self.old self.new (λ i. i / 4096 == page && is_number_between from to i) }
        ensures blocks { blocks self.new ≡ blocks self.old }
        ensures quota { self.new.quota ≡ self.old.quota }
        ensures size { self.new.size ≡ self.old.size }
    {
        let start = 4096 * page;
        let first = min(from.saturating_sub(start), 4096);
        let last = min(to.saturating_sub(start), 4096);
        if first < last {
            self.zero_part(page, first as u16, last as u16);
        }
    }

    // Makes a part of one page 0, where it is resident.
    fn zero_part(&mut self, page: u64, from: u16, to: u16)
        requires order { from ≤ to }
        requires within { to ≤ 4096 }
        requires owned { is_shared self.old page ≡ false }
        ensures bytes { Zeroes self.old self.new (is_number_between (4096 * page + from) (4096 * page + to)) }
        ensures blocks { blocks self.new ≡ blocks self.old }
        ensures quota { self.new.quota ≡ self.old.quota }
        ensures size { self.new.size ≡ self.old.size }
    {
        if self.get(page).is_some() {
            self.write_in_page(page, from, &ZEROS[from as usize..to as usize]);
        }
    }

    fn use_block(&mut self, block: u64)
        requires { is_block_among block (blocks self.old) ≡ true }
        ensures pages { KeepsFrames self.old self.new }
        ensures blocks { blocks self.new ≡ used (block ∷ []) (blocks self.old) }
    {
        steps::use_block(&mut self.views, block);
    }
}
