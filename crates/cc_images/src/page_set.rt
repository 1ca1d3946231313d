//! A set of pages that is kept as ranges, so that neighbours take one place, however many they are.

ghost use Rattle.std.specs.Prelude.{◌≡◌, ℕ, ◌+◌, ◌<◌, ◌≤◌, ◌==◌, ◌&&◌, ◌||◌, not, true, false, length, vec_capacity, OnOk, OnErr};
ghost use Rattle.std.specs.List.{position};
ghost use Rattle.cc_images.specs.PageSet.{is_in_range, is_in_ranges, is_in_set, ends_before, begins_behind, ranges_with, one_if, neighbours, IsRangeOf};

use crate::page_range::PageRange;
use cc_entry::NoMemory;
use std::alloc::Global;
use std::marker::Model;

/// Pages, as ranges of which no two have a page in common. They are in no order.
#[derive(Drop)]
pub(crate) struct PageSet {
    ranges: Vec<PageRange>,
}

impl Model for PageSet {
    ghost use Rattle.std.specs.Prelude.{vec_capacity};
    ghost use Rattle.cc_images.specs.PageSet.{PageSet, AreDisjoint};

    ghost Value = { PageSet };

    ghost view = { λ s. record {
      ranges = s.ranges.items;
      room = vec_capacity s.ranges;
    } };

    ghost invariant = { λ s. AreDisjoint s.ranges.items };
}

impl PageSet {
    /// No pages. It takes no memory.
    pub(crate) fn new(alloc: Global) -> PageSet
        ensures { (p : ℕ) → is_in_set p result ≡ false }
    {
        PageSet {
            ranges: Vec::new(alloc),
        }
    }

    /// Takes the memory that an insert or a removal may need. Answers `NoMemory`, and then nothing has changed.
    pub(crate) fn reserve(&mut self) -> Result<(), NoMemory>
        ensures has { (p : ℕ) → is_in_set p self.new ≡ is_in_set p self.old }
        ensures ranges { length self.new.ranges ≡ length self.old.ranges }
        ensures more { self.old.room ≤ self.new.room }
        ensures room { OnOk result (length self.new.ranges < self.new.room) }
        ensures err { OnErr result (self.new ≡ self.old) }
    {
        self.ranges.reserve(1)?;
        Ok(())
    }

    pub(crate) fn contains(&self, page: u64) -> bool
        ensures { result ≡ is_in_set page self.now }
    {
        self.ranges.iter().any(|range| range.contains(page))
    }

    /// Puts a page in. Beside pages that are in, it takes no range more, and it joins those before it and behind it.
    pub(crate) fn insert(&mut self, page: u64)
        requires room { length self.old.ranges < self.old.room }
        ensures has { (p : ℕ) → is_in_set p self.new ≡ (p == page || is_in_set p self.old) }
        ensures ranges { is_in_set page self.old ≡ false →
            length self.new.ranges + neighbours (λ p. is_in_set p self.old) page ≡ length self.old.ranges + 1 }
    {
        if !self.contains(page) {
            put_in(&mut self.ranges, page);
        }
    }

    /// Takes a page out. It takes a range more only where the pages on both sides of it are in.
    pub(crate) fn remove(&mut self, page: u64)
        requires room { length self.old.ranges < self.old.room }
        ensures has { (p : ℕ) → is_in_set p self.new ≡ (is_in_set p self.old && not (p == page)) }
        ensures ranges { is_in_set page self.old ≡ true →
            length self.new.ranges + 1 ≤ length self.old.ranges + neighbours (λ p. is_in_set p self.old) page }
    {
        if let Some(place) = place_with(&self.ranges, page) {
            take_out(&mut self.ranges, place, page);
        }
    }
}

// The place of the range that has a page.
fn place_with(ranges: &[PageRange], page: u64) -> Option<usize>
    ensures { result ≡ position (is_in_range page) ranges.now }
{
    ranges.iter().position(|range| range.contains(page))
}

// The place of the range that ends before a page.
fn place_before(ranges: &[PageRange], page: u64) -> Option<usize>
    ensures { result ≡ position (ends_before page) ranges.now }
{
    ranges.iter().position(|range| range.ends_before(page))
}

// The place of the range that begins behind a page.
fn place_behind(ranges: &[PageRange], page: u64) -> Option<usize>
    ensures { result ≡ position (begins_behind page) ranges.now }
{
    ranges.iter().position(|range| range.begins_behind(page))
}

// Puts in a page that no range has: in those that it is beside, which it joins, or in one of its own.
fn put_in(ranges: &mut Vec<PageRange>, page: u64)
    requires room { length ranges.old.items < vec_capacity ranges.old }
    requires is_new { is_in_ranges page ranges.old.items ≡ false }
    ensures pages { (p : ℕ) → ranges_with p ranges.new.items ≡ ranges_with p ranges.old.items + one_if (p == page) }
    ensures ranges { length ranges.new.items + neighbours (λ p. is_in_ranges p ranges.old.items) page ≡
        length ranges.old.items + 1 }
{
    let before = place_before(ranges, page);
    let behind = place_behind(ranges, page);
    match (before, behind) {
        (Some(before), Some(behind)) => {
            ranges[before].last = ranges[behind].last;
            let _ = ranges.swap_remove(behind);
        }
        (Some(before), None) => ranges[before].last = page,
        (None, Some(behind)) => ranges[behind].first = page,
        (None, None) => ranges.push_reserved(PageRange {
            first: page,
            last: page,
        }),
    }
}

// Takes a page out of the range at a place, which has it.
fn take_out(ranges: &mut Vec<PageRange>, place: usize, page: u64)
    requires room { length ranges.old.items < vec_capacity ranges.old }
    requires place { IsRangeOf page place ranges.old.items }
    ensures pages { (p : ℕ) → ranges_with p ranges.new.items + one_if (p == page) ≡ ranges_with p ranges.old.items }
    ensures ranges { length ranges.new.items + 1 ≤
        length ranges.old.items + neighbours (λ p. is_in_ranges p ranges.old.items) page }
{
    let range = ranges[place];
    if range.first < page {
        ranges[place].last = page - 1;
        if page < range.last {
            ranges.push_reserved(PageRange {
                first: page + 1,
                last: range.last,
            });
        }
    } else if page < range.last {
        ranges[place].first = page + 1;
    } else {
        let _ = ranges.swap_remove(place);
    }
}
