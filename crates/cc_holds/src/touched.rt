//! The pages that were written through a hold.

ghost use Rattle.std.specs.Prelude.{◌≡◌, ◌-◌, ◌≤◌, [], OnOk, OnErr};
ghost use Rattle.std.specs.List.{range_with_len};
ghost use Rattle.cc_entry.specs.Pages.{pages_of};
ghost use Rattle.cc_holds.specs.Touched.{has_touched, with_pages};

use cc_entry::{NoMemory, Span};
use std::alloc::Global;
use std::marker::Model;

/// Bytes in a page.
const PAGE_SIZE: u64 = 4096;

/// Numbers of pages, each once.
#[derive(Drop)]
pub struct TouchedPages {
    pages: Vec<u64>,
}

impl Model for TouchedPages {
    ghost use Rattle.std.specs.Prelude.{List, ℕ};

    ghost Value = { List ℕ };

    ghost view = { λ t. t.pages.items };
}

impl TouchedPages {
    /// No page.
    pub fn new(alloc: Global) -> TouchedPages
        ensures { result ≡ [] }
    {
        TouchedPages {
            pages: Vec::new(alloc),
        }
    }

    /// The pages, in the order of their first touch.
    pub fn all(&self) -> &[u64]
        ensures { result.now ≡ self.now }
    {
        &self.pages
    }

    /// Whether the page of this number is there.
    pub fn contains(&self, page: u64) -> bool
        ensures { result ≡ has_touched self.now page }
    {
        self.pages.contains(&page)
    }

    /// Adds the pages that have a byte of the span. Answers `NoMemory`, and then nothing has changed.
    pub fn touch(&mut self, span: Span) -> Result<(), NoMemory>
        ensures ok { OnOk result (self.new ≡ with_pages self.old (pages_of span)) }
        ensures err { OnErr result (self.new ≡ self.old) }
    {
        let (from, to) = (span.from(), span.to());
        if from >= to {
            return Ok(());
        }
        let first = from / PAGE_SIZE;
        let end = (to - 1) / PAGE_SIZE + 1;
        add_pages(&mut self.pages, first, end)
    }

    /// Takes all pages out.
    pub fn clear(&mut self)
        ensures { self.new ≡ [] }
    {
        self.pages.clear();
    }
}

// Adds the pages from `first` up to, and without, `end`.
fn add_pages(pages: &mut Vec<u64>, first: u64, end: u64) -> Result<(), NoMemory>
    requires { first ≤ end }
    ensures ok { OnOk result
        (pages.new.items ≡ with_pages pages.old.items (range_with_len first (end - first))) }
    ensures err { OnErr result (pages.new.items ≡ pages.old.items) }
{
    let count = (end - first) as usize;
    pages.reserve(count).map_err(|_| NoMemory)?;
    for page in first..end {
        if !pages.contains(&page) {
            pages.push_reserved(page);
        }
    }
    Ok(())
}
