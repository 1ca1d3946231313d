//! The pages of a disk in memory, and what a crash can leave of each.

ghost use Rattle.std.specs.Prelude.{◌≡◌, Bool, [], IfOk, OnOk, OnErr};
ghost use Rattle.std.specs.Ordering.{nat_cmp};
ghost use Rattle.std.specs.BTreeMap.{IsOrdered};
ghost use Rattle.cc_traits.specs.Disk.{Disk, blank_page, last_content, or_alone, page_of, may_of, Settled};
ghost use Rattle.cc_memdev.specs.Content.{PageContents, recorded, settled_page, disk_over, Records};

use std::alloc::{AllocError, Global};
use std::collections::BTreeMap;
use std::marker::Model;
use std::slice;

/// A page that was written: what it holds, and the contents that a crash now can leave, none where
/// that is what it holds alone.
#[derive(Drop)]
struct Written {
    held: [u8; 4096],
    may: Vec<[u8; 4096]>,
}

impl Model for Written {
    ghost Value = { PageContents };

    ghost view = { λ page. record { held = page.held; may = page.may.items } };
}

impl Written {
    fn new(alloc: Global, held: [u8; 4096]) -> Written
        ensures { result ≡ record { held = held; may = [] } }
    {
        Written {
            held,
            may: Vec::new(alloc),
        }
    }

    /// Records a content that a crash can leave, and that the page holds from now on if it `stays`.
    fn record(&mut self, bytes: &[u8; 4096], stays: bool) -> Result<(), AllocError>
        ensures ok { OnOk result (self.new ≡ recorded stays self.old bytes.now) }
        ensures err { OnErr result (self.new ≡ self.old) }
    {
        self.may.reserve(2)?;
        if self.may.is_empty() {
            self.may.push_reserved(self.held);
        }
        self.may.push_reserved(*bytes);
        if stays {
            self.held = *bytes;
        }
        Ok(())
    }

    fn held(&self) -> [u8; 4096]
        ensures { result ≡ self.now.held }
    {
        self.held
    }

    fn may(&self) -> &[[u8; 4096]]
        ensures { result.now ≡ or_alone self.now.may self.now.held }
    {
        if self.may.is_empty() {
            return slice::from_ref(&self.held);
        }
        &self.may
    }

    fn settle(&mut self)
        ensures { self.new ≡ settled_page self.old }
    {
        self.may.clear();
    }
}

fn blank(fill: u8) -> [u8; 4096]
    ensures { result ≡ blank_page fill }
{
    [fill; 4096]
}

/// The content that the last of these pairs with `page` gives it, or a page full of `fill`.
fn last_listed(pages: &[(u64, [u8; 4096])], page: u64, fill: u8) -> [u8; 4096]
    ensures { result ≡ last_content pages.now page (blank_page fill) }
{
    let mut found = blank(fill);
    for listed in pages {
        if listed.0 == page {
            found = listed.1;
        }
    }
    found
}

/// The pages of a memory disk: one byte that fills each page, the pages that the disk was made with,
/// and those that were written since, which are found in logarithmic time.
#[derive(Drop)]
pub(crate) struct Content {
    alloc: Global,
    fill: u8,
    opening: Vec<(u64, [u8; 4096])>,
    written: BTreeMap<u64, Written>,
}

impl Model for Content {
    ghost Value = { Disk };

    ghost view = { λ content. disk_over content.fill content.opening.items content.written.entries };

    ghost invariant = { λ content. IsOrdered nat_cmp content.written };
}

impl Content {
    pub(crate) fn new(alloc: Global, fill: u8, opening: Vec<(u64, [u8; 4096])>) -> Content
        ensures { result ≡ record { fill = fill; holds = opening.items; may = [] } }
    {
        Content {
            alloc,
            fill,
            opening,
            written: BTreeMap::new(alloc),
        }
    }

    pub(crate) fn page(&self, page: u64) -> [u8; 4096]
        ensures { result ≡ page_of self.now page }
    {
        match self.written.get(&page) {
            Some(written) => written.held(),
            None => last_listed(&self.opening, page, self.fill),
        }
    }

    pub(crate) fn may(&self, page: u64) -> Result<Vec<[u8; 4096]>, AllocError>
        ensures { IfOk result (λ contents. contents.items ≡ may_of self.now page) }
    {
        match self.written.get(&page) {
            Some(written) => Vec::from_slice(self.alloc, written.may()),
            None => {
                let alone = last_listed(&self.opening, page, self.fill);
                Vec::from_slice(self.alloc, slice::from_ref(&alone))
            }
        }
    }

    /// Records a content of a page that a crash can leave, and that the page holds from now on if it
    /// `stays`.
    pub(crate) fn record(
        &mut self,
        page: u64,
        bytes: &[u8; 4096],
        stays: bool,
    ) -> Result<(), AllocError>
        ensures ok { OnOk result (Records stays page bytes.now self.old self.new) }
        ensures err { OnErr result (self.new ≡ self.old) }
    {
        match self.written.get_mut(&page) {
            Some(written) => written.record(bytes, stays),
            None => {
                let held = last_listed(&self.opening, page, self.fill);
                let mut written = Written::new(self.alloc, held);
                written.record(bytes, stays)?;
                self.written.insert(page, written)?;
                Ok(())
            }
        }
    }

    /// Leaves of each page what it holds alone.
    pub(crate) fn settle(&mut self)
        ensures { Settled self.old self.new }
    {
        self.written.retain(|_, written| {
            written.settle();
            true
        });
    }
}
