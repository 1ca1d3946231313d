//! What the lazy writer's scans left, and its pick.

ghost use Rattle.std.specs.Prelude.{◌≡◌, true, ℕ, ◌^◌, ◌<◌, not, [], ◌∷◌, ◌++◌, List, IfOk, length, map, filter, take, count_by};
ghost use Rattle.cc_entry.specs.declared.entry.Entry.{Entry};
ghost use Rattle.cc_entry.specs.declared.entry.Entry.TheVariants as entry;
ghost use Rattle.cc_laws.proofs.QueueSteps.{is_scan};
ghost use Rattle.cc_model.specs.Setup.{Setup};
ghost use Rattle.cc_model.specs.Cache.{lazy_pages};
ghost use Rattle.cc_model.specs.Pick.{is_after, pick, pick_count};
ghost use Rattle.cc_journal.specs.Scans.{ScansStand, is_marked};

use cc_dirty::Row;
use cc_entry::{Entry, NoMemory, PageId, Pages};
use std::alloc::Global;

/// How many pages the lazy writer looked at in its last scan, and the last page that it picked.
#[derive(Clone, Copy)]
pub(crate) struct Scans {
    total: usize,
    cursor: Option<PageId>,
}

impl Scans {
    #[tactic(auto, using(crate::proofs::ScanSteps::scans_none))]
    pub(crate) fn new() -> Scans
        ensures { ScansStand [] result.total result.cursor }
    {
        Scans {
            total: 0,
            cursor: None,
        }
    }

    /// Follows a scan that looked at so many pages and picked these.
    pub(crate) fn scanned(&mut self, picked: &Pages, total: usize)
        ensures { (past : List Entry) (pass : ℕ) → total ≡ length (lazy_pages past) →
            ScansStand past self.old.total self.old.cursor →
            ScansStand (entry.Scan pass picked.now ∷ past) self.new.total self.new.cursor }
    {
        self.total = total;
        self.cursor = picked.as_slice().last().copied().or(self.cursor);
    }

    /// Follows an entry; a scan looked at so many pages.
    pub(crate) fn follow(&mut self, entry: &Entry, looked_at: usize)
        ensures { (past : List Entry) → (is_scan entry.now ≡ true → looked_at ≡ length (lazy_pages past)) →
            ScansStand past self.old.total self.old.cursor →
            ScansStand (entry.now ∷ past) self.new.total self.new.cursor }
    {
        if let Entry::Scan { picked, .. } = entry {
            self.scanned(picked, looked_at);
        }
    }

    /// The pages that a scan picks of those that the lazy writer looks at.
    pub(crate) fn pick(
        &self,
        alloc: Global,
        pages: &[PageId],
        threshold: u32,
    ) -> Result<Pages, NoMemory>
        ensures { (u : Setup) (past : List Entry) → u.threshold ≡ threshold → pages.now ≡ lazy_pages past →
            ScansStand past self.now.total self.now.cursor → IfOk result (λ picked. picked ≡ pick u past) }
    {
        let most = pick_count(threshold, pages.len(), self.total);
        let picked = round(alloc, pages, self.cursor, most)?;
        Ok(Pages::from_vec(picked))
    }
}

// How many of `total` pages are picked, of which the scan before looked at `before`.
fn pick_count(threshold: u32, total: usize, before: usize) -> usize
    requires { total < 2 ^ 63 }
    ensures { result ≡ pick_count threshold total before }
{
    let base = if total <= 8 { total } else { total / 8 };
    let left = total - base;
    let come = total.saturating_sub(before);
    let room = 3 * threshold as usize / 4;
    total.min(base + (left + come).saturating_sub(room))
}

// Whether a page stands after the cursor, by stream and page.
fn is_after(cursor: Option<PageId>, page: PageId) -> bool
    ensures { result ≡ is_after cursor page }
{
    match cursor {
        None => true,
        Some(last) => {
            let (stream, other) = (last.stream().number(), page.stream().number());
            stream < other || (stream == other && last.page() < page.page())
        }
    }
}

// So many of the pages, from the cursor on and then round from the first.
fn round(
    alloc: Global,
    pages: &[PageId],
    cursor: Option<PageId>,
    most: usize,
) -> Result<Vec<PageId>, NoMemory>
    ensures { IfOk result (λ picked. picked.items
        ≡ take most (filter (is_after cursor) pages.now
        ++ filter (λ page. not (is_after cursor page)) pages.now)) }
{
    let after = pages.iter().copied().filter(|page| is_after(cursor, *page));
    let others = pages
        .iter()
        .copied()
        .filter(|page| !is_after(cursor, *page));
    let picked = after.chain(others).take(most).collect(alloc)?;
    Ok(picked)
}

/// The pages of the rows whose stream is marked.
pub(crate) fn lazy_pages(
    alloc: Global,
    rows: &[Row],
    marks: &[bool; 16],
) -> Result<Vec<PageId>, NoMemory>
    ensures { IfOk result (λ pages. pages.items ≡ map (λ r. r.page) (filter (is_marked marks.now) rows.now)) }
{
    let pages = rows
        .iter()
        .filter(|row| marks[row.page.stream().number() as usize])
        .map(|row| row.page)
        .collect(alloc)?;
    Ok(pages)
}

/// How many rows have a stream that is marked.
pub(crate) fn lazy_count(rows: &[Row], marks: &[bool; 16]) -> usize
    ensures { result ≡ count_by (is_marked marks.now) rows.now }
{
    rows.iter()
        .filter(|row| marks[row.page.stream().number() as usize])
        .count()
}
