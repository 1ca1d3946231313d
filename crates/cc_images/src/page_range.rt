//! A range of neighbouring pages.

ghost use Rattle.std.specs.Prelude.{◌≤◌};

/// Neighbouring pages, from the first to the last.
#[derive(Clone, Copy)]
pub(crate) struct PageRange {
    pub(crate) first: u64,
    pub(crate) last: u64,
    ghost in_order: { first ≤ last },
}

impl PageRange {
    ghost use Rattle.std.specs.Prelude.{◌≡◌};
    ghost use Rattle.cc_images.specs.PageSet.{is_in_range, ends_before, begins_behind};

    pub(crate) fn contains(&self, page: u64) -> bool
        ensures { result ≡ is_in_range page self.now }
    {
        self.first <= page && page <= self.last
    }

    /// Whether the page is the next one behind it.
    pub(crate) fn ends_before(&self, page: u64) -> bool
        ensures { result ≡ ends_before page self.now }
    {
        self.last.checked_add(1) == Some(page)
    }

    /// Whether the page is the one before it.
    pub(crate) fn begins_behind(&self, page: u64) -> bool
        ensures { result ≡ begins_behind page self.now }
    {
        self.first.checked_sub(1) == Some(page)
    }
}
