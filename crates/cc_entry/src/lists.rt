//! The lists inside calls, replies, entries and answers: each a `Vec` that contracts see as its list.

ghost use Rattle.std.specs.Prelude.{◌≡◌};

use crate::place::{DirtyRow, PageId};
use std::marker::Model;

/// A list of pages.
#[derive(Drop)]
pub struct Pages {
    items: Vec<PageId>,
}

impl Model for Pages {
    ghost use Rattle.std.specs.Prelude.{List};
    ghost use Rattle.cc_entry.specs.Place.{Page};

    ghost Value = { List Page };

    ghost view = { λ l. l.items.items };
}

impl Pages {
    /// The pages of a `Vec`, in its order.
    pub fn from_vec(items: Vec<PageId>) -> Pages
        ensures { result ≡ items.items }
    {
        Pages { items }
    }

    /// The pages, in their order.
    pub fn as_slice(&self) -> &[PageId]
        ensures { result.now ≡ self.now }
    {
        &self.items
    }

    /// The pages in the `Vec` that keeps them.
    pub fn into_vec(self) -> Vec<PageId>
        ensures { result.items ≡ self }
    {
        let Pages { items } = self;
        items
    }
}

/// Rows of the dirty page table.
#[derive(Drop)]
pub struct Rows {
    items: Vec<DirtyRow>,
}

impl Model for Rows {
    ghost use Rattle.std.specs.Prelude.{List};
    ghost use Rattle.cc_entry.specs.declared.place.DirtyRow.{DirtyRow};

    ghost Value = { List DirtyRow };

    ghost view = { λ l. l.items.items };
}

impl Rows {
    /// The rows of a `Vec`, in its order.
    pub fn from_vec(items: Vec<DirtyRow>) -> Rows
        ensures { result ≡ items.items }
    {
        Rows { items }
    }

    /// The rows, in their order.
    pub fn as_slice(&self) -> &[DirtyRow]
        ensures { result.now ≡ self.now }
    {
        &self.items
    }

    /// The rows in the `Vec` that keeps them.
    pub fn into_vec(self) -> Vec<DirtyRow>
        ensures { result.items ≡ self }
    {
        let Rows { items } = self;
        items
    }
}

/// Numbers of deferred writes.
#[derive(Drop)]
pub struct Ids {
    items: Vec<u64>,
}

impl Model for Ids {
    ghost use Rattle.std.specs.Prelude.{List, ℕ};

    ghost Value = { List ℕ };

    ghost view = { λ l. l.items.items };
}

impl Ids {
    /// The numbers of a `Vec`, in its order.
    pub fn from_vec(items: Vec<u64>) -> Ids
        ensures { result ≡ items.items }
    {
        Ids { items }
    }

    /// The numbers, in their order.
    pub fn as_slice(&self) -> &[u64]
        ensures { result.now ≡ self.now }
    {
        &self.items
    }

    /// The numbers in the `Vec` that keeps them.
    pub fn into_vec(self) -> Vec<u64>
        ensures { result.items ≡ self }
    {
        let Ids { items } = self;
        items
    }
}
