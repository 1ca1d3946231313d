//! The dirty page table: its rows by stream and page, and how touches, transfers and cuts change them.

ghost use Rattle.std.specs.Prelude.{◌≡◌, ◌+◌, ◌<◌, ◌≤◌, ◌⊎◌, [], All, true, length, Some, IsSome, find, OnOk, OnErr, count_by};
ghost use Rattle.std.specs.Option.{option_map, option_and_then};
ghost use Rattle.cc_dirty.specs.Order.{RowsAscend, is_from, is_between};
ghost use Rattle.cc_dirty.specs.Unwritten.{touched_row, begun_row, ended_row, kept_row, is_touched};
ghost use Rattle.cc_dirty.specs.Table.{row_of, new_rows, KeepsOtherRows, DropsPages, is_row_of_stream, Sound};

use crate::edit::{drop_between, drop_from, find, insert, remove, replace};
use crate::find::{first_between, first_from};
use crate::live::LiveRows;
use crate::row::Row;
use cc_entry::{Lsn, NoMemory, PageId, StreamId};
use std::alloc::Global;
use std::marker::Model;

/// The dirty page table.
#[derive(Drop)]
pub struct DirtyTable {
    rows: LiveRows,
}

impl Model for DirtyTable {
    ghost use Rattle.std.specs.Prelude.{◌≤◌, length, min};
    ghost use Rattle.cc_dirty.specs.Table.{Table, Sound};

    ghost Value = { Table };

    ghost view = { λ t. record { rows = t.rows.rows; capacity = min t.rows.capacity 4294967295 } };

    ghost invariant = { λ t. Sound t.rows.rows × (length t.rows.rows ≤ 4294967295) };
}

impl DirtyTable {
    /// A table without rows, which keeps the allocator.
    pub fn new(alloc: Global) -> DirtyTable
        ensures { result.rows ≡ [] }
    {
        DirtyTable {
            rows: LiveRows::new(alloc),
        }
    }

    /// Makes room for so many rows in all. Answers `NoMemory`, and then nothing has changed.
    pub fn reserve(&mut self, rows: u32) -> Result<(), NoMemory>
        ensures room { OnOk result (rows ≤ self.new.capacity) }
        ensures rows { self.new.rows ≡ self.old.rows }
        ensures capacity { self.old.capacity ≤ self.new.capacity }
        ensures err { OnErr result (self.new ≡ self.old) }
    {
        self.rows.reserve(rows)
    }

    /// The rows by stream and page.
    pub fn rows(&self) -> &[Row]
        ensures rows { result.now ≡ self.now.rows }
        ensures sound { Sound result.now }
    {
        self.rows.as_slice()
    }

    /// The row of a page, where the page is dirty.
    pub fn row_of(&self, page: PageId) -> Option<Row>
        ensures row { result ≡ row_of self.now.rows page }
        ensures sound { Sound self.now.rows }
    {
        find(self.rows.as_slice(), page).1
    }

    /// The first row of a stream's pages from this number on.
    pub fn first_from(&self, stream: StreamId, from: u64) -> Option<Row>
        ensures first { result ≡ find (λ r. is_from stream from r.page) self.now.rows }
        ensures sound { Sound self.now.rows }
    {
        first_from(self.rows.as_slice(), stream, from)
    }

    /// The first row of a stream's pages from `from` up to, and without, `to`.
    pub fn first_between(&self, stream: StreamId, from: u64, to: u64) -> Option<Row>
        ensures first { result ≡ find (λ r. is_between stream from to r.page) self.now.rows }
        ensures sound { Sound self.now.rows }
    {
        first_between(self.rows.as_slice(), stream, from, to)
    }

    /// How many pages of a stream are dirty.
    pub fn total(&self, stream: StreamId) -> u32
        ensures count { result ≡ count_by (is_row_of_stream stream) self.now.rows }
        ensures sound { Sound self.now.rows }
    {
        self.rows
            .as_slice()
            .iter()
            .filter(|row| row.page.stream().number() == stream.number())
            .count() as u32
    }

    /// Notes a touch of a page at a place, with the LSN of its stamp where it has one.
    pub fn touch(&mut self, page: PageId, place: u64, lsn: Option<Lsn>)
        requires { IsSome (row_of self.old.rows page) ⊎ (length self.old.rows < self.old.capacity) }
        ensures row { row_of self.new.rows page ≡ Some (touched_row page place lsn (row_of self.old.rows page)) }
        ensures others { KeepsOtherRows self.old.rows self.new.rows page }
        ensures len { length self.new.rows ≡ length self.old.rows + new_rows (row_of self.old.rows page) }
        ensures capacity { self.new.capacity ≡ self.old.capacity }
    {
        match find(self.rows.as_slice(), page) {
            (at, Some(row)) => replace(&mut self.rows, at, row.touched(place, lsn)),
            (at, None) => insert(&mut self.rows, at, Row::new(page, place, lsn)),
        }
    }

    /// Notes a WriteBegin of a page: it takes what is unwritten so far.
    pub fn begin(&mut self, page: PageId)
        ensures row { row_of self.new.rows page ≡ option_map begun_row (row_of self.old.rows page) }
        ensures others { KeepsOtherRows self.old.rows self.new.rows page }
        ensures capacity { self.new.capacity ≡ self.old.capacity }
    {
        if let (place, Some(row)) = find(self.rows.as_slice(), page) {
            replace(&mut self.rows, place, row.begun());
        }
    }

    /// Notes the WriteEnd of a page.
    pub fn end(&mut self, page: PageId, ok: bool)
        ensures row { row_of self.new.rows page
            ≡ option_and_then (λ r. kept_row (ended_row ok r)) (row_of self.old.rows page) }
        ensures others { KeepsOtherRows self.old.rows self.new.rows page }
        ensures capacity { self.new.capacity ≡ self.old.capacity }
    {
        if let (place, Some(row)) = find(self.rows.as_slice(), page) {
            let row = row.ended(ok);
            if row.is_touched() {
                replace(&mut self.rows, place, row);
            } else {
                remove(&mut self.rows, place, page);
            }
        }
    }

    /// Forgets the pages of a stream from this number on, as their size is cut.
    pub fn drop_from(&mut self, stream: StreamId, page: u64)
        ensures rows { DropsPages (is_from stream page) self.old.rows self.new.rows }
        ensures capacity { self.new.capacity ≡ self.old.capacity }
    {
        drop_from(&mut self.rows, stream, page);
    }

    /// Forgets the pages of a stream from `from` up to, and without, `to`, as they are thrown away.
    pub fn drop_span(&mut self, stream: StreamId, from: u64, to: u64)
        ensures rows { DropsPages (is_between stream from to) self.old.rows self.new.rows }
        ensures capacity { self.new.capacity ≡ self.old.capacity }
    {
        drop_between(&mut self.rows, stream, from, to);
    }
}
