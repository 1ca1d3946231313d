//! The rows of the table in one slice, before which there may be free places: a row near either end goes out, and one near the
//! end goes in, with few others moved.

ghost use Rattle.std.specs.Prelude.{◌≡◌, ◌+◌, ◌-◌, ◌<◌, ◌≤◌, [], length, drop, set, insert, remove, filter, not, OnOk, OnErr, vec_len, vec_capacity};
ghost use Rattle.cc_dirty.specs.Order.{is_from, is_between};

use crate::row::{Row, Unwritten, is_between, is_from};
use cc_entry::{NoMemory, StreamId};
use std::alloc::Global;
use std::marker::Model;

/// Rows in one slice: those from the first live place on.
#[derive(Drop)]
pub(crate) struct LiveRows {
    places: Vec<Row>,
    first: usize,
}

impl Model for LiveRows {
    ghost use Rattle.std.specs.Prelude.{◌≤◌, drop, vec_len, vec_capacity};
    ghost use Rattle.cc_dirty.specs.Table.{Table};

    ghost Value = { Table };

    ghost view = { λ r. record { rows = drop r.first r.places.items; capacity = vec_capacity r.places } };

    ghost invariant = { λ r. r.first ≤ vec_len r.places };
}

impl LiveRows {
    /// No rows; the allocator is kept.
    pub(crate) fn new(alloc: Global) -> LiveRows
        ensures { result.rows ≡ [] }
    {
        LiveRows {
            places: Vec::new(alloc),
            first: 0,
        }
    }

    /// Makes room for so many rows in all. Answers `NoMemory`, and then nothing has changed.
    pub(crate) fn reserve(&mut self, rows: u32) -> Result<(), NoMemory>
        ensures room { OnOk result (rows ≤ self.new.capacity) }
        ensures rows { self.new.rows ≡ self.old.rows }
        ensures capacity { self.old.capacity ≤ self.new.capacity }
        ensures err { OnErr result (self.new ≡ self.old) }
    {
        // Twice as many places: a move of all rows to the start then frees as many places as it moves rows.
        let places = 2 * rows as usize;
        let further = places.saturating_sub(self.places.len());
        self.places.reserve(further).map_err(|_| NoMemory)
    }

    /// The rows.
    pub(crate) fn as_slice(&self) -> &[Row]
        ensures { result.now ≡ self.now.rows }
    {
        &self.places[self.first..]
    }

    /// Writes a row over the one at a place.
    pub(crate) fn set(&mut self, place: usize, row: Row)
        requires { place < length self.old.rows }
        ensures rows { self.new.rows ≡ set self.old.rows place row }
        ensures capacity { self.new.capacity ≡ self.old.capacity }
    {
        self.places[self.first + place] = row;
    }

    /// Puts in a row at a place. It takes no memory.
    pub(crate) fn insert(&mut self, place: usize, row: Row)
        requires within { place ≤ length self.old.rows }
        requires room { length self.old.rows < self.old.capacity }
        ensures rows { self.new.rows ≡ insert self.old.rows place row }
        ensures capacity { self.new.capacity ≡ self.old.capacity }
    {
        // Taken apart and put together again, so that the check finds the fields' types here.
        let Row { page, begun, later } = row;
        let Unwritten { oldest, lsns } = later;
        let later = Unwritten { oldest, lsns };
        let row = Row { page, begun, later };
        if self.first > 0 && place < self.places.len() - self.first - place {
            insert_downward(&mut self.places, self.first, place, row);
            self.first -= 1;
        } else {
            if self.places.len() == self.places.capacity() {
                move_to_start(&mut self.places, self.first);
                self.first = 0;
            }
            insert_reserved(&mut self.places, self.first + place, row);
        }
    }

    /// Takes out the row at a place. The rows on the side that has fewer move.
    pub(crate) fn remove(&mut self, place: usize)
        requires { place < length self.old.rows }
        ensures rows { self.new.rows ≡ remove self.old.rows place }
        ensures capacity { self.new.capacity ≡ self.old.capacity }
    {
        if place < self.places.len() - self.first - place {
            remove_upward(&mut self.places, self.first, place);
            self.first += 1;
        } else {
            self.places.remove(self.first + place);
        }
    }

    /// Takes out the rows of a stream's pages from this number on.
    pub(crate) fn drop_from(&mut self, stream: StreamId, page: u64)
        ensures rows { self.new.rows ≡ filter (λ r. not (is_from stream page r.page)) self.old.rows }
        ensures capacity { self.new.capacity ≡ self.old.capacity }
    {
        move_to_start(&mut self.places, self.first);
        self.first = 0;
        self.places.retain(|row| !is_from(row.page, stream, page));
    }

    /// Takes out the rows of a stream's pages from `from` up to, and without, `to`.
    pub(crate) fn drop_between(&mut self, stream: StreamId, from: u64, to: u64)
        ensures rows { self.new.rows ≡ filter (λ r. not (is_between stream from to r.page)) self.old.rows }
        ensures capacity { self.new.capacity ≡ self.old.capacity }
    {
        move_to_start(&mut self.places, self.first);
        self.first = 0;
        self.places
            .retain(|row| !is_between(row.page, stream, from, to));
    }
}

// Puts in a row by the free place before the first one: those before it move down by one.
fn insert_downward<T: Copy>(places: &mut Vec<T>, first: usize, place: usize, row: T)
    requires free { 0 < first }
    requires within { first + place ≤ vec_len places.old }
    ensures rows { drop (first - 1) places.new.items ≡ insert (drop first places.old.items) place row }
    ensures len { vec_len places.new ≡ vec_len places.old }
    ensures capacity { vec_capacity places.new ≡ vec_capacity places.old }
{
    places.copy_within(first..first + place, first - 1);
    places[first - 1 + place] = row;
}

// Takes out a row: those before it move up by one, and the first place is free.
fn remove_upward(places: &mut Vec<Row>, first: usize, place: usize)
    requires { first + place < vec_len places.old }
    ensures rows { drop (first + 1) places.new.items ≡ remove (drop first places.old.items) place }
    ensures len { vec_len places.new ≡ vec_len places.old }
    ensures capacity { vec_capacity places.new ≡ vec_capacity places.old }
{
    places.copy_within(first..first + place, first + 1);
}

// Moves the rows from this place on to the start, and forgets what is behind them.
fn move_to_start(places: &mut Vec<Row>, first: usize)
    requires { first ≤ vec_len places.old }
    ensures rows { places.new.items ≡ drop first places.old.items }
    ensures len { vec_len places.new + first ≡ vec_len places.old }
    ensures capacity { vec_capacity places.new ≡ vec_capacity places.old }
{
    if first > 0 {
        let rows = places.len() - first;
        places.copy_within(first.., 0);
        places.truncate(rows);
    }
}

// An insert where there is room, which can't fail.
fn insert_reserved<T: Drop>(items: &mut Vec<T>, place: usize, item: T)
    requires within { place ≤ vec_len items.old }
    requires room { vec_len items.old < vec_capacity items.old }
    ensures items { items.new.items ≡ insert items.old.items place item }
    ensures len { vec_len items.new ≡ vec_len items.old + 1 }
    ensures capacity { vec_capacity items.new ≡ vec_capacity items.old }
{
    let _ = items.insert(place, item);
}
