//! Places: how a row moves into places of its own, and back.

ghost use Rattle.std.specs.Prelude.{◌≡◌, ℕ, ◌≤◌, true, None, Some, Option, List, [], length, map, is_some, vec_capacity, IfOk};
ghost use Rattle.std.specs.List.{list_all};
ghost use Rattle.std.specs.Option.{option_map};
ghost use Rattle.cc_turns.specs.Places.{AreHome, IsRoomFor};
ghost use Rattle.cc_turns.specs.Desk.{BookIsHome, LogIsHome};

use cc_book::Book;
use cc_entry::{NoMemory, StreamId};
use cc_log::LogTurn;
use cc_traits::LogFile;
use std::alloc::Global;

/// The books of so many streams of which nothing happened yet, each at its place.
pub(crate) fn of_books(alloc: Global, streams: u8) -> Result<Vec<Option<Book>>, NoMemory>
    requires few { streams ≤ 16 }
    ensures { IfOk result (λ books. (opening : ℕ → Option (ℕ → List ℕ)) →
        AreHome streams None (BookIsHome opening []) books.items) }
{
    let mut places = Vec::with_capacity(alloc, usize::from(streams))?;
    for number in 0..streams {
        let stream = StreamId::new(number).unwrap();
        let book = Book::new(alloc, stream)?;
        places.push_reserved(Some(book));
    }
    Ok(places)
}

/// Moves a row out, each into its place.
pub(crate) fn out_of<A>(row: &mut Vec<A>, mut places: Vec<Option<A>>) -> Vec<Option<A>>
    requires { IsRoomFor (length row.old.items) places.items (vec_capacity places) }
    ensures moved { result.items ≡ map (λ a. Some a) row.old.items }
    ensures emptied { IsRoomFor (length row.old.items) row.new.items (vec_capacity row.new) }
{
    row.reverse();
    while let Some(item) = row.pop() {
        places.push_reserved(Some(item));
    }
    places
}

/// Moves all back into the row that they came out of.
pub(crate) fn back_to<A>(mut places: Vec<Option<A>>, mut row: Vec<A>) -> Vec<A>
    requires home { list_all is_some places.items ≡ true }
    requires room { IsRoomFor (length places.items) row.items (vec_capacity row) }
    ensures { map (λ a. Some a) result.items ≡ places.items }
{
    while let Some(place) = places.pop() {
        row.push_reserved(place.unwrap());
    }
    places.destroy_empty();
    row.reverse();
    row
}

/// Opens the logs of a row, of which nothing was appended or flushed yet, each at its place.
pub(crate) fn of_logs<L: LogFile>(
    row: &mut Vec<L>,
    mut places: Vec<Option<LogTurn<L>>>,
) -> Vec<Option<LogTurn<L>>>
    requires few { length row.old.items ≤ 4 }
    requires room { IsRoomFor (length row.old.items) places.items (vec_capacity places) }
    ensures home { AreHome (length row.old.items) None (LogIsHome L.told L.faults row.old.items []) result.items }
    ensures emptied { IsRoomFor (length row.old.items) row.new.items (vec_capacity row.new) }
{
    row.reverse();
    while let Some(file) = row.pop() {
        let handle = places.len() as u8;
        places.push_reserved(Some(LogTurn::new(handle, file)));
    }
    places
}

/// Moves the files of all logs back into the row that they came out of.
pub(crate) fn back_to_logs<L: LogFile>(
    mut places: Vec<Option<LogTurn<L>>>,
    mut row: Vec<L>,
) -> Vec<L>
    requires home { list_all is_some places.items ≡ true }
    requires room { IsRoomFor (length places.items) row.items (vec_capacity row) }
    ensures { map (λ file. Some file) result.items ≡ map (option_map (λ log. log.file)) places.items }
{
    while let Some(place) = places.pop() {
        row.push_reserved(place.unwrap().end());
    }
    row.reverse();
    row
}
