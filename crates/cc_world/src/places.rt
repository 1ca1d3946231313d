//! How the rows and the logs of the World are made of a setup, and given back.

ghost use Rattle.std.specs.Prelude.{◌≡◌, ◌≤◌, [], length, map, vec_capacity, IfOk};
ghost use Rattle.cc_turns.specs.Desk.{LogIsHome};
ghost use Rattle.cc_turns.specs.Places.{IsRoomFor};
ghost use Rattle.cc_world.specs.World.{AreAt, IsNewBook, IsNewRow};

use crate::rows::StreamRow;
use cc_book::Book;
use cc_entry::{NoMemory, StreamId};
use cc_log::LogTurn;
use cc_traits::{LogFile, PageDisk};
use std::alloc::Global;

/// The books of so many streams of which nothing happened yet, in their order.
pub(crate) fn books_of(alloc: Global, streams: u8) -> Result<Vec<Book>, NoMemory>
    requires few { streams ≤ 16 }
    ensures { IfOk result (λ books. AreAt streams IsNewBook books.items) }
{
    let mut books = Vec::with_capacity(alloc, usize::from(streams))?;
    for number in 0..streams {
        let stream = StreamId::new(number).unwrap();
        let book = Book::new(alloc, stream)?;
        books.push_reserved(book);
    }
    Ok(books)
}

/// A row for each disk, of whose stream nothing happened yet, with its book.
pub(crate) fn rows_of<D: PageDisk>(
    disks: &mut Vec<D>,
    mut books: Vec<Book>,
    mut rows: Vec<StreamRow<D>>,
) -> Vec<StreamRow<D>>
    requires books { AreAt (length disks.old.items) IsNewBook books.items }
    requires room { IsRoomFor (length disks.old.items) rows.items (vec_capacity rows) }
    ensures rows { AreAt (length disks.old.items) (IsNewRow disks.old.items) result.items }
    ensures emptied { IsRoomFor (length disks.old.items) disks.new.items (vec_capacity disks.new) }
{
    disks.reverse();
    books.reverse();
    while let Some(disk) = disks.pop() {
        let book = books.pop().unwrap();
        rows.push_reserved(StreamRow {
            disk,
            book,
            kept: None,
        });
    }
    rows
}

/// Opens the logs of a setup, of which nothing was appended or flushed yet.
pub(crate) fn logs_of<L: LogFile>(files: &mut Vec<L>, mut logs: Vec<LogTurn<L>>) -> Vec<LogTurn<L>>
    requires few { length files.old.items ≤ 4 }
    requires room { IsRoomFor (length files.old.items) logs.items (vec_capacity logs) }
    ensures logs { AreAt (length files.old.items) (LogIsHome L.told L.faults files.old.items []) result.items }
    ensures emptied { IsRoomFor (length files.old.items) files.new.items (vec_capacity files.new) }
{
    files.reverse();
    while let Some(file) = files.pop() {
        let handle = logs.len() as u8;
        logs.push_reserved(LogTurn::new(handle, file));
    }
    logs
}

/// The disks of all rows, in their order.
pub(crate) fn disks_of<D>(mut rows: Vec<StreamRow<D>>, mut disks: Vec<D>) -> Vec<D>
    requires { IsRoomFor (length rows.items) disks.items (vec_capacity disks) }
    ensures { result.items ≡ map (λ row. row.disk) rows.items }
{
    while let Some(row) = rows.pop() {
        let StreamRow {
            disk,
            book: _book,
            kept: _kept,
        } = row;
        disks.push_reserved(disk);
    }
    rows.destroy_empty();
    disks.reverse();
    disks
}

/// The files of all logs, in their order.
pub(crate) fn files_of<L: LogFile>(mut logs: Vec<LogTurn<L>>, mut files: Vec<L>) -> Vec<L>
    requires { IsRoomFor (length logs.items) files.items (vec_capacity files) }
    ensures { result.items ≡ map (λ log. log.file) logs.items }
{
    while let Some(log) = logs.pop() {
        files.push_reserved(log.end());
    }
    files.reverse();
    files
}
