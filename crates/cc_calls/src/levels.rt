//! A question for the view index of a stream, which leaves no entry.

ghost use Rattle.std.specs.Prelude.{◌≡◌};
ghost use Rattle.cc_book.specs.Book.{BookStands};
ghost use Rattle.cc_turns.specs.Takes.{without_book};
ghost use Rattle.cc_calls.specs.Answers.{CanCall};
ghost use Rattle.cc_calls.specs.Levels.{LevelsEnds, LevelsKept};

use cc_book::Book;
use cc_entry::{CcError, FileId};
use cc_turns::Turns;

/// How many levels the view index of a stream has: one up to 2^25 bytes, else as many as its size needs at 128 slots each.
/// It is no Cc routine. It leaves no entry, and takes neither room in the journal nor memory.
///
/// `NotCached`.
pub fn index_levels<T: Turns>(turns: &mut T, file: FileId) -> Result<u8, CcError>
    requires can { CanCall (T.standing turns.old) file.stream }
    ensures ends { LevelsEnds (T.standing turns.old) (T.standing turns.new) file result }
{
    let book = turns.take_book(file.stream());
    let answer = levels_kept(&book, file);
    turns.give_book(file.stream(), book);
    answer
}

// The same of a book in hand.
fn levels_kept(book: &Book, file: FileId) -> Result<u8, CcError>
    requires same { book.now.stream ≡ file.stream }
    ensures kept { LevelsKept book.now file result }
{
    if book.is_open(file.object()) {
        match book.levels() {
            Some(levels) => Ok(levels),
            None => Err(CcError::NotCached),
        }
    } else {
        Err(CcError::NotCached)
    }
}
