//! What a call answers that may be done.

ghost use Rattle.std.specs.Prelude.{◌≡◌, ℕ, true, List, Option, Some, IfOk};
ghost use Rattle.cc_entry.specs.Queries.{file_of_query, is_of_stream};
ghost use Rattle.cc_entry.specs.declared.call.Call.TheVariants as call;
ghost use Rattle.cc_entry.specs.declared.entry.Entry.{Entry};
ghost use Rattle.cc_book.specs.Book.{BookStands};
ghost use Rattle.cc_model.specs.Acts.{file_of};
ghost use Rattle.cc_model.specs.Filing.{IsFiled};
ghost use Rattle.cc_model.specs.History.{history};
ghost use Rattle.cc_model.specs.Holds.{holds_of};
ghost use Rattle.cc_model.specs.Queries.{IsQueryReply, state_of};
ghost use Rattle.cc_model.specs.Replies.{IsReply};
ghost use Rattle.cc_model.specs.Setup.{Setup};
ghost use Rattle.cc_step.specs.Step.{is_stepped, StandUnder, IsReadyFor};

use cc_book::Book;
use cc_entry::{Call, FileSizes, FileState, NoMemory, Query, Reply, Value};
use cc_journal::{Journal, lsns};
use std::alloc::Global;

/// What a call answers that nothing refuses and whose pages are resident.
pub fn reply<Q>(
    alloc: Global,
    book: &Book,
    journal: &Journal<Q>,
    call: &Call,
) -> Result<Reply, NoMemory>
    requires stepped { is_stepped call.now ≡ true }
    ensures { IfOk result (λ r. (u : Setup) (pass : ℕ) → StandUnder u book.now journal.now →
        IsFiled (holds_of (history journal.now.entries book.now.stream)) pass (Some book.now.stream) call.now
        (file_of call.now) →
        IsReadyFor u journal.now.entries book.now.stream call.now →
        IsReply u journal.now.entries (u.opening book.now.stream)
        (history journal.now.entries book.now.stream) pass call.now r) }
{
    match call {
        Call::CopyRead { at, len, .. }
        | Call::MappedRead { at, len, .. }
        | Call::PinnedRead { at, len, .. }
        | Call::MdlBytes { at, len, .. } => Ok(Reply::Read(book.read(alloc, *at, *len)?)),
        Call::Map { .. }
        | Call::PinRead { .. }
        | Call::PreparePin { .. }
        | Call::Repin { .. }
        | Call::MdlRead { .. }
        | Call::MdlWrite { .. } => Ok(Reply::Hold(journal.next_hold())),
        Call::PinMapped { hold, .. } => Ok(Reply::Hold(*hold)),
        Call::Uninitialise { file, truncate } => {
            Ok(Reply::Value(Value::Flag(!journal.stays_mapped(*file, *truncate))))
        }
        Call::AskAhead { file, at, len } => Ok(Reply::Ahead(book.ahead_of(*file, *at, *len))),
        Call::AheadStep { request } => Ok(Reply::Whole(book.is_whole(alloc, request)?)),
        Call::Query(query) => Ok(reply_to(book, journal, query)),
        _ => Ok(Reply::Unit),
    }
}

// What a query of the book's stream answers.
fn reply_to<Q>(book: &Book, journal: &Journal<Q>, query: &Query) -> Reply
    requires of_stream { is_of_stream query.now ≡ true }
    ensures { (u : Setup) (pass : ℕ) → StandUnder u book.now journal.now →
        IsFiled (holds_of (history journal.now.entries book.now.stream)) pass (Some book.now.stream)
        (call.Query query.now) (file_of_query query.now) →
        IsReadyFor u journal.now.entries book.now.stream (call.Query query.now) →
        IsQueryReply u journal.now.entries (u.opening book.now.stream)
        (history journal.now.entries book.now.stream) query.now result }
{
    match query {
        Query::State { .. } => Reply::Value(Value::State(state_of(book))),
        Query::LsnForFile { file } => Reply::Value(Value::Lsns(lsns(journal, file.stream()))),
        Query::CanWrite { file, bytes } => {
            Reply::Value(Value::Flag(journal.may_go(file.stream(), bytes.div_ceil(4096))))
        }
        Query::DirtyPages { .. } | Query::IsDirtyData => unreachable!(),
    }
}

// The sizes and the log of the book's stream.
fn state_of(book: &Book) -> FileState
    ensures { (opening : Option (ℕ → List ℕ)) (past : List Entry) → BookStands opening past book.now →
        result ≡ state_of (history past book.now.stream) }
{
    FileState {
        sizes: FileSizes {
            allocation: book.allocation(),
            size: book.size(),
            valid: book.valid(),
        },
        log: book.log(),
    }
}
