//! The queries: the calls that tell something, and change nothing. Whether a write may go is asked in `throttle`.

ghost use Rattle.std.specs.Prelude.{◌≡◌, ◌<◌, ◌≤◌, false, Some};
ghost use Rattle.cc_entry.specs.Queries.{file_of_query, is_of_stream};
ghost use Rattle.cc_entry.specs.declared.call.Call.TheVariants as call;
ghost use Rattle.cc_entry.specs.declared.query.Query.TheVariants as query;
ghost use Rattle.cc_entry.specs.declared.reply.Reply.{Reply};
ghost use Rattle.cc_entry.specs.declared.reply.Reply.TheVariants as reply;
ghost use Rattle.cc_model.specs.Good.{IsGood};
ghost use Rattle.cc_model.specs.Room.{reserved_in};
ghost use Rattle.cc_model.specs.Setup.{Setup};
ghost use Rattle.cc_journal.specs.Calls.{owed_end};
ghost use Rattle.cc_calls.specs.Answers.{CallEnds, CanCall, IsFree, flag_outcome, lsns_outcome, rows_outcome, state_outcome};
ghost use Rattle.cc_calls.specs.Queries.{AskEnds, CanAsk, as_reply, flag_reply, reply_told};
ghost use Rattle.cc_calls.specs.Streamless.{PlacesStreamless, StreamlessLeft, TableOf};

use crate::told::{lsns, state};
use crate::turned::{call_at_once, call_paged};
use cc_entry::{Call, CcError, Entry, FileId, FileState, Lsn, Outcome, Query, Reply, Rows, Value};
use cc_journal::{Journal, dirty_table};
use cc_turns::Turns;
use cc_writes::Returned;
use std::alloc::Global;

/// Makes a query, whichever it is, and answers its reply: what the function of the query tells. A page that it needs is
/// brought in first.
///
/// `NotCached` where it names a file, `NoLog` where it names a log, `JournalFull`, `NoMemory`; `NoViews`, `ReadFault`,
/// `WriteFault` and `LogFault` where it needs pages.
pub fn ask<T: Turns>(alloc: Global, turns: &mut T, query: Query) -> Result<Reply, CcError>
    requires can { CanAsk (T.standing turns.old) query }
    ensures ends { AskEnds (T.standing turns.old) (T.standing turns.new) query result }
{
    match query.file() {
        Some(file) => ask_stream(alloc, turns, file, query),
        None => ask_journal(alloc, turns, query),
    }
}

// Makes a query of the stream of this file.
fn ask_stream<T: Turns>(
    alloc: Global,
    turns: &mut T,
    file: FileId,
    query: Query,
) -> Result<Reply, CcError>
    requires can { CanCall (T.standing turns.old) file.stream }
    requires file { file_of_query query ≡ Some file }
    ensures { AskEnds (T.standing turns.old) (T.standing turns.new) query result }
{
    match call_paged(alloc, turns, file.stream(), Call::Query(query), &mut []) {
        Ok(told) => Ok(reply_told(told)),
        Err(error) => Err(error),
    }
}

// The reply that a caller was told.
fn reply_told(told: Returned) -> Reply
    requires { (r : Reply) × (reply_told told ≡ Some r) }
    ensures { reply_told told ≡ Some result }
{
    match told {
        Returned::Value(found) => Reply::Value(found),
        _ => unreachable!(),
    }
}

// Makes a query of no stream, which the journal answers.
fn ask_journal<T: Turns>(alloc: Global, turns: &mut T, query: Query) -> Result<Reply, CcError>
    requires can { IsFree (T.standing turns.old) }
    requires streamless { is_of_stream query ≡ false }
    ensures { AskEnds (T.standing turns.old) (T.standing turns.new) query result }
{
    match query {
        Query::DirtyPages { handle } => rows_reply(dirty_pages(alloc, turns, handle)),
        Query::IsDirtyData => flag_reply(is_dirty_data(turns)),
        _ => unreachable!(),
    }
}

// Rows of the dirty page table as the reply that they are.
fn rows_reply(told: Result<Rows, CcError>) -> Result<Reply, CcError>
    ensures { result ≡ as_reply reply.Rows told }
{
    match told {
        Ok(rows) => Ok(Reply::Rows(rows)),
        Err(error) => Err(error),
    }
}

// A flag as the reply that it is.
fn flag_reply(told: Result<bool, CcError>) -> Result<Reply, CcError>
    ensures { result ≡ as_reply flag_reply told }
{
    match told {
        Ok(flag) => Ok(Reply::Value(Value::Flag(flag))),
        Err(error) => Err(error),
    }
}

/// The sizes of a stream, in bytes, and its log. It is no Cc routine: in Windows a file system keeps them itself.
///
/// `NotCached`, `JournalFull`, `NoMemory`.
pub fn file_state<T: Turns>(
    alloc: Global,
    turns: &mut T,
    file: FileId,
) -> Result<FileState, CcError>
    requires can { CanCall (T.standing turns.old) file.stream }
    ensures ends { CallEnds state_outcome (T.standing turns.old) (T.standing turns.new) (call.Query (query.State file)) result }
    ensures good { IsGood (T.standing turns.old).setup (T.standing turns.new).seen }
{
    match call_at_once(
        alloc,
        turns,
        file.stream(),
        Call::Query(Query::State { file }),
        &mut [],
    ) {
        Ok(told) => Ok(state(told)),
        Err(error) => Err(error),
    }
}

/// The least and the greatest LSN stamped on dirty pages of a stream and not yet written, where there is one
/// (`CcGetLsnForFileObject`).
///
/// `NotCached`, `JournalFull`, `NoMemory`.
pub fn lsn_for_file<T: Turns>(
    alloc: Global,
    turns: &mut T,
    file: FileId,
) -> Result<Option<(Lsn, Lsn)>, CcError>
    requires can { CanCall (T.standing turns.old) file.stream }
    ensures ends { CallEnds lsns_outcome (T.standing turns.old) (T.standing turns.new) (call.Query (query.LsnForFile file)) result }
{
    match call_at_once(
        alloc,
        turns,
        file.stream(),
        Call::Query(Query::LsnForFile { file }),
        &mut [],
    ) {
        Ok(told) => Ok(lsns(told)),
        Err(error) => Err(error),
    }
}

/// The dirty page table of a log: a row for each dirty page with a stamp, of a stream with this log, by stream and page
/// (`CcGetDirtyPages`).
///
/// `NoLog`, `JournalFull`, `NoMemory`.
pub fn dirty_pages<T: Turns>(alloc: Global, turns: &mut T, handle: u8) -> Result<Rows, CcError>
    requires can { IsFree (T.standing turns.old) }
    ensures ends { CallEnds rows_outcome (T.standing turns.old) (T.standing turns.new) (call.Query (query.DirtyPages handle)) result }
{
    let mut journal = turns.take_journal();
    let pass = turns.me();
    let answer = tell_rows(alloc, &mut journal, pass, handle);
    turns.give_journal(journal);
    answer
}

/// Whether a page is dirty, of whichever stream (`CcIsThereDirtyData`).
///
/// `JournalFull`, `NoMemory`.
pub fn is_dirty_data<T: Turns>(turns: &mut T) -> Result<bool, CcError>
    requires can { IsFree (T.standing turns.old) }
    ensures ends { CallEnds flag_outcome (T.standing turns.old) (T.standing turns.new) (call.Query query.IsDirtyData) result }
{
    let mut journal = turns.take_journal();
    let pass = turns.me();
    let answer = tell_dirty(&mut journal, pass);
    turns.give_journal(journal);
    answer
}

// Tells the dirty page table of a log, from a journal in hand: where there is room for the entry of the call, it is
// placed.
fn tell_rows<Q>(
    alloc: Global,
    journal: &mut Journal<Q>,
    pass: u32,
    handle: u8,
) -> Result<Rows, CcError>
    requires good { (u : Setup) × IsGood u journal.old.entries }
    requires owed { reserved_in journal.old.entries ≤ journal.old.reserved }
    ensures { StreamlessLeft rows_outcome pass (call.Query (query.DirtyPages handle)) result journal.old journal.new }
{
    journal.reserve(1)?;
    match rows_of(alloc, journal, handle) {
        Ok((rows, told)) => {
            place(journal, pass, handle, Outcome::Done(Reply::Rows(rows)));
            Ok(told)
        }
        Err(error) => {
            match error {
                CcError::NoLog { .. } => place(journal, pass, handle, Outcome::Failed(error)),
                _ => journal.release(1),
            }
            Err(error)
        }
    }
}

// The dirty page table of a log, which there has to be, twice: for the entry, and for the caller.
fn rows_of<Q>(alloc: Global, journal: &Journal<Q>, handle: u8) -> Result<(Rows, Rows), CcError>
    ensures { TableOf journal.now.logs handle journal.now.entries result }
{
    if journal.logs() <= handle {
        return Err(CcError::NoLog {
            handle: u64::from(handle),
        });
    }
    let rows = dirty_table(alloc, journal, handle)?;
    let told = dirty_table(alloc, journal, handle)?;
    Ok((rows, told))
}

// Places the entry of a query for the dirty page table of a log, for which a place is reserved, and gives the one of
// the end of a noncached write of the pass back.
fn place<Q>(journal: &mut Journal<Q>, pass: u32, handle: u8, outcome: Outcome)
    requires reserved { owed_end journal.old.entries pass < journal.old.reserved }
    requires good { (u : Setup) × IsGood u journal.old.entries }
    ensures { PlacesStreamless pass (call.Query (query.DirtyPages handle)) outcome journal.old journal.new }
{
    let nth = journal.next_call(pass);
    let owed = journal.owed_end(pass);
    journal.push(Entry::Call {
        pass,
        nth,
        stream: None,
        call: Call::Query(Query::DirtyPages { handle }),
        outcome,
    });
    journal.release(owed);
}

// Tells whether a page is dirty, from a journal in hand: where there is room for the entry of the call, it is placed.
fn tell_dirty<Q>(journal: &mut Journal<Q>, pass: u32) -> Result<bool, CcError>
    requires good { (u : Setup) × IsGood u journal.old.entries }
    requires owed { reserved_in journal.old.entries ≤ journal.old.reserved }
    ensures { StreamlessLeft flag_outcome pass (call.Query query.IsDirtyData) result journal.old journal.new }
{
    journal.reserve(1)?;
    let flag = !journal.dirty().rows().is_empty();
    let nth = journal.next_call(pass);
    let owed = journal.owed_end(pass);
    journal.push(Entry::Call {
        pass,
        nth,
        stream: None,
        call: Call::Query(Query::IsDirtyData),
        outcome: Outcome::Done(Reply::Value(Value::Flag(flag))),
    });
    journal.release(owed);
    Ok(flag)
}
