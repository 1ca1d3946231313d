//! One line: its action's call, over any turns, and its answer.

ghost use Rattle.cc_entry.specs.declared.call.Call.TheVariants as call;
ghost use Rattle.cc_pieces.specs.Answered.{AppendAnswered, CallAnswered};
ghost use Rattle.cc_pieces.specs.AsyncQueue.{is_async};
ghost use Rattle.cc_pieces.specs.Queue.{is_queue_action};
ghost use Rattle.cc_turns.specs.Standing.{Standing};
ghost use Rattle.cc_calls.specs.Answers.{CanCall, IsFree};
ghost use Rattle.cc_calls.specs.Pages.{StaysGood, WentOn};
ghost use Rattle.cc_lines.specs.Line.{AnyServed, CanServe, IsFullTold, LineEnds, LineServed, flag_told, reply_answer, told_answer};
ghost use Rattle.cc_lines.specs.Queues.{queues_of};
ghost use Rattle.std.specs.Prelude.{◌≡◌, false};

use crate::ahead_lines::{ask_ahead, serve_step};
use crate::async_lines::{complete_read, start_read};
use crate::checkpoint_line::make_checkpoint;
use crate::held_lines::{
    chain, chain_abort, chain_done, chain_read, chain_store, held_read, held_write, hold_again,
    map, pin, pin_map, prepare, release, release_repinned, stamp, write_chain,
};
use crate::holds::Names;
use crate::noncached_lines::{read_noncached, write_noncached};
use crate::queues::Queues;
use crate::settle_line::settle_stream;
use crate::shim_lines::{levels, lock, read_along, unlock, update_logged, write_extending};
use crate::throttle_lines::{Fresh, defer_write, post_all};
use crate::tick_line::serve_tick;
use cc_calls::{
    ask, copy_read, copy_write, discard, flush, initialize, log_append, log_flush, purge,
    set_attributes, set_file_sizes, set_granularity, set_log_handle, set_threshold, uninitialize,
    zero_data,
};
use cc_entry::{Answer, Bytes, BytesRoom, CcError, FileId, Reply, Value};
use cc_script::Action;
use cc_traits::Gate;
use cc_turns::Turns;
use std::alloc::Global;
use std::sync::Wait;

/// Serves an action between the gate's `before` and `after`, as the call of its caller with this number.
pub fn serve_at<R: Wait, T: Turns, P: Gate>(
    rt: &R,
    alloc: Global,
    turns: &mut T,
    queues: &Queues,
    action: &Action,
    gate: &P,
    number: u32,
    names: &mut Names,
) -> Answer
where
    T::Post: Fresh,
    requires can { CanServe (T.standing turns.old) action.now names.old }
    requires own { queues_of names.old.places ≡ queues.now }
    ensures { LineEnds (T.standing turns.old) (T.standing turns.new) action.now result names.old names.new }
{
    let caller = turns.me();
    gate.before(caller, number);
    let answer = serve_any(rt, alloc, turns, queues, action, names);
    turns.note_others();
    gate.after(caller, number);
    answer
}

// Serves an action, at the queue of read-ahead, at that of copied reads, or at none.
fn serve_any<R: Wait, T: Turns>(
    rt: &R,
    alloc: Global,
    turns: &mut T,
    queues: &Queues,
    action: &Action,
    names: &mut Names,
) -> Answer
where
    T::Post: Fresh,
    requires can { CanServe (T.standing turns.old) action.now names.old }
    requires own { queues_of names.old.places ≡ queues.now }
    ensures { AnyServed (T.standing turns.old) (T.standing turns.new) action.now result names.old names.new }
{
    match action {
        Action::AskAhead { file, at, len } => {
            let place = &mut names.places.ahead;
            ask_ahead(rt, alloc, turns, &queues.ahead, place, *file, *at, *len)
        }
        Action::AheadStep => serve_step(rt, alloc, turns, &queues.ahead, &mut names.places.ahead),
        Action::AsyncRead { file, at, len } => {
            let place = &mut names.places.copies;
            start_read(rt, alloc, turns, &queues.copies, place, *file, *at, *len)
        }
        Action::Complete => {
            complete_read(rt, alloc, turns, &queues.copies, &mut names.places.copies)
        }
        _ => serve(alloc, turns, action, names),
    }
}

// Serves an action that is none of the queues, and answers its line. Want of memory is an answer, of a call that was not done:
// what the answer of one that was done takes is there before.
fn serve<T: Turns>(alloc: Global, turns: &mut T, action: &Action, names: &mut Names) -> Answer
where
    T::Post: Fresh,
    requires can { CanServe (T.standing turns.old) action.now names.old }
    requires plain { is_queue_action action.now ≡ false }
    requires apart { is_async action.now ≡ false }
    ensures { LineServed (T.standing turns.old) (T.standing turns.new) action.now result names.old names.new }
{
    match action {
        Action::Initialise {
            file,
            sizes,
            quota,
            temporary,
        } => answered(initialize(alloc, turns, *file, *sizes, *quota, *temporary)),
        Action::Uninitialise { file, truncate } => {
            flag(uninitialize(alloc, turns, *file, *truncate))
        }
        Action::CopyRead {
            file,
            at,
            len,
            wait,
        } => read(alloc, turns, *file, *at, *len, *wait),
        Action::CopyWrite { file, at, bytes } => write(alloc, turns, *file, *at, bytes),
        Action::Zero { file, span } => answered(zero_data(alloc, turns, *file, *span)),
        Action::Map { file, at, len, .. } => map(alloc, turns, names, *file, *at, *len),
        Action::PinRead {
            file,
            at,
            len,
            exclusive,
            ..
        } => pin(alloc, turns, names, *file, *at, *len, *exclusive),
        Action::PinMapped { word, exclusive } => pin_map(alloc, turns, names, *word, *exclusive),
        Action::PreparePin {
            file,
            at,
            len,
            zero,
            exclusive,
            ..
        } => prepare(alloc, turns, names, *file, *at, *len, *zero, *exclusive),
        Action::HeldRead { word, at, len } => held_read(alloc, turns, names, *word, *at, *len),
        Action::PinnedWrite { word, at, bytes } => {
            held_write(alloc, turns, names, *word, *at, bytes)
        }
        Action::SetDirty { word, lsn } => stamp(alloc, turns, names, *word, *lsn),
        Action::Unpin { word } => release(alloc, turns, names, *word),
        Action::Repin { word, .. } => hold_again(alloc, turns, names, *word),
        Action::UnpinRepinned { word, through } => {
            release_repinned(alloc, turns, names, *word, *through)
        }
        Action::MdlRead { file, at, len, .. } => chain(alloc, turns, names, *file, *at, *len),
        Action::MdlWrite { file, at, len, .. } => {
            write_chain(alloc, turns, names, *file, *at, *len)
        }
        Action::MdlBytes { word, at, len } => chain_read(alloc, turns, names, *word, *at, *len),
        Action::MdlStore { word, at, bytes } => chain_store(alloc, turns, names, *word, *at, bytes),
        Action::MdlDone { word } => chain_done(alloc, turns, names, *word),
        Action::MdlAbort { word } => chain_abort(alloc, turns, names, *word),
        Action::SetSizes {
            file,
            allocation,
            size,
        } => answered(set_file_sizes(alloc, turns, *file, *allocation, *size)),
        Action::Query(query) => replied(ask(alloc, turns, *query)),
        Action::Flush { file, span } => answered(flush(alloc, turns, *file, *span)),
        Action::Purge { file, span } => answered(purge(alloc, turns, *file, *span)),
        Action::Discard { file, span } => answered(discard(alloc, turns, *file, *span)),
        Action::NcRead { file, at, len } => read_noncached(alloc, turns, *file, *at, *len),
        Action::NcWrite { file, at, bytes } => write_noncached(alloc, turns, *file, *at, bytes),
        Action::Read {
            file,
            path,
            at,
            len,
        } => read_along(alloc, turns, *file, *path, *at, *len),
        Action::Write { file, at, bytes } => write_extending(alloc, turns, *file, *at, bytes),
        Action::Update { file, at, bytes } => update_logged(alloc, turns, *file, *at, bytes),
        Action::Lock {
            file,
            span,
            exclusive,
        } => lock(turns, *file, *span, *exclusive),
        Action::Unlock { file, id } => unlock(turns, *file, *id),
        Action::Levels { file } => levels(turns, *file),
        Action::Settle { file } => settle_stream(alloc, turns, *file),
        Action::Checkpoint { streams, handle } => {
            make_checkpoint(alloc, turns, *streams, *handle)
        }
        Action::SetLog { file, handle } => answered(set_log_handle(alloc, turns, *file, *handle)),
        Action::Append { handle, bytes } => append(alloc, turns, *handle, bytes),
        Action::LogFlush { handle, lsn } => answered(log_flush(turns, *handle, *lsn)),
        Action::SetGranularity { file, bytes } => {
            answered(set_granularity(alloc, turns, *file, *bytes))
        }
        Action::SetAttributes {
            file,
            no_read_ahead,
            no_write_behind,
        } => answered(set_attributes(alloc, turns, *file, *no_read_ahead, *no_write_behind)),
        Action::SetThreshold { file, pages } => {
            answered(set_threshold(alloc, turns, *file, *pages))
        }
        Action::Defer {
            file,
            bytes,
            retrying,
        } => defer_write(turns, *file, *bytes, *retrying),
        Action::Post => post_all(alloc, turns),
        Action::Tick => serve_tick(alloc, turns),
        // The lines of the queues, and those of `steps` alone, which are none of a run.
        Action::AskAhead { .. }
        | Action::AheadStep
        | Action::AsyncRead { .. }
        | Action::Complete
        | Action::NcReadPage { .. }
        | Action::NcStorePage { .. }
        | Action::NcWritePage { .. }
        | Action::Fill { .. }
        | Action::Drop { .. }
        | Action::WriteBegin { .. }
        | Action::WriteEnd { .. }
        | Action::Sync { .. }
        | Action::Scan => unreachable!(),
    }
}

/// The answer of a line whose call answers no value.
pub(crate) fn answered(ended: Result<(), CcError>) -> Answer
    ensures { result ≡ told_answer ended }
{
    match ended {
        Ok(()) => Answer::Given(Reply::Unit),
        Err(error) => Answer::Refused(error),
    }
}

// The answer of a line that makes a query.
fn replied(ended: Result<Reply, CcError>) -> Answer
    ensures { result ≡ reply_answer ended }
{
    match ended {
        Ok(reply) => Answer::Given(reply),
        Err(error) => Answer::Refused(error),
    }
}

// The answer of a line that asks for a flag.
fn flag(ended: Result<bool, CcError>) -> Answer
    ensures { result ≡ flag_told ended }
{
    match ended {
        Ok(flag) => Answer::Given(Reply::Value(Value::Flag(flag))),
        Err(error) => Answer::Refused(error),
    }
}

// A copied read, whose bytes are the answer.
fn read<T: Turns>(
    alloc: Global,
    turns: &mut T,
    file: FileId,
    at: u64,
    len: u64,
    wait: bool,
) -> Answer
    requires { CanCall (T.standing turns.old) file.stream }
    ensures answered { CallAnswered (T.standing turns.old).setup (T.standing turns.old).number
        (call.CopyRead file at len wait) result (T.standing turns.old).seen (T.standing turns.new).seen }
    ensures full { IsFullTold (T.standing turns.new) result }
    ensures goes_on { WentOn (T.standing turns.old) (T.standing turns.new) }
    ensures good { StaysGood (T.standing turns.old) (T.standing turns.new) }
{
    let Ok(mut out) = vec![in alloc; 0; len as usize] else {
        return Answer::Refused(CcError::NoMemory);
    };
    let Ok(room) = BytesRoom::new(alloc, out.len()) else {
        return Answer::Refused(CcError::NoMemory);
    };
    match copy_read(alloc, turns, file, at, wait, &mut out) {
        Ok(count) => Answer::Given(Reply::Read(room.keep(&out[..count]))),
        Err(error) => Answer::Refused(error),
    }
}

// A copied write.
fn write<T: Turns>(alloc: Global, turns: &mut T, file: FileId, at: u64, bytes: &Bytes) -> Answer
    requires { CanCall (T.standing turns.old) file.stream }
    ensures answered { CallAnswered (T.standing turns.old).setup (T.standing turns.old).number
        (call.CopyWrite file at bytes.now) result (T.standing turns.old).seen (T.standing turns.new).seen }
    ensures full { IsFullTold (T.standing turns.new) result }
    ensures goes_on { WentOn (T.standing turns.old) (T.standing turns.new) }
    ensures good { StaysGood (T.standing turns.old) (T.standing turns.new) }
{
    let Ok(piece) = bytes.to_vec(alloc) else {
        return Answer::Refused(CcError::NoMemory);
    };
    answered(copy_write(alloc, turns, file, at, &piece))
}

// An append to a log.
fn append<T: Turns>(alloc: Global, turns: &mut T, handle: u8, bytes: &Bytes) -> Answer
    requires { IsFree (T.standing turns.old) }
    ensures answered { AppendAnswered (T.standing turns.old).setup (T.standing turns.old).number handle bytes.now result
        (T.standing turns.old).seen (T.standing turns.new).seen }
    ensures full { IsFullTold (T.standing turns.new) result }
    ensures goes_on { WentOn (T.standing turns.old) (T.standing turns.new) }
    ensures good { StaysGood (T.standing turns.old) (T.standing turns.new) }
{
    let Ok(piece) = bytes.to_vec(alloc) else {
        return Answer::Refused(CcError::NoMemory);
    };
    match log_append(alloc, turns, handle, &piece) {
        Ok(lsn) => Answer::NewLsn(lsn),
        Err(error) => Answer::Refused(error),
    }
}
