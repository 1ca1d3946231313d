//! What a call answers.

use crate::bytes::Bytes;
use crate::error::CcError;
use crate::lists::Rows;
use crate::place::Request;
use crate::query::Value;

/// What a call that is done answers.
#[derive(Drop)]
pub enum Reply {
    Unit,
    /// The bytes that were read.
    Read(Bytes),
    /// The id of the hold.
    Hold(u64),
    /// What it found.
    Value(Value),
    /// The dirty page table of a log.
    Rows(Rows),
    /// The read-ahead that was asked for, where there is one.
    Ahead(Option<Request>),
    /// Of a read-ahead step: whether every page of the request, cut at the size, is resident.
    Whole(bool),
}

/// How a call ended.
#[derive(Drop)]
pub enum Outcome {
    Done(Reply),
    Failed(CcError),
}
