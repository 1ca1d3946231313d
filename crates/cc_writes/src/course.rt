//! The course of a call: it has ended, or it goes on.

use crate::Returned;
use cc_entry::CcError;

/// How a call stands after a part of it.
#[derive(Drop)]
pub enum Course<T> {
    /// It was done, and returns this to its caller, or it failed.
    Ended(Result<Returned, CcError>),
    /// It goes on so, and is handed back.
    GoesOn(T),
}
