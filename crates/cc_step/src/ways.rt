//! How an attempt at a call ends, and the ways in which a call goes on that waits for a page.

use cc_entry::{Call, CcError};

/// How an attempt at a call ended on its book.
#[derive(Drop)]
pub enum Attempt<T> {
    /// The call was done. Its entry, the journal's last, has the reply.
    Done,
    /// The call was refused. Its entry has the refusal too.
    Refused(CcError),
    /// There was no room in the journal (`JournalFull`) or no memory (`NoMemory`). The call left no entry.
    Stopped(CcError),
    /// The call goes on so, and is handed back.
    GoesOn(T),
}

/// How a call goes on that waits for a page.
#[derive(Drop)]
pub enum Way {
    /// A page of the block to give up went out.
    WentOut(Call),
    /// This page of the block to give up is dirty, and is to be written before.
    Writes(u64, Call),
    /// This page is to come in. One place is reserved for the entry of its read.
    Reads(u64, Call),
}
