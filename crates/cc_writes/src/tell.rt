//! What a caller is told of a reply.

ghost use Rattle.std.specs.Prelude.{◌≡◌, ◌≤◌, take, drop, length};
ghost use Rattle.std.specs.Option.{option_copied};
ghost use Rattle.cc_writes.specs.Told.{FitsLast, FitsReply, ToldLast, reply_of};
ghost use Rattle.cc_writes.specs.Ways.{IsTold};

use cc_entry::{Bytes, Entry, Outcome, Reply, Value};
use cc_journal::Journal;

/// What a call that was done returns to its caller.
#[derive(Clone, Copy)]
pub enum Returned {
    /// So many bytes, which stand in the front of what the caller handed in.
    Bytes(usize),
    /// The id of a hold.
    Hold(u64),
    /// What was found: of an uninitialise, whether the shared map went; of a read-ahead step, whether its pages are there.
    Value(Value),
    /// Nothing more.
    Nothing,
}

/// Tells the journal's last reply: its bytes are copied into the front of `out`.
pub fn tell_last<Q>(journal: &Journal<Q>, out: &mut [u8]) -> Returned
    requires fits { FitsLast journal.now.entries out.old }
    ensures { ToldLast journal.now.entries result out.old out.new }
{
    match journal.last() {
        Some(entry) => match reply_of(entry) {
            Some(reply) => told(reply, out),
            None => Returned::Nothing,
        },
        None => Returned::Nothing,
    }
}

// The reply of an entry whose call was done.
fn reply_of(entry: &Entry) -> Option<&Reply>
    ensures { option_copied result ≡ reply_of entry.now }
{
    match entry {
        Entry::Call {
            outcome: Outcome::Done(reply),
            ..
        } => Some(reply),
        _ => None,
    }
}

// Tells a reply.
fn told(reply: &Reply, out: &mut [u8]) -> Returned
    requires fits { FitsReply reply.now out.old }
    ensures { IsTold reply.now result out.old out.new }
{
    match reply {
        Reply::Read(bytes) => Returned::Bytes(copy(bytes, out)),
        Reply::Hold(id) => Returned::Hold(*id),
        Reply::Value(found) => Returned::Value(*found),
        Reply::Whole(whole) => Returned::Value(Value::Flag(*whole)),
        _ => Returned::Nothing,
    }
}

// Copies bytes into the front of a slice, and says how many they are.
fn copy(bytes: &Bytes, out: &mut [u8]) -> usize
    requires { length bytes.now ≤ length out.old }
    ensures count { result ≡ length bytes.now }
    ensures front { take result out.new ≡ bytes.now }
    ensures rest { drop result out.new ≡ drop result out.old }
{
    bytes.copy_to(out);
    bytes.len() as usize
}
