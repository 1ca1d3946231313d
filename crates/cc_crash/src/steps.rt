//! What an entry is to the contents that a crash may leave of a page.

ghost use Rattle.std.specs.Prelude.{◌≡◌, ◌&&◌, nat_eq};
ghost use Rattle.std.specs.Option.{option_copied};
ghost use Rattle.cc_crash.specs.DiskPages.{call_of, step_of};
ghost use Rattle.cc_model.specs.History.{effect_of};
ghost use Rattle.cc_model.specs.Sizes.{ended_ok};

use cc_entry::{Call, End, Entry, Outcome, PageId, StreamId};

/// What an entry is to the contents that a crash may leave of a page.
#[derive(Clone, Copy)]
pub(crate) enum Step {
    /// Nothing.
    Rests,
    /// A transfer of the page begins.
    Begins,
    /// A transfer of the page ends, ok or not.
    Ends { ok: bool },
    /// The page's disk was synced.
    Syncs,
}

/// The call that an entry of the stream says was done.
pub(crate) fn done_call(entry: &Entry, stream: StreamId) -> Option<&Call>
    ensures { option_copied result ≡ call_of (effect_of entry.now stream) }
{
    match entry {
        Entry::Call {
            stream: Some(of),
            call,
            outcome: Outcome::Done(_),
            ..
        } => {
            if of.number() == stream.number() {
                Some(call)
            } else {
                None
            }
        }
        Entry::Call { .. }
        | Entry::PageIn { .. }
        | Entry::PageOut { .. }
        | Entry::FillFailed { .. }
        | Entry::WriteBegin { .. }
        | Entry::WriteEnd { .. }
        | Entry::Sync { .. }
        | Entry::Append { .. }
        | Entry::Flushed { .. }
        | Entry::LogFailed { .. }
        | Entry::Defer { .. }
        | Entry::Posted { .. }
        | Entry::Scan { .. }
        | Entry::Record { .. }
        | Entry::RecordFailed { .. }
        | Entry::Locked { .. }
        | Entry::Unlocked { .. }
        | Entry::Tested { .. } => None,
    }
}

/// What an entry is to the contents that a crash may leave of the page.
pub(crate) fn step_of(entry: &Entry, page: PageId) -> Step
    ensures { result ≡ step_of (effect_of entry.now page.stream) page.page }
{
    match entry {
        Entry::WriteBegin { page: begun, .. } => {
            if is_same(*begun, page) {
                Step::Begins
            } else {
                Step::Rests
            }
        }
        Entry::WriteEnd {
            page: ended,
            how,
            ..
        } => {
            if is_same(*ended, page) {
                Step::Ends { ok: is_ok(*how) }
            } else {
                Step::Rests
            }
        }
        Entry::Sync { stream, how, .. } => {
            if is_good_sync(*stream, *how, page) {
                Step::Syncs
            } else {
                Step::Rests
            }
        }
        Entry::Call { .. }
        | Entry::PageIn { .. }
        | Entry::PageOut { .. }
        | Entry::FillFailed { .. }
        | Entry::Append { .. }
        | Entry::Flushed { .. }
        | Entry::LogFailed { .. }
        | Entry::Defer { .. }
        | Entry::Posted { .. }
        | Entry::Scan { .. }
        | Entry::Record { .. }
        | Entry::RecordFailed { .. }
        | Entry::Locked { .. }
        | Entry::Unlocked { .. }
        | Entry::Tested { .. } => Step::Rests,
    }
}

// Whether two pages are the same page of the same stream.
fn is_same(one: PageId, other: PageId) -> bool
    ensures { result ≡ (nat_eq one.stream other.stream && nat_eq one.page other.page) }
{
    one.stream().number() == other.stream().number() && one.page() == other.page()
}

// Whether a sync of a stream's disk that ended so is a good one of the page's disk.
fn is_good_sync(stream: StreamId, how: End, page: PageId) -> bool
    ensures { result ≡ (nat_eq stream page.stream && ended_ok how) }
{
    stream.number() == page.stream().number() && is_ok(how)
}

// Whether a transfer or a sync ended ok.
fn is_ok(how: End) -> bool
    ensures { result ≡ ended_ok how }
{
    match how {
        End::Good => true,
        End::Failed | End::NoMemory => false,
    }
}
