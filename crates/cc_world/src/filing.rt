//! Under which stream a call is filed.

ghost use Rattle.std.specs.Prelude.{◌≡◌, ◌<◌, IfSome, List, length};
ghost use Rattle.cc_entry.specs.declared.entry.Entry.{Entry};
ghost use Rattle.cc_world.specs.Filing.{AreBooks, FilesUnder};
ghost use Rattle.cc_world.specs.Naming.{CallIsNamed};
ghost use Rattle.cc_effects.specs.Events.{holder_of};

use crate::rows::StreamRow;
use cc_entry::{Call, FileId, StreamId};

/// Under which stream a call is filed.
#[derive(Drop)]
pub(crate) enum Filing {
    /// Under this stream.
    Stream(StreamId),
    /// Under none: it is a query that the journal answers.
    Journal,
    /// It names a hold that is open in no stream.
    NoHold,
}

// What a call names.
#[derive(Drop)]
enum Named {
    File(FileId),
    Hold(u64),
    Nothing,
}

/// Under which stream a call is filed, by the books of all streams.
pub(crate) fn filing_of<D>(rows: &[StreamRow<D>], call: &Call) -> Filing
    ensures { (past : List Entry) → AreBooks past rows.now → FilesUnder (length rows.now) past call.now result }
{
    match named_by(call) {
        Named::File(file) => Filing::Stream(file.stream()),
        Named::Hold(hold) => match holder_of(rows, hold) {
            Some(stream) => Filing::Stream(stream),
            None => Filing::NoHold,
        },
        Named::Nothing => Filing::Journal,
    }
}

// What a call names: a file, or a hold, or nothing.
fn named_by(call: &Call) -> Named
    ensures { CallIsNamed call.now result }
{
    match call {
        Call::PinMapped { hold, .. }
        | Call::MappedRead { hold, .. }
        | Call::PinnedRead { hold, .. }
        | Call::PinnedWrite { hold, .. }
        | Call::SetDirty { hold, .. }
        | Call::EndHold { hold }
        | Call::Repin { hold }
        | Call::MdlBytes { hold, .. }
        | Call::MdlStore { hold, .. } => Named::Hold(*hold),
        Call::Query(query) => match query.file() {
            Some(file) => Named::File(file),
            None => Named::Nothing,
        },
        Call::AheadStep { request } => Named::File(request.file),
        Call::Initialise { file, .. }
        | Call::Uninitialise { file, .. }
        | Call::CopyRead { file, .. }
        | Call::CopyWrite { file, .. }
        | Call::Zero { file, .. }
        | Call::Map { file, .. }
        | Call::PinRead { file, .. }
        | Call::PreparePin { file, .. }
        | Call::MdlRead { file, .. }
        | Call::MdlWrite { file, .. }
        | Call::NcRead { file, .. }
        | Call::NcStore { file, .. }
        | Call::NcWrite { file, .. }
        | Call::SetSizes { file, .. }
        | Call::Flush { file, .. }
        | Call::Purge { file, .. }
        | Call::Discard { file, .. }
        | Call::SetLog { file, .. }
        | Call::SetGranularity { file, .. }
        | Call::SetAttributes { file, .. }
        | Call::SetThreshold { file, .. }
        | Call::AskAhead { file, .. } => Named::File(*file),
    }
}

// The first stream in which a hold is open.
fn holder_of<D>(rows: &[StreamRow<D>], hold: u64) -> Option<StreamId>
    ensures first { (past : List Entry) → AreBooks past rows.now → result ≡ holder_of past hold }
    ensures within { (past : List Entry) → AreBooks past rows.now →
        IfSome result (λ stream. stream < length rows.now) }
{
    for row in rows {
        if row.book.hold(hold).is_some() {
            return Some(row.book.stream());
        }
    }
    None
}
