//! What a refusal is decided from: numbers and rows that the book and the journal keep.

use cc_dirty::Row;
use cc_entry::StreamId;
use cc_holds::OpenHolds;
use cc_images::Images;
use cc_stream::StreamState;

/// What a refusal is decided from: the call's stream, its state, its valid data length, whether it has a shared
/// map, its open holds, the images of its pages, the dirty pages of all streams, and the number of logs.
#[derive(Clone, Copy)]
pub struct Known<'a> {
    pub stream: StreamId,
    pub state: &'a StreamState,
    pub valid: u64,
    pub mapped: bool,
    pub holds: &'a OpenHolds,
    pub images: &'a Images,
    pub dirty: &'a [Row],
    pub logs: u8,
}
