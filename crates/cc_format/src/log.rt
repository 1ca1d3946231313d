//! What the records of a log say that a restart reads, beside the bytes of an update.

/// A row of a checkpoint: a dirty page of a stream, and the least LSN of what the stream's disk lacks of it.
#[derive(Clone, Copy, Debug, PartialEq, Eq)]
pub struct OldestRow {
    pub stream: u8,
    pub page: u64,
    pub oldest: u64,
}
