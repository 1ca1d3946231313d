//! What a device or a log failed to do.

/// What a device or a log failed to do.
#[derive(Clone, Copy)]
pub(crate) enum Fault {
    /// To read the page of this number.
    Read(u64),
    /// To write the page of this number.
    Write(u64),
    /// To sync.
    Sync,
    /// To append to the log of this handle, or to flush it.
    Log(u8),
}
