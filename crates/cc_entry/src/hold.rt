//! What an open hold and a deferred write are, as the layers keep them.

use crate::place::{FileId, Span};

/// What a hold may be used for.
#[derive(Clone, Copy)]
pub enum HoldKind {
    /// A mapped range (`CcMapData`): it is read.
    Map,
    /// A pinned range (`CcPinRead`, `CcPreparePinWrite`): it is read, written and stamped.
    Pin,
    /// A second reference to a pinned range (`CcRepinBcb`): it keeps the pages.
    Repin,
    /// A descriptor chain for reading (`CcMdlRead`).
    ReadChain,
    /// A descriptor chain for writing (`CcPrepareMdlWrite`).
    WriteChain,
}

/// An open hold: a range of `len` bytes of the file object's stream from `at` on.
#[derive(Clone, Copy)]
pub struct HoldRow {
    pub id: u64,
    pub file: FileId,
    pub at: u64,
    pub len: u64,
    pub kind: HoldKind,
    /// Whether no other pin may share a page with it.
    pub exclusive: bool,
    /// The span that the pinned writes since the last set-dirty cover.
    pub written: Option<Span>,
}

/// A deferred write in the throttle's queue.
#[derive(Clone, Copy)]
pub struct Deferral {
    pub id: u64,
    pub file: FileId,
    /// How many pages the write would make dirty.
    pub pages: u64,
}
