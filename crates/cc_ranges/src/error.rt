//! Why a noncached call failed, and how far it came.

use cc_entry::CcError;
use thiserror::Error;

/// A noncached call was refused, or failed, behind so many pages that it finished.
#[derive(Clone, Copy, Debug, Error)]
#[error("{cause}, after {done} finished pages")]
pub struct NcError {
    /// How many pages were read, or written, before.
    pub done: u32,
    pub cause: CcError,
}
