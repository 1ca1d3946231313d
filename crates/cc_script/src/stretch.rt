//! The hold that a line makes: the bytes of a file, and the word that it binds.

use crate::hold_word::HoldWord;
use cc_entry::FileId;

/// So many bytes of a file, from a place on, under a word.
#[derive(Clone, Copy)]
pub(crate) struct Stretch {
    pub(crate) file: FileId,
    pub(crate) at: u64,
    pub(crate) len: u64,
    pub(crate) word: HoldWord,
}
