//! What the program is asked, and what it takes and gives: the words of its command line, the bytes of its script, the text that it puts
//! out, and what it says where it makes no run.
//!
//! Whatever source and sink are handed in, and whatever the words are: a command is told exactly where the words are one; the bytes are
//! all of the source's, up to its end, or no more than a script may have and why; the text is put whole, or a first part of it and why.
//!
//! `words` says which command the words are, `command_line` has clap read them, `intake` takes the script's bytes, `output` puts the
//! text, and `no_run` has why no run was made.
//!
//! It stands on the traits of the outside and on the script's modes. The top call (`cc_run`) stands on it.
#![tactic(auto)]

mod command_line;
mod intake;
mod no_run;
mod output;
mod words;

pub use intake::{IntakeError, take_all};
pub use no_run::{NoRun, syntax_text};
pub use output::{OutputError, put_all};
pub use words::{Command, read_words};
