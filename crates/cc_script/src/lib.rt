//! The script: what the program is asked to do, read from the bytes of a file.
//!
//! The grammar is a definition in specs/: bytes as lines, a line as words, and a table by cases over the
//! verbs, with the modes that each stands in: a script is calls of callers, or events in their order.
//! `read_script` answers exactly the script that the bytes spell, else the number of the first line that is not
//! in the grammar, or want of memory. What it answers keeps within the ranges that a run relies on, and has the
//! actions of its mode alone, so that the run needs no test of its script: a word that names a hold is looked up
//! once, as it is read, and stands for its number from then on. Laws of the grammar in words of their own, as
//! that a number's word is its decimal text, are clauses of functions without a body.
//!
//! It stands on `cc_entry`, for the values of the words, on `indexmap`, by which a word that names a hold is found, and
//! on `thiserror`, for the text of its fault; the text, the pieces and the runs stand on it.
#![tactic(auto)]

mod action;
mod bound;
mod byte_word;
mod caller_words;
mod event_action;
mod fault;
mod file_word;
mod generator;
mod hold_action;
mod hold_word;
mod laws;
mod name;
mod part;
mod path_word;
mod phase_lines;
mod query_action;
mod read;
mod reading;
mod script;
mod shim_action;
mod slot;
mod stretch;
mod verb;
mod word;

pub use bound::{Bound, Need};
pub use generator::generate;
pub use hold_word::HoldWord;
pub use laws::{
    lines_join, lines_spell, numbers_are_decimal, paths_differ, scripts_are_within, verbs_differ,
    words_go_on, words_spell,
};
pub use name::Name;
pub use read::read_script;
pub use script::{
    Action, ActionLine, ActionLines, Mode, ReadPath, RestartLine, RestartLines, Script,
    ScriptFault, StreamLine, StreamLines,
};
