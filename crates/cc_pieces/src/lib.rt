//! How the journal of a run explains what the lines of its script were answered.
//!
//! Each line makes one call, or several of which each depends on the answers before it. What they left, from
//! the moment in which the line began to that in which it was answered, is the line's piece. The pieces of a
//! caller follow each other in the order of its lines; a word of a line that names a hold is bound by what the
//! caller's earlier lines were answered; phases follow each other; and nothing else in the journal is the
//! caller's. Here is also the table of the pages that are dirty at the end. All of it is definitions, in specs/,
//! which `specs/Lib.antt` lists in the order in which they build on each other; the functions have no body, and
//! their contracts are laws.
//!
//! `Steps`, `Events` and `Moments` say the same of a script of `steps`, whose lines are events.
//!
//! What one call or one event leaves is told by `cc_effects`, on which this crate stands, beside the script and the text;
//! the runs stand above it.
#![tactic(auto)]

mod laws;

pub use laws::{
    conflicts_are_tested, lines_without_hold_leave_nothing, no_record_is_written_before_its_line,
    noncached_reads_answer_the_plain_file, one_more_piece, others_go_on, pieces_stay_explained,
    queued_reads_answer_the_plain_file, reads_answer_the_plain_file,
    uninitialise_tells_whether_the_map_went, words_name_holds,
};
