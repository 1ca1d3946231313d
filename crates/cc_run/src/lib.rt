//! The run of a script, in either mode: the top call `cache_main`.
//!
//! One direction: the words of the command line, which say the mode, the script's bytes from a source, the script, the
//! run, the text, the exit status; or the words, a number, the script that is generated of it, its run, a summary.
//! Before a run its logs are restarted. In `run` the streams are opened on the desk of a run; then, phase after phase,
//! the callers make the calls of their lines and the two workers their ticks and read-ahead steps, on threads over a
//! board that is made of the desk and closed into it. In `steps` the lines are events of a World, one after the other.
//! Whatever is handed in and in whatever order the turns are taken, the journal that comes back is good, it explains
//! the answer of every line, each disk and each log holds what it says, each post routine was posted as it says, and
//! the text is that of journal and answers; each exit status has its cause. Want of memory after a run began loses
//! nothing of what happened.
//!
//! `top` has the call, `modes` what a script leaves that is run, in either mode, behind its restarts. `run` has a run,
//! `restarts`, `openings` and `phases` its parts, `lines` a phase on the desk, `threads` one on a board, `callers` what
//! the thread of a caller does, `workers` what those of the lazy writer and of the read-ahead worker, `ticks` and
//! `aheads` their work on either, `posts` what waits in the queue for each post routine and which are posted, `once`
//! that no post is told twice, `call_numbers` what the gate is told. `steps` has a script of steps. `devices` tests whether
//! there are enough disks, logs and post routines, `row` parts those that a run takes from the others, and `table` has the
//! table of the text. `laws` has what follows of how the program ended, and of what the records of its disks tell.
//!
//! It stands on the command (its words, the bytes of its script, the text that is put out), on the script, on the text,
//! on the calls, on the turns of one thread and on those that threads share, on the events of a script of steps, on the
//! traits of the outside, on what a journal means and on how it explains answers. The program stands on it.
#![tactic(auto)]

mod aheads;
mod call_numbers;
mod callers;
mod devices;
mod laws;
mod lines;
mod modes;
mod once;
mod openings;
mod phases;
mod posts;
mod restarts;
mod row;
mod run;
mod steps;
mod table;
mod threads;
mod ticks;
mod top;
mod workers;

pub use laws::{
    records_tell_what_was_there, runs_are_of_the_script, statuses_have_causes,
    stored_streams_open_as_spelled,
};
pub use top::{Ended, cache_main};
