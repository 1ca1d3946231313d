//! A script of steps: each line an event of the World, in the order of the lines.
//!
//! What the layer keeps true: pass 0 sets the streams up before all else, then each line happens at its place and nothing
//! else does, so that the journal and the answers explain each other; each word of a caller names the hold that its line
//! was answered; and each post routine that was handed in is kept here, or waits in the journal, until all come back in
//! their order.
//!
//! `run` takes all the memory that a run needs for its replies, names and routines, and gives all back; `openings` sets the
//! streams up, `lines` steps through the lines, `doing` says what a line is, `happening` lets one event happen, `names`
//! keeps what the callers' words name, `newest` the newest hold of each word, and `routines` the post routines. The program's call stands above (`cc_run`); below
//! are the World (`cc_world`), the script (`cc_script`), and how lines and events belong together (`cc_pieces`).
#![tactic(auto)]

mod doing;
mod happening;
mod lines;
mod names;
mod newest;
mod openings;
mod routines;
mod run;

pub use run::{StepsEnd, StepsRun, run_steps};
