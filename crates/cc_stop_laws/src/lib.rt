//! A run that is stopped, and the next run, which restarts its log: what the stream is then.
//!
//! The functions have no body, and their contracts are laws. They join what a run leaves of its devices, and what the restarts of
//! a script make (`cc_restarts`), to what is proved of a journal whose streams change by logged updates (`cc_restart_laws`).
#![tactic(auto)]

mod laws;
mod worked;

pub use laws::{
    made_files_begin_the_next_run, restarts_redo_what_is_left, unopened_streams_are_left_alone,
    what_a_run_leaves_can_be_redone,
};
pub use worked::{a_checkpoint_syncs_its_streams, a_worked_run_is_stopped};
