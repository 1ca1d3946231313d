//! Calls of the program that are stopped, and those behind them, which restart its log; and a run that met no fault.
//!
//! The bodies do nothing, or call other laws, and the contracts are laws on the clauses of the program's call
//! (`cache_main` of `cc_run`): of those that say what a run leaves (`good`, `explained`, `disks`, `logs`) and of the one
//! that says with what the next begins (`restarted`).
#![tactic(auto)]

mod complete;
mod laws;
mod scripts;

pub use complete::runs_without_faults_are_complete;
pub use laws::{
    any_number_of_stops_is_redone, flushed_updates_are_redone, restarted_runs_go_on,
    stopped_restarts_are_redone_by_the_next, stopped_runs_are_redone_by_the_next,
};
pub use scripts::{
    refused_restarts_leave_the_stream, scripts_of_stopped_calls_are_redone,
    scripts_of_updates_are_redone,
};
