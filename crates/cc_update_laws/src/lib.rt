//! What updates and checkpoints of the shim leave of a journal is what a restart asks of it.
//!
//! The functions have no body, and their contracts are laws. They join what the shim's calls leave (`cc_pieces`) and what a run
//! leaves of its devices (`cc_turns`, `cc_log`) to what is asked of a journal from which a run is redone (`cc_restart_laws`).
#![tactic(auto)]

mod laws;

pub use laws::{
    answered_updates_are_set_dirty, checkpoints_keep_the_form, each_kept_update_is_applied,
    kept_forms_are_the_journals, left_devices_are_redone, restarts_begin_the_next_run,
    runs_go_on_with_their_logs, updates_keep_the_form,
};
