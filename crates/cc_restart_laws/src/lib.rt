//! A run that is stopped, and then a restart: what the stream is then.
//!
//! The functions have no body, and their contracts are laws. They join what a journal says of a stream that changes by logged
//! updates alone, of its disk and of its log to what a restart makes of them (`cc_redo`).
#![tactic(auto)]

mod laws;

pub use laws::{
    kept_updates_are_the_first, logs_keep_what_is_durable, records_tell_what_may_be_given,
    restarted_runs_are_redone, restarts_make_the_file, stopped_runs_are_redone,
};
