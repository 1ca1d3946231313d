//! What a call that was refused changes: nothing, of files and of what is held and set for them.
//!
//! Each law is the contract of a function without a body, over what the definitions say of a journal and what a call leaves there. The
//! entry of a refused call changes nothing; what its pass placed before that changes no file; so what is other behind the call, others
//! changed. The calls that change something though they are refused are excepted by name, and what they change is said.
#![tactic(auto)]

mod laws;

pub use laws::{
    end_of_a_hold_is_the_rest_of_a_refused_unpin, files_stay_where_nobody_changes_them,
    refused_calls_change_no_file, refused_entries_change_nothing, refused_events_change_nothing,
    refused_locks_change_nothing, refused_noncached_calls_change_no_file,
    refused_others_change_no_file, refused_record_calls_change_no_file, steps_change_no_file,
    without_faults_the_table_refuses,
};
