//! The restarts of a script's logs, before its run: the streams that are stored are redone on their disks from their logs.
//!
//! What the crate keeps true: each log is restarted once for each line that names it, in the order of the lines, with the stored
//! streams that have it and with the numbers of their records; how each ended is kept, by its own cause; the logs tell what they
//! told, no count of faults falls, and a disk of no stream that is restarted is as it was.
//!
//! `given` finds the streams that are given to the restart of a log, `logs` restarts the logs, and `ended` has how each
//! ended. `laws` says what follows of all restarts of a script. The crate stands on the restart itself (`cc_redo`) and on
//! scripts (`cc_script`): it knows no cache, no journal and no turns.
#![tactic(auto)]

mod ended;
mod given;
mod laws;
mod logs;

pub use ended::{LogRestart, Numbers};
pub use laws::{
    restarts_are_counted, restarts_have_refusals_of_their_own,
    restarts_keep_what_they_are_not_given,
};
pub use logs::restart_script;
