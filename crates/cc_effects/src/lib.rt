//! What one call of one pass leaves in the journal between two moments, and what one event of the World leaves.
//!
//! A moment is the past that the journal was then; others' entries stand between two of them too. For each
//! call and each answer that it may give, the definitions in specs/ say which entries of its pass stand in
//! the stretch: which pages it may bring in, write and take out on the way and why, at most one sync, and
//! how it ends: with its own entry, done or refused, behind the fault that it tells; or without one. What
//! explains a call between two moments explains it in every longer stretch. `specs/Lib.antt` lists the
//! definitions in the order in which they build on each other; the functions have no body, and their
//! contracts are laws.
//!
//! `events` has the events of the World and their replies, and `Events` of specs/ when one may happen, what it asks and
//! what it places. The World (`cc_world`) and what explains a script of `steps` (`cc_pieces`) both stand on them.
//!
//! It stands on `cc_entry`, `cc_model` and the post routines of `cc_traits`. The clauses of every call, and `cc_pieces`,
//! which ties calls and events to the lines of a script, speak in its words.
#![tactic(auto)]

mod events;
mod laws;

pub use events::{Event, StepReply};
pub use laws::{
    begins_stay_ascending, calls_stay_explained, entries_may_stand_where_they_do,
    entries_stand_after_what_was_seen, faults_are_shown, log_calls_stay_explained,
    noncached_calls_stay_explained, outcomes_are_as_defined, own_entries_are_licensed,
    page_writes_stay_explained, repins_stay_explained, steps_and_levels_stay_explained,
    throttle_stays_explained,
};
