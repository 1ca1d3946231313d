//! What the lines of a script say of a stream that changes by logged updates alone.
//!
//! The functions have no body, and their contracts are laws. They derive from the clause that explains a run's journal by its
//! script and its answers (`IsExplained` of `cc_pieces`) what the laws on stopped runs ask of that journal (`cc_stop_laws`).
#![tactic(auto)]

mod laws;

pub use laws::{
    records_tell_what_was_valid, refused_restarts_open_no_stream, scripts_of_updates_keep_the_form,
    streams_open_with_their_numbers,
};
