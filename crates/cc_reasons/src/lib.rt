//! Reasons for a refusal, tested once: those that lie in the arguments of a call and in the numbers that it meets.
//!
//! What the layer keeps true: each function is one definition of `cc_model`, for every call. The sizes, the logs and
//! the valid data length come as numbers, so the crate knows neither a journal nor what is kept of one.
//!
//! Above stand `cc_refusal`, which decides a refusal from what is kept, and `cc_readers`, which reads it off a journal.
//! Below are the values of `cc_entry` and the definitions of `cc_model`.
#![tactic(auto)]

mod arguments;
mod first;
mod sizes;

pub use arguments::{by_granularity, by_length, by_log, by_view, cached_file};
pub use first::{first_in, refuse};
pub use sizes::{are_allocated, breaks_rules, by_size, by_valid};
