//! What calls are answered of which no disk and no log failed: their replies, or the refusals of the table.
//!
//! Each law is the contract of a function without a body, over the clauses of a run that say that no failure is shown or told.
#![tactic(auto)]

mod laws;

pub use laws::{calls_without_faults_answer_by_the_table, runs_without_faults_answer_by_the_table};
