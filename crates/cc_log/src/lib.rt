//! A log under its turn: appends, flushes, and the floor that both raise.
//!
//! What the layer keeps true: a log's floor and the LSN that it is flushed to are what the journal says, its
//! file has the journal's appends in their order behind the entries that it began with, and it is durable
//! at least up to what was flushed. So whoever places `Flushed` in the journal knows that the log is durable up to there.
//!
//! It stands on the values, the traits of what is outside and the definitions; it knows no journal, and says
//! of any past what it then stands for. The calls that append, flush and write logged pages stand above it.
#![tactic(auto)]

mod turn;

pub use turn::LogTurn;
