//! Worked journals: runs of the cache written out entry by entry, each held against the definitions by computation.
//!
//! A right journal is legal, allowed and covered. A wrong one is the beginning of a right one and what
//! may not follow, mostly a single entry, and a law refuses it. So the definitions are seen to tell both
//! apart, in each subject. The functions do nothing; their contracts are the statements. The journals
//! stand in `specs`, oldest entry first; the stretches of `Pieces*` have the newest first, since each stands on a past.
//! Of a piece, `Leaves line told past piece` says that it stands in the relation of its line, and `CallDone` and
//! `CallFailed` that it stands in that of a call: a right one does, and no wrong one. `proofs/Opened` names all that
//! has to be unfolded to compute them. Below are the definitions of `cc_model`, `cc_effects`, `cc_journal` and
//! `cc_pieces`; nothing stands above this crate.
#![tactic(auto, unfolding(crate::proofs::Opened::opened))]

pub mod callers;
pub mod chains;
pub mod copies;
pub mod crashes;
pub mod discard_refusals;
pub mod discards;
pub mod faults;
pub mod flushes;
pub mod holds;
pub mod lazy_writer;
pub mod locks;
pub mod logs;
pub mod maps;
pub mod noncached;
pub mod pages;
pub mod pieces_answered;
pub mod pieces_async;
pub mod pieces_events;
pub mod pieces_flushes;
pub mod pieces_lines;
pub mod pieces_locks;
pub mod pieces_noncached;
pub mod pieces_reads;
pub mod pieces_records;
pub mod pieces_restarts;
pub mod pieces_runs;
pub mod pieces_shim;
pub mod pieces_without_entry;
pub mod pieces_writes;
pub mod pins;
pub mod read_ahead;
pub mod records;
pub mod refusals;
pub mod reopening;
pub mod room;
pub mod seen;
pub mod sizes;
pub mod stores;
pub mod throttle;
pub mod transfers;
pub mod untold;
pub mod views;
