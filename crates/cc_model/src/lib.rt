//! What a journal means.
//!
//! A journal is the list of what happened in a cache: calls that ended, pages that came in and went out,
//! transfers, syncs, log entries, deferred writes. It is no write-ahead log. The definitions in specs/ say
//! what a journal means for each stream (its sizes, bytes, holds, resident and dirty pages, what its disk
//! holds and what a crash may leave) and when a journal is good: legal, allowed and covered.
//! `specs/Lib.antt` lists them in the order in which they build on each other.
//!
//! This crate has definitions alone and no code. It stands on `cc_entry`, for the values. `cc_laws` proves
//! what follows from the definitions, `cc_readers` computes many of them, `cc_worked` tries them on runs written
//! out, and every crate that keeps or explains a part of a journal stands on it.
#![tactic(auto)]
