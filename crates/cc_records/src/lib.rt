//! The record of a stream: which pages are on the disk behind it, and what the calls on it leave in the journal.
//!
//! Each law is the contract of a function without a body. They say that a page with a byte that became valid since the
//! stream was first initialised is dirty or stored, and what a flush makes of such pages while no page of the stream comes
//! in: then the lesser of the valid data length before the flush and the one behind it may be told. And whatever a crash
//! leaves, each byte below what the record then tells is one that the plain file had there.
#![tactic(auto)]

pub mod laws;
