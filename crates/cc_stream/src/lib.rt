//! What the cache keeps of one stream beside its pages and its holds.
//!
//! What the layer keeps true: after each entry of the journal a stream's state is what its history says. So
//! its open objects, its size and allocation, its quota, its marks, its log and its limit are read in a step,
//! where the definitions go over the whole history. It takes no memory and refuses nothing.
//!
//! The journal and the book of a stream stand above; below are the values of `cc_entry`, the definitions of
//! `cc_model` and how they step (`cc_laws`, `cc_events`). Whether a stream has a shared map hangs on its dirty
//! pages, which are kept elsewhere, so whoever follows a call says it.
#![tactic(auto)]

mod stream;

pub use stream::StreamState;
