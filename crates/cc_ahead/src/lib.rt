//! What the cache keeps of the private maps of one stream: each object's granularity and its last two reads.
//!
//! What the layer keeps true: after each entry of the journal an object's granularity and its last two
//! copied reads are what the stream's history says. So whether those reads lead up to a place, and the
//! read-ahead that a read leads to, are known in a step, where the definitions go over the whole history. It
//! takes no memory and refuses nothing.
//!
//! The book of a stream stands above; below are the values of `cc_entry`, the definitions of `cc_model`, and what is
//! kept of the stream (`cc_stream`), which has the open objects, the size and whether read-ahead is off: whoever
//! follows a call or asks for a read-ahead says them.
#![tactic(auto)]

mod map;
mod maps;

pub use maps::PrivateMaps;
