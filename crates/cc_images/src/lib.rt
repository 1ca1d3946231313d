//! The images of one stream's pages: for which of them a discard must be refused.
//!
//! A discard lets go what is not yet written, so the disk has to know each dirty page of its span (the last
//! transfer that ended did not fail), and none of their bytes may have become valid since the disk took the
//! page. What the layer keeps true: after each entry of the journal it holds the pages whose image is not known,
//! and of each page that has grown the first byte that the disk never held. A page that is not dirty has not
//! grown, so a mapped stream has no more of them than its quota has pages; room for so many is taken before the
//! map is made. Only that, and the begin of a transfer, take memory.
//!
//! `images` has the whole, `grown` the pages that have grown, `room` the room for them, `page_set` a set of pages as
//! ranges (`page_range`), as which those are kept whose image is not known, and `unknown` the dirty ones among them.
//! The refusal of a call (`cc_refusal`) and the book of a stream stand above; below are the dirty page table
//! (`cc_dirty`), what an entry does to a stream (`cc_events`), the values of `cc_entry`, and the definitions of
//! `cc_model` with their lemmas in `cc_laws`.
#![tactic(auto)]

mod grown;
mod images;
mod page_range;
mod page_set;
mod room;
mod unknown;

pub use images::Images;
pub use room::Room;
