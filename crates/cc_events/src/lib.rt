//! Events: what an entry of the journal does to one stream.
//!
//! An entry is one event of a stream: it opens or closes a map, sets or raises sizes, touches, cuts, begins or
//! ends pages, makes or ends a hold, or leaves the stream as it was. Each definition of a stream that goes over
//! sizes, pages and holds steps by events; the lemmas of `proofs` say how, once for each definition.
//!
//! Below are the values of `cc_entry`, the definitions of `cc_model` and the lemmas of `cc_laws`; above stand
//! whatever keeps a part of a stream up to date, and the readers of `cc_readers`.
#![tactic(auto)]

mod event;
mod holding;
mod touching;

pub use event::{StreamEvent, act, event_on};
pub use holding::{Holding, holding_by, holding_on, id_in};
pub use touching::{Touching, cut_at, range_has, span_has, stored_end, touch};
