//! The laws of the definitions: what follows from what a journal means.
//!
//! The functions of this crate have no body and carry its theorems: each is a law of the definitions of
//! `cc_model`, with the law as its contract. They say the recursions again by places in a journal
//! (`by_places`), what an entry changes and what it leaves (`laws`, `discards`), and what holds at every place
//! of a good journal (`soundness`, `limits`, `durability`).
//!
//! It stands on `cc_entry` and `cc_model`. The crates that keep a part of a journal take from here what
//! they need not keep themselves, and cite the lemmas of proofs/.
#![tactic(auto)]

pub mod by_places;
pub mod discards;
pub mod durability;
pub mod laws;
pub mod limits;
pub mod soundness;
