//! The open holds of one pass, while others go on.
//!
//! A hold is changed and ended by its own pass alone, and a new one has an id that none had before. So what a
//! pass knows of its hold stays so until it does something to it itself: others' entries, its own reads and
//! what its calls bring in, write and take out leave the hold as it was. `specs/Own` says what it is to have a
//! hold and what a done call makes of it; the functions have no body, and their contracts are laws.
//!
//! It stands on `cc_entry`, `cc_model`, `cc_laws` and `cc_effects`. Layers that follow one pass through its
//! calls read `proofs/OwnHolds` (stretches of the journal), `proofs/CallsKeep` (whole calls),
//! `proofs/VerbsKeep` (what else a pass may ask, none of which changes a hold) and `proofs/HeldPages` (the bytes
//! of a hold).
#![tactic(auto)]

mod laws;

pub use laws::{
    calls_leave_holds, filed_calls_stay_filed, held_bytes_are_there, holds_stay_own, ids_are_apart,
};
