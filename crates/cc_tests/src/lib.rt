//! Tests of public calls that no script makes: each on its happy path with ample memory, and what no clause can say.
//!
//! A clause can't forbid want of memory, so a body that always answers it is proved under any contract, and one
//! whose `requires` no journal meets is proved whatever it does; here most such calls are made once and the answer
//! compared. The expected values come from the formats, rules and definitions that docs/ states, none from the
//! program. The tests of a crate stand here so that the crate itself is proved once. Scripts that run whole are
//! tested in `cases`, and with them the calls that they make. Nothing stands on this crate.
#![tactic(auto)]

#[cfg(test)]
mod ahead;
#[cfg(test)]
mod board;
#[cfg(test)]
mod checkpoint;
#[cfg(test)]
mod deferrals;
#[cfg(test)]
mod desk;
#[cfg(test)]
mod devices;
#[cfg(test)]
mod files;
#[cfg(test)]
mod folder;
#[cfg(test)]
mod format;
#[cfg(test)]
mod lazy;
#[cfg(test)]
mod redo;
#[cfg(test)]
mod script;
#[cfg(test)]
mod text;
#[cfg(test)]
mod vacb;
#[cfg(test)]
mod values;
#[cfg(test)]
mod volume;
