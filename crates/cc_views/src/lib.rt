//! The mapped view blocks of a stream in order of use, each with the frames of its pages.
//!
//! At most as many blocks are mapped as the quota of the stream. Kept true: the view index has an
//! entry for exactly the mapped blocks, so a look-up of a block that is not mapped ends at the index.
//! The resident pages (`cc_resident`) stand above; below are the view index (`cc_vacb`), the frames
//! (`cc_pages`) and a map that keeps an order (`indexmap`).
#![tactic(auto)]

mod views;

pub use views::Views;
