//! The refusal of a call, decided from what is kept of its stream and of the journal.
//!
//! What the layer keeps true: the refusal is the first of the definition's reasons that holds, in their order,
//! wherever what is kept stands for the history. So no call repeats it: a call that is not refused here may be
//! done, as far as the disks, the logs, the journal's room and memory let it.
//!
//! The calls of the cache stand above. Below are what is kept of a stream (`cc_stream`), of its open holds (`cc_holds`)
//! and of the images of its pages (`cc_images`), the rows of the dirty page table (`cc_dirty`), the reasons that lie in
//! the arguments of a call (`cc_reasons`), the values of `cc_entry`, the definitions of `cc_model` and how they step
//! (`cc_laws`). What else the pages of a stream and the journal have to say comes as numbers, so that the crate stands
//! on neither. Only the count of view blocks takes memory.
#![tactic(auto)]

mod ahead;
mod conflicts;
mod disk;
mod known;
mod maps;
mod refusals;
mod views;

pub use ahead::is_whole;
pub use known::Known;
pub use refusals::refusal;
