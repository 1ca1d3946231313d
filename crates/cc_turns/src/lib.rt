//! Turns: how a pass comes by the disks, books, logs and journal of a run, and what it then knows of them; and the three
//! functions of a disk under its turn.
//!
//! What the layer keeps true: what a pass takes stands for all that the pass has seen of the journal, and what it
//! gives has to. While a turn is held others go on, but nowhere that needs it; so what is held goes on standing for
//! what is seen later. Only a take lets a pass see more. Turns are taken in this order: a stream's disk, a stream's
//! book, a log, the journal; at most one of each kind is held, and the last taken is given first. Of a disk that
//! is held, faults before the take count only so far as entries tell them: so at the give the count has risen since the
//! take by at least the failures that were placed since, and a fault that was swallowed stands for no later one. Of a log
//! none is swallowed: its count is always what it was at first and the failures that entries tell.
//!
//! A page is read from a disk, a page is transferred to it, and it is synced (`transfers`). A disk that tells what it
//! holds goes on standing for what the journal says of its stream (`DiskStands`): each page but the record page by the
//! stream's history, the record page by the writes of the record, of which there are none yet. What is read of a page that is not
//! resident is the plain file, below the valid data length; after a transfer the disk stands for the journal with the
//! transfer's begin and its end; and after a sync for the journal with the sync, so that a crash can then leave of a page
//! nothing but its image, where that is known and a crash could leave the page in one way at first. These functions take
//! no turn and know no book: they say of any past what the disk then stands for. Whoever has the turns of the disk, the
//! book and the journal chooses the page and places the entries.
//!
//! `turns` has the trait that every call of the cache is written over, `held` a disk under its turn,
//! `desk` the turns of one thread, over which nobody else goes on, `places` how its disks and logs move out into places
//! and back, `slots` how it comes apart into slots, one for each turn, and is put together again. The calls stand
//! above, and so do the turns that threads share, the writing of pages and the World. Below are what is taken: the book
//! of a stream (`cc_book`), a log (`cc_log`), the journal (`cc_journal`), and the disks of `cc_traits`. Of the lemmas,
//! `Keeping` has what those above need for the other entries that they place during a transfer, `OpenTransfers` the
//! same for a transfer that is under way, `Rooms` what entries of transfers and logs reserve, and `Handles` that the
//! log of a stream is one of the setup's.
#![tactic(auto)]

mod desk;
mod held;
mod places;
mod slots;
mod transfers;
mod turns;

pub use desk::Desk;
pub use held::{AtTake, HeldDisk};
pub use slots::{Apart, Emptied, Place};
pub use transfers::{read, sync, transfer};
pub use turns::Turns;
