//! The board: the turns of one run, shared by the passes of many threads.
//!
//! What the layer keeps true: there is one past, the journal; what is at home stands for it; what is out stands for it
//! as its holder's view says, and no other pass has placed an entry that changes it since. An entry is placed by the one
//! step that gives the journal back. `rule` has what a pass knows, the rule, and what each step tells; `board` the board
//! and its passes, which are split from pass 0 and joined to it again; `steps` how a pass takes a turn and gives it back,
//! `seated` the turns of a pass. The calls stand above, over the turns of a pass here or of a desk. Below are the desk
//! (`cc_turns`), which a board is made from and closed into, and the kit's table of single steps (`atomic_table`) that
//! all of it is built on.
#![tactic(auto)]

mod board;
mod rule;
mod seated;
mod steps;

pub use board::{Board, FirstPass, Pass, StillOut};
pub use rule::{BoardRule, Key, Slot, View};
pub use seated::{SeatAtTake, Seated};
