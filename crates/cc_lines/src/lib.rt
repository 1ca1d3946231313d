//! The call of one line of a script, over any turns.
//!
//! What the layer keeps true: a line's action is served by the one call of it, between the gate's `before` and `after`,
//! and what the call leaves explains the line's answer, over what the caller's words name. What is kept of those words goes
//! on standing for what the caller was answered: each word names the hold that its line made, which the caller has still,
//! or nothing where none was made or a line has ended it.
//!
//! `line` serves an action, `held_lines` one on a hold, `noncached_lines` a noncached one, `shim_lines` one of the file
//! system shim, `checkpoint_line` a checkpoint, `throttle_lines` a deferral and posts, `tick_line` a tick,
//! `ahead_lines` one of read-ahead, `async_lines` one of queued copied reads, `settle_line` the settling of a stream,
//! `openings` opens a stream, `restart_line` ends the restart of a log, `queues` has the queues of a run with a caller's
//! places there, and `holds` keeps what the words of a caller name. The phases of a run stand above (`cc_run`); below are the
//! calls (`cc_calls`, `cc_ranges`), queued reads (`cc_async`), the calls on records of streams (`cc_stored`), the shim over the
//! calls (`cc_shim`), and how the journal explains answers (`cc_pieces`).
#![tactic(auto)]

mod ahead_lines;
mod async_lines;
mod checkpoint_line;
mod held_lines;
mod holds;
mod line;
mod noncached_lines;
mod openings;
mod queues;
mod restart_line;
mod settle_line;
mod shim_lines;
mod throttle_lines;
mod tick_line;

pub use ahead_lines::serve_step;
pub use holds::{Named, Names};
pub use line::serve_at;
pub use openings::open_stream;
pub use queues::{Places, Queues};
pub use restart_line::end_restart;
pub use throttle_lines::Fresh;
pub use tick_line::serve_tick;
