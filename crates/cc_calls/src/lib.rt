//! The calls of the cache, each one function over any turns.
//!
//! What the layer keeps true: a call leaves in the journal what `cc_effects` says of its answer, after all that its
//! pass had seen, and its answer is the one that the definitions give at its entry's front. At its end the pass holds
//! the turns that it held, and has no more entries reserved. What a call hands to its caller is a hold of the caller's
//! own, open and with the range that was asked, until the caller ends it: others change neither it nor that it is open.
//! An end is refused by nothing, and takes no room and no memory; a set-dirty that a write through the pin, or a zeroing
//! prepare, reserved can't fail.
//!
//! `turned` makes a call on a stream, in one turn of the stream's book or with the turn of its disk too. `maps` has the
//! calls that make cache maps and end them, `settings` those that need no page and set something of their stream, `queries`
//! those that tell something and change nothing, `levels` the one of them that leaves no entry, `copies` those that copy
//! bytes out of a stream's pages and into them, `flushes` those that write the dirty pages of a span, and then sync its
//! disk or take its pages out, `discards` the one that takes them out unwritten, `logs` the two calls on a log, an append
//! and a flush, `throttle` whether a write may go, a deferral and a post, `ahead` read-ahead, asked for and served. `held`
//! has what every hold tells of itself,
//! `held_calls` how a hold is made, used and ended; `data_maps`, `pins`, `repins` and `chains` have the routines on holds.
//! Below are the turns (`cc_turns`), the visits of a pass to the journal, the writing of a page with the flush of its log
//! and the fetch of pages (`cc_writes`), the flush and the purge of a span (`cc_ranges`), and what others leave of a pass's
//! holds (`cc_own`). The lines of a script (`cc_lines`) and the runs (`cc_run`) stand above.
#![tactic(auto)]

mod ahead;
mod chains;
mod copies;
mod data_maps;
mod discards;
mod flushes;
mod held;
mod held_calls;
mod levels;
mod logs;
mod maps;
mod page_writes;
mod pins;
mod queries;
mod repins;
mod settings;
mod throttle;
mod ticks;
mod told;
mod turned;

pub use ahead::{read_ahead_step, schedule_read_ahead};
pub use chains::{
    ReadChain, WriteChain, mdl_bytes, mdl_read, mdl_read_complete, mdl_store, mdl_write_abort,
    mdl_write_complete, prepare_mdl_write,
};
pub use copies::{copy_read, copy_write, zero_data};
pub use data_maps::{Mapped, map_data, mapped_read, pin_mapped, unmap};
pub use discards::discard;
pub use flushes::{flush, flush_held, purge};
pub use held::{Held, HoldHandle};
pub use held_calls::{end_hold, hold_range, read_hold, write_hold};
pub use levels::index_levels;
pub use logs::{log_append, log_flush};
pub use maps::{initialize, uninitialize};
pub use page_writes::{PageWriteAnswer, write_one};
pub use pins::{Pinned, pin_read, pinned_read, pinned_write, prepare_pin_write, set_dirty, unpin};
pub use queries::{ask, dirty_pages, file_state, is_dirty_data, lsn_for_file};
pub use repins::{Repinned, repin, unpin_repinned};
pub use settings::{
    set_attributes, set_file_sizes, set_granularity, set_log_handle, set_threshold,
};
pub use throttle::{can_i_write, defer, post_next};
pub use ticks::tick;
pub use turned::{call_at_once, call_paged};
