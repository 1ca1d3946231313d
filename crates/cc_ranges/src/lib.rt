//! Calls that go page by page over a range: a span of a stream is flushed or purged, and a range of a file is read or
//! written around the cache.
//!
//! What the layer keeps true of a flush: it writes each page of its span that is dirty as it comes to it, with the book
//! free for as long as the disk takes, and goes on with the next page up. So at its sync each change of the span that was
//! there as it began is written or cut, whatever others change meanwhile. It is refused as its entry's front says, also
//! at its end, and tells its own fault alone.
//!
//! A purge goes up its span so too. Then it keeps the book: what was made dirty again meanwhile is written, and only
//! once no page of the span is dirty do its pages go out, the least first. So no byte is lost, and a purge that is done
//! leaves no page of its span resident. A page that an open hold has never goes out: the purge is refused as its entry's
//! front says, at each step, and tells its own fault alone.
//!
//! Each page of a noncached call is a call of its own, whose entry stands behind what was done for it. A page that is read
//! was written before where it was dirty and owed no stamp, and its entry answers the plain file's bytes at that entry's
//! place, from its frame where it is resident and from the disk else; no page comes in for it. A page that is written is
//! stored and its transfer begun as one event, its log flushed before, and it goes out again where it may. A call whose
//! place or length is out of order leaves one entry, that of its first page.
//!
//! `dirty` has the next dirty page of a span, and `residents` the least resident one. `flush_steps` has what a flush
//! does on a book and a journal, `flush_visits` the same with the journal's turn taken, `flush` the whole of it, with
//! the disk and the book in hand; `purge_steps`, `purge_visits` and `purge` have the same of a purge. `shapes` has the
//! refusal of a noncached call's place and length. `reads` has the pages of a noncached read one after the other,
//! `read_held` one of them with the disk and the book of its stream in hand, `read_visits` its visits to the journal, and
//! `read_steps` what it does there on the book. `writes`, `write_held`, `write_visits` and `write_steps` are the same of a
//! write until its page is ready; `pages` puts it on the disk, `stores` stores it and `ends` ends the write. The calls
//! stand above. Below are the visits of a pass to the journal, the writing of a page and the rounds of a call
//! (`cc_writes`), the sync of a disk (`cc_turns`), and the book of a stream (`cc_book`), which knows what a noncached read
//! answers.
//!
//! `Settled` of `specs/` says which touches of the pages of a span a flush has settled: a page is settled once each of
//! its touches that is neither written nor cut came after the flush began. `Crash` says what a crash may leave of a
//! page after a good sync: its image at the sync, or the page as it was when a later transfer of it began.
#![tactic(auto)]

mod dirty;
mod dirty_page;
mod ends;
mod error;
mod flush;
mod flush_steps;
mod flush_visits;
mod pages;
mod purge;
mod purge_steps;
mod purge_visits;
mod read_held;
mod read_steps;
mod read_visits;
mod reads;
mod residents;
mod shapes;
mod stores;
mod write_held;
mod write_steps;
mod write_visits;
mod writes;

pub use dirty::next_dirty;
pub use error::NcError;
pub use flush::flush_with_book;
pub use purge::purge_held;
pub use reads::noncached_read;
pub use writes::noncached_write;
