//! The cache as a pure machine over events, on one thread.
//!
//! What the layer keeps true: the journal is good after any events, each stream's book stands for it, and so does each
//! disk, whether it is at rest or a page's transfer is open on it, whose bytes are kept until it ends. An event that the
//! law of entries forbids is answered `NotNow` and changes nothing; any other places its entry, or answers without one
//! where nothing is to be done or a log or the queue refuses it, or is refused for want of room or of memory, or tells
//! that its disk or its log failed. Nothing waits: what a call would wait for is an event of its own.
//!
//! `rows` has what there is of one stream and what an event does to it, `logs` the same of a log, `journal` the same of
//! the journal alone, `pages` the tests on a page, `places` how rows are made and given back, and `machine` the three
//! together. Entries are never read back: `passes` keeps of each pass what it stored last and the oldest fault since its
//! last call, `syncs` the streams that it synced since, `blocks` which view blocks may be mapped, `notes` has the three
//! together, and `world` the machine with its notes.
//! `filing` says under which stream a call is filed, and `filed` whether it may be. `calls` has a call on a row, `ends`
//! how it ends on the book, `replies` what it then answers, `copies` a copy of that, `residents` whether a page of a span is
//! resident, `uncached` a noncached read or store of a page, `page_bytes` its bytes; `failing` has a call that tells a
//! fault, `faults` what failed, and `told` the error by which it is told. The lines of `steps` (`cc_event_lines`) stand above; below are
//! the events with their replies and what each leaves (`cc_effects`), the book of a stream (`cc_book`), the journal, and
//! the disks (`cc_turns`).
#![tactic(auto)]

mod blocks;
mod calls;
mod copies;
mod ends;
mod failing;
mod faults;
mod filed;
mod filing;
mod journal;
mod logs;
mod machine;
mod notes;
mod page_bytes;
mod pages;
mod passes;
mod places;
mod replies;
mod residents;
mod rows;
mod syncs;
mod told;
mod uncached;
mod world;

pub use world::World;
