//! The book of a stream: all that is kept of it, and how it and the journal go on together.
//!
//! What the layer keeps true: a book that stands for the journal, over what the stream's disk told of its opening
//! pages, stands for it after each step, and the step places its entries (one, of a noncached store two), for which
//! places were reserved and with which the journal is good. A step that finds no memory leaves the journal as it was,
//! and the book stands for what it stood for: no byte has changed, only which pages are owned may have. So whoever
//! holds the book's turn knows of the stream what the whole journal says of it: its sizes, its holds, its pages and
//! their bytes.
//!
//! `book` has what is kept, what is asked of it, and the entries of pages and of calls that failed; `done` the
//! calls that are done, `read` what a read answers, `noncached` what a noncached one does, `ahead` whether a read-ahead
//! brings its pages in, and `levels` the levels of the view index.
//!
//! The steps of the calls stand above. Below are the five parts of a book: the state of the stream
//! (`cc_stream`), its private maps (`cc_ahead`), its open holds (`cc_holds`), its contents (`cc_content`) and the
//! images of its pages (`cc_images`); the journal (`cc_journal`), the refusal of a call (`cc_refusal`), and the
//! definitions of `cc_model` with their lemmas in `cc_laws`.
#![tactic(auto)]

mod ahead;
mod book;
mod done;
mod levels;
mod noncached;
mod read;

pub use book::Book;
