//! Whether a transfer is made with the book kept.

ghost use Rattle.std.specs.Prelude.{◌≡◌, ◌||◌, false, true, not, if◌then◌else◌, None, Some};
ghost use Rattle.cc_writes.specs.Rounds.{is_next, is_read};
ghost use Rattle.cc_writes.specs.declared.keeping.Writing.TheVariants as writing;

/// What the rounds of a call have read and written with the book free. Each page is read so at most once: a page that
/// went meanwhile is read with the book kept, and from then on the book is kept until the call ends. The dirty pages of
/// the block to give up are written with the book free in one ascending round. Where one of them is dirty again, or another
/// block is to go, the rest is written with the book kept.
#[derive(Drop)]
pub struct Rounds {
    // Whether the book is kept until the call ends.
    kept: bool,
    // The last page that was read with the book free, or passed over.
    read: Option<u64>,
    // How far the block that is given up is written with the book free, since a page was last read.
    block: Writing,
}

/// How far the block that is given up is written with the book free.
#[derive(Clone, Copy)]
pub(crate) enum Writing {
    /// No page of one was written.
    Begins,
    /// This page was the last that was written.
    CameTo(u64),
    /// It is written no more so.
    Over,
}

impl Rounds {
    /// Nothing was read and nothing was written.
    pub fn new() -> Rounds
        ensures free { result.kept ≡ false }
    {
        Rounds {
            kept: false,
            read: None,
            block: Writing::Begins,
        }
    }

    /// Whether the book is kept while this page is read, as the next transfer.
    pub fn keeps_for_read(&mut self, page: u64) -> bool
        ensures kept { result ≡ (self.old.kept || is_read self.old.read page) }
        ensures stays { self.new.kept ≡ result }
        ensures read { self.new.read ≡ Some page }
        ensures anew { self.new.block ≡ writing.Begins }
    {
        let keeps = self.kept || self.was_read(page);
        self.kept = keeps;
        self.read = Some(page);
        self.block = Writing::Begins;
        keeps
    }

    /// Whether the book is kept while this page is written, as the next transfer.
    pub fn keeps_for_write(&mut self, page: u64) -> bool
        ensures kept { result ≡ (self.old.kept || not (is_next self.old.block page)) }
        ensures stays { self.new.kept ≡ self.old.kept }
        ensures block { self.new.block ≡ (if result then writing.Over else writing.CameTo page) }
        ensures read { self.new.read ≡ self.old.read }
    {
        let next = !self.kept && self.is_next(page);
        self.block = if next {
            Writing::CameTo(page)
        } else {
            Writing::Over
        };
        !next
    }

    // Whether a page was read with the book free, or passed over.
    fn was_read(&self, page: u64) -> bool
        ensures { result ≡ is_read self.now.read page }
    {
        match self.read {
            Some(last) => page <= last,
            None => false,
        }
    }

    // Whether a page is the next of the block that is written with the book free, or the first of one.
    fn is_next(&self, page: u64) -> bool
        ensures { result ≡ is_next self.now.block page }
    {
        match self.block {
            Writing::Begins => true,
            Writing::CameTo(last) => last / 64 == page / 64 && last < page,
            Writing::Over => false,
        }
    }
}
