//! What noncached calls leave between two moments, and the end of a repin with write through.

ghost use Rattle.std.specs.Prelude.{[], true, Ok, Err};
ghost use Rattle.cc_entry.specs.declared.reply.Reply.TheVariants as reply;
ghost use Rattle.cc_entry.specs.declared.error.CcError.TheVariants as error;
ghost use Rattle.cc_entry.specs.declared.reply.Outcome.TheVariants as outcome;
ghost use Rattle.cc_effects.specs.Noncached.{NcReadLeft, IsPageWritten, TransferRefused};
ghost use Rattle.cc_effects.specs.Repins.{UnpinLeft};
ghost use Rattle.cc_worked.specs.Values.{setup, a, Leaves, LeavesNothing, CallDone};
ghost use Rattle.cc_worked.specs.PiecesReads.{two_pages};
ghost use Rattle.cc_worked.specs.PiecesWrites.{both_dirty};
ghost use Rattle.cc_worked.specs.PiecesNoncached.{some_bytes, page_is_written, transfer_fails, transfer_wants_memory, misaligned, first_read, a_page, read_through, read_around, repinned, written_through, hold_alone};
ghost use Rattle.cc_worked.specs.PiecesNoncached.{short_page_first, both_pages, short_page_alone, refused_behind, refused_further};

/// A page of a noncached write is stored and written; where the transfer fails the store stands and the end
/// of the write tells it; where it finds no memory the write has no end.
pub fn noncached_page_is_stored_and_written()
    ensures written { Leaves (IsPageWritten 1 a 0 some_bytes) 4096 two_pages page_is_written }
    ensures failed { Leaves (TransferRefused 1 a 0 some_bytes) (error.WriteFault 0) two_pages transfer_fails }
    ensures no_memory { Leaves (TransferRefused 1 a 0 some_bytes) error.NoMemory two_pages transfer_wants_memory }
    ensures told_alone { Leaves (TransferRefused 1 a 0 some_bytes) (error.WriteFault 1) two_pages transfer_fails → ⊥ }
{}

/// A noncached call of no bytes leaves nothing; one that is not of whole pages is refused with an entry for
/// its first page, and by no other length.
pub fn noncached_call_is_of_whole_pages()
    ensures nothing { LeavesNothing (NcReadLeft setup 1 a 4096 0) (Ok []) two_pages }
    ensures refused { Leaves (NcReadLeft setup 1 a 1 4096) (Err (0, error.Unaligned)) two_pages misaligned }
    ensures not_answered { Leaves (NcReadLeft setup 1 a 1 4096) (Ok []) two_pages misaligned → ⊥ }
    ensures not_so_called { Leaves (NcReadLeft setup 1 a 1 4096) (Err (0, error.TooLong 65536))
        two_pages misaligned → ⊥ }
{}

/// A noncached read writes its page before it reads the disk, where the page is dirty.
pub fn noncached_read_writes_its_page()
    ensures done { CallDone first_read a_page both_dirty read_through }
    ensures not_around { CallDone first_read a_page both_dirty read_around → ⊥ }
{}

/// The page behind one that came short ends a noncached read, and its bytes are not told; where it is refused, that is
/// the answer.
pub fn noncached_read_ends_behind_a_short_page()
    ensures untold { Leaves (NcReadLeft setup 1 a 0 8192) (Ok some_bytes) two_pages short_page_first }
    ensures refused { Leaves (NcReadLeft setup 1 a 0 8192) (Err (1, error.NotCached)) two_pages refused_behind }
    ensures not_told { Leaves (NcReadLeft setup 1 a 0 8192) (Ok both_pages) two_pages short_page_first → ⊥ }
    ensures not_unread { Leaves (NcReadLeft setup 1 a 0 8192) (Ok some_bytes) two_pages short_page_alone → ⊥ }
    ensures not_further { Leaves (NcReadLeft setup 1 a 0 12288) (Err (2, error.NotCached))
        two_pages refused_further → ⊥ }
{}

/// The end of a repin with write through ends the hold whatever the flush of its range answers.
pub fn repin_ends_whatever_comes()
    ensures done { Leaves (UnpinLeft setup 1 2 true) (outcome.Done reply.Unit) repinned written_through }
    ensures no_memory { Leaves (UnpinLeft setup 1 2 true) (outcome.Failed error.NoMemory) repinned hold_alone }
{}
