//! What flushes and purges leave between two moments, and calls that give a block up.

ghost use Rattle.cc_entry.specs.declared.reply.Reply.TheVariants as reply;
ghost use Rattle.cc_entry.specs.declared.error.CcError.TheVariants as error;
ghost use Rattle.cc_worked.specs.Values.{CallDone, CallFailed};
ghost use Rattle.cc_worked.specs.PiecesReads.{a_byte};
ghost use Rattle.cc_worked.specs.PiecesWrites.{both_dirty, first_page, page_is_flushed, write_fails, sync_fails, other_is_written, write_of_another_fails, written_after_sync, all_pages, pages_are_purged, second_is_mapped, purge_is_refused, refused_purge_writes, greatest_goes_first, out_before_all_written, written_again, first_alone, other_goes_out, stamped_twice, log_goes_first, log_fails, log_goes_short, two_of_three, third_block, second_goes, first_goes};

/// A flush writes the dirty pages of its span and syncs once; a failed write, or a failed sync, is told.
pub fn flush_writes_its_span()
    ensures done { CallDone first_page reply.Unit both_dirty page_is_flushed }
    ensures write_failed { CallFailed first_page (error.WriteFault 0) both_dirty write_fails }
    ensures sync_failed { CallFailed first_page (error.WriteFault 0) both_dirty sync_fails }
    ensures no_other_page { CallDone first_page reply.Unit both_dirty other_is_written → ⊥ }
    ensures not_of_another { CallFailed first_page (error.WriteFault 0) both_dirty write_of_another_fails → ⊥ }
    ensures sync_comes_last { CallDone first_page reply.Unit both_dirty written_after_sync → ⊥ }
{}

/// A purge writes what is dirty, and then takes the pages of its span out, the least first. One that is refused from the start
/// writes none.
pub fn purge_takes_its_span_out()
    ensures done { CallDone all_pages reply.Unit both_dirty pages_are_purged }
    ensures refused { CallFailed all_pages (error.Held 1) second_is_mapped purge_is_refused }
    ensures least_first { CallDone all_pages reply.Unit both_dirty greatest_goes_first → ⊥ }
    ensures written_before { CallDone all_pages reply.Unit both_dirty out_before_all_written → ⊥ }
    ensures no_other { CallDone first_alone reply.Unit both_dirty other_goes_out → ⊥ }
    ensures none_refused { CallFailed all_pages (error.Held 1) second_is_mapped refused_purge_writes → ⊥ }
{}

/// The log of a stream is flushed to the newest stamp of a page before the page is written, and no less far; for
/// an Unstamped page it is not flushed.
pub fn log_is_flushed_to_the_newest_stamp()
    ensures done { CallDone first_page reply.Unit stamped_twice log_goes_first }
    ensures log_failed { CallFailed first_page (error.LogFault 0) stamped_twice log_fails }
    ensures not_unstamped { CallFailed first_page (error.LogFault 0) written_again log_fails → ⊥ }
    ensures not_short { CallDone first_page reply.Unit stamped_twice log_goes_short → ⊥ }
{}

/// A read that maps one block more than the quota gives up the block that was used longest ago.
pub fn room_is_made()
    ensures done { CallDone third_block a_byte two_of_three second_goes }
    ensures not_the_other { CallDone third_block a_byte two_of_three first_goes → ⊥ }
{}
