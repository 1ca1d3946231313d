//! What the calls without an entry of their own leave between two moments.

ghost use Rattle.std.specs.Prelude.{Some, None, Ok, Err, suc};
ghost use Rattle.cc_entry.specs.declared.error.CcError.TheVariants as error;
ghost use Rattle.cc_effects.specs.PageWrites.{PageWriteLeft, TickLeft, Written, Skipped, NotWritten};
ghost use Rattle.cc_effects.specs.ReadAhead.{AheadLeft};
ghost use Rattle.cc_effects.specs.Levels.{LevelsLeft};
ghost use Rattle.cc_worked.specs.Values.{setup, with_threshold, a, page, Leaves, LeavesNothing};
ghost use Rattle.cc_worked.specs.PiecesReads.{two_pages};
ghost use Rattle.cc_worked.specs.PiecesWithoutEntry.{AppendTo, LogFlushTo, DeferralOf, PostIn};
ghost use Rattle.cc_worked.specs.PiecesWithoutEntry.{flushed_to_three, appended, appended_nowhere, log_fails, deferred, posted, one_deferred, dirty, page_is_written, page_fails, page_is_written_twice, page_of_tick, one_written, request, step};
ghost use Rattle.cc_worked.specs.PiecesWithoutEntry.{pages_of_tick, two_written, pages_out_of_order};
ghost use Rattle.cc_worked.specs.PiecesWrites.{both_dirty};
ghost use Rattle.cc_worked.specs.PiecesAnswered.{step_done};

/// An append leaves its entry and answers its LSN; a flush leaves one, and can fail, only where the log was not
/// flushed so far; a log that fails leaves that; there are four logs.
pub fn log_calls_leave_one_entry()
    ensures appended { Leaves (AppendTo 0) (Ok 4) flushed_to_three appended }
    ensures no_other_lsn { Leaves (AppendTo 0) (Ok 3) flushed_to_three appended → ⊥ }
    ensures log_failed { Leaves (AppendTo 0) (Err (error.LogFault 0)) flushed_to_three log_fails }
    ensures no_log { LeavesNothing (AppendTo 4) (Err (error.NoLog 4)) two_pages }
    ensures there_is_a_log { LeavesNothing (AppendTo 3) (Err (error.NoLog 3)) two_pages → ⊥ }
    ensures no_such_log { Leaves (AppendTo 4) (Ok 1) two_pages appended_nowhere → ⊥ }
    ensures flushed_so_far { Leaves (LogFlushTo 2) (Err (error.LogFault 0)) flushed_to_three log_fails → ⊥ }
    ensures flushed_before { LeavesNothing (LogFlushTo 2) (Ok 0) flushed_to_three }
{}

/// A deferral counts a page for each 4096 bytes begun; a post is nobody's, and comes while something may go.
pub fn deferrals_and_posts()
    ensures deferred { Leaves (DeferralOf 4097) (Ok 1) two_pages deferred }
    ensures counted { Leaves (DeferralOf 4096) (Ok 1) two_pages deferred → ⊥ }
    ensures posted { Leaves (PostIn setup) (Ok (Some 1)) one_deferred posted }
    ensures none { LeavesNothing (PostIn setup) (Ok None) two_pages }
    ensures held_back { LeavesNothing (PostIn (with_threshold 1)) (Ok None) one_deferred }
    ensures not_held_back { LeavesNothing (PostIn setup) (Ok None) one_deferred → ⊥ }
{}

/// A page is written once, skipped or not written by what the pass placed, and the journal is full only where
/// something was still to be placed; a tick counts the pages that it picked, writes no other, and keeps their order.
pub fn pages_are_counted()
    ensures written { Leaves (PageWriteLeft 17 (page 0)) (Ok Written) dirty page_is_written }
    ensures failed { Leaves (PageWriteLeft 17 (page 0)) (Ok NotWritten) dirty page_fails }
    ensures skipped { LeavesNothing (PageWriteLeft 17 (page 1)) (Ok Skipped) dirty }
    ensures not_written { Leaves (PageWriteLeft 17 (page 0)) (Ok Written) dirty page_fails → ⊥ }
    ensures not_twice { Leaves (PageWriteLeft 17 (page 0)) (Ok Written) dirty page_is_written_twice → ⊥ }
    ensures not_full { Leaves (PageWriteLeft 17 (page 0)) (Err (error.JournalFull 5)) dirty page_is_written → ⊥ }
    ensures ticked { Leaves (TickLeft 17) (Ok one_written) dirty page_of_tick }
    ensures in_order { Leaves (TickLeft 17) (Ok two_written) both_dirty pages_of_tick }
    ensures not_out_of_order { Leaves (TickLeft 17) (Ok two_written) both_dirty pages_out_of_order → ⊥ }
{}

/// A read-ahead step serves a request that it took, or leaves nothing; the levels are asked of an open file.
pub fn steps_and_levels()
    ensures served { Leaves (AheadLeft setup 18 (Some request)) (Ok (Some step_done)) two_pages step }
    ensures none { LeavesNothing (AheadLeft setup 18 None) (Ok None) two_pages }
    ensures levels { LeavesNothing (LevelsLeft suc 1 a) (Ok 8193) two_pages }
    ensures wrong_levels { LeavesNothing (LevelsLeft suc 1 a) (Ok 1) two_pages → ⊥ }
{}
