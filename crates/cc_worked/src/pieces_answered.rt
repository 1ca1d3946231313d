//! What lines leave between two moments by their answers: lines of one call, and of the calls without an entry.

ghost use Rattle.std.specs.Prelude.{◌≡◌, [], ◌∷◌, Some, None, true, false};
ghost use Rattle.cc_entry.specs.declared.entry.End.TheVariants as how;
ghost use Rattle.cc_entry.specs.declared.entry.Entry.TheVariants as entry;
ghost use Rattle.cc_entry.specs.declared.error.CcError.TheVariants as error;
ghost use Rattle.cc_entry.specs.declared.answer.Answer.TheVariants as answer;
ghost use Rattle.cc_pieces.specs.Faultless.{shows_fault, tells_fault};
ghost use Rattle.cc_worked.specs.Values.{setup, with_threshold, page, unit, gives, Leaves, LeavesNothing};
ghost use Rattle.cc_worked.specs.PiecesReads.{two_pages, first_byte, a_byte, page_comes_in, past_the_size, write_refused};
ghost use Rattle.cc_worked.specs.PiecesNoncached.{misaligned};
ghost use Rattle.cc_worked.specs.PiecesWithoutEntry.{flushed_to_three, appended, log_fails, deferred, posted, one_deferred, dirty, page_of_tick, one_written, request, step};
ghost use Rattle.cc_worked.specs.PiecesAnswered.{CallLine, AppendLine, LogFlushLine, DeferLine, PostsLine, TickLine, AheadLine, LevelsLine, NcReadLine, NcWriteLine};
ghost use Rattle.cc_worked.specs.PiecesAnswered.{flushed_to_four, first_request, none_picked, step_done, step_fails, one_byte_is_refused, whole_page, page_is_written};

/// The answer of a line of one call is what its call was answered, and no answer of another kind.
pub fn call_is_answered_as_it_ended()
    ensures done { Leaves (CallLine first_byte) (answer.Given a_byte) two_pages page_comes_in }
    ensures refused { Leaves (CallLine past_the_size) (answer.Refused (error.BeyondSize 8192)) two_pages write_refused }
    ensures not_done { Leaves (CallLine past_the_size) unit two_pages write_refused → ⊥ }
    ensures no_other_reply { Leaves (CallLine first_byte) unit two_pages page_comes_in → ⊥ }
    ensures no_other_kind { Leaves (CallLine first_byte) (answer.Count 1) two_pages page_comes_in → ⊥ }
{}

/// An append is answered with its LSN, and a flush of a log when the log was flushed so far; a log that failed is
/// named.
pub fn log_lines_are_answered()
    ensures appended { Leaves AppendLine (answer.NewLsn 4) flushed_to_three appended }
    ensures append_failed { Leaves AppendLine (answer.Refused (error.LogFault 0)) flushed_to_three log_fails }
    ensures flushed { Leaves (LogFlushLine 0 4) unit flushed_to_three flushed_to_four }
    ensures no_such_log { LeavesNothing (LogFlushLine 4 1) (answer.Refused (error.NoLog 4)) flushed_to_three }
    ensures no_other_lsn { Leaves AppendLine (answer.NewLsn 5) flushed_to_three appended → ⊥ }
    ensures no_other_log { Leaves AppendLine (answer.Refused (error.LogFault 1)) flushed_to_three log_fails → ⊥ }
    ensures not_flushed { LeavesNothing (LogFlushLine 0 4) unit flushed_to_three → ⊥ }
    ensures flushed_no_less { Leaves (LogFlushLine 0 5) unit flushed_to_three flushed_to_four → ⊥ }
{}

/// A failed read, and the failure of a transfer, a sync or a log, is shown and told; a transfer that found no memory, and a
/// refusal for want of room, are no fault.
pub fn faults_are_shown_and_told()
    ensures read { shows_fault (entry.FillFailed 1 (page 0)) ≡ true }
    ensures transfer { shows_fault (entry.WriteEnd 1 (page 0) how.Failed) ≡ true }
    ensures sync { shows_fault (entry.Sync 1 0 how.Failed) ≡ true }
    ensures log { shows_fault (entry.LogFailed 1 0) ≡ true }
    ensures no_memory { shows_fault (entry.WriteEnd 1 (page 0) how.NoMemory) ≡ false }
    ensures good_end { shows_fault (entry.Sync 1 0 how.Good) ≡ false }
    ensures told { tells_fault (answer.Refused (error.LogFault 0)) ≡ true }
    ensures told_of_a_page { tells_fault (answer.NcRefused 1 (error.WriteFault 1)) ≡ true }
    ensures event { tells_fault answer.Faulted ≡ true }
    ensures refused { tells_fault (answer.Refused (error.JournalFull 9)) ≡ false }
    ensures given { tells_fault unit ≡ false }
{}

/// A deferral is answered with its number. Posts are answered with the numbers of the writes that went, until none
/// may go; where one post is refused, that is told alone.
pub fn throttle_lines_are_answered()
    ensures deferred { Leaves DeferLine (answer.Deferred 1) two_pages deferred }
    ensures not_cached { LeavesNothing DeferLine (answer.Refused error.NotCached) [] }
    ensures posted { Leaves (PostsLine setup) (answer.Posts (1 ∷ [])) one_deferred posted }
    ensures held_back { LeavesNothing (PostsLine (with_threshold 1)) (answer.Posts []) one_deferred }
    ensures no_memory { Leaves (PostsLine setup) (answer.Refused error.NoMemory) one_deferred posted }
    ensures no_other_number { Leaves DeferLine (answer.Deferred 2) two_pages deferred → ⊥ }
    ensures none_left_waiting { LeavesNothing (PostsLine setup) (answer.Posts []) one_deferred → ⊥ }
    ensures none_invented { LeavesNothing (PostsLine setup) (answer.Posts (1 ∷ [])) one_deferred → ⊥ }
    ensures none_twice { Leaves (PostsLine setup) (answer.Posts (1 ∷ 1 ∷ [])) one_deferred posted → ⊥ }
    ensures no_other_refusal { Leaves (PostsLine setup) (answer.Refused error.QueueFull) one_deferred posted → ⊥ }
{}

/// A tick is answered with what it picked, a read-ahead step with the request that it served, and a question for
/// levels with those of the size.
pub fn worker_lines_are_answered()
    ensures ticked { Leaves TickLine (answer.Ticked one_written) dirty page_of_tick }
    ensures stepped { Leaves (AheadLine (Some request)) (answer.Stepped (Some step_done)) two_pages step }
    ensures levels { LeavesNothing LevelsLine (answer.Levels 8193) two_pages }
    ensures tick_wants_memory { LeavesNothing TickLine (answer.Refused error.NoMemory) dirty }
    ensures step_failed { Leaves (AheadLine (Some request)) (answer.Refused (error.ReadFault 1)) two_pages step_fails }
    ensures levels_not_cached { LeavesNothing LevelsLine (answer.Refused error.NotCached) [] }
    ensures none_picked { Leaves TickLine (answer.Ticked none_picked) dirty page_of_tick → ⊥ }
    ensures none_stepped { Leaves (AheadLine (Some request)) (answer.Stepped None) two_pages step → ⊥ }
    ensures step_not_refused { Leaves (AheadLine (Some request)) (answer.Refused (error.ReadFault 1)) two_pages step → ⊥ }
    ensures no_other_request { Leaves (AheadLine (Some first_request)) (answer.Stepped (Some step_done)) two_pages step → ⊥ }
    ensures no_other_failed { Leaves (AheadLine (Some first_request)) (answer.Refused (error.ReadFault 1)) two_pages step_fails → ⊥ }
    ensures none_to_refuse { LeavesNothing (AheadLine None) (answer.Refused error.NoMemory) two_pages → ⊥ }
    ensures tick_not_refused { Leaves TickLine (answer.Refused error.NotCached) dirty page_of_tick → ⊥ }
    ensures levels_cached { LeavesNothing LevelsLine (answer.Refused error.NotCached) two_pages → ⊥ }
    ensures other_levels { LeavesNothing LevelsLine (answer.Levels 8192) two_pages → ⊥ }
{}

/// A noncached read is answered with its bytes, a write with how many it changed, and a refusal with the pages that
/// were finished before.
pub fn noncached_lines_are_answered()
    ensures nothing_read { LeavesNothing (NcReadLine 0 0) (gives []) two_pages }
    ensures read_refused { Leaves (NcReadLine 1 4096) (answer.NcRefused 0 error.Unaligned) two_pages misaligned }
    ensures page_written { Leaves (NcWriteLine whole_page) (answer.Count 4096) two_pages page_is_written }
    ensures nothing_written { LeavesNothing (NcWriteLine []) (answer.Count 0) two_pages }
    ensures write_refused { Leaves (NcWriteLine (171 ∷ [])) (answer.NcRefused 0 error.Unaligned)
        two_pages one_byte_is_refused }
    ensures none_finished { Leaves (NcReadLine 1 4096) (answer.NcRefused 1 error.Unaligned) two_pages misaligned → ⊥ }
    ensures no_other_kind { Leaves (NcReadLine 1 4096) (answer.Refused error.Unaligned) two_pages misaligned → ⊥ }
    ensures no_other_count { Leaves (NcWriteLine whole_page) (answer.Count 8192) two_pages page_is_written → ⊥ }
    ensures none_changed { LeavesNothing (NcWriteLine []) (answer.Count 1) two_pages → ⊥ }
    ensures not_written { Leaves (NcWriteLine (171 ∷ [])) (answer.Count 1) two_pages one_byte_is_refused → ⊥ }
{}
