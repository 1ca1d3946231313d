//! What runs leave between two moments: the lines of the streams, those of a caller, and phases; and what a run is
//! asked after it.

ghost use Rattle.std.specs.Prelude.{◌≡◌, ◌++◌, [], ◌∷◌, Some, None, true, false};
ghost use Rattle.cc_entry.specs.declared.call.Call.TheVariants as call;
ghost use Rattle.cc_entry.specs.declared.query.Query.TheVariants as query;
ghost use Rattle.cc_entry.specs.declared.error.CcError.TheVariants as error;
ghost use Rattle.cc_entry.specs.declared.reply.Reply.TheVariants as reply;
ghost use Rattle.cc_entry.specs.declared.query.Value.TheVariants as value;
ghost use Rattle.cc_entry.specs.declared.answer.Answer.TheVariants as answer;
ghost use Rattle.cc_script.specs.declared.script.Action.TheVariants as action;
ghost use Rattle.cc_pieces.specs.Rooms.{HadNoRoom, is_alone, room_limit};
ghost use Rattle.cc_pieces.specs.Runs.{Explains, Ran, bindings_of};
ghost use Rattle.cc_pieces.specs.Phases.{is_before_phase, limit_in, lines_before, PhasesRan};
ghost use Rattle.cc_pieces.specs.Explained.{IsExplained};
ghost use Rattle.cc_pieces.specs.Table.{table_of};
ghost use Rattle.cc_effects.specs.Failures.{failures};
ghost use Rattle.cc_worked.specs.Values.{setup, a, second, sized, opened, dirty_is, unit, gives, Leaves, LeavesNothing};
ghost use Rattle.cc_worked.specs.PiecesReads.{two_pages, first_resident, a_byte, page_comes_in, page_alone};
ghost use Rattle.cc_worked.specs.PiecesRuns.{OneStream, TwoStreams, opens, opens_with, caller_opens, opening_is_refused, log_all_the_same};
ghost use Rattle.cc_worked.specs.PiecesRuns.{opens_both, opens_first_twice, unit_at, of_capacity, full_at, OneLine, MakesOneCall, flushes};
ghost use Rattle.cc_worked.specs.PiecesRuns.{first_bytes, reads, asks, two_full, reads_and_asks, asks_and_reads, asks_twice, two_lines};
ghost use Rattle.cc_worked.specs.PiecesRuns.{line_of, of_one, of_two, plan_with, one_step, stranger_beside, OnePhase, TwoPhases};
ghost use Rattle.cc_worked.specs.PiecesQueue.{FullBy, QueuedBy, asks_ahead, finds_it_full, found_full, one_served, one_idle, at_rest, asked_once, took_once, took_other, places_with};
ghost use Rattle.cc_worked.specs.PiecesLines.{no_request, one_map};
ghost use Rattle.cc_worked.specs.PiecesWithoutEntry.{flushed_to_three, appended, request};
ghost use Rattle.cc_worked.specs.PiecesAnswered.{flushed_to_four, first_request, one_byte_is_refused};
ghost use Rattle.cc_worked.specs.PiecesNoncached.{misaligned};
ghost use Rattle.cc_worked.specs.PiecesRuns.{given, told_by, all_replies, stream_last, one_unanswered};
ghost use Rattle.cc_worked.specs.PiecesRuns.{two_dirty, one_dirty, stamped_row, unstamped_row, three_fail};

/// The line of a stream is answered when its first object is initialised, by pass 0, and has its log; the streams
/// open in their order.
pub fn streams_are_opened()
    ensures opened { Leaves (OneStream None) unit [] opens }
    ensures with_log { Leaves (OneStream (Some 3)) unit [] (opens_with 3) }
    ensures refused { Leaves (OneStream (Some 3)) (answer.Refused (error.NoVacbs 3)) [] opening_is_refused }
    ensures both { Leaves TwoStreams (unit_at 1 ∷ unit_at 2 ∷ []) [] opens_both }
    ensures not_without_log { Leaves (OneStream (Some 3)) unit [] opens → ⊥ }
    ensures no_other_log { Leaves (OneStream (Some 3)) unit [] (opens_with 2) → ⊥ }
    ensures no_log_unasked { Leaves (OneStream None) unit [] (opens_with 3) → ⊥ }
    ensures no_other_sizes { Leaves (OneStream None) unit [] (opened 8192 4096 ∷ []) → ⊥ }
    ensures by_no_caller { Leaves (OneStream None) unit [] caller_opens → ⊥ }
    ensures no_more { Leaves (OneStream (Some 0)) (answer.Refused (error.NoVacbs 3)) [] log_all_the_same → ⊥ }
    ensures not_full { LeavesNothing (OneStream None) (full_at 0) [] → ⊥ }
    ensures by_their_number { Leaves TwoStreams (unit_at 1 ∷ unit_at 2 ∷ []) [] opens_first_twice → ⊥ }
    ensures each_answered { Leaves TwoStreams (unit_at 1 ∷ []) [] opens_both → ⊥ }
{}

/// A line may be told that the journal is full only where at one of its moments it had that many entries and less
/// room than the limit; what runs beside others has the higher limit.
pub fn full_journal_had_no_room()
    ensures full { HadNoRoom (of_capacity 4) 4 (full_at 1) two_pages two_pages }
    ensures meanwhile { HadNoRoom (of_capacity 5) 4 (full_at 2) two_pages (page_alone ++ two_pages) }
    ensures noncached { HadNoRoom (of_capacity 4) 4 (answer.NcRefused 0 (error.JournalFull 1)) two_pages two_pages }
    ensures not_so_many { HadNoRoom (of_capacity 4) 4 (full_at 2) two_pages two_pages → ⊥ }
    ensures had_room { HadNoRoom (of_capacity 5) 4 (full_at 1) two_pages two_pages → ⊥ }
    ensures noncached_had_room { HadNoRoom (of_capacity 5) 4 (answer.NcRefused 0 (error.JournalFull 1))
        two_pages two_pages → ⊥ }
    ensures alone { room_limit 0 0 (is_alone 1 of_one) ≡ 4 }
    ensures beside_caller { room_limit 0 0 (is_alone 1 of_two) ≡ 32 }
    ensures in_phase_alone { limit_in (plan_with 0 0) 1 ≡ 4 }
    ensures in_phase_beside { limit_in (plan_with 1 0) 1 ≡ 32 }
    ensures beside_worker { room_limit 0 1 (is_alone 1 of_one) ≡ 32 }
{}

/// A line of each verb leaves its call, or its entry of a log, with its arguments.
pub fn each_verb_is_served()
    ensures written { MakesOneCall (action.CopyWrite a 0 (171 ∷ [])) (call.CopyWrite a 0 (171 ∷ [])) reply.Unit }
    ensures zeroed { MakesOneCall (action.Zero a first_bytes) (call.Zero a first_bytes) reply.Unit }
    ensures sized { MakesOneCall (action.SetSizes a 8192 4096) (call.SetSizes a 8192 4096) reply.Unit }
    ensures asked { MakesOneCall asks (call.Query (query.State a)) (reply.Value (value.State two_full)) }
    ensures flushed { Leaves (OneLine (action.Flush a None)) unit first_resident (flushes None) }
    ensures asked_dirty { Leaves (OneLine (action.Query query.IsDirtyData)) (answer.Given (reply.Value (value.Flag false)))
        first_resident (dirty_is 1 1 false ∷ []) }
    ensures log_set { MakesOneCall (action.SetLog a 3) (call.SetLog a 3) reply.Unit }
    ensures appended { Leaves (OneLine (action.Append 0 (1 ∷ []))) (answer.NewLsn 4) flushed_to_three appended }
    ensures log_flushed { Leaves (OneLine (action.LogFlush 0 4)) unit flushed_to_three flushed_to_four }
    ensures opened_again { MakesOneCall (action.Initialise second (sized 8192 8192) 16 false)
        (call.Initialise second (sized 8192 8192) 16 false) reply.Unit }
    ensures closed { MakesOneCall (action.Uninitialise a (Some 0)) (call.Uninitialise a (Some 0)) (reply.Value (value.Flag false)) }
    ensures purged { MakesOneCall (action.Purge a None) (call.Purge a None) reply.Unit }
    ensures no_page_read { LeavesNothing (OneLine (action.NcRead a 0 0)) (gives []) two_pages }
    ensures page_read_refused { Leaves (OneLine (action.NcRead a 1 4096)) (answer.NcRefused 0 error.Unaligned)
        two_pages misaligned }
    ensures page_write_refused { Leaves (OneLine (action.NcWrite a 0 (171 ∷ []))) (answer.NcRefused 0 error.Unaligned)
        two_pages one_byte_is_refused }
    ensures not_zeroed { MakesOneCall (action.Zero a first_bytes) (call.CopyWrite a 0 (0 ∷ [])) reply.Unit → ⊥ }
    ensures no_other_sizes { MakesOneCall (action.SetSizes a 8192 4096) (call.SetSizes a 4096 8192) reply.Unit → ⊥ }
    ensures no_other_log { MakesOneCall (action.SetLog a 3) (call.SetLog a 2) reply.Unit → ⊥ }
    ensures no_other_bytes { Leaves (OneLine (action.Append 0 (2 ∷ []))) (answer.NewLsn 4)
        flushed_to_three appended → ⊥ }
    ensures flush_has_no_lsn { Leaves (OneLine (action.LogFlush 0 4)) (answer.NewLsn 4)
        flushed_to_three flushed_to_four → ⊥ }
    ensures no_other_span { Leaves (OneLine (action.Flush a None)) unit
        first_resident (flushes (Some first_bytes)) → ⊥ }
    ensures no_other_file { MakesOneCall asks (call.Query (query.State second)) (reply.Value (value.State two_full)) → ⊥ }
    ensures no_other_truncate { MakesOneCall (action.Uninitialise a None)
        (call.Uninitialise a (Some 0)) (reply.Value (value.Flag false)) → ⊥ }
    ensures purge_is_no_flush { Leaves (OneLine (action.Purge a None)) unit first_resident (flushes None) → ⊥ }
    ensures told_with_its_pages { Leaves (OneLine (action.NcRead a 1 4096)) (answer.Refused error.Unaligned)
        two_pages misaligned → ⊥ }
{}

/// The lines of a caller leave pieces one after the other, each of its line, and the caller places nothing else.
pub fn lines_run_in_their_order()
    ensures explained { Leaves (Explains setup 32 1 [] reads) (answer.Given a_byte) two_pages page_comes_in }
    ensures ran { Leaves (Ran setup 32 1 []) two_lines two_pages reads_and_asks }
    ensures nothing_asked { Leaves (Ran setup 32 2 []) [] two_pages reads_and_asks }
    ensures by_its_caller { Leaves (Explains setup 32 2 [] reads) (answer.Given a_byte) two_pages page_comes_in → ⊥ }
    ensures not_full { Leaves (Explains setup 32 1 [] reads) (full_at 2) two_pages page_alone → ⊥ }
    ensures in_order { Leaves (Ran setup 32 1 []) two_lines two_pages asks_and_reads → ⊥ }
    ensures each_line { Leaves (Ran setup 32 1 []) two_lines two_pages page_comes_in → ⊥ }
    ensures no_more { Leaves (Ran setup 32 1 []) two_lines two_pages asks_twice → ⊥ }
{}

/// In a phase each caller runs its lines of it, no other pass places anything, and the workers answer as often as
/// they are asked; the phases follow each other.
pub fn phases_run_one_after_the_other()
    ensures ran { OnePhase 0 0 [] page_comes_in }
    ensures both { TwoPhases reads_and_asks }
    ensures no_request { OnePhase 0 2 (no_request ∷ []) page_comes_in }
    ensures no_stranger { OnePhase 0 0 [] stranger_beside → ⊥ }
    ensures no_later_line { OnePhase 0 0 [] reads_and_asks → ⊥ }
    ensures no_tick_left_out { OnePhase 1 0 [] page_comes_in → ⊥ }
    ensures no_step_left_out { OnePhase 0 1 [] page_comes_in → ⊥ }
    ensures not_ended { OnePhase 0 2 (one_step ∷ []) page_comes_in → ⊥ }
    ensures in_order { TwoPhases asks_and_reads → ⊥ }
    ensures nothing_after { PhasesRan setup (plan_with 0 0) 1 0 [] [] [] two_pages (page_alone ++ two_pages) → ⊥ }
{}

/// A run is explained where its streams opened and then its phases ran, and each line has its reply, in order.
pub fn run_is_explained()
    ensures explained { IsExplained setup given (told_by all_replies) [] (reads_and_asks ++ opens) }
    ensures streams_first { IsExplained setup given (told_by stream_last) [] (reads_and_asks ++ opens) → ⊥ }
    ensures each_line { IsExplained setup given (told_by one_unanswered) [] (page_comes_in ++ opens) → ⊥ }
    ensures nothing_taken { IsExplained setup given (told_by all_replies) (request ∷ []) (reads_and_asks ++ opens) → ⊥ }
    ensures nothing_before { IsExplained setup given (told_by all_replies) [] (reads_and_asks ++ caller_opens) → ⊥ }
{}

/// What a pass has at the read-ahead queue is read off its calls for read-ahead and the answers of the steps.
pub fn places_at_the_queue()
    ensures queued { QueuedBy one_served (request ∷ []) (places_with asked_once took_once) asks_ahead }
    ensures each_pushed { QueuedBy one_served (request ∷ []) (places_with at_rest took_once) asks_ahead → ⊥ }
    ensures found_full { FullBy (places_with found_full at_rest) finds_it_full }
    ensures each_full { FullBy (places_with at_rest at_rest) finds_it_full → ⊥ }
    ensures as_told { QueuedBy one_served (request ∷ []) (places_with asked_once at_rest) asks_ahead → ⊥ }
    ensures one_a_step { QueuedBy [] (request ∷ []) (places_with asked_once took_once) asks_ahead → ⊥ }
    ensures as_served { QueuedBy one_served (first_request ∷ []) (places_with asked_once took_other) asks_ahead → ⊥ }
    ensures each_empty { QueuedBy one_idle [] (places_with asked_once at_rest) asks_ahead → ⊥ }
{}

/// The table has a row for each page that is dirty at the end, with the LSNs of its touches that are not yet
/// written; the failures are those of the stream's disk alone.
pub fn table_and_failures_are_read_off()
    ensures both { table_of two_dirty ≡ stamped_row ∷ unstamped_row ∷ [] }
    ensures written { table_of one_dirty ≡ unstamped_row ∷ [] }
    ensures none_left_out { table_of two_dirty ≡ unstamped_row ∷ [] → ⊥ }
    ensures counted { failures 0 three_fail ≡ 3 }
    ensures of_its_stream { failures 1 three_fail ≡ 1 }
    ensures no_more { failures 0 three_fail ≡ 4 → ⊥ }
{}

/// A line is before a phase only where it is the caller's and of an earlier one; and none of these lines binds a word.
pub fn earlier_lines_are_told_apart()
    ensures earlier { lines_before (plan_with 0 0) 2 1 ≡ (reads, answer.Given a_byte) ∷ [] }
    ensures not_of_the_phase { lines_before (plan_with 0 0) 2 1 ≡ two_lines → ⊥ }
    ensures none_before_the_first { lines_before (plan_with 0 0) 1 1 ≡ [] }
    ensures of_no_other_caller { lines_before (plan_with 0 0) 2 2 ≡ [] }
    ensures before { is_before_phase 2 1 (line_of 2 1 1 reads) ≡ true }
    ensures not_of_another_caller { is_before_phase 2 2 (line_of 2 1 1 reads) ≡ false }
    ensures not_in_its_own_phase { is_before_phase 1 1 (line_of 2 1 1 reads) ≡ false }
    ensures bound_stays { bindings_of one_map two_lines ≡ one_map }
    ensures binds_nothing { bindings_of [] two_lines ≡ one_map → ⊥ }
{}
