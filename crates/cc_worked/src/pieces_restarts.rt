//! What the lines of restarts leave between two moments, those of streams behind them, and a checkpoint.

ghost use Rattle.std.specs.Prelude.{◌≡◌, [], ◌∷◌, Some, None};
ghost use Rattle.cc_entry.specs.declared.error.CcError.TheVariants as error;
ghost use Rattle.cc_entry.specs.declared.answer.Answer.TheVariants as answer;
ghost use Rattle.cc_pieces.specs.Checkpoints.{record_of_rows};
ghost use Rattle.cc_pieces.specs.Restarts.{refused_for};
ghost use Rattle.cc_worked.specs.Values.{unit, Leaves, LeavesNothing};
ghost use Rattle.cc_worked.specs.PiecesRuns.{full_at, opens, opens_with};
ghost use Rattle.cc_worked.specs.PiecesRestarts.{OneRestart, OneStreamBehind, restart_flushes, restart_flush_fails, first_write_fails, two_restarts, second_refused};
ghost use Rattle.cc_worked.specs.PiecesRestarts.{OneCheckpoint, first_dirty, one_row_record, checkpoint_made};
ghost use Rattle.cc_worked.specs.PiecesShim.{logged};

/// Pass 0 flushes a log that was restarted, where the log has an entry. A restart that was refused left nothing, or the failure
/// of that flush.
pub fn restarts_are_ended()
    ensures flushed { Leaves (OneRestart 0) (answer.Restarted 3) [] (restart_flushes 0) }
    ensures nothing_to_flush { LeavesNothing (OneRestart 0) (answer.Restarted 0) [] }
    ensures refused { LeavesNothing (OneRestart 0) (answer.Refused first_write_fails) [] }
    ensures flush_failed { Leaves (OneRestart 0) (answer.Refused (error.LogFault 0)) [] restart_flush_fails }
    ensures no_other_log { Leaves (OneRestart 0) (answer.Restarted 3) [] (restart_flushes 1) → ⊥ }
    ensures failure_is_told { Leaves (OneRestart 0) (answer.Restarted 3) [] restart_flush_fails → ⊥ }
    ensures flush_is_told { Leaves (OneRestart 0) (answer.Refused first_write_fails) [] (restart_flushes 0) → ⊥ }
    ensures not_full { LeavesNothing (OneRestart 0) (full_at 0) [] → ⊥ }
{}

/// Behind a restart that was refused each stream of its log is refused so too, and makes no call.
pub fn streams_stay_closed_behind_a_refused_restart()
    ensures by_their_log { refused_for (Some 0) two_restarts second_refused ≡ Some first_write_fails }
    ensures of_another_log { refused_for (Some 1) two_restarts second_refused ≡ None }
    ensures of_a_log_not_restarted { refused_for (Some 2) two_restarts second_refused ≡ None }
    ensures of_no_log { refused_for None two_restarts second_refused ≡ None }
    ensures refused { LeavesNothing (OneStreamBehind first_write_fails) (answer.Refused first_write_fails) [] }
    ensures not_opened { Leaves (OneStreamBehind first_write_fails) unit [] (opens_with 0) → ⊥ }
    ensures no_other_refusal { LeavesNothing (OneStreamBehind first_write_fails) (answer.Refused error.NoMemory) [] → ⊥ }
    ensures calls_nothing { Leaves (OneStreamBehind first_write_fails) (answer.Refused first_write_fails) [] opens → ⊥ }
{}

/// A checkpoint asks for the table and for the states, syncs the streams of the log, and appends its record, up to which it
/// flushes the log; the LSN of the record is its answer.
pub fn checkpoint_makes_its_calls()
    ensures record { record_of_rows (first_dirty ∷ []) ≡ one_row_record }
    ensures made { Leaves OneCheckpoint (answer.NewLsn 3) (logged 8192) checkpoint_made }
    ensures not_nothing { LeavesNothing OneCheckpoint unit (logged 8192) → ⊥ }
{}
