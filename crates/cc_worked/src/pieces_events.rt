//! What an event of `steps` leaves whose disk or log failed.

ghost use Rattle.std.specs.Prelude.{[]};
ghost use Rattle.cc_worked.specs.PiecesEvents.{EventFaults, append_nowhere, fill_of_zeros, flush_nowhere, half_valid, nowhere_failed, zeros_failed};

/// A log faults only where there is that log, and a page that comes in only where it has a byte below the valid data length.
pub fn faults_are_of_what_is_asked()
    ensures no_log_to_append_to { EventFaults append_nowhere nowhere_failed [] → ⊥ }
    ensures no_log_to_flush { EventFaults flush_nowhere nowhere_failed [] → ⊥ }
    ensures no_byte_to_read { EventFaults fill_of_zeros zeros_failed half_valid → ⊥ }
{}
