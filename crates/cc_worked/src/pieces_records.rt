//! What the settling of a stream leaves, and the line of a stream that is stored.

ghost use Rattle.std.specs.Prelude.{[]};
ghost use Rattle.cc_entry.specs.declared.error.CcError.TheVariants as error;
ghost use Rattle.cc_entry.specs.declared.answer.Answer.TheVariants as answer;
ghost use Rattle.cc_entry.specs.declared.entry.End.TheVariants as how;
ghost use Rattle.cc_worked.specs.Values.{setup, untold, unit, Leaves};
ghost use Rattle.cc_worked.specs.Records.{recorded};
ghost use Rattle.cc_worked.specs.PiecesReads.{first_resident, one_valid};
ghost use Rattle.cc_worked.specs.PiecesShim.{one_page_valid};
ghost use Rattle.cc_worked.specs.PiecesRuns.{opens, two_full};
ghost use Rattle.cc_worked.specs.PiecesRecords.{SettleLine, record_ends, settles_with, settles, settles_without, settles_first};
ghost use Rattle.cc_worked.specs.PiecesRecords.{settles_beside, valid_up_to, told_state};
ghost use Rattle.cc_worked.specs.PiecesRecords.{first_versions, StoredStream, record_fails, opens_recorded, migrates};

/// A line that settles a stream has its state, its flush, the write of its record and a sync, in this order; it is told what the
/// record tells, which is the lesser of the valid data lengths before the flush and at the record. A record that fails to be
/// written is told of the record's page.
pub fn settling_leaves_its_record()
    ensures settled { Leaves SettleLine (told_state two_full) first_resident settles }
    ensures lesser { Leaves SettleLine (told_state one_page_valid) one_valid (settles_beside 4096) }
    ensures not_more { Leaves SettleLine (told_state (valid_up_to 4097)) one_valid (settles_beside 4097) → ⊥ }
    ensures failed { Leaves SettleLine (answer.Refused (error.WriteFault 2251799813685248))
        first_resident (record_ends (recorded 8192 8192 how.Failed)) }
    ensures not_without_record { Leaves SettleLine (told_state two_full) first_resident settles_without → ⊥ }
    ensures not_before_flush { Leaves SettleLine (told_state two_full) first_resident settles_first → ⊥ }
    ensures not_unsynced { Leaves SettleLine (told_state two_full)
        first_resident (record_ends (recorded 8192 8192 how.Good)) → ⊥ }
    ensures no_other_length { Leaves SettleLine (told_state (valid_up_to 5001)) first_resident settles → ⊥ }
    ensures not_failed { Leaves SettleLine (told_state two_full)
        first_resident (settles_with (recorded 8192 8192 how.Failed)) → ⊥ }
    ensures no_other_page { Leaves SettleLine (answer.Refused (error.WriteFault 0))
        first_resident (record_ends (recorded 8192 8192 how.Failed)) → ⊥ }
{}

/// The line of a stored stream ends where its record is not read; else it opens the stream with what the record tells, and
/// settles it where that is of the first version.
pub fn stored_stream_is_opened_as_its_record_says()
    ensures unread { Leaves (StoredStream setup) (answer.Refused (error.ReadFault 2251799813685248)) [] record_fails }
    ensures recorded { Leaves (StoredStream untold) unit [] opens_recorded }
    ensures migrated { Leaves (StoredStream first_versions) unit [] migrates }
    ensures not_unread { Leaves (StoredStream setup) unit [] record_fails → ⊥ }
    ensures not_unmigrated { Leaves (StoredStream first_versions) unit [] opens → ⊥ }
{}
