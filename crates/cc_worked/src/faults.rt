//! Worked journals on faults of the disk: who is told, and what stays dirty.

ghost use Rattle.cc_model.specs.Legal.{IsLegal};
ghost use Rattle.cc_model.specs.Allowed.{IsAllowed};
ghost use Rattle.cc_model.specs.Covered.{IsCovered};
ghost use Rattle.cc_worked.specs.Values.{setup};
ghost use Rattle.cc_worked.specs.Faults.{read_failed, read_fault_of_another, read_fault_elsewhere, read_fault_twice, written_at_last, clean_after_failure, out_after_failure, synced_after_failure, flush_without_second_write, fault_of_its_own, fault_of_another, synced_at_last, flush_by_failed_sync};

/// A read fails by its own caller's fault, once, while another caller brings the page in.
pub fn read_fault_is_its_own()
    ensures legal { IsLegal setup read_failed }
    ensures allowed { IsAllowed setup read_failed }
    ensures covered { IsCovered read_failed }
    ensures not_of_another { IsLegal setup read_fault_of_another → ⊥ }
    ensures not_elsewhere { IsLegal setup read_fault_elsewhere → ⊥ }
    ensures not_twice { IsLegal setup read_fault_twice → ⊥ }
{}

/// After a failed write the page is dirty, and the next flush writes it.
pub fn write_fault_leaves_page_dirty()
    ensures legal { IsLegal setup written_at_last }
    ensures allowed { IsAllowed setup written_at_last }
    ensures covered { IsCovered written_at_last }
    ensures not_clean { IsLegal setup clean_after_failure → ⊥ }
    ensures not_out { IsAllowed setup out_after_failure → ⊥ }
{}

/// A flush after a failed write is not done by a sync alone.
pub fn write_fault_is_written_again()
    ensures legal { IsLegal setup synced_after_failure }
    ensures allowed { IsAllowed setup synced_after_failure }
    ensures covered { IsCovered synced_after_failure }
    ensures not_by_sync { IsAllowed setup flush_without_second_write → ⊥ }
{}

/// A flush fails by a transfer of its own caller, and by no other.
pub fn write_fault_is_its_own()
    ensures legal { IsLegal setup fault_of_its_own }
    ensures allowed { IsAllowed setup fault_of_its_own }
    ensures covered { IsCovered fault_of_its_own }
    ensures not_of_another { IsLegal setup fault_of_another → ⊥ }
{}

/// A failed sync fails the flush; what was written is clean, and the next flush only syncs.
pub fn sync_fault_leaves_page_clean()
    ensures legal { IsLegal setup synced_at_last }
    ensures allowed { IsAllowed setup synced_at_last }
    ensures covered { IsCovered synced_at_last }
    ensures not_by_failed_sync { IsAllowed setup flush_by_failed_sync → ⊥ }
{}
