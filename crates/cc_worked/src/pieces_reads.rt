//! What copied reads leave between two moments.

ghost use Rattle.cc_entry.specs.declared.error.CcError.TheVariants as error;
ghost use Rattle.cc_worked.specs.Values.{CallDone, CallFailed};
ghost use Rattle.cc_worked.specs.PiecesReads.{two_pages, first_resident, one_valid, first_byte, a_byte, page_comes_in, another_beside, other_page_comes_in, no_waiting, comes_in_without_waiting, read_that_syncs, page_alone, fill_alone, fill_fails, closed_meanwhile, fault_alone, fill_of_another_fails, second_byte, zeros_fail, past_the_size, write_refused};

/// A read brings in the pages of its range, and ends with its entry.
pub fn read_brings_its_page_in()
    ensures done { CallDone first_byte a_byte two_pages page_comes_in }
    ensures beside_another { CallDone first_byte a_byte two_pages another_beside }
    ensures not_another { CallDone first_byte a_byte two_pages other_page_comes_in → ⊥ }
    ensures not_unasked { CallDone no_waiting a_byte two_pages comes_in_without_waiting → ⊥ }
    ensures no_sync { CallDone first_byte a_byte two_pages read_that_syncs → ⊥ }
    ensures not_without_entry { CallDone first_byte a_byte two_pages page_alone → ⊥ }
{}

/// A call is told a failed read of its own, of a page that was on the disk alone; a refusal that another
/// caller caused meanwhile comes in its place.
pub fn read_fault_has_its_entry()
    ensures told { CallFailed first_byte (error.ReadFault 0) two_pages fill_fails }
    ensures overtaken { CallFailed first_byte error.NotCached two_pages closed_meanwhile }
    ensures not_alone { CallFailed first_byte (error.ReadFault 0) two_pages fault_alone → ⊥ }
    ensures not_of_another { CallFailed first_byte (error.ReadFault 0) two_pages fill_of_another_fails → ⊥ }
    ensures not_of_a_resident_page { CallFailed first_byte (error.ReadFault 0) first_resident fill_fails → ⊥ }
    ensures not_of_zeros { CallFailed second_byte (error.ReadFault 1) one_valid zeros_fail → ⊥ }
{}

/// A refusal leaves the call's entry; want of memory or of room leaves what was done, a failed read among it, and
/// no entry of the call.
pub fn refusals_and_want_of_memory()
    ensures refused { CallFailed past_the_size (error.BeyondSize 8192) two_pages write_refused }
    ensures given_up { CallFailed first_byte error.NoMemory two_pages page_alone }
    ensures no_entry { CallFailed first_byte error.NoMemory two_pages page_comes_in → ⊥ }
    ensures full { CallFailed first_byte (error.JournalFull 2) two_pages page_alone }
    ensures full_after_fault { CallFailed first_byte (error.JournalFull 2) two_pages fill_alone }
    ensures full_without_entry { CallFailed first_byte (error.JournalFull 3) two_pages page_comes_in → ⊥ }
    ensures no_failed_read { CallFailed first_byte error.NoMemory two_pages fill_fails → ⊥ }
{}
