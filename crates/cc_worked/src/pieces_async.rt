//! What lines of queued reads leave between two moments, by their answers.

ghost use Rattle.std.specs.Prelude.{[], ◌∷◌, Some, None};
ghost use Rattle.cc_entry.specs.declared.answer.Answer.TheVariants as answer;
ghost use Rattle.cc_entry.specs.declared.answer.AsyncStart.TheVariants as start;
ghost use Rattle.cc_entry.specs.declared.error.CcError.TheVariants as error;
ghost use Rattle.cc_worked.specs.Values.{Leaves, LeavesNothing};
ghost use Rattle.cc_worked.specs.PiecesReads.{two_pages, first_resident, page_comes_in, fill_fails, read_without_waiting};
ghost use Rattle.cc_worked.specs.PiecesAsync.{CompleteLine, StartLine, it_fails, it_reads, its_number, of_another_place, page_is_missing};

/// A read that may be queued is answered its bytes where it is done, and a number, or that the queue is full, where its page is
/// missing.
pub fn queued_reads_are_answered()
    ensures ready { Leaves StartLine (answer.Started (start.Ready (90 ∷ []))) first_resident read_without_waiting }
    ensures queued { Leaves StartLine (answer.Started (start.Queued its_number)) two_pages page_is_missing }
    ensures full { Leaves StartLine (answer.Refused error.QueueFull) two_pages page_is_missing }
    ensures not_queued { Leaves StartLine (answer.Started (start.Queued its_number)) first_resident read_without_waiting → ⊥ }
    ensures not_told_missing { Leaves StartLine (answer.Refused (error.NotResident 0)) two_pages page_is_missing → ⊥ }
    ensures not_ready { Leaves StartLine (answer.Started (start.Ready (90 ∷ []))) two_pages page_is_missing → ⊥ }
{}

/// The completion of a queued read is that read, which waits: it has its answer. One that found none leaves nothing.
pub fn completions_are_the_reads_that_were_queued()
    ensures reads { Leaves CompleteLine (answer.Completed (Some it_reads)) two_pages page_comes_in }
    ensures fails { Leaves CompleteLine (answer.Completed (Some it_fails)) two_pages fill_fails }
    ensures none { LeavesNothing CompleteLine (answer.Completed None) two_pages }
    ensures none_was_queued { Leaves CompleteLine (answer.Completed None) two_pages page_comes_in → ⊥ }
    ensures no_other_place { Leaves CompleteLine (answer.Completed (Some of_another_place)) two_pages page_comes_in → ⊥ }
    ensures no_other_answer { Leaves CompleteLine (answer.Completed (Some it_fails)) two_pages page_comes_in → ⊥ }
    ensures waits { Leaves CompleteLine (answer.Completed (Some it_reads)) first_resident read_without_waiting → ⊥ }
{}
