//! In which order lines begin the pages that they write: a flush, and the end of a repin with write through.

ghost use Rattle.std.specs.Prelude.{[], ◌++◌, true};
ghost use Rattle.cc_entry.specs.declared.answer.Answer.TheVariants as answer;
ghost use Rattle.cc_entry.specs.declared.error.CcError.TheVariants as error;
ghost use Rattle.cc_entry.specs.declared.reply.Reply.TheVariants as reply;
ghost use Rattle.cc_entry.specs.declared.reply.Outcome.TheVariants as outcome;
ghost use Rattle.cc_effects.specs.Repins.{UnpinLeft};
ghost use Rattle.cc_pieces.specs.Explained.{IsExplained};
ghost use Rattle.cc_worked.specs.Values.{setup, unit, Leaves, CallDone, CallFailed};
ghost use Rattle.cc_worked.specs.PiecesLines.{one_repin, UnrepinOn};
ghost use Rattle.cc_worked.specs.PiecesRuns.{OneLine};
ghost use Rattle.cc_worked.specs.PiecesWrites.{both_dirty};
ghost use Rattle.cc_worked.specs.PiecesFlushes.{flushes_all, whole_flush, lesser_first, lesser_by_another, greater_first, greater_then_fails, two_repinned, lesser_through, greater_through, flushing_run, flushing_told};

/// A line that flushes begins the least page first, whatever it is answered; another caller's pages do not count. Of its
/// call alone that is not asked.
pub fn flush_begins_the_least_page_first()
    ensures flushed { Leaves (OneLine flushes_all) unit both_dirty lesser_first }
    ensures beside { Leaves (OneLine flushes_all) unit both_dirty lesser_by_another }
    ensures of_its_call { CallDone whole_flush reply.Unit both_dirty greater_first }
    ensures of_its_failed_call { CallFailed whole_flush (error.WriteFault 0) both_dirty greater_then_fails }
    ensures not_of_the_line { Leaves (OneLine flushes_all) unit both_dirty greater_first → ⊥ }
    ensures not_where_it_failed { Leaves (OneLine flushes_all) (answer.Refused (error.WriteFault 0))
        both_dirty greater_then_fails → ⊥ }
{}

/// So does a line that ends a repin with write through.
pub fn write_through_begins_the_least_page_first()
    ensures flushed { Leaves (UnrepinOn one_repin true) unit two_repinned lesser_through }
    ensures of_its_calls { Leaves (UnpinLeft setup 1 2 true) (outcome.Done reply.Unit) two_repinned greater_through }
    ensures not_of_the_line { Leaves (UnrepinOn one_repin true) unit two_repinned greater_through → ⊥ }
{}

/// A run is not explained by a journal in which a flush began its pages in another order.
pub fn run_flushes_the_least_page_first()
    ensures explained { IsExplained setup flushing_run flushing_told [] (lesser_first ++ both_dirty) }
    ensures not_otherwise { IsExplained setup flushing_run flushing_told [] (greater_first ++ both_dirty) → ⊥ }
{}
