//! Laws of the texts: functions without a body, whose clauses are proved.

ghost use Rattle.cc_print.specs.Summary.{OkIsPrinted, RefusedIsPrinted};

/// What a summary counts as ok is what is printed with `ok` at its head, and what it counts as refused is what is printed
/// with `error` there.
pub fn summaries_count_texts()
    ensures ok { OkIsPrinted }
    ensures refused { RefusedIsPrinted }
{}
