//! What a flush wrote stays. The function does nothing: its contract is the law.

ghost use Rattle.std.specs.Prelude.{Result, OnOk};
ghost use Rattle.std.specs.declared.option.Option.{Option};
ghost use Rattle.cc_entry.specs.Place.{File, Range};
ghost use Rattle.cc_entry.specs.declared.error.CcError.{CcError};
ghost use Rattle.cc_calls.specs.Flushes.{FlushEnds};
ghost use Rattle.cc_crash_laws.specs.Written.{KeepsWhatItWrote};
ghost use Rattle.cc_turns.specs.Standing.{Standing};

/// A flush of a span that was done wrote pages of it and synced the disk. No crash takes back a page that it wrote itself, if nobody
/// began to write the page behind it before the sync: at every later place a crash leaves of the page what the disk held of it for
/// sure at the sync, or the page as it was when one of its transfers began since.
pub fn what_a_flush_wrote_stays()
    ensures { (old new : Standing) (file : File) (span : Option Range) (answer : Result (Unit {0}) CcError) →
        FlushEnds old new file span answer →
        OnOk answer (KeepsWhatItWrote old.setup old.number file.stream span old.seen new.seen) }
{}
