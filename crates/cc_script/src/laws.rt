//! Laws of the grammar: functions without a body, whose clauses are proved.

ghost use Rattle.cc_script.specs.Laws.{NumbersAreDecimal, VerbsDiffer, VerbsAreFound, VerbsAreNoCallers, PathsDiffer, PathsAreFound, LinesJoin, LinesAreWhole, WordsSpell, FilesSpell, StreamsSpell, ReadsSpell, SettingsSpell, ScriptsAreWithin, ScriptsAreOfMode, PhasesRise, WordsGoOn, WordsAddUp, WordsAreCounted};

/// A number's word is exactly its decimal text, and stands for a number below 2^64.

pub fn numbers_are_decimal()
    ensures { NumbersAreDecimal }
{}

/// The texts of the verbs differ from one another and from caller words, and each is found.
pub fn verbs_differ()
    ensures differ { VerbsDiffer }
    ensures found { VerbsAreFound }
    ensures callers { VerbsAreNoCallers }
{}

/// The words of the paths of a read differ from one another, and each is found.
pub fn paths_differ()
    ensures differ { PathsDiffer }
    ensures found { PathsAreFound }
{}

/// The lines of a script are its bytes between line feeds.
pub fn lines_join()
    ensures join { LinesJoin }
    ensures whole { LinesAreWhole }
{}

/// A word is read as bytes exactly where it spells them: `-` spells none, items spell theirs. It is read as a file
/// exactly where it names an object of a stream: the name alone its object 0, the name, `:` and a number that one.
pub fn words_spell()
    ensures bytes { WordsSpell }
    ensures files { FilesSpell }
{}

/// The words of a stream, of a read and of a line that sets a number are exactly those that spell them.
pub fn lines_spell()
    ensures streams { StreamsSpell }
    ensures reads { ReadsSpell }
    ensures settings { SettingsSpell }
{}

/// Every script of the grammar keeps within what its run may rely on, in which no line is of an earlier phase
/// than one before it, and has the actions of its mode alone.
pub fn scripts_are_within()
    ensures within { ScriptsAreWithin }
    ensures of_mode { ScriptsAreOfMode }
    ensures phases { PhasesRise }
{}

/// What a caller bound goes on from line to line: lines that follow others are right over what those bound, and a
/// caller's lines bind as many words as are counted.
pub fn words_go_on()
    ensures right { WordsGoOn }
    ensures adds { WordsAddUp }
    ensures counted { WordsAreCounted }
{}
