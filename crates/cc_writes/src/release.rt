//! A place that is reserved is given back.

ghost use Rattle.std.specs.Prelude.{◌≡◌, ℕ, false, List, Some};
ghost use Rattle.cc_entry.specs.declared.call.Call.{Call};
ghost use Rattle.cc_entry.specs.declared.entry.Entry.{Entry};
ghost use Rattle.cc_book.specs.Book.{BookState};
ghost use Rattle.cc_effects.specs.Calls.{IsUnderWay};
ghost use Rattle.cc_writes.specs.Hands.{HasBook, IsAtRest, SameDisk, WentWith};

use cc_turns::Turns;

/// Gives the place back that is reserved for a page which is not to come in.
pub fn release_at<T: Turns>(turns: &mut T)
    requires free { (T.standing turns.old).held.journal ≡ false }
    requires reserved { (T.standing turns.old).in_flight ≡ 1 }
    ensures book { (s : ℕ) (b : BookState) →
        HasBook (T.standing turns.old) s b → HasBook (T.standing turns.new) s b }
    ensures rest { (s : ℕ) → IsAtRest (T.standing turns.old) s → IsAtRest (T.standing turns.new) s }
    ensures went { WentWith 0 (T.standing turns.old) (T.standing turns.new) }
    ensures disk { (s : ℕ) → (T.standing turns.old).held.device ≡ Some s →
        SameDisk (T.standing turns.old).seen (T.standing turns.new).seen s }
    ensures left { (it : Call) (begun : List Entry) →
        IsUnderWay (T.standing turns.old).number it begun (T.standing turns.old).seen →
        IsUnderWay (T.standing turns.old).number it begun (T.standing turns.new).seen }
{
    let mut journal = turns.take_journal();
    journal.release(1);
    turns.give_journal(journal);
}
