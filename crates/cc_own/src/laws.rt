//! What holds of the open holds of a pass. Each function does nothing: its contract is the law.

ghost use Rattle.std.specs.Prelude.{◌≡◌, ℕ, ◌+◌, ◌≤◌, Bool, true, false, nat_eq, Option, Some, List, ◌++◌};
ghost use Rattle.std.specs.List.{list_any, IsDistinct};
ghost use Rattle.cc_entry.specs.declared.call.Call.{Call};
ghost use Rattle.cc_entry.specs.declared.error.CcError.{CcError};
ghost use Rattle.cc_entry.specs.declared.reply.Reply.{Reply};
ghost use Rattle.cc_entry.specs.declared.reply.Outcome.{Outcome};
ghost use Rattle.cc_entry.specs.declared.reply.Outcome.TheVariants as outcome;
ghost use Rattle.cc_entry.specs.declared.entry.Entry.{Entry};
ghost use Rattle.cc_model.specs.Setup.{Setup};
ghost use Rattle.cc_model.specs.History.{history};
ghost use Rattle.cc_model.specs.Acts.{file_of};
ghost use Rattle.cc_model.specs.Holds.{Hold, hold_at, holds_of, range_held};
ghost use Rattle.cc_model.specs.Touches.{size_of};
ghost use Rattle.cc_model.specs.Residency.{all_resident};
ghost use Rattle.cc_model.specs.Filing.{IsFiled};
ghost use Rattle.cc_model.specs.Legal.{IsLegal};
ghost use Rattle.cc_model.specs.Good.{IsGoodSoFar};
ghost use Rattle.cc_effects.specs.Moments.{own, Others};
ghost use Rattle.cc_effects.specs.Calls.{CallLeft};
ghost use Rattle.cc_own.specs.Own.{HasHold, ids_of, hold_after, changes_it, changes_hold, IsUnchanged};

/// Others' entries leave the holds of a pass as they were, and so does a stretch in which no entry of the pass
/// changes the hold of the id.
pub fn holds_stay_own()
    ensures others { (u : Setup) (me s id : ℕ) (hold : Hold) (later past : List Entry) →
        IsGoodSoFar u (later ++ past) → Others me later → HasHold me s id hold past → HasHold me s id hold (later ++ past) }
    ensures unchanged { (u : Setup) (me s id : ℕ) (hold : Hold) (during past : List Entry) →
        IsGoodSoFar u (during ++ past) → list_any (changes_hold id) (own me during) ≡ false →
        HasHold me s id hold past → HasHold me s id hold (during ++ past) }
    ensures between { (u : Setup) (me s id : ℕ) (hold : Hold) (old new : List Entry) →
        IsUnchanged me id old new → IsGoodSoFar u new → HasHold me s id hold old → HasHold me s id hold new }
{}

/// A call of a pass that could be filed under a stream still can after others' entries.
pub fn filed_calls_stay_filed()
    ensures { (u : Setup) (me s : ℕ) (it : Call) (later past : List Entry) →
        IsGoodSoFar u (later ++ past) → Others me later → IsFiled (holds_of (history past s)) me (Some s) it (file_of it) →
        IsFiled (holds_of (history (later ++ past) s)) me (Some s) it (file_of it) }
{}

/// What a call leaves of a hold of its pass: one that does not change it, and one that failed, leave it as it
/// was; a done call makes of it what is defined.
pub fn calls_leave_holds()
    ensures unchanged { (u : Setup) (me s id : ℕ) (hold : Hold) (it : Call) (ended : Outcome) (old new : List Entry) →
        CallLeft u me it ended old new → IsGoodSoFar u new → changes_it id it ≡ false →
        HasHold me s id hold old → HasHold me s id hold new }
    ensures failed { (u : Setup) (me s id : ℕ) (hold : Hold) (it : Call) (e : CcError) (old new : List Entry) →
        CallLeft u me it (outcome.Failed e) old new → IsGoodSoFar u new → HasHold me s id hold old → HasHold me s id hold new }
    ensures done { (u : Setup) (me s id : ℕ) (hold after : Hold) (it : Call) (r : Reply) (old new : List Entry) →
        CallLeft u me it (outcome.Done r) old new → IsGoodSoFar u new → hold_after id it hold ≡ Some after →
        HasHold me s id hold old → HasHold me s id after new }
{}

/// The open holds of a stream have different ids, and an id that is open on one stream is open on no other.
pub fn ids_are_apart()
    ensures distinct { (u : Setup) (past : List Entry) (s : ℕ) → IsLegal u past →
        IsDistinct nat_eq (ids_of (holds_of (history past s))) }
    ensures one_stream { (u : Setup) (past : List Entry) (s t id : ℕ) (hold other : Hold) → IsLegal u past →
        hold_at (holds_of (history past s)) id ≡ Some hold → hold_at (holds_of (history past t)) id ≡ Some other → s ≡ t }
{}

/// A hold lies within the size of its stream, and each page of its range is resident.
pub fn held_bytes_are_there()
    ensures resident { (u : Setup) (me s id : ℕ) (hold : Hold) (past : List Entry) → IsGoodSoFar u past →
        HasHold me s id hold past → all_resident (history past s) (range_held hold) ≡ true }
    ensures within { (u : Setup) (me s id : ℕ) (hold : Hold) (past : List Entry) → IsGoodSoFar u past →
        HasHold me s id hold past → hold.at + hold.len ≤ size_of (history past s) }
{}
