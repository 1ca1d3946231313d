//! What the words of the callers name.

ghost use Rattle.std.specs.Prelude.{◌≡◌, ◌∷◌, ◌<◌, ◌≤◌, [], IfOk, length, map, true};
ghost use Rattle.std.specs.List.{find};
ghost use Rattle.cc_pieces.specs.Bindings.{hold_named};
ghost use Rattle.cc_script.specs.HoldWords.{binds, meets};
ghost use Rattle.cc_event_lines.specs.Names.{bindings_in, hold_told, is_named_by, named_behind, pinned_by, word_made, word_pinned, words_in};

use crate::newest::NewestHolds;
use cc_entry::{Answer, HoldKind, NoMemory, Reply};
use cc_script::{Action, ActionLine, HoldWord, Need};
use cc_traits::PastItems;
use std::alloc::Global;
use std::marker::Model;

/// A hold that a word of a caller names.
#[derive(Clone, Copy)]
pub(crate) struct NamedHold {
    pub(crate) caller: u32,
    /// The word's number among those that the caller binds.
    pub(crate) word: usize,
    pub(crate) id: u64,
    pub(crate) kind: HoldKind,
}

/// What a line does to the names.
#[derive(Clone, Copy)]
pub(crate) enum NameChange {
    /// A word names this hold.
    Names(NamedHold),
    /// What a word of a caller names is a pin.
    Pins { caller: u32, word: usize },
}

/// The holds that the callers' words name, in the order in which they were made; kept is the newest of each word.
#[derive(Drop)]
pub(crate) struct NamedHolds {
    newest: NewestHolds,
    /// For how many words there is room.
    room: usize,
    past: PastItems<NameChange>,
}

impl Model for NamedHolds {
    ghost use Rattle.indexmap.specs.IndexMap.{spare};
    ghost use Rattle.cc_event_lines.specs.Names.{AreNewest, NamedHoldsState, named_of};

    ghost Value = { NamedHoldsState };

    ghost view = { λ n. record { named = named_of n.past.noted; room = n.room } };

    ghost invariant = { λ n. AreNewest (named_of n.past.noted) n.room n.newest.holds.entries (spare n.newest.holds) };
}

impl NamedHolds {
    /// None yet, with room for so many.
    pub(crate) fn with_room(alloc: Global, words: usize) -> Result<NamedHolds, NoMemory>
        ensures { IfOk result (λ names. (names.named ≡ []) × (words ≤ names.room)) }
    {
        Ok(NamedHolds {
            newest: NewestHolds::with_room(alloc, words)?,
            room: words,
            past: PastItems::new(),
        })
    }

    /// The id of the hold that a word of a caller names, where it was made and is of a kind that serves. The newest
    /// counts.
    pub(crate) fn hold(&self, caller: u32, word: HoldWord, need: Need) -> Option<u64>
        ensures { result ≡ hold_named (bindings_in self.now.named caller) word (meets need) }
    {
        let named = self.newest(caller, word.number())?;
        if serves(named.kind, need) {
            Some(named.id)
        } else {
            None
        }
    }

    // The newest hold that a word of a caller names.
    fn newest(&self, caller: u32, word: usize) -> Option<NamedHold>
        ensures { result ≡ find (is_named_by caller word) self.now.named }
    {
        self.newest.of(caller, word)
    }

    /// Follows a line that was answered so: a word that it binds names the hold that it was answered, and a map that it
    /// pinned is a pin.
    pub(crate) fn follow(&mut self, line: &ActionLine, answer: &Answer)
        requires { binds line.now.action ≡ true → length self.old.named < self.old.room }
        ensures { self.new ≡ record self.old {
          named = named_behind line.now (hold_told answer.now) self.old.named;
        } }
    {
        let Some(id) = hold_told(answer) else {
            return;
        };
        if let Some((word, kind)) = word_made(&line.action) {
            self.name(NamedHold {
                caller: line.caller,
                word: word.number(),
                id,
                kind,
            });
        } else if let Some(word) = word_pinned(&line.action) {
            self.pin(line.caller, word.number());
        }
    }

    // A word names a hold from now on.
    fn name(&mut self, named: NamedHold)
        requires { length self.old.named < self.old.room }
        ensures { self.new ≡ record self.old { named = named ∷ self.old.named } }
    {
        self.past.grow(&NameChange::Names(named));
        self.newest.name(named);
    }

    // The hold that a word of a caller names is a pin from now on.
    fn pin(&mut self, caller: u32, word: usize)
        ensures { self.new ≡ record self.old { named = map (pinned_by caller word) self.old.named } }
    {
        self.past.grow(&NameChange::Pins { caller, word });
        self.newest.pin(caller, word);
    }
}

/// How many words lines bind, so that there may be room for all of them at once.
pub(crate) fn words_in(lines: &[ActionLine]) -> usize
    ensures { result ≡ words_in lines.now }
{
    let mut count = 0;
    for line in lines {
        if line.action.binds() {
            count += 1;
        }
    }
    count
}

// Whether a hold of this kind serves.
fn serves(kind: HoldKind, need: Need) -> bool
    ensures { result ≡ meets need kind }
{
    match need {
        Need::Map => matches!(kind, HoldKind::Map),
        Need::Pin => matches!(kind, HoldKind::Pin),
        Need::MapOrPin => matches!(kind, HoldKind::Map | HoldKind::Pin),
        Need::Repin => matches!(kind, HoldKind::Repin),
        Need::ReadChain => matches!(kind, HoldKind::ReadChain),
        Need::WriteChain => matches!(kind, HoldKind::WriteChain),
        Need::Chain => matches!(kind, HoldKind::ReadChain | HoldKind::WriteChain),
    }
}

// The hold that a line was answered.
fn hold_told(answer: &Answer) -> Option<u64>
    ensures { result ≡ hold_told answer.now }
{
    match answer {
        Answer::Given(Reply::Hold(id)) => Some(*id),
        _ => None,
    }
}

// The word that an action binds, and the kind of hold that it makes.
fn word_made(action: &Action) -> Option<(HoldWord, HoldKind)>
    ensures { result ≡ word_made action.now }
{
    match action {
        Action::Map { word, .. } => Some((*word, HoldKind::Map)),
        Action::PinRead { word, .. } | Action::PreparePin { word, .. } => {
            Some((*word, HoldKind::Pin))
        }
        Action::Repin { made, .. } => Some((*made, HoldKind::Repin)),
        Action::MdlRead { word, .. } => Some((*word, HoldKind::ReadChain)),
        Action::MdlWrite { word, .. } => Some((*word, HoldKind::WriteChain)),
        _ => None,
    }
}

// The word whose map an action pins.
fn word_pinned(action: &Action) -> Option<HoldWord>
    ensures { result ≡ word_pinned action.now }
{
    match action {
        Action::PinMapped { word, .. } => Some(*word),
        _ => None,
    }
}
