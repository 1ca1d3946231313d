//! What a caller's words stand for, as far as the lines say it.

ghost use Rattle.std.specs.Prelude.{◌≡◌, ◌∷◌, ◌++◌, [], slice_get, OnOk};
ghost use Rattle.cc_entry.specs.declared.hold.HoldKind.TheVariants as kind;
ghost use Rattle.cc_script.specs.HoldWords.{meets, bound_covers, is_usable_word, bound_has_range, may_use, fresh, as_pin, as_ended, with_hold_changed, bound_repinned, bound_after};

use crate::hold_word::HoldWord;
use crate::script::Action;
use cc_entry::{FileId, HoldKind, NoMemory};
use std::alloc::Global;
use std::marker::Model;

/// The hold that a word names: its kind, its bytes, and whether a line ended it.
#[derive(Clone, Copy)]
pub struct Bound {
    pub kind: HoldKind,
    pub file: FileId,
    pub at: u64,
    pub len: u64,
    pub ended: bool,
}

/// Which kinds of hold serve a verb.
#[derive(Clone, Copy)]
pub enum Need {
    Map,
    Pin,
    MapOrPin,
    Repin,
    ReadChain,
    WriteChain,
    Chain,
}

impl Need {
    fn is_met_by(self, kind: HoldKind) -> bool
        ensures { result ≡ meets self kind }
    {
        match self {
            Need::Map => matches!(kind, HoldKind::Map),
            Need::Pin => matches!(kind, HoldKind::Pin),
            Need::MapOrPin => matches!(kind, HoldKind::Map | HoldKind::Pin),
            Need::Repin => matches!(kind, HoldKind::Repin),
            Need::ReadChain => matches!(kind, HoldKind::ReadChain),
            Need::WriteChain => matches!(kind, HoldKind::WriteChain),
            Need::Chain => matches!(kind, HoldKind::ReadChain | HoldKind::WriteChain),
        }
    }
}

impl Bound {
    fn fresh(kind: HoldKind, file: FileId, at: u64, len: u64) -> Bound
        ensures { result ≡ fresh kind file at len }
    {
        Bound {
            kind,
            file,
            at,
            len,
            ended: false,
        }
    }

    fn covers(&self, at: u64, len: u64) -> bool
        ensures { result ≡ bound_covers at len self.now }
    {
        self.at <= at && at - self.at <= self.len && len <= self.len - (at - self.at)
    }

    fn is_open(&self, need: Need) -> bool
        ensures { result ≡ is_usable_word need (Some self.now) }
    {
        !self.ended && need.is_met_by(self.kind)
    }
}

/// What the words of a caller stand for, by their numbers.
#[derive(Drop)]
pub(crate) struct Bounds {
    items: Vec<Bound>,
}

impl Model for Bounds {
    ghost use Rattle.std.specs.Prelude.{List};
    ghost use Rattle.cc_script.specs.declared.bound.Bound.{Bound};

    ghost Value = { List Bound };

    ghost view = { λ b. b.items.items };
}

impl Bounds {
    pub(crate) fn new(alloc: Global) -> Bounds
        ensures { result ≡ [] }
    {
        Bounds {
            items: Vec::new(alloc),
        }
    }

    fn get(&self, word: HoldWord) -> Option<Bound>
        ensures { result ≡ slice_get self.now word }
    {
        self.items.get(word.number()).copied()
    }

    fn is_open(&self, word: HoldWord, need: Need) -> bool
        ensures { result ≡ is_usable_word need (slice_get self.now word) }
    {
        match self.get(word) {
            Some(bound) => bound.is_open(need),
            None => false,
        }
    }

    fn has_range(&self, word: HoldWord, need: Need, at: u64, len: u64) -> bool
        ensures { result ≡ bound_has_range need at len (slice_get self.now word) }
    {
        match self.get(word) {
            Some(bound) => bound.is_open(need) && bound.covers(at, len),
            None => false,
        }
    }

    /// Whether the words that an action uses may be used.
    #[tactic(auto, unfolding(crate::specs::HoldWords::may_use))]
    pub(crate) fn may_use(&self, action: &Action) -> bool
        ensures { result ≡ may_use action.now self.now }
    {
        match action {
            Action::PinMapped { word, .. } => self.is_open(*word, Need::Map),
            Action::HeldRead { word, at, len } => self.has_range(*word, Need::MapOrPin, *at, *len),
            Action::PinnedWrite { word, at, bytes } => {
                self.has_range(*word, Need::Pin, *at, bytes.len())
            }
            Action::SetDirty { word, .. } => self.is_open(*word, Need::Pin),
            Action::Unpin { word } => self.is_open(*word, Need::MapOrPin),
            Action::Repin { word, .. } => self.is_open(*word, Need::Pin),
            Action::UnpinRepinned { word, .. } => self.is_open(*word, Need::Repin),
            Action::MdlBytes { word, at, len } => {
                self.has_range(*word, Need::ReadChain, *at, *len)
            }
            Action::MdlStore { word, at, bytes } => {
                self.has_range(*word, Need::WriteChain, *at, bytes.len())
            }
            Action::MdlDone { word } => self.is_open(*word, Need::Chain),
            Action::MdlAbort { word } => self.is_open(*word, Need::WriteChain),
            _ => true,
        }
    }

    fn push(&mut self, bound: Bound) -> Result<(), NoMemory>
        ensures { OnOk result (self.new ≡ self.old ++ bound ∷ []) }
    {
        self.items.reserve(1).map_err(|_| NoMemory)?;
        self.items.push_reserved(bound);
        Ok(())
    }

    // The map of a word becomes a pin.
    fn pin(&mut self, word: HoldWord)
        ensures { self.new ≡ with_hold_changed as_pin (slice_get self.old word) self.old word }
    {
        if word.number() < self.items.len() {
            self.items[word.number()].kind = HoldKind::Pin;
        }
    }

    fn end(&mut self, word: HoldWord)
        ensures { self.new ≡ with_hold_changed as_ended (slice_get self.old word) self.old word }
    {
        if word.number() < self.items.len() {
            self.items[word.number()].ended = true;
        }
    }

    // Binds a word to a repin of the pin of another.
    fn repin(&mut self, word: HoldWord) -> Result<(), NoMemory>
        ensures { OnOk result (self.new ≡ self.old ++ bound_repinned (slice_get self.old word)) }
    {
        match self.get(word) {
            Some(pin) => self.push(Bound::fresh(HoldKind::Repin, pin.file, pin.at, pin.len)),
            None => Ok(()),
        }
    }

    /// Follows one more line of the caller.
    pub(crate) fn follow(&mut self, action: &Action) -> Result<(), NoMemory>
        ensures { OnOk result (self.new ≡ bound_after action.now self.old) }
    {
        match action {
            Action::Map { file, at, len, .. } => {
                self.push(Bound::fresh(HoldKind::Map, *file, *at, *len))
            }
            Action::PinRead { file, at, len, .. } | Action::PreparePin { file, at, len, .. } => {
                self.push(Bound::fresh(HoldKind::Pin, *file, *at, *len))
            }
            Action::MdlRead { file, at, len, .. } => {
                self.push(Bound::fresh(HoldKind::ReadChain, *file, *at, *len))
            }
            Action::MdlWrite { file, at, len, .. } => {
                self.push(Bound::fresh(HoldKind::WriteChain, *file, *at, *len))
            }
            Action::Repin { word, .. } => self.repin(*word),
            Action::PinMapped { word, .. } => {
                self.pin(*word);
                Ok(())
            }
            Action::Unpin { word }
            | Action::UnpinRepinned { word, .. }
            | Action::MdlDone { word }
            | Action::MdlAbort { word } => {
                self.end(*word);
                Ok(())
            }
            _ => Ok(()),
        }
    }
}
