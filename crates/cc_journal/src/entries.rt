//! The entries of a journal: all of them are kept, or the last one alone.

ghost use Rattle.std.specs.Prelude.{◌≡◌, ℕ, ◌+◌, ◌-◌, ◌^◌, ◌<◌, ◌≤◌, true, [], ◌∷◌, length, reverse, slice_get, OnOk};
ghost use Rattle.std.specs.Option.{option_copied};

use cc_entry::{Entry, NoMemory};
use cc_traits::PastItems;
use std::alloc::Global;
use std::marker::Model;

/// The entries that came. Clauses see all of them, whatever is kept.
#[derive(Drop)]
pub(crate) struct KeptEntries {
    past: PastItems<Entry>,
    kept: Keeping,
}

/// What is kept of the entries that came.
#[derive(Drop)]
enum Keeping {
    /// All of them, the oldest first.
    All(Vec<Entry>),
    /// The last one, and how many came.
    Last(Option<Entry>, u64),
}

impl Model for KeptEntries {
    ghost use Rattle.cc_journal.specs.Entries.{Record, Keeps, keeps_all, entries_room};

    ghost Value = { Record };

    ghost view = { λ e. record { past = e.past.noted; is_recorded = keeps_all e.kept; room = entries_room e.kept } };

    ghost invariant = { λ e. Keeps e.past.noted e.kept };
}

impl KeptEntries {
    /// No entry yet.
    pub(crate) fn new(alloc: Global, is_recorded: bool) -> KeptEntries
        ensures none { result.past ≡ [] }
        ensures kind { result.is_recorded ≡ is_recorded }
    {
        let kept = if is_recorded {
            Keeping::All(Vec::new(alloc))
        } else {
            Keeping::Last(None, 0)
        };
        KeptEntries {
            past: PastItems::new(),
            kept,
        }
    }

    /// How many entries came.
    pub(crate) fn len(&self) -> u64
        ensures { result ≡ length self.now.past }
    {
        match &self.kept {
            Keeping::All(entries) => entries.len() as u64,
            Keeping::Last(_, count) => *count,
        }
    }

    /// The last entry.
    pub(crate) fn last(&self) -> Option<&Entry>
        ensures { option_copied result ≡ slice_get self.now.past 0 }
    {
        match &self.kept {
            Keeping::All(entries) => entries.last(),
            Keeping::Last(last, _) => last.as_ref(),
        }
    }

    /// All entries, the oldest first.
    pub(crate) fn all(&self) -> &[Entry]
        requires { self.now.is_recorded ≡ true }
        ensures { reverse result.now ≡ self.now.past }
    {
        match &self.kept {
            Keeping::All(entries) => entries,
            Keeping::Last(..) => unreachable!(),
        }
    }

    /// Makes room for so many entries more.
    pub(crate) fn reserve(&mut self, n: usize) -> Result<(), NoMemory>
        requires countable { length self.old.past + n < 2 ^ 64 }
        ensures room { OnOk result (n ≤ self.new.room) }
        ensures no_less { self.old.room ≤ self.new.room }
        ensures past { self.new.past ≡ self.old.past }
        ensures kind { self.new.is_recorded ≡ self.old.is_recorded }
    {
        match &mut self.kept {
            Keeping::All(entries) => entries.reserve(n).map_err(|_| NoMemory),
            Keeping::Last(..) => Ok(()),
        }
    }

    /// Takes an entry. It takes no memory.
    pub(crate) fn push_reserved(&mut self, entry: Entry)
        requires { 0 < self.old.room }
        ensures past { self.new.past ≡ entry ∷ self.old.past }
        ensures room { self.new.room ≡ self.old.room - 1 }
        ensures kind { self.new.is_recorded ≡ self.old.is_recorded }
    {
        self.past.grow(&entry);
        match &mut self.kept {
            Keeping::All(entries) => entries.push_reserved(entry),
            Keeping::Last(last, count) => {
                *last = Some(entry);
                *count += 1;
            }
        }
    }

    /// All entries, the oldest first.
    pub(crate) fn into_all(self) -> Vec<Entry>
        requires { self.is_recorded ≡ true }
        ensures { reverse result.items ≡ self.past }
    {
        let KeptEntries { kept, .. } = self;
        match kept {
            Keeping::All(entries) => entries,
            Keeping::Last(..) => unreachable!(),
        }
    }
}
