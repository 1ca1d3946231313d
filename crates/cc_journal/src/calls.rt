//! What is kept of the calls of each pass.

ghost use Rattle.std.specs.Prelude.{ℕ, ◌≡◌, ◌+◌, ◌-◌, ◌^◌, ◌<◌, ◌≤◌, [], ◌∷◌, List, Option, OnOk};
ghost use Rattle.indexmap.specs.IndexMap.{spare};
ghost use Rattle.cc_entry.specs.declared.entry.Entry.{Entry};
ghost use Rattle.cc_entry.specs.declared.entry.Entry.TheVariants as entry;
ghost use Rattle.cc_entry.specs.declared.call.Call.{Call};
ghost use Rattle.cc_entry.specs.declared.reply.Outcome.{Outcome};
ghost use Rattle.cc_model.specs.Passes.{is_store};
ghost use Rattle.cc_journal.specs.Calls.{call_count_in, owes_in, CountsCalls};

use cc_entry::{Call, Entry, NoMemory, Outcome};
use indexmap::IndexMap;
use std::alloc::Global;

/// What is kept of a pass that has ended a call.
#[derive(Clone, Copy)]
pub(crate) struct PassCalls {
    // How many calls it has ended.
    count: u64,
    // Whether the last of them is a noncached store that was done: the end of that write has a place reserved.
    owes: bool,
}

/// The calls of each pass that has ended one.
#[derive(Drop)]
pub(crate) struct CallCounts {
    counts: IndexMap<u32, PassCalls>,
}

impl CallCounts {
    #[tactic(auto, using(crate::proofs::CallSteps::counts_none))]
    pub(crate) fn new(alloc: Global) -> CallCounts
        ensures { CountsCalls [] result.counts.entries }
    {
        CallCounts {
            counts: IndexMap::new(alloc),
        }
    }

    /// How many calls of the pass have ended.
    pub(crate) fn of(&self, pass: u32) -> u64
        ensures { result ≡ call_count_in self.now.counts.entries pass }
    {
        match self.counts.get(&pass) {
            Some(calls) => calls.count,
            None => 0,
        }
    }

    /// Whether the pass owes the end of a noncached write.
    pub(crate) fn owes(&self, pass: u32) -> bool
        ensures { result ≡ owes_in self.now.counts.entries pass }
    {
        match self.counts.get(&pass) {
            Some(calls) => calls.owes,
            None => false,
        }
    }

    /// Makes room for so many passes more.
    pub(crate) fn reserve(&mut self, passes: usize) -> Result<(), NoMemory>
        ensures room { OnOk result (passes ≤ spare self.new.counts) }
        ensures counts { self.new.counts.entries ≡ self.old.counts.entries }
        ensures no_less { spare self.old.counts ≤ spare self.new.counts }
    {
        self.counts.reserve(passes).map_err(|_| NoMemory)
    }

    /// Counts one more ended call of the pass, which is a done noncached store or is none.
    pub(crate) fn count(&mut self, pass: u32, owes: bool)
        requires room { 0 < spare self.old.counts }
        requires few { call_count_in self.old.counts.entries pass < 2 ^ 64 - 1 }
        ensures counted { (past : List Entry) (nth : ℕ) (stream : Option ℕ) (call : Call) (ended : Outcome) →
            owes ≡ is_store call ended → CountsCalls past self.old.counts.entries →
            CountsCalls (entry.Call pass nth stream call ended ∷ past) self.new.counts.entries }
        ensures room { spare self.old.counts ≤ spare self.new.counts + 1 }
    {
        let count = self.of(pass) + 1;
        let _old = self.counts.insert(pass, PassCalls { count, owes }).unwrap();
    }

    /// Follows an entry.
    pub(crate) fn follow(&mut self, entry: &Entry)
        requires room { 0 < spare self.old.counts }
        requires few { (pass : ℕ) → call_count_in self.old.counts.entries pass < 2 ^ 64 - 1 }
        ensures counted { (past : List Entry) → CountsCalls past self.old.counts.entries →
            CountsCalls (entry.now ∷ past) self.new.counts.entries }
        ensures room { spare self.old.counts ≤ spare self.new.counts + 1 }
    {
        if let Entry::Call {
            pass,
            call,
            outcome,
            ..
        } = entry
        {
            self.count(*pass, is_store(call, outcome));
        }
    }
}

// Whether a call is a noncached store that was done.
fn is_store(call: &Call, ended: &Outcome) -> bool
    ensures { result ≡ is_store call.now ended.now }
{
    match (call, ended) {
        (Call::NcStore { .. }, Outcome::Done(_)) => true,
        _ => false,
    }
}
