//! The words of each caller.

ghost use Rattle.std.specs.Prelude.{◌≡◌, ◌≤◌, IfOk, length, replicate, get_or, slice_set};
ghost use Rattle.cc_script.specs.Grammar.{no_words};

use crate::bound::Bounds;
use crate::hold_word::HoldNames;
use cc_entry::NoMemory;
use std::alloc::Global;
use std::marker::Model;
use std::mem::replace;

/// One more than there are callers: they are numbered from 1 on.
const PLACES: usize = 17;

/// The words that a caller bound, and what they stand for.
#[derive(Drop)]
pub(crate) struct CallerWords {
    pub(crate) names: HoldNames,
    pub(crate) bounds: Bounds,
}

impl CallerWords {
    fn new(alloc: Global) -> CallerWords
        ensures { result ≡ no_words }
    {
        CallerWords {
            names: HoldNames::new(alloc),
            bounds: Bounds::new(alloc),
        }
    }
}

/// The words of the callers, by their numbers; 0 is none's.
#[derive(Drop)]
pub(crate) struct AllWords {
    alloc: Global,
    items: Vec<CallerWords>,
}

impl Model for AllWords {
    ghost use Rattle.std.specs.Prelude.{List, length, ◌≡◌};
    ghost use Rattle.cc_script.specs.declared.caller_words.CallerWords.{CallerWords};

    ghost Value = { List CallerWords };

    ghost view = { λ w. w.items.items };

    ghost invariant = { λ w. length w.items.items ≡ 17 };
}

impl AllWords {
    pub(crate) fn new(alloc: Global) -> Result<AllWords, NoMemory>
        ensures { IfOk result (λ words. words ≡ replicate 17 no_words) }
    {
        let mut items = Vec::with_capacity(alloc, PLACES).map_err(|_| NoMemory)?;
        for _ in 0..PLACES {
            items.push_reserved(CallerWords::new(alloc));
        }
        Ok(AllWords { alloc, items })
    }

    /// Takes a caller's words out, which are to be put back.
    pub(crate) fn take(&mut self, caller: u32) -> CallerWords
        requires { caller ≤ 16 }
        ensures taken { result ≡ get_or self.old caller no_words }
        ensures rest { self.new ≡ slice_set self.old caller no_words }
    {
        replace(
            &mut self.items[caller as usize],
            CallerWords::new(self.alloc),
        )
    }

    pub(crate) fn put(&mut self, caller: u32, own: CallerWords)
        requires { caller ≤ 16 }
        ensures { self.new ≡ slice_set self.old caller own }
    {
        self.items[caller as usize] = own;
    }
}
