//! Lists that only clauses read.

ghost use Rattle.std.specs.Prelude.{◌≡◌, [], ◌∷◌, List};
ghost use Rattle.std.specs.Borrow.{ftrue};

use std::marker::{Model, PhantomData};

/// The items that came, the newest first, also where none of them is kept. It takes no memory, and only
/// [`PastItems::grow`] makes it longer.
#[derive(Drop)]
pub struct PastItems<E> {
    of: PhantomData<E>,
    pub ghost noted: { List E },
}

impl<E> Model for PastItems<E> {
    ghost also_owns = { λ _. ftrue };
}

// It owns nothing, so it may go to another thread. That is said here, so that whoever sends what has one in it looks no
// further.
unsafe impl<E> Send for PastItems<E> {}

unsafe impl<E> Sync for PastItems<E> {}

impl<E> PastItems<E> {
    /// No item yet.
    pub fn new() -> PastItems<E>
        ensures { result.noted ≡ [] }
    {
        PastItems { of: PhantomData }
    }

    /// Notes the next item.
    pub fn grow(&mut self, item: &E)
        ensures { self.new.noted ≡ item.now ∷ self.old.noted }
    {
        *self = self.and(item);
    }

    /// One more is noted.
    fn and(&self, item: &E) -> PastItems<E>
        ensures { result.noted ≡ item.now ∷ self.now.noted }
    {
        PastItems { of: PhantomData }
    }
}
