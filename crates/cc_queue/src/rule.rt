//! The rule of a queue: one order of all that was pushed, whose front was taken.

ghost use Rattle.cc_queue.specs.Order.{HasPushed, HasTaken, MayHold};

use crossbeam_queue::protocol::{Lesson, Outcome, Protocol, Split};
use std::collections::LinkedList;

/// What a place has pushed, and what it has taken, each in its order. No value of it is made: it exists in proofs alone.
pub struct Hand<T> {
    pub pushed: LinkedList<T>,
    pub taken: LinkedList<T>,
}

/// The rule: what all places have pushed stands in one order, and what they have taken is a prefix of it.
pub struct InOneOrder;

impl<T> Protocol<T, Hand<T>> for InOneOrder {
    ghost use Rattle.cc_queue.specs.Order.{IsInOneOrder, empty_hand};

    ghost holds = { IsInOneOrder };

    ghost first = { empty_hand };
}

/// A push, as the place that makes it sees it.
pub(crate) struct Pushed;

impl<T> Outcome<T, Hand<T>> for Pushed {
    ghost then = { HasPushed };
}

impl<T> Lesson<T, Hand<T>> for Pushed {
    ghost fact = { MayHold };
}

/// The taking of an item.
pub(crate) struct Taken;

impl<T> Outcome<T, Hand<T>> for Taken {
    ghost then = { HasTaken };
}

impl<T> Lesson<T, Hand<T>> for Taken {
    ghost fact = { MayHold };
}

/// A place more, which has pushed and taken nothing.
pub(crate) struct OneMore;

impl<T> Split<Hand<T>> for OneMore {
    ghost use Rattle.cc_queue.specs.Order.{empty_hand};

    ghost left = { λ hand. hand };

    ghost right = { λ hand. empty_hand };
}
