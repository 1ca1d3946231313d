//! Where locks stand: by the class of their length, then by where they begin, then by their id.

ghost use Rattle.std.specs.Prelude.{◌≡◌, ◌-◌, ◌^◌, ◌<◌, ◌≤◌, map, filter, min};
ghost use Rattle.std.specs.List.{reduce};
ghost use Rattle.std.specs.declared.ops.Bound.TheVariants.{Included, Excluded};
ghost use Rattle.std.specs.BTreeMap.Range.{entries_between};
ghost use Rattle.cc_locks.specs.Asked.{conflicts};
ghost use Rattle.cc_locks.specs.Place.{class_of, place_of, place_cmp};

use crate::asked::Asked;
use cc_entry::{Lock, Span};
use std::collections::BTreeMap;

/// The class of a lock's length, the lock's first byte, its id.
pub(crate) type Place = (u8, u64, u64);

/// The class of a span's length: the lengths of a class are below twice its least one.
pub(crate) fn class_of(span: Span) -> u8
    ensures class { result ≡ class_of span }
    ensures within { result ≤ 64 }
    ensures fits { span.to - span.from < 2 ^ 64 }
{
    (64 - (span.to() - span.from()).leading_zeros()) as u8
}

/// The place of a lock.
pub(crate) fn place_of(lock: &Lock) -> Place
    ensures { result ≡ place_of lock.now }
{
    (class_of(lock.span), lock.span.from(), lock.id)
}

/// The least id of those locks of a class that begin from `low` up to, and without, `high`, and conflict.
pub(crate) fn least_between(
    places: &BTreeMap<Place, Lock>,
    class: u8,
    low: u64,
    high: u64,
    asked: &Asked,
) -> Option<u64>
    requires { low ≤ high }
    ensures { result ≡ reduce min (map (λ e. e.1.id) (filter (λ e. conflicts asked.now e.1)
        (entries_between place_cmp (Included (class, low, 0)) (Excluded (class, high, 0)) places.now.entries))) }
{
    places
        .range((class, low, 0)..(class, high, 0))
        .filter(|entry| asked.conflicts(entry.1))
        .map(|entry| entry.1.id)
        .min()
}
