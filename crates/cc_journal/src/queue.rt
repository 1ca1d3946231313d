//! The queue of deferred writes that wait, each with its routine.

ghost use Rattle.std.specs.Prelude.{◌≡◌, ℕ, suc, ◌+◌, ◌-◌, ◌^◌, ◌<◌, ◌≤◌, true, false, [], ◌∷◌, ◌++◌, List, Some, IfOk, length, drop, insert, slice_get, if◌then◌else◌, vec_len, vec_capacity};
ghost use Rattle.std.specs.Option.{option_map, ForSome};
ghost use Rattle.cc_entry.specs.declared.entry.Entry.{Entry};
ghost use Rattle.cc_entry.specs.declared.entry.Entry.TheVariants as entry;
ghost use Rattle.cc_entry.specs.declared.hold.Deferral.{Deferral};
ghost use Rattle.cc_model.specs.Throttle.{queue, deferred};
ghost use Rattle.cc_journal.specs.Queue.{QueueStands, AllUnposted, deferrals_of_writes, routines_of};

use cc_entry::{Deferral, FileId, NoMemory};
use cc_traits::{PostRoutine, PostedRoutine};
use std::alloc::Global;
use std::marker::Model;

/// The deferred writes that wait, the head of the queue first, each with its post routine.
#[derive(Drop)]
pub(crate) struct Deferred<Q> {
    deferrals: Vec<Deferral>,
    // The routine of each, with its id: they are given back as they stand here.
    routines: Vec<(u64, Q)>,
    // How many writes were ever deferred.
    count: u64,
}

impl<Q> Model for Deferred<Q> {
    ghost use Rattle.std.specs.Prelude.{◌≤◌, vec_capacity};
    ghost use Rattle.cc_journal.specs.Queue.{Waiting, with_routines, SameIds};

    ghost Value = { Waiting Q };

    ghost view = { λ d. record { writes = with_routines d.deferrals.items d.routines.items; count = d.count } };

    ghost invariant = { λ d. SameIds d.deferrals.items d.routines.items
        × (64 ≤ vec_capacity d.deferrals) × (64 ≤ vec_capacity d.routines) };
}

impl<Q> Deferred<Q> {
    /// How many writes wait.
    pub(crate) fn len(&self) -> usize
        ensures len { result ≡ length self.now.writes }
        ensures of_queue { (past : List Entry) →
            QueueStands past self.now.writes self.now.count → result ≡ length (queue past) }
    {
        self.routines.len()
    }

    /// The id of the next write that is deferred.
    pub(crate) fn next_id(&self) -> u64
        requires { self.now.count < 2 ^ 64 - 1 }
        ensures next { result ≡ self.now.count + 1 }
        ensures of_queue { (past : List Entry) →
            QueueStands past self.now.writes self.now.count → result ≡ suc (deferred past) }
    {
        self.count + 1
    }

    /// The head of the queue.
    pub(crate) fn head(&self) -> Option<Deferral>
        ensures head { result ≡ slice_get (deferrals_of_writes self.now.writes) 0 }
        ensures of_queue { (past : List Entry) →
            QueueStands past self.now.writes self.now.count → result ≡ slice_get (queue past) 0 }
    {
        self.deferrals.first().copied()
    }

    /// The routines of the writes that wait, each with its id, in order. It takes no memory.
    pub(crate) fn into_writes(self) -> Vec<(u64, Q)>
        ensures { result.items ≡ routines_of self.writes }
    {
        let Deferred { routines, .. } = self;
        routines
    }
}

impl<Q: PostRoutine> Deferred<Q> {
    /// Takes the room for the 64 writes that may wait.
    pub(crate) fn new(alloc: Global) -> Result<Deferred<Q>, NoMemory>
        ensures none { IfOk result (λ new. new.writes ≡ []) }
        ensures stands { IfOk result (λ new. QueueStands [] new.writes new.count) }
        ensures unposted { IfOk result (λ new. AllUnposted Q.posted new.writes) }
    {
        Ok(Deferred {
            deferrals: Vec::with_capacity(alloc, 64)?,
            routines: Vec::with_capacity(alloc, 64)?,
            count: 0,
        })
    }

    /// Defers a write: one that is tried again goes to the head of the queue, any other to the tail. Answers
    /// its id.
    pub(crate) fn defer(&mut self, file: FileId, pages: u64, retrying: bool, routine: Q) -> u64
        requires room { length self.old.writes < 64 }
        requires few { self.old.count < 2 ^ 64 - 1 }
        ensures id { result ≡ self.old.count + 1 }
        ensures count { self.new.count ≡ self.old.count + 1 }
        ensures writes { let deferral : Deferral = record { id = result; file = file; pages = pages } in
            self.new.writes ≡ (if retrying then (deferral, routine) ∷ self.old.writes
            else self.old.writes ++ (deferral, routine) ∷ []) }
        ensures stands { (past : List Entry) (pass : ℕ) → QueueStands past self.old.writes self.old.count →
            QueueStands (entry.Defer pass result file pages retrying ∷ past) self.new.writes self.new.count }
        ensures unposted { Q.posted routine ≡ false → AllUnposted Q.posted self.old.writes →
            AllUnposted Q.posted self.new.writes }
    {
        let id = self.count + 1;
        let place = place_of(retrying, self.deferrals.len());
        insert_reserved(&mut self.deferrals, place, Deferral { id, file, pages });
        insert_reserved(&mut self.routines, place, (id, routine));
        self.count = id;
        id
    }

    /// Takes the head off the queue and posts its routine.
    pub(crate) fn post(&mut self) -> PostedRoutine<Q>
        requires waits { 0 < length self.old.writes }
        requires unposted { ForSome (slice_get self.old.writes 0) (λ w. Q.posted w.1 ≡ false) }
        ensures id { option_map (λ w. w.0.id) (slice_get self.old.writes 0) ≡ Some result.id }
        ensures of_queue { (past : List Entry) → QueueStands past self.old.writes self.old.count →
            option_map (λ d. d.id) (slice_get (queue past) 0) ≡ Some result.id }
        ensures posted { Q.posted result.routine ≡ true }
        ensures writes { self.new.writes ≡ drop 1 self.old.writes }
        ensures count { self.new.count ≡ self.old.count }
        ensures stands { (past : List Entry) → QueueStands past self.old.writes self.old.count →
            QueueStands (entry.Posted result.id ∷ past) self.new.writes self.new.count }
        ensures still_unposted { AllUnposted Q.posted self.old.writes → AllUnposted Q.posted self.new.writes }
    {
        self.deferrals.remove(0);
        let (id, mut routine) = self.routines.remove(0);
        routine.post();
        PostedRoutine { id, routine }
    }
}

// Where a deferred write goes.
fn place_of(retrying: bool, tail: usize) -> usize
    ensures { result ≡ (if retrying then 0 else tail) }
{
    if retrying { 0 } else { tail }
}

// An insert where there is room, which can't fail.
fn insert_reserved<T: Drop>(items: &mut Vec<T>, place: usize, item: T)
    requires within { place ≤ vec_len items.old }
    requires room { vec_len items.old < vec_capacity items.old }
    ensures items { items.new.items ≡ insert items.old.items place item }
    ensures capacity { vec_capacity items.new ≡ vec_capacity items.old }
{
    let _ = items.insert(place, item);
}
