//! The routines that are posted when a deferred write may go.

ghost use Rattle.std.specs.Prelude.{◌≡◌, Bool, true, false};

/// What the throttle posts when a deferred write may go.
pub trait PostRoutine: Drop {
    // Whether it was posted.
    ghost posted: { Self → Bool };

    /// Posts it, once.
    fn post(&mut self)
        requires { posted self.old ≡ false }
        ensures { posted self.new ≡ true };
}

impl PostRoutine for Box<dyn PostRoutine + Send> {
    ghost posted = { λ b. (PostRoutine-box b).posted b.value };

    fn post(&mut self) {
        (**self).post()
    }
}

/// A deferred write that went: its number in the queue's order, and its routine.
#[derive(Drop)]
pub struct PostedRoutine<Q = Box<dyn PostRoutine + Send>> {
    pub id: u64,
    pub routine: Q,
}
