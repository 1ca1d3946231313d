//! Standard output as a sink of text.

ghost use Rattle.std.specs.Prelude.{◌≡◌, None};

use cc_traits::{Faults, Sink, Stop};
use std::io::Print;

/// What prints bytes, as standard output does.
#[derive(Drop)]
pub struct Output<'a, R: Print> {
    out: &'a R,
    faults: Faults,
}

impl<'a, R: Print> Output<'a, R> {
    /// The sink that prints with `out`, of which no call has failed.
    pub fn new(out: &'a R) -> Output<'a, R>
        ensures { result.faults ≡ 0 }
    {
        Output {
            out,
            faults: Faults::new(),
        }
    }
}

impl<'a, R: Print> Sink for Output<'a, R> {
    ghost told = { λ _. None };

    ghost faults = { λ sink. sink.faults };

    // A call that wrote nothing counts as a fault.
    ghost stalls = { λ _. 0 };

    fn put(&mut self, bytes: &[u8]) -> Result<usize, Stop> {
        match self.out.write_some(bytes) {
            Ok(0) if !bytes.is_empty() => Err(self.faults.raise()),
            Ok(n) => Ok(n),
            Err(_) => Err(self.faults.raise()),
        }
    }
}
