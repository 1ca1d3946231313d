//! Streams of bytes: a source that a script comes from, a sink that a text goes to.

ghost use Rattle.std.specs.Prelude.{◌≡◌, ℕ, ◌+◌, ◌<◌, ◌≤◌, Bool, Option, List, [], ◌++◌, length, take, Ok, IfOk, OnErr};
ghost use Rattle.cc_traits.specs.Stop.{faults_in, stalls_in, given_in, is_end};
ghost use Rattle.cc_traits.specs.Told.{Both, IfTold, Gave, SinkTook};

use crate::Stop;

/// Bytes that come in, as those of a script.
pub trait Source {
    // The bytes that are left.
    ghost told: { Self → Option (List ℕ) };

    // How many calls failed, a number below 2 ^ 64.
    ghost faults: { Self → ℕ };

    // The bytes that it ever gave, the first one first, also where it tells nothing of those that are left.
    ghost given: { Self → List ℕ };

    // Whether the last call on it answered the end.
    ghost ended: { Self → Bool };

    /// Takes the next bytes into the front of `buf` and answers how many they are. 0 for a buffer
    /// that is not empty is the end. What the rest of the buffer has, and all of it where the call
    /// stops, is left open.
    fn take(&mut self, buf: &mut [u8]) -> Result<usize, Stop>
        ensures within { IfOk result (λ n. n ≤ length buf.old) }
        ensures given { IfOk result (λ n. Both (told self.old) (told self.new) (Gave (take n buf.new))) }
        ensures end { IfOk result
            (λ n. n ≡ 0 → 0 < length buf.old → IfTold (told self.old) (λ left. left ≡ [])) }
        ensures err { OnErr result (told self.new ≡ told self.old) }
        ensures counted { faults self.new ≡ faults self.old + faults_in result }
        ensures noted { given self.new ≡ given self.old ++ given_in buf.new result }
        ensures at_end { ended self.new ≡ is_end buf.new result };
}

/// Whether a source that gave so many bytes into a buffer answered its end.
pub fn is_end(buf: &[u8], given: usize) -> bool
    ensures { result ≡ is_end buf.now (Ok given) }
{
    given == 0 && !buf.is_empty()
}

/// Bytes that go out, as those of a printed text.
pub trait Sink {
    // The bytes that were taken.
    ghost told: { Self → Option (List ℕ) };

    // How many calls failed, a number below 2 ^ 64.
    ghost faults: { Self → ℕ };

    // How many calls took nothing where there were bytes to take.
    ghost stalls: { Self → ℕ };

    /// Puts the front of `bytes` out and answers how many bytes that was.
    fn put(&mut self, bytes: &[u8]) -> Result<usize, Stop>
        ensures within { IfOk result (λ n. n ≤ length bytes.now) }
        ensures taken { IfOk result
            (λ n. Both (told self.old) (told self.new) (SinkTook (take n bytes.now))) }
        ensures err { OnErr result (told self.new ≡ told self.old) }
        ensures counted { faults self.new ≡ faults self.old + faults_in result }
        ensures stalled { stalls self.new ≡ stalls self.old + stalls_in bytes.now result };
}
