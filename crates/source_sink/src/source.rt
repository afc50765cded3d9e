// Where bytes come from.
ghost use Rattle.std.specs.Prelude.{◌≡◌, ◌<◌, ◌≤◌, ℕ, Bool, false, List, Option, length, take, IfOk, OnErr, OnOk};
ghost use Rattle.source_sink.specs.Counts.{Rose, most_faults};
ghost use Rattle.source_sink.specs.Sources.{IsAtEnd, Takes, finishes};

use crate::Failed;

/// Bytes that come in pieces, and end or fail.
pub trait Source {
    /// The bytes that it has left, where it tells.
    ghost left: { Self → Option (List ℕ) };

    /// How often it has failed. The count stops at 2^64 - 1.
    ghost faults: { Self → ℕ };

    /// Whether it gave its end or failed. It is then asked no more.
    ghost finished: { Self → Bool };

    /// Takes bytes from the front of what is left into the front of `into`, which isn't empty.
    ///
    /// `Ok(count)` says that `count` bytes were taken, at most as many as fit. The bytes of `into` behind
    /// them may be anything. `Ok(0)` is the end: nothing is left, where the source tells. The count of
    /// faults stays. `Err(Failed)` says that nothing was taken, and that the count of faults rose or
    /// stands at its greatest. A source that tells what it has left goes on telling, and one that doesn't
    /// goes on not telling. It is finished then where the answer was `Ok(0)` or `Err(Failed)`, and only there.
    fn take(&mut self, into: &mut [u8]) -> Result<usize, Failed>
        requires room { 0 < length into.old }
        requires open { finished self.old ≡ false }
        ensures bound { IfOk result (λ count. count ≤ length into.new) }
        ensures taken { IfOk result (λ count. Takes (left self.old) (left self.new) (take count into.new)) }
        ensures end { IfOk result (λ count. count ≡ 0 → IsAtEnd (left self.old)) }
        ensures counted { OnOk result (faults self.new ≡ faults self.old) }
        ensures nothing { OnErr result (left self.new ≡ left self.old) }
        ensures cause { OnErr result ((faults self.old ≤ faults self.new) × Rose (faults self.old) (faults self.new)) }
        ensures most { OnErr result (faults self.new ≤ most_faults) }
        ensures finished { finished self.new ≡ finishes result };
}
