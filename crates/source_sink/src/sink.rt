// Where bytes go.
ghost use Rattle.std.specs.Prelude.{◌≡◌, ◌<◌, ◌≤◌, ℕ, Bool, true, List, Option, length, take, IfOk, OnErr, OnOk};
ghost use Rattle.source_sink.specs.Counts.{Rose, most_faults};
ghost use Rattle.source_sink.specs.Sinks.{Appends};

use crate::Failed;
use space_core::Space;

/// What takes bytes in pieces, and may keep them until it is asked to hand them on, or fails.
pub trait Sink {
    /// The bytes that it holds, handed on or not, where it tells.
    ghost holds: { Self → Option (List ℕ) };

    /// How often it has failed. The count stops at 2^64 - 1.
    ghost faults: { Self → ℕ };

    /// Whether all that it took was handed on.
    ghost flushed: { Self → Bool };

    /// Appends bytes from the front of the piece, which isn't empty. The sink may watch the Space.
    ///
    /// `Ok(count)` says that the first `count` bytes were appended, at least one and at most all. The count
    /// of faults stays. `Err(Failed)` says that no byte was appended, and that the count of faults rose
    /// or stands at its greatest. The sink may be asked again. A sink that tells what it holds goes on
    /// telling, and one that doesn't goes on not telling.
    fn put(&mut self, piece: &[u8], space: &Space) -> Result<usize, Failed>
        requires { 0 < length piece.now }
        ensures bound { IfOk result (λ count. (0 < count) × (count ≤ length piece.now)) }
        ensures appended { IfOk result (λ count. Appends (holds self.old) (holds self.new) (take count piece.now)) }
        ensures counted { OnOk result (faults self.new ≡ faults self.old) }
        ensures nothing { OnErr result (holds self.new ≡ holds self.old) }
        ensures cause { OnErr result ((faults self.old ≤ faults self.new) × Rose (faults self.old) (faults self.new)) }
        ensures most { OnErr result (faults self.new ≤ most_faults) };

    /// Hands on what it took.
    ///
    /// What it holds stays. `Ok` says that all it took was handed on. The count of faults stays. `Err(Failed)`
    /// says that the count of faults rose or stands at its greatest. Of what was not handed on before, any part
    /// from the front may have been handed on then. The sink may be asked again.
    fn flush(&mut self) -> Result<(), Failed>
        ensures kept { holds self.new ≡ holds self.old }
        ensures counted { OnOk result (faults self.new ≡ faults self.old) }
        ensures flushed { OnOk result (flushed self.new ≡ true) }
        ensures cause { OnErr result ((faults self.old ≤ faults self.new) × Rose (faults self.old) (faults self.new)) }
        ensures most { OnErr result (faults self.new ≤ most_faults) };
}
