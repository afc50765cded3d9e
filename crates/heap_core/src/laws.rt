//! What holds of each heap whatever its root. Each law is a clause of a function that does nothing.

ghost use Rattle.heap_core.specs.Heap.{LentIsWritten};
ghost use Rattle.heap_core.specs.Steps.{HeldRun, BeginsHeld, PerformedHeld, PerformedMoves, HeldMeasured, ExtentsInRun, AskedInRun, LiveInRun};

/// A held heap stays held whatever is called, and each call that is performed is a step of the
/// machine of blocks: over the rules alone, for the run that a heap holds.
pub fn calls_are_moves()
    ensures run { HeldRun }
    ensures begins { BeginsHeld }
    ensures held { PerformedHeld }
    ensures moves { PerformedMoves }
{}

/// The extents of the live blocks can be summed, and the sums of a heap are those of its run.
pub fn blocks_are_measured()
    ensures measured { HeldMeasured }
    ensures extents { ExtentsInRun }
    ensures asked { AskedInRun }
    ensures live { LiveInRun }
{}

/// What is written into the bytes of a live block that were lent is a write of them by name: the heap is
/// held again, and no other block's bytes change.
pub fn lent_bytes_are_written()
    ensures { LentIsWritten }
{}
