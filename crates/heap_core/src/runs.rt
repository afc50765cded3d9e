//! What holds of every run of calls, by one step. Each law is a clause of a function that does nothing.

ghost use Rattle.heap_core.specs.RunFacts.{RunBegins, RunGoesOn, HeldIsRun, ZerosStay, RunHasBlocks, RunFindsBlocks, NamesShareNoByte, FaultKeepsRun, NullExactly, PlacedElse, AlignedNullExactly, AlignedPlacedElse, LiveIsOwned, PathsAnswerRoutes, RefusedChangesNone};

/// A run begins with no block, and is a run after each call: the root is open and sound, the table
/// of cells keeps its length, and the names of the live blocks rise. What a heap holds is a run.
pub fn runs_go_on()
    ensures begins { RunBegins }
    ensures goes_on { RunGoesOn }
    ensures held { HeldIsRun }
    ensures zeros { ZerosStay }
{}

/// The live blocks of a run have bytes in the area, at aligned places, and share none. Each is found on
/// the route that was recorded.
pub fn live_blocks_are_apart()
    ensures blocks { RunHasBlocks }
    ensures found { RunFindsBlocks }
    ensures names { NamesShareNoByte }
{}

/// A call in fault changes nothing, and a refused one nothing but statistics; a new block is refused
/// exactly where the rules refuse it. Each live block is owned, and along a path that is answered by
/// the route that its allocation recorded.
pub fn answers_are_exact()
    ensures fault { FaultKeepsRun }
    ensures null { NullExactly }
    ensures placed { PlacedElse }
    ensures null_aligned { AlignedNullExactly }
    ensures placed_aligned { AlignedPlacedElse }
    ensures owns { LiveIsOwned }
    ensures paths { PathsAnswerRoutes }
    ensures refused { RefusedChangesNone }
{}
