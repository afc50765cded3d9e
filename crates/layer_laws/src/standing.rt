//! What callers may rest on: a layer stands after each call, and blocks that are out keep apart.

ghost use Rattle.layer_laws.specs.Standing.{AllocateStands, AllocateGives, AllocateKeepsOut, AllocateKeepsExtents, AllocateKeepsRoutes, AllocateFinds, DeallocateStands, DeallocateKeepsOut, DeallocateKeepsExtents, DeallocateKeepsRoutes, WriteLeaves, ExpandLeaves, ReallocateLeaves, AlignedAllocateLeaves, RefusedExpandChangesNone, RefusedReallocateChangesNone, OwnsLeaves, DeallocateAllLeaves, OutIsPlaced, OutIsInSpace, ApartShareNoByte, OutIsRouted, OutIsAligned, OpenAsFields, OutIsSetUp, OutIsHeld, HeldIsOwn, OthersHoldNone, PathsAnswerRoutes, ShutHasNoCells, ShutStands, SetUpStands, TearDownStands, SetUpChangesOwn, TearDownChangesOwn, AllocateChangesOwn, DeallocateChangesOwn, WriteChangesOwn, ChangesInTurn, MemberChangesOwn, OthersStand, OthersKeepState, OthersKeepOut, OthersKeepBytes, OthersKeepClean, OthersKeepMarked, RouteIsShort};

/// A layer that is asked for a block stands again; the new block is apart from all that were out, and these are out still.
pub fn allocate_keeps()
    ensures stands { AllocateStands }
    ensures gives { AllocateGives }
    ensures out { AllocateKeepsOut }
    ensures extents { AllocateKeepsExtents }
    ensures routes { AllocateKeepsRoutes }
    ensures found { AllocateFinds }
{}

/// A layer that gets a block back stands again, and each block that is apart from it is out still.
pub fn deallocate_keeps()
    ensures stands { DeallocateStands }
    ensures out { DeallocateKeepsOut }
    ensures extents { DeallocateKeepsExtents }
    ensures routes { DeallocateKeepsRoutes }
{}

/// A layer whose block was to grow stands again; the block is out with the length that it has then, and apart from all that it was
/// apart from.
pub fn expand_keeps()
    ensures { ExpandLeaves }
{}

/// A layer whose block was to get another length stands again. Where there is a block then, it is out, has that length where this
/// was done, and is apart from all that the old one was apart from.
pub fn reallocate_keeps()
    ensures { ReallocateLeaves }
{}

/// A layer that is asked for a block at an alignment, a power of two up to 4096, stands again; the new block is as one of `allocate`,
/// and its place is a multiple of the alignment.
pub fn aligned_allocate_keeps()
    ensures { AlignedAllocateLeaves }
{}

/// An expansion or a reallocation that is refused changes nothing but statistics.
pub fn refused_changes_none()
    ensures expand { RefusedExpandChangesNone }
    ensures reallocate { RefusedReallocateChangesNone }
{}

/// A layer that is asked whether it owns a block stands again; what is told of blocks stays, and what is round them.
pub fn owns_keeps()
    ensures { OwnsLeaves }
{}

/// A layer that gets all blocks back stands again, and none is out.
pub fn deallocate_all_keeps()
    ensures { DeallocateAllLeaves }
{}

/// Who writes into a block that is out, and nowhere else, harms no layer and no other block.
pub fn write_keeps()
    ensures { WriteLeaves }
{}

/// A block that is out lies in its extent, and this in cells of the layer's leaves. Its route has at most eight steps, and its place is
/// aligned.
pub fn out_is_placed()
    ensures extent { OutIsPlaced }
    ensures space { OutIsInSpace }
    ensures apart { ApartShareNoByte }
    ensures routed { OutIsRouted }
    ensures route { RouteIsShort }
    ensures aligned { OutIsAligned }
    ensures open { OpenAsFields }
    ensures set_up { OutIsSetUp }
{}

/// Where owns is offered, a block that is out is held. What is held lies in cells of the layer's own leaves, so that no two layers with
/// other leaves hold one block. Asked along a path, a layer says yes to a block that is out exactly where the path begins its route.
pub fn out_is_held()
    ensures held { OutIsHeld }
    ensures own { HeldIsOwn }
    ensures others { OthersHoldNone }
    ensures paths { PathsAnswerRoutes }
{}

/// A closed layer stands exactly where no cell has a tag of its leaves.
pub fn shut_has_no_cells()
    ensures none { ShutHasNoCells }
    ensures stands { ShutStands }
{}

/// A layer stands after it was set up, and after it was torn down.
pub fn lifetimes()
    ensures set_up { SetUpStands }
    ensures tear_down { TearDownStands }
{}

/// A call changes only free cells and those of its own leaves, and the bytes of such cells.
pub fn calls_change_own()
    ensures allocate { AllocateChangesOwn }
    ensures deallocate { DeallocateChangesOwn }
    ensures set_up { SetUpChangesOwn }
    ensures tear_down { TearDownChangesOwn }
    ensures write { WriteChangesOwn }
    ensures in_turn { ChangesInTurn }
    ensures member { MemberChangesOwn }
{}

/// A layer with other leaves does not notice such a change.
pub fn others_stand()
    ensures stands { OthersStand }
    ensures state { OthersKeepState }
    ensures out { OthersKeepOut }
    ensures bytes { OthersKeepBytes }
    ensures clean { OthersKeepClean }
    ensures marked { OthersKeepMarked }
{}
