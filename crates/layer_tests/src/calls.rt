//! A layer's calls, one after the other: after each the layer stands again, and the next may come.

ghost use Rattle.std.specs.Prelude.{◌≡◌, ◌≤◌, true, IfSome, IfOk, OnOk, OnErr};
ghost use Rattle.size_round.specs.Sizes.{limit, is_power_of_two};
ghost use Rattle.space_core.specs.Memory.{most_cells};
ghost use Rattle.layer_tests.specs.Between.{IsWaiting, IsReady, IsHeld, KeepsHeld};
ghost use Rattle.layer_core.specs.LeafModel.{leaf_model};
ghost use Rattle.layer_rules.specs.Layering.{kept_state, SetsUp, TearsDown, Allocates, AlignedAllocates, Expands, Reallocates, Deallocates, DeallocatesAll, Owns};
ghost use Rattle.layer_rules.specs.declared.Block.{Block};

use layer_core::{Block, Layer, Mem, Refused};
use space_core::{NoMemory, Space};
use std::alloc::Global;
use std::process::Abort;

/// A Space of so many cells, and its only leaf, closed.
///
/// # Errors
/// `NoMemory` where the process has no memory for the cells.
#[tactic(auto, unfolding(leaf_rules::specs::MemRules::mem_rules))]
pub fn space_and_leaf(alloc: Global, cells: u32) -> Result<(Space, Mem), NoMemory>
    requires some { 1 ≤ cells }
    requires most { cells ≤ most_cells }
    ensures { IfOk result (λ made. IsWaiting (leaf_model made.1) made.0) }
{
    let mut space = Space::closed();
    space.set_up(alloc, cells)?;
    match space.new_leaf() {
        Some(leaf) => Ok((space, leaf)),
        None => unreachable!(),
    }
}

/// Opens a closed layer, where a block of `need` bytes is to be asked of it first.
///
/// # Errors
/// `Refused` with the node that can't be opened. The layer is closed then, and may be opened again.
pub fn open<L: Layer>(layer: &mut L, space: &mut Space, need: u64) -> Result<(), Refused>
    requires waiting { IsWaiting (L.model layer.old) space.old }
    requires need { need ≤ limit }
    ensures ok { OnOk result (IsReady (L.model layer.new) space.new) }
    ensures err { OnErr result (IsWaiting (L.model layer.new) space.new) }
    ensures opens { SetsUp (L.model layer.old) (L.model layer.new) space.old space.new need result }
{
    layer.set_up(space, need)
}

/// A block of `n` bytes of an open layer, or `None`. Blocks that were served before stay so.
pub fn serve<L: Layer>(layer: &mut L, space: &mut Space, n: u64) -> Option<Block>
    requires { IsReady (L.model layer.old) space.old }
    ensures ready { IsReady (L.model layer.new) space.new }
    ensures held { IfSome result (λ b. IsHeld (L.model layer.new) space.new b) }
    ensures kept { KeepsHeld (L.model layer.old) (L.model layer.new) space.old space.new }
    ensures serves { Allocates (L.model layer.old) (L.model layer.new) space.old space.new n result }
{
    layer.allocate(space, n)
}

/// The same at a multiple of `align`, a power of two, at most 4,096.
pub fn serve_aligned<L: Layer>(
    layer: &mut L,
    space: &mut Space,
    n: u64,
    align: u64,
) -> Option<Block>
    requires ready { IsReady (L.model layer.old) space.old }
    requires offered { (L.model layer.old).rules.offers.aligned ≡ true }
    requires power { is_power_of_two align ≡ true }
    requires most { align ≤ 4096 }
    ensures ready { IsReady (L.model layer.new) space.new }
    ensures held { IfSome result (λ b. IsHeld (L.model layer.new) space.new b) }
    ensures kept { KeepsHeld (L.model layer.old) (L.model layer.new) space.old space.new }
    ensures serves { AlignedAllocates (L.model layer.old) (L.model layer.new) space.old space.new n align result }
{
    layer.aligned_allocate(space, n, align)
}

/// Makes a block longer where it stands, or answers `false`.
pub fn lengthen<L: Layer>(layer: &mut L, space: &mut Space, b: &mut Block, delta: u64) -> bool
    requires ready { IsReady (L.model layer.old) space.old }
    requires offered { (L.model layer.old).rules.offers.expand ≡ true }
    requires held { IsHeld (L.model layer.old) space.old b.old }
    ensures ready { IsReady (L.model layer.new) space.new }
    ensures held { IsHeld (L.model layer.new) space.new b.new }
    ensures expands { Expands (L.model layer.old) (L.model layer.new) space.old space.new b.old b.new delta result }
{
    layer.expand(space, b, delta)
}

/// Gives a block another length, here or elsewhere, or answers `false`.
pub fn resize<L: Layer>(layer: &mut L, space: &mut Space, b: &mut Block, n: u64) -> bool
    requires ready { IsReady (L.model layer.old) space.old }
    requires held { IsHeld (L.model layer.old) space.old b.old }
    ensures ready { IsReady (L.model layer.new) space.new }
    ensures held { 1 ≤ b.new.len → IsHeld (L.model layer.new) space.new b.new }
    ensures reallocates { Reallocates (L.model layer.old) (L.model layer.new) space.old space.new b.old b.new n result }
{
    layer.reallocate(space, b, n)
}

/// Takes a block back that an open layer served, or answers `false`.
pub fn take_back<L: Layer>(layer: &mut L, space: &mut Space, b: Block) -> bool
    requires ready { IsReady (L.model layer.old) space.old }
    requires held { IsHeld (L.model layer.old) space.old b }
    ensures ready { IsReady (L.model layer.new) space.new }
    ensures takes { Deallocates (L.model layer.old) (L.model layer.new) space.old space.new b result }
{
    layer.deallocate(space, b)
}

/// Takes all blocks back that an open layer served.
pub fn take_all_back<L: Layer>(layer: &mut L, space: &mut Space)
    requires ready { IsReady (L.model layer.old) space.old }
    requires offered { (L.model layer.old).rules.offers.all ≡ true }
    ensures ready { IsReady (L.model layer.new) space.new }
    ensures takes { DeallocatesAll (L.model layer.old) (L.model layer.new) space.old space.new }
{
    layer.deallocate_all(space)
}

/// Takes all blocks back that an open layer served, which must offer that.
pub fn clear<L: Layer>(rt: &impl Abort, layer: &mut L, space: &mut Space)
    requires { IsReady (L.model layer.old) space.old }
    ensures { IsReady (L.model layer.new) space.new }
{
    assert!(rt; layer.offers().all);
    take_all_back(layer, space)
}

/// Whether an open layer owns the block, which may be any.
pub fn asks<L: Layer>(layer: &mut L, _space: &Space, b: Block) -> bool
    requires ready { IsReady (L.model layer.old) _space.now }
    requires offered { (L.model layer.old).rules.offers.owns ≡ true }
    ensures ready { IsReady (L.model layer.new) _space.now }
    ensures owns { Owns (L.model layer.old) (L.model layer.new) b result }
{
    layer.owns(b)
}

/// How many bytes a block takes up that the layer served.
pub fn room_of<L: Layer>(layer: &L, _space: &Space, b: Block) -> u64
    requires ready { IsReady (L.model layer.now) _space.now }
    requires held { IsHeld (L.model layer.now) _space.now b }
    ensures { result ≡ ((L.model layer.now).rules.extent b (kept_state (L.model layer.now))).len }
{
    layer.extent(b)
}

/// Closes an open layer.
pub fn close<L: Layer>(layer: &mut L, space: &mut Space)
    requires { IsReady (L.model layer.old) space.old }
    ensures waiting { IsWaiting (L.model layer.new) space.new }
    ensures closes { TearsDown (L.model layer.old) (L.model layer.new) space.old space.new }
{
    layer.tear_down(space)
}
