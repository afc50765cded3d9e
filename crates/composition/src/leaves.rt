// The ends of a composition.
#![tactic(auto, unfolding(crate::specs::LeafModel::leaf_of))]

use layer_core::{Asked, Block, Fact, Layer, Mem, NullLayer, Offers, Path, Refused};
use space_core::Space;

/// The end of a composition: a layer with no parent. Each call does what the layer inside does.
#[derive(Drop)]
pub enum Leaf {
    /// A layer that serves nothing.
    Null(NullLayer),
    /// Cells of the Space, under a tag of their own.
    Mem(Mem),
}

// What the layer inside does.
macro_rules! inside {
    ($end:expr, $layer:ident => $call:expr) => {
        match $end {
            Leaf::Null($layer) => $call,
            Leaf::Mem($layer) => $call,
        }
    };
}

impl Layer for Leaf {
    ghost use Rattle.composition.specs.LeafModel.{leaf_of, leaf_made};

    ghost model = { leaf_of };

    fn nodes(&self) -> u32 {
        inside!(self, layer => layer.nodes())
    }

    fn offers(&self) -> Offers {
        inside!(self, layer => layer.offers())
    }

    fn alignment(&self) -> u64 {
        inside!(self, layer => layer.alignment())
    }

    fn good_alloc_size(&self, n: u64) -> u64 {
        inside!(self, layer => layer.good_alloc_size(n))
    }

    fn is_open(&self) -> bool {
        inside!(self, layer => layer.is_open())
    }

    fn set_up(&mut self, space: &mut Space, need: u64) -> Result<(), Refused> {
        inside!(self, layer => layer.set_up(space, need))
    }

    fn tear_down(&mut self, space: &mut Space) {
        inside!(self, layer => layer.tear_down(space))
    }

    fn allocate(&mut self, space: &mut Space, n: u64) -> Option<Block> {
        inside!(self, layer => layer.allocate(space, n))
    }

    fn aligned_allocate(&mut self, space: &mut Space, n: u64, a: u64) -> Option<Block> {
        inside!(self, layer => layer.aligned_allocate(space, n, a))
    }

    fn expand(&mut self, space: &mut Space, b: &mut Block, delta: u64) -> bool {
        inside!(self, layer => layer.expand(space, b, delta))
    }

    fn reallocate(&mut self, space: &mut Space, b: &mut Block, n: u64) -> bool {
        inside!(self, layer => layer.reallocate(space, b, n))
    }

    fn deallocate(&mut self, space: &mut Space, b: Block) -> bool {
        inside!(self, layer => layer.deallocate(space, b))
    }

    fn deallocate_all(&mut self, space: &mut Space) {
        inside!(self, layer => layer.deallocate_all(space))
    }

    fn holds(&self, b: Block) -> bool {
        inside!(self, layer => layer.holds(b))
    }

    fn owns(&mut self, b: Block) -> bool {
        inside!(self, layer => layer.owns(b))
    }

    fn owns_at(&self, path: &Path, from: usize, b: Block) -> Asked {
        inside!(self, layer => layer.owns_at(path, from, b))
    }

    fn extent(&self, b: Block) -> u64 {
        inside!(self, layer => layer.extent(b))
    }

    fn fact(&self, space: &Space, node: u32) -> Fact {
        inside!(self, layer => layer.fact(space, node))
    }

    fn state_len(&self, node: u32) -> u32 {
        inside!(self, layer => layer.state_len(node))
    }

    fn state_number(&self, node: u32, k: u32) -> u64 {
        inside!(self, layer => layer.state_number(node, k))
    }

    ghost made = { λ l. leaf_made l };
}
