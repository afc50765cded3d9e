// One level of a composition.
#![tactic(auto, unfolding(crate::specs::LevelModel::over_of))]

use crate::{AnyLayer, Leaf};
use layer_core::{Asked, Block, Fact, Layer, Offers, Path, Refused};
use space_core::Space;

/// One level of a composition: a layer of some form over a parent, or the end of the composition. Each call does what
/// the layer inside does.
#[derive(Drop)]
pub enum Over<P: Layer> {
    /// The end: no layer stands at this level or below it.
    Leaf(Leaf),
    /// A layer over the parent. It is boxed whole, so that what is checked of the levels above doesn't grow with the forms.
    Layer(Box<AnyLayer<P>>),
}

// What the layer inside does.
macro_rules! inside {
    ($level:expr, $layer:ident => $call:expr) => {
        match $level {
            Over::Leaf($layer) => $call,
            Over::Layer($layer) => $call,
        }
    };
}

impl<P: Layer> Layer for Over<P> {
    ghost use Rattle.composition.specs.LevelModel.{over_of, over_made};

    ghost model = { over_of P.model };

    fn nodes(&self) -> u32 {
        inside!(self, layer => layer.nodes())
    }

    fn offers(&self) -> Offers {
        inside!(self, layer => layer.offers())
    }

    fn alignment(&self) -> u64 {
        inside!(self, layer => layer.alignment())
    }

    fn good_alloc_size(&self, n: u64) -> u64 {
        inside!(self, layer => layer.good_alloc_size(n))
    }

    fn is_open(&self) -> bool {
        inside!(self, layer => layer.is_open())
    }

    fn set_up(&mut self, space: &mut Space, need: u64) -> Result<(), Refused> {
        inside!(self, layer => layer.set_up(space, need))
    }

    fn tear_down(&mut self, space: &mut Space) {
        inside!(self, layer => layer.tear_down(space))
    }

    fn allocate(&mut self, space: &mut Space, n: u64) -> Option<Block> {
        inside!(self, layer => layer.allocate(space, n))
    }

    fn aligned_allocate(&mut self, space: &mut Space, n: u64, a: u64) -> Option<Block> {
        inside!(self, layer => layer.aligned_allocate(space, n, a))
    }

    fn expand(&mut self, space: &mut Space, b: &mut Block, delta: u64) -> bool {
        inside!(self, layer => layer.expand(space, b, delta))
    }

    fn reallocate(&mut self, space: &mut Space, b: &mut Block, n: u64) -> bool {
        inside!(self, layer => layer.reallocate(space, b, n))
    }

    fn deallocate(&mut self, space: &mut Space, b: Block) -> bool {
        inside!(self, layer => layer.deallocate(space, b))
    }

    fn deallocate_all(&mut self, space: &mut Space) {
        inside!(self, layer => layer.deallocate_all(space))
    }

    fn holds(&self, b: Block) -> bool {
        inside!(self, layer => layer.holds(b))
    }

    fn owns(&mut self, b: Block) -> bool {
        inside!(self, layer => layer.owns(b))
    }

    fn owns_at(&self, path: &Path, from: usize, b: Block) -> Asked {
        inside!(self, layer => layer.owns_at(path, from, b))
    }

    fn extent(&self, b: Block) -> u64 {
        inside!(self, layer => layer.extent(b))
    }

    fn fact(&self, space: &Space, node: u32) -> Fact {
        inside!(self, layer => layer.fact(space, node))
    }

    fn state_len(&self, node: u32) -> u32 {
        inside!(self, layer => layer.state_len(node))
    }

    fn state_number(&self, node: u32, k: u32) -> u64 {
        inside!(self, layer => layer.state_number(node, k))
    }

    ghost made = { λ l. over_made P.made l };
}
