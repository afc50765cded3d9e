// A layer of any form.
#![tactic(auto, unfolding(crate::specs::AnyModel::any_of))]

use affix_layer::Affix;
use free_list::FreeList;
use layer_core::{Asked, Block, Fact, Layer, Offers, Path, Refused};
use quantizer::Quantizer;
use region_block::Region;
use size_round::{Multiple, PowerOfTwo};
use space_core::Space;
use stats_collector::StatsCollector;

/// A layer of some form over a parent. Each call does what the layer inside does.
#[derive(Drop)]
pub enum AnyLayer<P: Layer> {
    /// A region over the parent.
    Region(Region<P>),
    /// A free list over the parent.
    FreeList(FreeList<P>),
    /// A quantizer over the parent, for multiples of a step.
    QuantizeStep(Quantizer<P, Multiple>),
    /// A quantizer over the parent, for powers of two.
    QuantizePow2(Quantizer<P, PowerOfTwo>),
    /// A statistics layer over the parent.
    Stats(StatsCollector<P>),
    /// An affix over the parent.
    Affix(Affix<P>),
}

// What the layer inside does. A form joins with a line here, one in the enum and two in `specs/AnyModel.antt`.
macro_rules! inside {
    ($any:expr, $layer:ident => $call:expr) => {
        match $any {
            AnyLayer::Region($layer) => $call,
            AnyLayer::FreeList($layer) => $call,
            AnyLayer::QuantizeStep($layer) => $call,
            AnyLayer::QuantizePow2($layer) => $call,
            AnyLayer::Stats($layer) => $call,
            AnyLayer::Affix($layer) => $call,
        }
    };
}

impl<P: Layer> Layer for AnyLayer<P> {
    ghost use Rattle.composition.specs.AnyModel.{any_of, any_made};

    ghost model = { any_of P.model };

    fn nodes(&self) -> u32 {
        inside!(self, layer => layer.nodes())
    }

    fn offers(&self) -> Offers {
        inside!(self, layer => layer.offers())
    }

    fn alignment(&self) -> u64 {
        inside!(self, layer => layer.alignment())
    }

    fn good_alloc_size(&self, n: u64) -> u64 {
        inside!(self, layer => layer.good_alloc_size(n))
    }

    fn is_open(&self) -> bool {
        inside!(self, layer => layer.is_open())
    }

    fn set_up(&mut self, space: &mut Space, need: u64) -> Result<(), Refused> {
        inside!(self, layer => layer.set_up(space, need))
    }

    fn tear_down(&mut self, space: &mut Space) {
        inside!(self, layer => layer.tear_down(space))
    }

    fn allocate(&mut self, space: &mut Space, n: u64) -> Option<Block> {
        inside!(self, layer => layer.allocate(space, n))
    }

    fn aligned_allocate(&mut self, space: &mut Space, n: u64, a: u64) -> Option<Block> {
        inside!(self, layer => layer.aligned_allocate(space, n, a))
    }

    fn expand(&mut self, space: &mut Space, b: &mut Block, delta: u64) -> bool {
        inside!(self, layer => layer.expand(space, b, delta))
    }

    fn reallocate(&mut self, space: &mut Space, b: &mut Block, n: u64) -> bool {
        inside!(self, layer => layer.reallocate(space, b, n))
    }

    fn deallocate(&mut self, space: &mut Space, b: Block) -> bool {
        inside!(self, layer => layer.deallocate(space, b))
    }

    fn deallocate_all(&mut self, space: &mut Space) {
        inside!(self, layer => layer.deallocate_all(space))
    }

    fn holds(&self, b: Block) -> bool {
        inside!(self, layer => layer.holds(b))
    }

    fn owns(&mut self, b: Block) -> bool {
        inside!(self, layer => layer.owns(b))
    }

    fn owns_at(&self, path: &Path, from: usize, b: Block) -> Asked {
        inside!(self, layer => layer.owns_at(path, from, b))
    }

    fn extent(&self, b: Block) -> u64 {
        inside!(self, layer => layer.extent(b))
    }

    fn fact(&self, space: &Space, node: u32) -> Fact {
        inside!(self, layer => layer.fact(space, node))
    }

    fn state_len(&self, node: u32) -> u32 {
        inside!(self, layer => layer.state_len(node))
    }

    fn state_number(&self, node: u32, k: u32) -> u64 {
        inside!(self, layer => layer.state_number(node, k))
    }

    ghost made = { λ l. any_made P.made l };
}
