// Two more levels.
use crate::{Half, Over2};
use layer_core::{Asked, Block, Fact, Layer, Offers, Path, Refused};
use space_core::Space;

/// The lower six levels of a composition, and its end: no node, and no layer on a path. Each call does what
/// the layer inside does.
#[derive(Drop)]
pub struct ThreeQuarters {
    /// The layers themselves.
    pub root: Over2<Half>,
}

impl Layer for ThreeQuarters {
    ghost use Rattle.composition.specs.ThreeQuartersModel.{three_quarters_of, three_quarters_made};

    ghost model = { three_quarters_of };

    fn nodes(&self) -> u32 {
        self.root.nodes()
    }

    fn offers(&self) -> Offers {
        self.root.offers()
    }

    fn alignment(&self) -> u64 {
        self.root.alignment()
    }

    fn good_alloc_size(&self, n: u64) -> u64 {
        self.root.good_alloc_size(n)
    }

    fn is_open(&self) -> bool {
        self.root.is_open()
    }

    fn set_up(&mut self, space: &mut Space, need: u64) -> Result<(), Refused> {
        self.root.set_up(space, need)
    }

    fn tear_down(&mut self, space: &mut Space) {
        self.root.tear_down(space)
    }

    fn allocate(&mut self, space: &mut Space, n: u64) -> Option<Block> {
        self.root.allocate(space, n)
    }

    fn aligned_allocate(&mut self, space: &mut Space, n: u64, a: u64) -> Option<Block> {
        self.root.aligned_allocate(space, n, a)
    }

    fn expand(&mut self, space: &mut Space, b: &mut Block, delta: u64) -> bool {
        self.root.expand(space, b, delta)
    }

    fn reallocate(&mut self, space: &mut Space, b: &mut Block, n: u64) -> bool {
        self.root.reallocate(space, b, n)
    }

    fn deallocate(&mut self, space: &mut Space, b: Block) -> bool {
        self.root.deallocate(space, b)
    }

    fn deallocate_all(&mut self, space: &mut Space) {
        self.root.deallocate_all(space)
    }

    fn holds(&self, b: Block) -> bool {
        self.root.holds(b)
    }

    fn owns(&mut self, b: Block) -> bool {
        self.root.owns(b)
    }

    fn owns_at(&self, path: &Path, from: usize, b: Block) -> Asked {
        self.root.owns_at(path, from, b)
    }

    fn extent(&self, b: Block) -> u64 {
        self.root.extent(b)
    }

    fn fact(&self, space: &Space, node: u32) -> Fact {
        self.root.fact(space, node)
    }

    fn state_len(&self, node: u32) -> u32 {
        self.root.state_len(node)
    }

    fn state_number(&self, node: u32, k: u32) -> u64 {
        self.root.state_number(node, k)
    }

    ghost made = { λ l. three_quarters_made l };
}
