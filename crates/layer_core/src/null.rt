// The layer that serves nothing.
ghost use Rattle.std.specs.Prelude.{◌≡◌};

use crate::{Asked, Block, Fact, Layer, Offers, Owning, Path, Refused};
use space_core::Space;

/// A layer that serves nothing: the end of a composition, or of one of its branches.
#[derive(Drop)]
pub struct NullLayer {
    is_set: bool,
}

impl NullLayer {
    ghost use Rattle.layer_core.specs.NullModel.{null_model};
    ghost use Rattle.layer_rules.specs.Layering.{IsShut};
    ghost use Rattle.layer_rules.specs.NullRules.{null_rules};

    /// A closed null layer.
    pub fn new() -> NullLayer
        ensures rules { (null_model result).rules ≡ null_rules }
        ensures shut { IsShut (null_model result) }
    {
        NullLayer { is_set: false }
    }
}

impl Layer for NullLayer {
    ghost use Rattle.layer_core.specs.NullModel.{null_model};
    ghost use Rattle.layer_core.specs.NullMade.{null_made};

    ghost model = { null_model };

    fn nodes(&self) -> u32 {
        1
    }

    fn offers(&self) -> Offers {
        Offers {
            owns: true,
            expand: true,
            aligned: true,
            all: true,
        }
    }

    fn alignment(&self) -> u64 {
        65536
    }

    fn good_alloc_size(&self, n: u64) -> u64 {
        n
    }

    fn is_open(&self) -> bool {
        self.is_set
    }

    fn set_up(&mut self, _space: &mut Space, _need: u64) -> Result<(), Refused> {
        self.is_set = true;
        Ok(())
    }

    fn tear_down(&mut self, _space: &mut Space) {
        self.is_set = false;
    }

    fn allocate(&mut self, _space: &mut Space, _n: u64) -> Option<Block> {
        None
    }

    fn aligned_allocate(&mut self, _space: &mut Space, _n: u64, _a: u64) -> Option<Block> {
        None
    }

    fn expand(&mut self, _space: &mut Space, _b: &mut Block, _delta: u64) -> bool {
        unreachable!()
    }

    fn reallocate(&mut self, _space: &mut Space, _b: &mut Block, _n: u64) -> bool {
        unreachable!()
    }

    fn deallocate(&mut self, _space: &mut Space, _b: Block) -> bool {
        unreachable!()
    }

    fn deallocate_all(&mut self, _space: &mut Space) {}

    fn holds(&self, _b: Block) -> bool {
        false
    }

    fn owns(&mut self, _b: Block) -> bool {
        false
    }

    fn owns_at(&self, path: &Path, from: usize, _b: Block) -> Asked {
        if from < path.len() {
            Asked::NoSuchLayer
        } else {
            Asked::No
        }
    }

    fn extent(&self, _b: Block) -> u64 {
        unreachable!()
    }

    fn fact(&self, _space: &Space, _node: u32) -> Fact {
        if self.is_set {
            Fact::Plain
        } else {
            Fact::Closed
        }
    }

    fn state_len(&self, _node: u32) -> u32 {
        if self.is_set { 1 } else { 0 }
    }

    fn state_number(&self, _node: u32, _k: u32) -> u64 {
        1
    }

    ghost made = { λ l. null_made l };
}

impl Owning for NullLayer {
    ghost use Rattle.layer_core.specs.NullMade.{null_owning};

    ghost owning = { λ l. null_owning l };
}
