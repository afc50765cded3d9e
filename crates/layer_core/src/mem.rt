// The leaf: runs of free cells, the least one first.
use crate::{Asked, Block, Fact, Layer, Mem, Offers, Path, Refused};
use size_round::{LIMIT, up};
use space_core::{CELL_SIZE, Space};

impl Layer for Mem {
    ghost use Rattle.layer_core.specs.LeafModel.{leaf_model};
    ghost use Rattle.layer_core.specs.LeafMade.{leaf_made};

    ghost model = { leaf_model };

    fn nodes(&self) -> u32 {
        1
    }

    fn offers(&self) -> Offers {
        Offers {
            owns: false,
            expand: true,
            aligned: true,
            all: true,
        }
    }

    fn alignment(&self) -> u64 {
        CELL_SIZE
    }

    fn good_alloc_size(&self, n: u64) -> u64 {
        if n == 0 || n > LIMIT {
            return n;
        }
        up(n, CELL_SIZE)
    }

    fn is_open(&self) -> bool {
        Mem::is_open(self)
    }

    fn set_up(&mut self, _space: &mut Space, _need: u64) -> Result<(), Refused> {
        self.open();
        Ok(())
    }

    fn tear_down(&mut self, space: &mut Space) {
        space.give_all(self.tag());
        self.close();
    }

    fn allocate(&mut self, space: &mut Space, n: u64) -> Option<Block> {
        self.aligned_allocate(space, n, 1)
    }

    fn aligned_allocate(&mut self, space: &mut Space, n: u64, a: u64) -> Option<Block> {
        if n == 0 || n > LIMIT {
            return None;
        }
        match space.grant(self.tag(), n, a) {
            Some(place) => Some(Block { place, len: n }),
            None => None,
        }
    }

    fn expand(&mut self, space: &mut Space, b: &mut Block, delta: u64) -> bool {
        if delta == 0 {
            return true;
        }
        if delta > LIMIT - b.len {
            return false;
        }
        if !space.grow(self.tag(), b.place, b.len, delta) {
            return false;
        }
        b.len += delta;
        true
    }

    fn reallocate(&mut self, space: &mut Space, b: &mut Block, n: u64) -> bool {
        self.reallocate_generally(space, b, n)
    }

    fn deallocate(&mut self, space: &mut Space, b: Block) -> bool {
        space.give(self.tag(), b.place, b.len);
        true
    }

    fn deallocate_all(&mut self, space: &mut Space) {
        space.give_all(self.tag());
    }

    fn holds(&self, _b: Block) -> bool {
        false
    }

    fn owns(&mut self, _b: Block) -> bool {
        false
    }

    fn owns_at(&self, path: &Path, from: usize, _b: Block) -> Asked {
        if from < path.len() {
            Asked::NoSuchLayer
        } else {
            Asked::NotOffered
        }
    }

    fn extent(&self, b: Block) -> u64 {
        CELL_SIZE * ((b.place + b.len).div_ceil(CELL_SIZE) - b.place / CELL_SIZE)
    }

    fn fact(&self, space: &Space, _node: u32) -> Fact {
        if Mem::is_open(self) {
            Fact::Cells {
                count: space.used_by(self.tag()),
            }
        } else {
            Fact::Closed
        }
    }

    fn state_len(&self, _node: u32) -> u32 {
        if Mem::is_open(self) { 1 } else { 0 }
    }

    fn state_number(&self, _node: u32, _k: u32) -> u64 {
        1
    }

    ghost made = { λ l. leaf_made l };
}
