// The quantizer itself.
ghost use Rattle.std.specs.Prelude.{◌≡◌};
ghost use Rattle.quantize_rules.specs.QuantizeRules.{quantize_rules};
ghost use Rattle.quantizer.specs.QuantizerProper.{IsProper};

use crate::parent_block;
use layer_core::{Asked, Block, Fact, Layer, Offers, Owning, Path, Refused, yes_if};
use size_round::{LIMIT, Rounding};
use space_core::Space;

/// A layer that asks its parent for rounded lengths alone. A block takes up its rounded length there, and
/// has another length at once where that is rounded to the same.
///
/// Sizes are in bytes. It keeps nothing, and is open where its parent is.
#[derive(Drop)]
pub struct Quantizer<P: Layer, R: Rounding> {
    rounding: R,
    parent: P,
    ghost proper: { IsProper (P.model parent).rules },
}

impl<P: Layer, R: Rounding> Quantizer<P, R> {
    ghost use Rattle.quantizer.specs.QuantizerModel.{quantizer_of};
    ghost use Rattle.layer_rules.specs.Layering.{IsShut};

    /// A closed quantizer over a closed parent, which it will ask for lengths as this rounding gives them.
    pub fn new(rounding: R, parent: P) -> Quantizer<P, R>
        requires shut { IsShut (P.model parent) }
        requires proper { IsProper (P.model parent).rules }
        ensures rules { (quantizer_of P.model R.kind result).rules ≡ quantize_rules (R.kind rounding) (P.model parent).rules }
        ensures shut { IsShut (quantizer_of P.model R.kind result) }
    {
        Quantizer { rounding, parent }
    }
}

impl<P: Layer, R: Rounding> Layer for Quantizer<P, R> {
    ghost use Rattle.quantizer.specs.QuantizerModel.{quantizer_of};
    ghost use Rattle.quantizer.specs.QuantizerMade.{quantizer_made};

    ghost model = { quantizer_of P.model R.kind };

    fn nodes(&self) -> u32 {
        self.parent.nodes() + 1
    }

    fn offers(&self) -> Offers {
        let offers = self.parent.offers();
        Offers {
            owns: offers.owns,
            expand: true,
            aligned: offers.aligned,
            all: offers.all,
        }
    }

    fn alignment(&self) -> u64 {
        self.parent.alignment()
    }

    fn good_alloc_size(&self, n: u64) -> u64 {
        if n == 0 || n > LIMIT {
            return n;
        }
        self.rounding.round(n)
    }

    fn is_open(&self) -> bool {
        self.parent.is_open()
    }

    fn set_up(&mut self, space: &mut Space, need: u64) -> Result<(), Refused> {
        let parent_need = if need == 0 {
            0
        } else {
            self.rounding.round(need)
        };
        if parent_need > LIMIT {
            return Err(Refused { node: 0 });
        }
        match self.parent.set_up(space, parent_need) {
            Ok(()) => Ok(()),
            Err(refused) => Err(Refused {
                node: refused.node + 1,
            }),
        }
    }

    fn tear_down(&mut self, space: &mut Space) {
        self.parent.tear_down(space);
    }

    fn allocate(&mut self, space: &mut Space, n: u64) -> Option<Block> {
        if n == 0 || n > LIMIT {
            return None;
        }
        let whole = self.parent.allocate(space, self.rounding.round(n))?;
        Some(Block {
            place: whole.place,
            len: n,
        })
    }

    fn aligned_allocate(&mut self, space: &mut Space, n: u64, a: u64) -> Option<Block> {
        if n == 0 || n > LIMIT {
            return None;
        }
        let whole = self
            .parent
            .aligned_allocate(space, self.rounding.round(n), a)?;
        Some(Block {
            place: whole.place,
            len: n,
        })
    }

    fn expand(&mut self, space: &mut Space, b: &mut Block, delta: u64) -> bool {
        if delta == 0 {
            return true;
        }
        if delta > LIMIT - b.len {
            return false;
        }
        // What the parent's own length of the block lacks.
        let mut below = parent_block(&self.rounding, *b);
        let lack = self.rounding.round(b.len + delta) - below.len;
        if lack == 0 {
            b.len += delta;
            return true;
        }
        if !self.parent.offers().expand {
            return false;
        }
        if !self.parent.expand(space, &mut below, lack) {
            return false;
        }
        b.len += delta;
        true
    }

    fn reallocate(&mut self, space: &mut Space, b: &mut Block, n: u64) -> bool {
        if n == b.len {
            return true;
        }
        if n == 0 {
            self.deallocate(space, *b);
            *b = Block { place: 0, len: 0 };
            return true;
        }
        if n > LIMIT {
            return false;
        }
        let mut below = parent_block(&self.rounding, *b);
        let len = self.rounding.round(n);
        if len == below.len {
            b.len = n;
            return true;
        }
        if !self.parent.reallocate(space, &mut below, len) {
            return false;
        }
        *b = Block {
            place: below.place,
            len: n,
        };
        true
    }

    fn deallocate(&mut self, space: &mut Space, b: Block) -> bool {
        self.parent
            .deallocate(space, parent_block(&self.rounding, b))
    }

    fn deallocate_all(&mut self, space: &mut Space) {
        self.parent.deallocate_all(space);
    }

    fn holds(&self, b: Block) -> bool {
        self.parent.is_open()
            && b.len >= 1
            && b.len <= LIMIT
            && self.parent.holds(parent_block(&self.rounding, b))
    }

    fn owns(&mut self, b: Block) -> bool {
        if b.len == 0 || b.len > LIMIT {
            return false;
        }
        self.parent.owns(parent_block(&self.rounding, b))
    }

    fn owns_at(&self, path: &Path, from: usize, b: Block) -> Asked {
        if from < path.len() {
            if path.at(from) > 0 {
                return Asked::NoSuchLayer;
            }
            if b.len == 0 || b.len > LIMIT {
                // The walk goes on for the path alone: no layer below can have the block.
                return yes_if(false, self.parent.owns_at(path, from + 1, b));
            }
            let below = parent_block(&self.rounding, b);
            return self.parent.owns_at(path, from + 1, below);
        }
        if !self.parent.offers().owns {
            return Asked::NotOffered;
        }
        if self.holds(b) { Asked::Yes } else { Asked::No }
    }

    fn extent(&self, b: Block) -> u64 {
        self.parent.extent(parent_block(&self.rounding, b))
    }

    fn fact(&self, space: &Space, node: u32) -> Fact {
        if node > 0 {
            return self.parent.fact(space, node - 1);
        }
        if self.parent.is_open() {
            Fact::Plain
        } else {
            Fact::Closed
        }
    }

    fn state_len(&self, node: u32) -> u32 {
        if node > 0 {
            return self.parent.state_len(node - 1);
        }
        if self.parent.is_open() { 1 } else { 0 }
    }

    fn state_number(&self, node: u32, k: u32) -> u64 {
        if node > 0 {
            return self.parent.state_number(node - 1, k);
        }
        1
    }

    ghost made = { λ l. quantizer_made P.made R.proper l };
}

impl<P: Owning, R: Rounding> Owning for Quantizer<P, R> {
    ghost use Rattle.quantizer.specs.QuantizerOwns.{quantizer_owns};

    ghost owning = { λ l. quantizer_owns P.owning l };
}
