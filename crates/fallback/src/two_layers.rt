// The fallback itself.
ghost use Rattle.std.specs.Prelude.{◌≡◌};
ghost use Rattle.fallback_rules.specs.FallbackRules.{fallback_rules};
ghost use Rattle.fallback.specs.FallbackProper.{IsProper};
ghost use Rattle.layer_rules.specs.Fields.{are_open};
ghost use Rattle.layer_rules.specs.Layering.{Stands, IsSetUp, IsOutOf, IsMarkedOf};
ghost use Rattle.layer_rules.specs.Rules.{IsBeside};
ghost use Rattle.fallback.specs.MovingAcross.{MovesAcross};

use layer_core::{Asked, Block, Fact, Layer, Offers, Owning, Path, Refused, yes_if};
use size_round::LIMIT;
use space_core::Space;

/// Two layers over one Space: each request goes to the primary, and where that refuses to the second.
///
/// Sizes and places are in bytes, and a place is a multiple of the smaller alignment of the two. A block belongs to the
/// primary exactly where that holds it, and else to the second: there it is given back, grows, and gets another length.
/// Only where that layer refuses another length does the block move to the other one, if this serves it. The
/// fallback keeps nothing, and is open where its primary is.
#[derive(Drop)]
pub struct Fallback<P: Layer, F: Layer> {
    primary: P,
    second: F,
    ghost proper: { IsProper (P.model primary).rules (F.model second).rules },
    ghost together: { are_open (F.model second).fields ≡ are_open (P.model primary).fields },
}

impl<P: Layer, F: Layer> Fallback<P, F> {
    ghost use Rattle.fallback.specs.FallbackModel.{fallback_of};
    ghost use Rattle.layer_rules.specs.Layering.{IsShut};

    /// A closed fallback over two closed layers with different leaves, of which the primary offers owns. They
    /// have at most 4,095 nodes in sum, and each at most seven layers above a leaf.
    ///
    /// It opens the primary with the need that it is opened with, and then the second with none. Where either
    /// refuses, it refuses with that one's node, and both are closed.
    pub fn new(primary: P, second: F) -> Fallback<P, F>
        requires primary_shut { IsShut (P.model primary) }
        requires second_shut { IsShut (F.model second) }
        requires proper { IsProper (P.model primary).rules (F.model second).rules }
        ensures rules { (fallback_of P.model F.model result).rules ≡ fallback_rules (P.model primary).rules (F.model second).rules }
        ensures shut { IsShut (fallback_of P.model F.model result) }
    {
        Fallback { primary, second }
    }
}

// Serves `n` bytes from the other layer, copies there the bytes that both lengths have, and gives the old
// block back to its holder, whatever that answers.
fn move_across<H: Layer, O: Layer>(
    holder: &mut H,
    other: &mut O,
    space: &mut Space,
    b: &mut Block,
    n: u64,
) -> bool
    requires holder_stands { Stands (H.model holder.old) space.old }
    requires other_stands { Stands (O.model other.old) space.old }
    requires holder_opened { IsSetUp (H.model holder.old) }
    requires other_opened { IsSetUp (O.model other.old) }
    requires beside { IsBeside (H.model holder.old).rules (O.model other.old).rules }
    requires out { IsOutOf (H.model holder.old) space.old b.old }
    requires marked { IsMarkedOf (H.model holder.old) space.old b.old }
    ensures { MovesAcross (H.model holder.old) (H.model holder.new) (O.model other.old) (O.model other.new) space.old space.new b.old b.new n result }
{
    match other.allocate(space, n) {
        None => false,
        Some(new) => {
            space.copy(b.place, new.place, n.min(b.len));
            holder.deallocate(space, *b);
            *b = new;
            true
        }
    }
}

impl<P: Layer, F: Layer> Layer for Fallback<P, F> {
    ghost use Rattle.fallback.specs.FallbackModel.{fallback_of};
    ghost use Rattle.fallback.specs.FallbackMade.{fallback_made};

    ghost model = { fallback_of P.model F.model };

    fn nodes(&self) -> u32 {
        self.primary.nodes() + self.second.nodes() + 1
    }

    fn offers(&self) -> Offers {
        let first = self.primary.offers();
        let second = self.second.offers();
        Offers {
            owns: first.owns && second.owns,
            expand: first.expand && second.expand,
            aligned: first.aligned && second.aligned,
            all: first.all && second.all,
        }
    }

    fn alignment(&self) -> u64 {
        self.primary.alignment().min(self.second.alignment())
    }

    fn good_alloc_size(&self, n: u64) -> u64 {
        self.primary.good_alloc_size(n)
    }

    fn is_open(&self) -> bool {
        self.primary.is_open()
    }

    fn set_up(&mut self, space: &mut Space, need: u64) -> Result<(), Refused> {
        if let Err(refused) = self.primary.set_up(space, need) {
            return Err(Refused {
                node: refused.node + 1,
            });
        }
        if let Err(refused) = self.second.set_up(space, 0) {
            self.primary.tear_down(space);
            return Err(Refused {
                node: refused.node + self.primary.nodes() + 1,
            });
        }
        Ok(())
    }

    fn tear_down(&mut self, space: &mut Space) {
        self.primary.tear_down(space);
        self.second.tear_down(space);
    }

    fn allocate(&mut self, space: &mut Space, n: u64) -> Option<Block> {
        if n == 0 || n > LIMIT {
            return None;
        }
        match self.primary.allocate(space, n) {
            Some(b) => Some(b),
            None => self.second.allocate(space, n),
        }
    }

    fn aligned_allocate(&mut self, space: &mut Space, n: u64, a: u64) -> Option<Block> {
        if n == 0 || n > LIMIT {
            return None;
        }
        match self.primary.aligned_allocate(space, n, a) {
            Some(b) => Some(b),
            None => self.second.aligned_allocate(space, n, a),
        }
    }

    fn expand(&mut self, space: &mut Space, b: &mut Block, delta: u64) -> bool {
        if delta == 0 {
            return true;
        }
        if delta > LIMIT - b.len {
            return false;
        }
        if self.primary.holds(*b) {
            self.primary.expand(space, b, delta)
        } else {
            self.second.expand(space, b, delta)
        }
    }

    fn reallocate(&mut self, space: &mut Space, b: &mut Block, n: u64) -> bool {
        if n == b.len {
            return true;
        }
        if n == 0 {
            self.deallocate(space, *b);
            *b = Block { place: 0, len: 0 };
            return true;
        }
        if n > LIMIT {
            return false;
        }
        if self.primary.holds(*b) {
            self.primary.reallocate(space, b, n)
                || move_across(&mut self.primary, &mut self.second, space, b, n)
        } else {
            self.second.reallocate(space, b, n)
                || move_across(&mut self.second, &mut self.primary, space, b, n)
        }
    }

    fn deallocate(&mut self, space: &mut Space, b: Block) -> bool {
        if self.primary.holds(b) {
            self.primary.deallocate(space, b)
        } else {
            self.second.deallocate(space, b)
        }
    }

    fn deallocate_all(&mut self, space: &mut Space) {
        self.primary.deallocate_all(space);
        self.second.deallocate_all(space);
    }

    fn holds(&self, b: Block) -> bool {
        self.is_open()
            && b.len >= 1
            && b.len <= LIMIT
            && (self.primary.holds(b) || self.second.holds(b))
    }

    fn owns(&mut self, b: Block) -> bool {
        b.len >= 1 && b.len <= LIMIT && (self.primary.owns(b) || self.second.owns(b))
    }

    fn owns_at(&self, path: &Path, from: usize, b: Block) -> Asked {
        if from < path.len() {
            let possible = b.len >= 1 && b.len <= LIMIT;
            return match path.at(from) {
                0 => yes_if(possible, self.primary.owns_at(path, from + 1, b)),
                1 => yes_if(possible, self.second.owns_at(path, from + 1, b)),
                _ => Asked::NoSuchLayer,
            };
        }
        if !self.offers().owns {
            return Asked::NotOffered;
        }
        if self.holds(b) { Asked::Yes } else { Asked::No }
    }

    fn extent(&self, b: Block) -> u64 {
        if self.primary.holds(b) {
            self.primary.extent(b)
        } else {
            self.second.extent(b)
        }
    }

    fn fact(&self, space: &Space, node: u32) -> Fact {
        if node == 0 {
            return if self.is_open() {
                Fact::Plain
            } else {
                Fact::Closed
            };
        }
        let primary_nodes = self.primary.nodes();
        if node <= primary_nodes {
            self.primary.fact(space, node - 1)
        } else {
            self.second.fact(space, node - 1 - primary_nodes)
        }
    }

    fn state_len(&self, node: u32) -> u32 {
        if node == 0 {
            return if self.is_open() { 1 } else { 0 };
        }
        let primary_nodes = self.primary.nodes();
        if node <= primary_nodes {
            self.primary.state_len(node - 1)
        } else {
            self.second.state_len(node - 1 - primary_nodes)
        }
    }

    fn state_number(&self, node: u32, k: u32) -> u64 {
        if node == 0 {
            return 1;
        }
        let primary_nodes = self.primary.nodes();
        if node <= primary_nodes {
            self.primary.state_number(node - 1, k)
        } else {
            self.second.state_number(node - 1 - primary_nodes, k)
        }
    }

    ghost made = { λ l. fallback_made P.made F.made l };
}

impl<P: Layer, F: Owning> Owning for Fallback<P, F> {
    ghost use Rattle.fallback.specs.FallbackOwns.{fallback_owns};

    ghost owning = { λ l. fallback_owns F.owning l };
}
