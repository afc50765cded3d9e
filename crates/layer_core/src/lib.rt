//! The trait of all layers, and the leaf.
#![tactic(auto, unfolding(leaf_rules::specs::MemRules::mem_rules, layer_rules::specs::NullRules::null_rules))]

mod mem;
mod null;
mod short;

ghost use Rattle.std.specs.Prelude.{◌≡◌, ◌≤◌, ◌<◌, true, length, drop};
ghost use Rattle.size_round.specs.Sizes.{limit, is_power_of_two};
ghost use Rattle.layer_rules.specs.Fields.{are_open};
ghost use Rattle.layer_rules.specs.Rules.{owns_along};
ghost use Rattle.layer_rules.specs.Layering.{LayerModel, kept_state, Stands, IsSetUp, IsShut, IsOutOf, IsMarkedOf, IsRoutedIn, SetsUp, TearsDown, Allocates, AlignedAllocates, Expands, Reallocates, ReallocatesGenerally, MovesBlock, Deallocates, DeallocatesAll, Owns, IsFactOf, numbers_at, IsNumberOf};
ghost use Rattle.layer_laws.specs.Lawful.{IsMade, yes_if};

pub use layer_rules::{Asked, Block, Fact, Offers, Refused};
pub use null::NullLayer;
pub use short::{Octets, Path, Short};
use size_round::LIMIT;
pub use space_core::Mem;
use space_core::Space;

/// An answer at a path's end, where it goes by `possible` whether a layer can have the block: else a yes is a no.
pub fn yes_if(possible: bool, answer: Asked) -> Asked
    ensures { result ≡ yes_if possible answer }
{
    match answer {
        Asked::Yes if !possible => Asked::No,
        other => other,
    }
}

/// A layer of an allocator: it hands out blocks of the Space, by the rule of its form.
///
/// Sizes and lengths are in bytes, places are offsets in the Space. Contracts see a layer as its
/// model: its rules, which the constructor fixes and no call changes, and the numbers that it keeps.
pub trait Layer: Drop {
    /// What contracts see of the layer.
    ghost model: { Self → LayerModel };

    /// How many nodes it has, itself and every copy below it counted; at most 4,096.
    fn nodes(&self) -> u32
        ensures { result ≡ (model self.now).rules.nodes };

    /// Which optional calls it offers; the same for its whole life.
    fn offers(&self) -> Offers
        ensures { result ≡ (model self.now).rules.offers };

    /// The number, a power of two, of which the place of each block is a multiple.
    fn alignment(&self) -> u64
        ensures { result ≡ (model self.now).rules.alignment };

    /// The size that is best asked in place of `n`: `n` itself for 0 and above the limit.
    fn good_alloc_size(&self, n: u64) -> u64
        ensures good { result ≡ (model self.now).rules.good_alloc_size n }
        ensures enough { n ≤ result };

    /// Whether it is set up.
    fn is_open(&self) -> bool
        ensures { result ≡ are_open (model self.now).fields };

    /// Opens the layer, where a block of `need` bytes is to be asked of it first.
    ///
    /// # Errors
    /// `Refused` with the node that can't be opened. The layer is closed then, and the table of
    /// cells as before.
    fn set_up(&mut self, space: &mut Space, need: u64) -> Result<(), Refused>
        requires stands { Stands (model self.old) space.old }
        requires shut { IsShut (model self.old) }
        requires need { need ≤ limit }
        ensures { SetsUp (model self.old) (model self.new) space.old space.new need result };

    /// Closes the layer, and frees every cell of its leaves.
    fn tear_down(&mut self, space: &mut Space)
        requires { Stands (model self.old) space.old }
        ensures { TearsDown (model self.old) (model self.new) space.old space.new };

    /// A block of `n` bytes, or `None` where 0 bytes are asked or the layer refuses.
    fn allocate(&mut self, space: &mut Space, n: u64) -> Option<Block>
        requires stands { Stands (model self.old) space.old }
        requires opened { IsSetUp (model self.old) }
        ensures { Allocates (model self.old) (model self.new) space.old space.new n result };

    /// A block of `n` bytes at a multiple of `a`, or `None` where 0 bytes are asked or the layer refuses.
    ///
    /// To be called where `offers` says `aligned`. `a` is a power of two, at most 4,096.
    fn aligned_allocate(&mut self, space: &mut Space, n: u64, a: u64) -> Option<Block>
        requires stands { Stands (model self.old) space.old }
        requires opened { IsSetUp (model self.old) }
        requires offered { (model self.old).rules.offers.aligned ≡ true }
        requires power { is_power_of_two a ≡ true }
        requires most { a ≤ 4096 }
        ensures { AlignedAllocates (model self.old) (model self.new) space.old space.new n a result };

    /// Makes a block longer by `delta` bytes where it stands. Where it answers `false` the block is as
    /// before, and of the layer nothing but statistics changed.
    ///
    /// To be called where `offers` says `expand`.
    fn expand(&mut self, space: &mut Space, b: &mut Block, delta: u64) -> bool
        requires stands { Stands (model self.old) space.old }
        requires opened { IsSetUp (model self.old) }
        requires offered { (model self.old).rules.offers.expand ≡ true }
        requires out { IsOutOf (model self.old) space.old b.old }
        requires marked { IsMarkedOf (model self.old) space.old b.old }
        ensures { Expands (model self.old) (model self.new) space.old space.new b.old b.new delta result };

    /// Gives a block the length `n`, where it stands or at another place. Of its bytes those are kept
    /// that both lengths have: the first `min(b.len, n)`. Where it answers `false` the block is as
    /// before, and of the layer nothing but statistics changed.
    ///
    /// With `n` of 0 the block is given back, whatever `deallocate` answers of it: the answer is `true`,
    /// and the block is then place 0 and length 0.
    fn reallocate(&mut self, space: &mut Space, b: &mut Block, n: u64) -> bool
        requires stands { Stands (model self.old) space.old }
        requires opened { IsSetUp (model self.old) }
        requires out { IsOutOf (model self.old) space.old b.old }
        requires marked { IsMarkedOf (model self.old) space.old b.old }
        ensures { Reallocates (model self.old) (model self.new) space.old space.new b.old b.new n result };

    /// `reallocate` by the form that most layers take: the block grows where that is offered and can be
    /// done, and is else moved. Above the limit no layer is asked.
    fn reallocate_generally(&mut self, space: &mut Space, b: &mut Block, n: u64) -> bool
        requires stands { Stands (model self.old) space.old }
        requires opened { IsSetUp (model self.old) }
        requires out { IsOutOf (model self.old) space.old b.old }
        requires marked { IsMarkedOf (model self.old) space.old b.old }
        ensures { ReallocatesGenerally (model self.old) (model self.new) space.old space.new b.old b.new n result }
    {
        if n == b.len {
            return true;
        }
        if n == 0 {
            self.deallocate(space, *b);
            *b = Block { place: 0, len: 0 };
            return true;
        }
        if n > LIMIT {
            return false;
        }
        if n > b.len && self.offers().expand {
            if self.expand(space, b, n - b.len) {
                return true;
            }
            return self.move_block(space, b, n);
        }
        self.move_block(space, b, n)
    }

    /// Serves a new block of `n` bytes, copies there the bytes that both have, and gives the old block
    /// back, whatever `deallocate` answers of it.
    fn move_block(&mut self, space: &mut Space, b: &mut Block, n: u64) -> bool
        requires stands { Stands (model self.old) space.old }
        requires opened { IsSetUp (model self.old) }
        requires out { IsOutOf (model self.old) space.old b.old }
        requires marked { IsMarkedOf (model self.old) space.old b.old }
        ensures { MovesBlock (model self.old) (model self.new) space.old space.new b.old b.new n result }
    {
        match self.allocate(space, n) {
            None => false,
            Some(new) => {
                space.copy(b.place, new.place, n.min(b.len));
                self.deallocate(space, *b);
                *b = new;
                true
            }
        }
    }

    /// Takes a block back. It answers `false` where a region that serves the block can't reuse
    /// it, and then that region is as before.
    fn deallocate(&mut self, space: &mut Space, b: Block) -> bool
        requires stands { Stands (model self.old) space.old }
        requires opened { IsSetUp (model self.old) }
        requires out { IsOutOf (model self.old) space.old b }
        requires marked { IsMarkedOf (model self.old) space.old b }
        ensures { Deallocates (model self.old) (model self.new) space.old space.new b result };

    /// Takes all blocks back.
    ///
    /// To be called where `offers` says `all`.
    fn deallocate_all(&mut self, space: &mut Space)
        requires stands { Stands (model self.old) space.old }
        requires opened { IsSetUp (model self.old) }
        requires offered { (model self.old).rules.offers.all ≡ true }
        ensures { DeallocatesAll (model self.old) (model self.new) space.old space.new };

    /// Whether the layer holds the block: whether its bytes lie where the layer serves from. Any block
    /// may be asked for; a closed layer holds none.
    ///
    /// To be called where `offers` says `owns`, as `owns`.
    fn holds(&self, b: Block) -> bool
        requires { (model self.now).rules.offers.owns ≡ true }
        ensures { result ≡ (model self.now).rules.holds b (kept_state (model self.now)) };

    /// What `holds` answers. Statistics count the call, and in a list the member that holds the block
    /// is then the one that was used last.
    fn owns(&mut self, b: Block) -> bool
        requires opened { IsSetUp (model self.old) }
        requires offered { (model self.old).rules.offers.owns ≡ true }
        ensures { Owns (model self.old) (model self.new) b result };

    /// Whether the layer at the end of the path holds the block: along the steps of the path from
    /// number `from` on, each the number of a child.
    fn owns_at(&self, path: &Path, from: usize, b: Block) -> Asked
        requires { from ≤ length path.now }
        ensures { result ≡ owns_along (model self.now).rules (drop from path.now) b (kept_state (model self.now)) };

    /// How many bytes the block takes up where its route ends.
    fn extent(&self, b: Block) -> u64
        requires { IsRoutedIn (model self.now) b }
        ensures { result ≡ ((model self.now).rules.extent b (kept_state (model self.now))).len };

    /// What the report says of a node, counted in preorder from the layer itself as 0.
    fn fact(&self, space: &Space, node: u32) -> Fact
        requires stands { Stands (model self.now) space.now }
        requires node { node < (model self.now).rules.nodes }
        ensures { IsFactOf (model self.now) space.now node result };

    /// How many numbers the node keeps, counted as in `fact`: none where it is closed.
    fn state_len(&self, node: u32) -> u32
        requires { node < (model self.now).rules.nodes }
        ensures { result ≡ length (numbers_at (model self.now) node) };

    /// The number `k` of those that the node keeps.
    fn state_number(&self, node: u32, k: u32) -> u64
        requires node { node < (model self.now).rules.nodes }
        requires number { k < length (numbers_at (model self.now) node) }
        ensures { IsNumberOf (model self.now) node k result };

    /// Its rules are within their bounds, regular, and lawful where its leaves have tags of their own.
    ghost made: { (l : Self) → IsMade (model l).rules };
}

/// Gives a block another length by the form that most layers take, whatever the layer's own is.
pub fn general_reallocate<L: Layer>(layer: &mut L, space: &mut Space, b: &mut Block, n: u64) -> bool
    requires stands { Stands (L.model layer.old) space.old }
    requires opened { IsSetUp (L.model layer.old) }
    requires out { IsOutOf (L.model layer.old) space.old b.old }
    requires marked { IsMarkedOf (L.model layer.old) space.old b.old }
    ensures { ReallocatesGenerally (L.model layer.old) (L.model layer.new) space.old space.new b.old b.new n result }
{
    layer.reallocate_generally(space, b, n)
}

/// A layer that says of each block whether it owns it.
pub trait Owning: Layer {
    /// Its `offers` says `owns`.
    ghost owning: { (l : Self) → (⟦<Self as Layer>⟧.model l).rules.offers.owns ≡ true };
}
