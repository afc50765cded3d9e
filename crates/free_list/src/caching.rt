// The free list itself.
ghost use Rattle.std.specs.Prelude.{◌≡◌, is_some};
ghost use Rattle.free_list_rules.specs.FreeListRules.{free_list_rules};
ghost use Rattle.free_list.specs.FreeListProper.{IsProper};
ghost use Rattle.layer_rules.specs.Fields.{are_open};

use crate::{is_cached, parent_block, parent_len, parent_need};
use layer_core::{Asked, Block, Fact, Layer, Offers, Owning, Path, Refused};
use size_round::LIMIT;
use space_core::Space;

// Where a chain ends.
const CHAIN_END: u64 = u64::MAX;

// The chain of an open list: how many blocks are cached, and the place of the front one. The first word of
// each is the place of the next.
#[derive(Clone, Copy, Drop)]
pub(crate) struct Chain {
    pub(crate) count: u64,
    pub(crate) front: u64,
}

/// A layer that caches freed blocks with lengths in a range, and hands them out again, the last one first.
///
/// Sizes are in bytes. A block with a length from `least` to `greatest` takes up `greatest` bytes of the
/// parent, whatever its length; any other is the parent's own. The chain of cached blocks lies in their
/// first words.
#[derive(Drop)]
pub struct FreeList<P: Layer> {
    least: u64,
    greatest: u64,
    chain: Option<Chain>,
    parent: P,
    ghost proper: { IsProper least greatest (P.model parent).rules },
    ghost together: { are_open (P.model parent).fields ≡ is_some chain },
}

impl<P: Layer> FreeList<P> {
    ghost use Rattle.free_list.specs.FreeListModel.{free_list_of};
    ghost use Rattle.layer_rules.specs.Layering.{IsShut};

    /// A closed free list over a closed parent. It will cache blocks of `least` to `greatest` bytes, of
    /// which the greater is 8 to 2^30.
    pub fn new(least: u64, greatest: u64, parent: P) -> FreeList<P>
        requires shut { IsShut (P.model parent) }
        requires proper { IsProper least greatest (P.model parent).rules }
        ensures rules { (free_list_of P.model result).rules ≡ free_list_rules least greatest (P.model parent).rules }
        ensures shut { IsShut (free_list_of P.model result) }
    {
        FreeList {
            least,
            greatest,
            chain: None,
            parent,
        }
    }
}

impl<P: Layer> Layer for FreeList<P> {
    ghost use Rattle.free_list.specs.FreeListModel.{free_list_of};
    ghost use Rattle.free_list.specs.FreeListMade.{free_list_made};

    ghost model = { free_list_of P.model };

    fn nodes(&self) -> u32 {
        self.parent.nodes() + 1
    }

    fn offers(&self) -> Offers {
        let offers = self.parent.offers();
        Offers {
            owns: offers.owns,
            expand: offers.expand,
            aligned: false,
            all: offers.all,
        }
    }

    fn alignment(&self) -> u64 {
        self.parent.alignment()
    }

    fn good_alloc_size(&self, n: u64) -> u64 {
        if n == 0 || n > LIMIT {
            return n;
        }
        if is_cached(self.least, self.greatest, n) {
            return self.greatest;
        }
        self.parent.good_alloc_size(n)
    }

    fn is_open(&self) -> bool {
        self.chain.is_some()
    }

    fn set_up(&mut self, space: &mut Space, need: u64) -> Result<(), Refused> {
        let parent_need = parent_need(self.least, self.greatest, need);
        match self.parent.set_up(space, parent_need) {
            Ok(()) => {
                self.chain = Some(Chain {
                    count: 0,
                    front: CHAIN_END,
                });
                Ok(())
            }
            Err(refused) => Err(Refused {
                node: refused.node + 1,
            }),
        }
    }

    fn tear_down(&mut self, space: &mut Space) {
        self.parent.tear_down(space);
        self.chain = None;
    }

    fn allocate(&mut self, space: &mut Space, n: u64) -> Option<Block> {
        if n == 0 || n > LIMIT {
            return None;
        }
        if !is_cached(self.least, self.greatest, n) {
            return self.parent.allocate(space, n);
        }
        match self.chain {
            Some(chain) => {
                if chain.count == 0 {
                    return match self.parent.allocate(space, self.greatest) {
                        Some(whole) => Some(Block {
                            place: whole.place,
                            len: n,
                        }),
                        None => None,
                    };
                }
                self.chain = Some(Chain {
                    count: chain.count - 1,
                    front: space.word(chain.front),
                });
                Some(Block {
                    place: chain.front,
                    len: n,
                })
            }
            None => unreachable!(),
        }
    }

    fn aligned_allocate(&mut self, _space: &mut Space, _n: u64, _a: u64) -> Option<Block> {
        unreachable!()
    }

    fn expand(&mut self, space: &mut Space, b: &mut Block, delta: u64) -> bool {
        if delta == 0 {
            return true;
        }
        if delta > LIMIT - b.len {
            return false;
        }
        // What the parent's own length of the block lacks.
        let mut below = parent_block(self.least, self.greatest, *b);
        let lack = parent_len(self.least, self.greatest, b.len + delta) - below.len;
        if lack == 0 {
            b.len += delta;
            return true;
        }
        if !self.parent.expand(space, &mut below, lack) {
            return false;
        }
        b.len += delta;
        true
    }

    fn reallocate(&mut self, space: &mut Space, b: &mut Block, n: u64) -> bool {
        self.reallocate_generally(space, b, n)
    }

    fn deallocate(&mut self, space: &mut Space, b: Block) -> bool {
        if !is_cached(self.least, self.greatest, b.len) {
            return self.parent.deallocate(space, b);
        }
        match self.chain {
            Some(chain) => {
                space.set_word(b.place, chain.front);
                self.chain = Some(Chain {
                    count: chain.count + 1,
                    front: b.place,
                });
                true
            }
            None => unreachable!(),
        }
    }

    fn deallocate_all(&mut self, space: &mut Space) {
        self.parent.deallocate_all(space);
        self.chain = Some(Chain {
            count: 0,
            front: CHAIN_END,
        });
    }

    fn holds(&self, b: Block) -> bool {
        self.chain.is_some()
            && b.len >= 1
            && b.len <= LIMIT
            && self
                .parent
                .holds(parent_block(self.least, self.greatest, b))
    }

    fn owns(&mut self, b: Block) -> bool {
        if b.len == 0 || b.len > LIMIT {
            return false;
        }
        self.parent.owns(parent_block(self.least, self.greatest, b))
    }

    fn owns_at(&self, path: &Path, from: usize, b: Block) -> Asked {
        if from < path.len() {
            if path.at(from) > 0 {
                return Asked::NoSuchLayer;
            }
            let below = parent_block(self.least, self.greatest, b);
            let answer = self.parent.owns_at(path, from + 1, below);
            if matches!(answer, Asked::Yes) && (b.len == 0 || b.len > LIMIT) {
                return Asked::No;
            }
            return answer;
        }
        if !self.parent.offers().owns {
            return Asked::NotOffered;
        }
        if self.holds(b) { Asked::Yes } else { Asked::No }
    }

    fn extent(&self, b: Block) -> u64 {
        self.parent
            .extent(parent_block(self.least, self.greatest, b))
    }

    fn fact(&self, space: &Space, node: u32) -> Fact {
        if node > 0 {
            return self.parent.fact(space, node - 1);
        }
        match self.chain {
            Some(chain) => Fact::Cached { count: chain.count },
            None => Fact::Closed,
        }
    }

    fn state_len(&self, node: u32) -> u32 {
        if node > 0 {
            return self.parent.state_len(node - 1);
        }
        if self.chain.is_some() { 3 } else { 0 }
    }

    fn state_number(&self, node: u32, k: u32) -> u64 {
        if node > 0 {
            return self.parent.state_number(node - 1, k);
        }
        match self.chain {
            Some(chain) => match k {
                0 => 1,
                1 => chain.count,
                _ => chain.front,
            },
            None => unreachable!(),
        }
    }

    ghost made = { λ l. free_list_made P.made l };
}

impl<P: Owning> Owning for FreeList<P> {
    ghost use Rattle.free_list.specs.FreeListOwns.{free_list_owns};

    ghost owning = { λ l. free_list_owns P.owning l };
}
