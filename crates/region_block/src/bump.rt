// The region itself.
ghost use Rattle.std.specs.Prelude.{◌≡◌, is_some};
ghost use Rattle.region_rules.specs.RegionRules.{region_rules};
ghost use Rattle.region_block.specs.RegionProper.{IsProper};
ghost use Rattle.layer_rules.specs.Fields.{are_open};

use crate::parent_need;
use layer_core::{Asked, Block, Fact, Layer, Offers, Owning, Path, Refused};
use size_round::{LIMIT, up};
use space_core::Space;

// The chunk of an open region, and the place where its next block begins.
#[derive(Clone, Copy, Drop)]
pub(crate) struct Bump {
    pub(crate) chunk: Block,
    pub(crate) position: u64,
}

/// A layer that takes one chunk from its parent when it is set up, and hands out its bytes from
/// front to back. Only its last block can be used again before all are.
///
/// Sizes are in bytes; each block takes up its length rounded up to the alignment.
#[derive(Drop)]
pub struct Region<P: Layer> {
    size: u64,
    align: u64,
    bump: Option<Bump>,
    parent: P,
    ghost proper: { IsProper size align (P.model parent).rules },
    ghost together: { are_open (P.model parent).fields ≡ is_some bump },
}

impl<P: Layer> Region<P> {
    ghost use Rattle.region_block.specs.RegionModel.{region_of};
    ghost use Rattle.layer_rules.specs.Layering.{IsShut};

    /// A closed region over a closed parent. Its chunk will have at least `size` bytes, 1 to 2^30,
    /// and its blocks begin at multiples of `align`, a power of two from 1 to 4,096 that is at
    /// most the parent's alignment.
    pub fn new(size: u64, align: u64, parent: P) -> Region<P>
        requires shut { IsShut (P.model parent) }
        requires proper { IsProper size align (P.model parent).rules }
        ensures rules { (region_of P.model result).rules ≡ region_rules size align (P.model parent).rules }
        ensures shut { IsShut (region_of P.model result) }
    {
        Region {
            size,
            align,
            bump: None,
            parent,
        }
    }
}

impl<P: Layer> Layer for Region<P> {
    ghost use Rattle.region_block.specs.RegionModel.{region_of};
    ghost use Rattle.region_block.specs.RegionMade.{region_made};

    ghost model = { region_of P.model };

    fn nodes(&self) -> u32 {
        self.parent.nodes() + 1
    }

    fn offers(&self) -> Offers {
        Offers {
            owns: true,
            expand: true,
            aligned: true,
            all: true,
        }
    }

    fn alignment(&self) -> u64 {
        self.align
    }

    fn good_alloc_size(&self, n: u64) -> u64 {
        if n == 0 || n > LIMIT {
            return n;
        }
        up(n, self.align)
    }

    fn is_open(&self) -> bool {
        self.bump.is_some()
    }

    fn set_up(&mut self, space: &mut Space, need: u64) -> Result<(), Refused> {
        let size = up(self.size.max(need), self.align);
        if size > LIMIT {
            return Err(Refused { node: 0 });
        }
        match self.parent.set_up(space, parent_need(need, size)) {
            Ok(()) => {}
            Err(refused) => {
                return Err(Refused {
                    node: refused.node + 1,
                });
            }
        }
        match self.parent.allocate(space, size) {
            Some(chunk) => {
                self.bump = Some(Bump {
                    chunk,
                    position: chunk.place,
                });
                Ok(())
            }
            None => {
                self.parent.tear_down(space);
                Err(Refused { node: 0 })
            }
        }
    }

    fn tear_down(&mut self, space: &mut Space) {
        self.parent.tear_down(space);
        self.bump = None;
    }

    fn allocate(&mut self, _space: &mut Space, n: u64) -> Option<Block> {
        if n == 0 || n > LIMIT {
            return None;
        }
        match self.bump {
            Some(bump) => {
                let taken = up(n, self.align);
                if bump.position + taken > bump.chunk.place + bump.chunk.len {
                    return None;
                }
                self.bump = Some(Bump {
                    chunk: bump.chunk,
                    position: bump.position + taken,
                });
                Some(Block {
                    place: bump.position,
                    len: n,
                })
            }
            None => unreachable!(),
        }
    }

    fn aligned_allocate(&mut self, _space: &mut Space, n: u64, a: u64) -> Option<Block> {
        if n == 0 || n > LIMIT {
            return None;
        }
        match self.bump {
            Some(bump) => {
                let place = up(bump.position, a.max(self.align));
                let taken = up(n, self.align);
                if place + taken > bump.chunk.place + bump.chunk.len {
                    return None;
                }
                self.bump = Some(Bump {
                    chunk: bump.chunk,
                    position: place + taken,
                });
                Some(Block { place, len: n })
            }
            None => unreachable!(),
        }
    }

    fn expand(&mut self, _space: &mut Space, b: &mut Block, delta: u64) -> bool {
        if delta == 0 {
            return true;
        }
        if delta > LIMIT - b.len {
            return false;
        }
        match self.bump {
            Some(bump) => {
                let position = b.place + up(b.len + delta, self.align);
                if position > bump.chunk.place + bump.chunk.len
                    || b.place + up(b.len, self.align) != bump.position
                {
                    return false;
                }
                self.bump = Some(Bump {
                    chunk: bump.chunk,
                    position,
                });
                b.len += delta;
                true
            }
            None => unreachable!(),
        }
    }

    fn reallocate(&mut self, space: &mut Space, b: &mut Block, n: u64) -> bool {
        self.reallocate_generally(space, b, n)
    }

    fn deallocate(&mut self, _space: &mut Space, b: Block) -> bool {
        match self.bump {
            Some(bump) => {
                if b.place + up(b.len, self.align) != bump.position {
                    return false;
                }
                self.bump = Some(Bump {
                    chunk: bump.chunk,
                    position: b.place,
                });
                true
            }
            None => unreachable!(),
        }
    }

    fn deallocate_all(&mut self, _space: &mut Space) {
        match self.bump {
            Some(bump) => {
                self.bump = Some(Bump {
                    chunk: bump.chunk,
                    position: bump.chunk.place,
                });
            }
            None => unreachable!(),
        }
    }

    fn holds(&self, b: Block) -> bool {
        match self.bump {
            Some(bump) => {
                // Written so that no sum can be too large, whatever block is asked for.
                b.len >= 1
                    && b.len <= LIMIT
                    && bump.chunk.place <= b.place
                    && b.len <= bump.chunk.len
                    && b.place - bump.chunk.place <= bump.chunk.len - b.len
            }
            None => false,
        }
    }

    fn owns(&mut self, b: Block) -> bool {
        self.holds(b)
    }

    fn owns_at(&self, path: &Path, from: usize, b: Block) -> Asked {
        if from < path.len() {
            if path.at(from) == 0 {
                return Asked::NotServing;
            }
            return Asked::NoSuchLayer;
        }
        if self.holds(b) { Asked::Yes } else { Asked::No }
    }

    fn extent(&self, b: Block) -> u64 {
        up(b.len, self.align)
    }

    fn fact(&self, space: &Space, node: u32) -> Fact {
        if node > 0 {
            return self.parent.fact(space, node - 1);
        }
        match self.bump {
            Some(bump) => Fact::Region {
                room: bump.chunk.place + bump.chunk.len - bump.position,
            },
            None => Fact::Closed,
        }
    }

    fn state_len(&self, node: u32) -> u32 {
        if node > 0 {
            return self.parent.state_len(node - 1);
        }
        if self.bump.is_some() { 4 } else { 0 }
    }

    fn state_number(&self, node: u32, k: u32) -> u64 {
        if node > 0 {
            return self.parent.state_number(node - 1, k);
        }
        match self.bump {
            Some(bump) => match k {
                0 => 1,
                1 => bump.chunk.place,
                2 => bump.chunk.len,
                _ => bump.position,
            },
            None => unreachable!(),
        }
    }

    ghost made = { λ l. region_made P.made l };
}

impl<P: Layer> Owning for Region<P> {
    ghost use Rattle.region_block.specs.RegionMade.{region_owns};

    ghost owning = { λ l. region_owns P.model l };
}
