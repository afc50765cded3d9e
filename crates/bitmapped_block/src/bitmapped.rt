// The bitmap itself.
ghost use Rattle.std.specs.Prelude.{◌≡◌, is_some};
ghost use Rattle.bitmap_rules.specs.BitmapRules.{bitmap_rules};
ghost use Rattle.bitmapped_block.specs.BitmapProper.{IsProper};
ghost use Rattle.bitmapped_block.specs.BitmapSizes.{AreSized, row_of, held_units};
ghost use Rattle.layer_rules.specs.Fields.{are_open};

use crate::bits::{BitRow, clear, free_units, least_run, next, put};
use crate::parent_need;
use crate::places::{Units, front, is_inside, least_place, touched};
use layer_core::{Asked, Block, Fact, Layer, Offers, Owning, Path, Refused};
use size_round::{LIMIT, up};
use space_core::Space;

/// What the place of each block is a multiple of.
const ALIGN: u64 = 16;

// The chunk of an open bitmap, the place of its first unit, and how many units it has. Their bits stand at the
// chunk's front.
#[derive(Clone, Copy, Drop)]
pub(crate) struct Bitmap {
    pub(crate) chunk: Block,
    pub(crate) base: u64,
    pub(crate) count: u64,
}

/// A layer that takes one chunk from its parent when it is set up, and hands out its units, each of
/// which is marked as taken by a bit in front of them. A block takes all units that it touches.
///
/// Sizes are in bytes.
#[derive(Drop)]
pub struct BitmappedBlock<P: Layer> {
    unit: u64,
    count: u64,
    bitmap: Option<Bitmap>,
    parent: P,
    ghost proper: { IsProper unit count (P.model parent).rules },
    ghost together: { are_open (P.model parent).fields ≡ is_some bitmap },
    ghost sized: { AreSized unit bitmap },
}

impl<P: Layer> BitmappedBlock<P> {
    ghost use Rattle.bitmapped_block.specs.BitmapModel.{bitmap_of};
    ghost use Rattle.layer_rules.specs.Layering.{IsShut};

    /// A closed bitmap over a closed parent. It will have at least `count` units of `unit` bytes: a
    /// multiple of 16 from 16 to 2^20, and 1 to 2^20 of them. The parent's alignment is at least 16.
    pub fn new(unit: u64, count: u64, parent: P) -> BitmappedBlock<P>
        requires shut { IsShut (P.model parent) }
        requires proper { IsProper unit count (P.model parent).rules }
        ensures rules { (bitmap_of P.model result).rules ≡ bitmap_rules unit count (P.model parent).rules }
        ensures shut { IsShut (bitmap_of P.model result) }
    {
        BitmappedBlock {
            unit,
            count,
            bitmap: None,
            parent,
        }
    }
}

impl Bitmap {
    // Its units, of `size` bytes each.
    fn units(&self, size: u64) -> Units
        ensures { result ≡ held_units size self.now }
    {
        Units {
            size,
            base: self.base,
            row: self.row(),
        }
    }

    // Where their bits stand.
    fn row(&self) -> BitRow
        ensures { result ≡ row_of self.now }
    {
        BitRow {
            place: self.chunk.place,
            count: self.count,
        }
    }
}

impl<P: Layer> Layer for BitmappedBlock<P> {
    ghost use Rattle.bitmapped_block.specs.BitmapModel.{bitmap_of};
    ghost use Rattle.bitmapped_block.specs.BitmapMade.{bitmap_made};

    ghost model = { bitmap_of P.model };

    fn nodes(&self) -> u32 {
        self.parent.nodes() + 1
    }

    fn offers(&self) -> Offers {
        Offers {
            owns: true,
            expand: true,
            aligned: true,
            all: true,
        }
    }

    fn alignment(&self) -> u64 {
        ALIGN
    }

    fn good_alloc_size(&self, n: u64) -> u64 {
        if n == 0 || n > LIMIT {
            return n;
        }
        up(n, self.unit)
    }

    fn is_open(&self) -> bool {
        self.bitmap.is_some()
    }

    fn set_up(&mut self, space: &mut Space, need: u64) -> Result<(), Refused> {
        let count = self.count.max((need + (self.unit - 1)) / self.unit);
        let front = front(count);
        let size = front + count * self.unit;
        if size > LIMIT {
            return Err(Refused { node: 0 });
        }
        match self.parent.set_up(space, parent_need(need, size)) {
            Ok(()) => {}
            Err(refused) => {
                return Err(Refused {
                    node: refused.node + 1,
                });
            }
        }
        match self.parent.allocate(space, size) {
            Some(chunk) => {
                let bitmap = Bitmap {
                    chunk,
                    base: chunk.place + front,
                    count,
                };
                clear(space, bitmap.row());
                self.bitmap = Some(bitmap);
                Ok(())
            }
            None => {
                self.parent.tear_down(space);
                Err(Refused { node: 0 })
            }
        }
    }

    fn tear_down(&mut self, space: &mut Space) {
        self.parent.tear_down(space);
        self.bitmap = None;
    }

    fn allocate(&mut self, space: &mut Space, n: u64) -> Option<Block> {
        if n == 0 || n > LIMIT {
            return None;
        }
        match self.bitmap {
            Some(bitmap) => {
                let row = bitmap.row();
                let needed = (n + (self.unit - 1)) / self.unit;
                match least_run(space, row, needed) {
                    Some(first) => {
                        put(space, row, first, needed, true);
                        Some(Block {
                            place: bitmap.base + self.unit * first,
                            len: n,
                        })
                    }
                    None => None,
                }
            }
            None => unreachable!(),
        }
    }

    fn aligned_allocate(&mut self, space: &mut Space, n: u64, a: u64) -> Option<Block> {
        if n == 0 || n > LIMIT {
            return None;
        }
        match self.bitmap {
            Some(bitmap) => match least_place(space, bitmap.units(self.unit), n, a.max(ALIGN)) {
                Some(place) => {
                    let b = Block { place, len: n };
                    let span = touched(self.unit, bitmap.base, b);
                    put(space, bitmap.row(), span.first, span.count, true);
                    Some(b)
                }
                None => None,
            },
            None => unreachable!(),
        }
    }

    fn expand(&mut self, space: &mut Space, b: &mut Block, delta: u64) -> bool {
        if delta == 0 {
            return true;
        }
        if delta > LIMIT - b.len {
            return false;
        }
        match self.bitmap {
            Some(bitmap) => {
                let longer = Block {
                    place: b.place,
                    len: b.len + delta,
                };
                let old = touched(self.unit, bitmap.base, *b);
                let new = touched(self.unit, bitmap.base, longer);
                let from = old.first + old.count;
                let upto = new.first + new.count;
                let row = bitmap.row();
                if upto > row.count || next(space, row, from, upto, true) < upto {
                    return false;
                }
                put(space, row, from, upto - from, true);
                b.len += delta;
                true
            }
            None => unreachable!(),
        }
    }

    fn reallocate(&mut self, space: &mut Space, b: &mut Block, n: u64) -> bool {
        self.reallocate_generally(space, b, n)
    }

    fn deallocate(&mut self, space: &mut Space, b: Block) -> bool {
        match self.bitmap {
            Some(bitmap) => {
                let span = touched(self.unit, bitmap.base, b);
                put(space, bitmap.row(), span.first, span.count, false);
                true
            }
            None => unreachable!(),
        }
    }

    fn deallocate_all(&mut self, space: &mut Space) {
        match self.bitmap {
            Some(bitmap) => clear(space, bitmap.row()),
            None => unreachable!(),
        }
    }

    fn holds(&self, b: Block) -> bool {
        match self.bitmap {
            Some(bitmap) => is_inside(b, bitmap.base, self.unit * bitmap.count),
            None => false,
        }
    }

    fn owns(&mut self, b: Block) -> bool {
        self.holds(b)
    }

    fn owns_at(&self, path: &Path, from: usize, b: Block) -> Asked {
        if from < path.len() {
            if path.at(from) == 0 {
                return Asked::NotServing;
            }
            return Asked::NoSuchLayer;
        }
        if self.holds(b) { Asked::Yes } else { Asked::No }
    }

    fn extent(&self, b: Block) -> u64 {
        match self.bitmap {
            Some(bitmap) => self.unit * touched(self.unit, bitmap.base, b).count,
            None => unreachable!(),
        }
    }

    fn fact(&self, space: &Space, node: u32) -> Fact {
        if node > 0 {
            return self.parent.fact(space, node - 1);
        }
        match self.bitmap {
            Some(bitmap) => {
                let free = free_units(space, bitmap.row());
                Fact::Bitmap {
                    room: self.unit * free.count,
                    longest: self.unit * free.longest,
                }
            }
            None => Fact::Closed,
        }
    }

    fn state_len(&self, node: u32) -> u32 {
        if node > 0 {
            return self.parent.state_len(node - 1);
        }
        if self.bitmap.is_some() { 3 } else { 0 }
    }

    fn state_number(&self, node: u32, k: u32) -> u64 {
        if node > 0 {
            return self.parent.state_number(node - 1, k);
        }
        match self.bitmap {
            Some(bitmap) => match k {
                0 => 1,
                1 => bitmap.chunk.place,
                _ => bitmap.chunk.len,
            },
            None => unreachable!(),
        }
    }

    ghost made = { λ l. bitmap_made P.made l };
}

impl<P: Owning> Owning for BitmappedBlock<P> {
    ghost use Rattle.bitmapped_block.specs.BitmapMade.{bitmap_owns};

    ghost owning = { λ l. bitmap_owns P.model l };
}
