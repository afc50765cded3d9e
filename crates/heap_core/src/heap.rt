//! The heap: blocks of a root layer, by name.
ghost use Rattle.std.specs.Prelude.{◌≡◌, ◌+◌, ◌-◌, ◌≤◌, ◌<◌, ◌^◌, length, min, nat_le, slice_range, option_map, is_some, true, IfOk, IfErr, OnErr, sum_by};
ghost use Rattle.std.specs.Borrow.{Lends, Array, sem, u8 as byte};
ghost use Rattle.space_core.specs.contracts.Space.{the_row as the_space};
ghost use Rattle.std.specs.HashMap.{values};
ghost use Rattle.layer_rules.specs.Layering.{Stands, IsShut, IsRoutedIn};
ghost use Rattle.layer_rules.specs.Rows.{Each};
ghost use Rattle.layer_rules.specs.Blocks.{end_of};
ghost use Rattle.space_core.specs.Memory.{IsMemory};
ghost use Rattle.space_core.specs.Words.{filled, write_from};
ghost use Rattle.heap_core.specs.Performing.{performed, IsCall, IsAnswerTo};
ghost use Rattle.heap_core.specs.Moves.{Moves};
ghost use Rattle.heap_core.specs.Holding.{bytes_of, world_of, run_in, Held};
ghost use Rattle.heap_core.specs.Names.{IsTable, named, named_at, block_of, with_named, asked_by};
ghost use Rattle.size_round.specs.Sizes.{limit};

use crate::table::Table;
use crate::{Answer, Call, CallFault, Named};
use layer_core::{Asked, Block, Layer, Octets, Path};
use space_core::Space;
use std::alloc::Global;
use std::collections::HashMap;
use thiserror::Error;

/// Why no heap was made.
#[derive(Clone, Copy, Debug, PartialEq, Eq, Error)]
pub enum MakeFault {
    /// The process has no memory for the table of live blocks. The Space is as before.
    #[error("out of memory")]
    NoMemory,
    /// The root can't be opened: the node that refused, counted in preorder from the root as 0.
    /// The table of cells is as before.
    #[error("opening refused at node {node}")]
    Refused { node: u32 },
}

/// Blocks of a root layer, each under a name.
///
/// It keeps the names and the blocks; the Space is lent to each call, and must be the one in which
/// the heap was made.
#[derive(Drop)]
pub struct Heap<L: Layer> {
    table: Table,
    root: L,
}

impl<L: Layer> Heap<L> {
    ghost use Rattle.heap_core.specs.Heap.{heap_model, heap_table, Begins, IsMakeFault, Performs, MayBegin, IsNewFault, AreMeasured, block_extent, extent_len};

    /// A heap with no block, over a root that stands closed in the Space. It opens the root.
    ///
    /// # Errors
    /// `NoMemory` where the process has no memory for the names, and then the Space is as before.
    /// `Refused` with the node that can't be opened, and then the table of cells is as before.
    pub fn make(alloc: Global, root: L, space: &mut Space) -> Result<Heap<L>, MakeFault>
        requires stands { Stands (L.model root) space.old }
        requires shut { IsShut (L.model root) }
        ensures opened { IfOk result (λ heap. Begins ((L.model root).rules.set_up 0 space.old.cells) (run_in (heap_model L.model heap) (heap_table heap) space.new)) }
        ensures rules { IfOk result (λ heap. (heap_model L.model heap).rules ≡ (L.model root).rules) }
        ensures held { IfOk result (λ heap. Held (heap_model L.model heap) (heap_table heap) space.new) }
        ensures fault { IfErr result (λ fault. IsMakeFault fault ((L.model root).rules.set_up 0 space.old.cells) space.old space.new) }
    {
        let mut root = root;
        let Ok(table) = Table::new(alloc) else {
            return Err(MakeFault::NoMemory);
        };
        match root.set_up(space, 0) {
            Ok(()) => Ok(Heap { table, root }),
            Err(refused) => Err(MakeFault::Refused { node: refused.node }),
        }
    }

    /// Performs a call. It takes no memory.
    ///
    /// # Errors
    /// The first of these that is so. `NameLive` for a new block under a live name, `NameNotLive` for
    /// any other call with a name that isn't live; `TooManyLive` for a new block; `OutOfBlock` for
    /// bytes that aren't all the block's; `NotOffered` where the layer that is called doesn't offer it;
    /// `NotServing` and `NoSuchLayer` for a path. The heap and the Space are as before then.
    pub fn perform(&mut self, space: &mut Space, call: &Call) -> Result<Answer, CallFault>
        requires held { Held (heap_model L.model self.old) (heap_table self.old) space.old }
        requires call { IsCall call.now }
        ensures after { (result, run_in (heap_model L.model self.new) (heap_table self.new) space.new) ≡ performed (heap_model L.model self.old).rules call.now (run_in (heap_model L.model self.old) (heap_table self.old) space.old) }
        ensures held { Held (heap_model L.model self.new) (heap_table self.new) space.new }
        ensures kind { IfOk result (IsAnswerTo call.now) }
        ensures fault { OnErr result ((run_in (heap_model L.model self.new) (heap_table self.new) space.new ≡ run_in (heap_model L.model self.old) (heap_table self.old) space.old) × (space.new ≡ space.old)) }
        ensures moves { IfOk result (λ answer. Moves (heap_model L.model self.old).rules.alignment (length space.old.cells.tags) (world_of (heap_model L.model self.old) (heap_table self.old) space.old) call.now answer (world_of (heap_model L.model self.new) (heap_table self.new) space.new)) }
        ensures rules { (heap_model L.model self.new).rules ≡ (heap_model L.model self.old).rules }
    {
        match call {
            Call::Allocate { name, size } => self.allocate(space, *name, *size),
            Call::Aligned { name, size, align } => self.allocate_at(space, *name, *size, *align),
            Call::Expand { name, delta } => self.expand(space, *name, *delta),
            Call::Reallocate { name, size } => self.reallocate(space, *name, *size),
            Call::Free { name } => self.free(space, *name),
            Call::FreeAll => self.free_all(space),
            Call::Owns { name } => self.owns(space, *name),
            Call::OwnsAt { name, path } => self.owns_at(space, *name, path),
            Call::Good { size } => self.good(space, *size),
            Call::Write {
                name,
                offset,
                bytes,
            } => self.write(space, *name, *offset, bytes),
            Call::Read { name, offset, len } => self.read(space, *name, *offset, *len),
        }
    }

    /// How many blocks are live.
    pub fn live(&self) -> u32
        ensures { result ≡ length (heap_table self.now) }
    {
        self.table.len()
    }

    /// The block of a name, or `None` where the name isn't live.
    pub fn block(&self, name: u32) -> Option<Block>
        ensures block { result ≡ named_at (heap_table self.now) name }
        ensures table { IsTable (heap_table self.now) }
    {
        self.table.find(name)
    }

    /// The bytes of the block of a name, or `None` where the name isn't live.
    pub fn bytes<'a>(&self, space: &'a Space, name: u32) -> Option<&'a [u8]>
        requires { Held (heap_model L.model self.now) (heap_table self.now) space.now }
        ensures { option_map (λ lent. lent.now) result ≡ option_map (λ b. bytes_of b space.now.bytes) (named_at (heap_table self.now) name) }
    {
        match self.table.find(name) {
            None => None,
            Some(block) => Some(space.lend(block.place, block.len)),
        }
    }

    /// The bytes of the block of a live name, for writing: `Heap::bytes_mut(&mut space, &heap, name)`,
    /// with the Space first, since it is what lends. What is written there is all that changes, as if
    /// it were written by a call (`laws::lent_bytes_are_written`).
    pub fn bytes_mut<'a>(space: &'a mut Space, heap: &Heap<L>, name: u32) -> &'a mut [u8]
        requires held { Held (heap_model L.model heap.now) (heap_table heap.now) space.old }
        requires live { is_some (named_at (heap_table heap.now) name) ≡ true }
        ensures* writes_back { sem 𝓛 (Lends the_space (Array byte 0) space.entry result (λ written. record space.old { bytes = write_from space.old.bytes (block_of (heap_table heap.now) name).place written })) }
        ensures value { result.now ≡ bytes_of (block_of (heap_table heap.now) name) space.old.bytes }
    {
        let block = heap.live_block(name);
        space.lend_mut(block.place, block.len)
    }

    /// How many bytes the live blocks have together.
    pub fn asked(&self) -> u64
        ensures { result ≡ asked_by (heap_table self.now) }
    {
        self.table.asked()
    }

    /// How many bytes the live blocks take up together where their routes end.
    pub fn extent(&self) -> u64
        requires { AreMeasured (heap_model L.model self.now) (heap_table self.now) }
        ensures { result ≡ sum_by (extent_len (heap_model L.model self.now)) (heap_table self.now) }
    {
        let (map, others) = self.table.parts();
        self.extent_in_map(map) + self.extent_among(others)
    }

    /// The root layer.
    pub fn root(&self) -> &L
        ensures { L.model result.now ≡ heap_model L.model self.now }
    {
        &self.root
    }

    // The block of a live name.
    fn live_block(&self, name: u32) -> Block
        requires { is_some (named_at (heap_table self.now) name) ≡ true }
        ensures { result ≡ block_of (heap_table self.now) name }
    {
        self.block(name).unwrap()
    }

    // How many bytes the blocks of a map take up together where their routes end.
    fn extent_in_map(&self, map: &HashMap<u32, Block>) -> u64
        requires routed { Each (IsRoutedIn (heap_model L.model self.now)) (values map.now) }
        requires fits { sum_by (block_extent (heap_model L.model self.now)) (values map.now) < 2 ^ 64 }
        ensures { result ≡ sum_by (block_extent (heap_model L.model self.now)) (values map.now) }
    {
        let mut total = 0;
        for block in map.values() {
            total += self.root.extent(*block);
        }
        total
    }

    // How many bytes blocks take up together where their routes end.
    fn extent_among(&self, others: &[Named]) -> u64
        requires routed { Each (λ x. IsRoutedIn (heap_model L.model self.now) x.block) others.now }
        requires fits { sum_by (extent_len (heap_model L.model self.now)) others.now < 2 ^ 64 }
        ensures { result ≡ sum_by (extent_len (heap_model L.model self.now)) others.now }
    {
        let mut total = 0;
        for named in others {
            total += self.root.extent(named.block);
        }
        total
    }

    // A block under a new name.
    fn allocate(&mut self, space: &mut Space, name: u32, size: u64) -> Result<Answer, CallFault>
        requires { Held (heap_model L.model self.old) (heap_table self.old) space.old }
        ensures { Performs (heap_model L.model self.old) (heap_model L.model self.new) (heap_table self.old) (heap_table self.new) space.old space.new (Call.Allocate name size) result }
    {
        self.check_new(name)?;
        match self.root.allocate(space, size) {
            None => Ok(Answer::Null),
            Some(block) => Ok(self.put_under(space, name, block)),
        }
    }

    // A block under a new name, at a multiple of `align`.
    fn allocate_at(
        &mut self,
        space: &mut Space,
        name: u32,
        size: u64,
        align: u64,
    ) -> Result<Answer, CallFault>
        requires held { Held (heap_model L.model self.old) (heap_table self.old) space.old }
        requires call { IsCall (Call.Aligned name size align) }
        ensures { Performs (heap_model L.model self.old) (heap_model L.model self.new) (heap_table self.old) (heap_table self.new) space.old space.new (Call.Aligned name size align) result }
    {
        self.check_new(name)?;
        if !self.root.offers().aligned {
            return Err(CallFault::NotOffered);
        }
        match self.root.aligned_allocate(space, size, align) {
            None => Ok(Answer::Null),
            Some(block) => Ok(self.put_under(space, name, block)),
        }
    }

    // Whether a block may be put under the name, and why not.
    fn check_new(&self, name: u32) -> Result<(), CallFault>
        ensures may { IfOk result (λ _. MayBegin (heap_table self.now) name) }
        ensures fault { IfErr result (IsNewFault (heap_table self.now) name) }
    {
        if self.table.find(name).is_some() {
            Err(CallFault::NameLive)
        } else if self.table.is_full() {
            Err(CallFault::TooManyLive)
        } else {
            Ok(())
        }
    }

    // Makes the bytes of a new block 0, and puts it under its name.
    fn put_under(&mut self, space: &mut Space, name: u32, block: Block) -> Answer
        requires name { MayBegin (heap_table self.old) name }
        requires inside { end_of block ≤ length space.old.bytes }
        requires short { block.len ≤ limit }
        ensures answer { result ≡ Answer.Placed block.place }
        ensures filled { space.new ≡ record space.old { bytes = filled space.old.bytes block.place block.len 0 } }
        ensures table { heap_table self.new ≡ with_named (named name block) (heap_table self.old) }
        ensures root { heap_model L.model self.new ≡ heap_model L.model self.old }
    {
        space.fill(block.place, block.len, 0);
        self.table.insert(Named { name, block });
        Answer::Placed { place: block.place }
    }

    // The block of a name grows where it stands.
    fn expand(&mut self, space: &mut Space, name: u32, delta: u64) -> Result<Answer, CallFault>
        requires { Held (heap_model L.model self.old) (heap_table self.old) space.old }
        ensures { Performs (heap_model L.model self.old) (heap_model L.model self.new) (heap_table self.old) (heap_table self.new) space.old space.new (Call.Expand name delta) result }
    {
        let Some(old) = self.table.find(name) else {
            return Err(CallFault::NameNotLive);
        };
        if !self.root.offers().expand {
            return Err(CallFault::NotOffered);
        }
        let mut block = old;
        if !self.root.expand(space, &mut block, delta) {
            return Ok(Answer::Said { yes: false });
        }
        clear_added(space, old, block);
        self.table.replace(Named { name, block });
        Ok(Answer::Said { yes: true })
    }

    // The block of a name gets another length.
    fn reallocate(&mut self, space: &mut Space, name: u32, size: u64) -> Result<Answer, CallFault>
        requires { Held (heap_model L.model self.old) (heap_table self.old) space.old }
        ensures { Performs (heap_model L.model self.old) (heap_model L.model self.new) (heap_table self.old) (heap_table self.new) space.old space.new (Call.Reallocate name size) result }
    {
        let Some(old) = self.table.find(name) else {
            return Err(CallFault::NameNotLive);
        };
        let mut block = old;
        if !self.root.reallocate(space, &mut block, size) {
            return Ok(Answer::Said { yes: false });
        }
        if size == 0 {
            self.table.remove(name);
            return Ok(Answer::Gone);
        }
        clear_added(space, old, block);
        self.table.replace(Named { name, block });
        Ok(Answer::Moved { place: block.place })
    }

    // The block of a name is given back.
    fn free(&mut self, space: &mut Space, name: u32) -> Result<Answer, CallFault>
        requires { Held (heap_model L.model self.old) (heap_table self.old) space.old }
        ensures { Performs (heap_model L.model self.old) (heap_model L.model self.new) (heap_table self.old) (heap_table self.new) space.old space.new (Call.Free name) result }
    {
        match self.table.remove(name) {
            None => Err(CallFault::NameNotLive),
            Some(block) => {
                let yes = self.root.deallocate(space, block);
                Ok(Answer::Said { yes })
            }
        }
    }

    // All blocks are given back.
    fn free_all(&mut self, space: &mut Space) -> Result<Answer, CallFault>
        requires { Held (heap_model L.model self.old) (heap_table self.old) space.old }
        ensures { Performs (heap_model L.model self.old) (heap_model L.model self.new) (heap_table self.old) (heap_table self.new) space.old space.new Call.FreeAll result }
    {
        if !self.root.offers().all {
            return Err(CallFault::NotOffered);
        }
        self.root.deallocate_all(space);
        self.table.clear();
        Ok(Answer::Done)
    }

    // Whether the root owns the block of a name.
    fn owns(&mut self, space: &mut Space, name: u32) -> Result<Answer, CallFault>
        requires { Held (heap_model L.model self.old) (heap_table self.old) space.old }
        ensures { Performs (heap_model L.model self.old) (heap_model L.model self.new) (heap_table self.old) (heap_table self.new) space.old space.new (Call.Owns name) result }
    {
        let Some(block) = self.table.find(name) else {
            return Err(CallFault::NameNotLive);
        };
        if !self.root.offers().owns {
            return Err(CallFault::NotOffered);
        }
        let yes = self.root.owns(block);
        Ok(Answer::Said { yes })
    }

    // Whether the layer at the end of the path holds the block of a name.
    fn owns_at(&mut self, space: &mut Space, name: u32, path: &Path) -> Result<Answer, CallFault>
        requires { Held (heap_model L.model self.old) (heap_table self.old) space.old }
        ensures { Performs (heap_model L.model self.old) (heap_model L.model self.new) (heap_table self.old) (heap_table self.new) space.old space.new (Call.OwnsAt name path.now) result }
    {
        let Some(block) = self.table.find(name) else {
            return Err(CallFault::NameNotLive);
        };
        match self.root.owns_at(path, 0, block) {
            Asked::Yes => Ok(Answer::Said { yes: true }),
            Asked::No => Ok(Answer::Said { yes: false }),
            Asked::NotServing => Err(CallFault::NotServing),
            Asked::NotOffered => Err(CallFault::NotOffered),
            Asked::NoSuchLayer => Err(CallFault::NoSuchLayer),
        }
    }

    // The size that is best asked.
    fn good(&mut self, space: &mut Space, size: u64) -> Result<Answer, CallFault>
        requires { Held (heap_model L.model self.old) (heap_table self.old) space.old }
        ensures { Performs (heap_model L.model self.old) (heap_model L.model self.new) (heap_table self.old) (heap_table self.new) space.old space.new (Call.Good size) result }
    {
        let good = self.root.good_alloc_size(size);
        Ok(Answer::Size { size: good })
    }

    // Bytes are written into the block of a name.
    fn write(
        &mut self,
        space: &mut Space,
        name: u32,
        offset: u64,
        bytes: &Octets,
    ) -> Result<Answer, CallFault>
        requires { Held (heap_model L.model self.old) (heap_table self.old) space.old }
        ensures { Performs (heap_model L.model self.old) (heap_model L.model self.new) (heap_table self.old) (heap_table self.new) space.old space.new (Call.Write name offset bytes.now) result }
    {
        let Some(block) = self.table.find(name) else {
            return Err(CallFault::NameNotLive);
        };
        if !is_inside(block, offset, bytes.len() as u64) {
            return Err(CallFault::OutOfBlock);
        }
        put_bytes(space, block.place + offset, bytes);
        Ok(Answer::Done)
    }

    // Bytes of the block of a name are read.
    fn read(
        &mut self,
        space: &mut Space,
        name: u32,
        offset: u64,
        len: u64,
    ) -> Result<Answer, CallFault>
        requires held { Held (heap_model L.model self.old) (heap_table self.old) space.old }
        requires call { IsCall (Call.Read name offset len) }
        ensures { Performs (heap_model L.model self.old) (heap_model L.model self.new) (heap_table self.old) (heap_table self.new) space.old space.new (Call.Read name offset len) result }
    {
        let Some(block) = self.table.find(name) else {
            return Err(CallFault::NameNotLive);
        };
        if !is_inside(block, offset, len) {
            return Err(CallFault::OutOfBlock);
        }
        let bytes = bytes_at(space, block.place + offset, len);
        Ok(Answer::Bytes { bytes })
    }
}

// Makes those bytes 0 that a block has more than before.
fn clear_added(space: &mut Space, old: Block, block: Block)
    requires memory { IsMemory space.old }
    requires inside { end_of block ≤ length space.old.bytes }
    ensures { space.new ≡ record space.old { bytes = filled space.old.bytes (block.place + min old.len block.len) (block.len - min old.len block.len) 0 } }
{
    let kept = old.len.min(block.len);
    space.fill(block.place + kept, block.len - kept, 0);
}

// Whether so many bytes from an offset on are all the block's.
fn is_inside(block: Block, offset: u64, count: u64) -> bool
    ensures { result ≡ nat_le (offset + count) block.len }
{
    offset <= block.len && count <= block.len - offset
}

// Writes the bytes from a place on.
fn put_bytes(space: &mut Space, place: u64, bytes: &Octets)
    requires memory { IsMemory space.old }
    requires inside { place + length bytes.now ≤ length space.old.bytes }
    ensures { space.new ≡ record space.old { bytes = write_from space.old.bytes place bytes.now } }
{
    for k in 0..bytes.len() {
        space.set_byte(place + k as u64, bytes.at(k));
    }
}

// The bytes from a place on, at most 64.
fn bytes_at(space: &Space, place: u64, len: u64) -> Octets
    requires memory { IsMemory space.now }
    requires inside { place + len ≤ length space.now.bytes }
    requires short { len ≤ 64 }
    ensures { result ≡ slice_range space.now.bytes place (place + len) }
{
    let mut bytes = Octets::new();
    for k in 0..len {
        bytes.add(space.byte(place + k));
    }
    bytes
}
