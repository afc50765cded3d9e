//! A heap with a vector of its blocks, for code that keeps many of them.
ghost use Rattle.std.specs.Prelude.{◌≡◌, ◌+◌, ◌-◌, ◌≤◌, ◌<◌, ◌++◌, ◌∷◌, true, false, [], not, length, min, take, drop, slice_get, slice_set, slice_range, is_ok, Err, OnOk, OnErr};
ghost use Rattle.std.specs.Fn.{FnOnceReturnsAtMut};
ghost use Rattle.space_core.specs.Words.{write_from};

use crate::block::{Event, OwnedBlock};
use crate::heap::OwnedHeap;
use layer_core::Layer;
use std::alloc::{AllocError, Global};
use std::marker::Model;
use thiserror::Error;

/// Why there is no block more in a row.
#[derive(Clone, Copy, Debug, PartialEq, Eq, Error)]
pub enum PushError {
    /// The process has no memory for one more. It needs none where room was reserved.
    #[error("no room for one more block")]
    NoRoom,
    /// 0 bytes were asked, or the layers of the heap refuse.
    #[error("the heap refuses a block")]
    Refused,
}

/// Blocks of a heap, by their numbers from 0 on. Contracts see the bytes of each as a row, in the order of the pushes.
///
/// That the blocks are live and share no byte is true of every such vector, so a loop over one needs no fact of its own.
#[derive(Drop)]
pub struct BlockVec<L: Layer> {
    heap: OwnedHeap<L>,
    blocks: Vec<OwnedBlock>,
}

impl<L: Layer> Model for BlockVec<L> {
    ghost use Rattle.std.specs.Prelude.{vec_capacity};
    ghost use Rattle.owned_heap.specs.Rows.{Rows, rows_of, AreRows};

    ghost Value = { Rows L };

    ghost view = { λ a. record { rows = rows_of a.heap a.blocks.items; blocks = a.blocks.items; capacity = vec_capacity a.blocks; heap = a.heap } };

    ghost invariant = { λ a. AreRows a.heap a.blocks.items };
}

impl<L: Layer> BlockVec<L> {
    ghost use Rattle.std.specs.Prelude.{◌==◌};
    ghost use Rattle.std.specs.List.{swap_remove, SameBelow};
    ghost use Rattle.std.specs.Bool.{OnTrue, OnFalse};
    ghost use Rattle.owned_heap.specs.Owned.{is_refused, ReallocatesIn, DeallocatesIn, DeallocatesAllIn, WritesIn};
    ghost use Rattle.owned_heap.specs.Rows.{row_of, block_at, cleared, AreGone, PushesIn};

    /// No block of this heap yet.
    pub fn new(alloc: Global, heap: OwnedHeap<L>) -> BlockVec<L>
        ensures rows { result.rows ≡ [] }
        ensures capacity { result.capacity ≡ 0 }
        ensures heap { result.heap ≡ heap }
    {
        BlockVec {
            heap,
            blocks: Vec::new(alloc),
        }
    }

    /// The heap, for what it says of itself.
    pub fn heap(&self) -> &OwnedHeap<L>
        ensures { result.now ≡ self.now.heap }
    {
        &self.heap
    }

    /// Makes room for so many blocks more, so that `push` needs none.
    ///
    /// # Errors
    /// Where the process has no memory for them. All is as before then.
    pub fn reserve(&mut self, additional: usize) -> Result<(), AllocError>
        ensures room { OnOk result (length self.old.rows + additional ≤ self.new.capacity) }
        ensures err { OnErr result (self.new.capacity ≡ self.old.capacity) }
        ensures rows { self.new.rows ≡ self.old.rows }
        ensures blocks { self.new.blocks ≡ self.old.blocks }
        ensures heap { self.new.heap ≡ self.old.heap }
    {
        self.blocks.reserve(additional)
    }

    /// How many blocks there are.
    pub fn len(&self) -> usize
        ensures { result ≡ length self.now.rows }
    {
        self.blocks.len()
    }

    /// Whether there is none.
    pub fn is_empty(&self) -> bool
        ensures { result ≡ (length self.now.rows == 0) }
    {
        self.blocks.is_empty()
    }

    /// Puts a block of `n` bytes at the end. What the bytes are isn't said.
    ///
    /// # Errors
    /// `Refused` where 0 bytes are asked or the root refuses, and `NoRoom` where the process has no memory for one more in the
    /// row, which it needs none for where room was reserved. All rows are as before then.
    pub fn push(&mut self, n: u64) -> Result<(), PushError>
        ensures served { OnOk result (is_refused L.model self.old.heap n ≡ false) }
        ensures refused { result ≡ Err PushError.Refused → is_refused L.model self.old.heap n ≡ true }
        ensures no_room { result ≡ Err PushError.NoRoom → self.old.capacity ≤ length self.old.rows }
        ensures succeeds { length self.old.rows < self.old.capacity → is_ok result ≡ not (is_refused L.model self.old.heap n) }
        ensures row { OnOk result (self.new.rows ≡ self.old.rows ++ row_of self.new.rows (length self.old.rows) ∷ []) }
        ensures size { OnOk result (length (row_of self.new.rows (length self.old.rows)) ≡ n) }
        ensures len { OnOk result (length self.new.rows ≡ length self.old.rows + 1) }
        ensures blocks { OnOk result (self.new.blocks ≡ self.old.blocks ++ block_at self.new.blocks (length self.old.rows) ∷ []) }
        ensures events { OnOk result (self.new.heap.events ≡ Event.Made (block_at self.new.blocks (length self.old.rows)) ∷ self.old.heap.events) }
        ensures same { OnErr result (self.new.rows ≡ self.old.rows) }
        ensures same_blocks { OnErr result (self.new.blocks ≡ self.old.blocks) }
        ensures same_events { OnErr result (self.new.heap.events ≡ self.old.heap.events) }
        ensures capacity { self.old.capacity ≤ self.new.capacity }
        ensures rule { PushesIn L.model self.old.heap self.new.heap n (slice_get self.new.blocks (length self.old.rows)) result }
    {
        if self.blocks.reserve(1).is_err() {
            return Err(PushError::NoRoom);
        }
        match self.heap.allocate(n) {
            Some(block) => {
                self.blocks.push_reserved(block);
                Ok(())
            }
            None => Err(PushError::Refused),
        }
    }

    /// The block itself, which tells its place.
    pub fn block(&self, index: usize) -> &OwnedBlock
        requires { index < length self.now.rows }
        ensures { result.now ≡ block_at self.now.blocks index }
    {
        &self.blocks[index]
    }

    /// The bytes of a block.
    pub fn bytes(&self, index: usize) -> &[u8]
        requires { index < length self.now.rows }
        ensures { result.now ≡ row_of self.now.rows index }
    {
        self.heap.bytes(&self.blocks[index])
    }

    /// Writes all bytes of a block.
    pub fn write(&mut self, index: usize, bytes: &[u8])
        requires inside { index < length self.old.rows }
        requires size { length bytes.now ≡ length (row_of self.old.rows index) }
        ensures rows { self.new.rows ≡ slice_set self.old.rows index bytes.now }
        ensures len { length self.new.rows ≡ length self.old.rows }
        ensures blocks { self.new.blocks ≡ self.old.blocks }
        ensures capacity { self.new.capacity ≡ self.old.capacity }
        ensures only { WritesIn self.old.heap self.new.heap (block_at self.old.blocks index).block.place bytes.now }
    {
        let block = &self.blocks[index];
        self.heap.write(block, bytes);
    }

    /// Writes bytes of a block, from one of them on.
    pub fn write_at(&mut self, index: usize, at: u64, bytes: &[u8])
        requires inside { index < length self.old.rows }
        requires room { at + length bytes.now ≤ length (row_of self.old.rows index) }
        ensures rows { self.new.rows ≡ slice_set self.old.rows index (write_from (row_of self.old.rows index) at bytes.now) }
        ensures written { slice_range (row_of self.new.rows index) at (at + length bytes.now) ≡ bytes.now }
        ensures before { take at (row_of self.new.rows index) ≡ take at (row_of self.old.rows index) }
        ensures behind { drop (at + length bytes.now) (row_of self.new.rows index) ≡ drop (at + length bytes.now) (row_of self.old.rows index) }
        ensures size { length (row_of self.new.rows index) ≡ length (row_of self.old.rows index) }
        ensures len { length self.new.rows ≡ length self.old.rows }
        ensures blocks { self.new.blocks ≡ self.old.blocks }
        ensures capacity { self.new.capacity ≡ self.old.capacity }
        ensures only { WritesIn self.old.heap self.new.heap ((block_at self.old.blocks index).block.place + at) bytes.now }
    {
        let block = &self.blocks[index];
        self.heap.write_at(block, at, bytes);
    }

    /// Lets `change` write the bytes of a block, all or some, where they stand.
    pub fn with_bytes_mut<F: FnOnce(&mut [u8])>(&mut self, index: usize, change: F)
        requires inside { index < length self.old.rows }
        requires callable { F.IsAlwaysCallable change }
        ensures rows { self.new.rows ≡ slice_set self.old.rows index (row_of self.new.rows index) }
        ensures changed { FnOnceReturnsAtMut F.FnOnce change (row_of self.old.rows index) tt (row_of self.new.rows index) }
        ensures size { length (row_of self.new.rows index) ≡ length (row_of self.old.rows index) }
        ensures len { length self.new.rows ≡ length self.old.rows }
        ensures blocks { self.new.blocks ≡ self.old.blocks }
        ensures capacity { self.new.capacity ≡ self.old.capacity }
        ensures only { WritesIn self.old.heap self.new.heap (block_at self.old.blocks index).block.place (row_of self.new.rows index) }
    {
        let block = &self.blocks[index];
        self.heap.with_bytes_mut(block, change);
    }

    /// Gives a block the length `n`, at least 1, where it stands or elsewhere. Of its bytes those are kept that both lengths
    /// have. Where it answers `false` all is as before.
    pub fn reallocate(&mut self, index: usize, n: u64) -> bool
        requires inside { index < length self.old.rows }
        requires some { 1 ≤ n }
        ensures row { OnTrue result (self.new.rows ≡ slice_set self.old.rows index (row_of self.new.rows index)) }
        ensures size { OnTrue result (length (row_of self.new.rows index) ≡ n) }
        ensures kept { OnTrue result (take (min (length (row_of self.old.rows index)) n) (row_of self.new.rows index) ≡ take n (row_of self.old.rows index)) }
        ensures by_index { OnTrue result (SameBelow (row_of self.old.rows index) (row_of self.new.rows index) (min (length (row_of self.old.rows index)) n)) }
        ensures blocks { OnTrue result (self.new.blocks ≡ slice_set self.old.blocks index (block_at self.new.blocks index)) }
        ensures events { OnTrue result (self.new.heap.events ≡ Event.Made (block_at self.new.blocks index) ∷ (Event.Gone (block_at self.old.blocks index) ∷ self.old.heap.events)) }
        ensures same { OnFalse result (self.new.rows ≡ self.old.rows) }
        ensures same_blocks { OnFalse result (self.new.blocks ≡ self.old.blocks) }
        ensures same_events { OnFalse result (self.new.heap.events ≡ self.old.heap.events) }
        ensures len { length self.new.rows ≡ length self.old.rows }
        ensures capacity { self.new.capacity ≡ self.old.capacity }
        ensures rule { ReallocatesIn L.model self.old.heap self.new.heap (block_at self.old.blocks index) (block_at self.new.blocks index) n result }
    {
        let block = &mut self.blocks[index];
        self.heap.reallocate(block, n)
    }

    /// Gives the last block back. It answers `false` where the layer that serves it can't reuse it yet.
    pub fn pop(&mut self) -> bool
        requires { 0 < length self.old.rows }
        ensures rows { self.new.rows ≡ take (length self.old.rows - 1) self.old.rows }
        ensures len { length self.new.rows + 1 ≡ length self.old.rows }
        ensures blocks { self.new.blocks ≡ take (length self.old.rows - 1) self.old.blocks }
        ensures events { self.new.heap.events ≡ Event.Gone (block_at self.old.blocks (length self.old.rows - 1)) ∷ self.old.heap.events }
        ensures capacity { self.new.capacity ≡ self.old.capacity }
        ensures rule { DeallocatesIn L.model self.old.heap self.new.heap (block_at self.old.blocks (length self.old.rows - 1)) result }
    {
        let block = self.blocks.take_last();
        self.heap.deallocate(block)
    }

    /// Gives a block back. The last one gets its number. It answers `false` where the layer that serves it can't reuse it yet.
    pub fn swap_remove(&mut self, index: usize) -> bool
        requires { index < length self.old.rows }
        ensures rows { self.new.rows ≡ swap_remove self.old.rows index [] }
        ensures len { length self.new.rows + 1 ≡ length self.old.rows }
        ensures blocks { self.new.blocks ≡ swap_remove self.old.blocks index (block_at self.old.blocks index) }
        ensures events { self.new.heap.events ≡ Event.Gone (block_at self.old.blocks index) ∷ self.old.heap.events }
        ensures capacity { self.new.capacity ≡ self.old.capacity }
        ensures rule { DeallocatesIn L.model self.old.heap self.new.heap (block_at self.old.blocks index) result }
    {
        let block = self.blocks.swap_remove(index);
        self.heap.deallocate(block)
    }

    /// Gives all blocks back: at once where the root offers that, and else the last one first.
    pub fn clear(&mut self)
        ensures rows { self.new.rows ≡ [] }
        ensures blocks { self.new.blocks ≡ [] }
        ensures gone { AreGone self.new.heap self.old.blocks }
        ensures events { self.new.heap.events ≡ cleared (L.model self.old.heap.root).rules.offers.all self.old.blocks self.old.heap.events }
        ensures capacity { self.new.capacity ≡ self.old.capacity }
        ensures rules { (L.model self.new.heap.root).rules ≡ (L.model self.old.heap.root).rules }
        ensures rule { (L.model self.old.heap.root).rules.offers.all ≡ true → DeallocatesAllIn L.model self.old.heap self.new.heap }
    {
        if self.heap.deallocate_all() {
            self.blocks.clear();
            return;
        }
        while !self.is_empty() {
            self.pop();
        }
    }
}
