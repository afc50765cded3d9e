//! A heap with a vector of its blocks, and beside each a value: a table or a cache whose entries have bytes.
ghost use Rattle.std.specs.Prelude.{◌≡◌, ◌+◌, ◌≤◌, ◌<◌, ◌++◌, ◌∷◌, [], true, false, length, slice_get, slice_set, slice_index_or, Err, IfOk, OnOk, OnErr};
ghost use Rattle.space_core.specs.Words.{write_from};

use crate::block::Event;
use crate::heap::OwnedHeap;
use crate::rows::{BlockVec, PushError};
use layer_core::Layer;
use std::alloc::Global;
use std::marker::Model;
use std::mem::replace;

/// Blocks of a heap, each with a value of `T` beside it. Contracts see the values and, in the same order, the bytes of each
/// block as a row.
///
/// That the blocks are live and share no byte is true of every such table, as of a `BlockVec`.
#[derive(Drop)]
pub struct BlockTable<L: Layer, T: Drop> {
    blocks: BlockVec<L>,
    values: Vec<T>,
}

impl<L: Layer, T: Drop> Model for BlockTable<L, T> {
    ghost use Rattle.std.specs.Prelude.{◌≡◌, length};
    ghost use Rattle.owned_heap.specs.Tables.{Table};

    ghost Value = { Table L T };

    ghost view = { λ a. record { values = a.values.items; rows = a.blocks.rows; blocks = a.blocks.blocks; heap = a.blocks.heap } };

    ghost invariant = { λ a. length a.values.items ≡ length a.blocks.rows };
}

impl<L: Layer, T: Drop> BlockTable<L, T> {
    ghost use Rattle.std.specs.Prelude.{◌==◌};
    ghost use Rattle.std.specs.List.{swap_remove};
    ghost use Rattle.owned_heap.specs.Owned.{is_refused, DeallocatesAllIn, GivesBackIn, WritesIn};
    ghost use Rattle.owned_heap.specs.Rows.{row_of, block_at, cleared, PushesIn};

    /// No entry of this heap yet.
    pub fn new(alloc: Global, heap: OwnedHeap<L>) -> BlockTable<L, T>
        ensures values { result.values ≡ [] }
        ensures rows { result.rows ≡ [] }
        ensures blocks { result.blocks ≡ [] }
        ensures heap { result.heap ≡ heap }
    {
        BlockTable {
            blocks: BlockVec::new(alloc, heap),
            values: Vec::new(alloc),
        }
    }

    /// The heap, for what it says of itself.
    pub fn heap(&self) -> &OwnedHeap<L>
        ensures { result.now ≡ self.now.heap }
    {
        self.blocks.heap()
    }

    /// How many entries there are.
    pub fn len(&self) -> usize
        ensures { result ≡ length self.now.values }
    {
        self.values.len()
    }

    /// Whether there is none.
    pub fn is_empty(&self) -> bool
        ensures { result ≡ (length self.now.values == 0) }
    {
        self.values.is_empty()
    }

    /// The values, in order.
    pub fn values(&self) -> &[T]
        ensures { result.now ≡ self.now.values }
    {
        self.values.as_slice()
    }

    /// Puts an entry with a block of `n` bytes at the end, and answers its number. What the bytes are isn't said.
    ///
    /// # Errors
    /// `Refused` where 0 bytes are asked or the root refuses, and `NoRoom` where the process has no memory for one more. The
    /// entries are as before then, and the value is gone.
    pub fn push(&mut self, n: u64, value: T) -> Result<usize, PushError>
        ensures served { OnOk result (is_refused L.model self.old.heap n ≡ false) }
        ensures refused { result ≡ Err PushError.Refused → is_refused L.model self.old.heap n ≡ true }
        ensures number { IfOk result (λ index. index ≡ length self.old.values) }
        ensures values { OnOk result (self.new.values ≡ self.old.values ++ value ∷ []) }
        ensures row { IfOk result (λ index. self.new.rows ≡ self.old.rows ++ row_of self.new.rows index ∷ []) }
        ensures size { IfOk result (λ index. length (row_of self.new.rows index) ≡ n) }
        ensures len { OnOk result (length self.new.values ≡ length self.old.values + 1) }
        ensures blocks { IfOk result (λ index. self.new.blocks ≡ self.old.blocks ++ block_at self.new.blocks index ∷ []) }
        ensures events { IfOk result (λ index. self.new.heap.events ≡ Event.Made (block_at self.new.blocks index) ∷ self.old.heap.events) }
        ensures same_values { OnErr result (self.new.values ≡ self.old.values) }
        ensures same_rows { OnErr result (self.new.rows ≡ self.old.rows) }
        ensures same_blocks { OnErr result (self.new.blocks ≡ self.old.blocks) }
        ensures same_events { OnErr result (self.new.heap.events ≡ self.old.heap.events) }
        ensures rule { PushesIn L.model self.old.heap self.new.heap n (slice_get self.new.blocks (length self.old.rows)) result }
    {
        if self.values.reserve(1).is_err() {
            return Err(PushError::NoRoom);
        }
        let index = self.blocks.len();
        self.blocks.push(n)?;
        self.values.push_reserved(value);
        Ok(index)
    }

    /// The bytes of an entry.
    pub fn bytes(&self, index: usize) -> &[u8]
        requires { index < length self.now.values }
        ensures { result.now ≡ row_of self.now.rows index }
    {
        self.blocks.bytes(index)
    }

    /// Writes all bytes of an entry.
    pub fn write(&mut self, index: usize, bytes: &[u8])
        requires inside { index < length self.old.values }
        requires size { length bytes.now ≡ length (row_of self.old.rows index) }
        ensures values { self.new.values ≡ self.old.values }
        ensures rows { self.new.rows ≡ slice_set self.old.rows index bytes.now }
        ensures blocks { self.new.blocks ≡ self.old.blocks }
        ensures only { WritesIn self.old.heap self.new.heap (block_at self.old.blocks index).block.place bytes.now }
    {
        self.blocks.write(index, bytes);
    }

    /// Writes bytes of an entry, from one of them on.
    pub fn write_at(&mut self, index: usize, at: u64, bytes: &[u8])
        requires inside { index < length self.old.values }
        requires room { at + length bytes.now ≤ length (row_of self.old.rows index) }
        ensures values { self.new.values ≡ self.old.values }
        ensures rows { self.new.rows ≡ slice_set self.old.rows index (write_from (row_of self.old.rows index) at bytes.now) }
        ensures blocks { self.new.blocks ≡ self.old.blocks }
        ensures only { WritesIn self.old.heap self.new.heap ((block_at self.old.blocks index).block.place + at) bytes.now }
    {
        self.blocks.write_at(index, at, bytes);
    }

    /// Puts another value beside a block, and answers the one that was there.
    pub fn replace(&mut self, index: usize, value: T) -> T
        requires { index < length self.old.values }
        ensures result { result ≡ slice_index_or self.old.values index result }
        ensures values { self.new.values ≡ slice_set self.old.values index value }
        ensures rows { self.new.rows ≡ self.old.rows }
        ensures blocks { self.new.blocks ≡ self.old.blocks }
        ensures heap { self.new.heap ≡ self.old.heap }
    {
        replace(&mut self.values[index], value)
    }

    /// Takes an entry off and gives its block back. The last one gets its number.
    pub fn swap_remove(&mut self, index: usize) -> T
        requires { index < length self.old.values }
        ensures value { result ≡ slice_index_or self.old.values index result }
        ensures values { self.new.values ≡ swap_remove self.old.values index result }
        ensures rows { self.new.rows ≡ swap_remove self.old.rows index [] }
        ensures len { length self.new.values + 1 ≡ length self.old.values }
        ensures blocks { self.new.blocks ≡ swap_remove self.old.blocks index (block_at self.old.blocks index) }
        ensures events { self.new.heap.events ≡ Event.Gone (block_at self.old.blocks index) ∷ self.old.heap.events }
        ensures rule { GivesBackIn L.model self.old.heap self.new.heap (block_at self.old.blocks index) }
    {
        self.blocks.swap_remove(index);
        self.values.swap_remove(index)
    }

    /// Takes all entries off and gives their blocks back: at once where the root offers that.
    pub fn clear(&mut self)
        ensures values { self.new.values ≡ [] }
        ensures rows { self.new.rows ≡ [] }
        ensures blocks { self.new.blocks ≡ [] }
        ensures events { self.new.heap.events ≡ cleared (L.model self.old.heap.root).rules.offers.all self.old.blocks self.old.heap.events }
        ensures rules { (L.model self.new.heap.root).rules ≡ (L.model self.old.heap.root).rules }
        ensures rule { (L.model self.old.heap.root).rules.offers.all ≡ true → DeallocatesAllIn L.model self.old.heap self.new.heap }
    {
        self.blocks.clear();
        self.values.clear();
    }
}
