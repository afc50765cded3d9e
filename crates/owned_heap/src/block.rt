//! A block that a heap has handed out, and what a heap remembers of its blocks.
ghost use Rattle.std.specs.Prelude.{◌≡◌, length};

use ghost_log::Log;
use layer_core::Block;
use std::marker::Model;

/// A block of a heap, which can't be copied: who gives it back has it no more.
///
/// Contracts see its place and its length, and a number that no other block of the heap has.
#[derive(Drop)]
pub struct OwnedBlock {
    block: Block,
    births: Log<()>,
}

impl Model for OwnedBlock {
    ghost use Rattle.std.specs.Prelude.{length};
    ghost use Rattle.owned_heap.specs.Ticket.{Ticket};

    ghost Value = { Ticket };

    ghost view = { λ a. record { number = length a.births.items; block = a.block } };
}

impl OwnedBlock {
    // The block that is made after so many.
    pub(crate) fn after(births: &Log<()>, block: Block) -> OwnedBlock
        ensures { result ≡ record { number = length births.now.items; block = block } }
    {
        OwnedBlock {
            block,
            births: births.again(),
        }
    }

    // The same block, for what is remembered.
    pub(crate) fn again(&self) -> OwnedBlock
        ensures { result ≡ self.now }
    {
        OwnedBlock {
            block: self.block,
            births: self.births.again(),
        }
    }

    /// Where it stands, and how long it is.
    pub fn block(&self) -> Block
        ensures { result ≡ self.now.block }
    {
        self.block
    }

    /// How many bytes it has.
    pub fn len(&self) -> u64
        ensures { result ≡ self.now.block.len }
    {
        self.block.len
    }

    /// Where it stands in the heap's memory.
    pub fn place(&self) -> u64
        ensures { result ≡ self.now.block.place }
    {
        self.block.place
    }
}

/// What happened to the blocks of a heap.
#[derive(Drop)]
pub enum Event {
    /// A block was handed out.
    Made(OwnedBlock),
    /// A block was given back.
    Gone(OwnedBlock),
    /// All blocks were given back.
    Emptied,
}
