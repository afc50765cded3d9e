//! A heap: blocks of one layer by name, with their bytes.
#![tactic(auto)]

mod heap;
pub mod laws;
pub mod runs;
mod table;

pub use heap::{Heap, MakeFault};
pub use layer_core::{Block, Octets, Path};
use thiserror::Error;

/// A call on the heap.
#[derive(Clone, Debug, PartialEq, Eq, Drop)]
pub enum Call {
    /// A block of `size` bytes, all 0, under a name that isn't live.
    Allocate {
        name: u32,
        size: u64,
    },
    /// The same at a multiple of `align`, a power of two up to 4,096.
    Aligned {
        name: u32,
        size: u64,
        align: u64,
    },
    /// The block of a live name grows by `delta` bytes where it stands; the new ones are 0.
    Expand {
        name: u32,
        delta: u64,
    },
    /// The block of a live name gets `size` bytes, here or elsewhere; those that are new are 0.
    Reallocate {
        name: u32,
        size: u64,
    },
    /// The block of a live name is given back.
    Free {
        name: u32,
    },
    /// All blocks are given back.
    FreeAll,
    /// Whether the root owns the block of a live name.
    Owns {
        name: u32,
    },
    /// Whether the layer at the end of the path holds the block of a live name.
    OwnsAt {
        name: u32,
        path: Path,
    },
    /// The size that is best asked in place of `size`.
    Good {
        size: u64,
    },
    /// Bytes are written into the block of a live name, from an offset on.
    Write {
        name: u32,
        offset: u64,
        bytes: Octets,
    },
    /// So many bytes of the block of a live name, from 1 to 64, from an offset on.
    Read {
        name: u32,
        offset: u64,
        len: u64,
    },
}

/// What a call answers.
#[derive(Clone, Debug, PartialEq, Eq, Drop)]
pub enum Answer {
    /// The place of the new block, an offset in the Space.
    Placed { place: u64 },
    /// No block: 0 bytes were asked, or the layer refuses.
    Null,
    /// What the layer answered.
    Said { yes: bool },
    /// The place of the block with its new length, where it stood or elsewhere.
    Moved { place: u64 },
    /// The block was given back, since 0 bytes were asked.
    Gone,
    /// The size that is best asked.
    Size { size: u64 },
    /// It was done.
    Done,
    /// The bytes that were read.
    Bytes { bytes: Octets },
}

/// Why a call is not performed. All is as before then.
#[derive(Clone, Copy, Debug, PartialEq, Eq, Error)]
pub enum CallFault {
    /// A block under this name is live already.
    #[error("name is live")]
    NameLive,
    /// No block under this name is live.
    #[error("name is not live")]
    NameNotLive,
    /// 65,536 names are live.
    #[error("too many live blocks")]
    TooManyLive,
    /// The bytes to be written or read aren't all the block's.
    #[error("outside the block")]
    OutOfBlock,
    /// The layer that is called doesn't offer the call.
    #[error("not offered")]
    NotOffered,
    /// The path enters the parent of a layer that took one chunk from it.
    #[error("not serving")]
    NotServing,
    /// A step of the path names no child.
    #[error("no such layer")]
    NoSuchLayer,
}

/// A live block under its name.
#[derive(Clone, Copy, Drop)]
pub struct Named {
    pub name: u32,
    pub block: Block,
}
