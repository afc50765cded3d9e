//! The rules of all layers, over plain data, and the plain types that rules and code share.
#![tactic(auto)]

/// A run of bytes of the Space.
#[derive(Clone, Copy, Drop)]
pub struct Block {
    /// The offset of its first byte in the Space.
    pub place: u64,
    /// How many bytes it has.
    pub len: u64,
}

/// The node that refused to be opened.
#[derive(Clone, Copy, Drop)]
pub struct Refused {
    /// Counted in preorder from the layer itself as 0.
    pub node: u32,
}

/// Which optional calls a layer offers.
#[derive(Clone, Copy, Drop)]
pub struct Offers {
    /// Whether a block is one of its own.
    pub owns: bool,
    /// To make a block longer in place.
    pub expand: bool,
    /// A block at a multiple of an alignment that the call names.
    pub aligned: bool,
    /// To take all blocks back at once.
    pub all: bool,
}

/// What a layer at the end of a path answers, asked whether it owns a block.
#[derive(Clone, Copy, Drop)]
pub enum Asked {
    /// It owns the block.
    Yes,
    /// It doesn't.
    No,
    /// The path enters the parent of a layer that took one chunk from it, and that parent serves no block.
    NotServing,
    /// The layer there doesn't offer to say.
    NotOffered,
    /// A step of the path names no child.
    NoSuchLayer,
}

/// The counters of a statistics layer. Each stops at 2^64 - 1, and what is taken off stops at 0.
#[derive(Clone, Copy, Drop)]
pub struct Stats {
    /// Calls of `owns`.
    pub num_owns: u64,
    /// Requests, aligned ones too, of at least one byte.
    pub num_allocate: u64,
    /// Those that were served.
    pub num_allocate_ok: u64,
    /// Calls to make a block longer by at least one byte.
    pub num_expand: u64,
    /// Those that did.
    pub num_expand_ok: u64,
    /// Reallocations to another length of at least one byte.
    pub num_reallocate: u64,
    /// Those that were done.
    pub num_reallocate_ok: u64,
    /// Those that kept the block's place.
    pub num_reallocate_in_place: u64,
    /// Blocks given back.
    pub num_deallocate: u64,
    /// Times that all blocks were taken back.
    pub num_deallocate_all: u64,
    /// The bytes of the blocks that are out.
    pub bytes_used: u64,
    /// The bytes that were handed out, in sum.
    pub bytes_allocated: u64,
    /// The bytes that reallocations copied.
    pub bytes_moved: u64,
    /// What the good sizes of the blocks that are out are longer than these.
    pub bytes_slack: u64,
    /// The most that `bytes_used` has been.
    pub bytes_high_tide: u64,
}

/// What a report says of a node.
#[derive(Clone, Copy, Drop)]
pub enum Fact {
    /// It is open, and there is nothing more to say.
    Plain,
    /// It is closed.
    Closed,
    /// How many cells a leaf has.
    Cells { count: u32 },
    /// How many bytes are left in a region's chunk.
    Region { room: u64 },
    /// How many bytes of a bitmap's units are free, and in the longest run of free ones.
    Bitmap { room: u64, longest: u64 },
    /// The same for a kr.
    Kr { room: u64, longest: u64 },
    /// How many blocks a free list has cached.
    Cached { count: u64 },
    /// How many members of a list are open.
    Members { count: u32 },
    /// The counters of a statistics layer.
    Counters { stats: Stats },
    /// Two numbers of a layer that this library does not know; its author says what they are.
    Numbers { first: u64, second: u64 },
}
