//! Expressions as plain data.

ghost use Rattle.std.specs.Prelude.{◌≡◌, [], ◌∷◌, ◌++◌, ◌<◌, length, slice_get, OnOk, OnErr, Some};
ghost use Rattle.expr_reader.specs.Parts.{parts};

use space_core::NoMemory;
use std::alloc::Global;

/// A layer with all that stands below it.
#[cycle(tree)]
#[derive(Drop)]
pub struct Expr {
    /// The offset in the text of the first letter of the layer's word, in bytes. Any number, where there is no text.
    pub at: u64,
    pub form: Form,
}

/// The sizes in bytes that a free list keeps.
#[derive(Clone, Copy, Debug, PartialEq, Eq, Drop)]
pub enum Bounds {
    /// Those of the bucket around it.
    Any,
    Range { min: u64, max: u64 },
}

/// What a quantizer rounds sizes up to.
#[derive(Clone, Copy, Debug, PartialEq, Eq, Drop)]
pub enum RoundKind {
    Pow2,
    Step { step: u64 },
}

/// A layer's kind, with its numbers as they are written and the layers below it. Sizes are in bytes.
#[cycle(tree)]
#[derive(Drop)]
pub enum Form {
    Null,
    Mem,
    Region {
        size: u64,
        align: u64,
        parent: Box<Expr>,
    },
    Bitmap {
        block: u64,
        count: u64,
        parent: Box<Expr>,
    },
    Kr {
        size: u64,
        parent: Box<Expr>,
    },
    FreeList {
        bounds: Bounds,
        parent: Box<Expr>,
    },
    Quantize {
        kind: RoundKind,
        parent: Box<Expr>,
    },
    Stats {
        parent: Box<Expr>,
    },
    Affix {
        prefix: u64,
        suffix: u64,
        parent: Box<Expr>,
    },
    Segregate {
        parts: Parts,
        last: Box<Expr>,
    },
    Buckets {
        min: u64,
        max: u64,
        step: u64,
        member: Box<Expr>,
    },
    Fallback {
        primary: Box<Expr>,
        second: Box<Expr>,
    },
    List {
        count: u64,
        member: Box<Expr>,
    },
}

/// A member of a segregator, and the greatest size in bytes that goes to it.
#[cycle(tree)]
#[derive(Drop)]
pub struct Part {
    pub threshold: u64,
    pub member: Expr,
}

/// The members of a segregator but the last, in order.
#[cycle(tree)]
#[derive(Drop)]
pub struct Parts {
    pub(crate) items: Vec<Part>,
}

impl Parts {
    /// No parts. Takes no memory.
    pub fn new(alloc: Global) -> Parts
        ensures { parts result ≡ [] }
    {
        Parts {
            items: Vec::new(alloc),
        }
    }

    /// How many parts there are.
    pub fn len(&self) -> usize
        ensures { result ≡ length (parts self.now) }
    {
        self.items.len()
    }

    /// The part with this number, from 0.
    pub fn at(&self, k: usize) -> &Part
        requires { k < length (parts self.now) }
        ensures { slice_get (parts self.now) k ≡ Some result.now }
    {
        &self.items[k]
    }

    /// Puts a part at the end. Where memory runs out nothing changes, and the part is dropped.
    pub fn add(&mut self, part: Part) -> Result<(), NoMemory>
        ensures ok { OnOk result (parts self.new ≡ parts self.old ++ part ∷ []) }
        ensures err { OnErr result (parts self.new ≡ parts self.old) }
    {
        self.items.push(part).map_err(|_failed| NoMemory)
    }
}
