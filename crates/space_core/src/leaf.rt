//! The leaf: the layer that asks the Space for cells under a tag of its own.
ghost use Rattle.std.specs.Prelude.{◌≡◌, ◌≤◌, true, false};
ghost use Rattle.space_core.specs.Memory.{most_leaves};

use std::marker::Model;

/// A leaf, by the tag of its cells and whether it is set up.
///
/// Only `Space::new_leaf` makes one, and it can't be cloned, so no two leaves of a Space share a tag.
#[derive(Drop)]
pub struct Mem {
    tag: u32,
    is_set: bool,
}

impl Model for Mem {
    ghost use Rattle.space_core.specs.Leaf.{Leaf, IsMadeLeaf};

    ghost Value = { Leaf };

    ghost view = { λ a. record { tag = a.tag; is_set = a.is_set } };

    ghost invariant = { λ a. IsMadeLeaf (record { tag = a.tag; is_set = a.is_set }) };
}

impl Mem {
    /// A closed leaf with this tag.
    pub(crate) fn with_tag(tag: u32) -> Mem
        requires some { 1 ≤ tag }
        requires most { tag ≤ most_leaves }
        ensures { result ≡ record { tag = tag; is_set = false } }
    {
        Mem { tag, is_set: false }
    }

    /// The tag of the leaf's cells, from 1 to 4,096.
    pub fn tag(&self) -> u32
        ensures tag { result ≡ self.now.tag }
        ensures made { 1 ≤ self.now.tag }
    {
        self.tag
    }

    /// Whether the leaf is set up.
    pub fn is_open(&self) -> bool
        ensures { result ≡ self.now.is_set }
    {
        self.is_set
    }

    /// Marks the leaf as set up.
    pub fn open(&mut self)
        ensures after { self.new ≡ record self.old { is_set = true } }
        ensures made { 1 ≤ self.new.tag }
    {
        self.is_set = true;
    }

    /// Marks the leaf as not set up.
    pub fn close(&mut self)
        ensures after { self.new ≡ record self.old { is_set = false } }
        ensures made { 1 ≤ self.new.tag }
    {
        self.is_set = false;
    }
}
