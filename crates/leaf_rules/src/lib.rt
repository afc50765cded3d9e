//! The rules of a leaf, and its laws.
#![tactic(auto)]

ghost use Rattle.leaf_rules.specs.LeafMeanings.{OutOfLeaf, MemIsRegular, MemIsLawful};

/// A block is out of a leaf exactly where whole cells with its tag are.
pub fn out_of_leaf()
    ensures { OutOfLeaf }
{}

/// Each leaf is regular, and lawful where its tag is not that of free cells.
pub fn leaf_is_lawful()
    ensures regular { MemIsRegular }
    ensures lawful { MemIsLawful }
{}
