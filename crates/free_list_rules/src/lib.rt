//! The rules of a free list, and its laws.
#![tactic(auto)]

ghost use Rattle.free_list_rules.specs.FreeListMeanings.{FreeListIsRegular, FreeListIsLawful, OpenFreeListIsSound, OutOfFreeList, DownHasAllBytes, ImageOfFreeList, ChainIsRead, ChainIsWalked};

/// A free list is regular over a parent that is, and where its numbers are proper lawful where this is lawful too.
pub fn free_list_is_lawful()
    ensures regular { FreeListIsRegular }
    ensures lawful { FreeListIsLawful }
{}

/// An open free list is sound exactly where its cached blocks are out of a sound parent and apart from each other.
pub fn open_free_list_is_sound()
    ensures { OpenFreeListIsSound }
{}

/// A block is out of a free list exactly where it is out of the parent and apart from each cached block.
pub fn out_of_free_list()
    ensures { OutOfFreeList }
{}

/// The block that is handed down has every byte of the block.
pub fn down_has_all_bytes()
    ensures { DownHasAllBytes }
{}

/// A free list's bytes are in place exactly where its numbers and its chain say the cached blocks, and these and the parent's are.
pub fn image_of_free_list()
    ensures { ImageOfFreeList }
{}

/// Who follows the words of the chain from its front visits each cached block once, in order, and then is at 2^64 - 1.
/// What is read of the bytes is the chain that stands there.
pub fn chain_of_cached_blocks()
    ensures read { ChainIsRead }
    ensures walked { ChainIsWalked }
{}
