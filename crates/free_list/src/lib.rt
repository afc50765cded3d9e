//! The free list: a layer that keeps freed blocks of like lengths for the next request of such a length.
#![tactic(auto, unfolding(free_list_rules::specs::FreeListRules::free_list_rules))]

mod caching;

ghost use Rattle.std.specs.Prelude.{◌≡◌};
ghost use Rattle.size_round.specs.Sizes.{is_between};
ghost use Rattle.free_list_rules.specs.FreeListRules.{cache_size, cache_down, cache_need};

pub use caching::FreeList;
use layer_core::Block;

// Whether blocks of this length are cached.
fn is_cached(least: u64, greatest: u64, n: u64) -> bool
    ensures { result ≡ is_between least greatest n }
{
    least <= n && n <= greatest
}

// The length that the parent serves for `n`.
fn parent_len(least: u64, greatest: u64, n: u64) -> u64
    ensures { result ≡ cache_size least greatest n }
{
    if is_cached(least, greatest, n) {
        greatest
    } else {
        n
    }
}

// The block as the parent sees it.
fn parent_block(least: u64, greatest: u64, b: Block) -> Block
    ensures { result ≡ cache_down least greatest b }
{
    Block {
        place: b.place,
        len: parent_len(least, greatest, b.len),
    }
}

// What the parent is opened with.
fn parent_need(least: u64, greatest: u64, need: u64) -> u64
    ensures { result ≡ cache_need least greatest need }
{
    if need == 0 {
        0
    } else {
        parent_len(least, greatest, need)
    }
}
