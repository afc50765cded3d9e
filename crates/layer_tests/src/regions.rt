//! Regions over a leaf, call by call.
#![tactic(auto, unfolding(region_rules::specs::RegionRules::region_rules))]

ghost use Rattle.std.specs.Prelude.{◌≡◌, ◌≤◌, ◌<◌, ◌+◌};
ghost use Rattle.layer_tests.specs.Between.{IsWaiting};
ghost use Rattle.size_round.specs.Sizes.{size_bound};
ghost use Rattle.layer_laws.specs.Lawful.{most_layers, most_nodes};
ghost use Rattle.region_block.specs.RegionModel.{region_of};

use crate::calls::{open, space_and_leaf};
use layer_core::{Asked, Block, Layer, Path};
use region_block::Region;
use size_round::LIMIT;
use space_core::Space;
use std::process::Abort;
use std::test::Fail;

// A region over the parent, of `size` bytes at least, that serves at multiples of 16, in the Space where the parent stands.
pub fn region_over<P: Layer>(_space: &Space, size: u64, parent: P) -> Region<P>
    requires waiting { IsWaiting (P.model parent) _space.now }
    requires some { 1 ≤ size }
    requires most { size ≤ size_bound }
    requires aligned { 16 ≤ (P.model parent).rules.alignment }
    requires depth { (P.model parent).rules.depth < most_layers }
    requires few { (P.model parent).rules.nodes < most_nodes }
    ensures waiting { IsWaiting (region_of P.model result) _space.now }
    ensures aligned { (region_of P.model result).rules.alignment ≡ 16 }
    ensures depth { (region_of P.model result).rules.depth ≡ (P.model parent).rules.depth + 1 }
    ensures few { (region_of P.model result).rules.nodes ≡ (P.model parent).rules.nodes + 1 }
{
    Region::new(size, 16, parent)
}

// Which blocks a region of 208 bytes owns, and what stands at the ends of paths in it.
fn owned<P: Layer>(rt: &impl Abort, region: &mut Region<P>, space: &mut Space)
    requires { IsWaiting (region_of P.model region.old) space.old }
{
    let byte = Block { place: 0, len: 1 };
    assert!(rt; !region.holds(byte));
    assert_eq!(rt; region.state_len(0), 0);
    assert!(rt; open(region, space, 200).is_ok());
    for (place, len, held) in [
        (0, 0, false),
        (0, 208, true),
        (0, 209, false),
        (207, 1, true),
        (208, 1, false),
        (u64::MAX, 1, false),
        (0, LIMIT + 1, false),
    ] {
        assert_eq!(rt; region.holds(Block { place, len }), held, "{place} {len}");
    }
    let mut path = Path::new();
    assert!(rt; matches!(region.owns_at(&path, 0, byte), Asked::Yes));
    assert!(rt;
        matches!(
            region.owns_at(&path, 0, Block { place: 0, len: 0 }),
            Asked::No
        )
    );
    assert!(rt; path.add(0));
    assert!(rt; matches!(region.owns_at(&path, 0, byte), Asked::NotServing));
    assert!(rt; path.add(1));
    assert!(rt; matches!(region.owns_at(&path, 1, byte), Asked::NoSuchLayer));
    assert!(rt; region.owns(byte));
}

#[test]
#[tactic(auto, unfolding(leaf_rules::specs::MemRules::mem_rules, region_rules::specs::RegionRules::region_rules))]
fn a_region_over_a_leaf(rt: HostRuntime) -> Result<(), Fail> {
    let (mut space, leaf) = space_and_leaf(rt.alloc(), 16)?;
    let mut region = region_over(&space, 64, leaf);
    for (size, good) in [
        (0, 0),
        (1, 16),
        (100, 112),
        (LIMIT, LIMIT),
        (LIMIT + 1, LIMIT + 1),
    ] {
        assert_eq!(rt; region.good_alloc_size(size), good, "{size} bytes");
    }
    owned(&rt, &mut region, &mut space);
    Ok(())
}
