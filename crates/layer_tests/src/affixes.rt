//! Affixes over a region: the bytes round a block.
#![tactic(auto, unfolding(affix_rules::specs::AffixRules::affix_rules, layer_rules::specs::Handing::handing_rules))]

ghost use Rattle.std.specs.Prelude.{◌≡◌, ◌≤◌, ◌<◌, ◌+◌, true, length};
ghost use Rattle.size_round.specs.Sizes.{is_multiple};
ghost use Rattle.layer_tests.specs.Between.{IsWaiting, IsReady, IsHeld};
ghost use Rattle.layer_laws.specs.Lawful.{most_layers, most_nodes};
ghost use Rattle.affix_layer.specs.AffixModel.{affix_of};

use crate::calls::{lengthen, open, resize, serve, space_and_leaf};
use crate::regions::region_over;
use affix_layer::{Affix, laws};
use layer_core::{Block, Layer};
use size_round::LIMIT;
use space_core::Space;
use std::process::Abort;
use std::test::Fail;

// An affix over the parent, in the Space where the parent stands.
fn affix_over<P: Layer>(_space: &Space, prefix: u64, suffix: u64, parent: P) -> Affix<P>
    requires waiting { IsWaiting (P.model parent) _space.now }
    requires prefix { is_multiple prefix 8 ≡ true }
    requires suffix { is_multiple suffix 8 ≡ true }
    requires prefix_most { prefix ≤ 256 }
    requires suffix_most { suffix ≤ 256 }
    requires aligned { 8 ≤ (P.model parent).rules.alignment }
    requires depth { (P.model parent).rules.depth < most_layers }
    requires few { (P.model parent).rules.nodes < most_nodes }
    ensures waiting { IsWaiting (affix_of P.model result) _space.now }
    ensures depth { (affix_of P.model result).rules.depth ≡ (P.model parent).rules.depth + 1 }
    ensures few { (affix_of P.model result).rules.nodes ≡ (P.model parent).rules.nodes + 1 }
{
    Affix::new(prefix, suffix, parent)
}

// Wants these bytes round a block.
fn wants_round<P: Layer>(
    rt: &impl Abort,
    layer: &Affix<P>,
    space: &Space,
    b: Block,
    prefix: &[u8],
    suffix: &[u8],
)
    requires ready { IsReady (affix_of P.model layer.now) space.now }
    requires held { IsHeld (affix_of P.model layer.now) space.now b }
{
    assert_eq!(rt; layer.prefix(space, b), prefix);
    assert_eq!(rt; layer.suffix(space, b), suffix);
}

// Writes over all the bytes in front of a block that a caller may write.
fn writes_in_front<P: Layer>(
    rt: &impl Abort,
    space: &mut Space,
    layer: &Affix<P>,
    b: Block,
    written: &[u8],
)
    requires ready { IsReady (affix_of P.model layer.now) space.old }
    requires held { IsHeld (affix_of P.model layer.now) space.old b }
    ensures ready { IsReady (affix_of P.model layer.now) space.new }
    ensures held { IsHeld (affix_of P.model layer.now) space.new b }
{
    let lent = Affix::prefix_mut(space, layer, b);
    assert_eq!(rt; lent.len(), written.len());
    lent.copy_from_slice(written);
    laws::writes_round_blocks();
}

// Writes over all the bytes behind a block.
fn writes_behind<P: Layer>(
    rt: &impl Abort,
    space: &mut Space,
    layer: &Affix<P>,
    b: Block,
    written: &[u8],
)
    requires ready { IsReady (affix_of P.model layer.now) space.old }
    requires held { IsHeld (affix_of P.model layer.now) space.old b }
    ensures ready { IsReady (affix_of P.model layer.now) space.new }
    ensures held { IsHeld (affix_of P.model layer.now) space.new b }
{
    let lent = Affix::suffix_mut(space, layer, b);
    assert_eq!(rt; lent.len(), written.len());
    lent.copy_from_slice(written);
    laws::writes_round_blocks();
}

// What stands round a block of 20 bytes, between affixes of 8 bytes, before it grows by 10 and then.
fn grows<P: Layer>(rt: &impl Abort, layer: &mut Affix<P>, space: &mut Space)
    requires { IsReady (affix_of P.model layer.old) space.old }
{
    let mut block = serve(layer, space, 20).expect(rt, "a block");
    wants_round(
        rt,
        layer,
        space,
        block,
        &[20, 0, 0, 0, 0, 0, 0, 0],
        &[0xA5; 8],
    );
    assert!(rt; layer.offers().expand);
    assert!(rt; lengthen(layer, space, &mut block, 10));
    wants_round(
        rt,
        layer,
        space,
        block,
        &[30, 0, 0, 0, 0, 0, 0, 0],
        &[0xA5; 8],
    );
}

// What a block of 20 bytes is after it was asked to have `n`, with what its caller wrote round it still there.
fn resized_to<P: Layer>(
    rt: &impl Abort,
    layer: &mut Affix<P>,
    space: &mut Space,
    n: u64,
    prefix: &[u8],
) -> (bool, u64, u64)
    requires { IsReady (affix_of P.model layer.old) space.old }
{
    let mut block = serve(layer, space, 20).expect(rt, "a block");
    writes_in_front(rt, space, layer, block, &[1, 2, 3, 4, 5, 6, 7, 8]);
    writes_behind(rt, space, layer, block, &[9; 8]);
    let done = resize(layer, space, &mut block, n);
    if block.len > 0 {
        wants_round(rt, layer, space, block, prefix, &[9; 8]);
    }
    (done, block.place, block.len)
}

#[test]
#[tactic(auto, unfolding(leaf_rules::specs::MemRules::mem_rules, region_rules::specs::RegionRules::region_rules, affix_rules::specs::AffixRules::affix_rules, layer_rules::specs::Handing::handing_rules))]
fn an_affix_over_a_region(rt: HostRuntime) -> Result<(), Fail> {
    let (mut space, leaf) = space_and_leaf(rt.alloc(), 16)?;
    let region = region_over(&space, 64, leaf);
    let mut layer = affix_over(&space, 8, 8, region);
    assert!(rt; open(&mut layer, &mut space, 1008).is_ok());
    grows(&rt, &mut layer, &mut space);
    Ok(())
}

#[test]
#[tactic(auto, unfolding(leaf_rules::specs::MemRules::mem_rules, region_rules::specs::RegionRules::region_rules, affix_rules::specs::AffixRules::affix_rules, layer_rules::specs::Handing::handing_rules))]
fn what_a_caller_wrote_goes_along(rt: HostRuntime) -> Result<(), Fail> {
    // By the length that is asked: the answer, the block, and the first byte of its prefix.
    for (n, done, place, len, first) in [
        (20, true, 16, 20, 20),
        (40, true, 16, 40, 40),
        (8, true, 64, 8, 8),
        (0, true, 0, 0, 0),
        (300, false, 16, 20, 20),
        (LIMIT + 1, false, 16, 20, 20),
    ] {
        let (mut space, leaf) = space_and_leaf(rt.alloc(), 4)?;
        let region = region_over(&space, 64, leaf);
        let mut layer = affix_over(&space, 16, 8, region);
        assert!(rt; open(&mut layer, &mut space, 232).is_ok());
        let prefix = [first, 0, 0, 0, 0, 0, 0, 0, 1, 2, 3, 4, 5, 6, 7, 8];
        assert_eq!(rt;
            resized_to(&rt, &mut layer, &mut space, n, &prefix),
            (done, place, len),
            "{n} bytes"
        );
    }
    Ok(())
}
