//! A quota over a leaf that has room for more, by the calls that every layer has.
#![tactic(auto, unfolding(quota_rules::specs::QuotaRules::quota_rules, layer_rules::specs::Handing::handing_rules))]

ghost use Rattle.layer_tests.specs.Between.{IsWaiting, IsReady, IsHeld};
ghost use Rattle.quota.specs.QuotaModel.{quota_of};
ghost use Rattle.quota.specs.QuotaProper.{IsProper};

use crate::calls::{clear, close, lengthen, open, serve, space_and_leaf, take_back};
use layer_core::{Asked, Block, Fact, Layer, NullLayer, Path};
use quota::Quota;
use space_core::Space;
use std::process::Abort;
use std::test::Fail;

// A quota over the parent, in the Space where the parent stands.
fn quota_over<P: Layer>(_space: &Space, most: u64, parent: P) -> Quota<P>
    requires waiting { IsWaiting (P.model parent) _space.now }
    requires proper { IsProper (P.model parent).rules }
    ensures { IsWaiting (quota_of P.model result) _space.now }
{
    Quota::new(most, parent)
}

// The two numbers that an open layer tells of itself.
fn told<L: Layer>(rt: &impl Abort, layer: &L, space: &Space) -> [u64; 2]
    requires { IsReady (L.model layer.now) space.now }
{
    assert!(rt; layer.nodes() > 0);
    match layer.fact(space, 0) {
        Fact::Numbers { first, second } => [first, second],
        _ => panic!(rt; "no numbers"),
    }
}

// What a layer of 200 bytes tells of itself when they are all out and when 100 came back, and then the places of its second block
// and of the one that is served in its stead.
fn answers<L: Layer>(rt: &impl Abort, layer: &mut L, space: &mut Space) -> [[u64; 2]; 3]
    requires { IsWaiting (L.model layer.old) space.old }
    ensures { IsWaiting (L.model layer.new) space.new }
{
    assert!(rt; open(layer, space, 201).is_err());
    assert!(rt; open(layer, space, 200).is_ok());
    assert!(rt; serve(layer, space, 100).is_some());
    let last = serve(layer, space, 100).expect(rt, "a second block");
    assert!(rt; serve(layer, space, 1).is_none());
    let full = told(rt, layer, space);
    assert!(rt; take_back(layer, space, last));
    let back = told(rt, layer, space);
    let again = serve(layer, space, 60).expect(rt, "a block in its stead");
    close(layer, space);
    assert!(rt; !layer.is_open());
    [full, back, [last.place, again.place]]
}

// Makes a block longer by `delta` bytes where the layer can.
fn grow<L: Layer>(
    rt: &impl Abort,
    layer: &mut L,
    space: &mut Space,
    b: &mut Block,
    delta: u64,
) -> bool
    requires ready { IsReady (L.model layer.old) space.old }
    requires held { IsHeld (L.model layer.old) space.old b.old }
    ensures ready { IsReady (L.model layer.new) space.new }
    ensures held { IsHeld (L.model layer.new) space.new b.new }
{
    assert!(rt; layer.offers().expand);
    lengthen(layer, space, b, delta)
}

// What a layer of 200 bytes tells of itself when its block of 100 bytes has all of them, and when all came back.
fn grown<L: Layer>(rt: &impl Abort, layer: &mut L, space: &mut Space) -> [[u64; 2]; 2]
    requires { IsWaiting (L.model layer.old) space.old }
{
    assert!(rt; open(layer, space, 0).is_ok());
    let mut block = serve(layer, space, 100).expect(rt, "a block");
    assert!(rt; !grow(rt, layer, space, &mut block, 101));
    assert!(rt; grow(rt, layer, space, &mut block, 100));
    assert!(rt; !grow(rt, layer, space, &mut block, 1));
    assert_eq!(rt; block.len, 200);
    let full = told(rt, layer, space);
    clear(rt, layer, space);
    let back = told(rt, layer, space);
    assert!(rt; layer.nodes() > 0);
    assert_eq!(rt; layer.state_len(0), 2);
    assert_eq!(rt;
        [layer.state_number(0, 0), layer.state_number(0, 1)],
        [1, back[0]]
    );
    close(layer, space);
    [full, back]
}

// What the layer at the end of a path of one step answers of a block.
fn asked<L: Layer>(layer: &L, step: u32, b: Block) -> Asked {
    let mut path = Path::new();
    path.add(step);
    layer.owns_at(&path, 0, b)
}

#[test]
#[tactic(auto, unfolding(leaf_rules::specs::MemRules::mem_rules))]
fn a_quota_over_a_leaf(rt: HostRuntime) -> Result<(), Fail> {
    let (mut space, leaf) = space_and_leaf(rt.alloc(), 16)?;
    let mut quota = quota_over(&space, 200, leaf);
    assert_eq!(rt;
        answers(&rt, &mut quota, &mut space),
        [[200, 200], [100, 200], [128, 128]]
    );
    assert_eq!(rt; grown(&rt, &mut quota, &mut space), [[200, 200], [0, 200]]);
    Ok(())
}

// A null layer owns no block, and has no child.
#[test]
#[tactic(auto, unfolding(leaf_rules::specs::MemRules::mem_rules, layer_rules::specs::NullRules::null_rules))]
fn a_quota_on_a_path(rt: HostRuntime) -> Result<(), Fail> {
    let (space, _leaf) = space_and_leaf(rt.alloc(), 16)?;
    let block = Block { place: 0, len: 64 };
    let quota = quota_over(&space, 200, NullLayer::new());
    assert!(rt; quota.offers().owns);
    assert!(rt; !quota.holds(block));
    assert!(rt; matches!(asked(&quota, 0, block), Asked::No));
    assert!(rt; matches!(asked(&quota, 1, block), Asked::NoSuchLayer));
    Ok(())
}
