//! The region: a layer that bumps a position through one chunk of its parent.
#![tactic(auto, unfolding(region_rules::specs::RegionRules::region_rules))]

mod bump;

ghost use Rattle.std.specs.Prelude.{◌≡◌};
ghost use Rattle.layer_rules.specs.Setting.{need_of};

pub use bump::Region;

// What the parent is opened with: nothing where nothing is needed, and else the chunk's size.
fn parent_need(need: u64, size: u64) -> u64
    ensures { result ≡ need_of need size }
{
    if need == 0 { 0 } else { size }
}
