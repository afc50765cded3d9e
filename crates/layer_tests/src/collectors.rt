//! A collector over a leaf: the fifteen numbers that it tells.
#![tactic(auto, unfolding(stats_rules::specs::StatsRules::stats_rules, layer_rules::specs::Handing::handing_rules))]

ghost use Rattle.std.specs.Prelude.{◌≡◌, ◌≤◌, ◌<◌, ◌+◌};
ghost use Rattle.layer_tests.specs.Between.{IsWaiting};
ghost use Rattle.layer_laws.specs.Lawful.{most_layers, most_nodes};
ghost use Rattle.stats_collector.specs.CollectorModel.{collector_of};

use crate::calls::{close, open, serve, space_and_leaf};
use layer_core::Layer;
use space_core::Space;
use stats_collector::{StatsCollector, in_order};
use std::test::Fail;

// A collector over the parent, in the Space where the parent stands.
fn collector_over<P: Layer>(_space: &Space, parent: P) -> StatsCollector<P>
    requires waiting { IsWaiting (P.model parent) _space.now }
    requires depth { (P.model parent).rules.depth < most_layers }
    requires few { (P.model parent).rules.nodes < most_nodes }
    ensures waiting { IsWaiting (collector_of P.model result) _space.now }
    ensures depth { (collector_of P.model result).rules.depth ≡ (P.model parent).rules.depth + 1 }
    ensures few { (collector_of P.model result).rules.nodes ≡ (P.model parent).rules.nodes + 1 }
    ensures alignment { (collector_of P.model result).rules.alignment ≡ (P.model parent).rules.alignment }
{
    StatsCollector::new(parent)
}

// The numbers of a closed collector are 0, and those of an open one begin with 0.
#[test]
#[tactic(auto, unfolding(leaf_rules::specs::MemRules::mem_rules, stats_rules::specs::StatsRules::stats_rules))]
fn a_collector_over_a_leaf(rt: HostRuntime) -> Result<(), Fail> {
    let (mut space, leaf) = space_and_leaf(rt.alloc(), 16)?;
    let mut collector = collector_over(&space, leaf);
    assert!(rt; collector.nodes() > 0);
    assert_eq!(rt; collector.state_len(0), 0);
    assert!(rt; open(&mut collector, &mut space, 0).is_ok());
    assert_eq!(rt; in_order(collector.stats()), [0; 15]);
    assert!(rt; serve(&mut collector, &mut space, 1025).is_none());
    assert!(rt; serve(&mut collector, &mut space, 100).is_some());
    let counts = [0, 2, 1, 0, 0, 0, 0, 0, 0, 0, 100, 100, 0, 28, 100];
    assert_eq!(rt; in_order(collector.stats()), counts);
    assert!(rt; collector.nodes() > 0);
    assert_eq!(rt; collector.state_len(0), 16);
    close(&mut collector, &mut space);
    assert_eq!(rt; in_order(collector.stats()), [0; 15]);
    Ok(())
}
