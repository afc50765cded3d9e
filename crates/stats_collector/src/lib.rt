//! The statistics collector: a layer that hands all down to its parent and counts the calls.
#![tactic(auto, unfolding(stats_rules::specs::StatsRules::stats_rules, layer_rules::specs::Handing::handing_rules))]

mod collector;
mod counting;

pub use collector::StatsCollector;
pub use counting::in_order;
pub use layer_rules::Stats;
