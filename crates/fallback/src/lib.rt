//! The fallback: two layers, of which the second is asked where the primary serves nothing.
#![tactic(auto, unfolding(fallback_rules::specs::FallbackRules::fallback_rules))]

mod two_layers;

ghost use Rattle.fallback.specs.FallbackStanding.{ClosedFallbackStands};

pub use two_layers::Fallback;

/// A closed fallback stands in the Space where its two closed layers stand.
pub fn closed_fallback_stands()
    ensures { ClosedFallbackStands }
{}
