//! The quota: a layer that has no more than so many bytes of its parent out.
//!
//! It is also the example of a form that anyone can add: its rules and their laws stand in
//! `quota_rules`, its code and the proof of it here, and no other crate knows of it.
#![tactic(auto, unfolding(quota_rules::specs::QuotaRules::quota_rules, layer_rules::specs::Handing::handing_rules))]

mod limit;

pub use limit::Quota;
