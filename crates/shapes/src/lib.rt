//! Shapes: the compositions of layers that an expression can name, their rules, and what holds of each of them.
#![tactic(auto)]

pub mod examples;
pub mod laws;
