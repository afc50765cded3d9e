//! Building: from an expression that was read, or made by hand, to the composition of layers that it stands for.
#![tactic(auto)]

mod building;
pub mod laws;

pub use building::build;
