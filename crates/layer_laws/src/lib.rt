//! The laws of layers: what is asked of the rules of a form, in families, and what holds of every layer whatever its form. Each law
//! that a caller may rest on is a clause of a function that does nothing.
#![tactic(auto)]

pub mod kits;
pub mod meanings;
pub mod members;
pub mod rules;
pub mod standing;
