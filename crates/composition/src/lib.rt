//! The composition that is known only at run time: one type for every composition.
//!
//! `AnyLayer<P>` is a layer of any form over a parent of the type `P`, `Over<P>` such a layer or an end, and `Leaf` is any end of a composition. A
//! `Composition` is eight times `Over` round a `Leaf`: at each level may stand a layer of any form, or the composition
//! ends there, so that a call goes through the layers that stand in it and no other level. It is a layer, proved level
//! by level, by what each parent promises.
//!
//! Each two levels are a type of their own: `Quarter`, `Half`, `ThreeQuarters` and `Composition`. The check goes through
//! all the levels of a nested type at each function that names it, and each further level doubles that; it stops at a
//! type with a proof of its own.
#![tactic(auto)]

mod any_layers;
mod half;
mod leaves;
mod levels;
mod quarter;
mod three_quarters;
mod whole;

pub use any_layers::AnyLayer;
pub use half::Half;
pub use leaves::Leaf;
pub use levels::Over;
pub use quarter::Quarter;
pub use three_quarters::ThreeQuarters;
pub use whole::Composition;

/// Two levels over a layer.
pub type Over2<P> = Over<Over<P>>;
