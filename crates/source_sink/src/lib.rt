//! What a program reads from and writes to, each with a count of its faults.
#![tactic(auto)]

mod memory;
mod sink;
mod source;
mod standard;
mod still;
#[cfg(test)]
mod tests;

pub use memory::{MemorySink, MemorySource};
pub use sink::Sink;
pub use source::Source;
pub use standard::{StdSink, StdSource};
pub use still::{StillSink, StillSource};
use thiserror::Error;

/// A device failed, and said no more.
#[derive(Clone, Copy, Debug, PartialEq, Eq, Error)]
#[error("the device failed")]
pub struct Failed;
