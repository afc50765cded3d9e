//! Expressions such as `region(1024, 16, mem)`: what they are made of, how a text is read, and how one is printed.
#![tactic(auto)]

mod fault;
mod flaws;
mod forms;
mod lexing;
mod node;
mod printing;
mod reading;
mod signature;
mod table;
mod token;
mod tree;
mod words;

pub use fault::ExprFault;
pub use printing::{canonical_is_accepted, canonical_is_read, print};
pub use reading::{each_text_is_read_once, read};
pub use tree::{Bounds, Expr, Form, Part, Parts, RoundKind};
