//! What a row of tokens spells: a word with its arguments, whatever the word is.

use crate::token::{Choice, Name};

/// A word, alone or with its arguments.
#[cycle(node)]
#[derive(Drop)]
pub enum Node {
    Leaf { at: u64, name: Name },
    Inner { at: u64, name: Name, args: Args },
}

/// What stands between parentheses.
#[cycle(node)]
#[derive(Drop)]
pub enum Args {
    Last { below: Box<Node> },
    Number { value: u64, rest: Box<Args> },
    Chosen { choice: Choice, rest: Box<Args> },
    Layer { below: Box<Node>, rest: Box<Args> },
}

/// A number, or a word in place of numbers.
#[derive(Clone, Copy, Drop)]
pub enum Head {
    Number(u64),
    Chosen(Choice),
}
