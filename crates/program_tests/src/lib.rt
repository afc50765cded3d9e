//! The program as a whole, and the texts that it reads and writes.
#![tactic(auto)]

#[cfg(test)]
mod expressions;
#[cfg(test)]
mod layers;
#[cfg(test)]
mod lines;
#[cfg(test)]
mod runs;
