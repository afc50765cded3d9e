//! Layers, call by call: what no trace can say of them.
#![tactic(auto)]

#[cfg(test)]
mod affixes;
#[cfg(test)]
mod bitmaps;
#[cfg(test)]
mod calls;
#[cfg(test)]
mod collectors;
#[cfg(test)]
mod free_lists;
#[cfg(test)]
mod leaves;
#[cfg(test)]
mod quotas;
#[cfg(test)]
mod regions;
