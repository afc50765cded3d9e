//! The report of a heap.
ghost use Rattle.std.specs.Prelude.{◌≡◌, ◌++◌, [], IfOk, OnOk, string_bytes};
ghost use Rattle.std.specs.List.{concat};
ghost use Rattle.fact_text.specs.FactText.{and_lines, fact_line};
ghost use Rattle.owned_heap.specs.Reports.{report_in};

use crate::heap::OwnedHeap;
use fact_text::fact_line;
use layer_core::{Fact, Layer};
use space_core::NoMemory;
use std::alloc::{AllocError, Global};

impl<L: Layer> OwnedHeap<L> {
    /// The report: a line for each node that has something to tell, in preorder from the root as node 0.
    ///
    /// # Errors
    /// `NoMemory` where the process has no memory for the text.
    pub fn report(&self, alloc: Global) -> Result<String, NoMemory>
        ensures { IfOk result (λ text. string_bytes text ≡ report_in L.model self.now) }
    {
        let mut text = String::new(alloc);
        for node in 0..self.nodes() {
            push_node(&mut text, node, self.fact(node))?;
        }
        Ok(text)
    }
}

// Puts the line of a node, where it has one.
fn push_node(text: &mut String, node: u32, fact: Fact) -> Result<(), AllocError>
    ensures { OnOk result (string_bytes text.new ≡ string_bytes text.old ++ concat (and_lines (fact_line node fact) [])) }
{
    match fact_line(node, fact) {
        Some(line) => text.push_str(line.as_str()),
        None => Ok(()),
    }
}
