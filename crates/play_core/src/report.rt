// The report at the end of a trace: the totals, and then what each node says.
ghost use Rattle.std.specs.Prelude.{◌≡◌, ◌≤◌, [], length};
ghost use Rattle.layer_rules.specs.Layering.{Stands, state_of};
ghost use Rattle.play_core.specs.Devices.{writing};
ghost use Rattle.play_core.specs.Ends.{run_at, rules_at, HeldAt, LinesPut};
ghost use Rattle.fact_text.specs.FactText.{and_lines, fact_line, node_lines};
ghost use Rattle.play_core.specs.ReportText.{report_of, total_line, total_lines};

use crate::putting::{put_all, put_lines};
use fact_text::fact_line;
use heap_core::Heap;
use heap_core::laws::blocks_are_measured;
use layer_core::{Fact, Layer};
use line_text::{Line, push_number};
use source_sink::{Failed, Sink};
use space_core::Space;

// A word and a number.
fn total_line(word: &str, number: u64) -> Line
    requires { length word.now ≤ 100 }
    ensures { result.bytes ≡ total_line word.now number }
{
    let mut line = Line::new();
    line.push_str(word);
    line.push_str(" ");
    push_number(&mut line, number);
    line.push_str("\n");
    line
}

// Puts the line of a node, where it has one.
fn put_node<K: Sink>(sink: &mut K, node: u32, fact: Fact, space: &Space) -> Result<(), Failed>
    ensures { LinesPut (writing K.holds K.faults sink.old) (writing K.holds K.faults sink.new) (and_lines (fact_line node fact) []) result }
{
    match fact_line(node, fact) {
        Some(line) => put_lines(sink, &[line], space),
        None => Ok(()),
    }
}

// Puts the lines of all nodes.
fn put_nodes<L: Layer, K: Sink>(root: &L, space: &Space, sink: &mut K) -> Result<(), Failed>
    requires { Stands (L.model root.now) space.now }
    ensures { LinesPut (writing K.holds K.faults sink.old) (writing K.holds K.faults sink.new)
        (node_lines 0 ((L.model root.now).rules.facts (state_of (L.model root.now) space.now) space.now.cells)) result }
{
    let count = root.nodes();
    for node in 0..count {
        put_node(sink, node, root.fact(space, node), space)?;
    }
    Ok(())
}

// Puts the totals.
fn put_totals<L: Layer, K: Sink>(heap: &Heap<L>, space: &Space, sink: &mut K) -> Result<(), Failed>
    requires { HeldAt L.model heap.now space.now }
    ensures { LinesPut (writing K.holds K.faults sink.old) (writing K.holds K.faults sink.new)
        (total_lines (rules_at L.model heap.now) (run_at L.model heap.now space.now)) result }
{
    blocks_are_measured();
    let asked = heap.asked();
    let extent = heap.extent();
    let lines = [
        total_line("live", u64::from(heap.live())),
        total_line("asked", asked),
        total_line("extent", extent),
        total_line("slack", extent.saturating_sub(asked)),
    ];
    put_lines(sink, &lines, space)
}

// Puts the report.
pub(crate) fn put_report<L: Layer, K: Sink>(
    heap: &Heap<L>,
    space: &Space,
    sink: &mut K,
) -> Result<(), Failed>
    requires { HeldAt L.model heap.now space.now }
    ensures { LinesPut (writing K.holds K.faults sink.old) (writing K.holds K.faults sink.new)
        (report_of (rules_at L.model heap.now) (run_at L.model heap.now space.now)) result }
{
    put_totals(heap, space, sink)?;
    put_nodes(heap.root(), space, sink)
}
