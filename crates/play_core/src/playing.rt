// A replay: the Space, the root and the heap are made, and the trace is run on them.
ghost use Rattle.std.specs.Prelude.{◌≡◌, ◌≤◌, List, ℕ, false, true};
ghost use Rattle.space_core.specs.Memory.{most_cells, no_memory};
ghost use Rattle.layer_rules.specs.Layering.{Stands, IsShut};
ghost use Rattle.expr_reader.specs.Buildable.{IsBuildable};
ghost use Rattle.expr_reader.specs.Trees.{tree_of};
ghost use Rattle.play_core.specs.Asked.{Replays};
ghost use Rattle.play_core.specs.Devices.{reading, writing};
ghost use Rattle.play_core.specs.Runs.{HasAllFree, IsEarly, PlaysOn, Runs};
ghost use Rattle.play_core.specs.Telling.{refused_text};

use crate::Status;
use crate::putting::put_only;
use crate::replaying::replay;
use expr_builder::build;
use expr_builder::laws::buildable_are_compositions;
use expr_reader::Expr;
use heap_core::{Heap, MakeFault};
use layer_core::Layer;
use line_text::{Line, push_number};
use source_sink::{Sink, Source};
use space_core::Space;
use std::alloc::Global;

// The line that tells which node refused to be opened.
#[tactic(auto, unfolding(crate::specs::Telling::refused_text))]
fn refused_line(node: u32) -> Line
    ensures { result.bytes ≡ refused_text node }
{
    let mut line = Line::new();
    line.push_str("opening refused at node ");
    push_number(&mut line, u64::from(node));
    line.push_str("\n");
    line
}

// Makes a heap of a closed root, and runs the trace on it.
fn play_on<L: Layer, S: Source, K: Sink>(
    alloc: Global,
    root: L,
    source: &mut S,
    sink: &mut K,
    space: &mut Space,
) -> Status
    requires opened { S.finished source.old ≡ false }
    requires stands { Stands (L.model root) space.old }
    requires shut { IsShut (L.model root) }
    requires free { HasAllFree space.old }
    ensures early { IsEarly result → source.new ≡ source.old }
    ensures no_memory { result ≡ Status.NoMemory → sink.new ≡ sink.old }
    ensures flushed { (result ≡ Status.WriteFault → ⊥) → (result ≡ Status.NoMemory → ⊥) → K.flushed sink.new ≡ true }
    ensures plays { PlaysOn (L.model root).rules ((L.model root).rules.set_up 0 space.old.cells)
        (reading S.left S.faults S.finished source.old) (reading S.left S.faults S.finished source.new)
        (writing K.holds K.faults sink.old) (writing K.holds K.faults sink.new) space.new result }
{
    match Heap::make(alloc, root, space) {
        Ok(mut heap) => replay(&mut heap, space, source, sink),
        Err(MakeFault::NoMemory) => Status::NoMemory,
        Err(MakeFault::Refused { node }) => {
            let line = refused_line(node);
            put_only(
                sink,
                line.as_str().as_bytes(),
                Status::OpeningRefused,
                space,
            )
        }
    }
}

// Makes the Space and the root that the expression stands for, and runs the trace on it.
pub(crate) fn play<S: Source, K: Sink>(
    alloc: Global,
    expr: &Expr,
    cells: u32,
    source: &mut S,
    sink: &mut K,
    space: &mut Space,
) -> Status
    requires opened { S.finished source.old ≡ false }
    requires closed { space.old ≡ no_memory 0 }
    requires buildable { IsBuildable (tree_of expr.now) }
    requires some_cells { 1 ≤ cells }
    requires most_cells { cells ≤ most_cells }
    ensures early { IsEarly result → source.new ≡ source.old }
    ensures no_memory { result ≡ Status.NoMemory → sink.new ≡ sink.old }
    ensures flushed { (result ≡ Status.WriteFault → ⊥) → (result ≡ Status.NoMemory → ⊥) → K.flushed sink.new ≡ true }
    ensures runs { Runs (Replays (tree_of expr.now) cells)
        (reading S.left S.faults S.finished source.old) (reading S.left S.faults S.finished source.new)
        (writing K.holds K.faults sink.old) (writing K.holds K.faults sink.new) space.new result }
{
    buildable_are_compositions();
    let Ok(()) = space.set_up(alloc, cells) else {
        return Status::NoMemory;
    };
    let Ok(root) = build(alloc, expr, space) else {
        return Status::NoMemory;
    };
    play_on(alloc, root, source, sink, space)
}
