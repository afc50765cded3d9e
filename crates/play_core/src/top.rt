// The top call.
ghost use Rattle.std.specs.Prelude.{◌≡◌, ◌⊎◌, ℕ, List, map, string_bytes, false, true, None, IsSome};
ghost use Rattle.space_core.specs.Memory.{no_memory};
ghost use Rattle.source_sink.specs.Counts.{Rose};
ghost use Rattle.expr_reader.specs.Trees.{Tree as Expression};
ghost use Rattle.play_core.specs.Asked.{Asked, Asks, IsExpressionFault, IsGranted, IsInput, IsOpeningRefused, Replays};
ghost use Rattle.play_core.specs.Command.{command_of, IsCheck, IsReplay};
ghost use Rattle.play_core.specs.Devices.{reading, writing};
ghost use Rattle.play_core.specs.Runs.{HasAllFree, IsEarly, IsStatusWhere, IsTold, Runs};
ghost use Rattle.play_core.specs.Telling.{status_of, telling};
ghost use Rattle.play_core.specs.WholeRuns.{TellsBlockRun};

use crate::Status;
use crate::expression::{check_text, expression_line};
use crate::laws::whole_runs;
use crate::playing::play;
use crate::putting::put_only;
use crate::words::Command;
use expr_reader::{ExprFault, each_text_is_read_once, read};
use source_sink::{Sink, Source};
use space_core::Space;
use std::alloc::Global;

const USAGE: &str = "usage: heaplay check EXPR\n       heaplay replay EXPR CELLS\n";

// Does what the words say.
fn obey<S: Source, K: Sink>(
    alloc: Global,
    words: &[String],
    source: &mut S,
    sink: &mut K,
    space: &mut Space,
) -> Status
    requires opened { S.finished source.old ≡ false }
    requires closed { space.old ≡ no_memory 0 }
    ensures early { IsEarly result → source.new ≡ source.old }
    ensures check { IsCheck (command_of (map string_bytes words.now)) → source.new ≡ source.old }
    ensures no_memory { result ≡ Status.NoMemory → (sink.new ≡ sink.old) × IsSome (command_of (map string_bytes words.now)) }
    ensures flushed { (result ≡ Status.WriteFault → ⊥) → (result ≡ Status.NoMemory → ⊥) → K.flushed sink.new ≡ true }
    ensures runs { (asked : Asked) → Asks (map string_bytes words.now) asked → Runs asked
        (reading S.left S.faults S.finished source.old) (reading S.left S.faults S.finished source.new)
        (writing K.holds K.faults sink.old) (writing K.holds K.faults sink.new) space.new result }
{
    let Some(command) = Command::parse(words) else {
        return put_only(sink, USAGE.as_bytes(), Status::Usage, space);
    };
    let expr = match read(alloc, command.expression()) {
        Ok(expr) => expr,
        Err(ExprFault::NoMemory) => return Status::NoMemory,
        Err(fault) => {
            let line = expression_line(fault);
            return put_only(sink, line.as_str().as_bytes(), Status::Expression, space);
        }
    };
    match command {
        Command::Check { .. } => match check_text(alloc, &expr, space) {
            Ok(text) => put_only(sink, text.as_bytes(), Status::Good, space),
            Err(_no_memory) => Status::NoMemory,
        },
        Command::Replay { cells, .. } => play(alloc, &expr, cells, source, sink, space),
    }
}

/// Does what the words say. `check EXPR` writes what stands in the expression. `replay EXPR CELLS` runs the trace that
/// the source gives, on a heap of its layers over a Space of so many cells of 64 bytes, and writes each answer and at
/// the end a report to the sink.
///
/// The words are those behind the program's name. `EXPR` is a text that `expr_reader::read` accepts, and `CELLS` is a
/// number of 1 to 262,144. The source is asked for at most 4,096 bytes at a time, and before it is asked again each
/// whole line was performed, and its answer was put and handed on. At the end all that was put is handed on. The
/// Space is lent closed, and the sink sees it as it stands at each piece.
///
/// The status says how it ended. Memory is taken before the first byte is read or written, and not after that.
pub fn run<S: Source, K: Sink>(
    alloc: Global,
    words: &[String],
    source: &mut S,
    sink: &mut K,
    space: &mut Space,
) -> Status
    requires opened { S.finished source.old ≡ false }
    requires closed { space.old ≡ no_memory 0 }

    // Where neither count of faults rose, status and text are those of what is told, by what the words ask for and the
    // input, and the Space is left with the last run. Only memory may be lacking.
    ensures told { (result ≡ Status.NoMemory → ⊥) → (Rose (S.faults source.old) (S.faults source.new) → ⊥) → (Rose (K.faults sink.old) (K.faults sink.new) → ⊥)
        → (asked : Asked) → Asks (map string_bytes words.now) asked → (input : List ℕ) → IsInput asked (S.left source.old) input
        → IsTold (telling asked input) (writing K.holds K.faults sink.old) (writing K.holds K.faults sink.new) space.new result }

    // What any input is told on the layers of any expression is a run of the machine of blocks: each answer is one step,
    // which says of each block whether its bytes and its route stay, and that owns answers by that route. Null comes
    // exactly where 0 bytes are asked or the root refuses, a refused call changes nothing but statistics, and at each
    // piece the live blocks lie in the area, are aligned, share no byte and are found on their routes.
    ensures moves { (e : Expression) → (cells : ℕ) → Asks (map string_bytes words.now) (Replays e cells) → (input : List ℕ)
        → TellsBlockRun cells (telling (Replays e cells) input) }

    // Good comes only without a fault, and after a replay only with the input read to its end.
    ensures good { result ≡ Status.Good → (K.faults sink.new ≡ K.faults sink.old)
        × (IsReplay (command_of (map string_bytes words.now)) → (S.finished source.new ≡ true) × (S.faults source.new ≡ S.faults source.old)) }

    // These come exactly where the words are told so, but for a fault of the sink, and for want of memory.
    ensures usage { IsStatusWhere result Status.Usage (command_of (map string_bytes words.now) ≡ None) (Rose (K.faults sink.old) (K.faults sink.new)) }
    ensures expression { IsStatusWhere result Status.Expression (IsExpressionFault (map string_bytes words.now))
        (Rose (K.faults sink.old) (K.faults sink.new) ⊎ (result ≡ Status.NoMemory)) }
    ensures opening_refused { IsStatusWhere result Status.OpeningRefused (IsOpeningRefused (map string_bytes words.now))
        (Rose (K.faults sink.old) (K.faults sink.new) ⊎ (result ≡ Status.NoMemory)) }

    // A line is in fault exactly where the input is told so, but for a fault of a device, and for want of memory.
    ensures trace { (asked : Asked) → Asks (map string_bytes words.now) asked → (input : List ℕ) → IsInput asked (S.left source.old) input
        → IsStatusWhere result Status.Trace (status_of (telling asked input) ≡ Status.Trace)
        (Rose (S.faults source.old) (S.faults source.new) ⊎ (Rose (K.faults sink.old) (K.faults sink.new) ⊎ (result ≡ Status.NoMemory))) }

    // A fault of a device comes only where its count rose, and the source's only after an opening.
    ensures read_fault { result ≡ Status.ReadFault → IsGranted (map string_bytes words.now)
        × (S.finished source.new ≡ true) × Rose (S.faults source.old) (S.faults source.new) }
    ensures write_fault { result ≡ Status.WriteFault → Rose (K.faults sink.old) (K.faults sink.new) }

    // All that was put was handed on, unless that failed. So it is where the source failed too: before it was asked, each
    // answer so far had been handed on.
    ensures flushed { (result ≡ Status.WriteFault → ⊥) → (result ≡ Status.NoMemory → ⊥) → K.flushed sink.new ≡ true }

    // Memory lacks only where the words are a command, and before anything is read or written.
    ensures no_memory { result ≡ Status.NoMemory → (source.new ≡ source.old) × (sink.new ≡ sink.old) × IsSome (command_of (map string_bytes words.now)) }

    // With these nothing was read, and no cell is taken.
    ensures untouched { IsEarly result → (source.new ≡ source.old) × HasAllFree space.new }

    // So it is whenever an expression is checked.
    ensures check { IsCheck (command_of (map string_bytes words.now)) → (source.new ≡ source.old) × HasAllFree space.new }

    // What was taken and written, and what stands then, in each case.
    ensures runs { (asked : Asked) → Asks (map string_bytes words.now) asked → Runs asked
        (reading S.left S.faults S.finished source.old) (reading S.left S.faults S.finished source.new)
        (writing K.holds K.faults sink.old) (writing K.holds K.faults sink.new) space.new result }
{
    whole_runs();
    each_text_is_read_once();
    obey(alloc, words, source, sink, space)
}
