// One line, and one byte.
ghost use Rattle.std.specs.Prelude.{◌≡◌, ◌<◌, ◌≤◌, Ok, Some, length, take};
ghost use Rattle.heap_core.specs.Performing.{IsCall};
ghost use Rattle.trace_text.specs.Grammar.{line_call};
ghost use Rattle.play_core.specs.Devices.{writing};
ghost use Rattle.play_core.specs.Ends.{run_at, rules_at, HeldAt, ByteStepped, Fed, Stepped};
ghost use Rattle.play_core.specs.Lines.{IsOpen};
ghost use Rattle.play_core.specs.Outcome.{read_outcome};
ghost use Rattle.play_core.specs.Place.{fed, fed_place, place_of};

use crate::Step;
use crate::putting::{put_all, put_fault};
use crate::reader::{MOST_INPUT, Reader};
use heap_core::{Call, Heap};
use layer_core::Layer;
use line_text::Line;
use source_sink::Sink;
use space_core::Space;
use trace_text::{LineFault, TraceFault, answer_line, read_line};

// Performs one call, and puts its answer, which is formed in the line that is lent.
fn perform_call<L: Layer, K: Sink>(
    heap: &mut Heap<L>,
    space: &mut Space,
    sink: &mut K,
    line: &mut Line,
    number: u64,
    call: &Call,
) -> Step
    requires held { HeldAt L.model heap.old space.old }
    requires call { IsCall call.now }
    ensures stepped { Stepped (read_outcome (rules_at L.model heap.old) (run_at L.model heap.old space.old) (Ok (Some call.now))) number
        (run_at L.model heap.old space.old) (run_at L.model heap.new space.new)
        (writing K.holds K.faults sink.old) (writing K.holds K.faults sink.new) result }
    ensures held { HeldAt L.model heap.new space.new }
    ensures rules { rules_at L.model heap.new ≡ rules_at L.model heap.old }
{
    match heap.perform(space, call) {
        Ok(answer) => {
            answer_line(line, call, &answer);
            match put_all(sink, line.as_str().as_bytes(), space) {
                Ok(()) => Step::Goes,
                Err(_) => Step::SinkFailed,
            }
        }
        Err(fault) => put_fault(sink, number, &TraceFault::Call { fault }, space),
    }
}

// Performs one line, and puts its answer, which is formed in another that is lent.
pub(crate) fn perform_line<L: Layer, K: Sink>(
    heap: &mut Heap<L>,
    space: &mut Space,
    sink: &mut K,
    answer: &mut Line,
    number: u64,
    line: &[u8],
) -> Step
    requires { HeldAt L.model heap.old space.old }
    ensures stepped { Stepped (read_outcome (rules_at L.model heap.old) (run_at L.model heap.old space.old) (line_call line.now)) number
        (run_at L.model heap.old space.old) (run_at L.model heap.new space.new)
        (writing K.holds K.faults sink.old) (writing K.holds K.faults sink.new) result }
    ensures held { HeldAt L.model heap.new space.new }
    ensures rules { rules_at L.model heap.new ≡ rules_at L.model heap.old }
{
    match read_line(line) {
        Ok(Some(call)) => perform_call(heap, space, sink, answer, number, &call),
        Ok(None) => Step::Goes,
        Err(fault) => put_fault(sink, number, &TraceFault::Line { fault }, space),
    }
}

// Takes the next byte.
#[tactic(auto, unfolding(crate::specs::Place::fed, crate::specs::Place::fed_place))]
fn feed<L: Layer, K: Sink>(
    heap: &mut Heap<L>,
    space: &mut Space,
    sink: &mut K,
    answer: &mut Line,
    reader: &mut Reader,
    byte: u8,
) -> Step
    requires { HeldAt L.model heap.old space.old }
    ensures stepped { ByteStepped (fed (rules_at L.model heap.old) (place_of reader.old (run_at L.model heap.old space.old)) byte) reader.old.number
        (run_at L.model heap.old space.old) (run_at L.model heap.new space.new)
        (writing K.holds K.faults sink.old) (writing K.holds K.faults sink.new) result }
    ensures place { result ≡ Step.Goes → place_of reader.new (run_at L.model heap.new space.new)
        ≡ fed_place (place_of reader.old (run_at L.model heap.old space.old)) byte (run_at L.model heap.new space.new) }
    ensures held { HeldAt L.model heap.new space.new }
    ensures rules { rules_at L.model heap.new ≡ rules_at L.model heap.old }
{
    if reader.before + reader.begun.len() >= MOST_INPUT {
        return put_fault(sink, reader.number, &TraceFault::TooMuchInput, space);
    }
    if byte == b'\n' {
        let len = reader.begun.len();
        let step = perform_line(
            heap,
            space,
            sink,
            answer,
            reader.number,
            reader.begun.as_slice(),
        );
        if step == Step::Goes {
            reader.pass_line(len);
        }
        return step;
    }
    if reader.begun.is_full() {
        let fault = LineFault::TooLong;
        return put_fault(sink, reader.number, &TraceFault::Line { fault }, space);
    }
    reader.begun.push(byte);
    Step::Goes
}

// Takes the next line where it lies whole in the bytes, and else the next byte. Says how many bytes that were.
pub(crate) fn feed_next<L: Layer, K: Sink>(
    heap: &mut Heap<L>,
    space: &mut Space,
    sink: &mut K,
    answer: &mut Line,
    reader: &mut Reader,
    bytes: &[u8],
) -> (Step, usize)
    requires some { 0 < length bytes.now }
    requires opened { IsOpen reader.old.begun.items }
    requires short { length reader.old.begun.items ≤ 256 }
    requires held { HeldAt L.model heap.old space.old }
    ensures some { 0 < result.1 }
    ensures within { result.1 ≤ length bytes.now }
    ensures fed { Fed (rules_at L.model heap.old) (place_of reader.old (run_at L.model heap.old space.old)) (take result.1 bytes.now)
        (place_of reader.new (run_at L.model heap.new space.new))
        (writing K.holds K.faults sink.old) (writing K.holds K.faults sink.new) result.0 }
    ensures held { HeldAt L.model heap.new space.new }
    ensures rules { rules_at L.model heap.new ≡ rules_at L.model heap.old }
{
    let Some(line) = reader.whole_line(bytes) else {
        return (feed(heap, space, sink, answer, reader, bytes[0]), 1);
    };
    let taken = line.len() + 1;
    match perform_line(heap, space, sink, answer, reader.number, line) {
        Step::Goes => {
            reader.pass_line(line.len());
            (Step::Goes, taken)
        }
        step => (step, taken),
    }
}
